//! The models and items that the rows start from, also at the limits of the language and one past them.

use pst_tests::support::COUNTER;
use std::alloc::{AllocError, Global};

/// The counter, followed by a run and a case.
pub const COUNTER_AND_ITEMS: &str = "(model counter (state int) (init 0)
  (command (list call (call inc) (call get)))
  (op inc () int (pre true) (next (+ s 1)) (post (= r (+ s 1))))
  (op get () int (pre true) (next s) (post (= r s))))
(run (prefix (inc)) (left (inc) (get)) (right (inc)) (replies (1) (2 3) (3)))
(case (prefix) (left (get)) (right (get)))";

/// An operation for each type of answers. Its postconditions are true.
pub const TYPES: &str = "(model2 types (state int) (init 0) (command (list call))
  (op number ((row text)) int (pre true) (next s) (post true))
  (op truth ((row text)) bool (pre true) (next s) (post true))
  (op word ((row text)) text (pre true) (next s) (post true))
  (op pair ((row text)) (tuple int (list int)) (pre true) (next s) (post true))
  (op numbers ((row text)) (list int) (pre true) (next s) (post (= (len r) 65536)))
  (op lists ((row text)) (list (list int)) (pre true) (next s) (post true))
  (op table ((row text)) (map int int) (pre true) (next s) (post true)))";

/// A model or a file of items at a limit.
#[derive(Clone, Copy, Drop)]
pub enum InputLimit {
    /// 64 functions of depth 64, each of which applies the one before.
    Functions,
    /// 64 functions of depth 64 in a postcondition that is false.
    FalseFunctions,
    /// 64 functions of depth 64 in a postcondition that faults in the function that all others apply.
    FaultingFunctions,
    /// Callbacks of depth 64: sums, folds in folds, comprehensions in comprehensions.
    Expressions,
    /// A state, a parameter and a result of a type of 16 levels.
    Types,
    /// A reply in 100 levels of trees.
    Reply,
    /// A reply in 101 levels of trees.
    TooDeepReply,
    /// An argument in 100 levels of trees.
    Argument,
    /// A model of 20,000 trees.
    Trees,
    /// A model of 20,001 trees.
    TooManyTrees,
    /// A state of 65,536 items.
    List,
    /// A state of 65,536 bytes.
    Text,
    /// A state of 4,096 keys.
    Map,
    /// 64 commands before branches of 8, and 8 after them.
    Commands,
    /// One command more before the branches.
    TooManyCommands,
    /// 65,536 calls to pick from, each of which has a precondition of nearly all turns.
    Calls,
}

/// All limits with their names.
pub const LIMITS: [(&str, InputLimit); 16] = [
    ("functions", InputLimit::Functions),
    ("false functions", InputLimit::FalseFunctions),
    ("faulting functions", InputLimit::FaultingFunctions),
    ("expressions", InputLimit::Expressions),
    ("types", InputLimit::Types),
    ("reply", InputLimit::Reply),
    ("deeper reply", InputLimit::TooDeepReply),
    ("argument", InputLimit::Argument),
    ("20000 trees", InputLimit::Trees),
    ("20001 trees", InputLimit::TooManyTrees),
    ("list", InputLimit::List),
    ("text", InputLimit::Text),
    ("map", InputLimit::Map),
    ("commands", InputLimit::Commands),
    ("one command more", InputLimit::TooManyCommands),
    ("calls", InputLimit::Calls),
];

/// A case and a run of calls of `get` that answer 0.
const GETS: &str = "(case (prefix (get)) (left (get)) (right (get)))
(run (prefix (get)) (left (get)) (right (get)) (replies (0) (0) (0)))";

/// `count` times `beginning`, then `inner`, then `count` times `end`.
pub fn text_wrapped_count_times(
    alloc: Global,
    beginning: &str,
    inner: &str,
    end: &str,
    count: usize,
) -> Result<String, AllocError> {
    let mut text = beginning.repeat(alloc, count)?;
    text.push_str(inner)?;
    let ends = end.repeat(alloc, count)?;
    text.push_str(ends.as_str())?;
    Ok(text)
}

/// 64 functions of depth 64, the first of which has the body.
fn deep_function_chain_with_first_body(alloc: Global, body: &str) -> Result<String, AllocError> {
    let mut functions = format!(in alloc; "(fun f1 () bool {body})\n")?;
    for number in 2..65u32 {
        let before = number - 1;
        let inner = format!(in alloc; "(f{before})")?;
        let body = text_wrapped_count_times(alloc, "(not ", inner.as_str(), ")", 63)?;
        let function = format!(in alloc; "(fun f{number} () bool {body})\n")?;
        functions.push_str(function.as_str())?;
    }
    Ok(functions)
}

fn input_with_deep_functions(alloc: Global) -> Result<String, AllocError> {
    let body = text_wrapped_count_times(alloc, "(not ", "true", ")", 63)?;
    let functions = deep_function_chain_with_first_body(alloc, body.as_str())?;
    format!(in alloc;
        "(model deep (state int) (init (if (f64) 0 1)) (command (list call (call get)))
      {functions}(op get () int (pre (f64)) (next (if (f64) s 1)) (post (and (f64) (= r 0)))))
      {GETS}"
    )
}

/// A run whose last answer is wrong. Its postcondition applies the functions; the body of the first nests `inner` in
/// `levels` levels.
fn input_with_false_or_faulting_postcondition(
    alloc: Global,
    inner: &str,
    levels: usize,
) -> Result<String, AllocError> {
    let body = text_wrapped_count_times(alloc, "(not ", inner, ")", levels)?;
    let functions = deep_function_chain_with_first_body(alloc, body.as_str())?;
    format!(in alloc;
        "(model deep (state int) (init 1) (command (list call (call get)))
      {functions}(op get () int (pre true) (next s) (post (and (f64) (= r s)))))
      (run (prefix (get)) (left (get)) (right (get)) (replies (1) (1) (0)))"
    )
}

fn input_with_deep_expressions(alloc: Global) -> Result<String, AllocError> {
    let init = text_wrapped_count_times(alloc, "(fold x (list int 7) a 0 ", "0", ")", 62)?;
    let next = text_wrapped_count_times(alloc, "(+ 0 ", "s", ")", 63)?;
    let lists = text_wrapped_count_times(alloc, "(for ((in x (range 0 1))) ", "0", ")", 61)?;
    let post = text_wrapped_count_times(alloc, "(not ", "(= r 0)", ")", 62)?;
    format!(in alloc;
        "(model deep (state int) (init {init}) (command (list call (call get)))
      (op get () int (pre (= {lists} {lists})) (next {next}) (post {post}))) {GETS}"
    )
}

fn input_with_deep_types(alloc: Global) -> Result<String, AllocError> {
    let ty = text_wrapped_count_times(alloc, "(list ", "int", ")", 15)?;
    let inner = text_wrapped_count_times(alloc, "(list ", "int", ")", 14)?;
    let value = text_wrapped_count_times(alloc, "(list ", "7", ")", 15)?;
    format!(in alloc;
        "(model deep (state {ty}) (init (list {inner})) (command (list call (call keep s)))
      (op keep ((x {ty})) int (pre true) (next x) (post (= r 0)))
      (op give () {ty} (pre true) (next s) (post (= r s))))
      (run (prefix (keep {value}) (give)) (left (keep {value})) (right (give))
        (replies (0 {value}) (0) ({value})))"
    )
}

fn input_with_deep_reply(alloc: Global, levels: usize) -> Result<String, AllocError> {
    let value = text_wrapped_count_times(alloc, "(list ", "7", ")", levels)?;
    format!(in alloc; "{COUNTER}(run (prefix (inc)) (left) (right) (replies ({value}) () ()))")
}

fn input_with_deep_argument(alloc: Global) -> Result<String, AllocError> {
    let value = text_wrapped_count_times(alloc, "(list ", "7", ")", 97)?;
    format!(in alloc; "{COUNTER}(case (prefix (inc {value})) (left) (right))")
}

/// A model of 45 trees, not counting those of its calls: 3 of each call of `get`, and 4 of each of `put`.
fn input_with_many_trees(alloc: Global, gets: usize, puts: usize) -> Result<String, AllocError> {
    let gets = "(call get)".repeat(alloc, gets)?;
    let puts = "(call put 1)".repeat(alloc, puts)?;
    format!(in alloc;
        "(model wide (state int) (init 0) (command (list call {gets}{puts}))
      (op get () int (pre true) (next s) (post true))
      (op put ((x int)) int (pre true) (next s) (post true))) {GETS}"
    )
}

/// A model with a run of two calls. `parts` are its head, state type, initial state, precondition, next state and
/// postcondition.
fn input_with_large_state(alloc: Global, parts: [&str; 6]) -> Result<String, AllocError> {
    let [head, state, init, pre, next, post] = parts;
    let run = "(run (prefix) (left (get)) (right (get)) (replies () (0) (0)))";
    format!(in alloc;
        "({head} large (state {state}) (init {init}) (command (list call (call get)))
      (op get () int (pre {pre}) (next {next}) (post {post}))) {run}"
    )
}

fn input_with_many_commands(alloc: Global, count: usize) -> Result<String, AllocError> {
    let prefix = "(get)".repeat(alloc, count)?;
    let eight = "(get)".repeat(alloc, 8)?;
    format!(in alloc;
        "{COUNTER}(case (prefix {prefix}) (left {eight}) (right {eight}) (suffix {eight}))"
    )
}

/// A state of 65,536 items, of which each event makes a new list.
const LIST: [&str; 6] = [
    "model",
    "(list int)",
    "(range 0 65536)",
    "(= (len s) 65536)",
    "(for ((in x s)) (- x 0))",
    "(= r (nth s 0))",
];

/// A state of 65,536 bytes.
const TEXT: [&str; 6] = [
    "model",
    "text",
    "(fold x (range 0 16) t \"a\" (++ t t))",
    "(= (len s) 65536)",
    "(++ \"\" s)",
    "(= r 0)",
];

/// A state of 4,096 keys.
const MAP: [&str; 6] = [
    "model2",
    "(map int int)",
    "(fold x (range 0 4096) m (map int int) (put m x x))",
    "(has s 4095)",
    "(put s 0 0)",
    "(= r (get s 0))",
];

/// 65,536 calls of `inc`, whose precondition takes 999,000 turns. `get` is never called.
const CALLS: &str = "(model wide (state int) (init 0)
  (command (for ((in i (range 0 65536))) (call inc)))
  (op inc () int
    (pre (= (list int) (for ((in i (range 0 1000)) (in j (range 0 998)) (when (< j i)) (when (< i j))) i)))
    (next (+ s 1)) (post (= r (+ s 1))))
  (op get () int (pre true) (next s) (post (= r s))))
(case (prefix) (left (inc)) (right))";

/// The text of a model and its items.
pub fn text_of_input_at_limit(alloc: Global, deep: InputLimit) -> Result<String, AllocError> {
    match deep {
        InputLimit::Functions => input_with_deep_functions(alloc),
        InputLimit::FalseFunctions => input_with_false_or_faulting_postcondition(alloc, "true", 63),
        InputLimit::FaultingFunctions => input_with_false_or_faulting_postcondition(
            alloc,
            "(= 0 (div 1 0))",
            61,
        ),
        InputLimit::Expressions => input_with_deep_expressions(alloc),
        InputLimit::Types => input_with_deep_types(alloc),
        InputLimit::Reply => input_with_deep_reply(alloc, 97),
        InputLimit::TooDeepReply => input_with_deep_reply(alloc, 98),
        InputLimit::Argument => input_with_deep_argument(alloc),
        InputLimit::Trees => input_with_many_trees(alloc, 6_649, 2),
        InputLimit::TooManyTrees => input_with_many_trees(alloc, 6_648, 3),
        InputLimit::List => input_with_large_state(alloc, LIST),
        InputLimit::Text => input_with_large_state(alloc, TEXT),
        InputLimit::Map => input_with_large_state(alloc, MAP),
        InputLimit::Commands => input_with_many_commands(alloc, 64),
        InputLimit::TooManyCommands => input_with_many_commands(alloc, 65),
        InputLimit::Calls => String::from_str(alloc, CALLS),
    }
}
