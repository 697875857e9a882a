//! The forms of expressions, for messages: how many parts they take, and how they are written.

use crate::names::{DidYouMean, NearestNameSoFar};
use std::alloc::{AllocError, Global};

/// A form: its head word, the least and the greatest number of parts, and how it is written.
#[derive(Clone, Copy, Drop)]
pub struct HeadedForm {
    pub word: &'static str,
    pub least: usize,
    pub most: usize,
    pub written: &'static str,
}

/// The limit of a form that takes any number of parts.
const ANY: usize = 20_000;

macro_rules! row {
    ($word:expr, $least:expr, $most:expr, $written:expr) => {
        HeadedForm {
            word: $word,
            least: $least,
            most: $most,
            written: $written,
        }
    };
}

/// The forms of expressions of both languages.
const EXPRESSIONS: [HeadedForm; 25] = [
    row!("let", 3, 3, "(let NAME VALUE BODY)"),
    row!("if", 3, 3, "(if TEST THEN ELSE)"),
    row!("+", 2, 2, "(+ A B)"),
    row!("-", 2, 2, "(- A B)"),
    row!("*", 2, 2, "(* A B)"),
    row!("div", 2, 2, "(div A B)"),
    row!("rem", 2, 2, "(rem A B)"),
    row!("<", 2, 2, "(< A B)"),
    row!("<=", 2, 2, "(<= A B)"),
    row!("=", 2, 2, "(= A B)"),
    row!("same", 2, 2, "(same A B)"),
    row!("not", 1, 1, "(not A)"),
    row!("and", 2, 2, "(and A B)"),
    row!("or", 2, 2, "(or A B)"),
    row!("tuple", 1, ANY, "(tuple A ..)"),
    row!("at", 2, 2, "(at TUPLE PLACE)"),
    row!("list", 1, ANY, "(list TYPE A ..)"),
    row!("++", 2, 2, "(++ A B)"),
    row!("len", 1, 1, "(len A)"),
    row!("nth", 2, 2, "(nth LIST PLACE)"),
    row!("range", 2, 2, "(range FROM TO)"),
    row!("for", 2, 2, "(for (CLAUSE ..) BODY)"),
    row!("fold", 5, 5, "(fold NAME LIST NAME FIRST BODY)"),
    row!("call", 1, ANY, "(call OPERATION A ..)"),
    row!("deref", 1, 1, "(deref A)"),
];

/// The forms of maps.
const MAPS: [HeadedForm; 6] = [
    row!("map", 2, 2, "(map KEYS VALUES)"),
    row!("get", 2, 2, "(get MAP KEY)"),
    row!("has", 2, 2, "(has MAP KEY)"),
    row!("put", 3, 3, "(put MAP KEY VALUE)"),
    row!("del", 2, 2, "(del MAP KEY)"),
    row!("keys", 1, 1, "(keys MAP)"),
];

/// The forms of types: their parts, and how they are written.
const TYPES: [HeadedForm; 4] = [
    row!("tuple", 1, ANY, "(tuple TYPE ..)"),
    row!("list", 1, 1, "(list TYPE)"),
    row!("ref", 1, 1, "(ref TYPE)"),
    row!("map", 2, 2, "(map KEYS VALUES)"),
];

/// Words of other languages, and what is written in their place.
const FOREIGN: [(&str, &str); 130] = [
    (">", "write `(< b a)` for `(> a b)`"),
    (">=", "write `(<= b a)` for `(>= a b)`"),
    ("!=", "write `(not (= a b))`"),
    ("/=", "write `(not (= a b))`"),
    ("<>", "write `(not (= a b))`"),
    ("neq", "write `(not (= a b))`"),
    ("ne", "write `(not (= a b))`"),
    ("==", "write `(= a b)`"),
    ("eq", "write `(= a b)`"),
    ("eq?", "write `(= a b)`"),
    ("equal", "write `(= a b)`"),
    ("equals", "write `(= a b)`"),
    ("&&", "write `(and a b)`"),
    ("||", "write `(or a b)`"),
    ("!", "write `(not a)`"),
    ("not=", "write `(not (= a b))`"),
    ("/", "write `(div a b)`"),
    ("quotient", "write `(div a b)`"),
    ("%", "write `(rem a b)`"),
    ("mod", "write `(rem a b)`"),
    ("modulo", "write `(rem a b)`"),
    ("remainder", "write `(rem a b)`"),
    ("=>", "write `(or (not a) b)`"),
    ("implies", "write `(or (not a) b)`"),
    ("xor", "write `(not (= a b))`"),
    ("max", "write `(if (< a b) b a)`"),
    ("min", "write `(if (< a b) a b)`"),
    ("abs", "write `(if (< a 0) (- 0 a) a)`"),
    ("length", "write `(len a)`; of a map `(len (keys m))`"),
    ("size", "write `(len a)`; of a map `(len (keys m))`"),
    ("count", "write `(len a)`; of a map `(len (keys m))`"),
    ("strlen", "write `(len a)`; of a map `(len (keys m))`"),
    ("append", "write `(++ a b)`"),
    ("concat", "write `(++ a b)`"),
    (
        "cons",
        "write `(++ (list T a) b)`, where T is the type of `a`",
    ),
    (
        "push",
        "write `(++ (list T a) b)`, where T is the type of `a`",
    ),
    ("head", "write `(nth a 0)`"),
    ("first", "write `(nth a 0)`"),
    ("car", "write `(nth a 0)`"),
    ("rest", "write `(for ((in i (range 1 (len a)))) (nth a i))`"),
    ("tail", "write `(for ((in i (range 1 (len a)))) (nth a i))`"),
    ("cdr", "write `(for ((in i (range 1 (len a)))) (nth a i))`"),
    (
        "sort",
        "lists are not sorted; the keys of a map rise in `(keys m)`",
    ),
    (
        "reverse",
        "write `(for ((in i (range 0 (len a)))) (nth a (- (- (len a) 1) i)))`",
    ),
    ("filter", "write `(for ((in x a) (when TEST)) x)`"),
    ("foldl", "write `(fold x LIST acc FIRST BODY)`"),
    ("foldr", "write `(fold x LIST acc FIRST BODY)`"),
    ("reduce", "write `(fold x LIST acc FIRST BODY)`"),
    (
        "contains",
        "write `(< 0 (len (for ((in x a) (when (= x b))) x)))`; of a map `(has m k)`",
    ),
    (
        ":=",
        "there is no assignment: write `(next v)`, where `v` is the new state",
    ),
    (
        "<-",
        "there is no assignment: write `(next v)`, where `v` is the new state",
    ),
    (
        "set!",
        "there is no assignment: write `(next v)`, where `v` is the new state",
    ),
    (
        "setq",
        "there is no assignment: write `(next v)`, where `v` is the new state",
    ),
    (
        "+=",
        "there is no assignment: write `(next v)`, where `v` is the new state",
    ),
    (
        "-=",
        "there is no assignment: write `(next v)`, where `v` is the new state",
    ),
    ("return", "write the expression alone"),
    ("match", "write `(if c a (if d b e))`"),
    ("cond", "write `(if c a (if d b e))`"),
    ("case", "write `(if c a (if d b e))`"),
    ("switch", "write `(if c a (if d b e))`"),
    ("lambda", "there are no function values: declare a `fun`"),
    ("fn", "there are no function values: declare a `fun`"),
    ("defun", "a function is `(fun NAME ((p T) ..) T BODY)`"),
    ("define", "a function is `(fun NAME ((p T) ..) T BODY)`"),
    ("string", "the type is `text`"),
    ("str", "the type is `text`"),
    ("String", "the type is `text`"),
    ("Text", "the type is `text`"),
    ("char", "the type is `text`"),
    ("boolean", "the type is `bool`"),
    ("Bool", "the type is `bool`"),
    ("integer", "the type is `int`"),
    ("Int", "the type is `int`"),
    ("Integer", "the type is `int`"),
    ("nat", "the type is `int`"),
    ("Nat", "the type is `int`"),
    ("number", "the type is `int`"),
    ("byte", "the type is `int`"),
    ("long", "the type is `int`"),
    ("short", "the type is `int`"),
    ("uint", "the type is `int`"),
    ("usize", "the type is `int`"),
    ("isize", "the type is `int`"),
    ("i8", "the type is `int`"),
    ("i16", "the type is `int`"),
    ("i32", "the type is `int`"),
    ("i64", "the type is `int`"),
    ("i128", "the type is `int`"),
    ("u8", "the type is `int`"),
    ("u16", "the type is `int`"),
    ("u32", "the type is `int`"),
    ("u64", "the type is `int`"),
    ("u128", "the type is `int`"),
    ("float", "numbers are integers: the type is `int`"),
    ("double", "numbers are integers: the type is `int`"),
    ("f32", "numbers are integers: the type is `int`"),
    ("f64", "numbers are integers: the type is `int`"),
    ("vec", "a list is `(list T)`"),
    ("Vec", "a list is `(list T)`"),
    ("array", "a list is `(list T)`"),
    ("Array", "a list is `(list T)`"),
    ("seq", "a list is `(list T)`"),
    ("List", "a list is `(list T)`"),
    ("set", "a list is `(list T)`"),
    ("Set", "a list is `(list T)`"),
    (
        "dict",
        "a map is `(map K V)`, in a model that begins with `(model2 NAME ..)`",
    ),
    (
        "Dict",
        "a map is `(map K V)`, in a model that begins with `(model2 NAME ..)`",
    ),
    (
        "hashmap",
        "a map is `(map K V)`, in a model that begins with `(model2 NAME ..)`",
    ),
    (
        "HashMap",
        "a map is `(map K V)`, in a model that begins with `(model2 NAME ..)`",
    ),
    (
        "Map",
        "a map is `(map K V)`, in a model that begins with `(model2 NAME ..)`",
    ),
    ("pair", "a tuple is `(tuple T ..)`"),
    ("Tuple", "a tuple is `(tuple T ..)`"),
    ("struct", "a tuple is `(tuple T ..)`"),
    ("record", "a tuple is `(tuple T ..)`"),
    ("nil", "an empty list is `(list T)`"),
    ("[]", "an empty list is `(list T)`"),
    (
        "{}",
        "an empty map is `(map K V)`, in a model that begins with `(model2 NAME ..)`",
    ),
    ("null", "an option is a list of none or one item"),
    ("None", "an option is a list of none or one item"),
    ("Some", "an option is a list of none or one item"),
    ("option", "an option is a list of none or one item"),
    ("Option", "an option is a list of none or one item"),
    ("maybe", "an option is a list of none or one item"),
    ("Maybe", "an option is a list of none or one item"),
    (
        "unit",
        "there is no such type: use `bool`, and return `true`",
    ),
    (
        "void",
        "there is no such type: use `bool`, and return `true`",
    ),
    ("#t", "write `true`"),
    ("#f", "write `false`"),
    ("True", "write `true`"),
    ("False", "write `false`"),
];

fn find_headed_form(rows: &[HeadedForm], word: &str) -> Option<HeadedForm> {
    for row in rows {
        if row.word == word {
            return Some(*row);
        }
    }
    None
}

/// The form of expressions with the head `word`. The forms of maps count only if `has_maps`.
pub fn find_expression_form(has_maps: bool, word: &str) -> Option<HeadedForm> {
    if let Some(form) = find_headed_form(&EXPRESSIONS, word) {
        return Some(form);
    }
    if has_maps {
        find_headed_form(&MAPS, word)
    } else {
        None
    }
}

/// The form of types with the head `word`.
pub fn find_type_form(word: &str) -> Option<HeadedForm> {
    find_headed_form(&TYPES, word)
}

/// Whether the word heads a form of maps.
pub fn is_head_of_map_form(word: &str) -> bool {
    find_headed_form(&MAPS, word).is_some()
}

/// Whether a word heads a form, a clause or a type.
pub fn is_expression_clause_or_type_head(has_maps: bool, word: &str) -> bool {
    find_expression_form(has_maps, word).is_some()
        || word == "ref"
        || word == "in"
        || word == "when"
}

/// The second column of the row that begins with `word`.
fn find_hint_in_table(rows: &[(&'static str, &'static str)], word: &str) -> Option<&'static str> {
    for row in rows {
        if row.0 == word {
            return Some(row.1);
        }
    }
    None
}

/// What to write in the place of `word`, if it is a word of another language.
pub fn hint_for_foreign_word(word: &str) -> Option<&'static str> {
    if word.starts_with("//") || word == "#" {
        return Some("a comment begins with `;`");
    }
    find_hint_in_table(&FOREIGN, word)
}

/// The nearest to `name` among the head words of `rows`, or `nearer` if none of them is nearer.
fn nearest_head_word_so_far(
    alloc: Global,
    rows: &'static [HeadedForm],
    name: &str,
    nearer: NearestNameSoFar<'static>,
) -> Result<NearestNameSoFar<'static>, AllocError> {
    let mut near = nearer;
    for row in rows {
        near = near.or_nearer_candidate(alloc, row.word, name)?;
    }
    Ok(near)
}

/// The head word of expressions that is probably meant by `name`, as a hint.
pub fn nearest_expression_head_hint(
    alloc: Global,
    has_maps: bool,
    name: &str,
) -> Result<Option<DidYouMean<'static>>, AllocError> {
    let near = nearest_head_word_so_far(
        alloc,
        EXPRESSIONS.as_slice(),
        name,
        NearestNameSoFar::without_candidates(name),
    )?;
    let near = if has_maps {
        nearest_head_word_so_far(alloc, MAPS.as_slice(), name, near)?
    } else {
        near
    };
    Ok(near.hint())
}
