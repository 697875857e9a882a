//! Hints on models that are written as in other languages: operators between operands, commas, fields, calls and
//! assignments.

use crate::forms::{find_expression_form, hint_for_foreign_word};
use crate::infix::{
    ASSIGNMENT, assigned_trees_if_assignment, is_foreign_word_for_new_state,
    operator_first_text_of_infix_parts, operators_come_first_phrase,
};
use crate::item_forms::CALLS;
use crate::problem::{FoundProblem, Problem, with_note};
use crate::tree::{has_head, head_word_of_node, head_word_or_empty};
use pst_sexpr::{Form, is_integer, node_of, tree_in, word_of};
use pst_value::Text;
use std::alloc::{AllocError, Global};
use std::fmt::Display;

/// Whether a tree is a word that heads a form of expressions.
fn is_word_heading_expressions(has_maps: bool, form: &Form) -> bool {
    match word_of(form) {
        Some(word) => find_expression_form(has_maps, word.as_str()).is_some(),
        None => false,
    }
}

/// What to write in the place of the trees `parts`, or else of the first three of them, if operators are between their
/// operands. `None` if there are fewer than three, if the second is no word, or if the first heads a form of
/// expressions.
fn operator_first_text_of_all_or_three(
    alloc: Global,
    has_maps: bool,
    parts: &[Form],
) -> Result<Option<String>, AllocError> {
    let [left, Form::Word(_), _, ..] = parts else {
        return Ok(None);
    };
    if is_word_heading_expressions(has_maps, left) {
        return Ok(None);
    }
    match operator_first_text_of_infix_parts(alloc, parts)? {
        Some(written) => Ok(Some(written)),
        None => operator_first_text_of_infix_parts(alloc, parts.get(..3).unwrap_or(&[])),
    }
}

/// The trees of the node `form`, or of the node that has the word `form` as its second tree. `path` leads to
/// `form`.
fn parts_of_node_or_infix_parent<'a>(
    model: &'a Form,
    path: &[usize],
    form: &'a Form,
) -> Option<&'a [Form]> {
    if let Form::Node(parts) = form {
        return Some(parts.as_slice());
    }
    let (last, before) = path.split_last()?;
    if *last == 1 {
        node_of(tree_in(model, before.get(1..)?)?)
    } else {
        None
    }
}

/// Whether a word begins with `sign` and a lowercase ASCII letter after it.
fn has_lowercase_letter_after_sign(word: &str, sign: &str) -> bool {
    match word.strip_prefix(sign) {
        Some(name) => name
            .as_bytes()
            .first()
            .is_some_and(|byte| byte.is_ascii_lowercase()),
        None => false,
    }
}

/// What to write in the place of a word that is neither an integer nor a name.
fn hint_for_malformed_word(word: &Text) -> Option<&'static str> {
    let name = word.as_str();
    let is_number = word
        .as_bytes()
        .first()
        .is_some_and(|byte| byte.is_ascii_digit());
    if is_integer(word) || hint_for_foreign_word(name).is_some() {
        None
    } else if name.ends_with(",") {
        Some("there are no commas: spaces separate the parts")
    } else if name.starts_with("[") {
        Some("a list begins with the type of its items: `(list int 1 2)`")
    } else if name.contains("[") {
        Some("an item of a list is `(nth LIST PLACE)`, counted from 0")
    } else if is_number {
        Some("an integer is decimal digits, after a `-` if it is negative")
    } else if name.contains(".") {
        Some("there are no fields or methods: item 1 of a tuple `t` is `(at t 1)`")
    } else if has_lowercase_letter_after_sign(name, "!") {
        Some("write `(not a)`")
    } else if has_lowercase_letter_after_sign(name, "-") {
        Some("write `(- 0 a)`")
    } else if is_foreign_word_for_new_state(name) {
        Some("the new state has no name: write `(next v)`, where `v` is the new state")
    } else if name.len() > 2 && name.ends_with("++") {
        Some("there is no assignment: write `(next (+ s 1))`, where `(+ s 1)` is the new state")
    } else {
        None
    }
}

/// What to write in the place of a part of a refused tree, if it is a word of another language.
fn hint_for_malformed_part(form: &Form) -> Option<&'static str> {
    let word = word_of(form)?;
    if word.as_str().starts_with("'") {
        Some("a text is in double quotes")
    } else if is_foreign_word_for_new_state(word.as_str()) {
        None
    } else {
        hint_for_malformed_word(word)
    }
}

/// What to write in the place of the first word of another language among `forms`.
fn hint_for_first_malformed_part(forms: &[Form]) -> Option<&'static str> {
    for form in forms {
        if let Some(hint) = hint_for_malformed_part(form) {
            return Some(hint);
        }
    }
    None
}

/// The problem `found` of the tree `form`, with a hint if it is a word of another language or has one among
/// its parts.
pub fn with_hint_if_malformed_word_or_part(
    alloc: Global,
    form: &Form,
    found: Option<Problem>,
) -> FoundProblem {
    let meant = match form {
        Form::Node(parts) => hint_for_first_malformed_part(parts.as_slice()),
        Form::Word(word) => hint_for_malformed_word(word),
        Form::Text(_) => None,
    };
    match meant {
        Some(hint) => with_note(alloc, found, format_args!("hint: {hint}")),
        None => Ok(found),
    }
}

/// The problem `found` without its notes.
fn problem_without_notes(found: Option<Problem>) -> Option<Problem> {
    match found {
        Some(mut problem) => {
            problem.notes.clear();
            Some(problem)
        }
        None => None,
    }
}

/// The problem `found` of the expression at `path`, with a hint if the expression is a clause of a form that another
/// language chooses with.
fn with_hint_if_in_foreign_conditional(
    alloc: Global,
    model: &Form,
    path: &[usize],
    found: Option<Problem>,
) -> FoundProblem {
    let Some((_, before)) = path.split_last() else {
        return Ok(found);
    };
    let around = tree_in(model, before.get(1..).unwrap_or(&[])).and_then(head_word_of_node);
    match around.map(Text::as_str) {
        Some(word @ ("cond" | "case" | "match" | "switch")) => match hint_for_foreign_word(word) {
            Some(hint) => with_note(
                alloc,
                found,
                format_args!("hint: there is no `{word}`: {hint}"),
            ),
            None => Ok(found),
        },
        _ => Ok(found),
    }
}

/// Whether the expression `form`, which `path` leads to, is the body of the command and has no head.
fn is_headless_command_body(model: &Form, path: &[usize], form: &Form) -> bool {
    let [_, item, _] = path else {
        return false;
    };
    let is_command = tree_in(model, &[*item]).is_some_and(|item| has_head(item, "command"));
    is_command && node_of(form).is_some() && head_word_of_node(form).is_none()
}

/// The problem `found` of the expression `form`, which `path` leads to, with a hint if it is written as in
/// another language. A hint on an assignment, or on an operator between its operands, is the only note.
pub fn add_or_replace_notes_if_foreign_syntax(
    alloc: Global,
    has_maps: bool,
    model: &Form,
    path: &[usize],
    form: &Form,
    found: Option<Problem>,
) -> FoundProblem {
    let found = with_hint_if_in_foreign_conditional(alloc, model, path, found)?;
    if is_headless_command_body(model, path, form) {
        return with_note(alloc, found, CALLS);
    }
    let Some(parts) = parts_of_node_or_infix_parent(model, path, form) else {
        return with_hint_if_malformed_word_or_part(alloc, form, found);
    };
    if assigned_trees_if_assignment(false, parts).is_some() {
        return with_note(alloc, problem_without_notes(found), ASSIGNMENT);
    }
    match operator_first_text_of_all_or_three(alloc, has_maps, parts)? {
        Some(written) => {
            let written = written.as_str();
            let first = operators_come_first_phrase(parts);
            let hint = format_args!("hint: write `{written}`: {first}");
            with_note(alloc, problem_without_notes(found), hint)
        }
        None => with_hint_if_malformed_word_or_part(alloc, form, found),
    }
}

/// The head of the tree that the first `length` numbers of `path` lead to, or an empty word if it has none.
fn head_word_on_path_or_empty<'a>(model: &'a Form, path: &[usize], length: usize) -> &'a str {
    match tree_in(model, path.get(1..length).unwrap_or(&[])) {
        Some(form) => head_word_or_empty(form),
        None => "",
    }
}

/// The function that `what`, what is wrong with a problem, says to be unknown.
fn unknown_function_named_in_message(what: &str) -> Option<&str> {
    what.strip_prefix("no function has the name `")?
        .strip_suffix("`")
}

/// Whether `item` is the operation `name`.
fn is_operation_item_named(item: &Form, name: &str) -> bool {
    match node_of(item) {
        Some([Form::Word(head), Form::Word(declared), ..]) => {
            head.as_str() == "op" && declared.as_str() == name
        }
        _ => false,
    }
}

/// Whether the model has an operation `name`.
fn has_operation_item_named(model: &Form, name: &str) -> bool {
    let items = node_of(model).unwrap_or(&[]);
    items.iter().any(|item| is_operation_item_named(item, name))
}

/// The hint on a `set` in a next. `path` leads to this word. With three parts, in a language with maps, it means `put`.
fn put_or_assignment_hint_for_set(model: &Form, path: &[usize]) -> &'static str {
    let around = path.get(1..path.len().saturating_sub(1)).unwrap_or(&[]);
    match tree_in(model, around) {
        Some(Form::Node(trees)) if trees.len() == 4 && has_head(model, "model2") => {
            "hint: write `(put m k v)`"
        }
        _ => ASSIGNMENT,
    }
}

/// The problem with `note` in place of its notes.
pub fn with_note_instead_of_others<D: Display + Drop>(
    alloc: Global,
    problem: Problem,
    note: D,
) -> Result<Problem, AllocError> {
    let mut problem = problem;
    problem.notes.clear();
    problem.with(alloc, note)
}

/// The beginning of what is wrong with a command that is no list of calls.
const NO_CALLS: &str = "command: expected (list call), found ";

/// The problem of an ill-typed model, with a hint if the part is written as in another language: a command that is no list
/// of calls, an operation that is applied, or an assignment.
pub fn with_call_or_assignment_hint_if_meant(
    alloc: Global,
    model: &Form,
    problem: Problem,
) -> Result<Problem, AllocError> {
    let path = problem.path.as_slice();
    let what = problem.what.as_str();
    if what.starts_with(NO_CALLS) {
        return problem.with(alloc, CALLS);
    }
    let Some(name) = unknown_function_named_in_message(what) else {
        return Ok(problem);
    };
    if name == "set" && head_word_on_path_or_empty(model, path, 3) == "next" {
        let hint = put_or_assignment_hint_for_set(model, path);
        return with_note_instead_of_others(alloc, problem, hint);
    }
    if head_word_on_path_or_empty(model, path, 2) == "command"
        && has_operation_item_named(model, name)
    {
        let hint = format!(in alloc;
            "hint: `{name}` is an operation: a call of it is `(call {name} ..)`"
        )?;
        return with_note_instead_of_others(alloc, problem, hint);
    }
    Ok(problem)
}
