//! What is wrong with the part of an expression that is to blame, by the types of its parts.

use crate::applied::{function_application_problem_if_any, operation_call_problem_if_any};
use crate::lists::{
    first_ill_typed_clause_problem, first_ill_typed_list_item_problem, fold_type_problem,
    nth_type_problem,
};
use crate::operands::{
    has_references_in_place_of_values, operand_type_mismatch, problem_of_access_to_non_tuple,
    problem_of_non_map_first_operand, problem_of_non_sequence_operand,
    problem_of_wrong_first_operand, with_only_note,
};
use crate::spelling::shortened_type_text_of_kind;
use pst_model::{Expr, Op};
use pst_sexpr::{Form, word_of};
use pst_syntax_problems::{
    CommaSeparatedNames, FoundProblem, Problem, find_operation, head_word_or_empty,
    is_head_of_map_form, key_type_word, nearest_known_name_hint, problem_at, problem_at_part,
    problem_with_note, with_note,
};
use pst_typing::{Context, Kind, KindForm, key_type};
use pst_value::{Items, KeyTy, Text, Ty};
use std::alloc::Global;
use std::fmt::Display;

/// The part that is to blame: what it may name, the part, its tree, the path to it, the kinds of its parts, the names
/// that it sees, and what the whole expression is called.
#[derive(Drop)]
pub struct BlamedPart<'a> {
    pub alloc: Global,
    pub context: &'a Context<'a>,
    pub expr: &'a Expr,
    pub form: &'a Form,
    pub path: &'a [usize],
    pub kinds: &'a [Kind],
    pub names: &'a Items<Text>,
    pub called: &'a str,
    /// Whether the language of the model has maps.
    pub has_maps: bool,
}

/// The problem `found`, with the names that the part sees.
fn with_known_names_note(blamed: &BlamedPart<'_>, found: Option<Problem>) -> FoundProblem {
    if blamed.names.is_empty() {
        let called = blamed.called;
        return with_note(blamed.alloc, found, format_args!("{called} sees no names"));
    }
    let names = CommaSeparatedNames(blamed.names);
    with_note(
        blamed.alloc,
        found,
        format_args!("names known here: {names}"),
    )
}

/// A hint for a name that only callbacks see, or that other languages have.
fn hint_on_callback_or_foreign_name(name: &str) -> Option<&'static str> {
    match name {
        "s" => Some("hint: only callbacks see the state `s`: give it as a parameter"),
        "r" => Some("hint: only next and post see the result `r`"),
        "state" | "self" => Some("hint: callbacks see the state as `s`"),
        "result" => Some("hint: next and post see the result as `r`"),
        "null" | "nil" => Some("hint: there is no null; an option is a list: `(list int)`"),
        _ => None,
    }
}

/// The problem of the name `name`, which nothing has here. A note lists the names that the part sees.
fn unknown_name_problem_with_known_names(blamed: &BlamedPart<'_>, name: &str) -> FoundProblem {
    let called = blamed.called;
    let what = format_args!("{called}: nothing has the name `{name}` here");
    let found = problem_at(blamed.alloc, blamed.path, what)?;
    with_known_names_note(blamed, found)
}

/// The problem of the name `name`, which nothing has here, with a hint.
fn unknown_name_problem_with_hint<N: Display + Drop>(
    blamed: &BlamedPart<'_>,
    name: &str,
    hint: N,
) -> FoundProblem {
    with_note(
        blamed.alloc,
        unknown_name_problem_with_known_names(blamed, name)?,
        hint,
    )
}

/// The problem of the name of the operation `op` in the place of a call of it.
fn operation_name_without_call_problem(blamed: &BlamedPart<'_>, op: &Op) -> FoundProblem {
    let name = op.name.as_str();
    let arguments = if op.params.is_empty() { "" } else { " .." };
    unknown_name_problem_with_hint(
        blamed,
        name,
        format_args!("hint: `{name}` is an operation: a call of it is `(call {name}{arguments})`"),
    )
}

/// The problem of the name `name`, which nothing has here, with a hint if there is one.
fn unknown_name_problem(blamed: &BlamedPart<'_>, name: &str) -> FoundProblem {
    if let Some(hint) = hint_on_callback_or_foreign_name(name) {
        return unknown_name_problem_with_hint(blamed, name, hint);
    }
    if let Some(op) = find_operation(blamed.context.items, name) {
        return operation_name_without_call_problem(blamed, op);
    }
    match nearest_known_name_hint(blamed.alloc, blamed.names, name)? {
        Some(hint) => unknown_name_problem_with_hint(blamed, name, hint),
        None => unknown_name_problem_with_known_names(blamed, name),
    }
}

/// The problem `found` of a part of the form `head`, with a hint if the part is a text or a list to add.
fn with_hint_if_joining_by_plus(
    alloc: Global,
    found: Option<Problem>,
    head: &str,
    kind: &Kind,
) -> FoundProblem {
    match kind.form(alloc)? {
        KindForm::Text | KindForm::List(_) if head == "+" => {
            with_note(alloc, found, "hint: `(++ a b)` joins texts or lists")
        }
        _ => Ok(found),
    }
}

/// The problem of the first part that has another type than `wanted`.
fn first_ill_typed_part_problem(blamed: &BlamedPart<'_>, head: &str, wanted: &Ty) -> FoundProblem {
    let wanted = Kind::of(blamed.alloc, wanted)?;
    for (place, kind) in blamed.kinds.iter().enumerate() {
        if !kind.same(blamed.alloc, &wanted)? {
            let part = place.saturating_add(1);
            let found = operand_type_mismatch(
                blamed,
                format_args!("`{head}`"),
                part,
                &wanted,
                kind,
            )?;
            return with_hint_if_joining_by_plus(blamed.alloc, found, head, kind);
        }
    }
    Ok(None)
}

/// The problem of an `if`, if it has one.
fn if_type_problem(blamed: &BlamedPart<'_>) -> FoundProblem {
    let [test, yes, no] = blamed.kinds else {
        return Ok(None);
    };
    let truth = Kind::of(blamed.alloc, &Ty::Bool)?;
    match operand_type_mismatch(blamed, "the test of `if`", 1, &truth, test)? {
        Some(found) => Ok(Some(found)),
        None => operand_type_mismatch(blamed, "the branches of `if` differ", 3, yes, no),
    }
}

/// The problem of a comparison by order, if it has one.
fn order_comparison_type_problem(
    blamed: &BlamedPart<'_>,
    head: &str,
    first: &Kind,
    second: &Kind,
) -> FoundProblem {
    match first.form(blamed.alloc)? {
        KindForm::Int | KindForm::Text => {
            operand_type_mismatch(blamed, format_args!("`{head}`"), 2, first, second)
        }
        _ => problem_of_wrong_first_operand(
            blamed,
            format_args!("`{head}` compares int or text"),
            first,
        ),
    }
}

/// The problem of a comparison by `=`, if it has one.
fn equality_type_problem(blamed: &BlamedPart<'_>, first: &Kind, second: &Kind) -> FoundProblem {
    if let Some(found) = operand_type_mismatch(
        blamed,
        "`=` compares values of one type",
        2,
        first,
        second,
    )? {
        return Ok(Some(found));
    }
    if !first.holds_ref_or_call(blamed.alloc)? {
        return Ok(None);
    }
    let found = shortened_type_text_of_kind(blamed.alloc, first)?;
    problem_with_note(
        blamed.alloc,
        blamed.path,
        format_args!("`=` cannot compare references outside post, found {found}"),
        "hint: `(same a b)` says whether two references are of one command",
    )
}

/// The problem of a `same`, if it has one.
fn same_operator_type_problem(
    blamed: &BlamedPart<'_>,
    first: &Kind,
    second: &Kind,
) -> FoundProblem {
    match first.form(blamed.alloc)? {
        KindForm::Ref(_) => operand_type_mismatch(
            blamed,
            "`same` compares references of one type",
            2,
            first,
            second,
        ),
        _ => problem_of_wrong_first_operand(blamed, "`same` compares references", first),
    }
}

/// The problem of a `deref`, if it has one.
fn deref_place_or_type_problem(blamed: &BlamedPart<'_>) -> FoundProblem {
    if !blamed.context.is_post {
        return problem_with_note(
            blamed.alloc,
            blamed.path,
            "`deref` is only allowed in post and in postfuns",
            "hint: elsewhere the value of a result is not known yet; keep the reference",
        );
    }
    match blamed.kinds.first() {
        Some(found) => problem_of_wrong_first_operand(blamed, "`deref` takes a reference", found),
        None => Ok(None),
    }
}

/// The problem `refused` of a `++` that adds a list of the kind `added` to a list of the values. Its only note says how the
/// list is declared.
fn with_only_reference_list_hint(
    blamed: &BlamedPart<'_>,
    refused: Option<Problem>,
    added: &Kind,
) -> FoundProblem {
    let declared = shortened_type_text_of_kind(blamed.alloc, added)?;
    let hint = format_args!(
        "hint: a result is a reference before post: declare the list as `{declared}`, and `deref` its items in post (docs/language.md, Patterns)"
    );
    with_only_note(blamed.alloc, refused, hint)
}

/// The problem of a `++` of a list of the kind `list` and something else, if it has one, with a hint if that
/// is an item.
fn list_join_type_problem(
    blamed: &BlamedPart<'_>,
    list: &Kind,
    item: &Kind,
    other: &Kind,
) -> FoundProblem {
    let refused = operand_type_mismatch(blamed, "`++` joins values of one type", 2, list, other)?;
    if has_references_in_place_of_values(blamed.alloc, list, other)? {
        return with_only_reference_list_hint(blamed, refused, other);
    }
    if !item.same(blamed.alloc, other)? {
        return Ok(refused);
    }
    let shown = shortened_type_text_of_kind(blamed.alloc, item)?;
    let hint = format_args!("hint: a list of one item is `(list {shown} x)`");
    with_note(blamed.alloc, refused, hint)
}

/// The problem of a `len` or a `++`, if it has one.
fn length_or_join_type_problem(blamed: &BlamedPart<'_>, head: &str) -> FoundProblem {
    let Some(first) = blamed.kinds.first() else {
        return Ok(None);
    };
    match (first.form(blamed.alloc)?, blamed.kinds.get(1)) {
        (KindForm::Text, Some(second)) => {
            operand_type_mismatch(blamed, "`++` joins values of one type", 2, first, second)
        }
        (KindForm::List(item), Some(second)) => list_join_type_problem(
            blamed, first, &item, second,
        ),
        _ => problem_of_non_sequence_operand(blamed, head, first),
    }
}

/// The problem of an `at`, if it has one.
fn problem_of_ill_typed_tuple_access(blamed: &BlamedPart<'_>) -> FoundProblem {
    let Some(found) = blamed.kinds.first() else {
        return Ok(None);
    };
    let KindForm::Tuple(items) = found.form(blamed.alloc)? else {
        return problem_of_access_to_non_tuple(blamed, found);
    };
    let number = items.len();
    let shown = shortened_type_text_of_kind(blamed.alloc, found)?;
    let what = format_args!("the tuple has {number} items: {shown}");
    problem_at_part(blamed.alloc, blamed.path, 2, what)
}

/// The problem of a key of another type than the keys of the map, if it has one.
fn map_key_type_problem(blamed: &BlamedPart<'_>, keys: KeyTy) -> FoundProblem {
    let Some(found) = blamed.kinds.get(1) else {
        return Ok(None);
    };
    let wanted = Kind::of(blamed.alloc, &key_type(keys))?;
    let word = key_type_word(keys);
    let what = format_args!("the keys of the map are {word}");
    operand_type_mismatch(blamed, what, 2, &wanted, found)
}

/// The problem of a key or a value of another type than those of the map, if there is one.
fn map_entry_type_problem(blamed: &BlamedPart<'_>, keys: KeyTy, value: &Kind) -> FoundProblem {
    if let Some(found) = map_key_type_problem(blamed, keys)? {
        return Ok(Some(found));
    }
    match blamed.kinds.get(2) {
        Some(found) => operand_type_mismatch(blamed, "the values of the map", 3, value, found),
        None => Ok(None),
    }
}

/// The problem of a form of maps, if it has one.
fn map_form_type_problem(blamed: &BlamedPart<'_>, head: &str) -> FoundProblem {
    let Some(map) = blamed.kinds.first() else {
        return Ok(None);
    };
    match map.form(blamed.alloc)? {
        KindForm::Map(keys, value) => map_entry_type_problem(blamed, keys, &value),
        _ => problem_of_non_map_first_operand(blamed, head, map),
    }
}

/// What is wrong with an operator of two parts, by its head.
fn comparison_or_nth_type_problem(blamed: &BlamedPart<'_>, head: &str) -> FoundProblem {
    let [first, second] = blamed.kinds else {
        return Ok(None);
    };
    match head {
        "<" | "<=" => order_comparison_type_problem(blamed, head, first, second),
        "=" => equality_type_problem(blamed, first, second),
        "same" => same_operator_type_problem(blamed, first, second),
        "nth" => nth_type_problem(blamed, first, second),
        _ => Ok(None),
    }
}

/// Whether an operator takes only ints.
fn is_int_operator(head: &str) -> bool {
    matches!(head, "+" | "-" | "*" | "div" | "rem" | "range")
}

/// What is wrong with an operator, by its head.
fn operator_type_problem(blamed: &BlamedPart<'_>, head: &str) -> FoundProblem {
    match head {
        "and" | "or" | "not" => first_ill_typed_part_problem(blamed, head, &Ty::Bool),
        "len" | "++" => length_or_join_type_problem(blamed, head),
        _ if is_int_operator(head) => first_ill_typed_part_problem(blamed, head, &Ty::Int),
        _ => comparison_or_nth_type_problem(blamed, head),
    }
}

/// What is wrong with a form of expressions, by its head.
fn expression_form_type_problem(blamed: &BlamedPart<'_>, head: &str) -> FoundProblem {
    match head {
        "if" => if_type_problem(blamed),
        "deref" => deref_place_or_type_problem(blamed),
        "at" => problem_of_ill_typed_tuple_access(blamed),
        "list" => first_ill_typed_list_item_problem(blamed),
        "for" => first_ill_typed_clause_problem(blamed),
        "fold" => fold_type_problem(blamed),
        "call" => operation_call_problem_if_any(blamed),
        _ if blamed.has_maps && is_head_of_map_form(head) => map_form_type_problem(blamed, head),
        _ => operator_type_problem(blamed, head),
    }
}

/// What is wrong with a form of expressions, or else with the application of a function, by the head.
fn form_or_application_problem_by_head(blamed: &BlamedPart<'_>, head: &str) -> FoundProblem {
    match expression_form_type_problem(blamed, head)? {
        Some(found) => Ok(Some(found)),
        None => function_application_problem_if_any(blamed, head),
    }
}

/// What is wrong with the part that is to blame.
pub fn diagnose_blamed_part(blamed: &BlamedPart<'_>) -> FoundProblem {
    if let Some(word) = word_of(blamed.form) {
        return unknown_name_problem(blamed, word.as_str());
    }
    match form_or_application_problem_by_head(blamed, head_word_or_empty(blamed.form))? {
        Some(found) => Ok(Some(found)),
        None => problem_at(blamed.alloc, blamed.path, "this has no type"),
    }
}
