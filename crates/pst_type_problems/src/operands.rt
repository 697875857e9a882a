//! Parts of another type than their form takes.

use crate::diagnose::BlamedPart;
use crate::spelling::{shortened_type_text_of_kind, shortened_type_text_without_references};
use pst_syntax_problems::{
    FoundProblem, Problem, path_to_part, problem_at, problem_at_part, problem_with_note, with_note,
    with_note_instead_of_others,
};
use pst_typing::{Kind, KindForm};
use std::alloc::{AllocError, Global};
use std::fmt::Display;

/// The hint that a reference is in the place of its value.
const REFERENCE: &str =
    "hint: a `ref`, as `r` in next, has a value only in post: keep it in the state, and `deref` it there (docs/language.md, Patterns)";

/// Whether `found` has references where `wanted` has their values, and is the same type otherwise.
pub fn has_references_in_place_of_values(
    alloc: Global,
    wanted: &Kind,
    found: &Kind,
) -> Result<bool, AllocError> {
    let wants = shortened_type_text_without_references(alloc, wanted)?;
    let has = shortened_type_text_without_references(alloc, found)?;
    if wants.as_str() != has.as_str() {
        return Ok(false);
    }
    let wants = shortened_type_text_of_kind(alloc, wanted)?;
    let has = shortened_type_text_of_kind(alloc, found)?;
    Ok(has.len() > wants.len())
}

/// The problem `refused`, if there is one, with `note` in place of its notes.
pub fn with_only_note<N: Display + Drop>(
    alloc: Global,
    refused: Option<Problem>,
    note: N,
) -> FoundProblem {
    match refused {
        Some(problem) => Ok(Some(with_note_instead_of_others(alloc, problem, note)?)),
        None => Ok(None),
    }
}

/// The problem `refused`, with a hint if references are in the place of their values.
pub fn with_hint_if_references_for_values(
    alloc: Global,
    refused: Option<Problem>,
    wanted: &Kind,
    found: &Kind,
) -> FoundProblem {
    if has_references_in_place_of_values(alloc, wanted, found)? {
        return with_note(alloc, refused, REFERENCE);
    }
    Ok(refused)
}

/// The problem `refused` of a part that is no reference and has the type `found`, with a hint if that is one.
pub fn with_hint_if_reference(
    alloc: Global,
    refused: Option<Problem>,
    found: &Kind,
) -> FoundProblem {
    match found.form(alloc)? {
        KindForm::Ref(_) => with_note(alloc, refused, REFERENCE),
        _ => Ok(refused),
    }
}

/// The problem `refused`, with a hint if a map is in the place of a list.
fn with_keys_hint_if_map(alloc: Global, refused: Option<Problem>, found: &Kind) -> FoundProblem {
    match found.form(alloc)? {
        KindForm::Map(_, _) => with_note(
            alloc,
            refused,
            "hint: `(keys m)` is the list of the keys of a map",
        ),
        _ => Ok(refused),
    }
}

/// The problem `refused` of a form that takes an item out of another type than `found`, with a hint how an item is
/// taken out of that.
pub fn with_item_access_hint_if_container(
    alloc: Global,
    refused: Option<Problem>,
    found: &Kind,
) -> FoundProblem {
    let hint = match found.form(alloc)? {
        KindForm::Tuple(_) => "hint: for a tuple write `(at TUPLE PLACE)`, counted from 1",
        KindForm::List(_) => "hint: for a list write `(nth LIST PLACE)`, counted from 0",
        KindForm::Map(_, _) => "hint: for a map write `(get MAP KEY)`",
        _ => return Ok(refused),
    };
    with_note(alloc, refused, hint)
}

/// The problem of the expression at `path`, which has the type `found` instead of `wanted`.
pub fn problem_of_type_mismatch<D: Display + Drop>(
    alloc: Global,
    path: &[usize],
    what: D,
    wanted: &Kind,
    found: &Kind,
) -> FoundProblem {
    let wants = shortened_type_text_of_kind(alloc, wanted)?;
    let has = shortened_type_text_of_kind(alloc, found)?;
    let refused = problem_at(
        alloc,
        path,
        format_args!("{what}: expected {wants}, found {has}"),
    )?;
    with_hint_if_references_for_values(alloc, refused, wanted, found)
}

/// The problem of part `part` of a tree, if its type `found` is another than `wanted`.
pub fn operand_type_mismatch<D: Display + Drop>(
    blamed: &BlamedPart<'_>,
    what: D,
    part: usize,
    wanted: &Kind,
    found: &Kind,
) -> FoundProblem {
    if wanted.same(blamed.alloc, found)? {
        return Ok(None);
    }
    let path = path_to_part(blamed.path, blamed.alloc, part)?;
    problem_of_type_mismatch(blamed.alloc, path.as_slice(), what, wanted, found)
}

/// The problem of the first part, which has another kind than its form takes.
pub fn problem_of_wrong_first_operand<D: Display + Drop>(
    blamed: &BlamedPart<'_>,
    what: D,
    found: &Kind,
) -> FoundProblem {
    let has = shortened_type_text_of_kind(blamed.alloc, found)?;
    let refused = problem_at_part(
        blamed.alloc,
        blamed.path,
        1,
        format_args!("{what}, found {has}"),
    )?;
    with_hint_if_reference(blamed.alloc, refused, found)
}

/// The problem of the first part of `at`, which is no tuple.
pub fn problem_of_access_to_non_tuple(blamed: &BlamedPart<'_>, found: &Kind) -> FoundProblem {
    let refused = problem_of_wrong_first_operand(blamed, "`at` takes a tuple", found)?;
    with_item_access_hint_if_container(blamed.alloc, refused, found)
}

/// The problem of a form that takes a text or a list, and whose first part is neither.
pub fn problem_of_non_sequence_operand(
    blamed: &BlamedPart<'_>,
    head: &str,
    found: &Kind,
) -> FoundProblem {
    let refused = problem_of_wrong_first_operand(
        blamed,
        format_args!("`{head}` takes a text or a list"),
        found,
    )?;
    with_keys_hint_if_map(blamed.alloc, refused, found)
}

/// The problem of part `part` of the tree that `path` leads to, which is no list.
pub fn problem_of_non_list_part(
    alloc: Global,
    path: &[usize],
    what: &str,
    part: usize,
    found: &Kind,
) -> FoundProblem {
    let has = shortened_type_text_of_kind(alloc, found)?;
    let refused = problem_at_part(
        alloc,
        path,
        part,
        format_args!("{what}: expected a list, found {has}"),
    )?;
    let refused = with_hint_if_reference(alloc, refused, found)?;
    with_keys_hint_if_map(alloc, refused, found)
}

/// Whether the second part is a map.
fn is_second_operand_map(blamed: &BlamedPart<'_>) -> Result<bool, AllocError> {
    match blamed.kinds.get(1) {
        Some(second) => Ok(matches!(second.form(blamed.alloc)?, KindForm::Map(_, _))),
        None => Ok(false),
    }
}

/// The problem of a form of maps whose first part and second part are no maps.
fn problem_of_no_map_among_operands(
    blamed: &BlamedPart<'_>,
    head: &str,
    found: &Kind,
) -> FoundProblem {
    let what = format_args!("`{head}`: expected a map");
    let refused = problem_of_wrong_first_operand(blamed, what, found)?;
    if head == "get" {
        with_item_access_hint_if_container(blamed.alloc, refused, found)
    } else {
        Ok(refused)
    }
}

/// The problem of a form of maps whose second part is a map, and whose first part is not.
fn problem_of_map_as_second_operand(
    blamed: &BlamedPart<'_>,
    head: &str,
    found: &Kind,
) -> FoundProblem {
    let found = shortened_type_text_of_kind(blamed.alloc, found)?;
    problem_with_note(
        blamed.alloc,
        blamed.path,
        format_args!("`{head}` takes the map first, found {found}"),
        "hint: in the other order the two may fit",
    )
}

/// The problem of a form of maps whose first part is no map.
pub fn problem_of_non_map_first_operand(
    blamed: &BlamedPart<'_>,
    head: &str,
    found: &Kind,
) -> FoundProblem {
    if is_second_operand_map(blamed)? {
        problem_of_map_as_second_operand(blamed, head, found)
    } else {
        problem_of_no_map_among_operands(blamed, head, found)
    }
}
