//! What is wrong with places in lists, with lists, comprehensions and folds.

use crate::diagnose::BlamedPart;
use crate::expression_parts::{comprehension_clauses_or_empty, is_clause_over_list};
use crate::operands::{
    operand_type_mismatch, problem_of_non_list_part, with_hint_if_reference,
    with_hint_if_references_for_values, with_item_access_hint_if_container,
};
use crate::spelling::shortened_type_text_of_kind;
use pst_model::Expr;
use pst_sexpr::Form;
use pst_syntax_problems::{FoundProblem, TypeText, problem_at_part, problem_with_note};
use pst_typing::{Kind, KindForm};
use pst_value::Ty;
use std::alloc::AllocError;

/// The problem of the place of an `nth` in a list, if it is no int.
fn nth_index_type_problem(blamed: &BlamedPart<'_>, place: &Kind) -> FoundProblem {
    let int = Kind::of(blamed.alloc, &Ty::Int)?;
    operand_type_mismatch(blamed, "`nth`", 2, &int, place)
}

/// The problem of an `nth` whose place comes before its list.
fn problem_of_nth_with_swapped_operands(blamed: &BlamedPart<'_>) -> FoundProblem {
    problem_with_note(
        blamed.alloc,
        blamed.path,
        "`nth` takes a list and a place, found int and a list",
        "hint: in the other order the two fit: `(nth LIST PLACE)`",
    )
}

/// The problem of an `nth` of a tuple or a map.
fn problem_of_nth_on_tuple_or_map(blamed: &BlamedPart<'_>, found: &Kind) -> FoundProblem {
    let refused = problem_of_non_list_part(blamed.alloc, blamed.path, "`nth`", 1, found)?;
    with_item_access_hint_if_container(blamed.alloc, refused, found)
}

/// Whether a type is that of lists.
fn is_list_type(blamed: &BlamedPart<'_>, kind: &Kind) -> Result<bool, AllocError> {
    Ok(matches!(kind.form(blamed.alloc)?, KindForm::List(_)))
}

/// The problem of an `nth` whose first part has a type of the form `form`, if it has one.
fn nth_type_problem_by_form(
    blamed: &BlamedPart<'_>,
    form: &KindForm,
    list: &Kind,
    place: &Kind,
    has_list_as_place: bool,
) -> FoundProblem {
    match form {
        KindForm::List(_) => nth_index_type_problem(blamed, place),
        KindForm::Int if has_list_as_place => problem_of_nth_with_swapped_operands(blamed),
        KindForm::Tuple(_) | KindForm::Map(_, _) => problem_of_nth_on_tuple_or_map(blamed, list),
        _ => problem_of_non_list_part(blamed.alloc, blamed.path, "`nth`", 1, list),
    }
}

/// The problem of an `nth`, if it has one.
pub fn nth_type_problem(blamed: &BlamedPart<'_>, list: &Kind, place: &Kind) -> FoundProblem {
    let form = list.form(blamed.alloc)?;
    let has_list_as_place = is_list_type(blamed, place)?;
    nth_type_problem_by_form(blamed, &form, list, place, has_list_as_place)
}

/// The problem of an item of a list that has the type `found` instead of `wanted`. `part` is its number in the tree.
fn problem_of_ill_typed_list_item(
    blamed: &BlamedPart<'_>,
    part: usize,
    wanted: &Ty,
    found: &Kind,
) -> FoundProblem {
    let wants = TypeText(wanted);
    let has = shortened_type_text_of_kind(blamed.alloc, found)?;
    let what = format_args!("an item of the list: expected {wants}, found {has}");
    let refused = problem_at_part(blamed.alloc, blamed.path, part, what)?;
    with_hint_if_references_for_values(
        blamed.alloc,
        refused,
        &Kind::of(blamed.alloc, wanted)?,
        found,
    )
}

/// The problem of the first item of a list that has another type, if there is one.
pub fn first_ill_typed_list_item_problem(blamed: &BlamedPart<'_>) -> FoundProblem {
    let Expr::List(wanted, _) = blamed.expr else {
        return Ok(None);
    };
    for (place, found) in blamed.kinds.iter().enumerate() {
        if !found.is(blamed.alloc, wanted)? {
            return problem_of_ill_typed_list_item(blamed, place.saturating_add(2), wanted, found);
        }
    }
    Ok(None)
}

/// Whether a type is the one that the expression of a clause has to have.
fn has_type_wanted_by_comprehension_clause(
    blamed: &BlamedPart<'_>,
    clause: &Form,
    found: &Kind,
) -> Result<bool, AllocError> {
    match found.form(blamed.alloc)? {
        KindForm::List(_) => Ok(is_clause_over_list(clause)),
        KindForm::Bool => Ok(!is_clause_over_list(clause)),
        _ => Ok(false),
    }
}

/// The problem of clause `place`, which has another type.
fn problem_of_ill_typed_comprehension_clause(
    blamed: &BlamedPart<'_>,
    clause: &Form,
    place: usize,
    found: &Kind,
) -> FoundProblem {
    let mut path = Vec::from_slice(blamed.alloc, blamed.path)?;
    path.extend_from_slice(&[1, place])?;
    if is_clause_over_list(clause) {
        return problem_of_non_list_part(blamed.alloc, path.as_slice(), "`in`", 2, found);
    }
    let has = shortened_type_text_of_kind(blamed.alloc, found)?;
    let what = format_args!("`when`: expected bool, found {has}");
    let refused = problem_at_part(blamed.alloc, path.as_slice(), 1, what)?;
    with_hint_if_reference(blamed.alloc, refused, found)
}

/// The problem of the first clause of a comprehension that has another type, if there is one.
pub fn first_ill_typed_clause_problem(blamed: &BlamedPart<'_>) -> FoundProblem {
    for (place, clause) in comprehension_clauses_or_empty(blamed.form)
        .iter()
        .enumerate()
    {
        let Some(found) = blamed.kinds.get(place) else {
            return Ok(None);
        };
        if !has_type_wanted_by_comprehension_clause(blamed, clause, found)? {
            return problem_of_ill_typed_comprehension_clause(blamed, clause, place, found);
        }
    }
    Ok(None)
}

/// The problem of a fold over no list, or with a body of another type than its first value.
pub fn fold_type_problem(blamed: &BlamedPart<'_>) -> FoundProblem {
    match blamed.kinds {
        [_, first, body] => operand_type_mismatch(
            blamed,
            "the body of the fold has the type of its first value",
            5,
            first,
            body,
        ),
        [list, ..] => problem_of_non_list_part(blamed.alloc, blamed.path, "`fold`", 2, list),
        [] => Ok(None),
    }
}
