//! Applications of functions and calls of operations.

use crate::diagnose::BlamedPart;
use crate::expression_parts::tree_part_or_whole;
use crate::operands::{has_references_in_place_of_values, operand_type_mismatch, with_only_note};
use crate::spelling::shortened_type_text_of_kind;
use pst_model::{Expr, Fun, Item, Param};
use pst_sexpr::word_of;
use pst_syntax_problems::{
    FoundProblem, Problem, SignatureText, counted_noun, find_operation, hint_for_foreign_word,
    is_head_of_map_form, nearest_expression_head_hint, path_to_part, problem_at,
    problem_with_note_at_part, unknown_operation_or_function_problem, with_note,
};
use pst_typing::Kind;
use std::alloc::AllocError;
use std::fmt::Display;

/// The function `name`.
fn find_declared_function<'a>(items: &'a [Item], name: &str) -> Option<&'a Fun> {
    for item in items {
        if let Item::Fun(fun) = item {
            if fun.name.as_str() == name {
                return Some(fun);
            }
        }
    }
    None
}

/// Whether argument `argument` has the type of parameter `parameter`, both counted from 0.
fn is_argument_of_parameter_type(
    blamed: &BlamedPart<'_>,
    params: &[Param],
    argument: usize,
    parameter: usize,
) -> Result<bool, AllocError> {
    match (blamed.kinds.get(argument), params.get(parameter)) {
        (Some(kind), Some(param)) => kind.is(blamed.alloc, &param.ty),
        _ => Ok(false),
    }
}

/// The number of the first argument, from `from` on, that has another type than its parameter.
fn first_ill_typed_argument(
    blamed: &BlamedPart<'_>,
    params: &[Param],
    from: usize,
) -> Result<Option<usize>, AllocError> {
    for place in from..params.len() {
        if !is_argument_of_parameter_type(blamed, params, place, place)? {
            return Ok(Some(place));
        }
    }
    Ok(None)
}

/// Whether exactly two arguments do not fit, and both would fit if they were swapped. `first` is the number of the
/// first of them.
fn are_two_arguments_swapped(
    blamed: &BlamedPart<'_>,
    params: &[Param],
    first: usize,
) -> Result<bool, AllocError> {
    let Some(second) = first_ill_typed_argument(blamed, params, first.saturating_add(1))? else {
        return Ok(false);
    };
    if !is_argument_of_parameter_type(blamed, params, first, second)? {
        return Ok(false);
    }
    if !is_argument_of_parameter_type(blamed, params, second, first)? {
        return Ok(false);
    }
    Ok(first_ill_typed_argument(blamed, params, second.saturating_add(1))?.is_none())
}

/// The problem `refused`, with the declaration.
fn with_declaration_note(
    blamed: &BlamedPart<'_>,
    refused: Option<Problem>,
    declared: &SignatureText<'_>,
) -> FoundProblem {
    with_note(blamed.alloc, refused, format_args!("declared: {declared}"))
}

/// The problem `refused` of an argument of a call for the parameter `called`. If it is the result of an earlier call, its
/// only note says how the parameter is declared.
fn with_only_hint_if_reference_argument(
    blamed: &BlamedPart<'_>,
    refused: Option<Problem>,
    called: &str,
    wanted: &Kind,
    found: &Kind,
) -> FoundProblem {
    if !matches!(blamed.expr, Expr::Call(_, _))
        || !has_references_in_place_of_values(blamed.alloc, wanted, found)?
    {
        return Ok(refused);
    }
    let declared = shortened_type_text_of_kind(blamed.alloc, found)?;
    let hint = format_args!(
        "hint: for results of earlier calls declare the parameter as `({called} {declared})`, and `deref` it in post (docs/language.md, Patterns)"
    );
    with_only_note(blamed.alloc, refused, hint)
}

/// The problem of argument `place`, counted from 0, which has another type than its parameter. `part` is its number in
/// the tree.
fn argument_type_problem(
    blamed: &BlamedPart<'_>,
    declared: &SignatureText<'_>,
    place: usize,
    part: usize,
) -> FoundProblem {
    let Some(param) = declared.params.get(place) else {
        return Ok(None);
    };
    let Some(found) = blamed.kinds.get(place) else {
        return Ok(None);
    };
    let wanted = Kind::of(blamed.alloc, &param.ty)?;
    let called = param.name.as_str();
    let name = declared.name;
    let what = format_args!("the parameter {called} of `{name}`");
    let refused = operand_type_mismatch(blamed, what, part, &wanted, found)?;
    let refused = with_only_hint_if_reference_argument(blamed, refused, called, &wanted, found)?;
    with_declaration_note(blamed, refused, declared)
}

/// The problem of argument `place`, as [`argument_type_problem`] returns it, with a hint if two arguments would fit in the other
/// order.
fn argument_problem_with_hint_if_swapped(
    blamed: &BlamedPart<'_>,
    declared: &SignatureText<'_>,
    place: usize,
    part: usize,
) -> FoundProblem {
    let refused = argument_type_problem(blamed, declared, place, part)?;
    if are_two_arguments_swapped(blamed, declared.params, place)? {
        let hint = "hint: in the other order the two arguments fit";
        return with_note(blamed.alloc, refused, hint);
    }
    Ok(refused)
}

/// The problem of arguments whose number is not that of the parameters.
fn problem_of_wrong_argument_count(
    blamed: &BlamedPart<'_>,
    declared: &SignatureText<'_>,
) -> FoundProblem {
    let name = declared.name;
    let takes = counted_noun(declared.params.len(), "argument");
    let found = blamed.kinds.len();
    let refused = problem_at(
        blamed.alloc,
        blamed.path,
        format_args!("`{name}` takes {takes}, here it has {found}"),
    )?;
    with_declaration_note(blamed, refused, declared)
}

/// The problem of arguments that do not fit the parameters, if one does not. `first` is the number of the first
/// argument in the tree.
fn argument_count_or_type_problem(
    blamed: &BlamedPart<'_>,
    declared: &SignatureText<'_>,
    first: usize,
) -> FoundProblem {
    if blamed.kinds.len() != declared.params.len() {
        return problem_of_wrong_argument_count(blamed, declared);
    }
    match first_ill_typed_argument(blamed, declared.params, 0)? {
        Some(place) => argument_problem_with_hint_if_swapped(
            blamed,
            declared,
            place,
            first.saturating_add(place),
        ),
        None => Ok(None),
    }
}

/// The problem of the unknown name `name` at part `part` of the tree, with the known operations or functions.
fn unknown_callee_problem(
    blamed: &BlamedPart<'_>,
    part: usize,
    name: &str,
    are_operations: bool,
) -> FoundProblem {
    let path = path_to_part(blamed.path, blamed.alloc, part)?;
    unknown_operation_or_function_problem(
        blamed.alloc,
        blamed.context.items,
        path.as_slice(),
        name,
        are_operations,
    )
}

/// The problem of a call of an operation, if it has one.
pub fn operation_call_problem_if_any(blamed: &BlamedPart<'_>) -> FoundProblem {
    let Some(name) = word_of(tree_part_or_whole(blamed.form, 1)) else {
        return Ok(None);
    };
    let name = name.as_str();
    match find_operation(blamed.context.items, name) {
        Some(op) => {
            let declared = SignatureText {
                name,
                params: op.params.as_slice(),
                gives: &op.result,
            };
            argument_count_or_type_problem(blamed, &declared, 2)
        }
        None => unknown_callee_problem(blamed, 1, name, true),
    }
}

/// The problem of a function that no item declares, with a note.
fn unknown_function_problem_with_note<N: Display + Drop>(
    blamed: &BlamedPart<'_>,
    name: &str,
    note: N,
) -> FoundProblem {
    problem_with_note_at_part(
        blamed.alloc,
        blamed.path,
        0,
        format_args!("no function has the name `{name}`"),
        note,
    )
}

/// The problem of a function that no item declares, with the known name that is probably meant, or with the known
/// functions.
fn unknown_function_problem_with_suggestion(blamed: &BlamedPart<'_>, name: &str) -> FoundProblem {
    match nearest_expression_head_hint(blamed.alloc, blamed.has_maps, name)? {
        Some(hint) => unknown_function_problem_with_note(blamed, name, hint),
        None => unknown_callee_problem(blamed, 0, name, false),
    }
}

/// The problem of a function that no item declares.
fn unknown_function_problem(blamed: &BlamedPart<'_>, name: &str) -> FoundProblem {
    if let Some(hint) = hint_for_foreign_word(name) {
        return unknown_function_problem_with_note(blamed, name, format_args!("hint: {hint}"));
    }
    if is_head_of_map_form(name) {
        let hint = "hint: a model with maps begins with `(model2 NAME ..)`";
        return unknown_function_problem_with_note(blamed, name, hint);
    }
    if find_operation(blamed.context.items, name).is_some() {
        return unknown_function_problem_with_note(
            blamed,
            name,
            format_args!("hint: `{name}` is an operation: a call of it is `(call {name} ..)`"),
        );
    }
    unknown_function_problem_with_suggestion(blamed, name)
}

/// The problem of a declared function that may not be applied here, if it may not.
fn problem_if_function_is_inapplicable(blamed: &BlamedPart<'_>, fun: &Fun) -> FoundProblem {
    let name = fun.name.as_str();
    if find_declared_function(blamed.context.earlier, name).is_none() {
        return problem_with_note_at_part(
            blamed.alloc,
            blamed.path,
            0,
            format_args!("the function `{name}` is not declared before this item"),
            "a function can only apply functions of earlier items, so not itself",
        );
    }
    if fun.is_post && !blamed.context.is_post {
        return problem_with_note_at_part(
            blamed.alloc,
            blamed.path,
            0,
            format_args!("the postfun `{name}` can only be applied in post and in postfuns"),
            "hint: if it has no `deref`, declare it as a `fun`",
        );
    }
    Ok(None)
}

/// The problem of an application of a function, if it has one.
pub fn function_application_problem_if_any(blamed: &BlamedPart<'_>, name: &str) -> FoundProblem {
    let Some(fun) = find_declared_function(blamed.context.items, name) else {
        return unknown_function_problem(blamed, name);
    };
    let declared = SignatureText {
        name,
        params: fun.params.as_slice(),
        gives: &fun.result,
    };
    match problem_if_function_is_inapplicable(blamed, fun)? {
        Some(found) => Ok(Some(found)),
        None => argument_count_or_type_problem(blamed, &declared, 1),
    }
}
