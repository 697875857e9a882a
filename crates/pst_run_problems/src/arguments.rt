//! The arguments of commands: the first fault in them, and the problem that it is.
ghost use Rattle.std.specs.Prelude.{◌≡◌, true, IfOk};
ghost use Rattle.std.specs.Option.{is_none};
ghost use Rattle.pst_run_problems.specs.ResultTypes.{result_types};
ghost use Rattle.pst_run_problems.specs.ValuePlaces as spec;
ghost use Rattle.pst_model.specs.Parts.{types_of};

use crate::command::{
    CaseSearch, node_parts_after_head, node_parts_or_empty, result_types_of_commands,
};
use crate::value_fault::{
    FoundValueFault, ValueSearch, Wanted, WantedTypes, first_value_fault_after_head,
    is_accepted_value, trees_after_head,
};
use crate::value_problem::{ValueFault, problem_of_found_or_other_fault};
use pst_model::{Op, Param};
use pst_sexpr::Form;
use pst_syntax_problems::{
    FoundProblem, Problem, SignatureText, counted_noun, find_operation, head_word_or_empty,
    problem_at, with_note,
};
use pst_value::Items;
use std::alloc::{AllocError, Global};

/// The problem of a command with `found` arguments of `op`, which takes another number.
fn problem_of_wrong_command_argument_count(
    alloc: Global,
    path: &[usize],
    op: &Op,
    found: usize,
) -> FoundProblem {
    let name = op.name.as_str();
    let takes = counted_noun(op.params.len(), "argument");
    problem_at(
        alloc,
        path,
        format_args!("`{name}` takes {takes}, here it has {found}"),
    )
}

/// The problem of the arguments of a command of `op`.
fn refused_command_arguments_problem(
    alloc: Global,
    search: &CaseSearch<'_>,
    path: &[usize],
    form: &Form,
    op: &Op,
) -> FoundProblem {
    let found = node_parts_after_head(form).len();
    if found != op.params.len() {
        return problem_of_wrong_command_argument_count(alloc, path, op, found);
    }
    let found = first_argument_fault(
        alloc,
        search,
        node_parts_or_empty(form),
        op.params.as_slice(),
    )?;
    problem_of_found_or_other_fault(alloc, search, path, found, ValueFault::Argument)
}

/// The problem `found`, if there is one, with the declaration of `op`.
fn with_operation_declaration_note(alloc: Global, found: Option<Problem>, op: &Op) -> FoundProblem {
    let declared = SignatureText {
        name: op.name.as_str(),
        params: op.params.as_slice(),
        gives: &op.result,
    };
    with_note(alloc, found, format_args!("declared: {declared}"))
}

/// The problem of a command whose arguments spell other values than its operation takes.
pub fn bad_arguments_problem_with_declaration(
    alloc: Global,
    search: &CaseSearch<'_>,
    path: &[usize],
    form: &Form,
) -> FoundProblem {
    match find_operation(search.source.items.as_slice(), head_word_or_empty(form)) {
        Some(op) => with_operation_declaration_note(
            alloc,
            refused_command_arguments_problem(alloc, search, path, form, op)?,
            op,
        ),
        None => Ok(None),
    }
}

/// Whether the reader accepts trees as the arguments of an operation with the parameters `params`.
fn are_accepted_arguments(
    alloc: Global,
    search: &ValueSearch<'_>,
    arguments: &[Form],
    params: &[Param],
) -> Result<bool, AllocError>
    ensures { IfOk result (λ accepted. accepted ≡ spec.are_accepted search.now.source.now
        search.now.results.now arguments.now (types_of params.now)) }
{
    let Some((argument, arguments)) = arguments.split_first() else {
        return Ok(params.is_empty());
    };
    let Some((param, params)) = params.split_first() else {
        return Ok(false);
    };
    if is_accepted_value(alloc, search, argument, Wanted::Type(&param.ty))? {
        are_accepted_arguments(alloc, search, arguments, params)
    } else {
        Ok(false)
    }
}

/// The first fault in a command with the trees `trees`, as a call of an operation with the parameters `params`. None is
/// found exactly if the reader accepts the arguments, and its path leads to a tree that is refused.
#[tactic(auto, using(crate::proofs::Led::argument_led))]
pub fn first_argument_fault<'a>(
    alloc: Global,
    search: &CaseSearch<'_>,
    trees: &'a [Form],
    params: &'a [Param],
) -> Result<Option<FoundValueFault<'a>>, AllocError>
    ensures none { IfOk result (λ found. is_none found ≡ spec.are_accepted search.now.source.now
        (result_types search.now.source.now search.now.parts.now) (spec.after_head trees.now)
        (types_of params.now)) }
    ensures place { IfOk result (λ found. spec.is_call_led search.now.source.now
        (result_types search.now.source.now search.now.parts.now) (types_of params.now) trees.now
        found ≡ true) }
{
    let results = result_types_of_commands(alloc, search.source, search.parts)?;
    let search = ValueSearch {
        source: search.source,
        parts: search.parts,
        results: results.as_slice(),
    };
    if are_accepted_arguments(alloc, &search, trees_after_head(trees), params)? {
        return Ok(None);
    }
    if let Some(found) = first_value_fault_after_head(
        alloc,
        &search,
        trees,
        WantedTypes::Params(params),
    )? {
        return Ok(Some(found));
    }
    let path = Items::new(alloc);
    let fault = ValueFault::Unnamed;
    Ok(Some(FoundValueFault { path, fault }))
}
