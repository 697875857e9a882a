//! Refused cases and runs.

use crate::arguments::bad_arguments_problem_with_declaration;
use crate::command::{CaseSearch, Command, Part, find_command, parts_of_case_or_run};
use crate::replies::{bad_reply_problem, wrong_reply_or_list_count_problem};
use crate::shape::case_or_run_form_problem_with_note;
use crate::times::bad_times_problem;
use crate::value_problem::{SoughtVariable, first_sought_variable_problem};
use pst_case::CaseFaultKind;
use pst_model::{Item, Source};
use pst_runs::{RunFault, RunFaultKind};
use pst_sexpr::{Form, node_of};
use pst_syntax_problems::{
    FoundProblem, Problem, find_operation, head_word_or_empty, path_to_part, problem_at,
    problem_with_note, shortened_tree_text, unknown_operation_or_function_problem,
};
use std::alloc::{AllocError, Global};

/// The problem of the part at `path`, which has more than `most` commands.
fn problem_of_too_many_commands_at(
    alloc: Global,
    path: &[usize],
    part: &Part<'_>,
    most: usize,
) -> FoundProblem {
    let called = part.called;
    let number = part.commands.len();
    problem_at(
        alloc,
        path,
        format_args!("{called} has {number} commands, at most {most}"),
    )
}

/// The problem of a part of item `item`, which has more than `most` commands.
fn problem_of_too_many_commands_in_part(
    alloc: Global,
    item: usize,
    part: &Part<'_>,
    most: usize,
) -> FoundProblem {
    match part.branch {
        Some(branch) => problem_of_too_many_commands_at(
            alloc,
            &[item, part.place, branch],
            part,
            most,
        ),
        None => problem_of_too_many_commands_at(alloc, &[item, part.place], part, most),
    }
}

/// The problem of an item in which a part, or all branches together, have too many commands.
fn problem_of_too_many_commands_in_case(
    alloc: Global,
    item: usize,
    parts: &[Part<'_>],
) -> FoundProblem {
    let mut together: usize = 0;
    for part in parts {
        let number = part.commands.len();
        let most = if part.is_prefix { 64 } else { 8 };
        if number > most {
            return problem_of_too_many_commands_in_part(alloc, item, part, most);
        }
        if part.is_branch {
            together = together.saturating_add(number);
        }
    }
    problem_at(
        alloc,
        &[item],
        format_args!("the branches have {together} commands together, at most 16"),
    )
}

/// The hint on a command that is written as a model writes it, with the word `call`. `None` if it is not.
fn hint_to_leave_out_call(
    alloc: Global,
    items: &[Item],
    form: &Form,
) -> Result<Option<String>, AllocError> {
    let Some([Form::Word(head), Form::Word(name), ..]) = node_of(form) else {
        return Ok(None);
    };
    if head.as_str() != "call" || find_operation(items, name.as_str()).is_none() {
        return Ok(None);
    }
    let shown = shortened_tree_text(alloc, form)?;
    match shown.as_str().strip_prefix("(call ") {
        Some(call) => Ok(Some(format!(in alloc; "hint: leave out `call`: `({call}`")?)),
        None => Ok(None),
    }
}

/// The problem of a command whose head, which `path` leads to, is no name of an operation.
fn command_of_unknown_operation_problem(
    alloc: Global,
    items: &[Item],
    path: &[usize],
    form: &Form,
) -> FoundProblem {
    let name = head_word_or_empty(form);
    match hint_to_leave_out_call(alloc, items, form)? {
        Some(hint) => problem_with_note(
            alloc,
            path,
            format_args!("no operation has the name `{name}`"),
            hint,
        ),
        None => unknown_operation_or_function_problem(alloc, items, path, name, true),
    }
}

/// The problem of command `number` at `path`, which has a fault of `kind`.
fn command_fault_problem(
    alloc: Global,
    search: &CaseSearch<'_>,
    path: &[usize],
    form: &Form,
    kind: CaseFaultKind,
    number: usize,
) -> FoundProblem {
    match kind {
        CaseFaultKind::UnknownOp => {
            let path = path_to_part(path, alloc, 0)?;
            let items = search.source.items.as_slice();
            command_of_unknown_operation_problem(alloc, items, path.as_slice(), form)
        }
        CaseFaultKind::BadArgument => bad_arguments_problem_with_declaration(
            alloc, search, path, form,
        ),
        CaseFaultKind::ForwardVar => {
            first_sought_variable_problem(
                alloc,
                search.parts,
                SoughtVariable::Later(number),
                path,
                form,
            )
        }
        _ => first_sought_variable_problem(
            alloc,
            search.parts,
            SoughtVariable::OtherBranch(number),
            path,
            form,
        ),
    }
}

/// The problem of command `number`, counted from 1, of item `item`.
fn bad_command_problem(
    alloc: Global,
    search: &CaseSearch<'_>,
    item: usize,
    kind: CaseFaultKind,
    number: usize,
) -> FoundProblem {
    let Some(Command { part, offset, form }) = find_command(search.parts, number) else {
        return Ok(None);
    };
    match part.branch {
        Some(branch) => {
            let path = [item, part.place, branch, offset];
            command_fault_problem(alloc, search, &path, form, kind, number)
        }
        None => {
            let path = [item, part.place, offset.saturating_add(1)];
            command_fault_problem(alloc, search, &path, form, kind, number)
        }
    }
}

/// The problem of an item with the fault `fault`, if it is found.
fn problem_of_run_fault_if_located(
    alloc: Global,
    search: &CaseSearch<'_>,
    form: &Form,
    fault: RunFault,
) -> FoundProblem {
    let RunFault { run, command, kind } = fault;
    let command = command as usize;
    match kind {
        RunFaultKind::BadForm => case_or_run_form_problem_with_note(alloc, run, form),
        RunFaultKind::NotAFit => wrong_reply_or_list_count_problem(alloc, run, form, search.parts),
        RunFaultKind::BadReply => bad_reply_problem(alloc, search, run, form, command),
        RunFaultKind::BadTimes => bad_times_problem(alloc, run, form, search.parts, command),
        RunFaultKind::Case(CaseFaultKind::OverLimit) => problem_of_too_many_commands_in_case(
            alloc,
            run,
            search.parts,
        ),
        RunFaultKind::Case(kind) => bad_command_problem(alloc, search, run, kind, command),
    }
}

/// The problem of an item about which only the fault is known.
fn problem_naming_run_fault_kind(alloc: Global, fault: RunFault) -> FoundProblem {
    let kind = fault.kind.name();
    problem_at(
        alloc,
        &[fault.run],
        format_args!("the item is refused: {kind}"),
    )
}

/// The problem of a case or a run that is refused with `fault`.
pub fn refused_case_or_run_problem(
    alloc: Global,
    source: &Source,
    form: &Form,
    fault: RunFault,
) -> Result<Option<Problem>, AllocError> {
    let parts = parts_of_case_or_run(alloc, form)?;
    let search = CaseSearch {
        source,
        parts: parts.as_slice(),
    };
    match problem_of_run_fault_if_located(alloc, &search, form, fault)? {
        Some(found) => Ok(Some(found)),
        None => problem_naming_run_fault_kind(alloc, fault),
    }
}
