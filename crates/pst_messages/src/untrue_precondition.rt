//! The first command of an interleaving whose precondition is not true, and the condition by which a replay finds it.
ghost use Rattle.std.specs.Prelude.{◌≡◌, ℕ, true, None};
ghost use Rattle.pst_judge.specs.Verdict.{first_broken};
ghost use Rattle.pst_runs.specs.Lawful.{IsLawful};

use pst_case::{Case, Command, Run};
use pst_eval::Callbacks;
use pst_judge::{Condition, Event, bool_of_value};
use pst_model::{Expr, Item};
use pst_reasons::{AnyOrder, RecordedRun, states};
use pst_value::{Fault, Value};
use std::alloc::{AllocError, Global};

/// A command whose precondition is not true on the state before it.
#[derive(Debug, Drop)]
pub struct FalsePreconditionCommand {
    /// The number of the command, from 1.
    pub command: usize,
    /// The state before it.
    pub state: Value,
}

/// For each operation of a model, in their order, whether its precondition is another expression than `true`.
pub fn which_operations_have_preconditions(
    alloc: Global,
    items: &[Item],
) -> Result<Vec<bool>, AllocError> {
    let mut marks = Vec::new(alloc);
    for item in items {
        if let Item::Op(op) = item {
            marks.push(!matches!(&op.pre, Expr::Bool(true)))?;
        }
    }
    Ok(marks)
}

/// Whether one of the commands calls a marked operation.
fn do_commands_call_marked_operation(marks: &[bool], commands: &[Command]) -> bool {
    commands
        .iter()
        .any(|command| marks.get(command.op as usize) == Some(&true))
}

/// Whether a command of a case calls a marked operation.
pub fn does_case_call_marked_operation(marks: &[bool], case: &Case) -> bool {
    do_commands_call_marked_operation(marks, case.prefix.as_slice())
        || case.branches.as_slice().iter().any(|branch| do_commands_call_marked_operation(
            marks,
            branch.as_slice(),
        ))
        || do_commands_call_marked_operation(marks, case.suffix.as_slice())
}

/// Whether all results are known.
fn are_results_known(results: &[Option<Value>]) -> bool
    ensures { (n : ℕ) → result ≡ true → first_broken n results.now ≡ None }
{
    match results.split_first() {
        Some((Some(_), rest)) => are_results_known(rest),
        Some((None, _)) => false,
        None => true,
    }
}

/// How many commands are in the branches before branch `branch`.
fn count_commands_in_earlier_branches(case: &Case, branch: usize) -> usize {
    let mut count: usize = 0;
    for commands in case.branches.as_slice().iter().take(branch) {
        count = count.saturating_add(commands.len());
    }
    count
}

/// The number, from 1, of the command at `place`, from 0, in `interleaving`.
fn command_number_at_interleaving_place(
    case: &Case,
    interleaving: &[usize],
    place: usize,
) -> usize {
    let prefix_length = case.prefix.len();
    let letter = place.saturating_sub(prefix_length);
    if place < prefix_length {
        return place.saturating_add(1);
    }
    let Some(branch) = interleaving.get(letter) else {
        return place.saturating_add(1);
    };
    let earlier = interleaving
        .iter()
        .take(letter)
        .filter(|other| **other == *branch)
        .count();
    prefix_length
        .saturating_add(count_commands_in_earlier_branches(case, *branch))
        .saturating_add(earlier)
        .saturating_add(1)
}

/// The first command of a recorded run whose precondition is not true in `interleaving`, which explains the
/// run. Returns `None` if each is true, or if a result of the run is not known.
pub fn first_untrue_precondition_if_results_known<C: Callbacks>(
    callbacks: &C,
    alloc: Global,
    run: &Run,
    interleaving: &[usize],
) -> Result<Option<FalsePreconditionCommand>, AllocError>
    requires { IsLawful (C.model callbacks.now) run.now }
{
    let Some(history) = &run.history else {
        return Ok(None);
    };
    if !are_results_known(history.recorded(alloc)?.as_slice()) {
        return Ok(None);
    }
    let recorded = RecordedRun {
        callbacks,
        order: &AnyOrder,
        alloc,
        shaped: &run.shaped,
        history,
    };
    let mut states = states(&recorded, &Preconditions, interleaving)?;
    let case = run.shaped.case();
    let commands = count_case_commands(case);
    let count = states.len();
    if count > commands {
        return Ok(None);
    }
    match states.pop() {
        Some(state) => Ok(Some(FalsePreconditionCommand {
            command: command_number_at_interleaving_place(
                case,
                interleaving,
                count.saturating_sub(1),
            ),
            state,
        })),
        None => Ok(None),
    }
}

/// How many commands a case has.
fn count_case_commands(case: &Case) -> usize {
    let branches = case.branches.as_slice();
    case.prefix
        .len()
        .saturating_add(count_commands_in_earlier_branches(case, branches.len()))
        .saturating_add(case.suffix.len())
}

/// The precondition of each event.
#[derive(Debug, Clone, Copy, Drop)]
pub struct Preconditions;

impl Condition for Preconditions {
    ghost use Rattle.pst_eval.specs.Callbacks.{pre_of};

    ghost asked = { λ p m s e. pre_of m e.op s e.args };

    fn evaluate_on_event<C: Callbacks>(
        &self,
        callbacks: &C,
        alloc: Global,
        state: &Value,
        event: &Event,
    ) -> Result<Result<bool, Fault>, AllocError> {
        match callbacks.pre(alloc, event.op, state, event.args.as_slice())? {
            Ok((answer, _)) => Ok(Ok(bool_of_value(&answer))),
            Err(fault) => Ok(Err(fault)),
        }
    }
}
