//! Whether the form of a model shows that no interleaving of a case can fail.
ghost use Rattle.std.specs.Prelude.{◌≡◌, IsTrue, IfSome};
ghost use Rattle.pst_judge.specs.Total as spec;
ghost use Rattle.pst_eval.specs.Reach.{reach_of_value};

use crate::symbolic::NumberedCommand;
use pst_eval::{NamesWithReach, greater, reach_of_expression, reach_of_value};
use pst_model::{Expr, Source, operation_of};
use pst_value::{Items, Value};

/// How far the state after a command can reach, from one that reaches at most `reach` before it, if the form of the
/// operation shows that its precondition is true and its next state comes without a fault.
fn reach_after_unfailing_command(
    model: &Source,
    command: &NumberedCommand,
    reach: u64,
) -> Option<u64>
    ensures { IfSome result (spec.StepReaches model.now command.now reach) }
{
    let operation = operation_of(model.items.as_slice(), command.op as usize)?;
    match operation.pre {
        Expr::Bool(true) => {
            let frame = NamesWithReach::Frame(operation.params.as_slice(), command.args.as_slice());
            let outer = NamesWithReach::With(b"s", reach, &frame);
            let inner = NamesWithReach::With(b"r", reach_of_value(&command.variable), &outer);
            reach_of_expression(&operation.next, &inner)
        }
        _ => None,
    }
}

/// How far the state can reach after any one of the commands.
fn greatest_reach_after_commands(
    model: &Source,
    commands: &[NumberedCommand],
    reach: u64,
) -> Option<u64>
    ensures { IfSome result (spec.EachReaches model.now commands.now reach) }
{
    match commands.split_first() {
        Some((first, rest)) => {
            let after = reach_after_unfailing_command(model, first, reach)?;
            Some(greater(after, greatest_reach_after_commands(model, rest, reach)?))
        }
        None => Some(0),
    }
}

/// How far the state can reach after any one of the commands of the branches.
fn greatest_reach_after_branches(
    model: &Source,
    branches: &[Items<NumberedCommand>],
    reach: u64,
) -> Option<u64>
    ensures { IfSome result (spec.BranchesReach model.now branches.now reach) }
{
    match branches.split_first() {
        Some((first, rest)) => {
            let after = greatest_reach_after_commands(model, first.as_slice(), reach)?;
            Some(greater(after, greatest_reach_after_branches(model, rest, reach)?))
        }
        None => Some(0),
    }
}

/// Whether the form of the model shows that no command can fail in `steps` steps, whichever they are, from a state that
/// reaches at most `reach`.
fn form_shows_no_command_fails_within(
    model: &Source,
    branches: &[Items<NumberedCommand>],
    suffix: &[NumberedCommand],
    steps: usize,
    reach: u64,
) -> bool
    ensures { IsTrue result → spec.TotalFor model.now branches.now suffix.now steps reach }
{
    if steps == 0 {
        return true;
    }
    let Some(in_branches) = greatest_reach_after_branches(model, branches, reach) else {
        return false;
    };
    let Some(in_suffix) = greatest_reach_after_commands(model, suffix, reach) else {
        return false;
    };
    let after = greater(in_branches, in_suffix);
    form_shows_no_command_fails_within(model, branches, suffix, steps - 1, after)
}

/// Whether the form of the model shows that no interleaving of the branches fails from the state, with the suffix after
/// each. `commands` is how many commands the branches and the suffix have.
pub fn form_shows_no_command_fails(
    model: &Source,
    branches: &[Items<NumberedCommand>],
    suffix: &[NumberedCommand],
    commands: usize,
    state: &Value,
) -> bool
    ensures { IsTrue result → spec.TotalFor model.now branches.now suffix.now commands (reach_of_value state.now) }
{
    form_shows_no_command_fails_within(model, branches, suffix, commands, reach_of_value(state))
}
