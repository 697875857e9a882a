//! Histories against cases.
ghost use Rattle.std.specs.Prelude.{◌≡◌, []};
ghost use Rattle.pst_case.specs.Matches as spec;
ghost use Rattle.pst_case.specs.Shape.{result_type};
ghost use Rattle.pst_model.specs.Fitting.{fits_in};
ghost use Rattle.pst_model.specs.WellTyped.{WellModel};
ghost use Rattle.pst_value.specs.declared.ty.Ty.TheVariants as ty;

use crate::argument_checks::do_arguments_fit_parameters;
use crate::case::{Command, Shaped};
use crate::history::{History, Reply};
use pst_model::{Source, Typed, operation_of};
use pst_value::{Items, Value};

/// Whether the value is a call of an operation of the model, with values of its parameters' types.
#[tactic(auto, using(crate::proofs::Operations::calls))]
fn is_well_typed_call(model: &Source, value: &Value) -> bool
    requires { WellModel model.now }
    ensures { result ≡ fits_in model.now [] [] value.now ty.Call }
{
    let Value::Call(op, args) = value else {
        return false;
    };
    match operation_of(model.items.as_slice(), *op as usize) {
        Some(operation) => do_arguments_fit_parameters(
            args.as_slice(),
            operation.params.as_slice(),
            &[],
        ),
        None => false,
    }
}

/// Whether the value is of the type of the command's result.
#[tactic(auto, using(crate::proofs::Operations::results))]
fn has_result_type_of_command(model: &Source, command: &Command, value: &Value) -> bool
    requires { WellModel model.now }
    ensures { result ≡ fits_in model.now [] [] value.now (result_type model.now command.now) }
{
    match operation_of(model.items.as_slice(), command.op as usize) {
        Some(operation) => value.has_type(&operation.result, &[], &[]),
        None => is_well_typed_call(model, value),
    }
}

fn is_recordable_reply(model: &Source, command: &Command, reply: &Reply) -> bool
    requires { WellModel model.now }
    ensures { result ≡ spec.reply_fits model.now command.now reply.now }
{
    match reply {
        Reply::Value(value) => has_result_type_of_command(model, command, value),
        Reply::Misfit | Reply::Failed | Reply::NotRun | Reply::Unknown => true,
    }
}

fn part_matches(model: &Source, commands: &[Command], replies: &[Reply]) -> bool
    requires { WellModel model.now }
    ensures { result ≡ spec.part_matches model.now commands.now replies.now }
{
    let Some((command, commands)) = commands.split_first() else {
        return replies.is_empty();
    };
    match replies.split_first() {
        Some((reply, replies)) => {
            is_recordable_reply(model, command, reply) && part_matches(model, commands, replies)
        }
        None => false,
    }
}

fn branches_match(model: &Source, branches: &[Items<Command>], replies: &[Items<Reply>]) -> bool
    requires { WellModel model.now }
    ensures { result ≡ spec.branches_match model.now branches.now replies.now }
{
    let Some((branch, branches)) = branches.split_first() else {
        return replies.is_empty();
    };
    match replies.split_first() {
        Some((answers, replies)) => {
            part_matches(model, branch.as_slice(), answers.as_slice())
                && branches_match(model, branches, replies)
        }
        None => false,
    }
}

impl Command {
    /// Whether the value has the type of the command's result. A value with a variable or a reference has no type here.
    /// Allocates nothing.
    pub fn admits_result(&self, typed: &Typed, value: &Value) -> bool
        ensures { result ≡ fits_in typed.now [] [] value.now (result_type typed.now self.now) }
    {
        has_result_type_of_command(typed.source(), self, value)
    }
}

impl History {
    /// Whether it has as many replies in each part as the case has commands, and each value has the result type of its
    /// operation. Allocates nothing.
    #[tactic(auto, unfolding(crate::specs::Matches::matches))]
    pub fn matches(&self, typed: &Typed, shaped: &Shaped) -> bool
        ensures { result ≡ spec.matches typed.now shaped.now.case self.now }
    {
        let model = typed.source();
        let case = shaped.case();
        part_matches(model, case.prefix.as_slice(), self.prefix.as_slice())
            && branches_match(model, case.branches.as_slice(), self.branches.as_slice())
            && part_matches(model, case.suffix.as_slice(), self.suffix.as_slice())
    }
}
