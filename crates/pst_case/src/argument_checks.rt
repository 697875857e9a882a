//! Checks of the arguments of commands: their types, and the variables and references that they may not hold.
ghost use Rattle.std.specs.Prelude.{◌≡◌, ◌++◌, [], ◌∷◌, IfOk, MatchOption, map};
ghost use Rattle.std.specs.List.{list_any};
ghost use Rattle.pst_case.specs.Banned.{is_banned};
ghost use Rattle.pst_case.specs.Shape.{holds_var, holds_reference};
ghost use Rattle.pst_case.specs.Shape as spec;
ghost use Rattle.pst_model.specs.Parts.{types_of};
ghost use Rattle.pst_value.specs.Fits.{fits, fit_each};

use crate::case::{Case, Command};
use pst_model::{Param, Source, operation_of};
use pst_value::{Items, Ty, Value};
use std::alloc::{AllocError, Global};

/// Which variables a command may not hold.
#[derive(Clone, Copy, Debug, PartialEq, Eq, Drop)]
pub enum BannedVariables {
    /// Variable 0, and those from this command's number on.
    Forward(u32),
    /// Variables above the first number, up to the second: for a branch, the results of the branches before it.
    Cross(u32, u32),
}

impl BannedVariables {
    /// Whether it bans the variable `number`.
    fn bans(&self, number: u32) -> bool
        ensures { result ≡ is_banned self.now number }
    {
        match self {
            BannedVariables::Forward(own) => number == 0 || *own <= number,
            BannedVariables::Cross(prefix, before) => *prefix < number && number <= *before,
        }
    }
}

/// Whether `value` holds a banned variable.
#[cycle(holds_banned_variable)]
#[tactic(auto, using(crate::proofs::Variables::variables))]
fn holds_banned_variable(value: &Value, banned: &BannedVariables) -> bool
    ensures { result ≡ holds_var (is_banned banned.now) value.now }
{
    match value {
        Value::Int(_) | Value::Bool(_) | Value::Text(_) => false,
        Value::Tuple(parts) | Value::List(parts) => any_holds_banned_variable(
            parts.as_slice(),
            banned,
        ),
        Value::Map(_, values) => any_holds_banned_variable(values.get().as_slice(), banned),
        Value::Var(number) => banned.bans(*number),
        Value::Ref(_, inner) => holds_banned_variable(inner.get(), banned),
        Value::Call(_, args) => any_holds_banned_variable(args.as_slice(), banned),
    }
}

/// Whether one of the values holds a banned variable.
#[cycle(holds_banned_variable)]
pub fn any_holds_banned_variable(values: &[Value], banned: &BannedVariables) -> bool
    ensures { result ≡ list_any (holds_var (is_banned banned.now)) values.now }
{
    for value in values {
        if holds_banned_variable(value, banned) {
            return true;
        }
    }
    false
}

/// Whether `value` holds a reference.
#[cycle(has_reference)]
#[tactic(auto, using(crate::proofs::Variables::references))]
fn has_reference(value: &Value) -> bool
    ensures { result ≡ holds_reference value.now }
{
    match value {
        Value::Int(_) | Value::Bool(_) | Value::Text(_) | Value::Var(_) => false,
        Value::Tuple(parts) | Value::List(parts) => any_has_reference(parts.as_slice()),
        Value::Map(_, values) => any_has_reference(values.get().as_slice()),
        Value::Ref(_, _) => true,
        Value::Call(_, args) => any_has_reference(args.as_slice()),
    }
}

/// Whether one of the values holds a reference.
#[cycle(has_reference)]
pub fn any_has_reference(values: &[Value]) -> bool
    ensures { result ≡ list_any holds_reference values.now }
{
    for value in values {
        if has_reference(value) {
            return true;
        }
    }
    false
}

fn result_type_or_call_type(
    alloc: Global,
    model: &Source,
    command: &Command,
) -> Result<Ty, AllocError>
    ensures { IfOk result (λ ty. ty ≡ spec.result_type model.now command.now) }
{
    match operation_of(model.items.as_slice(), command.op as usize) {
        Some(operation) => operation.result.copy(alloc),
        None => Ok(Ty::Call),
    }
}

fn append_result_types(
    alloc: Global,
    mut types: Items<Ty>,
    model: &Source,
    commands: &[Command],
) -> Result<Items<Ty>, AllocError>
    ensures { IfOk result (λ all. all ≡ types ++ map (spec.result_type model.now) commands.now) }
{
    for command in commands {
        types.push(result_type_or_call_type(alloc, model, command)?)?;
    }
    Ok(types)
}

fn append_result_types_of_branches(
    alloc: Global,
    types: Items<Ty>,
    model: &Source,
    branches: &[Items<Command>],
) -> Result<Items<Ty>, AllocError>
    ensures { IfOk result (λ all.
        all ≡ types ++ map (spec.result_type model.now) (spec.joined branches.now)) }
{
    let Some((branch, branches)) = branches.split_first() else {
        return Ok(types);
    };
    let types = append_result_types(alloc, types, model, branch.as_slice())?;
    append_result_types_of_branches(alloc, types, model, branches)
}

/// The types of the results of all commands, in the order of their numbers, from 1.
pub fn result_types(alloc: Global, model: &Source, case: &Case) -> Result<Items<Ty>, AllocError>
    ensures { IfOk result (λ types. types ≡ spec.result_types model.now case.now) }
{
    let types = append_result_types(alloc, Items::new(alloc), model, case.prefix.as_slice())?;
    let types = append_result_types_of_branches(alloc, types, model, case.branches.as_slice())?;
    append_result_types(alloc, types, model, case.suffix.as_slice())
}

/// Whether each argument has the type of its parameter. An argument with a call in it has no type here.
#[tactic(auto, using(crate::proofs::Arguments::each))]
pub fn do_arguments_fit_parameters(args: &[Value], params: &[Param], vars: &[Ty]) -> bool
    ensures { result ≡ fit_each (map (fits vars.now vars.now []) args.now) (types_of params.now) }
{
    if args.len() != params.len() {
        return false;
    }
    for i in 0..args.len() {
        if !args[i].has_type(&params[i].ty, vars, &[]) {
            return false;
        }
    }
    true
}
