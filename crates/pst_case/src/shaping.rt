//! Checks the shape of a case, and says why a case does not have it.
ghost use Rattle.std.specs.Prelude.{◌≡◌, ◌<◌, ◌+◌, ◌^◌, ◌⊎◌, IfOk, IfErr, length, Some, not, ◌||◌};
ghost use Rattle.pst_case.specs.FaultName.{fault_name};
ghost use Rattle.std.specs.List.{list_any};
ghost use Rattle.pst_model.specs.Fitting.{args_fit};
ghost use Rattle.pst_model.specs.Parts.{operation_of};
ghost use Rattle.pst_case.specs.Shape as spec;
ghost use Rattle.pst_case.specs.Refusal.{no_memory};
ghost use Rattle.pst_model.specs.WellTyped.{WellModel};

use crate::argument_checks::{
    BannedVariables, any_has_reference, any_holds_banned_variable, do_arguments_fit_parameters,
    result_types,
};
use crate::case::{Case, Command, Shaped, count_commands_of_branches, is_case_size_outside_limits};
use pst_model::{Op, Source, Typed, operation_of};
use pst_value::{Items, Ty};
use std::alloc::{AllocError, Global};

/// The kinds of a case's faults.
#[derive(Clone, Copy, Debug, PartialEq, Eq, Drop)]
pub enum CaseFaultKind {
    /// No operation has this number.
    UnknownOp = 1,
    /// The count or a type of the arguments is wrong, or an argument holds a reference.
    BadArgument = 2,
    /// An argument holds variable 0, or the variable of the command itself or of a later one.
    ForwardVar = 3,
    /// An argument holds the variable of a command of another branch.
    CrossVar = 4,
    /// Over 64 commands in the prefix, 8 in a branch, or 16 in all branches together, or not two to four
    /// branches.
    OverLimit = 5,
    /// An allocation failed.
    NoMemory = 6,
}

impl CaseFaultKind {
    /// The name to print for it.
    pub fn name(&self) -> &'static str
        ensures { result.now ≡ fault_name self.now }
    {
        match self {
            CaseFaultKind::UnknownOp => "UnknownOp",
            CaseFaultKind::BadArgument => "BadArgument",
            CaseFaultKind::ForwardVar => "ForwardVar",
            CaseFaultKind::CrossVar => "CrossVar",
            CaseFaultKind::OverLimit => "OverLimit",
            CaseFaultKind::NoMemory => "NoMemory",
        }
    }
}

/// A fault, and its command, from 1; 0 is the case itself.
#[derive(Clone, Copy, Debug, PartialEq, Eq, Drop)]
pub struct CaseFault {
    pub kind: CaseFaultKind,
    pub command: u32,
}

/// The rules for the commands of a case.
#[derive(Drop)]
struct CaseRules<'a> {
    model: &'a Source,
    /// The types of the results of all commands.
    vars: &'a [Ty],
    /// How many commands the prefix has.
    prefix: u32,
}

fn is_case_over_limit(case: &Case) -> bool
    ensures { result ≡ spec.over_limit case.now }
{
    is_case_size_outside_limits(
        case.prefix.as_slice(),
        case.branches.as_slice(),
        case.suffix.as_slice(),
    )
}

/// Whether the arguments do not fit the operation, or hold a reference.
#[tactic(auto, using(crate::proofs::Operations::args_fit_known))]
fn has_bad_arguments(rules: &CaseRules<'_>, operation: &Op, command: &Command) -> bool
    requires well { WellModel rules.now.model.now }
    requires known { operation_of rules.now.model.now.items command.now.op ≡ Some operation.now }
    ensures { result ≡
        (not (args_fit rules.now.model.now rules.now.vars.now rules.now.vars.now
        command.now.op command.now.args)
        || list_any spec.holds_reference command.now.args) }
{
    let args = command.args.as_slice();
    !do_arguments_fit_parameters(args, operation.params.as_slice(), rules.vars)
        || any_has_reference(args)
}

/// The fault of command `number`. `before` is the number of commands before its branch, and 0 in the prefix and the
/// suffix.
fn command_fault(
    rules: &CaseRules<'_>,
    before: u32,
    number: u32,
    command: &Command,
) -> Option<CaseFaultKind>
    requires { WellModel rules.now.model.now }
    ensures { result ≡
        spec.command_fault rules.now.model.now rules.now.vars.now rules.now.prefix before number command.now }
{
    let items = rules.model.items.as_slice();
    let args = command.args.as_slice();
    let Some(operation) = operation_of(items, command.op as usize) else {
        return Some(CaseFaultKind::UnknownOp);
    };
    if any_holds_banned_variable(args, &BannedVariables::Forward(number)) {
        return Some(CaseFaultKind::ForwardVar);
    }
    if any_holds_banned_variable(args, &BannedVariables::Cross(rules.prefix, before)) {
        return Some(CaseFaultKind::CrossVar);
    }
    if has_bad_arguments(rules, operation, command) {
        return Some(CaseFaultKind::BadArgument);
    }
    None
}

/// The first fault of a part whose first command is `number`.
fn part_fault(
    rules: &CaseRules<'_>,
    before: u32,
    number: u32,
    commands: &[Command],
) -> Option<CaseFault>
    requires well { WellModel rules.now.model.now }
    requires few { number + length commands.now < 2 ^ 32 }
    ensures { result ≡
        spec.part_fault rules.now.model.now rules.now.vars.now rules.now.prefix before number commands.now }
{
    let (command, commands) = commands.split_first()?;
    match command_fault(rules, before, number, command) {
        Some(kind) => Some(CaseFault {
            kind,
            command: number,
        }),
        None => part_fault(rules, before, number + 1, commands),
    }
}

/// The first fault of the branches, which have `before` commands before them.
fn branches_fault(
    rules: &CaseRules<'_>,
    before: u32,
    branches: &[Items<Command>],
) -> Option<CaseFault>
    requires well { WellModel rules.now.model.now }
    requires few { before + length (spec.joined branches.now) + 1 < 2 ^ 32 }
    ensures { result ≡
        spec.branches_fault rules.now.model.now rules.now.vars.now rules.now.prefix before branches.now }
{
    let (branch, branches) = branches.split_first()?;
    match part_fault(rules, before, before + 1, branch.as_slice()) {
        Some(fault) => Some(fault),
        None => branches_fault(rules, before + branch.len() as u32, branches),
    }
}

/// The first fault of the commands of a case, in the order of their numbers.
fn first_fault_of_commands(rules: &CaseRules<'_>, case: &Case) -> Option<CaseFault>
    requires well { WellModel rules.now.model.now }
    requires prefix { rules.now.prefix ≡ length case.now.prefix }
    requires few { spec.before_suffix case.now + length case.now.suffix + 1 < 2 ^ 32 }
    requires typed { rules.now.vars.now ≡ spec.result_types rules.now.model.now case.now }
    ensures { result ≡ spec.commands_fault rules.now.model.now case.now }
{
    if let Some(fault) = part_fault(rules, 0, 1, case.prefix.as_slice()) {
        return Some(fault);
    }
    if let Some(fault) = branches_fault(rules, rules.prefix, case.branches.as_slice()) {
        return Some(fault);
    }
    let before = rules.prefix + count_commands_of_branches(case.branches.as_slice());
    part_fault(rules, 0, before + 1, case.suffix.as_slice())
}

#[tactic(auto, using(crate::proofs::Within::limits), unfolding(crate::specs::Shape::shape_fault))]
fn first_fault(alloc: Global, model: &Source, case: &Case) -> Result<Option<CaseFault>, AllocError>
    requires { WellModel model.now }
    ensures { IfOk result (λ fault. fault ≡ spec.shape_fault model.now case.now) }
{
    if is_case_over_limit(case) {
        return Ok(Some(CaseFault {
            kind: CaseFaultKind::OverLimit,
            command: 0,
        }));
    }
    let vars = result_types(alloc, model, case)?;
    let rules = CaseRules {
        model,
        vars: vars.as_slice(),
        prefix: case.prefix.len() as u32,
    };
    Ok(first_fault_of_commands(&rules, case))
}

/// Returns the case as a `Shaped` if it has the shape of the model, and otherwise the case with its first fault. If an
/// allocation fails, the fault is `NoMemory`.
pub fn shape(alloc: Global, typed: &Typed, case: Case) -> Result<Shaped, (Case, CaseFault)>
    ensures shaped { IfOk result (λ shaped. shaped ≡ record { model = typed.now; case = case }) }
    ensures refused { IfErr result (λ r.
        (r.0 ≡ case) × ((spec.shape_fault typed.now case ≡ Some r.1) ⊎ (r.1 ≡ no_memory))) }
{
    match first_fault(alloc, typed.source(), &case) {
        Ok(None) => Ok(Shaped::new(typed.source(), case)),
        Ok(Some(fault)) => Err((case, fault)),
        Err(AllocError) => {
            let refused = CaseFault {
                kind: CaseFaultKind::NoMemory,
                command: 0,
            };
            Err((case, refused))
        }
    }
}
