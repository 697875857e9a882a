//! The first fault of the commands of a case, as trees spell them.
ghost use Rattle.std.specs.Prelude.{◌≡◌, ◌<◌, ◌+◌, ◌^◌, false, IfOk, IfErr, None, Some, length, map, MatchResult};
ghost use Rattle.pst_case.specs.Shape.{joined};
ghost use Rattle.pst_runs.specs.Reading as spec;

use crate::commands::{SpelledCase, SpelledCommand};
use crate::room::items_with_capacity;
use pst_case::{
    Case, CaseFault, CaseFaultKind, Command, Shaped, count_commands_of_branches,
    is_case_size_outside_limits, shape,
};
use pst_model::Typed;
use pst_value::Items;
use std::alloc::{AllocError, Global};

/// Returns the commands of a part without those of unknown operations.
fn keep_known_commands_of_part(
    alloc: Global,
    commands: Items<SpelledCommand>,
) -> Result<Items<Command>, AllocError>
    ensures { IfOk result (λ readable. readable ≡ spec.readable_part commands) }
{
    let mut readable = items_with_capacity(alloc, commands.len())?;
    for command in commands.into_vec() {
        match command {
            SpelledCommand::Whole(command) => readable.push(command)?,
            SpelledCommand::Partial(command) => readable.push(command)?,
            SpelledCommand::Unknown => {}
        }
    }
    Ok(readable)
}

fn readable_branches(
    alloc: Global,
    branches: Items<Items<SpelledCommand>>,
) -> Result<Items<Items<Command>>, AllocError>
    ensures { IfOk result (λ readable. readable ≡ map spec.readable_part branches) }
{
    let mut readable = items_with_capacity(alloc, branches.len())?;
    for branch in branches.into_vec() {
        readable.push(keep_known_commands_of_part(alloc, branch)?)?;
    }
    Ok(readable)
}

/// Returns the case without the commands and the arguments that cannot be read.
fn keep_known_commands_of_case(alloc: Global, case: SpelledCase) -> Result<Case, AllocError>
    ensures { IfOk result (λ readable. readable ≡ spec.readable_case case) }
{
    let SpelledCase {
        prefix,
        branches,
        suffix,
    } = case;
    Ok(Case {
        prefix: keep_known_commands_of_part(alloc, prefix)?,
        branches: readable_branches(alloc, branches)?,
        suffix: keep_known_commands_of_part(alloc, suffix)?,
    })
}

/// Returns why a command cannot be read whole, if it cannot.
fn reading_fault_of_command(command: &SpelledCommand) -> Option<CaseFaultKind>
    ensures { result ≡ spec.unread command.now }
{
    match command {
        SpelledCommand::Whole(_) => None,
        SpelledCommand::Partial(_) => Some(CaseFaultKind::BadArgument),
        SpelledCommand::Unknown => Some(CaseFaultKind::UnknownOp),
    }
}

/// Returns the fault of the first command that cannot be read whole. The commands are numbered from `number` on.
fn first_reading_fault_in_part(number: u32, commands: &[SpelledCommand]) -> Option<CaseFault>
    requires { number + length commands.now < 2 ^ 32 }
    ensures { result ≡ spec.part_unread number commands.now }
{
    let (command, commands) = commands.split_first()?;
    match reading_fault_of_command(command) {
        Some(kind) => Some(CaseFault {
            kind,
            command: number,
        }),
        None => first_reading_fault_in_part(number + 1, commands),
    }
}

/// Returns the fault of the first command of the branches that cannot be read whole. `before` commands precede them.
fn first_reading_fault_in_branches(
    before: u32,
    branches: &[Items<SpelledCommand>],
) -> Option<CaseFault>
    requires { before + length (joined branches.now) + 1 < 2 ^ 32 }
    ensures { result ≡ spec.branches_unread before branches.now }
{
    let (branch, branches) = branches.split_first()?;
    match first_reading_fault_in_part(before + 1, branch.as_slice()) {
        Some(fault) => Some(fault),
        None => first_reading_fault_in_branches(before + branch.len() as u32, branches),
    }
}

/// Returns the fault of the first command of a case that cannot be read whole.
#[tactic(auto, using(crate::proofs::Limits::spelled_limits))]
fn first_reading_fault_in_case(case: &SpelledCase) -> Option<CaseFault>
    requires { spec.over_limit case.now ≡ false }
    ensures { result ≡ spec.case_unread case.now }
{
    let branches = case.branches.as_slice();
    let prefix = case.prefix.len() as u32;
    if let Some(fault) = first_reading_fault_in_part(1, case.prefix.as_slice()) {
        return Some(fault);
    }
    if let Some(fault) = first_reading_fault_in_branches(prefix, branches) {
        return Some(fault);
    }
    first_reading_fault_in_part(
        prefix + count_commands_of_branches(branches) + 1,
        case.suffix.as_slice(),
    )
}

fn is_spelled_case_over_limit(case: &SpelledCase) -> bool
    ensures { result ≡ spec.over_limit case.now }
{
    is_case_size_outside_limits(
        case.prefix.as_slice(),
        case.branches.as_slice(),
        case.suffix.as_slice(),
    )
}

/// Returns whether the fault `reading_fault_of_command` comes before the fault `shape`.
fn reading_fault_comes_first(unread: &CaseFault, shape: &CaseFault) -> bool
    ensures { result ≡ spec.comes_before unread.now shape.now }
{
    unread.command < shape.command
        || (unread.command == shape.command && is_unknown_operation_fault(unread.kind))
}

/// Returns whether the fault is that no operation has the name.
fn is_unknown_operation_fault(kind: CaseFaultKind) -> bool
    ensures { result ≡ spec.is_unknown kind }
{
    match kind {
        CaseFaultKind::UnknownOp => true,
        CaseFaultKind::BadArgument
        | CaseFaultKind::ForwardVar
        | CaseFaultKind::CrossVar
        | CaseFaultKind::OverLimit
        | CaseFaultKind::NoMemory => false,
    }
}

/// Returns the first fault of a case whose shape is faulty.
fn earlier_case_fault(unread: Option<CaseFault>, shape: CaseFault) -> CaseFault
    ensures { Some result ≡ spec.first_of unread (Some shape) }
{
    match unread {
        Some(unread) => if reading_fault_comes_first(&unread, &shape) {
            unread
        } else {
            shape
        },
        None => shape,
    }
}

/// Returns the shaped case that `case` spells, or its first fault.
pub fn shape_spelled_case(
    alloc: Global,
    typed: &Typed,
    case: SpelledCase,
) -> Result<Result<Shaped, CaseFault>, AllocError>
    ensures shaped { IfOk result (λ read. IfOk read (λ shaped.
        (spec.case_fault typed.now case ≡ None)
        × (shaped ≡ record { model = typed.now; case = spec.readable_case case }))) }
    ensures refused { IfOk result (λ read. IfErr read (λ fault.
        spec.case_fault typed.now case ≡ Some fault)) }
{
    if is_spelled_case_over_limit(&case) {
        return Ok(Err(CaseFault {
            kind: CaseFaultKind::OverLimit,
            command: 0,
        }));
    }
    let unread = first_reading_fault_in_case(&case);
    match shape(alloc, typed, keep_known_commands_of_case(alloc, case)?) {
        Ok(shaped) => match unread {
            Some(fault) => Ok(Err(fault)),
            None => Ok(Ok(shaped)),
        },
        Err((_, fault)) => {
            if fault.kind == CaseFaultKind::NoMemory {
                return Err(AllocError);
            }
            Ok(Err(earlier_case_fault(unread, fault)))
        }
    }
}
