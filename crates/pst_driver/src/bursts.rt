//! Driving a case many times, by a system that does so by itself.
ghost use Rattle.std.specs.Prelude.{◌≡◌, ◌++◌, ◌∷◌, [], true, None, All, IfOk, IfSome, MatchBool, MatchOption, map};
ghost use Rattle.std.specs.List.{list_all};
ghost use Rattle.pst_case.specs.Recorded.{result_of};
ghost use Rattle.pst_case.specs.Shape.{IsShaped};
ghost use Rattle.pst_driver.specs.Bursts.{IsBurstHistory};
ghost use Rattle.pst_driver.specs.Driven.{IsDriven, all_answers, none_run};
ghost use Rattle.pst_driver.specs.Progress.{BranchesRun, all_known};
ghost use Rattle.pst_system.specs.Bursts.{IsMadeDrive};

use crate::branches::{add_unknown_results_of_commands, copy_known_results};
use crate::clock::CallSite;
use crate::crew::Crew;
use crate::driving::{are_all_replies_values, not_run_replies_of_branches};
use crate::part::{call_commands_while_replies_are_values, real_call_with_known_results};
use crate::replay::{MadeDrive, Replay};
use crate::subject::{Relations, Subject, SystemWithRelations};
use crate::suffix::run_suffix_unless_a_call_failed;
use pst_case::{
    BannedVariables, Case, Command, History, Reply, any_holds_banned_variable, results_of_replies,
};
use pst_judge::Valid;
use pst_model::{Typed, operation_of};
use pst_system::{BurstCase, BurstDrive, RealCall};
use pst_value::{Items, Value};
use std::alloc::{AllocError, Global};
use std::sync::Wait;

// ---- the calls of a case

/// The call of a command, if none of its arguments depends on a result.
fn independent_call(
    alloc: Global,
    typed: &Typed,
    command: &Command,
) -> Result<Option<RealCall>, AllocError> {
    if any_holds_banned_variable(command.args.as_slice(), &BannedVariables::Forward(0)) {
        return Ok(None);
    }
    match operation_of(typed.source().items.as_slice(), command.op as usize) {
        Some(operation) => Ok(Some(real_call_with_known_results(alloc, operation, command, &[])?)),
        None => Ok(None),
    }
}

/// The calls of commands, if no argument depends on a result.
fn independent_calls(
    alloc: Global,
    typed: &Typed,
    commands: &[Command],
) -> Result<Option<Items<RealCall>>, AllocError> {
    let mut calls = Items::new(alloc);
    for command in commands {
        match independent_call(alloc, typed, command)? {
            Some(call) => calls.push(call)?,
            None => return Ok(None),
        }
    }
    Ok(Some(calls))
}

/// The calls of each branch, if no argument depends on a result.
fn independent_branches(
    alloc: Global,
    typed: &Typed,
    branches: &[Items<Command>],
) -> Result<Option<Items<Items<RealCall>>>, AllocError> {
    let mut all = Items::new(alloc);
    for branch in branches {
        match independent_calls(alloc, typed, branch.as_slice())? {
            Some(calls) => all.push(calls)?,
            None => return Ok(None),
        }
    }
    Ok(Some(all))
}

/// The calls of a case, if no argument depends on a result.
fn burst_case_of(
    alloc: Global,
    typed: &Typed,
    case: &Case,
) -> Result<Option<BurstCase>, AllocError> {
    let Some(prefix) = independent_calls(alloc, typed, case.prefix.as_slice())? else {
        return Ok(None);
    };
    let Some(branches) = independent_branches(alloc, typed, case.branches.as_slice())? else {
        return Ok(None);
    };
    let Some(suffix) = independent_calls(alloc, typed, case.suffix.as_slice())? else {
        return Ok(None);
    };
    Ok(Some(BurstCase {
        prefix,
        branches,
        suffix,
    }))
}

// ---- the history of a drive

/// The replies of the branches, one branch after another. The first of them is branch `number`.
fn call_branches_in_turn<S: Subject>(
    alloc: Global,
    typed: &Typed,
    system: &S,
    number: u32,
    branches: &[Items<Command>],
    mut known: Vec<Option<Value>>,
) -> Result<Items<Items<Reply>>, AllocError>
    requires { list_all (all_known typed.now) branches.now ≡ true }
    ensures { IfOk result (λ hs.
        BranchesRun typed.now (S.may_answer system.now) (S.may_fail system.now) known.items branches.now hs) }
{
    let mut replies = Items::new(alloc);
    let Some((first, others)) = branches.split_first() else {
        return Ok(replies);
    };
    let before = copy_known_results(alloc, known.as_slice())?;
    add_unknown_results_of_commands(&mut known, first.as_slice())?;
    let site = CallSite {
        branch: number,
        clock: None,
    };
    let own = call_commands_while_replies_are_values(
        alloc,
        typed,
        system,
        site,
        first.as_slice(),
        before,
    )?;
    let next = number.saturating_add(1);
    let more = call_branches_in_turn(alloc, typed, system, next, others, known)?;
    replies.push(own)?;
    replies.append(more)?;
    Ok(replies)
}

/// The replies of the branches, one branch after another if the whole prefix has values, and else none.
fn call_branches_if_prefix_has_values<S: Subject>(
    alloc: Global,
    typed: &Typed,
    system: &S,
    branches: &[Items<Command>],
    prefix: &[Reply],
) -> Result<Items<Items<Reply>>, AllocError>
    requires { list_all (all_known typed.now) branches.now ≡ true }
    ensures { IfOk result (λ hs. MatchBool (all_answers prefix.now)
        (BranchesRun typed.now (S.may_answer system.now) (S.may_fail system.now)
        (map result_of prefix.now) branches.now hs)
        (hs ≡ map none_run branches.now)) }
{
    if !are_all_replies_values(prefix) {
        return not_run_replies_of_branches(alloc, branches);
    }
    let known = results_of_replies(alloc, prefix)?;
    call_branches_in_turn(alloc, typed, system, 0, branches, known)
}

/// The history of a case whose calls a system in its initial state makes one after another.
fn drive_case_in_turn<S: Subject>(
    alloc: Global,
    typed: &Typed,
    system: &S,
    case: &Case,
) -> Result<History, AllocError>
    requires shaped { IsShaped typed.now case.now }
    ensures untimed { IfOk result (λ h. h.times ≡ None) }
    ensures driven { IfOk result (λ h.
        IsDriven typed.now (S.may_answer system.now) (S.may_fail system.now) case.now h) }
{
    let site = CallSite::outside_branches();
    let commands = case.prefix.as_slice();
    let prefix = call_commands_while_replies_are_values(
        alloc,
        typed,
        system,
        site,
        commands,
        Vec::new(alloc),
    )?;
    let branches = call_branches_if_prefix_has_values(
        alloc,
        typed,
        system,
        case.branches.as_slice(),
        prefix.as_slice(),
    )?;
    let so_far = History {
        prefix,
        branches,
        suffix: Items::new(alloc),
        times: None,
    };
    let suffix = run_suffix_unless_a_call_failed(
        alloc,
        typed,
        system,
        case.suffix.as_slice(),
        &so_far,
    )?;
    let History {
        prefix,
        branches,
        ..
    } = so_far;
    Ok(History {
        prefix,
        branches,
        suffix,
        times: None,
    })
}

/// The history of one drive, if its calls are those of the case.
fn history_of_drive<J: Relations, S: Subject>(
    alloc: Global,
    typed: &Typed,
    system: &SystemWithRelations<J, S>,
    valid: &Valid,
    drive: BurstDrive,
) -> Result<Option<History>, AllocError>
    requires model { valid.now.model ≡ typed.now }
    requires made { IsMadeDrive J.answering J.failing drive }
    ensures { IfOk result (λ found. IfSome found (IsBurstHistory J.answering J.failing valid.now)) }
{
    let shaped = valid.shaped();
    let replay = Replay::new(alloc, MadeDrive::<J>::new(drive), system)?;
    let history = drive_case_in_turn(alloc, typed, &replay, shaped.case())?;
    if replay.is_astray() || !history.matches(typed, shaped) {
        return Ok(None);
    }
    Ok(Some(history))
}

/// Takes the last of some drives.
fn pop_drive<J: Relations, S: Subject>(
    _system: &SystemWithRelations<J, S>,
    drives: &mut Items<BurstDrive>,
) -> Option<BurstDrive>
    requires { All (IsMadeDrive J.answering J.failing) drives.old }
    ensures shorter { MatchOption result ((drives.old ≡ []) × (drives.new ≡ [])) (λ d. drives.old ≡ drives.new ++ d ∷ []) }
    ensures drive { IfSome result (IsMadeDrive J.answering J.failing) }
    ensures rest { All (IsMadeDrive J.answering J.failing) drives.new }
{
    drives.pop()
}

/// The histories of the drives in their order, if the calls of each are those of the case.
fn histories_of_drives<J: Relations, S: Subject>(
    alloc: Global,
    typed: &Typed,
    system: &SystemWithRelations<J, S>,
    valid: &Valid,
    mut drives: Items<BurstDrive>,
) -> Result<Option<Items<History>>, AllocError>
    requires model { valid.now.model ≡ typed.now }
    requires made { All (IsMadeDrive J.answering J.failing) drives }
    ensures { IfOk result (λ found. IfSome found (All (IsBurstHistory J.answering J.failing valid.now))) }
{
    let Some(drive) = pop_drive(system, &mut drives) else {
        return Ok(Some(Items::new(alloc)));
    };
    let Some(mut histories) = histories_of_drives(alloc, typed, system, valid, drives)? else {
        return Ok(None);
    };
    match history_of_drive(alloc, typed, system, valid, drive)? {
        Some(history) => {
            histories.push(history)?;
            Ok(Some(histories))
        }
        None => Ok(None),
    }
}

/// Has the system of a crew drive a valid case many times by itself. Returns the histories that differ, in the order in which
/// each came first. They have no times. Each is that of the calls that the system says it made: no thread of the crew takes
/// part. No other call may drive the crew meanwhile.
///
/// `None`: the system drives no case by itself, or not this one, as one whose arguments depend on results. Then the case is
/// to be driven as others are. `AllocError` means that an allocation failed.
pub fn burst_case_with_crew<J: Relations, S: Subject, R: Wait>(
    rt: &R,
    alloc: Global,
    crew: &Crew<J, S>,
    typed: &Typed,
    valid: &Valid,
) -> Result<Option<Items<History>>, AllocError>
    requires model { valid.now.model ≡ typed.now }
    ensures { IfOk result (λ found. IfSome found (All (IsBurstHistory J.answering J.failing valid.now))) }
{
    if !crew.system.read(rt).bursts() {
        return Ok(None);
    }
    let Some(case) = burst_case_of(alloc, typed, valid.shaped().case())? else {
        return Ok(None);
    };
    let Some(drives) = crew.system.write(rt).burst_case(&case) else {
        return Ok(None);
    };
    let held = crew.system.read(rt);
    histories_of_drives(alloc, typed, &*held, valid, drives)
}
