//! Driving a whole case with the threads of a crew.
ghost use Rattle.std.specs.Prelude.{◌≡◌, true, None, IfOk, IfErr, MatchBool, MatchResult, map};
ghost use Rattle.std.specs.List.{list_all};
ghost use Rattle.pst_case.specs.Matches.{matches};
ghost use Rattle.pst_case.specs.Recorded.{result_of};
ghost use Rattle.pst_case.specs.Shape.{IsShaped};
ghost use Rattle.pst_case.specs.Unknown.{times_of_calls};
ghost use Rattle.pst_driver.specs.Driven.{IsDriven, IsDriveFault, all_answers, none_run};
ghost use Rattle.pst_driver.specs.Progress.{BranchesRun, IsBranchFault};

use crate::branches::{
    add_unknown_results_of_commands, copy_known_results, count_branches_with_commands,
};
use crate::clock::{CallSite, history_with_times, start_clock};
use crate::crew::Crew;
use crate::desk::WorkOrder;
use crate::driving::{DriveFault, are_all_replies_values, not_run_replies_of_branches};
use crate::part::call_commands_while_replies_are_values;
use crate::subject::{Relations, Subject};
use crate::suffix::run_suffix_unless_a_call_failed;
use pst_case::{Case, Command, History, Reply, copy_commands, results_of_replies};
use pst_judge::Valid;
use pst_model::Typed;
use pst_value::{Items, Value};
use std::alloc::{AllocError, Global};
use std::sync::Wait;

/// An order to run the commands with these known results.
fn work_order_for_commands(
    alloc: Global,
    commands: &[Command],
    known: &[Option<Value>],
) -> Result<WorkOrder, AllocError>
    ensures { IfOk result (λ order. (order.commands ≡ commands.now) × (order.known ≡ known.now)) }
{
    Ok(WorkOrder {
        commands: copy_commands(alloc, commands)?,
        known: Items::from_vec(copy_known_results(alloc, known)?),
    })
}

/// Returns the replies of the branches. Its own thread runs each branch that is not empty. The first of them is branch
/// `number`. It gives the order of this branch before those of the others, and takes its replies after theirs, also if
/// theirs are a fault: so no thread keeps an order, and none waits for a thread without one.
fn run_branches_with_crew<J: Relations, S: Subject, R: Wait>(
    rt: &R,
    alloc: Global,
    crew: &Crew<J, S>,
    number: u32,
    branches: &[Items<Command>],
    mut known: Vec<Option<Value>>,
) -> Result<Items<Items<Reply>>, DriveFault>
    ensures { MatchResult result
        (λ hs. BranchesRun J.model J.answering J.failing known.items branches.now hs)
        (λ e. IsBranchFault branches.now e) }
{
    let mut replies = Items::new(alloc);
    let Some((first, others)) = branches.split_first() else {
        return Ok(replies);
    };
    let before = Items::from_vec(copy_known_results(alloc, known.as_slice())?);
    add_unknown_results_of_commands(&mut known, first.as_slice())?;
    let next = number.saturating_add(1);
    if first.is_empty() {
        let more = run_branches_with_crew(rt, alloc, crew, next, others, known)?;
        replies.push(Items::new(alloc))?;
        replies.append(more)?;
        return Ok(replies);
    }
    let Some(desk) = crew.desk_if_thread_has_started(number) else {
        return Err(DriveFault::NoThread);
    };
    let order = work_order_for_commands(alloc, first.as_slice(), before.as_slice())?;
    let seen = desk.give_order_and_return_ring_count(rt, order);
    let more = run_branches_with_crew(rt, alloc, crew, next, others, known);
    if more.is_err() {
        crew.arrivals.release();
    }
    let own = desk.await_and_take_matching_replies(rt, seen, first, &before);
    let more = match more {
        Ok(more) => more,
        Err(fault) => return Err(fault),
    };
    let own = match own {
        Ok(own) => own,
        Err(fault) => return Err(fault),
    };
    replies.push(own)?;
    replies.append(more)?;
    Ok(replies)
}

/// The replies of the branches, which run at once if the whole prefix has values, and else not at all.
fn run_crew_branches_if_prefix_has_values<J: Relations, S: Subject, R: Wait>(
    rt: &R,
    alloc: Global,
    crew: &Crew<J, S>,
    branches: &[Items<Command>],
    prefix: &[Reply],
) -> Result<Items<Items<Reply>>, DriveFault>
    ensures replies { IfOk result (λ hs. MatchBool (all_answers prefix.now)
        (BranchesRun J.model J.answering J.failing (map result_of prefix.now) branches.now hs)
        (hs ≡ map none_run branches.now)) }
    ensures fault { IfErr result (λ e. IsBranchFault branches.now e) }
{
    start_clock(crew.clock.as_ref());
    if !are_all_replies_values(prefix) {
        return Ok(not_run_replies_of_branches(alloc, branches)?);
    }
    let known = results_of_replies(alloc, prefix)?;
    crew.arrivals
        .set_expected_and_clear_arrived(count_branches_with_commands(branches));
    run_branches_with_crew(rt, alloc, crew, 0, branches, known)
}

/// Drives a case that has the shape of the model. The history has no times.
fn reset_and_drive_case_with_crew<J: Relations, S: Subject, R: Wait>(
    rt: &R,
    alloc: Global,
    crew: &Crew<J, S>,
    typed: &Typed,
    case: &Case,
) -> Result<History, DriveFault>
    requires shaped { IsShaped typed.now case.now }
    ensures untimed { IfOk result (λ h. h.times ≡ None) }
    ensures driven { IfOk result (λ h. typed.now ≡ J.model
        → IsDriven typed.now J.answering J.failing case.now h) }
    ensures fault { IfErr result (λ e. IsDriveFault J.resetting case.now e) }
{
    if crew.system.write(rt).reset_system().is_err() {
        return Err(DriveFault::ResetFailed);
    }
    let held = crew.system.read(rt);
    let system = held.system();
    let prefix = call_commands_while_replies_are_values(
        alloc,
        typed,
        system,
        CallSite::outside_branches(),
        case.prefix.as_slice(),
        Vec::new(alloc),
    )?;
    let branches = run_crew_branches_if_prefix_has_values(
        rt,
        alloc,
        crew,
        case.branches.as_slice(),
        prefix.as_slice(),
    )?;
    let so_far = History {
        prefix,
        branches,
        suffix: Items::new(alloc),
        times: None,
    };
    let suffix = run_suffix_unless_a_call_failed(
        alloc,
        typed,
        system,
        case.suffix.as_slice(),
        &so_far,
    )?;
    let History {
        prefix,
        branches,
        ..
    } = so_far;
    Ok(History {
        prefix,
        branches,
        suffix,
        times: None,
    })
}

/// The fault where the threads did not run the branches: `NoThread` if one of these is not empty.
fn fault_by_whether_branches_have_commands(branches: &[Items<Command>]) -> DriveFault
    ensures { IsBranchFault branches.now result }
{
    let Some((first, others)) = branches.split_first() else {
        return DriveFault::NoMemory;
    };
    if first.is_empty() {
        fault_by_whether_branches_have_commands(others)
    } else {
        DriveFault::NoThread
    }
}

/// Does what `run` does, on the system of a crew and with its threads, which are to run by the same model. Its
/// own thread runs each branch that is not empty. No other call may drive the crew meanwhile. If the crew has a
/// clock, the history has the times of the calls of the branches.
///
/// The faults are those of `run`. `NoThread`: the thread of a branch has not started. The history is compared
/// with the model once more at the end, since no contract here says that the threads run by the same one.
pub fn drive_case_with_crew_and_check<J: Relations, S: Subject, R: Wait>(
    rt: &R,
    alloc: Global,
    crew: &Crew<J, S>,
    typed: &Typed,
    valid: &Valid,
) -> Result<History, DriveFault>
    requires model { valid.now.model ≡ typed.now }
    ensures matches { IfOk result (λ h. matches typed.now valid.now.case h ≡ true) }
    ensures driven { IfOk result (λ h. valid.now.model ≡ J.model
        → IsDriven valid.now.model J.answering J.failing valid.now.case h) }
    ensures timed { IfOk result (λ h. times_of_calls h ≡ h.times) }
    ensures fault { IfErr result (λ e. IsDriveFault J.resetting valid.now.case e) }
{
    let shaped = valid.shaped();
    let case = shaped.case();
    let history = match reset_and_drive_case_with_crew(rt, alloc, crew, typed, case) {
        Ok(history) => history,
        Err(fault) => return Err(fault),
    };
    let history = match &crew.clock {
        Some(clock) => history_with_times(alloc, clock, history)?,
        None => history,
    };
    if history.matches(typed, shaped) {
        Ok(history)
    } else {
        Err(fault_by_whether_branches_have_commands(case.branches.as_slice()))
    }
}
