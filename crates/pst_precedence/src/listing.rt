//! The recorded precedences that imply all others.
ghost use Rattle.std.specs.Prelude.{◌≡◌, ◌<◌, Some, [], IfOk, OnOk, length};
ghost use Rattle.pst_judge.specs.InTime.{command_at};
ghost use Rattle.pst_precedence.specs.Listing.{Adds, IsLastPreceding, IsLaterCall, IsLaterIn, ListsAll};

use crate::precedence::{Call, Precedence};
use pst_case::CallTime;
use pst_judge::precedes;
use pst_value::Items;
use std::alloc::{AllocError, Global};

/// The index of the last of `calls` that precedes `call`.
fn last_preceding(calls: &[CallTime], call: CallTime) -> Option<usize>
    ensures { IsLastPreceding calls.now call result }
{
    let mut last = None;
    for (index, earlier) in calls.iter().enumerate() {
        if precedes(*earlier, call) {
            last = Some(index);
        }
    }
    last
}

/// Appends the precedence of the last call of each other branch that precedes `later`.
fn append_precedences_of_call(
    times: &[Items<CallTime>],
    later: Call,
    time: CallTime,
    list: &mut Vec<Precedence>,
) -> Result<(), AllocError>
    requires { command_at times.now later.branch later.index ≡ Some time }
    ensures { OnOk result (Adds times.now (IsLaterCall later) list.old.items list.new.items) }
{
    for branch in 0..times.len() {
        if branch == later.branch {
            continue;
        }
        if let Some(index) = last_preceding(times[branch].as_slice(), time) {
            let earlier = Call { branch, index };
            list.push(Precedence { earlier, later })?;
        }
    }
    Ok(())
}

/// Appends those of each call of a branch.
fn append_precedences_of_branch(
    times: &[Items<CallTime>],
    branch: usize,
    list: &mut Vec<Precedence>,
) -> Result<(), AllocError>
    requires { branch < length times.now }
    ensures { OnOk result (Adds times.now (IsLaterIn branch) list.old.items list.new.items) }
{
    let calls = times[branch].as_slice();
    for index in 0..calls.len() {
        append_precedences_of_call(times, Call { branch, index }, calls[index], list)?;
    }
    Ok(())
}

/// Returns recorded precedences of calls of different branches that imply all others: for each call, that of the last
/// call of each other branch that precedes it.
pub(crate) fn implying_precedences(
    alloc: Global,
    times: &[Items<CallTime>],
) -> Result<Vec<Precedence>, AllocError>
    ensures { IfOk result (λ list. ListsAll times.now list.items) }
{
    let mut list = Vec::new(alloc);
    for branch in 0..times.len() {
        append_precedences_of_branch(times, branch, &mut list)?;
    }
    Ok(list)
}
