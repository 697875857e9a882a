//! Whether recorded times fit the calls of the branches.
ghost use Rattle.std.specs.Prelude.{◌≡◌, ◌≤◌};
ghost use Rattle.pst_case.specs.Times as spec;

use crate::history::{CallTime, Reply};
use pst_value::Items;

impl CallTime {
    /// Whether the call completed no earlier than it was invoked, or is not known to have completed.
    pub fn is_timely(&self) -> bool
        ensures { result ≡ spec.is_timely self.now }
    {
        match self.completed {
            Some(at) => self.invoked <= at,
            None => true,
        }
    }

    /// Whether the call completed no later than `next` was invoked.
    pub fn is_over_by(&self, next: &CallTime) -> bool
        ensures { result ≡ spec.is_over_by self.now.completed next.now.invoked }
    {
        match self.completed {
            Some(at) => at <= next.invoked,
            None => false,
        }
    }
}

/// Whether the call is over when the first of the others is invoked.
fn is_over_by_first(call: &CallTime, others: &[CallTime]) -> bool
    ensures { result ≡ spec.is_over_by_first call.now others.now }
{
    match others.split_first() {
        Some((next, _)) => call.is_over_by(next),
        None => true,
    }
}

/// Whether no call completed before it was invoked, and each is over when the next is invoked.
fn are_in_turn(calls: &[CallTime]) -> bool
    ensures { result ≡ spec.are_in_turn calls.now }
{
    let Some((call, others)) = calls.split_first() else {
        return true;
    };
    call.is_timely() && is_over_by_first(call, others) && are_in_turn(others)
}

/// Returns whether the times fit branches of `counts` calls: a list for each branch, a time for each call, no call
/// that completed before it was invoked, and each of a branch over when the next is invoked. Allocates nothing.
#[tactic(auto, unfolding(crate::specs::Times::fit))]
pub fn do_times_fit(counts: &[usize], times: &[Items<CallTime>]) -> bool
    ensures { result ≡ spec.fit counts.now times.now }
{
    let Some((count, counts)) = counts.split_first() else {
        return times.is_empty();
    };
    match times.split_first() {
        Some((calls, times)) => {
            calls.len() == *count && are_in_turn(calls.as_slice()) && do_times_fit(counts, times)
        }
        None => false,
    }
}

/// How many calls a reply answers: none if its command was not called.
fn calls_of(reply: &Reply) -> usize
    ensures count { result ≡ spec.calls_of reply.now }
    ensures one { result ≤ 1 }
{
    match reply {
        Reply::NotRun => 0,
        Reply::Value(_) | Reply::Misfit | Reply::Failed | Reply::Unknown => 1,
    }
}

/// Returns how many of the commands with these replies were called.
pub fn count_called(replies: &[Reply]) -> usize
    ensures { result ≡ spec.called replies.now }
{
    let mut count = 0;
    for reply in replies {
        count += calls_of(reply);
    }
    count
}
