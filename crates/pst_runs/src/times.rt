//! The times that lists of times spell, for the calls of a history.
ghost use Rattle.std.specs.Prelude.{◌≡◌, ◌<◌, ◌+◌, ◌^◌, IfOk, length, option_copied};
ghost use Rattle.pst_case.specs.Shape.{joined};
ghost use Rattle.pst_runs.specs.Replies.{behind};
ghost use Rattle.pst_runs.specs.Times as spec;

use crate::replies::trees_of_list_or_empty;
use crate::room::items_with_capacity;
use pst_case::{CallTime, History, Reply, count_called};
use pst_sexpr::{Form, are_digits, magnitude_of, node_of, word_of};
use pst_value::{Items, Text};
use std::alloc::{AllocError, Global};

/// Whether digits are `0` and others after it.
fn has_leading_zero(digits: &[u8]) -> bool
    ensures { result ≡ spec.has_leading_zero digits.now }
{
    match digits {
        [first, _, ..] => *first == b'0',
        _ => false,
    }
}

/// The number that a word spells in its shortest form, if it has at most 64 bits.
fn instant_of_word(word: &Text) -> Option<u64>
    ensures { result ≡ spec.instant_of word.now }
{
    let digits = word.as_bytes();
    if are_digits(digits) && !has_leading_zero(digits) {
        magnitude_of(digits)
    } else {
        None
    }
}

/// The time of a completion. It is `None` within if the word is `-`.
fn completion_of_word(word: &Text) -> Option<Option<u64>>
    ensures { result ≡ spec.completion_of word.now }
{
    if word.as_str() == "-" {
        return Some(None);
    }
    match instant_of_word(word) {
        Some(at) => Some(Some(at)),
        None => None,
    }
}

/// The time that a tree spells: `(INVOKED COMPLETED)` or `(INVOKED -)`.
pub fn read_time(form: &Form) -> Option<CallTime>
    ensures { result ≡ spec.time_of form.now }
{
    match node_of(form)? {
        [invoked, completed] => Some(CallTime {
            invoked: instant_of_word(word_of(invoked)?)?,
            completed: completion_of_word(word_of(completed)?)?,
        }),
        _ => None,
    }
}

/// Whether a call did not complete before it was invoked, and the call before it was over by then.
fn is_in_turn(before: &CallTime, next: &CallTime) -> bool
    ensures { result ≡ spec.is_in_turn before.now next.now }
{
    next.is_timely() && before.is_over_by(next)
}

/// Whether a call with the reply may have the time: a call of unknown outcome has no completion.
fn may_have_time(reply: &Reply, time: &CallTime) -> bool
    ensures { result ≡ spec.may_have_time reply.now time.now }
{
    !reply.is_unknown() || time.completed.is_none()
}

/// The time of a call with the reply that a tree spells, if it is in its turn.
fn time_after(before: &CallTime, reply: &Reply, form: &Form) -> Option<CallTime>
    ensures { result ≡ spec.time_after before.now reply.now form.now }
{
    let time = read_time(form)?;
    if is_in_turn(before, &time) && may_have_time(reply, &time) {
        Some(time)
    } else {
        None
    }
}

fn is_called(reply: &Reply) -> bool
    ensures { result ≡ spec.is_called reply.now }
{
    match reply {
        Reply::Value(_) | Reply::Misfit | Reply::Failed | Reply::Unknown => true,
        Reply::NotRun => false,
    }
}

/// The times of the called ones of some commands after others, or the number of the first one whose time is none.
#[tactic(auto, using(crate::proofs::Behind::behind))]
fn read_remaining_times(
    alloc: Global,
    before: CallTime,
    number: u32,
    mut read: Items<CallTime>,
    replies: &[Reply],
    forms: &[Form],
) -> Result<Result<Items<CallTime>, u32>, AllocError>
    requires { number + length replies.now < 2 ^ 32 }
    ensures { IfOk result (λ times.
        times ≡ behind read (spec.branch_times before number replies.now forms.now)) }
{
    let Some((reply, replies)) = replies.split_first() else {
        return Ok(Ok(read));
    };
    let Some((form, others)) = forms.split_first() else {
        return Ok(Ok(read));
    };
    if !is_called(reply) {
        return read_remaining_times(alloc, before, number + 1, read, replies, forms);
    }
    let Some(time) = time_after(&before, reply, form) else {
        return Ok(Err(number));
    };
    read.push(time)?;
    read_remaining_times(alloc, time, number + 1, read, replies, others)
}

/// Returns the times of a branch, whose commands are numbered from `number` on, or the number of the first command
/// whose time is none.
#[tactic(auto, using(crate::proofs::Behind::behind))]
fn read_times_of_branch(
    alloc: Global,
    number: u32,
    replies: &[Reply],
    forms: &[Form],
) -> Result<Result<Items<CallTime>, u32>, AllocError>
    requires { number + length replies.now < 2 ^ 32 }
    ensures { IfOk result (λ times.
        times ≡ spec.branch_times spec.at_first number replies.now forms.now) }
{
    let read = items_with_capacity(alloc, forms.len())?;
    let before = CallTime {
        invoked: 0,
        completed: Some(0),
    };
    read_remaining_times(alloc, before, number, read, replies, forms)
}

/// Returns `read` with the times of `branches` appended, or the number of the first command whose time is none.
/// `before` commands precede the branches.
#[tactic(auto, using(crate::proofs::Behind::behind))]
fn read_times_of_remaining_branches(
    alloc: Global,
    before: u32,
    mut read: Items<Items<CallTime>>,
    branches: &[Items<Reply>],
    lists: &[Form],
) -> Result<Result<Items<Items<CallTime>>, u32>, AllocError>
    requires { before + length (joined branches.now) + 1 < 2 ^ 32 }
    ensures { IfOk result (λ times.
        times ≡ behind read (spec.times_from before branches.now lists.now)) }
{
    let Some((replies, branches)) = branches.split_first() else {
        return Ok(Ok(read));
    };
    let Some((list, lists)) = lists.split_first() else {
        return Ok(Ok(read));
    };
    let forms = trees_of_list_or_empty(list);
    match read_times_of_branch(alloc, before + 1, replies.as_slice(), forms)? {
        Ok(times) => {
            read.push(times)?;
            let before = before + replies.len() as u32;
            read_times_of_remaining_branches(alloc, before, read, branches, lists)
        }
        Err(number) => Ok(Err(number)),
    }
}

/// Returns whether each branch has as many times as calls.
fn time_counts_match(branches: &[Items<Reply>], lists: &[Form]) -> bool
    ensures { result ≡ spec.are_times_counted branches.now lists.now }
{
    let Some((replies, branches)) = branches.split_first() else {
        return true;
    };
    match lists.split_first() {
        Some((list, lists)) => {
            trees_of_list_or_empty(list).len() == count_called(replies.as_slice())
                && time_counts_match(branches, lists)
        }
        None => false,
    }
}

/// Returns the times of the calls of the branches. The fault is 0 if a branch has another number of times than of
/// calls, and else the number of the first command whose time is none.
#[tactic(auto, using(crate::proofs::Behind::behind))]
fn read_times(
    alloc: Global,
    history: &History,
    lists: &[Form],
) -> Result<Result<Items<Items<CallTime>>, u32>, AllocError>
    requires { length history.now.prefix + length (joined history.now.branches) + 1 < 2 ^ 32 }
    ensures { IfOk result (λ times. times ≡ spec.times_of history.now lists.now) }
{
    let branches = history.branches.as_slice();
    if !time_counts_match(branches, lists) {
        return Ok(Err(0));
    }
    let before = history.prefix.len() as u32;
    let read = items_with_capacity(alloc, branches.len())?;
    read_times_of_remaining_branches(alloc, before, read, branches, lists)
}

/// Returns a history with the times that lists of times spell, if it has such lists.
pub fn with_read_times(
    alloc: Global,
    history: History,
    times: Option<&[Form]>,
) -> Result<Result<History, u32>, AllocError>
    requires { length history.prefix + length (joined history.branches) + 1 < 2 ^ 32 }
    ensures { IfOk result (λ timed. timed ≡ spec.timed_history history (option_copied times.entry)) }
{
    let Some(lists) = times else {
        return Ok(Ok(history));
    };
    match read_times(alloc, &history, lists)? {
        Ok(times) => {
            let History {
                prefix,
                branches,
                suffix,
                times: _,
            } = history;
            Ok(Ok(History {
                prefix,
                branches,
                suffix,
                times: Some(times),
            }))
        }
        Err(number) => Ok(Err(number)),
    }
}
