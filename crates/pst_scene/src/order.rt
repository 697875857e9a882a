//! The commands of a case in the order of an interleaving.

use crate::scene::{Call, Calls};
use std::alloc::{AllocError, Global};

/// Returns how many letters of `interleaving` are `branch`.
fn count_branch_in_interleaving(interleaving: &[usize], branch: usize) -> usize {
    let mut count = 0usize;
    for letter in interleaving {
        if *letter == branch {
            count = count.saturating_add(1);
        }
    }
    count
}

/// Returns the next command of `branch` after `interleaving`.
fn next_call_of_branch_after_interleaving<'a>(
    calls: &Calls<'a>,
    interleaving: &[usize],
    branch: usize,
) -> Option<Call<'a>> {
    let commands = calls.branches.get(branch)?;
    commands
        .get(count_branch_in_interleaving(interleaving, branch))
        .copied()
}

fn add_calls<'a>(order: &mut Vec<Call<'a>>, calls: &[Call<'a>]) -> Result<(), AllocError> {
    for call in calls {
        order.push(*call)?;
    }
    Ok(())
}

/// Returns the commands of the prefix, those of the branches in the order of `interleaving`, and those of the
/// suffix.
pub fn calls_in_interleaving_order<'a>(
    alloc: Global,
    calls: &Calls<'a>,
    interleaving: &[usize],
) -> Result<Vec<Call<'a>>, AllocError> {
    let mut order = Vec::new(alloc);
    add_calls(&mut order, calls.prefix.as_slice())?;
    for (index, branch) in interleaving.iter().enumerate() {
        let before = interleaving.get(..index).unwrap_or(&[]);
        if let Some(call) = next_call_of_branch_after_interleaving(calls, before, *branch) {
            order.push(call)?;
        }
    }
    add_calls(&mut order, calls.suffix.as_slice())?;
    Ok(order)
}

/// Returns the call of unknown outcome in the prefix, if there is one.
fn unknown_call_of_prefix<'a>(calls: &Calls<'a>) -> Option<Call<'a>> {
    for call in &calls.prefix {
        if call.has_unknown_outcome() {
            return Some(*call);
        }
    }
    None
}

/// Returns the next call with the letter `letter` after `interleaving`, in a run in which calls have unknown outcomes.
fn next_call_with_letter<'a>(
    calls: &Calls<'a>,
    interleaving: &[usize],
    letter: usize,
) -> Option<Call<'a>> {
    match letter {
        4 => unknown_call_of_prefix(calls),
        5 => calls
            .suffix
            .get(count_branch_in_interleaving(interleaving, letter))
            .copied(),
        _ => next_call_of_branch_after_interleaving(calls, interleaving, letter),
    }
}

/// Returns the calls of the prefix that answered, and the calls of `interleaving`, in a run in which calls have unknown
/// outcomes. `counted` has the calls that its interleavings are made of.
pub fn calls_along_letters<'a>(
    alloc: Global,
    counted: &Calls<'a>,
    interleaving: &[usize],
) -> Result<Vec<Call<'a>>, AllocError> {
    let mut order = Vec::new(alloc);
    for call in &counted.prefix {
        if !call.has_unknown_outcome() {
            order.push(*call)?;
        }
    }
    for (index, letter) in interleaving.iter().enumerate() {
        let before = interleaving.get(..index).unwrap_or(&[]);
        if let Some(call) = next_call_with_letter(counted, before, *letter) {
            order.push(call)?;
        }
    }
    Ok(order)
}

/// Returns the next command of each branch after `interleaving`.
fn next_call_of_each_branch<'a>(
    alloc: Global,
    calls: &Calls<'a>,
    interleaving: &[usize],
) -> Result<Vec<Call<'a>>, AllocError> {
    let mut next = Vec::new(alloc);
    for branch in 0..calls.branches.len() {
        if let Some(call) = next_call_of_branch_after_interleaving(calls, interleaving, branch) {
            next.push(call)?;
        }
    }
    Ok(next)
}

/// Returns the commands that may come after the first `count` events of the prefix, `interleaving` and the
/// suffix: the next one of the prefix, or of each branch, or of the suffix.
pub fn calls_that_may_come_next<'a>(
    alloc: Global,
    calls: &Calls<'a>,
    interleaving: &[usize],
    count: usize,
) -> Result<Vec<Call<'a>>, AllocError> {
    let mut next = Vec::new(alloc);
    if let Some(call) = calls.prefix.get(count) {
        next.push(*call)?;
        return Ok(next);
    }
    let next = next_call_of_each_branch(alloc, calls, interleaving)?;
    if !next.is_empty() {
        return Ok(next);
    }
    let before = calls.prefix.len().saturating_add(interleaving.len());
    let mut next = next;
    if let Some(call) = calls.suffix.get(count.saturating_sub(before)) {
        next.push(*call)?;
    }
    Ok(next)
}

/// Returns command `number`, if it is one of `calls`.
pub fn call_numbered<'a>(calls: &[Call<'a>], number: u32) -> Option<Call<'a>> {
    for call in calls {
        if call.number == number {
            return Some(*call);
        }
    }
    None
}

/// Returns how many of `calls` are before command `number`, or the number of all `calls` if it is not one of them.
pub fn count_calls_before_number(calls: &[Call<'_>], number: u32) -> usize {
    let mut count = 0usize;
    for call in calls {
        if call.number == number {
            return count;
        }
        count = count.saturating_add(1);
    }
    count
}

/// Returns all commands in the order of their numbers.
pub fn all_calls<'a>(alloc: Global, calls: &Calls<'a>) -> Result<Vec<Call<'a>>, AllocError> {
    let mut all = Vec::new(alloc);
    add_calls(&mut all, calls.prefix.as_slice())?;
    for branch in &calls.branches {
        add_calls(&mut all, branch.as_slice())?;
    }
    add_calls(&mut all, calls.suffix.as_slice())?;
    Ok(all)
}

/// Returns the first `count` of `calls`.
pub fn first_calls<'a>(
    alloc: Global,
    calls: &[Call<'a>],
    count: usize,
) -> Result<Vec<Call<'a>>, AllocError> {
    let mut first = Vec::new(alloc);
    for call in calls.iter().take(count) {
        first.push(*call)?;
    }
    Ok(first)
}
