//! The problems of refused times.

use crate::command::{Part, find_part_and_offset_of_command};
use crate::replies::{find_lists_with_place, trees_in_list_or_empty};
use crate::value_problem::problem_showing_tree;
use pst_runs::read_time;
use pst_sexpr::Form;
use pst_syntax_problems::{FoundProblem, counted_noun, problem_at, with_note};
use std::alloc::Global;

/// The lists of a run: those of the replies, and those of the times, with the number of their tree.
#[derive(Clone, Copy, Drop)]
struct RunLists<'a> {
    replies: &'a [Form],
    times: &'a [Form],
    place: usize,
}

/// The lists of replies and of times of a run.
fn find_run_lists(form: &Form) -> Option<RunLists<'_>> {
    let Some((_, replies)) = find_lists_with_place(form, "replies") else {
        return None;
    };
    match find_lists_with_place(form, "times") {
        Some((place, times)) => Some(RunLists {
            replies,
            times,
            place,
        }),
        None => None,
    }
}

/// Whether a reply is that of a command which was called.
fn is_reply_to_call(reply: &Form) -> bool {
    match reply {
        Form::Word(word) => word.as_str() != "not-run",
        Form::Text(_) | Form::Node(_) => true,
    }
}

/// The number of the replies to commands which were called.
fn count_calls(replies: &[Form]) -> usize {
    let mut count: usize = 0;
    for reply in replies {
        if is_reply_to_call(reply) {
            count = count.saturating_add(1);
        }
    }
    count
}

/// The problem of a branch with `times` times, which has another number of calls.
fn problem_of_wrong_time_count(
    alloc: Global,
    path: &[usize],
    part: &Part<'_>,
    times: usize,
    calls: usize,
) -> FoundProblem {
    let called = part.called;
    let has = counted_noun(times, "time");
    let wanted = counted_noun(calls, "call");
    let found = problem_at(alloc, path, format_args!("{called}: {has} for {wanted}"))?;
    with_note(
        alloc,
        found,
        "a branch has a time for each command that was called: for each reply but `not-run`",
    )
}

/// The problem of the first branch with another number of times than of calls. The prefix is the first of the parts, so
/// the number of a branch among them is that of its list of times, counted from 1.
fn wrong_time_count_problem(
    alloc: Global,
    item: usize,
    lists: RunLists<'_>,
    parts: &[Part<'_>],
) -> FoundProblem {
    for (number, part) in parts.iter().enumerate() {
        let calls = count_calls(trees_in_list_or_empty(lists.replies, number));
        let times = trees_in_list_or_empty(lists.times, number.saturating_sub(1)).len();
        if part.is_branch && times != calls {
            let path = [item, lists.place, number];
            return problem_of_wrong_time_count(alloc, &path, part, times, calls);
        }
    }
    Ok(None)
}

/// The problem of a tree at `path` that is not a time.
fn not_a_time_problem(alloc: Global, path: &[usize], form: &Form) -> FoundProblem {
    let found = problem_showing_tree(alloc, path, "", form, " is not a time")?;
    with_note(
        alloc,
        found,
        "a time is `(INVOKED COMPLETED)`, or `(INVOKED -)` if nobody knows that the call completed: integers from 0, without leading zeros",
    )
}

/// Whether a reply says that nobody knows the outcome of its call.
fn is_unknown_outcome(reply: &Form) -> bool {
    match reply {
        Form::Word(word) => word.as_str() == "unknown",
        Form::Text(_) | Form::Node(_) => false,
    }
}

/// The problem of the time at `path` of a call of unknown outcome, which has a completion.
fn unknown_outcome_with_completion_problem(alloc: Global, path: &[usize]) -> FoundProblem {
    let found = problem_at(alloc, path, "a call of unknown outcome has no completion")?;
    with_note(
        alloc,
        found,
        "hint: write `-` (in JSON `null`) in its place: nobody knows when the call completed, or whether",
    )
}

/// The problem of a time at `path` that is refused. It is the time of a call with the reply `reply`.
fn bad_time_problem(
    alloc: Global,
    path: &[usize],
    form: &Form,
    reply: Option<&Form>,
) -> FoundProblem {
    let Some(time) = read_time(form) else {
        return not_a_time_problem(alloc, path, form);
    };
    if !time.is_timely() {
        return problem_at(alloc, path, "the call completed before it was invoked");
    }
    if time.completed.is_some() && reply.is_some_and(|reply| is_unknown_outcome(reply)) {
        return unknown_outcome_with_completion_problem(alloc, path);
    }
    let found = problem_at(
        alloc,
        path,
        "the call was invoked before the call before it in its branch was over",
    )?;
    with_note(
        alloc,
        found,
        "in a branch each call is over before the next one is invoked, so only the last one may have `-`",
    )
}

/// The problem of the time of command `command`, counted from 1.
fn bad_time_of_command_problem(
    alloc: Global,
    item: usize,
    lists: RunLists<'_>,
    parts: &[Part<'_>],
    command: usize,
) -> FoundProblem {
    let Some((number, offset)) = find_part_and_offset_of_command(parts, command) else {
        return Ok(None);
    };
    let replies = trees_in_list_or_empty(lists.replies, number);
    let index = count_calls(replies.get(..offset).unwrap_or(&[]));
    match trees_in_list_or_empty(lists.times, number.saturating_sub(1)).get(index) {
        Some(form) => {
            let path = [item, lists.place, number, index];
            bad_time_problem(alloc, &path, form, replies.get(offset))
        }
        None => Ok(None),
    }
}

/// The problem of a run whose times are refused: at a branch if `command` is 0, and else at the time of that command.
pub fn bad_times_problem(
    alloc: Global,
    item: usize,
    form: &Form,
    parts: &[Part<'_>],
    command: usize,
) -> FoundProblem {
    match find_run_lists(form) {
        Some(lists) if command == 0 => wrong_time_count_problem(alloc, item, lists, parts),
        Some(lists) => bad_time_of_command_problem(alloc, item, lists, parts, command),
        None => Ok(None),
    }
}
