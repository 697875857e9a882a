//! Explanations on standard error: why no interleaving explains a driven run or the smallest failure of a campaign,
//! and why the first trial without a case has none.
ghost use Rattle.pst_cli.specs.CampaignFailures.{IsFailingRun};
ghost use Rattle.pst_trial.specs.Settings.{AreInRange};

use crate::systems::sample_calls;
use pst_case::{Case, Command, History, Reply};
use pst_cli::{
    CallOrder, CampaignEnd, KnownSystem, LostTrials, TrialFailure,
    compile_model_and_explain_failed_run, explain_failure, judge_recorded_run,
};
use pst_driver::has_only_value_replies;
use pst_eval::Callback;
use pst_judge::{Judged, Verdict};
use pst_messages::{explanation_why_trial_has_no_case, model_beginning_after_call};
use pst_model::Typed;
use pst_trial::Settings;
use pst_value::Items;
use std::alloc::{AllocError, Global};

/// Writes why trial `number` has no case.
fn print_why_trial_has_no_case<R: Eprint>(
    rt: &R,
    alloc: Global,
    settings: Settings,
    input: &[u8],
    number: usize,
)
    requires { AreInRange settings }
{
    let text = explanation_why_trial_has_no_case(
        alloc,
        input,
        settings.seed,
        number as u64,
        settings.commands,
    );
    if let Ok(Some(text)) = text {
        let _ = eprint!(rt; "trial {number} has no case:\n{text}");
    }
}

/// Writes how many trials were lost for a cause, and the numbers of the first.
fn print_lost_trials<R: Eprint>(rt: &R, lost: &LostTrials) {
    let (count, cause) = (lost.count, lost.cause.name());
    let trials = if count == 1 {
        "trial was"
    } else {
        "trials were"
    };
    let _ = eprint!(rt; "pst: {count} {trials} lost ({cause}):");
    let mut before = " ";
    for number in &lost.first {
        let _ = eprint!(rt; "{before}{number}");
        before = ", ";
    }
    let rest = if count > lost.first.len() { ", .." } else { "" };
    let _ = eprintln!(rt; "{rest}");
}

/// Writes to standard error how many trials had calls of unknown outcome, if any had.
fn print_count_of_unknown_outcomes<R: Eprint>(rt: &R, end: &CampaignEnd) {
    let count = end.count_trials_with_unknown_outcomes();
    if count > 0 {
        let ended = end.count_ended_trials();
        let _ = eprintln!(rt; "pst: {count} of {ended} trials had calls of unknown outcome");
    }
}

/// Writes to standard error why no interleaving explains the smallest failure of a campaign, if it has a failure; why the
/// first trial without a case has none, if there is such a trial; and how many trials were lost, or had calls of unknown
/// outcome. `sample` is the system, if
/// it is a sample. Lines of explanations have at most `line_width` bytes. If an allocation fails or the text cannot be
/// written, the report and the status remain without it.
pub fn print_campaign_explanations_to_stderr<R: Eprint>(
    rt: &R,
    alloc: Global,
    sample: Option<KnownSystem>,
    input: &[u8],
    end: &CampaignEnd,
    line_width: usize,
) {
    if let Some(failure) = end.smallest_failure() {
        print_smallest_failure(rt, alloc, input, end, &failure, line_width);
        if let Some(system) = sample
            && has_failed_call(&failure.shrunk.last.history.history)
        {
            let _ = eprint!(rt; "{}", sample_calls(system));
        }
    }
    if let Some(number) = end.first_trial_without_case() {
        let settings = *end.plan().settings();
        print_why_trial_has_no_case(rt, alloc, settings, input, number);
    }
    if let Ok(causes) = end.lost_trials(alloc) {
        for lost in &causes {
            print_lost_trials(rt, lost);
        }
    }
    print_count_of_unknown_outcomes(rt, end);
}

/// The note on a wrong answer.
const NOTE: &str = "  The first call is already wrong in the initial state of the model. Are `init`
  and the postcondition right? Does reset restore that state? Has each worker
  (PST_WORKER) a system of its own?
";

/// The note on a wrong answer that is right in the state after the call.
const LATER_STATE_NOTE: &str =
    "  The first call is already wrong in the initial state of the model. Are `init`
  and the postcondition right? Does reset restore that state? Has each worker
  (PST_WORKER) a system of its own? In the state after the call the postcondition
  is true of this answer: `post` sees the state before the call.
";

/// The note on a run in which no two calls were made at the same time.
const IN_TURN_NOTE: &str =
    "  No two calls of this run were made at the same time, so it shows no race. Is
  the model right? Can a read lag behind a write, as one from a cache or a copy?
  Has each worker (PST_WORKER) a system of its own? Do all clients of a worker
  use this system, or does each keep a state for itself?
";

/// The note on a postcondition that faults.
const FAULT_NOTE: &str =
    "  The postcondition faults on the first call, in the initial state: mend the
  model, so that the postcondition is true or false whatever is answered.
";

/// Returns the command that is called before all others, and its reply: the first of the prefix, or of the only branch
/// that has commands.
fn first_command_and_reply_if_certain<'a>(
    case: &'a Case,
    history: &'a History,
) -> Option<(&'a Command, &'a Reply)> {
    if let Some(command) = case.prefix.get(0) {
        return Some((command, history.prefix.get(0)?));
    }
    let mut first = None;
    let replies = history.branches.as_slice();
    for (branch, replies) in case.branches.as_slice().iter().zip(replies.iter()) {
        if let Some(command) = branch.get(0) {
            if first.is_some() {
                return None;
            }
            first = Some((command, replies.get(0)?));
        }
    }
    first
}

/// Returns whether one of the replies is `failed`.
fn is_one_failed(replies: &[Reply]) -> bool {
    replies.iter().any(|reply| matches!(reply, Reply::Failed))
}

/// Returns whether a call of a run failed.
fn has_failed_call(history: &History) -> bool {
    let branches = history.branches.as_slice();
    is_one_failed(history.prefix.as_slice())
        || branches
            .iter()
            .any(|branch| is_one_failed(branch.as_slice()))
        || is_one_failed(history.suffix.as_slice())
}

/// Returns whether at most one branch of a case has commands.
fn has_at_most_one_branch_with_commands(case: &Case) -> bool {
    let branches = case.branches.as_slice().iter();
    branches.filter(|branch| !branch.is_empty()).count() <= 1
}

/// Returns two empty branches.
fn two_empty_branches<T: Drop>(alloc: Global) -> Result<Items<Items<T>>, AllocError> {
    let mut branches = Items::new(alloc);
    branches.push(Items::new(alloc))?;
    branches.push(Items::new(alloc))?;
    Ok(branches)
}

/// Returns a run of one command.
fn case_and_history_of_one_command(
    alloc: Global,
    command: &Command,
    reply: &Reply,
) -> Result<(Case, History), AllocError> {
    let mut commands = Items::new(alloc);
    commands.push(command.copy(alloc)?)?;
    let mut replies = Items::new(alloc);
    replies.push(reply.copy(alloc)?)?;
    let case = Case {
        prefix: commands,
        branches: two_empty_branches(alloc)?,
        suffix: Items::new(alloc),
    };
    let history = History {
        prefix: replies,
        branches: two_empty_branches(alloc)?,
        suffix: Items::new(alloc),
        times: None,
    };
    Ok((case, history))
}

/// Returns the note on a run of one command, in the initial state of the model. It is empty if the call is right.
fn note_on_judged_call(judged: &Judged) -> &'static str {
    match judged {
        Judged::Verdict(Verdict::Faulted(place)) if place.callback == Callback::Post => FAULT_NOTE,
        Judged::Verdict(Verdict::Unexplained(_)) => NOTE,
        _ => "",
    }
}

/// Returns whether the postcondition of `command` is true of `reply` in the state after the call.
fn is_reply_right_after_call(
    alloc: Global,
    input: &[u8],
    command: &Command,
    reply: &Reply,
) -> Result<bool, AllocError> {
    let Some(model) = model_beginning_after_call(alloc, input, command)? else {
        return Ok(false);
    };
    let (case, history) = case_and_history_of_one_command(alloc, command, reply)?;
    let judged = judge_recorded_run(alloc, &model, case, history)?;
    Ok(matches!(judged, Some(Judged::Verdict(Verdict::Explained(_)))))
}

/// Returns the note on the first call of a run, in the initial state of the model. It is empty if the call is
/// right there.
fn note_if_first_call_is_wrong(
    alloc: Global,
    input: &[u8],
    typed: &Typed,
    case: &Case,
    history: &History,
) -> Result<&'static str, AllocError> {
    let Some((command, reply)) = first_command_and_reply_if_certain(case, history) else {
        return Ok("");
    };
    let (case, history) = case_and_history_of_one_command(alloc, command, reply)?;
    let note = match judge_recorded_run(alloc, typed, case, history)? {
        Some(judged) => note_on_judged_call(&judged),
        None => "",
    };
    if note == NOTE && is_reply_right_after_call(alloc, input, command, reply)? {
        Ok(LATER_STATE_NOTE)
    } else {
        Ok(note)
    }
}

/// Writes which failure of a campaign is explained.
fn print_failure_heading<R: Eprint>(rt: &R, end: &CampaignEnd, number: usize) {
    let count = end.count_failures();
    if count == 1 {
        let _ = eprintln!(rt; "the failure of trial {number}:");
    } else {
        let _ = eprintln!(rt; "the smallest of {count} failures, found in trial {number}:");
    }
}

/// Writes why no interleaving explains the smallest failure of a campaign to standard error, and a note if one applies. The
/// lines of the explanation have at most `line_width` bytes. The model is at the beginning of `input`. If an allocation fails
/// or a text cannot be written, nothing else is said.
fn print_smallest_failure<R: Eprint>(
    rt: &R,
    alloc: Global,
    input: &[u8],
    end: &CampaignEnd,
    failure: &TrialFailure<'_>,
    line_width: usize,
)
    requires { IsFailingRun end.now.plan failure.now.shrunk.now.last }
{
    let last = &failure.shrunk.last;
    let (case, history) = (&last.case, &last.history.history);
    let in_turn = if has_at_most_one_branch_with_commands(case) && has_only_value_replies(history) {
        IN_TURN_NOTE
    } else {
        ""
    };
    let typed = end.plan().typed();
    let note = note_if_first_call_is_wrong(alloc, input, typed, case, history);
    if let Ok(text) = explain_failure(alloc, end, failure, line_width)
        && let Ok(text) = std::str::from_utf8(text.as_slice())
    {
        print_failure_heading(rt, end, failure.trial);
        let _ = eprint!(rt; "{text}");
    }
    if let Ok(note) = note {
        let note = if note.is_empty() { in_turn } else { note };
        let _ = eprint!(rt; "{note}");
    }
}

/// Writes a heading and an explanation to standard error.
fn print_explanation<R: Eprint>(rt: &R, heading: &str, text: &[u8]) {
    if let Ok(text) = std::str::from_utf8(text) {
        let _ = eprint!(rt; "{heading}\n{text}");
    }
}

/// Writes a heading and why no interleaving that counts by `order` explains a run, to standard error, in lines of at most
/// `line_width` bytes. The model is at the beginning of `input`. If an allocation fails or the text cannot be written, the
/// run and its verdict remain without it.
pub fn print_explanation_if_run_failed<R: Eprint>(
    rt: &R,
    alloc: Global,
    heading: &str,
    input: &[u8],
    order: CallOrder,
    case: Case,
    history: History,
    line_width: usize,
) {
    let explanation = compile_model_and_explain_failed_run(
        alloc, input, order, case, history, line_width,
    );
    if let Ok(Some(text)) = explanation {
        print_explanation(rt, heading, text.as_slice());
    }
}
