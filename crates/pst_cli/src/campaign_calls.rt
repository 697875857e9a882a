//! Whether the runs of a campaign have a call.
ghost use Rattle.std.specs.Prelude.{◌≡◌};
ghost use Rattle.std.specs.List.{list_any};
ghost use Rattle.pst_cli.specs.CampaignCalls as spec;

use pst_case::Reply;
use pst_ledger::Entry;
use pst_trial::{FailingCase, JudgedRun, Record, TrialOutcome};
use pst_value::Items;

/// Whether the command with this reply was called.
fn was_called(reply: &Reply) -> bool
    ensures { result ≡ spec.was_called reply.now }
{
    !matches!(reply, Reply::NotRun)
}

/// Whether one of the commands with these replies was called.
fn any_was_called(replies: &[Reply]) -> bool
    ensures { result ≡ spec.any_was_called replies.now }
{
    replies.iter().any(|reply| was_called(reply))
}

/// Whether a command of one of the branches with these replies was called.
fn any_was_called_in_branches(branches: &[Items<Reply>]) -> bool
    ensures { result ≡ list_any spec.any_was_called branches.now }
{
    branches
        .iter()
        .any(|branch| any_was_called(branch.as_slice()))
}

/// Whether a command of the run was called.
fn has_call(run: &JudgedRun) -> bool
    ensures { result ≡ spec.has_call run.now }
{
    let history = &run.history;
    any_was_called(history.prefix.as_slice())
        || any_was_called_in_branches(history.branches.as_slice())
        || any_was_called(history.suffix.as_slice())
}

/// Whether one of the runs has a call.
fn any_has_call(runs: &[JudgedRun]) -> bool
    ensures { result ≡ list_any spec.has_call runs.now }
{
    runs.iter().any(|run| has_call(run))
}

/// Whether the failing run of a case has a call.
fn has_failing_call(failing: &FailingCase<JudgedRun>) -> bool
    ensures { result ≡ spec.has_failing_call failing.now }
{
    has_call(&failing.history)
}

/// Whether the failing run of one of the cases has a call.
fn any_has_failing_call(failing: &[FailingCase<JudgedRun>]) -> bool
    ensures { result ≡ list_any spec.has_failing_call failing.now }
{
    failing.iter().any(|case| has_failing_call(case))
}

/// Whether a run of a trial has a call.
fn has_call_in_trial(trial: &TrialOutcome) -> bool
    ensures { result ≡ spec.has_call_in_trial trial.now }
{
    match trial {
        TrialOutcome::GenFaulted(_) => false,
        TrialOutcome::Passed { runs, .. } => any_has_call(runs.as_slice()),
        TrialOutcome::Failed { earlier, shrunk } => {
            any_has_call(earlier.as_slice())
                || any_has_failing_call(shrunk.before.as_slice())
                || has_failing_call(&shrunk.last)
        }
    }
}

/// Whether a run of the trial with this entry has a call.
fn has_call_in_entry(entry: &Entry<Record>) -> bool
    ensures { result ≡ spec.has_call_in_entry entry.now }
{
    match entry {
        Entry::Done(record) => has_call_in_trial(record.outcome()),
        Entry::Undrawn | Entry::Held | Entry::Lost(_) => false,
    }
}

/// Whether a run of one of the trials with these entries has a call.
pub(crate) fn has_call_in_entries(entries: &[Entry<Record>]) -> bool
    ensures { result ≡ list_any spec.has_call_in_entry entries.now }
{
    entries.iter().any(|entry| has_call_in_entry(entry))
}
