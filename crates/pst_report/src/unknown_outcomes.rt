//! How many trials of a campaign had calls of unknown outcome.
ghost use Rattle.std.specs.Prelude.{◌≡◌};
ghost use Rattle.std.specs.List.{list_any};
ghost use Rattle.pst_report.specs.UnknownOutcomes as spec;

use pst_ledger::Entry;
use pst_trial::{FailingCase, JudgedRun, Record, TrialOutcome};

/// Whether a call of the run has an unknown outcome.
fn is_uncertain(run: &JudgedRun) -> bool
    ensures { result ≡ spec.is_uncertain run.now }
{
    run.history.has_unknown()
}

/// Whether a call of one of the runs has an unknown outcome.
fn is_any_uncertain(runs: &[JudgedRun]) -> bool
    ensures { result ≡ list_any spec.is_uncertain runs.now }
{
    runs.iter().any(|run| is_uncertain(run))
}

/// Whether a call of the failing run of a case has an unknown outcome.
fn fails_uncertainly(failing: &FailingCase<JudgedRun>) -> bool
    ensures { result ≡ spec.fails_uncertainly failing.now }
{
    is_uncertain(&failing.history)
}

/// Whether a call of the failing run of one of the cases has an unknown outcome.
fn fails_any_uncertainly(failing: &[FailingCase<JudgedRun>]) -> bool
    ensures { result ≡ list_any spec.fails_uncertainly failing.now }
{
    failing.iter().any(|case| fails_uncertainly(case))
}

/// Whether a call of a recorded run of a trial has an unknown outcome.
fn is_uncertain_trial(trial: &TrialOutcome) -> bool
    ensures { result ≡ spec.is_uncertain_trial trial.now }
{
    match trial {
        TrialOutcome::GenFaulted(_) => false,
        TrialOutcome::Passed { runs, .. } => is_any_uncertain(runs.as_slice()),
        TrialOutcome::Failed { earlier, shrunk } => {
            is_any_uncertain(earlier.as_slice())
                || fails_any_uncertainly(shrunk.before.as_slice())
                || fails_uncertainly(&shrunk.last)
        }
    }
}

/// Whether a call of a recorded run of the trial with this entry has an unknown outcome.
fn is_uncertain_entry(entry: &Entry<Record>) -> bool
    ensures { result ≡ spec.is_uncertain_entry entry.now }
{
    match entry {
        Entry::Done(record) => is_uncertain_trial(record.outcome()),
        Entry::Undrawn | Entry::Held | Entry::Lost(_) => false,
    }
}

/// How many trials had a call of unknown outcome in a run that is recorded: one of its case, or one of a case that it was
/// shrunk to.
pub fn count_trials_with_unknown_outcomes(entries: &[Entry<Record>]) -> usize
    ensures { result ≡ spec.uncertain_count entries.now }
{
    let mut count = 0;
    for entry in entries {
        if is_uncertain_entry(entry) {
            count += 1;
        }
    }
    count
}

/// Whether the trial with this entry was run to its end.
fn is_ended(entry: &Entry<Record>) -> bool
    ensures { result ≡ spec.is_ended entry.now }
{
    match entry {
        Entry::Done(_) => true,
        Entry::Undrawn | Entry::Held | Entry::Lost(_) => false,
    }
}

/// How many trials were run to their end: neither lost nor undrawn.
pub fn count_ended_trials(entries: &[Entry<Record>]) -> usize
    ensures { result ≡ spec.ended_count entries.now }
{
    let mut count = 0;
    for entry in entries {
        if is_ended(entry) {
            count += 1;
        }
    }
    count
}
