//! The run that the case of a failed trial was shrunk to, with the judgement that its record has.
ghost use Rattle.std.specs.Prelude.{◌≡◌, false, IfOk, IfSome, MatchOption, None, Some, ℕ};
ghost use Rattle.std.specs.List.{count_by};
ghost use Rattle.std.specs.Option.{is_some};
ghost use Rattle.pst_cli.specs.CampaignFailures.{IsFailingRun};
ghost use Rattle.pst_judge.specs.Judgement.{IsJudgementBy};
ghost use Rattle.pst_judge.specs.declared.judgement.Judged.TheVariants as judged;
ghost use Rattle.pst_rejudge.specs.Judging.{MayBeJudged};
ghost use Rattle.pst_report.specs.InOrder.{IsOf};
ghost use Rattle.pst_report.specs.Least.{failure_in, of_record};
ghost use Rattle.pst_report.specs.Text.{run_of};
ghost use Rattle.pst_trial.specs.JudgedRuns.{is_explained};
ghost use Rattle.pst_trial.specs.PlanView.{PlanView};

use pst_case::{Run, shape};
use pst_judge::{Judged, Verdict};
use pst_ledger::Entry;
use pst_model::Typed;
use pst_shrink::Shrunk;
use pst_trial::{FailingCase, JudgedRun, Plan, Record, TrialOutcome};
use std::alloc::{AllocError, Global};

/// A trial that failed.
#[derive(Clone, Copy, Drop)]
pub struct TrialFailure<'a> {
    /// Its number, from 0.
    pub trial: usize,
    /// How its case was shrunk.
    pub shrunk: &'a Shrunk<JudgedRun>,
}

/// How the case of a trial was shrunk, if the trial failed.
fn shrinking_of_failed_trial(done: &Record) -> Option<&Shrunk<JudgedRun>>
    ensures failure { MatchOption result (failure_in done.now.outcome ≡ None)
        (λ s. failure_in done.now.outcome ≡ Some s.now) }
    ensures failing { IfSome result (λ s. IsFailingRun done.now.plan s.now.last) }
{
    match done.outcome() {
        TrialOutcome::Failed { shrunk, .. } => Some(shrunk),
        TrialOutcome::GenFaulted(_) | TrialOutcome::Passed { .. } => None,
    }
}

/// How the case of a trial was shrunk, if its entry is that of a failed trial.
pub(crate) fn shrinking_of_entry(entry: &Entry<Record>) -> Option<&Shrunk<JudgedRun>>
    ensures failure { MatchOption result (of_record failure_in entry.now ≡ None)
        (λ s. of_record failure_in entry.now ≡ Some s.now) }
    ensures failing { IfSome result
        (λ s. (p : PlanView) (number : ℕ) → IsOf p number entry.now → IsFailingRun p s.now.last) }
{
    match entry {
        Entry::Done(done) => shrinking_of_failed_trial(done),
        Entry::Undrawn | Entry::Held | Entry::Lost(_) => None,
    }
}

/// Whether the entry is that of a trial that failed.
fn is_failed_trial(entry: &Entry<Record>) -> bool
    ensures { result ≡ is_some (of_record failure_in entry.now) }
{
    shrinking_of_entry(entry).is_some()
}

/// How many trials failed.
pub(crate) fn count_failed_trials(entries: &[Entry<Record>]) -> usize
    ensures { result ≡ count_by (λ e. is_some (of_record failure_in e)) entries.now }
{
    let mut count = 0;
    for entry in entries {
        if is_failed_trial(entry) {
            count += 1;
        }
    }
    count
}

/// A copy of a verdict that does not explain its run.
fn copy_of_failing_verdict(verdict: &Verdict) -> Verdict
    requires { is_explained verdict.now ≡ false }
    ensures { result ≡ verdict.now }
{
    match verdict {
        Verdict::Explained(_) => unreachable!(),
        Verdict::Faulted(place) => Verdict::Faulted(*place),
        Verdict::Unexplained(far) => Verdict::Unexplained(*far),
        Verdict::Broken(command) => Verdict::Broken(*command),
    }
}

/// The case with the history that it failed with.
fn run_of_failing_case(
    alloc: Global,
    typed: &Typed,
    failing: &FailingCase<JudgedRun>,
) -> Result<Run, AllocError>
    ensures { IfOk result (λ run. run ≡ run_of typed.now failing.now) }
{
    let case = failing.case.copy(alloc)?;
    let history = failing.history.history.copy(alloc)?;
    match shape(alloc, typed, case) {
        Ok(shaped) => Ok(Run {
            shaped,
            history: Some(history),
        }),
        Err(_) => Err(AllocError),
    }
}

/// The case with the history that it failed with, and the judgement that the record has on it. Judges nothing.
pub(crate) fn recorded_judgement(
    alloc: Global,
    plan: &Plan,
    failing: &FailingCase<JudgedRun>,
) -> Result<(Run, Judged), AllocError>
    requires { IsFailingRun plan.now failing.now }
    ensures run { IfOk result (λ r. MayBeJudged plan.now.model r.0) }
    ensures judgement { IfOk result
        (λ r. IsJudgementBy plan.now.settings.order plan.now.model r.0 r.1) }
    ensures same { IfOk result (λ r. r.0 ≡ run_of plan.now.model failing.now) }
    ensures verdict { IfOk result (λ r. r.1 ≡ judged.Verdict failing.now.history.verdict) }
{
    let verdict = copy_of_failing_verdict(&failing.history.verdict);
    let run = run_of_failing_case(alloc, plan.typed(), failing)?;
    Ok((run, Judged::Verdict(verdict)))
}
