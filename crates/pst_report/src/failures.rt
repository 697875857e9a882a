//! The failures of a campaign: the lowest numbers, and the shrunk cases as text, each of them once.
ghost use Rattle.std.specs.Prelude.{◌≡◌, IfOk, OnOk, MatchBool, MatchOption, IfSome, None, Some};
ghost use Rattle.pst_report.specs.Failures.{IsFailureOf, IsLastFailure, case_line};
ghost use Rattle.pst_report.specs.Matching.{IsMatching, AreMatching};
ghost use Rattle.std.specs.List.{All, Any};
ghost use Rattle.pst_report.specs.Distinct.{Keeps, AreDistinctFailures, HasCase};
ghost use Rattle.pst_report.specs.InOrder.{AreOf};
ghost use Rattle.pst_report.specs.Least as spec;

use crate::counterexample::{failing_run_line, run_of_failing_case};
use pst_case::Run;
use pst_eval::FaultPlace;
use pst_ledger::Entry;
use pst_model::Typed;
use pst_runs::write_runs;
use pst_sexpr::Out;
use pst_shrink::{FailingCase, Shrunk};
use pst_trial::{JudgedRun, Plan, Record, TrialOutcome};
use std::alloc::{AllocError, Global};

/// The failure that the case of a trial was shrunk to, as text.
#[derive(Debug, Drop)]
pub struct ShrunkFailure {
    /// The case as a tree, and a line end. Failures with the same case differ in their replies alone.
    pub case: Vec<u8>,
    /// The case with its replies as a tree, and a line end.
    pub run: Vec<u8>,
    /// The verdict on the run.
    pub verdict: String,
}

/// The case as a tree, and a line end.
fn failing_case_line(
    alloc: Global,
    typed: &Typed,
    taken: &FailingCase<JudgedRun>,
) -> Result<Vec<u8>, AllocError>
    ensures { IfOk result (λ line. line.items ≡ case_line typed.now taken.now) }
{
    let Run { shaped, history: _ } = run_of_failing_case(alloc, typed, taken)?;
    let cases = [Run {
        shaped,
        history: None,
    }];
    let mut out = Out::new(Vec::new(alloc));
    match write_runs(alloc, typed, &cases, &mut out) {
        Ok(()) => Ok(out.into_inner()),
        Err(_) => Err(AllocError),
    }
}

/// A case with the history that it broke with, as text.
fn shrunk_failure_of_failing_case(
    alloc: Global,
    typed: &Typed,
    taken: &FailingCase<JudgedRun>,
) -> Result<ShrunkFailure, AllocError>
    requires { IsMatching typed.now taken.now }
    ensures { IfOk result (IsFailureOf typed.now taken.now) }
{
    let verdict = &taken.history.verdict;
    Ok(ShrunkFailure {
        case: failing_case_line(alloc, typed, taken)?,
        run: failing_run_line(alloc, typed, taken)?,
        verdict: format!(in alloc; "{verdict}")?,
    })
}

/// The failure that the case of a trial was shrunk to, if the trial failed.
pub fn shrunk_failure_of_record(
    alloc: Global,
    record: &Record,
) -> Result<Option<ShrunkFailure>, AllocError>
    ensures { IfOk result (IsLastFailure record.now) }
{
    match shrinking_of_failed_trial(record) {
        Some(shrunk) => {
            let failure = shrunk_failure_of_failing_case(
                alloc,
                record.plan().typed(),
                &shrunk.last,
            )?;
            Ok(Some(failure))
        }
        None => Ok(None),
    }
}

/// The failure that the case of a trial was shrunk to, with the number of the trial.
#[derive(Debug, Drop)]
pub struct NumberedFailure {
    /// The number of the trial.
    pub number: usize,
    /// The failure.
    pub failure: ShrunkFailure,
}

/// Whether there is a failure with the case.
fn has_failure_with_case(failures: &[NumberedFailure], case: &[u8]) -> bool
    ensures { MatchBool result (Any (HasCase case.now) failures.now)
        (All (λ f. HasCase case.now f → ⊥) failures.now) }
{
    for other in failures {
        if other.failure.case.as_slice() == case {
            return true;
        }
    }
    false
}

/// Adds the failure that the case of a trial was shrunk to, if the trial failed and no failure in the list has the same case.
fn add_failure_if_case_is_new(
    alloc: Global,
    failures: &mut Vec<NumberedFailure>,
    number: usize,
    done: &Record,
) -> Result<(), AllocError>
    ensures { OnOk result (Keeps number done.now failures.old.items failures.new.items) }
{
    let Some(failure) = shrunk_failure_of_record(alloc, done)? else {
        return Ok(());
    };
    if has_failure_with_case(failures.as_slice(), failure.case.as_slice()) {
        return Ok(());
    }
    failures.push(NumberedFailure { number, failure })?;
    Ok(())
}

/// The failures of a campaign in the order of their trials. Of trials that were shrunk to the same case the first has one.
///
/// `AllocError`: an allocation failed.
pub fn distinct_failures(
    alloc: Global,
    entries: &[Entry<Record>],
) -> Result<Vec<NumberedFailure>, AllocError>
    ensures { IfOk result (λ failures. AreDistinctFailures entries.now failures.items) }
{
    let mut failures = Vec::new(alloc);
    for (number, entry) in entries.iter().enumerate() {
        if let Entry::Done(record) = entry {
            add_failure_if_case_is_new(alloc, &mut failures, number, record)?;
        }
    }
    Ok(failures)
}

/// The place of the fault in generating the case of a trial, if there was one.
fn generation_fault_of_record(done: &Record) -> Option<FaultPlace>
    ensures { result ≡ spec.fault_in done.now.outcome }
{
    match done.outcome() {
        TrialOutcome::GenFaulted(place) => Some(*place),
        TrialOutcome::Passed { .. } | TrialOutcome::Failed { .. } => None,
    }
}

/// How the case of a trial was shrunk, if the trial failed.
fn shrinking_of_failed_trial(done: &Record) -> Option<&Shrunk<JudgedRun>>
    ensures failure { MatchOption result (spec.failure_in done.now.outcome ≡ None)
        (λ s. spec.failure_in done.now.outcome ≡ Some s.now) }
    ensures matching { IfSome result (λ s. AreMatching done.now.plan.model s.now) }
{
    match done.outcome() {
        TrialOutcome::Failed { shrunk, .. } => Some(shrunk),
        TrialOutcome::GenFaulted(_) | TrialOutcome::Passed { .. } => None,
    }
}

/// The lowest number for which generating a case faulted, and the place of the fault.
pub fn first_trial_with_generation_fault(entries: &[Entry<Record>]) -> Option<(usize, FaultPlace)>
    ensures { result ≡ spec.least_fault 0 entries.now }
{
    for (number, entry) in entries.iter().enumerate() {
        if let Entry::Done(record) = entry
            && let Some(place) = generation_fault_of_record(record)
        {
            return Some((number, place));
        }
    }
    None
}

/// The lowest number whose trial failed, and how its case was shrunk.
pub fn first_failed_trial<'a>(
    plan: &Plan,
    entries: &'a [Entry<Record>],
) -> Option<(usize, &'a Shrunk<JudgedRun>)>
    requires { AreOf plan.now 0 entries.now }
    ensures least { MatchOption result (spec.least_failure 0 entries.now ≡ None)
        (λ f. spec.least_failure 0 entries.now ≡ Some (f.0, f.1.now)) }
    ensures matching { IfSome result (λ f. AreMatching plan.now.model f.1.now) }
{
    for (number, entry) in entries.iter().enumerate() {
        if let Entry::Done(record) = entry
            && let Some(shrunk) = shrinking_of_failed_trial(record)
        {
            return Some((number, shrunk));
        }
    }
    None
}
