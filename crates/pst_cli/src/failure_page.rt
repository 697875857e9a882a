//! The page of a campaign's failures.
ghost use Rattle.std.specs.Prelude.{◌≡◌, IfOk, MatchBool, OnOk, length};
ghost use Rattle.std.specs.List.{All, Any};
ghost use Rattle.pst_cli.specs.CampaignFailures.{AreFacts, AreFailures, AreFailuresBelow, HasRun, IsFailingRun, IsSmallestIfAny, head_of};
ghost use Rattle.pst_cli.specs.Page.{AreFailing, KeepsFailure};
ghost use Rattle.pst_judge.specs.Judgement.{IsJudgementBy};
ghost use Rattle.pst_rejudge.specs.Judging.{MayBeJudged};
ghost use Rattle.pst_report.specs.InOrder.{AreOf};

use crate::campaign_end::CampaignEnd;
use crate::failing_run::{TrialFailure, recorded_judgement, shrinking_of_entry};
use crate::smallest::smallest_failure_of;
use pst_case::Run;
use pst_eval::Plain;
use pst_explain::explain_item;
use pst_json::{
    AFTER_DATA, AFTER_ITEMS, AFTER_NO_ITEM, BEFORE_DATA, BETWEEN_ITEMS, CampaignFacts,
    json_campaign_document_start, trial_explanation_json,
};
use pst_judge::{CallOrder, Judged};
use pst_ledger::Entry;
use pst_model::Typed;
use pst_shrink::Shrunk;
use pst_sources::SourceFile;
use pst_trial::{JudgedRun, Plan, Record};
use std::alloc::{AllocError, Global};

/// The most failures that a page has.
const MOST: usize = 100;

/// Whether one of the failures has the run that a case was shrunk to.
fn has_failure_with_run(failures: &[TrialFailure<'_>], shrunk: &Shrunk<JudgedRun>) -> bool
    ensures { MatchBool result (Any (HasRun shrunk.now) failures.now)
        (All (λ f. HasRun shrunk.now f → ⊥) failures.now) }
{
    for failure in failures {
        let last = &failure.shrunk.last;
        if last.case == shrunk.last.case && last.history.history == shrunk.last.history.history {
            return true;
        }
    }
    false
}

/// Adds the failure of a trial, unless a failure in the list has its run or there are `MOST`.
fn add_failure_if_run_is_new<'a>(
    failures: &mut Vec<TrialFailure<'a>>,
    trial: usize,
    shrunk: &'a Shrunk<JudgedRun>,
) -> Result<(), AllocError>
    ensures { OnOk result (KeepsFailure 100 trial shrunk.now failures.old.items failures.new.items) }
{
    if failures.len() >= MOST || has_failure_with_run(failures.as_slice(), shrunk) {
        return Ok(());
    }
    failures.push(TrialFailure { trial, shrunk })?;
    Ok(())
}

/// The smallest failure of a campaign alone, if a trial failed.
fn smallest_failure_alone<'a>(
    alloc: Global,
    plan: &Plan,
    entries: &'a [Entry<Record>],
) -> Result<Vec<TrialFailure<'a>>, AllocError>
    requires { AreOf plan.now 0 entries.now }
    ensures failures { IfOk result (λ failures. AreFailuresBelow 0 100 entries.now failures.items) }
    ensures failing { IfOk result (λ failures. AreFailing plan.now failures.items) }
    ensures first { IfOk result
        (λ failures. IsSmallestIfAny (length entries.now) entries.now (head_of failures.items)) }
{
    let mut failures = Vec::new(alloc);
    if let Some(smallest) = smallest_failure_of(plan, entries) {
        failures.push(smallest)?;
    }
    Ok(failures)
}

/// The failures of a campaign: the smallest, and then of those that were shrunk to the same run the first, at most 100.
pub(crate) fn failures_with_distinct_runs<'a>(
    alloc: Global,
    plan: &Plan,
    entries: &'a [Entry<Record>],
) -> Result<Vec<TrialFailure<'a>>, AllocError>
    requires { AreOf plan.now 0 entries.now }
    ensures failures { IfOk result (λ failures. AreFailures 100 entries.now failures.items) }
    ensures failing { IfOk result (λ failures. AreFailing plan.now failures.items) }
    ensures first { IfOk result
        (λ failures. IsSmallestIfAny (length entries.now) entries.now (head_of failures.items)) }
{
    let mut failures = smallest_failure_alone(alloc, plan, entries)?;
    for (trial, entry) in entries.iter().enumerate() {
        if let Some(shrunk) = shrinking_of_entry(entry) {
            add_failure_if_run_is_new(&mut failures, trial, shrunk)?;
        }
    }
    Ok(failures)
}

/// The campaign of which a page shows the failures.
fn campaign_facts(end: &CampaignEnd) -> CampaignFacts
    ensures { AreFacts end.now result }
{
    let settings = end.plan().settings();
    CampaignFacts {
        seed: settings.seed,
        trials: settings.trials as u64,
        failed: end.count_failures() as u64,
    }
}

/// The explanation of a failing run of trial `trial` as JSON. `number` is its number on the page.
fn failing_run_json<'a>(
    alloc: Global,
    order: CallOrder,
    typed: &'a Typed,
    run: &'a Run,
    judged: &'a Judged,
    number: usize,
    trial: usize,
) -> Result<Vec<u8>, AllocError>
    requires may_be { MayBeJudged typed.now run.now }
    requires judged { IsJudgementBy order typed.now run.now judged.now }
{
    let callbacks = Plain::new(typed);
    let explanation = explain_item(&callbacks, order, alloc, typed, run, judged, number, None)?;
    let json = trial_explanation_json(alloc, &explanation, trial);
    drop(explanation);
    json
}

/// The explanation of a failure as JSON, from the judgement that its record has. `number` is its number on the page.
fn failure_explanation_json(
    alloc: Global,
    plan: &Plan,
    number: usize,
    failure: &TrialFailure<'_>,
) -> Result<Vec<u8>, AllocError>
    requires { IsFailingRun plan.now failure.now.shrunk.now.last }
{
    let order = plan.settings().order;
    let (run, judged) = recorded_judgement(alloc, plan, &failure.shrunk.last)?;
    failing_run_json(
        alloc,
        order,
        plan.typed(),
        &run,
        &judged,
        number,
        failure.trial,
    )
}

/// Adds the explanations of failures, and the end of their document.
fn add_failures_json_and_document_end(
    text: &mut Vec<u8>,
    alloc: Global,
    plan: &Plan,
    failures: &[TrialFailure<'_>],
) -> Result<(), AllocError>
    requires { AreFailing plan.now failures.now }
{
    let mut number = 0usize;
    for failure in failures {
        if number > 0 {
            text.extend_from_slice(BETWEEN_ITEMS.as_bytes())?;
        }
        number = number.saturating_add(1);
        let json = failure_explanation_json(alloc, plan, number, failure)?;
        text.extend_from_slice(json.as_slice())?;
    }
    let end = if failures.is_empty() {
        AFTER_NO_ITEM
    } else {
        AFTER_ITEMS
    };
    text.extend_from_slice(end.as_bytes())
}

/// The page that explains the failures of a campaign: the smallest, and then of those that were shrunk to the same run the
/// first, at most 100. `files` are the files of the input.
pub fn campaign_failures_html_page(
    alloc: Global,
    files: &[SourceFile<'_>],
    end: &CampaignEnd,
) -> Result<Vec<u8>, AllocError> {
    let failures = failures_with_distinct_runs(alloc, end.plan(), end.entries())?;
    let model = end.plan().typed().source();
    let start = json_campaign_document_start(alloc, files, campaign_facts(end), model)?;
    let mut text = Vec::from_slice(alloc, BEFORE_DATA.as_bytes())?;
    text.extend_from_slice(start.as_slice())?;
    add_failures_json_and_document_end(&mut text, alloc, end.plan(), failures.as_slice())?;
    text.extend_from_slice(AFTER_DATA.as_bytes())?;
    Ok(text)
}
