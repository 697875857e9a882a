//! Explains a driven run.
ghost use Rattle.std.specs.Prelude.{◌≡◌, IfOk, IfSome};
ghost use Rattle.pst_cli.specs.CampaignFailures.{IsFailingRun};
ghost use Rattle.pst_judge.specs.Judgement.{IsJudgementBy};
ghost use Rattle.pst_rejudge.specs.Judging.{MayBeJudged};

use crate::campaign_end::CampaignEnd;
use crate::failing_run::{TrialFailure, recorded_judgement};
use crate::input::compile_model_of_input;
use crate::judge::is_explained_or_valid;
use pst_case::{Case, CaseFaultKind, History, Run, Shaped, shape};
use pst_compile::Compiled;
use pst_eval::Plain;
use pst_explain::{explain_item, explanation_text_without_heading};
use pst_judge::{CallOrder, Judge, Judged};
use pst_model::Typed;
use std::alloc::{AllocError, Global};

/// The run of a case of the model with its history, if the history matches the case.
fn run_if_history_matches_case(typed: &Typed, shaped: Shaped, history: History) -> Option<Run>
    requires { shaped.model ≡ typed.now }
    ensures { IfSome result (MayBeJudged typed.now) }
{
    if !history.matches(typed, &shaped) {
        return None;
    }
    Some(Run {
        shaped,
        history: Some(history),
    })
}

/// The run of a case with its history, if it is a run of the model.
fn run_if_case_and_history_fit_model(
    alloc: Global,
    typed: &Typed,
    case: Case,
    history: History,
) -> Result<Option<Run>, AllocError>
    ensures { IfOk result (λ found. IfSome found (MayBeJudged typed.now)) }
{
    match shape(alloc, typed, case) {
        Ok(shaped) => Ok(run_if_history_matches_case(typed, shaped, history)),
        Err((_, fault)) => match fault.kind {
            CaseFaultKind::NoMemory => Err(AllocError),
            _ => Ok(None),
        },
    }
}

/// Explains why no interleaving explains a judged run. Returns `None` if the run is explained.
fn explanation_if_judged_run_failed<'a>(
    alloc: Global,
    compiled: &'a Compiled,
    order: CallOrder,
    run: &'a Run,
    judged: &'a Judged,
    width: usize,
) -> Result<Option<Vec<u8>>, AllocError>
    requires may_be { MayBeJudged compiled.now run.now }
    requires judged { IsJudgementBy order compiled.now run.now judged.now }
{
    if is_explained_or_valid(judged) {
        return Ok(None);
    }
    let typed = compiled.typed();
    let explanation = explain_item(compiled, order, alloc, typed, run, judged, 1, None)?;
    let text = explanation_text_without_heading(alloc, &explanation, width);
    drop(explanation);
    Ok(Some(text?))
}

/// Judges a run of the model, and explains why no interleaving explains it. Returns `None` if the
/// run is explained.
fn judge_run_and_explain_if_failed(
    alloc: Global,
    judge: &Judge<'_, Compiled>,
    run: &Run,
    width: usize,
) -> Result<Option<Vec<u8>>, AllocError>
    requires { MayBeJudged judge.now.callbacks.now run.now }
{
    let judged = judge.judge_one(alloc, run)?;
    explanation_if_judged_run_failed(alloc, judge.callbacks, judge.order, run, &judged, width)
}

/// Explains why no interleaving explains the run of a case with its history. Returns `None` if the
/// run is explained or is no run of the model.
fn judge_history_and_explain_if_failed(
    alloc: Global,
    judge: &Judge<'_, Compiled>,
    case: Case,
    history: History,
    width: usize,
) -> Result<Option<Vec<u8>>, AllocError> {
    match run_if_case_and_history_fit_model(alloc, judge.callbacks.typed(), case, history)? {
        Some(run) => judge_run_and_explain_if_failed(alloc, judge, &run, width),
        None => Ok(None),
    }
}

/// Explains why no interleaving that counts by `order` explains a recorded run on the model at the start of the input, in
/// lines of at most `width` bytes. Returns `None` if the run is explained or is no run of the model, or the input is refused.
pub fn compile_model_and_explain_failed_run(
    alloc: Global,
    input: &[u8],
    order: CallOrder,
    case: Case,
    history: History,
    width: usize,
) -> Result<Option<Vec<u8>>, AllocError> {
    let Ok(file) = compile_model_of_input(alloc, input)? else {
        return Ok(None);
    };
    let callbacks = &file.compiled;
    let judge = Judge { callbacks, order };
    judge_history_and_explain_if_failed(alloc, &judge, case, history, width)
}

/// Judges a run of the model: a case with its history, over all interleavings. Returns `None` if it is no run of the model.
pub fn judge_recorded_run(
    alloc: Global,
    typed: &Typed,
    case: Case,
    history: History,
) -> Result<Option<Judged>, AllocError> {
    let Some(run) = run_if_case_and_history_fit_model(alloc, typed, case, history)? else {
        return Ok(None);
    };
    let judge = Judge {
        callbacks: &Plain::new(typed),
        order: CallOrder::Any,
    };
    Ok(Some(judge.judge_one(alloc, &run)?))
}

/// Explains a failing run of a case that a trial was shrunk to, in lines of at most `width` bytes.
fn failing_run_text<'a>(
    alloc: Global,
    order: CallOrder,
    typed: &'a Typed,
    run: &'a Run,
    judged: &'a Judged,
    width: usize,
) -> Result<Vec<u8>, AllocError>
    requires may_be { MayBeJudged typed.now run.now }
    requires judged { IsJudgementBy order typed.now run.now judged.now }
{
    let callbacks = Plain::new(typed);
    let explanation = explain_item(&callbacks, order, alloc, typed, run, judged, 1, None)?;
    let text = explanation_text_without_heading(alloc, &explanation, width);
    drop(explanation);
    text
}

/// Explains why no interleaving explains a failure of a campaign, in lines of at most `width` bytes. Judges nothing: the
/// record of the trial has the verdict.
pub fn explain_failure(
    alloc: Global,
    end: &CampaignEnd,
    failure: &TrialFailure<'_>,
    width: usize,
) -> Result<Vec<u8>, AllocError>
    requires { IsFailingRun end.now.plan failure.now.shrunk.now.last }
{
    let plan = end.plan();
    let order = plan.settings().order;
    let (run, judged) = recorded_judgement(alloc, plan, &failure.shrunk.last)?;
    failing_run_text(alloc, order, plan.typed(), &run, &judged, width)
}
