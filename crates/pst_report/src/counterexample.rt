//! The lines of the failed trial with the lowest number.
ghost use Rattle.std.specs.Prelude.{◌≡◌, IfOk, string_bytes};
ghost use Rattle.pst_report.specs.Matching.{AreMatching, IsMatching};
ghost use Rattle.pst_report.specs.Text as spec;

use crate::status::failing_run_before_shrinking;
use pst_case::{Run, shape};
use pst_model::Typed;
use pst_runs::write_runs;
use pst_sexpr::Out;
use pst_shrink::{FailingCase, ShrinkEnd, Shrunk};
use pst_trial::JudgedRun;
use std::alloc::{AllocError, Global};

/// The case with the history that it broke with.
pub(crate) fn run_of_failing_case(
    alloc: Global,
    typed: &Typed,
    taken: &FailingCase<JudgedRun>,
) -> Result<Run, AllocError>
    ensures { IfOk result (λ run. run ≡ spec.run_of typed.now taken.now) }
{
    let case = taken.case.copy(alloc)?;
    let history = taken.history.history.copy(alloc)?;
    match shape(alloc, typed, case) {
        Ok(shaped) => Ok(Run {
            shaped,
            history: Some(history),
        }),
        Err(_) => Err(AllocError),
    }
}

/// The case and its history as a tree, and a line end.
pub(crate) fn failing_run_line(
    alloc: Global,
    typed: &Typed,
    taken: &FailingCase<JudgedRun>,
) -> Result<Vec<u8>, AllocError>
    requires { IsMatching typed.now taken.now }
    ensures { IfOk result (λ line. line.items ≡ spec.run_line typed.now taken.now) }
{
    let runs = [run_of_failing_case(alloc, typed, taken)?];
    let mut out = Out::new(Vec::new(alloc));
    match write_runs(alloc, typed, &runs, &mut out) {
        Ok(()) => Ok(out.into_inner()),
        Err(_) => Err(AllocError),
    }
}

/// `least NUMBER VERDICT`.
fn first_failed_trial_report_line(
    alloc: Global,
    number: usize,
    taken: &FailingCase<JudgedRun>,
) -> Result<String, AllocError>
    ensures { IfOk result (λ line. string_bytes line ≡ spec.least_line number taken.now) }
{
    let verdict = &taken.history.verdict;
    format!(in alloc; "least {number} {verdict}\n")
}

/// `minimal` or `stopped`.
pub(crate) fn shrink_end_name(ending: ShrinkEnd) -> &'static str
    ensures { result.now ≡ spec.ending_name ending }
{
    match ending {
        ShrinkEnd::Minimal => "minimal",
        ShrinkEnd::Stopped => "stopped",
    }
}

/// `steps N minimal` or `steps N stopped`.
fn shrink_steps_report_line(alloc: Global, shrunk: &Shrunk<JudgedRun>) -> Result<String, AllocError>
    ensures { IfOk result (λ line. string_bytes line ≡ spec.steps_line shrunk.now) }
{
    let steps = shrunk.before.len();
    let ending = shrink_end_name(shrunk.ending);
    format!(in alloc; "steps {steps} {ending}\n")
}

/// The verdict on the last run.
fn shrunk_run_verdict_line(
    alloc: Global,
    taken: &FailingCase<JudgedRun>,
) -> Result<String, AllocError>
    ensures { IfOk result (λ line. string_bytes line ≡ spec.last_line taken.now) }
{
    let verdict = &taken.history.verdict;
    format!(in alloc; "{verdict}\n")
}

/// The number, the verdict and the run of the trial itself.
fn lines_of_run_before_shrinking(
    alloc: Global,
    typed: &Typed,
    number: usize,
    taken: &FailingCase<JudgedRun>,
) -> Result<Vec<u8>, AllocError>
    requires { IsMatching typed.now taken.now }
    ensures { IfOk result (λ lines. lines.items ≡ spec.own_lines typed.now number taken.now) }
{
    let mut lines = first_failed_trial_report_line(alloc, number, taken)?.into_bytes();
    lines.extend_from_slice(b"from ")?;
    lines.extend_from_slice(failing_run_line(alloc, typed, taken)?.as_slice())?;
    Ok(lines)
}

/// The last run, and its verdict.
fn lines_of_run_after_shrinking(
    alloc: Global,
    typed: &Typed,
    taken: &FailingCase<JudgedRun>,
) -> Result<Vec<u8>, AllocError>
    requires { IsMatching typed.now taken.now }
    ensures { IfOk result (λ lines. lines.items ≡ spec.last_lines typed.now taken.now) }
{
    let mut lines = Vec::from_slice(alloc, b"to ")?;
    lines.extend_from_slice(failing_run_line(alloc, typed, taken)?.as_slice())?;
    lines.extend_from_slice(shrunk_run_verdict_line(alloc, taken)?.as_bytes())?;
    Ok(lines)
}

/// The lines of trial `number`, which failed.
pub fn failed_trial_report_lines(
    alloc: Global,
    typed: &Typed,
    number: usize,
    shrunk: &Shrunk<JudgedRun>,
) -> Result<Vec<u8>, AllocError>
    requires { AreMatching typed.now shrunk.now }
    ensures { IfOk result (λ lines. lines.items ≡ spec.failure_lines typed.now number shrunk.now) }
{
    let mut lines = lines_of_run_before_shrinking(
        alloc,
        typed,
        number,
        failing_run_before_shrinking(shrunk),
    )?;
    lines.extend_from_slice(shrink_steps_report_line(alloc, shrunk)?.as_bytes())?;
    lines.extend_from_slice(lines_of_run_after_shrinking(alloc, typed, &shrunk.last)?.as_slice())?;
    Ok(lines)
}
