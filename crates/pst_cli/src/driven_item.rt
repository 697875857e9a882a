//! Drives the case of an item, and says what became of it, before that is written.
ghost use Rattle.std.specs.Prelude.{◌≡◌, ◌<◌, ◌≤◌, ◌+◌, ◌^◌, true, if◌then◌else◌, IfErr, IfOk, None, OnOk};
ghost use Rattle.pst_case.specs.Matches.{matches};
ghost use Rattle.pst_cli.specs.DrivenItems.{IsDrivenCase, IsDrivenItem, IsDrivenOnce, IsRepeated, IsReported, IsTimedBy, alone, is_accepted, report_status, run_with, shown_after};
ghost use Rattle.pst_cli.specs.ItemReports.{IsReportOf};
ghost use Rattle.pst_cli.specs.declared.driven_item.ItemReport.TheVariants as became;
ghost use Rattle.pst_driver.specs.Driven.{IsDriveFault, IsDriven};
ghost use Rattle.pst_judge.specs.declared.judgement.Judged.TheVariants as kind;
ghost use Rattle.pst_judge.specs.declared.validated.Why.TheVariants as reasons;
ghost use Rattle.pst_system.specs.Kept.{AreKept};

use crate::answer::Status;
use crate::judge::status_of_judgement;
use pst_case::{History, Run, Shaped};
use pst_compile::Compiled;
use pst_driver::DriveFault;
use pst_judge::{CallOrder, Judge, Judged, Valid, Why, valid};
use pst_model::Typed;
use pst_system::{BoxedSystem, System};
use std::alloc::{AllocError, Global};
use std::sync::Wait;
use std::thread::Threads;

/// What became of a case.
#[derive(Debug, Drop)]
pub enum ItemReport {
    /// It was driven, and this is its run and the verdict on it. Or it is not valid: then there is no run, but why.
    Judged { run: Option<Run>, judged: Judged },
    /// It was not driven to the end.
    Lost(DriveFault),
}

impl ItemReport {
    /// Returns `Accepted` if the run is explained, `Lost` if the item has a valid case without a run, else `Failed`.
    pub fn status(&self) -> Status
        ensures { result ≡ report_status self.now }
    {
        match self {
            ItemReport::Judged { run: _, judged } => status_of_judgement(judged),
            ItemReport::Lost(_) => Status::Lost,
        }
    }
}

/// How often a case was driven, and how many of its drives failed.
#[derive(Clone, Copy, Debug, Drop)]
pub struct Drives {
    pub all: u32,
    pub failed: u32,
}

/// What became of an item.
#[derive(Debug, Drop)]
pub struct DrivenItem {
    /// What became of its case, in the first drive that failed or else in the last one.
    pub report: ItemReport,
    /// The drives, if they are counted and none was lost.
    pub drives: Option<Drives>,
}

/// Judges a driven case.
fn judge_driven_run(
    alloc: Global,
    judge: &Judge<'_, Compiled>,
    shaped: Shaped,
    history: History,
) -> Result<ItemReport, AllocError>
    requires model { shaped.model ≡ judge.now.callbacks.now }
    requires matches { matches judge.now.callbacks.now shaped.case history ≡ true }
    ensures { IfOk result (IsReportOf judge.now.order judge.now.callbacks.now (run_with shaped history)) }
{
    let run = Run {
        shaped,
        history: Some(history),
    };
    let judged = judge.judge_one(alloc, &run)?;
    let run = Some(run);
    Ok(ItemReport::Judged { run, judged })
}

/// Drives a valid case once, and records the times of its calls if they count.
fn drive_case_by_order<R: Threads + Wait>(
    rt: &R,
    alloc: Global,
    typed: &Typed,
    order: CallOrder,
    system: &mut BoxedSystem,
    valid: &Valid,
) -> Result<History, DriveFault>
    requires model { valid.now.model ≡ typed.now }
    ensures matches { IfOk result (λ h. matches typed.now valid.now.case h ≡ true) }
    ensures driven { IfOk result (λ h.
        IsDriven typed.now (answers system.old) (fails system.old) valid.now.case h) }
    ensures timed { IfOk result (IsTimedBy order) }
    ensures fault { IfErr result (λ e. IsDriveFault (reset_fails system.old) valid.now.case e) }
    ensures kept { AreKept (answers system.new) (answers system.old) (fails system.new) (fails system.old)
        (reset_fails system.new) (reset_fails system.old) }
{
    match order {
        CallOrder::Any => pst_driver::run(rt, alloc, typed, system, valid),
        CallOrder::Time => pst_driver::run_timed(rt, alloc, typed, system, valid),
    }
}

/// Drives a valid case once, and judges its run.
fn drive_once<R: Threads + Wait>(
    rt: &R,
    alloc: Global,
    judge: &Judge<'_, Compiled>,
    system: &mut BoxedSystem,
    valid: Valid,
) -> Result<ItemReport, AllocError>
    requires model { valid.model ≡ judge.now.callbacks.now }
    ensures reported { IfOk result (IsReported judge.now.order judge.now.callbacks.now
        (answers system.old) (fails system.old) (reset_fails system.old) valid.case) }
    ensures kept { AreKept (answers system.new) (answers system.old) (fails system.new) (fails system.old)
        (reset_fails system.new) (reset_fails system.old) }
{
    let _shaped = valid.shaped();
    let typed = judge.callbacks.typed();
    match drive_case_by_order(rt, alloc, typed, judge.order, system, &valid) {
        Ok(history) => {
            let shaped = valid.into_shaped();
            judge_driven_run(alloc, judge, shaped, history)
        }
        Err(fault) => Ok(ItemReport::Lost(fault)),
    }
}

/// Whether a drive with this status is explained.
fn is_accepted(status: Status) -> bool
    ensures { result ≡ is_accepted status }
{
    match status {
        Status::Accepted => true,
        Status::Failed | Status::Refused | Status::Lost => false,
    }
}

/// The report to show for a case after one more drive: the first that is not accepted, or else the last.
fn first_failed_or_latest_report(
    shown: Option<ItemReport>,
    report: ItemReport,
) -> Option<ItemReport>
    ensures { result ≡ shown_after shown report }
{
    match shown {
        None => Some(report),
        Some(shown) => {
            if is_accepted(shown.status()) {
                Some(report)
            } else {
                Some(shown)
            }
        }
    }
}

/// How many drives failed after one more with `status`.
fn count_drive_if_failed(failed: u32, status: Status) -> u32
    requires { failed + 1 < 2 ^ 32 }
    ensures { result ≡ (if is_accepted status then failed else failed + 1) }
{
    if is_accepted(status) {
        failed
    } else {
        failed + 1
    }
}

/// Drives a valid case once, without a count of drives.
fn drive_uncounted<R: Threads + Wait>(
    rt: &R,
    alloc: Global,
    judge: &Judge<'_, Compiled>,
    system: &mut BoxedSystem,
    valid: Valid,
) -> Result<DrivenItem, AllocError>
    requires model { valid.model ≡ judge.now.callbacks.now }
    ensures driven { IfOk result (IsDrivenOnce judge.now.order judge.now.callbacks.now
        (answers system.old) (fails system.old) (reset_fails system.old) valid.case) }
    ensures kept { AreKept (answers system.new) (answers system.old) (fails system.new) (fails system.old)
        (reset_fails system.new) (reset_fails system.old) }
{
    Ok(DrivenItem {
        report: drive_once(rt, alloc, judge, system, valid)?,
        drives: None,
    })
}

/// Drives a valid case `repeats` times, or until a drive is lost.
fn drive_repeatedly<R: Threads + Wait>(
    rt: &R,
    alloc: Global,
    judge: &Judge<'_, Compiled>,
    system: &mut BoxedSystem,
    valid: &Valid,
    repeats: u32,
) -> Result<DrivenItem, AllocError>
    requires model { valid.now.model ≡ judge.now.callbacks.now }
    requires some { 1 ≤ repeats }
    ensures driven { IfOk result (IsRepeated judge.now.order judge.now.callbacks.now
        (answers system.old) (fails system.old) (reset_fails system.old) repeats valid.now.case) }
    ensures kept { AreKept (answers system.new) (answers system.old) (fails system.new) (fails system.old)
        (reset_fails system.new) (reset_fails system.old) }
{
    let _shaped = valid.shaped();
    let mut shown: Option<ItemReport> = None;
    let mut failed = 0;
    for _drive in 0..repeats {
        let copy = valid.copy(alloc, judge.callbacks.typed().source())?;
        let report = drive_once(rt, alloc, judge, system, copy)?;
        let status = report.status();
        if status == Status::Lost {
            return Ok(DrivenItem {
                report,
                drives: None,
            });
        }
        failed = count_drive_if_failed(failed, status);
        shown = first_failed_or_latest_report(shown, report);
    }
    match shown {
        Some(report) => {
            let all = repeats;
            let drives = Some(Drives { all, failed });
            Ok(DrivenItem { report, drives })
        }
        None => unreachable!(),
    }
}

/// Drives a valid case once, or `repeats` times if that is not 0.
fn drive_valid_case<R: Threads + Wait>(
    rt: &R,
    alloc: Global,
    judge: &Judge<'_, Compiled>,
    system: &mut BoxedSystem,
    valid: Valid,
    repeats: Option<u32>,
) -> Result<DrivenItem, AllocError>
    requires model { valid.model ≡ judge.now.callbacks.now }
    ensures driven { IfOk result (IsDrivenCase judge.now.order judge.now.callbacks.now
        (answers system.old) (fails system.old) (reset_fails system.old) repeats valid.case) }
    ensures kept { AreKept (answers system.new) (answers system.old) (fails system.new) (fails system.old)
        (reset_fails system.new) (reset_fails system.old) }
{
    match repeats {
        None => drive_uncounted(rt, alloc, judge, system, valid),
        Some(0) => drive_uncounted(rt, alloc, judge, system, valid),
        Some(repeats) => drive_repeatedly(rt, alloc, judge, system, &valid, repeats),
    }
}

/// Returns the item of a case that is not valid, with the reason. `AllocError` means that an allocation failed.
fn invalid_item(why: Why) -> Result<DrivenItem, AllocError>
    ensures reason { OnOk result (why ≡ reasons.NoMemory → ⊥) }
    ensures item { IfOk result (λ item. item ≡ alone (became.Judged None (kind.Invalid why))) }
{
    let judged = match why {
        Why::NoMemory => return Err(AllocError),
        why => Judged::Invalid(why),
    };
    let report = ItemReport::Judged { run: None, judged };
    Ok(DrivenItem {
        report,
        drives: None,
    })
}

/// Drives the case of an item once, or `repeats` times if that is not 0, if it is valid.
pub(crate) fn drive_item<R: Threads + Wait>(
    rt: &R,
    alloc: Global,
    judge: &Judge<'_, Compiled>,
    system: &mut BoxedSystem,
    run: &Run,
    repeats: Option<u32>,
) -> Result<DrivenItem, AllocError>
    requires model { run.now.shaped.model ≡ judge.now.callbacks.now }
    ensures driven { IfOk result (IsDrivenItem judge.now.order judge.now.callbacks.now
        (answers system.old) (fails system.old) (reset_fails system.old) repeats run.now) }
    ensures kept { AreKept (answers system.new) (answers system.old) (fails system.new) (fails system.old)
        (reset_fails system.new) (reset_fails system.old) }
{
    let copy = run.shaped.copy(alloc, judge.callbacks.typed().source())?;
    match valid(judge.callbacks, alloc, copy) {
        Ok(valid) => drive_valid_case(rt, alloc, judge, system, valid, repeats),
        Err(refused) => invalid_item(refused.1),
    }
}
