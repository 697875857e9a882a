//! Drives a case repeatedly, and judges the histories.
ghost use Rattle.std.specs.Prelude.{◌≡◌, ◌+◌, ◌∷◌, [], All, IfOk, IfErr, IfSome, MatchOption};
ghost use Rattle.pst_shrink.specs.Outcomes.{drives};
ghost use Rattle.pst_trial.specs.Bursts.{IsRunOfBurst};
ghost use Rattle.pst_trial.specs.Driving.{MayHaveDriven};
ghost use Rattle.pst_trial.specs.JudgedRuns.{IsJudgedRun, IsAnswer, MayFail};

use crate::driver::Driver;
use crate::plan::Plan;
use crate::record::JudgedRun;
use pst_case::{Case, History};
use pst_driver::DriveFault;
use pst_gen::valid_case_if_accepted;
use pst_judge::{Valid, verdict_by};
use pst_shrink::{Attempt, AttemptOutcome};
use pst_value::Items;
use std::alloc::{AllocError, Global};

/// Judges a history that a driver may record of a valid case, by the order of the plan's settings.
fn judge_driven_history<D: Driver>(
    alloc: Global,
    plan: &Plan,
    _driver: &D,
    valid: &Valid,
    history: History,
) -> Result<JudgedRun, AllocError>
    requires model { valid.now.model ≡ plan.now.model }
    requires driven { MayHaveDriven (D.may_drive _driver.now) valid.now history }
    ensures history { IfOk result (λ run. run.history ≡ history) }
    ensures run { IfOk result (IsJudgedRun (D.may_drive _driver.now) plan.now.model plan.now.settings.order
        valid.now.case) }
{
    let order = plan.settings().order;
    let verdict = verdict_by(plan.compiled(), order, alloc, valid.shaped(), &history)?;
    Ok(JudgedRun { history, verdict })
}

fn split_first_history(histories: &[History]) -> Option<(&History, &[History])>
    ensures { MatchOption result (histories.now ≡ []) (λ p. histories.now ≡ p.0.now ∷ p.1.now) }
{
    histories.split_first()
}

/// The first of some histories that a driver may record of a valid case, and the others.
fn split_driven<'a, D: Driver>(
    _driver: &D,
    _valid: &Valid,
    histories: &'a [History],
) -> Option<(&'a History, &'a [History])>
    requires { All (MayHaveDriven (D.may_drive _driver.now) _valid.now) histories.now }
    ensures parts { MatchOption result (histories.now ≡ []) (λ p. histories.now ≡ p.0.now ∷ p.1.now) }
    ensures first { IfSome result (λ p. MayHaveDriven (D.may_drive _driver.now) _valid.now p.0.now) }
    ensures rest { IfSome result (λ p. All (MayHaveDriven (D.may_drive _driver.now) _valid.now) p.1.now) }
{
    split_first_history(histories)
}

/// Returns the run of a burst that counts: that of the first history that is not explained, or of the last if all are.
fn judge_burst<D: Driver>(
    alloc: Global,
    plan: &Plan,
    driver: &D,
    valid: &Valid,
    first: &History,
    rest: &[History],
) -> Result<JudgedRun, AllocError>
    requires model { valid.now.model ≡ plan.now.model }
    requires first { MayHaveDriven (D.may_drive driver.now) valid.now first.now }
    requires rest { All (MayHaveDriven (D.may_drive driver.now) valid.now) rest.now }
    ensures run { IfOk result (IsJudgedRun (D.may_drive driver.now) plan.now.model plan.now.settings.order
        valid.now.case) }
    ensures counts { IfOk result (IsRunOfBurst plan.now.model plan.now.settings.order valid.now.case
        (first.now ∷ rest.now)) }
{
    let run = judge_driven_history(alloc, plan, driver, valid, first.copy(alloc)?)?;
    if !run.is_explained() {
        return Ok(run);
    }
    match split_driven(driver, valid, rest) {
        Some((next, rest)) => judge_burst(alloc, plan, driver, valid, next, rest),
        None => Ok(run),
    }
}

/// Has the system drive a valid case many times by itself, and judges the run that counts. `None` if it does not do so.
fn burst_and_judge_case<D: Driver>(
    alloc: Global,
    plan: &Plan,
    driver: &D,
    valid: &Valid,
) -> Result<Option<JudgedRun>, AllocError>
    requires model { valid.now.model ≡ plan.now.model }
    ensures { IfOk result (λ found. IfSome found (IsJudgedRun (D.may_drive driver.now) plan.now.model
        plan.now.settings.order valid.now.case)) }
{
    let Some(histories) = driver.burst(alloc, plan.typed(), valid)? else {
        return Ok(None);
    };
    match split_driven(driver, valid, histories.as_slice()) {
        Some((first, rest)) => Ok(Some(judge_burst(alloc, plan, driver, valid, first, rest)?)),
        None => Ok(None),
    }
}

/// Has the system drive a valid case many times by itself. Returns the run that counts, if it is not explained.
fn unexplained_run_of_burst<D: Driver>(
    alloc: Global,
    plan: &Plan,
    driver: &D,
    valid: &Valid,
) -> Result<Option<JudgedRun>, AllocError>
    requires model { valid.now.model ≡ plan.now.model }
    ensures { IfOk result (λ found. IfSome found (IsJudgedRun (D.may_drive driver.now) plan.now.model
        plan.now.settings.order valid.now.case)) }
{
    match burst_and_judge_case(alloc, plan, driver, valid)? {
        Some(run) if !run.is_explained() => Ok(Some(run)),
        _ => Ok(None),
    }
}

/// Drives a valid case, and judges what was recorded by the order of the plan's settings. A system that drives cases many times
/// by itself does so first, and a run of this burst that is not explained is returned in place of the drive.
fn drive_and_judge_case_once<D: Driver>(
    alloc: Global,
    plan: &Plan,
    driver: &mut D,
    valid: &Valid,
) -> Result<JudgedRun, DriveFault>
    requires model { valid.now.model ≡ plan.now.model }
    ensures run { IfOk result (IsJudgedRun (D.may_drive driver.old) plan.now.model plan.now.settings.order
        valid.now.case) }
    ensures fault { IfErr result (MayFail (D.may_fail driver.old)) }
    ensures keeps { D.keeps driver.old driver.new }
{
    if let Some(run) = unexplained_run_of_burst(alloc, plan, driver, valid)? {
        return Ok(run);
    }
    let history = match driver.drive(alloc, plan.typed(), valid) {
        Ok(history) => history,
        Err(fault) => return Err(fault),
    };
    let order = plan.settings().order;
    let verdict = verdict_by(plan.compiled(), order, alloc, valid.shaped(), &history)?;
    Ok(JudgedRun { history, verdict })
}

/// Drives a valid case up to `repeats` times, a setting of the plan, and stops at the first history that is not
/// explained.
pub(crate) fn drive_and_judge_case_while_explained<D: Driver>(
    alloc: Global,
    plan: &Plan,
    driver: &mut D,
    valid: &Valid,
) -> Result<AttemptOutcome<JudgedRun>, DriveFault>
    requires model { valid.now.model ≡ plan.now.model }
    ensures answer { IfOk result
        (IsAnswer (D.may_drive driver.old) plan.now.model plan.now.settings.order
        plan.now.settings.repeats valid.now.case) }
    ensures driven { IfOk result (λ o. drives o ≡ 1) }
    ensures fault { IfErr result (MayFail (D.may_fail driver.old)) }
    ensures keeps { D.keeps driver.old driver.new }
{
    let _case = valid.shaped().case();
    let mut runs = Items::new(alloc);
    for _turn in 0..plan.settings().repeats {
        let run = match drive_and_judge_case_once(alloc, plan, driver, valid) {
            Ok(run) => run,
            Err(fault) => return Err(fault),
        };
        if !run.is_explained() {
            return Ok(AttemptOutcome::Broke(runs, run));
        }
        runs.push(run)?;
    }
    Ok(AttemptOutcome::Held(runs))
}

/// ShrinkAttempts at the shrink candidates of a trial: each that is valid by the plan's model is driven up to
/// `repeats` times, while its histories are explained.
#[derive(Drop)]
pub(crate) struct ShrinkAttempts<'a, D> {
    pub alloc: Global,
    pub plan: &'a Plan,
    pub driver: &'a mut D,
    /// How many valid cases were driven.
    pub driven: u64,
}

impl<'a, D: Driver> Attempt for ShrinkAttempts<'a, D> {
    ghost use Rattle.std.specs.Prelude.{◌≡◌};
    ghost use Rattle.std.proofs.Common.{refl, ◌∙◌};
    ghost use Rattle.pst_trial.specs.Moving.{kept_by};
    ghost use Rattle.pst_trial.specs.JudgedRuns.{IsAnswer, MayFail};

    type History = JudgedRun;

    type Fault = DriveFault;

    ghost answers = { λ a c o.
        IsAnswer (D.may_drive a.driver.now) a.plan.now.model a.plan.now.settings.order
        a.plan.now.settings.repeats c o };

    ghost fails = { λ a f. MayFail (D.may_fail a.driver.now) f };

    ghost driven = { λ a. a.driven };

    ghost keeps = { λ a b. (b.plan.now ≡ a.plan.now) × (b.driver.ghost_name ≡ a.driver.ghost_name)
        × D.keeps a.driver.now b.driver.now };

    fn attempt(&mut self, case: &Case) -> Result<AttemptOutcome<JudgedRun>, DriveFault> {
        let case = case.copy(self.alloc)?;
        let accepted = valid_case_if_accepted(
            self.plan.compiled(),
            self.alloc,
            self.plan.typed(),
            case,
        )?;
        let Some(valid) = accepted else {
            return Ok(AttemptOutcome::NotValid);
        };
        self.driver.note_next_candidate(self.driven);
        let outcome = match drive_and_judge_case_while_explained(
            self.alloc,
            self.plan,
            self.driver,
            &valid,
        ) {
            Ok(outcome) => outcome,
            Err(fault) => return Err(fault),
        };
        self.driven += 1;
        Ok(outcome)
    }

    ghost keeps_refl = { λ a. (refl, refl, D.keeps_refl _) };

    ghost keeps_trans = { λ a b c p q. (q.0 ∙ p.0, q.1 ∙ p.1, D.keeps_trans _ _ _ p.2 q.2) };

    ghost kept = { λ a b p. kept_by (D.steady _ _ p.2) a.plan.now b.plan.now p.0 };
}
