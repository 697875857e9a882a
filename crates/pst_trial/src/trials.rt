//! Trials by any driver, and the cases of trials.
ghost use Rattle.std.specs.Prelude.{◌≡◌, ◌+◌, ◌^◌, ◌<◌, IfOk, IfErr};
ghost use Rattle.std.specs.Arc.{arc_value};
ghost use Rattle.pst_shrink.specs.Weight.{weight};
ghost use Rattle.pst_shrink.specs.declared.shrinking.AttemptOutcome.TheVariants.{Broke};
ghost use Rattle.pst_trial.specs.JudgedRuns.{IsAnswer, MayFail};
ghost use Rattle.pst_trial.specs.Sound.{IsSoundBy, IsTried, IsTrialCase};
ghost use Rattle.pst_gen.specs.Generated.{case_in};

use crate::TrialFault;
use crate::attempts::{ShrinkAttempts, drive_and_judge_case_while_explained};
use crate::driver::Driver;
use crate::plan::Plan;
use crate::record::{JudgedRun, Record, TrialOutcome};
use pst_case::Case;
use pst_driver::DriveFault;
use pst_eval::FaultPlace;
use pst_gen::generate;
use pst_judge::Valid;
use pst_shrink::{AttemptOutcome, ShrinkFault, shrink};
use pst_value::Items;
use rand_pcg::Pcg64;
use std::alloc::{AllocError, Global};
use std::sync::Arc;

/// Shrinks a case that has a run that is not explained.
fn shrink_failing_case<D: Driver>(
    alloc: Global,
    plan: &Plan,
    driver: &mut D,
    case: Case,
    earlier: Items<JudgedRun>,
    run: JudgedRun,
) -> Result<TrialOutcome, DriveFault>
    requires room { weight case + 1 < 2 ^ 32 }
    requires broke { IsAnswer (D.may_drive driver.old) plan.now.model plan.now.settings.order
        plan.now.settings.repeats case (Broke earlier run) }
    ensures tried { IfOk result (IsTried (D.may_drive driver.old) plan.now case) }
    ensures fault { IfErr result (MayFail (D.may_fail driver.old)) }
    ensures keeps { D.keeps driver.old driver.new }
{
    let limit = plan.settings().limit;
    let mut attempts = ShrinkAttempts {
        alloc,
        plan,
        driver,
        driven: 0,
    };
    match shrink(alloc, case, run, limit, &mut attempts) {
        Ok(shrunk) => Ok(TrialOutcome::Failed { earlier, shrunk }),
        Err(ShrinkFault::Attempt(fault)) => Err(fault),
        Err(ShrinkFault::NoMemory) => Err(DriveFault::NoMemory),
    }
}

/// Drives a valid case, and shrinks it if a run is not explained.
fn drive_case_and_shrink_if_unexplained<D: Driver>(
    alloc: Global,
    plan: &Plan,
    driver: &mut D,
    valid: Valid,
) -> Result<TrialOutcome, DriveFault>
    requires model { valid.model ≡ plan.now.model }
    ensures tried { IfOk result (IsTried (D.may_drive driver.old) plan.now valid.case) }
    ensures fault { IfErr result (MayFail (D.may_fail driver.old)) }
    ensures keeps { D.keeps driver.old driver.new }
{
    let _case = valid.shaped().case();
    let outcome = match drive_and_judge_case_while_explained(alloc, plan, driver, &valid) {
        Ok(outcome) => outcome,
        Err(fault) => return Err(fault),
    };
    let case = valid.into_shaped().into_case();
    match outcome {
        AttemptOutcome::Held(runs) => Ok(TrialOutcome::Passed { case, runs }),
        AttemptOutcome::Broke(earlier, run) => shrink_failing_case(
            alloc, plan, driver, case, earlier, run,
        ),
        AttemptOutcome::NotValid => unreachable!(),
    }
}

/// Returns the outcome of trial `number`: generates its case, drives and judges it, and shrinks it if a run is
/// not explained.
fn generate_drive_and_shrink_trial_case<D: Driver>(
    alloc: Global,
    plan: &Plan,
    number: u64,
    driver: &mut D,
) -> Result<TrialOutcome, DriveFault>
    ensures sound { IfOk result (IsSoundBy (D.may_drive driver.old) plan.now number) }
    ensures fault { IfErr result (MayFail (D.may_fail driver.old)) }
    ensures keeps { D.keeps driver.old driver.new }
{
    match generate_trial_case(alloc, plan, number)? {
        Ok(valid) => drive_case_and_shrink_if_unexplained(alloc, plan, driver, valid),
        Err(place) => Ok(TrialOutcome::GenFaulted(place)),
    }
}

/// Runs a trial of a plan by its number: generates the case of the number's random words, drives it up to
/// `repeats` times while its histories are explained, and shrinks it if one is not. The record shares the plan.
///
/// The fault is that of the drive that failed, also while a case is shrunk, or `NoMemory`, and then there is no
/// record.
pub fn run_trial_with_driver<D: Driver>(
    alloc: Global,
    plan: &Arc<Plan>,
    number: u64,
    driver: &mut D,
) -> Result<Record, TrialFault>
    ensures plan { IfOk result (λ r. r.plan ≡ arc_value plan.now) }
    ensures number { IfOk result (λ r. r.number ≡ number) }
    ensures driven { IfOk result
        (λ r. IsSoundBy (D.may_drive driver.old) (arc_value plan.now) number r.outcome) }
    ensures fault { IfErr result (MayFail (D.may_fail driver.old)) }
    ensures keeps { D.keeps driver.old driver.new }
{
    let shared = Arc::try_clone(plan)?;
    match generate_drive_and_shrink_trial_case(alloc, plan, number, driver) {
        Ok(outcome) => Ok(Record::new(shared, number, outcome)),
        Err(fault) => Err(fault),
    }
}

/// Returns the valid case of trial `number`, or the fault of a callback if the trial has no case.
pub fn generate_trial_case(
    alloc: Global,
    plan: &Plan,
    number: u64,
) -> Result<Result<Valid, FaultPlace>, AllocError>
    ensures model { IfOk result (λ answer. IfOk answer (λ valid. valid.model ≡ plan.now.model)) }
    ensures case { IfOk result (λ answer. IsTrialCase plan.now number (case_in answer)) }
{
    let settings = plan.settings();
    let mut words = Pcg64::new(settings.seed as u128, number as u128);
    generate(
        plan.compiled(),
        alloc,
        plan.typed(),
        &mut words,
        settings.commands,
        settings.branches,
        settings.suffix,
    )
}
