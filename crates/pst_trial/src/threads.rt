//! Trials on a system, with new threads for each drive, or with those of a crew that stay from drive to drive.
ghost use Rattle.std.specs.Prelude.{◌≡◌, IfOk, IfErr};
ghost use Rattle.std.specs.Arc.{arc_value};
ghost use Rattle.pst_driver.specs.Driven.{IsDriven, IsDriveFault};
ghost use Rattle.pst_system.specs.Kept.{AreKept};
ghost use Rattle.pst_trial.specs.JudgedRuns.{MayFail};
ghost use Rattle.pst_trial.specs.Sound.{IsSoundBy};

use crate::TrialFault;
use crate::driver::Driver;
use crate::plan::Plan;
use crate::record::Record;
use crate::shrinking::ShrinkProgress;
use crate::trials::run_trial_with_driver;
use pst_case::History;
use pst_driver::{
    Crew, DriveFault, Relations, Subject, burst_case_with_crew, drive_case_with_crew_and_check,
    run, run_timed,
};
use pst_judge::{CallOrder, Valid};
use pst_model::Typed;
use pst_system::{BoxedSystem, System};
use pst_value::Items;
use std::alloc::{AllocError, Global};
use std::sync::{Arc, Wait};
use std::thread::Threads;

/// Drives cases on a system, with a thread for each branch. A drive waits for as long as the calls of the
/// system do.
#[derive(Drop)]
pub struct ThreadDriver<'a, R: Threads + Wait> {
    /// The handle that starts the threads and waits for them.
    pub rt: &'a R,
    /// The system, which each drive resets first.
    pub system: &'a mut BoxedSystem,
    /// With `Time` each drive records the times of its calls.
    pub order: CallOrder,
    /// The number of the trial.
    pub number: u64,
    /// Counts the candidates that are driven while the trial is shrunk.
    pub shrinking: &'a ShrinkProgress,
}

impl<'a, R: Threads + Wait> Driver for ThreadDriver<'a, R> {
    ghost use Rattle.std.specs.Prelude.{◌≡◌};
    ghost use Rattle.std.proofs.Common.{refl, ◌∙◌};
    ghost use Rattle.pst_driver.specs.Driven.{IsDriven, IsDriveFault};
    ghost use Rattle.pst_system.specs.Kept.{AreKept};
    ghost use Rattle.pst_trial.specs.Steadiness.{kept_same, kept_on, steady_of};

    ghost may_drive = { λ d v h. IsDriven v.model
        ((System-box d.system.now).answers d.system.now.value)
        ((System-box d.system.now).fails d.system.now.value) v.case h };

    ghost may_fail = { λ d v f. IsDriveFault
        ((System-box d.system.now).reset_fails d.system.now.value) v.case f };

    ghost keeps = { λ a b. (b.system.ghost_name ≡ a.system.ghost_name) × AreKept
        ((System-box b.system.now).answers b.system.now.value)
        ((System-box a.system.now).answers a.system.now.value)
        ((System-box b.system.now).fails b.system.now.value)
        ((System-box a.system.now).fails a.system.now.value)
        ((System-box b.system.now).reset_fails b.system.now.value)
        ((System-box a.system.now).reset_fails a.system.now.value) };

    fn drive(
        &mut self,
        alloc: Global,
        typed: &Typed,
        valid: &Valid,
    ) -> Result<History, DriveFault> {
        match self.order {
            CallOrder::Any => run(self.rt, alloc, typed, self.system, valid),
            CallOrder::Time => run_timed(self.rt, alloc, typed, self.system, valid),
        }
    }

    fn note_next_candidate(&self, driven: u64) {
        self.shrinking
            .show_candidate_unless_superseded(self.number, driven);
    }

    ghost keeps_refl = { λ a. (refl, kept_same _ _ _) };

    ghost keeps_trans = { λ a b c p q. (q.0 ∙ p.0, kept_on q.1 p.1) };

    ghost steady = { λ a b p. steady_of p.1 };
}

/// Runs a trial of a plan on a system, with a thread for each branch: generates the case of the trial's number,
/// drives it while its histories are explained, up to the repeats of the settings, and shrinks it if one is
/// not. The record shares the plan.
///
/// The fault is that of the drive that failed, also while a case is shrunk, and then there is no record.
/// `ResetFailed`: the system refused a reset. `NoThread`: a thread could not be started. `NoMemory`: an
/// allocation failed. The call waits for as long as the calls of the system do.
pub fn trial<R: Threads + Wait>(
    rt: &R,
    alloc: Global,
    plan: &Arc<Plan>,
    number: u64,
    system: &mut BoxedSystem,
) -> Result<Record, TrialFault>
    ensures plan { IfOk result (λ r. r.plan ≡ arc_value plan.now) }
    ensures number { IfOk result (λ r. r.number ≡ number) }
    ensures driven { IfOk result (λ r. IsSoundBy
        (λ v h. IsDriven v.model (answers system.old) (fails system.old) v.case h)
        (arc_value plan.now) number r.outcome) }
    ensures fault { IfErr result (MayFail (λ v f. IsDriveFault (reset_fails system.old) v.case f)) }
    ensures kept { AreKept (answers system.new) (answers system.old)
        (fails system.new) (fails system.old)
        (reset_fails system.new) (reset_fails system.old) }
{
    run_trial_with_progress(rt, alloc, plan, number, system, &ShrinkProgress::new())
}

/// Does what [`trial`] does, and counts in `shrinking` the candidates that it drives while the case is shrunk.
pub fn run_trial_with_progress<R: Threads + Wait>(
    rt: &R,
    alloc: Global,
    plan: &Arc<Plan>,
    number: u64,
    system: &mut BoxedSystem,
    shrinking: &ShrinkProgress,
) -> Result<Record, TrialFault>
    ensures plan { IfOk result (λ r. r.plan ≡ arc_value plan.now) }
    ensures number { IfOk result (λ r. r.number ≡ number) }
    ensures driven { IfOk result (λ r. IsSoundBy
        (λ v h. IsDriven v.model (answers system.old) (fails system.old) v.case h)
        (arc_value plan.now) number r.outcome) }
    ensures fault { IfErr result (MayFail (λ v f. IsDriveFault (reset_fails system.old) v.case f)) }
    ensures kept { AreKept (answers system.new) (answers system.old)
        (fails system.new) (fails system.old)
        (reset_fails system.new) (reset_fails system.old) }
{
    run_trial_with_driver(
        alloc,
        plan,
        number,
        &mut ThreadDriver {
            rt,
            system,
            order: plan.settings().order,
            number,
            shrinking,
        },
    )
}

/// Drives cases on the system of a crew, with its threads. A drive waits for as long as the calls of the system
/// do.
#[derive(Drop)]
pub struct CrewDriver<'r, 'c, 's, J: Relations, S: Subject, R: Wait> {
    /// The handle that waits for the threads.
    pub rt: &'r R,
    /// The system, which each drive resets first, and the threads. Nobody else drives it meanwhile.
    pub crew: &'c Crew<J, S>,
    /// The number of the trial.
    pub number: u64,
    /// Counts the candidates that are driven while the trial is shrunk.
    pub shrinking: &'s ShrinkProgress,
}

impl<'r, 'c, 's, J: Relations, S: Subject, R: Wait> Driver for CrewDriver<'r, 'c, 's, J, S, R> {
    ghost use Rattle.std.specs.Prelude.{◌≡◌};
    ghost use Rattle.pst_driver.specs.Driven.{IsDriven, IsDriveFault};
    ghost use Rattle.pst_trial.specs.Steadiness.{steady_same};

    ghost may_drive = { λ d v h. v.model ≡ J.model → IsDriven v.model J.answering J.failing v.case h };

    ghost may_fail = { λ d v f. IsDriveFault J.resetting v.case f };

    ghost keeps = { λ a b. Unit {0} };

    fn drive(
        &mut self,
        alloc: Global,
        typed: &Typed,
        valid: &Valid,
    ) -> Result<History, DriveFault> {
        drive_case_with_crew_and_check(self.rt, alloc, self.crew, typed, valid)
    }

    fn burst(
        &self,
        alloc: Global,
        typed: &Typed,
        valid: &Valid,
    ) -> Result<Option<Items<History>>, AllocError> {
        burst_case_with_crew(self.rt, alloc, self.crew, typed, valid)
    }

    fn note_next_candidate(&self, driven: u64) {
        self.shrinking
            .show_candidate_unless_superseded(self.number, driven);
    }

    ghost keeps_refl = { λ a. tt };

    ghost keeps_trans = { λ a b c p q. tt };

    ghost steady = { λ a b p. steady_same _ _ };
}

/// Does what `run_trial_with_progress` does, on the system of a crew and with its threads, which run by the model of the
/// plan. The crew has a clock if the order of the plan's settings is `Time`.
pub fn run_trial_with_crew<J: Relations, S: Subject, R: Wait>(
    rt: &R,
    alloc: Global,
    plan: &Arc<Plan>,
    number: u64,
    crew: &Crew<J, S>,
    shrinking: &ShrinkProgress,
) -> Result<Record, TrialFault>
    requires model { (arc_value plan.now).model ≡ J.model }
    ensures plan { IfOk result (λ r. r.plan ≡ arc_value plan.now) }
    ensures number { IfOk result (λ r. r.number ≡ number) }
    ensures driven { IfOk result (λ r. IsSoundBy
        (λ v h. IsDriven v.model J.answering J.failing v.case h)
        (arc_value plan.now) number r.outcome) }
    ensures fault { IfErr result (MayFail (λ v f. IsDriveFault J.resetting v.case f)) }
{
    run_trial_with_driver(
        alloc,
        plan,
        number,
        &mut CrewDriver {
            rt,
            crew,
            number,
            shrinking,
        },
    )
}
