//! Plans, as what workers run.
ghost use Rattle.std.specs.Prelude.{◌≡◌, ◌<◌, IsTrue, IfOk, IfErr};
ghost use Rattle.std.specs.Arc.{arc_value};
ghost use Rattle.pst_campaign.specs.Entries.{MayGive, cause_of};
ghost use Rattle.pst_ledger.specs.declared.entry.Entry.TheVariants.{Done, Lost};
ghost use Rattle.pst_system.specs.Kept.{AreKept};

use crate::crews::run_trials_with_or_without_crew;
use crate::runner::{TrialRunner, Worker};
use crate::watch::StopCondition;
use pst_ledger::{Cause, Ledger, Seat};
use pst_system::{BoxedSystem, System};
use pst_trial::{Plan, Record, ShrinkProgress, TrialFault, run_trial_with_progress};
use std::alloc::Global;
use std::sync::{Arc, Wait};
use std::thread::Threads;

/// The cause that has the name of a trial's fault.
pub(crate) fn loss_cause_of_trial_fault(fault: TrialFault) -> Cause
    ensures { result ≡ cause_of fault }
{
    match fault {
        TrialFault::ResetFailed => Cause::ResetFailed,
        TrialFault::NoThread => Cause::NoThread,
        TrialFault::NoMemory => Cause::NoMemory,
    }
}

/// Runs trial `number`, with its fault as a cause. `shrinking` counts the candidates that it drives.
#[tactic(auto, using(crate::specs::Moving::gives_loss))]
fn run_campaign_trial<H: Threads + Wait>(
    rt: &H,
    alloc: Global,
    plan: &Arc<Plan>,
    number: u64,
    system: &mut BoxedSystem,
    shrinking: &ShrinkProgress,
) -> Result<Record, Cause>
    requires below { number < (arc_value plan.now).settings.trials }
    ensures number { IfOk result (λ r. r.number ≡ number) }
    ensures record_given { IfOk result (λ r. MayGive (answers system.old) (fails system.old)
        (reset_fails system.old) (arc_value plan.now) number (Done r)) }
    ensures loss_given { IfErr result (λ c. MayGive (answers system.old) (fails system.old)
        (reset_fails system.old) (arc_value plan.now) number (Lost c)) }
    ensures kept { AreKept (answers system.new) (answers system.old) (fails system.new) (fails system.old)
        (reset_fails system.new) (reset_fails system.old) }
{
    match run_trial_with_progress(rt, alloc, plan, number, system, shrinking) {
        Ok(record) => Ok(record),
        Err(fault) => Err(loss_cause_of_trial_fault(fault)),
    }
}

/// A plan whose trials are watched.
#[derive(Drop)]
pub(crate) struct WatchedPlan<'a, K> {
    pub plan: &'a Arc<Plan>,
    pub watch: &'a K,
}

impl<'a, K: StopCondition> TrialRunner<Record, BoxedSystem> for WatchedPlan<'a, K> {
    ghost use Rattle.std.specs.Arc.{arc_value};
    ghost use Rattle.pst_campaign.specs.Moving.{gives_before};
    ghost use Rattle.pst_campaign.specs.Entries.{MayGive};
    ghost use Rattle.pst_system.specs.Kept.{AreKept};
    ghost use Rattle.pst_trial.specs.Steadiness.{kept_same, kept_on};

    ghost trials = { λ w. (arc_value w.plan.now).settings.trials };

    ghost may_give = { λ w s k e. MayGive ((System-box s).answers s.value) ((System-box s).fails s.value)
        ((System-box s).reset_fails s.value) (arc_value w.plan.now) k e };

    ghost may_end = { λ w. K.may_end w.watch.now };

    ghost keeps = { λ s t. AreKept ((System-box t).answers t.value) ((System-box s).answers s.value)
        ((System-box t).fails t.value) ((System-box s).fails s.value)
        ((System-box t).reset_fails t.value) ((System-box s).reset_fails s.value) };

    fn run<H: Threads + Wait>(
        &self,
        rt: &H,
        alloc: Global,
        number: u64,
        system: &mut BoxedSystem,
    ) -> Result<Record, Cause> {
        let own = ShrinkProgress::new();
        let shrinking = self.watch.shrink_progress().unwrap_or(&own);
        let ended = run_campaign_trial(rt, alloc, self.plan, number, system, shrinking);
        shrinking.clear_progress_if_of_trial(number);
        self.watch.trial_ended(&ended);
        ended
    }

    fn is_campaign_over(&self) -> bool
        ensures { IsTrue result → K.may_end self.now.watch.now }
    {
        self.watch.is_campaign_over()
    }

    ghost keeps_refl = { λ s. kept_same _ _ _ };

    ghost keeps_trans = { λ s t u p q. kept_on q p };

    ghost moves = { λ w s t kept k e. gives_before kept (arc_value w.plan.now) k e };
}

impl<'a, K: StopCondition> Worker<BoxedSystem> for WatchedPlan<'a, K> {
    ghost use Rattle.std.specs.Arc.{arc_value};
    ghost use Rattle.pst_campaign.specs.Entries.{MayGive};

    ghost trials = { λ w. (arc_value w.plan.now).settings.trials };

    ghost may_give = { λ w s k e. MayGive ((System-box s).answers s.value) ((System-box s).fails s.value)
        ((System-box s).reset_fails s.value) (arc_value w.plan.now) k e };

    ghost may_end = { λ w. K.may_end w.watch.now };

    fn work<H: Threads + Wait>(
        &self,
        rt: &H,
        alloc: Global,
        ledger: &Ledger<Record>,
        seat: Seat<Record>,
        system: &mut Option<BoxedSystem>,
    ) -> Seat<Record> {
        match system.take() {
            Some(own) => {
                run_trials_with_or_without_crew(rt, alloc, self.plan, self.watch, ledger, seat, own)
            }
            None => seat,
        }
    }
}
