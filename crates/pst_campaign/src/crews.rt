//! Workers whose threads are kept from trial to trial.
ghost use Rattle.std.specs.Prelude.{◌≡◌, ◌<◌, IsTrue, IfOk, IfErr};
ghost use Rattle.std.specs.Arc.{arc_value};
ghost use Rattle.pst_campaign.specs.Entries.{MayGive};
ghost use Rattle.pst_campaign.specs.Workers.{IsFresh, IsWorked};
ghost use Rattle.pst_ledger.specs.declared.entry.Entry.TheVariants.{Done, Lost};
ghost use Rattle.pst_model.specs.contracts.model.Source as coding;
ghost use Rattle.pst_system.specs.Kept.{AreKept};
ghost use Rattle.std.specs.Coded.{codes};

use crate::plans::{WatchedPlan, loss_cause_of_trial_fault};
use crate::runner::{TrialRunner, run_trials_at_own_seat};
use crate::watch::StopCondition;
use pst_driver::{CallClock, Crew, Relations, Subject, SystemWithRelations, start_crew};
use pst_ledger::{Cause, Ledger, Seat};
use pst_system::{BoxedSystem, System};
use pst_trial::{
    CallOrder, Plan, Record, ShrinkProgress, prove_records_are_send_and_sync, run_trial_with_crew,
};
use std::alloc::{AllocError, Global};
use std::marker::Brand;
use std::sync::{Arc, Wait};
use std::thread;
use std::thread::{Scope, Threads};

/// Runs trial `number` with the threads of a crew, with its fault as a cause. `shrinking` counts the candidates
/// that it drives.
#[tactic(auto, using(crate::specs::Moving::gives_loss))]
fn run_campaign_trial_with_crew<J: Relations, S: Subject, H: Wait>(
    rt: &H,
    alloc: Global,
    plan: &Arc<Plan>,
    number: u64,
    crew: &Crew<J, S>,
    shrinking: &ShrinkProgress,
) -> Result<Record, Cause>
    requires model { (arc_value plan.now).model ≡ J.model }
    ensures number { IfOk result (λ r. r.number ≡ number) }
    ensures record_given { IfOk result (λ r. MayGive J.answering J.failing J.resetting
        (arc_value plan.now) number (Done r)) }
    ensures loss_given { IfErr result (λ c. MayGive J.answering J.failing J.resetting
        (arc_value plan.now) number (Lost c)) }
{
    match run_trial_with_crew(rt, alloc, plan, number, crew, shrinking) {
        Ok(record) => Ok(record),
        Err(fault) => Err(loss_cause_of_trial_fault(fault)),
    }
}

/// A plan whose trials are watched, and are run with the threads of a crew.
#[derive(Drop)]
struct WatchedCrewRunner<'p, 'w, 'c, K, J: Relations, S: Subject> {
    plan: &'p Arc<Plan>,
    watch: &'w K,
    crew: &'c Crew<J, S>,
    ghost model: { (arc_value plan.now).model ≡ J.model } by { Prim.hlevel (codes, coding.the_row.coded) },
}

impl<'p, 'w, 'c, K: StopCondition, J: Relations, S: Subject> TrialRunner<Record, ()>
    for WatchedCrewRunner<'p, 'w, 'c, K, J, S> {
    ghost use Rattle.std.specs.Arc.{arc_value};
    ghost use Rattle.pst_campaign.specs.Entries.{MayGive};

    ghost trials = { λ w. (arc_value w.plan.now).settings.trials };

    ghost may_give = { λ w s k e. MayGive J.answering J.failing J.resetting (arc_value w.plan.now) k e };

    ghost may_end = { λ w. K.may_end w.watch.now };

    ghost keeps = { λ s t. Unit {0} };

    fn run<H: Threads + Wait>(
        &self,
        rt: &H,
        alloc: Global,
        number: u64,
        _system: &mut (),
    ) -> Result<Record, Cause> {
        let own = ShrinkProgress::new();
        let shrinking = self.watch.shrink_progress().unwrap_or(&own);
        let ended = run_campaign_trial_with_crew(
            rt, alloc, self.plan, number, self.crew, shrinking,
        );
        shrinking.clear_progress_if_of_trial(number);
        self.watch.trial_ended(&ended);
        ended
    }

    fn is_campaign_over(&self) -> bool
        ensures { IsTrue result → K.may_end self.now.watch.now }
    {
        self.watch.is_campaign_over()
    }

    ghost keeps_refl = { λ s. tt };

    ghost keeps_trans = { λ s t u p q. tt };

    ghost moves = { λ w s t kept k e h. h };
}

/// Works at a fresh seat with the threads of a crew until no number is left or the plan is over, and returns the
/// seat.
fn run_trials_with_crew_threads<K: StopCondition, J: Relations, S: Subject, H: Threads + Wait>(
    rt: &H,
    alloc: Global,
    plan: &Arc<Plan>,
    watch: &K,
    ledger: &Ledger<Record>,
    seat: Seat<Record>,
    crew: &Crew<J, S>,
) -> Seat<Record>
    requires fresh { IsFresh ledger.now.table seat }
    requires trials { ledger.now.table.slots ≡ (arc_value plan.now).settings.trials }
    requires model { (arc_value plan.now).model ≡ J.model }
    ensures { IsWorked (K.may_end watch.now)
        (MayGive J.answering J.failing J.resetting (arc_value plan.now)) ledger.now.table result }
{
    prove_records_are_send_and_sync();
    run_trials_at_own_seat(
        rt,
        alloc,
        &WatchedCrewRunner { plan, watch, crew },
        ledger,
        seat,
        (),
    )
}

/// Starts the threads of a crew in a scope, and works at a fresh seat with them until no number is left or the
/// plan is over. If they do not all start, it does no work and returns the seat as it is, as an `Err`.
fn start_crew_and_run_trials<
    's,
    E,
    K: StopCondition,
    J: Relations + Send + Sync,
    S: Subject + Send + Sync,
    H: Threads + Wait,
>(
    rt: &'s H,
    alloc: Global,
    scope: &Scope<'s, E>,
    plan: &'s Arc<Plan>,
    watch: &K,
    ledger: &Ledger<Record>,
    seat: Seat<Record>,
    crew: &'s Crew<J, S>,
) -> Result<Seat<Record>, Seat<Record>>
    requires fresh { IsFresh ledger.now.table seat }
    requires trials { ledger.now.table.slots ≡ (arc_value plan.now).settings.trials }
    requires model { (arc_value plan.now).model ≡ J.model }
    ensures worked { IfOk result (IsWorked (K.may_end watch.now)
        (MayGive J.answering J.failing J.resetting (arc_value plan.now)) ledger.now.table) }
    ensures unused { IfErr result (IsFresh ledger.now.table) }
{
    let branches = plan.settings().branches;
    if !start_crew(rt, alloc, scope, plan.typed(), crew, branches) {
        return Err(seat);
    }
    Ok(run_trials_with_crew_threads(rt, alloc, plan, watch, ledger, seat, crew))
}

/// Does what `start_crew_and_run_trials` does in a scope of its own, and sends the threads home.
fn start_crew_run_trials_and_dismiss<
    K: StopCondition,
    J: Relations + Send + Sync,
    S: Subject + Send + Sync,
    H: Threads + Wait,
>(
    rt: &H,
    alloc: Global,
    plan: &Arc<Plan>,
    watch: &K,
    ledger: &Ledger<Record>,
    seat: Seat<Record>,
    crew: &Crew<J, S>,
) -> Result<Seat<Record>, Seat<Record>>
    requires fresh { IsFresh ledger.now.table seat }
    requires trials { ledger.now.table.slots ≡ (arc_value plan.now).settings.trials }
    requires model { (arc_value plan.now).model ≡ J.model }
    ensures worked { IfOk result (IsWorked (K.may_end watch.now)
        (MayGive J.answering J.failing J.resetting (arc_value plan.now)) ledger.now.table) }
    ensures unused { IfErr result (IsFresh ledger.now.table) }
{
    thread::scope(
        thread::scope_env(),
        rt,
        |scope| -> Result<Seat<Record>, Seat<Record>>
            requires { IsFresh ledger.now.table seat
                × (ledger.now.table.slots ≡ (arc_value plan.now).settings.trials)
                × ((arc_value plan.now).model ≡ J.model) }
            ensures { IfOk result (IsWorked (K.may_end watch.entry.now)
                (MayGive J.answering J.failing J.resetting (arc_value plan.entry.now))
                ledger.entry.now.table)
                × IfErr result (IsFresh ledger.entry.now.table) }
        {
            let ended = start_crew_and_run_trials(
                rt, alloc, scope, plan, watch, ledger, seat, crew,
            );
            crew.dismiss();
            ended
        },
    )
}

/// Makes a clock for a crew whose drives record times, which are those of a plan with the order `Time`.
fn clock_if_drives_are_timed(
    alloc: Global,
    order: CallOrder,
) -> Result<Option<CallClock>, AllocError> {
    match order {
        CallOrder::Any => Ok(None),
        CallOrder::Time => Ok(Some(CallClock::new(alloc)?)),
    }
}

/// Works at a fresh seat with a crew on the system, whose relations are those that `J` names. If the threads of the
/// crew do not all start, or there is no memory for its clock, it does no work and returns the seat and the system, as an
/// `Err`. Each clause is a fact on one of the things that it is given or gives back.
fn run_trials_with_new_crew<
    K: StopCondition,
    J: Relations + Send + Sync,
    S: Subject + Send + Sync + Drop,
    H: Threads + Wait,
>(
    rt: &H,
    alloc: Global,
    plan: &Arc<Plan>,
    watch: &K,
    ledger: &Ledger<Record>,
    seat: Seat<Record>,
    system: S,
) -> Result<Seat<Record>, (Seat<Record>, S)>
    requires fresh { IsFresh ledger.now.table seat }
    requires trials { ledger.now.table.slots ≡ (arc_value plan.now).settings.trials }
    requires model { (arc_value plan.now).model ≡ J.model }
    requires kept { AreKept (S.may_answer system) J.answering (S.may_fail system) J.failing
        (S.may_refuse_reset system) J.resetting }
    ensures worked { IfOk result (IsWorked (K.may_end watch.now)
        (MayGive J.answering J.failing J.resetting (arc_value plan.now)) ledger.now.table) }
    ensures unused { IfErr result (λ back. IsFresh ledger.now.table back.0) }
    ensures kept { IfErr result (λ back. AreKept (S.may_answer back.1) J.answering
        (S.may_fail back.1) J.failing (S.may_refuse_reset back.1) J.resetting) }
{
    let Ok(clock) = clock_if_drives_are_timed(alloc, plan.settings().order) else {
        return Err((seat, system));
    };
    let crew: Crew<J, S> = Crew::new(SystemWithRelations::new(system), clock);
    match start_crew_run_trials_and_dismiss(rt, alloc, plan, watch, ledger, seat, &crew) {
        Ok(seat) => Ok(seat),
        Err(seat) => Err((seat, crew.into_system())),
    }
}

/// Works at a fresh seat with a crew on the system, whose relations get names for this call. If the threads of
/// the crew do not all start, or there is no memory for its clock, it does no work and returns the seat and the system,
/// as an `Err`.
fn run_trials_on_system_with_crew<
    K: StopCondition,
    S: Subject + Send + Sync + Drop,
    H: Threads + Wait,
>(
    rt: &H,
    alloc: Global,
    plan: &Arc<Plan>,
    watch: &K,
    ledger: &Ledger<Record>,
    seat: Seat<Record>,
    system: S,
) -> Result<Seat<Record>, (Seat<Record>, S)>
    requires fresh { IsFresh ledger.now.table seat }
    requires trials { ledger.now.table.slots ≡ (arc_value plan.now).settings.trials }
    ensures worked { IfOk result (IsWorked (K.may_end watch.now)
        (MayGive (S.may_answer system) (S.may_fail system) (S.may_refuse_reset system)
        (arc_value plan.now)) ledger.now.table) }
    ensures unused { IfErr result (λ back. IsFresh ledger.now.table back.0) }
    ensures kept { IfErr result (λ back. AreKept (S.may_answer back.1) (S.may_answer system)
        (S.may_fail back.1) (S.may_fail system)
        (S.may_refuse_reset back.1) (S.may_refuse_reset system)) }
{
    run_trials_with_new_crew::<K, Brand, S, H>(rt, alloc, plan, watch, ledger, seat, system)
}

/// Works at a fresh seat on the system in a box until no number is left or the plan is over, and returns the
/// seat. It keeps a thread for each branch from drive to drive. If these cannot all be started, or there is no
/// memory for their clock, each drive starts its own.
pub(crate) fn run_trials_with_or_without_crew<K: StopCondition, H: Threads + Wait>(
    rt: &H,
    alloc: Global,
    plan: &Arc<Plan>,
    watch: &K,
    ledger: &Ledger<Record>,
    seat: Seat<Record>,
    system: BoxedSystem,
) -> Seat<Record>
    requires fresh { IsFresh ledger.now.table seat }
    requires trials { ledger.now.table.slots ≡ (arc_value plan.now).settings.trials }
    ensures { IsWorked (K.may_end watch.now)
        (MayGive (answers system) (fails system) (reset_fails system) (arc_value plan.now))
        ledger.now.table result }
{
    match run_trials_on_system_with_crew(rt, alloc, plan, watch, ledger, seat, system) {
        Ok(seat) => seat,
        Err((seat, system)) => {
            prove_records_are_send_and_sync();
            run_trials_at_own_seat(
                rt,
                alloc,
                &WatchedPlan { plan, watch },
                ledger,
                seat,
                system,
            )
        }
    }
}
