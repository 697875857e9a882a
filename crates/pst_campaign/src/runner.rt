//! What runs the trials of a campaign, and how a worker runs one after another.
ghost use Rattle.std.specs.Prelude.{◌≡◌, ◌<◌, ℕ, IfOk, IfErr, IfSome, true, None};
ghost use Rattle.pst_campaign.specs.Workers.{IsFresh, IsWorked, IsMarked};
ghost use Rattle.pst_ledger.specs.declared.entry.Entry.{Entry};
ghost use Rattle.pst_ledger.specs.declared.entry.Entry.TheVariants.{Done, Lost};
ghost use Rattle.std.specs.Arc.{arc_value};
ghost use Rattle.pst_campaign.specs.Entries.{MayGive};
ghost use Rattle.pst_campaign.specs.Working.{Adds};
ghost use Rattle.pst_system.specs.Kept.{AreKept};

use crate::plans::WatchedPlan;
use crate::watch::{NeverStops, Unwatched};
use pst_ledger::{Cause, Ledger, Numbered, Seat};
use pst_system::{BoxedSystem, System};
use pst_trial::{Plan, Record, prove_records_are_send_and_sync};
use std::alloc::Global;
use std::sync::{Arc, Wait};
use std::thread::Threads;

/// What runs trials on systems, such as a plan.
pub(crate) trait TrialRunner<R: Numbered, S> {
    ghost use Rattle.std.specs.Prelude.{ℕ, IsTrue};
    ghost use Rattle.pst_ledger.specs.declared.entry.Entry.{Entry};

    /// The number of trials.
    ghost trials: { Self → ℕ };

    /// The entries that a trial may have on a system, by the trial's number.
    ghost may_give: { Self → S → ℕ → Entry R → Type 0 };

    /// That its trials may end before all numbers are drawn.
    ghost may_end: { Self → Type 0 };

    /// What a trial leaves of a system as it was, as a relation of the system before and after it.
    ghost keeps: { S → S → Type 0 };

    /// Runs trial `number` on a system. Returns its record, or why it has no record.
    fn run<H: Threads + Wait>(
        &self,
        rt: &H,
        alloc: Global,
        number: u64,
        system: &mut S,
    ) -> Result<R, Cause>
        requires below { number < trials self.now }
        ensures number { IfOk result (λ r. R.number_of r ≡ number) }
        ensures record_given { IfOk result (λ r. may_give self.now system.old number (Done r)) }
        ensures loss_given { IfErr result (λ c. may_give self.now system.old number (Lost c)) }
        ensures keeps { keeps system.old system.new };

    /// Whether no further trial is to run.
    fn is_campaign_over(&self) -> bool
        ensures { IsTrue result → may_end self.now };

    /// A system that does not change keeps everything.
    ghost keeps_refl: { (s : S) → keeps s s };

    /// Two trials in a row keep what each of them keeps.
    ghost keeps_trans: { (s t u : S) → keeps s t → keeps t u → keeps s u };

    /// What a kept system may give, it might have given before.
    ghost moves: { (p : Self) (s t : S) → keeps s t
        → (k : ℕ) (e : Entry R) → may_give p t k e → may_give p s k e };
}

/// What works at the seats of a ledger, each with a system of its own, such as a watched plan.
pub(crate) trait Worker<S> {
    ghost use Rattle.std.specs.Prelude.{ℕ};
    ghost use Rattle.pst_ledger.specs.declared.entry.Entry.{Entry};
    ghost use Rattle.pst_trial.specs.RecordView.{RecordView};

    /// The number of trials.
    ghost trials: { Self → ℕ };

    /// The entries that a trial may have on a system, by the trial's number.
    ghost may_give: { Self → S → ℕ → Entry RecordView → Type 0 };

    /// That its trials may end before all numbers are drawn.
    ghost may_end: { Self → Type 0 };

    /// Takes the system, works with it at a fresh seat, and returns the seat. If there is no system, the seat is
    /// returned as it is.
    fn work<H: Threads + Wait>(
        &self,
        rt: &H,
        alloc: Global,
        ledger: &Ledger<Record>,
        seat: Seat<Record>,
        system: &mut Option<S>,
    ) -> Seat<Record>
        requires fresh { IsFresh ledger.now.table seat }
        requires trials { ledger.now.table.slots ≡ trials self.now }
        ensures { IfSome system.old
            (λ s. IsWorked (may_end self.now) (may_give self.now s) ledger.now.table result) };
}

/// Claims numbers until none is left or the plan is over, runs the trial of each, and deposits its record or gives the
/// number up. Each clause is a fact on one part of the seat, or on the system.
pub(crate) fn run_trials_until_campaign_over<
    R: Numbered,
    S: Drop,
    P: TrialRunner<R, S>,
    H: Threads + Wait,
>(rt: &H, alloc: Global, plan: &P, ledger: &Ledger<R>, seat: &mut Seat<R>, system: &mut S)
    requires own { seat.old.table ≡ ledger.now.table }
    requires idle { seat.old.held ≡ None }
    requires trials { ledger.now.table.slots ≡ P.trials plan.now }
    ensures place { seat.new.table ≡ seat.old.table }
    ensures marked { IsMarked (P.may_end plan.now) seat.new }
    ensures rests { seat.new.held ≡ None }
    ensures ends { Adds (P.may_give plan.now system.old) seat.old.ends seat.new.ends }
    ensures keeps { P.keeps system.old system.new }
{
    for _ in rt.forever() {
        if plan.is_campaign_over() {
            return;
        }
        let Some(number) = ledger.claim(seat) else {
            return;
        };
        match plan.run(rt, alloc, number, system) {
            Ok(record) => {
                let _ = ledger.deposit(seat, record);
            }
            Err(cause) => {
                let _ = ledger.lose(seat, number, cause);
            }
        }
    }
    unreachable!()
}

/// Does what `run_trials_until_campaign_over` does, with a fresh seat and a system of its own for a thread, and returns the seat.
pub(crate) fn run_trials_at_own_seat<R: Numbered, S: Drop, P: TrialRunner<R, S>, H: Threads + Wait>(
    rt: &H,
    alloc: Global,
    plan: &P,
    ledger: &Ledger<R>,
    mut seat: Seat<R>,
    mut system: S,
) -> Seat<R>
    requires fresh { IsFresh ledger.now.table seat }
    requires trials { ledger.now.table.slots ≡ P.trials plan.now }
    ensures { IsWorked (P.may_end plan.now) (P.may_give plan.now system) ledger.now.table result }
{
    run_trials_until_campaign_over(rt, alloc, plan, ledger, &mut seat, &mut system);
    seat
}

/// Works at a seat of a ledger until no number is left: claims a number, runs its trial of the plan on the system, and
/// deposits the record. A number whose trial has a fault is given up for the cause of that name. The call waits for as
/// long as the calls of the system do. Each clause is a fact on one part of the seat, or on the system.
pub fn run_trials_until_none_is_left<H: Threads + Wait + Sync>(
    rt: &H,
    alloc: Global,
    plan: &Arc<Plan>,
    ledger: &Ledger<Record>,
    seat: &mut Seat<Record>,
    system: &mut BoxedSystem,
)
    requires own { seat.old.table ≡ ledger.now.table }
    requires idle { seat.old.held ≡ None }
    requires trials { ledger.now.table.slots ≡ (arc_value plan.now).settings.trials }
    ensures place { seat.new.table ≡ seat.old.table }
    ensures marked { seat.new.marked ≡ true }
    ensures rests { seat.new.held ≡ None }
    ensures ends { Adds
        (MayGive (answers system.old) (fails system.old) (reset_fails system.old) (arc_value plan.now))
        seat.old.ends seat.new.ends }
    ensures kept { AreKept (answers system.new) (answers system.old) (fails system.new) (fails system.old)
        (reset_fails system.new) (reset_fails system.old) }
{
    prove_records_are_send_and_sync();
    let watched = WatchedPlan {
        plan,
        watch: &NeverStops { watch: &Unwatched },
    };
    run_trials_until_campaign_over(rt, alloc, &watched, ledger, seat, system)
}
