//! All workers, each in a thread of its own.
ghost use Rattle.std.specs.Prelude.{◌≡◌, length, All, vec_capacity};
ghost use Rattle.std.specs.List.{AllZip};
ghost use Rattle.pst_campaign.specs.Workers.{IsFresh, IsWorked};
ghost use Rattle.pst_ledger.specs.Seats.{SeatView};
ghost use Rattle.pst_trial.specs.RecordView.{RecordView};

use crate::runner::Worker;
use pst_ledger::{Ledger, Seat};
use pst_trial::{Record, prove_records_are_send_and_sync};
use std::alloc::Global;
use std::snapshot::Snapshot;
use std::sync::Wait;
use std::thread;
use std::thread::{Promise, Scope, SpawnError, Threads};

/// What the thread of a worker promises of its seat.
#[derive(Drop)]
struct WorkPromise<'a, S, P> {
    plan: &'a P,
    ledger: &'a Ledger<Record>,
    system: Snapshot<S>,
}

impl<'a, S, P: Worker<S>> Promise<Seat<Record>> for WorkPromise<'a, S, P> {
    ghost use Rattle.pst_campaign.specs.Workers.{IsWorked};

    ghost kept_by = { λ p t. IsWorked (P.may_end p.plan.now) (P.may_give p.plan.now p.system.value) p.ledger.now.table t };
}

/// Starts the thread of each worker, from the last on, and joins it once the others have ended. A worker whose
/// thread cannot be started works on this thread once the others have ended.
fn run_workers_in_scope_or_here<
    's,
    E,
    S: Drop + Send + 's,
    P: Worker<S> + Sync + 's,
    H: Threads + Wait + Sync,
>(
    rt: &'s H,
    scope: &Scope<'s, E>,
    alloc: Global,
    plan: &'s P,
    ledger: &'s Ledger<Record>,
    mut seats: Vec<Seat<Record>>,
    mut systems: Vec<S>,
) -> Vec<Seat<Record>>
    requires fresh { All (IsFresh ledger.now.table) seats.items }
    requires trials { ledger.now.table.slots ≡ P.trials plan.now }
    requires pairs { length seats.items ≡ length systems.items }
    ensures worked { AllZip (λ (s : S) (t : SeatView RecordView). IsWorked (P.may_end plan.now) (P.may_give plan.now s) ledger.now.table t)
        systems.items result.items }
    ensures room { vec_capacity result ≡ vec_capacity seats }
{
    let Some(seat) = seats.pop() else {
        return seats;
    };
    let Some(system) = systems.pop() else {
        unreachable!()
    };
    prove_records_are_send_and_sync();
    let promise = WorkPromise {
        plan,
        ledger,
        system: Snapshot::of(&system),
    };
    let run = move || -> Seat<Record>
        requires { IsFresh ledger.now.table seat × (ledger.now.table.slots ≡ P.trials plan.now) }
        ensures { IsWorked (P.may_end plan.entry.now) (P.may_give plan.entry.now system) ledger.entry.now.table result }
    {
        let mut system = Some(system);
        plan.work(rt, alloc, ledger, seat, &mut system)
    };
    match scope.spawn_with(promise, run) {
        Ok(child) => {
            let mut worked = run_workers_in_scope_or_here(
                rt, scope, alloc, plan, ledger, seats, systems,
            );
            let own = child.join(rt);
            worked.push_reserved(own);
            worked
        }
        Err(refused) => {
            let SpawnError { value: run } = refused;
            let mut worked = run_workers_in_scope_or_here(
                rt, scope, alloc, plan, ledger, seats, systems,
            );
            let own = run();
            worked.push_reserved(own);
            worked
        }
    }
}

/// Runs all workers at once, each in a thread of its own if one can be started. The seats come back in the
/// order of the systems.
pub(crate) fn run_workers_on_threads_or_here<
    S: Drop + Send,
    P: Worker<S> + Sync,
    H: Threads + Wait + Sync,
>(
    rt: &H,
    alloc: Global,
    plan: &P,
    ledger: &Ledger<Record>,
    seats: Vec<Seat<Record>>,
    systems: Vec<S>,
) -> Vec<Seat<Record>>
    requires fresh { All (IsFresh ledger.now.table) seats.items }
    requires trials { ledger.now.table.slots ≡ P.trials plan.now }
    requires pairs { length seats.items ≡ length systems.items }
    ensures { AllZip (λ (s : S) (t : SeatView RecordView). IsWorked (P.may_end plan.now) (P.may_give plan.now s) ledger.now.table t)
        systems.items result.items }
{
    thread::scope(
        thread::scope_env(),
        rt,
        |scope| -> Vec<Seat<Record>>
            requires { All (IsFresh ledger.now.table) seats.items
                × (ledger.now.table.slots ≡ P.trials plan.now)
                × (length seats.items ≡ length systems.items) }
            ensures { AllZip
                (λ (s : S) (t : SeatView RecordView). IsWorked (P.may_end plan.entry.now) (P.may_give plan.entry.now s) ledger.entry.now.table t)
                systems.items result.items }
        { run_workers_in_scope_or_here(rt, scope, alloc, plan, ledger, seats, systems) },
    )
}
