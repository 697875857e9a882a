//! A system, and the threads that run branches on it. They stay from drive to drive.
ghost use Rattle.std.specs.Prelude.{◌≡◌, IfOk, IfErr, true};
ghost use Rattle.std.specs.Thread.{IsSend, IsSync};
ghost use Rattle.pst_driver.specs.Progress.{all_known};
ghost use Rattle.pst_system.specs.Kept.{AreKept};

use crate::branches::{STACK_BYTES, copy_known_results, prove_model_is_sync};
use crate::clock::{CallClock, CallSite};
use crate::desk::{Delivery, Desk, WorkOrder};
use crate::driving::DriveFault;
use crate::part::call_commands_while_replies_are_values;
use crate::subject::{Relations, Subject, SystemWithRelations};
use crate::waiting::{StartBarrier, WaitHandle};
use core::thread::{Anything, Stack};
use pst_case::Command;
use pst_model::{Typed, operation_of};
use pst_value::Value;
use std::alloc::{AllocError, Global};
use std::sync::atomic::{AtomicU64, Ordering};
use std::sync::{Mutex, RwLock, Wait};
use std::thread::{Scope, Threads};

/// A place for the thread of each branch.
#[derive(Drop)]
struct Desks<J: Relations> {
    first: Desk<J>,
    second: Desk<J>,
    third: Desk<J>,
    fourth: Desk<J>,
}

impl<J: Relations> Desks<J> {
    /// The place of branch `number`, which counts from 0.
    fn get(&self, number: u32) -> Option<&Desk<J>> {
        match number {
            0 => Some(&self.first),
            1 => Some(&self.second),
            2 => Some(&self.third),
            3 => Some(&self.fourth),
            _ => None,
        }
    }
}

/// A system that a worker drives, with a place for the thread of each branch. The threads are kept from drive
/// to drive.
#[derive(Drop)]
pub struct Crew<J: Relations, S: Subject> {
    pub(crate) system: RwLock<SystemWithRelations<J, S>>,
    pub(crate) arrivals: StartBarrier,
    /// How many threads have started.
    started: AtomicU64,
    desks: Desks<J>,
    /// Records the times of the calls of each drive, if there is one.
    pub(crate) clock: Option<CallClock>,
}

impl<J: Relations, S: Subject> Crew<J, S> {
    /// A crew with no thread yet. With a clock each drive records the times of the calls of its branches.
    pub fn new(system: SystemWithRelations<J, S>, clock: Option<CallClock>) -> Crew<J, S> {
        Crew {
            system: RwLock::new(system),
            arrivals: StartBarrier::new(0),
            started: AtomicU64::new(0),
            desks: Desks {
                first: Desk::new(),
                second: Desk::new(),
                third: Desk::new(),
                fourth: Desk::new(),
            },
            clock,
        }
    }

    /// The place of the thread of branch `number`, if that thread has started.
    pub(crate) fn desk_if_thread_has_started(&self, number: u32) -> Option<&Desk<J>> {
        if (number as u64) < self.started.load(Ordering::SeqCst) {
            self.desks.get(number)
        } else {
            None
        }
    }

    /// Sends all threads home. Each scope in which a crew started ends with this call, or it waits for ever.
    pub fn dismiss(&self) {
        self.desks.first.asked.ring();
        self.desks.second.asked.ring();
        self.desks.third.asked.ring();
        self.desks.fourth.asked.ring();
    }

    /// Gives the system back, for drives without the crew. It has the relations that `J` names.
    pub fn into_system(self) -> S
        ensures { AreKept (S.may_answer result) J.answering (S.may_fail result) J.failing
            (S.may_refuse_reset result) J.resetting }
    {
        let Crew { system, .. } = self;
        system.into_inner().into_system()
    }
}

/// Whether each command calls an operation of the model.
fn do_commands_call_known_operations(typed: &Typed, commands: &[Command]) -> bool
    ensures { result ≡ all_known typed.now commands.now }
{
    let Some((command, commands)) = commands.split_first() else {
        return true;
    };
    match operation_of(typed.source().items.as_slice(), command.op as usize) {
        Some(_) => do_commands_call_known_operations(typed, commands),
        None => false,
    }
}

/// Copies the results that are known before an order, with room for those of its commands.
fn copy_known_results_with_spare_capacity(
    alloc: Global,
    order: &WorkOrder,
) -> Result<Vec<Option<Value>>, AllocError>
    ensures { IfOk result (λ known. known.items ≡ order.now.known) }
{
    let mut known = copy_known_results(alloc, order.known.as_slice())?;
    known.reserve(order.commands.len())?;
    Ok(known)
}

/// Runs an order from `site`, with a copy of the results that are known before it. `NoThread`: the model does
/// not have an operation that it calls. `NoMemory`: an allocation failed.
fn run_work_order<J: Relations, S: Subject>(
    alloc: Global,
    typed: &Typed,
    system: &SystemWithRelations<J, S>,
    site: CallSite,
    order: WorkOrder,
    known: Result<Vec<Option<Value>>, AllocError>,
) -> Result<Delivery<J>, DriveFault>
    requires model { typed.now ≡ J.model }
    requires known { IfOk known (λ copies. copies.items ≡ order.known) }
{
    if !do_commands_call_known_operations(typed, order.commands.as_slice()) {
        return Err(DriveFault::NoThread);
    }
    let commands = order.commands.as_slice();
    let replies = call_commands_while_replies_are_values(
        alloc,
        typed,
        system.system(),
        site,
        commands,
        known?,
    )?;
    Ok(Delivery::new(order, replies))
}

/// Runs an order after each ring, and ends at a ring without an order.
fn run_work_orders_until_dismissed<J: Relations, S: Subject, R: Wait>(
    alloc: Global,
    typed: &Typed,
    system: &RwLock<SystemWithRelations<J, S>>,
    arrivals: &StartBarrier,
    desk: &Desk<J>,
    site: CallSite,
)
    requires { typed.now ≡ J.model }
{
    let waiter = WaitHandle::<R>::new();
    let mut seen = 0;
    for _ in waiter.forever() {
        seen = desk.asked.wait_for_new_ring::<R>(seen);
        let order = desk.order.lock(&waiter).take();
        let Some(order) = order else {
            return;
        };
        let known = copy_known_results_with_spare_capacity(alloc, &order);
        let held = system.read(&waiter);
        arrivals.arrive_and_wait_with_limit::<R>();
        let done = run_work_order(alloc, typed, &*held, site, order, known);
        drop(held);
        *desk.done.lock(&waiter) = Some(done);
        desk.answered.ring();
    }
}

/// What is `Sync` may be shared by threads.
fn prove_sync<T: Sync>()
    ensures { IsSync T.row }
{}

/// What is `Send` may be sent to threads.
fn prove_send<T: Send>()
    ensures { IsSend T.row }
{}

/// Starts the thread of branch `number`, and returns whether it started.
fn start_crew_branch_thread<'s, E, J: Relations + Send + Sync, S: Subject + Send + Sync, R: Wait>(
    _rt: &'s R,
    alloc: Global,
    scope: &Scope<'s, E>,
    typed: &'s Typed,
    crew: &'s Crew<J, S>,
    number: u32,
) -> bool
    requires { typed.now ≡ J.model }
{
    prove_model_is_sync(typed);
    prove_send::<Command>();
    prove_send::<Value>();
    prove_send::<WorkOrder>();
    prove_send::<Delivery<J>>();
    prove_sync::<Mutex<Option<WorkOrder>>>();
    prove_sync::<Mutex<Option<Result<Delivery<J>, DriveFault>>>>();
    prove_sync::<Desk<J>>();
    prove_sync::<CallClock>();
    prove_send::<SystemWithRelations<J, S>>();
    prove_sync::<SystemWithRelations<J, S>>();
    prove_sync::<RwLock<SystemWithRelations<J, S>>>();
    let Some(desk) = crew.desks.get(number) else {
        return false;
    };
    let system = &crew.system;
    let arrivals = &crew.arrivals;
    let site = CallSite {
        branch: number,
        clock: crew.clock.as_ref(),
    };
    let run = move ||
        requires { typed.now ≡ J.model }
    { run_work_orders_until_dismissed::<J, S, R>(alloc, typed, system, arrivals, desk, site) };
    let stack = Stack::new().stack_size(STACK_BYTES);
    stack.spawn_scoped_with(scope, Anything, run).is_ok()
}

/// Starts the threads of `count` branches in a scope, for a crew of which none has started. They run by the
/// model. Returns whether all have started. If one cannot be started, no later one is tried, and drives that need
/// any of these return `NoThread`.
pub fn start_crew<'s, E, J: Relations + Send + Sync, S: Subject + Send + Sync, R: Threads + Wait>(
    rt: &'s R,
    alloc: Global,
    scope: &Scope<'s, E>,
    typed: &'s Typed,
    crew: &'s Crew<J, S>,
    count: u32,
) -> bool
    requires { typed.now ≡ J.model }
{
    for number in 0..count {
        if !start_crew_branch_thread(rt, alloc, scope, typed, crew, number) {
            return false;
        }
        crew.started.fetch_add(1, Ordering::SeqCst);
    }
    true
}
