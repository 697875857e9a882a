//! The place where a branch thread finds its branch and leaves the replies, and the bell that wakes threads.
ghost use Rattle.std.specs.Prelude.{◌≡◌, IfOk, IfErr, IfSome};
ghost use Rattle.pst_driver.specs.Progress.{PartRuns, IsPartFault};

use crate::driving::DriveFault;
use crate::subject::Relations;
use crate::waiting::WaitHandle;
use pst_case::{Command, Reply};
use pst_value::{Items, Value};
use std::hint::spin_loop;
use std::marker::{Model, PhantomData};
use std::sync::atomic::{AtomicU64, Ordering};
use std::sync::{Mutex, Wait};

/// A branch to run, and the results that are known before it.
#[derive(Drop)]
pub(crate) struct WorkOrder {
    pub commands: Items<Command>,
    pub known: Items<Option<Value>>,
}

/// A branch that was run. Contracts see it as the order and its replies.
#[derive(Drop)]
pub(crate) struct Delivery<J: Relations> {
    order: WorkOrder,
    replies: Items<Reply>,
    of: PhantomData<J>,
}

impl<J: Relations> Model for Delivery<J> {
    ghost use Rattle.std.specs.Prelude.{List};
    ghost use Rattle.std.specs.Coded.{codes};
    ghost use Rattle.pst_case.specs.contracts.history.Reply as reply_coding;
    ghost use Rattle.pst_case.specs.declared.history.Reply.{Reply};
    ghost use Rattle.pst_driver.specs.Progress.{PartRuns};
    ghost use Rattle.pst_driver.specs.contracts.desk.WorkOrder as order_coding;
    ghost use Rattle.pst_driver.specs.declared.desk.WorkOrder.{WorkOrder};

    ghost Value = { WorkOrder × List Reply };

    ghost coded = { Prim.hlevel (codes, order_coding.the_row.coded, reply_coding.the_row.coded) };

    ghost view = { λ d. (d.order, d.replies) };

    ghost invariant = { λ d.
        PartRuns J.model J.answering J.failing d.order.known d.order.commands d.replies };
}

impl<J: Relations> Delivery<J> {
    /// An order that was run, with its replies.
    pub(crate) fn new(order: WorkOrder, replies: Items<Reply>) -> Delivery<J>
        requires { PartRuns J.model J.answering J.failing order.known order.commands replies }
    {
        Delivery {
            order,
            replies,
            of: PhantomData,
        }
    }

    /// The replies, if the order was to run these commands with these known results.
    fn replies_if_order_matches(
        self,
        commands: &Items<Command>,
        known: &Items<Option<Value>>,
    ) -> Option<Items<Reply>>
        ensures { IfSome result (λ rs. PartRuns J.model J.answering J.failing known.now commands.now rs) }
    {
        let Delivery {
            order,
            replies,
            of: _,
        } = self;
        if order.commands == *commands && order.known == *known {
            Some(replies)
        } else {
            None
        }
    }
}

/// The place of one kept thread. Its worker leaves an order there and rings; the thread leaves what came of it
/// and rings back. A ring with no order sends the thread home.
#[derive(Drop)]
pub(crate) struct Desk<J: Relations> {
    pub asked: Bell,
    pub answered: Bell,
    pub order: Mutex<Option<WorkOrder>>,
    pub done: Mutex<Option<Result<Delivery<J>, DriveFault>>>,
}

impl<J: Relations> Desk<J> {
    /// A place with no order.
    pub(crate) fn new() -> Desk<J> {
        Desk {
            asked: Bell::new(),
            answered: Bell::new(),
            order: Mutex::new(None),
            done: Mutex::new(None),
        }
    }

    /// Leaves an order, and rings. Returns the number of rings of the thread before the order.
    pub(crate) fn give_order_and_return_ring_count<R: Wait>(
        &self,
        rt: &R,
        order: WorkOrder,
    ) -> u64 {
        let seen = self.answered.ring_count();
        *self.order.lock(rt) = Some(order);
        self.asked.ring();
        seen
    }

    /// Waits until the thread has rung more than `seen` times, and takes the replies to these commands.
    /// `NoThread`: the thread ran other ones, or none. `NoMemory`: an allocation of the thread failed.
    pub(crate) fn await_and_take_matching_replies<R: Wait>(
        &self,
        rt: &R,
        seen: u64,
        commands: &Items<Command>,
        known: &Items<Option<Value>>,
    ) -> Result<Items<Reply>, DriveFault>
        ensures replies { IfOk result
            (λ rs. PartRuns J.model J.answering J.failing known.now commands.now rs) }
        ensures fault { IfErr result IsPartFault }
    {
        self.answered.wait_for_new_ring::<R>(seen);
        let done = self.done.lock(rt).take();
        match done {
            Some(Ok(delivery)) => match delivery.replies_if_order_matches(commands, known) {
                Some(replies) => Ok(replies),
                None => Err(DriveFault::NoThread),
            },
            Some(Err(DriveFault::NoMemory)) => Err(DriveFault::NoMemory),
            Some(Err(_)) | None => Err(DriveFault::NoThread),
        }
    }
}

/// How many times a thread looks at a bell before it sleeps.
const LOOKS: u32 = 500;

/// A counter of rings, which wakes the threads that wait for the next one.
#[derive(Drop)]
pub(crate) struct Bell {
    rung: AtomicU64,
    asleep: AtomicU64,
}

impl Bell {
    /// A bell that was never rung: its count is 0.
    pub(crate) fn new() -> Bell {
        Bell {
            rung: AtomicU64::new(0),
            asleep: AtomicU64::new(0),
        }
    }

    /// How often it was rung.
    pub(crate) fn ring_count(&self) -> u64 {
        self.rung.load(Ordering::SeqCst)
    }

    /// Adds one to the count, and wakes those that sleep.
    pub(crate) fn ring(&self) {
        self.rung.fetch_add(1, Ordering::SeqCst);
        if self.asleep.load(Ordering::SeqCst) != 0 {
            self.rung.wake_all();
        }
    }

    /// Waits until the count is not `seen`, and returns it: looks up to `LOOKS` times, and then sleeps.
    pub(crate) fn wait_for_new_ring<R: Wait>(&self, seen: u64) -> u64 {
        for _ in 0..LOOKS {
            let count = self.ring_count();
            if count != seen {
                return count;
            }
            spin_loop();
        }
        self.asleep.fetch_add(1, Ordering::SeqCst);
        let count = self.sleep_until_new_ring(&WaitHandle::<R>::new(), seen);
        self.asleep.fetch_sub(1, Ordering::SeqCst);
        count
    }

    /// Sleeps until the count is not `seen`, and returns it.
    fn sleep_until_new_ring<W: Wait>(&self, waiter: &W, seen: u64) -> u64 {
        for _ in waiter.forever() {
            let count = self.ring_count();
            if count != seen {
                return count;
            }
            self.rung.park(waiter, (seen & 0xffff_ffff) as u32);
        }
        unreachable!()
    }
}
