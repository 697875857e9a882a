//! The system `queue`.
ghost use Rattle.std.specs.Prelude.{◌≡◌, MatchResult, IfOk};
ghost use Rattle.pst_samples.specs.Calls.{AreAtMostOneInt};

use crate::asked::{is_call_without_arguments, sole_integer_argument_of_call};
use pst_system::{CallFault, RealCall, System};
use pst_value::{Items, Value};
use std::alloc::{AllocError, Global};
use std::collections::VecDeque;
use std::sync::{Mutex, Wait};

/// The maximum number of items of a queue.
pub const ROOM: usize = 1024;

/// A queue of integers, under a lock.
///
/// `put x` adds x at the end and answers true, or is refused at `ROOM` items. `take` takes the oldest item and
/// answers a list of it, or the empty list. Both fail if an allocation fails, and then leave the queue as it
/// was.
#[derive(Drop)]
pub struct Queue<R: Wait> {
    rt: R,
    alloc: Global,
    items: Mutex<VecDeque<i64>>,
}

impl<R: Wait> Queue<R> {
    /// The empty queue, with the handle that its lock waits by. Takes no memory.
    pub fn new(rt: R, alloc: Global) -> Queue<R> {
        Queue {
            rt,
            alloc,
            items: Mutex::new(VecDeque::new(alloc)),
        }
    }

    /// Adds an item at the end, unless the queue is full. Returns whether there was room.
    fn put(&self, item: i64) -> Result<bool, AllocError> {
        let mut items = self.items.lock(&self.rt);
        if items.len() >= ROOM {
            return Ok(false);
        }
        items.push_back(item)?;
        Ok(true)
    }

    /// Takes the oldest item, if there is one.
    fn take_oldest(&self) -> Result<Items<Value>, AllocError>
        ensures { IfOk result AreAtMostOneInt }
    {
        let mut items = self.items.lock(&self.rt);
        let mut taken = Items::new(self.alloc);
        if let Some(oldest) = items.front().copied() {
            taken.push(Value::Int(oldest))?;
            items.pop_front();
        }
        Ok(taken)
    }
}

impl<R: Wait + Drop + Send + Sync> System for Queue<R> {
    ghost use Rattle.pst_samples.specs.Samples.{queue_answers, queue_fails};

    ghost answers = { λ _ c v. queue_answers c v };

    ghost fails = { λ _ c f. queue_fails c f };

    ghost reset_fails = { λ _ _. ⊥ };

    fn reset(&mut self) -> Result<(), CallFault> {
        self.items.get_mut().clear();
        Ok(())
    }

    fn call(&self, call: &RealCall) -> Result<Value, CallFault> {
        if is_call_without_arguments(call, "take") {
            return match self.take_oldest() {
                Ok(items) => Ok(Value::List(items)),
                Err(AllocError) => Err(CallFault::NoMemory),
            };
        }
        if let Some(item) = sole_integer_argument_of_call(call, "put") {
            return match self.put(item) {
                Ok(true) => Ok(Value::Bool(true)),
                Ok(false) => Err(CallFault::Refused),
                Err(AllocError) => Err(CallFault::NoMemory),
            };
        }
        Err(CallFault::Refused)
    }
}
