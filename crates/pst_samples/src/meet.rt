//! Systems by which a test sees that two calls are made at once, and the two flags that they raise.

use crate::asked::side_of_meet_call;
use pst_system::{CallFault, RealCall, System};
use pst_value::Value;
use std::alloc::Global;
use std::sync::Arc;
use std::sync::atomic::{AtomicBool, Ordering};
use std::thread;

/// Two flags, by which a test sees that two threads call at once.
///
/// `meet n`, n 1 or 2, raises flag n, looks up to 10,000,000 turns for the other, yielding, and answers whether it saw it.
#[derive(Drop)]
pub struct Meet {
    flags: Flags,
}

impl Meet {
    /// Two flags that are not raised.
    pub fn new() -> Meet {
        Meet {
            flags: Flags::new(),
        }
    }
}

impl System for Meet {
    ghost use Rattle.pst_samples.specs.Samples.{meet_answers, meet_fails};

    ghost answers = { λ _ c v. meet_answers c v };

    ghost fails = { λ _ c f. meet_fails c f };

    ghost reset_fails = { λ _ _. ⊥ };

    fn reset(&mut self) -> Result<(), CallFault> {
        self.flags.lower_both_flags();
        Ok(())
    }

    fn call(&self, call: &RealCall) -> Result<Value, CallFault> {
        match side_of_meet_call(call) {
            Some(side) => Ok(Value::Bool(self.flags.meet(side))),
            None => Err(CallFault::Refused),
        }
    }
}

/// One side of two flags that it shares with another system, by which a test sees that two systems are called
/// at once.
///
/// `meet n`, n 1 or 2, raises the flag of its side, whatever n is, looks up to 10,000,000 times for the other,
/// yielding, and answers whether it saw it. A reset changes nothing.
#[derive(Drop)]
pub struct Pair {
    side: Side,
    flags: Arc<Flags, Global>,
}

impl Pair {
    /// A side of flags that another system shares.
    pub fn new(side: Side, flags: Arc<Flags, Global>) -> Pair {
        Pair { side, flags }
    }
}

impl System for Pair {
    ghost use Rattle.pst_samples.specs.Samples.{meet_answers, meet_fails};

    ghost answers = { λ _ c v. meet_answers c v };

    ghost fails = { λ _ c f. meet_fails c f };

    ghost reset_fails = { λ _ _. ⊥ };

    fn reset(&mut self) -> Result<(), CallFault> {
        Ok(())
    }

    fn call(&self, call: &RealCall) -> Result<Value, CallFault> {
        match side_of_meet_call(call) {
            Some(_) => Ok(Value::Bool(self.flags.meet(self.side))),
            None => Err(CallFault::Refused),
        }
    }
}

/// How many times a call looks for the other flag.
const LOOKS: u32 = 10_000_000;

/// One of two callers that meet.
#[derive(Clone, Copy, Debug, PartialEq, Eq, Drop)]
pub enum Side {
    First,
    Second,
}

/// A flag for each side.
#[derive(Drop)]
pub struct Flags {
    first: AtomicBool,
    second: AtomicBool,
}

impl Flags {
    /// Two flags that are not raised.
    pub fn new() -> Flags {
        Flags {
            first: AtomicBool::new(false),
            second: AtomicBool::new(false),
        }
    }

    /// Lowers both flags.
    pub fn lower_both_flags(&self) {
        self.first.store(false, Ordering::SeqCst);
        self.second.store(false, Ordering::SeqCst);
    }

    /// Raises the flag of a side, and looks up to 10,000,000 times for the other, yielding after each. Returns
    /// whether it saw it.
    pub fn meet(&self, side: Side) -> bool {
        match side {
            Side::First => raise_flag_and_look_for_other(&self.first, &self.second),
            Side::Second => raise_flag_and_look_for_other(&self.second, &self.first),
        }
    }
}

fn raise_flag_and_look_for_other(mine: &AtomicBool, other: &AtomicBool) -> bool {
    mine.store(true, Ordering::SeqCst);
    for _ in 0..LOOKS {
        if other.load(Ordering::SeqCst) {
            return true;
        }
        thread::yield_now();
    }
    false
}
