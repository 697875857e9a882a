//! The systems `counter`, `racy` and `stuck`, which take the calls `inc` and `get`.
ghost use Rattle.std.specs.Prelude.{◌≡◌, MatchResult};
ghost use Rattle.pst_samples.specs.Calls.{IsInt};
ghost use Rattle.pst_system.specs.declared.system.CallFault.TheVariants.{Refused};

use crate::asked::is_call_without_arguments;
use pst_system::{CallFault, RealCall, System};
use pst_value::Value;
use std::sync::atomic::{AtomicI64, Ordering};
use std::sync::{Mutex, Wait};
use std::thread;

/// A number under a lock, from 0.
///
/// `inc` adds 1 and answers the new number, or is refused at the greatest number of 64 bits; `get` answers the number.
#[derive(Drop)]
pub struct Counter<R: Wait> {
    rt: R,
    number: Mutex<i64>,
}

impl<R: Wait> Counter<R> {
    /// The counter at 0, with the handle that its lock waits by.
    pub fn new(rt: R) -> Counter<R> {
        Counter {
            rt,
            number: Mutex::new(0),
        }
    }

    fn increment(&self) -> Result<Value, CallFault>
        ensures { MatchResult result IsInt (λ f. f ≡ Refused) }
    {
        let mut number = self.number.lock(&self.rt);
        let Some(next) = number.checked_add(1) else {
            return Err(CallFault::Refused);
        };
        *number = next;
        Ok(Value::Int(next))
    }
}

impl<R: Wait + Drop + Send + Sync> System for Counter<R> {
    ghost use Rattle.pst_samples.specs.Samples.{counter_answers, counter_fails};

    ghost answers = { λ _ c v. counter_answers c v };

    ghost fails = { λ _ c f. counter_fails c f };

    ghost reset_fails = { λ _ _. ⊥ };

    fn reset(&mut self) -> Result<(), CallFault> {
        *self.number.get_mut() = 0;
        Ok(())
    }

    fn call(&self, call: &RealCall) -> Result<Value, CallFault> {
        if is_call_without_arguments(call, "get") {
            let number = *self.number.lock(&self.rt);
            return Ok(Value::Int(number));
        }
        if is_call_without_arguments(call, "inc") {
            return self.increment();
        }
        Err(CallFault::Refused)
    }
}

/// A number that `inc` loads, yields and stores again, so that two threads can lose an increase.
///
/// Its calls are those of `Counter`.
#[derive(Drop)]
pub struct Racy {
    number: AtomicI64,
}

impl Racy {
    /// The number 0.
    pub fn new() -> Racy {
        Racy {
            number: AtomicI64::new(0),
        }
    }

    fn increment_racily(&self) -> Result<Value, CallFault>
        ensures { MatchResult result IsInt (λ f. f ≡ Refused) }
    {
        let number = self.number.load(Ordering::SeqCst);
        thread::yield_now();
        let Some(next) = number.checked_add(1) else {
            return Err(CallFault::Refused);
        };
        self.number.store(next, Ordering::SeqCst);
        Ok(Value::Int(next))
    }
}

impl System for Racy {
    ghost use Rattle.pst_samples.specs.Samples.{counter_answers, counter_fails};

    ghost answers = { λ _ c v. counter_answers c v };

    ghost fails = { λ _ c f. counter_fails c f };

    ghost reset_fails = { λ _ _. ⊥ };

    fn reset(&mut self) -> Result<(), CallFault> {
        self.number.store(0, Ordering::SeqCst);
        Ok(())
    }

    fn call(&self, call: &RealCall) -> Result<Value, CallFault> {
        if is_call_without_arguments(call, "get") {
            return Ok(Value::Int(self.number.load(Ordering::SeqCst)));
        }
        if is_call_without_arguments(call, "inc") {
            return self.increment_racily();
        }
        Err(CallFault::Refused)
    }
}

/// A counter that never counts: `inc` and `get` answer 0.
#[derive(Clone, Copy, Debug, PartialEq, Eq, Drop)]
pub struct Stuck;

impl System for Stuck {
    ghost use Rattle.pst_samples.specs.Samples.{stuck_answers, stuck_fails};

    ghost answers = { λ _ c v. stuck_answers c v };

    ghost fails = { λ _ c f. stuck_fails c f };

    ghost reset_fails = { λ _ _. ⊥ };

    fn reset(&mut self) -> Result<(), CallFault> {
        Ok(())
    }

    fn call(&self, call: &RealCall) -> Result<Value, CallFault> {
        if is_call_without_arguments(call, "inc") || is_call_without_arguments(call, "get") {
            Ok(Value::Int(0))
        } else {
            Err(CallFault::Refused)
        }
    }
}
