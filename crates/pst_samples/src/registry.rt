//! The system `registry`.
ghost use Rattle.std.specs.Prelude.{◌≡◌, MatchResult};
ghost use Rattle.pst_samples.specs.Calls.{IsInt};
ghost use Rattle.pst_system.specs.declared.system.CallFault.TheVariants.{NoMemory};

use crate::asked::{is_call_without_arguments, sole_integer_argument_of_call};
use pst_system::{CallFault, RealCall, System};
use pst_value::Value;
use std::alloc::Global;
use std::mem;
use std::sync::{Mutex, Wait};

/// Numbers that are opened and closed, under a lock.
///
/// `new` opens and answers the numbers 0, 1, .. in turn, or fails if an allocation fails. `close h` closes h
/// and answers whether it was open. `read h` answers h if it is open, else -1.
#[derive(Drop)]
pub struct Registry<R: Wait> {
    rt: R,
    /// For each number that was opened, whether it still is.
    numbers: Mutex<Vec<bool>>,
}

impl<R: Wait> Registry<R> {
    /// A registry that has opened no number, with the handle that its lock waits by. Takes no memory.
    pub fn new(rt: R, alloc: Global) -> Registry<R> {
        Registry {
            rt,
            numbers: Mutex::new(Vec::new(alloc)),
        }
    }

    fn open_number(&self) -> Result<Value, CallFault>
        ensures { MatchResult result IsInt (λ f. f ≡ NoMemory) }
    {
        let mut numbers = self.numbers.lock(&self.rt);
        let Ok(number) = i64::try_from(numbers.len()) else {
            return Err(CallFault::NoMemory);
        };
        match numbers.push(true) {
            Ok(()) => Ok(Value::Int(number)),
            Err(_) => Err(CallFault::NoMemory),
        }
    }

    /// Closes a number: whether it was open.
    fn close_number(&self, number: i64) -> bool {
        let Ok(at) = usize::try_from(number) else {
            return false;
        };
        match self.numbers.lock(&self.rt).get_mut(at) {
            Some(is_open) => mem::replace(is_open, false),
            None => false,
        }
    }

    fn is_open(&self, number: i64) -> bool {
        let Ok(at) = usize::try_from(number) else {
            return false;
        };
        self.numbers
            .lock(&self.rt)
            .get(at)
            .copied()
            .unwrap_or(false)
    }
}

impl<R: Wait + Drop + Send + Sync> System for Registry<R> {
    ghost use Rattle.pst_samples.specs.Samples.{registry_answers, registry_fails};

    ghost answers = { λ _ c v. registry_answers c v };

    ghost fails = { λ _ c f. registry_fails c f };

    ghost reset_fails = { λ _ _. ⊥ };

    fn reset(&mut self) -> Result<(), CallFault> {
        self.numbers.get_mut().clear();
        Ok(())
    }

    fn call(&self, call: &RealCall) -> Result<Value, CallFault> {
        if is_call_without_arguments(call, "new") {
            return self.open_number();
        }
        if let Some(number) = sole_integer_argument_of_call(call, "close") {
            return Ok(Value::Bool(self.close_number(number)));
        }
        if let Some(number) = sole_integer_argument_of_call(call, "read") {
            let answer = if self.is_open(number) { number } else { -1 };
            return Ok(Value::Int(answer));
        }
        Err(CallFault::Refused)
    }
}
