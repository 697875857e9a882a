//! Systems that only tests use.

use pst_system::{CallFault, RealCall, System};
use pst_value::{Boxed, Text, Value};
use std::alloc::{AllocError, Global};
use std::sync::atomic::{AtomicBool, AtomicU64, Ordering};
use std::thread;

/// Raises a flag, and looks for two others up to `looks` times.
fn raise_flag_then_look_for_others(
    own: &AtomicBool,
    one: &AtomicBool,
    other: &AtomicBool,
    looks: u32,
) -> bool {
    own.store(true, Ordering::SeqCst);
    for _ in 0..looks {
        if one.load(Ordering::SeqCst) && other.load(Ordering::SeqCst) {
            return true;
        }
        thread::yield_now();
    }
    false
}

/// Three flags, or two and a third that is always raised. `meet n`, n from 1 to 3, raises flag n, looks for both other
/// flags, yielding, and answers whether it saw them.
#[derive(Drop)]
pub struct MeetingFlags {
    first: AtomicBool,
    second: AtomicBool,
    third: AtomicBool,
    is_third_always_raised: bool,
    looks: u32,
}

impl MeetingFlags {
    /// Flags that are not raised. `meet` looks for the other flags at most `looks` times.
    pub fn new(is_third_always_raised: bool, looks: u32) -> MeetingFlags {
        MeetingFlags {
            first: AtomicBool::new(false),
            second: AtomicBool::new(false),
            third: AtomicBool::new(is_third_always_raised),
            is_third_always_raised,
            looks,
        }
    }
}

impl System for MeetingFlags {
    ghost use Rattle.std.specs.Prelude.{⊤};

    ghost answers = { λ _ _ _. ⊤ };

    ghost fails = { λ _ _ _. ⊤ };

    ghost reset_fails = { λ _ _. ⊥ };

    fn reset(&mut self) -> Result<(), CallFault> {
        self.first.store(false, Ordering::SeqCst);
        self.second.store(false, Ordering::SeqCst);
        self.third
            .store(self.is_third_always_raised, Ordering::SeqCst);
        Ok(())
    }

    fn call(&self, call: &RealCall) -> Result<Value, CallFault> {
        let (first, second, third) = (&self.first, &self.second, &self.third);
        match call.args.as_slice() {
            [Value::Int(1)] => Ok(Value::Bool(raise_flag_then_look_for_others(
                first, second, third, self.looks,
            ))),
            [Value::Int(2)] => Ok(Value::Bool(raise_flag_then_look_for_others(
                second, first, third, self.looks,
            ))),
            [Value::Int(3)] => Ok(Value::Bool(raise_flag_then_look_for_others(
                third, first, second, self.looks,
            ))),
            _ => Err(CallFault::Refused),
        }
    }
}

/// `meet 2` passes a baton, and `meet 3` waits for it, yielding, up to 10,000,000 looks. All answer `true`.
#[derive(Drop)]
pub struct Relay {
    is_passed: AtomicBool,
}

impl Relay {
    /// The baton is not passed.
    pub fn new() -> Relay {
        Relay {
            is_passed: AtomicBool::new(false),
        }
    }

    /// Waits until the baton is passed.
    fn wait_for_baton(&self) {
        for _ in 0..10_000_000u32 {
            if self.is_passed.load(Ordering::SeqCst) {
                return;
            }
            thread::yield_now();
        }
    }
}

impl System for Relay {
    ghost use Rattle.std.specs.Prelude.{⊤};

    ghost answers = { λ _ _ _. ⊤ };

    ghost fails = { λ _ _ _. ⊤ };

    ghost reset_fails = { λ _ _. ⊥ };

    fn reset(&mut self) -> Result<(), CallFault> {
        self.is_passed.store(false, Ordering::SeqCst);
        Ok(())
    }

    fn call(&self, call: &RealCall) -> Result<Value, CallFault> {
        match call.args.as_slice() {
            [Value::Int(2)] => self.is_passed.store(true, Ordering::SeqCst),
            [Value::Int(3)] => self.wait_for_baton(),
            _ => {}
        }
        Ok(Value::Bool(true))
    }
}

/// Answers, counting on over resets, variable 1, then a reference to 1, then a text of 65,537 bytes.
#[derive(Drop)]
pub struct CountedOddAnswers {
    alloc: Global,
    calls: AtomicU64,
}

impl CountedOddAnswers {
    /// No call was made.
    pub fn new(alloc: Global) -> CountedOddAnswers {
        CountedOddAnswers {
            alloc,
            calls: AtomicU64::new(0),
        }
    }
}

fn text_past_length_limit(alloc: Global) -> Result<Text, AllocError> {
    let mut text = Text::new(alloc);
    for _ in 0..65_537u32 {
        text.push(b'a')?;
    }
    Ok(text)
}

/// An answer that is of no type, by its number from 0.
fn odd_answer_by_number(alloc: Global, number: u64) -> Result<Value, AllocError> {
    match number {
        0 => Ok(Value::Var(1)),
        1 => Ok(Value::Ref(1, Boxed::new(alloc, Value::Int(1))?)),
        _ => Ok(Value::Text(text_past_length_limit(alloc)?)),
    }
}

impl System for CountedOddAnswers {
    ghost use Rattle.std.specs.Prelude.{⊤};

    ghost answers = { λ _ _ _. ⊤ };

    ghost fails = { λ _ _ _. ⊤ };

    ghost reset_fails = { λ _ _. ⊥ };

    fn reset(&mut self) -> Result<(), CallFault> {
        Ok(())
    }

    fn call(&self, _call: &RealCall) -> Result<Value, CallFault> {
        let number = self.calls.fetch_add(1, Ordering::SeqCst);
        match odd_answer_by_number(self.alloc, number) {
            Ok(value) => Ok(value),
            Err(AllocError) => Err(CallFault::NoMemory),
        }
    }
}

/// Answers the first argument of each call, and refuses a call without arguments.
#[derive(Drop)]
pub struct Echo {
    alloc: Global,
}

impl Echo {
    /// With the allocator of its answers.
    pub fn new(alloc: Global) -> Echo {
        Echo { alloc }
    }
}

impl System for Echo {
    ghost use Rattle.std.specs.Prelude.{⊤};

    ghost answers = { λ _ _ _. ⊤ };

    ghost fails = { λ _ _ _. ⊤ };

    ghost reset_fails = { λ _ _. ⊥ };

    fn reset(&mut self) -> Result<(), CallFault> {
        Ok(())
    }

    fn call(&self, call: &RealCall) -> Result<Value, CallFault> {
        let Some(first) = call.args.as_slice().first() else {
            return Err(CallFault::Refused);
        };
        match first.copy(self.alloc) {
            Ok(value) => Ok(value),
            Err(_) => Err(CallFault::NoMemory),
        }
    }
}
