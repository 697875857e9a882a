//! What the crates of tests share: models and the reading of one, systems that answer wrongly, and a failing writer.
ghost use Rattle.std.specs.Prelude.{◌≡◌, Bool, List, ℕ, Option, Some, false};

use pst_model::Typed;
use pst_sexpr::{Failed, Sink};
use pst_system::{CallFault, RealCall, System};
use pst_typing::load;
use pst_value::Value;
use std::alloc::Global;
use std::sync::atomic::{AtomicI64, Ordering};

/// A counter: `inc` adds one and answers the new number, `get` answers it.
pub const COUNTER: &str = "(model counter (state int) (init 0)
  (command (list call (call inc) (call get)))
  (op inc () int (pre true) (next (+ s 1)) (post (= r (+ s 1))))
  (op get () int (pre true) (next s) (post (= r s))))";

/// A counter without `get`.
pub const ONE: &str = "(model one (state int) (init 0)
  (command (list call (call inc)))
  (op inc () int (pre true) (next (+ s 1)) (post (= r (+ s 1)))))";

/// A number that cannot grow.
pub const TOP: &str = "(model top (state int) (init 9223372036854775807)
  (command (list call (call up)))
  (op up () int (pre true) (next (+ s 1)) (post true)))";

/// Handles that are opened, read and closed.
pub const REGISTRY: &str = "(model registry (state (list (ref int))) (init (list (ref int)))
  (fun open ((xs (list (ref int))) (h (ref int))) bool
    (< 0 (len (for ((in x xs) (when (same x h))) x))))
  (command (++ (list call (call new))
               (for ((in x s)) (call close x))))
  (op new () int (pre true)
    (next (++ s (list (ref int) r))) (post true))
  (op close ((h (ref int))) bool (pre (open s h))
    (next (for ((in x s) (when (not (same x h)))) x)) (post r))
  (op read ((h (ref int))) int (pre (open s h))
    (next s) (post (= r (deref h)))))";

/// Operations with maps as results and as parameters.
pub const ATLAS: &str = "(model2 atlas (state int) (init 0) (command (list call))
  (op new () int (pre true) (next s) (post true))
  (op numbers () (map int (list int)) (pre true) (next s) (post true))
  (op words () (map text (map bool text)) (pre true) (next s) (post true))
  (op keep ((m (map text int)) (hs (map int (ref int)))) int (pre true) (next s) (post true)))";

/// Calls that are true if they meet.
pub const MEETING: &str = "(model meet (state int) (init 0)
  (command (list call (call meet 1)))
  (op meet ((n int)) bool (pre true) (next s) (post r)))";

/// A model whose operation answers a text.
pub const SAYING: &str = "(model say (state int) (init 0)
  (command (list call (call inc)))
  (op inc () text (pre true) (next s) (post true)))";

/// The well-typed model that a text begins with.
pub fn typed_model_of_text(alloc: Global, text: &str) -> Option<Typed> {
    let file = load(alloc, text.as_bytes()).ok()?.ok()?;
    Some(file.typed)
}

/// A system that answers `true` to every call.
#[derive(Drop)]
pub struct Liar;

impl System for Liar {
    ghost use Rattle.std.specs.Prelude.{⊤};

    ghost answers = { λ _ _ _. ⊤ };

    ghost fails = { λ _ _ _. ⊥ };

    ghost reset_fails = { λ _ _. ⊥ };

    fn reset(&mut self) -> Result<(), CallFault> {
        Ok(())
    }

    fn call(&self, _call: &RealCall) -> Result<Value, CallFault> {
        Ok(Value::Bool(true))
    }
}

/// A counter that refuses all calls but `inc`.
#[derive(Drop)]
pub struct CounterWithoutGet {
    count: AtomicI64,
}

impl CounterWithoutGet {
    /// Returns a counter at 0.
    pub fn new() -> CounterWithoutGet {
        CounterWithoutGet {
            count: AtomicI64::new(0),
        }
    }
}

impl System for CounterWithoutGet {
    ghost use Rattle.std.specs.Prelude.{⊤};

    ghost answers = { λ _ _ _. ⊤ };

    ghost fails = { λ _ _ _. ⊤ };

    ghost reset_fails = { λ _ _. ⊥ };

    fn reset(&mut self) -> Result<(), CallFault> {
        self.count.store(0, Ordering::SeqCst);
        Ok(())
    }

    fn call(&self, call: &RealCall) -> Result<Value, CallFault> {
        if call.name.as_str() != "inc" {
            return Err(CallFault::Refused);
        }
        let before = self.count.fetch_add(1, Ordering::SeqCst);
        Ok(Value::Int(before.saturating_add(1)))
    }
}

/// A system that answers 0 to every call, and refuses every reset after the first `left`.
#[derive(Drop)]
pub struct LimitedResets {
    left: u32,
}

impl LimitedResets {
    /// Returns a system that can be reset `left` times.
    pub fn new(left: u32) -> LimitedResets {
        LimitedResets { left }
    }
}

impl System for LimitedResets {
    ghost use Rattle.std.specs.Prelude.{⊤};

    ghost answers = { λ _ _ _. ⊤ };

    ghost fails = { λ _ _ _. ⊥ };

    ghost reset_fails = { λ _ _. ⊤ };

    fn reset(&mut self) -> Result<(), CallFault> {
        if self.left == 0 {
            return Err(CallFault::Refused);
        }
        self.left -= 1;
        Ok(())
    }

    fn call(&self, _call: &RealCall) -> Result<Value, CallFault> {
        Ok(Value::Int(0))
    }
}

/// A writer that takes `room` bytes, one at a time, and then fails.
#[derive(Drop)]
pub struct LimitedSink {
    pub bytes: Vec<u8>,
    pub room: usize,
    pub failed: bool,
}

impl LimitedSink {
    /// Returns a writer that fails after `room` bytes.
    pub fn new(alloc: Global, room: usize) -> LimitedSink
        ensures { result.failed ≡ false }
    {
        LimitedSink {
            bytes: Vec::new(alloc),
            room,
            failed: false,
        }
    }
}

impl Sink for LimitedSink {
    ghost taken = { λ short. Some short.bytes.items };

    ghost broken = { λ short. short.failed };

    fn put(&mut self, bytes: &[u8]) -> Result<usize, Failed> {
        if bytes.is_empty() {
            return Ok(0);
        }
        if self.bytes.len() >= self.room || self.bytes.push(bytes[0]).is_err() {
            self.failed = true;
            return Err(Failed);
        }
        Ok(1)
    }

    fn has_failed(&self) -> bool {
        self.failed
    }
}
