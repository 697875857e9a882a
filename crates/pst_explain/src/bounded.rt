//! The callbacks of a model with a limit on their steps.
ghost use Rattle.std.specs.Prelude.{◌≡◌};

use pst_eval::Callbacks;
use pst_value::{Fault, Value};
use std::alloc::{AllocError, Global};
use std::cell::Cell;

/// The result of a callback: a value and the turns left, or a fault.
type Answer = Result<Result<(Value, u32), Fault>, AllocError>;

/// The turns that a callback starts with.
const MAX_TURNS: u32 = 1_000_000;

/// A call takes one more step for each group of this number of values in the state.
const VALUES_IN_A_STEP: u64 = 16;

/// A call of `command` takes this number of steps more for each value in its list: each call of the list is built, and
/// then copied for a choice.
const STEPS_OF_A_LISTED_VALUE: u64 = 4;

/// Callbacks with a limit on their steps. A call of a callback takes one step, one more for each of its turns, and one
/// more for every 16 values in the last state. A call of `command` takes four more for each value in its list of calls.
/// If no steps are left, a call returns `AllocError`, which ends what calls it, and `has_failed_for_lack_of_steps`
/// returns true from then on.
#[derive(Drop)]
pub struct StepLimitedCallbacks<'a, C> {
    callbacks: &'a C,
    steps_left: Cell<u64>,
    /// The steps that each call takes for the size of the last state.
    steps_of_state: Cell<u64>,
    /// The most steps of a call so far.
    most_of_a_call: Cell<u64>,
    /// How many times `most_of_a_call` a call of `next` takes on top.
    further_calls: Cell<u64>,
    has_run_out: Cell<bool>,
}

/// The steps of a call that ended. Of the faults, only `Turns` says how many turns were taken.
fn count_steps_of_ended_callback(ended: &Result<(Value, u32), Fault>) -> u64 {
    let turns = match ended {
        Ok((_, left)) => MAX_TURNS.saturating_sub(*left),
        Err(Fault::Turns) => MAX_TURNS,
        Err(_) => 0,
    };
    u64::from(turns).saturating_add(1)
}

/// The size of a value, for counting steps: 1 for each value in it and for itself, and 1 for each 8 bytes of a text. Keys
/// are free.
#[cycle(size)]
fn value_size_for_step_limit(value: &Value) -> u64 {
    let inner = match value {
        Value::Tuple(parts) | Value::List(parts) | Value::Call(_, parts) =>
            total_value_size_for_step_limit(parts.as_slice()),
        Value::Map(_, values) => total_value_size_for_step_limit(values.get().as_slice()),
        Value::Ref(_, value) => value_size_for_step_limit(value.get()),
        Value::Text(text) => (text.as_bytes().len() / 8) as u64,
        _ => 0,
    };
    inner.saturating_add(1)
}

/// How many values are in `values`, themselves among them.
#[cycle(size)]
fn total_value_size_for_step_limit(values: &[Value]) -> u64 {
    let mut sum: u64 = 0;
    for value in values {
        sum = sum.saturating_add(value_size_for_step_limit(value));
    }
    sum
}

impl<'a, C: Callbacks> StepLimitedCallbacks<'a, C> {
    /// The callbacks `callbacks`, which may take `steps` steps.
    pub fn new(callbacks: &'a C, steps: u64) -> StepLimitedCallbacks<'a, C>
        ensures { result.callbacks.now ≡ callbacks.now }
    {
        StepLimitedCallbacks {
            callbacks,
            steps_left: Cell::new(steps),
            steps_of_state: Cell::new(0),
            most_of_a_call: Cell::new(0),
            further_calls: Cell::new(0),
            has_run_out: Cell::new(false),
        }
    }

    /// How many steps are left.
    pub fn steps_left(&self) -> u64 {
        self.steps_left.get()
    }

    /// Whether a call had no steps left.
    pub fn has_failed_for_lack_of_steps(&self) -> bool {
        self.has_run_out.get()
    }

    /// Returns `AllocError` if no steps are left, and `has_failed_for_lack_of_steps` is true from then on. Takes no steps.
    pub fn note_and_fail_if_out_of_steps(&self) -> Result<(), AllocError> {
        if self.steps_left.get() == 0 {
            self.has_run_out.set(true);
            return Err(AllocError);
        }
        Ok(())
    }

    /// Takes `steps` steps, or those that are left.
    fn charge_steps_saturating(&self, steps: u64) {
        let left = self.steps_left.get();
        self.steps_left.set(left.saturating_sub(steps));
    }

    /// Takes the steps of `calls` callbacks that something else evaluates. Each counts as the longest call so far.
    /// Returns `AllocError` if no steps are left.
    pub fn charge_calls_like_longest_or_fail(&self, calls: usize) -> Result<(), AllocError> {
        self.note_and_fail_if_out_of_steps()?;
        let steps = self.most_of_a_call.get().saturating_mul(calls as u64);
        self.charge_steps_saturating(steps);
        Ok(())
    }

    /// From now on a call of `next` takes the steps of `calls` further callbacks, which something else evaluates.
    pub fn set_extra_calls_charged_per_state(&self, calls: u64) {
        self.further_calls.set(calls);
    }

    /// Takes the steps of a call that ended, with those for the size of the last state. Keeps their number if it is the
    /// greatest of a call so far.
    fn charge_call_and_note_longest(&self, ended: &Result<(Value, u32), Fault>) {
        let steps = count_steps_of_ended_callback(ended).saturating_add(self.steps_of_state.get());
        if steps > self.most_of_a_call.get() {
            self.most_of_a_call.set(steps);
        }
        self.charge_steps_saturating(steps);
    }

    /// Takes the steps of a call that ended, and whose value, if it does not fault, is a state: this call and those
    /// after it take the steps for its size. Then takes the steps of the further calls.
    fn measure_state_and_charge_calls(&self, ended: &Result<(Value, u32), Fault>) {
        if let Ok((state, _)) = ended {
            self.steps_of_state
                .set(value_size_for_step_limit(state) / VALUES_IN_A_STEP);
        }
        self.charge_call_and_note_longest(ended);
        let further = self.further_calls.get();
        self.charge_steps_saturating(further.saturating_mul(self.most_of_a_call.get()));
    }

    /// Takes the steps for the size of the value of a call that ended, if it does not fault: a list of calls.
    fn charge_listed_calls(&self, ended: &Result<(Value, u32), Fault>) {
        if let Ok((calls, _)) = ended {
            let values = value_size_for_step_limit(calls);
            self.charge_steps_saturating(values.saturating_mul(STEPS_OF_A_LISTED_VALUE));
        }
    }

    /// The result of a search on these callbacks, or `None` if the search ended because no steps were left.
    pub fn none_if_out_of_steps<T>(
        &self,
        found: Result<T, AllocError>,
    ) -> Result<Option<T>, AllocError> {
        match found {
            Ok(found) => Ok(Some(found)),
            Err(AllocError) => {
                if self.has_failed_for_lack_of_steps() {
                    Ok(None)
                } else {
                    Err(AllocError)
                }
            }
        }
    }
}

impl<'a, C: Callbacks> Callbacks for StepLimitedCallbacks<'a, C> {
    ghost model = { λ b. C.model b.callbacks.now };

    fn next_names_result(&self, op: u32) -> bool {
        self.callbacks.next_names_result(op)
    }

    fn init(&self, alloc: Global) -> Answer {
        self.note_and_fail_if_out_of_steps()?;
        let answer = self.callbacks.init(alloc)?;
        self.measure_state_and_charge_calls(&answer);
        Ok(answer)
    }

    fn command(&self, alloc: Global, state: &Value) -> Answer {
        self.note_and_fail_if_out_of_steps()?;
        let answer = self.callbacks.command(alloc, state)?;
        self.charge_call_and_note_longest(&answer);
        self.charge_listed_calls(&answer);
        Ok(answer)
    }

    fn pre(&self, alloc: Global, op: u32, state: &Value, arguments: &[Value]) -> Answer {
        self.note_and_fail_if_out_of_steps()?;
        let answer = self.callbacks.pre(alloc, op, state, arguments)?;
        self.charge_call_and_note_longest(&answer);
        Ok(answer)
    }

    fn next(
        &self,
        alloc: Global,
        op: u32,
        state: &Value,
        arguments: &[Value],
        r: &Value,
    ) -> Answer {
        self.note_and_fail_if_out_of_steps()?;
        let answer = self.callbacks.next(alloc, op, state, arguments, r)?;
        self.measure_state_and_charge_calls(&answer);
        Ok(answer)
    }

    fn post(
        &self,
        alloc: Global,
        op: u32,
        state: &Value,
        arguments: &[Value],
        r: &Value,
    ) -> Answer {
        self.note_and_fail_if_out_of_steps()?;
        let answer = self.callbacks.post(alloc, op, state, arguments, r)?;
        self.charge_call_and_note_longest(&answer);
        Ok(answer)
    }
}
