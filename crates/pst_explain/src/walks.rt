//! Interleavings with their states.
ghost use Rattle.pst_reasons.specs.Answered.{IsAnsweredRun};

use pst_eval::Callbacks;
use pst_judge::{Condition, Postconditions, verdict_with_interleaving_in_order};
use pst_reasons::{Order, RecordedRun, SomePostconditions, states};
use pst_scene::{
    Call, CasePart, DeadEnd, Outcome, PreAnswer, Scene, calls_in_interleaving_order,
    calls_that_may_come_next, evaluate_precondition, outcome_of_call_on_state,
    why_postcondition_is_not_true,
};
use pst_value::Value;
use std::alloc::{AllocError, Global};

/// A command of an interleaving.
#[derive(Drop)]
pub struct InterleavingStep<'a> {
    pub call: Call<'a>,
    /// The result of its precondition on the state before it.
    pub precondition: PreAnswer,
    /// The state after it.
    pub state: Value,
}

/// A command that cannot come next.
#[derive(Drop)]
pub struct BlockedCall<'a> {
    pub call: Call<'a>,
    pub why: DeadEnd<'a>,
}

/// An interleaving, up to the first command that cannot come next.
#[derive(Drop)]
pub struct InterleavingStates<'a> {
    /// The branches, from 0, of the letters that name the interleaving.
    pub interleaving: Vec<usize>,
    /// The initial state; `None` if `init` faults.
    pub start: Option<Value>,
    /// The commands in their order.
    pub steps: Vec<InterleavingStep<'a>>,
    /// Each command that may come after the last step and cannot.
    pub stopped: Vec<BlockedCall<'a>>,
}

impl<'a> InterleavingStates<'a> {
    /// The state after the last step, or the initial state if there is no step. `None` if there is neither.
    fn last_state(&self) -> Option<&Value> {
        match self.steps.as_slice().last() {
            Some(step) => Some(&step.state),
            None => match &self.start {
                Some(state) => Some(state),
                None => None,
            },
        }
    }
}

/// Returns the walk of `interleaving`, without any state.
pub fn interleaving_without_states<'a>(
    alloc: Global,
    interleaving: &[usize],
) -> Result<InterleavingStates<'a>, AllocError> {
    Ok(InterleavingStates {
        interleaving: Vec::from_slice(alloc, interleaving)?,
        start: None,
        steps: Vec::new(alloc),
        stopped: Vec::new(alloc),
    })
}

/// Returns the step of a command: `before` is the state before it, `state` the one after it.
fn interleaving_step_with_precondition<'a>(
    alloc: Global,
    scene: &Scene<'_>,
    before: &Value,
    call: &Call<'a>,
    state: &Value,
) -> Result<InterleavingStep<'a>, AllocError> {
    Ok(InterleavingStep {
        call: *call,
        precondition: evaluate_precondition(alloc, scene, before, call)?,
        state: state.copy(alloc)?,
    })
}

/// Returns the steps along `calls` from the state `first` on, as far as `others` has the states
/// after them.
fn interleaving_steps_along_calls<'a>(
    alloc: Global,
    scene: &Scene<'_>,
    calls: &[Call<'a>],
    first: &Value,
    others: &[Value],
) -> Result<Vec<InterleavingStep<'a>>, AllocError> {
    let mut steps = Vec::new(alloc);
    let mut before = first;
    for (call, state) in calls.iter().zip(others) {
        steps.push(interleaving_step_with_precondition(alloc, scene, before, call, state)?)?;
        before = state;
    }
    Ok(steps)
}

/// Returns the walk along `calls`, as far as `states` has states: the initial one, and one after each command in turn.
pub fn interleaving_states_along_calls<'a>(
    alloc: Global,
    scene: &Scene<'_>,
    interleaving: &[usize],
    calls: &[Call<'a>],
    states: &[Value],
) -> Result<InterleavingStates<'a>, AllocError> {
    let Some((first, others)) = states.split_first() else {
        return interleaving_without_states(alloc, interleaving);
    };
    let interleaving = Vec::from_slice(alloc, interleaving)?;
    let start = first.copy(alloc)?;
    let steps = interleaving_steps_along_calls(alloc, scene, calls, first, others)?;
    Ok(InterleavingStates {
        interleaving,
        start: Some(start),
        steps,
        stopped: Vec::new(alloc),
    })
}

/// Returns the branch of each command that is in a branch.
fn interleaving_of_calls(alloc: Global, calls: &[Call<'_>]) -> Result<Vec<usize>, AllocError> {
    let mut interleaving = Vec::new(alloc);
    for call in calls {
        if let CasePart::Branch(branch) = call.part {
            interleaving.push(branch)?;
        }
    }
    Ok(interleaving)
}

/// Adds the command to `stopped` if it cannot come next on `state`.
pub fn add_call_if_blocked<'a>(
    stopped: &mut Vec<BlockedCall<'a>>,
    alloc: Global,
    scene: &Scene<'a>,
    call: &Call<'a>,
    state: &Value,
) -> Result<(), AllocError> {
    if let Outcome::Refused(why) = outcome_of_call_on_state(alloc, scene, state, call)? {
        stopped.push(BlockedCall { call: *call, why })?;
    }
    Ok(())
}

/// Returns each command that may come next by the order after `calls` but cannot on `state`, the state after them.
pub fn blocked_calls_after<'a, O: Order>(
    alloc: Global,
    order: &O,
    scene: &Scene<'a>,
    calls: &[Call<'_>],
    state: &Value,
) -> Result<Vec<BlockedCall<'a>>, AllocError> {
    let interleaving = interleaving_of_calls(alloc, calls)?;
    let interleaving = interleaving.as_slice();
    let next = calls_that_may_come_next_in_order(alloc, order, scene, interleaving, calls.len())?;
    let mut stopped = Vec::new(alloc);
    for call in &next {
        add_call_if_blocked(&mut stopped, alloc, scene, call, state)?;
    }
    Ok(stopped)
}

/// Returns the walk of `interleaving`, up to the first command of which `condition` is not true.
fn interleaving_states_while_condition_true<'a, C: Callbacks, O: Order, A: Condition>(
    run: &RecordedRun<'_, C, O>,
    condition: &A,
    scene: &Scene<'a>,
    interleaving: &[usize],
) -> Result<InterleavingStates<'a>, AllocError>
    requires answered { let r = run.now in
        IsAnsweredRun (C.model r.callbacks.now) (O.order r.order.now) r.shaped.now r.history.now }
{
    let alloc = run.alloc;
    let order = calls_in_interleaving_order(alloc, &scene.calls, interleaving)?;
    let states = states(run, condition, interleaving)?;
    interleaving_states_along_calls(
        alloc,
        scene,
        interleaving,
        order.as_slice(),
        states.as_slice(),
    )
}

/// Returns the walk of `interleaving`, which explains the item: since each postcondition is true along it, none
/// is evaluated again.
pub fn states_of_explaining_interleaving<'a, C: Callbacks, O: Order>(
    run: &RecordedRun<'_, C, O>,
    scene: &Scene<'a>,
    interleaving: &[usize],
) -> Result<InterleavingStates<'a>, AllocError>
    requires answered { let r = run.now in
        IsAnsweredRun (C.model r.callbacks.now) (O.order r.order.now) r.shaped.now r.history.now }
{
    let none = SomePostconditions {
        first: &[],
        rest: &[],
    };
    interleaving_states_while_condition_true(run, &none, scene, interleaving)
}

/// Returns how many commands of each branch are in an interleaving.
fn count_commands_done(
    alloc: Global,
    branches: usize,
    interleaving: &[usize],
) -> Result<Vec<usize>, AllocError> {
    let mut done = vec![in alloc; 0usize; branches]?;
    for branch in interleaving {
        if let Some(count) = done.get_mut(*branch) {
            *count = count.saturating_add(1);
        }
    }
    Ok(done)
}

/// Returns whether the order lets a command come next, when `done[b]` commands of each branch `b` are done.
fn may_call_come_next<O: Order>(order: &O, done: &[usize], call: &Call<'_>) -> bool {
    match call.part {
        CasePart::Branch(branch) => order.is_open(done, branch),
        CasePart::Prefix | CasePart::Suffix => true,
    }
}

/// Returns the commands that may come after the first `count` commands of an interleaving, in order.
fn calls_that_may_come_next_in_order<'a, O: Order>(
    alloc: Global,
    order: &O,
    scene: &Scene<'a>,
    interleaving: &[usize],
    count: usize,
) -> Result<Vec<Call<'a>>, AllocError> {
    let done = count_commands_done(alloc, scene.calls.branches.len(), interleaving)?;
    let mut next = Vec::new(alloc);
    for call in &calls_that_may_come_next(alloc, &scene.calls, interleaving, count)? {
        if may_call_come_next(order, done.as_slice(), call) {
            next.push(*call)?;
        }
    }
    Ok(next)
}

/// Returns each of the commands `next`, with the reason why its postcondition is not true on `state`.
fn calls_with_reasons_for_false_postconditions<'a>(
    alloc: Global,
    scene: &Scene<'a>,
    next: &[Call<'a>],
    state: &Value,
) -> Result<Vec<BlockedCall<'a>>, AllocError> {
    let mut stopped = Vec::new(alloc);
    for call in next {
        let why = DeadEnd::PostFails(why_postcondition_is_not_true(alloc, scene, call, state)?);
        stopped.push(BlockedCall { call: *call, why })?;
    }
    Ok(stopped)
}

/// Returns the interleaving in order that gets furthest: `far` commands are right in it before a wrong one.
pub fn furthest_interleaving_with_blocked_calls<'a, C: Callbacks, O: Order>(
    run: &RecordedRun<'_, C, O>,
    scene: &Scene<'a>,
    far: usize,
) -> Result<InterleavingStates<'a>, AllocError>
    requires answered { let r = run.now in
        IsAnsweredRun (C.model r.callbacks.now) (O.order r.order.now) r.shaped.now r.history.now }
{
    let alloc = run.alloc;
    let (_, interleaving) = verdict_with_interleaving_in_order(
        run.callbacks,
        run.order,
        alloc,
        run.shaped,
        run.history,
    )?;
    let interleaving = interleaving.as_slice();
    let mut walk = interleaving_states_while_condition_true(
        run,
        &Postconditions,
        scene,
        interleaving,
    )?;
    let next = calls_that_may_come_next_in_order(alloc, run.order, scene, interleaving, far)?;
    let stopped = match walk.last_state() {
        Some(state) => calls_with_reasons_for_false_postconditions(
            alloc,
            scene,
            next.as_slice(),
            state,
        )?,
        None => Vec::new(alloc),
    };
    walk.stopped = stopped;
    Ok(walk)
}
