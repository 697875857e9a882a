//! The states along an interleaving of a history.
ghost use Rattle.std.specs.Prelude.{◌≡◌, ◌∷◌, ◌++◌, ◌≤◌, [], List, true, None, IfOk, MatchOption, length};
ghost use Rattle.pst_case.specs.Shape.{joined, result_types};
ghost use Rattle.pst_judge.specs.Replay.{branch_outcome_asking};
ghost use Rattle.pst_judge.specs.Running.{EventsFit, IsRealState};
ghost use Rattle.pst_model.specs.Fitting.{is_state};
ghost use Rattle.pst_reasons.specs.Answered.{IsAnsweredRun};
ghost use Rattle.pst_reasons.specs.States.{AllFit, OnLast, branch_states, event_states, onward, states_of, word_states};
ghost use Rattle.pst_value.specs.declared.ty.Ty.{Ty};
ghost use Rattle.pst_value.specs.declared.value.Value.{Value};

use crate::cores::count_branch_commands;
use crate::recorded::RecordedRun;
use pst_eval::Callbacks;
use pst_grid::{Order, StepOutcome};
use pst_judge::{
    Branches, Condition, Event, branch_and_suffix_events, events_of_prefix, replay_event,
};
use pst_value::{Items, Value};
use std::alloc::{AllocError, Global};

fn split_first_event(events: &[Event]) -> Option<(&Event, &[Event])>
    ensures { MatchOption result (events.now ≡ []) (λ p. events.now ≡ p.0.now ∷ p.1.now) }
{
    events.split_first()
}

/// Appends to `states` the state after each event in turn, up to the first event that is not true. If all are true, the
/// result also has the last state.
fn append_states_while_events_hold<C: Callbacks, A: Condition>(
    callbacks: &C,
    condition: &A,
    alloc: Global,
    state: Value,
    events: &[Event],
    mut states: Items<Value>,
) -> Result<(Items<Value>, Option<Value>), AllocError>
    requires { (vars : List Ty) × (is_state (C.model callbacks.now) [] vars state ≡ true)
        × EventsFit (C.model callbacks.now) vars events.now }
    ensures states { let m = C.model callbacks.now in IfOk result (λ r. (rest : Value → List Value)
        → states ++ event_states m (A.asked condition.now m) events.now state rest ≡ r.0 ++ onward r.1 rest) }
    ensures last { IfOk result (λ r. (vars : List Ty)
        → is_state (C.model callbacks.now) [] vars state ≡ true
        → EventsFit (C.model callbacks.now) vars events.now
        → OnLast r.1 (λ s. is_state (C.model callbacks.now) [] vars s ≡ true)) }
{
    let Some((event, events)) = split_first_event(events) else {
        return Ok((states, Some(state)));
    };
    match replay_event(callbacks, condition, alloc, &state, event)? {
        StepOutcome::Stop(_) => Ok((states, None)),
        StepOutcome::Next(next) => {
            states.push(next.copy(alloc)?)?;
            append_states_while_events_hold(callbacks, condition, alloc, next, events, states)
        }
    }
}

fn split_interleaving_at_first_branch(word: &[usize]) -> Option<(&usize, &[usize])>
    ensures { MatchOption result (word.now ≡ []) (λ p. word.now ≡ p.0.now ∷ p.1.now) }
{
    word.split_first()
}

/// Appends to `states` the state after the event of each letter of `word` in turn, up to the first event that is not
/// true. If all are true, the result also has the last state.
fn append_states_while_interleaving_holds<C: Callbacks, A: Condition>(
    branches: &Branches<'_, C, A>,
    alloc: Global,
    state: Value,
    word: &[usize],
    mut done: Vec<usize>,
    mut states: Items<Value>,
) -> Result<(Items<Value>, Option<Value>), AllocError>
    requires lengths { length done.items ≡ length branches.now.events }
    requires state { IsRealState (C.model branches.now.callbacks.now) branches.now.shaped.now.case state }
    requires fit { let m = C.model branches.now.callbacks.now in
        AllFit m (result_types m branches.now.shaped.now.case) branches.now.events }
    ensures states { let b = branches.now in let m = C.model b.callbacks.now in
        IfOk result (λ r. (rest : Value → List Value)
        → states ++ word_states (branch_outcome_asking m (A.asked b.condition.now m) b.events) done.items state
        word.now rest ≡ r.0 ++ onward r.1 rest) }
    ensures last { let m = C.model branches.now.callbacks.now in
        IfOk result (λ r. OnLast r.1 (IsRealState m branches.now.shaped.now.case)) }
{
    let Some((branch, word)) = split_interleaving_at_first_branch(word) else {
        return Ok((states, Some(state)));
    };
    let Some(events) = branches.events.get(*branch) else {
        return Ok((states, None));
    };
    let index = done[*branch];
    // The index is below this number, which fits a `usize`: so does the index and one.
    let _most = events.len();
    let Some(event) = events.get(index) else {
        return Ok((states, None));
    };
    match replay_event(branches.callbacks, branches.condition, alloc, &state, event)? {
        StepOutcome::Stop(_) => Ok((states, None)),
        StepOutcome::Next(next) => {
            done[*branch] = index + 1;
            states.push(next.copy(alloc)?)?;
            append_states_while_interleaving_holds(branches, alloc, next, word, done, states)
        }
    }
}

/// Appends to `states` the states of a run after its prefix: those of the interleaving `word` of the branches, and, if
/// it has a letter for each command of the branches, those of the suffix.
fn append_states_after_prefix<C: Callbacks, A: Condition>(
    branches: &Branches<'_, C, A>,
    alloc: Global,
    state: Value,
    word: &[usize],
    states: Items<Value>,
) -> Result<Items<Value>, AllocError>
    requires state { IsRealState (C.model branches.now.callbacks.now) branches.now.shaped.now.case state }
    requires fit { let m = C.model branches.now.callbacks.now in
        AllFit m (result_types m branches.now.shaped.now.case) branches.now.events }
    requires events { let m = C.model branches.now.callbacks.now in
        EventsFit m (result_types m branches.now.shaped.now.case) branches.now.suffix }
    requires lengths { length branches.now.events ≡ length branches.now.shaped.now.case.branches }
    requires few { length (joined branches.now.shaped.now.case.branches) ≤ 16 }
    ensures { let b = branches.now in let m = C.model b.callbacks.now in IfOk result
        (λ all. all ≡ states
        ++ branch_states m (A.asked b.condition.now m) b.shaped.now.case b.events b.suffix word.now state) }
{
    let parts = branches.shaped.case().branches.as_slice();
    let done = vec![in alloc; 0; parts.len()]?;
    let (states, last) = append_states_while_interleaving_holds(
        branches, alloc, state, word, done, states,
    )?;
    let Some(last) = last else {
        return Ok(states);
    };
    if word.len() < count_branch_commands(parts) {
        return Ok(states);
    }
    let suffix = branches.suffix.as_slice();
    let (states, _) = append_states_while_events_hold(
        branches.callbacks,
        branches.condition,
        alloc,
        last,
        suffix,
        states,
    )?;
    Ok(states)
}

/// Returns the states of an interleaving: the initial state, and the state after each event, up to the first event that
/// is not true by `condition`. The events are those of the prefix, those of the interleaving `word` of the branches,
/// and, if `word` has a letter for each command of the branches, those of the suffix. The list is empty if `init`
/// faults.
pub fn states<C: Callbacks, O: Order, A: Condition>(
    run: &RecordedRun<'_, C, O>,
    condition: &A,
    word: &[usize],
) -> Result<Items<Value>, AllocError>
    requires { let r = run.now in
        IsAnsweredRun (C.model r.callbacks.now) (O.order r.order.now) r.shaped.now r.history.now }
    ensures { let r = run.now in let m = C.model r.callbacks.now in IfOk result
        (λ states. states ≡ states_of m (A.asked condition.now m) r.shaped.now.case r.history.now word.now) }
{
    let callbacks = run.callbacks;
    let alloc = run.alloc;
    let shaped = run.shaped;
    let history = run.history;
    let _case = shaped.case();
    let results = history.recorded(alloc)?;
    let results = results.as_slice();
    let mut states = Items::new(alloc);
    let Ok((state, _)) = callbacks.init(alloc)? else {
        return Ok(states);
    };
    states.push(state.copy(alloc)?)?;
    let prefix = events_of_prefix(alloc, shaped, history, results)?;
    let (states, last) = append_states_while_events_hold(
        callbacks,
        condition,
        alloc,
        state,
        prefix.as_slice(),
        states,
    )?;
    let Some(last) = last else {
        return Ok(states);
    };
    let branches = branch_and_suffix_events(callbacks, condition, alloc, shaped, history, results)?;
    append_states_after_prefix(&branches, alloc, last, word, states)
}
