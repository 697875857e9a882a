//! The outcome of a command on a state.

use crate::evaluating::{
    PreAnswer, arguments_with_recorded_results, evaluate_expression_of_model,
    evaluate_precondition, state_after_call,
};
use crate::falsity::{Falsity, false_postcondition_text, why_postcondition_is_not_true};
use crate::scene::{Call, Scene};
use crate::spelling::{copy_explanation_text, join_explanation_parts, operation_of_call};
use pst_case::Reply;
use pst_eval::Env;
use pst_model::Source;
use pst_value::{Fault, Value};
use std::alloc::{AllocError, Global};

/// Why a command cannot come next on a state.
#[derive(Drop)]
pub enum DeadEnd<'a> {
    /// Its precondition is false.
    PreFalse,
    /// Its precondition faults.
    PreFaults(Fault),
    /// Its postcondition is not true.
    PostFails(Falsity<'a>),
    /// Its reply is no value.
    NoValue,
    /// Its `next` faults.
    NextFaults,
}

#[derive(Drop)]
/// The outcome of a command on a state.
pub enum Outcome<'a> {
    /// The command leads to a state.
    Leads(Value),
    /// The command cannot come next there.
    Refused(DeadEnd<'a>),
}

/// Returns whether the postcondition of a command is true of `answer`.
fn answer_satisfies_postcondition(
    alloc: Global,
    scene: &Scene<'_>,
    state: &Value,
    call: &Call<'_>,
    answer: &Value,
) -> Result<bool, AllocError> {
    let Some(operation) = operation_of_call(scene, call) else {
        return Ok(false);
    };
    let args = arguments_with_recorded_results(alloc, scene, call)?;
    let frame = Env::Frame(operation.params.as_slice(), args.as_slice());
    let outer = Env::With(b"s", &*state, &frame);
    let inner = Env::With(b"r", answer, &outer);
    let outcome = evaluate_expression_of_model(alloc, scene.model, &operation.post, &inner)?;
    Ok(matches!(outcome, Ok(Value::Bool(true))))
}

/// Returns the state after a command that may come next, unless its `next` faults.
fn outcome_of_next_callback<'a>(
    alloc: Global,
    scene: &Scene<'a>,
    state: &Value,
    call: &Call<'_>,
) -> Result<Outcome<'a>, AllocError> {
    match state_after_call(alloc, scene, state, call)? {
        Some(next) => Ok(Outcome::Leads(next)),
        None => Ok(Outcome::Refused(DeadEnd::NextFaults)),
    }
}

/// Returns the outcome of a command of a case that was not run, by its precondition.
fn outcome_by_precondition_and_next<'a>(
    alloc: Global,
    scene: &Scene<'a>,
    state: &Value,
    call: &Call<'_>,
) -> Result<Outcome<'a>, AllocError> {
    match evaluate_precondition(alloc, scene, state, call)? {
        PreAnswer::Holds => outcome_of_next_callback(alloc, scene, state, call),
        PreAnswer::Fails => Ok(Outcome::Refused(DeadEnd::PreFalse)),
        PreAnswer::Faults(fault) => Ok(Outcome::Refused(DeadEnd::PreFaults(fault))),
    }
}

/// Returns the outcome of a command that answered a value, by its postcondition.
fn outcome_by_postcondition_and_next<'a>(
    alloc: Global,
    scene: &Scene<'a>,
    state: &Value,
    call: &Call<'_>,
    answer: &Value,
) -> Result<Outcome<'a>, AllocError> {
    if answer_satisfies_postcondition(alloc, scene, state, call, answer)? {
        return outcome_of_next_callback(alloc, scene, state, call);
    }
    let falsity = why_postcondition_is_not_true(alloc, scene, call, state)?;
    Ok(Outcome::Refused(DeadEnd::PostFails(falsity)))
}

/// Returns the outcome of a command on a state: by its postcondition in a recorded run, by its precondition in a case. A
/// call of unknown outcome leads to a state unless its `next` faults.
pub fn outcome_of_call_on_state<'a>(
    alloc: Global,
    scene: &Scene<'a>,
    state: &Value,
    call: &Call<'_>,
) -> Result<Outcome<'a>, AllocError> {
    match call.reply {
        None => outcome_by_precondition_and_next(alloc, scene, state, call),
        Some(Reply::Value(answer)) => outcome_by_postcondition_and_next(
            alloc, scene, state, call, answer,
        ),
        Some(Reply::Unknown) => outcome_of_next_callback(alloc, scene, state, call),
        Some(_) => Ok(Outcome::Refused(DeadEnd::NoValue)),
    }
}

/// Returns a text that says why a command cannot come next on a state.
pub fn dead_end_text(
    alloc: Global,
    model: &Source,
    dead_end: &DeadEnd<'_>,
) -> Result<Vec<u8>, AllocError> {
    match dead_end {
        DeadEnd::PreFalse => copy_explanation_text(alloc, "pre is false"),
        DeadEnd::PreFaults(fault) => {
            join_explanation_parts(alloc, &[b"pre faults with ", fault.name().as_bytes()])
        }
        DeadEnd::PostFails(falsity) => false_postcondition_text(alloc, model, falsity),
        DeadEnd::NoValue => copy_explanation_text(alloc, "it answered no value"),
        DeadEnd::NextFaults => copy_explanation_text(alloc, "next faults"),
    }
}
