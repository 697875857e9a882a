//! Interleavings.

use crate::calls::{write_json_call_id, write_json_call_member_with_id};
use crate::reasons::write_json_dead_end_member;
use crate::values::write_json_state_spelling_member;
use crate::writing::{write_json_byte_string, write_json_text_member};
use json::Writer;
use pst_explain::{
    BlockedCall, Explanation, InterleavingStates, InterleavingStep, JudgementReason,
    calls_without_effect,
};
use pst_model::Source;
use pst_scene::{PreAnswer, Scene, add_interleaving_letters_or_dash};
use std::alloc::{AllocError, Global};

/// Writes a member whose value is an interleaving of branches.
pub fn write_json_interleaving_member(
    writer: &mut Writer<Global>,
    alloc: Global,
    key: &str,
    interleaving: &[usize],
) -> Result<(), AllocError> {
    let mut text = Vec::new(alloc);
    add_interleaving_letters_or_dash(&mut text, interleaving)?;
    writer.key(key)?;
    write_json_byte_string(writer, alloc, text.as_slice())
}

/// Writes the call of a step, the state after it, and its precondition if that is not true.
fn write_json_interleaving_step(
    writer: &mut Writer<Global>,
    alloc: Global,
    model: &Source,
    step: &InterleavingStep<'_>,
) -> Result<(), AllocError> {
    writer.begin_object()?;
    write_json_call_member_with_id(writer, alloc, &step.call)?;
    write_json_state_spelling_member(writer, alloc, "state", model, &step.state)?;
    match step.precondition {
        PreAnswer::Holds => {}
        PreAnswer::Fails => write_json_text_member(writer, "pre", "false")?,
        PreAnswer::Faults(fault) => write_json_text_member(writer, "pre", fault.name())?,
    }
    writer.end_object()
}

/// Writes a call that cannot come next, and why.
fn write_json_blocked_call(
    writer: &mut Writer<Global>,
    alloc: Global,
    model: &Source,
    stopped: &BlockedCall<'_>,
) -> Result<(), AllocError> {
    writer.begin_object()?;
    write_json_call_member_with_id(writer, alloc, &stopped.call)?;
    write_json_dead_end_member(writer, alloc, model, &stopped.why)?;
    writer.end_object()
}

/// What the interleaving of a reason shows.
fn json_interleaving_kind(reason: &JudgementReason<'_>) -> &'static str {
    match reason {
        JudgementReason::Explained(_) => "explains",
        JudgementReason::Unexplained { .. } => "furthest",
        JudgementReason::Invalid(_) => "breaks",
        _ => "faults",
    }
}

/// Writes the member `next`: the calls that cannot come next.
fn write_json_blocked_calls_member(
    writer: &mut Writer<Global>,
    alloc: Global,
    model: &Source,
    all: &[BlockedCall<'_>],
) -> Result<(), AllocError> {
    writer.key("next")?;
    writer.begin_array()?;
    for stopped in all {
        write_json_blocked_call(writer, alloc, model, stopped)?;
    }
    writer.end_array()
}

/// Writes the member `steps`: the calls in their order.
fn write_json_interleaving_steps_member(
    writer: &mut Writer<Global>,
    alloc: Global,
    model: &Source,
    steps: &[InterleavingStep<'_>],
) -> Result<(), AllocError> {
    writer.key("steps")?;
    writer.begin_array()?;
    for step in steps {
        write_json_interleaving_step(writer, alloc, model, step)?;
    }
    writer.end_array()
}

/// Writes the member `no_effect`: the calls of unknown outcome that took no effect in the interleaving that explains an
/// item, if there are some.
pub fn write_json_calls_without_effect_if_any(
    writer: &mut Writer<Global>,
    alloc: Global,
    scene: &Scene<'_>,
    walk: &InterleavingStates<'_>,
) -> Result<(), AllocError> {
    let calls = calls_without_effect(alloc, scene, walk)?;
    if calls.is_empty() {
        return Ok(());
    }
    writer.key("no_effect")?;
    writer.begin_array()?;
    for call in &calls {
        write_json_call_id(writer, alloc, call)?;
    }
    writer.end_array()
}

/// Writes the member `walk` of an explanation.
pub fn write_json_interleaving_states_member(
    writer: &mut Writer<Global>,
    alloc: Global,
    explanation: &Explanation<'_>,
    walk: &InterleavingStates<'_>,
) -> Result<(), AllocError> {
    let model = explanation.scene.model;
    writer.key("walk")?;
    writer.begin_object()?;
    write_json_text_member(writer, "kind", json_interleaving_kind(&explanation.reason))?;
    write_json_interleaving_member(writer, alloc, "word", walk.interleaving.as_slice())?;
    if let Some(start) = &walk.start {
        write_json_state_spelling_member(writer, alloc, "start", model, start)?;
    }
    write_json_interleaving_steps_member(writer, alloc, model, walk.steps.as_slice())?;
    write_json_blocked_calls_member(writer, alloc, model, walk.stopped.as_slice())?;
    writer.end_object()
}
