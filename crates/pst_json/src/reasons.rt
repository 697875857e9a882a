//! Reasons: why a call cannot come next, and the answers that cannot all be right.

use crate::calls::{write_json_call_id, write_json_call_member_with_id};
use crate::values::{
    write_json_state_spelling_member, write_json_value_member, write_json_values_member,
};
use crate::walks::write_json_interleaving_member;
use crate::writing::{
    write_json_bool_member, write_json_expression_text_member, write_json_spelling_cut_if_long,
    write_json_spelling_member,
};
use json::Writer;
use pst_explain::{Core, CoreAnswer, Obstacles, Precedence, WrongAnswer, preceding_calls};
use pst_model::Source;
use pst_scene::{
    DeadEnd, Evidence, FalsePart, Falsity, Scene, dead_end_text, false_postcondition_text,
    value_text,
};
use pst_value::Value;
use std::alloc::{AllocError, Global};

/// Writes the two values that a comparison compares.
fn write_json_compared_values_member(
    writer: &mut Writer<Global>,
    alloc: Global,
    model: &Source,
    first: &Value,
    second: &Value,
) -> Result<(), AllocError> {
    writer.key("compares")?;
    writer.begin_array()?;
    write_json_spelling_cut_if_long(writer, alloc, value_text(alloc, model, first)?.as_slice())?;
    write_json_spelling_cut_if_long(writer, alloc, value_text(alloc, model, second)?.as_slice())?;
    writer.end_array()
}

/// Writes the members on a part that is false: the part, and what is known of it.
fn write_json_false_part_members(
    writer: &mut Writer<Global>,
    alloc: Global,
    model: &Source,
    found: &FalsePart<'_>,
) -> Result<(), AllocError> {
    write_json_expression_text_member(writer, alloc, "part", found.part)?;
    match &found.evidence {
        Evidence::Wants(value) => write_json_value_member(writer, alloc, "wants", model, value),
        Evidence::Compares(first, second) => write_json_compared_values_member(
            writer, alloc, model, first, second,
        ),
        Evidence::Nothing => Ok(()),
    }
}

/// Writes the members on a postcondition that is not true.
fn write_json_false_postcondition_members(
    writer: &mut Writer<Global>,
    alloc: Global,
    model: &Source,
    falsity: &Falsity<'_>,
) -> Result<(), AllocError> {
    let text = false_postcondition_text(alloc, model, falsity)?;
    write_json_spelling_member(writer, alloc, "text", text.as_slice())?;
    match falsity {
        Falsity::Part { found, .. } => write_json_false_part_members(writer, alloc, model, found),
        _ => Ok(()),
    }
}

/// Writes the member `why`: why a call cannot come next.
pub fn write_json_dead_end_member(
    writer: &mut Writer<Global>,
    alloc: Global,
    model: &Source,
    why: &DeadEnd<'_>,
) -> Result<(), AllocError> {
    writer.key("why")?;
    writer.begin_object()?;
    match why {
        DeadEnd::PostFails(falsity) => write_json_false_postcondition_members(
            writer, alloc, model, falsity,
        )?,
        _ => {
            let text = dead_end_text(alloc, model, why)?;
            write_json_spelling_member(writer, alloc, "text", text.as_slice())?;
        }
    }
    writer.end_object()
}

/// Writes the member `why`: why an answer is wrong in an interleaving, and this interleaving.
fn write_json_why_answer_is_wrong_member(
    writer: &mut Writer<Global>,
    alloc: Global,
    model: &Source,
    wrong: &WrongAnswer<'_>,
) -> Result<(), AllocError> {
    writer.key("why")?;
    writer.begin_object()?;
    write_json_false_postcondition_members(writer, alloc, model, &wrong.falsity)?;
    if !wrong.interleaving.is_empty() {
        write_json_interleaving_member(writer, alloc, "by", wrong.interleaving.as_slice())?;
    }
    write_json_state_spelling_member(writer, alloc, "state", model, &wrong.state)?;
    writer.end_object()
}

/// Writes the member `allowed`: what the model allows in place of an answer.
fn write_json_allowed_answers_member(
    writer: &mut Writer<Global>,
    alloc: Global,
    model: &Source,
    answer: &CoreAnswer<'_>,
) -> Result<(), AllocError> {
    writer.key("allowed")?;
    writer.begin_object()?;
    let values = answer.allowed.values.as_slice();
    write_json_values_member(writer, alloc, "values", model, values)?;
    write_json_bool_member(writer, "all", answer.allowed.all)?;
    write_json_bool_member(writer, "only", answer.is_allowed_list_complete())?;
    writer.end_object()
}

/// Writes an answer of a core.
fn write_json_core_answer(
    writer: &mut Writer<Global>,
    alloc: Global,
    model: &Source,
    answer: &CoreAnswer<'_>,
) -> Result<(), AllocError> {
    writer.begin_object()?;
    write_json_call_member_with_id(writer, alloc, &answer.call)?;
    if let Some(wrong) = &answer.wrong {
        write_json_why_answer_is_wrong_member(writer, alloc, model, wrong)?;
    }
    if !answer.allowed.values.is_empty() {
        write_json_allowed_answers_member(writer, alloc, model, answer)?;
    }
    writer.end_object()
}

/// Writes the member `core`, and `prefix` if all of its calls are in the prefix.
pub fn write_json_core_members(
    writer: &mut Writer<Global>,
    alloc: Global,
    model: &Source,
    core: &Core<'_>,
) -> Result<(), AllocError> {
    writer.key("core")?;
    writer.begin_array()?;
    for answer in &core.answers {
        write_json_core_answer(writer, alloc, model, answer)?;
    }
    writer.end_array()?;
    if core.has_answers_only_in_prefix() {
        write_json_bool_member(writer, "prefix", true)?;
    }
    Ok(())
}

/// Writes a precedence: the call that was answered before the other began, and the other.
fn write_json_precedence(
    writer: &mut Writer<Global>,
    alloc: Global,
    scene: &Scene<'_>,
    precedence: Precedence,
) -> Result<(), AllocError> {
    let Some((earlier, later)) = preceding_calls(scene, precedence) else {
        return Ok(());
    };
    writer.begin_object()?;
    writer.key("earlier")?;
    write_json_call_id(writer, alloc, earlier)?;
    writer.key("later")?;
    write_json_call_id(writer, alloc, later)?;
    writer.end_object()
}

/// Writes the member `in_time`: the interleaving that would explain an item without its times, and the precedences that
/// rule it out.
pub fn write_json_obstacles_member(
    writer: &mut Writer<Global>,
    alloc: Global,
    scene: &Scene<'_>,
    obstacles: &Obstacles,
) -> Result<(), AllocError> {
    writer.key("in_time")?;
    writer.begin_object()?;
    write_json_interleaving_member(writer, alloc, "without", obstacles.interleaving.as_slice())?;
    writer.key("against")?;
    writer.begin_array()?;
    for precedence in &obstacles.precedences {
        write_json_precedence(writer, alloc, scene, *precedence)?;
    }
    writer.end_array()?;
    writer.end_object()
}
