//! Callbacks that fail, and commands that break a run.

use crate::calls::{write_json_call_id, write_json_call_member_with_id};
use crate::writing::{
    write_json_bool_member, write_json_byte_string, write_json_expression_text_member,
    write_json_spelling_cut_if_long, write_json_text_member, write_json_type_text,
};
use json::Writer;
use pst_explain::{
    BreakingCall, BreakingCause, ExpressionWithNameValues, Failure, FaultyPartWithValues,
};
use pst_model::Source;
use pst_scene::{Binding, Call, value_text};
use std::alloc::{AllocError, Global};

/// Writes a name with its value.
fn write_json_name_and_value_text(
    writer: &mut Writer<Global>,
    alloc: Global,
    model: &Source,
    binding: &Binding,
) -> Result<(), AllocError> {
    let value = value_text(alloc, model, &binding.value)?;
    writer.begin_array()?;
    write_json_byte_string(writer, alloc, binding.name.as_slice())?;
    write_json_spelling_cut_if_long(writer, alloc, value.as_slice())?;
    writer.end_array()
}

/// Writes the members of an expression, and its names with their values.
fn write_json_evaluated_expression_members(
    writer: &mut Writer<Global>,
    alloc: Global,
    model: &Source,
    evaluated: &ExpressionWithNameValues<'_>,
) -> Result<(), AllocError> {
    write_json_expression_text_member(writer, alloc, "expr", evaluated.expr)?;
    writer.key("names")?;
    writer.begin_array()?;
    for binding in &evaluated.names {
        write_json_name_and_value_text(writer, alloc, model, binding)?;
    }
    writer.end_array()
}

/// Writes the member `part`: the part that faults.
fn write_json_faulty_part_member(
    writer: &mut Writer<Global>,
    alloc: Global,
    model: &Source,
    part: &FaultyPartWithValues<'_>,
) -> Result<(), AllocError> {
    writer.key("part")?;
    writer.begin_object()?;
    write_json_evaluated_expression_members(writer, alloc, model, &part.evaluated)?;
    if let Some(name) = part.function {
        write_json_text_member(writer, "function", name)?;
    }
    writer.end_object()
}

/// Writes the call whose callback fails, or `null`, and the callback.
fn write_json_call_callback_outcome_members(
    writer: &mut Writer<Global>,
    alloc: Global,
    failure: &Failure<'_>,
) -> Result<(), AllocError> {
    writer.key("call")?;
    match &failure.call {
        Some(call) => write_json_call_id(writer, alloc, call)?,
        None => writer.null()?,
    }
    write_json_text_member(writer, "callback", failure.callback.name())?;
    write_json_text_member(
        writer,
        "outcome",
        match failure.fault {
            Some(fault) => fault.name(),
            None => "false",
        },
    )
}

/// Writes the member `callback`: the callback that fails, its expression, and the part of it that faults.
pub fn write_json_false_or_faulty_callback_member(
    writer: &mut Writer<Global>,
    alloc: Global,
    model: &Source,
    failure: &Failure<'_>,
) -> Result<(), AllocError> {
    writer.key("callback")?;
    writer.begin_object()?;
    write_json_call_callback_outcome_members(writer, alloc, failure)?;
    if let Some(expression) = &failure.expression {
        write_json_evaluated_expression_members(writer, alloc, model, &expression.whole)?;
        if let Some(part) = &expression.part {
            write_json_faulty_part_member(writer, alloc, model, part)?;
        }
    }
    writer.end_object()
}

/// Writes a member with the place of a call.
fn write_json_other_call_member(
    writer: &mut Writer<Global>,
    alloc: Global,
    key: &str,
    call: &Call<'_>,
) -> Result<(), AllocError> {
    writer.key(key)?;
    write_json_call_id(writer, alloc, call)
}

/// Writes the member that says why a call breaks its run: `wanted`, `after`, `needs` or `next`.
fn write_json_breaking_cause_member(
    writer: &mut Writer<Global>,
    alloc: Global,
    broken: &BreakingCall<'_>,
) -> Result<(), AllocError> {
    match &broken.cause {
        BreakingCause::NoValue => match broken.wanted {
            Some(wanted) => {
                writer.key("wanted")?;
                write_json_type_text(writer, alloc, wanted)
            }
            None => Ok(()),
        },
        BreakingCause::AfterUnknown(other) => write_json_other_call_member(
            writer, alloc, "after", other,
        ),
        BreakingCause::NeedsResult(other) => write_json_other_call_member(
            writer, alloc, "needs", other,
        ),
        BreakingCause::ChangesStateByResult => write_json_bool_member(writer, "next", true),
    }
}

/// Writes the member `broken`: the call that breaks its run, and why.
pub fn write_json_breaking_call_member(
    writer: &mut Writer<Global>,
    alloc: Global,
    broken: &BreakingCall<'_>,
) -> Result<(), AllocError> {
    writer.key("broken")?;
    writer.begin_object()?;
    if let Some(call) = &broken.call {
        write_json_call_member_with_id(writer, alloc, call)?;
    }
    write_json_breaking_cause_member(writer, alloc, broken)?;
    writer.end_object()
}
