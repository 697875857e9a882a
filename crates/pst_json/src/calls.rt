//! Calls.

use crate::values::{
    write_json_reply_without_value, write_json_text_and_value_or_length, write_json_values_member,
};
use crate::writing::{write_json_byte_string, write_json_number_member};
use json::Writer;
use pst_case::{CallTime, Reply};
use pst_explain::time_of_call;
use pst_model::Source;
use pst_scene::{Call, Scene, operation_of_call};
use std::alloc::{AllocError, Global};

/// Writes the place of a call, as `L2`.
pub fn write_json_call_id(
    writer: &mut Writer<Global>,
    alloc: Global,
    call: &Call<'_>,
) -> Result<(), AllocError> {
    let mut id = Vec::new(alloc);
    call.add_place(&mut id)?;
    write_json_byte_string(writer, alloc, id.as_slice())
}

/// Writes the member `call` with the place of a call.
pub fn write_json_call_member_with_id(
    writer: &mut Writer<Global>,
    alloc: Global,
    call: &Call<'_>,
) -> Result<(), AllocError> {
    writer.key("call")?;
    write_json_call_id(writer, alloc, call)
}

/// Writes a reply.
fn write_json_reply_with_text(
    writer: &mut Writer<Global>,
    alloc: Global,
    model: &Source,
    reply: &Reply,
) -> Result<(), AllocError> {
    match reply {
        Reply::Value(value) => write_json_text_and_value_or_length(writer, alloc, model, value),
        Reply::Misfit => write_json_reply_without_value(writer, "misfit"),
        Reply::Failed => write_json_reply_without_value(writer, "failed"),
        Reply::NotRun => write_json_reply_without_value(writer, "not-run"),
        Reply::Unknown => write_json_reply_without_value(writer, "unknown"),
    }
}

/// Writes the member `op` with the name of the operation of a call.
fn write_json_operation_name_or_null_member(
    writer: &mut Writer<Global>,
    scene: &Scene<'_>,
    call: &Call<'_>,
) -> Result<(), AllocError> {
    writer.key("op")?;
    match operation_of_call(scene, call) {
        Some(operation) => writer.string(operation.name.as_str()),
        None => writer.null(),
    }
}

/// Writes the members `id`, `number`, `part` and `index`: the place and the number of a call.
fn write_json_call_identity_members(
    writer: &mut Writer<Global>,
    alloc: Global,
    call: &Call<'_>,
) -> Result<(), AllocError> {
    writer.key("id")?;
    write_json_call_id(writer, alloc, call)?;
    write_json_number_member(writer, "number", call.number as usize)?;
    writer.key("part")?;
    write_json_byte_string(writer, alloc, &[call.part.letter()])?;
    write_json_number_member(writer, "index", call.place)
}

/// Writes the member `time`: when the call was invoked and when it completed, which is `null` if nobody knows.
fn write_json_time_member(writer: &mut Writer<Global>, time: CallTime) -> Result<(), AllocError> {
    writer.key("time")?;
    writer.begin_array()?;
    writer.u64(time.invoked)?;
    match time.completed {
        Some(at) => writer.u64(at)?,
        None => writer.null()?,
    }
    writer.end_array()
}

/// Writes a call.
fn write_json_call(
    writer: &mut Writer<Global>,
    alloc: Global,
    scene: &Scene<'_>,
    call: &Call<'_>,
) -> Result<(), AllocError> {
    writer.begin_object()?;
    write_json_call_identity_members(writer, alloc, call)?;
    write_json_operation_name_or_null_member(writer, scene, call)?;
    let args = call.command.args.as_slice();
    write_json_values_member(writer, alloc, "args", scene.model, args)?;
    if let Some(reply) = call.reply {
        writer.key("reply")?;
        write_json_reply_with_text(writer, alloc, scene.model, reply)?;
    }
    if let Some(time) = time_of_call(scene, call) {
        write_json_time_member(writer, time)?;
    }
    writer.end_object()
}

/// Writes the member `calls`: all calls of an item, in the order of their numbers.
pub fn write_json_calls_member(
    writer: &mut Writer<Global>,
    alloc: Global,
    scene: &Scene<'_>,
) -> Result<(), AllocError> {
    writer.key("calls")?;
    writer.begin_array()?;
    for call in &scene.all {
        write_json_call(writer, alloc, scene, call)?;
    }
    writer.end_array()
}
