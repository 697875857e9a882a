//! Times as JSON.
ghost use Rattle.std.specs.Prelude.{◌≡◌, ◌++◌, map, OnOk};
ghost use Rattle.json.specs.Tree.{items_tokens, json_tokens, members_tokens};
ghost use Rattle.json.specs.Value.{items_of};
ghost use Rattle.pst_json_runs.specs.Written as spec;

use json::Writer;
use pst_case::CallTime;
use pst_value::Items;
use std::alloc::{AllocError, Global};

/// Writes `null` if the call is not known to have completed.
fn write_json_completion(
    writer: &mut Writer<Global>,
    completed: Option<u64>,
) -> Result<(), AllocError>
    ensures ok { OnOk result (writer.new.tokens
        ≡ writer.old.tokens ++ json_tokens (spec.completion_json completed)) }
    ensures before { writer.new.before ≡ writer.old.before }
{
    match completed {
        Some(at) => writer.u64(at),
        None => writer.null(),
    }
}

/// Writes `[INVOKED, COMPLETED]`.
fn write_json_time(writer: &mut Writer<Global>, time: &CallTime) -> Result<(), AllocError>
    ensures ok { OnOk result (writer.new.tokens
        ≡ writer.old.tokens ++ json_tokens (spec.time_json time.now)) }
    ensures before { writer.new.before ≡ writer.old.before }
{
    writer.begin_array()?;
    writer.u64(time.invoked)?;
    write_json_completion(writer, time.completed)?;
    writer.end_array()
}

/// Writes times, and the end of their array.
fn write_json_times_and_end(
    writer: &mut Writer<Global>,
    times: &[CallTime],
) -> Result<(), AllocError>
    ensures ok { OnOk result (writer.new.tokens ≡ writer.old.tokens
        ++ items_tokens (items_of (map spec.time_json times.now))) }
    ensures before { writer.new.before ≡ writer.old.before }
{
    for time in times {
        write_json_time(writer, time)?;
    }
    writer.end_array()
}

/// Writes the times of a branch.
fn write_json_time_array(writer: &mut Writer<Global>, times: &[CallTime]) -> Result<(), AllocError>
    ensures ok { OnOk result (writer.new.tokens
        ≡ writer.old.tokens ++ json_tokens (spec.times_json times.now)) }
    ensures before { writer.new.before ≡ writer.old.before }
{
    writer.begin_array()?;
    write_json_times_and_end(writer, times)
}

/// Writes the times of branches, and the end of their array.
fn write_json_time_arrays_and_end(
    writer: &mut Writer<Global>,
    branches: &[Items<CallTime>],
) -> Result<(), AllocError>
    ensures ok { OnOk result (writer.new.tokens ≡ writer.old.tokens
        ++ items_tokens (items_of (map spec.times_json branches.now))) }
    ensures before { writer.new.before ≡ writer.old.before }
{
    for times in branches {
        write_json_time_array(writer, times.as_slice())?;
    }
    writer.end_array()
}

/// Writes the times of each branch.
fn write_json_time_lists(
    writer: &mut Writer<Global>,
    branches: &[Items<CallTime>],
) -> Result<(), AllocError>
    ensures ok { OnOk result (writer.new.tokens
        ≡ writer.old.tokens ++ json_tokens (spec.time_lists_json branches.now)) }
    ensures before { writer.new.before ≡ writer.old.before }
{
    writer.begin_array()?;
    write_json_time_arrays_and_end(writer, branches)
}

/// Writes the times, if they were recorded, and the end of the item.
pub fn write_json_times_and_item_end(
    writer: &mut Writer<Global>,
    times: &Option<Items<Items<CallTime>>>,
) -> Result<(), AllocError>
    ensures ok { OnOk result (writer.new.tokens ≡ writer.old.tokens
        ++ members_tokens (spec.times_members times.now)) }
    ensures before { writer.new.before ≡ writer.old.before }
{
    if let Some(branches) = times {
        writer.key("times")?;
        write_json_time_lists(writer, branches.as_slice())?;
    }
    writer.end_object()
}
