//! Values of models.

use crate::writing::{
    MOST_BYTES, write_json_number_member, write_json_spelling_member, write_json_text_member,
};
use json::Writer;
use pst_model::{Source, operation_of};
use pst_scene::value_text;
use pst_value::{Key, Text, Value};
use std::alloc::{AllocError, Global};

/// The greatest integer that each reader of JSON holds exactly, 2^53 - 1.
const MOST_EXACT: i64 = 9_007_199_254_740_991;

/// Writes an integer: a number, or an object with its digits if it is too large to be read exactly.
fn write_json_exact_integer(writer: &mut Writer<Global>, number: i64) -> Result<(), AllocError> {
    if -MOST_EXACT <= number && number <= MOST_EXACT {
        return writer.i64(number);
    }
    writer.begin_object()?;
    writer.key("int")?;
    writer.quoted_i64(number)?;
    writer.end_object()
}

/// Writes a key of a map.
fn write_json_exact_map_key(writer: &mut Writer<Global>, key: &Key) -> Result<(), AllocError> {
    match key {
        Key::Int(number) => write_json_exact_integer(writer, *number),
        Key::Bool(holds) => writer.boolean(*holds),
        Key::Text(text) => writer.string(text.as_str()),
    }
}

/// Writes an object with the number of a variable.
fn write_json_tagged_variable(writer: &mut Writer<Global>, number: u32) -> Result<(), AllocError> {
    writer.begin_object()?;
    write_json_number_member(writer, "var", number as usize)?;
    writer.end_object()
}

/// Writes the name of an operation.
fn write_json_operation_name_or_null(
    writer: &mut Writer<Global>,
    model: &Source,
    number: u32,
) -> Result<(), AllocError> {
    let name: Option<&Text> = match operation_of(model.items.as_slice(), number as usize) {
        Some(operation) => Some(&operation.name),
        None => None,
    };
    match name {
        Some(name) => writer.string(name.as_str()),
        None => writer.null(),
    }
}

/// Begins an object with the member `key`, and the array that is its value.
fn begin_json_object_with_array(writer: &mut Writer<Global>, key: &str) -> Result<(), AllocError> {
    writer.begin_object()?;
    writer.key(key)?;
    writer.begin_array()
}

/// Writes a value as JSON.
#[cycle(value)]
fn write_json_tagged_value(
    writer: &mut Writer<Global>,
    model: &Source,
    value: &Value,
) -> Result<(), AllocError> {
    match value {
        Value::Int(number) => write_json_exact_integer(writer, *number),
        Value::Bool(holds) => writer.boolean(*holds),
        Value::Text(text) => writer.string(text.as_str()),
        Value::List(items) => {
            writer.begin_array()?;
            write_json_array_items_and_end(writer, model, items.as_slice())
        }
        Value::Tuple(parts) => {
            begin_json_object_with_array(writer, "tuple")?;
            write_json_array_items_and_end(writer, model, parts.as_slice())?;
            writer.end_object()
        }
        Value::Map(keys, values) => {
            begin_json_object_with_array(writer, "map")?;
            let (keys, values) = (keys.get().as_slice(), values.get().as_slice());
            write_json_map_entries_and_end(writer, model, keys, values)?;
            writer.end_object()
        }
        Value::Var(number) => write_json_tagged_variable(writer, *number),
        Value::Ref(number, value) => {
            writer.begin_object()?;
            write_json_number_member(writer, "ref", *number as usize)?;
            writer.key("value")?;
            write_json_tagged_value(writer, model, value.get())?;
            writer.end_object()
        }
        Value::Call(operation, args) => {
            begin_json_object_with_array(writer, "call")?;
            write_json_operation_name_or_null(writer, model, *operation)?;
            write_json_array_items_and_end(writer, model, args.as_slice())?;
            writer.end_object()
        }
    }
}

/// Writes the items of an array, and its end.
#[cycle(value)]
fn write_json_array_items_and_end(
    writer: &mut Writer<Global>,
    model: &Source,
    items: &[Value],
) -> Result<(), AllocError> {
    for item in items {
        write_json_tagged_value(writer, model, item)?;
    }
    writer.end_array()
}

/// Writes the entries of a map, up to the end of the shorter of `keys` and `values`, and the end of their array.
#[cycle(value)]
fn write_json_map_entries_and_end(
    writer: &mut Writer<Global>,
    model: &Source,
    keys: &[Key],
    values: &[Value],
) -> Result<(), AllocError> {
    let mut rest = keys;
    for value in values {
        let Some((key, others)) = rest.split_first() else {
            return writer.end_array();
        };
        writer.begin_array()?;
        write_json_exact_map_key(writer, key)?;
        write_json_tagged_value(writer, model, value)?;
        writer.end_array()?;
        rest = others;
    }
    writer.end_array()
}

/// Writes an object with the spelling of a value and the value as JSON. If the spelling is long, the object has its
/// length in place of the value.
pub fn write_json_text_and_value_or_length(
    writer: &mut Writer<Global>,
    alloc: Global,
    model: &Source,
    value: &Value,
) -> Result<(), AllocError> {
    let text = value_text(alloc, model, value)?;
    writer.begin_object()?;
    write_json_spelling_member(writer, alloc, "text", text.as_slice())?;
    if text.len() > MOST_BYTES {
        write_json_number_member(writer, "bytes", text.len())?;
    } else {
        writer.key("value")?;
        write_json_tagged_value(writer, model, value)?;
    }
    writer.end_object()
}

/// Writes a member whose value is an array of values.
pub fn write_json_values_member(
    writer: &mut Writer<Global>,
    alloc: Global,
    key: &str,
    model: &Source,
    values: &[Value],
) -> Result<(), AllocError> {
    writer.key(key)?;
    writer.begin_array()?;
    for value in values {
        write_json_text_and_value_or_length(writer, alloc, model, value)?;
    }
    writer.end_array()
}

/// Writes a member whose value is a value.
pub fn write_json_value_member(
    writer: &mut Writer<Global>,
    alloc: Global,
    key: &str,
    model: &Source,
    value: &Value,
) -> Result<(), AllocError> {
    writer.key(key)?;
    write_json_text_and_value_or_length(writer, alloc, model, value)
}

/// Writes a member whose value is the spelling of a value, as states are written.
pub fn write_json_state_spelling_member(
    writer: &mut Writer<Global>,
    alloc: Global,
    key: &str,
    model: &Source,
    state: &Value,
) -> Result<(), AllocError> {
    let text = value_text(alloc, model, state)?;
    write_json_spelling_member(writer, alloc, key, text.as_slice())
}

/// Writes an object with a word in place of a value.
pub fn write_json_reply_without_value(
    writer: &mut Writer<Global>,
    word: &str,
) -> Result<(), AllocError> {
    writer.begin_object()?;
    write_json_text_member(writer, "text", word)?;
    writer.end_object()
}
