//! Values as JSON.
ghost use Rattle.std.specs.Prelude.{◌≡◌, ◌∷◌, [], ◌++◌, map, OnOk};
ghost use Rattle.json.specs.Token.{key as member_key};
ghost use Rattle.json.specs.Tree.{json_tokens, items_tokens, members_tokens};
ghost use Rattle.json.specs.Value.{items_of};
ghost use Rattle.pst_json_runs.specs.Writing.{key_name, members_of, json_of, variable_json};

use json::Writer;
use pst_value::{Key, Value};
use std::alloc::{AllocError, Global};

/// Writes the name of a key's member.
fn write_json_map_key_as_name(writer: &mut Writer<Global>, key: &Key) -> Result<(), AllocError>
    ensures ok { OnOk result (writer.new.tokens
        ≡ writer.old.tokens ++ member_key (key_name key.now) ∷ []) }
    ensures before { writer.new.before ≡ writer.old.before }
{
    match key {
        Key::Int(number) => writer.key(itoa::Buffer::new().format(*number)),
        Key::Bool(true) => writer.key("true"),
        Key::Bool(false) => writer.key("false"),
        Key::Text(text) => writer.key(text.as_str()),
    }
}

/// Writes variable `number` as `{"result":n}`.
fn write_json_variable(writer: &mut Writer<Global>, number: u32) -> Result<(), AllocError>
    ensures ok { OnOk result (writer.new.tokens
        ≡ writer.old.tokens ++ json_tokens (variable_json number)) }
    ensures before { writer.new.before ≡ writer.old.before }
{
    writer.begin_object()?;
    writer.key("result")?;
    writer.u64(u64::from(number))?;
    writer.end_object()
}

/// Writes a value.
#[cycle(put)]
#[tactic(auto, using(crate::proofs::ValueLevels::levels))]
pub fn write_json_value(writer: &mut Writer<Global>, value: &Value) -> Result<(), AllocError>
    ensures ok { OnOk result (writer.new.tokens
        ≡ writer.old.tokens ++ json_tokens (json_of value.now)) }
    ensures before { writer.new.before ≡ writer.old.before }
{
    match value {
        Value::Int(number) => writer.i64(*number),
        Value::Bool(holds) => writer.boolean(*holds),
        Value::Text(text) => writer.string(text.as_str()),
        Value::Tuple(parts) | Value::List(parts) | Value::Call(_, parts) => {
            writer.begin_array()?;
            write_json_values_and_end(writer, parts.as_slice())
        }
        Value::Map(keys, values) => {
            writer.begin_object()?;
            write_json_map_members_and_end(writer, keys.get().as_slice(), values.get().as_slice())
        }
        Value::Var(number) => write_json_variable(writer, *number),
        Value::Ref(_, part) => write_json_value(writer, part.get()),
    }
}

/// Writes the items of an array, and its end.
#[cycle(put)]
pub fn write_json_values_and_end(
    writer: &mut Writer<Global>,
    parts: &[Value],
) -> Result<(), AllocError>
    ensures ok { OnOk result (writer.new.tokens
        ≡ writer.old.tokens ++ items_tokens (items_of (map json_of parts.now))) }
    ensures before { writer.new.before ≡ writer.old.before }
{
    for part in parts {
        write_json_value(writer, part)?;
    }
    writer.end_array()
}

/// Writes the members of an object and its end. Keys and values without a partner are left out.
#[cycle(put)]
fn write_json_map_members_and_end(
    writer: &mut Writer<Global>,
    keys: &[Key],
    values: &[Value],
) -> Result<(), AllocError>
    ensures ok { OnOk result (writer.new.tokens
        ≡ writer.old.tokens ++ members_tokens (members_of keys.now (map json_of values.now))) }
    ensures before { writer.new.before ≡ writer.old.before }
{
    let mut rest = keys;
    for value in values {
        let Some((key, others)) = rest.split_first() else {
            return writer.end_object();
        };
        write_json_map_key_as_name(writer, key)?;
        write_json_value(writer, value)?;
        rest = others;
    }
    writer.end_object()
}
