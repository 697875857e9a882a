//! Writing the code of a value.
ghost use Rattle.std.specs.Prelude.{◌≡◌, ◌∷◌, ◌++◌, OnOk};
ghost use Rattle.pst_judge.specs.Codes.{number_code, codes_by, code, code_of_int, code_of_truth, code_of_text, code_of_key, code_of_map};

use pst_value::{Key, Value};
use std::alloc::AllocError;

/// Appends the digits of `number`.
#[tactic(auto, using(crate::proofs::Numbers::numbers))]
fn encode_number(number: u64, bytes: &mut Vec<u8>) -> Result<(), AllocError>
    ensures { OnOk result (bytes.new.items ≡ bytes.old.items ++ number_code number) }
{
    if number < 128 {
        bytes.push(number as u8)?;
        return Ok(());
    }
    bytes.push((number % 128 + 128) as u8)?;
    encode_number(number / 128, bytes)
}

/// Adds a tag and a number.
fn encode_tagged_number(tag: u8, number: u64, bytes: &mut Vec<u8>) -> Result<(), AllocError>
    ensures { OnOk result (bytes.new.items ≡ bytes.old.items ++ tag ∷ number_code number) }
{
    bytes.push(tag)?;
    encode_number(number, bytes)
}

/// Adds the code of an integer.
fn encode_integer(number: i64, bytes: &mut Vec<u8>) -> Result<(), AllocError>
    ensures { OnOk result (bytes.new.items ≡ bytes.old.items ++ code_of_int number) }
{
    let tag = if number < 0 { 1 } else { 0 };
    encode_tagged_number(tag, number.unsigned_abs(), bytes)
}

/// Appends the code of a bool.
fn encode_bool(truth: bool, bytes: &mut Vec<u8>) -> Result<(), AllocError>
    ensures { OnOk result (bytes.new.items ≡ bytes.old.items ++ code_of_truth truth) }
{
    bytes.push(if truth { 3 } else { 2 })?;
    Ok(())
}

/// Adds the code of a text.
fn encode_text(text: &[u8], bytes: &mut Vec<u8>) -> Result<(), AllocError>
    ensures { OnOk result (bytes.new.items ≡ bytes.old.items ++ code_of_text text.now) }
{
    encode_tagged_number(4, text.len() as u64, bytes)?;
    bytes.extend_from_slice(text)
}

/// Adds the code of a key.
fn encode_key(key: &Key, bytes: &mut Vec<u8>) -> Result<(), AllocError>
    ensures { OnOk result (bytes.new.items ≡ bytes.old.items ++ code_of_key key.now) }
{
    match key {
        Key::Int(number) => encode_integer(*number, bytes),
        Key::Bool(truth) => encode_bool(*truth, bytes),
        Key::Text(text) => encode_text(text.as_bytes(), bytes),
    }
}

/// Adds how many keys there are, and their codes.
fn encode_keys(keys: &[Key], bytes: &mut Vec<u8>) -> Result<(), AllocError>
    ensures { OnOk result (bytes.new.items ≡ bytes.old.items ++ codes_by code_of_key keys.now) }
{
    encode_number(keys.len() as u64, bytes)?;
    for key in keys {
        encode_key(key, bytes)?;
    }
    Ok(())
}

/// Adds how many values there are, and their codes.
#[cycle(encode_value)]
fn encode_values(values: &[Value], bytes: &mut Vec<u8>) -> Result<(), AllocError>
    ensures { OnOk result (bytes.new.items ≡ bytes.old.items ++ codes_by code values.now) }
{
    encode_number(values.len() as u64, bytes)?;
    for value in values {
        encode_value(value, bytes)?;
    }
    Ok(())
}

/// Adds a tag, and then values.
#[cycle(encode_value)]
fn encode_tagged_values(tag: u8, values: &[Value], bytes: &mut Vec<u8>) -> Result<(), AllocError>
    ensures { OnOk result (bytes.new.items ≡ bytes.old.items ++ tag ∷ codes_by code values.now) }
{
    bytes.push(tag)?;
    encode_values(values, bytes)
}

/// Adds the code of a map with these keys and values.
#[cycle(encode_value)]
fn encode_map(keys: &[Key], values: &[Value], bytes: &mut Vec<u8>) -> Result<(), AllocError>
    ensures { OnOk result (bytes.new.items ≡ bytes.old.items ++ code_of_map keys.now (codes_by code values.now)) }
{
    bytes.push(7)?;
    encode_keys(keys, bytes)?;
    encode_values(values, bytes)
}

/// Adds the code of a value.
#[cycle(encode_value)]
#[tactic(auto, using(crate::proofs::Coding::coding))]
pub(crate) fn encode_value(value: &Value, bytes: &mut Vec<u8>) -> Result<(), AllocError>
    ensures { OnOk result (bytes.new.items ≡ bytes.old.items ++ code value.now) }
{
    match value {
        Value::Int(number) => encode_integer(*number, bytes),
        Value::Bool(truth) => encode_bool(*truth, bytes),
        Value::Text(text) => encode_text(text.as_bytes(), bytes),
        Value::Tuple(items) => encode_tagged_values(5, items.as_slice(), bytes),
        Value::List(items) => encode_tagged_values(6, items.as_slice(), bytes),
        Value::Map(keys, values) => encode_map(
            keys.get().as_slice(),
            values.get().as_slice(),
            bytes,
        ),
        Value::Var(number) => encode_tagged_number(8, *number as u64, bytes),
        Value::Ref(number, inner) => {
            encode_tagged_number(9, *number as u64, bytes)?;
            encode_value(inner.get(), bytes)
        }
        Value::Call(op, args) => {
            encode_tagged_number(10, *op as u64, bytes)?;
            encode_values(args.as_slice(), bytes)
        }
    }
}
