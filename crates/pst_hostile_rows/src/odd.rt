//! Answers that no call should return.

use pst_system::{CallFault, RealCall, System};
use pst_value::{Boxed, Items, Key, Text, Value};
use std::alloc::{AllocError, Global};

/// A list of `count` zeros.
fn items_of_zeros(alloc: Global, count: usize) -> Result<Items<Value>, AllocError> {
    let mut items = Items::new(alloc);
    for _ in 0..count {
        items.push(Value::Int(0))?;
    }
    Ok(items)
}

/// A list of one value.
fn items_of_one_value(alloc: Global, value: Value) -> Result<Items<Value>, AllocError> {
    let mut items = Items::new(alloc);
    items.push(value)?;
    Ok(items)
}

/// A list of two values.
fn items_of_two_values(
    alloc: Global,
    first: Value,
    second: Value,
) -> Result<Items<Value>, AllocError> {
    let mut items = items_of_one_value(alloc, first)?;
    items.push(second)?;
    Ok(items)
}

/// A list of `count` zeros as a value.
fn list_of_zeros(alloc: Global, count: usize) -> Result<Value, AllocError> {
    Ok(Value::List(items_of_zeros(alloc, count)?))
}

/// A list of one value as a value.
fn list_of_one_value(alloc: Global, value: Value) -> Result<Value, AllocError> {
    Ok(Value::List(items_of_one_value(alloc, value)?))
}

/// A reference to the integer 1.
fn reference_to_integer_one(alloc: Global) -> Result<Value, AllocError> {
    Ok(Value::Ref(1, Boxed::new(alloc, Value::Int(1))?))
}

/// The integer 1 in `levels` nested lists.
pub fn integer_in_nested_lists(alloc: Global, levels: usize) -> Result<Value, AllocError> {
    let mut value = Value::Int(1);
    for _ in 0..levels {
        value = Value::List(items_of_one_value(alloc, value)?);
    }
    Ok(value)
}

/// The variable 1 in `levels` levels of lists, tuples, maps, references and calls in turn.
pub fn variable_in_mixed_nested_values(alloc: Global, levels: usize) -> Result<Value, AllocError> {
    let mut value = Value::Var(1);
    for level in 0..levels {
        value = match level % 5 {
            0 => Value::List(items_of_one_value(alloc, value)?),
            1 => Value::Tuple(items_of_one_value(alloc, value)?),
            2 => map_of_one_key(alloc, value)?,
            3 => Value::Ref(3, Boxed::new(alloc, value)?),
            _ => Value::Call(0, items_of_one_value(alloc, value)?),
        };
    }
    Ok(value)
}

/// A text value.
fn text_value(alloc: Global, text: &str) -> Result<Value, AllocError> {
    Ok(Value::Text(Text::from_string(String::from_str(alloc, text)?)))
}

/// A text of `count` letters.
fn text_of_repeated_letter(alloc: Global, count: usize) -> Result<Value, AllocError> {
    Ok(Value::Text(Text::from_string("a".repeat(alloc, count)?)))
}

/// A map of `keys` and `values`.
fn map_of_keys_and_values(
    alloc: Global,
    keys: Items<Key>,
    values: Items<Value>,
) -> Result<Value, AllocError> {
    Ok(Value::Map(Boxed::new(alloc, keys)?, Boxed::new(alloc, values)?))
}

/// A map of `keys` to zeros, with `values` values.
fn map_of_keys_and_counted_zeros(
    alloc: Global,
    keys: &[Key],
    values: usize,
) -> Result<Value, AllocError> {
    let mut items = Items::new(alloc);
    for key in keys {
        items.push(key.copy(alloc)?)?;
    }
    map_of_keys_and_values(alloc, items, items_of_zeros(alloc, values)?)
}

/// A map of `count` rising keys.
fn map_of_rising_keys_to_zeros(alloc: Global, count: u16) -> Result<Value, AllocError> {
    let mut keys = Items::new(alloc);
    for key in 0..count {
        keys.push(Key::Int(i64::from(key)))?;
    }
    map_of_keys_and_values(alloc, keys, items_of_zeros(alloc, usize::from(count))?)
}

/// A map of the key 1 to `value`.
fn map_of_one_key(alloc: Global, value: Value) -> Result<Value, AllocError> {
    let mut keys = Items::new(alloc);
    keys.push(Key::Int(1))?;
    let values = items_of_one_value(alloc, value)?;
    map_of_keys_and_values(alloc, keys, values)
}

/// A map of two keys to zeros, with `values` values.
fn map_of_two_keys_and_counted_zeros(
    alloc: Global,
    one: Key,
    other: Key,
    values: usize,
) -> Result<Value, AllocError> {
    map_of_keys_and_counted_zeros(alloc, &[one, other], values)
}

/// Returns the answer `name` if it is a map of one or two keys to zeros.
fn small_map_answer_named(alloc: Global, name: &str) -> Result<Option<Value>, AllocError> {
    let value = match name {
        "rising keys" => map_of_two_keys_and_counted_zeros(alloc, Key::Int(1), Key::Int(2), 2),
        "falling keys" => map_of_two_keys_and_counted_zeros(alloc, Key::Int(2), Key::Int(1), 2),
        "equal keys" => map_of_two_keys_and_counted_zeros(alloc, Key::Int(1), Key::Int(1), 2),
        "mixed keys" => map_of_two_keys_and_counted_zeros(alloc, Key::Int(1), Key::Bool(true), 2),
        "more keys than values" => map_of_two_keys_and_counted_zeros(
            alloc,
            Key::Int(1),
            Key::Int(2),
            1,
        ),
        "more values than keys" => map_of_keys_and_counted_zeros(alloc, &[Key::Int(1)], 2),
        _ => return Ok(None),
    };
    Ok(Some(value?))
}

/// Returns the answer `name` if it is a map.
fn map_answer_named(alloc: Global, name: &str) -> Result<Option<Value>, AllocError> {
    let value = match name {
        "4097 keys" => map_of_rising_keys_to_zeros(alloc, 4_097),
        "4096 keys" => map_of_rising_keys_to_zeros(alloc, 4_096),
        "a variable in a map" => map_of_one_key(alloc, Value::Var(1)),
        "a reference in a map" => map_of_one_key(alloc, reference_to_integer_one(alloc)?),
        _ => return small_map_answer_named(alloc, name),
    };
    Ok(Some(value?))
}

/// A tuple of `count` zeros.
fn tuple_of_zeros(alloc: Global, count: usize) -> Result<Value, AllocError> {
    Ok(Value::Tuple(items_of_zeros(alloc, count)?))
}

/// A tuple of the integer 1 and the list of a variable.
fn tuple_of_one_and_variable_list(alloc: Global) -> Result<Value, AllocError> {
    let list = list_of_one_value(alloc, Value::Var(1))?;
    Ok(Value::Tuple(items_of_two_values(alloc, Value::Int(1), list)?))
}

/// A tuple of a reference and the list of a zero.
fn tuple_of_reference_and_zero_list(alloc: Global) -> Result<Value, AllocError> {
    let list = list_of_zeros(alloc, 1)?;
    Ok(Value::Tuple(items_of_two_values(alloc, reference_to_integer_one(alloc)?, list)?))
}

/// Returns the answer `name` if it is a tuple or a map.
fn tuple_or_map_answer_named(alloc: Global, name: &str) -> Result<Option<Value>, AllocError> {
    let value = match name {
        "one item" => tuple_of_zeros(alloc, 1),
        "9 items" => tuple_of_zeros(alloc, 9),
        "a variable in a tuple" => tuple_of_one_and_variable_list(alloc),
        "a reference in a tuple" => tuple_of_reference_and_zero_list(alloc),
        _ => return map_answer_named(alloc, name),
    };
    Ok(Some(value?))
}

/// Returns the answer `name` if it is a list, a tuple or a map.
fn list_tuple_or_map_answer_named(alloc: Global, name: &str) -> Result<Option<Value>, AllocError> {
    let value = match name {
        "65537 items" => list_of_zeros(alloc, 65_537),
        "65536 items" => list_of_zeros(alloc, 65_536),
        "a reference in a list" => list_of_one_value(alloc, reference_to_integer_one(alloc)?),
        "a variable in lists" => list_of_one_value(alloc, list_of_one_value(alloc, Value::Var(1))?),
        "100 levels" => integer_in_nested_lists(alloc, 100),
        _ => return tuple_or_map_answer_named(alloc, name),
    };
    Ok(Some(value?))
}

/// Returns the answer `name` if it is a text, a list, a tuple or a map.
fn text_or_collection_answer_named(alloc: Global, name: &str) -> Result<Option<Value>, AllocError> {
    let value = match name {
        "no letter" => text_value(alloc, ""),
        "a line end" => text_value(alloc, "\n"),
        "a letter beyond ASCII" => text_value(alloc, "\u{e9}"),
        "65537 letters" => text_of_repeated_letter(alloc, 65_537),
        "65536 letters" => text_of_repeated_letter(alloc, 65_536),
        _ => return list_tuple_or_map_answer_named(alloc, name),
    };
    Ok(Some(value?))
}

/// Returns the answer `name`, if there is one.
pub fn odd_answer_named(alloc: Global, name: &str) -> Result<Option<Value>, AllocError> {
    let value = match name {
        "an integer" => Value::Int(1),
        "a truth value" => Value::Bool(true),
        "a variable" => Value::Var(1),
        "a reference" => reference_to_integer_one(alloc)?,
        "a call" => Value::Call(0, Items::new(alloc)),
        _ => return text_or_collection_answer_named(alloc, name),
    };
    Ok(Some(value))
}

/// A system that answers the value named by a call's argument, and refuses a call that names no value.
#[derive(Drop)]
pub struct NamedOddAnswers {
    alloc: Global,
}

impl NamedOddAnswers {
    /// Returns a system that allocates its answers with `alloc`.
    pub fn new(alloc: Global) -> NamedOddAnswers {
        NamedOddAnswers { alloc }
    }
}

impl System for NamedOddAnswers {
    ghost use Rattle.std.specs.Prelude.{⊤};

    ghost answers = { λ _ _ _. ⊤ };

    ghost fails = { λ _ _ _. ⊤ };

    ghost reset_fails = { λ _ _. ⊥ };

    fn reset(&mut self) -> Result<(), CallFault> {
        Ok(())
    }

    fn call(&self, call: &RealCall) -> Result<Value, CallFault> {
        let [Value::Text(name)] = call.args.as_slice() else {
            return Err(CallFault::Refused);
        };
        match odd_answer_named(self.alloc, name.as_str()) {
            Ok(Some(value)) => Ok(value),
            Ok(None) => Err(CallFault::Refused),
            Err(_) => Err(CallFault::NoMemory),
        }
    }
}
