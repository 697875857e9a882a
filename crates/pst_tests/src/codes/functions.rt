//! Functions by hand.

use pst_machine::{FunCode, Instr};
use pst_model::{Binary, Unary};
use pst_value::{Boxed, Items, Key, Text, Value};
use std::alloc::{AllocError, Global};

/// Code of one function with these instructions.
fn code_of_one_function<const N: usize>(
    alloc: Global,
    args: u32,
    registers: u32,
    instrs: [Instr; N],
) -> Result<Items<FunCode>, AllocError> {
    let body = Items::from_vec(Vec::from_array(alloc, instrs)?);
    let mut functions = Items::new(alloc);
    functions.push(FunCode {
        args,
        registers,
        body,
    })?;
    Ok(functions)
}

/// The sum of a list, by `add` in a loop.
pub fn code_that_sums_a_list(alloc: Global) -> Result<Items<FunCode>, AllocError> {
    let body = [
        Instr::Const(1, Value::Int(0)),
        Instr::Const(2, Value::Int(0)),
        Instr::Jump(4),
        Instr::Binary(Binary::Add, 2, 2, 3),
        Instr::Loop(3, 0, 1, 3),
        Instr::Return(2),
    ];
    code_of_one_function(alloc, 1, 4, body)
}

/// The only argument, in the only register.
pub fn code_that_returns_its_argument(alloc: Global) -> Result<Items<FunCode>, AllocError> {
    code_of_one_function(alloc, 1, 1, [Instr::Return(0)])
}

/// The items of a list, by `append` in a loop.
pub fn code_that_copies_a_list(alloc: Global) -> Result<Items<FunCode>, AllocError> {
    let body = [
        Instr::Const(1, Value::Int(0)),
        Instr::Const(2, Value::List(Items::new(alloc))),
        Instr::Jump(4),
        Instr::Append(2, 3),
        Instr::Loop(3, 0, 1, 3),
        Instr::Return(2),
    ];
    code_of_one_function(alloc, 1, 4, body)
}

/// 5 by 0.
pub fn code_that_divides_by_zero(alloc: Global) -> Result<Items<FunCode>, AllocError> {
    let body = [
        Instr::Const(0, Value::Int(5)),
        Instr::Const(1, Value::Int(0)),
        Instr::Binary(Binary::Div, 2, 0, 1),
        Instr::Return(2),
    ];
    code_of_one_function(alloc, 0, 3, body)
}

/// The map of these keys and values.
fn map_of_keys_and_values(
    alloc: Global,
    keys: Items<Key>,
    values: Items<Value>,
) -> Result<Value, AllocError> {
    Ok(Value::Map(Boxed::new(alloc, keys)?, Boxed::new(alloc, values)?))
}

/// The map that has no keys.
fn empty_map(alloc: Global) -> Result<Value, AllocError> {
    map_of_keys_and_values(alloc, Items::new(alloc), Items::new(alloc))
}

/// The keys 7, 3 and 5 are put into a map, and 7 is deleted: its keys then.
pub fn code_that_returns_keys_after_deletion(alloc: Global) -> Result<Items<FunCode>, AllocError> {
    let body = [
        Instr::Const(0, empty_map(alloc)?),
        Instr::Const(1, Value::Int(7)),
        Instr::Put(0, 0, 1, 1),
        Instr::Const(2, Value::Int(3)),
        Instr::Put(0, 0, 2, 1),
        Instr::Const(3, Value::Int(5)),
        Instr::Put(0, 0, 3, 1),
        Instr::Binary(Binary::Del, 0, 0, 1),
        Instr::Unary(Unary::Keys, 4, 0),
        Instr::Return(4),
    ];
    code_of_one_function(alloc, 0, 5, body)
}

/// The value of key 4 after 9 and then 8 are put there, if 4 is a key of the map.
pub fn code_that_gets_last_put_value(alloc: Global) -> Result<Items<FunCode>, AllocError> {
    let body = [
        Instr::Const(0, empty_map(alloc)?),
        Instr::Const(1, Value::Int(4)),
        Instr::Const(2, Value::Int(9)),
        Instr::Put(0, 0, 1, 2),
        Instr::Const(2, Value::Int(8)),
        Instr::Put(0, 0, 1, 2),
        Instr::Binary(Binary::Has, 3, 0, 1),
        Instr::Unless(3, 9),
        Instr::Binary(Binary::Get, 3, 0, 1),
        Instr::Return(3),
    ];
    code_of_one_function(alloc, 0, 4, body)
}

/// The value of key 4 of the map that has no keys.
pub fn code_that_gets_missing_key(alloc: Global) -> Result<Items<FunCode>, AllocError> {
    let body = [
        Instr::Const(0, empty_map(alloc)?),
        Instr::Const(1, Value::Int(4)),
        Instr::Binary(Binary::Get, 2, 0, 1),
        Instr::Return(2),
    ];
    code_of_one_function(alloc, 0, 3, body)
}

/// A map of texts.
pub fn code_that_returns_constant_map(alloc: Global) -> Result<Items<FunCode>, AllocError> {
    let mut keys = Items::new(alloc);
    keys.push(Key::Text(Text::from_string(String::from_str(alloc, "a")?)))?;
    keys.push(Key::Text(Text::from_string(String::from_str(alloc, "b")?)))?;
    let mut values = Items::new(alloc);
    values.push(Value::Int(-1))?;
    values.push(Value::List(Items::new(alloc)))?;
    let body = [
        Instr::Const(0, map_of_keys_and_values(alloc, keys, values)?),
        Instr::Return(0),
    ];
    code_of_one_function(alloc, 0, 1, body)
}

/// It returns a register that no instruction has written.
pub fn code_that_returns_unwritten_register(alloc: Global) -> Result<Items<FunCode>, AllocError> {
    code_of_one_function(alloc, 0, 1, [Instr::Return(0)])
}

/// It jumps to itself.
pub fn code_that_jumps_to_itself(alloc: Global) -> Result<Items<FunCode>, AllocError> {
    code_of_one_function(alloc, 0, 1, [Instr::Jump(0)])
}

/// It applies itself.
pub fn code_that_applies_itself(alloc: Global) -> Result<Items<FunCode>, AllocError> {
    let body = [Instr::Apply(0, 0, Items::new(alloc)), Instr::Return(0)];
    code_of_one_function(alloc, 0, 1, body)
}
