//! The text of code.
ghost use Rattle.std.specs.Prelude.{◌≡◌, ◌∷◌, [], ◌++◌, map, IfOk, OnOk, decimal};
ghost use Rattle.std.specs.Fmt.{signed_decimal};
ghost use Rattle.pst_machine.specs.Listing as spec;

use crate::code::{FunCode, Instr};
use pst_model::{Binary, Unary};
use pst_value::{Items, Key, Value};
use std::alloc::{AllocError, Global};

/// Bytes, or a failed allocation.
type Bytes = Result<Items<u8>, AllocError>;

/// The first text, followed by the second.
fn joined_text(first: Items<u8>, second: Items<u8>) -> Bytes
    ensures { IfOk result (λ text. text ≡ first ++ second) }
{
    let mut text = first;
    text.append(second)?;
    Ok(text)
}

/// A space, followed by the text.
fn text_after_space(alloc: Global, text: Items<u8>) -> Bytes
    ensures { IfOk result (λ spaced. spaced ≡ 32 ∷ text) }
{
    joined_text(Items::from_slice(alloc, b" ")?, text)
}

/// A number in decimal digits.
fn number_text(alloc: Global, number: u64) -> Bytes
    ensures { IfOk result (λ text. text ≡ decimal number) }
{
    let text = format!(in alloc; "{number}")?;
    Items::from_slice(alloc, text.as_str().as_bytes())
}

/// An integer in decimal digits.
fn integer_text(alloc: Global, number: i64) -> Bytes
    ensures { IfOk result (λ text. text ≡ signed_decimal number) }
{
    let text = format!(in alloc; "{number}")?;
    Items::from_slice(alloc, text.as_str().as_bytes())
}

/// Numbers, each after a space.
fn numbers_text(alloc: Global, numbers: &[u64]) -> Bytes
    ensures { IfOk result (λ text. text ≡ spec.numbers_text numbers.now) }
{
    let mut text = Items::new(alloc);
    for number in numbers {
        text.append(text_after_space(alloc, number_text(alloc, *number)?)?)?;
    }
    Ok(text)
}

/// Registers, each after a space.
fn spaced_registers_text(alloc: Global, registers: &[u32]) -> Bytes
    ensures { IfOk result (λ text. text ≡ spec.numbers_text registers.now) }
{
    let mut text = Items::new(alloc);
    for register in registers {
        text.append(text_after_space(alloc, number_text(alloc, u64::from(*register))?)?)?;
    }
    Ok(text)
}

/// A name and numbers.
fn name_and_numbers_text(alloc: Global, name: &[u8], numbers: &[u64]) -> Bytes
    ensures { IfOk result (λ text. text ≡ spec.words_text name.now numbers.now) }
{
    joined_text(
        Items::from_slice(alloc, name)?,
        numbers_text(alloc, numbers)?,
    )
}

/// A name and registers.
fn name_and_registers_text(alloc: Global, name: &[u8], registers: &[u32]) -> Bytes
    ensures { IfOk result (λ text. text ≡ spec.words_text name.now registers.now) }
{
    joined_text(
        Items::from_slice(alloc, name)?,
        spaced_registers_text(alloc, registers)?,
    )
}

/// The name of the instruction of an operator.
fn unary_instruction_name(operator: Unary) -> &'static [u8]
    ensures { result.now ≡ spec.unary_name operator }
{
    match operator {
        Unary::Not => b"not",
        Unary::Len => b"len",
        Unary::Deref => b"deref",
        Unary::Keys => b"keys",
    }
}

/// The name of the instruction of an operator.
fn binary_instruction_name(operator: Binary) -> &'static [u8]
    ensures { result.now ≡ spec.binary_name operator }
{
    match operator {
        Binary::Add => b"add",
        Binary::Sub => b"sub",
        Binary::Mul => b"mul",
        Binary::Div => b"div",
        Binary::Rem => b"rem",
        Binary::Less => b"less",
        Binary::LessEqual => b"lesseq",
        Binary::Equal => b"eq",
        Binary::Same => b"same",
        Binary::Append => b"cat",
        Binary::Nth => b"nth",
        Binary::Range => b"range",
        Binary::Get => b"get",
        Binary::Has => b"has",
        Binary::Del => b"del",
    }
}

/// What comes between the quotes of a text: the bytes, with quotes and backslashes escaped.
fn bytes_text(alloc: Global, bytes: &[u8]) -> Bytes
    ensures { IfOk result (λ text. text ≡ spec.bytes_text bytes.now) }
{
    let mut text = Items::new(alloc);
    for byte in bytes {
        if *byte == b'"' || *byte == b'\\' {
            text.append(Items::from_slice(alloc, &[b'\\', *byte])?)?;
        } else {
            text.push(*byte)?;
        }
    }
    Ok(text)
}

/// A text in quotes.
fn quoted_text(alloc: Global, bytes: &[u8]) -> Bytes
    ensures { IfOk result (λ text. text ≡ 34 ∷ spec.bytes_text bytes.now ++ 34 ∷ []) }
{
    let mut text = joined_text(Items::from_slice(alloc, b"\"")?, bytes_text(alloc, bytes)?)?;
    text.push(b'"')?;
    Ok(text)
}

/// A name with its bracket, the parts, and the closing bracket.
fn join_and_close_bracket(alloc: Global, name: &[u8], parts: Items<u8>) -> Bytes
    ensures { IfOk result (λ text. text ≡ name.now ++ parts ++ 41 ∷ []) }
{
    let mut text = joined_text(Items::from_slice(alloc, name)?, parts)?;
    text.push(b')')?;
    Ok(text)
}

/// A variable.
fn variable_text(alloc: Global, number: u32) -> Bytes
    ensures { IfOk result (λ text. text ≡ 36 ∷ decimal number) }
{
    joined_text(
        Items::from_slice(alloc, b"$")?,
        number_text(alloc, u64::from(number))?,
    )
}

/// A bool.
fn truth_text(alloc: Global, truth: bool) -> Bytes
    ensures { IfOk result (λ text. text ≡ spec.truth_text truth) }
{
    if truth {
        Items::from_slice(alloc, b"true")
    } else {
        Items::from_slice(alloc, b"false")
    }
}

/// A key.
fn key_text(alloc: Global, key: &Key) -> Bytes
    ensures { IfOk result (λ text. text ≡ spec.key_text key.now) }
{
    match key {
        Key::Int(number) => integer_text(alloc, *number),
        Key::Bool(truth) => truth_text(alloc, *truth),
        Key::Text(text) => quoted_text(alloc, text.as_bytes()),
    }
}

/// A space, and a key with the text of its value in brackets.
fn map_entry_text(alloc: Global, key: &Key, part: &[u8]) -> Bytes
    ensures { IfOk result (λ text. text ≡ spec.entry_text key.now part.now) }
{
    let value = text_after_space(alloc, Items::from_slice(alloc, part)?)?;
    let entry = joined_text(key_text(alloc, key)?, value)?;
    text_after_space(alloc, join_and_close_bracket(alloc, b"(", entry)?)
}

/// Keys and the texts of their values.
fn entries_text(alloc: Global, keys: &[Key], parts: &[Items<u8>]) -> Bytes
    ensures { IfOk result (λ text. text ≡ spec.entries_text keys.now parts.now) }
{
    let mut text = Items::new(alloc);
    for (key, part) in keys.iter().zip(parts) {
        text.append(map_entry_text(alloc, key, part.as_slice())?)?;
    }
    Ok(text)
}

/// A value.
#[cycle(value_text)]
#[tactic(auto, using(crate::proofs::ValueTexts::value_texts))]
fn value_text(alloc: Global, value: &Value) -> Bytes
    ensures { IfOk result (λ text. text ≡ spec.value_text value.now) }
{
    match value {
        Value::Int(number) => integer_text(alloc, *number),
        Value::Bool(truth) => truth_text(alloc, *truth),
        Value::Text(text) => quoted_text(alloc, text.as_bytes()),
        Value::Tuple(parts) => join_and_close_bracket(
            alloc,
            b"(tuple",
            parts_text(alloc, parts.as_slice())?,
        ),
        Value::List(parts) => join_and_close_bracket(
            alloc,
            b"(list",
            parts_text(alloc, parts.as_slice())?,
        ),
        Value::Map(keys, parts) => {
            let parts = text_of_each_value(alloc, parts.get().as_slice())?;
            let entries = entries_text(alloc, keys.get().as_slice(), parts.as_slice())?;
            join_and_close_bracket(alloc, b"(map", entries)
        }
        Value::Var(number) => variable_text(alloc, *number),
        Value::Ref(_, part) => value_text(alloc, part.get()),
        Value::Call(_, parts) => join_and_close_bracket(
            alloc,
            b"(call",
            parts_text(alloc, parts.as_slice())?,
        ),
    }
}

/// Values, each after a space.
#[cycle(value_text)]
fn parts_text(alloc: Global, parts: &[Value]) -> Bytes
    ensures { IfOk result (λ text. text ≡ spec.parts_text (map spec.value_text parts.now)) }
{
    let mut text = Items::new(alloc);
    for part in parts {
        text.append(text_after_space(alloc, value_text(alloc, part)?)?)?;
    }
    Ok(text)
}

/// The texts of values.
#[cycle(value_text)]
fn text_of_each_value(alloc: Global, parts: &[Value]) -> Result<Items<Items<u8>>, AllocError>
    ensures { IfOk result (λ texts. texts ≡ map spec.value_text parts.now) }
{
    let mut texts = Items::new(alloc);
    for part in parts {
        texts.push(value_text(alloc, part)?)?;
    }
    Ok(texts)
}

/// A name, numbers, and then registers.
fn operands_text(alloc: Global, name: &[u8], numbers: &[u64], registers: &[u32]) -> Bytes
    ensures { IfOk result (λ text. text ≡
        spec.words_text name.now numbers.now ++ spec.numbers_text registers.now) }
{
    joined_text(
        name_and_numbers_text(alloc, name, numbers)?,
        spaced_registers_text(alloc, registers)?,
    )
}

/// A constant.
fn constant_instruction_text(alloc: Global, register: u32, value: &Value) -> Bytes
    ensures { IfOk result (λ text. text ≡ spec.instr_text (Instr.Const register value.now)) }
{
    let name = name_and_numbers_text(alloc, b"const", &[u64::from(register)])?;
    joined_text(name, text_after_space(alloc, value_text(alloc, value)?)?)
}

/// An instruction.
fn instr_text(alloc: Global, instr: &Instr) -> Bytes
    ensures { IfOk result (λ text. text ≡ spec.instr_text instr.now) }
{
    match instr {
        Instr::Const(d, value) => constant_instruction_text(alloc, *d, value),
        Instr::Move(d, a) => name_and_registers_text(alloc, b"move", &[*d, *a]),
        Instr::Take(d, a) => name_and_registers_text(alloc, b"take", &[*d, *a]),
        Instr::Unary(operator, d, a) => name_and_registers_text(
            alloc,
            unary_instruction_name(*operator),
            &[*d, *a],
        ),
        Instr::Binary(operator, d, a, b) => {
            name_and_registers_text(alloc, binary_instruction_name(*operator), &[*d, *a, *b])
        }
        Instr::Put(d, a, b, c) => name_and_registers_text(alloc, b"put", &[*d, *a, *b, *c]),
        Instr::At(d, a, i) => name_and_numbers_text(alloc, b"at", &[*d as u64, *a as u64, *i]),
        Instr::Tuple(d, from) => operands_text(alloc, b"tuple", &[*d as u64], from.as_slice()),
        Instr::List(d, from) => operands_text(alloc, b"list", &[*d as u64], from.as_slice()),
        Instr::Call(d, op, from) => {
            operands_text(alloc, b"call", &[*d as u64, *op as u64], from.as_slice())
        }
        Instr::Append(d, a) => name_and_registers_text(alloc, b"append", &[*d, *a]),
        Instr::Jump(place) => name_and_numbers_text(alloc, b"jump", &[*place as u64]),
        Instr::Unless(a, place) => name_and_numbers_text(
            alloc,
            b"unless",
            &[*a as u64, *place as u64],
        ),
        Instr::Apply(d, fun, from) => {
            operands_text(alloc, b"apply", &[*d as u64, *fun as u64], from.as_slice())
        }
        Instr::Loop(d, a, i, place) => {
            name_and_numbers_text(
                alloc,
                b"loop",
                &[*d as u64, *a as u64, *i as u64, *place as u64],
            )
        }
        Instr::Return(a) => name_and_registers_text(alloc, b"ret", &[*a]),
    }
}

/// The line of an instruction.
fn line_text(alloc: Global, number: usize, place: usize, instr: &Instr) -> Bytes
    ensures { IfOk result (λ text. text ≡ spec.line_text number place instr.now) }
{
    let place = number_text(alloc, place as u64)?;
    let numbers = joined_text(
        number_text(alloc, number as u64)?,
        text_after_space(alloc, place)?,
    )?;
    let mut line = joined_text(numbers, text_after_space(alloc, instr_text(alloc, instr)?)?)?;
    line.push(b'\n')?;
    Ok(line)
}

/// The lines of a function.
fn body_text(alloc: Global, number: usize, body: &[Instr]) -> Bytes
    ensures { IfOk result (λ text. text ≡ spec.body_text number 0 body.now) }
{
    let mut text = Items::new(alloc);
    for (place, instr) in body.iter().enumerate() {
        text.append(line_text(alloc, number, place, instr)?)?;
    }
    Ok(text)
}

/// The lines of functions.
pub fn code_text(alloc: Global, functions: &[FunCode]) -> Bytes
    ensures { IfOk result (λ text. text ≡ spec.code_text 0 functions.now) }
{
    let mut text = Items::new(alloc);
    for (number, function) in functions.iter().enumerate() {
        text.append(body_text(alloc, number, function.body.as_slice())?)?;
    }
    Ok(text)
}
