//! Commands and values as warnings show them: the place and the spelling of a command, and the spelling of a value.

use pst_model::{Source, operation_of};
use pst_run_problems::{
    Part, find_command_with_path, find_part_and_offset_of_command, parts_of_case_or_run,
};
use pst_sexpr::Form;
use pst_syntax_problems::{shortened_tree_text, write_quoted_and_escaped};
use pst_value::{Key, Value};
use std::alloc::{AllocError, Global};
use std::fmt;

/// The place of a command, and its spelling.
#[derive(Drop)]
pub struct LocatedCommand {
    /// The path to its tree.
    pub path: Vec<usize>,
    /// Its place in its case.
    pub place: CommandPlace,
    /// The command as it is written.
    pub call: String,
}

/// The letter of part `number`.
fn letter_of_case_part(parts: &[Part<'_>], number: usize) -> char {
    match parts.get(number) {
        Some(part) if part.is_prefix => 'P',
        Some(part) if part.is_branch => match number {
            1 => 'L',
            2 => 'R',
            3 => 'S',
            _ => 'T',
        },
        _ => 'X',
    }
}

/// The place of a command in its case, shown as `P1`, `L2` or `X1`.
#[derive(Clone, Copy, Drop)]
pub struct CommandPlace {
    /// The letter of its part.
    part: char,
    /// Its number in the part, from 1.
    number: usize,
}

impl fmt::Display for CommandPlace {
    fn fmt<W: fmt::Write>(&self, f: &mut fmt::Formatter<W>) -> fmt::Result {
        let CommandPlace { part, number } = *self;
        write!(f, "{part}{number}")
    }
}

/// The place of command `command`, counted from 1, in its case.
fn command_place(parts: &[Part<'_>], command: usize) -> Option<CommandPlace> {
    let (part, offset) = find_part_and_offset_of_command(parts, command)?;
    Some(CommandPlace {
        part: letter_of_case_part(parts, part),
        number: offset.saturating_add(1),
    })
}

/// The path of `first` and then `rest`.
fn prepend_item_number_to_path(
    alloc: Global,
    first: usize,
    rest: &[usize],
) -> Result<Vec<usize>, AllocError> {
    let mut path = Vec::from_slice(alloc, &[first])?;
    path.extend_from_slice(rest)?;
    Ok(path)
}

/// The spot of command `command`, counted from 1, of item `item`. `None` if the item has no such command.
pub fn locate_and_spell_command(
    alloc: Global,
    form: &Form,
    item: usize,
    command: usize,
) -> Result<Option<LocatedCommand>, AllocError> {
    let parts = parts_of_case_or_run(alloc, form)?;
    let Some(place) = command_place(parts.as_slice(), command) else {
        return Ok(None);
    };
    let Some((steps, call)) = find_command_with_path(alloc, parts.as_slice(), command)? else {
        return Ok(None);
    };
    let path = prepend_item_number_to_path(alloc, item, steps.as_slice())?;
    let call = shortened_tree_text(alloc, call)?;
    Ok(Some(LocatedCommand { path, place, call }))
}

/// The greatest number of bytes of a value in a warning.
const MOST: usize = 60;

/// Writes a key of a map.
fn write_map_key_for_warning<W: fmt::Write>(f: &mut fmt::Formatter<W>, key: &Key) -> fmt::Result {
    match key {
        Key::Int(number) => write!(f, "{number}"),
        Key::Bool(truth) => write!(f, "{truth}"),
        Key::Text(text) => write_quoted_and_escaped(f, text.as_str()),
    }
}

/// The name of operation `number`, counted from 0. Empty if the model has no such operation.
fn operation_name_or_empty(model: &Source, number: u32) -> &str {
    match operation_of(model.items.as_slice(), number as usize) {
        Some(operation) => operation.name.as_str(),
        None => "",
    }
}

/// A value of `model` as items spell it. A reference is `$n=` and the value that it names; a call is its operation and
/// its arguments.
#[derive(Clone, Copy, Drop)]
struct SpelledValue<'a> {
    model: &'a Source,
    value: &'a Value,
}

impl fmt::Display for SpelledValue<'_> {
    fn fmt<W: fmt::Write>(&self, f: &mut fmt::Formatter<W>) -> fmt::Result {
        write_value_for_warning(f, self.model, self.value)
    }
}

#[cycle(write_value_for_warning)]
fn write_value_for_warning<W: fmt::Write>(
    f: &mut fmt::Formatter<W>,
    model: &Source,
    value: &Value,
) -> fmt::Result {
    match value {
        Value::Int(number) => write!(f, "{number}"),
        Value::Bool(truth) => write!(f, "{truth}"),
        Value::Text(text) => write_quoted_and_escaped(f, text.as_str()),
        Value::Tuple(parts) => write_node_for_warning(f, model, "tuple", parts.as_slice()),
        Value::List(parts) => write_node_for_warning(f, model, "list", parts.as_slice()),
        Value::Map(keys, values) => {
            write_map_for_warning(f, model, keys.get().as_slice(), values.get().as_slice())
        }
        Value::Var(number) => write!(f, "${number}"),
        Value::Ref(number, value) => {
            write!(f, "${number}=")?;
            write_value_for_warning(f, model, value.get())
        }
        Value::Call(operation, args) => {
            write_node_for_warning(
                f,
                model,
                operation_name_or_empty(model, *operation),
                args.as_slice(),
            )
        }
    }
}

/// Writes `head` and then `values`, in brackets.
#[cycle(write_value_for_warning)]
fn write_node_for_warning<W: fmt::Write>(
    f: &mut fmt::Formatter<W>,
    model: &Source,
    head: &str,
    values: &[Value],
) -> fmt::Result {
    write!(f, "({head}")?;
    for value in values {
        f.write_str(" ")?;
        write_value_for_warning(f, model, value)?;
    }
    f.write_str(")")
}

/// Writes a map with its entries.
#[cycle(write_value_for_warning)]
fn write_map_for_warning<W: fmt::Write>(
    f: &mut fmt::Formatter<W>,
    model: &Source,
    keys: &[Key],
    values: &[Value],
) -> fmt::Result {
    f.write_str("(map")?;
    for (key, value) in keys.iter().zip(values.iter()) {
        f.write_str(" (")?;
        write_map_key_for_warning(f, key)?;
        f.write_str(" ")?;
        write_value_for_warning(f, model, value)?;
        f.write_str(")")?;
    }
    f.write_str(")")
}

/// A value as items spell it: all of it, or its first 60 bytes and `...`.
pub fn shortened_value_text(
    alloc: Global,
    model: &Source,
    value: &Value,
) -> Result<String, AllocError> {
    let value = SpelledValue { model, value };
    let whole = format!(in alloc; "{value}")?;
    match whole.as_str().get(..MOST) {
        Some(start) if whole.len() > MOST => format!(in alloc; "{start}..."),
        _ => Ok(whole),
    }
}
