//! Renumbers values and commands.
ghost use Rattle.std.specs.Prelude.{◌≡◌, IfOk, map};
ghost use Rattle.pst_case.specs.Renumber.{new_number, renumbered, renumbered_command};

use crate::case::Command;
use pst_value::{Boxed, Items, Value, copy_keys};
use std::alloc::{AllocError, Global};

/// The new number of command `number`; `number` itself if `numbers` has none.
fn new_number(numbers: &[u32], number: u32) -> u32
    ensures { result ≡ new_number numbers.now number }
{
    if number == 0 {
        return number;
    }
    match numbers.get(number as usize - 1) {
        Some(new) => *new,
        None => number,
    }
}

/// The value with its variables and references renumbered at every depth. `numbers` has the new numbers of commands 1,
/// 2, and so on; other numbers stay.
#[cycle(renumber_value)]
#[tactic(auto, using(crate::proofs::Renumbering::renumbering))]
pub fn renumber_value(alloc: Global, value: &Value, numbers: &[u32]) -> Result<Value, AllocError>
    ensures { IfOk result (λ new. new ≡ renumbered (new_number numbers.now) value.now) }
{
    match value {
        Value::Int(n) => Ok(Value::Int(*n)),
        Value::Bool(b) => Ok(Value::Bool(*b)),
        Value::Text(text) => Ok(Value::Text(text.copy(alloc)?)),
        Value::Tuple(items) => Ok(Value::Tuple(renumber_values(alloc, items.as_slice(), numbers)?)),
        Value::List(items) => Ok(Value::List(renumber_values(alloc, items.as_slice(), numbers)?)),
        Value::Map(keys, values) => Ok(Value::Map(
            Boxed::new(alloc, copy_keys(keys.get().as_slice(), alloc)?)?,
            Boxed::new(
                alloc,
                renumber_values(alloc, values.get().as_slice(), numbers)?,
            )?,
        )),
        Value::Var(n) => Ok(Value::Var(new_number(numbers, *n))),
        Value::Ref(n, value) => Ok(Value::Ref(
            new_number(numbers, *n),
            Boxed::new(alloc, renumber_value(alloc, value.get(), numbers)?)?,
        )),
        Value::Call(op, args) => Ok(Value::Call(
            *op,
            renumber_values(alloc, args.as_slice(), numbers)?,
        )),
    }
}

#[cycle(renumber_value)]
fn renumber_values(
    alloc: Global,
    values: &[Value],
    numbers: &[u32],
) -> Result<Items<Value>, AllocError>
    ensures { IfOk result (λ all. all ≡ map (renumbered (new_number numbers.now)) values.now) }
{
    let mut all = Items::new(alloc);
    for value in values {
        all.push(renumber_value(alloc, value, numbers)?)?;
    }
    Ok(all)
}

/// The command with its arguments renumbered, as `renumber_value` does.
pub fn renumber_command(
    alloc: Global,
    command: &Command,
    numbers: &[u32],
) -> Result<Command, AllocError>
    ensures { IfOk result (λ new. new ≡ renumbered_command (new_number numbers.now) command.now) }
{
    Ok(Command {
        op: command.op,
        args: renumber_values(alloc, command.args.as_slice(), numbers)?,
    })
}

/// The commands with their arguments renumbered, as `renumber_value` does.
pub fn renumber_commands(
    alloc: Global,
    commands: &[Command],
    numbers: &[u32],
) -> Result<Items<Command>, AllocError>
    ensures { IfOk result (λ all. all ≡ map (renumbered_command (new_number numbers.now)) commands.now) }
{
    let mut all = Items::new(alloc);
    for command in commands {
        all.push(renumber_command(alloc, command, numbers)?)?;
    }
    Ok(all)
}
