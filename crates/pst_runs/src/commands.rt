//! The commands that trees spell.
ghost use Rattle.std.specs.Prelude.{◌≡◌, ◌++◌, IfOk, map, option_copied};
ghost use Rattle.pst_model.specs.Parts.{operation_number};
ghost use Rattle.pst_runs.specs.Commands as spec;

use crate::room::items_with_capacity;
use crate::values::{Spelling, read_value};
use pst_case::Command;
use pst_model::{Typed, operation_number};
use pst_sexpr::{Form, node_of, word_of};
use pst_value::{Items, Text, Value};
use std::alloc::{AllocError, Global};

/// A command as a tree spells it.
#[derive(Drop)]
pub enum SpelledCommand {
    /// Each argument spells a value.
    Whole(Command),
    /// An argument spells no value. The others are kept.
    Partial(Command),
    /// No operation has the name.
    Unknown,
}

/// A case as trees spell it.
#[derive(Drop)]
pub struct SpelledCase {
    pub prefix: Items<SpelledCommand>,
    pub branches: Items<Items<SpelledCommand>>,
    pub suffix: Items<SpelledCommand>,
}

/// The values that arguments spell, and whether each argument spells a value.
#[derive(Drop)]
struct Arguments {
    values: Items<Value>,
    are_all: bool,
}

/// Returns the number of the operation `name`.
#[tactic(auto, using(crate::proofs::Named::named))]
fn find_operation_number(typed: &Typed, name: &Text) -> Option<u32>
    ensures { result ≡ operation_number typed.now.items name.now }
{
    let number = operation_number(typed.source().items.as_slice(), name.as_bytes())?;
    Some(number as u32)
}

fn read_arguments(alloc: Global, typed: &Typed, forms: &[Form]) -> Result<Arguments, AllocError>
    ensures values { IfOk result (λ args.
        args.values ≡ spec.present (spec.arguments_of typed.now forms.now)) }
    ensures all { IfOk result (λ args.
        args.are_all ≡ spec.are_present (spec.arguments_of typed.now forms.now)) }
{
    let spelling = Spelling::of_arguments(typed);
    let mut values = items_with_capacity(alloc, forms.len())?;
    let mut are_all = true;
    for form in forms {
        match read_value(alloc, form, spelling)? {
            Some(value) => values.push(value)?,
            None => are_all = false,
        }
    }
    Ok(Arguments { values, are_all })
}

fn read_command(
    alloc: Global,
    typed: &Typed,
    form: &Form,
) -> Result<Option<SpelledCommand>, AllocError>
    ensures { IfOk result (λ command. command ≡ spec.command_of typed.now form.now) }
{
    let Some(parts) = node_of(form) else {
        return Ok(None);
    };
    let Some((first, arguments)) = parts.split_first() else {
        return Ok(None);
    };
    let Some(name) = word_of(first) else {
        return Ok(None);
    };
    let Arguments { values, are_all } = read_arguments(alloc, typed, arguments)?;
    let Some(op) = find_operation_number(typed, name) else {
        return Ok(Some(SpelledCommand::Unknown));
    };
    let command = Command { op, args: values };
    if are_all {
        Ok(Some(SpelledCommand::Whole(command)))
    } else {
        Ok(Some(SpelledCommand::Partial(command)))
    }
}

/// Returns the commands that trees spell. `None` if a tree does not have the form of a command.
pub fn read_commands(
    alloc: Global,
    typed: &Typed,
    forms: &[Form],
) -> Result<Option<Items<SpelledCommand>>, AllocError>
    ensures { IfOk result (λ commands. commands ≡ spec.commands_of typed.now forms.now) }
{
    let mut commands = items_with_capacity(alloc, forms.len())?;
    for form in forms {
        let Some(command) = read_command(alloc, typed, form)? else {
            return Ok(None);
        };
        commands.push(command)?;
    }
    Ok(Some(commands))
}
