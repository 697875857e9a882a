//! Cases written as texts.
ghost use Rattle.std.specs.Prelude.{◌+◌, ◌^◌, ◌<◌, ◌≤◌, length};
ghost use Rattle.std.specs.Bool.{OnTrue};
ghost use Rattle.pst_case.specs.Shape.{commands_of, joined};
ghost use Rattle.pst_shrink.specs.Weight.{weight};

use pst_case::{Case, Command};
use pst_value::{Boxed, Items, Key, Value};
use std::alloc::{AllocError, Global};

/// The variable of a digit.
fn variable_of_digit(digit: u8) -> Value {
    Value::Var(digit.wrapping_sub(b'0') as u32)
}

/// The map of two variables, by the keys 1 and 2.
fn map_of_two_variables(alloc: Global, first: u8, second: u8) -> Result<Value, AllocError> {
    let mut keys = Items::new(alloc);
    keys.push(Key::Int(1))?;
    keys.push(Key::Int(2))?;
    let mut values = Items::new(alloc);
    values.push(variable_of_digit(first))?;
    values.push(variable_of_digit(second))?;
    Ok(Value::Map(Boxed::new(alloc, keys)?, Boxed::new(alloc, values)?))
}

/// The arguments that the digits of variables spell: none, a variable, or a map of two.
fn variable_or_map_argument_of_digits(
    alloc: Global,
    digits: &[u8],
) -> Result<Items<Value>, AllocError> {
    let mut args = Items::new(alloc);
    let Some(first) = digits.first() else {
        return Ok(args);
    };
    let value = match digits.get(1) {
        Some(second) => map_of_two_variables(alloc, *first, *second)?,
        None => variable_of_digit(*first),
    };
    args.push(value)?;
    Ok(args)
}

/// The command of a word: a letter for its operation, and the digits of the variables in its argument.
fn command_of_letter_and_digits(alloc: Global, word: &str) -> Result<Command, AllocError> {
    let (op, digits) = match word.as_bytes().split_first() {
        Some((op, digits)) => (*op, digits),
        None => (0, word.as_bytes()),
    };
    Ok(Command {
        op: op as u32,
        args: variable_or_map_argument_of_digits(alloc, digits)?,
    })
}

fn commands_of_spaced_text(alloc: Global, text: &str) -> Result<Items<Command>, AllocError> {
    let mut commands = Items::new(alloc);
    for word in text.split_whitespace() {
        commands.push(command_of_letter_and_digits(alloc, word)?)?;
    }
    Ok(commands)
}

/// The case of a text, `PREFIX | BRANCH | BRANCH > SUFFIX`, each part of which is words with spaces between.
/// The suffix may be left out.
pub(crate) fn case_of_short_text(alloc: Global, text: &str) -> Result<Case, AllocError> {
    let (before, suffix) = text.split_once('>').unwrap_or((text, ""));
    let (prefix, rest) = before.split_once('|').unwrap_or((before, ""));
    let mut branches = Items::new(alloc);
    for branch in rest.split('|') {
        branches.push(commands_of_spaced_text(alloc, branch)?)?;
    }
    Ok(Case {
        prefix: commands_of_spaced_text(alloc, prefix)?,
        branches,
        suffix: commands_of_spaced_text(alloc, suffix)?,
    })
}

/// Whether the branches have at most `room` commands together.
#[tactic(auto, using(pst_shrink::proofs::Counting::counting))]
fn are_branch_commands_within_limit(branches: &[Items<Command>], room: usize) -> bool
    ensures { OnTrue result (length (joined branches.now) ≤ room) }
{
    let Some((branch, branches)) = branches.split_first() else {
        return true;
    };
    branch.len() <= room && are_branch_commands_within_limit(branches, room - branch.len())
}

/// Whether the case has at most 100 commands in each of its three parts.
#[tactic(auto, using(pst_shrink::proofs::Counting::counting))]
pub(crate) fn is_case_small_enough_to_shrink(case: &Case) -> bool
    ensures commands { OnTrue result (length (commands_of case.now) + 1 < 2 ^ 32) }
    ensures weight { OnTrue result (weight case.now + 1 < 2 ^ 32) }
{
    case.prefix.len() <= 100
        && are_branch_commands_within_limit(case.branches.as_slice(), 100)
        && case.suffix.len() <= 100
}
