//! The warning on scripts in which a callback faults, and the explanation of one.
ghost use Rattle.std.specs.Prelude.{◌≤◌};

use crate::scripts::{FaultyScript, ScriptSummary, find_faulty_script_of_trial};
use crate::warning::{tree_number_of_model_item, warning_notice};
use pst_case::Command;
use pst_compile::{Compiled, compile};
use pst_eval::{Callback, FaultPlace};
use pst_explain::explain_fault_in_generation;
use pst_model::{Item, Typed};
use pst_sources::{Input, Notice};
use pst_typing::load;
use std::alloc::{AllocError, Global};

/// The width of lines.
const WIDTH: usize = 80;

/// Whether an item is that of `callback`, which is not a callback of an operation.
fn is_item_of_model_callback(item: &Item, callback: Callback) -> bool {
    match item {
        Item::Init(_) => callback == Callback::Init,
        Item::Command(_) => callback == Callback::Command,
        _ => false,
    }
}

/// The number, from 0, of the item of `callback`: `init`, `command`, or the operation with the number `operation`.
fn item_number_of_callback_or_zero(items: &[Item], callback: Callback, operation: u32) -> usize {
    let mut operations: u32 = 0;
    let is_of_operation = !matches!(callback, Callback::Init | Callback::Command);
    for (number, item) in items.iter().enumerate() {
        if is_item_of_model_callback(item, callback) {
            return number;
        }
        if let Item::Op(_) = item {
            if is_of_operation && operations == operation {
                return number;
            }
            operations = operations.saturating_add(1);
        }
    }
    0
}

/// The path to the expression of the callback that faults. In the tree of an operation, its callbacks come after its
/// head, its name, its parameters and its type.
fn path_to_expression_of_faulting_callback(
    alloc: Global,
    items: &[Item],
    commands: &[Command],
    place: FaultPlace,
) -> Result<Vec<usize>, AllocError> {
    let operation = match commands.last() {
        Some(command) => command.op,
        None => 0,
    };
    let tree = tree_number_of_model_item(item_number_of_callback_or_zero(
        items,
        place.callback,
        operation,
    ));
    match place.callback {
        Callback::Init | Callback::Command => Vec::from_slice(alloc, &[0, tree, 1]),
        Callback::Pre => Vec::from_slice(alloc, &[0, tree, 4, 1]),
        Callback::Next => Vec::from_slice(alloc, &[0, tree, 5, 1]),
        Callback::Post => Vec::from_slice(alloc, &[0, tree, 6, 1]),
    }
}

/// Why a script faults, in the lines of `pst explain`.
fn script_fault_explanation_or_empty(
    alloc: Global,
    typed: &Typed,
    script: FaultyScript,
) -> Result<String, AllocError> {
    let FaultyScript { commands, place } = script;
    let Some(text) = explain_fault_in_generation(alloc, typed, commands, place, WIDTH)? else {
        return Ok(String::new(alloc));
    };
    match std::str::from_utf8(text.as_slice()) {
        Ok(text) => String::from_str(alloc, text),
        Err(_) => Ok(String::new(alloc)),
    }
}

/// The text that says how many scripts fault. It has no number if not all scripts were generated.
fn faulty_script_count_text(alloc: Global, scripts: &ScriptSummary) -> Result<String, AllocError> {
    let count = scripts.count;
    let faulty = scripts.faulty;
    if scripts.is_cut {
        String::from_str(alloc, "a generated script faults here")
    } else if faulty == count {
        String::from_str(
            alloc,
            "every generated script faults, the first of them here",
        )
    } else {
        format!(in alloc; "{faulty} of {count} generated scripts fault, the first of them here")
    }
}

/// The warning that scripts fault, with the explanation of the first of them, if there is one.
pub fn faulty_scripts_warning_if_any(
    alloc: Global,
    input: &Input<'_>,
    typed: &Typed,
    scripts: ScriptSummary,
) -> Result<Vec<Notice>, AllocError> {
    let mut warnings = Vec::new(alloc);
    let what = faulty_script_count_text(alloc, &scripts)?;
    let ScriptSummary {
        called: _called,
        count: _,
        faulty: _,
        first_faulty,
        is_cut: _,
    } = scripts;
    let Some(first) = first_faulty else {
        return Ok(warnings);
    };
    let items = typed.source().items.as_slice();
    let path = path_to_expression_of_faulting_callback(
        alloc,
        items,
        first.commands.as_slice(),
        first.place,
    )?;
    let mut faults = warning_notice(
        alloc,
        input,
        path.as_slice(),
        what,
        "a campaign has no case for such a script and counts it under `genfault`",
    )?;
    faults.lines = script_fault_explanation_or_empty(alloc, typed, first)?;
    warnings.push(faults)?;
    Ok(warnings)
}

/// Says why a trial of a campaign has no case, if a callback faults in its script, in the lines of `pst explain`.
/// Returns `None` if the model is refused, or no callback faults.
///
/// `input` begins with the model, `seed` and `commands` are those of the campaign's plan, and `number` is the number of
/// the trial.
pub fn explanation_why_trial_has_no_case(
    alloc: Global,
    input: &[u8],
    seed: u64,
    number: u64,
    commands: u32,
) -> Result<Option<String>, AllocError>
    requires some { 1 ≤ commands }
    requires few { commands ≤ 64 }
{
    let Ok(file) = load(alloc, input)? else {
        return Ok(None);
    };
    let Ok(compiled) = compile(alloc, file.typed) else {
        return Err(AllocError);
    };
    match find_faulty_script_of_trial(alloc, &compiled, seed, number, commands)? {
        Some(script) => Ok(Some(script_fault_explanation_or_empty(
            alloc,
            compiled.typed(),
            script,
        )?)),
        None => Ok(None),
    }
}
