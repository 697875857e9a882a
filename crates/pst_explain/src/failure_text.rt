//! The text of callbacks that fault, in items and in generated scripts, and of preconditions that are false.

use crate::failures::{
    ExpressionWithFaultyPart, ExpressionWithNameValues, Failure, FaultyPartWithValues,
    command_callback_failure_after_script, failure_at_fault_place,
};
use crate::walk_text::add_interleaving_states_text;
use pst_case::{Case, CaseFaultKind, Command, Run, shape};
use pst_eval::{Callback, FaultPlace};
use pst_model::{Source, Typed};
use pst_reasons::AnyOrder;
use pst_scene::{
    Binding, Call, CasePart, Page, Scene, Table, add_interleaving_letters_or_dash, add_str,
    copy_explanation_text, expression_text, join_explanation_parts, row_of_two_plain_cells,
    scene_of_run, value_text,
};
use pst_value::{Fault, Items};
use std::alloc::{AllocError, Global};

/// What an explanation says in place of the states before a failure, if their search takes too many steps.
const NO_WALK: &str = "The states before it are left out: their search takes too many steps.";

/// Adds a row with a name and its value.
fn add_name_and_value_row(
    table: &mut Table,
    alloc: Global,
    model: &Source,
    binding: &Binding,
) -> Result<(), AllocError> {
    let name = Vec::from_slice(alloc, binding.name.as_slice())?;
    let value = value_text(alloc, model, &binding.value)?;
    table.add_row(row_of_two_plain_cells(alloc, name, value)?)
}

/// Adds an expression, and the names in it with their values.
fn add_expression_and_values_of_names(
    page: &mut Page,
    alloc: Global,
    model: &Source,
    evaluated: &ExpressionWithNameValues<'_>,
) -> Result<(), AllocError> {
    let text = expression_text(alloc, evaluated.expr)?;
    page.add_line_cut_to_width(alloc, 4, text.as_slice())?;
    let mut table = Table::new(alloc)?;
    for binding in &evaluated.names {
        add_name_and_value_row(&mut table, alloc, model, binding)?;
    }
    table.write_in_columns_cut_to_fit(page, alloc, 6)
}

/// Adds the part of an expression that faults.
fn add_faulty_part_text(
    page: &mut Page,
    alloc: Global,
    model: &Source,
    part: &FaultyPartWithValues<'_>,
) -> Result<(), AllocError> {
    match part.function {
        None => page.add_wrapped_sentence(alloc, 2, b"It faults in this part:")?,
        Some(name) => {
            let parts: [&[u8]; 3] = [
                b"It faults in this part of the function ",
                name.as_bytes(),
                b":",
            ];
            let sentence = join_explanation_parts(alloc, &parts)?;
            page.add_wrapped_sentence(alloc, 2, sentence.as_slice())?;
        }
    }
    add_expression_and_values_of_names(page, alloc, model, &part.evaluated)
}

/// Adds an expression, and the part of it that faults.
fn add_expression_and_faulty_part(
    page: &mut Page,
    alloc: Global,
    model: &Source,
    expression: &ExpressionWithFaultyPart<'_>,
) -> Result<(), AllocError> {
    add_expression_and_values_of_names(page, alloc, model, &expression.whole)?;
    match &expression.part {
        Some(part) => add_faulty_part_text(page, alloc, model, part),
        None => Ok(()),
    }
}

/// The place and the spelling of a command, and its reply if there is one.
fn add_call_with_reply_if_any(
    out: &mut Vec<u8>,
    alloc: Global,
    model: &Source,
    call: &Call<'_>,
) -> Result<(), AllocError> {
    let text = match call.reply {
        Some(_) => call.text_with_reply_or_variable(alloc, model)?,
        None => call.text(alloc, model)?,
    };
    out.extend_from_slice(text.as_slice())
}

/// Returns whether `interleaving` has a letter for each command of the branches.
fn is_interleaving_of_full_length(scene: &Scene<'_>, interleaving: &[usize]) -> bool {
    if scene.has_unknown {
        return false;
    }
    let mut count = 0usize;
    for branch in &scene.calls.branches {
        count = count.saturating_add(branch.len());
    }
    interleaving.len() == count
}

/// Adds the interleaving in which a callback of a command of a branch faults.
fn add_fault_interleaving_text(
    text: &mut Vec<u8>,
    scene: &Scene<'_>,
    failure: &Failure<'_>,
) -> Result<(), AllocError> {
    let Some(walk) = &failure.walk else {
        return add_str(text, " in some interleaving");
    };
    let interleaving = walk.interleaving.as_slice();
    add_str(
        text,
        if is_interleaving_of_full_length(scene, interleaving) {
            " in the interleaving "
        } else {
            " in an interleaving that begins with "
        },
    )?;
    add_interleaving_letters_or_dash(text, interleaving)
}

/// Returns a sentence that says which callback of a command faults, and in which interleaving.
fn fault_sentence_of_call(
    alloc: Global,
    scene: &Scene<'_>,
    failure: &Failure<'_>,
    call: &Call<'_>,
    fault: Fault,
) -> Result<Vec<u8>, AllocError> {
    let mut text = copy_explanation_text(alloc, "The callback ")?;
    add_str(&mut text, failure.callback.name())?;
    add_str(&mut text, " of ")?;
    add_call_with_reply_if_any(&mut text, alloc, scene.model, call)?;
    add_str(&mut text, " faults with ")?;
    add_str(&mut text, fault.name())?;
    if call.part != CasePart::Prefix {
        add_fault_interleaving_text(&mut text, scene, failure)?;
    }
    add_str(&mut text, ":")?;
    Ok(text)
}

/// Returns a sentence that says which callback faults, if it belongs to no command.
fn fault_sentence_without_call(
    alloc: Global,
    callback: Callback,
    fault: Fault,
) -> Result<Vec<u8>, AllocError> {
    let mut text = copy_explanation_text(
        alloc,
        match callback {
            Callback::Command => "The callback command faults with ",
            _ => "The initial state faults with ",
        },
    )?;
    add_str(&mut text, fault.name())?;
    add_str(&mut text, ":")?;
    Ok(text)
}

/// Returns a sentence that says that the precondition of a command is false in an interleaving.
fn false_precondition_sentence(
    alloc: Global,
    model: &Source,
    failure: &Failure<'_>,
) -> Result<Vec<u8>, AllocError> {
    let mut text = copy_explanation_text(alloc, "In the interleaving ")?;
    if let Some(walk) = &failure.walk {
        add_interleaving_letters_or_dash(&mut text, walk.interleaving.as_slice())?;
    }
    add_str(&mut text, " the precondition of ")?;
    if let Some(call) = &failure.call {
        let command = call.text(alloc, model)?;
        text.extend_from_slice(command.as_slice())?;
    }
    add_str(&mut text, " is false:")?;
    Ok(text)
}

/// Returns a sentence that says what fails.
fn failure_sentence(
    alloc: Global,
    scene: &Scene<'_>,
    failure: &Failure<'_>,
) -> Result<Vec<u8>, AllocError> {
    match (failure.fault, &failure.call) {
        (Some(fault), Some(call)) => fault_sentence_of_call(alloc, scene, failure, call, fault),
        (Some(fault), None) => fault_sentence_without_call(alloc, failure.callback, fault),
        (None, _) => false_precondition_sentence(alloc, scene.model, failure),
    }
}

/// Adds what fails: the callback's expression, the part of it that faults, and the states before.
pub fn add_failure_explanation_text(
    page: &mut Page,
    alloc: Global,
    scene: &Scene<'_>,
    failure: &Failure<'_>,
) -> Result<(), AllocError> {
    let sentence = failure_sentence(alloc, scene, failure)?;
    page.add_wrapped_sentence(alloc, 2, sentence.as_slice())?;
    if let Some(expression) = &failure.expression {
        add_expression_and_faulty_part(page, alloc, scene.model, expression)?;
    }
    if failure.callback == Callback::Init {
        return Ok(());
    }
    let Some(walk) = &failure.walk else {
        return page.add_wrapped_sentence(alloc, 2, NO_WALK.as_bytes());
    };
    page.add_wrapped_sentence(alloc, 2, b"The states before it:")?;
    add_interleaving_states_text(page, alloc, scene.model, walk)
}

/// The case whose prefix are the commands, with two empty branches, if it has the shape of the model.
fn run_with_script_as_prefix(
    alloc: Global,
    typed: &Typed,
    commands: Items<Command>,
) -> Result<Option<Run>, AllocError> {
    let mut branches = Items::new(alloc);
    branches.push(Items::new(alloc))?;
    branches.push(Items::new(alloc))?;
    let case = Case {
        prefix: commands,
        branches,
        suffix: Items::new(alloc),
    };
    match shape(alloc, typed, case) {
        Ok(shaped) => Ok(Some(Run {
            shaped,
            history: None,
        })),
        Err((_, fault)) => match fault.kind {
            CaseFaultKind::NoMemory => Err(AllocError),
            _ => Ok(None),
        },
    }
}

/// Returns the failure at `place` after the script, whose commands are all commands of the item.
fn failure_after_script<'a>(
    alloc: Global,
    scene: &Scene<'a>,
    place: FaultPlace,
) -> Result<Failure<'a>, AllocError> {
    match place.callback {
        Callback::Command => command_callback_failure_after_script(alloc, scene, place.fault),
        _ => failure_at_fault_place(alloc, &AnyOrder, scene, &[], place),
    }
}

/// Returns the text of a failure, in lines of at most `width` bytes as far as sentences allow.
fn failure_text(
    alloc: Global,
    scene: &Scene<'_>,
    failure: &Failure<'_>,
    width: usize,
) -> Result<Vec<u8>, AllocError> {
    let mut page = Page::new(alloc, width);
    add_failure_explanation_text(&mut page, alloc, scene, failure)?;
    Ok(page.into_text())
}

/// Returns the text of the failure at `place` after the script that is the prefix of `run`.
fn failure_text_after_script(
    alloc: Global,
    typed: &Typed,
    run: &Run,
    place: FaultPlace,
    width: usize,
) -> Result<Vec<u8>, AllocError> {
    let scene = scene_of_run(alloc, typed, run)?;
    let failure = failure_after_script(alloc, &scene, place)?;
    failure_text(alloc, &scene, &failure, width)
}

/// Returns why no case can be generated, in lines of at most `width` bytes as far as sentences allow: the callback that
/// faults, its expression with the values of its names, the part of it that faults, and the states before. `commands`
/// are those of the script so far; if `pre` or `next` faults, the last of them is its command. `None` if they are no
/// script of the model.
pub fn explain_fault_in_generation(
    alloc: Global,
    typed: &Typed,
    commands: Items<Command>,
    place: FaultPlace,
    width: usize,
) -> Result<Option<Vec<u8>>, AllocError> {
    let Some(run) = run_with_script_as_prefix(alloc, typed, commands)? else {
        return Ok(None);
    };
    let text = failure_text_after_script(alloc, typed, &run, place, width)?;
    Ok(Some(text))
}
