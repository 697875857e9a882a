//! The text of interleavings.

use crate::walks::{BlockedCall, InterleavingStates};
use pst_model::Source;
use pst_scene::{
    Call, Page, PreAnswer, Style, Table, add_str, add_value_spelling, dead_end_text,
    join_explanation_parts, row_of_two_plain_cells,
};
use pst_value::Value;
use std::alloc::{AllocError, Global};

/// Ends a row by the cell of a state.
fn add_state_cell_and_end_row(
    table: &mut Table,
    alloc: Global,
    model: &Source,
    state: &Value,
) -> Result<(), AllocError> {
    table.end_cell(Style::Plain)?;
    add_str(&mut table.text, "state ")?;
    add_value_spelling(&mut table.text, alloc, model, state)?;
    table.end_cell(Style::Plain)?;
    table.end_row();
    Ok(())
}

/// Adds the initial state, and the commands as rows with the state after each.
pub fn add_interleaving_states_text(
    page: &mut Page,
    alloc: Global,
    model: &Source,
    walk: &InterleavingStates<'_>,
) -> Result<(), AllocError> {
    let Some(start) = &walk.start else {
        return Ok(());
    };
    let mut table = Table::new(alloc)?;
    add_str(&mut table.text, "at first")?;
    add_state_cell_and_end_row(&mut table, alloc, model, start)?;
    for step in &walk.steps {
        step.call
            .add_text_with_reply_or_variable(&mut table.text, alloc, model)?;
        add_state_cell_and_end_row(&mut table, alloc, model, &step.state)?;
    }
    table.write_in_columns_or_stacked(page, alloc, 4)
}

/// The sentence on a precondition that is not true.
fn sentence_on_precondition_unless_true(
    alloc: Global,
    model: &Source,
    call: &Call<'_>,
    answer: PreAnswer,
) -> Result<Option<Vec<u8>>, AllocError> {
    if answer == PreAnswer::Holds {
        return Ok(None);
    }
    let text = call.text(alloc, model)?;
    let text = text.as_slice();
    match answer {
        PreAnswer::Holds => Ok(None),
        PreAnswer::Fails => {
            let parts: [&[u8]; 3] = [
                b"The precondition of ",
                text,
                b" is false there; the verdict on a recorded run does not depend on it.",
            ];
            Ok(Some(join_explanation_parts(alloc, &parts)?))
        }
        PreAnswer::Faults(fault) => {
            let parts: [&[u8]; 5] = [
                b"The precondition of ",
                text,
                b" faults with ",
                fault.name().as_bytes(),
                b" there; the verdict on a recorded run does not depend on it.",
            ];
            Ok(Some(join_explanation_parts(alloc, &parts)?))
        }
    }
}

/// Adds the interleaving that explains an item, and the preconditions that are not true along it.
pub fn add_explaining_interleaving_with_precondition_notes(
    page: &mut Page,
    alloc: Global,
    model: &Source,
    walk: &InterleavingStates<'_>,
) -> Result<(), AllocError> {
    add_interleaving_states_text(page, alloc, model, walk)?;
    for step in &walk.steps {
        let sentence = sentence_on_precondition_unless_true(
            alloc,
            model,
            &step.call,
            step.precondition,
        )?;
        if let Some(sentence) = sentence {
            page.add_wrapped_sentence(alloc, 2, sentence.as_slice())?;
        }
    }
    Ok(())
}

/// Adds a row of a command that cannot come next, with its reply, and the reason.
fn add_blocked_call_row(
    table: &mut Table,
    alloc: Global,
    model: &Source,
    stop: &BlockedCall<'_>,
) -> Result<(), AllocError> {
    let text = stop.call.text_with_reply_or_variable(alloc, model)?;
    let why = dead_end_text(alloc, model, &stop.why)?;
    table.add_row(row_of_two_plain_cells(alloc, text, why)?)
}

/// The sentence before the commands that cannot come next.
fn sentence_before_blocked_calls(stopped: &[BlockedCall<'_>]) -> &'static str {
    if stopped.iter().any(|stop| stop.call.has_unknown_outcome()) {
        return "There no next command fits:";
    }
    if stopped.len() == 1 {
        "There the postcondition of the next command is false:"
    } else {
        "There the postcondition of each next command is false:"
    }
}

/// Adds each command that cannot come next, with its reply and the reason.
pub fn add_blocked_calls_text(
    page: &mut Page,
    alloc: Global,
    model: &Source,
    stopped: &[BlockedCall<'_>],
) -> Result<(), AllocError> {
    let sentence = sentence_before_blocked_calls(stopped);
    page.add_wrapped_sentence(alloc, 2, sentence.as_bytes())?;
    let mut table = Table::new(alloc)?;
    for stop in stopped {
        add_blocked_call_row(&mut table, alloc, model, stop)?;
    }
    table.write_in_columns_or_stacked(page, alloc, 4)
}
