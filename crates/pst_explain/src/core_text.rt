//! The text of cores.

use crate::allowing::WrongAnswer;
use crate::cores::{Core, CoreAnswer};
use crate::parts::{MarkedRun, add_marked_run_text};
use pst_model::Source;
use pst_reasons::AllowedValues;
use pst_scene::{
    Call, Cell, Page, Scene, Style, Table, add_interleaving_letters_or_dash, add_reply_spelling,
    add_str, add_value_spelling, copy_explanation_text, expression_text, false_postcondition_text,
    join_explanation_parts, operation_of_call, value_text,
};
use pst_value::Value;
use std::alloc::{AllocError, Global};

/// The place and the spelling of a command, and what it answered.
fn call_and_answer_text(
    alloc: Global,
    model: &Source,
    call: &Call<'_>,
) -> Result<Vec<u8>, AllocError> {
    let mut text = call.text(alloc, model)?;
    if let Some(reply) = call.reply {
        add_str(&mut text, " answered ")?;
        add_reply_spelling(&mut text, alloc, model, reply)?;
    }
    Ok(text)
}

/// The postcondition of a command.
fn labelled_postcondition_text(
    alloc: Global,
    scene: &Scene<'_>,
    call: &Call<'_>,
) -> Result<Vec<u8>, AllocError> {
    let mut text = copy_explanation_text(alloc, "postcondition ")?;
    if let Some(operation) = operation_of_call(scene, call) {
        let expression = expression_text(alloc, &operation.post)?;
        text.extend_from_slice(expression.as_slice())?;
    }
    Ok(text)
}

/// Returns the allowed values in one text, and `..` if there may be others.
fn allowed_values_text(
    alloc: Global,
    model: &Source,
    found: &AllowedValues,
) -> Result<Vec<u8>, AllocError> {
    let mut text = copy_explanation_text(alloc, "allowed: ")?;
    for (index, value) in found.values.as_slice().iter().enumerate() {
        if index > 0 {
            add_str(&mut text, ", ")?;
        }
        add_value_spelling(&mut text, alloc, model, value)?;
    }
    if !found.all {
        add_str(&mut text, " ..")?;
    }
    Ok(text)
}

/// Adds a cell for an allowed value.
fn add_allowed_value_cell(
    row: &mut Vec<Cell>,
    alloc: Global,
    model: &Source,
    value: &Value,
) -> Result<(), AllocError> {
    let value = value_text(alloc, model, value)?;
    let text = join_explanation_parts(alloc, &[b"allowed: ", value.as_slice()])?;
    row.push(Cell::styled(Style::Right, text))?;
    Ok(())
}

/// Adds a cell for each allowed value, and one of `..` if there may be others.
fn add_allowed_value_cells_dots_if_more(
    row: &mut Vec<Cell>,
    alloc: Global,
    model: &Source,
    found: &AllowedValues,
) -> Result<(), AllocError> {
    for value in found.values.as_slice() {
        add_allowed_value_cell(row, alloc, model, value)?;
    }
    if !found.all {
        row.push(Cell::styled(Style::Right, copy_explanation_text(alloc, "..")?))?;
    }
    Ok(())
}

/// Adds a cell of the allowed values, if there are some, or a cell for each if one has more bytes than a line.
fn add_allowed_values_cell_or_cells(
    row: &mut Vec<Cell>,
    alloc: Global,
    model: &Source,
    found: &AllowedValues,
    line: usize,
) -> Result<(), AllocError> {
    if found.values.is_empty() {
        return Ok(());
    }
    let text = allowed_values_text(alloc, model, found)?;
    if text.len() > line {
        return add_allowed_value_cells_dots_if_more(row, alloc, model, found);
    }
    row.push(Cell::styled(Style::Right, text))?;
    Ok(())
}

/// Returns why an answer is wrong in an interleaving, and names the interleaving.
fn why_answer_is_wrong_text(
    alloc: Global,
    model: &Source,
    wrong: &WrongAnswer<'_>,
) -> Result<Vec<u8>, AllocError> {
    let mut text = false_postcondition_text(alloc, model, &wrong.falsity)?;
    if !wrong.interleaving.is_empty() {
        add_str(&mut text, ", in the order ")?;
        add_interleaving_letters_or_dash(&mut text, wrong.interleaving.as_slice())?;
    }
    Ok(text)
}

/// Returns the row of an answer: the answer, the postcondition, why it is wrong if that is needed, and what the model
/// allows in its place. A line has room for `line` bytes.
fn core_answer_row(
    alloc: Global,
    scene: &Scene<'_>,
    answer: &CoreAnswer<'_>,
    line: usize,
) -> Result<Vec<Cell>, AllocError> {
    let model = scene.model;
    let left = call_and_answer_text(alloc, model, &answer.call)?;
    let post = labelled_postcondition_text(alloc, scene, &answer.call)?;
    let mut row = Vec::new(alloc);
    row.push(Cell::styled(Style::Wrong, left))?;
    row.push(Cell::plain(post))?;
    if answer.needs_reason_why_wrong() {
        row.push(Cell::plain(match &answer.wrong {
            Some(wrong) => why_answer_is_wrong_text(alloc, model, wrong)?,
            None => Vec::new(alloc),
        }))?;
    }
    add_allowed_values_cell_or_cells(&mut row, alloc, model, &answer.allowed, line)?;
    Ok(row)
}

/// What an explanation says in place of a core, if its search takes too many steps.
const NO_CORE: &str =
    "The answers that cannot all be right are left out: their search takes too many steps.";

/// What an explanation says after a core, if the search of its allowed answers takes too many steps.
const CUT: &str = "Some allowed answers are left out: their search takes too many steps.";

/// The sentence before the commands of a core.
fn core_introduction_sentence(count: usize) -> &'static str {
    match count {
        0 => "No answer is to blame: the model faults in every interleaving, whatever is answered.",
        1 => "This answer cannot be right, whatever the others are:",
        _ => "These answers cannot all be right; without any one of them the others can:",
    }
}

/// Adds the answers of a core, and what the model allows in the place of each.
fn add_core_answers_text(
    page: &mut Page,
    alloc: Global,
    scene: &Scene<'_>,
    core: &Core<'_>,
) -> Result<(), AllocError> {
    let mut table = Table::new(alloc)?;
    let line = page.width.saturating_sub(6);
    for answer in &core.answers {
        table.add_row(core_answer_row(alloc, scene, answer, line)?)?;
    }
    table.write_in_columns_or_stacked(page, alloc, 4)
}

/// Adds the sentences between the answers of a core and the run.
fn add_sentences_before_marked_run(
    page: &mut Page,
    alloc: Global,
    core: &Core<'_>,
) -> Result<(), AllocError> {
    if core.is_cut {
        page.add_wrapped_sentence(alloc, 2, CUT.as_bytes())?;
    }
    if core.answers.is_empty() {
        return page.add_wrapped_sentence(alloc, 2, b"The run:");
    }
    if core.has_answers_only_in_prefix() {
        page.add_wrapped_sentence(alloc, 2, b"The prefix alone shows it: no race is needed.")?;
    }
    page.add_wrapped_sentence(alloc, 2, b"The run, with * before what is reported above:")
}

/// Adds a core, and the run with the commands of the core marked.
fn add_core_and_marked_run_text(
    page: &mut Page,
    alloc: Global,
    scene: &Scene<'_>,
    is_timed: bool,
    core: &Core<'_>,
) -> Result<(), AllocError> {
    page.add_wrapped_sentence(
        alloc,
        2,
        core_introduction_sentence(core.answers.len()).as_bytes(),
    )?;
    add_core_answers_text(page, alloc, scene, core)?;
    add_sentences_before_marked_run(page, alloc, core)?;
    let numbers = core.command_numbers(alloc)?;
    let run = MarkedRun {
        scene,
        is_timed,
        marked: numbers.as_slice(),
    };
    add_marked_run_text(page, alloc, &run)
}

/// Adds a core, and the run with the commands of the core marked. `None` if the search of the core takes too many steps.
pub fn add_optional_core_and_run_text(
    page: &mut Page,
    alloc: Global,
    scene: &Scene<'_>,
    is_timed: bool,
    core: Option<&Core<'_>>,
) -> Result<(), AllocError> {
    match core {
        Some(core) => add_core_and_marked_run_text(page, alloc, scene, is_timed, core),
        None => {
            page.add_wrapped_sentence(alloc, 2, NO_CORE.as_bytes())?;
            page.add_wrapped_sentence(alloc, 2, b"The run:")?;
            let run = MarkedRun {
                scene,
                is_timed,
                marked: &[],
            };
            add_marked_run_text(page, alloc, &run)
        }
    }
}
