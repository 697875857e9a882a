//! The answers about trees and models.

use pst_cli::{Status, check_text, list_text};
use pst_compile::compile;
use pst_eval::{Callbacks, Plain};
use pst_model::Typed;
use pst_sexpr::{Out, Tree, read, write};
use pst_tests::support::typed_model_of_text;
use pst_tests::{Model, print_model, read_model};
use pst_value::Value;
use std::alloc::{AllocError, Global};

/// The number of trees that a text spells, or the first fault.
pub fn tree_count_or_fault_answer(alloc: Global, text: &str) -> Result<String, AllocError> {
    match read(alloc, text.as_bytes()) {
        Ok(trees) => {
            let count = trees.len();
            format!(in alloc; "{count} trees")
        }
        Err(fault) => format!(in alloc; "{fault}"),
    }
}

/// `read` if the trees begin with a model, and the fault otherwise.
fn model_reading_answer_for_trees(alloc: Global, trees: &[Tree]) -> Result<String, AllocError> {
    match read_model(alloc, trees) {
        Ok(_) => String::from_str(alloc, "read"),
        Err(fault) => format!(in alloc; "{fault}"),
    }
}

/// `read` if the text begins with a model, and the fault otherwise.
pub fn model_reading_answer_for_text(alloc: Global, text: &str) -> Result<String, AllocError> {
    match read(alloc, text.as_bytes()) {
        Ok(trees) => model_reading_answer_for_trees(alloc, trees.as_slice()),
        Err(fault) => format!(in alloc; "{fault}"),
    }
}

/// Bytes as a text.
pub fn text_of_bytes_or_note(alloc: Global, bytes: &[u8]) -> Result<String, AllocError> {
    match std::str::from_utf8(bytes) {
        Ok(text) => String::from_str(alloc, text),
        Err(_) => String::from_str(alloc, "no text"),
    }
}

/// The lines, with `, ` between them.
pub fn lines_joined_by_commas(alloc: Global, bytes: &[u8]) -> Result<String, AllocError> {
    let text = text_of_bytes_or_note(alloc, bytes)?;
    text.as_str().trim().replace(alloc, "\n", ", ")
}

/// A status, and the lines that were written, with `, ` between them.
pub fn status_and_lines_answer(
    alloc: Global,
    status: Status,
    bytes: &[u8],
) -> Result<String, AllocError> {
    let status = status.code();
    let lines = lines_joined_by_commas(alloc, bytes)?;
    format!(in alloc; "{status} {lines}")
}

/// The output of `pst check`: its status and its line.
pub fn check_output_answer(alloc: Global, text: &str) -> Result<String, AllocError> {
    let mut sink = Out::new(Vec::new(alloc));
    let status = check_text(alloc, text.as_bytes(), &mut sink);
    status_and_lines_answer(alloc, status, sink.into_inner().as_slice())
}

/// The output of `pst list`: its status, and `some lines` if the model is accepted, or the line of the refusal.
pub fn list_status_or_refusal_answer(alloc: Global, text: &str) -> Result<String, AllocError> {
    let mut sink = Out::new(Vec::new(alloc));
    let status = list_text(alloc, text.as_bytes(), &mut sink);
    let written = sink.into_inner();
    match status {
        Status::Accepted if written.len() > 1 => String::from_str(alloc, "0 some lines"),
        _ => status_and_lines_answer(alloc, status, written.as_slice()),
    }
}

/// The model that a text begins with.
fn read_model_at_text_start(alloc: Global, text: &str) -> Option<Model> {
    let trees = read(alloc, text.as_bytes()).ok()?;
    read_model(alloc, trees.as_slice()).ok()
}

/// The spelling of a tree.
pub fn spell_tree_as_text(alloc: Global, tree: &Tree) -> Result<String, AllocError> {
    let mut sink = Out::new(Vec::new(alloc));
    let _ = write(tree, &mut sink);
    text_of_bytes_or_note(alloc, sink.into_inner().as_slice())
}

/// The spelling of the model that a text begins with. It has to be read as that model again.
pub fn printed_and_reread_model_answer(alloc: Global, text: &str) -> Result<String, AllocError> {
    let Some(model) = read_model_at_text_start(alloc, text) else {
        return String::from_str(alloc, "no model");
    };
    let printed = spell_tree_as_text(alloc, &print_model(alloc, &model)?)?;
    let is_kept = match read_model_at_text_start(alloc, printed.as_str()) {
        Some(again) => *again.source() == *model.source(),
        None => false,
    };
    if is_kept {
        Ok(printed)
    } else {
        format!(in alloc; "another model: {printed}")
    }
}

/// The initial state by `callbacks`, an integer, and the turns left; or the fault.
fn initial_state_text_by_callbacks<C: Callbacks>(
    alloc: Global,
    callbacks: &C,
) -> Result<String, AllocError> {
    match callbacks.init(alloc)? {
        Ok((Value::Int(number), turns)) => format!(in alloc; "{number} {turns}"),
        Ok(_) => String::from_str(alloc, "no integer"),
        Err(fault) => String::from_str(alloc, fault.name()),
    }
}

/// The initial state of a model by compiled code.
fn initial_state_text_by_compiled_code(alloc: Global, typed: Typed) -> Result<String, AllocError> {
    match compile(alloc, typed) {
        Ok(compiled) => initial_state_text_by_callbacks(alloc, &compiled),
        Err(_) => String::from_str(alloc, "not compiled"),
    }
}

/// One of two answers if they are the same, and both otherwise.
fn plain_answer_or_both_if_different(
    alloc: Global,
    plain: String,
    compiled: String,
) -> Result<String, AllocError> {
    if plain.as_str() == compiled.as_str() {
        return Ok(plain);
    }
    format!(in alloc; "{plain}, and {compiled} by compiled code")
}

/// The initial state of the model of a text by the plain evaluator and by compiled code, which have to agree.
pub fn initial_state_by_both_evaluators_answer(
    alloc: Global,
    text: &str,
) -> Result<String, AllocError> {
    let Some(typed) = typed_model_of_text(alloc, text) else {
        return String::from_str(alloc, "no model");
    };
    let plain = initial_state_text_by_callbacks(alloc, &Plain::new(&typed))?;
    let compiled = initial_state_text_by_compiled_code(alloc, typed)?;
    plain_answer_or_both_if_different(alloc, plain, compiled)
}
