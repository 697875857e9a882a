//! Hints on an input that begins with no model.

use crate::item_hints::is_model_tree;
use pst_input::{find_first_line_like_json_item, find_json_items};
use pst_sexpr::Tree;
use pst_sources::{Input, head_of_first_item};
use pst_syntax_problems::{Problem, first_model_syntax_problems};
use std::alloc::{AllocError, Global};

/// Whether a text begins with a model.
pub fn has_model_at_start(bytes: &[u8]) -> bool {
    matches!(head_of_first_item(bytes), Some("model" | "model2"))
}

/// The name of the first file that begins with a model, if the input does not.
fn name_of_misplaced_model_file<'a>(input: &Input<'a>) -> Option<&'a str> {
    if has_model_at_start(input.bytes) {
        return None;
    }
    for file in input.files {
        if has_model_at_start(file.bytes.as_slice()) {
            return Some(file.name);
        }
    }
    None
}

/// Whether one of the trees is a model.
fn has_model_tree(trees: &[Tree]) -> bool {
    trees.iter().any(|tree| is_model_tree(tree))
}

/// The problems, each with the note `hint`.
fn problems_with_hint(
    alloc: Global,
    problems: Vec<Problem>,
    hint: &str,
) -> Result<Vec<Problem>, AllocError> {
    let mut noted = Vec::new(alloc);
    for problem in problems {
        noted.push(problem.with(alloc, hint)?)?;
    }
    Ok(noted)
}

/// Whether a text begins with a case or a run.
fn has_case_or_run_at_start(bytes: &[u8]) -> bool {
    match head_of_first_item(bytes) {
        Some(head) => head == "case" || head == "run",
        None => false,
    }
}

/// Whether a line begins with `{` before the first tree ends.
fn has_json_line_before_first_tree(bytes: &[u8]) -> bool {
    find_first_line_like_json_item(bytes).is_some() && find_json_items(bytes).is_none()
}

/// The hint to name the model's file first, if the input begins with no model.
fn hint_on_missing_model_file(input: &Input<'_>, trees: &[Tree]) -> Option<&'static str> {
    if trees.is_empty() && input.files.len() > 1 {
        return Some("hint: the model's file comes first");
    }
    let has_item_at_start = has_case_or_run_at_start(input.bytes)
        || has_json_line_before_first_tree(input.bytes);
    if has_item_at_start && !has_model_tree(trees) {
        return Some("hint: name the model's file first");
    }
    None
}

/// The problems of a model that is refused for its form. If the input begins with no model but one of its files does, a
/// hint names that file.
pub fn model_form_problems_with_hints(
    alloc: Global,
    input: &Input<'_>,
    trees: &[Tree],
) -> Result<Vec<Problem>, AllocError> {
    let problems = first_model_syntax_problems(alloc, trees)?;
    if let Some(name) = name_of_misplaced_model_file(input) {
        let hint = format!(in alloc; "hint: `{name}` begins with a model: name this file first")?;
        return problems_with_hint(alloc, problems, hint.as_str());
    }
    match hint_on_missing_model_file(input, trees) {
        Some(hint) => problems_with_hint(alloc, problems, hint),
        None => Ok(problems),
    }
}
