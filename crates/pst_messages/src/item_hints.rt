//! Hints on refused items: the model of another file, and JSON within a line.

use pst_sexpr::{Tree, word_of};
use pst_sources::{Input, Notice};
use pst_syntax_problems::head_word_or_empty;
use std::alloc::{AllocError, Global};

/// Whether a tree is a model.
pub fn is_model_tree(tree: &Tree) -> bool {
    matches!(head_word_or_empty(tree.form()), "model" | "model2")
}

/// The error `notice` on `tree`. If the tree is the model of another file than the first, a hint says so.
fn replace_notes_if_model_of_later_file(
    alloc: Global,
    input: &Input<'_>,
    tree: &Tree,
    notice: Notice,
) -> Result<Notice, AllocError> {
    let part = input.part_at(notice.span);
    let Some(first) = input.files.first() else {
        return Ok(notice);
    };
    if !is_model_tree(tree) || part.number == 0 {
        return Ok(notice);
    }
    let (name, first) = (part.name, first.name);
    let mut notes = Vec::new(alloc);
    notes.push(format!(in alloc; "hint: `{name}` has a model of its own: leave out `{first}`")?)?;
    Ok(Notice { notes, ..notice })
}

/// The hint on a `{` that begins JSON within a line.
const FIRST_CHARACTER: &str =
    "hint: the `{` of an item as JSON has to be the first character of its line";

/// Whether a tree is a word that begins with `{`.
fn is_word_beginning_with_brace(tree: &Tree) -> bool {
    match word_of(tree.form()) {
        Some(word) => word.as_str().starts_with("{"),
        None => false,
    }
}

/// Whether `place` is the beginning of a line.
fn is_line_start(bytes: &[u8], place: usize) -> bool {
    match place.checked_sub(1) {
        Some(before) => bytes.get(before) == Some(&b'\n'),
        None => true,
    }
}

/// The error `notice` on `tree`. If the tree begins JSON and is not at the beginning of its line, a hint says so.
fn replace_notes_if_json_within_line(
    alloc: Global,
    input: &Input<'_>,
    tree: &Tree,
    notice: Notice,
) -> Result<Notice, AllocError> {
    if !is_word_beginning_with_brace(tree) || is_line_start(input.bytes, notice.span.start) {
        return Ok(notice);
    }
    let mut notes = Vec::new(alloc);
    notes.push(String::from_str(alloc, FIRST_CHARACTER)?)?;
    Ok(Notice { notes, ..notice })
}

/// The error `notice` on the item `tree`, with a hint if the tree is the model of another file, or JSON within a line.
pub fn replace_notes_by_hint_if_misplaced(
    alloc: Global,
    input: &Input<'_>,
    tree: &Tree,
    notice: Notice,
) -> Result<Notice, AllocError> {
    let notice = replace_notes_if_json_within_line(alloc, input, tree, notice)?;
    replace_notes_if_model_of_later_file(alloc, input, tree, notice)
}
