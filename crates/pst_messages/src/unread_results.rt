//! The warning on a model none of whose postconditions looks at the result.

use crate::warning::warning_notice;
use pst_sexpr::{Form, node_of};
use pst_sources::{Input, Notice};
use pst_syntax_problems::has_head;
use std::alloc::{AllocError, Global};

/// The word for the result of a call.
const RESULT: &str = "r";

/// Whether the tree is the word, or has it in a part.
#[cycle(has_word)]
fn has_word(form: &Form, word: &str) -> bool {
    match form {
        Form::Node(parts) => any_has_word(parts.as_slice(), word),
        Form::Word(found) => found.as_str() == word,
        Form::Text(_) => false,
    }
}

/// Whether one of the trees has the word.
#[cycle(has_word)]
fn any_has_word(forms: &[Form], word: &str) -> bool {
    for form in forms {
        if has_word(form, word) {
            return true;
        }
    }
    false
}

/// The parts of an item that declares an operation; of any other item none.
fn parts_of_operation(item: &Form) -> &[Form] {
    match node_of(item) {
        Some(parts) if has_head(item, "op") => parts,
        _ => &[],
    }
}

/// The numbers of an operation and of its postcondition, each among the parts of the tree above it: those of the first
/// postcondition among `items`, if none of them has the word of the result.
fn first_postcondition_if_none_reads_result(items: &[Form]) -> Option<(usize, usize)> {
    let mut first = None;
    for (number, item) in items.iter().enumerate() {
        for (place, part) in parts_of_operation(item).iter().enumerate() {
            if !has_head(part, "post") {
                continue;
            }
            if has_word(part, RESULT) {
                return None;
            }
            if first.is_none() {
                first = Some((number, place));
            }
        }
    }
    first
}

/// The warning that no postcondition of the model looks at the result of a call, if that is so. `model` is the tree of the
/// model, which the input begins with.
pub fn warnings_on_unread_results(
    alloc: Global,
    input: &Input<'_>,
    model: &Form,
) -> Result<Vec<Notice>, AllocError> {
    let mut warnings = Vec::new(alloc);
    let items = node_of(model).unwrap_or(&[]);
    if let Some((number, place)) = first_postcondition_if_none_reads_result(items) {
        warnings.push(warning_notice(
            alloc,
            input,
            &[0, number, place],
            "no postcondition looks at the result `r`, so each answer is right",
            "hint: say what the answer must be, as in `(post (= r ..))`",
        )?)?;
    }
    Ok(warnings)
}
