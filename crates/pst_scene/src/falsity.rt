//! Why the postcondition of a command is not true on a state.

use crate::evaluating::arguments_with_recorded_results;
use crate::evidence_falsity::{Evidence, FalsePart, false_part_of_postcondition};
use crate::scene::{Call, Scene};
use crate::spelling::{
    copy_explanation_text, expression_text, join_explanation_parts, operation_of_call, value_text,
};
use pst_case::Reply;
use pst_eval::Env;
use pst_model::Source;
use pst_value::Value;
use std::alloc::{AllocError, Global};

/// Returns a text on the reply that the model requires.
fn wanted_reply_text(
    alloc: Global,
    model: &Source,
    part: Option<&[u8]>,
    value: &Value,
) -> Result<Vec<u8>, AllocError> {
    let value = value_text(alloc, model, value)?;
    let value = value.as_slice();
    match part {
        None => join_explanation_parts(alloc, &[b"the model says ", value]),
        Some(part) => join_explanation_parts(alloc, &[part, b" is false: the model says ", value]),
    }
}

/// Returns a text on a comparison that is false.
fn false_comparison_text(
    alloc: Global,
    model: &Source,
    part: &[u8],
    first: &Value,
    second: &Value,
) -> Result<Vec<u8>, AllocError> {
    let first = value_text(alloc, model, first)?;
    let second = value_text(alloc, model, second)?;
    join_explanation_parts(
        alloc,
        &[
            part,
            b" is false of ",
            first.as_slice(),
            b" and ",
            second.as_slice(),
        ],
    )
}

/// The part of a postcondition that is false, and what is known of it.
fn false_part_text(
    alloc: Global,
    model: &Source,
    found: &FalsePart<'_>,
    is_whole: bool,
) -> Result<Vec<u8>, AllocError> {
    let part = expression_text(alloc, found.part)?;
    let part = part.as_slice();
    match &found.evidence {
        Evidence::Wants(value) => {
            let shown = if is_whole { None } else { Some(part) };
            wanted_reply_text(alloc, model, shown, value)
        }
        Evidence::Compares(first, second) => false_comparison_text(
            alloc, model, part, first, second,
        ),
        Evidence::Nothing => join_explanation_parts(alloc, &[part, b" is false"]),
    }
}

/// Why the postcondition of a command is not true on the state before it.
#[derive(Drop)]
pub enum Falsity<'a> {
    /// The command has no value as its reply.
    Unknown,
    /// The postcondition has no value.
    Faults,
    /// A part of it is false.
    Part {
        /// The part, and what is known of it.
        found: FalsePart<'a>,
        /// Whether it is the whole postcondition.
        is_whole: bool,
    },
}

/// Why the postcondition of a command is not true on the state before it.
pub fn why_postcondition_is_not_true<'a>(
    alloc: Global,
    scene: &Scene<'a>,
    call: &Call<'_>,
    state: &Value,
) -> Result<Falsity<'a>, AllocError> {
    let Some(operation) = operation_of_call(scene, call) else {
        return Ok(Falsity::Unknown);
    };
    let Some(Reply::Value(reply)) = call.reply else {
        return Ok(Falsity::Unknown);
    };
    let args = arguments_with_recorded_results(alloc, scene, call)?;
    let frame = Env::Frame(operation.params.as_slice(), args.as_slice());
    let outer = Env::With(b"s", &*state, &frame);
    let inner = Env::With(b"r", reply, &outer);
    match false_part_of_postcondition(alloc, scene.model, &operation.post, &inner)? {
        Some(found) => {
            let is_whole = *found.part == operation.post;
            Ok(Falsity::Part { found, is_whole })
        }
        None => Ok(Falsity::Faults),
    }
}

/// Returns a text that says why the postcondition of a command is not true: it has the value that the model requires in
/// place of the reply, or the false part, or says that the postcondition faults. It is empty if the reply is not a
/// value.
pub fn false_postcondition_text(
    alloc: Global,
    model: &Source,
    falsity: &Falsity<'_>,
) -> Result<Vec<u8>, AllocError> {
    match falsity {
        Falsity::Unknown => Ok(Vec::new(alloc)),
        Falsity::Faults => copy_explanation_text(alloc, "it faults"),
        Falsity::Part { found, is_whole } => false_part_text(alloc, model, found, *is_whole),
    }
}
