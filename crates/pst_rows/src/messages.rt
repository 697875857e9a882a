//! The messages beside the refusals of files, and the warnings on models and on judged items.

use crate::requests::Request;
use pst_cli::{Shown, judge_file, judge_file_keep_going};
use pst_messages::{
    ItemInput, MessageScope, input_error_messages_text, input_warnings_text,
    precondition_warnings_on_item_results, precondition_warnings_on_runs,
};
use pst_sexpr::Out;
use pst_sources::{Input, SourceFile, joined_text_of_files};
use std::alloc::{AllocError, Global};
use std::slice;
use std::thread::Threads;

/// The messages of the files of a request, or `nothing is refused`.
pub fn refusal_messages_answer(
    alloc: Global,
    request: &Request<'_>,
    scope: MessageScope,
) -> Result<String, AllocError> {
    let files = request.files.as_slice();
    let text = joined_text_of_files(alloc, files)?;
    match input_error_messages_text(alloc, files, text.as_slice(), scope)? {
        Some(message) => Ok(message),
        None => String::from_str(alloc, "nothing is refused\n"),
    }
}

/// The warnings on the model of a request, or `no warnings`.
pub fn model_warnings_answer(alloc: Global, request: &Request<'_>) -> Result<String, AllocError> {
    match input_warnings_text(alloc, request.files.as_slice(), request.first_file_bytes())? {
        Some(warnings) => Ok(warnings),
        None => String::from_str(alloc, "no warnings\n"),
    }
}

/// The line and the column that a message begins with, after the name of a file.
fn line_and_column_of_message(name: &str, message: &str) -> Option<(usize, usize)> {
    let mut parts = message.strip_prefix(name)?.split(':');
    parts.next()?;
    let line = parts.next()?.parse::<usize>().ok()?;
    let column = parts.next()?.parse::<usize>().ok()?;
    Some((line, column))
}

/// Whether a message begins with a place that is in the file, or at the end of a line of it.
fn is_message_at_place_in_file(message: &str, file: &SourceFile<'_>) -> bool {
    let Some((line, column)) = line_and_column_of_message(file.name, message) else {
        return false;
    };
    let mut lines = file.bytes.as_slice().split(|byte| *byte == b'\n');
    match lines.nth(line.saturating_sub(1)) {
        Some(found) => line > 0 && column > 0 && column <= found.len().saturating_add(1),
        None => false,
    }
}

/// Whether the message of a file is at a place in the file.
fn has_message_at_place_in_file(alloc: Global, file: &SourceFile<'_>) -> Result<bool, AllocError> {
    let files = slice::from_ref(file);
    match input_error_messages_text(alloc, files, file.bytes.as_slice(), MessageScope::FirstItem)? {
        Some(message) => Ok(is_message_at_place_in_file(message.as_str(), file)),
        None => Ok(false),
    }
}

/// How many of the texts that the file of a request begins with have a message at a place in them.
pub fn count_prefixes_with_placed_message_answer(
    alloc: Global,
    request: &Request<'_>,
) -> Result<String, AllocError> {
    let text = request.first_file_bytes();
    let mut within: usize = 0;
    let mut all: usize = 0;
    for length in 0..text.len().saturating_add(1) {
        let cut = text.get(..length).unwrap_or(&[]);
        let file = SourceFile {
            name: "cut.model",
            bytes: Vec::from_slice(alloc, cut)?,
        };
        all = all.saturating_add(1);
        if has_message_at_place_in_file(alloc, &file)? {
            within = within.saturating_add(1);
        }
    }
    format!(in alloc; "{within} of {all} have a message at a place in them\n")
}

/// The warnings on judged items; `None`: the items are not judged.
type Warnings = Result<Option<Option<String>>, AllocError>;

/// An input without JSON items.
fn item_input_without_json(input: Input<'_>) -> ItemInput<'_> {
    ItemInput {
        trees: input,
        read: input.files,
    }
}

/// The warnings on the items, up to the first refused one.
fn judge_and_warn_to_first_refusal<R: Threads + Sync>(
    rt: &R,
    alloc: Global,
    input: Input<'_>,
) -> Warnings {
    let Input { files: _, bytes } = input;
    let (_, judged) = judge_file(rt, alloc, bytes, Shown::All, &mut Out::new(Vec::new(alloc)));
    let Some(judged) = judged else {
        return Ok(None);
    };
    let compiled = &judged.compiled;
    let warnings = precondition_warnings_on_runs(
        compiled,
        alloc,
        compiled.typed(),
        item_input_without_json(input),
        judged.runs.as_slice(),
        judged.judged.as_slice(),
    )?;
    Ok(Some(warnings))
}

/// The warnings on the items, of which some are refused.
fn judge_and_warn_despite_refusals<R: Threads + Sync>(
    rt: &R,
    alloc: Global,
    input: Input<'_>,
) -> Warnings {
    let Input { files: _, bytes } = input;
    let mut out = Out::new(Vec::new(alloc));
    let (_, answered) = judge_file_keep_going(rt, alloc, bytes, Shown::All, &mut out);
    let Some(answered) = answered else {
        return Ok(None);
    };
    let compiled = &answered.file.compiled;
    let warnings = precondition_warnings_on_item_results(
        compiled,
        alloc,
        compiled.typed(),
        item_input_without_json(input),
        answered.file.trees.as_slice(),
        answered.answers.as_slice(),
    )?;
    Ok(Some(warnings))
}

/// The warnings on the judged items of the files, of which some may be refused if `keeps_on`.
pub fn judged_item_warnings_answer<R: Threads + Sync>(
    rt: &R,
    alloc: Global,
    request: &Request<'_>,
    keeps_on: bool,
) -> Result<String, AllocError> {
    let files = request.files.as_slice();
    let text = joined_text_of_files(alloc, files)?;
    let bytes = text.as_slice();
    let input = Input { files, bytes };
    let warnings = if keeps_on {
        judge_and_warn_despite_refusals(rt, alloc, input)?
    } else {
        judge_and_warn_to_first_refusal(rt, alloc, input)?
    };
    match warnings {
        Some(Some(warnings)) => Ok(warnings),
        Some(None) => String::from_str(alloc, "no warnings\n"),
        None => String::from_str(alloc, "not judged\n"),
    }
}
