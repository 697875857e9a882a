//! The messages on the refused lines of a stream, on standard error.

use crate::input::STANDARD_INPUT;
use pst_cli::RefusedLineReceiver;
use pst_json_runs::begins_like_json_item;
use pst_messages::{MessageScope, has_model_at_start, input_error_notices};
use pst_sexpr::{MAX_BYTES, read};
use pst_sources::{
    Input, Notices, Place, SourceFile, Span, joined_text_of_files, place_of_span_on_line,
    start_of_first_line, tree_at,
};
use std::alloc::{AllocError, Global};

/// What a line of a stream has to be.
const NO_ITEM: &str =
    "this begins no item: a line of a stream is `(run ..)`, `(case ..)` or an object of JSON, `{..}`";

/// How many refused lines get messages, unless all of them do.
pub const MOST_LINES: usize = 20;

/// What is wrong with a line: the bytes, what was expected or found, and hints.
#[derive(Drop)]
struct LineFault {
    span: Span,
    what: String,
    notes: Vec<String>,
}

/// The messages on the refused lines of a stream. Each is written as soon as its line is judged, and none is kept.
#[derive(Drop)]
pub struct RefusedLineMessages<'a, R: Eprint + AllocGlobal> {
    rt: &'a R,
    /// The name of the model's file.
    name: &'a str,
    /// The text of the model.
    model: &'a [u8],
    /// How many more lines get messages.
    left: usize,
    /// Whether standard error has a line that shows the progress, which a message takes the place of.
    has_progress: bool,
}

/// Returns a copy of the bytes.
fn copy_bytes_into_new_vector(alloc: Global, bytes: &[u8]) -> Result<Vec<u8>, AllocError> {
    let mut copy = Vec::new(alloc);
    copy.extend_from_slice(bytes)?;
    Ok(copy)
}

/// The fault of `span` without notes.
fn line_fault_without_notes(
    alloc: Global,
    span: Span,
    what: &str,
) -> Result<LineFault, AllocError> {
    Ok(LineFault {
        span,
        what: String::from_str(alloc, what)?,
        notes: Vec::new(alloc),
    })
}

/// Returns the first error on the last of the files, or none.
fn first_error_in_last_file(
    alloc: Global,
    files: &[SourceFile<'_>],
) -> Result<Option<LineFault>, AllocError> {
    let text = joined_text_of_files(alloc, files)?;
    let input = Input {
        files,
        bytes: text.as_slice(),
    };
    let last = files.len().saturating_sub(1);
    let Notices { all, more: _ } = input_error_notices(alloc, &input, MessageScope::FirstItem)?;
    for notice in all {
        let part = input.part_at(notice.span);
        if part.number == last {
            return Ok(Some(LineFault {
                span: part.span,
                what: notice.what,
                notes: notice.notes,
            }));
        }
    }
    Ok(None)
}

/// The file that a line is in the messages on it.
fn line_as_standard_input_file(
    alloc: Global,
    line: &[u8],
) -> Result<SourceFile<'static>, AllocError> {
    Ok(SourceFile {
        name: STANDARD_INPUT,
        bytes: copy_bytes_into_new_vector(alloc, line)?,
    })
}

/// Returns whether the tree at `span` begins with `byte`.
fn has_byte_at_span_start(line: &[u8], span: Span, byte: u8) -> bool {
    line.get(span.start) == Some(&byte)
}

/// Returns what is wrong, and where, on a line that has two trees or more.
fn place_and_fault_of_several_trees(line: &[u8], first: Span) -> (Span, &'static str) {
    if has_byte_at_span_start(line, first, b'(') {
        (
            tree_at(line, first.end),
            "a second item begins here: a line of a stream has one",
        )
    } else {
        (first, NO_ITEM)
    }
}

/// Returns what is wrong, and where, on a line of `count` trees unless it is one item.
fn place_and_fault_unless_one_item(line: &[u8], count: usize) -> Option<(Span, &'static str)> {
    let first = tree_at(line, 0);
    if count == 0 {
        return Some((first, "there is no item on this line"));
    }
    if has_byte_at_span_start(line, first, b'{') {
        let what = "the `{` of an item as JSON has to be the first character of its line";
        return Some((first, what));
    }
    if count > 1 {
        return Some(place_and_fault_of_several_trees(line, first));
    }
    if has_model_at_start(line) {
        return Some((
            first,
            "this is a model: a line of a stream is a case or a run",
        ));
    }
    None
}

/// Returns the fault of a line that is not one tree, or that is a model.
fn fault_of_line_unless_one_item(
    alloc: Global,
    line: &[u8],
) -> Result<Option<LineFault>, AllocError> {
    let Ok(trees) = read(alloc, line) else {
        return first_error_in_last_file(alloc, &[line_as_standard_input_file(alloc, line)?]);
    };
    match place_and_fault_unless_one_item(line, trees.len()) {
        Some((span, what)) => Ok(Some(line_fault_without_notes(alloc, span, what)?)),
        None => Ok(None),
    }
}

/// Returns a note on a file of one line as a note on line `number`.
fn note_with_line_renumbered(
    alloc: Global,
    number: usize,
    note: &str,
) -> Result<String, AllocError> {
    let line = format!(in alloc; "line {number}")?;
    let place = format!(in alloc; " at {number}:")?;
    let note = note.replace(alloc, "line 1", line.as_str())?;
    note.as_str().replace(alloc, " at 1:", place.as_str())
}

/// Adds the notes of a fault to the message on the line `number`, a line each.
fn add_notes_with_line_renumbered(
    message: &mut String,
    alloc: Global,
    number: usize,
    notes: &[String],
) -> Result<(), AllocError> {
    for note in notes {
        let note = note_with_line_renumbered(alloc, number, note.as_str())?;
        message.push_str(format!(in alloc; "  {note}\n")?.as_str())?;
    }
    Ok(())
}

impl<'a, R: Eprint + AllocGlobal> RefusedLineMessages<'a, R> {
    /// The messages on lines whose model is the first tree of `input`, the text of the file `name`. There are at most
    /// `most`.
    pub fn new(
        rt: &'a R,
        name: &'a str,
        input: &'a [u8],
        most: usize,
        has_progress: bool,
    ) -> RefusedLineMessages<'a, R> {
        let Span { start: _, end } = tree_at(input, 0);
        RefusedLineMessages {
            rt,
            name,
            model: input.get(..end).unwrap_or(input),
            left: most,
            has_progress,
        }
    }

    /// Returns the fault of the item on a line, or none.
    fn fault_of_item_on_line(
        &self,
        alloc: Global,
        line: &[u8],
    ) -> Result<Option<LineFault>, AllocError> {
        let model = SourceFile {
            name: self.name,
            bytes: copy_bytes_into_new_vector(alloc, self.model)?,
        };
        first_error_in_last_file(alloc, &[model, line_as_standard_input_file(alloc, line)?])
    }

    /// Returns what is wrong with a refused line.
    fn fault_of_refused_line(&self, alloc: Global, line: &[u8]) -> Result<LineFault, AllocError> {
        let start = Span { start: 0, end: 1 };
        if line.len() > MAX_BYTES {
            return line_fault_without_notes(alloc, start, "the line is longer than 1 MiB");
        }
        if !begins_like_json_item(line) {
            if let Some(found) = fault_of_line_unless_one_item(alloc, line)? {
                return Ok(found);
            }
        }
        let together = self.model.len().saturating_add(line.len());
        if together < MAX_BYTES {
            if let Some(found) = self.fault_of_item_on_line(alloc, line)? {
                return Ok(found);
            }
        }
        line_fault_without_notes(
            alloc,
            start,
            "the item is refused; it is too long for a message that says why",
        )
    }

    /// Returns the message on the refused line `number`.
    fn message_on_refused_line(&self, number: usize, line: &[u8]) -> Result<String, AllocError> {
        let alloc = self.rt.alloc();
        let LineFault { span, what, notes } = self.fault_of_refused_line(alloc, line)?;
        let Place {
            line: _,
            column,
            text,
            marks,
        } = place_of_span_on_line(alloc, line, start_of_first_line(), span)?;
        let mut message = format!(in alloc; "{STANDARD_INPUT}:{number}:{column}: {what}\n")?;
        if !line.is_empty() {
            message.push_str(format!(in alloc; "    {text}\n    {marks}\n")?.as_str())?;
        }
        add_notes_with_line_renumbered(&mut message, alloc, number, notes.as_slice())?;
        Ok(message)
    }
}

impl<'a, R: Eprint + AllocGlobal> RefusedLineReceiver for RefusedLineMessages<'a, R> {
    fn takes_more_lines(&self) -> bool {
        self.left > 0
    }

    fn take(&mut self, number: usize, line: &[u8]) {
        if self.left == 0 {
            return;
        }
        self.left = self.left.saturating_sub(1);
        let rt = self.rt;
        let begin = if self.has_progress { "\r\x1b[K" } else { "" };
        if let Ok(message) = self.message_on_refused_line(number, line) {
            let _ = eprint!(rt; "{begin}{message}");
        }
    }
}
