//! The errors and warnings about an input.

use crate::input::{Input, LastMessageLine};
use crate::scan::Span;
use crate::shown::place_of_span;
use std::alloc::{AllocError, Global};

/// An error or a warning.
#[derive(Drop)]
pub struct Notice {
    /// The bytes of the input that it is about.
    pub span: Span,
    /// Whether it is a warning, as opposed to an error.
    pub is_warning: bool,
    /// What is wrong, in a line.
    pub what: String,
    /// What was expected, what was found, and hints: a line each.
    pub notes: Vec<String>,
    /// Further lines, such as an explanation, each with its line end.
    pub lines: String,
}

/// The errors and warnings about an input.
#[derive(Drop)]
pub struct Notices {
    /// The errors and warnings, in the order of their places.
    pub all: Vec<Notice>,
    /// How many more there are, in a line with its line end; empty if these are all.
    pub more: String,
}

impl Notices {
    /// No errors and no warnings.
    pub fn none(alloc: Global) -> Notices {
        Notices {
            all: Vec::new(alloc),
            more: String::new(alloc),
        }
    }

    /// One error or warning.
    pub fn one(alloc: Global, notice: Notice) -> Result<Notices, AllocError> {
        let mut notices = Notices::none(alloc);
        notices.all.push(notice)?;
        Ok(notices)
    }
}

/// The place of the bytes of an error or a warning.
#[derive(Clone, Copy, Drop)]
pub struct NoticePlace<'a> {
    /// The name of their file.
    pub file: &'a str,
    /// The number of the line in which they begin, from 1.
    pub line: usize,
    /// The number of the first byte in its line, from 1.
    pub column: usize,
    /// How many bytes of the file come before them.
    pub start: usize,
    /// How many bytes of the file come before their end.
    pub end: usize,
}

/// The place of the bytes that `notice` is about.
pub fn place_of_notice<'a>(
    alloc: Global,
    input: &Input<'a>,
    notice: &Notice,
) -> Result<NoticePlace<'a>, AllocError> {
    let part = input.part_at(notice.span);
    let place = place_of_span(alloc, part.bytes, part.span)?;
    Ok(NoticePlace {
        file: part.name,
        line: place.line,
        column: place.column,
        start: part.span.start,
        end: part.span.end,
    })
}

/// Adds an error or a warning to `text`, with its place and the line that it is about.
fn add_notice_text(
    alloc: Global,
    text: &mut String,
    input: &Input<'_>,
    last: &mut LastMessageLine,
    notice: &Notice,
) -> Result<(), AllocError> {
    let what = notice.what.as_str();
    let what = if notice.is_warning {
        format!(in alloc; "warning: {what}")?
    } else {
        String::from_str(alloc, what)?
    };
    let notes = notice.notes.as_slice();
    let message = input.message_counting_on_from_last(
        alloc,
        last,
        notice.span,
        what.as_str(),
        notes,
    )?;
    text.push_str(message.as_str())?;
    text.push_str(notice.lines.as_str())
}

/// The text of an error or a warning: its place, what is wrong, the line that it is about, and its notes.
pub fn notice_text(
    alloc: Global,
    input: &Input<'_>,
    notice: &Notice,
) -> Result<String, AllocError> {
    let mut text = String::new(alloc);
    add_notice_text(
        alloc,
        &mut text,
        input,
        &mut LastMessageLine::none(),
        notice,
    )?;
    Ok(text)
}

/// The text of all errors and warnings; `None` if it is empty.
pub fn text_of_notices_if_any(
    alloc: Global,
    input: &Input<'_>,
    notices: &Notices,
) -> Result<Option<String>, AllocError> {
    let mut text = String::new(alloc);
    let mut last = LastMessageLine::none();
    for notice in &notices.all {
        add_notice_text(alloc, &mut text, input, &mut last, notice)?;
    }
    text.push_str(notices.more.as_str())?;
    if text.is_empty() {
        Ok(None)
    } else {
        Ok(Some(text))
    }
}
