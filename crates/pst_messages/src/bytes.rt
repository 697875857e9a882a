//! Messages on bytes that are no file of trees.

use crate::unclosed::{OverlongPart, find_overlong_part_of_model};
use pst_sexpr::{FaultKind, MAX_BYTES, MAX_LEVELS, SexprFault};
use pst_sources::{
    Input, Span, char_and_length_at, find_probably_unclosed_item, item_closed_before_stray_bracket,
};
use std::alloc::{AllocError, Global};
use std::fmt::Display;

/// What is wrong with bytes, and where.
#[derive(Drop)]
pub struct ByteFault {
    pub span: Span,
    pub what: String,
    pub notes: Vec<String>,
}

/// The span of the byte at `place`.
fn one_byte_fault_span(place: usize) -> Span {
    Span {
        start: place,
        end: place.saturating_add(1),
    }
}

impl ByteFault {
    /// A fault without notes.
    pub fn new<D: Display + Drop>(
        alloc: Global,
        span: Span,
        what: D,
    ) -> Result<ByteFault, AllocError> {
        Ok(ByteFault {
            span,
            what: format!(in alloc; "{what}")?,
            notes: Vec::new(alloc),
        })
    }

    /// The fault with one more note.
    pub fn with_note<D: Display + Drop>(
        self,
        alloc: Global,
        note: D,
    ) -> Result<ByteFault, AllocError> {
        let mut wrong = self;
        wrong.add_note(format!(in alloc; "{note}")?)?;
        Ok(wrong)
    }

    /// Adds a note.
    fn add_note(&mut self, note: String) -> Result<(), AllocError> {
        self.notes.push(note)?;
        Ok(())
    }
}

/// The fault `wrong` with the note that the item at `next` begins while the one at `open` is still open.
fn with_open_item_note(
    alloc: Global,
    input: &Input<'_>,
    open: Span,
    next: Span,
    wrong: ByteFault,
) -> Result<ByteFault, AllocError> {
    let line = input.line_with_file_unless_same(alloc, next.start, open.start)?;
    let line = line.as_str();
    wrong.with_note(
        alloc,
        format_args!("the item on {line} begins while this one is still open"),
    )
}

/// The fault of a missing `)` at a part of a model that is probably not closed.
fn overlong_part_fault(
    alloc: Global,
    input: &Input<'_>,
    part: OverlongPart,
) -> Result<ByteFault, AllocError> {
    let OverlongPart {
        head,
        span,
        next_head,
        next,
    } = part;
    let place = input.place_with_file_unless_same(alloc, next, span.start)?;
    let place = place.as_str();
    let what = format_args!("a `)` is missing, probably in the `{head}` that begins here");
    let note = format_args!("the `{next_head}` at {place} begins while this one is still open");
    ByteFault::new(alloc, span, what)?.with_note(alloc, note)
}

/// The fault of a missing `)`, at the item that is probably not closed. If no item begins a line in it, a part of it may
/// be open too long, as in a model on one line.
fn missing_closing_bracket_fault(
    alloc: Global,
    input: &Input<'_>,
    place: usize,
) -> Result<ByteFault, AllocError> {
    let Some(open) = find_probably_unclosed_item(input.bytes) else {
        let what = "a `)` is missing: this `(` is not closed";
        return ByteFault::new(alloc, one_byte_fault_span(place), what);
    };
    if open.next.is_none() {
        match find_overlong_part_of_model(alloc, input.bytes)? {
            Some(part) if part.span.start >= open.item.start => {
                return overlong_part_fault(alloc, input, part);
            }
            _ => {}
        }
    }
    let line = input.line_with_file_unless_same(alloc, place, open.item.start)?;
    let line = line.as_str();
    let what = "a `)` is missing, probably in the item that begins here";
    let wrong = ByteFault::new(alloc, open.item, what)?;
    let wrong = match open.next {
        Some(next) => with_open_item_note(alloc, input, open.item, next, wrong)?,
        None => wrong,
    };
    wrong.with_note(
        alloc,
        format_args!("the innermost `(` that is open at the end is on {line}"),
    )
}

/// The note on the characters of words and texts.
const ASCII: &str = "words and texts are printable ASCII; only comments may have other characters";

/// The note on the escapes of texts.
const ESCAPES: &str = "a text has two escapes: `\\\"` and `\\\\`";

/// The fault of `letter`, which has `width` bytes and is not printable ASCII.
fn char_beyond_printable_ascii_fault(
    alloc: Global,
    input: &Input<'_>,
    place: usize,
    letter: char,
    width: usize,
) -> Result<ByteFault, AllocError> {
    let span = Span {
        start: place,
        end: place.saturating_add(width),
    };
    if letter == '\u{feff}' && input.part_at(span).span.start == 0 {
        let what = "the file begins with a byte order mark: save it without one";
        return ByteFault::new(alloc, span, what);
    }
    if letter.is_control() {
        let code = letter as u32;
        let what = format_args!("the control character {code} is not allowed here");
        return ByteFault::new(alloc, span, what)?.with_note(alloc, ASCII);
    }
    let what = format_args!("`{letter}` is not ASCII");
    ByteFault::new(alloc, span, what)?.with_note(alloc, ASCII)
}

/// The fault of a character that may not be at `place`, or of a byte that belongs to no character.
fn bad_escape_char_or_byte_fault(
    alloc: Global,
    input: &Input<'_>,
    place: usize,
    byte: u8,
) -> Result<ByteFault, AllocError> {
    match char_and_length_at(input.bytes, place) {
        Some((letter, _)) if b' ' <= byte && byte <= b'~' => {
            let what = format_args!("`\\{letter}` is not an escape");
            ByteFault::new(alloc, one_byte_fault_span(place), what)?.with_note(alloc, ESCAPES)
        }
        Some((letter, width)) => char_beyond_printable_ascii_fault(
            alloc, input, place, letter, width,
        ),
        None => {
            let what = format_args!(
                "the byte {byte} is neither ASCII nor part of a UTF-8 character"
            );
            ByteFault::new(alloc, one_byte_fault_span(place), what)?.with_note(alloc, ASCII)
        }
    }
}

/// The fault of a byte that may not be at `place`.
fn bad_byte_or_file_end_fault(
    alloc: Global,
    input: &Input<'_>,
    place: usize,
) -> Result<ByteFault, AllocError> {
    let span = one_byte_fault_span(place);
    match input.bytes.get(place) {
        Some(b'\n') | Some(b'\r') | Some(b'\t') => {
            ByteFault::new(alloc, span, "a text does not end on its line")?.with_note(
                alloc,
                "hint: a `\"` is missing, or the text has a tab or a line end in it",
            )
        }
        Some(byte) => bad_escape_char_or_byte_fault(alloc, input, place, *byte),
        None => ByteFault::new(alloc, span, "the file ends here"),
    }
}

/// The fault of a `)` that closes nothing, with the place where the item before it was closed.
fn stray_closing_bracket_fault(
    alloc: Global,
    input: &Input<'_>,
    place: usize,
) -> Result<ByteFault, AllocError> {
    let wrong = ByteFault::new(alloc, one_byte_fault_span(place), "this `)` closes nothing")?;
    let Some(item) = item_closed_before_stray_bracket(input.bytes, place) else {
        return wrong.with_note(alloc, "hint: nothing is open here");
    };
    let called = item.called;
    let start = input.place_with_file_unless_same(alloc, item.span.start, place)?;
    let end = input.place_with_file_unless_same(alloc, item.span.end.saturating_sub(1), place)?;
    let start = start.as_str();
    let end = end.as_str();
    let note = format_args!("the {called} that begins at {start} is already closed at {end}");
    wrong
        .with_note(alloc, note)?
        .with_note(alloc, "hint: there is one too many, here or earlier")
}

/// What is wrong with bytes that are no file of trees.
pub fn byte_fault_of_sexpr_fault(
    alloc: Global,
    input: &Input<'_>,
    refused: SexprFault,
) -> Result<ByteFault, AllocError> {
    let span = one_byte_fault_span(refused.place);
    match refused.kind {
        FaultKind::BadByte => bad_byte_or_file_end_fault(alloc, input, refused.place),
        FaultKind::UnclosedText => {
            ByteFault::new(alloc, span, "the text that begins here is not closed")
        }
        FaultKind::UnclosedNode => missing_closing_bracket_fault(alloc, input, refused.place),
        FaultKind::StrayClose => stray_closing_bracket_fault(alloc, input, refused.place),
        FaultKind::TooDeep => ByteFault::new(
            alloc,
            span,
            format_args!("brackets are nested more than {MAX_LEVELS} deep"),
        ),
        FaultKind::TooLarge => ByteFault::new(
            alloc,
            span,
            format_args!("the input has more than {MAX_BYTES} bytes"),
        ),
        FaultKind::NoMemory => ByteFault::new(alloc, span, "an allocation failed"),
    }
}
