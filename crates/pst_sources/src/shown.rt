//! The line of a place and its characters, as messages show them.

use crate::scan::Span;
use std::alloc::{AllocError, Global};

/// The maximum number of bytes that messages show of a line.
const WIDTH: usize = 80;

/// The number of bytes that messages show before the place, if the line is cut.
const BEFORE: usize = 30;

/// A place in a file, with its line as messages show it.
#[derive(Drop)]
pub struct Place {
    /// The number of the line, from 1: one more than the line ends before the place.
    pub line: usize,
    /// The number of the byte in its line, from 1. A tab is one byte.
    pub column: usize,
    /// The line, or the displayed part of it.
    pub text: String,
    /// Blanks, and a `^` below each character of the place.
    pub marks: String,
}

/// The beginning of a line.
#[derive(Clone, Copy, Debug, PartialEq, Eq, Drop)]
pub struct LineStart {
    /// The number of the line, from 1.
    pub line: usize,
    /// The place of its first byte.
    pub place: usize,
}

/// The beginning of the first line.
pub fn start_of_first_line() -> LineStart {
    LineStart { line: 1, place: 0 }
}

/// Returns the beginning of the line of `place`. It counts on from `from`, an earlier place, whose line begins at
/// `earlier`.
pub fn count_on_to_line_start(
    input: &[u8],
    earlier: LineStart,
    from: usize,
    place: usize,
) -> LineStart {
    let mut found = earlier;
    for at in from..input.len() {
        if at >= place {
            break;
        }
        if input[at] == b'\n' {
            found = LineStart {
                line: found.line.saturating_add(1),
                place: at.saturating_add(1),
            };
        }
    }
    found
}

/// Returns the place of the next line end, or of the `\r` before it, or the end of the input. It reads at most `WIDTH`
/// + 2 bytes, and returns the place after them if they contain no line end.
fn line_end_within_shown_width(input: &[u8], from: usize) -> usize {
    let most = input.len().min(from.saturating_add(WIDTH + 2));
    let mut end = most;
    for at in from..most {
        if input.get(at) == Some(&b'\n') {
            end = at;
            break;
        }
    }
    let is_line_end = end == input.len() || input.get(end) == Some(&b'\n');
    let last = end.saturating_sub(1);
    if is_line_end && last >= from && input.get(last) == Some(&b'\r') {
        last
    } else {
        end
    }
}

/// Appends `mark` to `text` `count` times, but at most `2 * WIDTH` times.
fn push_repeatedly_up_to_limit(
    text: &mut String,
    mark: char,
    count: usize,
) -> Result<(), AllocError> {
    for _ in 0..count.min(2 * WIDTH) {
        text.push(mark)?;
    }
    Ok(())
}

/// Returns the place of `span` with its line, which begins at `line`. If the line is longer than 80 bytes, only a part
/// of it is displayed, with `...` where it is cut. A span of several lines is underlined to the end of the first.
pub fn place_of_span_on_line(
    alloc: Global,
    input: &[u8],
    line: LineStart,
    span: Span,
) -> Result<Place, AllocError> {
    let begin = line.place;
    let is_long = line_end_within_shown_width(input, begin).saturating_sub(begin) > WIDTH;
    let offset = span.start.saturating_sub(begin);
    let from = if is_long && offset > BEFORE {
        char_start_at_or_after(input, span.start.saturating_sub(BEFORE))
    } else {
        begin
    };
    let end = line_end_within_shown_width(input, from);
    let to = if is_long {
        end.min(char_start_at_or_after(input, from.saturating_add(WIDTH)))
    } else {
        end
    };
    let mut text = String::new(alloc);
    let mut marks = String::new(alloc);
    if from > begin {
        text.push_str("...")?;
        marks.push_str("   ")?;
    }
    text.push_str(chars_as_messages_show_them(alloc, input, from, to)?.as_str())?;
    if to < end {
        text.push_str("...")?;
    }
    let before = chars_as_messages_show_them(alloc, input, from, span.start)?;
    push_repeatedly_up_to_limit(&mut marks, ' ', before.chars().count())?;
    let marked = chars_as_messages_show_them(alloc, input, span.start, span.end.min(to))?;
    push_repeatedly_up_to_limit(&mut marks, '^', marked.chars().count().max(1))?;
    Ok(Place {
        line: line.line,
        column: offset.saturating_add(1),
        text,
        marks,
    })
}

/// Returns the place of `span` with its line, as `place_of_span_on_line` does.
pub fn place_of_span(alloc: Global, input: &[u8], span: Span) -> Result<Place, AllocError> {
    let line = count_on_to_line_start(input, start_of_first_line(), 0, span.start);
    place_of_span_on_line(alloc, input, line, span)
}

/// Returns the length in bytes of a character whose first byte is `first`.
fn char_length_by_first_byte(first: u8) -> usize {
    match first {
        0xc0..=0xdf => 2,
        0xe0..=0xef => 3,
        0xf0..=0xff => 4,
        _ => 1,
    }
}

/// Returns the character at `at` and its length in bytes. `None` if the bytes there are no character.
pub fn char_and_length_at(input: &[u8], at: usize) -> Option<(char, usize)> {
    let width = char_length_by_first_byte(*input.get(at)?);
    let bytes = input.get(at..at.saturating_add(width))?;
    match std::str::from_utf8(bytes) {
        Ok(text) => Some((text.chars().next()?, width)),
        Err(_) => None,
    }
}

/// Returns the first of `at` and the next three places that is not inside a character, or `at` if all four are.
fn char_start_at_or_after(input: &[u8], at: usize) -> usize {
    for more in 0..4 {
        let later = at.saturating_add(more);
        match input.get(later) {
            Some(0x80..=0xbf) => {}
            _ => return later,
        }
    }
    at
}

/// Returns whether a character is invisible, or changes how others are displayed.
fn is_invisible_or_control_char(letter: char) -> bool {
    letter.is_control()
        || matches!(
            letter,
            '\u{ad}' | '\u{200b}'..='\u{200f}' | '\u{2028}'..='\u{202e}' | '\u{2060}'..='\u{206f}' | '\u{feff}'
        )
}

/// Returns a character as messages show it: a tab as a blank, and a hidden character as `?`.
fn char_as_messages_show_it(letter: char) -> char {
    if letter == '\t' {
        ' '
    } else if is_invisible_or_control_char(letter) {
        '?'
    } else {
        letter
    }
}

/// Returns the characters of `input` from `from` up to `end`, as messages show them. A byte that belongs to no
/// character becomes `?`.
fn chars_as_messages_show_them(
    alloc: Global,
    input: &[u8],
    from: usize,
    end: usize,
) -> Result<String, AllocError> {
    let mut text = String::new(alloc);
    let mut next = from;
    for at in from..end.min(input.len()) {
        if at >= next {
            let (letter, width) = char_and_length_at(input, at).unwrap_or(('\0', 1));
            text.push(char_as_messages_show_it(letter))?;
            next = at.saturating_add(width);
        }
    }
    Ok(text)
}
