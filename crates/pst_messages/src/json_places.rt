//! Places in a line of JSON.
//!
//! The line must be JSON. For another line the functions return some place in it, or its end.

use pst_sources::Span;

/// Whether a byte is white space of JSON.
fn is_json_space(byte: u8) -> bool {
    matches!(byte, b' ' | b'\t' | b'\r' | b'\n')
}

/// The place of the first byte from `from` on that is no white space.
fn place_after_json_space(line: &[u8], from: usize) -> usize {
    for at in from..line.len() {
        match line.get(at) {
            Some(byte) if is_json_space(*byte) => {}
            _ => return at,
        }
    }
    line.len()
}

/// The end of the number or the word that begins at `start`.
fn end_of_json_number_or_literal(line: &[u8], start: usize) -> usize {
    for at in start..line.len() {
        match line.get(at) {
            Some(b',' | b':' | b'[' | b']' | b'{' | b'}' | b'"') => return at,
            Some(byte) if !is_json_space(*byte) => {}
            _ => return at,
        }
    }
    line.len()
}

/// How far a scan of JSON has come.
#[derive(Clone, Copy, Drop)]
struct JsonScanState {
    /// The number of open brackets.
    depth: usize,
    /// It is in a string.
    is_string: bool,
    /// The next byte is escaped.
    is_escaped: bool,
}

impl JsonScanState {
    /// The scan before the first byte.
    fn new() -> JsonScanState {
        JsonScanState {
            depth: 0,
            is_string: false,
            is_escaped: false,
        }
    }

    /// The scan after the byte `byte` of a string.
    fn after_string_byte(self, byte: u8) -> JsonScanState {
        JsonScanState {
            is_string: self.is_escaped || byte != b'"',
            is_escaped: !self.is_escaped && byte == b'\\',
            ..self
        }
    }

    /// The scan after the byte `byte`.
    fn after_json_byte(self, byte: u8) -> JsonScanState {
        if self.is_string {
            return self.after_string_byte(byte);
        }
        match byte {
            b'"' => JsonScanState {
                is_string: true,
                ..self
            },
            b'[' | b'{' => JsonScanState {
                depth: self.depth.saturating_add(1),
                ..self
            },
            b']' | b'}' => JsonScanState {
                depth: self.depth.saturating_sub(1),
                ..self
            },
            _ => self,
        }
    }
}

/// The place of the first bracket of a line that opens more than `most` levels.
pub fn find_bracket_deeper_than(line: &[u8], most: usize) -> Option<usize> {
    let mut scan = JsonScanState::new();
    for (place, byte) in line.iter().enumerate() {
        scan = scan.after_json_byte(*byte);
        if scan.depth > most {
            return Some(place);
        }
    }
    None
}

/// The end of the string, the array or the object that begins at `start`.
fn end_of_json_string_or_container(line: &[u8], start: usize) -> usize {
    let mut scan = JsonScanState::new();
    for at in start..line.len() {
        let Some(byte) = line.get(at) else {
            return at;
        };
        scan = scan.after_json_byte(*byte);
        if scan.depth == 0 && !scan.is_string {
            return at.saturating_add(1);
        }
    }
    line.len()
}

/// Returns the bytes of the first value from `from` on. The span is empty if a closing bracket comes first.
pub fn next_json_value_span(line: &[u8], from: usize) -> Span {
    let start = place_after_json_space(line, from);
    let end = match line.get(start) {
        Some(b'"' | b'[' | b'{') => end_of_json_string_or_container(line, start),
        Some(_) => end_of_json_number_or_literal(line, start),
        None => start,
    };
    Span { start, end }
}

/// The first byte of a value, or 0.
pub fn first_byte_of_json_value_or_zero(line: &[u8], value: Span) -> u8 {
    match line.get(value.start) {
        Some(byte) => *byte,
        None => 0,
    }
}

/// Whether a value is an array.
pub fn is_json_array_at(line: &[u8], value: Span) -> bool {
    first_byte_of_json_value_or_zero(line, value) == b'['
}

/// The values of an array, or the keys and values of an object, from a place on.
#[derive(Clone, Copy, Drop)]
pub struct JsonPartCursor {
    at: usize,
}

impl JsonPartCursor {
    /// All parts of an array or an object.
    pub fn of(value: Span) -> JsonPartCursor {
        JsonPartCursor {
            at: value.start.saturating_add(1),
        }
    }

    /// The next part, if there is one.
    pub fn next(&mut self, line: &[u8]) -> Option<Span> {
        let part = next_json_value_span(line, self.at);
        if part.start >= part.end {
            return None;
        }
        let end = place_after_json_space(line, part.end);
        self.at = match line.get(end) {
            Some(b',' | b':') => end.saturating_add(1),
            _ => end,
        };
        Some(part)
    }
}

/// Part `number`, from 0, of an array, or else the value itself.
pub fn array_element_span_or_whole(line: &[u8], value: Span, number: usize) -> Span {
    if !is_json_array_at(line, value) {
        return value;
    }
    let mut parts = JsonPartCursor::of(value);
    for _ in 0..number {
        let _ = parts.next(line);
    }
    parts.next(line).unwrap_or(value)
}
