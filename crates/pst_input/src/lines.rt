//! The lines that begin with `{`.
ghost use Rattle.std.specs.Prelude.{◌≡◌, IfOk, take};
ghost use Rattle.pst_input.specs.Lines as spec;

use pst_sources::tree_at;
use std::alloc::{AllocError, Global};

/// Returns the place of the first line that begins with `{`.
pub fn find_first_line_like_json_item(text: &[u8]) -> Option<usize>
    ensures { result ≡ spec.json_start text.now }
{
    let mut is_begin = true;
    for (place, byte) in text.iter().enumerate() {
        if is_begin && *byte == b'{' {
            return Some(place);
        }
        is_begin = *byte == b'\n';
    }
    None
}

/// Returns whether the line of `byte` begins with `{`. If `is_begin`, the line begins with `byte`; else `is_json` says whether the line
/// so far does.
fn is_json_line(is_begin: bool, is_json: bool, byte: u8) -> bool
    ensures { result ≡ spec.is_json_line is_begin is_json byte }
{
    if is_begin { byte == b'{' } else { is_json }
}

/// Returns a blank in place of `byte`, a byte of a line that begins with `{` if `is_json`. A line end stays, and any byte of another
/// line.
fn blank_for(is_json: bool, byte: u8) -> u8
    ensures { result ≡ spec.blank_for is_json byte }
{
    if is_json {
        if byte == b'\n' { byte } else { b' ' }
    } else {
        byte
    }
}

/// Returns a text with blanks in place of the bytes of its lines that begin with `{`. All other bytes are where they were.
pub fn text_with_json_items_blanked(alloc: Global, text: &[u8]) -> Result<Vec<u8>, AllocError>
    ensures { IfOk result (λ blanked. blanked.items ≡ spec.blanked text.now) }
{
    let mut blanked = Vec::new(alloc);
    let mut is_json = false;
    let mut is_begin = true;
    for byte in text {
        is_json = is_json_line(is_begin, is_json, *byte);
        blanked.push(blank_for(is_json, *byte))?;
        is_begin = *byte == b'\n';
    }
    Ok(blanked)
}

/// Returns the bytes before a place.
pub fn text_before(text: &[u8], place: usize) -> &[u8]
    ensures { result.now ≡ take place text.now }
{
    text.get(..place).unwrap_or(text)
}

/// Returns whether the first tree ends before the end of the bytes.
pub fn has_first_tree(text: &[u8]) -> bool
    ensures { result ≡ spec.has_first_tree text.now }
{
    tree_at(text, 0).end < text.len()
}

/// Returns the place where the items as JSON begin: that of the first line that begins with `{`, if the first tree ends before it.
pub fn find_json_items(text: &[u8]) -> Option<usize> {
    let place = find_first_line_like_json_item(text)?;
    if has_first_tree(text_before(text, place)) {
        Some(place)
    } else {
        None
    }
}
