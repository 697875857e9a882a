//! Texts that fit a width.
ghost use Rattle.std.specs.Prelude.{◌≡◌, ◌≤◌, IfOk, length};

use std::alloc::{AllocError, Global};

/// Returns whether a byte is a continuation byte of a UTF-8 character.
fn is_utf8_continuation_byte(byte: u8) -> bool {
    byte >= 0x80 && byte < 0xC0
}

/// Returns the first `end` bytes of a text, without those of a character that ends after them.
fn prefix_of_whole_characters(text: &[u8], end: usize) -> &[u8]
    requires { end ≤ length text.now }
    ensures { length result.now ≤ end }
{
    if end > 0 && end < text.len() && is_utf8_continuation_byte(text[end]) {
        return prefix_of_whole_characters(text, end - 1);
    }
    &text[..end]
}

/// Returns a text without the continuation bytes at its beginning.
fn without_leading_continuation_bytes(text: &[u8]) -> &[u8]
    ensures { length result.now ≤ length text.now }
{
    match text.split_first() {
        Some((first, rest)) if is_utf8_continuation_byte(*first) =>
            without_leading_continuation_bytes(rest),
        _ => text,
    }
}

/// Returns `text` if it has at most `width` bytes. Otherwise returns its beginning and its end with `..` between them,
/// so that they fit, or an empty text if not even `..` fits. A character of several bytes is kept or left out as a
/// whole.
pub fn cut_in_middle_if_too_long(
    alloc: Global,
    text: &[u8],
    width: usize,
) -> Result<Vec<u8>, AllocError>
    ensures fits { IfOk result (λ cut. length cut.items ≤ width) }
    ensures whole { IfOk result (λ cut. length text.now ≤ width → cut.items ≡ text.now) }
{
    if text.len() <= width {
        return Vec::from_slice(alloc, text);
    }
    if width < 2 {
        return Ok(Vec::new(alloc));
    }
    let kept = width - 2;
    let behind = kept / 2;
    let mut cut = Vec::from_slice(alloc, prefix_of_whole_characters(text, kept - behind))?;
    cut.extend_from_slice(b"..")?;
    cut.extend_from_slice(without_leading_continuation_bytes(&text[text.len() - behind..]))?;
    Ok(cut)
}
