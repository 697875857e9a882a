//! Members of objects, and JSON as ASCII that a page can contain.
ghost use Rattle.std.specs.Prelude.{IfOk, IfSome, OnOk};
ghost use Rattle.pst_json.specs.Page.{IsPageText, IsPageByte};

use json::Writer;
use pst_model::Expr;
use pst_print::ty_form;
use pst_scene::{add_tree_spelling, cut_in_middle_if_too_long, expression_text};
use pst_value::Ty;
use std::alloc::{AllocError, Global};

/// The maximum length of a spelling, in bytes. A longer one is cut in the middle.
pub const MOST_BYTES: usize = 4000;

/// Returns the bytes as a text. If they are not UTF-8, each byte becomes the character with its number.
fn decode_utf8_or_latin1(alloc: Global, bytes: &[u8]) -> Result<String, AllocError> {
    if let Ok(text) = std::str::from_utf8(bytes) {
        return String::from_str(alloc, text);
    }
    let mut text = String::new(alloc);
    for byte in bytes {
        text.push(char::from(*byte))?;
    }
    Ok(text)
}

/// Returns the written JSON, in ASCII.
pub fn into_page_safe_ascii_json(
    alloc: Global,
    writer: Writer<Global>,
) -> Result<Vec<u8>, AllocError>
    ensures { IfOk result (λ text. IsPageText text.items) }
{
    let json = writer.into_inner();
    let json = decode_utf8_or_latin1(alloc, json.as_slice())?;
    page_safe_ascii_json(alloc, json.as_str())
}

/// Writes a text that is spelled in bytes.
pub fn write_json_byte_string(
    writer: &mut Writer<Global>,
    alloc: Global,
    bytes: &[u8],
) -> Result<(), AllocError> {
    let text = decode_utf8_or_latin1(alloc, bytes)?;
    writer.string(text.as_str())
}

/// Writes a spelling, which is cut in the middle if it is long.
pub fn write_json_spelling_cut_if_long(
    writer: &mut Writer<Global>,
    alloc: Global,
    spelling: &[u8],
) -> Result<(), AllocError> {
    let text = cut_in_middle_if_too_long(alloc, spelling, MOST_BYTES)?;
    write_json_byte_string(writer, alloc, text.as_slice())
}

/// Writes an expression as a text.
pub fn write_json_expression_text(
    writer: &mut Writer<Global>,
    alloc: Global,
    expr: &Expr,
) -> Result<(), AllocError> {
    let text = expression_text(alloc, expr)?;
    write_json_spelling_cut_if_long(writer, alloc, text.as_slice())
}

/// Writes a type as a text.
pub fn write_json_type_text(
    writer: &mut Writer<Global>,
    alloc: Global,
    ty: &Ty,
) -> Result<(), AllocError> {
    let mut text = Vec::new(alloc);
    add_tree_spelling(&mut text, &ty_form(alloc, ty)?)?;
    write_json_spelling_cut_if_long(writer, alloc, text.as_slice())
}

/// Writes a member whose value is a text.
pub fn write_json_text_member(
    writer: &mut Writer<Global>,
    key: &str,
    text: &str,
) -> Result<(), AllocError> {
    writer.key(key)?;
    writer.string(text)
}

/// Writes a member whose value is a spelling.
pub fn write_json_spelling_member(
    writer: &mut Writer<Global>,
    alloc: Global,
    key: &str,
    spelling: &[u8],
) -> Result<(), AllocError> {
    writer.key(key)?;
    write_json_spelling_cut_if_long(writer, alloc, spelling)
}

/// Writes a member whose value is an expression as a text.
pub fn write_json_expression_text_member(
    writer: &mut Writer<Global>,
    alloc: Global,
    key: &str,
    expr: &Expr,
) -> Result<(), AllocError> {
    writer.key(key)?;
    write_json_expression_text(writer, alloc, expr)
}

/// Writes a member whose value is a number.
pub fn write_json_number_member(
    writer: &mut Writer<Global>,
    key: &str,
    number: usize,
) -> Result<(), AllocError> {
    writer.key(key)?;
    writer.u64(number as u64)
}

/// Writes a member whose value is `true` or `false`.
pub fn write_json_bool_member(
    writer: &mut Writer<Global>,
    key: &str,
    holds: bool,
) -> Result<(), AllocError> {
    writer.key(key)?;
    writer.boolean(holds)
}

/// Returns the hexadecimal digit of `number`, which is below 16.
fn hex_digit(number: u32) -> u8
    ensures { IsPageByte result }
{
    match number {
        0 => b'0',
        1 => b'1',
        2 => b'2',
        3 => b'3',
        4 => b'4',
        5 => b'5',
        6 => b'6',
        7 => b'7',
        8 => b'8',
        9 => b'9',
        10 => b'a',
        11 => b'b',
        12 => b'c',
        13 => b'd',
        14 => b'e',
        _ => b'f',
    }
}

/// Adds a byte.
#[tactic(auto, using(crate::proofs::PageTexts::page_push))]
pub fn push_known_page_safe_byte(out: &mut Vec<u8>, byte: u8) -> Result<(), AllocError>
    requires { IsPageByte byte }
    ensures { IsPageText out.old.items → OnOk result (IsPageText out.new.items) }
{
    out.push(byte)?;
    Ok(())
}

/// Adds the escape of `number`, which has 16 bits, as `\u003c`.
fn add_json_unicode_escape(out: &mut Vec<u8>, number: u32) -> Result<(), AllocError>
    ensures { IsPageText out.old.items → OnOk result (IsPageText out.new.items) }
{
    push_known_page_safe_byte(out, b'\\')?;
    push_known_page_safe_byte(out, b'u')?;
    push_known_page_safe_byte(out, hex_digit(number / 4096 % 16))?;
    push_known_page_safe_byte(out, hex_digit(number / 256 % 16))?;
    push_known_page_safe_byte(out, hex_digit(number / 16 % 16))?;
    push_known_page_safe_byte(out, hex_digit(number % 16))
}

/// Adds the escape of a character, or the escapes of its two surrogates if its number has more than 16 bits.
fn add_json_escaped_character(out: &mut Vec<u8>, character: char) -> Result<(), AllocError>
    ensures { IsPageText out.old.items → OnOk result (IsPageText out.new.items) }
{
    let number = u32::from(character);
    match number.checked_sub(0x10000) {
        None => add_json_unicode_escape(out, number),
        Some(beyond) => {
            add_json_unicode_escape(out, 0xd800 + beyond / 1024 % 1024)?;
            add_json_unicode_escape(out, 0xdc00 + beyond % 1024)
        }
    }
}

/// Returns the byte of a character that may be in a page: one of ASCII, except `<`, `>`, `&` and DEL.
fn page_safe_ascii_byte(character: char) -> Option<u8>
    ensures { IfSome result IsPageByte }
{
    match u8::try_from(u32::from(character)) {
        Ok(byte) if byte < 127 && byte != b'<' && byte != b'>' && byte != b'&' => Some(byte),
        _ => None,
    }
}

/// Returns `json` with an escape for each character that `page_safe_ascii_byte` excludes. Such characters occur only in texts,
/// which may contain escapes.
#[tactic(auto, using(crate::proofs::PageTexts::empty_page))]
fn page_safe_ascii_json(alloc: Global, json: &str) -> Result<Vec<u8>, AllocError>
    ensures { IfOk result (λ text. IsPageText text.items) }
{
    let mut out = Vec::new(alloc);
    for character in json.chars() {
        match page_safe_ascii_byte(character) {
            Some(byte) => push_known_page_safe_byte(&mut out, byte)?,
            None => add_json_escaped_character(&mut out, character)?,
        }
    }
    Ok(out)
}
