//! Lines to and from clients: calls, answers as values, types of results, and hints on wrong answers.
ghost use Rattle.std.specs.Prelude.{◌≡◌, ◌≤◌, true, Some, IfOk, OnOk, option_copied, map};
ghost use Rattle.json.specs.Json.{document, max_depth};
ghost use Rattle.json.specs.Tree.{depth};
ghost use Rattle.pst_clients.specs.Calling.{call_json, text_of, line_of, is_one_line};
ghost use Rattle.pst_clients.specs.Answering.{IsAnswer};
ghost use Rattle.pst_model.specs.Parts.{operations_of};

use json::{Error, Scratch, Value as Json, Writer};
use pst_json_runs::{value_from_json, write_json_values_and_end};
use pst_model::Item;
use pst_system::RealCall;
use pst_value::{Items, KeyTy, Ty, Value};
use std::alloc::{AllocError, Global};

/// The line of a call: the array of its name and its arguments, and a line end.
pub fn client_call_line(alloc: Global, call: &RealCall) -> Result<Vec<u8>, AllocError>
    ensures line { IfOk result (λ line. line.items ≡ line_of call.now) }
    ensures one_line { OnOk result (is_one_line (text_of call.now) ≡ true) }
    ensures reads_back { OnOk result (depth (call_json call.now) ≤ max_depth
        → document (text_of call.now) ≡ Some (call_json call.now)) }
{
    let mut writer = Writer::new(Vec::new(alloc));
    writer.begin_array()?;
    writer.string(call.name.as_str())?;
    write_json_values_and_end(&mut writer, call.args.as_slice())?;
    let mut line = writer.into_inner();
    line.push(b'\n')?;
    Ok(line)
}

/// What a line answers.
#[derive(Debug, PartialEq, Eq, Drop)]
pub enum ClientAnswer {
    Value(Value),
    /// The client says that the call failed.
    Failed,
    /// The client does not know whether the call took effect.
    Unknown,
    /// The line is no JSON, or its JSON is no value.
    NoValue,
}

/// What a line means as the answer to a call whose result has type `ty`, if that is known.
pub fn client_answer_of_line(
    alloc: Global,
    ty: Option<&Ty>,
    line: &str,
) -> Result<ClientAnswer, AllocError>
    ensures { IfOk result (λ answer. IsAnswer (option_copied ty.entry) line.now answer) }
{
    if line.as_bytes().starts_with(b"failed") {
        return Ok(ClientAnswer::Failed);
    }
    if line.as_bytes().starts_with(b"unknown") {
        return Ok(ClientAnswer::Unknown);
    }
    let mut scratch = Scratch::new(alloc);
    match Json::parse_strict(alloc, line, &mut scratch) {
        Ok(json) => match value_from_json(alloc, ty, &json)? {
            Some(value) => Ok(ClientAnswer::Value(value)),
            None => Ok(ClientAnswer::NoValue),
        },
        Err(Error::OutOfMemory) => Err(AllocError),
        Err(Error::Invalid | Error::DuplicateKey) => Ok(ClientAnswer::NoValue),
        Err(Error::TooLong) => unreachable!(),
    }
}

/// The result types of the operations of a model with these items, in their order.
pub fn result_types_of_operations(alloc: Global, items: &[Item]) -> Result<Items<Ty>, AllocError>
    ensures { IfOk result (λ types. types ≡ map (λ o. o.result) (operations_of items.now)) }
{
    let mut types = Items::new(alloc);
    for item in items {
        if let Item::Op(operation) = item {
            types.push(operation.result.copy(alloc)?)?;
        }
    }
    Ok(types)
}

/// The hint on a number that is no integer of 64 bits.
const NUMBER: &str = "; a number is an integer from -9223372036854775808 to 9223372036854775807";

/// The hint on a bool as Python prints it.
const JSON_BOOL: &str = "; print JSON, as json.dumps does: true, false";

/// The hint on a text without double quotes.
const QUOTES: &str = "; a text is in double quotes: \"abc\"";

/// Whether a line begins as a JSON number does.
fn begins_like_json_number(answer: &str) -> bool {
    match answer.as_bytes().first() {
        Some(byte) => byte.is_ascii_digit() || *byte == b'-',
        None => false,
    }
}

/// Whether a line begins as a value with parts does, in JSON or in Python.
fn begins_like_value_with_parts(answer: &str) -> bool {
    matches!(answer.as_bytes().first(), Some(b'[' | b'{' | b'('))
}

/// Whether a piece of a line has a number with a fraction or an exponent, or one of over 19 digits.
fn has_fraction_exponent_or_long_number(piece: &str) -> bool {
    let mut digits: usize = 0;
    for byte in piece.as_bytes() {
        if byte.is_ascii_digit() {
            digits = digits.saturating_add(1);
        } else if digits > 0 && matches!(*byte, b'.' | b'e' | b'E') {
            return true;
        } else {
            digits = 0;
        }
        if digits > 19 {
            return true;
        }
    }
    false
}

/// What to write in place of a part of a value. `piece` is a piece of the line outside of texts.
fn hint_on_foreign_syntax_outside_texts(piece: &str) -> Option<&'static str> {
    if piece.contains("null") || piece.contains("None") {
        Some("; there is no null: an option is [] or [x] (docs/language.md, Patterns)")
    } else if piece.contains("True") || piece.contains("False") {
        Some(JSON_BOOL)
    } else if has_fraction_exponent_or_long_number(piece) {
        Some(NUMBER)
    } else if piece.contains("'") {
        Some(QUOTES)
    } else {
        None
    }
}

/// What to mend in the first part of a value with parts that is no JSON, or that no value has. Texts begin and end at each
/// double quote.
fn hint_on_first_foreign_syntax(answer: &str) -> &'static str {
    let mut is_text = false;
    for piece in answer.split('"') {
        if !is_text {
            if let Some(hint) = hint_on_foreign_syntax_outside_texts(piece) {
                return hint;
            }
        }
        is_text = !is_text;
    }
    ""
}

/// What to answer in place of a line that is no value. `ty` is the type that is wanted, if it is known.
pub(crate) fn hint_on_answer_without_value(answer: &str, ty: Option<&Ty>) -> &'static str {
    match answer.trim() {
        "null" | "None" | "undefined" => {
            "; answer true if there is no result, [] or [x] for an option (docs/language.md, Patterns)"
        }
        "" => "(an empty line)",
        "True" | "False" => JSON_BOOL,
        number if begins_like_json_number(number) => NUMBER,
        value if begins_like_value_with_parts(value) => hint_on_first_foreign_syntax(value),
        word if matches!(ty, Some(Ty::Text)) && !word.starts_with("\"") => QUOTES,
        _ => "",
    }
}

/// Whether a line of JSON has a text with a character that is no printable ASCII, plain or as an escape.
fn has_character_beyond_printable_ascii(answer: &str) -> bool {
    let mut is_escaped = false;
    for byte in answer.as_bytes() {
        let byte = *byte;
        if byte >= 0x7f || (is_escaped && matches!(byte, b'b' | b'f' | b'n' | b'r' | b't' | b'u')) {
            return true;
        }
        is_escaped = !is_escaped && byte == b'\\';
    }
    false
}

/// Whether values of a type may have texts in them.
#[cycle(may_hold_text)]
fn may_hold_text(ty: &Ty) -> bool {
    match ty {
        Ty::Text => true,
        Ty::Tuple(types) => may_any_hold_text(types.as_slice()),
        Ty::List(item) => may_hold_text(item.get()),
        Ty::Map(keys, value) => matches!(keys, KeyTy::Text) || may_hold_text(value.get()),
        _ => false,
    }
}

/// Whether values of one of the types may have texts in them.
#[cycle(may_hold_text)]
fn may_any_hold_text(types: &[Ty]) -> bool {
    for ty in types {
        if may_hold_text(ty) {
            return true;
        }
    }
    false
}

/// What to answer where a map with keys of a type is wanted.
fn hint_on_client_map_answer(keys: KeyTy) -> &'static str {
    match keys {
        KeyTy::Int =>
            "; a map with int keys is an object such as {\"1\":..}, with values of its type",
        KeyTy::Bool => {
            "; a map with bool keys is an object such as {\"true\":..}, with values of its type"
        }
        KeyTy::Text => {
            "; a map with text keys is an object such as {\"a\":..}, with values of its type"
        }
    }
}

/// What to answer in place of `answer` where a type is wanted.
pub(crate) fn hint_on_answer_of_wrong_type(answer: &str, ty: &Ty) -> &'static str {
    match ty {
        Ty::Int => "; type int is a number such as 7",
        Ty::Bool => "; type bool is true or false",
        Ty::Text => "; type text is a string of printable ASCII such as \"a\"",
        _ if has_character_beyond_printable_ascii(answer) && may_hold_text(ty) => {
            "; texts are printable ASCII"
        }
        Ty::Tuple(_) => "; a tuple is an array with a part of each of its types",
        Ty::List(_) => "; a list is an array, each item of its item type",
        Ty::Map(keys, _) => hint_on_client_map_answer(*keys),
        _ => "",
    }
}
