//! What is wrong with the form of a JSON item.

use crate::bytes::ByteFault;
use crate::json_places::{
    JsonPartCursor, find_bracket_deeper_than, first_byte_of_json_value_or_zero, is_json_array_at,
    next_json_value_span,
};
use json::{Error, MAX_DEPTH, Reader, Scratch, Value as Json};
use pst_run_problems::JSON_ITEM;
use pst_sources::Span;
use pst_syntax_problems::NearestNameSoFar;
use std::alloc::{AllocError, Global};

/// A fault of a JSON item, if it has one.
type FoundFault = Result<Option<ByteFault>, AllocError>;

/// How a call is written.
const CALL: &str = "a call is an array: `[\"OPERATION\", VALUE, ..]`";

/// What the replies are.
const REPLIES: &str = "the replies are arrays in an array, one for each part";

/// What the times are.
const TIMES: &str = "the times are arrays in an array, one for each branch";

/// The note on an array of calls in the place of one call.
const CALLS: &str = "hint: a branch is an array of calls: `[[[\"inc\"]],[[\"get\"]]]`";

/// The bytes of a value, of a long one the first.
pub fn shortened_json_value(line: &[u8], value: Span) -> &str {
    let end = value.end.min(value.start.saturating_add(40));
    match line.get(value.start..end) {
        Some(bytes) => str::from_utf8(bytes).unwrap_or(".."),
        None => "",
    }
}

/// The fault `what` at `span`, with the note `note`.
fn json_fault_with_note(alloc: Global, span: Span, what: &str, note: &str) -> FoundFault {
    Ok(Some(ByteFault::new(alloc, span, what)?.with_note(alloc, note)?))
}

/// The fault of the value at `span`, which is not `what`.
fn wrong_json_value_fault(
    alloc: Global,
    line: &[u8],
    span: Span,
    what: &str,
    note: &str,
) -> FoundFault {
    let found = shortened_json_value(line, span);
    let fault = ByteFault::new(alloc, span, format_args!("{what}, found `{found}`"))?;
    if note.is_empty() {
        return Ok(Some(fault));
    }
    Ok(Some(fault.with_note(alloc, note)?))
}

/// Whether a value is an array that begins with a string, as calls do.
fn is_json_array_beginning_with_string(line: &[u8], value: Span) -> bool {
    is_json_array_at(line, value)
        && first_byte_of_json_value_or_zero(
            line,
            next_json_value_span(line, value.start.saturating_add(1)),
        ) == b'"'
}

/// The fault of the first value of an array that is no call, if there is one.
fn fault_of_first_json_non_call(alloc: Global, line: &[u8], calls: Span, note: &str) -> FoundFault {
    let mut parts = JsonPartCursor::of(calls);
    for _ in calls.start..calls.end {
        let Some(call) = parts.next(line) else {
            return Ok(None);
        };
        if !is_json_array_beginning_with_string(line, call) {
            let found = shortened_json_value(line, call);
            let what = format_args!("`{found}` is not a call");
            return Ok(Some(ByteFault::new(alloc, call, what)?.with_note(alloc, note)?));
        }
    }
    Ok(None)
}

/// The fault of the prefix or the suffix, if it has one.
fn json_prefix_or_suffix_fault(alloc: Global, line: &[u8], part: Span) -> FoundFault {
    if !is_json_array_at(line, part) {
        return wrong_json_value_fault(alloc, line, part, "expected an array of calls", CALL);
    }
    fault_of_first_json_non_call(alloc, line, part, CALL)
}

/// The fault of a branch, if it has one.
fn json_branch_fault(alloc: Global, line: &[u8], branch: Span) -> FoundFault {
    if !is_json_array_at(line, branch) {
        return wrong_json_value_fault(alloc, line, branch, "a branch is an array of calls", CALL);
    }
    let note = if is_json_array_beginning_with_string(line, branch) {
        CALLS
    } else {
        CALL
    };
    fault_of_first_json_non_call(alloc, line, branch, note)
}

/// The fault of the branches, if they have one.
fn json_branches_fault(alloc: Global, line: &[u8], branches: Span) -> FoundFault {
    if !is_json_array_at(line, branches) {
        return wrong_json_value_fault(
            alloc,
            line,
            branches,
            "expected an array of branches",
            CALLS,
        );
    }
    let mut parts = JsonPartCursor::of(branches);
    for _ in branches.start..branches.end {
        let Some(branch) = parts.next(line) else {
            return Ok(None);
        };
        let found = json_branch_fault(alloc, line, branch)?;
        if found.is_some() {
            return Ok(found);
        }
    }
    Ok(None)
}

/// The fault of the replies or the times, if they are no array of arrays. `what` says what they are.
fn json_array_of_arrays_fault(alloc: Global, line: &[u8], lists: Span, what: &str) -> FoundFault {
    if !is_json_array_at(line, lists) {
        return wrong_json_value_fault(alloc, line, lists, what, "");
    }
    let mut parts = JsonPartCursor::of(lists);
    for _ in lists.start..lists.end {
        match parts.next(line) {
            Some(list) if !is_json_array_at(line, list) => {
                return wrong_json_value_fault(alloc, line, list, what, "");
            }
            Some(_) => {}
            None => return Ok(None),
        }
    }
    Ok(None)
}

/// The fault of the member `name`, whose key is at `key`. No item has such a member.
fn unknown_json_member_fault(alloc: Global, name: &str, key: Span) -> FoundFault {
    let what = format_args!("unknown member `{name}`: prefix, branches, suffix, replies, times");
    let fault = ByteFault::new(alloc, key, what)?;
    let near = NearestNameSoFar::without_candidates(name)
        .or_nearer_candidate(alloc, "prefix", name)?
        .or_nearer_candidate(alloc, "branches", name)?
        .or_nearer_candidate(alloc, "suffix", name)?
        .or_nearer_candidate(alloc, "replies", name)?
        .or_nearer_candidate(alloc, "times", name)?;
    match near.hint() {
        Some(hint) => Ok(Some(fault.with_note(alloc, hint)?)),
        None => Ok(Some(fault)),
    }
}

/// The fault of the member `name`, if its value has one.
fn json_member_fault(alloc: Global, line: &[u8], name: &str, key: Span, value: Span) -> FoundFault {
    match name {
        "prefix" | "suffix" => json_prefix_or_suffix_fault(alloc, line, value),
        "branches" => json_branches_fault(alloc, line, value),
        "replies" => json_array_of_arrays_fault(alloc, line, value, REPLIES),
        "times" => json_array_of_arrays_fault(alloc, line, value, TIMES),
        _ => unknown_json_member_fault(alloc, name, key),
    }
}

/// Whether one of the first `count` members has the name `name`.
fn is_among_first_json_members(members: &[(&str, Json<'_>)], count: usize, name: &str) -> bool {
    members.iter().take(count).any(|(other, _)| *other == name)
}

/// The fault of the member `number`, whose key is at `key`: it is unknown, has a fault in its value, or has the name of
/// an earlier member.
fn json_member_or_duplicate_fault(
    alloc: Global,
    line: &[u8],
    members: &[(&str, Json<'_>)],
    number: usize,
    key: Span,
    value: Span,
) -> FoundFault {
    let Some((name, _)) = members.get(number) else {
        return Ok(None);
    };
    let found = json_member_fault(alloc, line, name, key, value)?;
    if found.is_some() || !is_among_first_json_members(members, number, name) {
        return Ok(found);
    }
    let what = format_args!("the member `{name}` is there twice");
    Ok(Some(ByteFault::new(alloc, key, what)?))
}

/// The fault of the first member that is unknown, has a fault in its value, or has the name of an earlier member.
fn fault_of_first_bad_json_member(
    alloc: Global,
    line: &[u8],
    members: &[(&str, Json<'_>)],
) -> FoundFault {
    let mut parts = JsonPartCursor::of(next_json_value_span(line, 0));
    for number in 0..members.len() {
        let (Some(key), Some(value)) = (parts.next(line), parts.next(line)) else {
            return Ok(None);
        };
        let found = json_member_or_duplicate_fault(alloc, line, members, number, key, value)?;
        if found.is_some() {
            return Ok(found);
        }
    }
    Ok(None)
}

/// The fault of the members of an item, if they have one.
fn bad_or_missing_json_member_fault(
    alloc: Global,
    line: &[u8],
    members: &[(&str, Json<'_>)],
) -> FoundFault {
    let found = fault_of_first_bad_json_member(alloc, line, members)?;
    if found.is_some() || is_among_first_json_members(members, members.len(), "branches") {
        return Ok(found);
    }
    json_fault_with_note(
        alloc,
        next_json_value_span(line, 0),
        "the member `branches` is missing",
        CALLS,
    )
}

/// The place of the first syntax error in `text`.
fn find_json_syntax_error_offset(alloc: Global, text: &str) -> Result<usize, AllocError> {
    let mut scratch = Scratch::new(alloc);
    let mut reader = Reader::new(text, &mut scratch)?;
    let _ = reader.skip_value(MAX_DEPTH);
    Ok(reader.offset())
}

/// The place where the text after the first value of a line begins, without white space before it, or the end of the
/// line if none follows. `None` if the value is no JSON.
fn place_after_json_value_if_valid(alloc: Global, text: &str) -> Result<Option<usize>, AllocError> {
    let line = text.as_bytes();
    let whole = next_json_value_span(line, 0);
    let Some(value) = text.get(whole.start..whole.end) else {
        return Ok(None);
    };
    let mut scratch = Scratch::new(alloc);
    match Json::parse(alloc, value, &mut scratch) {
        Ok(_) => Ok(Some(next_json_value_span(line, whole.end).start)),
        Err(Error::OutOfMemory) => Err(AllocError),
        Err(_) => Ok(None),
    }
}

/// A hint on the syntax error at `place`.
fn hint_on_bad_json(text: &str, place: usize) -> &'static str {
    let before = text.get(..place).unwrap_or("").trim_end();
    let rest = text.get(place..).unwrap_or("");
    match rest.as_bytes().first() {
        Some(b'T' | b'F' | b'N') => "hint: JSON writes `true`, `false` and `null`",
        Some(b'\'') => "hint: texts are in double quotes",
        Some(b']' | b'}') if before.ends_with(",") => "hint: no comma is before a closing bracket",
        Some(byte) if byte.is_ascii_alphabetic() => "hint: names and texts are in double quotes",
        Some(b'0') => "hint: a number has no leading zeros",
        _ => JSON_ITEM,
    }
}

/// The fault of the bracket at `place`, which opens more levels than a reader of JSON takes.
fn json_too_deep_fault(alloc: Global, place: usize) -> FoundFault {
    let span = Span {
        start: place,
        end: place.saturating_add(1),
    };
    let what = format_args!("arrays and objects are nested more than {MAX_DEPTH} deep");
    Ok(Some(ByteFault::new(alloc, span, what)?))
}

/// The fault of a line that is no JSON.
fn json_syntax_fault(alloc: Global, text: &str) -> FoundFault {
    if let Some(place) = place_after_json_value_if_valid(alloc, text)? {
        let span = Span {
            start: place,
            end: place.saturating_add(1),
        };
        let what = "no JSON: something follows the object on its line";
        return json_fault_with_note(alloc, span, what, JSON_ITEM);
    }
    let place = find_json_syntax_error_offset(alloc, text)?.min(text.len());
    if let Some(bracket) = find_bracket_deeper_than(text.as_bytes(), MAX_DEPTH) {
        if bracket < place {
            return json_too_deep_fault(alloc, bracket);
        }
    }
    let column = place.saturating_add(1);
    let span = Span {
        start: place,
        end: column,
    };
    if place >= text.trim_end().len() {
        let what = "no JSON: the object is not closed on its line";
        return json_fault_with_note(alloc, span, what, JSON_ITEM);
    }
    let what = format_args!("no JSON at column {column}");
    let hint = hint_on_bad_json(text, place);
    Ok(Some(ByteFault::new(alloc, span, what)?.with_note(alloc, hint)?))
}

/// The fault of the form of the JSON item on a line, if it has one. `None` also for JSON that is no object.
pub fn json_item_form_fault(alloc: Global, line: &[u8]) -> FoundFault {
    let Ok(text) = str::from_utf8(line) else {
        let what = "no JSON: the line is not UTF-8";
        return Ok(Some(ByteFault::new(alloc, next_json_value_span(line, 0), what)?));
    };
    let mut scratch = Scratch::new(alloc);
    match Json::parse(alloc, text, &mut scratch) {
        Ok(Json::Object(members)) => bad_or_missing_json_member_fault(
            alloc,
            line,
            members.as_slice(),
        ),
        Ok(_) => Ok(None),
        Err(Error::OutOfMemory) => Err(AllocError),
        Err(_) => json_syntax_fault(alloc, text),
    }
}
