//! Refused JSON items.

use crate::bytes::ByteFault;
use crate::json_fault::{json_item_form_fault, shortened_json_value};
use crate::json_places::{
    JsonPartCursor, array_element_span_or_whole, first_byte_of_json_value_or_zero,
    next_json_value_span,
};
use pst_json_runs::json_line_tree_or_empty;
use pst_model::Typed;
use pst_run_problems::{node_parts_or_empty, refused_case_or_run_problem};
use pst_runs::{RunFault, read_runs};
use pst_sexpr::{Form, Tree, tree_in};
use pst_sources::Span;
use pst_syntax_problems::{Problem, head_word_or_empty, shortened_tree_text};
use std::alloc::{AllocError, Global};
use std::slice;

/// The value of the member `name` of an item, or all its bytes.
fn json_member_span_or_whole(line: &[u8], name: &str) -> Span {
    let whole = next_json_value_span(line, 0);
    let mut parts = JsonPartCursor::of(whole);
    for _ in whole.start..whole.end {
        let (Some(key), Some(value)) = (parts.next(line), parts.next(line)) else {
            return whole;
        };
        let inner = line.get(key.start.saturating_add(1)..key.end.saturating_sub(1));
        if inner == Some(name.as_bytes()) {
            return value;
        }
    }
    whole
}

/// The JSON of the part of an item whose tree has the head `head`, and how many numbers after the first of a path lead
/// through trees without a head of their own.
fn json_part_span_and_headless_levels(line: &[u8], head: &str) -> (Span, usize) {
    match head {
        "left" => (
            array_element_span_or_whole(line, json_member_span_or_whole(line, "branches"), 0),
            1,
        ),
        "right" => (
            array_element_span_or_whole(line, json_member_span_or_whole(line, "branches"), 1),
            1,
        ),
        "branches" => (json_member_span_or_whole(line, head), 2),
        _ => (json_member_span_or_whole(line, head), 1),
    }
}

/// The JSON of the tree at `path` in `tree`, the tree of the JSON item on a line. It is an array around it where trees and
/// JSON differ in their parts.
pub fn json_span_at_or_around_tree_path(line: &[u8], tree: &Form, path: &[usize]) -> Span {
    let Some((place, rest)) = path.split_first() else {
        return next_json_value_span(line, 0);
    };
    let head = match node_parts_or_empty(tree).get(*place) {
        Some(part) => head_word_or_empty(part),
        None => "",
    };
    let (mut found, plain) = json_part_span_and_headless_levels(line, head);
    for (level, number) in rest.iter().enumerate() {
        let has_head = level == 0 || level > plain;
        let before = if has_head { 1 } else { 0 };
        if *number < before {
            return found;
        }
        found = array_element_span_or_whole(line, found, *number - before);
    }
    found
}

/// Whether a string of JSON is printable ASCII without escapes of other characters.
fn is_printable_ascii_json_string(bytes: &[u8]) -> bool {
    let mut is_escaped = false;
    for byte in bytes {
        if *byte < b' ' || *byte > b'~' || (is_escaped && !matches!(*byte, b'"' | b'\\' | b'/')) {
            return false;
        }
        is_escaped = !is_escaped && *byte == b'\\';
    }
    true
}

/// The hint on how JSON spells a value of the type that a message shows as `ty`, unless it is a reference or a map.
fn hint_on_json_spelling_of_type(ty: &str) -> Option<&'static str> {
    match ty {
        "int" => Some("hint: an int is a number: `7`"),
        "bool" => Some("hint: a bool is `true` or `false`"),
        "text" => Some("hint: a text is a string: `\"a\"`"),
        _ if ty.starts_with("(list ") => Some("hint: a list is an array: `[1,2]`"),
        _ if ty.starts_with("(tuple ") => Some("hint: a tuple is an array: `[1,\"a\"]`"),
        _ => None,
    }
}

/// The type that a message with `before` before the value says to be expected.
fn expected_type_in_message(before: &str) -> Option<&str> {
    before.strip_prefix("expected ")?.strip_suffix(", found ")
}

/// The hint on an object in the place of a value, which a message shows after `before`.
fn hint_on_json_object(object: &str, before: &str) -> Option<&'static str> {
    if object.starts_with("{\"failed\":") {
        return Some("hint: a call that failed is `{\"failed\":null}`");
    }
    if object.starts_with("{\"unknown\":") {
        return Some(
            "hint: a call of which nobody knows whether it took effect is `{\"unknown\":null}`",
        );
    }
    match expected_type_in_message(before) {
        Some(ty) => hint_on_json_spelling_of_type(ty),
        None => Some("hint: an object is a map, which only a `model2` has"),
    }
}

/// A hint on a string, a number or a null, if no model has such a value, and on an object the hint of
/// `hint_on_json_object`. A message shows the value after `before`. Arrays, `true` and `false` get no hint.
fn hint_on_foreign_json_value(line: &[u8], value: Span, before: &str) -> Option<&'static str> {
    let bytes = line.get(value.start..value.end).unwrap_or(&[]);
    match first_byte_of_json_value_or_zero(line, value) {
        b'"' if !is_printable_ascii_json_string(bytes) => Some("hint: printable ASCII only"),
        b'-' | b'0'..=b'9' if shortened_json_value(line, value).parse::<i64>().is_err() => {
            Some("hint: integers only, from -9223372036854775808 to 9223372036854775807")
        }
        b'n' => Some("hint: there is no null; an option is a list: `[]` or `[1]`"),
        b'{' => hint_on_json_object(shortened_json_value(line, value), before),
        _ => None,
    }
}

/// Whether a value may be one that no model has, by its first byte.
fn can_be_foreign_json_value(line: &[u8], value: Span) -> bool {
    let first = first_byte_of_json_value_or_zero(line, value);
    first == b'"' || first == b'-' || first == b'n' || first.is_ascii_digit()
}

/// The first value in an array that no model has, with a hint, or else the array itself without one. A message shows it
/// after `before`.
fn foreign_json_value_or_whole(
    line: &[u8],
    value: Span,
    before: &str,
) -> (Span, Option<&'static str>) {
    let mut found = (value, hint_on_foreign_json_value(line, value, before));
    let mut end_of_part = value.start;
    for at in value.start..value.end {
        if found.1.is_some() {
            return found;
        }
        let part = next_json_value_span(line, at);
        let is_begun = at >= end_of_part && at == part.start && part.start < part.end;
        if is_begun && can_be_foreign_json_value(line, part) {
            found = (part, hint_on_foreign_json_value(line, part, before));
            end_of_part = part.end;
        }
    }
    match found.1 {
        Some(_) => found,
        None => (value, None),
    }
}

/// The note on a JSON item in place of `note`, a note on its tree. There is none if `note` says how a tree is written.
fn note_in_json_terms(note: &str) -> Option<&str> {
    if note.starts_with("it is written `(")
        || note.starts_with("a call is `(")
        || note.starts_with("a reply is an integer,")
        || note.starts_with("hint: the prefix has a list too")
    {
        None
    } else if note.starts_with("a reference is written `$n`") {
        Some("a reference is `{\"result\":n}`: it refers to the result of command `n`, from 1")
    } else {
        Some(note)
    }
}

/// The fault with what `notes`, notes on the tree, say of the item.
fn with_notes_in_json_terms(
    alloc: Global,
    fault: ByteFault,
    notes: &[String],
) -> Result<ByteFault, AllocError> {
    let mut fault = fault;
    for note in notes {
        if let Some(note) = note_in_json_terms(note.as_str()) {
            fault = fault.with_note(alloc, note)?;
        }
    }
    Ok(fault)
}

/// How replies are written, for a note.
const REPLIES: &str =
    "`replies` is `[PREFIX, BRANCH, BRANCH, .., SUFFIX]`: an array of replies for each, not nested further";

/// Whether `problem` is that an item has not one list of replies for each part, or that one of them is no list.
fn is_problem_of_reply_lists(problem: &Problem) -> bool {
    problem
        .what
        .starts_with("the replies are lists, one for each part")
}

/// The fault at `value`, about which a message shows the value instead of its tree.
fn fault_showing_json_value(
    alloc: Global,
    line: &[u8],
    value: Span,
    before: &str,
    after: &str,
) -> Result<ByteFault, AllocError> {
    let (span, hint) = foreign_json_value_or_whole(line, value, before);
    let found = shortened_json_value(line, value);
    let fault = ByteFault::new(alloc, span, format_args!("{before}`{found}`{after}"))?;
    match hint {
        Some(hint) => fault.with_note(alloc, hint),
        None => Ok(fault),
    }
}

/// What a message says before and after the tree at `path`, if that is a node and the message shows it.
fn text_around_shown_node<'a>(
    alloc: Global,
    tree: &Form,
    path: &[usize],
    what: &'a str,
) -> Result<Option<(&'a str, &'a str)>, AllocError> {
    let Some(form @ Form::Node(_)) = tree_in(tree, path) else {
        return Ok(None);
    };
    let shown = shortened_tree_text(alloc, form)?;
    let shown = shown.as_str();
    let shown = format!(in alloc; "`{shown}`")?;
    Ok(what.split_once(shown.as_str()))
}

/// The fault that `problem`, a problem of the tree of a JSON item, is in the JSON.
fn json_fault_from_tree_problem(
    alloc: Global,
    line: &[u8],
    tree: &Form,
    problem: &Problem,
) -> Result<ByteFault, AllocError> {
    let what = problem.what.as_str();
    if is_problem_of_reply_lists(problem) {
        let fault = ByteFault::new(
            alloc,
            json_member_span_or_whole(line, "replies"),
            what,
        )?.with_note(alloc, REPLIES)?;
        return with_notes_in_json_terms(alloc, fault, problem.notes.as_slice());
    }
    let path = problem.path.as_slice().get(1..).unwrap_or(&[]);
    let value = json_span_at_or_around_tree_path(line, tree, path);
    let fault = match text_around_shown_node(alloc, tree, path, what)? {
        Some((before, after)) => fault_showing_json_value(alloc, line, value, before, after)?,
        None => ByteFault::new(alloc, value, what)?,
    };
    with_notes_in_json_terms(alloc, fault, problem.notes.as_slice())
}

/// The fault of a JSON item whose tree is refused with `fault`.
fn json_fault_from_run_fault(
    alloc: Global,
    typed: &Typed,
    line: &[u8],
    tree: &Tree,
    fault: RunFault,
) -> Result<Option<ByteFault>, AllocError> {
    match refused_case_or_run_problem(alloc, typed.source(), tree.form(), fault)? {
        Some(problem) => Ok(Some(json_fault_from_tree_problem(
            alloc,
            line,
            tree.form(),
            &problem,
        )?)),
        None => Ok(None),
    }
}

/// The fault of the JSON item on a line, whose form has none, if it is refused.
fn json_item_fault_beyond_form(
    alloc: Global,
    typed: &Typed,
    line: &[u8],
) -> Result<Option<ByteFault>, AllocError> {
    let tree = json_line_tree_or_empty(alloc, typed.source(), line)?;
    match read_runs(alloc, typed, slice::from_ref(&tree)) {
        Ok(_) => Ok(None),
        Err(fault) => json_fault_from_run_fault(alloc, typed, line, &tree, fault),
    }
}

/// The fault of the JSON item on a line, if it is refused.
pub fn json_item_fault(
    alloc: Global,
    typed: &Typed,
    line: &[u8],
) -> Result<Option<ByteFault>, AllocError> {
    let found = json_item_form_fault(alloc, line)?;
    if found.is_some() {
        return Ok(found);
    }
    json_item_fault_beyond_form(alloc, typed, line)
}
