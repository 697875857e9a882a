//! The item that a missing `)` probably leaves open, and the item that an extra `)` closed too early.

use crate::scan::{
    Span, State, is_bracket, is_space, scan_state_after_byte, skip_blanks_and_comments, tree_at,
};

/// An item that is probably not closed.
#[derive(Clone, Copy, Debug, PartialEq, Eq, Drop)]
pub struct Unclosed {
    /// Its bracket.
    pub item: Span,
    /// The bracket of the next item, if it begins a line while `item` is still open.
    pub next: Option<Span>,
}

/// The items of a model.
const OF_MODELS: [&str; 6] = ["state", "init", "command", "fun", "postfun", "op"];

/// The items of a file.
const OF_FILES: [&str; 4] = ["model", "model2", "case", "run"];

/// Returns whether `bytes` begins with `word`, followed by a byte that ends it or by nothing.
fn begins_with_whole_word(bytes: &[u8], word: &str) -> bool {
    match bytes.strip_prefix(word.as_bytes()) {
        Some(rest) => match rest.first() {
            Some(byte) => is_space(*byte) || *byte == b'(' || *byte == b')',
            None => true,
        },
        None => false,
    }
}

/// Returns the word that heads an item of a file, if `bytes` begins with one.
fn head_of_file_item(bytes: &[u8]) -> Option<&'static str> {
    for word in OF_FILES {
        if begins_with_whole_word(bytes, word) {
            return Some(word);
        }
    }
    None
}

/// Returns the nesting level of an item: 0 for an item of a file, 1 for an item of a model. `bytes` follows its
/// bracket. `None` if this is no item.
fn item_level_by_head(bytes: &[u8]) -> Option<usize> {
    if head_of_file_item(bytes).is_some() {
        return Some(0);
    }
    for word in OF_MODELS {
        if begins_with_whole_word(bytes, word) {
            return Some(1);
        }
    }
    None
}

/// Returns whether only white space is between `at` and the line end before it.
fn is_first_on_its_line(input: &[u8], at: usize) -> bool {
    for back in 0..at.min(input.len()) {
        let before = at - 1 - back;
        match input.get(before) {
            Some(b'\n') => return true,
            Some(b' ') | Some(b'\t') | Some(b'\r') => {}
            _ => return false,
        }
    }
    true
}

/// Returns the level of the item whose bracket is at `at`, if it begins a line.
fn level_of_item_beginning_line(input: &[u8], at: usize) -> Option<usize> {
    let behind = input.get(at.saturating_add(1)..)?;
    let level = item_level_by_head(behind)?;
    if is_first_on_its_line(input, at) {
        Some(level)
    } else {
        None
    }
}

/// Returns the span of the bracket at `at`.
fn span_of_bracket(at: usize) -> Span {
    Span {
        start: at,
        end: at.saturating_add(1),
    }
}

/// Returns the item that is probably not closed. Only items that begin a line count. If one of them is nested deeper
/// than its kind may be, this is the item before it; else it is the last item of all.
pub fn find_probably_unclosed_item(input: &[u8]) -> Option<Unclosed> {
    let mut state = State::Between;
    let mut depth: usize = 0;
    let mut last: Option<usize> = None;
    for at in 0..input.len() {
        let byte = input[at];
        if is_bracket(state, byte, b'(') {
            let level = level_of_item_beginning_line(input, at);
            if let Some(level) = level {
                if let (true, Some(item)) = (depth > level, last) {
                    return Some(Unclosed {
                        item: span_of_bracket(item),
                        next: Some(span_of_bracket(at)),
                    });
                }
                last = Some(at);
            }
            depth = depth.saturating_add(1);
        } else if is_bracket(state, byte, b')') {
            depth = depth.saturating_sub(1);
        }
        state = scan_state_after_byte(state, byte);
    }
    let item = span_of_bracket(last?);
    Some(Unclosed { item, next: None })
}

/// An item that is closed already.
#[derive(Clone, Copy, Debug, PartialEq, Eq, Drop)]
pub struct ClosedItem {
    /// Its bytes; the last one is the `)` that closes it.
    pub span: Span,
    /// Its kind: `model`, `case`, `run`, or `tree` if it is none of them.
    pub called: &'static str,
}

/// Returns the word that heads the tree at `at`, if it is a model, a case or a run.
fn item_head_of_tree_at(input: &[u8], at: usize) -> Option<&'static str> {
    match input.get(at) {
        Some(b'(') => head_of_file_item(input.get(at.saturating_add(1)..)?),
        _ => None,
    }
}

/// Returns the word that heads the first tree of a file, if it is a model, a case or a run.
pub fn head_of_first_item(input: &[u8]) -> Option<&'static str> {
    item_head_of_tree_at(input, skip_blanks_and_comments(input, 0))
}

/// Returns what messages call an item that the word `head` heads.
fn noun_for_item_head(head: Option<&'static str>) -> &'static str {
    match head {
        Some("model2") => "model",
        Some(word) => word,
        None => "tree",
    }
}

/// Returns the item that the extra `)` at `stray` was probably meant to close: the last model, case or run before it,
/// or else the last tree before it.
pub fn item_closed_before_stray_bracket(input: &[u8], stray: usize) -> Option<ClosedItem> {
    let mut last = None;
    let mut item = None;
    let mut span = tree_at(input, 0);
    for _ in 0..input.len() {
        if span.start >= stray {
            break;
        }
        let head = item_head_of_tree_at(input, span.start);
        last = Some(ClosedItem {
            span,
            called: noun_for_item_head(head),
        });
        if head.is_some() {
            item = last;
        }
        span = tree_at(input, span.end);
    }
    item.or(last)
}
