//! The part of a model that is probably not closed: another part begins in it that cannot be in it.

use pst_sources::{Span, State, scan_state_after_byte};
use std::alloc::{AllocError, Global};

/// The head words of parts of a model, each with the number of nodes that it is in: an item is in the model, and a callback
/// is in an operation.
const PARTS: [(&str, usize); 9] = [
    ("state", 1),
    ("init", 1),
    ("command", 1),
    ("fun", 1),
    ("postfun", 1),
    ("op", 1),
    ("pre", 2),
    ("next", 2),
    ("post", 2),
];

/// A node that is open.
#[derive(Clone, Copy, Drop)]
struct OpenNode<'a> {
    /// The place of its bracket.
    place: usize,
    /// The word after its bracket, or no bytes.
    head: &'a [u8],
}

/// A part of a model that is open where another one begins, which cannot be in it.
#[derive(Clone, Copy, Debug, PartialEq, Eq, Drop)]
pub struct OverlongPart {
    /// Its head word.
    pub head: &'static str,
    /// Its bracket.
    pub span: Span,
    /// The head word of the part that begins in it.
    pub next_head: &'static str,
    /// The place of the bracket of the part that begins in it.
    pub next: usize,
}

/// Returns the word that the bytes begin with, or no bytes.
fn word_at_start(bytes: &[u8]) -> &[u8] {
    for (length, byte) in bytes.iter().enumerate() {
        if scan_state_after_byte(State::Between, *byte) != State::Word {
            return bytes.get(..length).unwrap_or(&[]);
        }
    }
    bytes
}

/// Returns the head word of a part of a model, and the number of nodes that it is in.
fn part_of_model_headed(head: &[u8]) -> Option<(&'static str, usize)> {
    for (word, level) in PARTS {
        if head == word.as_bytes() {
            return Some((word, level));
        }
    }
    None
}

/// Returns the innermost part of a model among `open`, from the outermost node to the innermost.
fn innermost_open_part(open: &[OpenNode<'_>]) -> Option<(&'static str, usize)> {
    let mut found = None;
    for node in open {
        if let Some((head, _)) = part_of_model_headed(node.head) {
            found = Some((head, node.place));
        }
    }
    found
}

/// Returns whether parts of a model may begin in the innermost of the nodes: the outermost one is a model, and the innermost
/// one has a head, so that it is no list of parameters.
fn may_hold_parts_of_model(open: &[OpenNode<'_>]) -> bool {
    let is_model = match open.first() {
        Some(outermost) => {
            outermost.head == "model".as_bytes() || outermost.head == "model2".as_bytes()
        }
        None => false,
    };
    is_model
        && open
            .last()
            .is_some_and(|innermost| !innermost.head.is_empty())
}

/// Returns the part of a model that is open too long, if the node `node` is a part of a model that cannot be in it. `open` are
/// the nodes around `node`, from the outermost to the innermost.
fn overlong_part_around_node(open: &[OpenNode<'_>], node: OpenNode<'_>) -> Option<OverlongPart> {
    let (next_head, level) = part_of_model_headed(node.head)?;
    if !may_hold_parts_of_model(open) {
        return None;
    }
    let (head, place) = innermost_open_part(open.get(level..)?)?;
    Some(OverlongPart {
        head,
        span: Span {
            start: place,
            end: place.saturating_add(1),
        },
        next_head,
        next: node.place,
    })
}

/// Returns the first part of a model in which another part begins that cannot be in it, so that a `)` is probably missing
/// between them.
pub fn find_overlong_part_of_model(
    alloc: Global,
    input: &[u8],
) -> Result<Option<OverlongPart>, AllocError> {
    let mut open = Vec::new(alloc);
    let mut state = State::Between;
    for (place, byte) in input.iter().enumerate() {
        if matches!(state, State::Between | State::Word) {
            if *byte == b'(' {
                let head = word_at_start(input.get(place.saturating_add(1)..).unwrap_or(&[]));
                let node = OpenNode { place, head };
                if let Some(found) = overlong_part_around_node(open.as_slice(), node) {
                    return Ok(Some(found));
                }
                open.push(node)?;
            } else if *byte == b')' {
                let _ = open.pop();
            }
        }
        state = scan_state_after_byte(state, *byte);
    }
    Ok(None)
}
