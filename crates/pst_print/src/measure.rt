//! How wide the parts of a file are on one line.

use crate::style::leading_parts_of_head;
use crate::tokens::{Kind, Token, head_word_at_token, trimmed_token_bytes};
use std::alloc::{AllocError, Global};

/// The size of the tree that begins with a token.
#[derive(Clone, Copy, Drop)]
pub struct Measure {
    /// How many columns its tree takes on one line, with the brackets that close directly after it.
    pub width: usize,
    /// Whether a comment is in its tree.
    pub has_comment: bool,
    /// Whether a part of its node begins a line in the file, other than the leading parts.
    pub has_lines: bool,
}

/// The columns in which a token begins and ends if the whole file is on one line, and the number of comments up to it.
#[derive(Clone, Copy, Drop)]
struct Columns {
    begin: usize,
    end: usize,
    comments: usize,
}

/// The reach of each token.
fn one_line_columns_of_tokens(
    alloc: Global,
    input: &[u8],
    tokens: &[Token],
) -> Result<Vec<Columns>, AllocError> {
    let mut found = Vec::new(alloc);
    let mut column = 0usize;
    let mut comments = 0usize;
    let mut follows_open = true;
    for token in tokens {
        let is_apart = !follows_open && token.kind != Kind::Close;
        let begin = column.saturating_add(if is_apart { 1 } else { 0 });
        let end = begin.saturating_add(trimmed_token_bytes(input, token).len());
        if token.kind == Kind::Comment {
            comments = comments.saturating_add(1);
        }
        found.push(Columns {
            begin,
            end,
            comments,
        })?;
        column = end;
        follows_open = token.kind == Kind::Open;
    }
    Ok(found)
}

/// For each token the number of the last token of its tree.
fn last_token_of_each_tree(alloc: Global, tokens: &[Token]) -> Result<Vec<usize>, AllocError> {
    let mut found = Vec::new(alloc);
    let mut open: Vec<usize> = Vec::new(alloc);
    for (number, token) in tokens.iter().enumerate() {
        found.push(number)?;
        match token.kind {
            Kind::Open => open.push(number)?,
            Kind::Close => {
                if let Some(first) = open.pop() {
                    if let Some(end) = found.get_mut(first) {
                        *end = number;
                    }
                }
            }
            _ => {}
        }
    }
    Ok(found)
}

/// A node that is open.
#[derive(Clone, Copy, Drop)]
struct OpenNode {
    /// The number of its bracket among the tokens.
    number: usize,
    /// How many of its leading parts are still to come.
    leading: usize,
}

/// The node that begins with token `number`.
fn open_node_at_token(input: &[u8], tokens: &[Token], number: usize) -> OpenNode {
    let leading = match head_word_at_token(input, tokens, number) {
        Some(head) => leading_parts_of_head(head),
        None => 1,
    };
    OpenNode { number, leading }
}

/// For each token whether one of the parts of its node begins a line, other than the leading parts.
fn flag_nodes_with_line_breaks(
    alloc: Global,
    input: &[u8],
    tokens: &[Token],
) -> Result<Vec<bool>, AllocError> {
    let mut found = Vec::new(alloc);
    let mut open: Vec<OpenNode> = Vec::new(alloc);
    for (number, token) in tokens.iter().enumerate() {
        found.push(false)?;
        if token.kind == Kind::Close {
            let _ = open.pop();
        } else {
            note_part_of_innermost_node(&mut found, open.last_mut(), token);
        }
        if token.kind == Kind::Open {
            open.push(open_node_at_token(input, tokens, number))?;
        }
    }
    Ok(found)
}

/// Notes for the innermost open node, if there is one, that a part begins with `token`. A comment counts as a part here,
/// since a node with a comment is never on one line.
fn note_part_of_innermost_node(
    found: &mut [bool],
    innermost: Option<&mut OpenNode>,
    token: &Token,
) {
    let Some(node) = innermost else {
        return;
    };
    if node.leading > 0 {
        node.leading -= 1;
    } else if token.lines > 0 {
        if let Some(has_lines) = found.get_mut(node.number) {
            *has_lines = true;
        }
    }
}

/// For each token how many brackets close directly after it.
fn closing_brackets_after_each_token(
    alloc: Global,
    tokens: &[Token],
) -> Result<Vec<usize>, AllocError> {
    let mut found = Vec::new(alloc);
    let mut count = 0usize;
    for token in tokens.iter().rev() {
        found.push(count)?;
        count = if token.kind == Kind::Close {
            count.saturating_add(1)
        } else {
            0
        };
    }
    found.reverse();
    Ok(found)
}

/// The measure of a token with the reach `first`. `last` is the reach of the last token of its tree.
fn tree_measure_from_columns(
    first: Columns,
    last: Columns,
    closers: usize,
    has_lines: bool,
) -> Measure {
    Measure {
        has_lines,
        width: last.end.saturating_sub(first.begin).saturating_add(closers),
        has_comment: last.comments > first.comments,
    }
}

/// The measure of each token of a file.
pub fn measure_tree_at_each_token(
    alloc: Global,
    input: &[u8],
    tokens: &[Token],
) -> Result<Vec<Measure>, AllocError> {
    let reaches = one_line_columns_of_tokens(alloc, input, tokens)?;
    let ends = last_token_of_each_tree(alloc, tokens)?;
    let closers = closing_brackets_after_each_token(alloc, tokens)?;
    let broken = flag_nodes_with_line_breaks(alloc, input, tokens)?;
    let mut found = Vec::new(alloc);
    for ((first, end), has_lines) in reaches.iter().zip(ends.as_slice()).zip(broken.as_slice()) {
        if let (Some(last), Some(closers)) = (reaches.get(*end), closers.get(*end)) {
            found.push(tree_measure_from_columns(*first, *last, *closers, *has_lines))?;
        }
    }
    Ok(found)
}
