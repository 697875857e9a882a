//! The layout of a whole file: its tokens, laid out on lines.

use crate::measure::{Measure, measure_tree_at_each_token};
use crate::style::{Rule, Style, headless_node_layout_style, node_layout_style};
use crate::tokens::{Kind, Token, head_word_at_token, read_layout_tokens, trimmed_token_bytes};
use pst_sexpr::{MAX_BYTES, SexprFault, Tree, read};
use std::alloc::{AllocError, Global};

/// The columns of a line.
const WIDTH: usize = 80;

/// A node that is open.
#[derive(Clone, Copy, Drop)]
struct Frame {
    style: Style,
    /// The whole node is on one line.
    is_flat: bool,
    /// How many parts have begun, the head among them.
    parts: usize,
    /// The last part is on several lines.
    was_broken: bool,
}

/// What separates a token from the token before it.
#[derive(Clone, Copy, Debug, PartialEq, Eq, Drop)]
enum Separator {
    None,
    Space,
    /// A new line, which begins in the column.
    Line(usize),
}

/// The text so far.
#[derive(Drop)]
pub struct Layout<'a> {
    input: &'a [u8],
    tokens: &'a [Token],
    measures: &'a [Measure],
    text: Vec<u8>,
    column: usize,
    frames: Vec<Frame>,
    /// The last token was a comment, so a new line comes before the next one.
    after_comment: bool,
}

impl<'a> Layout<'a> {
    /// A layout to which no token has been added.
    pub fn new(
        alloc: Global,
        input: &'a [u8],
        tokens: &'a [Token],
        measures: &'a [Measure],
    ) -> Layout<'a> {
        Layout {
            input,
            tokens,
            measures,
            text: Vec::new(alloc),
            column: 0,
            frames: Vec::new(alloc),
            after_comment: false,
        }
    }

    /// Adds bytes to the line.
    fn add_bytes_to_line(&mut self, bytes: &[u8]) -> Result<(), AllocError> {
        self.text.extend_from_slice(bytes)?;
        self.column = self.column.saturating_add(bytes.len());
        Ok(())
    }

    /// Begins a line with `indent` spaces, after an empty line if `has_blank`. Adds nothing at the start of the text.
    fn begin_line_unless_first(
        &mut self,
        indent: usize,
        has_blank: bool,
    ) -> Result<(), AllocError> {
        self.after_comment = false;
        if self.text.is_empty() {
            return Ok(());
        }
        self.text.push(b'\n')?;
        if has_blank {
            self.text.push(b'\n')?;
        }
        for _ in 0..indent {
            self.text.push(b' ')?;
        }
        self.column = indent;
        Ok(())
    }

    /// The column in which a new line begins in the innermost open node.
    fn indent_in_innermost_node(&self) -> usize {
        match self.frames.last() {
            Some(frame) => frame.style.indent,
            None => 0,
        }
    }

    /// Whether the tree that begins with token `number` has no comment and fits on a line from `column` on.
    fn tree_fits_on_line(&self, number: usize, column: usize) -> bool {
        match self.measures.get(number) {
            Some(measure) => {
                !measure.has_comment && column.saturating_add(measure.width) <= WIDTH
            }
            None => true,
        }
    }

    /// Whether token `number` begins a line in the file.
    fn token_begins_input_line(&self, number: usize) -> bool {
        match self.tokens.get(number) {
            Some(token) => token.lines > 0,
            None => false,
        }
    }

    /// Whether a part of the node that begins with token `number` begins a line in the file, other than the leading parts.
    fn node_is_split_in_input(&self, number: usize) -> bool {
        match self.measures.get(number) {
            Some(measure) => measure.has_lines,
            None => false,
        }
    }

    /// The head word of the node that begins with token `number`.
    fn head_word_at_token(&self, number: usize) -> Option<&'a [u8]> {
        head_word_at_token(self.input, self.tokens, number)
    }

    /// Whether the node that begins with token `number` is the state or the initial state of a model.
    fn is_state_or_init_node(&self, number: usize) -> bool {
        matches!(
            self.head_word_at_token(number),
            Some(b"state") | Some(b"init")
        )
    }

    /// Whether the node that begins with token `number` is a case or a recorded run without a comment in it. If it is
    /// on one line in the file, it stays on one, however long that is.
    fn is_outermost_uncommented_case_or_run(&self, number: usize) -> bool {
        let has_comment = match self.measures.get(number) {
            Some(measure) => measure.has_comment,
            None => false,
        };
        self.frames.is_empty()
            && !has_comment
            && matches!(
                self.head_word_at_token(number),
                Some(b"case") | Some(b"run")
            )
    }

    /// Whether the innermost open node is on one line.
    fn is_in_one_line_node(&self) -> bool {
        match self.frames.last() {
            Some(frame) => frame.is_flat,
            None => false,
        }
    }

    /// Whether the part that begins with token `number` stays on the line. The part is not the head of its node.
    fn part_stays_on_line(&self, frame: &Frame, number: usize) -> bool {
        if frame.is_flat {
            return true;
        }
        let begins_line = frame.style.rule.keeps_input_line_breaks()
            && self.token_begins_input_line(number);
        let fits = !begins_line
            && !frame.was_broken
            && self.tree_fits_on_line(number, self.column.saturating_add(1));
        match frame.style.rule {
            Rule::First(count) => frame.parts <= count,
            Rule::Filled | Rule::Operation => fits,
            Rule::Item => !begins_line,
            Rule::Model => frame.parts <= 1 || fits && self.is_state_or_init_node(number),
        }
    }

    /// What separates the tree that begins with token `number` from what is before it.
    fn separator_before_tree(&self, number: usize) -> Separator {
        let Some(frame) = self.frames.last() else {
            return Separator::Line(0);
        };
        if self.after_comment {
            Separator::Line(frame.style.indent)
        } else if frame.parts == 0 {
            Separator::None
        } else if self.part_stays_on_line(frame, number) {
            Separator::Space
        } else {
            Separator::Line(frame.style.indent)
        }
    }

    /// Separates a token from the one before it. Keeps empty lines between trees and between items of a model.
    fn add_separator_before_token(
        &mut self,
        number: usize,
        token: &Token,
    ) -> Result<(), AllocError> {
        let has_blank = token.lines > 1 && self.frames.len() <= 1;
        match self.separator_before_tree(number) {
            Separator::None => Ok(()),
            Separator::Space => self.add_bytes_to_line(b" "),
            Separator::Line(indent) => self.begin_line_unless_first(indent, has_blank),
        }
    }

    /// Notes that a part of the innermost node begins or, if `was_broken`, that a part ended on several lines.
    fn note_part_begun_or_broken(&mut self, was_broken: bool) {
        if let Some(frame) = self.frames.last_mut() {
            frame.was_broken = was_broken;
            if !was_broken {
                frame.parts = frame.parts.saturating_add(1);
            }
        }
    }

    /// Opens the node that begins with token `number`.
    fn open_node(&mut self, number: usize) -> Result<(), AllocError> {
        let column = self.column;
        let style = match self.head_word_at_token(number) {
            Some(head) => node_layout_style(head, column),
            None => headless_node_layout_style(column),
        };
        let is_kept = style.rule.keeps_input_line_breaks() && self.node_is_split_in_input(number);
        let fits = self.tree_fits_on_line(number, column)
            || self.is_outermost_uncommented_case_or_run(number);
        let is_flat = self.is_in_one_line_node() || fits && !is_kept;
        self.add_bytes_to_line(b"(")?;
        self.frames.push(Frame {
            style,
            is_flat,
            parts: 0,
            was_broken: false,
        })?;
        Ok(())
    }

    /// Closes the innermost node.
    fn close_node(&mut self) -> Result<(), AllocError> {
        if self.after_comment {
            let indent = self.indent_in_innermost_node();
            self.begin_line_unless_first(indent, false)?;
        }
        self.add_bytes_to_line(b")")?;
        if let Some(frame) = self.frames.pop() {
            if !frame.is_flat {
                self.note_part_begun_or_broken(true);
            }
        }
        Ok(())
    }

    /// Adds a comment: on the current line, or on a line of its own.
    fn add_comment(&mut self, token: &Token) -> Result<(), AllocError> {
        if token.lines == 0 && !self.after_comment && !self.text.is_empty() {
            self.add_bytes_to_line(b" ")?;
        } else {
            let has_blank = token.lines > 1 && self.frames.len() <= 1;
            let indent = self.indent_in_innermost_node();
            self.begin_line_unless_first(indent, has_blank)?;
        }
        let input = self.input;
        let bytes = trimmed_token_bytes(input, token);
        self.add_bytes_to_line(bytes)?;
        self.after_comment = true;
        Ok(())
    }

    /// Adds `token`, which has the number `number`.
    pub fn add_token(&mut self, number: usize, token: &Token) -> Result<(), AllocError> {
        match token.kind {
            Kind::Comment => self.add_comment(token),
            Kind::Close => self.close_node(),
            Kind::Open => {
                self.add_separator_before_token(number, token)?;
                self.note_part_begun_or_broken(false);
                self.open_node(number)
            }
            Kind::Atom => {
                self.add_separator_before_token(number, token)?;
                self.note_part_begun_or_broken(false);
                let input = self.input;
                let bytes = trimmed_token_bytes(input, token);
                self.add_bytes_to_line(bytes)
            }
        }
    }

    /// The text. Its last line has a line end.
    pub fn into_text(self) -> Result<Vec<u8>, AllocError> {
        let Layout { mut text, .. } = self;
        if !text.is_empty() {
            text.push(b'\n')?;
        }
        Ok(text)
    }
}

/// The tokens of a file on new lines.
fn format_tokens(alloc: Global, input: &[u8], tokens: &[Token]) -> Result<Vec<u8>, AllocError> {
    let measures = measure_tree_at_each_token(alloc, input, tokens)?;
    let mut layout = Layout::new(alloc, input, tokens, measures.as_slice());
    for (number, token) in tokens.iter().enumerate() {
        layout.add_token(number, token)?;
    }
    layout.into_text()
}

/// Whether two files have the same tokens, comments among them.
fn have_same_tokens(
    alloc: Global,
    first: &[u8],
    of_first: &[Token],
    second: &[u8],
) -> Result<bool, AllocError> {
    let of_second = read_layout_tokens(alloc, second)?;
    if of_first.len() != of_second.len() {
        return Ok(false);
    }
    for (one, other) in of_first.iter().zip(of_second.as_slice()) {
        if one.kind != other.kind
            || trimmed_token_bytes(first, one) != trimmed_token_bytes(second, other)
        {
            return Ok(false);
        }
    }
    Ok(true)
}

/// Whether two lists hold the same trees.
fn are_same_trees(first: &[Tree], second: &[Tree]) -> bool {
    if first.len() != second.len() {
        return false;
    }
    for (one, other) in first.iter().zip(second) {
        if *one.form() != *other.form() {
            return false;
        }
    }
    true
}

/// Lays out a file. A model has lines of at most 80 columns if its tokens allow it; if a node does not fit on one line,
/// its parts get lines of their own. A case or a recorded run keeps its lines. Comments stay where they are, and at
/// most one empty line remains between items.
///
/// The result has the same tokens and comments, and spells the same trees. The function checks this, and returns the
/// file unchanged if the check fails.
///
/// Returns `None` if the file laid out would have more than `MAX_BYTES` bytes. If the file cannot be read, the function
/// returns the fault of `read`.
pub fn format_file(alloc: Global, input: &[u8]) -> Result<Option<Vec<u8>>, SexprFault> {
    let trees = read(alloc, input)?;
    let old = read_layout_tokens(alloc, input)?;
    let text = format_tokens(alloc, input, old.as_slice())?;
    if text.len() > MAX_BYTES {
        return Ok(None);
    }
    if have_same_tokens(alloc, input, old.as_slice(), text.as_slice())? {
        if let Ok(again) = read(alloc, text.as_slice()) {
            if are_same_trees(trees.as_slice(), again.as_slice()) {
                return Ok(Some(text));
            }
        }
    }
    Ok(Some(Vec::from_slice(alloc, input)?))
}
