//! Single items of a text of trees: each is read by itself, from its place.

use pst_sexpr::{Tree, read};
use pst_sources::{Span, tree_at};
use std::alloc::Global;

/// The trees of a text, one after another. A tree that is passed over is not read.
#[derive(Drop)]
pub struct TreeCursor<'a> {
    text: &'a [u8],
    /// The place of the tree with the number `number`, from 0.
    span: Span,
    number: usize,
}

impl<'a> TreeCursor<'a> {
    /// The first tree of a text.
    pub fn new(text: &'a [u8]) -> TreeCursor<'a> {
        TreeCursor {
            text,
            span: tree_at(text, 0),
            number: 0,
        }
    }

    /// Returns the place of tree `number`, from 0, of the text. It is this tree or a later one.
    pub fn advance_to(&mut self, number: usize) -> Span {
        for _ in self.number..number {
            self.span = tree_at(self.text, self.span.end);
        }
        self.number = self.number.max(number);
        self.span
    }

    /// Returns the bytes of a part of the text.
    pub fn bytes_at(&self, span: Span) -> &'a [u8] {
        self.text.get(span.start..span.end).unwrap_or(&[])
    }

    /// Reads tree `number`, from 0, of the text. It is this tree or a later one. Returns `None` if that fails.
    pub fn read_tree(&mut self, alloc: Global, number: usize) -> Option<Tree> {
        let span = self.advance_to(number);
        read(alloc, self.bytes_at(span)).ok()?.pop()
    }
}
