//! The tokens of a file, comments among them.

use pst_sources::{State, scan_state_after_byte};
use std::alloc::{AllocError, Global};

/// What a token is.
#[derive(Clone, Copy, Debug, PartialEq, Eq, Drop)]
pub enum Kind {
    /// `(`
    Open,
    /// `)`
    Close,
    /// A word, or a text with its quotes.
    Atom,
    /// A comment, from its `;` to the end of its line.
    Comment,
}

/// A token: what it is, its bytes, and how many line ends are between it and the token before it.
#[derive(Clone, Copy, Debug, PartialEq, Eq, Drop)]
pub struct Token {
    pub kind: Kind,
    pub start: usize,
    pub end: usize,
    pub lines: usize,
}

/// The tokens so far, and where the next one begins.
#[derive(Drop)]
struct Lexer {
    found: Vec<Token>,
    start: usize,
    lines: usize,
}

impl Lexer {
    /// Adds the token that ends at `end`.
    fn add(&mut self, kind: Kind, end: usize) -> Result<(), AllocError> {
        self.found.push(Token {
            kind,
            start: self.start,
            end,
            lines: self.lines,
        })?;
        self.lines = 0;
        Ok(())
    }

    /// Adds the bracket at `at`.
    fn add_bracket(&mut self, kind: Kind, at: usize) -> Result<(), AllocError> {
        self.start = at;
        self.add(kind, at.saturating_add(1))
    }

    /// Reads the byte at `at`, outside of texts and comments. `next` is the state after it.
    fn read_byte_outside_tokens(
        &mut self,
        at: usize,
        byte: u8,
        next: State,
    ) -> Result<(), AllocError> {
        match byte {
            b'(' => self.add_bracket(Kind::Open, at),
            b')' => self.add_bracket(Kind::Close, at),
            b'\n' => {
                self.lines = self.lines.saturating_add(1);
                Ok(())
            }
            _ => {
                if next != State::Between {
                    self.start = at;
                }
                Ok(())
            }
        }
    }

    /// Reads the byte at `at`, which leads from `state` to `next`.
    fn read_byte_into_tokens(
        &mut self,
        at: usize,
        byte: u8,
        state: State,
        next: State,
    ) -> Result<(), AllocError> {
        match (state, next) {
            (State::Word, State::Word) => Ok(()),
            (State::Word, _) => {
                self.add(Kind::Atom, at)?;
                self.read_byte_outside_tokens(at, byte, next)
            }
            (State::Between, _) => self.read_byte_outside_tokens(at, byte, next),
            (State::Text, State::Between) => self.add(Kind::Atom, at.saturating_add(1)),
            (State::Comment, State::Between) => {
                self.add(Kind::Comment, at)?;
                self.lines = 1;
                Ok(())
            }
            _ => Ok(()),
        }
    }
}

/// The tokens of a file that can be read.
pub fn read_layout_tokens(alloc: Global, input: &[u8]) -> Result<Vec<Token>, AllocError> {
    let mut lexer = Lexer {
        found: Vec::new(alloc),
        start: 0,
        lines: 0,
    };
    let mut state = State::Between;
    for (at, byte) in input.iter().enumerate() {
        let next = scan_state_after_byte(state, *byte);
        lexer.read_byte_into_tokens(at, *byte, state, next)?;
        state = next;
    }
    match state {
        State::Word => lexer.add(Kind::Atom, input.len())?,
        State::Comment => lexer.add(Kind::Comment, input.len())?,
        _ => {}
    }
    Ok(lexer.found)
}

/// The bytes of a token; those of a comment without white space at its end.
pub fn trimmed_token_bytes<'a>(input: &'a [u8], token: &Token) -> &'a [u8] {
    let bytes = input.get(token.start..token.end).unwrap_or(&[]);
    match token.kind {
        Kind::Comment => bytes.trim_ascii_end(),
        _ => bytes,
    }
}

/// The head word of the node that begins with token `number`.
pub fn head_word_at_token<'a>(
    input: &'a [u8],
    tokens: &[Token],
    number: usize,
) -> Option<&'a [u8]> {
    match tokens.get(number.saturating_add(1)) {
        Some(token) if token.kind == Kind::Atom => Some(trimmed_token_bytes(input, token)),
        _ => None,
    }
}
