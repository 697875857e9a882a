//! One pass over the bytes, with a stack of the open nodes, and the bytes that a word or a text takes at once.
ghost use Rattle.std.specs.Prelude.{◌≡◌, ◌⊎◌, ◌∷◌, ◌++◌, [], IsTrue, length, drop, ◌<◌, ◌≤◌, ℕ, IfOk, OnOk, MatchResult};
ghost use Rattle.pst_sexpr.specs.Scan as spec;
ghost use Rattle.pst_sexpr.specs.Fault.{Gives, no_memory};
ghost use Rattle.pst_sexpr.specs.Spans.{IsSpan, IsSpanOf, ArePlain};
ghost use Rattle.std.specs.Str.{IsAscii};
ghost use Rattle.pst_sexpr.specs.Grammar.{IsWordBytes};

use crate::bytes::{is_blank, is_escaped_byte, is_text_byte, is_word_byte};
use crate::form::Form;
use crate::levels::{Level, Levels};
use crate::reader::{FaultKind, MAX_LEVELS, SexprFault};
use pst_value::{Items, Text};
use std::alloc::{AllocError, Global};
use std::mem;

#[derive(Clone, Copy, Debug, Drop, PartialEq, Eq)]
enum Mode {
    /// Between trees or in a word.
    Plain,
    /// In a text.
    Quoted,
    /// In a text, after `\`.
    Escaped,
    /// In a comment.
    Comment,
}

/// What is known of the bytes so far.
#[derive(Drop)]
struct Scanner {
    /// What the next byte is part of.
    mode: Mode,
    /// The place of the opening quote of the last text.
    quote: usize,
    /// The bytes so far of the word or text.
    part: Text,
    /// The trees so far in the innermost node.
    done: Items<Form>,
    /// The open nodes.
    nodes: Levels,
}

impl Scanner {
    /// Before the first byte.
    fn new(alloc: Global) -> Scanner
        ensures { result ≡ spec.start }
    {
        Scanner {
            mode: Mode::Plain,
            quote: 0,
            part: Text::new(alloc),
            done: Items::new(alloc),
            nodes: Levels::new(alloc),
        }
    }

    /// Ends the word, if there is one.
    fn end_word(&mut self, alloc: Global) -> Result<(), SexprFault>
        ensures { Gives (λ _. self.new) result (Ok (spec.after_word self.old)) }
    {
        if !self.part.is_empty() {
            let word = mem::replace(&mut self.part, Text::new(alloc));
            self.done.push(Form::Word(word))?;
        }
        Ok(())
    }

    /// Begins a node at the place.
    fn begin_node(&mut self, alloc: Global, place: usize) -> Result<(), SexprFault>
        ensures { Gives (λ _. self.new) result (spec.opened MAX_LEVELS place self.old) }
    {
        if self.nodes.len() >= MAX_LEVELS {
            return Err(SexprFault {
                kind: FaultKind::TooDeep,
                place,
            });
        }
        let inner = self.nodes.take_empty_list(alloc);
        let done = mem::replace(&mut self.done, inner);
        self.nodes.push(Level { place, done })?;
        Ok(())
    }

    /// Ends the innermost node.
    fn end_node(&mut self, alloc: Global, place: usize) -> Result<(), SexprFault>
        ensures { Gives (λ _. self.new) result (spec.closed place self.old) }
    {
        match self.nodes.pop() {
            None => Err(SexprFault {
                kind: FaultKind::StrayClose,
                place,
            }),
            Some(level) => {
                let inner = mem::replace(&mut self.done, level.done);
                let parts = self.nodes.move_to_exact_list(alloc, inner)?;
                self.done.push(Form::Node(parts))?;
                Ok(())
            }
        }
    }

    /// Reads a byte between trees.
    #[tactic(auto, unfolding(crate::specs::Scan::between))]
    fn read_byte_between_trees(
        &mut self,
        alloc: Global,
        place: usize,
        byte: u8,
    ) -> Result<(), SexprFault>
        ensures { Gives (λ _. self.new) result (spec.between MAX_LEVELS place byte self.old) }
    {
        if is_blank(byte) {
            return Ok(());
        }
        match byte {
            b'(' => self.begin_node(alloc, place),
            b')' => self.end_node(alloc, place),
            b'"' => {
                self.mode = Mode::Quoted;
                self.quote = place;
                Ok(())
            }
            b';' => {
                self.mode = Mode::Comment;
                Ok(())
            }
            _ => Err(SexprFault {
                kind: FaultKind::BadByte,
                place,
            }),
        }
    }

    /// Reads a byte in a word or between trees.
    #[tactic(auto, unfolding(crate::specs::Scan::plain))]
    fn read_unquoted_byte(
        &mut self,
        alloc: Global,
        place: usize,
        byte: u8,
    ) -> Result<(), SexprFault>
        ensures { Gives (λ _. self.new) result (spec.plain MAX_LEVELS place byte self.old) }
    {
        if is_word_byte(byte) {
            self.part.push(byte)?;
            return Ok(());
        }
        self.end_word(alloc)?;
        self.read_byte_between_trees(alloc, place, byte)
    }

    /// Reads a byte in a text.
    #[tactic(auto, unfolding(crate::specs::Scan::quoted))]
    fn read_quoted_byte(&mut self, alloc: Global, place: usize, byte: u8) -> Result<(), SexprFault>
        ensures { Gives (λ _. self.new) result (spec.quoted place byte self.old) }
    {
        if byte == b'"' {
            let text = mem::replace(&mut self.part, Text::new(alloc));
            self.done.push(Form::Text(text))?;
            self.mode = Mode::Plain;
            return Ok(());
        }
        if byte == b'\\' {
            self.mode = Mode::Escaped;
            return Ok(());
        }
        if !is_text_byte(byte) {
            return Err(SexprFault {
                kind: FaultKind::BadByte,
                place,
            });
        }
        self.part.push(byte)?;
        Ok(())
    }

    /// Reads the byte after `\`.
    #[tactic(auto, unfolding(crate::specs::Scan::escaped))]
    fn read_escaped_byte(&mut self, place: usize, byte: u8) -> Result<(), SexprFault>
        ensures { Gives (λ _. self.new) result (spec.escaped place byte self.old) }
    {
        if !is_escaped_byte(byte) {
            return Err(SexprFault {
                kind: FaultKind::BadByte,
                place,
            });
        }
        self.part.push(byte)?;
        self.mode = Mode::Quoted;
        Ok(())
    }

    /// Reads a byte in a comment.
    #[tactic(auto, unfolding(crate::specs::Scan::comment))]
    fn read_comment_byte(&mut self, byte: u8)
        ensures { self.new ≡ spec.comment byte self.old }
    {
        if byte == b'\n' {
            self.mode = Mode::Plain;
        }
    }

    /// Reads the byte at the place.
    fn read_byte(&mut self, alloc: Global, place: usize, byte: u8) -> Result<(), SexprFault>
        ensures { Gives (λ _. self.new) result (spec.step MAX_LEVELS self.old place byte) }
    {
        match self.mode {
            Mode::Plain => self.read_unquoted_byte(alloc, place, byte),
            Mode::Quoted => self.read_quoted_byte(alloc, place, byte),
            Mode::Escaped => self.read_escaped_byte(place, byte),
            Mode::Comment => {
                self.read_comment_byte(byte);
                Ok(())
            }
        }
    }

    /// The bytes at the front of `bytes` that belong to the current word or text and can be read at once. It is
    /// empty after `\` and in a comment.
    #[tactic(auto, using(crate::proofs::Skips::nil_is_span))]
    fn span<'a>(&self, bytes: &'a [u8]) -> &'a [u8]
        ensures class { IsSpan self.now.mode result.now }
        ensures front { IsSpanOf bytes.now result.now }
    {
        match self.mode {
            Mode::Plain => leading_word_bytes(bytes),
            Mode::Quoted => leading_unescaped_text_bytes(bytes),
            Mode::Escaped | Mode::Comment => &[],
        }
    }

    /// Adds bytes of the word or text.
    #[tactic(auto, using(crate::proofs::Skips::span_ascii))]
    fn extend_token(&mut self, alloc: Global, span: &[u8]) -> Result<(), AllocError>
        requires { IsSpan self.old.mode span.now }
        ensures { OnOk result (self.new ≡ spec.with_part (self.old.part ++ span.now) self.old) }
    {
        let part = mem::replace(&mut self.part, Text::new(alloc));
        self.part = append_ascii(alloc, part, span)?;
        Ok(())
    }

    /// Reads the byte at `place` and all that follow it in the same word or text. Returns the place after them.
    #[tactic(auto, using(crate::proofs::Skips::reading))]
    fn read_byte_or_rest_of_token(
        &mut self,
        alloc: Global,
        bytes: &[u8],
        place: usize,
    ) -> Result<usize, SexprFault>
        requires { place < length bytes.now }
        ensures further { IfOk result (λ next. (place < next) × (next ≤ length bytes.now)) }
        ensures read { MatchResult result
            (λ next. spec.run MAX_LEVELS self.old place (drop place bytes.now)
            ≡ spec.run MAX_LEVELS self.new next (drop next bytes.now))
            (λ fault. (fault ≡ no_memory)
            ⊎ (spec.run MAX_LEVELS self.old place (drop place bytes.now) ≡ Err fault)) }
    {
        let span = self.span(&bytes[place..]);
        if span.is_empty() {
            self.read_byte(alloc, place, bytes[place])?;
            return Ok(place + 1);
        }
        self.extend_token(alloc, span)?;
        Ok(place + span.len())
    }

    /// Returns the trees, if the bytes may end here.
    fn finish(mut self, alloc: Global) -> Result<Items<Form>, SexprFault>
        ensures { Gives (λ trees. trees) result (spec.finish self) }
    {
        match self.mode {
            Mode::Quoted | Mode::Escaped => {
                return Err(SexprFault {
                    kind: FaultKind::UnclosedText,
                    place: self.quote,
                });
            }
            Mode::Plain | Mode::Comment => {}
        }
        self.end_word(alloc)?;
        if let Some(place) = self.nodes.innermost_bracket_place() {
            return Err(SexprFault {
                kind: FaultKind::UnclosedNode,
                place,
            });
        }
        Ok(self.done)
    }
}

/// The state after all bytes.
fn scan(alloc: Global, bytes: &[u8]) -> Result<Scanner, SexprFault>
    ensures { Gives (λ scanner. scanner) result (spec.run MAX_LEVELS spec.start 0 bytes.now) }
{
    let mut scanner = Scanner::new(alloc);
    let mut place = 0;
    while place < bytes.len() {
        place = scanner.read_byte_or_rest_of_token(alloc, bytes, place)?;
    }
    Ok(scanner)
}

/// The trees that the bytes spell, or the first fault.
pub fn forms(alloc: Global, bytes: &[u8]) -> Result<Items<Form>, SexprFault>
    ensures { Gives (λ trees. trees) result (spec.outcome MAX_LEVELS spec.start 0 bytes.now) }
{
    scan(alloc, bytes)?.finish(alloc)
}

/// The word bytes at the front of `bytes`.
fn leading_word_bytes(bytes: &[u8]) -> &[u8]
    ensures class { IsWordBytes result.now }
    ensures front { IsSpanOf bytes.now result.now }
{
    for (place, byte) in bytes.iter().enumerate() {
        if !is_word_byte(*byte) {
            return &bytes[..place];
        }
    }
    bytes
}

/// The bytes at the front of `bytes` that a text may hold unescaped.
fn leading_unescaped_text_bytes(bytes: &[u8]) -> &[u8]
    ensures class { ArePlain result.now }
    ensures front { IsSpanOf bytes.now result.now }
{
    for (place, byte) in bytes.iter().enumerate() {
        if !is_text_byte(*byte) {
            return &bytes[..place];
        }
    }
    bytes
}

/// Appends `more` to `text`. An empty text gets exactly the room that it needs.
fn append_ascii(alloc: Global, text: Text, more: &[u8]) -> Result<Text, AllocError>
    requires { IsAscii more.now }
    ensures { IfOk result (λ whole. whole ≡ text ++ more.now) }
{
    let more = match str::from_utf8(more) {
        Ok(more) => more,
        Err(_) => unreachable!(),
    };
    if text.is_empty() {
        return Ok(Text::from_string(String::from_str(alloc, more)?));
    }
    let mut text = text.into_string();
    text.push_str(more)?;
    Ok(Text::from_string(text))
}
