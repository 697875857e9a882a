//! Lines of a width.

use crate::cutting::cut_in_middle_if_too_long;
use crate::table::{END, Style};
use std::alloc::{AllocError, Global};

/// The text so far, and the width of its lines.
#[derive(Drop)]
pub struct Page {
    /// The lines so far.
    pub text: Vec<u8>,
    /// The maximum length of a line, in bytes.
    pub width: usize,
    /// Whether styles are shown.
    has_color: bool,
}

impl Page {
    /// An empty page without colors.
    pub fn new(alloc: Global, width: usize) -> Page {
        Page::plain_after(Vec::new(alloc), width)
    }

    /// A page without colors whose lines come after `text`.
    pub fn plain_after(text: Vec<u8>, width: usize) -> Page {
        Page {
            text,
            width,
            has_color: false,
        }
    }

    /// A page for a terminal, which shows styles as colors. Its lines come after `text`.
    pub fn colored_after(text: Vec<u8>, width: usize) -> Page {
        Page {
            text,
            width,
            has_color: true,
        }
    }

    /// The lines.
    pub fn into_text(self) -> Vec<u8> {
        let Page {
            text,
            width: _,
            has_color: _,
        } = self;
        text
    }

    /// Adds a text in a style.
    pub(crate) fn add_styled_text(&mut self, style: Style, text: &[u8]) -> Result<(), AllocError> {
        let start = style.terminal_start_code().filter(|_| self.has_color);
        let Some(start) = start else {
            return self.text.extend_from_slice(text);
        };
        self.text.extend_from_slice(start.as_bytes())?;
        self.text.extend_from_slice(text)?;
        self.text.extend_from_slice(END.as_bytes())
    }

    /// Adds `count` spaces.
    pub fn add_spaces(&mut self, count: usize) -> Result<(), AllocError> {
        for _space in 0..count {
            self.text.push(b' ')?;
        }
        Ok(())
    }

    /// Adds a line, indented by `indent` spaces. If it does not fit, it is cut in the middle.
    pub fn add_line_cut_to_width(
        &mut self,
        alloc: Global,
        indent: usize,
        line: &[u8],
    ) -> Result<(), AllocError> {
        self.add_styled_line(alloc, indent, Style::Plain, line)
    }

    /// Adds a line in a style, as `add_line_cut_to_width` does.
    pub fn add_styled_line(
        &mut self,
        alloc: Global,
        indent: usize,
        style: Style,
        line: &[u8],
    ) -> Result<(), AllocError> {
        self.add_spaces(indent)?;
        self.add_text_cut_to_width(alloc, style, line, self.width.saturating_sub(indent))?;
        self.text.push(b'\n')?;
        Ok(())
    }

    /// Adds a text in a style, cut in the middle if it has more than `width` bytes, and returns how many bytes of it
    /// there are.
    pub(crate) fn add_text_cut_to_width(
        &mut self,
        alloc: Global,
        style: Style,
        text: &[u8],
        width: usize,
    ) -> Result<usize, AllocError> {
        if text.len() <= width {
            self.add_styled_text(style, text)?;
            return Ok(text.len());
        }
        let text = cut_in_middle_if_too_long(alloc, text, width)?;
        self.add_styled_text(style, text.as_slice())?;
        Ok(text.len())
    }

    /// Whether the words of a sentence fit on one line that is indented by `indent` spaces.
    fn fits_on_one_line(&self, indent: usize, sentence: &[u8]) -> bool {
        sentence.first() != Some(&b' ') && indent.saturating_add(sentence.len()) <= self.width
    }

    /// Adds a word of a sentence and returns the column after it. If the word does not fit, it begins a new line; if it
    /// is longer than a line, it is cut in the middle. `column` is 0 for the first word.
    fn add_wrapped_word(
        &mut self,
        alloc: Global,
        indent: usize,
        column: usize,
        word: &[u8],
    ) -> Result<usize, AllocError> {
        let end = column.saturating_add(1).saturating_add(word.len());
        if column > 0 && end <= self.width {
            self.text.push(b' ')?;
            self.text.extend_from_slice(word)?;
            return Ok(end);
        }
        if column > 0 {
            self.text.push(b'\n')?;
        }
        self.add_spaces(indent)?;
        let word = cut_in_middle_if_too_long(alloc, word, self.width.saturating_sub(indent))?;
        self.text.extend_from_slice(word.as_slice())?;
        Ok(indent.saturating_add(word.len()).max(1))
    }

    /// Adds the words of a sentence that does not fit on one line, as `add_sentence_with_indents` does.
    fn add_sentence_on_several_lines(
        &mut self,
        alloc: Global,
        first: usize,
        later: usize,
        sentence: &[u8],
    ) -> Result<(), AllocError> {
        let mut column = 0usize;
        let mut word = Vec::new(alloc);
        for byte in sentence {
            if *byte == b' ' {
                let indent = if column == 0 { first } else { later };
                column = self.add_wrapped_word(alloc, indent, column, word.as_slice())?;
                word.clear();
            } else {
                word.push(*byte)?;
            }
        }
        let indent = if column == 0 { first } else { later };
        self.add_wrapped_word(alloc, indent, column, word.as_slice())?;
        self.text.push(b'\n')?;
        Ok(())
    }

    /// Adds the words of a sentence, with a new line before each that does not fit. The first line is indented by
    /// `first` spaces and the others by `later`.
    fn add_sentence_with_indents(
        &mut self,
        alloc: Global,
        first: usize,
        later: usize,
        sentence: &[u8],
    ) -> Result<(), AllocError> {
        if self.fits_on_one_line(first, sentence) {
            self.add_spaces(first)?;
            self.text.extend_from_slice(sentence)?;
            self.text.push(b'\n')?;
            return Ok(());
        }
        self.add_sentence_on_several_lines(alloc, first, later, sentence)
    }

    /// Adds a sentence that is indented by `indent` spaces, with a new line before each word that does not fit.
    pub fn add_wrapped_sentence(
        &mut self,
        alloc: Global,
        indent: usize,
        sentence: &[u8],
    ) -> Result<(), AllocError> {
        self.add_sentence_with_indents(alloc, indent, indent, sentence)
    }

    /// Adds a heading in a style. Its lines after the first are indented by two spaces.
    pub fn add_heading(
        &mut self,
        alloc: Global,
        style: Style,
        heading: &[u8],
    ) -> Result<(), AllocError> {
        if self.fits_on_one_line(0, heading) {
            self.add_styled_text(style, heading)?;
            self.text.push(b'\n')?;
            return Ok(());
        }
        let mut lines = Page::new(alloc, self.width);
        lines.add_sentence_with_indents(alloc, 0, 2, heading)?;
        let mut text = lines.into_text();
        let _line_end = text.pop();
        self.add_styled_text(style, text.as_slice())?;
        self.text.push(b'\n')?;
        Ok(())
    }
}
