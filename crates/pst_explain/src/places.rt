//! The places at which the trees of an input begin, and the lines of a file on which they do.

use pst_sources::SourceFile;
use std::alloc::{AllocError, Global};

/// The place at which a tree begins in an input.
#[derive(Clone, Copy, Debug, Drop)]
pub struct TreePlace<'a> {
    /// The name of its file; `None` if the input is not from files.
    pub file: Option<&'a str>,
    /// Whether the input has other files.
    pub has_others: bool,
    /// The line, from 1.
    pub line: usize,
}

impl<'a> TreePlace<'a> {
    /// Adds the place in words: `line 3`, or `FILE line 3` if the input has several files.
    pub(crate) fn append_place_text(&self, text: &mut String) -> Result<(), AllocError> {
        let line = self.line;
        match self.file {
            Some(name) if self.has_others => write!(text, "{name} line {line}"),
            _ => write!(text, "line {line}"),
        }
    }

    /// The place in words: `line 3`, or `FILE line 3` if the input has several files.
    pub fn text(&self, alloc: Global) -> Result<String, AllocError> {
        let mut text = String::new(alloc);
        self.append_place_text(&mut text)?;
        Ok(text)
    }
}

/// Returns how many lines of the text of an input are lines of the file.
fn count_input_lines_of_file(file: &SourceFile<'_>) -> usize {
    let mut count = 1usize;
    for byte in &file.bytes {
        if *byte == b'\n' {
            count = count.saturating_add(1);
        }
    }
    count
}

/// Returns how many lines of the text of an input are lines of each file. One file has all lines.
fn file_line_counts_or_max_if_single(
    alloc: Global,
    files: &[SourceFile<'_>],
) -> Result<Vec<usize>, AllocError> {
    let mut counts = Vec::new(alloc);
    for file in files {
        let count = if files.len() == 1 {
            usize::MAX
        } else {
            count_input_lines_of_file(file)
        };
        counts.push(count)?;
    }
    Ok(counts)
}

/// Returns the place of line `line` of the text of an input.
fn place_of_input_line<'a>(
    files: &[SourceFile<'a>],
    counts: &[usize],
    line: usize,
) -> TreePlace<'a> {
    let has_others = files.len() > 1;
    let mut rest = line;
    for (file, count) in files.iter().zip(counts) {
        if rest <= *count {
            return TreePlace {
                file: Some(file.name),
                has_others,
                line: rest,
            };
        }
        rest = rest.saturating_sub(*count);
    }
    TreePlace {
        file: None,
        has_others,
        line,
    }
}

/// Returns the place at which each top-level node of an input begins. The input must be read without a fault. `text` is
/// the text of `files`, which may be empty if the input is not from files.
pub fn tree_places_in_input<'a>(
    alloc: Global,
    files: &[SourceFile<'a>],
    text: &[u8],
) -> Result<Vec<TreePlace<'a>>, AllocError> {
    let counts = file_line_counts_or_max_if_single(alloc, files)?;
    let lines = top_level_tree_start_lines(alloc, text)?;
    let mut places = Vec::new(alloc);
    for line in &lines {
        places.push(place_of_input_line(files, counts.as_slice(), *line))?;
    }
    Ok(places)
}

/// What a byte is part of.
#[derive(Clone, Copy, Debug, Drop, PartialEq, Eq)]
enum LexerMode {
    /// Between trees or in a word.
    Plain,
    /// In a text.
    Quoted,
    /// In a text, after a `\`.
    Escaped,
    /// In a comment.
    Comment,
}

/// Returns the mode after `byte` of a text or a comment.
fn text_or_comment_mode_after_byte(mode: LexerMode, byte: u8) -> LexerMode {
    match mode {
        LexerMode::Plain => LexerMode::Plain,
        LexerMode::Quoted => match byte {
            b'"' => LexerMode::Plain,
            b'\\' => LexerMode::Escaped,
            _ => LexerMode::Quoted,
        },
        LexerMode::Escaped => LexerMode::Quoted,
        LexerMode::Comment => match byte {
            b'\n' => LexerMode::Plain,
            _ => LexerMode::Comment,
        },
    }
}

/// Returns the line, from 1, on which each top-level node begins. The file must have no fault.
fn top_level_tree_start_lines(alloc: Global, bytes: &[u8]) -> Result<Vec<usize>, AllocError> {
    let mut lines = Vec::new(alloc);
    let mut mode = LexerMode::Plain;
    let mut line = 1usize;
    let mut open = 0usize;
    for byte in bytes {
        let byte = *byte;
        if byte == b'\n' {
            line = line.saturating_add(1);
        }
        match mode {
            LexerMode::Plain => match byte {
                b'(' => {
                    if open == 0 {
                        lines.push(line)?;
                    }
                    open = open.saturating_add(1);
                }
                b')' => open = open.saturating_sub(1),
                b'"' => mode = LexerMode::Quoted,
                b';' => mode = LexerMode::Comment,
                _ => {}
            },
            other => mode = text_or_comment_mode_after_byte(other, byte),
        }
    }
    Ok(lines)
}
