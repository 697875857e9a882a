//! An input with its meaning.
ghost use Rattle.std.specs.Prelude.{◌≡◌, IfOk};
ghost use Rattle.pst_input.specs.Meaning.{Means};
ghost use Rattle.pst_sources.specs.Files.{text_of};

use crate::meaning::plain_text_if_input_has_json_items;
use pst_sources::{Input, SourceFile, joined_text_of_files};
use std::alloc::{AllocError, Global};
use std::marker::Model;

/// The text of an input, and the plain text that it means: items as JSON are trees in it. Contracts see the joined bytes of the
/// files as they were read.
#[derive(Drop)]
pub struct InputText<'a> {
    /// The files as they were read.
    files: Vec<SourceFile<'a>>,
    /// Their joined bytes.
    bytes: Vec<u8>,
    /// The plain text, if it is another.
    plain: Option<Vec<u8>>,
    /// The same in files, each with the lines of the file that was read; without another plain text there are none.
    plain_files: Vec<SourceFile<'a>>,
}

impl<'a> Model for InputText<'a> {
    ghost use Rattle.std.specs.Prelude.{ℕ, List};
    ghost use Rattle.pst_input.specs.Plain.{IsInput, plain_of};

    ghost Value = { List ℕ };

    ghost view = { λ t. t.bytes.items };

    ghost invariant = { λ t. IsInput t.files.items t.bytes.items (plain_of t.bytes.items t.plain) };
}

impl<'a> InputText<'a> {
    /// Finds what the files mean.
    pub fn of_files(alloc: Global, files: Vec<SourceFile<'a>>) -> Result<InputText<'a>, AllocError>
        ensures { IfOk result (λ input. input ≡ text_of files.entry.items) }
    {
        let bytes = joined_text_of_files(alloc, files.as_slice())?;
        let plain = plain_text_if_input_has_json_items(alloc, bytes.as_slice())?;
        let plain_files = match &plain {
            Some(plain) => files_of_plain_text(alloc, plain.as_slice(), files.as_slice())?,
            None => Vec::new(alloc),
        };
        Ok(InputText {
            files,
            bytes,
            plain,
            plain_files,
        })
    }

    /// The joined bytes of the files as they were read.
    pub fn bytes(&self) -> &[u8]
        ensures { result.now ≡ self.now }
    {
        self.bytes.as_slice()
    }

    /// The files as they were read.
    pub fn files(&self) -> &[SourceFile<'a>]
        ensures { text_of result.now ≡ self.now }
    {
        self.files.as_slice()
    }

    /// The plain text.
    pub fn plain(&self) -> &[u8]
        ensures { Means self.now result.now }
    {
        match &self.plain {
            Some(plain) => plain.as_slice(),
            None => self.bytes.as_slice(),
        }
    }

    /// The plain text in files, for messages.
    pub fn plain_files(&self) -> &[SourceFile<'a>] {
        if self.plain.is_some() {
            self.plain_files.as_slice()
        } else {
            self.files.as_slice()
        }
    }

    /// The plain text with its files, for messages.
    pub fn plain_input(&self) -> Input<'_>
        ensures { Means self.now result.bytes.now }
    {
        Input {
            files: self.plain_files(),
            bytes: self.plain(),
        }
    }
}

/// Returns how many lines end in a text.
fn count_line_ends(text: &[u8]) -> usize {
    text.iter().filter(|byte| **byte == b'\n').count()
}

/// Returns the place of the line end after the first `count` line ends of a text, or the end of the text.
fn end_of_line_after(text: &[u8], count: usize) -> usize {
    let mut left = count;
    for (place, byte) in text.iter().enumerate() {
        if *byte == b'\n' {
            if left == 0 {
                return place;
            }
            left -= 1;
        }
    }
    text.len()
}

/// Returns a plain text in files, each with as many lines as the file that was read.
fn files_of_plain_text<'a>(
    alloc: Global,
    plain: &[u8],
    files: &[SourceFile<'a>],
) -> Result<Vec<SourceFile<'a>>, AllocError> {
    let mut all = Vec::new(alloc);
    let mut rest = plain;
    for file in files {
        let end = end_of_line_after(rest, count_line_ends(file.bytes.as_slice()));
        let bytes = Vec::from_slice(alloc, rest.get(..end).unwrap_or(rest))?;
        rest = rest.get(end.saturating_add(1)..).unwrap_or(&[]);
        let name = file.name;
        all.push(SourceFile { name, bytes })?;
    }
    Ok(all)
}
