//! Inputs of several files: their joined text, the file of a place in it, and messages at places.
//!
//! Messages are tested and not proved.
ghost use Rattle.std.specs.Prelude.{◌≡◌, ◌≤◌, length, IfOk, MatchOption};
ghost use Rattle.pst_sources.specs.Files.{IsPlaceIn, text_of};

use crate::scan::Span;
use crate::shown::{
    LineStart, Place, count_on_to_line_start, place_of_span, place_of_span_on_line,
    start_of_first_line,
};
use std::alloc::{AllocError, Global};

/// An input: its files, and their text, as `joined_text_of_files` returns it.
#[derive(Clone, Copy, Drop)]
pub struct Input<'a> {
    /// The files.
    pub files: &'a [SourceFile<'a>],
    /// Their text.
    pub bytes: &'a [u8],
}

/// Bytes of a file of an input.
#[derive(Clone, Copy, Drop)]
pub struct FilePart<'a> {
    /// The number of the file, from 0.
    pub number: usize,
    /// The name of the file.
    pub name: &'a str,
    /// All bytes of the file.
    pub bytes: &'a [u8],
    /// Which of them.
    pub span: Span,
}

/// The line of the last message on an input.
#[derive(Clone, Copy, Debug, PartialEq, Eq, Drop)]
pub struct LastMessageLine {
    /// The number of its file, from 0.
    file: usize,
    /// The place of the message in the file.
    place: usize,
    /// The beginning of its line in the file.
    line: LineStart,
}

impl LastMessageLine {
    /// The line before the first message.
    pub fn none() -> LastMessageLine {
        LastMessageLine {
            file: 0,
            place: 0,
            line: start_of_first_line(),
        }
    }

    /// Returns the line of `part`. It counts on from the last line if that is earlier in the same file.
    fn line_start_of_part(&self, part: &FilePart<'_>) -> LineStart {
        let place = part.span.start;
        if self.file == part.number && self.place <= place {
            count_on_to_line_start(part.bytes, self.line, self.place, place)
        } else {
            count_on_to_line_start(part.bytes, start_of_first_line(), 0, place)
        }
    }
}

impl<'a> Input<'a> {
    /// Returns the file that contains the beginning of `span`, and the span in this file.
    pub fn part_at(&self, span: Span) -> FilePart<'a> {
        if let Some(FilePlace { file, place }) = find_file_of_place(self.files, span.start) {
            let number = file;
            if let Some(file) = self.files.get(number) {
                let length = span.end.saturating_sub(span.start);
                let end = place.saturating_add(length);
                return FilePart {
                    number,
                    name: file.name,
                    bytes: file.bytes.as_slice(),
                    span: Span { start: place, end },
                };
            }
        }
        FilePart {
            number: 0,
            name: "-",
            bytes: self.bytes,
            span,
        }
    }

    /// Returns the name of the file of `at`, if `other` is in another file.
    fn file_name_unless_same_file(&self, at: usize, other: usize) -> Option<&'a str> {
        let found = find_file_of_place(self.files, at)?;
        let from = find_file_of_place(self.files, other)?;
        if found.file == from.file {
            return None;
        }
        let file = self.files.get(found.file)?;
        Some(file.name)
    }

    /// Returns the line and the column of `at`.
    fn place_within_its_file(&self, alloc: Global, at: usize) -> Result<Place, AllocError> {
        let part = self.part_at(Span { start: at, end: at });
        place_of_span(alloc, part.bytes, part.span)
    }

    /// Returns the line of `at`, as `line 3`, or `line 3 of FILE` if `other` is in another file.
    pub fn line_with_file_unless_same(
        &self,
        alloc: Global,
        at: usize,
        other: usize,
    ) -> Result<String, AllocError> {
        let line = self.place_within_its_file(alloc, at)?.line;
        match self.file_name_unless_same_file(at, other) {
            Some(name) => format!(in alloc; "line {line} of {name}"),
            None => format!(in alloc; "line {line}"),
        }
    }

    /// Returns the line and the column of `at`, as `3:7`, or `FILE:3:7` if `other` is in another file.
    pub fn place_with_file_unless_same(
        &self,
        alloc: Global,
        at: usize,
        other: usize,
    ) -> Result<String, AllocError> {
        let Place { line, column, .. } = self.place_within_its_file(alloc, at)?;
        match self.file_name_unless_same_file(at, other) {
            Some(name) => format!(in alloc; "{name}:{line}:{column}"),
            None => format!(in alloc; "{line}:{column}"),
        }
    }

    /// Returns a message on the bytes `span`: the name of the file, the line, the column and `what`; then that line
    /// with the bytes underlined; then `notes`, a line each.
    pub fn message(
        &self,
        alloc: Global,
        span: Span,
        what: &str,
        notes: &[String],
    ) -> Result<String, AllocError> {
        self.message_counting_on_from_last(alloc, &mut LastMessageLine::none(), span, what, notes)
    }

    /// Returns a message as `message` does, for one of several messages. It counts lines on from `last`, the line of
    /// the message before it, so messages in the order of their places take one pass over the input.
    pub fn message_counting_on_from_last(
        &self,
        alloc: Global,
        last: &mut LastMessageLine,
        span: Span,
        what: &str,
        notes: &[String],
    ) -> Result<String, AllocError> {
        let part = self.part_at(span);
        let line = last.line_start_of_part(&part);
        *last = LastMessageLine {
            file: part.number,
            place: part.span.start,
            line,
        };
        let place = place_of_span_on_line(alloc, part.bytes, line, part.span)?;
        let file = part.name;
        let line = place.line;
        let column = place.column;
        let mut text = format!(in alloc; "{file}:{line}:{column}: {what}\n")?;
        let shown = place.text.as_str();
        let marks = place.marks.as_str();
        text.push_str(format!(in alloc; "    {shown}\n    {marks}\n")?.as_str())?;
        for note in notes {
            let note = note.as_str();
            text.push_str(format!(in alloc; "  {note}\n")?.as_str())?;
        }
        Ok(text)
    }
}

/// A file of an input.
#[derive(Drop)]
pub struct SourceFile<'a> {
    /// Its name, as messages show it.
    pub name: &'a str,
    /// Its bytes.
    pub bytes: Vec<u8>,
}

/// A place in a file of an input.
#[derive(Clone, Copy, Debug, PartialEq, Eq, Drop)]
pub struct FilePlace {
    /// The number of the file, from 0.
    pub file: usize,
    /// The place in the file, in bytes from 0; its length is the end of the file.
    pub place: usize,
}

/// Returns the text of an input: the bytes of its files in order, with a line end between two files.
pub fn joined_text_of_files(alloc: Global, files: &[SourceFile<'_>]) -> Result<Vec<u8>, AllocError>
    ensures { IfOk result (λ text. text.items ≡ text_of files.now) }
{
    let mut text = Vec::new(alloc);
    let Some((first, rest)) = files.split_first() else {
        return Ok(text);
    };
    text.extend_from_slice(first.bytes.as_slice())?;
    for file in rest {
        text.push(b'\n')?;
        text.extend_from_slice(file.bytes.as_slice())?;
    }
    Ok(text)
}

/// Returns the file that contains `place` of the joined text, and the place in this file. The line end between two
/// files counts as the end of the first. `None` if the text ends before `place`, or there are no files.
#[tactic(auto, using(crate::proofs::Places::starting))]
pub fn find_file_of_place(files: &[SourceFile<'_>], place: usize) -> Option<FilePlace>
    ensures { MatchOption result (length (text_of files.now) ≤ place) (IsPlaceIn files.now place) }
{
    let mut rest = place;
    for (number, file) in files.iter().enumerate() {
        let length = file.bytes.len();
        if rest <= length {
            return Some(FilePlace {
                file: number,
                place: rest,
            });
        }
        rest -= length;
        rest -= 1;
    }
    None
}
