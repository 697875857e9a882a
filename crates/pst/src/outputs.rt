//! The files that the program writes, and the messages on those that it cannot write.

use crate::input::STANDARD_INPUT;
use pst_cli::{Absence, Destinations, Status, refuse_text};
use pst_sexpr::{Out, Sink};
use std::alloc::{AllocError, Global};
use std::fs::canonicalize;
use std::io::{self, ErrorKind, Write};
use std::rt::{Files, Runtime};

/// A writer that keeps the last error of another writer.
#[derive(Drop)]
pub struct WriteErrorKeeper<W> {
    writer: W,
    failure: Option<io::Error>,
}

impl<W: Write> WriteErrorKeeper<W> {
    /// Writes to `writer`, which has had no error.
    pub fn new(writer: W) -> WriteErrorKeeper<W> {
        WriteErrorKeeper {
            writer,
            failure: None,
        }
    }

    /// Returns the writer, and its last error if it had one.
    pub fn into_parts(self) -> (W, Option<io::Error>) {
        let WriteErrorKeeper { writer, failure } = self;
        (writer, failure)
    }
}

impl<W: Write> Write for WriteErrorKeeper<W> {
    ghost contents = { λ keeper. W.contents keeper.writer };

    fn write(&mut self, buf: &[u8]) -> io::Result<usize> {
        match self.writer.write(buf) {
            Ok(count) => Ok(count),
            Err(error) => {
                self.failure = Some(error);
                Err(error)
            }
        }
    }

    fn flush(&mut self) -> io::Result<()> {
        match self.writer.flush() {
            Ok(()) => Ok(()),
            Err(error) => {
                self.failure = Some(error);
                Err(error)
            }
        }
    }
}

/// Returns whether the file for results or the output has failed.
pub fn has_output_failed<F: Sink, W: Sink>(to: &Destinations<F, W>) -> bool {
    match &to.file {
        Some(file) => file.has_failed() || to.out.has_failed(),
        None => to.out.has_failed(),
    }
}

/// Returns the text of an error without its number.
fn text_without_os_error_number(text: &str) -> &str {
    match text.split_once(" (os error ") {
        Some((message, _)) => message,
        None => text,
    }
}

/// Returns what an error says, as `no space left on device`: with its first letter in lower case, and without its
/// number.
fn uncapitalized_error_reason_without_number(
    alloc: Global,
    error: &io::Error,
) -> Result<String, AllocError> {
    let whole = format!(in alloc; "{error}")?;
    let mut reason = String::new(alloc);
    for character in text_without_os_error_number(whole.as_str()).chars() {
        if reason.is_empty() {
            reason.push(character.to_ascii_lowercase())?;
        } else {
            reason.push(character)?;
        }
    }
    Ok(reason)
}

/// Writes to standard error what cannot be done to `name`, as `write`, and why.
pub fn print_file_error_to_stderr<R: Eprint>(
    rt: &R,
    alloc: Global,
    verb: &str,
    name: &str,
    error: &io::Error,
) {
    let _ = match uncapitalized_error_reason_without_number(alloc, error) {
        Ok(reason) => eprintln!(rt; "pst: cannot {verb} {name}: {reason}"),
        Err(AllocError) => eprintln!(rt; "pst: cannot {verb} {name}"),
    };
}

/// Writes to standard error that the file `name` cannot be written, and why.
pub fn print_why_file_was_not_written<R: Eprint>(
    rt: &R,
    alloc: Global,
    name: &str,
    error: &io::Error,
) {
    print_file_error_to_stderr(rt, alloc, "write", name, error);
}

/// Returns the status of a command whose output, to the file `name` or to standard output, cannot be written.
/// Standard error says why, but not for a closed pipe, as in `pst judge c.runs | head -n 1`.
pub fn print_output_error_unless_pipe_closed<R: Eprint>(
    rt: &R,
    alloc: Global,
    name: Option<&str>,
    error: &io::Error,
) -> Status {
    if error.kind() != ErrorKind::BrokenPipe {
        match name {
            Some(name) => print_why_file_was_not_written(rt, alloc, name, error),
            None => print_file_error_to_stderr(rt, alloc, "write to", "standard output", error),
        }
    }
    Status::Lost
}

/// Returns whether two names are those of one file, also by links.
fn are_names_of_same_file<R: Files + AllocGlobal>(rt: &R, first: &str, second: &str) -> bool {
    if first == second {
        return true;
    }
    match (canonicalize(rt, first), canonicalize(rt, second)) {
        (Ok(first), Ok(second)) => first.as_path() == second.as_path(),
        _ => false,
    }
}

/// Returns the name among `inputs` that is one of the file `output`, if there is one.
fn find_input_overwritten_by_output<'a, R: Files + AllocGlobal>(
    rt: &R,
    inputs: &[&'a str],
    output: &str,
) -> Option<&'a str> {
    for input in inputs {
        if *input != STANDARD_INPUT && are_names_of_same_file(rt, input, output) {
            return Some(*input);
        }
    }
    None
}

/// Refuses to write to a file that is one of the inputs, with a message unless `is_quiet`. `option` is the option that names
/// the file.
pub fn refuse_to_overwrite_input<R: Runtime + AllocGlobal>(
    rt: &R,
    inputs: &[&str],
    option: &str,
    output: Option<&str>,
    is_quiet: bool,
) -> Result<(), Status> {
    let Some(output) = output else {
        return Ok(());
    };
    let Some(input) = find_input_overwritten_by_output(rt, inputs, output) else {
        return Ok(());
    };
    if !is_quiet {
        let _ = eprintln!(rt; "pst: {option} {output} would overwrite the input {input}");
    }
    Err(refuse_text(Absence::NoFile, &mut Out::new(io::writer(rt))))
}
