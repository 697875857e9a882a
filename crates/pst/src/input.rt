//! The input of the program: its files, and their text.

use crate::outputs::print_file_error_to_stderr;
use pst_cli::Absence;
use pst_sexpr::MAX_BYTES;
use pst_sources::SourceFile;
use std::io::{self, ErrorKind, Read};
use std::rt::Files;

/// The name of standard input; for `-o`, of standard output.
pub const STANDARD_INPUT: &str = "-";

/// How the input is read.
#[derive(Clone, Copy, Drop)]
pub struct InputOptions {
    /// Nothing is written to standard error.
    pub is_quiet: bool,
    /// Standard input is a terminal.
    pub is_terminal: bool,
}

/// A file that cannot be read: whether it could be opened, and the error.
#[derive(Drop)]
struct FileReadError {
    was_opened: bool,
    error: io::Error,
}

/// Reads at most `limit` bytes of standard input. If it is a terminal, a line on standard error says that it is read,
/// unless `reading` is quiet.
fn read_standard_input_with_terminal_note<R: Input + Eprint + AllocGlobal>(
    rt: &R,
    limit: u64,
    reading: InputOptions,
) -> Result<Vec<u8>, FileReadError> {
    if reading.is_terminal && !reading.is_quiet {
        let _ = eprintln!(rt; "pst: reading from the terminal (Ctrl-D ends the input)");
    }
    let mut bytes = Vec::new(rt.alloc());
    match rt.reader().take(limit).read_to_end(&mut bytes) {
        Ok(_) => Ok(bytes),
        Err(error) => Err(FileReadError {
            was_opened: true,
            error,
        }),
    }
}

/// Reads at most `limit` bytes of the file `name`.
fn read_file_up_to_limit<R: Files + AllocGlobal>(
    rt: &R,
    name: &str,
    limit: u64,
) -> Result<Vec<u8>, FileReadError> {
    let file = match std::fs::open(rt, name) {
        Ok(file) => file,
        Err(error) => {
            return Err(FileReadError {
                was_opened: false,
                error,
            });
        }
    };
    let mut bytes = Vec::new(rt.alloc());
    match file.take(limit).read_to_end(&mut bytes) {
        Ok(_) => Ok(bytes),
        Err(error) => Err(FileReadError {
            was_opened: true,
            error,
        }),
    }
}

/// Writes to standard error which file cannot be read and why, unless `is_quiet`.
fn print_read_error_unless_quiet<R: Eprint + AllocGlobal>(
    rt: &R,
    name: &str,
    unread: &FileReadError,
    is_quiet: bool,
) {
    if is_quiet {
        return;
    }
    let done = if unread.was_opened { "read" } else { "open" };
    let name = if name == STANDARD_INPUT {
        "standard input"
    } else {
        name
    };
    if unread.error.kind() == ErrorKind::NotFound {
        let _ = eprintln!(rt; "pst: cannot {done} {name}: no such file");
        return;
    }
    print_file_error_to_stderr(rt, rt.alloc(), done, name, &unread.error);
}

/// Returns why there is no input if a file cannot be read. Standard error says which file it is, unless `is_quiet`.
fn print_read_error_and_classify_absence<R: Eprint + AllocGlobal>(
    rt: &R,
    name: &str,
    unread: &FileReadError,
    is_quiet: bool,
) -> Absence<'static> {
    if unread.error.kind() == ErrorKind::OutOfMemory {
        return Absence::NoMemory;
    }
    print_read_error_unless_quiet(rt, name, unread, is_quiet);
    Absence::NoFile
}

/// Returns whether the file `name` can be opened.
pub fn can_file_be_opened<R: Files>(rt: &R, name: &str) -> bool {
    std::fs::open(rt, name).is_ok()
}

/// Opens each of the files, and reads nothing. `NoFile` means that one cannot be opened; standard error says which,
/// unless `is_quiet`.
pub fn check_that_files_can_be_opened<R: Files + Eprint + AllocGlobal>(
    rt: &R,
    names: &[&str],
    is_quiet: bool,
) -> Result<(), Absence<'static>> {
    for name in names {
        if *name == STANDARD_INPUT {
            continue;
        }
        if let Err(error) = std::fs::open(rt, name) {
            let unread = FileReadError {
                was_opened: false,
                error,
            };
            return Err(print_read_error_and_classify_absence(rt, name, &unread, is_quiet));
        }
    }
    Ok(())
}

/// Reads the files `names`. `-` is standard input, which is also read if there is no name. In all, it reads at most one
/// byte more than an input may have. `NoFile` means that a file cannot be opened or read; standard error says which,
/// unless `reading` is quiet. `NoMemory` means that an allocation failed.
pub fn read_files_or_standard_input<'a, R: Files + Input + Eprint + AllocGlobal>(
    rt: &R,
    names: &[&'a str],
    reading: InputOptions,
) -> Result<Vec<SourceFile<'a>>, Absence<'static>> {
    let names = if names.is_empty() {
        &[STANDARD_INPUT]
    } else {
        names
    };
    let mut files = Vec::new(rt.alloc());
    let mut limit = MAX_BYTES as u64 + 1;
    for name in names {
        let found = if *name == STANDARD_INPUT {
            read_standard_input_with_terminal_note(rt, limit, reading)
        } else {
            read_file_up_to_limit(rt, name, limit)
        };
        let bytes = match found {
            Ok(bytes) => bytes,
            Err(unread) => return Err(print_read_error_and_classify_absence(
                rt,
                name,
                &unread,
                reading.is_quiet,
            )),
        };
        limit = limit.saturating_sub(bytes.len() as u64);
        if files.push(SourceFile { name, bytes }).is_err() {
            return Err(Absence::NoMemory);
        }
    }
    Ok(files)
}
