//! The file that `-o` names, and what is said if an output fails.

use crate::outputs::{WriteErrorKeeper, print_output_error_unless_pipe_closed};
use pst_cli::Status;
use pst_sexpr::{Out, Sink};
use std::fs::{OpenFile, OpenOptions, remove_file};
use std::io::{self, Write};
use std::rt::Files;

/// A writer to a file that keeps what is in the file up to the first byte that it writes, and empties the file then.
#[derive(Drop)]
pub struct ResultFile<F> {
    file: F,
    has_begun: bool,
}

impl<F: Write + OpenFile> ResultFile<F> {
    ghost use Rattle.std.specs.Prelude.{◌≡◌};

    /// A writer that has written nothing.
    pub fn new(file: F) -> ResultFile<F> {
        ResultFile {
            file,
            has_begun: false,
        }
    }

    /// Returns whether what was in the file has been removed.
    pub fn has_begun(&self) -> bool {
        self.has_begun
    }

    /// Removes what was in the file, unless that has been done. Pipes and devices have nothing to remove.
    pub fn begin(&mut self) -> io::Result<()>
        ensures { self.new.file ≡ self.old.file }
    {
        if self.has_begun {
            return Ok(());
        }
        if self.file.metadata()?.is_file() {
            self.file.set_len(0)?;
        }
        self.has_begun = true;
        Ok(())
    }
}

impl<F: Write + OpenFile> Write for ResultFile<F> {
    ghost contents = { λ result. F.contents result.file };

    fn write(&mut self, buf: &[u8]) -> io::Result<usize> {
        self.begin()?;
        self.file.write(buf)
    }

    fn flush(&mut self) -> io::Result<()> {
        self.file.flush()
    }
}

/// Opens the file `name`, or makes it, and leaves what is in it.
pub fn open_or_create_file_without_emptying<R: Files>(rt: &R, name: &str) -> io::Result<R::File> {
    OpenOptions::new().write(true).create(true).open(rt, name)
}

/// Returns the status of a command with the status `status` whose output, to the file `name` or to standard output, had
/// the error `failure`. Standard error says so if there is one.
pub fn status_after_reporting_output_failure<R: Eprint + AllocGlobal>(
    rt: &R,
    status: Status,
    name: Option<&str>,
    failure: Option<io::Error>,
) -> Status {
    match failure {
        Some(error) => print_output_error_unless_pipe_closed(rt, rt.alloc(), name, &error),
        None => status,
    }
}

/// Returns the writer of an output, and the error that the output failed with.
pub fn writer_and_error_if_failed<W: Write>(
    output: Out<WriteErrorKeeper<W>>,
) -> (W, Option<io::Error>) {
    let has_failed = output.has_failed();
    let (writer, failure) = output.into_inner().into_parts();
    if has_failed {
        (writer, failure)
    } else {
        (writer, None)
    }
}

/// Ends the output of a command with the status `status` to the file `name`: empties the file if nothing was written to it
/// and the input is not refused, and removes it if it stays as it was and was not there before.
pub fn status_after_ending_result_file<R: Files + Eprint + AllocGlobal, F: Write + OpenFile + Drop>(
    rt: &R,
    file: Out<WriteErrorKeeper<ResultFile<F>>>,
    name: &str,
    was_there: bool,
    status: Status,
) -> Status {
    let (mut file, mut failure) = writer_and_error_if_failed(file);
    if failure.is_none() && matches!(status, Status::Accepted | Status::Failed) {
        failure = file.begin().err();
    }
    if !file.has_begun() && !was_there {
        let _ = remove_file(rt, name);
    }
    status_after_reporting_output_failure(rt, status, Some(name), failure)
}
