//! Sinks: writers of bytes whose contracts name the bytes that they have taken.
//!
//! Each text of the tester goes to a `Sink`. `Out` makes a sink of any `std::io::Write`, and `put_all` and
//! `put_each` write whole texts. `specs/Writing.antt` says what a sink holds after a write that succeeded,
//! and after one that failed.
ghost use Rattle.std.specs.Prelude.{◌≡◌, ◌≤◌, ◌<◌, ℕ, Bool, true, false, List, length, take, Option, IfOk, OnErr};
ghost use Rattle.std.specs.Io.KnownBytes.{Appends, Keeps};
ghost use Rattle.pst_sexpr.specs.Out.{writer_of, is_broken};
ghost use Rattle.pst_sexpr.specs.Writing.{Writes, joined};

use std::error::Error;
use std::fmt;
use std::io::{ErrorKind, Write};

/// The sink has failed, and takes no more bytes.
#[derive(Clone, Copy, Debug, Drop, PartialEq, Eq)]
pub struct Failed;

impl fmt::Display for Failed {
    ghost use Rattle.std.specs.Prelude.{Some};
    ghost use Rattle.pst_sexpr.specs.Names.{failed_text};

    ghost output = { λ _. Some failed_text };

    fn fmt<W: fmt::Write>(&self, f: &mut fmt::Formatter<W>) -> fmt::Result {
        write!(f, "Failed")
    }
}

impl Error for Failed {}

/// The sink failed while a text was written, and took only a beginning of the text.
#[derive(Clone, Copy, Debug, Drop, PartialEq, Eq)]
pub struct WriteFailed;

impl fmt::Display for WriteFailed {
    ghost use Rattle.std.specs.Prelude.{Some};
    ghost use Rattle.pst_sexpr.specs.Names.{write_failed_text};

    ghost output = { λ _. Some write_failed_text };

    fn fmt<W: fmt::Write>(&self, f: &mut fmt::Formatter<W>) -> fmt::Result {
        write!(f, "WriteFailed")
    }
}

impl Error for WriteFailed {}

/// A writer of bytes whose contracts name the bytes that it has taken.
///
/// `Out` makes a sink of any `std::io::Write`.
pub trait Sink {
    /// The bytes that it has taken, if they are known.
    ghost taken: { Self → Option (List ℕ) };

    /// Whether it has failed.
    ghost broken: { Self → Bool };

    /// Takes a beginning of `bytes`, at least one byte if there are any, and returns how many it took.
    ///
    /// `Failed`: the sink took none of the bytes, and takes no more from now on.
    fn put(&mut self, bytes: &[u8]) -> Result<usize, Failed>
        requires { Self.broken self.old ≡ false }
        ensures within { IfOk result (λ count. count ≤ length bytes.now) }
        ensures some { IfOk result (λ count. 0 < length bytes.now → 0 < count) }
        ensures taken { IfOk result (λ count.
            Appends (Self.taken self.old) (Self.taken self.new) (take count bytes.now)) }
        ensures stands { IfOk result (λ _. Self.broken self.new ≡ false) }
        ensures failed { OnErr result (Self.broken self.new ≡ true) }
        ensures kept { OnErr result (Keeps (Self.taken self.old) (Self.taken self.new)) };

    /// Whether the sink has failed.
    fn has_failed(&self) -> bool
        ensures { result ≡ Self.broken self.now };
}

/// A sink that gives its bytes to a writer, such as standard output, a file or a `Vec<u8>`.
///
/// The bytes that it has taken are those that its writer holds, if they are known, as for a `Vec<u8>`. It tries
/// an interrupted write again. After any other error, or if the writer takes no byte, the sink has failed.
#[derive(Drop)]
pub struct Out<W> {
    writer: W,
    failed: bool,
}

impl<W: Write> Out<W> {
    /// A sink that gives its bytes to the writer, and has not failed.
    pub fn new(writer: W) -> Out<W>
        ensures same { writer_of result ≡ writer }
        ensures stands { is_broken result ≡ false }
    {
        Out {
            writer,
            failed: false,
        }
    }

    /// The writer, with the bytes that it was given.
    pub fn into_inner(self) -> W
        ensures { result ≡ writer_of self }
    {
        let Out { writer, failed: _ } = self;
        writer
    }
}

impl<W: Write> Sink for Out<W> {
    ghost use Rattle.pst_sexpr.specs.Out.{writer_of, is_broken};

    ghost taken = { λ out. W.contents (writer_of out) };

    ghost broken = { λ out. is_broken out };

    fn put(&mut self, bytes: &[u8]) -> Result<usize, Failed> {
        if bytes.is_empty() {
            return Ok(0);
        }
        for _turn in 0..u64::MAX {
            match self.writer.write(bytes) {
                Ok(0) => break,
                Ok(count) => return Ok(count),
                Err(error) => {
                    if error.kind() != ErrorKind::Interrupted {
                        break;
                    }
                }
            }
        }
        self.failed = true;
        Err(Failed)
    }

    fn has_failed(&self) -> bool {
        self.failed
    }
}

/// Writes all of the bytes to a sink that has not failed.
///
/// `WriteFailed`: the sink failed, and took only a beginning of the bytes.
pub fn put_all<W: Sink>(mut bytes: &[u8], sink: &mut W) -> Result<(), WriteFailed>
    requires { W.broken sink.old ≡ false }
    ensures { Writes (W.taken sink.old) (W.taken sink.new) (W.broken sink.new) result bytes.now }
{
    while !bytes.is_empty() {
        match sink.put(bytes) {
            Ok(count) => bytes = &bytes[count..],
            Err(_) => return Err(WriteFailed),
        }
    }
    Ok(())
}

/// Writes each of the parts whole, one after another, to a sink that has not failed.
///
/// `WriteFailed`: the sink failed, and took only a beginning of the parts.
pub fn put_each<W: Sink>(parts: &[&[u8]], sink: &mut W) -> Result<(), WriteFailed>
    requires { W.broken sink.old ≡ false }
    ensures { Writes (W.taken sink.old) (W.taken sink.new) (W.broken sink.new) result (joined parts.now) }
{
    for part in parts {
        put_all(part, sink)?;
    }
    Ok(())
}
