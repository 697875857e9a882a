//! The two ends of a client's pipes: a source of its lines, and a sink for the lines that it reads.
ghost use Rattle.std.specs.Prelude.{◌≡◌, ◌≢◌, ◌≤◌, [], ◌∷◌, ◌++◌, ⊤, Some, All, IfOk, IfErr, IfSome, OnOk, OnErr, length};
ghost use Rattle.std.specs.Io.KnownBytes.{Appends, Consumes};
ghost use Rattle.pst_clients.specs.Lines.{IsShortLine};
ghost use Rattle.pst_clients.specs.Losing.{IsReadLoss, fault_of};

use crate::states::LostAnswer;
use std::alloc::Global;
use std::io::{self, BufReader, Read, Write};

/// The maximum number of bytes of a line of a client, its end not counted.
pub const MAX_LINE: usize = 1_048_576;

/// A source of the lines of a client.
///
/// What is known of a line is known of all sources of the type, so that it stays known through a lock.
pub trait LineSource {
    ghost use Rattle.std.specs.Prelude.{ℕ, List, Option};

    /// The lines that a source of this type may give, without their ends.
    ghost may_give: { List ℕ → Type 0 };

    /// That a source of this type may fail.
    ghost may_fail: { Type 0 };

    /// That a source of this type may read more than the line that is wanted of it.
    ghost may_run_ahead: { Type 0 };

    /// The bytes that are left, if they are known.
    ghost remaining: { Self → Option (List ℕ) };

    /// The next line without its end.
    fn next_line(&mut self, alloc: Global) -> Result<Vec<u8>, LostAnswer>
        ensures given { IfOk result (λ line. may_give line.items) }
        ensures consumed { IfOk result (λ line. Consumes (remaining self.old) (remaining self.new)
            (line.items ++ 10 ∷ [])) }
        ensures failed { IfErr result (λ lost. IsReadLoss may_fail (fault_of lost)) };

    /// The next byte, if it is read already.
    fn next_byte_read_ahead(&self) -> Option<u8>
        ensures { IfSome result (λ _. may_run_ahead) };
}

/// A sink for the lines that a client reads.
pub trait LineSink {
    ghost use Rattle.std.specs.Prelude.{ℕ, List, Option};

    /// The bytes that were sent, if they are known.
    ghost contents: { Self → Option (List ℕ) };

    /// That a sink of this type may be closed.
    ghost may_break: { Type 0 };

    /// Sends a line with its end.
    fn send_line(&mut self, line: &[u8]) -> io::Result<()>
        ensures sent { OnOk result (Appends (contents self.old) (contents self.new) line.now) }
        ensures broken { OnErr result may_break };
}

/// The next byte.
fn read_byte_of_client<I: Read>(reader: &mut I) -> io::Result<u8>
    ensures { IfOk result (λ byte. Consumes (I.remaining reader.old) (I.remaining reader.new)
        (byte ∷ [])) }
{
    let mut byte = [0u8];
    reader.read_exact(&mut byte)?;
    Ok(byte[0])
}

/// The next line without its end, if it has at most `MAX_LINE` bytes.
fn read_line_of_client<I: Read>(alloc: Global, reader: &mut I) -> Result<Vec<u8>, LostAnswer>
    ensures consumed { IfOk result (λ line. Consumes (I.remaining reader.old)
        (I.remaining reader.new) (line.items ++ 10 ∷ [])) }
    ensures short { IfOk result (λ line. IsShortLine line.items) }
    ensures failed { IfErr result (λ lost. IsReadLoss ⊤ (fault_of lost)) }
{
    let mut line = Vec::new(alloc);
    for _ in 0..=MAX_LINE {
        let Ok(byte) = read_byte_of_client(reader) else {
            return Err(LostAnswer::Closed);
        };
        if byte == b'\n' {
            return Ok(line);
        }
        if line.push(byte).is_err() {
            return Err(LostAnswer::NoMemory);
        }
    }
    Err(LostAnswer::TooLong)
}

/// The pipe of a client's answers. Any short line may come, and it may fail.
impl<R: Read> LineSource for BufReader<R> {
    ghost may_give = { IsShortLine };

    ghost may_fail = { ⊤ };

    ghost may_run_ahead = { ⊤ };

    ghost remaining = { ⟦<BufReader<R> as Read>⟧.remaining };

    fn next_line(&mut self, alloc: Global) -> Result<Vec<u8>, LostAnswer> {
        read_line_of_client(alloc, self)
    }

    fn next_byte_read_ahead(&self) -> Option<u8> {
        self.buffer().first().copied()
    }
}

/// Known bytes are read one at a time, as they are wanted.
impl<'a> LineSource for &'a [u8] {
    ghost may_give = { IsShortLine };

    ghost may_fail = { ⊤ };

    ghost may_run_ahead = { ⊥ };

    ghost remaining = { λ s. Some s.now };

    fn next_line(&mut self, alloc: Global) -> Result<Vec<u8>, LostAnswer> {
        read_line_of_client(alloc, self)
    }

    fn next_byte_read_ahead(&self) -> Option<u8> {
        None
    }
}

/// The pipe of the calls of a client. It may be closed.
#[derive(Drop)]
pub struct CallPipe<W: Write>(pub W);

impl<W: Write> LineSink for CallPipe<W> {
    ghost contents = { λ pipe. W.contents pipe.0 };

    ghost may_break = { ⊤ };

    fn send_line(&mut self, line: &[u8]) -> io::Result<()> {
        self.0.write_all(line)
    }
}

/// A sink that keeps the lines.
impl LineSink for Vec<u8> {
    ghost contents = { ⟦<Vec<u8> as Write>⟧.contents };

    ghost may_break = { ⊤ };

    fn send_line(&mut self, line: &[u8]) -> io::Result<()> {
        self.write_all(line)
    }
}
