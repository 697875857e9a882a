//! Inputs that cannot be read, and systems that do not exist.
ghost use Rattle.std.specs.Prelude.{◌≡◌, true, false};
ghost use Rattle.pst_cli.specs.Absent.{absence_line, absence_status};
ghost use Rattle.pst_cli.specs.Answering.{Delivers, Stands};
ghost use Rattle.pst_cli.specs.Sending.{Sends};
ghost use Rattle.pst_sexpr.specs.Writing.{joined};

use crate::answer::{Destinations, Status, send_text};
use pst_sexpr::{Sink, put_each};

/// Why the program has nothing to begin with.
#[derive(Clone, Copy, Debug, PartialEq, Eq, Drop)]
pub enum Absence<'a> {
    /// The file cannot be opened or read.
    NoFile,
    /// No system has this name.
    NoSystem(&'a str),
    /// There is no memory for the bytes of the file, or for the system.
    NoMemory,
}

/// Writes the parts of a refusal, and returns its status, or `Lost` if the writer failed.
fn write_refusal_parts<W: Sink>(parts: &[&[u8]], sink: &mut W) -> Status
    requires { W.broken sink.old ≡ false }
    ensures { Sends (W.taken sink.old) (W.taken sink.new) (W.broken sink.new) result (joined parts.now)
        Status.Refused }
{
    match put_each(parts, sink) {
        Ok(()) => Status::Refused,
        Err(_) => Status::Lost,
    }
}

/// Writes `refused file`, `refused system NAME` or `refused memory`, and returns the status.
pub fn refuse_text<W: Sink>(why: Absence<'_>, sink: &mut W) -> Status
    requires { W.broken sink.old ≡ false }
    ensures { Sends (W.taken sink.old) (W.taken sink.new) (W.broken sink.new) result (absence_line why.entry)
        (absence_status why.entry) }
{
    match why {
        Absence::NoFile => send_text(b"refused file\n", Status::Refused, sink),
        Absence::NoSystem(name) => {
            let parts = [
                b"refused system ".as_slice(),
                name.as_bytes(),
                b"\n".as_slice(),
            ];
            write_refusal_parts(&parts, sink)
        }
        Absence::NoMemory => send_text(b"refused memory\n", Status::Lost, sink),
    }
}

/// Does what [`refuse_text`] does, to `out`. The file for results stays as it is.
pub fn refuse<F: Sink, W: Sink>(why: Absence<'_>, to: &mut Destinations<F, W>) -> Status
    requires stands { Stands F.broken W.broken to.old }
    ensures { Delivers F.taken F.broken W.taken W.broken to.old to.new result true (absence_line why.entry)
        (absence_status why.entry) }
{
    refuse_text(why, &mut to.out)
}
