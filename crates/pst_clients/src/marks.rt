//! What a launcher and this program say at the end of a line of a client.
ghost use Rattle.std.specs.Prelude.{◌≡◌, ◌≤◌, true, None, IfSome, length};
ghost use Rattle.pst_clients.specs.Ends.{IsSaidAtEnd, IsSaidAfterMark};
ghost use Rattle.pst_clients.specs.Lines.{has_mark};

/// The byte before what the launcher or this program says at the end of a line of a client, which the client may have
/// begun. No JSON contains this byte.
pub(crate) const MARK: u8 = 0x18;

/// What the line says that ends what a client has printed so far.
const LAST: &[u8] = b"pst";

/// The line that this program writes to the pipe of the answers, to read up to it, if the launcher does not.
pub(crate) const LAST_LINE: &[u8] = b"\x18pst\n";

/// What the line says by which the launcher ends a wait that has taken too long.
const GIVEN_UP: &[u8] = b"pst gives up";

/// What the line says by which the launcher reports that a client runs again.
const STARTED: &[u8] = b"started";

/// What the text of a client's end begins with if nobody knows whether its call took effect.
const UNKNOWN: &[u8] = b"unknown ";

/// What such a text, without `UNKNOWN`, begins with if the launcher has ended the client since a call took too long.
const TOO_LONG: &[u8] = b"did not answer";

/// What the end of a line says, after the last byte 0x18 in it.
#[derive(Clone, Copy, Debug, PartialEq, Eq, Drop)]
pub(crate) enum LineEnd {
    /// What the client has printed so far ends here.
    Last,
    /// The wait has taken too long.
    GivenUp,
    /// The client runs again.
    Started,
    /// The client has ended. A client that writes this byte seems to end too.
    Ended,
    /// The client has ended, and nobody knows whether its call took effect.
    EndedUnknown,
}

/// A line of a client before the last byte 0x18 in it, and what it says after this byte.
#[derive(Clone, Copy, Drop)]
pub(crate) struct MarkedLine<'a> {
    pub(crate) text: &'a [u8],
    /// The bytes after the last byte 0x18.
    said: &'a [u8],
    /// None if there is no such byte, and the client wrote the whole line.
    pub(crate) end: Option<LineEnd>,
}

/// The bytes after `prefix`, if `bytes` begin with it, and else all of them.
fn without_prefix<'a>(bytes: &'a [u8], prefix: &[u8]) -> &'a [u8] {
    if bytes.starts_with(prefix) {
        bytes.split_at(prefix.len().min(bytes.len())).1
    } else {
        bytes
    }
}

impl<'a> MarkedLine<'a> {
    /// The parts of a line.
    pub(crate) fn of(line: &'a [u8]) -> MarkedLine<'a>
        ensures marked { IfSome result.end (λ _. has_mark line.now ≡ true) }
        ensures said { IfSome result.end (IsSaidAtEnd line.now) }
    {
        if line.contains(&MARK) {
            return MarkedLine::before_last_mark(line);
        }
        MarkedLine::without_mark(line)
    }

    /// A line without a mark.
    fn without_mark(line: &'a [u8]) -> MarkedLine<'a>
        ensures { result.end ≡ None }
    {
        MarkedLine {
            text: line,
            said: &[],
            end: None,
        }
    }

    /// The parts of a line whose last mark is at `place`, if it is there.
    fn before_mark_at(line: &'a [u8], place: usize) -> Option<MarkedLine<'a>>
        requires { place ≤ length line.now }
        ensures { IfSome result (λ m. IfSome m.end (IsSaidAtEnd line.now)) }
    {
        let (text, marked) = line.split_at(place);
        let (first, said) = marked.split_first()?;
        if *first != MARK || said.contains(&MARK) {
            return None;
        }
        let end = Some(LineEnd::saying(said));
        Some(MarkedLine { text, said, end })
    }

    /// The parts of a line with a mark.
    fn before_last_mark(line: &'a [u8]) -> MarkedLine<'a>
        requires { has_mark line.now ≡ true }
        ensures marked { IfSome result.end (λ _. has_mark line.now ≡ true) }
        ensures said { IfSome result.end (IsSaidAtEnd line.now) }
    {
        for after in 0..line.len() {
            let place = line.len().saturating_sub(after).saturating_sub(1);
            if let Some(marked) = MarkedLine::before_mark_at(line, place.min(line.len())) {
                return marked;
            }
        }
        MarkedLine::without_mark(line)
    }

    /// Whether the client wrote the line, or began it.
    pub(crate) fn is_of_client(&self) -> bool {
        !self.text.is_empty() || self.end.is_none()
    }

    /// How the client has ended.
    pub(crate) fn how_it_ended(&self) -> &'a [u8] {
        without_prefix(self.said, UNKNOWN)
    }

    /// Whether the launcher has ended the client since a call took too long.
    pub(crate) fn is_of_call_that_took_too_long(&self) -> bool {
        self.how_it_ended().starts_with(TOO_LONG)
    }
}

impl LineEnd {
    /// What the end of a line says by the bytes after the last byte 0x18.
    fn saying(said: &[u8]) -> LineEnd
        ensures { IsSaidAfterMark said.now result }
    {
        if said == LAST {
            LineEnd::Last
        } else if said == GIVEN_UP {
            LineEnd::GivenUp
        } else if said == STARTED {
            LineEnd::Started
        } else if said.starts_with(UNKNOWN) {
            LineEnd::EndedUnknown
        } else {
            LineEnd::Ended
        }
    }
}
