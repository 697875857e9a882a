//! What is known of a client, and why it does not answer a line.
ghost use Rattle.std.specs.Prelude.{◌≡◌};
ghost use Rattle.pst_clients.specs.Losing.{fault_of};

use pst_system::CallFault;

/// Why a line was not answered.
#[derive(Debug, PartialEq, Eq, Drop)]
pub enum LostAnswer {
    /// The client has ended. The launcher says how.
    Ended(String),
    /// The client has ended, and the launcher says that nobody knows whether the call took effect, and how it ended.
    EndedUnknown(String),
    /// A pipe is closed, or the client ended before.
    Closed,
    /// The line is longer than `MAX_LINE`. No other is read.
    TooLong,
    /// The line is no UTF-8.
    NoText,
    /// The client printed more than one line. This is the first, which may answer the line or not.
    MoreLines(String),
    /// The line has the byte 0x18, but does not say that the client has ended.
    Marked,
    /// The launcher has ended the wait, which took too long. The client gets no other line.
    TooLate,
    /// Out of memory.
    NoMemory,
}

impl LostAnswer {
    /// The fault of a call that is lost for this reason.
    pub fn fault(&self) -> CallFault
        ensures { result ≡ fault_of self.now }
    {
        match self {
            LostAnswer::NoMemory => CallFault::NoMemory,
            LostAnswer::EndedUnknown(_) => CallFault::OutcomeUnknown,
            LostAnswer::Ended(_)
            | LostAnswer::Closed
            | LostAnswer::TooLong
            | LostAnswer::NoText
            | LostAnswer::MoreLines(_)
            | LostAnswer::Marked
            | LostAnswer::TooLate => CallFault::Refused,
        }
    }
}

/// What is known of a client.
#[derive(Clone, Copy, Debug, PartialEq, Eq, Drop)]
pub enum ClientState {
    /// It runs, as far as is known.
    Open,
    /// It has ended, and may be started again.
    Ended,
    /// A pipe is closed.
    Closed,
    /// Memory ran out before all was read that it had printed, so that its next line may be an earlier one.
    Unread,
}

impl ClientState {
    /// Whether the client gets no other line, and is not started again.
    pub fn is_final(self) -> bool {
        matches!(self, ClientState::Closed | ClientState::Unread)
    }
}
