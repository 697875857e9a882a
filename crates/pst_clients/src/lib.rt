//! A system of clients: programs in any language, each of which reads one call per line and prints one answer
//! per line.
//!
//! Nothing here starts a client. Each is at the other end of two pipes, which a launcher has made.
#![tactic(auto)]

mod burst;
mod bursting;
mod calling;
mod clients;
mod connection;
mod marks;
mod notes;
mod opening;
mod options;
mod protocol;
mod resetting;
mod restarts;
mod source;
mod states;
mod waits;

pub use clients::Clients;
pub use connection::Connection;
pub use notes::{MOST_NOTES, Notes};
pub use opening::{ClientFolder, open_clients};
pub use options::ClientOptions;
pub use protocol::{
    ClientAnswer, client_answer_of_line, client_call_line, result_types_of_operations,
};
pub use source::{CallPipe, LineSink, LineSource, MAX_LINE};
pub use states::{ClientState, LostAnswer};
pub use waits::ClientWaits;
