//! The ledger of a campaign: which trial's number went to which worker, and how that trial ended. A `Book`
//! serves one thread. A `Ledger` serves one thread for each seat, and no call of it waits for another.
//! `AllocError` means that an allocation failed.
#![tactic(auto)]

mod book;
mod entry;
mod ledger;
mod seat;

pub use book::{Book, BookCall, BookReply, make_calls_and_add_replies};
pub use entry::{Cause, Closed, Entry, Numbered};
pub use ledger::{CloseFault, Ledger, LedgerFault};
pub use seat::Seat;
