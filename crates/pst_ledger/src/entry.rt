//! The entries of a ledger, one for each number, and the list of them that a closed ledger is.
ghost use Rattle.std.specs.Prelude.{◌≡◌, ℕ, ◌≤◌, [], vec_capacity};
ghost use Rattle.pst_ledger.specs.Names.{cause_name};
ghost use Rattle.std.specs.Slots.{slots_items, slots_len, IsFull};

use std::alloc::Global;
use std::fmt;
use std::marker::Model;

/// Why a number has no record.
#[derive(Clone, Copy, Debug, PartialEq, Eq, Drop)]
pub enum Cause {
    /// A reset of the system failed.
    ResetFailed,
    /// A thread could not be started.
    NoThread,
    /// An allocation failed.
    NoMemory,
}

impl Cause {
    /// The word for the cause.
    pub fn name(&self) -> &'static str
        ensures { result.now ≡ cause_name self.now }
    {
        match self {
            Cause::ResetFailed => "ResetFailed",
            Cause::NoThread => "NoThread",
            Cause::NoMemory => "NoMemory",
        }
    }
}

impl fmt::Display for Cause {
    ghost use Rattle.std.specs.Prelude.{Some};
    ghost use Rattle.pst_ledger.specs.Names.{cause_name};

    ghost output = { λ cause. Some (cause_name cause) };

    fn fmt<W: fmt::Write>(&self, f: &mut fmt::Formatter<W>) -> fmt::Result {
        let name = self.name();
        write!(f, "{name}")
    }
}

/// What a closed ledger shows of one trial's number.
#[derive(Debug, PartialEq, Eq, Drop)]
pub enum Entry<R> {
    /// No seat drew the number.
    Undrawn,
    /// A seat drew the number and has not ended it.
    Held,
    /// The record that was deposited for the number.
    Done(R),
    /// The number was given up for this cause.
    Lost(Cause),
}

/// A record that names its number.
pub trait Numbered: Drop + Send {
    /// The number of the record.
    ghost number_of: { Self → ℕ };

    /// The number of the record.
    fn number(&self) -> u64
        ensures { result ≡ number_of self.now };
}

/// What became of each number, from 0 on. Contracts see it as the list of these entries.
#[derive(Drop)]
pub struct Closed<R> {
    pub(crate) entries: Vec<Entry<R>>,
}

impl<R> Model for Closed<R> {
    ghost use Rattle.std.specs.Prelude.{List};
    ghost use Rattle.pst_ledger.specs.declared.entry.Entry.{Entry};

    ghost Value = { List (Entry R) };

    ghost view = { λ c. c.entries.items };
}

impl<R> Closed<R> {
    /// The entry of each number, in order.
    pub fn entries(&self) -> &[Entry<R>]
        ensures { result.now ≡ self.now }
    {
        self.entries.as_slice()
    }
}

/// Moves what the slots of a closed table hold into an empty list that has room for it.
pub(crate) fn take_entries_and_free_table<R>(
    mut closed: atomic_table::Closed<Entry<R>, Global>,
    mut room: Vec<Entry<R>>,
) -> Vec<Entry<R>>
    requires full { IsFull closed.slots }
    requires room { (room.items ≡ []) × (slots_len closed.slots ≤ vec_capacity room) }
    ensures { result.items ≡ slots_items closed.slots }
{
    for k in 0..closed.slot_count() {
        room.push_reserved(closed.take(k));
    }
    closed.free();
    room
}
