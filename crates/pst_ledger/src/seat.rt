//! A worker's seat at a ledger, what it knows in contracts, and the rule of the table over what the seats know.
ghost use Rattle.std.specs.Prelude.{◌≡◌, ◌≢◌, ◌<◌, Some, MatchOption, MatchBool};
ghost use Rattle.pst_ledger.specs.Count.{times};
ghost use Rattle.pst_ledger.specs.Seats.{IsRefused};

use crate::entry::Entry;
use crate::ledger::LedgerFault;
use atomic_table::{Join, Play, Split, TableRule};
use std::collections::LinkedList;
use std::marker::Model;

/// A seat at a ledger, for one thread at a time. It remembers the numbers that it drew, and has room for all
/// of them.
#[derive(Drop)]
pub struct Seat<R> {
    pub(crate) token: atomic_table::Seat<Entry<R>, View<R>>,
    pub(crate) draws: Vec<u64>,
    pub(crate) held: Option<u64>,
    pub(crate) marked: bool,
}

impl<R> Model for Seat<R> {
    ghost use Rattle.pst_ledger.specs.Seats.{SeatView};

    ghost Value = { SeatView R };

    ghost use Rattle.pst_ledger.specs.Inside.{view_of, IsSound};

    ghost view = { view_of };

    ghost invariant = { IsSound };
}

impl<R> Seat<R> {
    /// The number that the seat drew and has not ended.
    pub fn held(&self) -> Option<u64>
        ensures { result ≡ self.now.held }
    {
        self.held
    }

    /// Why the seat may not end the number, if it may not.
    pub(crate) fn why_ending_is_refused(&self, number: u64) -> Option<LedgerFault>
        ensures { MatchOption result
            (self.now.held ≡ Some number)
            (λ f. (self.now.held ≢ Some number) × IsRefused self.now number f) }
    {
        if self.held == Some(number) {
            return None;
        }
        if has_number(self.draws.as_slice(), number) {
            Some(LedgerFault::Twice)
        } else {
            Some(LedgerFault::NotYours)
        }
    }
}

/// Whether the number is among the draws.
fn has_number(draws: &[u64], number: u64) -> bool
    ensures { MatchBool result (0 < times number draws.now) (times number draws.now ≡ 0) }
{
    for draw in draws {
        if *draw == number {
            return true;
        }
    }
    false
}

/// What a seat knows, in contracts alone: no program has a value of it. A contract reads the array as a list
/// of any length.
pub struct View<R> {
    /// How many seats the view is of.
    pub parts: u64,
    /// How many of them got `None`.
    pub marks: u64,
    /// The numbers that they drew.
    pub draws: [u64; 0],
    /// The numbers that they ended, each with its entry.
    pub ends: LinkedList<(u64, Entry<R>)>,
}

/// The rule of the table: its word counts the claims, and it has a slot for each number.
pub struct Numbers;

impl<R> TableRule<Entry<R>, View<R>, u64> for Numbers {
    ghost use Rattle.pst_ledger.specs.Rule.{Kept, fresh};

    ghost holds = { Kept };

    ghost first = { fresh };
}

/// The step that claims a number, and takes its slot out.
pub struct Draw;

impl<R> Play<Entry<R>, View<R>> for Draw {
    ghost use Rattle.pst_ledger.specs.Rule.{drew};

    ghost then = { drew };
}

/// The step that gives the slot of the held number back.
pub struct Finish;

impl<R> Play<Entry<R>, View<R>> for Finish {
    ghost use Rattle.pst_ledger.specs.Rule.{finished};

    ghost then = { finished };
}

/// The step of a new token that knows nothing.
pub struct Enter;

impl<R> Play<Entry<R>, View<R>> for Enter {
    ghost use Rattle.pst_ledger.specs.Rule.{entered};

    ghost then = { entered };
}

/// Cuts the view of one seat off a view of several that have done nothing.
pub struct OnePart;

impl<R> Split<View<R>> for OnePart {
    ghost use Rattle.pst_ledger.specs.Rule.{one_less, one_part};

    ghost left = { one_less };

    ghost right = { one_part };
}

/// Makes one view of two.
pub struct Together;

impl<R> Join<View<R>> for Together {
    ghost use Rattle.pst_ledger.specs.Rule.{together, fresh};

    ghost both = { together };

    ghost spent = { fresh 0 };
}
