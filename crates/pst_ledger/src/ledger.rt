//! The ledger that threads share, and why a ledger refuses a call.
ghost use Rattle.std.specs.Prelude.{◌≡◌, ◌≢◌, ◌≤◌, ◌<◌, [], length, replicate, true, None, Some, MatchOption, MatchResult, IfOk};
ghost use Rattle.pst_ledger.specs.Inside.{settled, gathered};
ghost use Rattle.pst_ledger.specs.Line.{IsClosed};
ghost use Rattle.pst_ledger.specs.Rule.{fresh};
ghost use Rattle.pst_ledger.specs.Seats.{new_seat, drawing, marking, ending, HasEnded, HasRefused, OfTable, InOrder, AllInOrder};
ghost use Rattle.pst_ledger.specs.declared.entry.Entry.TheVariants.{Undrawn, Done, Lost};
ghost use Rattle.pst_ledger.specs.Names.{ledger_fault_name, close_fault_name};

use crate::entry::{Cause, Closed, Entry, Numbered, take_entries_and_free_table};
use crate::seat::{Draw, Enter, Finish, Numbers, OnePart, Seat, Together, View};
use atomic_table::{Shared, Table};
use std::alloc::{AllocError, Global};
use std::marker::Model;

/// A ledger that threads share, one for each seat. No call waits, takes a lock or tries again. It is `Sync` if
/// its records are.
#[derive(Drop)]
pub struct Ledger<R: Numbered> {
    table: Table<Entry<R>, View<R>, u64, Numbers, Global>,
    seats: u64,
    /// Room for the entries when the ledger is closed.
    room: Vec<Entry<R>>,
}

impl<R: Numbered> Model for Ledger<R> {
    ghost use Rattle.std.specs.Prelude.{◌≡◌, ◌≤◌, [], vec_capacity};
    ghost use Rattle.pst_ledger.specs.Seats.{LedgerView};

    ghost Value = { LedgerView };

    ghost view = { λ l. record { table = l.table.shared.table_id; seats = l.seats } };

    ghost invariant = { λ l. (l.table.shared.key ≡ l.seats) × (l.table.shared.table_id.words ≡ 1)
        × (l.room.items ≡ []) × (l.table.shared.table_id.slots ≤ vec_capacity l.room) };
}

/// A slot for each number, none of them drawn.
fn undrawn<R: Numbered>(alloc: Global, trials: u64) -> Result<Vec<Entry<R>>, AllocError>
    ensures { IfOk result (λ v. v.items ≡ replicate trials Undrawn) }
{
    let mut slots = Vec::with_capacity(alloc, trials as usize)?;
    for _ in 0..trials {
        slots.push_reserved(Entry::Undrawn);
    }
    Ok(slots)
}

/// Cuts the first token of a table into one for each seat.
fn split_token_into_seats<R: Numbered>(
    alloc: Global,
    shared: &Shared<Entry<R>, View<R>, u64, Numbers>,
    mut first: atomic_table::Seat<Entry<R>, View<R>>,
    trials: u64,
    seats: u64,
) -> Result<Vec<Seat<R>>, AllocError>
    requires table { (first.table_id ≡ shared.now.table_id) × (shared.now.table_id.words ≡ 1)
        × (shared.now.table_id.slots ≡ trials) }
    requires whole { first.me.0 ≡ fresh seats }
    ensures { IfOk result (λ v. v.items ≡ replicate seats (new_seat shared.now.table_id)) }
{
    let mut list = Vec::with_capacity(alloc, seats as usize)?;
    for _ in 0..seats {
        let draws = Vec::with_capacity(alloc, trials as usize)?;
        let token = shared.split_seat::<OnePart>(&mut first);
        list.push_reserved(Seat {
            token,
            draws,
            held: None,
            marked: false,
        });
    }
    Ok(list)
}

impl<R: Numbered> Ledger<R> {
    /// A ledger of `trials` trials, with no number drawn, and its `seats` seats. It reserves all memory that
    /// later calls need.
    pub fn open(
        alloc: Global,
        trials: u64,
        seats: u64,
    ) -> Result<(Ledger<R>, Vec<Seat<R>>), AllocError>
        requires trials { trials ≤ 100000 }
        requires seats { (1 ≤ seats) × (seats ≤ 16) }
        ensures trials { IfOk result (λ l. l.0.table.slots ≡ trials) }
        ensures count { IfOk result (λ l. l.0.seats ≡ seats) }
        ensures seats { IfOk result (λ l. l.1.items ≡ replicate seats (new_seat l.0.table)) }
    {
        let room = Vec::with_capacity(alloc, trials as usize)?;
        let slots = undrawn(alloc, trials)?;
        let Ok((table, first)) = Table::new(alloc, &[0], slots, &seats) else {
            return Err(AllocError);
        };
        let list = split_token_into_seats(alloc, &table.shared, first, trials, seats)?;
        Ok((Ledger { table, seats, room }, list))
    }

    /// Gives the seat a number that no seat has had, which the seat holds from then on. If no number is left,
    /// it marks the seat and returns `None`, now and at every later claim.
    pub fn claim(&self, seat: &mut Seat<R>) -> Option<u64>
        requires own { seat.old.table ≡ self.now.table }
        requires idle { seat.old.held ≡ None }
        ensures drawn { MatchOption result
            (seat.new ≡ marking seat.old)
            (λ k. (seat.new ≡ drawing seat.old k) × (k < self.now.table.slots)) }
        ensures marked { seat.old.marked ≡ true → result ≡ None }
    {
        if seat.marked {
            return None;
        }
        let found = self.table.shared.fetch_add::<Draw>(&mut seat.token, 0, 1);
        if (found as usize) < self.table.slot_count() {
            seat.draws.push_reserved(found);
            seat.held = Some(found);
            Some(found)
        } else {
            seat.marked = true;
            None
        }
    }

    /// Writes the entry into the slot that the seat holds, and gives the slot back.
    fn finish(&self, seat: &mut Seat<R>, number: u64, entry: Entry<R>)
        requires own { seat.old.table ≡ self.now.table }
        requires held { seat.old.held ≡ Some number }
        ensures { seat.new ≡ ending seat.old number entry }
    {
        let vacant = self
            .table
            .shared
            .exchange(&mut seat.token, number as usize, entry);
        drop(vacant);
        self.table.shared.fetch_add::<Finish>(&mut seat.token, 0, 0);
        seat.held = None;
    }

    /// Ends the number of the record, which the seat holds, with the record. It does not allocate.
    ///
    /// `NotYours` if the seat never drew the number, and `Twice` if it has ended it; the record is handed back.
    pub fn deposit(&self, seat: &mut Seat<R>, deposited: R) -> Result<(), (R, LedgerFault)>
        requires own { seat.old.table ≡ self.now.table }
        ensures { MatchResult result
            (λ _. HasEnded seat.old seat.new (R.number_of deposited) (Done deposited))
            (λ e. (e.0 ≡ deposited) × HasRefused seat.old seat.new (R.number_of deposited) e.1) }
    {
        let number = deposited.number();
        match seat.why_ending_is_refused(number) {
            None => {
                self.finish(seat, number, Entry::Done(deposited));
                Ok(())
            }
            Some(fault) => Err((deposited, fault)),
        }
    }

    /// Ends the number, which the seat holds, with no record. It does not allocate.
    ///
    /// `NotYours` if the seat never drew the number, and `Twice` if it has ended it.
    pub fn lose(&self, seat: &mut Seat<R>, number: u64, cause: Cause) -> Result<(), LedgerFault>
        requires own { seat.old.table ≡ self.now.table }
        ensures { MatchResult result
            (λ _. HasEnded seat.old seat.new number (Lost cause))
            (λ f. HasRefused seat.old seat.new number f) }
    {
        match seat.why_ending_is_refused(number) {
            None => {
                self.finish(seat, number, Entry::Lost(cause));
                Ok(())
            }
            Some(fault) => Err(fault),
        }
    }

    /// The seat's token, which knows all that the seat knows. A number that the seat holds is given back as
    /// `Held`.
    fn settle_seat_into_token(&self, seat: Seat<R>) -> atomic_table::Seat<Entry<R>, View<R>>
        requires own { seat.table ≡ self.now.table }
        ensures place { result.table_id ≡ self.now.table }
        ensures view { (result.me.0 ≡ settled seat) × (result.me.1 ≡ []) }
        ensures order { InOrder seat }
    {
        let Seat {
            mut token,
            draws: _,
            held,
            marked: _,
        } = seat;
        if let Some(number) = held {
            let vacant = self
                .table
                .shared
                .exchange(&mut token, number as usize, Entry::Held);
            drop(vacant);
            self.table.shared.fetch_add::<Finish>(&mut token, 0, 0);
        }
        token
    }

    /// One token that knows all that the seats know.
    fn join_seats_into_token(
        &self,
        mut seats: Vec<Seat<R>>,
    ) -> atomic_table::Seat<Entry<R>, View<R>>
        requires own { OfTable self.now.table seats.items }
        ensures place { result.table_id ≡ self.now.table }
        ensures view { result.me.0 ≡ gathered seats.items }
        ensures order { AllInOrder seats.items }
    {
        let (_, mut all) = self.table.shared.load_new_seat::<Enter>(0);
        while let Some(seat) = seats.pop() {
            let token = self.settle_seat_into_token(seat);
            self.table.shared.join_seat::<Together>(&mut all, token);
        }
        all
    }

    /// Returns what became of each number, once all seats have come back, in any order. It does not allocate.
    ///
    /// `MissingSeat` exactly if some seat was not handed in; the ledger and the seats are handed back.
    pub fn close(
        self,
        seats: Vec<Seat<R>>,
    ) -> Result<Closed<R>, (Ledger<R>, Vec<Seat<R>>, CloseFault)>
        requires own { OfTable self.table seats.items }
        ensures { MatchResult result
            (λ closed. (length seats.items ≡ self.seats) × IsClosed self.table.slots seats.items closed)
            (λ e. (length seats.items ≢ self.seats) × (e.0 ≡ self) × (e.1.items ≡ seats.items)) }
    {
        if seats.len() as u64 != self.seats {
            return Err((self, seats, CloseFault::MissingSeat));
        }
        let all = self.join_seats_into_token(seats);
        let Ledger {
            table,
            seats: _,
            room,
        } = self;
        let closed = table.close_with(all);
        Ok(Closed {
            entries: take_entries_and_free_table(closed, room),
        })
    }
}

/// Why a number may not be ended by a seat.
#[derive(Clone, Copy, Debug, PartialEq, Eq, Drop)]
pub enum LedgerFault {
    /// The seat never drew the number.
    NotYours,
    /// The seat drew the number, and has ended it.
    Twice,
}

impl LedgerFault {
    /// The word for the fault.
    pub fn name(&self) -> &'static str
        ensures { result.now ≡ ledger_fault_name self.now }
    {
        match self {
            LedgerFault::NotYours => "NotYours",
            LedgerFault::Twice => "Twice",
        }
    }
}

/// Why a ledger was not closed.
#[derive(Clone, Copy, Debug, PartialEq, Eq, Drop)]
pub enum CloseFault {
    /// Some seat of the ledger was not handed in.
    MissingSeat,
}

impl CloseFault {
    /// The word for the fault.
    pub fn name(&self) -> &'static str
        ensures { result.now ≡ close_fault_name self.now }
    {
        match self {
            CloseFault::MissingSeat => "MissingSeat",
        }
    }
}
