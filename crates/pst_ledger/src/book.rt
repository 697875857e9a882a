//! The ledger of one thread, what it knows of each number, and whole lists of calls on it.
ghost use Rattle.std.specs.Prelude.{◌≡◌, ◌≤◌, ◌<◌, length, map, replicate, false, slice_get, Some, MatchOption, MatchResult, IfOk, IfErr, [], vec_len, vec_capacity, ◌+◌, ◌++◌};
ghost use Rattle.pst_ledger.specs.Core.{claim, finish, after, claim_answer, accepted, refused, opening_core, HoldsNone, shown, run};
ghost use Rattle.pst_ledger.specs.declared.entry.Entry.{Entry};
ghost use Rattle.pst_ledger.specs.declared.entry.Entry.TheVariants.{Done, Lost};
ghost use Rattle.pst_ledger.specs.declared.book.Spot.TheVariants.{Free, Holder};
ghost use Rattle.pst_ledger.specs.Replay.{event_of, answer_of, answers, IsAllowed, AllAllowed};

use crate::entry::{Cause, Closed, Entry, Numbered};
use crate::ledger::LedgerFault;
use std::alloc::{AllocError, Global};
use std::marker::Model;

/// The ledger of one thread. Its seats are the numbers from 0 on.
#[derive(Drop)]
pub struct Book<R: Numbered> {
    spots: Vec<Spot<R>>,
    /// The lowest free number, or the number of trials if no number is free.
    next: usize,
    marks: Vec<bool>,
    /// Room for the entries when the book is closed.
    room: Vec<Entry<R>>,
}

impl<R: Numbered> Model for Book<R> {
    ghost use Rattle.std.specs.Prelude.{◌≡◌, ◌≤◌, [], vec_len, vec_capacity};
    ghost use Rattle.pst_ledger.specs.Core.{Core, FreeFrom};

    ghost Value = { Core R };

    ghost view = { λ b. record { spots = b.spots.items; marks = b.marks.items } };

    ghost invariant = { λ b. FreeFrom b.next b.spots.items × (b.room.items ≡ [])
        × (vec_len b.spots ≤ vec_capacity b.room) };
}

/// So many numbers, each of them free.
fn free_spots<R: Numbered>(alloc: Global, trials: u64) -> Result<Vec<Spot<R>>, AllocError>
    ensures { IfOk result (λ v. v.items ≡ replicate trials Free) }
{
    let mut spots = Vec::with_capacity(alloc, trials as usize)?;
    for _ in 0..trials {
        spots.push_reserved(Spot::Free);
    }
    Ok(spots)
}

/// So many seats, none of them marked.
fn unmarked_seats(alloc: Global, seats: u64) -> Result<Vec<bool>, AllocError>
    ensures { IfOk result (λ v. v.items ≡ replicate seats false) }
{
    let mut marks = Vec::with_capacity(alloc, seats as usize)?;
    for _ in 0..seats {
        marks.push_reserved(false);
    }
    Ok(marks)
}

/// Moves the entries that the spots show into an empty list that has room for them.
fn move_spots_into_entries<R: Numbered>(
    spots: Vec<Spot<R>>,
    mut room: Vec<Entry<R>>,
) -> Vec<Entry<R>>
    requires { (room.items ≡ []) × (vec_len spots ≤ vec_capacity room) }
    ensures { result.items ≡ map shown spots.items }
{
    for spot in spots {
        room.push_reserved(spot.into_entry());
    }
    room
}

impl<R: Numbered> Book<R> {
    /// A book of `trials` trials and `seats` seats, in which every number is free. It reserves all memory that
    /// later calls need.
    pub fn open(alloc: Global, trials: u64, seats: u64) -> Result<Book<R>, AllocError>
        requires trials { trials ≤ 100000 }
        requires seats { (1 ≤ seats) × (seats ≤ 16) }
        ensures { IfOk result (λ book. book ≡ opening_core trials seats) }
    {
        let room = Vec::with_capacity(alloc, trials as usize)?;
        let spots = free_spots(alloc, trials)?;
        let marks = unmarked_seats(alloc, seats)?;
        Ok(Book {
            spots,
            next: 0,
            marks,
            room,
        })
    }

    /// Gives the lowest free number to the seat, which holds it from then on. If no number is free, it marks
    /// the seat and returns `None`.
    pub fn claim(&mut self, seat: u64) -> Option<u64>
        requires known { seat < length self.old.marks }
        requires idle { HoldsNone seat self.old.spots }
        ensures { after self.old (claim seat) ≡ (self.new, claim_answer result) }
    {
        let number = self.next;
        if number < self.spots.len() {
            self.spots[number] = Spot::Holder(seat);
            self.next = number + 1;
            Some(number as u64)
        } else {
            self.marks[seat as usize] = true;
            None
        }
    }

    /// Why the seat may not end the number, if it may not.
    fn why_ending_is_refused(&self, seat: u64, number: u64) -> Option<LedgerFault>
        ensures { MatchOption result
            (slice_get self.now.spots number ≡ Some (Holder seat))
            (λ f. (e : Entry R) → after self.now (finish seat number e) ≡ (self.now, refused f)) }
    {
        match self.spots.get(number as usize) {
            Some(Spot::Holder(owner)) if *owner == seat => None,
            Some(Spot::Ended(owner, _)) if *owner == seat => Some(LedgerFault::Twice),
            _ => Some(LedgerFault::NotYours),
        }
    }

    /// Ends the number that the seat holds.
    fn finish(&mut self, seat: u64, number: u64, entry: Entry<R>)
        requires { slice_get self.old.spots number ≡ Some (Holder seat) }
        ensures { after self.old (finish seat number entry) ≡ (self.new, accepted) }
    {
        self.spots[number as usize] = Spot::Ended(seat, entry);
    }

    /// Ends the number of the record, which the seat holds, with the record.
    ///
    /// `NotYours` if the seat never drew the number, and `Twice` if it has ended it; the record is handed back.
    pub fn deposit(&mut self, seat: u64, deposited: R) -> Result<(), (R, LedgerFault)>
        ensures handed_back { IfErr result (λ e. e.0 ≡ deposited) }
        ensures answer { MatchResult result
            (λ _. after self.old (finish seat (R.number_of deposited) (Done deposited))
            ≡ (self.new, accepted))
            (λ e. after self.old (finish seat (R.number_of deposited) (Done deposited))
            ≡ (self.new, refused e.1)) }
    {
        let number = deposited.number();
        match self.why_ending_is_refused(seat, number) {
            None => {
                self.finish(seat, number, Entry::Done(deposited));
                Ok(())
            }
            Some(fault) => Err((deposited, fault)),
        }
    }

    /// Ends the number, which the seat holds, with no record.
    ///
    /// `NotYours` if the seat never drew the number, and `Twice` if it has ended it.
    pub fn lose(&mut self, seat: u64, number: u64, cause: Cause) -> Result<(), LedgerFault>
        ensures { MatchResult result
            (λ _. after self.old (finish seat number (Lost cause)) ≡ (self.new, accepted))
            (λ f. after self.old (finish seat number (Lost cause)) ≡ (self.new, refused f)) }
    {
        match self.why_ending_is_refused(seat, number) {
            None => {
                self.finish(seat, number, Entry::Lost(cause));
                Ok(())
            }
            Some(fault) => Err(fault),
        }
    }

    /// Returns what became of each number. It does not allocate.
    pub fn close(self) -> Closed<R>
        ensures { result ≡ map shown self.spots }
    {
        let Book {
            spots,
            next: _,
            marks: _,
            room,
        } = self;
        Closed {
            entries: move_spots_into_entries(spots, room),
        }
    }
}

/// What a book knows of one trial's number. Seats are numbered from 0.
#[derive(Drop)]
pub enum Spot<R> {
    /// No seat drew it.
    Free,
    /// This seat holds it.
    Holder(u64),
    /// This seat has ended it with the entry.
    Ended(u64, Entry<R>),
}

impl<R> Spot<R> {
    /// The entry that shows what is known.
    pub(crate) fn into_entry(self) -> Entry<R>
        ensures { result ≡ shown self }
    {
        match self {
            Spot::Free => Entry::Undrawn,
            Spot::Holder(_) => Entry::Held,
            Spot::Ended(_, entry) => entry,
        }
    }
}

/// A call that a seat makes on a book.
#[derive(Drop)]
pub enum BookCall<R> {
    /// The seat claims a number.
    Claim(u64),
    /// The seat deposits a record.
    Deposit(u64, R),
    /// The seat gives up a number for this cause.
    Lose(u64, u64, Cause),
}

/// The reply of a book to a call.
#[derive(Debug, PartialEq, Eq, Drop)]
pub enum BookReply {
    /// This number was claimed.
    Granted(u64),
    /// No number was free.
    NoneLeft,
    /// The number was ended.
    Accepted,
    /// The number was not ended, for this reason.
    Refused(LedgerFault),
}

/// Makes one call. A record that is refused is dropped.
fn make_call<R: Numbered>(book: &mut Book<R>, call: BookCall<R>) -> BookReply
    requires allowed { IsAllowed book.old (event_of R.number_of call) }
    ensures { after book.old (event_of R.number_of call) ≡ (book.new, answer_of result) }
{
    match call {
        BookCall::Claim(seat) => match book.claim(seat) {
            Some(number) => BookReply::Granted(number),
            None => BookReply::NoneLeft,
        },
        BookCall::Deposit(seat, record) => match book.deposit(seat, record) {
            Ok(()) => BookReply::Accepted,
            Err((_, fault)) => BookReply::Refused(fault),
        },
        BookCall::Lose(seat, number, cause) => match book.lose(seat, number, cause) {
            Ok(()) => BookReply::Accepted,
            Err(fault) => BookReply::Refused(fault),
        },
    }
}

/// Makes the calls in their order, and adds a reply for each. Whatever the calls, the replies and the book
/// after them are those of the definition. A record that is refused is dropped.
pub fn make_calls_and_add_replies<R: Numbered>(
    book: &mut Book<R>,
    calls: Vec<BookCall<R>>,
    replies: &mut Vec<BookReply>,
)
    requires allowed { AllAllowed book.old (map (event_of R.number_of) calls.items) }
    requires room { vec_len replies.old + vec_len calls ≤ vec_capacity replies.old }
    ensures book { book.new ≡ run book.old (map (event_of R.number_of) calls.items) }
    ensures replies { map answer_of replies.new.items
        ≡ map answer_of replies.old.items ++ answers book.old (map (event_of R.number_of) calls.items) }
{
    for call in calls {
        let reply = make_call(book, call);
        replies.push_reserved(reply);
    }
}
