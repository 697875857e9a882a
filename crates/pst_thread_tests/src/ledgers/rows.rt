//! Rows of calls on books and ledgers, each with its answer, and the record that the tests deposit.
ghost use Rattle.std.specs.Prelude.{◌≡◌, None};

use pst_ledger::{
    Book, BookCall, BookReply, Cause, CloseFault, Closed, Entry, Ledger, LedgerFault, Numbered,
    Seat, make_calls_and_add_replies,
};
use std::alloc::{AllocError, Global};
use std::process::Abort;
use std::test::Fail;

/// A record that is its number.
#[derive(Debug, PartialEq, Eq, Drop)]
pub(crate) struct NumberRecord(pub(crate) u64);

impl Numbered for NumberRecord {
    ghost number_of = { λ note. note.0 };

    fn number(&self) -> u64 {
        self.0
    }
}

#[test]
fn a_book_records_three_trials(rt: HostRuntime) -> Result<(), Fail> {
    let mut book = Book::<NumberRecord>::open(rt.alloc(), 3, 2)?;
    assert!(rt; book.claim(0) == Some(0));
    assert!(rt; book.claim(1) == Some(1));
    assert!(rt; book.deposit(1, NumberRecord(1)).is_ok());
    assert!(rt; book.claim(1) == Some(2));
    assert!(rt; book.lose(1, 2, Cause::ResetFailed).is_ok());
    assert!(rt; book.claim(1).is_none());
    let closed = book.close();
    let expected = [
        Entry::Held,
        Entry::Done(NumberRecord(1)),
        Entry::Lost(Cause::ResetFailed),
    ];
    assert!(rt; closed.entries() == expected.as_slice());
    Ok(())
}

/// A record of another seat's number and a number that has ended are refused, and change nothing.
#[test]
fn a_book_refuses_to_end_numbers(rt: HostRuntime) -> Result<(), Fail> {
    let mut book = Book::<NumberRecord>::open(rt.alloc(), 3, 2)?;
    assert!(rt; book.claim(0) == Some(0));
    assert!(rt; book.claim(1) == Some(1));
    let answers = [
        book.deposit(0, NumberRecord(1)),
        book.deposit(1, NumberRecord(1)),
    ];
    let expected = [Err((NumberRecord(1), LedgerFault::NotYours)), Ok(())];
    assert!(rt; answers.as_slice() == expected.as_slice());
    assert!(rt; book.lose(1, 1, Cause::NoThread) == Err(LedgerFault::Twice));
    let closed = book.close();
    let expected = [Entry::Held, Entry::Done(NumberRecord(1)), Entry::Undrawn];
    assert!(rt; closed.entries() == expected.as_slice());
    Ok(())
}

/// Closes a ledger with its only seat. `None` if it is not closed so, or if it is closed without the seat before.
fn close_ledger_only_with_seat(
    alloc: Global,
    ledger: Ledger<NumberRecord>,
    seat: Seat<NumberRecord>,
) -> Result<Option<Closed<NumberRecord>>, AllocError>
    requires { seat.table ≡ ledger.table }
{
    let Err((ledger, mut seats, CloseFault::MissingSeat)) = ledger.close(Vec::new(alloc)) else {
        return Ok(None);
    };
    seats.push(seat)?;
    Ok(ledger.close(seats).ok())
}

#[test]
fn a_ledger_serves_one_seat(rt: HostRuntime) -> Result<(), Fail> {
    let (ledger, mut seats) = Ledger::<NumberRecord>::open(rt.alloc(), 2, 1)?;
    let mut seat = seats.pop().expect(&rt, "a seat");
    assert!(rt; ledger.claim(&mut seat) == Some(0));
    assert!(rt; ledger.deposit(&mut seat, NumberRecord(0)).is_ok());
    assert!(rt; (ledger.claim(&mut seat), seat.held()) == (Some(1), Some(1)));
    assert!(rt; ledger.lose(&mut seat, 1, Cause::NoThread).is_ok());
    assert!(rt; ledger.claim(&mut seat).is_none());
    let closed = close_ledger_only_with_seat(rt.alloc(), ledger, seat)?.expect(
        &rt,
        "a ledger closed with its seat",
    );
    let expected = [Entry::Done(NumberRecord(0)), Entry::Lost(Cause::NoThread)];
    assert!(rt; closed.entries() == expected.as_slice());
    Ok(())
}

/// Deposits for a number that has ended, and for one that the seat never drew, are refused and change nothing.
#[test]
fn a_ledger_refuses_to_end_numbers(rt: HostRuntime) -> Result<(), Fail> {
    let (ledger, mut seats) = Ledger::<NumberRecord>::open(rt.alloc(), 2, 1)?;
    let mut seat = seats.pop().expect(&rt, "a seat");
    assert!(rt; ledger.claim(&mut seat) == Some(0));
    assert!(rt; ledger.deposit(&mut seat, NumberRecord(0)).is_ok());
    assert!(rt;
        ledger.deposit(&mut seat, NumberRecord(0)) == Err((NumberRecord(0), LedgerFault::Twice))
    );
    assert!(rt;
        ledger.deposit(&mut seat, NumberRecord(1)) == Err((NumberRecord(1), LedgerFault::NotYours))
    );
    assert!(rt; (ledger.claim(&mut seat), seat.held()) == (Some(1), Some(1)));
    Ok(())
}

#[test]
fn closing_a_ledger_needs_every_seat(rt: HostRuntime) -> Result<(), Fail> {
    let (ledger, mut seats) = Ledger::<NumberRecord>::open(rt.alloc(), 2, 2)?;
    let mut second = seats.pop().expect(&rt, "a seat");
    let Err((ledger, seats, CloseFault::MissingSeat)) = ledger.close(seats) else {
        panic!(rt; "closed without the second seat")
    };
    assert!(rt; seats.len() == 1);
    assert!(rt; ledger.claim(&mut second) == Some(0));
    Ok(())
}

/// The calls of two seats on a ledger of two trials. Each answer is the one that a book gives.
fn assert_ledger_answers_two_seats<A: Abort>(
    rt: &A,
    ledger: &Ledger<NumberRecord>,
    mut first: Seat<NumberRecord>,
    mut second: Seat<NumberRecord>,
) -> (Seat<NumberRecord>, Seat<NumberRecord>)
    requires first { (first.table ≡ ledger.now.table) × (first.held ≡ None) }
    requires second { (second.table ≡ ledger.now.table) × (second.held ≡ None) }
    ensures first { result.0.table ≡ ledger.now.table }
    ensures second { result.1.table ≡ ledger.now.table }
{
    assert!(rt; ledger.claim(&mut first) == Some(0));
    assert!(rt;
        ledger.deposit(&mut second, NumberRecord(0))
            == Err((NumberRecord(0), LedgerFault::NotYours))
    );
    assert!(rt; ledger.claim(&mut second) == Some(1));
    assert!(rt; ledger.deposit(&mut second, NumberRecord(1)).is_ok());
    assert!(rt;
        ledger.deposit(&mut second, NumberRecord(1)) == Err((NumberRecord(1), LedgerFault::Twice))
    );
    (first, second)
}

/// Closes a ledger of two trials after those calls.
fn close_ledger_after_expected_answers<A: Abort>(
    rt: &A,
    alloc: Global,
) -> Result<Option<Closed<NumberRecord>>, AllocError> {
    let (ledger, mut seats) = Ledger::<NumberRecord>::open(alloc, 2, 2)?;
    let second = seats.pop().expect(rt, "a seat");
    let first = seats.pop().expect(rt, "a seat");
    let (first, second) = assert_ledger_answers_two_seats(rt, &ledger, first, second);
    seats.push(second)?;
    seats.push(first)?;
    Ok(ledger.close(seats).ok())
}

/// Closes a book of two trials after the same calls, to which it gives the same answers.
fn close_book_after_expected_answers<A: Abort>(
    rt: &A,
    alloc: Global,
) -> Result<Closed<NumberRecord>, AllocError> {
    let mut book = Book::<NumberRecord>::open(alloc, 2, 2)?;
    assert!(rt; book.claim(0) == Some(0));
    assert!(rt; book.deposit(1, NumberRecord(0)) == Err((NumberRecord(0), LedgerFault::NotYours)));
    assert!(rt; book.claim(1) == Some(1));
    let answers = [
        book.deposit(1, NumberRecord(1)),
        book.deposit(1, NumberRecord(1)),
    ];
    let expected = [Ok(()), Err((NumberRecord(1), LedgerFault::Twice))];
    assert!(rt; answers.as_slice() == expected.as_slice());
    Ok(book.close())
}

#[test]
fn book_and_ledger_answer_alike(rt: HostRuntime) -> Result<(), Fail> {
    let closed = close_ledger_after_expected_answers(&rt, rt.alloc())?.expect(
        &rt,
        "a ledger closed with its seats",
    );
    let book = close_book_after_expected_answers(&rt, rt.alloc())?;
    let expected = [Entry::Held, Entry::Done(NumberRecord(1))];
    assert!(rt; closed.entries() == expected.as_slice());
    assert!(rt; closed.entries() == book.entries());
    Ok(())
}

#[test]
fn a_book_replies_to_replayed_calls(rt: HostRuntime) -> Result<(), Fail> {
    let mut calls = Vec::new(rt.alloc());
    calls.push(BookCall::Deposit(0, NumberRecord(0)))?;
    calls.push(BookCall::Claim(0))?;
    calls.push(BookCall::Lose(0, 0, Cause::NoMemory))?;
    calls.push(BookCall::Claim(0))?;
    let mut replies = Vec::with_capacity(rt.alloc(), 4)?;
    let mut book = Book::<NumberRecord>::open(rt.alloc(), 1, 1)?;
    make_calls_and_add_replies(&mut book, calls, &mut replies);
    let expected = [
        BookReply::Refused(LedgerFault::NotYours),
        BookReply::Granted(0),
        BookReply::Accepted,
        BookReply::NoneLeft,
    ];
    assert!(rt; replies.as_slice() == expected.as_slice());
    Ok(())
}
