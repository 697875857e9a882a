//! Seats of a ledger: seats that come back in any order, and seats that threads use at once.
ghost use Rattle.std.specs.Prelude.{◌≡◌, None, true};

use crate::ledgers::rows::NumberRecord;
use pst_ledger::{Cause, Closed, Entry, Ledger, Seat};
use std::alloc::{AllocError, Global};
use std::process::Abort;
use std::sync::Wait;
use std::test::Fail;
use std::thread;

/// Closes a ledger with three seats, which come back in this order.
fn close_ledger_with_seats(
    alloc: Global,
    ledger: Ledger<NumberRecord>,
    first: Seat<NumberRecord>,
    second: Seat<NumberRecord>,
    third: Seat<NumberRecord>,
) -> Result<Option<Closed<NumberRecord>>, AllocError>
    requires first { first.table ≡ ledger.table }
    requires second { second.table ≡ ledger.table }
    requires third { third.table ≡ ledger.table }
{
    let mut seats = Vec::new(alloc);
    seats.push(first)?;
    seats.push(second)?;
    seats.push(third)?;
    Ok(ledger.close(seats).ok())
}

/// Closes a ledger with three seats, in the order of that number from 0 to 5.
fn close_ledger_in_seat_order(
    alloc: Global,
    order: u8,
    ledger: Ledger<NumberRecord>,
    first: Seat<NumberRecord>,
    second: Seat<NumberRecord>,
    third: Seat<NumberRecord>,
) -> Result<Option<Closed<NumberRecord>>, AllocError>
    requires first { first.table ≡ ledger.table }
    requires second { second.table ≡ ledger.table }
    requires third { third.table ≡ ledger.table }
{
    match order {
        0 => close_ledger_with_seats(alloc, ledger, first, second, third),
        1 => close_ledger_with_seats(alloc, ledger, first, third, second),
        2 => close_ledger_with_seats(alloc, ledger, second, first, third),
        3 => close_ledger_with_seats(alloc, ledger, second, third, first),
        4 => close_ledger_with_seats(alloc, ledger, third, first, second),
        _ => close_ledger_with_seats(alloc, ledger, third, second, first),
    }
}

/// The calls of three seats on a ledger of three numbers. The first seat ends its own and claims twice more, the
/// second loses its own, and the third still holds its own.
fn assert_ledger_answers_three_seats<A: Abort>(
    rt: &A,
    ledger: &Ledger<NumberRecord>,
    mut first: Seat<NumberRecord>,
    mut second: Seat<NumberRecord>,
    mut third: Seat<NumberRecord>,
) -> (Seat<NumberRecord>, Seat<NumberRecord>, Seat<NumberRecord>)
    requires first { (first.table ≡ ledger.now.table) × (first.held ≡ None) }
    requires second { (second.table ≡ ledger.now.table) × (second.held ≡ None) }
    requires third { (third.table ≡ ledger.now.table) × (third.held ≡ None) }
    ensures first { result.0.table ≡ ledger.now.table }
    ensures second { result.1.table ≡ ledger.now.table }
    ensures third { result.2.table ≡ ledger.now.table }
{
    let drawn = (
        ledger.claim(&mut first),
        ledger.claim(&mut second),
        ledger.claim(&mut third),
    );
    assert!(rt; drawn == (Some(0), Some(1), Some(2)));
    assert!(rt; ledger.lose(&mut second, 1, Cause::NoThread).is_ok());
    assert!(rt; ledger.deposit(&mut first, NumberRecord(0)).is_ok());
    assert!(rt; ledger.claim(&mut first).is_none());
    assert!(rt; ledger.claim(&mut first).is_none());
    (first, second, third)
}

/// Closes a ledger of three numbers after those calls of its three seats. `order` says in which order the seats come
/// back.
fn use_and_close_ledger_in_order<A: Abort>(
    rt: &A,
    alloc: Global,
    order: u8,
) -> Result<Option<Closed<NumberRecord>>, AllocError> {
    let (ledger, mut seats) = Ledger::<NumberRecord>::open(alloc, 3, 3)?;
    let third = seats.pop().expect(rt, "a third seat");
    let second = seats.pop().expect(rt, "a second seat");
    let first = seats.pop().expect(rt, "a first seat");
    let (first, second, third) = assert_ledger_answers_three_seats(
        rt, &ledger, first, second, third,
    );
    close_ledger_in_seat_order(alloc, order, ledger, first, second, third)
}

#[test]
fn seats_come_back_in_any_order(rt: HostRuntime) -> Result<(), Fail> {
    let expected = [
        Entry::Done(NumberRecord(0)),
        Entry::Lost(Cause::NoThread),
        Entry::Held,
    ];
    for order in 0..6u8 {
        let Some(closed) = use_and_close_ledger_in_order(&rt, rt.alloc(), order)? else {
            return Err(Fail::new("a seat is missing"));
        };
        assert!(rt; closed.entries() == expected.as_slice(), "in order {order}");
    }
    Ok(())
}

/// Claims until there is nothing left, and deposits a note for each number.
fn claim_and_deposit_until_none_left<R: Wait>(
    rt: &R,
    ledger: &Ledger<NumberRecord>,
    mut seat: Seat<NumberRecord>,
) -> Seat<NumberRecord>
    requires own { seat.table ≡ ledger.now.table }
    requires idle { seat.held ≡ None }
    ensures place { result.table ≡ seat.table }
    ensures last { (result.marked ≡ true) × (result.held ≡ None) }
{
    for _ in rt.forever() {
        match ledger.claim(&mut seat) {
            Some(number) => {
                let _ = ledger.deposit(&mut seat, NumberRecord(number));
            }
            None => return seat,
        }
    }
    unreachable!()
}

/// Whether the entries are the records of the numbers from 0 on, in order.
fn are_entries_records_in_order(entries: &[Entry<NumberRecord>]) -> bool {
    for (number, entry) in entries.iter().enumerate() {
        if !matches!(entry, Entry::Done(note) if note.0 == number as u64) {
            return false;
        }
    }
    true
}

#[test]
fn sixteen_threads_draw_each_number_once(rt: HostRuntime) -> Result<(), Fail> {
    let (ledger, seats) = Ledger::<NumberRecord>::open(rt.alloc(), 100_000, 16)?;
    let shared = &ledger;
    let back = thread::map_vec(
        &rt,
        seats,
        &|seat: Seat<NumberRecord>|
            requires { (seat.table ≡ shared.now.table) × (seat.held ≡ None) }
            ensures { result.table ≡ shared.entry.now.table }
        { claim_and_deposit_until_none_left(&rt, shared, seat) },
    )?;
    assert!(rt; back.len() == 16);
    let Ok(closed) = ledger.close(back) else {
        panic!(rt; "a seat is missing")
    };
    assert!(rt; closed.entries().len() == 100_000);
    assert!(rt; are_entries_records_in_order(closed.entries()));
    Ok(())
}
