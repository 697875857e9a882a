//! The times that drives record.
ghost use Rattle.std.specs.Prelude.{◌≡◌};

use crate::test_systems::{MeetingFlags, Relay};
use pst_case::{CallTime, Run, shape};
use pst_driver::run_timed;
use pst_eval::Plain;
use pst_judge::{Valid, precedes, valid};
use pst_model::Typed;
use pst_runs::read_runs;
use pst_sexpr::read;
use pst_system::BoxedSystem;
use pst_tests::support::{MEETING, typed_model_of_text};
use pst_value::Items;
use std::alloc::Global;
use std::sync::Wait;
use std::test::Fail;
use std::thread::Threads;

/// How often each case is driven.
const DRIVES: u32 = 1_000;

/// The times of the calls of each branch.
type Times = Items<Items<CallTime>>;

/// The times that one drive of a valid case records.
fn recorded_times<R: Threads + Wait>(
    rt: &R,
    alloc: Global,
    typed: &Typed,
    system: &mut BoxedSystem,
    valid: &Valid,
) -> Option<Times>
    requires { valid.now.model ≡ typed.now }
{
    run_timed(rt, alloc, typed, system, valid).ok()?.times
}

/// The times that one drive of the case of a text records.
fn times_of_drive<R: Threads + Wait>(
    rt: &R,
    alloc: Global,
    item: &str,
    system: &mut BoxedSystem,
) -> Option<Times> {
    let typed = typed_model_of_text(alloc, MEETING)?;
    let trees = read(alloc, item.as_bytes()).ok()?;
    let mut runs = read_runs(alloc, &typed, trees.as_slice()).ok()?;
    let Run { shaped, .. } = runs.pop()?;
    let shaped = shape(alloc, &typed, shaped.into_case()).ok()?;
    let valid = valid(&Plain::new(&typed), alloc, shaped).ok()?;
    recorded_times(rt, alloc, &typed, system, &valid)
}

/// The time of a call, by the numbers of its branch and of its place there, from 0.
fn time_of_call(times: &Times, branch: usize, place: usize) -> Option<CallTime> {
    let call = times.as_slice().get(branch)?.as_slice().get(place)?;
    Some(*call)
}

/// Whether the first call of the left branch precedes the second call of the right one, and not the other way.
fn is_left_before_right(times: &Times) -> Option<bool> {
    let left = time_of_call(times, 0, 0)?;
    let right = time_of_call(times, 1, 1)?;
    Some(precedes(left, right) && !precedes(right, left))
}

/// Whether neither of the first calls of the branches precedes the other.
fn do_first_calls_overlap(times: &Times) -> Option<bool> {
    let left = time_of_call(times, 0, 0)?;
    let right = time_of_call(times, 1, 0)?;
    Some(!precedes(left, right) && !precedes(right, left))
}

/// A call that begins after another was answered, in another branch, has a later time.
#[test]
fn separate_calls_are_in_order(rt: HostRuntime) -> Result<(), Fail> {
    let alloc = rt.alloc();
    let mut relay: BoxedSystem = Box::new(alloc, Relay::new())?;
    let item = "(case (prefix) (left (meet 1) (meet 2)) (right (meet 3) (meet 1)))";
    let mut in_order = 0u32;
    for _ in 0..DRIVES {
        if let Some(times) = times_of_drive(&rt, alloc, item, &mut relay) {
            if is_left_before_right(&times) == Some(true) {
                in_order = in_order.saturating_add(1);
            }
        }
    }
    assert_eq!(rt; in_order, DRIVES);
    Ok(())
}

/// Two calls that wait for each other have times that overlap.
#[test]
fn calls_that_meet_overlap(rt: HostRuntime) -> Result<(), Fail> {
    let alloc = rt.alloc();
    let mut flags: BoxedSystem = Box::new(alloc, MeetingFlags::new(true, 10_000_000))?;
    let item = "(case (prefix) (left (meet 1)) (right (meet 2)))";
    let mut overlapping = 0u32;
    for _ in 0..DRIVES {
        if let Some(times) = times_of_drive(&rt, alloc, item, &mut flags) {
            if do_first_calls_overlap(&times) == Some(true) {
                overlapping = overlapping.saturating_add(1);
            }
        }
    }
    assert_eq!(rt; overlapping, DRIVES);
    Ok(())
}
