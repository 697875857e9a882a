//! What `pst run` writes of cases that are driven on the sample systems.

use pst_cli::{Absence, Status, is_known_system, refuse_text, run_text};
use pst_samples::{Counter, Meet, Queue, Registry, Stuck};
use pst_sexpr::Out;
use pst_system::BoxedSystem;
use pst_tests::support::{COUNTER, MEETING, REGISTRY};
use std::alloc::{AllocError, Global};
use std::sync::Wait;
use std::test::Fail;
use std::thread::Threads;

/// A queue of integers.
const QUEUE: &str = "(model q (state (list int)) (init (list int))
  (command (list call (call put 1) (call take)))
  (op put ((x int)) bool (pre true) (next (++ s (list int x))) (post r))
  (op take () (list int) (pre true)
    (next (for ((in i (range 1 (len s)))) (nth s i)))
    (post (= r (if (= (len s) 0) s (list int (nth s 0)))))))";

/// A model, an item, and the status and the text of `pst run` for them.
type Row = (&'static str, &'static str, Status, &'static str);

/// The status and the text of `pst run` for a model and an item on the system.
fn status_and_output_of_run_subcommand<R: Threads + Wait>(
    rt: &R,
    alloc: Global,
    system: &mut BoxedSystem,
    model: &str,
    item: &str,
) -> Result<(Status, Vec<u8>), AllocError> {
    let text = format!(in alloc; "{model}\n{item}")?;
    let mut out = Out::new(Vec::new(alloc));
    let status = run_text(rt, alloc, text.as_bytes(), system, &mut out);
    Ok((status, out.into_inner()))
}

/// How many rows have another status or text of `pst run` on the system.
fn count_rows_with_unexpected_output<R: Threads + Wait>(
    rt: &R,
    alloc: Global,
    system: &mut BoxedSystem,
    rows: &[Row],
) -> Result<usize, AllocError> {
    let mut missed: usize = 0;
    for (model, item, status, text) in rows {
        let (answer, bytes) = status_and_output_of_run_subcommand(rt, alloc, system, model, item)?;
        if answer != *status || bytes.as_slice() != text.as_bytes() {
            missed = missed.saturating_add(1);
        }
    }
    Ok(missed)
}

#[test]
fn driven_counters_give_expected_output(rt: HostRuntime) -> Result<(), Fail> {
    let alloc = rt.alloc();
    let mut counter: BoxedSystem = Box::new(alloc, Counter::new(rt))?;
    let rows = [
        (
            COUNTER,
            "(case (prefix (inc) (inc)) (left (get)) (right))",
            Status::Accepted,
            "(run (prefix (inc) (inc)) (left (get)) (right) (replies (1 2) (2) ()))\n1 explained L\n",
        ),
        (
            MEETING,
            "(case (prefix) (left (meet 1)) (right))",
            Status::Failed,
            "(run (prefix) (left (meet 1)) (right) (replies () (failed) ()))\n1 broken 1\n",
        ),
    ];
    assert!(rt; count_rows_with_unexpected_output(&rt, alloc, &mut counter, &rows)? == 0);
    Ok(())
}

#[test]
fn a_driven_stuck_counter_is_unexplained(rt: HostRuntime) -> Result<(), Fail> {
    let alloc = rt.alloc();
    let mut stuck: BoxedSystem = Box::new(alloc, Stuck)?;
    let rows = [(
        COUNTER,
        "(case (prefix (inc)) (left) (right))",
        Status::Failed,
        "(run (prefix (inc)) (left) (right) (replies (0) () ()))\n1 unexplained far 0\n",
    )];
    assert!(rt; count_rows_with_unexpected_output(&rt, alloc, &mut stuck, &rows)? == 0);
    Ok(())
}

#[test]
fn driven_registries_give_expected_output(rt: HostRuntime) -> Result<(), Fail> {
    let alloc = rt.alloc();
    let mut registry: BoxedSystem = Box::new(alloc, Registry::new(rt, alloc))?;
    let rows = [
        (
            REGISTRY,
            "(case (prefix (new)) (left (close $1)) (right (new)))",
            Status::Accepted,
            "(run (prefix (new)) (left (close $1)) (right (new)) (replies (0) (true) (1)))\n1 explained LR\n",
        ),
        (
            REGISTRY,
            "(case (prefix (new)) (left (close $1)) (right (close $1)))",
            Status::Failed,
            "1 prefalse 3 merge LR\n",
        ),
        // A reset closes what the first case opened.
        (
            REGISTRY,
            "(case (prefix (new)) (left) (right))",
            Status::Accepted,
            "(run (prefix (new)) (left) (right) (replies (0) () ()))\n1 explained -\n",
        ),
    ];
    assert!(rt; count_rows_with_unexpected_output(&rt, alloc, &mut registry, &rows)? == 0);
    Ok(())
}

#[test]
fn driven_queues_give_expected_output(rt: HostRuntime) -> Result<(), Fail> {
    let alloc = rt.alloc();
    let mut queue: BoxedSystem = Box::new(alloc, Queue::new(rt, alloc))?;
    let rows = [
        (
            QUEUE,
            "(case (prefix (put 5) (put 6)) (left (take)) (right))",
            Status::Accepted,
            "(run (prefix (put 5) (put 6)) (left (take)) (right) (replies (true true) ((list 5)) ()))\n1 explained L\n",
        ),
        // A reset takes what the first case left, and an empty queue answers the empty list.
        (
            QUEUE,
            "(case (prefix (take)) (left) (right))",
            Status::Accepted,
            "(run (prefix (take)) (left) (right) (replies ((list)) () ()))\n1 explained -\n",
        ),
    ];
    assert!(rt; count_rows_with_unexpected_output(&rt, alloc, &mut queue, &rows)? == 0);
    Ok(())
}

#[test]
fn driven_meet_system_gives_expected_output(rt: HostRuntime) -> Result<(), Fail> {
    let alloc = rt.alloc();
    let mut meet: BoxedSystem = Box::new(alloc, Meet::new())?;
    let rows = [
        (
            MEETING,
            "(case (prefix) (left (meet 1)) (right (meet 2)))",
            Status::Accepted,
            "(run (prefix) (left (meet 1)) (right (meet 2)) (replies () (true) (true)))\n1 explained LR\n",
        ),
        // A reset lowers the flags that the first case raised.
        (
            MEETING,
            "(case (prefix) (left (meet 1)) (right))",
            Status::Failed,
            "(run (prefix) (left (meet 1)) (right) (replies () (false) ()))\n1 unexplained far 0\n",
        ),
    ];
    assert!(rt; count_rows_with_unexpected_output(&rt, alloc, &mut meet, &rows)? == 0);
    Ok(())
}

#[test]
fn unknown_systems_are_refused(rt: HostRuntime) {
    assert!(rt; is_known_system("meet") && !is_known_system("none"));
    let mut out = Out::new(Vec::new(rt.alloc()));
    assert_eq!(rt;
        refuse_text(Absence::NoSystem("none"), &mut out),
        Status::Refused
    );
    assert_eq!(rt;
        out.into_inner().as_slice(),
        b"refused system none\n".as_slice()
    );
}
