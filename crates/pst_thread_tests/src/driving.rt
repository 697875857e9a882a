//! Cases driven on systems that tests make.
ghost use Rattle.std.specs.Prelude.{◌≡◌};

use crate::test_systems::{CountedOddAnswers, Echo, MeetingFlags};
use pst_case::{Case, History, Run, shape};
use pst_driver::{DriveFault, run};
use pst_eval::Plain;
use pst_judge::{Valid, valid};
use pst_model::Typed;
use pst_runs::read_runs;
use pst_sexpr::read;
use pst_system::BoxedSystem;
use pst_tests::support::{COUNTER, CounterWithoutGet, Liar, MEETING, SAYING, typed_model_of_text};
use std::alloc::Global;
use std::sync::Wait;
use std::test::Fail;
use std::thread::Threads;

/// A model whose operations may answer what they are called with. `values` is called with references, and
/// `other` has a map of another type as its result.
const ECHOING: &str = "(model2 echo (state int) (init 0) (command (list call))
  (op number ((n int)) int (pre true) (next s) (post (= r n)))
  (op table ((m (map text int))) (map text int) (pre true) (next s) (post (= r m)))
  (op values ((hs (map int (ref int)))) (map int int) (pre true) (next s) (post true))
  (op other ((m (map bool int))) (map int int) (pre true) (next s) (post true)))";

fn read_last_run_of_text(alloc: Global, typed: &Typed, item: &str) -> Option<Run> {
    let trees = read(alloc, item.as_bytes()).ok()?;
    let mut runs = read_runs(alloc, typed, trees.as_slice()).ok()?;
    runs.pop()
}

/// Whether a drive of the case on the system has these replies.
fn does_drive_give_wanted_replies<R: Threads + Wait>(
    rt: &R,
    alloc: Global,
    typed: &Typed,
    system: &mut BoxedSystem,
    valid: &Valid,
    wanted: &History,
) -> bool
    requires { valid.now.model ≡ typed.now }
{
    match run(rt, alloc, typed, system, valid) {
        Ok(driven) => driven == *wanted,
        Err(_) => false,
    }
}

/// Whether the case is valid, and a drive of it on the system has these replies.
fn is_valid_and_gives_wanted_replies<R: Threads + Wait>(
    rt: &R,
    alloc: Global,
    typed: &Typed,
    system: &mut BoxedSystem,
    case: Case,
    wanted: &History,
) -> bool {
    let Ok(shaped) = shape(alloc, typed, case) else {
        return false;
    };
    match valid(&Plain::new(typed), alloc, shaped) {
        Ok(valid) => does_drive_give_wanted_replies(rt, alloc, typed, system, &valid, wanted),
        Err(_) => false,
    }
}

/// Whether the case of a run, driven on the system, has the replies of the run. `None` if there is no run.
pub fn has_recorded_replies_when_driven<R: Threads + Wait>(
    rt: &R,
    alloc: Global,
    model: &str,
    item: &str,
    system: &mut BoxedSystem,
) -> Option<bool> {
    let typed = typed_model_of_text(alloc, model)?;
    let Run { shaped, history } = read_last_run_of_text(alloc, &typed, item)?;
    let wanted = history?;
    Some(is_valid_and_gives_wanted_replies(rt, alloc, &typed, system, shaped.into_case(), &wanted))
}

#[test]
fn meet_needs_two_threads(rt: HostRuntime) -> Result<(), Fail> {
    let alloc = rt.alloc();
    let mut flags: BoxedSystem = Box::new(alloc, MeetingFlags::new(true, 10_000_000))?;
    let item = "(run (prefix) (left (meet 1)) (right (meet 2)) (replies () (true) (true)))";
    assert!(rt;
        has_recorded_replies_when_driven(&rt, alloc, MEETING, item, &mut flags) == Some(true)
    );
    Ok(())
}

#[test]
fn three_callers_meet_on_three_threads(rt: HostRuntime) -> Result<(), Fail> {
    let alloc = rt.alloc();
    let mut flags: BoxedSystem = Box::new(alloc, MeetingFlags::new(false, 10_000_000))?;
    let item =
        "(run (prefix) (branches ((meet 1)) ((meet 2)) ((meet 3))) (replies () (true) (true) (true)))";
    assert!(rt;
        has_recorded_replies_when_driven(&rt, alloc, MEETING, item, &mut flags) == Some(true)
    );
    Ok(())
}

#[test]
fn one_caller_alone_never_meets(rt: HostRuntime) -> Result<(), Fail> {
    let alloc = rt.alloc();
    let mut flags: BoxedSystem = Box::new(alloc, MeetingFlags::new(true, 1_000))?;
    let item = "(run (prefix (meet 1)) (left) (right) (replies (false) () ()))";
    assert!(rt;
        has_recorded_replies_when_driven(&rt, alloc, MEETING, item, &mut flags) == Some(true)
    );
    Ok(())
}

#[test]
fn wrong_typed_answers_are_misfits(rt: HostRuntime) -> Result<(), Fail> {
    let alloc = rt.alloc();
    let mut liar: BoxedSystem = Box::new(alloc, Liar)?;
    let item =
        "(run (prefix (inc) (get)) (left (get)) (right) (replies (misfit not-run) (not-run) ()))";
    assert!(rt;
        has_recorded_replies_when_driven(&rt, alloc, COUNTER, item, &mut liar) == Some(true)
    );
    Ok(())
}

#[test]
fn no_suffix_runs_after_a_misfit(rt: HostRuntime) -> Result<(), Fail> {
    let alloc = rt.alloc();
    let mut liar: BoxedSystem = Box::new(alloc, Liar)?;
    let item =
        "(run (prefix) (left (inc)) (right) (suffix (get)) (replies () (misfit) () (not-run)))";
    assert!(rt;
        has_recorded_replies_when_driven(&rt, alloc, COUNTER, item, &mut liar) == Some(true)
    );
    Ok(())
}

#[test]
fn a_refused_call_ends_its_branch(rt: HostRuntime) -> Result<(), Fail> {
    let alloc = rt.alloc();
    let mut no_get: BoxedSystem = Box::new(alloc, CounterWithoutGet::new())?;
    let item =
        "(run (prefix (inc)) (left (get) (inc)) (right (inc)) (replies (1) (failed not-run) (2)))";
    // driven twice, since each drive resets the system
    for _ in 0..2u8 {
        assert!(rt;
            has_recorded_replies_when_driven(&rt, alloc, COUNTER, item, &mut no_get) == Some(true)
        );
    }
    Ok(())
}

#[test]
fn answers_of_no_type_are_misfits(rt: HostRuntime) -> Result<(), Fail> {
    let alloc = rt.alloc();
    let mut odd: BoxedSystem = Box::new(alloc, CountedOddAnswers::new(alloc))?;
    let item = "(run (prefix (inc)) (left) (right) (replies (misfit) () ()))";
    for model in [COUNTER, COUNTER, SAYING] {
        assert!(rt;
            has_recorded_replies_when_driven(&rt, alloc, model, item, &mut odd) == Some(true)
        );
    }
    Ok(())
}

/// Arguments are plain also inside of maps, and a map of another type is a misfit.
#[test]
fn variables_in_driven_maps_are_replaced(rt: HostRuntime) -> Result<(), Fail> {
    let alloc = rt.alloc();
    let mut echo: BoxedSystem = Box::new(alloc, Echo::new(alloc))?;
    let item = "(run (prefix (number 7) (number 9) (values (map (1 $2) (2 $1))))
      (left (table (map (\"a\" 1) (\"b\" 2)))) (right (other (map (true 1))))
      (replies (7 9 (map (1 9) (2 7))) ((map (\"a\" 1) (\"b\" 2))) (misfit)))";
    assert!(rt;
        has_recorded_replies_when_driven(&rt, alloc, ECHOING, item, &mut echo) == Some(true)
    );
    Ok(())
}

/// A variable in a branch is the result of the branch's own command, whose number follows those of the other
/// branch.
#[test]
fn a_branch_uses_its_own_results(rt: HostRuntime) -> Result<(), Fail> {
    let alloc = rt.alloc();
    let mut echo: BoxedSystem = Box::new(alloc, Echo::new(alloc))?;
    let item = "(run (prefix) (left (number 5)) (right (number 7) (values (map (1 $2))))
      (replies () (5) (7 (map (1 7)))))";
    assert!(rt;
        has_recorded_replies_when_driven(&rt, alloc, ECHOING, item, &mut echo) == Some(true)
    );
    Ok(())
}

#[test]
fn drive_faults_have_names(rt: HostRuntime) -> Result<(), Fail> {
    let alloc = rt.alloc();
    assert_eq!(rt; DriveFault::NoThread.name(), "NoThread");
    let text = format!(in alloc; "{}", DriveFault::ResetFailed)?;
    assert_eq!(rt; text.as_str(), "the reset failed");
    Ok(())
}
