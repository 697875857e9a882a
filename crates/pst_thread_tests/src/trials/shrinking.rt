//! Trials whose case is shrunk.

use crate::trials::plans::{
    plan_of_model_text, run_trial_of_model_text, settings_of_one_command_driven_once,
};
use pst_case::Case;
use pst_eval::Plain;
use pst_gen::valid_case_if_accepted;
use pst_model::Typed;
use pst_samples::{Racy, Stuck};
use pst_shrink::ShrinkEnd;
use pst_system::BoxedSystem;
use pst_tests::support::{COUNTER, ONE};
use pst_trial::{Plan, Record, Settings, TrialOutcome, trial};
use std::alloc::{AllocError, Global};
use std::sync::{Arc, Wait};
use std::test::Fail;
use std::thread::Threads;

/// How many cases were taken while the case of a trial was shrunk, how that ended, and how many commands the
/// last case has in its suffix.
fn shrink_counts_and_ending_if_failed(record: &Record) -> Option<(usize, ShrinkEnd, usize)> {
    match record.outcome() {
        TrialOutcome::Failed { shrunk, .. } => Some((
            shrunk.before.len(),
            shrunk.ending,
            shrunk.last.case.suffix.len(),
        )),
        TrialOutcome::GenFaulted(_) | TrialOutcome::Passed { .. } => None,
    }
}

/// How the case of trial 0 of a counter without `get` is shrunk, on the system that answers 0.
fn run_first_trial_for_shrink_counts<R: Threads + Wait>(
    rt: &R,
    alloc: Global,
    settings: Settings,
    stuck: &mut BoxedSystem,
) -> Option<(usize, ShrinkEnd, usize)> {
    shrink_counts_and_ending_if_failed(&run_trial_of_model_text(
        rt, alloc, ONE, settings, 0, stuck,
    )?)
}

#[test]
fn the_limit_stops_shrinking(rt: HostRuntime) -> Result<(), Fail> {
    let alloc = rt.alloc();
    let mut stuck: BoxedSystem = Box::new(alloc, Stuck)?;
    let rows = [
        (0, 0, ShrinkEnd::Stopped),
        (1, 0, ShrinkEnd::Stopped),
        (2, 1, ShrinkEnd::Stopped),
        (3, 1, ShrinkEnd::Minimal),
    ];
    for branches in [2, 3] {
        for (limit, steps, ending) in rows {
            let settings = Settings {
                branches,
                limit,
                ..settings_of_one_command_driven_once()
            };
            let expected = Some((steps, ending, 0));
            assert!(rt;
                run_first_trial_for_shrink_counts(&rt, alloc, settings, &mut stuck) == expected
            );
        }
    }
    Ok(())
}

#[test]
fn shrinking_keeps_a_suffix_command(rt: HostRuntime) -> Result<(), Fail> {
    let alloc = rt.alloc();
    let mut stuck: BoxedSystem = Box::new(alloc, Stuck)?;
    // of two commands in branches and one in the suffix the last stays
    let settings = Settings {
        commands: 3,
        suffix: 1,
        ..Settings::default()
    };
    let expected = Some((2, ShrinkEnd::Minimal, 1));
    assert!(rt; run_first_trial_for_shrink_counts(&rt, alloc, settings, &mut stuck) == expected);
    Ok(())
}

/// How many commands the case has.
fn count_commands_of_case(case: &Case) -> usize {
    let mut size = case.prefix.len().saturating_add(case.suffix.len());
    for branch in case.branches.as_slice() {
        size = size.saturating_add(branch.len());
    }
    size
}

/// Whether the case has the shape of the model and is valid by it.
fn is_case_accepted(alloc: Global, typed: &Typed, case: &Case) -> Result<bool, AllocError> {
    let accepted = valid_case_if_accepted(&Plain::new(typed), alloc, typed, case.copy(alloc)?)?;
    Ok(accepted.is_some())
}

/// The sizes of the first case and the last of a trial that fails, and whether the last case is still accepted.
fn case_sizes_and_validity_if_failed(
    alloc: Global,
    typed: &Typed,
    record: &Record,
) -> Option<(usize, usize, bool)> {
    let TrialOutcome::Failed { shrunk, .. } = record.outcome() else {
        return None;
    };
    let last = &shrunk.last.case;
    let first = match shrunk.before.as_slice().first() {
        Some(taken) => count_commands_of_case(&taken.case),
        None => count_commands_of_case(last),
    };
    let accepted = is_case_accepted(alloc, typed, last).ok()?;
    Some((first, count_commands_of_case(last), accepted))
}

/// What `case_sizes_and_validity_if_failed` returns for trial `number` of a plan.
fn run_trial_for_sizes_and_validity<R: Threads + Wait>(
    rt: &R,
    alloc: Global,
    plan: &Arc<Plan>,
    number: u64,
    system: &mut BoxedSystem,
) -> Option<(usize, usize, bool)> {
    let record = trial(rt, alloc, plan, number, system).ok()?;
    case_sizes_and_validity_if_failed(alloc, plan.typed(), &record)
}

/// What `case_sizes_and_validity_if_failed` returns for the first trial that fails.
fn run_trials_until_failure_for_sizes<R: Threads + Wait>(
    rt: &R,
    alloc: Global,
    system: &mut BoxedSystem,
) -> Option<(usize, usize, bool)> {
    let settings = Settings {
        repeats: 20,
        ..Settings::default()
    };
    let plan = plan_of_model_text(alloc, COUNTER, settings)?;
    for number in 0..100 {
        let failure = run_trial_for_sizes_and_validity(rt, alloc, &plan, number, system);
        if failure.is_some() {
            return failure;
        }
    }
    None
}

#[test]
fn trials_find_and_shrink_a_race(rt: HostRuntime) -> Result<(), Fail> {
    let alloc = rt.alloc();
    let mut racy: BoxedSystem = Box::new(alloc, Racy::new())?;
    let failure = run_trials_until_failure_for_sizes(&rt, alloc, &mut racy);
    let Some((first, last, accepted)) = failure else {
        return Err(Fail::new("no trial found the race"));
    };
    // how small the last case is depends on when its threads run
    assert!(rt; accepted && last <= first, "{last} commands of {first}");
    Ok(())
}

/// What `case_sizes_and_validity_if_failed` returns for trial 0 of a counter on the system that answers 0, so that every
/// `inc` is wrong.
fn run_first_counter_trial_for_sizes<R: Threads + Wait>(
    rt: &R,
    alloc: Global,
    settings: Settings,
    stuck: &mut BoxedSystem,
) -> Option<(usize, usize, bool)> {
    let plan = plan_of_model_text(alloc, COUNTER, settings)?;
    run_trial_for_sizes_and_validity(rt, alloc, &plan, 0, stuck)
}

#[test]
fn shrinking_leaves_one_command(rt: HostRuntime) -> Result<(), Fail> {
    let alloc = rt.alloc();
    let mut stuck: BoxedSystem = Box::new(alloc, Stuck)?;
    for (commands, first) in [(8, 8), (16, 16)] {
        let settings = Settings {
            commands,
            ..Settings::default()
        };
        let expected = Some((first, 1, true));
        assert!(rt;
            run_first_counter_trial_for_sizes(&rt, alloc, settings, &mut stuck) == expected
        );
    }
    Ok(())
}
