//! Plans that the tests start from, and single trials that pass, that generate no case, and that a reset ends.

use pst_eval::Callback;
use pst_samples::Counter;
use pst_system::BoxedSystem;
use pst_tests::support::{COUNTER, LimitedResets, ONE, TOP, typed_model_of_text};
use pst_trial::{Plan, Record, Settings, TrialFault, TrialOutcome, trial};
use std::alloc::Global;
use std::sync::{Arc, Wait};
use std::test::Fail;
use std::thread::Threads;

/// The settings of a script of one command, whose case is driven once.
pub(crate) fn settings_of_one_command_driven_once() -> Settings {
    Settings {
        commands: 1,
        repeats: 1,
        ..Settings::default()
    }
}

/// The plan of a model's text, if the settings are in their ranges.
pub(crate) fn plan_of_model_text(
    alloc: Global,
    text: &str,
    settings: Settings,
) -> Option<Arc<Plan>> {
    if !settings.are_in_range() {
        return None;
    }
    let plan = Plan::new(alloc, typed_model_of_text(alloc, text)?, settings).ok()?;
    Arc::new(alloc, plan).ok()
}

/// The record of trial `number` of the plan of a model's text, if the settings are in their ranges and the
/// trial has a record.
pub(crate) fn run_trial_of_model_text<R: Threads + Wait>(
    rt: &R,
    alloc: Global,
    text: &str,
    settings: Settings,
    number: u64,
    system: &mut BoxedSystem,
) -> Option<Record> {
    let plan = plan_of_model_text(alloc, text, settings)?;
    trial(rt, alloc, &plan, number, system).ok()
}

/// How many suffix commands and how many runs a trial has, if it passed.
fn suffix_and_run_counts_if_passed(record: &Record) -> Option<(usize, usize)> {
    match record.outcome() {
        TrialOutcome::Passed { case, runs } => Some((case.suffix.len(), runs.len())),
        TrialOutcome::GenFaulted(_) | TrialOutcome::Failed { .. } => None,
    }
}

/// What `suffix_and_run_counts_if_passed` returns for trial 3 of a counter with a suffix of two commands.
fn run_trial_counting_suffix_and_runs<R: Threads + Wait>(
    rt: &R,
    alloc: Global,
    counter: &mut BoxedSystem,
) -> Option<(usize, usize)> {
    let settings = Settings {
        suffix: 2,
        ..Settings::default()
    };
    suffix_and_run_counts_if_passed(&run_trial_of_model_text(
        rt, alloc, COUNTER, settings, 3, counter,
    )?)
}

#[test]
fn a_trial_on_a_counter_passes(rt: HostRuntime) -> Result<(), Fail> {
    let alloc = rt.alloc();
    let mut counter: BoxedSystem = Box::new(alloc, Counter::new(rt))?;
    assert!(rt; run_trial_counting_suffix_and_runs(&rt, alloc, &mut counter) == Some((2, 5)));
    Ok(())
}

/// The trial's number, and the command's number and the callback that faults, if no case is generated.
fn trial_and_place_if_generation_faulted(record: &Record) -> Option<(u64, u32, Callback)> {
    match record.outcome() {
        TrialOutcome::GenFaulted(place) => Some((record.number(), place.command, place.callback)),
        TrialOutcome::Passed { .. } | TrialOutcome::Failed { .. } => None,
    }
}

/// What `trial_and_place_if_generation_faulted` returns for trial 7 of `TOP`, a number that cannot grow.
fn run_trial_for_generation_fault<R: Threads + Wait>(
    rt: &R,
    alloc: Global,
    system: &mut BoxedSystem,
) -> Option<(u64, u32, Callback)> {
    trial_and_place_if_generation_faulted(&run_trial_of_model_text(
        rt,
        alloc,
        TOP,
        Settings::default(),
        7,
        system,
    )?)
}

#[test]
fn a_callback_fault_stops_generation(rt: HostRuntime) -> Result<(), Fail> {
    let alloc = rt.alloc();
    let mut system: BoxedSystem = Box::new(alloc, LimitedResets::new(0))?;
    assert!(rt;
        run_trial_for_generation_fault(&rt, alloc, &mut system) == Some((7, 1, Callback::Next))
    );
    Ok(())
}

/// The fault of trial 0 of a counter without `get`, if there is one.
fn run_first_trial_for_fault<R: Threads + Wait>(
    rt: &R,
    alloc: Global,
    settings: Settings,
    system: &mut BoxedSystem,
) -> Option<TrialFault> {
    let plan = plan_of_model_text(alloc, ONE, settings)?;
    trial(rt, alloc, &plan, 0, system).err()
}

#[test]
fn a_refused_reset_ends_a_trial(rt: HostRuntime) -> Result<(), Fail> {
    let alloc = rt.alloc();
    let mut no_reset: BoxedSystem = Box::new(alloc, LimitedResets::new(0))?;
    let settings = Settings::default();
    assert!(rt;
        run_first_trial_for_fault(&rt, alloc, settings, &mut no_reset)
            == Some(TrialFault::ResetFailed)
    );
    Ok(())
}

// The second reset is that of the first shrink candidate.
#[test]
fn a_refused_second_reset_ends_a_trial(rt: HostRuntime) -> Result<(), Fail> {
    let alloc = rt.alloc();
    let mut second_reset: BoxedSystem = Box::new(alloc, LimitedResets::new(1))?;
    let settings = settings_of_one_command_driven_once();
    assert!(rt;
        run_first_trial_for_fault(&rt, alloc, settings, &mut second_reset)
            == Some(TrialFault::ResetFailed)
    );
    Ok(())
}
