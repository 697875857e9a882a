//! Campaigns: one worker at a ledger, and campaigns that end before all their trials have run.
ghost use Rattle.std.specs.Prelude.{◌≡◌, None};
ghost use Rattle.std.specs.Arc.{arc_value};

use crate::trials::plans::plan_of_model_text;
use pst_campaign::{
    EarlyStop, NoSignal, Signal, StopCondition, campaign_until, run_trials_until_none_is_left,
};
use pst_ledger::{Cause, Closed, Entry, Ledger};
use pst_samples::{Flags, Pair, Side, Stuck};
use pst_system::BoxedSystem;
use pst_tests::support::{COUNTER, LimitedResets, ONE};
use pst_trial::{Plan, Record, Settings, TrialOutcome, prove_records_are_send_and_sync, trial};
use std::alloc::Global;
use std::sync::{Arc, Wait};
use std::test::Fail;
use std::thread::Threads;

/// A plan of twelve trials, each driven once.
fn plan_of_twelve_trials(alloc: Global) -> Option<Arc<Plan>> {
    let settings = Settings {
        trials: 12,
        commands: 3,
        repeats: 1,
        ..Settings::default()
    };
    plan_of_model_text(alloc, ONE, settings)
}

/// What became of the trials of a plan when one worker has done them all on a system.
fn run_all_trials_by_one_worker<R: Threads + Wait + Sync>(
    rt: &R,
    alloc: Global,
    plan: &Arc<Plan>,
    mut system: BoxedSystem,
) -> Option<Closed<Record>> {
    prove_records_are_send_and_sync();
    let trials = plan.settings().trials as u64;
    let (ledger, mut seats) = Ledger::<Record>::open(alloc, trials, 1).ok()?;
    let mut seat = seats.pop()?;
    run_trials_until_none_is_left(rt, alloc, plan, &ledger, &mut seat, &mut system);
    seats.push(seat).ok()?;
    ledger.close(seats).ok()
}

/// The outcome of the trial of the number alone on the system that answers 0, as text.
fn outcome_of_trial_alone<R: Threads + Wait>(
    rt: &R,
    alloc: Global,
    plan: &Arc<Plan>,
    number: u64,
) -> Option<String> {
    let mut stuck: BoxedSystem = Box::new(alloc, Stuck).ok()?;
    let alone = trial(rt, alloc, plan, number, &mut stuck).ok()?;
    format!(in alloc; "{:?}", alone.outcome()).ok()
}

/// Whether an entry is the record of the number, with the outcome of its trial alone on the system that answers 0.
fn is_record_same_when_run_alone<R: Threads + Wait>(
    rt: &R,
    alloc: Global,
    plan: &Arc<Plan>,
    number: u64,
    entry: &Entry<Record>,
) -> Option<bool> {
    let Entry::Done(record) = entry else {
        return Some(false);
    };
    let wanted = outcome_of_trial_alone(rt, alloc, plan, number)?;
    let outcome = format!(in alloc; "{:?}", record.outcome()).ok()?;
    Some(record.number() == number && outcome.as_str() == wanted.as_str())
}

/// How many of the twelve entries are such records, when the worker has the system that answers 0.
fn run_worker_and_count_right_records<R: Threads + Wait + Sync>(
    rt: &R,
    alloc: Global,
) -> Option<usize> {
    let plan = plan_of_twelve_trials(alloc)?;
    let stuck: BoxedSystem = Box::new(alloc, Stuck).ok()?;
    let closed = run_all_trials_by_one_worker(rt, alloc, &plan, stuck)?;
    let mut count: usize = 0;
    for (number, entry) in closed.entries().iter().enumerate() {
        if is_record_same_when_run_alone(rt, alloc, &plan, number as u64, entry)? {
            count = count.saturating_add(1);
        }
    }
    Some(count)
}

#[test]
fn a_worker_deposits_each_record(rt: HostRuntime) -> Result<(), Fail> {
    assert_eq!(rt;
        run_worker_and_count_right_records(&rt, rt.alloc()),
        Some(12)
    );
    Ok(())
}

/// How many of the twelve entries are lost for a refused reset, when the worker has a system that refuses every reset.
fn run_trials_without_resets_counting_lost<R: Threads + Wait + Sync>(
    rt: &R,
    alloc: Global,
) -> Option<usize> {
    let plan = plan_of_twelve_trials(alloc)?;
    let closed = run_all_trials_by_one_worker(
        rt,
        alloc,
        &plan,
        Box::new(alloc, LimitedResets::new(0)).ok()?,
    )?;
    let entries = closed.entries().iter();
    Some(
        entries
            .filter(|entry| matches!(entry, Entry::Lost(Cause::ResetFailed)))
            .count(),
    )
}

#[test]
fn trials_without_resets_are_lost(rt: HostRuntime) -> Result<(), Fail> {
    assert_eq!(rt;
        run_trials_without_resets_counting_lost(&rt, rt.alloc()),
        Some(12)
    );
    Ok(())
}

/// How many of twenty numbers have a record, and how many are undrawn, after a campaign with one worker on the system that
/// answers 0: each case with a call fails there.
fn run_campaign_counting_done_and_undrawn<K: StopCondition + Sync, R: Threads + Wait + Sync>(
    rt: &R,
    alloc: Global,
    ending: &K,
) -> Option<(usize, usize)> {
    let settings = Settings {
        trials: 20,
        limit: 10,
        repeats: 1,
        ..Settings::default()
    };
    let plan = plan_of_model_text(alloc, COUNTER, settings)?;
    let stuck: BoxedSystem = Box::new(alloc, Stuck).ok()?;
    let mut systems = Vec::new(alloc);
    systems.push(stuck).ok()?;
    let closed = campaign_until(rt, alloc, plan, systems, ending).ok()?;
    let entries = closed.entries();
    let done = entries
        .iter()
        .filter(|entry| matches!(entry, Entry::Done(_)))
        .count();
    let undrawn = entries
        .iter()
        .filter(|entry| matches!(entry, Entry::Undrawn))
        .count();
    Some((done, undrawn))
}

#[test]
fn a_campaign_ends_with_its_third_failure(rt: HostRuntime) -> Result<(), Fail> {
    let ending = EarlyStop::new(Some(3), NoSignal);
    assert_eq!(rt;
        run_campaign_counting_done_and_undrawn(&rt, rt.alloc(), &ending),
        Some((3, 17))
    );
    Ok(())
}

#[test]
fn a_campaign_without_a_limit_runs_all_trials(rt: HostRuntime) -> Result<(), Fail> {
    let ending = EarlyStop::new(None, NoSignal);
    assert_eq!(rt;
        run_campaign_counting_done_and_undrawn(&rt, rt.alloc(), &ending),
        Some((20, 0))
    );
    Ok(())
}

/// A signal before the first trial.
#[derive(Clone, Copy, Drop)]
struct GivenSignal;

impl Signal for GivenSignal {
    ghost use Rattle.std.specs.Prelude.{⊤};

    ghost may_be_given = { λ _. ⊤ };

    fn is_given(&self) -> bool {
        true
    }
}

#[test]
fn an_interrupted_campaign_draws_no_number(rt: HostRuntime) -> Result<(), Fail> {
    assert_eq!(rt;
        run_campaign_counting_done_and_undrawn(&rt, rt.alloc(), &EarlyStop::new(None, GivenSignal)),
        Some((0, 20))
    );
    Ok(())
}

/// A model of one call, whose answer has to be true.
const MEETING: &str = "(model meet (state int) (init 0) (command (list call (call meet 1)))
  (op meet ((n int)) bool (pre true) (next s) (post r)))";

/// How many of these trials passed.
fn count_passed(entries: &[Entry<Record>]) -> usize {
    let mut count: usize = 0;
    for entry in entries {
        if let Entry::Done(record) = entry {
            if matches!(record.outcome(), TrialOutcome::Passed { .. }) {
                count = count.saturating_add(1);
            }
        }
    }
    count
}

/// How many trials pass of a campaign of two trials, a call in each, with a system for each of two workers. A call of one
/// system is true if the other is called before it ends.
fn count_passed_of_two_that_meet<R: Threads + Wait + Sync>(rt: &R, alloc: Global) -> Option<usize> {
    let settings = Settings {
        trials: 2,
        commands: 1,
        repeats: 1,
        ..Settings::default()
    };
    let plan = plan_of_model_text(alloc, MEETING, settings)?;
    let flags = Arc::new(alloc, Flags::new()).ok()?;
    let same = flags.clone().ok()?;
    let first: BoxedSystem = Box::new(alloc, Pair::new(Side::First, flags)).ok()?;
    let second: BoxedSystem = Box::new(alloc, Pair::new(Side::Second, same)).ok()?;
    let mut systems = Vec::new(alloc);
    systems.push(first).ok()?;
    systems.push(second).ok()?;
    let ending = EarlyStop::new(None, NoSignal);
    let closed = campaign_until(rt, alloc, plan, systems, &ending).ok()?;
    Some(count_passed(closed.entries()))
}

#[test]
fn campaign_needs_two_workers(rt: HostRuntime) -> Result<(), Fail> {
    assert_eq!(rt; count_passed_of_two_that_meet(&rt, rt.alloc()), Some(2));
    Ok(())
}
