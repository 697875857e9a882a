//! Results of trials, reports and campaigns on the system `stuck`.
ghost use Rattle.std.specs.Prelude.{◌≡◌, length};
ghost use Rattle.pst_report.specs.InOrder.{AreOf};

use crate::memory::reading::{Refused, text_of_bytes_or_refusal};
use pst_campaign::{CampaignFault, Unwatched, campaign};
use pst_ledger::{Closed, Entry};
use pst_report::report;
use pst_samples::Stuck;
use pst_sexpr::Out;
use pst_system::BoxedSystem;
use pst_tests::support::ONE;
use pst_trial::{Plan, Record, Settings, TrialFault, trial};
use pst_typing::load;
use std::alloc::{AllocError, Global};
use std::sync::{Arc, Wait};
use std::thread::Threads;

/// The settings of trials of one command, each of whose cases is driven once.
pub fn settings_for_trials_of_one_command(trials: u32) -> Settings {
    Settings {
        seed: 7,
        trials,
        commands: 1,
        repeats: 1,
        ..Settings::default()
    }
}

/// The plan of trials with [`settings_for_trials_of_one_command`].
pub fn plan_for_trials_of_one_command(alloc: Global, trials: u32) -> Result<Arc<Plan>, Refused> {
    let settings = settings_for_trials_of_one_command(trials);
    if !settings.are_in_range() {
        return Err(Refused::Otherwise("settings out of range"));
    }
    let Ok(file) = load(alloc, ONE.as_bytes())? else {
        return Err(Refused::Otherwise("no model"));
    };
    match Plan::new(alloc, file.typed, settings) {
        Ok(plan) => Ok(Arc::new(alloc, plan)?),
        Err(_) => Err(Refused::NoMemory),
    }
}

/// Returns the record as text.
fn debug_text_of_record_outcome(alloc: Global, record: &Record) -> Result<String, AllocError> {
    let outcome = record.outcome();
    format!(in alloc; "{outcome:?}")
}

/// The record of the first trial of a plan.
fn run_first_trial_on_stuck_system<R: Threads + Wait>(
    rt: &R,
    alloc: Global,
    plan: &Arc<Plan>,
) -> Result<Record, Refused> {
    let mut stuck: BoxedSystem = Box::new(alloc, Stuck)?;
    match trial(rt, alloc, plan, 0, &mut stuck) {
        Ok(record) => Ok(record),
        Err(TrialFault::NoMemory | TrialFault::NoThread) => Err(Refused::NoMemory),
        Err(TrialFault::ResetFailed) => Err(Refused::Otherwise("ResetFailed")),
    }
}

/// Runs `trial` and returns the record of the first trial.
pub fn outcome_text_of_trial_on_stuck_system<R: Threads + Wait>(
    rt: &R,
    alloc: Global,
) -> Result<String, Refused> {
    let record = run_first_trial_on_stuck_system(
        rt,
        alloc,
        &plan_for_trials_of_one_command(alloc, 3)?,
    )?;
    Ok(debug_text_of_record_outcome(alloc, &record)?)
}

/// Returns whether each trial has a record.
fn has_record_for_each_trial(entries: &[Entry<Record>]) -> bool {
    for entry in entries {
        if !matches!(entry, Entry::Done(_)) {
            return false;
        }
    }
    true
}

/// Returns the report of the campaign, if each trial has a record.
fn report_if_all_trials_are_done(
    alloc: Global,
    plan: &Plan,
    closed: &Closed<Record>,
) -> Result<String, Refused>
    requires trials { length closed.now ≡ plan.now.settings.trials }
    requires records { AreOf plan.now 0 closed.now }
{
    if !has_record_for_each_trial(closed.entries()) {
        return Err(Refused::NoMemory);
    }
    let mut out = Out::new(Vec::new(alloc));
    match report(alloc, plan, closed, &mut out) {
        Ok(()) => text_of_bytes_or_refusal(alloc, out.into_inner().as_slice()),
        Err(_) => Err(Refused::NoMemory),
    }
}

/// Runs a campaign and returns its report.
fn run_campaign_and_return_report<R: Threads + Wait + Sync>(
    rt: &R,
    alloc: Global,
    plan: Arc<Plan>,
    systems: Vec<BoxedSystem>,
) -> Result<String, Refused> {
    match campaign(rt, alloc, plan.clone()?, systems, &Unwatched) {
        Ok(closed) => report_if_all_trials_are_done(alloc, &plan, &closed),
        Err(_) => Err(Refused::NoMemory),
    }
}

/// Runs a campaign of one worker and returns its `report`.
pub fn campaign_report_on_stuck_system<R: Threads + Wait + Sync>(
    rt: &R,
    alloc: Global,
) -> Result<String, Refused> {
    let mut systems: Vec<BoxedSystem> = Vec::new(alloc);
    systems.push(Box::new(alloc, Stuck)?)?;
    run_campaign_and_return_report(
        rt,
        alloc,
        plan_for_trials_of_one_command(alloc, 3)?,
        systems,
    )
}

/// Returns the record of a trial, or why it was lost.
fn trial_outcome_or_loss_text(alloc: Global, entry: &Entry<Record>) -> Result<String, AllocError> {
    match entry {
        Entry::Done(record) => debug_text_of_record_outcome(alloc, record),
        Entry::Lost(cause) => format!(in alloc; "lost {cause:?}"),
        Entry::Held | Entry::Undrawn => String::from_str(alloc, "open"),
    }
}

/// Returns a line for each trial.
fn lines_of_trial_outcomes(alloc: Global, entries: &[Entry<Record>]) -> Result<String, AllocError> {
    let mut text = String::new(alloc);
    for entry in entries {
        let line = trial_outcome_or_loss_text(alloc, entry)?;
        text.push_str(line.as_str())?;
        text.push_str("\n")?;
    }
    Ok(text)
}

/// Runs a campaign and returns a line for each trial.
fn run_campaign_and_list_trial_outcomes<R: Threads + Wait + Sync>(
    rt: &R,
    alloc: Global,
    plan: Arc<Plan>,
    systems: Vec<BoxedSystem>,
) -> Result<String, Refused> {
    match campaign(rt, alloc, plan, systems, &Unwatched) {
        Ok(closed) => Ok(lines_of_trial_outcomes(alloc, closed.entries())?),
        Err(CampaignFault::NoMemory) => Err(Refused::NoMemory),
        Err(fault) => Err(Refused::Otherwise(fault.name())),
    }
}

/// Runs `campaign` with `workers` workers and returns a line for each trial.
pub fn trial_outcome_lines_on_stuck_systems<R: Threads + Wait + Sync>(
    rt: &R,
    alloc: Global,
    workers: u32,
) -> Result<String, Refused> {
    let mut systems: Vec<BoxedSystem> = Vec::new(alloc);
    for _ in 0..workers {
        systems.push(Box::new(alloc, Stuck)?)?;
    }
    run_campaign_and_list_trial_outcomes(
        rt,
        alloc,
        plan_for_trials_of_one_command(alloc, 3)?,
        systems,
    )
}
