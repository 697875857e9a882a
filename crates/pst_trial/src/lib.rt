//! Trials: each generates a case of a plan, drives it on a system, judges the histories, and shrinks the case
//! if a history is not explained.
//!
//! A trial returns a `Record`, which is sound by its data alone: the case is the one generated from the plan's
//! seed and the trial's number, each verdict is that of its history, and each case that shrinking took is a
//! valid candidate of the one before.
#![tactic(auto)]

mod attempts;
mod driver;
mod plan;
mod record;
mod sharing;
mod shrinking;
mod threads;
mod trials;

pub use plan::{
    MAX_BRANCHES, MAX_COMMANDS, MAX_LIMIT, MAX_REPEATS, MAX_SUFFIX, MAX_TRIALS, Plan, Settings,
};
pub use pst_driver::DriveFault as TrialFault;
pub use pst_judge::CallOrder;
pub use pst_shrink::FailingCase;
pub use record::{JudgedRun, Record, TrialOutcome};
pub use sharing::prove_records_are_send_and_sync;
pub use shrinking::ShrinkProgress;
pub use threads::{run_trial_with_crew, run_trial_with_progress, trial};
pub use trials::generate_trial_case;
