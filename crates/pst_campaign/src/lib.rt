//! Campaigns: workers that run the trials of a plan, each with a system and a thread of its own, and share one ledger.
#![tactic(auto)]

mod campaigns;
mod crews;
mod plans;
mod runner;
mod threads;
mod watch;

pub use campaigns::{CampaignFault, campaign, campaign_until};
pub use runner::run_trials_until_none_is_left;
pub use watch::{
    EarlyStop, NeverStops, NoSignal, Signal, StopCondition, Unwatched, Watch, did_not_pass,
};
