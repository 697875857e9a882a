//! The report of a campaign: a text that the plan and the list of what came of each number determine.
//!
//! `specs/Text.antt` has the text, line by line. It knows nothing of the order in which the trials ended.
#![tactic(auto)]

mod counterexample;
mod counts;
mod failures;
mod object;
mod status;
mod unknown_outcomes;
mod writer;

pub use failures::{
    NumberedFailure, ShrunkFailure, distinct_failures, first_failed_trial,
    first_trial_with_generation_fault, shrunk_failure_of_record,
};
pub use object::{add_lost_trials_and_first_failure, campaign_report_fields_before_losses};
pub use status::{
    CampaignStatus, EntryKind, campaign_status, status_of_made_trials, status_of_stoppable_campaign,
};
pub use unknown_outcomes::{count_ended_trials, count_trials_with_unknown_outcomes};
pub use writer::{ReportFault, report};
