//! What a program needs that tests a system of its own: the trait of systems, campaigns on them, and the judging and explaining
//! of what they answered, under one name.
//!
//! A system implements [`System`] and states what it may answer. One that promises nothing says so with the relations of
//! `specs/Promises.antt`.
#![tactic(auto)]

pub use pst_campaign::{CampaignFault, Unwatched, Watch, campaign};
pub use pst_cli::{
    CallOrder, ChosenItems, ExplainOptions, ExplanationForm, Status, campaign_text, check_text,
    explain_text, judge_text,
};
pub use pst_report::report;
pub use pst_sexpr::{Out, Sink};
pub use pst_system::{BoxedSystem, CallFault, RealCall, System};
pub use pst_trial::{Plan, Record, Settings};
pub use pst_typing::load;
pub use pst_value::{Items, Text, Value};
