//! The subcommands: what the program writes for its input. `AllocError` means that an allocation failed.
#![tactic(auto)]

mod absent;
mod answer;
mod attendant;
mod campaign;
mod campaign_calls;
mod campaign_end;
mod campaign_junit;
mod counts;
mod drive;
mod driven_item;
mod explain;
mod explained_run;
mod failing_run;
mod failure_page;
mod form;
mod generate;
mod graph;
mod input;
mod item_output;
mod judge;
mod keep;
mod known;
mod laws;
mod lines;
mod losses;
mod model_commands;
mod objects;
mod smallest;
mod stream;

pub use absent::{Absence, refuse, refuse_text};
pub use answer::{Answer, Destinations, InputRefusal, OutputForm, Status};
pub use attendant::{Attendant, Unattended};
pub use campaign::{ReportOptions, UndrawnTrials, campaign_text, report_campaign};
pub use campaign_end::CampaignEnd;
pub use campaign_junit::campaign_junit_xml;
pub use counts::ItemResultCounts;
pub use drive::{DriveOptions, drive_items, run_text};
pub use explain::{ChosenItems, ExplainOptions, explain_items, explain_text};
pub use explained_run::{
    compile_model_and_explain_failed_run, explain_failure, judge_recorded_run,
};
pub use failing_run::TrialFailure;
pub use failure_page::campaign_failures_html_page;
pub use form::ExplanationForm;
pub use generate::generate_cases;
pub use graph::{draw_item, write_search_graph_of_item};
pub use input::{CompiledModelAndTrees, JudgedFile, count_items_of_input};
pub use judge::{
    JudgeOptions, Judging, judge_file, judge_file_keep_going, judge_items, judge_text,
    judge_text_keep_going,
};
pub use keep::FileWithItemResults;
pub use known::{KnownSystem, is_known_system};
pub use laws::{
    check_and_judge_outputs_are_unique, keep_going_changes_nothing_without_refusals,
    stream_verdicts_are_file_verdicts,
};
pub use lines::Shown;
pub use losses::LostTrials;
pub use model_commands::{ItemForm, check_model, check_text, convert_items, list_model, list_text};
pub use objects::MEMORY_OBJECT;
pub use pst_judge::CallOrder;
pub use pst_rejudge::ProgressCounter;
pub use stream::{RefusedLineReceiver, judge_stream};
