//! Explains verdicts: explanations as data, their text, and the graph of the search.
//!
//! `explain_item` explains one item, whose judgement is known: over all interleavings, or over those in the order of its
//! times. `append_explanation_text` writes the explanation in the form of `pst explain`. `tree_places_in_input` finds
//! where the trees of an input begin, `explain_fault_in_generation` explains why no case can be generated, and
//! `breaking_call_sentence_of_run` says which command makes a run broken, and why. Cores and the states of interleavings are from
//! `pst_reasons`, the interleavings from `pst_judge`. The rest of an explanation, and its text, is tested and not
//! proved.
//!
//! `AllocError` means that an allocation failed.
#![tactic(auto)]

mod allowing;
mod bounded;
mod breaking;
mod core_text;
mod cores;
mod drawing;
mod explanation;
mod failure_text;
mod failures;
mod graph;
mod obstacles;
mod parts;
mod places;
mod position;
mod search;
mod text;
mod unknown;
mod unknown_cores;
mod walk_text;
mod walks;

pub use allowing::WrongAnswer;
pub use bounded::StepLimitedCallbacks;
pub use breaking::{BreakingCall, BreakingCause, breaking_call_sentence_of_run};
pub use cores::{Core, CoreAnswer};
pub use explanation::{Explanation, JudgementReason, explain_item};
pub use failure_text::explain_fault_in_generation;
pub use failures::{
    ExpressionWithFaultyPart, ExpressionWithNameValues, Failure, FaultyPartWithValues,
};
pub use graph::graphviz_text_of_item_search;
pub use obstacles::{RuledOut, preceding_calls};
pub use parts::time_of_call;
pub use places::{TreePlace, tree_places_in_input};
pub use position::GraphPosition;
pub use pst_precedence::{Obstacles, Precedence};
pub use search::{GraphMove, GraphMoveTarget, SearchGraph, build_search_graph_if_small};
pub use text::{
    append_colored_explanation_text, append_explanation_text, explanation_text_without_heading,
};
pub use unknown::calls_without_effect;
pub use walks::{BlockedCall, InterleavingStates, InterleavingStep};
