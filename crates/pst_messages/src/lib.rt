//! Messages for people on an input: errors on what is refused, with the place, what was expected and what was found, and
//! warnings on what is accepted: likely mistakes in a model, and recorded runs whose explaining interleaving has a
//! precondition that is not true. Also messages on broken runs, and on trials without a case.
//!
//! `pst_syntax_problems`, `pst_type_problems` and `pst_run_problems` say what is wrong with a tree. Here it becomes a
//! message on the bytes of a file, of trees or of JSON. The messages are tested, not proved: the proofs only say that
//! the code terminates and does nothing unsafe.
//! `AllocError` means that an allocation failed.
#![tactic(auto)]

mod bounded;
mod broken;
mod bytes;
mod faults;
mod item_hints;
mod items;
mod json_fault;
mod json_input;
mod json_item;
mod json_places;
mod later_state;
mod message;
mod missing_keys;
mod missing_model;
mod preconditions;
mod refused_items;
mod scripts;
mod spelling;
mod unclosed;
mod unknown_results;
mod unread_results;
mod untrue_precondition;
mod warning;

pub use broken::{first_broken_item_result_and_count_message, first_broken_run_and_count_message};
pub use faults::explanation_why_trial_has_no_case;
pub use json_input::ItemInput;
pub use later_state::model_beginning_after_call;
pub use message::{
    MessageScope, input_error_messages_text, input_error_notices, refused_model_messages_text,
};
pub use missing_model::has_model_at_start;
pub use preconditions::{precondition_warnings_on_item_results, precondition_warnings_on_runs};
pub use refused_items::{RefusedItems, refused_items_messages_text};
pub use unknown_results::unknown_outcome_warning_notices;
pub use warning::{input_warning_notices, input_warnings_text};
