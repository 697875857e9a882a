//! Displays items: their commands with places and replies, the spelling of commands and values, lines and columns, the
//! states along an interleaving, and why a command cannot come next on a state.
//!
//! It also evaluates expressions and their parts, for the false or faulting part of a callback. It serves `pst_explain`,
//! whose output is tested and not proved: the contracts cover only `cut_in_middle_if_too_long`, `scene_of_run` and these
//! evaluations.
#![tactic(auto)]

mod attempt;
mod cutting;
mod descent;
mod evaluating;
mod evidence_falsity;
mod falsity;
mod faulty;
mod order;
mod outcome;
mod page;
mod parts;
mod scene;
mod spelling;
mod table;
mod wanted;

pub use cutting::cut_in_middle_if_too_long;
pub use evaluating::{
    PreAnswer, arguments_with_recorded_results, calls_before_call_in_interleaving,
    evaluate_expression_of_model, evaluate_initial_state, evaluate_precondition,
    result_reference_or_variable, state_after_call, state_before_call_in_interleaving,
    states_along_calls,
};
pub use evidence_falsity::{Evidence, FalsePart, false_part_of_postcondition};
pub use falsity::{Falsity, false_postcondition_text, why_postcondition_is_not_true};
pub use faulty::{Binding, FaultyPart, bindings_of_environment, faulty_part_of_expression};
pub use order::{
    call_numbered, calls_along_letters, calls_in_interleaving_order, calls_that_may_come_next,
    count_calls_before_number, first_calls,
};
pub use outcome::{DeadEnd, Outcome, dead_end_text, outcome_of_call_on_state};
pub use page::Page;
pub use scene::{Call, Calls, CasePart, Scene, scene_of_run};
pub use spelling::{
    add_interleaving_letters_or_dash, add_number, add_quoted_text, add_reply_spelling, add_str,
    add_tree_spelling, add_value_spelling, copy_explanation_text, expression_text,
    join_explanation_parts, operation_of_call, value_text, words_of_expression,
};
pub use table::{Cell, Style, Table, row_of_two_plain_cells};
pub use wanted::{postcondition_wants_one_reply, reply_wanted_by_postcondition};
