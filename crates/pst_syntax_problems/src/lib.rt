//! What is wrong with the form of a model text: where it is, what it has to be, and notes.
//!
//! `model_syntax_faults` finds the faults of a model text, each with the path to the refused part and with what that
//! part has to be. Its contract says that it returns the faults of the definition, in their order, and `laws`
//! says that the reader refuses the text for the first of them. `first_model_syntax_problems` words them. The words are
//! tested, not proved: the proofs only say that the code terminates and does nothing unsafe.
//!
//! `AllocError` means that an allocation failed.
#![tactic(auto)]

mod expression_faults;
mod expressions;
mod fault;
mod forms;
mod infix;
mod item_faults;
mod item_forms;
mod item_part_faults;
mod items;
pub mod laws;
mod model_faults;
mod names;
mod part_faults;
mod problem;
mod seen_items;
mod slips;
mod syntax;
mod tree;
mod type_faults;
mod types;
mod writing;

pub use fault::{FormFault, Role};
pub use forms::{
    HeadedForm, find_expression_form, find_type_form, hint_for_foreign_word,
    is_expression_clause_or_type_head, is_head_of_map_form, nearest_expression_head_hint,
};
pub use model_faults::model_syntax_faults;
pub use names::{
    DidYouMean, NearestNameSoFar, find_operation, nearest_known_name_hint, push_name,
    unknown_operation_or_function_problem,
};
pub use problem::{
    CAPITAL, FoundProblem, MOST_PROBLEMS, Problem, is_capitalized_name, path_to_part, problem_at,
    problem_at_part, problem_with_hint_if_foreign_word, problem_with_note,
    problem_with_note_at_part, push_problem_if_any, strip_single_quotes, with_note,
};
pub use slips::{with_call_or_assignment_hint_if_meant, with_note_instead_of_others};
pub use syntax::first_model_syntax_problems;
pub use tree::{has_head, head_word_or_empty};
pub use writing::{
    CommaSeparatedNames, CountedNoun, FormText, SignatureText, TypeText, counted_noun,
    key_type_word, shortened_tree_text, write_quoted_and_escaped,
};
