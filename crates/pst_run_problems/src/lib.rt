//! What is wrong with a refused case or run, and in which of its parts.
//!
//! `pst_runs` proves which refusal an item gets. For the form of an item, `laws` proves that a fault is found if and only
//! if `pst_runs` refuses the form, and that the place of the fault is a part which it refuses. `first_reply_fault` and
//! `first_argument_fault` prove the same for the values in replies and arguments, and `laws` the first half for the
//! numbers of replies. The rest is tested: its proofs only say that the code terminates and does nothing unsafe.
//! `AllocError` means that an allocation failed.
#![tactic(auto)]

mod arguments;
mod command;
mod entries;
mod form_fault;
pub mod laws;
mod replies;
mod runs;
mod shape;
mod times;
mod value_fault;
mod value_problem;

pub use command::{
    Part, find_command_with_path, find_part_and_offset_of_command, node_parts_or_empty,
    parts_of_case_or_run,
};
pub use runs::refused_case_or_run_problem;
pub use shape::JSON_ITEM;
