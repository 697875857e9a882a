//! Why no interleaving explains the replies of a history: a core of postconditions that cannot all be true, and the
//! answers that the model allows in place of them; and the states along an interleaving. Only the interleavings in an
//! order count.
//!
//! `AllocError` means that an allocation failed.
#![tactic(auto)]

mod allowing;
mod answers;
mod conditions;
mod cores;
mod laws;
mod recorded;
mod state_list;

pub use allowing::{
    AllowedValues, AnswerProposer, AnswerQuestion, find_allowed_values,
    interleaving_where_answers_are_wrong, is_answer_allowed,
};
pub use conditions::{AnswerReplaced, AnswersExcluded, SomePostconditions};
pub use cores::{append_numbers_without, count_branch_commands, minimal_core};
pub use laws::{any_order_has_each_merge, equality_has_one_answer};
pub use pst_grid::{AnyOrder, Order};
pub use recorded::RecordedRun;
pub use state_list::states;
