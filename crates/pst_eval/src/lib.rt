//! The meaning of expressions and its evaluator; the callbacks of a well-typed model, and their plain evaluation;
//! the laws that evaluating with results in place of variables is evaluating with variables; and how far the value
//! of an expression can reach, and which names it uses, by the form of the expression.
#![tactic(auto)]

mod callbacks;
mod context;
mod evaluation;
mod names;
mod reach;
mod symbolic;

pub use callbacks::{Callback, Callbacks, FaultPlace, Plain};
pub use context::{Context, Env};
pub use evaluation::eval;
pub use names::{
    does_name_stand_in, does_next_name_result, unnamed_results_change_nothing,
    unnamed_results_leave_states,
};
pub use reach::{NamesWithReach, greater, reach_of_expression, reach_of_value};
pub use symbolic::{
    real_command_equals_symbolic_command, real_init_equals_symbolic_init,
    real_next_equals_symbolic_next, real_pre_equals_symbolic_pre, symbolic_evaluation_equals_real,
};
