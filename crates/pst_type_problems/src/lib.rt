//! What is wrong with a model that is not well typed.
//!
//! The messages are tested, not proved: the proofs only say that the code terminates and does nothing unsafe.
//! `pst_typing` proves that the part in question is ill-typed.
#![tactic(auto)]

mod applied;
mod diagnose;
mod expression_parts;
mod lists;
mod operands;
mod spelling;
mod typing;

pub use typing::type_problems_from_item_on;
