//! Shrinks a failing test case: makes smaller candidates, and searches them. `AllocError` means that an
//! allocation failed.
#![tactic(auto)]

mod candidate;
mod laws;
mod shrinking;

pub use candidate::{Renumbering, candidates};
pub use laws::candidates_are_lesser;
pub use shrinking::{Attempt, AttemptOutcome, FailingCase, ShrinkEnd, ShrinkFault, Shrunk, shrink};
