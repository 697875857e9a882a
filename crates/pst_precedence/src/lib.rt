//! Why the times of a run rule out an explanation.
//!
//! A call *precedes* another if it was answered before the other began. `find_obstacles` returns an interleaving that
//! would explain the run without its times, and a minimal list of recorded precedences: no interleaving that keeps them
//! all explains the run.
//!
//! `AllocError` means that an allocation failed.
#![tactic(auto)]

mod keeping;
mod laws;
mod listing;
mod obstacles;
mod precedence;
mod timed;

pub use laws::{keeping_is_before, obstacles_rule_out_time};
pub use obstacles::{Obstacles, find_obstacles};
pub use precedence::{Call, Precedence};
