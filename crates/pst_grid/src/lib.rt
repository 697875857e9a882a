//! Searches the interleavings of a few branches.
//!
//! The commands of several branches ran concurrently. An interleaving puts all of them into one order, in which each
//! branch keeps its own order; it is written as a word of branch numbers. From a start state, the run of an
//! interleaving makes one step for each letter: a step gives the next state, or it is false or faults, and then the run
//! stops. When all branches have ended, the rest of the run follows; how it ends depends on the state alone. An
//! interleaving is true to its end if no step of its run stops it, and the rest does not stop it either.
//!
//! [`some`] finds the first interleaving that is true to its end, and [`every`] finds out whether all are. The first of
//! several interleavings is the lexicographically first. Both functions remember the places and states that they have
//! searched from, each state in the form of [`Steps::keep`], so they make few steps even if there are many
//! interleavings, and they run the rest once for each state in which all branches end.
//!
//! [`some_in_order`] and [`every_in_order`] search only the interleavings that are in a given [`Order`]. With [`AnyOrder`]
//! they return what [`some`] and [`every`] do. [`find_first_true_interleaving_plainly`] returns the same answer as
//! [`some_in_order`] and remembers nothing: it is the slow program for tests to compare with.
//!
//! [`run_without_rest_is_interleaving_alone`], [`run_is_true_if_all_events_are`] and [`few_steps_if_state_never_changes`]
//! are laws: they do nothing, and their contracts are theorems about runs and the number of steps.
//!
//! A caller defines the steps and the rest by an `impl` of [`Steps`], and an order by one of [`Order`]. `AllocError` means
//! that an allocation failed.
#![tactic(auto)]

mod hasher;
mod laws;
mod order;
mod plain_search;
mod position;
mod remembering_search;
mod search;
mod steps;

pub use laws::{
    few_steps_if_state_never_changes, run_is_true_if_all_events_are,
    run_without_rest_is_interleaving_alone,
};
pub use order::{AnyOrder, Order};
pub use plain_search::find_first_true_interleaving_plainly;
pub use remembering_search::{every, every_in_order, some, some_in_order};
pub use steps::{Ending, EveryAnswer, SomeAnswer, StepOutcome, Steps, StopReason};
