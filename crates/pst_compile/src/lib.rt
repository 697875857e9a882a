//! Compiles the model language to the machine.
//!
//! `compile` makes the code of a well-typed model, and `Compiled` runs its callbacks by that code: each has the
//! value, the fault and the turns left of its meaning. `specs/Code.antt` has the code of each form,
//! `specs/Functions.antt` that of a model, and `listing` returns its text. `AllocError` means that an
//! allocation failed, or that a place or a register has no number.
#![tactic(auto)]

mod blocks;
mod compiled;
mod expressions;
mod functions;
mod loops;
mod names;
mod overwriting;

pub use compiled::{Compiled, compile, listing};
pub use pst_machine::Code;
