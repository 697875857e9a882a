//! Cases and runs as text again: each item as one tree and a line end.
//!
//! `specs/Written.antt` has the tree of a run, `specs/Lines.antt` what goes out.

mod items;
mod times;
mod values;
mod writer;

pub use items::run_tree;
pub use times::prove_times_are_small;
pub use values::value_form;
pub use writer::{WriteFault, write_runs};
