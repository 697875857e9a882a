//! Reads and writes runs as text. The reader reports the first fault of the first refused run.
//!
//! `AllocError` means that an allocation failed.
#![tactic(auto)]

mod commands;
mod parts;
mod reader;
mod reading;
mod replies;
mod room;
mod times;
mod values;
mod write;

pub use reader::{RunFault, RunFaultKind, read_runs};
pub use times::read_time;
pub use values::{Spelling, map_entry_key_and_value, read_map_key, read_value};
pub use write::{WriteFault, prove_times_are_small, run_tree, value_form, write_runs};
