//! Sample systems, which tests and `pst run` drive.
//!
//! Each refuses the calls of other names or arguments than its own.
#![tactic(auto)]

mod asked;
mod counter;
mod meet;
mod queue;
mod registry;

pub use counter::{Counter, Racy, Stuck};
pub use meet::{Flags, Meet, Pair, Side};
pub use queue::{Queue, ROOM};
pub use registry::Registry;
