//! Tests of the libraries by values that no text spells: copies, collections, interleavings, calls, trees,
//! writers that fail, code of the machine, and cases to shrink. Tests by texts are in the tables of `pst_rows`,
//! and those by malformed texts in `pst_hostile_rows`. Also what these programs share: systems, short values, and the
//! reader and the printer of models.
#![tactic(auto)]

#[cfg(test)]
mod codes;
#[cfg(test)]
mod copies;
#[cfg(test)]
mod merges;
#[cfg(test)]
mod parts;
#[cfg(test)]
mod shrunk;
pub mod support;
#[cfg(test)]
mod values;
#[cfg(test)]
mod written;

pub use pst_eval::Plain;
pub use pst_print::print_model;
pub use pst_syntax::{FaultKind as ModelFaultKind, Model, read_model};
