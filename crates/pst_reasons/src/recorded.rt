//! A recorded run of a case.
use pst_case::{History, Shaped};
use std::alloc::Global;

/// A recorded run, with the callbacks of its model, and the order in which its interleavings count.
#[derive(Drop)]
pub struct RecordedRun<'a, C, O> {
    pub callbacks: &'a C,
    /// Only the interleavings in this order count.
    pub order: &'a O,
    pub alloc: Global,
    pub shaped: &'a Shaped,
    pub history: &'a History,
}
