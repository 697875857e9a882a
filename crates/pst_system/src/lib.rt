//! Systems under test: the calls that they take, and what they promise of their answers.
#![tactic(auto)]

mod burst;
mod system;

pub use burst::{BurstCase, BurstDrive, CallEnd, MadeCall};
pub use system::{
    BoxedSystem, CallFault, RealCall, System, burst_boxed_system, call_boxed_system,
    does_boxed_system_burst, reset_boxed_system,
};
