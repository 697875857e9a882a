//! Bursts: cases that a system drives many times by itself.

ghost use Rattle.std.specs.Prelude.{◌≡◌, IfOk};

use crate::system::{CallFault, RealCall};
use pst_value::{Items, Value};
use std::alloc::{AllocError, Global};

/// The calls of a case. No argument depends on a result.
#[derive(Debug, PartialEq, Eq, Drop)]
pub struct BurstCase {
    pub prefix: Items<RealCall>,
    pub branches: Items<Items<RealCall>>,
    pub suffix: Items<RealCall>,
}

/// How a call ended.
#[derive(Debug, PartialEq, Eq, Drop)]
pub enum CallEnd {
    Answered(Value),
    Fault(CallFault),
}

/// A call that was made, and how it ended.
#[derive(Debug, PartialEq, Eq, Drop)]
pub struct MadeCall {
    pub call: RealCall,
    pub end: CallEnd,
}

impl MadeCall {
    /// An equal call with an equal end.
    pub fn copy(&self, alloc: Global) -> Result<MadeCall, AllocError>
        ensures { IfOk result (λ copy. copy ≡ self.now) }
    {
        let end = match &self.end {
            CallEnd::Answered(value) => CallEnd::Answered(value.copy(alloc)?),
            CallEnd::Fault(fault) => CallEnd::Fault(*fault),
        };
        Ok(MadeCall {
            call: self.call.copy(alloc)?,
            end,
        })
    }
}

/// The calls that were made in one drive of a burst.
#[derive(Debug, PartialEq, Eq, Drop)]
pub struct BurstDrive {
    /// The calls from each branch, in the order in which they were made. Those of the prefix and of the suffix come from the
    /// first.
    pub branches: Items<Items<MadeCall>>,
}
