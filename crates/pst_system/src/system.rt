//! Systems under test: the calls that they take, what they promise, and boxes of them.
ghost use Rattle.std.specs.Prelude.{◌≡◌, All, MatchResult, IfErr, IfOk, IfSome};
ghost use Rattle.pst_system.specs.Bursts.{IsMadeDrive};
ghost use Rattle.pst_system.specs.FaultName.{fault_name};
ghost use Rattle.pst_system.specs.Kept.{AreKept};

use crate::burst::{BurstCase, BurstDrive};
use pst_value::{Items, Text, Value, copy_values};
use std::alloc::{AllocError, Global};

/// A call of an operation with plain arguments, which hold no variable and no reference.
#[derive(Debug, PartialEq, Eq, Drop)]
pub struct RealCall {
    /// The number of the operation in its model, from 0.
    pub op: u32,
    /// The name of the operation.
    pub name: Text,
    pub args: Items<Value>,
}

impl RealCall {
    /// An equal call.
    pub fn copy(&self, alloc: Global) -> Result<RealCall, AllocError>
        ensures { IfOk result (λ copy. copy ≡ self.now) }
    {
        Ok(RealCall {
            op: self.op,
            name: self.name.copy(alloc)?,
            args: copy_values(self.args.as_slice(), alloc)?,
        })
    }
}

/// Why a system did not answer.
#[derive(Clone, Copy, Debug, PartialEq, Eq, Drop)]
pub enum CallFault {
    /// It refuses the call, by its name, by its arguments or in its state.
    Refused,
    /// An allocation of the system failed.
    NoMemory,
    /// It does not know whether the call took effect, as after a timeout.
    OutcomeUnknown,
}

impl CallFault {
    /// The word for the fault.
    pub fn name(&self) -> &'static str
        ensures { result.now ≡ fault_name self.now }
    {
        match self {
            CallFault::Refused => "Refused",
            CallFault::NoMemory => "NoMemory",
            CallFault::OutcomeUnknown => "OutcomeUnknown",
        }
    }
}

/// A system under test, whose calls may be made by several threads at once (as in `eqc_statem`, but by a
/// trait).
///
/// Each implementation names three relations, and nothing else is known of what it answers. A system that waits
/// or allocates keeps its handle or its allocator in fields; both calls may wait.
pub trait System: Drop + Send + Sync {
    ghost use Rattle.pst_system.specs.declared.system.CallFault.{CallFault};
    ghost use Rattle.pst_system.specs.declared.system.RealCall.{RealCall};
    ghost use Rattle.pst_value.specs.declared.value.Value.{Value};

    /// The values that a call may answer.
    ghost answers: { Self → RealCall → Value → Type 0 };

    /// The faults that a call may end with.
    ghost fails: { Self → RealCall → CallFault → Type 0 };

    /// The faults that a reset may end with.
    ghost reset_fails: { Self → CallFault → Type 0 };

    /// Goes back to the initial state. The three relations stay.
    fn reset(&mut self) -> Result<(), CallFault>
        ensures fault { IfErr result (λ f. reset_fails self.old f) }
        ensures kept { AreKept (answers self.new) (answers self.old) (fails self.new) (fails self.old)
            (reset_fails self.new) (reset_fails self.old) };

    /// Makes a call. Returns its answer, or why the call failed.
    fn call(&self, call: &RealCall) -> Result<Value, CallFault>
        ensures { MatchResult result (λ v. answers self.now call.now v) (λ f. fails self.now call.now f) };

    /// Makes a call from `branch`. Branches count from 0, and the calls of prefix and suffix come from branch 0.
    ///
    /// A system that keeps something for each branch, such as a connection, implements this. The answers and the
    /// faults are those of `call`.
    fn call_from(&self, _branch: u32, call: &RealCall) -> Result<Value, CallFault>
        ensures { MatchResult result (λ v. answers self.now call.now v) (λ f. fails self.now call.now f) }
    {
        self.call(call)
    }

    /// Whether the system drives cases many times by itself.
    fn bursts(&self) -> bool {
        false
    }

    /// Drives a case many times: resets itself, makes the calls of the prefix, those of the branches at once, and those of
    /// the suffix, and so again. Returns the drives that differ, in the order in which each came first.
    ///
    /// `None`: the system does not drive this case by itself, or could not. The three relations stay.
    fn burst(&mut self, _case: &BurstCase) -> Option<Items<BurstDrive>>
        ensures made { IfSome result (λ drives. All (IsMadeDrive (answers self.old) (fails self.old)) drives) }
        ensures kept { AreKept (answers self.new) (answers self.old) (fails self.new) (fails self.old)
            (reset_fails self.new) (reset_fails self.old) }
    {
        None
    }
}

/// A boxed system, made by the program or by a test.
pub type BoxedSystem = Box<dyn System + Send + Sync>;

/// Makes a call of the boxed system from `branch`. Returns its answer, or why the call failed.
pub fn call_boxed_system(
    system: &BoxedSystem,
    branch: u32,
    call: &RealCall,
) -> Result<Value, CallFault>
    ensures { MatchResult result (λ v. answers system.now call.now v) (λ f. fails system.now call.now f) }
{
    system.call_from(branch, call)
}

/// Takes the system in a box back to its initial state. The three relations stay.
pub fn reset_boxed_system(system: &mut BoxedSystem) -> Result<(), CallFault>
    ensures fault { IfErr result (λ f. reset_fails system.old f) }
    ensures kept { AreKept (answers system.new) (answers system.old) (fails system.new) (fails system.old)
        (reset_fails system.new) (reset_fails system.old) }
{
    system.reset()
}

/// Whether the boxed system drives cases many times by itself.
pub fn does_boxed_system_burst(system: &BoxedSystem) -> bool {
    system.bursts()
}

/// Has the boxed system drive a case many times. Returns the drives that differ, or `None` if it does not do so.
pub fn burst_boxed_system(system: &mut BoxedSystem, case: &BurstCase) -> Option<Items<BurstDrive>>
    ensures made { IfSome result (λ drives. All (IsMadeDrive (answers system.old) (fails system.old)) drives) }
    ensures kept { AreKept (answers system.new) (answers system.old) (fails system.new) (fails system.old)
        (reset_fails system.new) (reset_fails system.old) }
{
    system.burst(case)
}
