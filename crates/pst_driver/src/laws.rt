//! Laws of driven histories.
ghost use Rattle.pst_driver.specs.Breaking.{DrivesBreakByTheirCalls};

use pst_system::{BoxedSystem, System};

/// The verdict on a history that was driven on the system, of a case that has the shape of the model, is `broken` exactly
/// if a call failed, misfits, or has an unknown outcome though `next` of its operation uses its result; then at the first
/// such command. A drive breaks its run in no other way: it calls no command that needs a missing result, and none after a
/// call of unknown outcome in the same part.
pub fn drives_break_by_their_calls(system: &BoxedSystem)
    ensures { DrivesBreakByTheirCalls (answers system.now) (fails system.now) }
{}
