//! The order of calls in time, by the recorded times.
ghost use Rattle.std.specs.Prelude.{◌≡◌};
ghost use Rattle.pst_judge.specs.RealTime as spec;
ghost use Rattle.pst_judge.specs.RealTime.{next_of, real_time};

use pst_case::CallTime;
use pst_grid::Order;
use pst_value::Items;

/// Whether a call completed before `other` was invoked. At the same time is not before.
pub fn precedes(call: CallTime, other: CallTime) -> bool
    ensures { result ≡ spec.precedes call other }
{
    match call.completed {
        Some(at) => at < other.invoked,
        None => false,
    }
}

/// The order in time: a branch is open unless the next call of another branch completed before its own next call was
/// invoked. A branch without a next call is open.
#[derive(Drop)]
pub struct RealTime<'a> {
    /// The times of each branch's calls, in the order of the branch.
    pub branches: &'a [Items<CallTime>],
}

impl<'a> RealTime<'a> {
    /// The times of the next call of `branch`, if it has one.
    fn next_call(&self, done: &[usize], branch: usize) -> Option<CallTime>
        ensures { result ≡ next_of self.now.branches.now done.now branch }
    {
        if branch >= self.branches.len() || branch >= done.len() {
            return None;
        }
        let calls = self.branches[branch].as_slice();
        let index = done[branch];
        if index >= calls.len() {
            return None;
        }
        Some(calls[index])
    }
}

impl<'a> Order for RealTime<'a> {
    ghost order = { λ times. real_time times.branches.now };

    fn is_open(&self, done: &[usize], branch: usize) -> bool {
        let Some(next) = self.next_call(done, branch) else {
            return true;
        };
        for other in 0..self.branches.len() {
            if let Some(time) = self.next_call(done, other) {
                if precedes(time, next) {
                    return false;
                }
            }
        }
        true
    }
}
