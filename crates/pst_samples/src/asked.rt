//! Which call was made.
ghost use Rattle.std.specs.Prelude.{◌↔◌, IsTrue, MatchOption};
ghost use Rattle.pst_samples.specs.Calls.{IsBare, HasNumber, IsNumbered, IsMeet};

use crate::meet::Side;
use pst_system::RealCall;
use pst_value::Value;

/// Whether the call has that name and no arguments.
pub fn is_call_without_arguments(call: &RealCall, name: &str) -> bool
    ensures { IsTrue result ↔ IsBare name.now call.now }
{
    call.name.as_str() == name && call.args.is_empty()
}

/// The argument of a call that has that name and one argument, an integer.
pub fn sole_integer_argument_of_call(call: &RealCall, name: &str) -> Option<i64>
    ensures { MatchOption result (IsNumbered name.now call.now → ⊥) (λ n. HasNumber name.now n call.now) }
{
    if call.name.as_str() != name {
        return None;
    }
    match call.args.as_slice() {
        [Value::Int(number)] => Some(*number),
        _ => None,
    }
}

/// The side that `meet 1` or `meet 2` names.
pub fn side_of_meet_call(call: &RealCall) -> Option<Side>
    ensures { MatchOption result (IsMeet call.now → ⊥) (λ _. IsMeet call.now) }
{
    match sole_integer_argument_of_call(call, "meet") {
        Some(1) => Some(Side::First),
        Some(2) => Some(Side::Second),
        _ => None,
    }
}
