//! The verdict on a history in which some calls have an unknown outcome.
ghost use Rattle.std.specs.Prelude.{◌≡◌, ◌+◌, ◌<◌, ◌≤◌, ◌^◌, true, None, IfOk, length, map, sum};
ghost use Rattle.pst_case.specs.Matches.{matches};
ghost use Rattle.pst_case.specs.Recorded.{recorded};
ghost use Rattle.pst_grid.specs.Orders.{NeverBlocks};
ghost use Rattle.pst_judge.specs.Running.{IsRealState};
ghost use Rattle.pst_case.specs.Shape.{result_types};
ghost use Rattle.pst_judge.specs.FromAnswer.{OnNothing};
ghost use Rattle.pst_judge.specs.Unknown.{IsJudgedOfCalls, IsVerdictOfCalls, calls_order, suffix_last};
ghost use Rattle.pst_judge.specs.UnknownCalls.{broken_command, column_lengths, known_count};
ghost use Rattle.pst_judge.specs.UnknownFitting.{ColumnsFit, IsOfAnswer, IsVerdictOfColumns};
ghost use Rattle.pst_model.specs.WellTyped.{WellModel};

use crate::judgement::Verdict;
use crate::replay::{Condition, EventsEnd, run_events};
use crate::symbolic_search::sum_of_branch_lengths;
use crate::unknown_calls::{
    columns_of_calls, count_calls_in_each, count_known_in_each, first_broken_command,
    known_calls_of_prefix,
};
use crate::unknown_search::{Columns, Moment, SuffixLast, effective_letters};
use pst_case::{History, Shaped};
use pst_eval::{Callback, Callbacks, FaultPlace};
use pst_grid::{Order, SomeAnswer, StopReason, some_in_order};
use pst_value::Value;
use std::alloc::{AllocError, Global};

/// The verdict for the answer of a search, with `prefix` calls before it.
fn verdict_of_answer(
    alloc: Global,
    prefix: usize,
    knowns: &[usize],
    answer: SomeAnswer<FaultPlace>,
) -> Result<Verdict, AllocError>
    requires { OnNothing answer (λ far. prefix + far < 2 ^ 64) }
    ensures { IfOk result (IsOfAnswer knowns.now prefix answer) }
{
    match answer {
        SomeAnswer::Found { word } => {
            Ok(Verdict::Explained(effective_letters(alloc, knowns, word)?))
        }
        SomeAnswer::Faulted {
            word: _,
            at: _,
            fault,
        } => Ok(Verdict::Faulted(fault)),
        SomeAnswer::Nothing { far, word: _ } => Ok(Verdict::Unexplained(prefix + far)),
    }
}

/// Searches the interleavings of the calls that are in order, from the state after `prefix` calls.
fn search_calls<C: Callbacks, A: Condition, O: Order>(
    alloc: Global,
    columns: &Columns<'_, C, A>,
    order: &O,
    state: Value,
    prefix: usize,
) -> Result<Verdict, AllocError>
    requires state { IsRealState (C.model columns.now.callbacks.now) columns.now.shaped.now.case state }
    requires calls { let m = C.model columns.now.callbacks.now in
        ColumnsFit m (result_types m columns.now.shaped.now.case) columns.now.calls }
    requires progress { let calls = columns.now.calls in
        NeverBlocks (suffix_last (map known_count calls) (O.order order.now)) (map length calls) }
    requires prefix { prefix ≤ 64 }
    requires lengths { sum (map length columns.now.calls) ≤ 88 }
    ensures { let m = C.model columns.now.callbacks.now in IfOk result
        (IsVerdictOfColumns m (A.asked columns.now.condition.now m) columns.now.calls (O.order order.now) prefix state) }
{
    let knowns = count_known_in_each(alloc, columns.calls.as_slice())?;
    let lengths = count_calls_in_each(alloc, columns.calls.as_slice())?;
    let order = SuffixLast {
        order,
        knowns: knowns.as_slice(),
    };
    let start = Moment {
        state,
        left: sum_of_branch_lengths(knowns.as_slice()),
    };
    let (answer, _) = some_in_order(alloc, columns, &order, lengths.as_slice(), &start)?;
    verdict_of_answer(alloc, prefix, knowns.as_slice(), answer)
}

/// Nothing: the model of callbacks is well typed.
fn model_is_well_typed<C: Callbacks>(callbacks: &C)
    ensures { WellModel (C.model callbacks.now) }
{
    let _named = callbacks.next_names_result(0);
}

/// The verdict on a history without broken commands, with `condition` checked on each call that has a value.
fn verdict_on_calls<C: Callbacks, A: Condition, O: Order>(
    callbacks: &C,
    condition: &A,
    order: &O,
    alloc: Global,
    shaped: &Shaped,
    history: &History,
    results: &[Option<Value>],
) -> Result<Verdict, AllocError>
    requires model { shaped.now.model ≡ C.model callbacks.now }
    requires matches { matches (C.model callbacks.now) shaped.now.case history.now ≡ true }
    requires results { results.now ≡ recorded history.now }
    requires whole { broken_command (C.model callbacks.now) shaped.now.case history.now ≡ None }
    requires progress { NeverBlocks (calls_order (O.order order.now) shaped.now.case history.now)
        (column_lengths shaped.now.case history.now) }
    ensures { let m = C.model callbacks.now in IfOk result
        (IsJudgedOfCalls m (A.asked condition.now m) (O.order order.now) shaped.now.case history.now) }
{
    let _case = shaped.case();
    model_is_well_typed(callbacks);
    let (state, _) = match callbacks.init(alloc)? {
        Ok(opening) => opening,
        Err(fault) => {
            let place = FaultPlace {
                command: 0,
                callback: Callback::Init,
                fault,
            };
            return Ok(Verdict::Faulted(place));
        }
    };
    let prefix = known_calls_of_prefix(alloc, shaped, history, results)?;
    match run_events(callbacks, condition, alloc, state, prefix.as_slice())? {
        EventsEnd::Through(last) => {
            let columns = Columns {
                callbacks,
                condition,
                shaped,
                calls: columns_of_calls(alloc, shaped, history, results)?,
            };
            search_calls(alloc, &columns, order, last, prefix.len())
        }
        EventsEnd::Stopped(at, StopReason::False) => Ok(Verdict::Unexplained(at)),
        EventsEnd::Stopped(_, StopReason::Fault(place)) => Ok(Verdict::Faulted(place)),
    }
}

/// Returns the verdict on a history in which calls may have unknown outcomes, over the interleavings in `order`, by the
/// model of the callbacks.
///
/// A call of unknown outcome may have taken effect at any time after the calls before it in its part, also among the
/// calls of the suffix, or not at all. Its postcondition is not evaluated. `next` is, with its variable as the result;
/// where it faults, the call cannot have taken effect. The verdict is
///
/// - `Broken` at the first command that failed or misfits, that was called after a call of unknown outcome in its part or
///   without a result that it needs, or that has an unknown outcome although the next state depends on its result. A
///   command that was not run is left out;
/// - else `Explained` if, for some set of the calls of unknown outcome, the calls with values and these make every
///   postcondition true in some order, and no callback faults. The word has the letters of these calls in the first
///   such order, up to the last call with a value: a letter from 0 to 3 is a branch, 4 the call of unknown outcome in
///   the prefix, and 5 a command of the suffix;
/// - else `Faulted` at the fault of a call with a value, in the first order that has one;
/// - else `Unexplained`, with the most calls before a false one.
///
/// `order` says where the branches are open, by how many calls of each column are done. With the suffix after the
/// branches' calls with values it must never block, unless a command is broken.
pub fn verdict_with_unknown<C: Callbacks, A: Condition, O: Order>(
    callbacks: &C,
    condition: &A,
    order: &O,
    alloc: Global,
    shaped: &Shaped,
    history: &History,
) -> Result<Verdict, AllocError>
    requires model { shaped.now.model ≡ C.model callbacks.now }
    requires matches { matches (C.model callbacks.now) shaped.now.case history.now ≡ true }
    requires progress { broken_command (C.model callbacks.now) shaped.now.case history.now ≡ None
        → NeverBlocks (calls_order (O.order order.now) shaped.now.case history.now)
        (column_lengths shaped.now.case history.now) }
    ensures { let m = C.model callbacks.now in IfOk result
        (IsVerdictOfCalls m (A.asked condition.now m) (O.order order.now) shaped.now.case history.now) }
{
    let _case = shaped.case();
    let results = history.recorded(alloc)?;
    let results = results.as_slice();
    match first_broken_command(callbacks, shaped, history, results) {
        Some(number) => Ok(Verdict::Broken(number)),
        None => verdict_on_calls(callbacks, condition, order, alloc, shaped, history, results),
    }
}
