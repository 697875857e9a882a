//! The verdict on a history.
ghost use Rattle.std.specs.Prelude.{◌≡◌, ◌+◌, ◌<◌, ◌^◌, true, None, IfOk, length};
ghost use Rattle.pst_case.specs.Matches.{matches};
ghost use Rattle.pst_case.specs.Recorded.{recorded};
ghost use Rattle.pst_case.specs.Shape.{IsShaped};
ghost use Rattle.pst_grid.specs.Orders.{NeverBlocks};
ghost use Rattle.pst_judge.specs.FromAnswer.{IsVerdictOfSearch};
ghost use Rattle.pst_judge.specs.InOrder.{HasLettersAmong, HasLettersInOrderAsking, IsInterleavingInOrder, IsJudgedAmong, IsRunInOrder, IsVerdictInOrder, IsVerdictInOrderAsking};
ghost use Rattle.pst_judge.specs.Interleaving.{IsInterleaving, word_or};
ghost use Rattle.pst_judge.specs.Real.{FaultsOnlyInPost};
ghost use Rattle.pst_judge.specs.Replay.{branch_events, branch_lengths, suffix_events};
ghost use Rattle.pst_judge.specs.Running.{IsRealState};
ghost use Rattle.pst_judge.specs.Validity.{IsValid};
ghost use Rattle.pst_judge.specs.Verdict.{first_broken, IsVerdict, IsVerdictAsking};
ghost use Rattle.pst_model.specs.WellTyped.{WellModel};

use crate::events::{branch_and_suffix_events, events_of_prefix};
use crate::judgement::Verdict;
use crate::replay::{Condition, EventsEnd, Postconditions, run_events};
use crate::search::search;
use pst_case::{History, Shaped};
use pst_eval::{Callback, Callbacks, FaultPlace};
use pst_grid::{AnyOrder, Order, StopReason};
use pst_value::Value;
use std::alloc::{AllocError, Global};

/// The command number of the first missing result. The first of `results` has the number `number`.
fn number_of_first_missing_result(number: u32, results: &[Option<Value>]) -> Option<u32>
    requires { number + length results.now < 2 ^ 32 }
    ensures { result ≡ first_broken number results.now }
{
    let (first, rest) = results.split_first()?;
    match first {
        Some(_) => number_of_first_missing_result(number + 1, rest),
        None => Some(number),
    }
}

/// The verdict on a history whose replies are all values, from the state after the prefix. If no interleaving explains
/// it, also returns the branch numbers of the true events in the interleaving that the verdict rests on.
fn verdict_after_prefix<C: Callbacks, A: Condition, O: Order>(
    callbacks: &C,
    condition: &A,
    order: &O,
    alloc: Global,
    shaped: &Shaped,
    history: &History,
    results: &[Option<Value>],
    state: &Value,
) -> Result<(Verdict, Vec<usize>), AllocError>
    requires shape { IsShaped (C.model callbacks.now) shaped.now.case }
    requires matches { matches (C.model callbacks.now) shaped.now.case history.now ≡ true }
    requires results { results.now ≡ recorded history.now }
    requires answered { first_broken 1 (recorded history.now) ≡ None }
    requires state { IsRealState (C.model callbacks.now) shaped.now.case state.now }
    requires progress { NeverBlocks (O.order order.now) (branch_lengths shaped.now.case) }
    ensures { let c = shaped.now.case in let m = C.model callbacks.now in IfOk result
        (λ r. IsVerdictOfSearch m (A.asked condition.now m) (branch_events c history.now) (suffix_events c history.now)
        (O.order order.now) (branch_lengths c) (length c.prefix) state.now r.0 r.1.items) }
{
    let branches = branch_and_suffix_events(callbacks, condition, alloc, shaped, history, results)?;
    search(alloc, &branches, order, state, shaped.case().prefix.len())
}

/// The verdict on a history whose replies are all values. If no interleaving explains it, also returns the branch
/// numbers of the true events in the interleaving that the verdict rests on.
fn verdict_on_all_value_replies<C: Callbacks, A: Condition, O: Order>(
    callbacks: &C,
    condition: &A,
    order: &O,
    alloc: Global,
    shaped: &Shaped,
    history: &History,
    results: &[Option<Value>],
) -> Result<(Verdict, Vec<usize>), AllocError>
    requires shape { IsShaped (C.model callbacks.now) shaped.now.case }
    requires matches { matches (C.model callbacks.now) shaped.now.case history.now ≡ true }
    requires results { results.now ≡ recorded history.now }
    requires answered { first_broken 1 (recorded history.now) ≡ None }
    requires progress { NeverBlocks (O.order order.now) (branch_lengths shaped.now.case) }
    ensures verdict { let c = shaped.now.case in let m = C.model callbacks.now in IfOk result
        (λ r. IsJudgedAmong m (A.asked condition.now m) c history.now (IsRunInOrder (O.order order.now) c) r.0) }
    ensures letters { let c = shaped.now.case in let m = C.model callbacks.now in IfOk result
        (λ r. HasLettersAmong m (A.asked condition.now m) c history.now (IsRunInOrder (O.order order.now) c)
        r.0 r.1.items) }
{
    let (state, _) = match callbacks.init(alloc)? {
        Ok(opening) => opening,
        Err(fault) => {
            let place = FaultPlace {
                command: 0,
                callback: Callback::Init,
                fault,
            };
            return Ok((Verdict::Faulted(place), Vec::new(alloc)));
        }
    };
    let prefix = events_of_prefix(alloc, shaped, history, results)?;
    match run_events(callbacks, condition, alloc, state, prefix.as_slice())? {
        EventsEnd::Through(last) => {
            verdict_after_prefix(
                callbacks, condition, order, alloc, shaped, history, results, &last,
            )
        }
        EventsEnd::Stopped(at, StopReason::False) => Ok((
            Verdict::Unexplained(at),
            Vec::new(alloc),
        )),
        EventsEnd::Stopped(_, StopReason::Fault(place)) => {
            Ok((Verdict::Faulted(place), Vec::new(alloc)))
        }
    }
}

/// The verdict on a history of a case over the interleavings in order, with `condition` checked on each event. If the
/// verdict rests on an interleaving that does not explain the history, also returns the branch numbers of its true
/// events.
fn verdict_with_true_event_branches<C: Callbacks, A: Condition, O: Order>(
    callbacks: &C,
    condition: &A,
    order: &O,
    alloc: Global,
    shaped: &Shaped,
    history: &History,
) -> Result<(Verdict, Vec<usize>), AllocError>
    requires model { shaped.now.model ≡ C.model callbacks.now }
    requires matches { matches (C.model callbacks.now) shaped.now.case history.now ≡ true }
    requires progress { NeverBlocks (O.order order.now) (branch_lengths shaped.now.case) }
    ensures verdict { let m = C.model callbacks.now in IfOk result
        (λ r. IsVerdictInOrderAsking m (A.asked condition.now m) (O.order order.now) shaped.now.case history.now r.0) }
    ensures letters { let m = C.model callbacks.now in IfOk result
        (λ r. HasLettersInOrderAsking m (A.asked condition.now m) (O.order order.now) shaped.now.case history.now
        r.0 r.1.items) }
{
    let _case = shaped.case();
    let results = history.recorded(alloc)?;
    match number_of_first_missing_result(1, results.as_slice()) {
        Some(number) => Ok((Verdict::Broken(number), Vec::new(alloc))),
        None => verdict_on_all_value_replies(
            callbacks,
            condition,
            order,
            alloc,
            shaped,
            history,
            results.as_slice(),
        ),
    }
}

/// Returns the verdict on a history of a case over the interleavings in `order`, with `condition` checked on each event,
/// by the model of the callbacks.
///
/// It is [`verdict_in_order`] with the condition in place of each event's postcondition. The order must never block.
/// `AllocError` means that an allocation failed.
pub fn verdict_with_condition_in_order<C: Callbacks, A: Condition, O: Order>(
    callbacks: &C,
    condition: &A,
    order: &O,
    alloc: Global,
    shaped: &Shaped,
    history: &History,
) -> Result<Verdict, AllocError>
    requires model { shaped.now.model ≡ C.model callbacks.now }
    requires matches { matches (C.model callbacks.now) shaped.now.case history.now ≡ true }
    requires progress { NeverBlocks (O.order order.now) (branch_lengths shaped.now.case) }
    ensures { let m = C.model callbacks.now in IfOk result
        (IsVerdictInOrderAsking m (A.asked condition.now m) (O.order order.now) shaped.now.case history.now) }
{
    let (verdict, _) = verdict_with_true_event_branches(
        callbacks, condition, order, alloc, shaped, history,
    )?;
    Ok(verdict)
}

/// The verdict on a history of a case, with `condition` checked on each event, by the model of the callbacks.
///
/// It is [`verdict`] with the condition in place of each event's postcondition.
pub fn verdict_with_condition<C: Callbacks, A: Condition>(
    callbacks: &C,
    condition: &A,
    alloc: Global,
    shaped: &Shaped,
    history: &History,
) -> Result<Verdict, AllocError>
    requires model { shaped.now.model ≡ C.model callbacks.now }
    requires matches { matches (C.model callbacks.now) shaped.now.case history.now ≡ true }
    ensures { let m = C.model callbacks.now in IfOk result
        (IsVerdictAsking m (A.asked condition.now m) shaped.now.case history.now) }
{
    verdict_with_condition_in_order(callbacks, condition, &AnyOrder, alloc, shaped, history)
}

/// Returns the verdict on a history of a case over the interleavings in `order`, by the model of the callbacks.
///
/// It is [`verdict`] where only the interleavings in the order count: one that is not in order does not count, wherever
/// it would stop. With the times of the calls, [`crate::RecordedOrder`], a history is explained if it is *linearizable*; with
/// [`AnyOrder`] it is explained if it is *sequentially consistent*. The order must never block: wherever commands of
/// the branches are left, some branch that has one is open. `AllocError` means that an allocation failed.
pub fn verdict_in_order<C: Callbacks, O: Order>(
    callbacks: &C,
    order: &O,
    alloc: Global,
    shaped: &Shaped,
    history: &History,
) -> Result<Verdict, AllocError>
    requires model { shaped.now.model ≡ C.model callbacks.now }
    requires matches { matches (C.model callbacks.now) shaped.now.case history.now ≡ true }
    requires progress { NeverBlocks (O.order order.now) (branch_lengths shaped.now.case) }
    ensures verdict { IfOk result
        (IsVerdictInOrder (C.model callbacks.now) (O.order order.now) shaped.now.case history.now) }
    ensures faults { IfOk result (λ v. WellModel (C.model callbacks.now)
        → IsValid (C.model callbacks.now) shaped.now.case → FaultsOnlyInPost v) }
{
    let _case = shaped.case();
    verdict_with_condition_in_order(callbacks, &Postconditions, order, alloc, shaped, history)
}

/// The verdict on a history of a case, by the model of the callbacks.
///
/// It is `Broken` at the first command whose reply is no value. Otherwise it depends on the replay of every
/// interleaving of the branches, after the prefix and before the suffix, with the recorded results in place of
/// variables. It is `Explained` with the first interleaving in which every event is true; else `Faulted` at the fault
/// of the first interleaving that faults; else `Unexplained`. In a case that is valid by a well-typed model no callback
/// but `post` faults.
pub fn verdict<C: Callbacks>(
    callbacks: &C,
    alloc: Global,
    shaped: &Shaped,
    history: &History,
) -> Result<Verdict, AllocError>
    requires model { shaped.now.model ≡ C.model callbacks.now }
    requires matches { matches (C.model callbacks.now) shaped.now.case history.now ≡ true }
    ensures verdict { IfOk result (IsVerdict (C.model callbacks.now) shaped.now.case history.now) }
    ensures faults { IfOk result (λ v. WellModel (C.model callbacks.now)
        → IsValid (C.model callbacks.now) shaped.now.case → FaultsOnlyInPost v) }
{
    let _case = shaped.case();
    verdict_with_condition(callbacks, &Postconditions, alloc, shaped, history)
}

/// The interleaving of a verdict that explains, or else `letters`.
fn explaining_interleaving_or_given(
    alloc: Global,
    verdict: &Verdict,
    letters: Vec<usize>,
) -> Result<Vec<usize>, AllocError>
    ensures { IfOk result (λ word. word.items ≡ word_or verdict.now letters.items) }
{
    match verdict {
        Verdict::Explained(word) => word.to_vec(alloc),
        _ => Ok(letters),
    }
}

/// Returns the [`verdict_in_order`] on a history of a case, and its interleaving, from one search.
///
/// The interleaving is that of [`verdict_with_interleaving`] among the interleavings in `order`. The order must never
/// block. `AllocError` means that an allocation failed.
pub fn verdict_with_interleaving_in_order<C: Callbacks, O: Order>(
    callbacks: &C,
    order: &O,
    alloc: Global,
    shaped: &Shaped,
    history: &History,
) -> Result<(Verdict, Vec<usize>), AllocError>
    requires model { shaped.now.model ≡ C.model callbacks.now }
    requires matches { matches (C.model callbacks.now) shaped.now.case history.now ≡ true }
    requires progress { NeverBlocks (O.order order.now) (branch_lengths shaped.now.case) }
    ensures verdict { IfOk result
        (λ r. IsVerdictInOrder (C.model callbacks.now) (O.order order.now) shaped.now.case history.now r.0) }
    ensures interleaving { IfOk result
        (λ r. IsInterleavingInOrder (C.model callbacks.now) (O.order order.now) shaped.now.case history.now
        r.0 r.1.items) }
{
    let (verdict, letters) = verdict_with_true_event_branches(
        callbacks,
        &Postconditions,
        order,
        alloc,
        shaped,
        history,
    )?;
    let word = explaining_interleaving_or_given(alloc, &verdict, letters)?;
    Ok((verdict, word))
}

/// The [`verdict`] on a history of a case, and its interleaving, from one search.
///
/// For `Explained` it is the interleaving that explains. For `Faulted` it has the branch numbers of the true events of
/// the first interleaving that faults, and for `Unexplained` those of the first interleaving with the most true events
/// before a false one: all branch numbers if the suffix stops the run, and none if the prefix does. Each interleaving
/// that begins with those of `Unexplained` stops there: each next command is false. For `Broken` it is empty.
pub fn verdict_with_interleaving<C: Callbacks>(
    callbacks: &C,
    alloc: Global,
    shaped: &Shaped,
    history: &History,
) -> Result<(Verdict, Vec<usize>), AllocError>
    requires model { shaped.now.model ≡ C.model callbacks.now }
    requires matches { matches (C.model callbacks.now) shaped.now.case history.now ≡ true }
    ensures verdict { IfOk result (λ r. IsVerdict (C.model callbacks.now) shaped.now.case history.now r.0) }
    ensures interleaving { IfOk result
        (λ r. IsInterleaving (C.model callbacks.now) shaped.now.case history.now r.0 r.1.items) }
{
    verdict_with_interleaving_in_order(callbacks, &AnyOrder, alloc, shaped, history)
}
