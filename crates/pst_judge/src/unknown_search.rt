//! The search over the interleavings of calls of which some have an unknown outcome.
ghost use Rattle.std.specs.Prelude.{◌≡◌, ℕ, ◌+◌, ◌<◌, ◌≤◌, ◌^◌, [], ◌∷◌, IfOk, MatchOption, length, slice_index, take};
ghost use Rattle.pst_case.specs.Shape.{result_types};
ghost use Rattle.pst_grid.specs.Merges.{none_done, one_more};
ghost use Rattle.pst_grid.specs.StepOutcomes.{OnNext};
ghost use Rattle.pst_judge.specs.Running.{IsRealState};
ghost use Rattle.pst_judge.specs.Unknown as spec;
ghost use Rattle.pst_judge.specs.UnknownFitting.{UnknownFits};

use crate::events::Event;
use crate::packed::Packed;
use crate::replay::{Condition, replay_event};
use pst_case::Shaped;
use pst_eval::{Callbacks, FaultPlace};
use pst_grid::{Ending, Order, StepOutcome, Steps, StopReason};
use pst_value::{Items, Value};
use std::alloc::{AllocError, Global};
use std::hash::Hash;

/// A state, with how many calls with values are left.
#[derive(Debug, PartialEq, Eq, Hash, Drop)]
pub struct Moment<S> {
    pub state: S,
    pub left: usize,
}

/// The columns of calls of a history, for a search to step through.
#[derive(Drop)]
pub(crate) struct Columns<'a, C, A> {
    pub callbacks: &'a C,
    pub condition: &'a A,
    pub shaped: &'a Shaped,
    pub calls: Items<Items<Event>>,
}

/// The moment after a call with a value.
fn moment_after_known(
    left: usize,
    outcome: StepOutcome<Value, FaultPlace>,
) -> StepOutcome<Moment<Value>, FaultPlace>
    ensures { result ≡ spec.after_known left outcome }
{
    match outcome {
        StepOutcome::Next(state) => StepOutcome::Next(Moment {
            state,
            left: left.saturating_sub(1),
        }),
        StepOutcome::Stop(why) => StepOutcome::Stop(why),
    }
}

impl<'a, C: Callbacks, A: Condition> Columns<'a, C, A> {
    /// Takes a call of unknown outcome: it takes effect if a call with a value is left.
    fn take_unknown(
        &self,
        alloc: Global,
        moment: &Moment<Value>,
        event: &Event,
    ) -> Result<StepOutcome<Moment<Value>, FaultPlace>, AllocError>
        requires state { IsRealState (C.model self.now.callbacks.now) self.now.shaped.now.case moment.now.state }
        requires fits { let m = C.model self.now.callbacks.now in
            UnknownFits m (result_types m self.now.shaped.now.case) event.now }
        ensures outcome { IfOk result (λ t. t ≡ spec.unknown_outcome (C.model self.now.callbacks.now) moment.now event.now) }
        ensures state { IfOk result (λ t. OnNext t (λ later.
            IsRealState (C.model self.now.callbacks.now) self.now.shaped.now.case later.state)) }
    {
        let left = moment.left;
        if left == 0 {
            let state = moment.state.copy(alloc)?;
            return Ok(StepOutcome::Next(Moment { state, left }));
        }
        let args = event.args.as_slice();
        match self
            .callbacks
            .next(alloc, event.op, &moment.state, args, &event.reference)?
        {
            Ok((state, _)) => Ok(StepOutcome::Next(Moment { state, left })),
            Err(_) => Ok(StepOutcome::Stop(StopReason::False)),
        }
    }
}

impl<'a, C: Callbacks, A: Condition> Steps for Columns<'a, C, A> {
    ghost use Rattle.std.proofs.Common.{refl};
    ghost use Rattle.std.specs.Prelude.{◌≡◌, Some};
    ghost use Rattle.pst_case.specs.Shape.{result_types};
    ghost use Rattle.pst_grid.specs.Merges.{nothing_follows};
    ghost use Rattle.pst_judge.specs.Replay.{event_at};
    ghost use Rattle.pst_judge.specs.Running.{IsRealState};
    ghost use Rattle.pst_judge.specs.Unknown.{column_outcome};
    ghost use Rattle.pst_judge.specs.UnknownFitting.{CallFits};
    ghost use Rattle.pst_judge.specs.declared.events.Event.{Event};
    ghost use Rattle.pst_value.proofs.Exact.{same_value-Decides};
    ghost use Rattle.pst_value.proofs.ItemsExact.{both_first, both_second};
    ghost use Rattle.pst_value.specs.Equality.{same_value};
    ghost use Rattle.std.proofs.lemmas.Bool.{eqb-true};

    type State = Moment<Value>;

    type Kept = Moment<Packed>;

    type Fault = FaultPlace;

    ghost is_state = { λ b t. IsRealState (C.model b.callbacks.now) b.shaped.now.case t.state };

    ghost is_command = { λ b column index. let m = C.model b.callbacks.now in
        (e : Event) × (event_at b.calls column index ≡ Some e)
        × CallFits m (result_types m b.shaped.now.case) e };

    ghost outcome = { λ b t column index. let m = C.model b.callbacks.now in
        column_outcome m (A.asked b.condition.now m) b.calls t column index };

    ghost rest = { λ b t. nothing_follows t };

    ghost most_rest = { λ b. 0 };

    fn step(
        &self,
        alloc: Global,
        moment: &Moment<Value>,
        column: usize,
        index: usize,
    ) -> Result<StepOutcome<Moment<Value>, FaultPlace>, AllocError> {
        let Some(calls) = self.calls.get(column) else {
            unreachable!()
        };
        let Some(event) = calls.get(index) else {
            unreachable!()
        };
        if event.has_unknown_outcome() {
            return self.take_unknown(alloc, moment, event);
        }
        let outcome = replay_event(self.callbacks, self.condition, alloc, &moment.state, event)?;
        Ok(moment_after_known(moment.left, outcome))
    }

    fn run_rest(
        &self,
        _alloc: Global,
        _moment: &Moment<Value>,
    ) -> Result<(Ending<FaultPlace>, usize), AllocError> {
        Ok((Ending::AllTrue, 0))
    }

    fn has_rest(&self) -> bool {
        false
    }

    fn keep(&self, alloc: Global, moment: &Moment<Value>) -> Result<Moment<Packed>, AllocError> {
        Ok(Moment {
            state: Packed::new(alloc, &moment.state)?,
            left: moment.left,
        })
    }

    ghost state_of = { λ kept. kept };

    ghost fed = { λ t. ⟦<Moment<Packed> as Hash>⟧.hash_input t };

    ghost exact = { λ a b h. λ i. record {
      state = (same_value-Decides a.state b.state).0 (both_first (same_value a.state b.state) _ h) i;
      left = eqb-true a.left b.left (both_second (same_value a.state b.state) _ h) i;
    } };

    ghost same = { λ a b. refl };

    ghost feeds = { λ kept. refl };
}

/// Whether each of the first counts is reached by `done`.
fn are_reached(counts: &[usize], done: &[usize]) -> bool
    ensures { result ≡ spec.are_reached counts.now done.now }
{
    let Some((count, counts)) = counts.split_first() else {
        return true;
    };
    match done.split_first() {
        Some((first, done)) => *count <= *first && are_reached(counts, done),
        None => false,
    }
}

/// The number of the column of the suffix.
const SUFFIX: usize = 5;

/// An order of the calls of the branches, with the suffix after those of them that have values.
#[derive(Drop)]
pub(crate) struct SuffixLast<'a, O> {
    pub order: &'a O,
    /// How many calls of each column have values.
    pub knowns: &'a [usize],
}

impl<'a, O: Order> Order for SuffixLast<'a, O> {
    ghost use Rattle.pst_judge.specs.Unknown.{suffix_last};

    ghost order = { λ o. suffix_last o.knowns.now (O.order o.order.now) };

    fn is_open(&self, done: &[usize], column: usize) -> bool {
        let branches = match self.knowns.get(..4) {
            Some(branches) => branches,
            None => self.knowns,
        };
        self.order.is_open(done, column) && (column != SUFFIX || are_reached(branches, done))
    }
}

/// Counts one more call of a column.
fn count_one_more(done: &mut [usize], column: usize)
    requires { slice_index done.old column + 1 < 2 ^ 64 }
    ensures { done.new ≡ one_more done.old column }
{
    if column < done.len() {
        done[column] += 1;
    }
}

fn split_first_letter(word: &[usize]) -> Option<(&usize, &[usize])>
    ensures { MatchOption result (word.now ≡ []) (λ p. word.now ≡ p.0.now ∷ p.1.now) }
{
    word.split_first()
}

/// The number of letters of a word up to the last call with a value. `done` has the number of calls of each column before it.
fn count_effective_letters(knowns: &[usize], done: &mut [usize], word: &[usize]) -> usize
    requires { (b : ℕ) → slice_index done.old b + length word.now < 2 ^ 64 }
    ensures letters { take result word.now ≡ spec.effective knowns.now done.old word.now }
    ensures within { result ≤ length word.now }
{
    let Some((column, rest)) = split_first_letter(word) else {
        return 0;
    };
    if are_reached(knowns, done) {
        return 0;
    }
    count_one_more(done, *column);
    1 + count_effective_letters(knowns, done, rest)
}

/// The letters of a word of columns up to the last call with a value. `knowns` says how many calls of each column have
/// values.
pub(crate) fn effective_letters(
    alloc: Global,
    knowns: &[usize],
    mut word: Vec<usize>,
) -> Result<Vec<usize>, AllocError>
    ensures { IfOk result (λ letters. letters.items ≡ spec.effective knowns.now (none_done knowns.now) word.items) }
{
    let mut done = vec![in alloc; 0; knowns.len()]?;
    let end = count_effective_letters(knowns, done.as_mut_slice(), word.as_slice());
    word.truncate(end);
    Ok(word)
}
