//! Verdicts over all interleavings, or over those in the order of the recorded times.
ghost use Rattle.std.specs.Prelude.{◌≡◌, true, false, IfOk, option_copied};
ghost use Rattle.pst_case.specs.Matches.{matches};
ghost use Rattle.pst_grid.specs.Orders.{NeverBlocks};
ghost use Rattle.pst_case.specs.Unknown.{has_unknown};
ghost use Rattle.pst_judge.specs.ByOrder.{IsVerdictBy, IsVerdictOfKnown, calls_order_by, order_by, order_of, times_of};
ghost use Rattle.pst_judge.specs.Unknown.{IsVerdictWithUnknown, calls_order};
ghost use Rattle.pst_judge.specs.UnknownCalls.{column_lengths};
ghost use Rattle.pst_judge.specs.Real.{FaultsOnlyInPost};
ghost use Rattle.pst_judge.specs.Judgement.{HistoryMatches, IsJudgementBy};
ghost use Rattle.pst_judge.specs.Replay.{branch_lengths};
ghost use Rattle.pst_judge.specs.Validity.{IsValid};
ghost use Rattle.pst_model.specs.WellTyped.{WellModel};

use crate::judgement::{Judged, Verdict, judge_case};
use crate::judging::verdict_in_order;
use crate::real_time::RealTime;
use crate::replay::Postconditions;
use crate::search::count_commands_in_each_branch;
use crate::unknown::verdict_with_unknown;
use pst_case::{CallTime, History, Run, Shaped, do_times_fit};
use pst_eval::Callbacks;
use pst_grid::Order;
use pst_value::Items;
use std::alloc::{AllocError, Global};

/// Which interleavings of the branches may explain a history.
#[derive(Clone, Copy, Debug, PartialEq, Eq, Drop)]
pub enum CallOrder {
    /// All of them: the history is *sequentially consistent* if one explains it.
    Any,
    /// Those in which no call is before one that precedes it in time: the history is *linearizable* if one explains it.
    /// A history without times is judged by all interleavings.
    Time,
}

/// The order of the calls of a history: of their recorded times, or none.
#[derive(Drop)]
pub struct RecordedOrder<'a> {
    /// The times of the calls of each branch, if they count.
    times: Option<&'a [Items<CallTime>]>,
}

impl<'a> Order for RecordedOrder<'a> {
    ghost use Rattle.std.specs.Prelude.{option_copied};
    ghost use Rattle.pst_judge.specs.ByOrder.{order_of};

    ghost order = { λ recorded. order_of (option_copied recorded.times) };

    fn is_open(&self, done: &[usize], branch: usize) -> bool {
        match self.times {
            Some(branches) => RealTime { branches }.is_open(done, branch),
            None => true,
        }
    }
}

/// Returns the recorded times of a history, if there is one for each command of the branches. `AllocError` means that an
/// allocation failed.
pub fn fitting_times<'a>(
    alloc: Global,
    shaped: &Shaped,
    history: &'a History,
) -> Result<Option<&'a [Items<CallTime>]>, AllocError>
    ensures { IfOk result (λ times. option_copied times ≡ times_of shaped.now.case history.now) }
{
    let Some(times) = &history.times else {
        return Ok(None);
    };
    let counts = count_commands_in_each_branch(alloc, shaped.case().branches.as_slice())?;
    if do_times_fit(counts.as_slice(), times.as_slice()) {
        Ok(Some(times.as_slice()))
    } else {
        Ok(None)
    }
}

impl<'a> RecordedOrder<'a> {
    /// Returns the order in which the calls of a history count. `AllocError` means that an allocation failed.
    pub fn new(
        alloc: Global,
        order: CallOrder,
        shaped: &Shaped,
        history: &'a History,
    ) -> Result<RecordedOrder<'a>, AllocError>
        ensures order { IfOk result (λ recorded.
            ⟦<RecordedOrder<'a> as Order>⟧.order recorded ≡ order_by order shaped.now.case history.now) }
        ensures progress { NeverBlocks (order_by order shaped.now.case history.now) (branch_lengths shaped.now.case) }
    {
        let times = match order {
            CallOrder::Any => None,
            CallOrder::Time => fitting_times(alloc, shaped, history)?,
        };
        Ok(RecordedOrder { times })
    }

    /// Returns the order in which the calls of a history count in which some have an unknown outcome. `AllocError` means
    /// that an allocation failed.
    pub fn of_calls(
        alloc: Global,
        order: CallOrder,
        history: &'a History,
    ) -> Result<RecordedOrder<'a>, AllocError>
        ensures order { IfOk result (λ recorded.
            ⟦<RecordedOrder<'a> as Order>⟧.order recorded ≡ calls_order_by order history.now) }
    {
        let times = match order {
            CallOrder::Any => None,
            CallOrder::Time => history.times_of_calls(alloc)?,
        };
        Ok(RecordedOrder { times })
    }
}

/// Returns the verdict on a history of a case, over all interleavings or over those in the order of its times, by the
/// model of the callbacks.
///
/// It is [`crate::verdict`] where only the interleavings in order count. Times that are not one for each command of the
/// branches are left aside. If a call has an unknown outcome, it is [`crate::verdict_with_unknown`], and only without such
/// calls a valid case faults in `post` alone. `AllocError` means that an allocation failed.
pub fn verdict_by<C: Callbacks>(
    callbacks: &C,
    order: CallOrder,
    alloc: Global,
    shaped: &Shaped,
    history: &History,
) -> Result<Verdict, AllocError>
    requires model { shaped.now.model ≡ C.model callbacks.now }
    requires matches { matches (C.model callbacks.now) shaped.now.case history.now ≡ true }
    ensures verdict { IfOk result (IsVerdictBy order (C.model callbacks.now) shaped.now.case history.now) }
    ensures faults { IfOk result (λ v. has_unknown history.now ≡ false → WellModel (C.model callbacks.now)
        → IsValid (C.model callbacks.now) shaped.now.case → FaultsOnlyInPost v) }
{
    if history.has_unknown() {
        let _case = shaped.case();
        let recorded = RecordedOrder::of_calls(alloc, order, history)?;
        return verdict_with_unknown(
            callbacks,
            &Postconditions,
            &recorded,
            alloc,
            shaped,
            history,
        );
    }
    let recorded = RecordedOrder::new(alloc, order, shaped, history)?;
    verdict_in_order(callbacks, &recorded, alloc, shaped, history)
}

/// Judges items by a model's callbacks and an order of the calls.
#[derive(Drop)]
pub struct Judge<'a, C> {
    /// The callbacks of the model.
    pub callbacks: &'a C,
    /// Which interleavings may explain a history.
    pub order: CallOrder,
}

impl<'a, C: Callbacks> Judge<'a, C> {
    /// Returns the verdict on the item's history, over all interleavings or over those in the order of its times; or, if
    /// the item has no history, whether its case is valid. `AllocError` means that an allocation failed.
    pub fn judge_one(&self, alloc: Global, run: &Run) -> Result<Judged, AllocError>
        requires model { run.now.shaped.model ≡ C.model self.now.callbacks.now }
        requires matches { HistoryMatches (C.model self.now.callbacks.now) run.now }
        ensures { IfOk result (IsJudgementBy self.now.order (C.model self.now.callbacks.now) run.now) }
    {
        match &run.history {
            Some(history) => {
                let shaped = &run.shaped;
                let verdict = verdict_by(self.callbacks, self.order, alloc, shaped, history)?;
                Ok(Judged::Verdict(verdict))
            }
            None => judge_case(self.callbacks, alloc, &run.shaped),
        }
    }
}
