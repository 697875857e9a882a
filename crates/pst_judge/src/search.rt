//! The search over the interleavings of the branches that are in order.
ghost use Rattle.std.specs.Prelude.{◌≡◌, ◌+◌, ◌<◌, ◌≤◌, ◌^◌, IfOk, map, length, sum};
ghost use Rattle.pst_case.specs.Shape.{result_types};
ghost use Rattle.pst_grid.specs.Orders.{NeverBlocks};
ghost use Rattle.pst_judge.specs.FromAnswer.{IsVerdictOfSearch, OnNothing, letters_of, verdict_of};
ghost use Rattle.pst_judge.specs.Replay.{branch_lengths};
ghost use Rattle.pst_judge.specs.Running.{BranchesFit, EventsFit, IsRealState};

use crate::events::Event;
use crate::judgement::Verdict;
use crate::packed::Packed;
use crate::replay::{Condition, replay_event, run_suffix};
use pst_case::{Command, Shaped};
use pst_eval::{Callbacks, FaultPlace};
use pst_grid::{Ending, Order, SomeAnswer, StepOutcome, Steps, some_in_order};
use pst_value::{Items, Value};
use std::alloc::{AllocError, Global};

/// The events of the branches of a case, for a search to step through, and those of its suffix, which run when all
/// branches have ended.
#[derive(Drop)]
pub struct Branches<'a, C, A> {
    pub callbacks: &'a C,
    pub condition: &'a A,
    pub shaped: &'a Shaped,
    pub events: Items<Items<Event>>,
    pub suffix: Items<Event>,
}

impl<'a, C: Callbacks, A: Condition> Steps for Branches<'a, C, A> {
    ghost use Rattle.std.proofs.Common.{refl};
    ghost use Rattle.std.specs.Prelude.{◌≡◌, Some, length};
    ghost use Rattle.pst_case.specs.Shape.{result_types};
    ghost use Rattle.pst_judge.specs.Replay.{EventFits, branch_outcome_asking, event_at};
    ghost use Rattle.pst_judge.specs.Running.{EventsFit, IsRealState, last_events};
    ghost use Rattle.pst_judge.specs.declared.events.Event.{Event};
    ghost use Rattle.pst_judge.specs.Feeding.{fed};
    ghost use Rattle.pst_value.proofs.Exact.{same_value-Decides};

    type State = Value;

    type Kept = Packed;

    type Fault = FaultPlace;

    ghost is_state = { λ b s. let m = C.model b.callbacks.now in
        IsRealState m b.shaped.now.case s × EventsFit m (result_types m b.shaped.now.case) b.suffix };

    ghost is_command = { λ b branch index. let m = C.model b.callbacks.now in
        (e : Event) × (event_at b.events branch index ≡ Some e)
        × EventFits m (result_types m b.shaped.now.case) e };

    ghost outcome = { λ b s branch index. let m = C.model b.callbacks.now in
        branch_outcome_asking m (A.asked b.condition.now m) b.events s branch index };

    ghost rest = { λ b s. let m = C.model b.callbacks.now in
        last_events m (A.asked b.condition.now m) b.suffix s };

    ghost most_rest = { λ b. length b.suffix };

    #[inline(always)]
    fn step(
        &self,
        alloc: Global,
        state: &Value,
        branch: usize,
        index: usize,
    ) -> Result<StepOutcome<Value, FaultPlace>, AllocError> {
        let Some(events) = self.events.get(branch) else {
            unreachable!()
        };
        let Some(event) = events.get(index) else {
            unreachable!()
        };
        replay_event(self.callbacks, self.condition, alloc, state, event)
    }

    fn run_rest(
        &self,
        alloc: Global,
        state: &Value,
    ) -> Result<(Ending<FaultPlace>, usize), AllocError> {
        let start = state.copy(alloc)?;
        match run_suffix(
            self.callbacks,
            self.condition,
            alloc,
            start,
            self.suffix.as_slice(),
        )? {
            Ending::AllTrue => Ok((Ending::AllTrue, self.suffix.len())),
            Ending::StopsAt(at, why) => Ok((Ending::StopsAt(at, why), at + 1)),
        }
    }

    fn has_rest(&self) -> bool {
        !self.suffix.is_empty()
    }

    #[inline(always)]
    fn keep(&self, alloc: Global, state: &Value) -> Result<Packed, AllocError> {
        Packed::new(alloc, state)
    }

    ghost state_of = { λ kept. kept };

    ghost fed = { fed };

    ghost exact = { λ a b h. (same_value-Decides a b).0 h };

    ghost same = { λ a b. refl };

    ghost feeds = { λ kept. refl };
}

/// How many commands each branch has.
pub fn count_commands_in_each_branch(
    alloc: Global,
    branches: &[Items<Command>],
) -> Result<Vec<usize>, AllocError>
    ensures { IfOk result (λ lengths. lengths.items ≡ map length branches.now) }
{
    let mut lengths = Vec::new(alloc);
    for branch in branches {
        lengths.push(branch.len())?;
    }
    Ok(lengths)
}

/// The verdict for the answer of a search, with `prefix` events before the branches. If the interleaving in the answer
/// is not true to its end, also returns the branch numbers of its true events.
fn verdict_of_search_answer(
    alloc: Global,
    prefix: usize,
    answer: SomeAnswer<FaultPlace>,
) -> (Verdict, Vec<usize>)
    requires { OnNothing answer (λ far. prefix + far < 2 ^ 64) }
    ensures verdict { result.0 ≡ verdict_of prefix answer }
    ensures letters { result.1.items ≡ letters_of answer }
{
    match answer {
        SomeAnswer::Found { word } => (Verdict::Explained(word), Vec::new(alloc)),
        SomeAnswer::Faulted {
            mut word,
            at,
            fault,
        } => {
            word.truncate(at);
            (Verdict::Faulted(fault), word)
        }
        SomeAnswer::Nothing { far, mut word } => {
            word.truncate(far);
            (Verdict::Unexplained(prefix + far), word)
        }
    }
}

/// Searches the interleavings of the branches that are in order, from the state after the prefix, with the suffix after
/// each, and returns the verdict. If no interleaving explains, also returns the branch numbers of the true events in the
/// interleaving that the verdict rests on. Each `requires` is one fact on what has happened before.
pub fn search<C: Callbacks, A: Condition, O: Order>(
    alloc: Global,
    branches: &Branches<'_, C, A>,
    order: &O,
    state: &Value,
    prefix: usize,
) -> Result<(Verdict, Vec<usize>), AllocError>
    requires state { IsRealState (C.model branches.now.callbacks.now) branches.now.shaped.now.case state.now }
    requires commands { let m = C.model branches.now.callbacks.now in
        BranchesFit m branches.now.shaped.now.case branches.now.events }
    requires events { let m = C.model branches.now.callbacks.now in
        EventsFit m (result_types m branches.now.shaped.now.case) branches.now.suffix }
    requires progress { NeverBlocks (O.order order.now) (branch_lengths branches.now.shaped.now.case) }
    requires prefix { prefix ≤ 64 }
    requires lengths { sum (branch_lengths branches.now.shaped.now.case) ≤ 16 }
    requires suffix { length branches.now.suffix ≤ 8 }
    ensures { let b = branches.now in let m = C.model b.callbacks.now in IfOk result
        (λ r. IsVerdictOfSearch m (A.asked b.condition.now m) b.events b.suffix
        (O.order order.now) (branch_lengths b.shaped.now.case) prefix state.now r.0 r.1.items) }
{
    let lengths = count_commands_in_each_branch(alloc, branches.shaped.case().branches.as_slice())?;
    let (answer, _) = some_in_order(alloc, branches, order, lengths.as_slice(), state)?;
    Ok(verdict_of_search_answer(alloc, prefix, answer))
}
