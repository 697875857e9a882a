//! The search that remembers the positions that it has searched from.
ghost use Rattle.std.specs.Prelude.{◌≡◌, ℕ, ◌+◌, ◌-◌, ◌*◌, ◌++◌, ◌∷◌, ◌^◌, ◌<◌, ◌≤◌, length, sum, slice_index, IfOk};
ghost use Rattle.pst_grid.specs.Answers.{IsAnswer, IsAnswerAmong, IsEveryAnswer, IsEveryAnswerAmong};
ghost use Rattle.pst_grid.specs.Bounds.{IsBounded};
ghost use Rattle.pst_grid.specs.Completions.{IsAt};
ghost use Rattle.pst_grid.specs.Orders.{NeverBlocks, IsMergeInOrder, Extends, Begins};
ghost use Rattle.pst_grid.specs.Covered.{IsExploredWhole};
ghost use Rattle.pst_grid.specs.Kept.{IsFresh};
ghost use Rattle.pst_grid.specs.Remembered.{AreAccounted, IsSearched};
ghost use Rattle.pst_grid.specs.StepOutcomes.{AreCommands};

use crate::hasher::BuildPositionHasher;
use crate::position::{KeptState, Position, remember_position_if_new};
use crate::search::{Goal, SearchProgress, are_all_branches_done, run_rest_and_check_goal};
use crate::{AnyOrder, EveryAnswer, Order, SomeAnswer, StepOutcome, Steps};
use indexmap::IndexSet;
use std::alloc::{AllocError, Global};

/// Searches the completions of the word for the first that the search is for, and returns whether there is one. If it
/// is true to its end, it is then the word, and otherwise it is what the search keeps. Each clause is a fact on one of
/// the things that the search keeps.
#[cycle(search)]
fn explore_unless_remembered<S: Steps, O: Order>(
    alloc: Global,
    steps: &S,
    order: &O,
    lengths: &[usize],
    goal: Goal,
    search: &mut SearchProgress<S::Fault>,
    seen: &mut IndexSet<Position<KeptState<S>>, BuildPositionHasher>,
    state: &S::State,
) -> Result<bool, AllocError>
    requires place { IsAt lengths.now search.old.done.items }
    requires depth { sum search.old.done.items ≡ length search.old.word.items }
    requires state { S.is_state steps.now state.now }
    requires commands { AreCommands (S.is_command steps.now) lengths.now }
    requires progress { NeverBlocks (O.order order.now) lengths.now }
    requires room { S.most_rest steps.now < 2 ^ 32 }
    requires fresh { IsFresh goal search.old.best }
    requires accounted { AreAccounted (S.outcome steps.now) (S.rest steps.now) goal (O.order order.now) lengths.now
        (sum search.old.done.items) search.old.best seen.old.keys }
    ensures { IfOk result (IsSearched (S.outcome steps.now) (S.rest steps.now) goal (O.order order.now) lengths.now
        (S.most_rest steps.now) 0 (sum search.old.done.items) state.now
        (Extends (O.order order.now) lengths.now search.old.done.items)
        search.old search.new seen.old.keys seen.new.keys) }
{
    let ended = are_all_branches_done(lengths, &search.done);
    if ended && !steps.has_rest() {
        return Ok(!goal.wants_stopped_interleaving());
    }
    if !remember_position_if_new(alloc, steps, seen, &search.done, state)? {
        return Ok(false);
    }
    if ended {
        return run_rest_and_check_goal(alloc, steps, order, lengths, goal, search, state);
    }
    for branch in 0..lengths.len() {
        if explore_branch(
            alloc, steps, order, lengths, goal, search, seen, state, branch,
        )? {
            return Ok(true);
        }
    }
    Ok(false)
}

/// Searches the completions of the word that begin with `branch`. Each clause is a fact on one of the things that the
/// search keeps.
#[cycle(search)]
fn explore_branch<S: Steps, O: Order>(
    alloc: Global,
    steps: &S,
    order: &O,
    lengths: &[usize],
    goal: Goal,
    search: &mut SearchProgress<S::Fault>,
    seen: &mut IndexSet<Position<KeptState<S>>, BuildPositionHasher>,
    state: &S::State,
    branch: usize,
) -> Result<bool, AllocError>
    requires place { IsAt lengths.now search.old.done.items }
    requires depth { sum search.old.done.items ≡ length search.old.word.items }
    requires state { S.is_state steps.now state.now }
    requires commands { AreCommands (S.is_command steps.now) lengths.now }
    requires progress { NeverBlocks (O.order order.now) lengths.now }
    requires branch { branch < length lengths.now }
    requires room { S.most_rest steps.now < 2 ^ 32 }
    requires fresh { IsFresh goal search.old.best }
    requires accounted { AreAccounted (S.outcome steps.now) (S.rest steps.now) goal (O.order order.now) lengths.now
        (sum search.old.done.items + 1) search.old.best seen.old.keys }
    ensures { IfOk result (IsSearched (S.outcome steps.now) (S.rest steps.now) goal (O.order order.now) lengths.now
        (S.most_rest steps.now) 1 (sum search.old.done.items + 1) state.now
        (Begins (O.order order.now) lengths.now search.old.done.items branch)
        search.old search.new seen.old.keys seen.new.keys) }
{
    let index = search.done[branch];
    if index >= lengths[branch] {
        return Ok(false);
    }
    if !order.is_open(&search.done, branch) {
        return Ok(false);
    }
    search.steps = search.steps.saturating_add(1);
    match steps.step(alloc, state, branch, index)? {
        StepOutcome::Next(next) => {
            search.advance_in_branch(lengths, branch)?;
            if explore_unless_remembered(alloc, steps, order, lengths, goal, search, seen, &next)? {
                return Ok(true);
            }
            search.go_back_in_branch(branch);
            Ok(false)
        }
        StepOutcome::Stop(why) => {
            search.note_stop_by_next_command(alloc, order, lengths, branch, why)?;
            Ok(goal.wants_stopped_interleaving())
        }
    }
}

/// Searches the interleavings that are in order, from the state `start`, for the first that the search is for. Returns
/// whether there is one, and the search.
fn search_interleavings_for_goal<S: Steps, O: Order>(
    alloc: Global,
    steps: &S,
    order: &O,
    lengths: &[usize],
    goal: Goal,
    start: &S::State,
) -> Result<(bool, SearchProgress<S::Fault>), AllocError>
    requires state { S.is_state steps.now start.now }
    requires commands { AreCommands (S.is_command steps.now) lengths.now }
    requires progress { NeverBlocks (O.order order.now) lengths.now }
    requires room { S.most_rest steps.now < 2 ^ 32 }
    ensures explored { IfOk result
        (λ r. IsExploredWhole (S.outcome steps.now) (S.rest steps.now) goal start.now
        (O.order order.now) lengths.now r.1 r.0) }
    ensures bound { IfOk result
        (λ r. IsBounded (S.outcome steps.now) lengths.now (S.most_rest steps.now) start.now r.1.steps) }
{
    let mut search = SearchProgress::new(alloc, lengths)?;
    let mut seen = IndexSet::with_hasher(alloc, BuildPositionHasher::new());
    let found = explore_unless_remembered(
        alloc,
        steps,
        order,
        lengths,
        goal,
        &mut search,
        &mut seen,
        start,
    )?;
    // The length is not used: `len` says that the set has no repeats.
    let _ = seen.len();
    Ok((found, search))
}

/// Searches the interleavings of branches of these lengths that are in `order`, from the state `start`, for the first
/// that is true to its end. An interleaving that is not in order does not count, wherever it would stop.
///
/// Branch `b` has `lengths[b]` commands. Interleavings are ordered as words of branch numbers. The order must never
/// block: wherever commands are left, some branch that has one is open. The second result is the number of steps, as of
/// [`some`]; a closed branch takes no step.
pub fn some_in_order<S: Steps, O: Order>(
    alloc: Global,
    steps: &S,
    order: &O,
    lengths: &[usize],
    start: &S::State,
) -> Result<(SomeAnswer<S::Fault>, usize), AllocError>
    requires state { S.is_state steps.now start.now }
    requires commands { AreCommands (S.is_command steps.now) lengths.now }
    requires progress { NeverBlocks (O.order order.now) lengths.now }
    requires room { sum lengths.now + S.most_rest steps.now < 2 ^ 32 }
    ensures answer { IfOk result
        (λ r. IsAnswerAmong (S.outcome steps.now) (S.rest steps.now) lengths.now start.now
        (IsMergeInOrder (O.order order.now) lengths.now) r.0) }
    ensures bound { IfOk result
        (λ r. IsBounded (S.outcome steps.now) lengths.now (S.most_rest steps.now) start.now r.1) }
{
    let (found, search) = search_interleavings_for_goal(
        alloc,
        steps,
        order,
        lengths,
        Goal::ToEnd,
        start,
    )?;
    let steps_made = search.steps;
    Ok((search.into_answer(found), steps_made))
}

/// Returns whether all interleavings of branches of these lengths that are in `order`, from the state `start`, are true
/// to their ends, or else the first that is not.
///
/// Branch `b` has `lengths[b]` commands. Interleavings are ordered as words of branch numbers. The order must never
/// block: wherever commands are left, some branch that has one is open. The second result is the number of steps, as of
/// [`every`]; a closed branch takes no step.
pub fn every_in_order<S: Steps, O: Order>(
    alloc: Global,
    steps: &S,
    order: &O,
    lengths: &[usize],
    start: &S::State,
) -> Result<(EveryAnswer<S::Fault>, usize), AllocError>
    requires state { S.is_state steps.now start.now }
    requires commands { AreCommands (S.is_command steps.now) lengths.now }
    requires progress { NeverBlocks (O.order order.now) lengths.now }
    requires room { sum lengths.now + S.most_rest steps.now < 2 ^ 32 }
    ensures answer { IfOk result
        (λ r. IsEveryAnswerAmong (S.outcome steps.now) (S.rest steps.now) lengths.now start.now
        (IsMergeInOrder (O.order order.now) lengths.now) r.0) }
    ensures bound { IfOk result
        (λ r. IsBounded (S.outcome steps.now) lengths.now (S.most_rest steps.now) start.now r.1) }
{
    let (_, search) = search_interleavings_for_goal(
        alloc,
        steps,
        order,
        lengths,
        Goal::Stopped,
        start,
    )?;
    let steps_made = search.steps;
    Ok((search.into_every_answer(), steps_made))
}

/// Searches all interleavings of branches of these lengths, from the state `start`, for the first that is true to its
/// end.
///
/// Branch `b` has `lengths[b]` commands. Interleavings are ordered as words of branch numbers. The second result is the
/// number of steps, including those of the rest, up to `usize::MAX`: at most one per branch for each place and state
/// that the search reaches, plus those of the rest for each state in which all branches can end.
pub fn some<S: Steps>(
    alloc: Global,
    steps: &S,
    lengths: &[usize],
    start: &S::State,
) -> Result<(SomeAnswer<S::Fault>, usize), AllocError>
    requires state { S.is_state steps.now start.now }
    requires commands { AreCommands (S.is_command steps.now) lengths.now }
    requires room { sum lengths.now + S.most_rest steps.now < 2 ^ 32 }
    ensures answer { IfOk result
        (λ r. IsAnswer (S.outcome steps.now) (S.rest steps.now) lengths.now start.now r.0) }
    ensures bound { IfOk result
        (λ r. IsBounded (S.outcome steps.now) lengths.now (S.most_rest steps.now) start.now r.1) }
{
    some_in_order(alloc, steps, &AnyOrder, lengths, start)
}

/// Returns whether all interleavings of branches of these lengths, from the state `start`, are true to their ends, or
/// else the first that is not.
///
/// Branch `b` has `lengths[b]` commands. Interleavings are ordered as words of branch numbers. The second result is the
/// number of steps, including those of the rest, up to `usize::MAX`: at most one per branch for each place and state
/// that the search reaches, plus those of the rest for each state in which all branches can end.
pub fn every<S: Steps>(
    alloc: Global,
    steps: &S,
    lengths: &[usize],
    start: &S::State,
) -> Result<(EveryAnswer<S::Fault>, usize), AllocError>
    requires state { S.is_state steps.now start.now }
    requires commands { AreCommands (S.is_command steps.now) lengths.now }
    requires room { sum lengths.now + S.most_rest steps.now < 2 ^ 32 }
    ensures answer { IfOk result
        (λ r. IsEveryAnswer (S.outcome steps.now) (S.rest steps.now) lengths.now start.now r.0) }
    ensures bound { IfOk result
        (λ r. IsBounded (S.outcome steps.now) lengths.now (S.most_rest steps.now) start.now r.1) }
{
    every_in_order(alloc, steps, &AnyOrder, lengths, start)
}
