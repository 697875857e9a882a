//! The search by plain backtracking, which remembers nothing.
ghost use Rattle.std.specs.Prelude.{◌≡◌, ℕ, ◌+◌, ◌-◌, ◌*◌, ◌^◌, ◌<◌, ◌≤◌, length, sum, slice_index, IfOk, OnOk, MatchBool, MatchOption};
ghost use Rattle.pst_grid.specs.Answers.{IsAnswerAmong};
ghost use Rattle.pst_grid.specs.Completions.{IsAt};
ghost use Rattle.pst_grid.specs.Orders.{NeverBlocks, IsMergeInOrder, Extends, Begins};
ghost use Rattle.pst_grid.specs.Covered.{IsExplored};
ghost use Rattle.pst_grid.specs.StepOutcomes.{AreCommands};
ghost use Rattle.pst_grid.specs.declared.search.Goal.TheVariants.{ToEnd};

use crate::search::{Goal, SearchProgress, are_all_branches_done, run_rest_and_check_goal};
use crate::{Order, SomeAnswer, StepOutcome, Steps};
use std::alloc::{AllocError, Global};

/// Searches the completions of the word, and returns whether one is true to its end. The word is then that one.
#[cycle(search)]
fn explore_plainly<S: Steps, O: Order>(
    alloc: Global,
    steps: &S,
    order: &O,
    lengths: &[usize],
    search: &mut SearchProgress<S::Fault>,
    state: &S::State,
) -> Result<bool, AllocError>
    requires place { IsAt lengths.now search.old.done.items }
    requires state { S.is_state steps.now state.now }
    requires commands { AreCommands (S.is_command steps.now) lengths.now }
    requires progress { NeverBlocks (O.order order.now) lengths.now }
    requires room { S.most_rest steps.now < 2 ^ 32 }
    ensures { IfOk result (IsExplored (S.outcome steps.now) (S.rest steps.now) ToEnd state.now
        (Extends (O.order order.now) lengths.now search.old.done.items) search.old search.new) }
{
    if are_all_branches_done(lengths, &search.done) {
        return run_rest_and_check_goal(alloc, steps, order, lengths, Goal::ToEnd, search, state);
    }
    for branch in 0..lengths.len() {
        if explore_branch_plainly(alloc, steps, order, lengths, search, state, branch)? {
            return Ok(true);
        }
    }
    Ok(false)
}

/// Searches the completions of the word that begin with `branch`.
#[cycle(search)]
fn explore_branch_plainly<S: Steps, O: Order>(
    alloc: Global,
    steps: &S,
    order: &O,
    lengths: &[usize],
    search: &mut SearchProgress<S::Fault>,
    state: &S::State,
    branch: usize,
) -> Result<bool, AllocError>
    requires place { IsAt lengths.now search.old.done.items }
    requires state { S.is_state steps.now state.now }
    requires commands { AreCommands (S.is_command steps.now) lengths.now }
    requires progress { NeverBlocks (O.order order.now) lengths.now }
    requires room { S.most_rest steps.now < 2 ^ 32 }
    requires branch { branch < length lengths.now }
    ensures { IfOk result (IsExplored (S.outcome steps.now) (S.rest steps.now) ToEnd state.now
        (Begins (O.order order.now) lengths.now search.old.done.items branch) search.old search.new) }
{
    let index = search.done[branch];
    if index >= lengths[branch] {
        return Ok(false);
    }
    if !order.is_open(&search.done, branch) {
        return Ok(false);
    }
    search.steps = search.steps.saturating_add(1);
    match steps.step(alloc, state, branch, index)? {
        StepOutcome::Next(next) => {
            search.advance_in_branch(lengths, branch)?;
            if explore_plainly(alloc, steps, order, lengths, search, &next)? {
                return Ok(true);
            }
            search.go_back_in_branch(branch);
            Ok(false)
        }
        StepOutcome::Stop(why) => {
            search.note_stop_by_next_command(alloc, order, lengths, branch, why)?;
            Ok(false)
        }
    }
}

/// Returns the answer of [`crate::some_in_order`], by plain backtracking. Only tests call it: it is the slow program that
/// they compare [`crate::some_in_order`] with. Only the number of interleavings bounds the number of steps, since the search repeats
/// each step wherever it meets it, and so the rest.
///
/// The second result is the number of steps, up to `usize::MAX`.
pub fn find_first_true_interleaving_plainly<S: Steps, O: Order>(
    alloc: Global,
    steps: &S,
    order: &O,
    lengths: &[usize],
    start: &S::State,
) -> Result<(SomeAnswer<S::Fault>, usize), AllocError>
    requires state { S.is_state steps.now start.now }
    requires commands { AreCommands (S.is_command steps.now) lengths.now }
    requires progress { NeverBlocks (O.order order.now) lengths.now }
    requires room { sum lengths.now + S.most_rest steps.now < 2 ^ 32 }
    ensures { IfOk result
        (λ r. IsAnswerAmong (S.outcome steps.now) (S.rest steps.now) lengths.now start.now
        (IsMergeInOrder (O.order order.now) lengths.now) r.0) }
{
    let mut search = SearchProgress::new(alloc, lengths)?;
    let found = explore_plainly(alloc, steps, order, lengths, &mut search, start)?;
    let steps_made = search.steps;
    Ok((search.into_answer(found), steps_made))
}
