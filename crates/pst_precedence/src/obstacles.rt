//! What rules out an explanation of a run.
ghost use Rattle.std.specs.Prelude.{◌≡◌, ◌++◌, ◌∷◌, [], true, IfOk, MatchOption};
ghost use Rattle.pst_case.specs.Matches.{matches};
ghost use Rattle.pst_judge.specs.Verdict.{IsVerdict};
ghost use Rattle.pst_judge.specs.declared.judgement.Verdict.TheVariants.{Explained};
ghost use Rattle.pst_precedence.specs.Deleting.{AreObstaclesSoFar, IsTimedRun};
ghost use Rattle.pst_precedence.specs.Precedences.{AreObstacles, HasNoObstacle};

use crate::listing::implying_precedences;
use crate::precedence::Precedence;
use crate::timed::{TimedRun, is_explained_in_time, is_explained_keeping};
use pst_case::{History, Shaped};
use pst_eval::Callbacks;
use pst_judge::{Verdict, fitting_times, verdict};
use std::alloc::{AllocError, Global};

/// What rules out an explanation of a run.
#[derive(Debug, Drop)]
pub struct Obstacles {
    /// The first interleaving that would explain the run without its times: the numbers of its branches, from 0.
    pub interleaving: Vec<usize>,
    /// Recorded precedences. No interleaving that keeps them all explains the run, and without any one of them some
    /// interleaving that keeps the others does.
    pub precedences: Vec<Precedence>,
}

fn split_last_precedence(list: &[Precedence]) -> Option<(&Precedence, &[Precedence])>
    ensures { MatchOption result (list.now ≡ []) (λ p. list.now ≡ p.1.now ++ p.0.now ∷ []) }
{
    list.split_last()
}

/// Leaves out `precedence` if the others rule out every explanation without it, or else inserts it before `rest`.
fn leave_out_if_possible<C: Callbacks>(
    run: &TimedRun<'_, C>,
    first: &[Precedence],
    precedence: Precedence,
    mut rest: Vec<Precedence>,
) -> Result<Vec<Precedence>, AllocError>
    requires run { let r = run.now in
        IsTimedRun (C.model r.callbacks.now) r.shaped.now r.history.now r.times.now }
    requires so_far { let r = run.now in AreObstaclesSoFar (C.model r.callbacks.now) r.shaped.now.case r.history.now
        r.times.now (first.now ++ precedence ∷ []) rest.items }
    ensures { let r = run.now in IfOk result (λ list. AreObstaclesSoFar (C.model r.callbacks.now) r.shaped.now.case
        r.history.now r.times.now first.now list.items) }
{
    let explained = is_explained_keeping(run, first, rest.as_slice())?;
    if !explained {
        return Ok(rest);
    }
    rest.insert(0, precedence)?;
    Ok(rest)
}

/// Leaves out each precedence of `first`, from the last to the first, if the others rule out every explanation without
/// it.
fn leave_out_each_if_possible<C: Callbacks>(
    run: &TimedRun<'_, C>,
    first: &[Precedence],
    rest: Vec<Precedence>,
) -> Result<Vec<Precedence>, AllocError>
    requires run { let r = run.now in
        IsTimedRun (C.model r.callbacks.now) r.shaped.now r.history.now r.times.now }
    requires so_far { let r = run.now in AreObstaclesSoFar (C.model r.callbacks.now) r.shaped.now.case r.history.now
        r.times.now first.now rest.items }
    ensures { let r = run.now in IfOk result (λ list. AreObstaclesSoFar (C.model r.callbacks.now) r.shaped.now.case
        r.history.now r.times.now [] list.items) }
{
    let Some((precedence, first)) = split_last_precedence(first) else {
        return Ok(rest);
    };
    let rest = leave_out_if_possible(run, first, *precedence, rest)?;
    leave_out_each_if_possible(run, first, rest)
}

/// The first interleaving that explains the run without its times, if one does.
fn explaining_interleaving<C: Callbacks>(
    callbacks: &C,
    alloc: Global,
    shaped: &Shaped,
    history: &History,
) -> Result<Option<Vec<usize>>, AllocError>
    requires model { shaped.now.model ≡ C.model callbacks.now }
    requires matches { matches (C.model callbacks.now) shaped.now.case history.now ≡ true }
    ensures { let m = C.model callbacks.now in let c = shaped.now.case in IfOk result (λ found. MatchOption found
        (HasNoObstacle m c history.now) (λ word. IsVerdict m c history.now (Explained word))) }
{
    match verdict(callbacks, alloc, shaped, history)? {
        Verdict::Explained(word) => Ok(Some(word)),
        Verdict::Faulted(_) | Verdict::Unexplained(_) | Verdict::Broken(_) => Ok(None),
    }
}

/// Returns the first interleaving that would explain the run without its times, and precedences that rule out any
/// such one. `None` if no interleaving explains the run, or one in the order of time does.
///
/// Of the precedences from calls of one branch to calls of another, those of calls that are close together are
/// preferred. The function takes two searches, and then one for each call and other branch with a call that precedes it.
pub fn find_obstacles<C: Callbacks>(
    callbacks: &C,
    alloc: Global,
    shaped: &Shaped,
    history: &History,
) -> Result<Option<Obstacles>, AllocError>
    requires model { shaped.now.model ≡ C.model callbacks.now }
    requires matches { matches (C.model callbacks.now) shaped.now.case history.now ≡ true }
    ensures { let m = C.model callbacks.now in IfOk result (λ found. MatchOption found
        (HasNoObstacle m shaped.now.case history.now) (AreObstacles m shaped.now.case history.now)) }
{
    let Some(interleaving) = explaining_interleaving(callbacks, alloc, shaped, history)? else {
        return Ok(None);
    };
    let Some(times) = fitting_times(alloc, shaped, history)? else {
        return Ok(None);
    };
    let run = TimedRun {
        callbacks,
        alloc,
        shaped,
        history,
        times,
    };
    let explained = is_explained_in_time(&run)?;
    if explained {
        return Ok(None);
    }
    let list = implying_precedences(alloc, times)?;
    let precedences = leave_out_each_if_possible(&run, list.as_slice(), Vec::new(alloc))?;
    Ok(Some(Obstacles {
        interleaving,
        precedences,
    }))
}
