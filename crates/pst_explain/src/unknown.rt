//! Explanations of runs in which calls have unknown outcomes: the interleavings that their verdicts rest on.
//!
//! An interleaving has the calls with values and the calls of unknown outcome that took effect before one of these.

use crate::failures::{Failure, failure_after_calls};
use crate::position::{GraphPosition, recorded_order_of_item};
use crate::search::{GraphMove, GraphMoveTarget, SearchGraph, build_search_graph_if_small};
use crate::walks::{
    BlockedCall, InterleavingStates, add_call_if_blocked, interleaving_states_along_calls,
};
use pst_eval::FaultPlace;
use pst_judge::CallOrder;
use pst_scene::{
    Call, DeadEnd, Falsity, Scene, call_numbered, calls_along_letters, states_along_calls,
};
use std::alloc::{AllocError, Global};

/// The most positions of a search for an interleaving. In a larger one it is left out.
const MOST_POSITIONS: usize = 1_000;

/// What an interleaving is looked for.
#[derive(Clone, Copy, Drop)]
enum Sought {
    /// So many calls that are true.
    Level(usize),
    /// A call with a value that faults.
    Fault,
}

/// Whether a call cannot come next because a callback faults. A call of unknown outcome then took no effect, which is no
/// fault.
fn is_faulting_dead_end(step: &GraphMove<'_>) -> bool {
    if step.call.has_unknown_outcome() {
        return false;
    }
    match &step.target {
        GraphMoveTarget::DeadEnd(DeadEnd::NextFaults | DeadEnd::PostFails(Falsity::Faults)) => true,
        _ => false,
    }
}

/// Whether an interleaving that is sought ends at the position.
fn is_end_of_sought(search: &SearchGraph<'_>, position: usize, sought: Sought) -> bool {
    match (sought, search.positions.get(position)) {
        (Sought::Level(level), Some(position)) => position.number_of_calls_before() == level,
        _ => false,
    }
}

/// Whether a move is the first one of an interleaving that is sought. `leads` says which positions lead to an end of one.
fn is_move_of_sought(step: &GraphMove<'_>, leads: &[bool], sought: Sought) -> bool {
    match (&step.target, sought) {
        (GraphMoveTarget::Position(to), _) => leads.get(*to) == Some(&true),
        (GraphMoveTarget::DeadEnd(_), Sought::Fault) => is_faulting_dead_end(step),
        (GraphMoveTarget::DeadEnd(_), Sought::Level(_)) => false,
    }
}

/// Returns for each position whether an interleaving that is sought passes through it. The positions are in the order of
/// how many calls come before them, and so are the moves.
fn positions_that_lead_to_sought(
    alloc: Global,
    search: &SearchGraph<'_>,
    sought: Sought,
) -> Result<Vec<bool>, AllocError> {
    let mut leads = Vec::new(alloc);
    for (number, _position) in search.positions.iter().enumerate() {
        leads.push(is_end_of_sought(search, number, sought))?;
    }
    for step in search.moves.iter().rev() {
        if is_move_of_sought(step, leads.as_slice(), sought) {
            if let Some(lead) = leads.get_mut(step.from) {
                *lead = true;
            }
        }
    }
    Ok(leads)
}

/// Returns the first move from a position that an interleaving which is sought has.
fn first_move_of_sought<'s, 'a>(
    search: &'s SearchGraph<'a>,
    position: usize,
    leads: &[bool],
    sought: Sought,
) -> Option<&'s GraphMove<'a>> {
    for step in &search.moves {
        if step.from == position && is_move_of_sought(step, leads, sought) {
            return Some(step);
        }
    }
    None
}

/// Returns the calls of the first interleaving that is sought, up to its end. `None` if the search has none.
fn calls_of_first_sought<'a>(
    alloc: Global,
    search: &SearchGraph<'a>,
    sought: Sought,
) -> Result<Option<Vec<Call<'a>>>, AllocError> {
    let leads = positions_that_lead_to_sought(alloc, search, sought)?;
    let leads = leads.as_slice();
    if leads.first() != Some(&true) {
        return Ok(None);
    }
    let mut calls = Vec::new(alloc);
    let mut at = 0usize;
    for _step in &search.moves {
        if is_end_of_sought(search, at, sought) {
            return Ok(Some(calls));
        }
        let Some(step) = first_move_of_sought(search, at, leads, sought) else {
            return Ok(None);
        };
        match step.target {
            GraphMoveTarget::Position(to) => {
                calls.push(step.call)?;
                at = to;
            }
            GraphMoveTarget::DeadEnd(_) => return Ok(Some(calls)),
        }
    }
    Ok(Some(calls))
}

/// Returns the calls of the first interleaving that is sought, up to its end. `None` if the search is too large.
fn calls_of_sought_interleaving<'a>(
    alloc: Global,
    scene: &Scene<'a>,
    order: CallOrder,
    sought: Sought,
) -> Result<Option<Vec<Call<'a>>>, AllocError> {
    match build_search_graph_if_small(alloc, scene, order, &[], MOST_POSITIONS)? {
        Some(search) => calls_of_first_sought(alloc, &search, sought),
        None => Ok(None),
    }
}

/// Returns the calls of the interleaving that gets furthest: `far` calls are true in it before a false one. `None` if its
/// search is too large.
pub fn calls_of_furthest_interleaving<'a>(
    alloc: Global,
    scene: &Scene<'a>,
    order: CallOrder,
    far: usize,
) -> Result<Option<Vec<Call<'a>>>, AllocError> {
    calls_of_sought_interleaving(alloc, scene, order, Sought::Level(far))
}

/// Returns the calls before the fault in the first interleaving that faults. `None` if its search is too large.
pub fn calls_before_first_fault<'a>(
    alloc: Global,
    scene: &Scene<'a>,
    order: CallOrder,
) -> Result<Option<Vec<Call<'a>>>, AllocError> {
    calls_of_sought_interleaving(alloc, scene, order, Sought::Fault)
}

/// Returns the letters of calls.
fn letters_of_calls(alloc: Global, calls: &[Call<'_>]) -> Result<Vec<usize>, AllocError> {
    let mut letters = Vec::new(alloc);
    for call in calls {
        if let Some(letter) = call.interleaving_letter() {
            letters.push(letter)?;
        }
    }
    Ok(letters)
}

/// Returns each call that may come after `calls` but cannot.
fn blocked_calls_after_calls<'a>(
    alloc: Global,
    scene: &Scene<'a>,
    order: CallOrder,
    calls: &[Call<'a>],
) -> Result<Vec<BlockedCall<'a>>, AllocError> {
    let recorded = recorded_order_of_item(alloc, order, scene)?;
    let states = states_along_calls(alloc, scene, calls)?;
    let mut stopped = Vec::new(alloc);
    if let Some(state) = states.as_slice().get(calls.len()) {
        let position = GraphPosition::after_calls(alloc, scene, calls, state)?;
        for call in &position.next_calls(alloc, scene, &recorded)? {
            add_call_if_blocked(&mut stopped, alloc, scene, call, state)?;
        }
    }
    Ok(stopped)
}

/// Returns the walk along `calls`, with the calls that may come next and cannot.
fn walk_along_calls<'a>(
    alloc: Global,
    scene: &Scene<'a>,
    order: CallOrder,
    calls: &[Call<'a>],
) -> Result<InterleavingStates<'a>, AllocError> {
    let letters = letters_of_calls(alloc, calls)?;
    let states = states_along_calls(alloc, scene, calls)?;
    let mut walk = interleaving_states_along_calls(
        alloc,
        scene,
        letters.as_slice(),
        calls,
        states.as_slice(),
    )?;
    walk.stopped = blocked_calls_after_calls(alloc, scene, order, calls)?;
    Ok(walk)
}

/// Returns the walk of the interleaving that explains a run.
pub fn states_of_explaining_letters<'a>(
    alloc: Global,
    scene: &Scene<'a>,
    interleaving: &[usize],
) -> Result<InterleavingStates<'a>, AllocError> {
    let calls = calls_along_letters(alloc, &scene.counted, interleaving)?;
    let calls = calls.as_slice();
    let states = states_along_calls(alloc, scene, calls)?;
    interleaving_states_along_calls(alloc, scene, interleaving, calls, states.as_slice())
}

/// Returns the walk of the interleaving that gets furthest: `far` calls are true in it before a false one. `None` if its
/// search is too large.
pub fn furthest_states_with_unknown_outcomes<'a>(
    alloc: Global,
    scene: &Scene<'a>,
    order: CallOrder,
    far: usize,
) -> Result<Option<InterleavingStates<'a>>, AllocError> {
    match calls_of_furthest_interleaving(alloc, scene, order, far)? {
        Some(calls) => Ok(Some(walk_along_calls(alloc, scene, order, calls.as_slice())?)),
        None => Ok(None),
    }
}

/// Returns the failure at `place`, with the first interleaving that faults. `None` if its search is too large.
pub fn failure_in_first_fault_with_unknown_outcomes<'a>(
    alloc: Global,
    scene: &Scene<'a>,
    order: CallOrder,
    place: FaultPlace,
) -> Result<Option<Failure<'a>>, AllocError> {
    let Some(call) = call_numbered(scene.all.as_slice(), place.command) else {
        return Ok(None);
    };
    let Some(calls) = calls_before_first_fault(alloc, scene, order)? else {
        return Ok(None);
    };
    let calls = calls.as_slice();
    let mut walk = walk_along_calls(alloc, scene, order, calls)?;
    if let Some(letter) = call.interleaving_letter() {
        walk.interleaving.push(letter)?;
    }
    let failure = failure_after_calls(alloc, scene, calls, walk, call, place)?;
    Ok(Some(failure))
}

/// Returns the calls of unknown outcome that took no effect in an interleaving.
pub fn calls_without_effect<'a>(
    alloc: Global,
    scene: &Scene<'a>,
    walk: &InterleavingStates<'_>,
) -> Result<Vec<Call<'a>>, AllocError> {
    let mut calls = Vec::new(alloc);
    for call in &scene.all {
        let took_effect = walk
            .steps
            .iter()
            .any(|step| step.call.number == call.number);
        if call.has_unknown_outcome() && !took_effect {
            calls.push(*call)?;
        }
    }
    Ok(calls)
}
