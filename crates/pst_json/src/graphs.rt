//! Searches of items.

use crate::calls::write_json_call_member_with_id;
use crate::reasons::write_json_dead_end_member;
use crate::values::write_json_state_spelling_member;
use crate::writing::{write_json_bool_member, write_json_number_member};
use json::Writer;
use pst_explain::{
    Explanation, GraphMove, GraphMoveTarget, GraphPosition, JudgementReason, SearchGraph,
    build_search_graph_if_small,
};
use pst_model::Source;
use pst_scene::{Call, Scene};
use std::alloc::{AllocError, Global};

/// A search is written only if it has at most this many positions.
const MOST_POSITIONS: usize = 150;

/// Returns how many interleavings there are of `together` commands and `more` commands of one further branch, if the
/// first `together` commands have `orders` interleavings.
fn count_interleavings_with_branch(orders: u64, together: u64, more: usize) -> u64 {
    let mut orders = orders;
    for count in 1..=more as u64 {
        let choices = orders.saturating_mul(together.saturating_add(count));
        orders = choices.checked_div(count).unwrap_or(orders);
    }
    orders
}

/// Returns how many interleavings the branches have.
fn count_interleavings(scene: &Scene<'_>) -> u64 {
    let mut orders = 1;
    let mut together: u64 = 0;
    for branch in &scene.calls.branches {
        orders = count_interleavings_with_branch(orders, together, branch.len());
        together = together.saturating_add(branch.len() as u64);
    }
    orders
}

/// Returns whether an item can have a search graph: it is unexplained, faulted or invalid.
fn can_have_json_search_graph(reason: &JudgementReason<'_>) -> bool {
    matches!(
        reason,
        JudgementReason::Unexplained { .. }
            | JudgementReason::Faulted { .. }
            | JudgementReason::Invalid(_)
    )
}

/// Returns the commands of the interleaving of the verdict.
fn calls_of_explanation_interleaving<'a>(
    alloc: Global,
    explanation: &Explanation<'a>,
) -> Result<Vec<Call<'a>>, AllocError> {
    let mut calls = Vec::new(alloc);
    if let Some(walk) = explanation.reason.interleaving() {
        for step in &walk.steps {
            calls.push(step.call)?;
        }
    }
    Ok(calls)
}

/// The search of an item that is written, if it has one that is small and an initial state.
fn small_search_graph_to_write_if_any<'a>(
    alloc: Global,
    explanation: &Explanation<'a>,
) -> Result<Option<SearchGraph<'a>>, AllocError> {
    if !can_have_json_search_graph(&explanation.reason) {
        return Ok(None);
    }
    let shown = calls_of_explanation_interleaving(alloc, explanation)?;
    let scene = &explanation.scene;
    let order = explanation.call_order();
    match build_search_graph_if_small(alloc, scene, order, shown.as_slice(), MOST_POSITIONS)? {
        Some(search) if !search.positions.is_empty() => Ok(Some(search)),
        _ => Ok(None),
    }
}

/// Writes a position: how many calls of each part are before it, and its state.
fn write_json_position(
    writer: &mut Writer<Global>,
    alloc: Global,
    model: &Source,
    position: &GraphPosition,
) -> Result<(), AllocError> {
    writer.begin_object()?;
    writer.key("at")?;
    writer.begin_array()?;
    for count in position.call_counts_by_part() {
        writer.u64(*count as u64)?;
    }
    writer.end_array()?;
    write_json_state_spelling_member(writer, alloc, "state", model, &position.state)?;
    writer.end_object()
}

/// Writes a move: the position it is from, its call, and where it leads or why it does not.
fn write_json_move(
    writer: &mut Writer<Global>,
    alloc: Global,
    model: &Source,
    step: &GraphMove<'_>,
    is_shown: bool,
) -> Result<(), AllocError> {
    writer.begin_object()?;
    write_json_number_member(writer, "from", step.from)?;
    write_json_call_member_with_id(writer, alloc, &step.call)?;
    match &step.target {
        GraphMoveTarget::Position(to) => {
            write_json_number_member(writer, "to", *to)?;
            if is_shown {
                write_json_bool_member(writer, "on", true)?;
            }
        }
        GraphMoveTarget::DeadEnd(why) => write_json_dead_end_member(writer, alloc, model, why)?,
    }
    writer.end_object()
}

/// Writes the member `nodes`: the positions.
fn write_json_positions_member(
    writer: &mut Writer<Global>,
    alloc: Global,
    model: &Source,
    search: &SearchGraph<'_>,
) -> Result<(), AllocError> {
    writer.key("nodes")?;
    writer.begin_array()?;
    for position in &search.positions {
        write_json_position(writer, alloc, model, position)?;
    }
    writer.end_array()
}

/// Writes the member `edges`: the moves.
fn write_json_moves_member(
    writer: &mut Writer<Global>,
    alloc: Global,
    model: &Source,
    search: &SearchGraph<'_>,
) -> Result<(), AllocError> {
    writer.key("edges")?;
    writer.begin_array()?;
    for (number, step) in search.moves.iter().enumerate() {
        let is_shown = search.shown.iter().any(|shown| *shown == number);
        write_json_move(writer, alloc, model, step, is_shown)?;
    }
    writer.end_array()
}

/// Writes the member `graph`.
fn write_json_graph_member(
    writer: &mut Writer<Global>,
    alloc: Global,
    model: &Source,
    search: &SearchGraph<'_>,
) -> Result<(), AllocError> {
    writer.key("graph")?;
    writer.begin_object()?;
    write_json_positions_member(writer, alloc, model, search)?;
    write_json_moves_member(writer, alloc, model, search)?;
    writer.end_object()
}

/// Writes the member `search`: how many interleavings there are, unless only those in order of time count or a call has an
/// unknown outcome, and how many positions and moves `search` has.
fn write_json_search_counts_member(
    writer: &mut Writer<Global>,
    explanation: &Explanation<'_>,
    search: Option<&SearchGraph<'_>>,
) -> Result<(), AllocError> {
    writer.key("search")?;
    writer.begin_object()?;
    if !explanation.is_timed && !explanation.scene.has_unknown {
        writer.key("orders")?;
        writer.u64(count_interleavings(&explanation.scene))?;
    }
    if let Some(search) = search {
        write_json_number_member(writer, "positions", search.positions.len())?;
        write_json_number_member(writer, "moves", search.moves.len())?;
    }
    writer.end_object()
}

/// Writes the member `search`, and `graph` if the search of the item is small and the item fails.
pub fn write_json_search_counts_and_any_graph(
    writer: &mut Writer<Global>,
    alloc: Global,
    explanation: &Explanation<'_>,
) -> Result<(), AllocError> {
    let search = small_search_graph_to_write_if_any(alloc, explanation)?;
    write_json_search_counts_member(writer, explanation, search.as_ref())?;
    match &search {
        Some(search) => write_json_graph_member(writer, alloc, explanation.scene.model, search),
        None => Ok(()),
    }
}
