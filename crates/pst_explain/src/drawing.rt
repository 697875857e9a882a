//! Writes a search in the language of Graphviz, with its names and labels.

use crate::position::GraphPosition;
use crate::search::{GraphMove, GraphMoveTarget, SearchGraph};
use pst_scene::{
    Scene, add_number, add_str, copy_explanation_text, cut_in_middle_if_too_long, dead_end_text,
    value_text,
};
use std::alloc::{AllocError, Global};

/// The style of all nodes and edges.
const STYLE: &str =
    "  node [shape=box, fontname=monospace];\n  edge [fontname=monospace];\n  fontname=monospace;\n";

/// Whether a command may come next at position `number`, and the search has not expanded it.
fn can_position_still_be_expanded(
    scene: &Scene<'_>,
    search: &SearchGraph<'_>,
    number: usize,
    position: &GraphPosition,
) -> bool {
    !position.is_at_end(scene) && !search.has_moves_from_position(number)
}

/// Whether the search stopped before its end.
fn is_search_cut_short(scene: &Scene<'_>, search: &SearchGraph<'_>) -> bool {
    for (number, position) in search.positions.iter().enumerate() {
        if can_position_still_be_expanded(scene, search, number, position) {
            return true;
        }
    }
    false
}

/// Adds the title, and a note if the search stopped before its end.
fn add_graph_title_with_note_if_cut(
    out: &mut Vec<u8>,
    alloc: Global,
    scene: &Scene<'_>,
    search: &SearchGraph<'_>,
    title: &str,
) -> Result<(), AllocError> {
    let mut text = copy_explanation_text(alloc, title)?;
    if is_search_cut_short(scene, search) {
        add_str(
            &mut text,
            "\nnot all: what follows the dashed positions is left out",
        )?;
    }
    add_str(out, "  labelloc=t;\n  label=")?;
    add_graphviz_quoted_text(out, text.as_slice())?;
    add_str(out, ";\n")
}

/// Adds a position with its state.
fn add_graphviz_position(
    out: &mut Vec<u8>,
    alloc: Global,
    scene: &Scene<'_>,
    search: &SearchGraph<'_>,
    number: usize,
    position: &GraphPosition,
) -> Result<(), AllocError> {
    let state = value_text(alloc, scene.model, &position.state)?;
    add_str(out, "  ")?;
    add_graphviz_node_name(out, "p", number)?;
    add_str(out, " [")?;
    add_graphviz_label_cut_if_long(out, alloc, state.as_slice())?;
    if can_position_still_be_expanded(scene, search, number, position) {
        add_str(out, ", style=dashed")?;
    }
    add_str(out, "];\n")
}

/// Puts the positions after `level` commands side by side.
fn add_graphviz_rank_of_level(
    out: &mut Vec<u8>,
    alloc: Global,
    search: &SearchGraph<'_>,
    level: usize,
) -> Result<(), AllocError> {
    add_str(out, "  { rank=same;")?;
    for (number, position) in search.positions.iter().enumerate() {
        if position.number_of_calls_before() == level {
            add_str(out, " ")?;
            add_graphviz_node_name(out, "p", number)?;
            add_str(out, ";")?;
        }
    }
    add_str(out, " }\n")
}

/// How many levels have positions.
fn count_search_levels(search: &SearchGraph<'_>) -> usize {
    let mut levels = 0usize;
    for position in &search.positions {
        levels = levels.max(position.number_of_calls_before().saturating_add(1));
    }
    levels
}

/// Adds an edge with the command of a move.
fn add_graphviz_edge(
    out: &mut Vec<u8>,
    alloc: Global,
    scene: &Scene<'_>,
    step: &GraphMove<'_>,
    letter: &str,
    to: usize,
    style: &str,
) -> Result<(), AllocError> {
    let text = step.call.text_with_reply_or_variable(alloc, scene.model)?;
    add_str(out, "  ")?;
    add_graphviz_node_name(out, "p", step.from)?;
    add_str(out, " -> ")?;
    add_graphviz_node_name(out, letter, to)?;
    add_str(out, " [")?;
    add_graphviz_label_cut_if_long(out, alloc, text.as_slice())?;
    add_str(out, style)?;
    add_str(out, "];\n")
}

/// Adds a dead end, with the reason.
fn add_graphviz_dead_end(
    out: &mut Vec<u8>,
    alloc: Global,
    number: usize,
    why: &[u8],
    style: &str,
) -> Result<(), AllocError> {
    add_str(out, "  ")?;
    add_graphviz_node_name(out, "d", number)?;
    add_str(out, " [")?;
    add_graphviz_label_cut_if_long(out, alloc, why)?;
    add_str(out, style)?;
    add_str(out, "];\n")
}

/// The style of an edge or dead end for a command that cannot come next.
const RED: &str = ", color=red, fontcolor=red";

/// The style of the edge for move `number`, which leads to a position.
fn bold_edge_style_if_shown(search: &SearchGraph<'_>, number: usize) -> &'static str {
    if search.shown.iter().any(|shown| *shown == number) {
        ", style=bold"
    } else {
        ""
    }
}

/// Adds a move, and the dead end that it leads to.
fn add_graphviz_move_and_any_dead_end(
    out: &mut Vec<u8>,
    alloc: Global,
    scene: &Scene<'_>,
    search: &SearchGraph<'_>,
    number: usize,
    step: &GraphMove<'_>,
) -> Result<(), AllocError> {
    match &step.target {
        GraphMoveTarget::Position(to) => {
            add_graphviz_edge(
                out,
                alloc,
                scene,
                step,
                "p",
                *to,
                bold_edge_style_if_shown(search, number),
            )
        }
        GraphMoveTarget::DeadEnd(dead_end) => {
            let why = dead_end_text(alloc, scene.model, dead_end)?;
            add_graphviz_dead_end(out, alloc, number, why.as_slice(), RED)?;
            add_graphviz_edge(out, alloc, scene, step, "d", number, RED)
        }
    }
}

/// Adds the positions, and puts those after equally many commands side by side.
fn add_graphviz_positions_in_ranks(
    out: &mut Vec<u8>,
    alloc: Global,
    scene: &Scene<'_>,
    search: &SearchGraph<'_>,
) -> Result<(), AllocError> {
    for (number, position) in search.positions.iter().enumerate() {
        add_graphviz_position(out, alloc, scene, search, number, position)?;
    }
    for level in 0..count_search_levels(search) {
        add_graphviz_rank_of_level(out, alloc, search, level)?;
    }
    Ok(())
}

/// Adds the moves, and the dead ends.
fn add_graphviz_moves_and_dead_ends(
    out: &mut Vec<u8>,
    alloc: Global,
    scene: &Scene<'_>,
    search: &SearchGraph<'_>,
) -> Result<(), AllocError> {
    for (number, step) in search.moves.iter().enumerate() {
        add_graphviz_move_and_any_dead_end(out, alloc, scene, search, number, step)?;
    }
    Ok(())
}

/// The search as Graphviz text, under a title.
pub fn search_graph_as_graphviz_text(
    alloc: Global,
    scene: &Scene<'_>,
    search: &SearchGraph<'_>,
    title: &str,
) -> Result<Vec<u8>, AllocError> {
    let mut out = copy_explanation_text(alloc, "digraph search {\n")?;
    add_str(&mut out, STYLE)?;
    add_graph_title_with_note_if_cut(&mut out, alloc, scene, search, title)?;
    if search.positions.is_empty() {
        add_graphviz_dead_end(&mut out, alloc, 0, b"the initial state faults", RED)?;
    }
    add_graphviz_positions_in_ranks(&mut out, alloc, scene, search)?;
    add_graphviz_moves_and_dead_ends(&mut out, alloc, scene, search)?;
    add_str(&mut out, "}\n")?;
    Ok(out)
}

/// The most bytes of a label.
const MOST_BYTES: usize = 60;

/// Adds a name of a letter and a number.
fn add_graphviz_node_name(
    out: &mut Vec<u8>,
    letter: &str,
    number: usize,
) -> Result<(), AllocError> {
    add_str(out, letter)?;
    add_number(out, number)
}

/// Adds a byte of a text in quotes, escaped so that Graphviz shows it.
fn add_graphviz_escaped_byte(out: &mut Vec<u8>, byte: u8) -> Result<(), AllocError> {
    match byte {
        b'"' => add_str(out, "\\\""),
        b'\\' => add_str(out, "\\\\"),
        b'&' => add_str(out, "&amp;"),
        other => {
            out.push(other)?;
            Ok(())
        }
    }
}

/// Adds a text in quotes, escaped so that Graphviz shows each byte.
fn add_graphviz_quoted_text(out: &mut Vec<u8>, text: &[u8]) -> Result<(), AllocError> {
    add_str(out, "\"")?;
    for byte in text {
        add_graphviz_escaped_byte(out, *byte)?;
    }
    add_str(out, "\"")
}

/// Adds a label, cut in the middle if it is long.
fn add_graphviz_label_cut_if_long(
    out: &mut Vec<u8>,
    alloc: Global,
    text: &[u8],
) -> Result<(), AllocError> {
    let text = cut_in_middle_if_too_long(alloc, text, MOST_BYTES)?;
    add_str(out, "label=")?;
    add_graphviz_quoted_text(out, text.as_slice())
}
