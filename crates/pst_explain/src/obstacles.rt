//! What the order in time rules out: an interleaving that would explain a run without its times, and the precedences
//! that rule it out.
ghost use Rattle.std.specs.Prelude.{◌≡◌, true};
ghost use Rattle.pst_case.specs.Matches.{matches};

use crate::bounded::StepLimitedCallbacks;
use crate::explanation::MOST_STEPS;
use pst_case::{History, Shaped};
use pst_eval::Callbacks;
use pst_judge::CallOrder;
use pst_precedence::{Obstacles, Precedence, find_obstacles};
use pst_scene::{
    Call, Cell, Page, Scene, Table, add_interleaving_letters_or_dash, add_str,
    copy_explanation_text,
};
use std::alloc::{AllocError, Global};

/// What the order in time rules out of an item.
#[derive(Drop)]
pub enum RuledOut {
    /// Nothing: the item is explained, or would not be without its times either.
    Nothing,
    /// Each explanation that the item would have without its times.
    Explanations(Obstacles),
    /// Nobody knows: the search takes too many steps.
    Unknown,
}

/// Returns what the order in time rules out of a run that is not explained by `order`, if the search takes at most
/// 2,000,000 steps of callbacks.
pub fn obstacles_within_limit<C: Callbacks>(
    callbacks: &C,
    order: CallOrder,
    alloc: Global,
    shaped: &Shaped,
    history: &History,
) -> Result<RuledOut, AllocError>
    requires model { shaped.now.model ≡ C.model callbacks.now }
    requires matches { matches (C.model callbacks.now) shaped.now.case history.now ≡ true }
{
    if order == CallOrder::Any || history.times.is_none() {
        return Ok(RuledOut::Nothing);
    }
    let bounded = StepLimitedCallbacks::new(callbacks, MOST_STEPS);
    let found = find_obstacles(&bounded, alloc, shaped, history);
    match bounded.none_if_out_of_steps(found)? {
        Some(Some(obstacles)) => Ok(RuledOut::Explanations(obstacles)),
        Some(None) => Ok(RuledOut::Nothing),
        None => Ok(RuledOut::Unknown),
    }
}

/// A call of a branch: `index` counts from 0.
fn call_of_branch<'s, 'a>(
    scene: &'s Scene<'a>,
    branch: usize,
    index: usize,
) -> Option<&'s Call<'a>> {
    scene.calls.branches.get(branch)?.get(index)
}

/// The earlier and the later call of a precedence.
pub fn preceding_calls<'s, 'a>(
    scene: &'s Scene<'a>,
    precedence: Precedence,
) -> Option<(&'s Call<'a>, &'s Call<'a>)> {
    let Precedence { earlier, later } = precedence;
    Some((
        call_of_branch(scene, earlier.branch, earlier.index)?,
        call_of_branch(scene, later.branch, later.index)?,
    ))
}

/// Adds a row: the later call began after the earlier one had been answered.
fn add_precedence_row(
    table: &mut Table,
    alloc: Global,
    scene: &Scene<'_>,
    precedence: Precedence,
) -> Result<(), AllocError> {
    let Some((earlier, later)) = preceding_calls(scene, precedence) else {
        return Ok(());
    };
    let mut text = later.text(alloc, scene.model)?;
    add_str(&mut text, " began after ")?;
    let earlier = earlier.text(alloc, scene.model)?;
    text.extend_from_slice(earlier.as_slice())?;
    add_str(&mut text, " had been answered")?;
    let mut row = Vec::new(alloc);
    row.push(Cell::plain(text))?;
    table.add_row(row)
}

/// Adds the interleaving that would explain a run without its times, and what rules it out.
pub fn add_obstacles_text(
    page: &mut Page,
    alloc: Global,
    scene: &Scene<'_>,
    obstacles: &Obstacles,
) -> Result<(), AllocError> {
    let mut text = copy_explanation_text(alloc, "Without the order in time ")?;
    add_interleaving_letters_or_dash(&mut text, obstacles.interleaving.as_slice())?;
    add_str(&mut text, " would explain it. Against it:")?;
    page.add_wrapped_sentence(alloc, 2, text.as_slice())?;
    let mut table = Table::new(alloc)?;
    for precedence in &obstacles.precedences {
        add_precedence_row(&mut table, alloc, scene, *precedence)?;
    }
    table.write_in_columns_or_stacked(page, alloc, 4)
}
