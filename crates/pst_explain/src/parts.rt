//! The run of an item in columns.

use pst_case::{CallTime, Reply};
use pst_scene::{Call, CasePart, Cell, Page, Scene, Style, Table, add_str};
use std::alloc::{AllocError, Global};

/// Branches are side by side if each may have this many bytes.
const LEAST_COLUMN: usize = 16;

/// A run in columns.
#[derive(Drop)]
pub struct MarkedRun<'s, 'a> {
    pub scene: &'s Scene<'a>,
    /// Whether the recorded time of a call comes after its answer.
    pub is_timed: bool,
    /// The numbers of the commands with a mark.
    pub marked: &'s [u32],
}

/// Whether a command was called.
fn was_called(call: &Call<'_>) -> bool {
    match call.reply {
        Some(Reply::NotRun) | None => false,
        Some(_) => true,
    }
}

/// The recorded times of a call, if there are some: those of a call of a branch.
pub fn time_of_call(scene: &Scene<'_>, call: &Call<'_>) -> Option<CallTime> {
    let CasePart::Branch(branch) = call.part else {
        return None;
    };
    if !was_called(call) {
        return None;
    }
    let times = scene.run.history.as_ref()?.times.as_ref()?;
    let mut index = 0usize;
    for other in scene.calls.branches.get(branch)? {
        if other.place < call.place && was_called(other) {
            index = index.saturating_add(1);
        }
    }
    times.as_slice().get(branch)?.as_slice().get(index).copied()
}

/// Adds when a call was invoked and when it completed, in the form of items.
fn add_call_time(out: &mut Vec<u8>, alloc: Global, time: CallTime) -> Result<(), AllocError> {
    let CallTime { invoked, completed } = time;
    let text = match completed {
        Some(completed) => format!(in alloc; " ({invoked} {completed})")?,
        None => format!(in alloc; " ({invoked} -)")?,
    };
    add_str(out, text.as_str())
}

/// Adds the time of a call if the run is with times.
fn add_call_time_if_timed(
    out: &mut Vec<u8>,
    alloc: Global,
    run: &MarkedRun<'_, '_>,
    call: &Call<'_>,
) -> Result<(), AllocError> {
    if !run.is_timed {
        return Ok(());
    }
    match time_of_call(run.scene, call) {
        Some(time) => add_call_time(out, alloc, time),
        None => Ok(()),
    }
}

/// Returns whether `number` is one of the marked numbers.
fn is_command_marked(marked: &[u32], number: u32) -> bool {
    for other in marked {
        if *other == number {
            return true;
        }
    }
    false
}

/// The cell of a command: a mark or a space, its place, its spelling, its reply, and its time if the run is with times.
fn command_cell_with_mark_or_space(
    alloc: Global,
    run: &MarkedRun<'_, '_>,
    call: &Call<'_>,
) -> Result<Cell, AllocError> {
    let (mark, style) = if is_command_marked(run.marked, call.number) {
        (b'*', Style::Wrong)
    } else {
        (b' ', Style::Plain)
    };
    let mut text = Vec::new(alloc);
    text.push(mark)?;
    call.add_text_with_reply_or_variable(&mut text, alloc, run.scene.model)?;
    add_call_time_if_timed(&mut text, alloc, run, call)?;
    Ok(Cell::styled(style, text))
}

/// Adds a part as lines.
fn add_case_part_text(
    page: &mut Page,
    alloc: Global,
    run: &MarkedRun<'_, '_>,
    calls: &[Call<'_>],
) -> Result<(), AllocError> {
    for call in calls {
        let cell = command_cell_with_mark_or_space(alloc, run, call)?;
        page.add_styled_line(alloc, 3, cell.style, cell.text.as_slice())?;
    }
    Ok(())
}

/// Returns the row of command `index`, from 0, of each branch, with an empty cell for a branch without this command.
fn row_of_command_in_each_branch(
    alloc: Global,
    run: &MarkedRun<'_, '_>,
    index: usize,
) -> Result<Vec<Cell>, AllocError> {
    let mut row = Vec::new(alloc);
    for branch in &run.scene.calls.branches {
        match branch.get(index) {
            Some(call) => row.push(command_cell_with_mark_or_space(alloc, run, call)?)?,
            None => row.push(Cell::plain(Vec::new(alloc)))?,
        }
    }
    Ok(row)
}

/// Returns how many commands the longest branch has.
fn longest_branch_length(scene: &Scene<'_>) -> usize {
    let mut most = 0usize;
    for branch in &scene.calls.branches {
        most = most.max(branch.len());
    }
    most
}

/// Adds the branches one below another.
fn add_branches_as_lines(
    page: &mut Page,
    alloc: Global,
    run: &MarkedRun<'_, '_>,
) -> Result<(), AllocError> {
    for branch in &run.scene.calls.branches {
        add_case_part_text(page, alloc, run, branch.as_slice())?;
    }
    Ok(())
}

/// Adds the branches side by side, or one below another if columns would be too narrow.
fn add_branches_in_columns_or_stacked(
    page: &mut Page,
    alloc: Global,
    run: &MarkedRun<'_, '_>,
) -> Result<(), AllocError> {
    let mut table = Table::new(alloc)?;
    for index in 0..longest_branch_length(run.scene) {
        table.add_row(row_of_command_in_each_branch(alloc, run, index)?)?;
    }
    if table.has_wide_enough_columns(page, 3, LEAST_COLUMN) {
        return table.write_in_columns_cut_to_fit(page, alloc, 3);
    }
    add_branches_as_lines(page, alloc, run)
}

/// Adds a run: the prefix, the branches side by side, and the suffix, with `*` before each marked command.
pub fn add_marked_run_text(
    page: &mut Page,
    alloc: Global,
    run: &MarkedRun<'_, '_>,
) -> Result<(), AllocError> {
    add_case_part_text(page, alloc, run, run.scene.calls.prefix.as_slice())?;
    add_branches_in_columns_or_stacked(page, alloc, run)?;
    add_case_part_text(page, alloc, run, run.scene.calls.suffix.as_slice())
}
