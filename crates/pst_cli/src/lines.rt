//! The lines of judged items, and which items have a line.
ghost use Rattle.std.specs.Prelude.{◌≡◌, ◌++◌, IfOk, OnOk, string_bytes};
ghost use Rattle.pst_cli.specs.Output.{failure_line, failure_lines, item_line, item_lines, shown_lines};
ghost use Rattle.pst_cli.specs.Rows.{IsRow, first_of};

use crate::input::prove_judgements_are_sync;
use crate::judge::is_explained_or_valid;
use pst_judge::Judged;
use rayon::prelude::*;
use std::alloc::{AllocError, Global};
use std::thread::Threads;

/// Which items have a line in the output.
#[derive(Clone, Copy, Debug, PartialEq, Eq, Drop)]
pub enum Shown {
    /// All of them.
    All,
    /// Those that are neither explained nor valid, and those that are refused.
    Failures,
}

/// How many items a row has; the last row may have fewer.
const ROW: usize = 512;

/// Adds the line `NUMBER VERDICT` to a text.
pub fn add_item_verdict_line(
    text: &mut String,
    number: usize,
    judged: &Judged,
) -> Result<(), AllocError>
    ensures { OnOk result (string_bytes text.new ≡ string_bytes text.old ++ item_line number judged.now) }
{
    write!(text, "{number} {judged}\n")
}

/// `NUMBER VERDICT`.
pub fn item_verdict_line(
    alloc: Global,
    number: usize,
    judged: &Judged,
) -> Result<String, AllocError>
    ensures { IfOk result (λ line. string_bytes line ≡ item_line number judged.now) }
{
    let mut line = String::new(alloc);
    add_item_verdict_line(&mut line, number, judged)?;
    Ok(line)
}

/// How many of `count` items come before `row`, counted from 0.
fn count_items_before_row(row: usize, count: usize) -> usize
    ensures { result ≡ first_of row count }
{
    row.saturating_mul(ROW).min(count)
}

/// The lines of the items of a row, numbered from 1 over all rows.
fn verdict_lines_of_row(alloc: Global, all: &[Judged], row: usize) -> Result<String, AllocError>
    ensures { IfOk result (IsRow all.now row) }
{
    let mut text = String::new(alloc);
    let count = all.len();
    for index in count_items_before_row(row, count)..count_items_before_row(
        row.saturating_add(1),
        count,
    ) {
        add_item_verdict_line(&mut text, index + 1, &all[index])?;
    }
    Ok(text)
}

/// The lines of all items, numbered from 1. Several threads write rows at once.
fn item_verdict_lines<R: Threads + Sync>(
    rt: &R,
    alloc: Global,
    all: &[Judged],
) -> Result<String, AllocError>
    ensures { IfOk result (λ text. string_bytes text ≡ item_lines 1 all.now) }
{
    prove_judgements_are_sync();
    let rows = all.len() / ROW + 1;
    let lines = (0..rows)
        .into_par_iter()
        .with_min_len(1)
        .map(
            |row: usize| -> Result<String, AllocError>
                ensures { IfOk result (IsRow all.entry.now row) }
            { verdict_lines_of_row(alloc, all, row) },
        )
        .collect::<Result<Vec<String>, AllocError>>(rt, alloc)??;
    lines.as_slice().concat(alloc)
}

/// Adds the line of an item to a text, unless it is explained or valid.
fn add_verdict_line_if_item_failed(
    text: &mut String,
    number: usize,
    judged: &Judged,
) -> Result<(), AllocError>
    ensures { OnOk result (string_bytes text.new ≡ string_bytes text.old ++ failure_line number judged.now) }
{
    if is_explained_or_valid(judged) {
        return Ok(());
    }
    add_item_verdict_line(text, number, judged)
}

/// The lines of the items that are neither explained nor valid, each with its number among all of them, from 1.
fn failed_item_verdict_lines(alloc: Global, all: &[Judged]) -> Result<String, AllocError>
    ensures { IfOk result (λ text. string_bytes text ≡ failure_lines 1 all.now) }
{
    let mut text = String::new(alloc);
    for (index, judged) in all.iter().enumerate() {
        add_verdict_line_if_item_failed(&mut text, index + 1, judged)?;
    }
    Ok(text)
}

/// The lines of the displayed items, numbered from 1.
pub fn shown_item_verdict_lines<R: Threads + Sync>(
    rt: &R,
    alloc: Global,
    shown: Shown,
    all: &[Judged],
) -> Result<String, AllocError>
    ensures { IfOk result (λ text. string_bytes text ≡ shown_lines shown all.now) }
{
    match shown {
        Shown::All => item_verdict_lines(rt, alloc, all),
        Shown::Failures => failed_item_verdict_lines(alloc, all),
    }
}
