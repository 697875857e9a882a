//! How many rows were checked, and what is printed of those that have another answer.

use std::alloc::{AllocError, Global};
use std::io;

/// How many rows were checked, and how many things are wrong with them.
#[derive(Drop)]
pub struct Tally {
    pub rows: usize,
    pub misses: usize,
}

impl Tally {
    /// No row was checked.
    pub fn new() -> Tally {
        Tally { rows: 0, misses: 0 }
    }

    /// Counts a row, and whether it has the wanted answer.
    pub fn count_row(&mut self, is_right: bool) {
        self.rows = self.rows.saturating_add(1);
        if !is_right {
            self.misses = self.misses.saturating_add(1);
        }
    }

    /// Prints what is wrong with a file or a table, and counts it.
    pub fn print_and_count_problem<R: Print + AllocGlobal>(
        &mut self,
        rt: &R,
        place: &str,
        wrong: &str,
    ) -> io::Result<()> {
        self.misses = self.misses.saturating_add(1);
        println!(rt; "{place}: {wrong}")
    }
}

/// The lines of a text, with an empty last one if it ends in a line break.
fn split_at_line_breaks<'a>(alloc: Global, text: &'a str) -> Result<Vec<&'a str>, AllocError> {
    let mut lines = Vec::new(alloc);
    for line in text.split('\n') {
        lines.push(line)?;
    }
    Ok(lines)
}

/// How many lines two lists have in common from the first one on.
fn count_common_first_lines(ones: &[&str], others: &[&str]) -> usize {
    let mut count: usize = 0;
    for (one, other) in ones.iter().zip(others.iter()) {
        if one != other {
            break;
        }
        count = count.saturating_add(1);
    }
    count
}

/// How many lines two lists have in common from the last one back.
fn count_common_last_lines(ones: &[&str], others: &[&str]) -> usize {
    let mut count: usize = 0;
    for (one, other) in ones.iter().rev().zip(others.iter().rev()) {
        if one != other {
            break;
        }
        count = count.saturating_add(1);
    }
    count
}

/// Prints the lines, each after the sign.
fn print_lines_after_sign<R: Print + AllocGlobal>(
    rt: &R,
    sign: &str,
    lines: &[&str],
) -> io::Result<()> {
    for line in lines {
        println!(rt; "{sign} {line}")?;
    }
    Ok(())
}

/// The lines without the first `front` and the last `back`.
fn lines_without_ends<'a>(lines: &'a [&'a str], front: usize, back: usize) -> &'a [&'a str] {
    let end = lines.len().saturating_sub(back);
    lines.get(front..end).unwrap_or(&[])
}

/// Prints how an answer differs from the wanted text: the wanted lines after `-` and those of the answer after `+`, from the
/// first line that differs to the last one.
pub fn print_difference<R: Print + AllocGlobal>(
    rt: &R,
    wanted: &str,
    answer: &str,
) -> io::Result<()> {
    let wanted = split_at_line_breaks(rt.alloc(), wanted)?;
    let answer = split_at_line_breaks(rt.alloc(), answer)?;
    let front = count_common_first_lines(wanted.as_slice(), answer.as_slice());
    let wanted = lines_without_ends(wanted.as_slice(), front, 0);
    let answer = lines_without_ends(answer.as_slice(), front, 0);
    let back = count_common_last_lines(wanted, answer);
    print_lines_after_sign(rt, "-", lines_without_ends(wanted, 0, back))?;
    print_lines_after_sign(rt, "+", lines_without_ends(answer, 0, back))
}
