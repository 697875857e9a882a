//! The line that sums up the results of items, on standard error.

use clap::ArgMatches;
use pst_cli::{ItemResultCounts, Status, count_items_of_input};
use std::alloc::{AllocError, Global};

/// Returns the number of items with each result, in the order of the line.
fn counts_with_result_words(counts: &ItemResultCounts) -> [(usize, &'static str); 9] {
    [
        (counts.explained, "explained"),
        (counts.unexplained, "unexplained"),
        (counts.fault, "fault"),
        (counts.broken, "broken"),
        (counts.valid, "valid"),
        (counts.prefalse, "prefalse"),
        (counts.casefault, "casefault"),
        (counts.refused, "refused"),
        (counts.lost, "lost"),
    ]
}

/// Adds a number to a text, with a comma between thousands, as `16,002`.
pub fn add_number_with_thousands_commas(
    text: &mut String,
    alloc: Global,
    number: usize,
) -> Result<(), AllocError> {
    let digits = format!(in alloc; "{number}")?;
    let mut left = digits.len();
    for digit in digits.as_str().chars() {
        if left < digits.len() && left % 3 == 0 {
            text.push(',')?;
        }
        text.push(digit)?;
        left = left.saturating_sub(1);
    }
    Ok(())
}

/// Returns how many items there are.
fn total_of_item_counts(counts: &ItemResultCounts) -> usize {
    let mut total = 0usize;
    for (count, _) in &counts_with_result_words(counts) {
        total = total.saturating_add(*count);
    }
    total
}

/// Adds the number of items with each result that there is, as `: 2 explained, 1 unexplained`.
fn add_nonzero_counts_with_result_words(
    line: &mut String,
    alloc: Global,
    counts: &ItemResultCounts,
) -> Result<(), AllocError> {
    let mut before = ": ";
    for (count, subcommand) in &counts_with_result_words(counts) {
        if *count > 0 {
            line.push_str(before)?;
            add_number_with_thousands_commas(line, alloc, *count)?;
            line.push_str(" ")?;
            line.push_str(subcommand)?;
            before = ", ";
        }
    }
    Ok(())
}

/// Returns the line for two or more items, as `pst: 3 items: 2 explained, 1 unexplained`. `None` for fewer
/// items.
fn summary_line_for_two_or_more_items(
    alloc: Global,
    counts: &ItemResultCounts,
) -> Result<Option<String>, AllocError> {
    let total = total_of_item_counts(counts);
    if total < 2 {
        return Ok(None);
    }
    let mut line = String::from_str(alloc, "pst: ")?;
    add_number_with_thousands_commas(&mut line, alloc, total)?;
    line.push_str(" items")?;
    add_nonzero_counts_with_result_words(&mut line, alloc, counts)?;
    Ok(Some(line))
}

/// Writes a line to standard error that sums up the results of the items, if there is more than one item. It ignores
/// failures.
pub fn print_summary_if_several_items<R: Eprint + AllocGlobal>(rt: &R, counts: &ItemResultCounts) {
    if let Ok(Some(line)) = summary_line_for_two_or_more_items(rt.alloc(), counts) {
        let _ = eprintln!(rt; "{line}");
    }
}

/// Returns whether the command takes items from its files.
fn is_subcommand_noting_missing_items(subcommand: &str, arguments: &ArgMatches<'_>) -> bool {
    match subcommand {
        "judge" => !arguments.get_flag("stream"),
        "explain" | "run" => true,
        _ => false,
    }
}

/// Returns whether the command `subcommand` is to be refused if it has no items.
fn are_items_required(subcommand: &str, arguments: &ArgMatches<'_>) -> bool {
    matches!(subcommand, "judge" | "run") && arguments.get_flag("require-items")
}

/// Returns whether an accepted command had no items: the input has none after the model, or `judge --stream` read none.
fn has_no_items(
    alloc: Global,
    subcommand: &str,
    arguments: &ArgMatches<'_>,
    input: &[u8],
    counts: &ItemResultCounts,
) -> bool {
    if total_of_item_counts(counts) > 0 {
        return false;
    }
    let is_stream = subcommand == "judge" && arguments.get_flag("stream");
    is_stream || count_items_of_input(alloc, input) == Ok(0)
}

/// Returns `Refused`, and says so on standard error, if the arguments require items and the command `subcommand` had none;
/// else `status`, the status of the command.
pub fn status_with_required_items<R: Eprint + AllocGlobal>(
    rt: &R,
    subcommand: &str,
    arguments: &ArgMatches<'_>,
    input: &[u8],
    status: Status,
    counts: &ItemResultCounts,
) -> Status {
    if status != Status::Accepted
        || !are_items_required(subcommand, arguments)
        || !has_no_items(rt.alloc(), subcommand, arguments, input, counts)
    {
        return status;
    }
    let _ = eprintln!(rt; "pst: there is no case or run, and --require-items wants one");
    Status::Refused
}

/// Writes to standard error that the command `subcommand` had no items, if its input has none after the model and the
/// arguments do not require them. `status` is the status of the command.
pub fn print_note_if_input_has_no_items<R: Eprint + AllocGlobal>(
    rt: &R,
    subcommand: &str,
    arguments: &ArgMatches<'_>,
    input: &[u8],
    status: Status,
    counts: &ItemResultCounts,
) {
    if status != Status::Accepted
        || total_of_item_counts(counts) > 0
        || !is_subcommand_noting_missing_items(subcommand, arguments)
        || are_items_required(subcommand, arguments)
    {
        return;
    }
    if count_items_of_input(rt.alloc(), input) == Ok(0) {
        let _ = eprintln!(rt; "pst: no cases or runs after the model");
    }
}
