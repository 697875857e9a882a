//! The lines that count the numbers of a campaign, and name those that were lost.
ghost use Rattle.std.specs.Prelude.{◌≡◌, IfOk, string_bytes};
ghost use Rattle.pst_report.specs.Least.{least_fault};
ghost use Rattle.pst_report.specs.Text as spec;

use crate::failures::first_trial_with_generation_fault;
use crate::status::{EntryKind, count_entries_of_kind};
use pst_ledger::{Cause, Entry};
use pst_trial::Record;
use std::alloc::{AllocError, Global};

/// The word of a kind, how many numbers ended so, and a line end.
fn entry_count_report_line(
    alloc: Global,
    word: &str,
    kind: EntryKind,
    entries: &[Entry<Record>],
) -> Result<String, AllocError>
    ensures { IfOk result (λ line. string_bytes line ≡ spec.count_line word.now kind entries.now) }
{
    let count = count_entries_of_kind(kind, entries);
    format!(in alloc; "{word} {count}\n")
}

/// `genfault-first NUMBER COMMAND CALLBACK KIND`, if generating a case faulted.
fn first_generation_fault_line_if_any(
    alloc: Global,
    entries: &[Entry<Record>],
) -> Result<String, AllocError>
    ensures { IfOk result (λ line. string_bytes line ≡ spec.first_fault_line (least_fault 0 entries.now)) }
{
    match first_trial_with_generation_fault(entries) {
        Some((number, place)) => {
            let command = place.command;
            let callback = place.callback.name();
            let fault = place.fault.name();
            format!(in alloc; "genfault-first {number} {command} {callback} {fault}\n")
        }
        None => Ok(String::new(alloc)),
    }
}

/// How many numbers were lost, and each of them with its cause.
fn lost_trials_report_line(alloc: Global, entries: &[Entry<Record>]) -> Result<String, AllocError>
    ensures { IfOk result (λ line. string_bytes line ≡ spec.lost_line entries.now) }
{
    let count = count_entries_of_kind(EntryKind::Lost, entries);
    let losses = lost_trials_text(alloc, entries)?;
    let losses = losses.as_str();
    format!(in alloc; "lost {count}{losses}\n")
}

/// The lines of the trials that failed, and of those that passed.
fn failed_and_passed_count_lines(
    alloc: Global,
    entries: &[Entry<Record>],
) -> Result<String, AllocError>
    ensures { IfOk result (λ lines. string_bytes lines ≡ spec.judged_lines entries.now) }
{
    let mut lines = entry_count_report_line(alloc, "passed", EntryKind::Passed, entries)?;
    lines.push_str(entry_count_report_line(
        alloc,
        "unexplained",
        EntryKind::Unexplained,
        entries,
    )?.as_str())?;
    lines.push_str(entry_count_report_line(
        alloc,
        "faulted",
        EntryKind::Faulted,
        entries,
    )?.as_str())?;
    lines.push_str(entry_count_report_line(alloc, "broken", EntryKind::Broken, entries)?.as_str())?;
    Ok(lines)
}

/// The lines of the numbers for which there is no run.
fn trials_without_run_report_lines(
    alloc: Global,
    entries: &[Entry<Record>],
) -> Result<String, AllocError>
    ensures { IfOk result (λ lines. string_bytes lines ≡ spec.missing_lines entries.now) }
{
    let mut lines = entry_count_report_line(alloc, "genfault", EntryKind::GenFaulted, entries)?;
    lines.push_str(first_generation_fault_line_if_any(alloc, entries)?.as_str())?;
    lines.push_str(lost_trials_report_line(alloc, entries)?.as_str())?;
    lines.push_str(entry_count_report_line(
        alloc,
        "undrawn",
        EntryKind::Undrawn,
        entries,
    )?.as_str())?;
    Ok(lines)
}

/// The lines that count the numbers.
pub fn entry_count_report_lines(
    alloc: Global,
    entries: &[Entry<Record>],
) -> Result<String, AllocError>
    ensures { IfOk result (λ lines. string_bytes lines ≡ spec.count_lines entries.now) }
{
    let mut lines = failed_and_passed_count_lines(alloc, entries)?;
    lines.push_str(trials_without_run_report_lines(alloc, entries)?.as_str())?;
    Ok(lines)
}

/// ` NUMBER:CAUSE`.
fn lost_trial_text(alloc: Global, number: usize, cause: &Cause) -> Result<String, AllocError>
    ensures { IfOk result (λ text. string_bytes text ≡ spec.loss number cause.now) }
{
    let name = cause.name();
    format!(in alloc; " {number}:{name}")
}

/// ` NUMBER:CAUSE` for each lost number, in order.
fn lost_trials_text(alloc: Global, entries: &[Entry<Record>]) -> Result<String, AllocError>
    ensures { IfOk result (λ text. string_bytes text ≡ spec.losses 0 entries.now) }
{
    let mut text = String::new(alloc);
    for (number, entry) in entries.iter().enumerate() {
        if let Entry::Lost(cause) = entry {
            text.push_str(lost_trial_text(alloc, number, cause)?.as_str())?;
        }
    }
    Ok(text)
}
