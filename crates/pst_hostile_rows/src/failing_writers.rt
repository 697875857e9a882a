//! Writers that fail in the middle of a command's output or of the report of a campaign.
ghost use Rattle.std.specs.Prelude.{◌≡◌, length};
ghost use Rattle.pst_report.specs.InOrder.{AreOf};

use crate::commands::{
    COMMANDS, ProgramCommand, run_command_with_limited_writer, status_and_shortened_output_text,
};
use crate::memory::trials::plan_for_trials_of_one_command;
use pst_campaign::{Unwatched, campaign};
use pst_cli::Status;
use pst_ledger::Closed;
use pst_report::{ReportFault, report};
use pst_samples::Stuck;
use pst_system::BoxedSystem;
use pst_tests::support::{COUNTER, LimitedSink, ONE};
use pst_trial::{Plan, Record};
use std::alloc::{AllocError, Global};
use std::io;
use std::sync::{Arc, Wait};
use std::thread::Threads;

/// The items that the commands judge, explain and drive.
const ITEMS: &str = "
(run (prefix) (left (inc)) (right (inc)) (replies () (1) (1)))
(case (prefix (get)) (left) (right))";

/// Returns how many proper prefixes of `whole` the command misses. For each prefix, it runs the command on a writer
/// that fails after it, and expects the status 3 and just this prefix as output.
fn count_prefixes_missed_when_writer_fails<R: Threads + Wait + Sync>(
    rt: &R,
    alloc: Global,
    command: ProgramCommand,
    input: &[u8],
    whole: &[u8],
) -> Result<usize, AllocError> {
    let mut misses: usize = 0;
    for room in 0..whole.len() {
        let cut = run_command_with_limited_writer(rt, alloc, command, input, room)?;
        let is_lost = cut.status == Status::Lost && cut.failed;
        if !is_lost || cut.bytes.as_slice() != &whole[..room] {
            misses = misses.saturating_add(1);
        }
    }
    Ok(misses)
}

/// Prints the command's output, or its status code alone for `list` and `explain`, and the result of
/// `count_prefixes_missed_when_writer_fails`.
fn print_missed_prefixes_and_output_or_status<R: Threads + Wait + Sync + Print + AllocGlobal>(
    rt: &R,
    command: ProgramCommand,
    input: &[u8],
) -> io::Result<()> {
    let alloc = rt.alloc();
    let whole = run_command_with_limited_writer(rt, alloc, command, input, usize::MAX)?;
    let missed = count_prefixes_missed_when_writer_fails(
        rt,
        alloc,
        command,
        input,
        whole.bytes.as_slice(),
    )?;
    let name = command.name();
    match command {
        ProgramCommand::List | ProgramCommand::Explain => {
            let code = whole.status.code();
            println!(rt; "{name}: {missed} beginnings missed of status {code}")
        }
        _ => {
            let text = status_and_shortened_output_text(alloc, &whole)?;
            println!(rt; "{name}: {missed} beginnings missed of {text}")
        }
    }
}

/// Calls `print_missed_prefixes_and_output_or_status` for each command. The campaign tests a counter without a read; the other
/// commands get a counter with two items.
pub fn print_failing_writer_results_of_commands<R: Threads + Wait + Sync + Print + AllocGlobal>(
    rt: &R,
) -> io::Result<()> {
    let items = format!(in rt.alloc(); "{COUNTER}{ITEMS}")?;
    for command in COMMANDS {
        let input = match command {
            ProgramCommand::Campaign => ONE,
            _ => items.as_str(),
        };
        print_missed_prefixes_and_output_or_status(rt, command, input.as_bytes())?;
    }
    Ok(())
}

/// Returns how many proper prefixes of the report `report` misses, and the length of the report. For each prefix, the
/// writer fails after it; `report` misses it unless it returns `WriteFailed` and writes just this prefix.
fn missed_prefix_count_and_report_length(
    alloc: Global,
    plan: &Plan,
    closed: &Closed<Record>,
) -> Result<(usize, usize), AllocError>
    requires trials { length closed.now ≡ plan.now.settings.trials }
    requires records { AreOf plan.now 0 closed.now }
{
    let mut whole = LimitedSink::new(alloc, usize::MAX);
    let mut misses: usize = 0;
    if report(alloc, plan, closed, &mut whole).is_err() {
        return Err(AllocError);
    }
    for room in 0..whole.bytes.len() {
        let mut short = LimitedSink::new(alloc, room);
        let answer = report(alloc, plan, closed, &mut short);
        let is_failed = matches!(answer, Err(ReportFault::WriteFailed)) && short.failed;
        if !is_failed || short.bytes.as_slice() != &whole.bytes.as_slice()[..room] {
            misses = misses.saturating_add(1);
        }
    }
    Ok((misses, whole.bytes.len()))
}

/// Runs a campaign and returns the `missed_prefix_count_and_report_length` of its report.
fn run_campaign_and_count_missed_prefixes<R: Threads + Wait + Sync>(
    rt: &R,
    alloc: Global,
    plan: Arc<Plan>,
    systems: Vec<BoxedSystem>,
) -> Result<(usize, usize), AllocError> {
    match campaign(rt, alloc, plan.clone()?, systems, &Unwatched) {
        Ok(closed) => missed_prefix_count_and_report_length(alloc, &plan, &closed),
        Err(_) => Err(AllocError),
    }
}

/// Prints how many proper prefixes of a report are missed, as `missed_prefix_count_and_report_length` counts them.
pub fn print_missed_report_prefix_count<R: Threads + Wait + Sync + Print + AllocGlobal>(
    rt: &R,
) -> io::Result<()> {
    let alloc = rt.alloc();
    let Ok(plan) = plan_for_trials_of_one_command(alloc, 20) else {
        return println!(rt; "report: no plan");
    };
    let mut systems: Vec<BoxedSystem> = Vec::new(alloc);
    systems.push(Box::new(alloc, Stuck)?)?;
    let (misses, length) = run_campaign_and_count_missed_prefixes(rt, alloc, plan, systems)?;
    println!(rt; "report: {misses} beginnings missed of {length}")
}
