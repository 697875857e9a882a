//! Calls of the libraries. The gate compares their results with ample memory; `stress/memory` makes each
//! allocation fail in turn, for each call.

mod judging;
mod reading;
pub mod trials;

use reading::Refused;
use std::alloc::Global;
use std::io;
use std::sync::Wait;
use std::thread::Threads;

/// The names of the calls.
const CALLS: [&str; 13] = [
    "read",
    "read_model",
    "check",
    "compile",
    "read_runs",
    "some",
    "every",
    "generate",
    "trial",
    "report",
    "rejudge",
    "campaign",
    "campaign_of_two",
];

/// Makes the call `call`, which starts no threads, and returns its result as text.
fn result_of_call_without_threads(alloc: Global, call: &str) -> Result<String, Refused> {
    match call {
        "read" => reading::read_and_spell_last_counter_tree(alloc),
        "read_model" => reading::read_and_print_counter_model(alloc),
        "check" => reading::name_of_checked_counter_model(alloc),
        "compile" => reading::listing_of_compiled_counter(alloc),
        "read_runs" => judging::read_and_write_counter_runs(alloc),
        "some" => judging::verdict_text_of_first_counter_run(alloc),
        "every" => judging::valid_text_of_counter_case(alloc),
        "generate" => judging::generated_counter_case_text(alloc),
        _ => Err(Refused::Otherwise("no call")),
    }
}

/// Makes the call `call` and returns its result as text.
fn result_of_library_call_named<R: Threads + Wait + Sync>(
    rt: &R,
    alloc: Global,
    call: &str,
) -> Result<String, Refused> {
    match call {
        "trial" => trials::outcome_text_of_trial_on_stuck_system(rt, alloc),
        "report" => trials::campaign_report_on_stuck_system(rt, alloc),
        "rejudge" => judging::judge_output_for_counter_items(rt, alloc),
        "campaign" => trials::trial_outcome_lines_on_stuck_systems(rt, alloc, 1),
        "campaign_of_two" => trials::trial_outcome_lines_on_stuck_systems(rt, alloc, 2),
        _ => result_of_call_without_threads(alloc, call),
    }
}

/// Prints the result of the call `call`, and returns whether it had enough memory.
pub fn print_call_result_unless_out_of_memory<R: Threads + Wait + Sync + Print>(
    rt: &R,
    alloc: Global,
    call: &str,
) -> io::Result<bool> {
    match result_of_library_call_named(rt, alloc, call) {
        Ok(text) => println!(rt; "{call}: {text}")?,
        Err(Refused::NoMemory) => return Ok(false),
        Err(Refused::Otherwise(why)) => println!(rt; "{call}: {why} in place of an answer")?,
    }
    Ok(true)
}

/// Prints the result of each call, up to the first that runs out of memory.
pub fn print_call_results_until_out_of_memory<R: Threads + Wait + Sync + Print>(
    rt: &R,
    alloc: Global,
) -> io::Result<()> {
    for call in CALLS {
        if !print_call_result_unless_out_of_memory(rt, alloc, call)? {
            return println!(rt; "{call}: no memory");
        }
    }
    Ok(())
}
