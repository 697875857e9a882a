//! Prints how the commands of the program answer malformed and extreme inputs, with failing writers, on systems that
//! give wrong answers, and at the limits of the language. It also prints the results of calls of the libraries. The
//! gate runs it as a program and compares its output.
//!
//! With an argument it makes only the call of that name. The status is then 3 if the arguments cannot be read, an
//! allocation fails in the call, or its result cannot be printed.
#![tactic(auto)]

mod commands;
mod cuts;
mod depths;
mod driven;
mod failing_writers;
mod inputs;
mod memory;
mod models;
mod odd;
mod values;

use std::env::Env;
use std::process::ExitCode;
use std::sync::Wait;
use std::thread::{Builder, Threads};
use std::{env, io};

/// Returns the program's arguments, its own name first.
fn collect_program_arguments<R: Env + AllocGlobal>(rt: &R) -> io::Result<Vec<String>> {
    Ok(env::args(rt)?.collect(rt.alloc())?)
}

/// Prints everything that the program prints without an argument.
fn print_all_hostile_rows<R: Threads + Wait + Sync + Print + AllocGlobal>(
    rt: &R,
) -> io::Result<()> {
    cuts::print_judge_output_and_unexpected_cuts(rt)?;
    inputs::print_outputs_for_malformed_or_extreme_inputs(rt)?;
    failing_writers::print_failing_writer_results_of_commands(rt)?;
    failing_writers::print_missed_report_prefix_count(rt)?;
    driven::print_results_on_misbehaving_systems(rt)?;
    values::print_correctness_of_nested_values_in_threads(rt)?;
    depths::print_program_results_at_each_limit(rt)?;
    memory::print_call_results_until_out_of_memory(rt, rt.alloc())
}

/// Makes the call that the argument names, or prints everything, and returns the status.
fn run_named_call_or_all_rows<R: Threads + Wait + Sync + Print + Env + AllocGlobal>(rt: &R) -> u8 {
    let Ok(words) = collect_program_arguments(rt) else {
        return 3;
    };
    if let [_, call] = words.as_slice() {
        let printed = memory::print_call_result_unless_out_of_memory(rt, rt.alloc(), call.as_str());
        return if matches!(printed, Ok(true)) { 0 } else { 3 };
    }
    if print_all_hostile_rows(rt).is_ok() {
        0
    } else {
        1
    }
}

/// The stack size of the commands' thread, in bytes. It is that of the program: explanations evaluate by recursion.
const STACK_BYTES: usize = 256 << 20;

fn main(rt: HostRuntime) -> ExitCode {
    let worker = Builder::new()
        .stack_size(STACK_BYTES)
        .spawn(&rt, move || -> u8 { run_named_call_or_all_rows(&rt) });
    match worker {
        Ok(worker) => ExitCode::from(worker.join(&rt)),
        Err(_) => ExitCode::from(3),
    }
}
