//! The program: its arguments, its input, and one call of `pst_cli`.
#![tactic(auto)]

mod answering;
mod arguments;
mod branches;
mod campaign_watchers;
mod campaigning;
mod clients;
mod commands;
mod diagnostics;
mod driving;
mod explaining;
mod failure_explanations;
mod formatting;
mod generating;
mod help;
mod input;
mod item_progress;
mod judging;
mod line_messages;
mod outputs;
mod page;
mod preparing;
mod result_file;
mod running;
mod saving;
mod stop_signals;
mod streaming;
mod subcommands;
mod summary;
mod systems;
mod terminal;

use pst_cli::{KnownSystem, Status};
use pst_samples::{Counter, Meet, Queue, Racy, Registry, Stuck};
use pst_system::BoxedSystem;
use running::SystemsResult;
use std::alloc::Global;
use std::io::IsTerminal;
use std::process::ExitCode;
use std::sync::Arc;
use std::thread::{Builder, JoinHandle};
use stop_signals::StopState;
use systems::{ChosenSystems, SystemsError};
use terminal::Terminals;

/// Adds a system to the systems.
fn systems_with_added_system(
    systems: SystemsResult,
    system: Result<BoxedSystem, SystemsError>,
) -> SystemsResult {
    let mut systems = systems?;
    let system = system?;
    match systems.push(system) {
        Ok(()) => Ok(systems),
        Err(_) => Err(SystemsError::NoMemory),
    }
}

/// A system in a box, which records its misfits if there is a list for them.
macro_rules! record_misfits {
    ($alloc:expr, $misfits:expr, $system:expr) => {
        match driving::boxed_misfit_recorder($alloc, $system, $misfits) {
            Ok(system) => Ok(system),
            Err(_) => Err(SystemsError::NoMemory),
        }
    };
}

/// A known system in a box, which records its misfits if there is a list for them.
macro_rules! known_system {
    ($rt:expr, $alloc:expr, $misfits:expr, $known:expr) => {
        match $known {
            KnownSystem::Counter => record_misfits!($alloc, $misfits, Counter::new($rt)),
            KnownSystem::Racy => record_misfits!($alloc, $misfits, Racy::new()),
            KnownSystem::Stuck => record_misfits!($alloc, $misfits, Stuck),
            KnownSystem::Registry => record_misfits!($alloc, $misfits, Registry::new($rt, $alloc)),
            KnownSystem::Queue => record_misfits!($alloc, $misfits, Queue::new($rt, $alloc)),
            KnownSystem::Meet => record_misfits!($alloc, $misfits, Meet::new()),
        }
    };
}

/// The stack size of the program, in bytes. Evaluation by recursion takes a quarter of it on the deepest valid model:
/// 64 functions, each applied at the bottom of 62 nested expressions.
const STACK_BYTES: usize = 256 << 20;

/// Runs the subcommand on a thread of its own.
///
/// The function is long because the boxed systems and two threads are made here: a function cannot return such a system,
/// and only `main` may name the type of `rt`, which systems and threads take along.
fn main(rt: HostRuntime) -> ExitCode {
    // All work is done on a thread with a known stack size: the system's limit for the first thread may be too low.
    let worker = Builder::new()
        .stack_size(STACK_BYTES)
        .spawn(&rt, move || -> Result<Status, Status> {
            let alloc = rt.alloc();
            let terminals = Terminals {
                input: rt.stdin().is_terminal(),
                output: rt.stdout().is_terminal(),
                errors: rt.stderr().is_terminal(),
            };
            let started = arguments::read_program_arguments_or_refuse(&rt)?;
            let matches = arguments::parse_arguments_else_print_help_or_error(
                &rt,
                started.as_slice(),
            )?;
            let prepared = preparing::prepare_input_or_run_fmt(&rt, &matches, terminals)?;
            let options = subcommands::client_options_from_arguments(&matches);
            let mut systems: SystemsResult = Ok(Vec::new(alloc));
            if let Some((wanted, count)) = systems::systems_and_count_from_arguments(&matches) {
                for worker in 0..count {
                    let system: Result<BoxedSystem, SystemsError> = match wanted {
                        ChosenSystems::Known(known) => known_system!(
                            rt,
                            alloc,
                            &prepared.misfits,
                            known
                        ),
                        ChosenSystems::Clients(folder) =>
                            match clients::open_boxed_clients_for_worker(
                                rt, &rt, folder, worker, options, &prepared,
                            ) {
                                Ok(clients) => Ok(clients),
                                Err(why) => Err(why),
                            },
                    };
                    systems = systems_with_added_system(systems, system);
                }
            }
            let start_thread = |watched: Arc<StopState, Global>| -> Option<JoinHandle<()>> {
                Builder::new()
                    .spawn(&rt, move || stop_signals::watch_for_end(&rt, &watched))
                    .ok()
            };
            Ok(running::run_subcommand_while_watching(
                rt,
                &matches,
                &prepared,
                terminals,
                systems,
                &start_thread,
            ))
        });
    let status = match worker {
        Ok(worker) => match worker.join(&rt) {
            Ok(status) | Err(status) => status,
        },
        Err(_) => diagnostics::print_memory_refusal(&rt),
    };
    ExitCode::from(status.code())
}
