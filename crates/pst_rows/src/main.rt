//! Checks the worked rows of its data: tables of short rows, and blocks whose answers may be long, as explanations,
//! messages and the reports of campaigns. It is a test that the gate runs as a program. It prints what has another
//! answer than the wanted one, and a line if all is right.
#![tactic(auto)]

mod blocks;
mod campaigns;
mod examples;
mod explained;
mod expressions;
mod folders;
mod forms;
mod generated;
mod items;
mod messages;
mod models;
mod questions;
mod random;
mod requests;
mod tables;
mod tally;
mod texts;

use campaigns::{SystemPool, add_system_or_note_no_memory};
use folders::check_folder_rows_and_print_results;
use pst_samples::{Counter, Flags, Pair, Registry, Side, Stuck};
use std::process::ExitCode;
use std::sync::Arc;
use std::thread::Builder;

/// How many counters there are for all campaigns, how many registries, and how many systems `stuck`.
const SYSTEMS: u32 = 64;

/// Puts a system into a box, and the box at the end of `$systems`, which are of `$pool`. The pool
/// notes whether there was no memory.
macro_rules! add_boxed {
    ($pool:expr, $systems:expr, $alloc:expr, $system:expr) => {
        match Box::new($alloc, $system) {
            Ok(system) => add_system_or_note_no_memory(&mut $systems, &mut $pool.lacks_memory, system),
            Err(_) => $pool.lacks_memory = true,
        }
    };
}

/// The stack size of the thread that tests the rows, in bytes: that of the program, since explanations evaluate by recursion.
const STACK_BYTES: usize = 256 << 20;

fn main(rt: HostRuntime) -> ExitCode {
    let worker = Builder::new()
        .stack_size(STACK_BYTES)
        .spawn(&rt, move || -> bool {
            let alloc = rt.alloc();
            let Ok(flags) = Arc::new(alloc, Flags::new()) else {
                return false;
            };
            let Ok(same) = flags.clone() else {
                return false;
            };
            // Boxes of systems are made here, since a contract says nothing of what a function boxes and hands out.
            let mut pool = SystemPool::new(alloc);
            for _ in 0..SYSTEMS {
                add_boxed!(pool, pool.counters, alloc, Counter::new(rt));
                add_boxed!(pool, pool.registries, alloc, Registry::new(rt, alloc));
                add_boxed!(pool, pool.stuck, alloc, Stuck);
            }
            add_boxed!(pool, pool.pair, alloc, Pair::new(Side::First, flags));
            add_boxed!(pool, pool.pair, alloc, Pair::new(Side::Second, same));
            !pool.lacks_memory && check_folder_rows_and_print_results(&rt, &mut pool).is_ok()
        });
    match worker {
        Ok(worker) => {
            if worker.join(&rt) {
                ExitCode::SUCCESS
            } else {
                ExitCode::FAILURE
            }
        }
        Err(_) => ExitCode::FAILURE,
    }
}
