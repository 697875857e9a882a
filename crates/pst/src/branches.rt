//! Cases of `pst run` that have more branches than there are clients.

use crate::preparing::{PreparedInput, is_quiet_selected};
use crate::systems::{ChosenSystems, systems_and_count_from_arguments};
use clap::ArgMatches;
use pst_case::Case;
use pst_cli::Status;
use pst_runs::read_runs;
use pst_trial::MAX_BRANCHES;
use pst_typing::{load, trees_after_model};
use std::alloc::{AllocError, Global};
use std::fs::symlink_metadata;
use std::rt::Files;

/// The number of clients of the first worker: the branches from the first on for which the folder has pipes.
fn count_clients<R: Files + AllocGlobal>(rt: &R, folder: &str) -> Result<u32, AllocError> {
    for branch in 1..=MAX_BRANCHES {
        let pipe = format!(in rt.alloc(); "{folder}/1-{branch}.calls")?;
        if symlink_metadata(rt, pipe.as_str()).is_err() {
            return Ok(branch.saturating_sub(1));
        }
    }
    Ok(MAX_BRANCHES)
}

/// The number of branches of a case, up to the last that has commands.
fn count_branches(case: &Case) -> u32 {
    let mut count = 0_u32;
    let mut last = 0;
    for branch in case.branches.as_slice() {
        count = count.saturating_add(1);
        if !branch.is_empty() {
            last = count;
        }
    }
    last
}

/// The number of the first item with more than `most` branches, from 1, and how many it has. There is none if the input
/// is refused.
fn first_excess(alloc: Global, input: &[u8], most: u32) -> Option<(usize, u32)> {
    let Ok(Ok(file)) = load(alloc, input) else {
        return None;
    };
    let trees = trees_after_model(file.trees.as_slice());
    let runs = read_runs(alloc, &file.typed, trees).ok()?;
    let mut item = 0_usize;
    for run in &runs {
        item = item.saturating_add(1);
        let count = count_branches(run.shaped.case());
        if count > most {
            return Some((item, count));
        }
    }
    None
}

/// Refuses to run a case that has more branches than clients were started for, with a message unless the arguments
/// forbid it. The error is the status that the program ends with.
pub fn refuse_excess<R: Files + Eprint + AllocGlobal>(
    rt: &R,
    matches: &ArgMatches<'_>,
    prepared: &PreparedInput<'_>,
) -> Result<(), Status> {
    let Some(("run", _)) = matches.subcommand() else {
        return Ok(());
    };
    let Some((ChosenSystems::Clients(folder), _)) = systems_and_count_from_arguments(matches) else {
        return Ok(());
    };
    let clients = count_clients(rt, folder.name).unwrap_or(0);
    if clients == 0 || clients == MAX_BRANCHES {
        return Ok(());
    }
    let input = prepared.input.plain();
    let Some((item, branches)) = first_excess(rt.alloc(), input, clients) else {
        return Ok(());
    };
    if !is_quiet_selected(matches) {
        let _ = eprintln!(rt;
            "pst: item {item} has {branches} branches, but there are clients for {clients}: run it with --branches {branches}"
        );
    }
    Err(Status::Refused)
}
