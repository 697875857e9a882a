//! Campaigns on sample systems. Their reports depend neither on how many workers there are, nor on the order in which
//! they finish.

use crate::requests::Request;
use anyhow::bail;
use pst_campaign::Unwatched;
use pst_cli::campaign_text;
use pst_sexpr::Out;
use pst_system::BoxedSystem;
use pst_trial::Settings;
use std::alloc::{AllocError, Global};
use std::sync::Wait;
use std::thread::Threads;

/// The systems of all campaigns. They are made in `main`, and each serves one campaign.
#[derive(Drop)]
pub struct SystemPool {
    pub counters: Vec<BoxedSystem>,
    pub registries: Vec<BoxedSystem>,
    pub stuck: Vec<BoxedSystem>,
    /// Two systems, each of which answers true only if it is called while the other one is. So one worker alone would fail.
    pub pair: Vec<BoxedSystem>,
    /// Whether there was no memory for a system.
    pub lacks_memory: bool,
}

impl SystemPool {
    /// A pool without systems.
    pub fn new(alloc: Global) -> SystemPool {
        SystemPool {
            counters: Vec::new(alloc),
            registries: Vec::new(alloc),
            stuck: Vec::new(alloc),
            pair: Vec::new(alloc),
            lacks_memory: false,
        }
    }
}

/// Puts a system at the end of the systems, or notes that there is no memory for it.
pub fn add_system_or_note_no_memory(
    systems: &mut Vec<BoxedSystem>,
    lacks_memory: &mut bool,
    system: BoxedSystem,
) {
    if systems.push(system).is_err() {
        *lacks_memory = true;
    }
}

/// Takes `count` systems, or all that are left.
fn take_systems_up_to_count(
    alloc: Global,
    from: &mut Vec<BoxedSystem>,
    count: u32,
) -> Result<Vec<BoxedSystem>, AllocError> {
    let mut systems: Vec<BoxedSystem> = Vec::new(alloc);
    for _ in 0..count {
        if let Some(system) = from.pop() {
            systems.push(system)?;
        }
    }
    Ok(systems)
}

/// The systems of a request, `workers=NUMBER` of them, or the pair.
fn take_systems_for_request(
    alloc: Global,
    pool: &mut SystemPool,
    request: &Request<'_>,
) -> Result<Vec<BoxedSystem>, AllocError> {
    let workers = request.option_number_or_default("workers", 4);
    match request.option_value("system") {
        Some("counter") => take_systems_up_to_count(alloc, &mut pool.counters, workers),
        Some("registry") => take_systems_up_to_count(alloc, &mut pool.registries, workers),
        Some("pair") => take_systems_up_to_count(alloc, &mut pool.pair, 2),
        _ => take_systems_up_to_count(alloc, &mut pool.stuck, workers),
    }
}

/// The settings of a request; those that it does not name are the default ones.
fn campaign_settings_of_request(request: &Request<'_>) -> Settings {
    let Settings {
        seed: _,
        trials,
        commands,
        branches,
        suffix,
        repeats,
        limit,
        order,
    } = Settings::default();
    Settings {
        seed: request.option_number_or_default("seed", 0) as u64,
        trials: request.option_number_or_default("trials", trials),
        commands: request.option_number_or_default("commands", commands),
        branches: request.option_number_or_default("branches", branches),
        suffix: request.option_number_or_default("suffix", suffix),
        repeats: request.option_number_or_default("repeats", repeats),
        limit: request.option_number_or_default("limit", limit),
        order,
    }
}

/// The report of the campaign that a request describes, and its status.
pub fn campaign_report_and_status_answer<R: Threads + Wait + Sync + AllocGlobal>(
    rt: &R,
    pool: &mut SystemPool,
    request: &Request<'_>,
) -> anyhow::Result<String> {
    let alloc = rt.alloc();
    let settings = campaign_settings_of_request(request);
    if !settings.are_in_range() {
        bail!("the settings are out of range");
    }
    let systems = take_systems_for_request(alloc, pool, request)?;
    let mut out = Out::new(Vec::new(alloc));
    let status = campaign_text(
        rt,
        alloc,
        request.first_file_bytes(),
        settings,
        systems,
        &Unwatched,
        &mut out,
    );
    let text = String::from_utf8(out.into_inner())?;
    let code = status.code();
    Ok(format!(in alloc; "{text}status {code}\n")?)
}
