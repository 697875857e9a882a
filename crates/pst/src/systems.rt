//! The systems that the arguments name.

ghost use Rattle.std.specs.Prelude.{◌≡◌, false};

use crate::input;
use clap::ArgMatches;
use pst_cli::{Absence, KnownSystem, Status, refuse_text};
use pst_clients::ClientFolder;
use pst_sexpr::Sink;
use pst_syntax_problems::NearestNameSoFar;
use std::alloc::{AllocError, Global};
use std::io;
use std::rt::Files;

/// The systems that the program makes.
pub const SYSTEMS: [&str; 6] = ["counter", "racy", "stuck", "registry", "queue", "meet"];

/// The note on a call that failed: the calls that a sample answers.
pub fn sample_calls(system: KnownSystem) -> &'static str {
    match system {
        KnownSystem::Counter =>
            "  The sample `counter` answers (inc) and (get): is this its model?\n",
        KnownSystem::Racy => "  The sample `racy` answers (inc) and (get): is this its model?\n",
        KnownSystem::Stuck => "  The sample `stuck` answers (inc) and (get): is this its model?\n",
        KnownSystem::Registry => {
            "  The sample `registry` answers (new), (read N) and (close N): is this its model?\n"
        }
        KnownSystem::Queue =>
            "  The sample `queue` answers (put N) and (take): is this its model?\n",
        KnownSystem::Meet =>
            "  The sample `meet` answers (meet 1) and (meet 2): is this its model?\n",
    }
}

/// The systems that the arguments name, one for each worker.
#[derive(Clone, Copy, Debug, PartialEq, Eq, Drop)]
pub enum ChosenSystems<'a> {
    /// Sample systems that the program makes.
    Known(KnownSystem),
    /// Clients, whose pipes are in a folder.
    Clients(ClientFolder<'a>),
}

/// Why a system was not made.
#[derive(Drop)]
pub enum SystemsError {
    /// The pipes of clients cannot be opened.
    NoPipes(io::Error),
    /// An allocation failed.
    NoMemory,
}

/// Returns a system in a box.
pub fn system_in_box<S: Drop>(alloc: Global, system: S) -> Result<Box<S>, AllocError> {
    match Box::new(alloc, system) {
        Ok(system) => Ok(system),
        Err(_) => Err(AllocError),
    }
}

/// Returns the systems with the name `name`, if there are some.
fn systems_chosen_by_argument(name: &str) -> Option<ChosenSystems<'_>> {
    if let Some(folder) = ClientFolder::from_argument(name) {
        return Some(ChosenSystems::Clients(folder));
    }
    Some(ChosenSystems::Known(KnownSystem::named(name)?))
}

/// Returns the systems that the arguments name, and how many of them are needed.
pub fn systems_and_count_from_arguments<'a>(
    matches: &ArgMatches<'a>,
) -> Option<(ChosenSystems<'a>, u64)> {
    let (subcommand, arguments) = matches.subcommand()?;
    let wanted = systems_chosen_by_argument(arguments.get_str("SYSTEM")?)?;
    match subcommand {
        "campaign" => Some((wanted, arguments.get_one("workers")?)),
        _ => Some((wanted, 1)),
    }
}

/// Returns the name of a system in the arguments of a subcommand, or an empty one.
pub fn system_name_from_arguments_or_empty<'a>(arguments: &ArgMatches<'a>) -> &'a str {
    arguments.get_str("SYSTEM").unwrap_or("")
}

/// Returns the command and the name of a system in the arguments, if no system has this name.
pub fn subcommand_and_unknown_system_name<'a>(
    matches: &'a ArgMatches<'_>,
) -> Option<(&'a str, &'a str)> {
    let (command, arguments) = matches.subcommand()?;
    let name = arguments.get_str("SYSTEM")?;
    if systems_chosen_by_argument(name).is_some() {
        None
    } else {
        Some((command, name))
    }
}

/// Returns whether a name that no system has looks like a command.
fn looks_like_command_or_path(name: &str) -> bool {
    name.contains(' ') || name.contains('/') || name.contains('.')
}

/// Returns a hint with the system's name that is nearest to `name`, if one is near.
fn nearest_system_name_hint(alloc: Global, name: &str) -> Result<Option<String>, AllocError> {
    let mut near = NearestNameSoFar::without_candidates(name);
    for known in SYSTEMS {
        near = near.or_nearer_candidate(alloc, known, name)?;
    }
    match near.hint() {
        Some(hint) => Ok(Some(format!(in alloc; "{hint}")?)),
        None => Ok(None),
    }
}

/// Returns whether a file of this name probably holds a model or items.
fn looks_like_input_file(name: &str) -> bool {
    name.ends_with(".model")
        || name.ends_with(".runs")
        || name.ends_with(".cases")
        || name.ends_with(".json")
}

/// Returns a hint on a file that is in the place of a system: how it runs as a client if `files`, the names after it, have
/// the model, or what comes before a model.
fn file_in_place_of_system_hint(
    alloc: Global,
    name: &str,
    files: &[&str],
) -> Result<String, AllocError> {
    if files.is_empty() || looks_like_input_file(name) {
        return format!(in alloc;
            "hint: `{name}` is a file: write a client or a system before it, as in `--client ./client.py {name}` or `counter {name}`"
        );
    }
    let folder = if name.contains('/') { "" } else { "./" };
    format!(in alloc; "hint: did you mean `--client {folder}{name}`?")
}

/// Returns a hint on a name that no system has: what a file of that name needs, how a command is given, or the nearest
/// name. `files` are the names after it.
fn unknown_system_hint<R: Files + AllocGlobal>(
    rt: &R,
    name: &str,
    files: &[&str],
) -> Result<Option<String>, AllocError> {
    let alloc = rt.alloc();
    if input::can_file_be_opened(rt, name) {
        return Ok(Some(file_in_place_of_system_hint(alloc, name, files)?));
    }
    if looks_like_command_or_path(name) {
        let hint = format!(in alloc;
            "hint: a command that runs a client follows `--client`: `--client '{name}'`"
        )?;
        return Ok(Some(hint));
    }
    nearest_system_name_hint(alloc, name)
}

/// Returns the first of `names` that is no file but the name of a system.
fn first_system_name_that_is_no_file<'a, R: Files>(rt: &R, names: &[&'a str]) -> Option<&'a str> {
    for name in names {
        if KnownSystem::named(name).is_some() && !input::can_file_be_opened(rt, name) {
            return Some(*name);
        }
    }
    None
}

/// Writes a hint to standard error if one of the files is no file but the name of a system. `name` is in the place of a
/// system in the arguments of `command`.
fn print_hint_if_system_is_misplaced<R: Files + Eprint>(
    rt: &R,
    command: &str,
    name: &str,
    files: &[&str],
) {
    if let Some(system) = first_system_name_that_is_no_file(rt, files) {
        let _ = eprintln!(rt;
            "  hint: `{system}` is no file; a system's name comes first: pst {command} {system} {name}"
        );
    }
}

/// Writes `refused system NAME`, or `refused file` if one of the files cannot be opened. It reads nothing. Unless
/// `is_quiet`, a message on standard error says what is wrong with the arguments of `command`; for an unknown system it
/// lists the known ones.
pub fn refuse_unopened_file_or_unknown_system<W: Sink, R: Files + Eprint + AllocGlobal>(
    rt: &R,
    command: &str,
    name: &str,
    files: &[&str],
    is_quiet: bool,
    out: &mut W,
) -> Status
    requires { W.broken out.old ≡ false }
{
    if let Err(why) = input::check_that_files_can_be_opened(rt, files, is_quiet) {
        if !is_quiet {
            print_hint_if_system_is_misplaced(rt, command, name, files);
        }
        return refuse_text(why, out);
    }
    let status = refuse_text(Absence::NoSystem(name), out);
    if is_quiet {
        return status;
    }
    let _ = eprintln!(rt;
        "pst: there is no system `{name}`: the systems are counter, racy, stuck, registry, queue and meet"
    );
    if let Ok(Some(hint)) = unknown_system_hint(rt, name, files) {
        let _ = eprintln!(rt; "  {hint}");
    }
    status
}
