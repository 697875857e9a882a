//! The arguments of the commands.

use crate::subcommands::client_options::add_client_options;
use crate::terminal::{LEAST_WIDTH, MOST_WIDTH};
use clap::builder::ValueParser;
use clap::{Arg, ArgAction, ArgMatches, Command};
use pst_cli::{CallOrder, OutputForm};
use pst_clients::ClientFolder;
use pst_trial::{MAX_BRANCHES, MAX_TRIALS};
use std::alloc::{AllocError, Global};

/// The maximum number of drives of a case of `run`.
const MOST_REPEATS: u64 = 1_000_000;

/// The file of a model.
pub fn model_file_argument<'a>(alloc: Global) -> Arg<'a> {
    Arg::new(alloc, "FILE").help("The model; standard input if there is no FILE, or for `-`")
}

/// The files of a model and its items.
pub fn model_and_items_files_argument<'a>(alloc: Global) -> Arg<'a> {
    Arg::new(alloc, "FILE").num_args(0..).help(
        "The model and then the items, in one file or several; standard input if there is no FILE, or for `-`",
    )
}

/// The argument that names a system.
fn system_argument<'a>(alloc: Global) -> Result<Arg<'a>, AllocError> {
    Arg::new(alloc, "SYSTEM")
        .help(
            "A sample system (counter, racy, stuck, registry, queue or meet), or clients whose pipes are in a folder (clients:FOLDER, shared:FOLDER)",
        )
        .required_unless_present("client")
}

/// The option of the launcher that names a client.
fn client_option<'a>(alloc: Global) -> Arg<'a> {
    Arg::new(alloc, "client")
        .long("client")
        .value_name("COMMAND")
        .help(
            "Tests a server in place of SYSTEM: starts COMMAND, a client, for each branch of each worker",
        )
}

/// The option of the launcher that starts a client once for each worker.
fn shared_client_option<'a>(alloc: Global) -> Result<Arg<'a>, AllocError> {
    Arg::new(alloc, "shared")
        .long("shared")
        .action(ArgAction::SetTrue)
        .help("With --client: starts COMMAND once for each worker, with all its branches")
        .requires_arg("client")
}

/// Adds the arguments that choose what is tested: a system, or a client with its options.
pub fn add_system_argument_and_client_options<'a>(
    alloc: Global,
    command: Command<'a>,
) -> Result<Command<'a>, AllocError> {
    let command = command
        .arg(system_argument(alloc)?)?
        .arg(client_option(alloc))?
        .arg(shared_client_option(alloc)?)?;
    add_client_options(alloc, command)
}

/// The option of the launcher that says for how many branches of `run` a client is started.
pub fn client_branches_option<'a>(alloc: Global) -> Result<Arg<'a>, AllocError> {
    Arg::new(alloc, "branches")
        .long("branches")
        .value_name("N")
        .value_parser(ValueParser::Unsigned(1, MAX_BRANCHES as u64))
        .allow_negative_numbers(true)
        .help("With --client: starts clients for N branches in place of 4")
        .requires_arg("client")
}

/// Returns whether the arguments have a client, which the launcher starts and not the program.
pub fn is_client_option_given(matches: &ArgMatches<'_>) -> bool {
    match matches.subcommand() {
        Some((_, arguments)) => arguments.get_str("client").is_some(),
        None => false,
    }
}

/// The forms of the output.
const FORMS: [&str; 2] = ["text", "json"];

/// The option that chooses between lines of text and JSON.
pub fn text_or_json_format_option<'a>(alloc: Global) -> Arg<'a> {
    Arg::new(alloc, "format")
        .long("format")
        .value_name("FORM")
        .value_parser(ValueParser::Names(&FORMS))
        .default_value("text")
        .help("text, or json: an object for each item, model or campaign")
        .hide_possible_values(true)
}

/// Returns whether the arguments select JSON output.
pub fn is_json_selected(arguments: &ArgMatches<'_>) -> bool {
    arguments.get_str("format") == Some("json")
}

/// Returns the form of the output that the arguments select.
pub fn output_form_from_arguments(arguments: &ArgMatches<'_>) -> OutputForm {
    if is_json_selected(arguments) {
        OutputForm::Json
    } else {
        OutputForm::Text
    }
}

/// The orders of calls.
const ORDERS: [&str; 2] = ["time", "none"];

/// An option that says which interleavings may explain a run.
fn order_option_with_help<'a>(alloc: Global, help: &'a str) -> Arg<'a> {
    Arg::new(alloc, "order")
        .long("order")
        .value_name("ORDER")
        .value_parser(ValueParser::Names(&ORDERS))
        .help(help)
        .hide_possible_values(true)
}

/// The option that says which interleavings may explain a run that was recorded.
pub fn order_option_for_recorded_runs<'a>(alloc: Global) -> Arg<'a> {
    let help =
        "Which interleavings may explain a run: all of them (none), or those in the order of the recorded times (time)";
    order_option_with_help(alloc, help).default_value("time")
}

/// The option that says which interleavings may explain a run of a system.
pub fn order_option_for_systems<'a>(alloc: Global) -> Arg<'a> {
    let help =
        "Which interleavings may explain a run: all of them (none, the default for SYSTEM), or those in the order of the recorded times (time, the default with --client)";
    order_option_with_help(alloc, help)
}

/// Returns the order that the arguments select, or `default`.
fn order_from_arguments_or_default(arguments: &ArgMatches<'_>, default: CallOrder) -> CallOrder {
    match arguments.get_str("order") {
        Some("none") => CallOrder::Any,
        Some("time") => CallOrder::Time,
        _ => default,
    }
}

/// Returns which interleavings may explain a run that was recorded, by the arguments.
pub fn order_for_recorded_runs_from_arguments(arguments: &ArgMatches<'_>) -> CallOrder {
    order_from_arguments_or_default(arguments, CallOrder::Time)
}

/// Returns which interleavings may explain a run of a system, by the arguments. Without the option those in the order of
/// time count for clients, and all for a sample system.
pub fn order_for_systems_from_arguments(arguments: &ArgMatches<'_>) -> CallOrder {
    let name = arguments.get_str("SYSTEM").unwrap_or("");
    let default = if ClientFolder::from_argument(name).is_some() {
        CallOrder::Time
    } else {
        CallOrder::Any
    };
    order_from_arguments_or_default(arguments, default)
}

/// The option that judges the items after a refused one.
pub fn keep_going_option<'a>(alloc: Global) -> Arg<'a> {
    Arg::new(alloc, "keep-going")
        .short('k')
        .long("keep-going")
        .action(ArgAction::SetTrue)
        .help("Judges the items after a refused one too")
}

/// The option that shows each message.
pub fn all_messages_option<'a>(alloc: Global) -> Arg<'a> {
    Arg::new(alloc, "all-messages")
        .long("all-messages")
        .action(ArgAction::SetTrue)
        .help(
            "With --keep-going or --stream: writes a message for each refused item, not only for the first 20",
        )
}

/// The option that judges the lines of standard input.
pub fn stream_option<'a>(alloc: Global) -> Result<Arg<'a>, AllocError> {
    Arg::new(alloc, "stream")
        .long("stream")
        .action(ArgAction::SetTrue)
        .help("Judges the items on the lines of standard input as they come, one on each line")
        .conflicts_with("keep-going")?
        .conflicts_with("failures")?
        .conflicts_with("format")
}

/// The option that refuses an input without items.
pub fn require_items_option<'a>(alloc: Global) -> Arg<'a> {
    Arg::new(alloc, "require-items")
        .long("require-items")
        .action(ArgAction::SetTrue)
        .help("Ends with status 2 if there is no case or run")
}

/// The option that leaves out the items that are explained or valid.
pub fn only_failures_option<'a>(alloc: Global) -> Arg<'a> {
    Arg::new(alloc, "failures")
        .long("failures")
        .action(ArgAction::SetTrue)
        .help("Leaves out the items that are explained or valid")
}

/// The option that drives each case several times.
pub fn repeats_option<'a>(alloc: Global) -> Arg<'a> {
    Arg::new(alloc, "repeats")
        .long("repeats")
        .value_name("N")
        .value_parser(ValueParser::Unsigned(1, MOST_REPEATS))
        .allow_negative_numbers(true)
        .help("Drives each case N times, and prints how many of the drives failed")
}

/// The option that ends a campaign after some failures.
pub fn max_failures_option<'a>(alloc: Global) -> Arg<'a> {
    Arg::new(alloc, "max-failures")
        .long("max-failures")
        .value_name("N")
        .value_parser(ValueParser::Unsigned(1, MAX_TRIALS as u64))
        .allow_negative_numbers(true)
        .help("Ends the campaign once N trials did not pass; without it all trials run")
}

/// The maximum number of seconds of a campaign.
const MOST_SECONDS: u64 = 1_000_000;

/// The option that ends a campaign after some time.
pub fn seconds_option<'a>(alloc: Global) -> Arg<'a> {
    Arg::new(alloc, "seconds")
        .long("seconds")
        .value_name("N")
        .value_parser(ValueParser::Unsigned(1, MOST_SECONDS))
        .allow_negative_numbers(true)
        .help("Begins no trial after N seconds; without --trials there are then up to 100000")
}

/// The maximum number of drives of a burst.
const MOST_BURST: u64 = 1_000;

/// The option that has clients drive cases many times by themselves.
pub fn burst_option<'a>(alloc: Global) -> Arg<'a> {
    Arg::new(alloc, "burst")
        .long("burst")
        .value_name("N")
        .value_parser(ValueParser::Unsigned(0, MOST_BURST))
        .allow_negative_numbers(true)
        .help("With --client: has clients that burst drive a case N times by themselves")
}

/// The option that ends a campaign when a file appears.
pub fn stop_file_option<'a>(alloc: Global) -> Arg<'a> {
    Arg::new(alloc, "stop-file")
        .long("stop-file")
        .value_name("FILE")
        .help("Ends the campaign, with its report, once there is a FILE")
}

/// The option by which the launcher ends a campaign at a signal.
pub fn interrupt_file_option<'a>(alloc: Global) -> Arg<'a> {
    Arg::new(alloc, "interrupt-file")
        .long("interrupt-file")
        .value_name("FILE")
        .help("Ends the campaign once there is a FILE, which the launcher makes at Ctrl-C or TERM")
        .hide(true)
}

/// The option that saves failures.
pub fn save_failures_option<'a>(alloc: Global) -> Arg<'a> {
    Arg::new(alloc, "save")
        .long("save")
        .value_name("FOLDER")
        .help("Saves each failure, shrunk, as a file in FOLDER that `run` and `judge` read")
}

/// The option that names a file for the output.
pub fn output_option<'a>(alloc: Global) -> Arg<'a> {
    Arg::new(alloc, "output")
        .short('o')
        .long("output")
        .value_name("FILE")
        .help("Writes to FILE in place of standard output, which `-` also names")
}

/// The option that gives the width of lines.
pub fn line_width_option<'a>(alloc: Global) -> Arg<'a> {
    Arg::new(alloc, "width")
        .long("width")
        .value_name("N")
        .value_parser(ValueParser::Unsigned(LEAST_WIDTH, MOST_WIDTH))
        .help("The width of lines, from 20 to 1000; else that of COLUMNS, or 80")
}

/// The option of `check` that names the operations after whose calls of unknown outcome a run is broken.
pub fn unknown_outcomes_option<'a>(alloc: Global) -> Arg<'a> {
    Arg::new(alloc, "unknown")
        .long("unknown")
        .action(ArgAction::SetTrue)
        .help(
            "Warns of each operation whose `next` uses `r`: a run with a call of it of unknown outcome is broken",
        )
}

/// The option that keeps standard error empty.
pub fn quiet_option<'a>(alloc: Global) -> Arg<'a> {
    Arg::new(alloc, "quiet")
        .short('q')
        .long("quiet")
        .action(ArgAction::SetTrue)
        .help("Writes no messages, warnings, explanations, summary or progress to standard error")
}
