//! The options that go with clients.

use clap::builder::ValueParser;
use clap::{Arg, ArgAction, ArgMatches, Command};
use pst_clients::ClientOptions;
use std::alloc::{AllocError, Global};

/// The maximum number of seconds that a reset waits for late calls.
const MOST_SETTLING_SECONDS: u64 = 3_600;

/// What a call may mean in which a client ends.
const ENDS: [&str; 2] = ["failed", "unknown"];

/// The option of the launcher that says what a call means in which a client ends.
fn client_end_option<'a>(alloc: Global) -> Result<Arg<'a>, AllocError> {
    Arg::new(alloc, "client-end")
        .long("client-end")
        .value_name("END")
        .value_parser(ValueParser::Names(&ENDS))
        .help("What a call means in which its client ends: failed (the default), or unknown")
        .hide_possible_values(true)
        .requires_arg("client")
}

/// The option that limits the time of calls.
fn call_seconds_option<'a>(alloc: Global) -> Arg<'a> {
    Arg::new(alloc, "call-seconds")
        .long("call-seconds")
        .value_name("S")
        .help("With --client: ends a client that does not answer a call in S seconds, such as 0.5")
}

/// The option of the launcher that says what a call means that takes too long.
fn call_end_option<'a>(alloc: Global) -> Result<Arg<'a>, AllocError> {
    Arg::new(alloc, "call-end")
        .long("call-end")
        .value_name("END")
        .value_parser(ValueParser::Names(&ENDS))
        .help(
            "With --call-seconds: what a call means that takes too long: failed (the default), or unknown",
        )
        .hide_possible_values(true)
        .requires_arg("client")
}

/// The option that makes a reset wait for late calls.
fn settle_option<'a>(alloc: Global) -> Arg<'a> {
    Arg::new(alloc, "settle")
        .long("settle")
        .value_name("N")
        .value_parser(ValueParser::Unsigned(1, MOST_SETTLING_SECONDS))
        .allow_negative_numbers(true)
        .help(
            "With --client: waits N seconds before the reset after a run in which a call had an unknown outcome or ended its client",
        )
}

/// The option that numbers the resets.
fn run_numbers_option<'a>(alloc: Global) -> Arg<'a> {
    Arg::new(alloc, "run-numbers")
        .long("run-numbers")
        .action(ArgAction::SetTrue)
        .help("With --client: writes [\"reset\",N] to a client, with the number N of the reset")
}

/// Adds the options that go with clients.
pub fn add_client_options<'a>(
    alloc: Global,
    command: Command<'a>,
) -> Result<Command<'a>, AllocError> {
    command
        .arg(client_end_option(alloc)?)?
        .arg(call_seconds_option(alloc))?
        .arg(call_end_option(alloc)?)?
        .arg(settle_option(alloc))?
        .arg(run_numbers_option(alloc))
}

/// Returns what clients do beyond calls and resets, by the arguments.
pub fn client_options_from_arguments(matches: &ArgMatches<'_>) -> ClientOptions {
    let Some((_, arguments)) = matches.subcommand() else {
        return ClientOptions::NONE;
    };
    ClientOptions {
        limits_calls: arguments.get_str("call-seconds").is_some(),
        numbers_runs: arguments.get_flag("run-numbers"),
        settle_milliseconds: arguments
            .get_one("settle")
            .unwrap_or(0u64)
            .saturating_mul(1_000),
    }
}
