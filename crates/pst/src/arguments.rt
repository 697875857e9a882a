//! The arguments of the program: parsing, help, and messages on wrong arguments.

use crate::{diagnostics, help, outputs, subcommands};
use clap::builder::ValueParser;
use clap::error::ErrorKind;
use clap::{ArgMatches, Command, Error};
use pst_cli::Status;
use pst_syntax_problems::NearestNameSoFar;
use std::alloc::{AllocError, Global};
use std::rt::Runtime;
use std::{env, io};

/// Returns whether a line is a tip that does not help here: no file or system of a user has a name like an option's.
fn is_tip_to_pass_option_as_value(line: &str) -> bool {
    line.starts_with("  tip: to pass '")
}

/// Returns the least and the greatest number that the option `--name` of `subcommand` takes, if it takes a number.
fn number_range_of_subcommand_option(subcommand: &Command<'_>, name: &str) -> Option<(u64, u64)> {
    for argument in subcommand.get_arguments() {
        if argument.get_long() == Some(name) {
            return match argument.get_value_parser() {
                ValueParser::Unsigned(least, most) => Some((least, most)),
                _ => None,
            };
        }
    }
    None
}

/// Returns the least and the greatest number that the option `--name` of a subcommand takes, if it takes a
/// number.
fn number_range_of_option(
    alloc: Global,
    subcommand: &str,
    name: &str,
) -> Result<Option<(u64, u64)>, AllocError> {
    let command = subcommands::clap_command_for_program(alloc)?;
    match command.find_subcommand(subcommand) {
        Some(subcommand) => Ok(number_range_of_subcommand_option(subcommand, name)),
        None => Ok(None),
    }
}

/// Returns the value and the option of an error's text, as `5` and `branches`, if the error is that a value
/// is invalid.
fn invalid_value_and_option_of_error(text: &str) -> Option<(&str, &str)> {
    let (_, text) = text.split_once("invalid value '")?;
    let (value, text) = text.rsplit_once("' for '--")?;
    let (option, _) = text.split_once(' ')?;
    Some((value, option))
}

/// Returns what is wrong with the arguments if a number is out of the range of its option, or none. `started`
/// are the words of the program.
fn message_if_option_number_is_invalid(
    alloc: Global,
    started: &[String],
    text: &str,
) -> Result<Option<String>, AllocError> {
    let (Some(subcommand), Some((value, name))) = (
        started.get(1),
        invalid_value_and_option_of_error(text),
    ) else {
        return Ok(None);
    };
    match number_range_of_option(alloc, subcommand.as_str(), name)? {
        Some((least, most)) => Ok(Some(format!(in alloc;
            "error: --{name} is a number from {least} to {most}, not '{value}'\n\nFor more information, try '--help'.\n"
        )?)),
        None => Ok(None),
    }
}

/// Returns the word in single quotes after `before` in the text of an error, if there is one.
fn quoted_word_after<'a>(text: &'a str, before: &str) -> Option<&'a str> {
    let (_, text) = text.split_once(before)?;
    let (_, text) = text.split_once('\'')?;
    let (word, _) = text.split_once('\'')?;
    Some(word)
}

/// Returns the option in the tip of an error on an unknown option, if the two have little in common.
fn dissimilar_option_in_tip<'a>(
    alloc: Global,
    text: &'a str,
) -> Result<Option<&'a str>, AllocError> {
    let (Some(unknown), Some(known)) = (
        quoted_word_after(text, "unexpected argument"),
        quoted_word_after(text, "  tip: a similar argument exists:"),
    ) else {
        return Ok(None);
    };
    let near = NearestNameSoFar::without_candidates(unknown).or_nearer_candidate(
        alloc, known, unknown,
    )?;
    match near.hint() {
        Some(_) => Ok(None),
        None => Ok(Some(known)),
    }
}

/// The commands of the launcher, which the program does not have.
const OF_THE_LAUNCHER: [&str; 3] = ["new", "install", "uninstall"];

/// The commands that the help of the program lists.
const COMMANDS_LINE: &str =
    "  commands: check, generate, judge, explain, convert, run, campaign, fmt, verdicts\n\n";

/// Returns a line that lists the commands of the program, or that says which program has the command `name`.
fn line_on_unknown_command(alloc: Global, name: &str) -> Result<String, AllocError> {
    for known in OF_THE_LAUNCHER {
        if known == name {
            return format!(in alloc;
                "  the launcher has `{name}`, not the program itself: run ./pst or an installed pst\n\n"
            );
        }
    }
    String::from_str(alloc, COMMANDS_LINE)
}

/// Returns a line on what to do in place of the option `unknown` of `subcommand`, or an empty text.
fn line_on_unknown_option(subcommand: &str, unknown: &str) -> &'static str {
    match (subcommand, unknown) {
        ("campaign", "--minutes" | "--time" | "--timeout" | "--duration") => {
            "  tip: `--seconds 10` begins no trial after ten seconds, and the campaign ends with its report\n\n"
        }
        ("explain", "--stream" | "--max") => {
            "  tip: cut out the line of an item: `sed -n 7p RUNS | pst explain MODEL -`\n\n"
        }
        _ => "",
    }
}

/// Returns a line that helps with an error on the arguments, or an empty text. `started` are the words of the program.
fn line_on_arguments_error(
    alloc: Global,
    started: &[String],
    kind: ErrorKind,
    text: &str,
) -> Result<String, AllocError> {
    match kind {
        ErrorKind::InvalidSubcommand => {
            let name = quoted_word_after(text, "unrecognized subcommand").unwrap_or("");
            line_on_unknown_command(alloc, name)
        }
        ErrorKind::UnknownArgument => {
            let unknown = quoted_word_after(text, "unexpected argument").unwrap_or("");
            match started.get(1) {
                Some(subcommand) => String::from_str(
                    alloc,
                    line_on_unknown_option(subcommand.as_str(), unknown),
                ),
                None => Ok(String::new(alloc)),
            }
        }
        _ => Ok(String::new(alloc)),
    }
}

/// Returns whether a line of an error on the arguments does not help: a tip, or a usage for it. `dissimilar` is an option
/// that the error should not name.
fn is_unhelpful_line(line: &str, dissimilar: Option<&str>) -> bool {
    let names_option = match dissimilar {
        Some(option) => line.contains(option) && !line.starts_with("error: "),
        None => false,
    };
    names_option || is_tip_to_pass_option_as_value(line)
}

/// Returns what is wrong with the arguments, without tips that do not help. `started` are the words of the
/// program.
fn simplified_arguments_error_text(
    alloc: Global,
    started: &[String],
    error: &Error,
) -> Result<String, AllocError> {
    let whole = format!(in alloc; "{error}")?;
    if error.kind() == ErrorKind::ValueValidation {
        if let Some(text) = message_if_option_number_is_invalid(alloc, started, whole.as_str())? {
            return Ok(text);
        }
    }
    let dissimilar = dissimilar_option_in_tip(alloc, whole.as_str())?;
    let mut help = line_on_arguments_error(alloc, started, error.kind(), whole.as_str())?;
    let mut text = String::new(alloc);
    let mut was_empty = false;
    for line in whole.as_str().lines() {
        let is_left_out = is_unhelpful_line(line, dissimilar) || line.is_empty() && was_empty;
        if !is_left_out {
            if line.starts_with("Usage:") || line.starts_with("For more") {
                text.push_str(help.as_str())?;
                help.clear();
            }
            text.push_str(line)?;
            text.push_str("\n")?;
            was_empty = line.is_empty();
        }
    }
    Ok(text)
}

/// Prints help on standard output, or what is wrong with the arguments on standard error, and returns the status that
/// the program ends with. `started` are the words of the program.
fn print_help_or_arguments_error<R: Runtime + AllocGlobal>(
    rt: &R,
    started: &[String],
    error: &Error,
) -> Status {
    if error.kind() == ErrorKind::OutOfMemory {
        return diagnostics::print_memory_refusal(rt);
    }
    if !error.use_stderr() {
        return match error.print(rt) {
            Ok(()) => Status::Accepted,
            Err(error) => outputs::print_output_error_unless_pipe_closed(
                rt,
                rt.alloc(),
                None,
                &error,
            ),
        };
    }
    let Ok(text) = simplified_arguments_error_text(rt.alloc(), started, error) else {
        return diagnostics::print_memory_refusal(rt);
    };
    match eprint!(rt; "{text}") {
        Ok(()) => Status::Refused,
        Err(_) => Status::Lost,
    }
}

/// Prints a text on standard output, and returns the status that the program ends with.
fn print_to_standard_output<R: Runtime + AllocGlobal>(rt: &R, text: &str) -> Status {
    match print!(rt; "{text}") {
        Ok(()) => Status::Accepted,
        Err(error) => outputs::print_output_error_unless_pipe_closed(rt, rt.alloc(), None, &error),
    }
}

/// Writes to standard error that the launcher starts clients, and returns the status that the program ends with.
fn print_refusal_of_client_option<R: Eprint>(rt: &R) -> Status {
    let text =
        "error: the launcher takes --client, not the program itself: run ./pst or an installed pst";
    match eprintln!(rt; "{text}") {
        Ok(()) => Status::Refused,
        Err(_) => Status::Lost,
    }
}

/// Parses the arguments of the program. If that fails, a client is to be started, or nothing but a text is to be
/// printed, the error is the status that the program ends with.
pub fn parse_arguments_else_print_help_or_error<'a, R: Runtime + AllocGlobal>(
    rt: &R,
    started: &'a [String],
) -> Result<ArgMatches<'a>, Status> {
    let Ok(command) = subcommands::clap_command_for_program(rt.alloc()) else {
        return Err(diagnostics::print_memory_refusal(rt));
    };
    match command.try_get_matches_from(started) {
        Ok(matches) if matches.subcommand_name() == Some("verdicts") => {
            Err(print_to_standard_output(rt, help::VERDICTS))
        }
        Ok(matches) if subcommands::is_client_option_given(&matches) => Err(
            print_refusal_of_client_option(rt),
        ),
        Ok(matches) => Ok(matches),
        Err(error) => Err(print_help_or_arguments_error(rt, started, &error)),
    }
}

/// Returns the words that the program was started with. If they cannot be read, the error is the status that the
/// program ends with.
pub fn read_program_arguments_or_refuse<R: Runtime + AllocGlobal>(
    rt: &R,
) -> Result<Vec<String>, Status> {
    let arguments = match env::args(rt) {
        Ok(arguments) => arguments,
        Err(error) if error.kind() == io::ErrorKind::OutOfMemory => return Err(
            diagnostics::print_memory_refusal(rt),
        ),
        Err(_) => {
            return match eprintln!(rt; "error: an argument is not UTF-8") {
                Ok(()) => Err(Status::Refused),
                Err(_) => Err(Status::Lost),
            };
        }
    };
    match arguments.collect(rt.alloc()) {
        Ok(arguments) => Ok(arguments),
        Err(_) => Err(diagnostics::print_memory_refusal(rt)),
    }
}
