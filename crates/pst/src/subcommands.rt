//! The commands of the program. `subcommands/options.rt` has their arguments, `subcommands/plan.rt` the numbers of a campaign.

mod client_options;
mod options;
mod plan;

use crate::{explaining, formatting, help, page};
use clap::Command;
pub use client_options::client_options_from_arguments;
pub use options::{
    is_client_option_given, is_json_selected, line_width_option, model_and_items_files_argument,
    only_failures_option, order_for_recorded_runs_from_arguments, order_for_systems_from_arguments,
    order_option_for_recorded_runs, output_form_from_arguments, output_option, quiet_option,
};
pub use plan::{
    campaign_settings_from_arguments, long_number_from_arguments,
    settings_for_generate_from_arguments,
};
use std::alloc::{AllocError, Global};

/// The subcommands that have an input and an output.
#[derive(Clone, Copy, Drop)]
pub enum Subcommand {
    Check,
    List,
    Generate,
    Convert,
    Judge,
    Explain,
    Run,
    Campaign,
}

/// The names of the subcommands in the arguments.
const NAMES: [(&str, Subcommand); 8] = [
    ("check", Subcommand::Check),
    ("list", Subcommand::List),
    ("generate", Subcommand::Generate),
    ("convert", Subcommand::Convert),
    ("judge", Subcommand::Judge),
    ("explain", Subcommand::Explain),
    ("run", Subcommand::Run),
    ("campaign", Subcommand::Campaign),
];

impl Subcommand {
    /// Returns the subcommand with the name `name`, if there is one.
    pub fn named(name: &str) -> Option<Subcommand> {
        for (known, subcommand) in NAMES {
            if known == name {
                return Some(subcommand);
            }
        }
        None
    }
}

/// A command whose input is the file of a model.
fn clap_command_with_model_file<'a>(
    alloc: Global,
    name: &'a str,
    about: &'a str,
) -> Result<Command<'a>, AllocError> {
    Command::new(alloc, name)
        .about(about)
        .arg(options::model_file_argument(alloc))?
        .arg(output_option(alloc))?
        .arg(quiet_option(alloc))
}

/// `check`, with the file of a model.
fn clap_command_for_check<'a>(alloc: Global) -> Result<Command<'a>, AllocError> {
    clap_command_with_model_file(
        alloc,
        "check",
        "Checks a model: prints `ok NAME`, or the refusal",
    )?
    .after_help(help::CHECK)
    .arg(options::text_or_json_format_option(alloc))?
    .arg(options::unknown_outcomes_option(alloc))
}

/// `list`, with the file of a model.
fn clap_command_for_list<'a>(alloc: Global) -> Result<Command<'a>, AllocError> {
    clap_command_with_model_file(
        alloc,
        "list",
        "Lists the code of a model: a line for each instruction, or the refusal",
    )?
    .after_help(help::LIST)
    .hide(true)
    .alias("disasm")
}

/// `judge`, with the files of a model and its items.
fn clap_command_for_judge<'a>(alloc: Global) -> Result<Command<'a>, AllocError> {
    Command::new(alloc, "judge")
        .about("Judges cases and recorded runs: prints a verdict for each")
        .after_help(help::JUDGE)
        .arg(model_and_items_files_argument(alloc))?
        .arg(options::keep_going_option(alloc))?
        .arg(options::all_messages_option(alloc))?
        .arg(only_failures_option(alloc))?
        .arg(order_option_for_recorded_runs(alloc))?
        .arg(options::text_or_json_format_option(alloc))?
        .arg(options::stream_option(alloc)?)?
        .arg(options::require_items_option(alloc))?
        .arg(output_option(alloc))?
        .arg(quiet_option(alloc))
}

/// `run`, with a system or a client.
fn clap_command_for_run<'a>(alloc: Global) -> Result<Command<'a>, AllocError> {
    let command = Command::new(alloc, "run")
        .about("Drives cases on a system, once each: prints the runs and their verdicts")
        .override_usage(help::RUN_USAGE)
        .after_help(help::RUN);
    options::add_system_argument_and_client_options(alloc, command)?
        .arg(options::client_branches_option(alloc)?)?
        .arg(model_and_items_files_argument(alloc))?
        .arg(options::repeats_option(alloc))?
        .arg(options::require_items_option(alloc))?
        .arg(options::order_option_for_systems(alloc))?
        .arg(options::text_or_json_format_option(alloc))?
        .arg(line_width_option(alloc))?
        .arg(output_option(alloc))?
        .arg(quiet_option(alloc))
}

/// `campaign`, with a system or a client, and the numbers of its plan.
fn clap_command_for_campaign<'a>(alloc: Global) -> Result<Command<'a>, AllocError> {
    let command = Command::new(alloc, "campaign")
        .about(
            "Generates cases, drives them on a system and shrinks those that fail: prints a report",
        )
        .override_usage(help::CAMPAIGN_USAGE)
        .after_help(help::CAMPAIGN);
    let command = options::add_system_argument_and_client_options(alloc, command)?.arg(
        options::model_file_argument(alloc),
    )?;
    plan::add_campaign_number_options(alloc, command)?
        .arg(options::order_option_for_systems(alloc))?
        .arg(options::max_failures_option(alloc))?
        .arg(options::seconds_option(alloc))?
        .arg(options::burst_option(alloc))?
        .arg(options::stop_file_option(alloc))?
        .arg(options::interrupt_file_option(alloc))?
        .arg(options::save_failures_option(alloc))?
        .arg(options::text_or_json_format_option(alloc))?
        .arg(page::html_option(alloc))?
        .arg(page::junit_option(alloc))?
        .arg(line_width_option(alloc))?
        .arg(output_option(alloc))?
        .arg(quiet_option(alloc))
}

/// `generate`, with the numbers that choose cases.
fn clap_command_for_generate<'a>(alloc: Global) -> Result<Command<'a>, AllocError> {
    let command = Command::new(alloc, "generate")
        .about("Generates the cases of a campaign: prints one on each line")
        .after_help(help::GENERATE)
        .arg(options::model_file_argument(alloc))?;
    plan::add_generate_number_options(alloc, command)?
        .arg(options::text_or_json_format_option(alloc))?
        .arg(output_option(alloc))?
        .arg(quiet_option(alloc))
}

/// Adds a command, unless an allocation for it failed.
fn add_subcommand<'a>(
    command: Command<'a>,
    subcommand: Result<Command<'a>, AllocError>,
) -> Result<Command<'a>, AllocError> {
    command.subcommand(subcommand?)
}

/// Adds the commands whose input is a model.
fn add_model_subcommands<'a>(
    alloc: Global,
    command: Command<'a>,
) -> Result<Command<'a>, AllocError> {
    let command = add_subcommand(command, clap_command_for_check(alloc))?;
    let command = add_subcommand(command, clap_command_for_list(alloc))?;
    add_subcommand(command, clap_command_for_generate(alloc))
}

/// Adds the commands whose input is a model and items.
fn add_item_subcommands<'a>(
    alloc: Global,
    command: Command<'a>,
) -> Result<Command<'a>, AllocError> {
    let command = add_subcommand(command, clap_command_for_judge(alloc))?;
    let command = add_subcommand(command, explaining::clap_command_for_explain(alloc))?;
    add_subcommand(command, formatting::clap_command_for_convert(alloc))
}

/// `verdicts`, which prints what verdicts, reports, refusals and exit statuses mean.
fn clap_command_for_verdicts<'a>(alloc: Global) -> Command<'a> {
    Command::new(alloc, "verdicts")
        .about("Explains verdicts, reports, refusals and exit statuses")
        .override_help(help::VERDICTS)
}

/// Adds the commands that take a system.
fn add_system_subcommands<'a>(
    alloc: Global,
    command: Command<'a>,
) -> Result<Command<'a>, AllocError> {
    let command = add_subcommand(command, clap_command_for_run(alloc))?;
    add_subcommand(command, clap_command_for_campaign(alloc))
}

/// The commands of the program.
pub fn clap_command_for_program<'a>(alloc: Global) -> Result<Command<'a>, AllocError> {
    let command = Command::new(alloc, "pst")
        .version("0.1.0")
        .about("Finds races in servers: tests concurrent systems against a sequential model")
        .after_help(help::PROGRAM)
        .subcommand_required(true)
        .arg_required_else_help(true);
    let command = add_model_subcommands(alloc, command)?;
    let command = add_item_subcommands(alloc, command)?;
    add_system_subcommands(alloc, command)?
        .subcommand(formatting::clap_command_for_fmt(alloc)?)?
        .subcommand(clap_command_for_verdicts(alloc))
}
