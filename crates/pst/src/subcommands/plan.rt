//! The numbers of a campaign's plan: their options, and the settings that they give.

ghost use Rattle.std.specs.Prelude.{IfNone, IfSome};
ghost use Rattle.clap.specs.Words.{found_of, one_text};
ghost use Rattle.pst.specs.Numbers.{GivesCases, GivesTrials, IsRead, LacksCases, LacksTrials};
ghost use Rattle.pst_trial.specs.Settings.{AreInRange};

use crate::subcommands::options::order_for_systems_from_arguments;
use clap::builder::{ArgPredicate, ValueParser};
use clap::{Arg, ArgMatches, Command};
use pst_cli::CallOrder;
use pst_trial::{
    MAX_BRANCHES, MAX_COMMANDS, MAX_LIMIT, MAX_REPEATS, MAX_SUFFIX, MAX_TRIALS, Settings,
};
use std::alloc::{AllocError, Global};

/// A number of a campaign's plan. An option with the same name sets it.
struct NumberOption {
    name: &'static str,
    least: u64,
    most: u64,
    default: &'static str,
    help: &'static str,
}

/// The numbers of a campaign's plan, in the order of its help.
const PLAN_NUMBERS: [NumberOption; 8] = [
    NumberOption {
        name: "seed",
        least: 0,
        most: u64::MAX,
        default: "0",
        help: "Chooses the cases: the same seed generates the same ones",
    },
    NumberOption {
        name: "trials",
        least: 0,
        most: MAX_TRIALS as u64,
        default: "100",
        help: "How many cases are tried",
    },
    NumberOption {
        name: "commands",
        least: 1,
        most: MAX_COMMANDS as u64,
        default: "16",
        help: "At most N commands in a case",
    },
    NumberOption {
        name: "branches",
        least: 1,
        most: MAX_BRANCHES as u64,
        default: "2",
        help: "How many branches run at the same time",
    },
    NumberOption {
        name: "suffix",
        least: 0,
        most: MAX_SUFFIX as u64,
        default: "0",
        help: "How many commands come after the branches",
    },
    NumberOption {
        name: "repeats",
        least: 1,
        most: MAX_REPEATS as u64,
        default: "5",
        help: "Drives a case up to N times, until a run is not explained",
    },
    NumberOption {
        name: "workers",
        least: 1,
        most: 16,
        default: "4",
        help: "How many systems run at the same time",
    },
    NumberOption {
        name: "limit",
        least: 0,
        most: MAX_LIMIT as u64,
        default: "1000",
        help: "Drives at most N cases to shrink one",
    },
];

/// The numbers of `generate` that a campaign does not have: which trials there are.
const TRIAL_NUMBERS: [NumberOption; 2] = [
    NumberOption {
        name: "first",
        least: 0,
        most: u64::MAX,
        default: "0",
        help: "The number of the first trial whose case is printed",
    },
    NumberOption {
        name: "trials",
        least: 0,
        most: u64::MAX,
        default: "100",
        help: "How many cases are printed",
    },
];

/// The option that gives a number of a campaign's plan.
fn clap_option_for_number<'a>(alloc: Global, number: &NumberOption) -> Arg<'a> {
    Arg::new(alloc, number.name)
        .long(number.name)
        .value_name("N")
        .value_parser(ValueParser::Unsigned(number.least, number.most))
        .allow_negative_numbers(true)
        .default_value(number.default)
        .help(number.help)
}

/// Whether a number of a campaign's plan chooses the cases of its trials.
fn does_plan_number_choose_cases(number: &NumberOption) -> bool {
    matches!(number.name, "seed" | "commands" | "branches" | "suffix")
}

/// The number of trials of a campaign with `--seconds` and without `--trials`: the greatest that `--trials` takes.
const TIMED_TRIALS: &str = "100000";

/// The option that gives a number of a campaign's plan. That of the trials has another default if the campaign has a limit of
/// time.
fn clap_option_for_plan_number<'a>(
    alloc: Global,
    number: &NumberOption,
) -> Result<Arg<'a>, AllocError> {
    let option = clap_option_for_number(alloc, number);
    if number.name == "trials" {
        option.default_value_if("seconds", ArgPredicate::IsPresent, Some(TIMED_TRIALS))
    } else {
        Ok(option)
    }
}

/// Adds an option for each number of a campaign's plan.
pub fn add_campaign_number_options<'a>(
    alloc: Global,
    command: Command<'a>,
) -> Result<Command<'a>, AllocError> {
    let mut command = command;
    for number in &PLAN_NUMBERS {
        command = command.arg(clap_option_for_plan_number(alloc, number)?)?;
    }
    Ok(command)
}

/// Adds an option for each number of `generate`: which trials there are, and what chooses their cases.
pub fn add_generate_number_options<'a>(
    alloc: Global,
    command: Command<'a>,
) -> Result<Command<'a>, AllocError> {
    let mut command = command;
    for number in &TRIAL_NUMBERS {
        command = command.arg(clap_option_for_number(alloc, number))?;
    }
    for number in &PLAN_NUMBERS {
        if does_plan_number_choose_cases(number) {
            command = command.arg(clap_option_for_number(alloc, number))?;
        }
    }
    Ok(command)
}

/// The number of an option.
fn number_from_arguments(arguments: &ArgMatches<'_>, name: &str) -> Option<u32>
    ensures { IsRead 32 (one_text (found_of arguments.now) name.now) result }
{
    arguments.get_one(name)
}

/// The number of an option that takes 64 bits.
pub fn long_number_from_arguments(arguments: &ArgMatches<'_>, name: &str) -> Option<u64>
    ensures { IsRead 64 (one_text (found_of arguments.now) name.now) result }
{
    arguments.get_one(name)
}

/// The settings that the arguments of `generate` give: no trial is driven with them. Each was found to be in its range.
pub fn settings_for_generate_from_arguments(arguments: &ArgMatches<'_>) -> Option<Settings>
    ensures range { IfSome result AreInRange }
    ensures given { IfSome result (GivesCases arguments.now) }
    ensures none { IfNone result (LacksCases arguments.now) }
{
    let settings = Settings {
        seed: long_number_from_arguments(arguments, "seed")?,
        trials: 0,
        commands: number_from_arguments(arguments, "commands")?,
        branches: number_from_arguments(arguments, "branches")?,
        suffix: number_from_arguments(arguments, "suffix")?,
        repeats: 1,
        limit: 0,
        order: CallOrder::Any,
    };
    if settings.are_in_range() {
        Some(settings)
    } else {
        None
    }
}

/// The settings that the arguments of `campaign` give. Each has a default and was found to be in its range.
pub fn campaign_settings_from_arguments(arguments: &ArgMatches<'_>) -> Option<Settings>
    ensures range { IfSome result AreInRange }
    ensures given { IfSome result (GivesTrials arguments.now) }
    ensures none { IfNone result (LacksTrials arguments.now) }
{
    let settings = Settings {
        seed: long_number_from_arguments(arguments, "seed")?,
        trials: number_from_arguments(arguments, "trials")?,
        commands: number_from_arguments(arguments, "commands")?,
        branches: number_from_arguments(arguments, "branches")?,
        suffix: number_from_arguments(arguments, "suffix")?,
        repeats: number_from_arguments(arguments, "repeats")?,
        limit: number_from_arguments(arguments, "limit")?,
        order: order_for_systems_from_arguments(arguments),
    };
    if settings.are_in_range() {
        Some(settings)
    } else {
        None
    }
}
