//! What the arguments ask for. This is the one place where words become the options that an output depends on.
ghost use Rattle.std.specs.Prelude.{◌≡◌, IfNone, IfSome, IsTrue};
ghost use Rattle.pst.specs.Answering.{HasTrials};
ghost use Rattle.pst.specs.Commands.{ChoosesNone, IsGiven, IsInRange, MayChoose, SaysWhenToEnd, subcommand_of_input};
ghost use Rattle.pst.specs.Numbers.{GivesTrials, LacksTrials};
ghost use Rattle.pst.specs.declared.subcommands.Subcommand.TheVariants as subcommand;
ghost use Rattle.pst_cli.specs.declared.campaign.UndrawnTrials.TheVariants.{LeftOut};
ghost use Rattle.pst_trial.specs.Settings.{AreInRange};

use crate::answering::InputCommand;
use crate::explaining::explain_command_from_arguments;
use crate::generating::generate_command_from_arguments;
use crate::preparing::SubcommandContext;
use crate::saving::FailureSaver;
use crate::subcommands::{
    Subcommand, campaign_settings_from_arguments, order_for_recorded_runs_from_arguments,
    output_form_from_arguments,
};
use crate::systems::system_name_from_arguments_or_empty;
use crate::{driving, formatting, judging};
use clap::ArgMatches;
use pst_cli::{CallOrder, DriveOptions, JudgeOptions, OutputForm, UndrawnTrials};
use pst_sources::SourceFile;
use pst_trial::Settings;
use std::rt::Env;

/// A command, with all the options that its output depends on.
#[derive(Clone, Copy, Drop)]
pub enum Command<'m, 'a> {
    /// A command that needs nothing but its input.
    OfInput(InputCommand<'a>),
    /// `judge`.
    Judge(JudgeOptions),
    /// `judge --stream`, by an order.
    Stream(CallOrder),
    /// `run`.
    Run(RunCommand<'m>),
    /// `campaign`.
    Campaign(CampaignCommand<'m, 'a>),
}

/// `run`, with its options.
#[derive(Clone, Copy, Drop)]
pub struct RunCommand<'m> {
    /// The name of the system.
    pub system: &'m str,
    pub options: DriveOptions,
}

/// `campaign`, with its options.
#[derive(Clone, Copy, Drop)]
pub struct CampaignCommand<'m, 'a> {
    /// The name of the systems.
    pub system: &'m str,
    pub settings: Settings,
    pub form: OutputForm,
    /// What trials that were not made mean for its status, if it ends early.
    pub undrawn: UndrawnTrials,
    /// How many trials that did not pass end the campaign, if there is a limit.
    pub most: Option<u64>,
    /// The file of the page of failures, if it is written.
    pub page: Option<&'m str>,
    /// The file of the results as JUnit XML, if it is written.
    pub junit: Option<&'m str>,
    /// The folder for failures, if they are saved.
    pub saver: Option<&'a FailureSaver<'m>>,
}

/// Returns how the arguments choose to check a model. `notices` are part of the output.
fn check_command_from_arguments<'a>(
    arguments: &ArgMatches<'_>,
    notices: &'a [u8],
) -> InputCommand<'a>
    ensures trials { HasTrials result }
    ensures subcommand { subcommand_of_input result ≡ subcommand.Check }
{
    InputCommand::Check {
        form: output_form_from_arguments(arguments),
        notices,
    }
}

/// Returns how the arguments choose to judge items: those of the input, or those of a stream.
fn judge_command_from_arguments(arguments: &ArgMatches<'_>) -> Command<'static, 'static>
    ensures range { IsInRange result }
    ensures choice { MayChoose subcommand.Judge arguments.now result }
{
    if arguments.get_flag("stream") {
        Command::Stream(order_for_recorded_runs_from_arguments(arguments))
    } else {
        Command::Judge(judging::judge_options_from_arguments(arguments))
    }
}

/// Returns how the arguments choose to drive items.
fn run_command_from_arguments<'m>(arguments: &ArgMatches<'m>) -> RunCommand<'m> {
    RunCommand {
        system: system_name_from_arguments_or_empty(arguments),
        options: driving::drive_options_from_arguments(arguments),
    }
}

/// Returns whether the option has a value.
fn is_option_given(arguments: &ArgMatches<'_>, option: &str) -> bool
    ensures { IsTrue result → IsGiven arguments.now option.now }
{
    match arguments.get_str(option) {
        Some(_) => true,
        None => false,
    }
}

/// Returns what trials that were not made mean for the status of a campaign: they are left out if the arguments say when it
/// ends, by `--seconds` or `--stop-file`.
fn undrawn_trials_from_arguments(arguments: &ArgMatches<'_>) -> UndrawnTrials
    ensures { (result ≡ LeftOut) → SaysWhenToEnd arguments.now }
{
    if is_option_given(arguments, "seconds") || is_option_given(arguments, "stop-file") {
        UndrawnTrials::LeftOut
    } else {
        UndrawnTrials::Missing
    }
}

/// Returns which campaign the arguments choose. `saver` saves its failures.
fn campaign_command_from_arguments<'m, 'a>(
    arguments: &ArgMatches<'m>,
    saver: Option<&'a FailureSaver<'m>>,
) -> Option<CampaignCommand<'m, 'a>>
    ensures range { IfSome result (λ campaign. AreInRange campaign.settings) }
    ensures given { IfSome result (λ campaign. GivesTrials arguments.now campaign.settings) }
    ensures undrawn { IfSome result
        (λ campaign. (campaign.undrawn ≡ LeftOut) → SaysWhenToEnd arguments.now) }
    ensures none { IfNone result (LacksTrials arguments.now) }
{
    let settings = campaign_settings_from_arguments(arguments)?;
    Some(CampaignCommand {
        system: system_name_from_arguments_or_empty(arguments),
        settings,
        form: output_form_from_arguments(arguments),
        undrawn: undrawn_trials_from_arguments(arguments),
        most: arguments.get_one("max-failures"),
        page: arguments.get_str("html"),
        junit: arguments.get_str("junit"),
        saver,
    })
}

/// Returns the command that the arguments choose. `None` only if their numbers give no settings in their ranges, for which the
/// parser of the arguments refuses them. `files` have the input, `notices` are part of the output of `check`, and `saver`
/// saves the failures of a campaign.
pub fn command_from_arguments<'m, 'a, R: Env + AllocGlobal>(
    rt: &R,
    context: SubcommandContext<'_, 'm>,
    files: &'a [SourceFile<'a>],
    notices: &'a [u8],
    saver: Option<&'a FailureSaver<'m>>,
) -> Option<Command<'m, 'a>>
    ensures range { IfSome result IsInRange }
    ensures choice { IfSome result (MayChoose context.entry.subcommand context.entry.arguments.now) }
    ensures none { IfNone result (ChoosesNone context.entry.subcommand context.entry.arguments.now) }
{
    let arguments = context.arguments;
    match context.subcommand {
        Subcommand::Check => Some(Command::OfInput(check_command_from_arguments(
            arguments, notices,
        ))),
        Subcommand::List => Some(Command::OfInput(InputCommand::ListCode)),
        Subcommand::Convert => Some(Command::OfInput(InputCommand::Convert(
            formatting::item_form_from_arguments(arguments),
        ))),
        Subcommand::Generate => Some(Command::OfInput(generate_command_from_arguments(arguments)?)),
        Subcommand::Explain => Some(Command::OfInput(explain_command_from_arguments(
            rt,
            arguments,
            context.terminals,
            files,
        ))),
        Subcommand::Judge => Some(judge_command_from_arguments(arguments)),
        Subcommand::Run => Some(Command::Run(run_command_from_arguments(arguments))),
        Subcommand::Campaign => Some(Command::Campaign(campaign_command_from_arguments(
            arguments, saver,
        )?)),
    }
}
