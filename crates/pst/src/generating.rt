//! `pst generate`.
ghost use Rattle.std.specs.Prelude.{◌≡◌, ◌⊎◌, IfNone, IfSome};
ghost use Rattle.pst.specs.Answering.{HasTrials};
ghost use Rattle.pst.specs.Commands.{subcommand_of_input};
ghost use Rattle.pst.specs.Numbers.{GivesNumbers, LacksCases, LacksRange};
ghost use Rattle.pst.specs.declared.subcommands.Subcommand.TheVariants as subcommand;

use crate::answering::InputCommand;
use crate::subcommands;
use clap::ArgMatches;
use pst_cli::{ItemForm, Status};

/// Returns the form of cases that the arguments choose.
fn case_form_from_arguments(arguments: &ArgMatches<'_>) -> ItemForm {
    if subcommands::is_json_selected(arguments) {
        ItemForm::Json
    } else {
        ItemForm::Trees
    }
}

/// Refuses trials whose numbers do not fit 64 bits. The error is the status that the program ends with, and
/// standard error says why.
pub fn refuse_generate_trial_numbers_that_overflow<R: Eprint>(
    rt: &R,
    matches: &ArgMatches<'_>,
) -> Result<(), Status> {
    let Some(("generate", arguments)) = matches.subcommand() else {
        return Ok(());
    };
    let (Some(first), Some(trials)) = (
        arguments.get_one::<u64>("first"),
        arguments.get_one::<u64>("trials"),
    ) else {
        return Ok(());
    };
    if trials <= u64::MAX - first {
        return Ok(());
    }
    let last = u64::MAX - 1;
    let _ = eprintln!(rt; "error: --first {first} --trials {trials}: the last trial is {last}");
    Err(Status::Refused)
}

/// Returns which cases the arguments choose, without those of trials whose numbers do not fit 64 bits.
pub fn generate_command_from_arguments(arguments: &ArgMatches<'_>) -> Option<InputCommand<'static>>
    ensures trials { IfSome result HasTrials }
    ensures subcommand { IfSome result (λ command. subcommand_of_input command ≡ subcommand.Generate) }
    ensures given { IfSome result (GivesNumbers arguments.now) }
    ensures none { IfNone result (LacksCases arguments.now ⊎ LacksRange arguments.now) }
{
    let settings = subcommands::settings_for_generate_from_arguments(arguments)?;
    let first = subcommands::long_number_from_arguments(arguments, "first")?;
    let trials = subcommands::long_number_from_arguments(arguments, "trials")?;
    Some(InputCommand::Generate {
        form: case_form_from_arguments(arguments),
        settings,
        first,
        count: trials.min(u64::MAX - first),
    })
}
