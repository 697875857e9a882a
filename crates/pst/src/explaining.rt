//! `pst explain`: its arguments.
ghost use Rattle.std.specs.Prelude.{◌≡◌};
ghost use Rattle.pst.specs.Answering.{HasTrials};
ghost use Rattle.pst.specs.Commands.{subcommand_of_input};
ghost use Rattle.pst.specs.declared.subcommands.Subcommand.TheVariants as subcommand;

use crate::answering::InputCommand;
use crate::terminal::{self, Terminals};
use crate::{help, subcommands};
use clap::builder::ValueParser;
use clap::{Arg, ArgAction, ArgMatches, Command};
use pst_cli::{ChosenItems, ExplainOptions, ExplanationForm};
use pst_sexpr::MAX_BYTES;
use pst_sources::SourceFile;
use std::alloc::{AllocError, Global};
use std::rt::Env;

/// The forms of explanations.
const FORMS: [&str; 4] = ["text", "json", "html", "dot"];

/// The option that names the form of the explanations.
fn explanation_format_option<'a>(alloc: Global) -> Arg<'a> {
    Arg::new(alloc, "format")
        .long("format")
        .value_name("FORM")
        .value_parser(ValueParser::Names(&FORMS))
        .default_value("text")
        .help(
            "text, json, a page for a browser (html), or the search of one item as a graph for Graphviz (dot)",
        )
        .hide_possible_values(true)
}

/// The option that selects a graph.
fn dot_graph_option<'a>(alloc: Global) -> Result<Arg<'a>, AllocError> {
    Arg::new(alloc, "dot")
        .long("dot")
        .action(ArgAction::SetTrue)
        .help("Short for --format dot")
        .conflicts_with("format")
}

/// The option that selects the whole search of an explained run.
fn whole_search_option<'a>(alloc: Global) -> Arg<'a> {
    Arg::new(alloc, "all")
        .long("all")
        .action(ArgAction::SetTrue)
        .help("As dot: draws all positions of an explained run, not its interleaving alone")
}

/// The option that limits how many items are explained.
fn max_explained_items_option<'a>(alloc: Global) -> Arg<'a> {
    Arg::new(alloc, "max")
        .long("max")
        .value_name("N")
        .value_parser(ValueParser::Unsigned(1, MAX_BYTES as u64))
        .help("Explains at most N items: the first of those that are chosen")
}

/// The option that names the item that is explained or drawn.
fn item_number_option<'a>(alloc: Global) -> Result<Arg<'a>, AllocError> {
    Arg::new(alloc, "item")
        .long("item")
        .value_name("N")
        .value_parser(ValueParser::Unsigned(1, MAX_BYTES as u64))
        .help(
            "The one item that is explained; as dot the one that is drawn, else the first that is not explained",
        )
        .conflicts_with("failures")
}

/// The subcommand `explain`, with files, the form of explanations and the width of lines.
fn clap_explain_command_with_form_options<'a>(alloc: Global) -> Result<Command<'a>, AllocError> {
    Command::new(alloc, "explain")
        .about("Explains the verdicts on cases and recorded runs")
        .after_help(help::EXPLAIN)
        .arg(subcommands::model_and_items_files_argument(alloc))?
        .arg(explanation_format_option(alloc))?
        .arg(dot_graph_option(alloc)?)?
        .arg(whole_search_option(alloc))?
        .arg(subcommands::line_width_option(alloc))?
        .arg(terminal::color_option(alloc))
}

/// The subcommand `explain`, with files, the form of explanations, and the items that are explained.
pub fn clap_command_for_explain<'a>(alloc: Global) -> Result<Command<'a>, AllocError> {
    clap_explain_command_with_form_options(alloc)?
        .arg(subcommands::only_failures_option(alloc))?
        .arg(subcommands::order_option_for_recorded_runs(alloc))?
        .arg(item_number_option(alloc)?)?
        .arg(max_explained_items_option(alloc))?
        .arg(subcommands::output_option(alloc))?
        .arg(subcommands::quiet_option(alloc))
}

/// Returns the number of the item that the arguments choose, if they choose one.
fn item_number_from_arguments(arguments: &ArgMatches<'_>) -> Option<usize> {
    let item: Option<u64> = arguments.get_one("item");
    match item {
        Some(item) => Some(item as usize),
        None => None,
    }
}

/// Returns the items to explain, by the arguments.
fn items_to_explain_from_arguments(arguments: &ArgMatches<'_>) -> ChosenItems {
    match item_number_from_arguments(arguments) {
        Some(number) => ChosenItems::Item(number),
        None if arguments.get_flag("failures") => ChosenItems::Failures,
        None => ChosenItems::All,
    }
}

/// Returns the maximum number of items that the arguments allow.
fn max_items_from_arguments_or_unlimited(arguments: &ArgMatches<'_>) -> usize {
    let most: Option<u64> = arguments.get_one("max");
    match most {
        Some(most) => most as usize,
        None => usize::MAX,
    }
}

/// Whether the arguments select graphs.
fn is_dot_graph_selected(arguments: &ArgMatches<'_>) -> bool {
    arguments.get_flag("dot") || arguments.get_str("format") == Some("dot")
}

/// The form of text: with colors, or without.
fn colored_or_plain_text_form<R: Env + AllocGlobal>(
    rt: &R,
    arguments: &ArgMatches<'_>,
    is_terminal: bool,
) -> ExplanationForm {
    let width = terminal::line_width_from_arguments_or_environment(rt, arguments);
    if terminal::should_output_have_colors(rt, arguments, is_terminal) {
        ExplanationForm::Colored(width)
    } else {
        ExplanationForm::Text(width)
    }
}

/// The form of explanations that the arguments select.
fn explanation_form_from_arguments<R: Env + AllocGlobal>(
    rt: &R,
    arguments: &ArgMatches<'_>,
    is_terminal: bool,
) -> ExplanationForm {
    if is_dot_graph_selected(arguments) {
        return ExplanationForm::Dot {
            is_whole: arguments.get_flag("all"),
        };
    }
    match arguments.get_str("format") {
        Some("json") => ExplanationForm::Json,
        Some("html") => ExplanationForm::Html,
        _ => colored_or_plain_text_form(rt, arguments, is_terminal),
    }
}

/// Returns how the arguments choose to explain an input: items, or if they choose graphs the search of one item, unless
/// `--failures` or `--max` choose several.
pub fn explain_command_from_arguments<'a, R: Env + AllocGlobal>(
    rt: &R,
    arguments: &ArgMatches<'_>,
    terminals: Terminals,
    files: &'a [SourceFile<'a>],
) -> InputCommand<'a>
    ensures trials { HasTrials result }
    ensures subcommand { subcommand_of_input result ≡ subcommand.Explain }
{
    let order = subcommands::order_for_recorded_runs_from_arguments(arguments);
    let is_one = !arguments.get_flag("failures") && arguments.get_str("max").is_none();
    if is_dot_graph_selected(arguments) && is_one {
        return InputCommand::Draw {
            order,
            item: item_number_from_arguments(arguments),
            is_whole: arguments.get_flag("all"),
        };
    }
    InputCommand::Explain {
        options: ExplainOptions {
            files,
            chosen: items_to_explain_from_arguments(arguments),
            most: max_items_from_arguments_or_unlimited(arguments),
            form: explanation_form_from_arguments(rt, arguments, terminals.output),
            order,
        },
        has_progress_line: terminals.errors && !arguments.get_flag("quiet"),
    }
}
