//! What a command works on: its input, read or refused, places for what clients and systems do wrong, its context.

use crate::clients::{SharedClientNotes, new_client_notes, result_types_for_clients};
use crate::driving::{SharedMisfits, new_misfit_list_for_run_unless_quiet};
use crate::input::{InputOptions, STANDARD_INPUT};
use crate::stop_signals::StopFlag;
use crate::subcommands::Subcommand;
use crate::terminal::Terminals;
use crate::{
    branches, clients, diagnostics, formatting, generating, input, outputs, page, saving,
    streaming, systems,
};
use clap::ArgMatches;
use pst_cli::{Status, refuse_text};
use pst_clients::Notes;
use pst_driver::Misfits;
use pst_input::InputText;
use pst_sexpr::Out;
use pst_sources::SourceFile;
use pst_value::{Items, Ty};
use std::alloc::{AllocError, Global};
use std::io;
use std::rt::Runtime;

/// The input of a command, the notes of its clients, and the misfits of its systems.
#[derive(Drop)]
pub struct PreparedInput<'a> {
    /// The input.
    pub input: InputText<'a>,
    /// The result types of the operations of the model, if clients are called for them.
    pub result_types: Items<Ty>,
    /// The notes of all clients.
    pub notes: SharedClientNotes,
    /// The list of answers of a wrong type, if it is kept.
    pub misfits: Option<SharedMisfits>,
    /// How many times clients are to drive a case by themselves; 0 if not.
    pub burst: u32,
}

impl<'a> PreparedInput<'a> {
    /// Returns the files with their text, and with empty lists of notes and misfits.
    fn from_files(
        alloc: Global,
        matches: &ArgMatches<'_>,
        read: Vec<SourceFile<'a>>,
    ) -> Result<PreparedInput<'a>, AllocError> {
        let input = match InputText::of_files(alloc, read) {
            Ok(input) => input,
            Err(AllocError) => return Err(AllocError),
        };
        let result_types = result_types_for_clients(alloc, matches, input.plain())?;
        let notes = new_client_notes(alloc)?;
        let misfits = new_misfit_list_for_run_unless_quiet(alloc, matches);
        Ok(PreparedInput {
            input,
            result_types,
            notes,
            misfits,
            burst: clients::burst_from_arguments(matches),
        })
    }
}

/// Returns whether the arguments forbid messages on standard error.
pub fn is_quiet_selected(matches: &ArgMatches<'_>) -> bool {
    match matches.subcommand() {
        Some((_, arguments)) => arguments.get_flag("quiet"),
        None => false,
    }
}

/// Returns the name of the output file in the arguments. `None` is standard output, which `-` also names.
pub fn output_file_name_from_arguments<'a>(matches: &ArgMatches<'a>) -> Option<&'a str> {
    let (_, arguments) = matches.subcommand()?;
    match arguments.get_str("output") {
        Some(STANDARD_INPUT) => None,
        name => name,
    }
}

/// Returns the file names in the arguments.
fn input_file_names_from_arguments<'a>(matches: &'a ArgMatches<'_>) -> &'a [&'a str] {
    match matches.subcommand() {
        Some((_, arguments)) => arguments.get_strs("FILE").unwrap_or(&[]),
        None => &[],
    }
}

/// Refuses an unknown system, a stream whose model is not in a file of its own, output to a file of the
/// input, a file or `-` as the folder of failures, trials that have no number, and a page or results as JUnit XML that cannot
/// be written.
/// The error is the status that the program ends with.
fn refuse_invalid_arguments<R: Runtime + AllocGlobal>(
    rt: &R,
    matches: &ArgMatches<'_>,
) -> Result<(), Status> {
    let mut out = Out::new(io::writer(rt));
    let is_quiet = is_quiet_selected(matches);
    let inputs = input_file_names_from_arguments(matches);
    if let Some((command, name)) = systems::subcommand_and_unknown_system_name(matches) {
        return Err(systems::refuse_unopened_file_or_unknown_system(
            rt, command, name, inputs, is_quiet, &mut out,
        ));
    }
    if streaming::is_item_stream_selected(matches) && !streaming::is_model_file_alone(inputs) {
        return Err(streaming::refuse_stream_with_wrong_files(rt, inputs, is_quiet, &mut out));
    }
    let written = [
        ("-o", output_file_name_from_arguments(matches)),
        ("--html", page::html_file_name_from_arguments(matches)),
        ("--junit", page::junit_file_name_from_arguments(matches)),
    ];
    for (option, name) in written {
        outputs::refuse_to_overwrite_input(rt, inputs, option, name, is_quiet)?;
    }
    saving::refuse_file_as_save_folder(rt, matches)?;
    clients::refuse_burst_without_clients(rt, matches)?;
    generating::refuse_generate_trial_numbers_that_overflow(rt, matches)?;
    page::refuse_unwritable_files_beside_report(rt, matches)
}

/// Reads the files that the arguments name, and prepares their input. If that fails, or the arguments are refused, or
/// files are only laid out, or a case has too many branches, the error is the status that the program ends with.
pub fn prepare_input_or_run_fmt<'a, R: Runtime + AllocGlobal>(
    rt: &R,
    matches: &'a ArgMatches<'_>,
    terminals: Terminals,
) -> Result<PreparedInput<'a>, Status> {
    refuse_invalid_arguments(rt, matches)?;
    let reading = InputOptions {
        is_quiet: is_quiet_selected(matches),
        is_terminal: terminals.input,
    };
    if let Some(("fmt", arguments)) = matches.subcommand() {
        return Err(formatting::run_fmt_subcommand(rt, arguments, reading));
    }
    let names = input_file_names_from_arguments(matches);
    let read = match input::read_files_or_standard_input(rt, names, reading) {
        Ok(read) => read,
        Err(why) => return Err(refuse_text(why, &mut Out::new(io::writer(rt)))),
    };
    let Ok(prepared) = PreparedInput::from_files(rt.alloc(), matches, read) else {
        return Err(diagnostics::print_memory_refusal(rt));
    };
    branches::refuse_excess(rt, matches, &prepared)?;
    Ok(prepared)
}

/// What a subcommand works on.
#[derive(Clone, Copy, Drop)]
pub struct SubcommandContext<'a, 'm> {
    pub subcommand: Subcommand,
    /// The arguments of the program.
    pub matches: &'a ArgMatches<'m>,
    /// The arguments of the subcommand.
    pub arguments: &'a ArgMatches<'m>,
    /// The list of answers of a wrong type, if it is kept. The threads that drive cases share it.
    pub misfits: Option<&'a Misfits>,
    /// The notes of all clients.
    pub notes: &'a Notes,
    /// The signal that ends a campaign. The threads that drive cases share it.
    pub signal: StopFlag<'a>,
    /// Which of the standard files are terminals.
    pub terminals: Terminals,
    /// The width of lines of explanations on standard error, in bytes.
    pub line_width: usize,
}
