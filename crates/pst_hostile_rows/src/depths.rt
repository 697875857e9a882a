//! The commands' answers at the limits of the language, and one past them. Nothing may exhaust a stack, in any kind of
//! thread: those that judge many items, those that drive branches, and the workers that run trials.

use crate::commands::{
    COMMANDS, ProgramCommand, run_command_with_limited_writer, status_and_shortened_output_text,
};
use crate::models::{InputLimit, LIMITS, text_of_input_at_limit};
use pst_messages::input_warnings_text;
use pst_sexpr::{Out, read, write};
use pst_sources::SourceFile;
use pst_tests::{Model, print_model, read_model};
use std::alloc::Global;
use std::sync::Wait;
use std::thread::Threads;
use std::{io, slice};

/// Reads the model at the beginning of `text`.
fn read_model_of_text(alloc: Global, text: &[u8]) -> Option<Model> {
    let trees = read(alloc, text).ok()?;
    read_model(alloc, trees.as_slice()).ok()
}

/// Returns the printed form of `model`.
fn print_model_as_bytes(alloc: Global, model: &Model) -> Option<Vec<u8>> {
    let tree = print_model(alloc, model).ok()?;
    let mut sink = Out::new(Vec::new(alloc));
    match write(&tree, &mut sink) {
        Ok(()) => Some(sink.into_inner()),
        Err(_) => None,
    }
}

/// Returns whether the model at the beginning of `text`, printed and read again, is the same model. `None` if the text
/// or its printed form has no model.
fn is_model_same_after_printing(alloc: Global, text: &[u8]) -> Option<bool> {
    let model = read_model_of_text(alloc, text)?;
    let again = read_model_of_text(alloc, print_model_as_bytes(alloc, &model)?.as_slice())?;
    Some(*again.source() == *model.source())
}

/// Runs the command and prints its output, or its status code alone for the commands with long output.
fn run_and_print_output_or_status<R: Threads + Wait + Sync + Print + AllocGlobal>(
    rt: &R,
    command: ProgramCommand,
    text: &[u8],
) -> io::Result<()> {
    let answered = run_command_with_limited_writer(rt, rt.alloc(), command, text, usize::MAX)?;
    let name = command.name();
    match command {
        ProgramCommand::Check | ProgramCommand::Judge | ProgramCommand::Run => {
            let text = status_and_shortened_output_text(rt.alloc(), &answered)?;
            println!(rt; "  {name}: {text}")
        }
        _ => {
            let code = answered.status.code();
            println!(rt; "  {name}: {code}")
        }
    }
}

/// Prints the first line of the warnings on a model.
fn print_first_line_of_warnings<R: Print + AllocGlobal>(rt: &R, text: &str) -> io::Result<()> {
    let file = SourceFile {
        name: "-",
        bytes: Vec::from_slice(rt.alloc(), text.as_bytes())?,
    };
    let warnings = input_warnings_text(rt.alloc(), slice::from_ref(&file), text.as_bytes())?;
    let line = match &warnings {
        Some(warnings) => warnings.as_str().lines().next().unwrap_or(""),
        None => "none",
    };
    println!(rt; "  warnings: {line}")
}

/// Returns the commands to run: only the first three if the initial state or the precondition takes long to compute.
fn commands_to_run_at_limit(deep: InputLimit) -> &'static [ProgramCommand] {
    match deep {
        InputLimit::List | InputLimit::Map | InputLimit::Calls => &[
            ProgramCommand::Check,
            ProgramCommand::List,
            ProgramCommand::Judge,
        ],
        _ => &COMMANDS,
    }
}

/// Prints whether the model at the beginning of `text` is read as it is printed.
fn print_whether_model_survives_printing<R: Print + AllocGlobal>(
    rt: &R,
    name: &str,
    text: &[u8],
) -> io::Result<()> {
    let printed = match is_model_same_after_printing(rt.alloc(), text) {
        Some(true) => "is read as it is printed",
        Some(false) => "is read otherwise",
        None => "has no model",
    };
    println!(rt; "{name}: {printed}")
}

/// Prints each command's answer at each limit, and the warnings.
pub fn print_program_results_at_each_limit<R: Threads + Wait + Sync + Print + AllocGlobal>(
    rt: &R,
) -> io::Result<()> {
    for (name, deep) in &LIMITS {
        let text = text_of_input_at_limit(rt.alloc(), *deep)?;
        print_whether_model_survives_printing(rt, *name, text.as_bytes())?;
        for command in commands_to_run_at_limit(*deep) {
            run_and_print_output_or_status(rt, *command, text.as_bytes())?;
        }
        print_first_line_of_warnings(rt, text.as_str())?;
    }
    Ok(())
}
