//! The commands that rewrite files: `pst fmt` in one layout, `pst convert` in the form of JSON or trees.

use crate::input::{self, InputOptions, STANDARD_INPUT};
use crate::{diagnostics, help, outputs, subcommands};
use clap::builder::ValueParser;
use clap::{Arg, ArgAction, ArgMatches, Command};
use pst_cli::{ItemForm, Status, refuse_text};
use pst_input::{find_first_line_like_json_item, text_before, text_with_json_items_blanked};
use pst_messages::{MessageScope, input_error_messages_text};
use pst_print::format_file;
use pst_sexpr::{FaultKind, MAX_BYTES, Out, SexprFault, read};
use pst_sources::SourceFile;
use pst_typing::Refusal;
use std::alloc::{AllocError, Global};
use std::fs::{File, remove_file, write};
use std::io::{self, ErrorKind, Write};
use std::rt::{Files, Runtime};

/// `fmt`, with its files.
pub fn clap_command_for_fmt<'a>(alloc: Global) -> Result<Command<'a>, AllocError> {
    let files = Arg::new(alloc, "FILE").num_args(0..).help(
        "The files to rewrite; if there is none or `-`, standard input is laid out on standard output",
    );
    let check = Arg::new(alloc, "check")
        .long("check")
        .action(ArgAction::SetTrue)
        .help("Rewrites nothing: prints the names of the files that would change");
    Command::new(alloc, "fmt")
        .about("Lays out files of models and items for 80 columns, comments kept")
        .after_help(help::FMT)
        .arg(files)?
        .arg(check)?
        .arg(subcommands::quiet_option(alloc))
}

/// How files are laid out.
#[derive(Clone, Copy, Drop)]
struct FormatOptions {
    /// Nothing is rewritten.
    only_checks: bool,
    reading: InputOptions,
}

/// Prints a text on standard output. If it cannot be printed, standard error says so, unless the pipe is closed.
fn print_bytes_to_standard_output<R: Runtime + AllocGlobal>(rt: &R, text: &[u8]) -> Status {
    match io::writer(rt).write_all(text) {
        Ok(()) => Status::Accepted,
        Err(error) => outputs::print_output_error_unless_pipe_closed(rt, rt.alloc(), None, &error),
    }
}

/// Why a file was not rewritten. All but the first leave its bytes as they were.
#[derive(Drop)]
enum RewriteError {
    /// Its new bytes are in the copy alone, or it is rewritten and the copy is still there.
    Kept(io::Error),
    /// There was a file of the name of the copy, which is left as it is.
    Taken,
    /// The copy cannot be written.
    NoCopy(io::Error),
}

/// Makes the copy, in which the bytes are before those of the file change: if the disk is full, nothing is lost.
fn create_copy_file_with_text<R: Files>(
    rt: &R,
    copy: &str,
    text: &[u8],
) -> Result<(), RewriteError> {
    let mut file = match File::create_new(rt, copy) {
        Ok(file) => file,
        Err(error) if error.kind() == ErrorKind::AlreadyExists => return Err(RewriteError::Taken),
        Err(error) => return Err(RewriteError::NoCopy(error)),
    };
    match file.write_all(text) {
        Ok(()) => Ok(()),
        Err(error) => {
            let _ = remove_file(rt, copy);
            Err(RewriteError::NoCopy(error))
        }
    }
}

/// Writes the bytes of a file, first to a copy, which is removed in the end.
fn write_copy_then_file_then_remove_copy<R: Files>(
    rt: &R,
    name: &str,
    copy: &str,
    text: &[u8],
) -> Result<(), RewriteError> {
    create_copy_file_with_text(rt, copy, text)?;
    match write(rt, name, text) {
        Ok(()) => {}
        Err(error) => return Err(RewriteError::Kept(error)),
    }
    match remove_file(rt, copy) {
        Ok(()) => Ok(()),
        Err(error) => Err(RewriteError::Kept(error)),
    }
}

/// Says why a file was not rewritten.
fn print_rewrite_error_to_stderr<R: Eprint>(
    rt: &R,
    alloc: Global,
    name: &str,
    copy: &str,
    why: &RewriteError,
) {
    match why {
        RewriteError::Kept(error) => {
            outputs::print_why_file_was_not_written(rt, alloc, name, error);
            let _ = eprintln!(rt; "  its new text is in {copy}");
        }
        RewriteError::Taken => {
            let _ = eprintln!(rt;
                "pst: cannot write {name}: there is a file {copy}, which would be lost"
            );
        }
        RewriteError::NoCopy(error) => outputs::print_why_file_was_not_written(
            rt, alloc, copy, error,
        ),
    }
}

/// Rewrites a file.
fn rewrite_file_by_way_of_copy<R: Runtime + AllocGlobal>(
    rt: &R,
    name: &str,
    text: &[u8],
) -> Status {
    let Ok(copy) = format!(in rt.alloc(); "{name}.pst-fmt") else {
        return diagnostics::print_memory_refusal(rt);
    };
    match write_copy_then_file_then_remove_copy(rt, name, copy.as_str(), text) {
        Ok(()) => Status::Accepted,
        Err(why) => {
            print_rewrite_error_to_stderr(rt, rt.alloc(), name, copy.as_str(), &why);
            Status::Lost
        }
    }
}

/// Handles the new text of a file. If `options` only checks, it prints the file's name if the text differs. Otherwise it
/// prints the text, for standard input, or rewrites the file if the text differs.
fn check_print_or_rewrite_file<R: Runtime + AllocGlobal>(
    rt: &R,
    file: &SourceFile<'_>,
    text: &[u8],
    options: FormatOptions,
) -> Status {
    let name = file.name;
    let is_same = text == file.bytes.as_slice();
    if options.only_checks {
        if is_same {
            return Status::Accepted;
        }
        return match println!(rt; "{name}") {
            Ok(()) => Status::Failed,
            Err(error) => outputs::print_output_error_unless_pipe_closed(
                rt,
                rt.alloc(),
                None,
                &error,
            ),
        };
    }
    if name == STANDARD_INPUT {
        print_bytes_to_standard_output(rt, text)
    } else if is_same {
        Status::Accepted
    } else {
        rewrite_file_by_way_of_copy(rt, name, text)
    }
}

/// Refuses a file that cannot be read, with a message unless `options` is quiet.
fn print_refusal_of_malformed_file<R: Runtime + AllocGlobal>(
    rt: &R,
    files: &[SourceFile<'_>],
    bytes: &[u8],
    fault: SexprFault,
    options: FormatOptions,
) -> Status {
    if fault.kind == FaultKind::NoMemory {
        return diagnostics::print_memory_refusal(rt);
    }
    let refusal = Refusal::Unread(fault);
    if let Err(error) = println!(rt; "refused {refusal}") {
        return outputs::print_output_error_unless_pipe_closed(rt, rt.alloc(), None, &error);
    }
    if !options.reading.is_quiet {
        if let Ok(Some(message)) = input_error_messages_text(
            rt.alloc(),
            files,
            bytes,
            MessageScope::Model,
        ) {
            let _ = eprint!(rt; "{message}");
        }
    }
    Status::Refused
}

/// The text of a file with items as JSON that has to be trees: up to the first of these items if that is refused, or
/// else all of it with blanks in place of them.
fn json_blanked_text_or_malformed_beginning(
    alloc: Global,
    bytes: &[u8],
) -> Result<Vec<u8>, AllocError> {
    let place = find_first_line_like_json_item(bytes).unwrap_or(bytes.len());
    let head = text_before(bytes, place);
    match read(alloc, head) {
        Ok(_) => text_with_json_items_blanked(alloc, bytes),
        Err(_) => Vec::from_slice(alloc, head),
    }
}

/// Leaves a file with items as JSON as it is, if the rest of it can be read, and else refuses it. Prints the text of
/// standard input as it is, unless `options` only checks.
fn keep_or_refuse_file_with_json_items<R: Runtime + AllocGlobal>(
    rt: &R,
    file: &SourceFile<'_>,
    options: FormatOptions,
) -> Status {
    let alloc = rt.alloc();
    let name = file.name;
    let Ok(text) = json_blanked_text_or_malformed_beginning(alloc, file.bytes.as_slice()) else {
        return diagnostics::print_memory_refusal(rt);
    };
    let files = [SourceFile { name, bytes: text }];
    let trees = files[0].bytes.as_slice();
    if let Err(fault) = read(alloc, trees) {
        return print_refusal_of_malformed_file(rt, &files, trees, fault, options);
    }
    if !options.reading.is_quiet {
        let _ = eprintln!(rt; "pst: there are items as JSON in {name}, so it stays as it is");
    }
    check_print_or_rewrite_file(rt, file, file.bytes.as_slice(), options)
}

/// Leaves a file as it is that would have too many bytes if it were laid out. Prints the text of standard input as it is,
/// unless `options` only checks.
fn keep_file_too_large_when_laid_out<R: Runtime + AllocGlobal>(
    rt: &R,
    file: &SourceFile<'_>,
    options: FormatOptions,
) -> Status {
    let name = file.name;
    if !options.reading.is_quiet {
        let _ = eprintln!(rt;
            "pst: {name} would have more than {MAX_BYTES} bytes if it were laid out, so it stays as it is"
        );
    }
    check_print_or_rewrite_file(rt, file, file.bytes.as_slice(), options)
}

/// Lays out the file `name`.
fn format_or_check_file_by_name<R: Runtime + AllocGlobal>(
    rt: &R,
    name: &str,
    options: FormatOptions,
) -> Status {
    let files = match input::read_files_or_standard_input(rt, &[name], options.reading) {
        Ok(files) => files,
        Err(why) => return refuse_text(why, &mut Out::new(io::writer(rt))),
    };
    let Some(file) = files.first() else {
        return Status::Accepted;
    };
    let bytes = file.bytes.as_slice();
    if find_first_line_like_json_item(bytes).is_some() {
        return keep_or_refuse_file_with_json_items(rt, file, options);
    }
    match format_file(rt.alloc(), bytes) {
        Ok(Some(text)) => check_print_or_rewrite_file(rt, file, text.as_slice(), options),
        Ok(None) => keep_file_too_large_when_laid_out(rt, file, options),
        Err(fault) => print_refusal_of_malformed_file(rt, files.as_slice(), bytes, fault, options),
    }
}

/// Lays out the files that the arguments name, or standard input. The status is the worst of the files: `Refused` if
/// one cannot be read, `Lost` if one cannot be written, `Failed` if one would change with `--check`.
pub fn run_fmt_subcommand<R: Runtime + AllocGlobal>(
    rt: &R,
    arguments: &ArgMatches<'_>,
    reading: InputOptions,
) -> Status {
    let options = FormatOptions {
        only_checks: arguments.get_flag("check"),
        reading,
    };
    let names = arguments.get_strs("FILE").unwrap_or(&[]);
    if names.is_empty() {
        return format_or_check_file_by_name(rt, STANDARD_INPUT, options);
    }
    let mut status = Status::Accepted;
    for name in names {
        status = status.or_worse(format_or_check_file_by_name(rt, name, options));
    }
    status
}

/// The forms of items.
const FORMS: [&str; 2] = ["json", "trees"];

/// The subcommand `convert`, with the files of a model and its items, and the form to write.
pub fn clap_command_for_convert<'a>(alloc: Global) -> Result<Command<'a>, AllocError> {
    Command::new(alloc, "convert")
        .about("Writes cases and recorded runs as JSON, or as trees: one on each line")
        .after_help(help::CONVERT)
        .arg(subcommands::model_and_items_files_argument(alloc))?
        .arg(
            Arg::new(alloc, "to")
                .long("to")
                .value_name("FORM")
                .value_parser(ValueParser::Names(&FORMS))
                .default_value("json")
                .help("json, or trees")
                .hide_possible_values(true),
        )?
        .arg(subcommands::output_option(alloc))?
        .arg(subcommands::quiet_option(alloc))
}

/// Returns the form of items that the arguments of `convert` select.
pub fn item_form_from_arguments(arguments: &ArgMatches<'_>) -> ItemForm {
    if arguments.get_str("to") == Some("trees") {
        ItemForm::Trees
    } else {
        ItemForm::Json
    }
}
