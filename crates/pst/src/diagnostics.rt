//! Refusals, errors and warnings on an input: messages on standard error, or JSON.

use crate::subcommands::is_json_selected;
use clap::ArgMatches;
use pst_cli::{Absence, InputRefusal, ItemResultCounts, Status, refuse_text};
use pst_input::InputText;
use pst_messages::{
    MessageScope, RefusedItems, input_error_messages_text, input_error_notices,
    input_warning_notices, input_warnings_text, refused_items_messages_text,
    refused_model_messages_text, unknown_outcome_warning_notices,
};
use pst_rejudge::{Field, FieldName, add_number_field, add_text_field, json_object_line};
use pst_sexpr::Out;
use pst_sources::{
    Input, Notice, NoticePlace, Notices, SourceFile, place_of_notice, text_of_notices_if_any,
};
use pst_value::Text;
use std::alloc::{AllocError, Global};
use std::io;
use std::rt::Runtime;

/// Writes `refused memory` to standard output, and returns the status that the program ends with.
pub fn print_memory_refusal<R: Runtime>(rt: &R) -> Status {
    refuse_text(Absence::NoMemory, &mut Out::new(io::writer(rt)))
}

/// Returns what to write messages for, by the command `subcommand` and its arguments.
fn message_scope_of_subcommand(subcommand: &str, arguments: &ArgMatches<'_>) -> MessageScope {
    match subcommand {
        "judge" if arguments.get_flag("stream") => MessageScope::Model,
        "judge" if arguments.get_flag("keep-going") || is_json_selected(arguments) => {
            if arguments.get_flag("all-messages") {
                MessageScope::AllItems
            } else {
                MessageScope::EachItem
            }
        }
        "judge" | "run" | "explain" | "convert" => MessageScope::FirstItem,
        _ => MessageScope::Model,
    }
}

/// Writes to standard error that there is no item with the number that the arguments of `explain` give.
fn print_that_item_number_is_missing<R: Eprint>(rt: &R, arguments: &ArgMatches<'_>) {
    let item: Option<u64> = arguments.get_one("item");
    if let Some(item) = item {
        let _ = eprintln!(rt; "pst: there is no item {item}: --item counts cases and runs from 1");
    }
}

/// Writes messages to standard error. It does nothing if an allocation for them failed, and ignores failures to write.
pub fn print_messages_if_any<R: Eprint>(rt: &R, messages: Result<Option<String>, AllocError>) {
    if let Ok(Some(messages)) = messages {
        let _ = eprint!(rt; "{messages}");
    }
}

/// The messages on what the whole input is refused for.
fn refusal_messages(
    alloc: Global,
    input: &InputText<'_>,
    scope: MessageScope,
    refusal: InputRefusal,
) -> Result<Option<String>, AllocError> {
    match refusal {
        InputRefusal::Model(refusal) => refused_model_messages_text(alloc, input, scope, refusal),
        InputRefusal::Item(fault) => {
            refused_items_messages_text(alloc, input, &RefusedItems::one(alloc, fault)?)
        }
    }
}

/// Writes the messages on the refusals of an input to standard error, for the command `subcommand`: on what `counts` says that the
/// whole input is refused for, or else on what is found to be refused. It writes none on items that `counts` counts as refused: they have
/// theirs. If an allocation fails or a message cannot be written, the lines of the refusals and the status remain without it.
pub fn print_refusal_messages_to_stderr<R: Eprint + AllocGlobal>(
    rt: &R,
    subcommand: &str,
    arguments: &ArgMatches<'_>,
    input: &InputText<'_>,
    counts: &ItemResultCounts,
) {
    let alloc = rt.alloc();
    let scope = message_scope_of_subcommand(subcommand, arguments);
    if let Some(refusal) = counts.refusal {
        print_messages_if_any(rt, refusal_messages(alloc, input, scope, refusal));
        return;
    }
    if counts.refused > 0 {
        return;
    }
    match input_error_messages_text(alloc, input.files(), input.bytes(), scope) {
        Ok(None) if subcommand == "explain" => print_that_item_number_is_missing(rt, arguments),
        messages => print_messages_if_any(rt, messages),
    }
}

/// Writes the warnings on an input to standard error. If an allocation fails or they cannot be written, the line and
/// the status remain without them.
pub fn print_input_warnings_to_stderr<R: Eprint>(
    rt: &R,
    alloc: Global,
    files: &[SourceFile<'_>],
    input: &[u8],
) {
    if let Ok(Some(warnings)) = input_warnings_text(alloc, files, input) {
        let _ = eprint!(rt; "{warnings}");
    }
}

/// Returns the warnings on a model that the arguments of `check` choose.
fn check_warning_notices(
    alloc: Global,
    arguments: &ArgMatches<'_>,
    input: &Input<'_>,
) -> Result<Notices, AllocError> {
    let mut warnings = input_warning_notices(alloc, input)?;
    if arguments.get_flag("unknown") {
        let mut more = unknown_outcome_warning_notices(alloc, input)?;
        warnings.all.append(&mut more.all)?;
    }
    Ok(warnings)
}

/// Returns the warnings on a model that the arguments of `check` choose, for a person to read, or `None` if there are none.
fn check_warnings_text(
    alloc: Global,
    arguments: &ArgMatches<'_>,
    input: &Input<'_>,
) -> Result<Option<String>, AllocError> {
    let warnings = check_warning_notices(alloc, arguments, input)?;
    text_of_notices_if_any(alloc, input, &warnings)
}

/// Writes the warnings on a model that the arguments of `check` choose to standard error. If an allocation fails or they
/// cannot be written, the line and the status remain without them.
pub fn print_check_warnings_to_stderr<R: Eprint + AllocGlobal>(
    rt: &R,
    arguments: &ArgMatches<'_>,
    input: &Input<'_>,
) {
    if let Ok(Some(warnings)) = check_warnings_text(rt.alloc(), arguments, input) {
        let _ = eprint!(rt; "{warnings}");
    }
}

/// Returns the strings as texts.
fn texts_of_strings(alloc: Global, strings: Vec<String>) -> Result<Vec<Text>, AllocError> {
    let mut texts = Vec::new(alloc);
    for string in strings {
        texts.push(Text::from_string(string))?;
    }
    Ok(texts)
}

/// Returns the fields of an error or a warning that say its severity and its place.
fn severity_and_place_fields(
    alloc: Global,
    is_warning: bool,
    place: &NoticePlace<'_>,
) -> Result<Vec<Field>, AllocError> {
    let severity = if is_warning { "warning" } else { "error" };
    let mut fields = Vec::new(alloc);
    add_text_field(alloc, &mut fields, FieldName::Severity, severity)?;
    add_text_field(alloc, &mut fields, FieldName::File, place.file)?;
    add_number_field(&mut fields, FieldName::Line, place.line as u64)?;
    add_number_field(&mut fields, FieldName::Column, place.column as u64)?;
    add_number_field(&mut fields, FieldName::Start, place.start as u64)?;
    add_number_field(&mut fields, FieldName::End, place.end as u64)?;
    Ok(fields)
}

/// Adds the fields of an error or a warning that say what is wrong, and its notes.
fn add_message_and_note_fields(
    alloc: Global,
    fields: &mut Vec<Field>,
    notice: Notice,
) -> Result<(), AllocError> {
    let Notice {
        span: _,
        is_warning: _,
        what,
        notes,
        lines,
    } = notice;
    fields.push(Field::Words(FieldName::Message, Text::from_string(what)))?;
    fields.push(Field::Lines(FieldName::Notes, texts_of_strings(alloc, notes)?))?;
    if !lines.is_empty() {
        fields.push(Field::Words(FieldName::Explanation, Text::from_string(lines)))?;
    }
    Ok(())
}

/// Returns the object of an error or a warning: its severity, its place, what is wrong, and notes.
fn json_line_of_notice(
    alloc: Global,
    input: &Input<'_>,
    notice: Notice,
) -> Result<Vec<u8>, AllocError> {
    let place = place_of_notice(alloc, input, &notice)?;
    let mut fields = severity_and_place_fields(alloc, notice.is_warning, &place)?;
    add_message_and_note_fields(alloc, &mut fields, notice)?;
    json_object_line(alloc, fields.as_slice())
}

/// Returns the objects of errors and warnings on an input, a line each.
fn json_lines_of_notices(
    alloc: Global,
    input: &Input<'_>,
    notices: Notices,
) -> Result<Vec<u8>, AllocError> {
    let mut text = Vec::new(alloc);
    let Notices { all, more } = notices;
    for notice in all {
        text.extend_from_slice(json_line_of_notice(alloc, input, notice)?.as_slice())?;
    }
    if !more.is_empty() {
        let mut fields = Vec::new(alloc);
        add_text_field(alloc, &mut fields, FieldName::Severity, "error")?;
        add_text_field(alloc, &mut fields, FieldName::Message, more.as_str().trim())?;
        text.extend_from_slice(json_object_line(alloc, fields.as_slice())?.as_slice())?;
    }
    Ok(text)
}

/// Returns the objects of the errors of a model, or of the warnings on it that the arguments choose if it is accepted, a line
/// each.
fn json_lines_of_errors_else_warnings(
    alloc: Global,
    arguments: &ArgMatches<'_>,
    input: &Input<'_>,
) -> Result<Vec<u8>, AllocError> {
    let errors = input_error_notices(alloc, input, MessageScope::Model)?;
    if errors.all.is_empty() {
        json_lines_of_notices(
            alloc,
            input,
            check_warning_notices(alloc, arguments, input)?,
        )
    } else {
        json_lines_of_notices(alloc, input, errors)
    }
}

/// Returns whether the errors and warnings are part of the output.
pub fn is_check_with_json_output(subcommand: &str, arguments: &ArgMatches<'_>) -> bool {
    subcommand == "check" && is_json_selected(arguments)
}

/// Returns the objects of the errors and warnings on a model that are part of the output of the command that the arguments
/// name, a line each. There are no lines for other commands than `check` with JSON output, if the arguments forbid them,
/// or if an allocation for them fails.
pub fn notices_in_check_output(
    alloc: Global,
    matches: &ArgMatches<'_>,
    input: &Input<'_>,
) -> Vec<u8> {
    let Some((subcommand, arguments)) = matches.subcommand() else {
        return Vec::new(alloc);
    };
    if !is_check_with_json_output(subcommand, arguments) || arguments.get_flag("quiet") {
        return Vec::new(alloc);
    }
    match json_lines_of_errors_else_warnings(alloc, arguments, input) {
        Ok(lines) => lines,
        Err(AllocError) => Vec::new(alloc),
    }
}
