//! Runs as JSON.
ghost use Rattle.std.specs.Prelude.{◌≡◌, ◌≤◌, ◌++◌, map, IfOk, OnOk, Some};
ghost use Rattle.json.specs.Json.{document, max_depth};
ghost use Rattle.json.specs.Print.{print};
ghost use Rattle.json.specs.Tree.{depth, items_tokens, json_tokens, members_tokens};
ghost use Rattle.json.specs.Value.{items_of};
ghost use Rattle.pst_json_runs.specs.Trees.{item_form};
ghost use Rattle.pst_json_runs.specs.Written as spec;
ghost use Rattle.pst_runs.specs.Lawful.{IsLawful};
ghost use Rattle.pst_runs.specs.Written as trees;

mod times;

use crate::write::times::write_json_times_and_item_end;
use crate::writing::{write_json_value, write_json_values_and_end};
use json::Writer;
use pst_case::{Case, Command, History, Reply, Run};
use pst_model::{Source, Typed, operation_of};
use pst_runs::prove_times_are_small;
use pst_value::Items;
use std::alloc::{AllocError, Global};

/// The name of operation `op`; empty if the model has no such operation.
fn operation_name_or_empty(model: &Source, op: u32) -> &str
    ensures { result.now ≡ trees.name_of model.now op }
{
    match operation_of(model.items.as_slice(), op as usize) {
        Some(operation) => operation.name.as_str(),
        None => "",
    }
}

fn write_json_command(
    writer: &mut Writer<Global>,
    model: &Source,
    command: &Command,
) -> Result<(), AllocError>
    ensures ok { OnOk result (writer.new.tokens
        ≡ writer.old.tokens ++ json_tokens (spec.command_json model.now command.now)) }
    ensures before { writer.new.before ≡ writer.old.before }
{
    writer.begin_array()?;
    writer.string(operation_name_or_empty(model, command.op))?;
    write_json_values_and_end(writer, command.args.as_slice())
}

/// Writes commands, and the end of their array.
fn write_json_commands_and_end(
    writer: &mut Writer<Global>,
    model: &Source,
    commands: &[Command],
) -> Result<(), AllocError>
    ensures ok { OnOk result (writer.new.tokens ≡ writer.old.tokens
        ++ items_tokens (items_of (map (spec.command_json model.now) commands.now))) }
    ensures before { writer.new.before ≡ writer.old.before }
{
    for command in commands {
        write_json_command(writer, model, command)?;
    }
    writer.end_array()
}

/// Writes the commands of a part.
fn write_json_command_array(
    writer: &mut Writer<Global>,
    model: &Source,
    commands: &[Command],
) -> Result<(), AllocError>
    ensures ok { OnOk result (writer.new.tokens
        ≡ writer.old.tokens ++ json_tokens (spec.part_json model.now commands.now)) }
    ensures before { writer.new.before ≡ writer.old.before }
{
    writer.begin_array()?;
    write_json_commands_and_end(writer, model, commands)
}

/// Writes branches, and the end of their array.
fn write_json_branch_arrays_and_end(
    writer: &mut Writer<Global>,
    model: &Source,
    branches: &[Items<Command>],
) -> Result<(), AllocError>
    ensures ok { OnOk result (writer.new.tokens ≡ writer.old.tokens
        ++ items_tokens (items_of (map (spec.part_json model.now) branches.now))) }
    ensures before { writer.new.before ≡ writer.old.before }
{
    for branch in branches {
        write_json_command_array(writer, model, branch.as_slice())?;
    }
    writer.end_array()
}

fn write_json_branches(
    writer: &mut Writer<Global>,
    model: &Source,
    branches: &[Items<Command>],
) -> Result<(), AllocError>
    ensures ok { OnOk result (writer.new.tokens
        ≡ writer.old.tokens ++ json_tokens (spec.branches_json model.now branches.now)) }
    ensures before { writer.new.before ≡ writer.old.before }
{
    writer.begin_array()?;
    write_json_branch_arrays_and_end(writer, model, branches)
}

/// Writes `{"failed":null}` and the like.
fn write_json_outcome_without_value(
    writer: &mut Writer<Global>,
    word: &str,
) -> Result<(), AllocError>
    ensures ok { OnOk result (writer.new.tokens
        ≡ writer.old.tokens ++ json_tokens (spec.outcome_json word.now)) }
    ensures before { writer.new.before ≡ writer.old.before }
{
    writer.begin_object()?;
    writer.key(word)?;
    writer.null()?;
    writer.end_object()
}

fn write_json_reply(writer: &mut Writer<Global>, reply: &Reply) -> Result<(), AllocError>
    ensures ok { OnOk result (writer.new.tokens
        ≡ writer.old.tokens ++ json_tokens (spec.reply_json reply.now)) }
    ensures before { writer.new.before ≡ writer.old.before }
{
    match reply {
        Reply::Value(value) => write_json_value(writer, value),
        Reply::Misfit => write_json_outcome_without_value(writer, "misfit"),
        Reply::Failed => write_json_outcome_without_value(writer, "failed"),
        Reply::NotRun => writer.null(),
        Reply::Unknown => write_json_outcome_without_value(writer, "unknown"),
    }
}

/// Writes replies, and the end of their array.
fn write_json_replies_and_end(
    writer: &mut Writer<Global>,
    replies: &[Reply],
) -> Result<(), AllocError>
    ensures ok { OnOk result (writer.new.tokens ≡ writer.old.tokens
        ++ items_tokens (items_of (map spec.reply_json replies.now))) }
    ensures before { writer.new.before ≡ writer.old.before }
{
    for reply in replies {
        write_json_reply(writer, reply)?;
    }
    writer.end_array()
}

/// Writes the replies of a part.
fn write_json_reply_list(writer: &mut Writer<Global>, replies: &[Reply]) -> Result<(), AllocError>
    ensures ok { OnOk result (writer.new.tokens
        ≡ writer.old.tokens ++ json_tokens (spec.list_json replies.now)) }
    ensures before { writer.new.before ≡ writer.old.before }
{
    writer.begin_array()?;
    write_json_replies_and_end(writer, replies)
}

/// Writes the lists of the branches and of the suffix, if it has commands, and the end of the lists.
fn write_json_branch_suffix_replies_and_end(
    writer: &mut Writer<Global>,
    branches: &[Items<Reply>],
    suffix: &[Reply],
) -> Result<(), AllocError>
    ensures ok { OnOk result (writer.new.tokens ≡ writer.old.tokens
        ++ items_tokens (items_of (map spec.list_json branches.now ++ spec.suffix_lists suffix.now))) }
    ensures before { writer.new.before ≡ writer.old.before }
{
    for branch in branches {
        write_json_reply_list(writer, branch.as_slice())?;
    }
    if !suffix.is_empty() {
        write_json_reply_list(writer, suffix)?;
    }
    writer.end_array()
}

/// Writes the lists of replies.
fn write_json_reply_lists(writer: &mut Writer<Global>, history: &History) -> Result<(), AllocError>
    ensures ok { OnOk result (writer.new.tokens
        ≡ writer.old.tokens ++ json_tokens (spec.lists_json history.now)) }
    ensures before { writer.new.before ≡ writer.old.before }
{
    writer.begin_array()?;
    write_json_reply_list(writer, history.prefix.as_slice())?;
    write_json_branch_suffix_replies_and_end(
        writer,
        history.branches.as_slice(),
        history.suffix.as_slice(),
    )
}

/// Writes the replies and the times, if there are any, and the end of the item.
fn write_json_replies_and_item_end(
    writer: &mut Writer<Global>,
    history: &Option<History>,
) -> Result<(), AllocError>
    ensures ok { OnOk result (writer.new.tokens ≡ writer.old.tokens
        ++ members_tokens (spec.replies_members history.now)) }
    ensures before { writer.new.before ≡ writer.old.before }
{
    match history {
        Some(history) => {
            writer.key("replies")?;
            write_json_reply_lists(writer, history)?;
            write_json_times_and_item_end(writer, &history.times)
        }
        None => writer.end_object(),
    }
}

/// Writes the suffix, if it has commands, and what comes after it.
fn write_json_suffix_replies_and_item_end(
    writer: &mut Writer<Global>,
    model: &Source,
    suffix: &[Command],
    history: &Option<History>,
) -> Result<(), AllocError>
    ensures ok { OnOk result (writer.new.tokens ≡ writer.old.tokens
        ++ members_tokens (spec.suffix_members model.now suffix.now (spec.replies_members history.now))) }
    ensures before { writer.new.before ≡ writer.old.before }
{
    if !suffix.is_empty() {
        writer.key("suffix")?;
        write_json_command_array(writer, model, suffix)?;
    }
    write_json_replies_and_item_end(writer, history)
}

/// Writes a case, with its replies if there are any.
fn write_json_item(
    writer: &mut Writer<Global>,
    model: &Source,
    case: &Case,
    history: &Option<History>,
) -> Result<(), AllocError>
    ensures ok { OnOk result (writer.new.tokens ≡ writer.old.tokens
        ++ json_tokens (spec.item_json model.now case.now history.now)) }
    ensures before { writer.new.before ≡ writer.old.before }
{
    writer.begin_object()?;
    writer.key("prefix")?;
    write_json_command_array(writer, model, case.prefix.as_slice())?;
    writer.key("branches")?;
    write_json_branches(writer, model, case.branches.as_slice())?;
    write_json_suffix_replies_and_item_end(writer, model, case.suffix.as_slice(), history)
}

/// The JSON of a run spells its tree, so it is read back as an equal run. This only learns what the types of the model,
/// of the case and of the times keep.
pub fn prove_json_is_read_back(typed: &Typed, run: &Run)
    requires { IsLawful typed.now run.now }
    ensures { item_form typed.now (spec.run_json typed.now run.now) ≡ trees.run_form typed.now run.now }
{
    let _model = typed.source();
    let _case = run.shaped.case();
    prove_times_are_small(&run.history);
}

/// The JSON of a run, and a line end.
pub fn run_json_line(alloc: Global, typed: &Typed, run: &Run) -> Result<Vec<u8>, AllocError>
    requires { IsLawful typed.now run.now }
    ensures line { IfOk result (λ line. line.items ≡ spec.json_line typed.now run.now) }
    // The text is read as this JSON.
    ensures reads_back { OnOk result (depth (spec.run_json typed.now run.now) ≤ max_depth
        → document (print (json_tokens (spec.run_json typed.now run.now)))
        ≡ Some (spec.run_json typed.now run.now)) }
    // The JSON spells the tree of the run.
    ensures spells { item_form typed.now (spec.run_json typed.now run.now) ≡ trees.run_form typed.now run.now }
{
    prove_json_is_read_back(typed, run);
    let mut writer = Writer::new(Vec::new(alloc));
    write_json_item(&mut writer, typed.source(), run.shaped.case(), &run.history)?;
    let mut line = writer.into_inner();
    line.push(b'\n')?;
    Ok(line)
}
