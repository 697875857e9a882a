//! The run of a subcommand on its input: its output, and messages on standard error.
ghost use Rattle.std.specs.Prelude.{◌≡◌, IfErr, IfOk, IsSome, Ok};
ghost use Rattle.pst.specs.Commands.{IsInRange};
ghost use Rattle.pst.specs.Endings.{Ends, EndsRun, EndsSubcommand, IsAbsence};
ghost use Rattle.pst_cli.specs.Answering.{Delivers, Reaches, Stands, memory_of};
ghost use Rattle.pst_cli.specs.Commands.{IsJudgeAnswer, IsMeant};

use crate::answering::answer_with_progress;
use crate::campaigning::{begin_campaign_if_systems_are_made, run_campaign_on_systems};
use crate::commands::{Command, RunCommand, command_from_arguments};
use crate::judging::JudgeMessages;
use crate::outputs::{WriteErrorKeeper, print_output_error_unless_pipe_closed};
use crate::preparing::{PreparedInput, SubcommandContext, output_file_name_from_arguments};
use crate::result_file::{
    ResultFile, open_or_create_file_without_emptying, status_after_ending_result_file,
    status_after_reporting_output_failure, writer_and_error_if_failed,
};
use crate::stop_signals::{StopFlag, StopState, StopWatch};
use crate::subcommands::Subcommand;
use crate::systems::SystemsError;
use crate::terminal::{Terminals, line_width_from_arguments_or_environment};
use crate::{clients, diagnostics, driving, judging, stop_signals, streaming, summary};
use clap::ArgMatches;
use pst_cli::{Absence, Destinations, ItemResultCounts, JudgeOptions, Status, refuse};
use pst_input::InputText;
use pst_sexpr::{Out, Sink};
use pst_sources::Input;
use pst_system::BoxedSystem;
use std::alloc::{AllocError, Global};
use std::fs::symlink_metadata;
use std::io::{self, Read};
use std::rt::{Env, Files, Runtime};
use std::sync::atomic::AtomicBool;
use std::sync::{Arc, Wait};
use std::thread::{JoinHandle, Threads};
use std::time::Clock;

/// The systems that the arguments name.
pub type SystemsResult = Result<Vec<BoxedSystem>, SystemsError>;

/// Returns the systems, or why there are none if they were not made. `name` is their name in the arguments.
pub fn systems_or_absence<'a, R: Eprint + AllocGlobal>(
    rt: &R,
    arguments: &ArgMatches<'_>,
    name: &'a str,
    systems: SystemsResult,
) -> Result<Vec<BoxedSystem>, Absence<'a>>
    ensures made { IfOk result (λ all. systems ≡ Ok all) }
    ensures absent { IfErr result (IsAbsence systems name.entry) }
{
    match systems {
        Ok(systems) => Ok(systems),
        Err(SystemsError::NoMemory) => Err(Absence::NoMemory),
        Err(SystemsError::NoPipes(error)) => {
            clients::print_client_pipe_error_unless_quiet(rt, arguments, name, &error);
            Err(Absence::NoSystem(name))
        }
    }
}

/// Drives the cases on the last of the systems, or refuses if they were not made.
fn drive_on_last_system<
    F: Sink,
    W: Sink,
    R: Threads + Wait + Sync + Eprint + AllocGlobal + Copy + Drop + Send + 'static,
>(
    rt: &R,
    context: SubcommandContext<'_, '_>,
    run: RunCommand<'_>,
    input: &InputText<'_>,
    systems: SystemsResult,
    counts: &mut ItemResultCounts,
    to: &mut Destinations<F, W>,
) -> Status
    requires { Stands F.broken W.broken to.old }
    ensures { EndsRun (Delivers F.taken F.broken W.taken W.broken to.old to.new) systems
        (λ s. (System-box s).answers s.value) (λ s. (System-box s).fails s.value)
        (λ s. (System-box s).reset_fails s.value) input.now run.entry result }
{
    let mut systems = match systems_or_absence(rt, context.arguments, run.system, systems) {
        Ok(systems) => systems,
        Err(why) => return refuse(why, to),
    };
    let mut system = match systems.pop() {
        Some(system) => system,
        None => return refuse(Absence::NoSystem(run.system), to),
    };
    let plain = input.plain();
    driving::drive_with_messages(rt, run.options, context, &mut system, plain, counts, to)
}

/// Judges the items of the files.
fn judge_items_of_files<
    F: Sink,
    W: Sink,
    R: Threads + Wait + Sync + Eprint + AllocGlobal + Copy + Drop + Send + 'static,
>(
    rt: &R,
    context: SubcommandContext<'_, '_>,
    options: JudgeOptions,
    input: &InputText<'_>,
    counts: &mut ItemResultCounts,
    to: &mut Destinations<F, W>,
) -> Status
    requires { Stands F.broken W.broken to.old }
    ensures { Reaches (memory_of options.form) (IsMeant (IsJudgeAnswer options) input.now)
        (Delivers F.taken F.broken W.taken W.broken to.old to.new result) }
{
    let messages = JudgeMessages::of_command(context);
    judging::judge_with_messages(rt, options, messages, input, counts, to)
}

/// Runs a command, writes its output, and counts the results of its items. `stream` has the items of `judge --stream`.
fn run_command<
    I: Read + Drop,
    F: Sink,
    W: Sink,
    R: Threads + Wait + Sync + Eprint + Files + AllocGlobal + Copy + Drop + Send + 'static,
>(
    rt: &R,
    context: SubcommandContext<'_, '_>,
    command: Command<'_, '_>,
    input: &InputText<'_>,
    stream: I,
    systems: SystemsResult,
    counts: &mut ItemResultCounts,
    to: &mut Destinations<F, W>,
) -> Status
    requires range { IsInRange command }
    requires stands { Stands F.broken W.broken to.old }
    ensures { Ends (Delivers F.taken F.broken W.taken W.broken to.old to.new) systems
        (λ s. (System-box s).answers s.value) (λ s. (System-box s).fails s.value)
        (λ s. (System-box s).reset_fails s.value) input.now (IsSome context.entry.signal.is_set)
        (I.remaining stream) command.entry result }
{
    match command {
        Command::OfInput(command) => answer_with_progress(rt, command, input, counts, to),
        Command::Judge(options) => judge_items_of_files(rt, context, options, input, counts, to),
        Command::Stream(order) => streaming::judge_stream_with_messages(
            rt,
            context.arguments,
            context.terminals,
            order,
            input.plain(),
            stream,
            counts,
            to,
        ),
        Command::Run(run) => drive_on_last_system(rt, context, run, input, systems, counts, to),
        Command::Campaign(campaign) => run_campaign_on_systems(
            rt, context, campaign, input, systems, to,
        ),
    }
}

/// Runs the command that the arguments choose, if what it needs beside its input is there. `stream` has the items of
/// `judge --stream`.
fn run_subcommand<
    I: Read + Drop,
    F: Sink,
    W: Sink,
    R: Threads + Wait + Sync + Eprint + Files + Env + AllocGlobal + Copy + Drop + Send + 'static,
>(
    rt: &R,
    context: SubcommandContext<'_, '_>,
    input: &InputText<'_>,
    stream: I,
    systems: SystemsResult,
    counts: &mut ItemResultCounts,
    to: &mut Destinations<F, W>,
) -> Status
    requires { Stands F.broken W.broken to.old }
    ensures { EndsSubcommand (Delivers F.taken F.broken W.taken W.broken to.old to.new) systems
        (λ s. (System-box s).answers s.value) (λ s. (System-box s).fails s.value)
        (λ s. (System-box s).reset_fails s.value) input.now (IsSome context.entry.signal.is_set)
        (I.remaining stream) context.entry.subcommand context.entry.arguments.now (to.new ≡ to.old) result }
{
    let plain = input.plain_input();
    let notices = diagnostics::notices_in_check_output(rt.alloc(), context.matches, &plain);
    let saver = match begin_campaign_if_systems_are_made(rt, context, &systems) {
        Ok(Ok(saver)) => saver,
        Ok(Err(status)) => return status,
        Err(AllocError) => return refuse(Absence::NoMemory, to),
    };
    let notices = notices.as_slice();
    let Some(command) = command_from_arguments(rt, context, plain.files, notices, saver.as_ref())
    else {
        return Status::Refused;
    };
    run_command(rt, context, command, input, stream, systems, counts, to)
}

/// Writes messages on refusals, warnings on a model that `check` accepts, and a line that sums up the items,
/// to standard error, unless the arguments forbid it.
fn print_outcome_messages_unless_quiet<R: Eprint + AllocGlobal>(
    rt: &R,
    context: SubcommandContext<'_, '_>,
    input: &InputText<'_>,
    status: Status,
    counts: &ItemResultCounts,
) {
    let Some((subcommand, arguments)) = context.matches.subcommand() else {
        return;
    };
    if arguments.get_flag("quiet")
        || diagnostics::is_check_with_json_output(subcommand, arguments)
    {
        return;
    }
    let Input { files, bytes } = input.plain_input();
    match status {
        Status::Refused => diagnostics::print_refusal_messages_to_stderr(
            rt, subcommand, arguments, input, counts,
        ),
        Status::Accepted if subcommand == "check" => {
            diagnostics::print_check_warnings_to_stderr(rt, arguments, &Input { files, bytes })
        }
        _ => summary::print_note_if_input_has_no_items(
            rt, subcommand, arguments, bytes, status, counts,
        ),
    }
    summary::print_summary_if_several_items(rt, counts);
}

/// Returns the status of the command, or `Refused` if the arguments require items and there was none.
fn refuse_if_required_items_are_missing<R: Eprint + AllocGlobal>(
    rt: &R,
    context: SubcommandContext<'_, '_>,
    input: &InputText<'_>,
    status: Status,
    counts: &ItemResultCounts,
) -> Status {
    let Some((subcommand, arguments)) = context.matches.subcommand() else {
        return status;
    };
    summary::status_with_required_items(rt, subcommand, arguments, input.plain(), status, counts)
}

/// Runs the subcommand with its output to the file that the arguments name, or to standard output. If the input is refused,
/// the refusal goes to standard output, and the file stays as it was. Unless the arguments forbid them, messages on
/// standard error follow; their last line sums up the items of `judge` and `run`.
fn run_subcommand_to_chosen_output<
    R: Runtime + AllocGlobal + Threads + Wait + Sync + Copy + Drop + Send + 'static,
>(
    rt: &R,
    context: SubcommandContext<'_, '_>,
    input: &InputText<'_>,
    systems: SystemsResult,
) -> Status {
    let mut to = Destinations {
        file: None,
        out: Out::new(WriteErrorKeeper::new(io::writer(rt))),
    };
    let mut was_there = true;
    let name = output_file_name_from_arguments(context.matches);
    if let Some(name) = name {
        was_there = symlink_metadata(rt, name).is_ok();
        match open_or_create_file_without_emptying(rt, name) {
            Ok(file) => to.file = Some(Out::new(WriteErrorKeeper::new(ResultFile::new(file)))),
            Err(error) => return print_output_error_unless_pipe_closed(
                rt,
                rt.alloc(),
                Some(name),
                &error,
            ),
        }
    }
    let mut counts = ItemResultCounts::new();
    let stream = rt.reader();
    let status = run_subcommand(rt, context, input, stream, systems, &mut counts, &mut to);
    print_outcome_messages_unless_quiet(rt, context, input, status, &counts);
    let status = refuse_if_required_items_are_missing(rt, context, input, status, &counts);
    let Destinations { file, out } = to;
    let (_, failure) = writer_and_error_if_failed(out);
    let status = status_after_reporting_output_failure(rt, status, None, failure);
    match (name, file) {
        (Some(name), Some(file)) => status_after_ending_result_file(
            rt, file, name, was_there, status,
        ),
        _ => status,
    }
}

/// Runs the subcommand, while a thread looks for clients that do not answer, and ends a campaign by the flag `stop` if no
/// reset succeeds. Then standard error has the notes of the clients, unless the arguments forbid it.
fn run_subcommand_while_watching_clients<
    R: Runtime + AllocGlobal + Threads + Wait + Sync + Copy + Drop + Send + 'static,
>(
    rt: R,
    matches: &ArgMatches<'_>,
    prepared: &PreparedInput<'_>,
    terminals: Terminals,
    systems: SystemsResult,
    stop: &Option<Arc<AtomicBool>>,
) -> Status {
    let Some((name, arguments)) = matches.subcommand() else {
        return Status::Refused;
    };
    let Some(subcommand) = Subcommand::named(name) else {
        return Status::Refused;
    };
    let is_in_file = output_file_name_from_arguments(matches).is_some();
    let context = SubcommandContext {
        subcommand,
        matches,
        arguments,
        misfits: prepared.misfits.as_deref(),
        notes: &prepared.notes,
        signal: StopFlag {
            is_set: stop.as_deref(),
        },
        terminals: if is_in_file {
            terminals.with_output_in_a_file()
        } else {
            terminals
        },
        line_width: line_width_from_arguments_or_environment(&rt, arguments),
    };
    let notes = &prepared.notes;
    let watch = clients::start_client_watch(&rt, rt.alloc(), matches, notes, stop);
    let status = run_subcommand_to_chosen_output(&rt, context, &prepared.input, systems);
    if let Some(watch) = watch {
        watch.end_and_wait(&rt);
    }
    clients::print_client_notes_unless_quiet(&rt, matches, notes);
    status
}

/// Runs the subcommand, while threads look for what ends a campaign from outside and for clients that do not answer.
/// `start_thread` starts the thread that looks for the end of a campaign.
pub fn run_subcommand_while_watching<
    R: Runtime + AllocGlobal + Threads + Wait + Sync + Copy + Drop + Send + 'static,
    F: Fn(Arc<StopState, Global>) -> Option<JoinHandle<()>>,
>(
    rt: R,
    matches: &ArgMatches<'_>,
    prepared: &PreparedInput<'_>,
    terminals: Terminals,
    systems: SystemsResult,
    start_thread: &F,
) -> Status
    requires { F.IsAlwaysCallable start_thread.now }
{
    let alloc = rt.alloc();
    let Ok(stop) = stop_signals::shared_stop_flag_if_wanted(&rt, alloc, matches) else {
        return diagnostics::print_memory_refusal(&rt);
    };
    let watch = StopWatch::start_if_wanted(alloc, matches, &stop, start_thread);
    let status = run_subcommand_while_watching_clients(
        rt, matches, prepared, terminals, systems, &stop,
    );
    if let Some(watch) = watch {
        watch.end_thread_and_wait(&rt);
    }
    status
}
