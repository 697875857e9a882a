//! The commands of the program, and the output of each for an input.
ghost use Rattle.std.specs.Prelude.{◌≡◌, false};

use crate::memory::trials::settings_for_trials_of_one_command;
use pst_campaign::Unwatched;
use pst_cli::{
    CallOrder, ChosenItems, ExplainOptions, ExplanationForm, Status, campaign_text, check_text,
    explain_text, judge_text, list_text, run_text,
};
use pst_samples::Stuck;
use pst_system::BoxedSystem;
use pst_tests::support::LimitedSink;
use std::alloc::{AllocError, Global};
use std::sync::Wait;
use std::thread::Threads;

/// A command of the program.
#[derive(Clone, Copy, Drop)]
pub enum ProgramCommand {
    Check,
    List,
    Judge,
    Explain,
    /// `pst run stuck`.
    Run,
    /// `pst campaign stuck --seed 7 --trials 3 --commands 1 --repeats 1 --workers 1`.
    Campaign,
}

/// All commands.
pub const COMMANDS: [ProgramCommand; 6] = [
    ProgramCommand::Check,
    ProgramCommand::List,
    ProgramCommand::Judge,
    ProgramCommand::Explain,
    ProgramCommand::Run,
    ProgramCommand::Campaign,
];

impl ProgramCommand {
    /// Returns the command's name on the command line.
    pub fn name(self) -> &'static str {
        match self {
            ProgramCommand::Check => "check",
            ProgramCommand::List => "list",
            ProgramCommand::Judge => "judge",
            ProgramCommand::Explain => "explain",
            ProgramCommand::Run => "run",
            ProgramCommand::Campaign => "campaign",
        }
    }
}

/// The status and the output of a command.
#[derive(Drop)]
pub struct CommandOutput {
    pub status: Status,
    pub bytes: Vec<u8>,
    /// Whether the writer failed.
    pub failed: bool,
}

/// Runs a campaign on the system `stuck`, and writes its report.
fn run_campaign_on_stuck_system<R: Threads + Wait + Sync>(
    rt: &R,
    alloc: Global,
    input: &[u8],
    short: &mut LimitedSink,
) -> Result<Status, AllocError>
    requires { short.old.failed ≡ false }
{
    let settings = settings_for_trials_of_one_command(3);
    if !settings.are_in_range() {
        return Err(AllocError);
    }
    let mut systems: Vec<BoxedSystem> = Vec::new(alloc);
    systems.push(Box::new(alloc, Stuck)?)?;
    Ok(campaign_text(rt, alloc, input, settings, systems, &Unwatched, short))
}

/// Drives the items on the system `stuck`, and writes the results.
fn run_items_on_stuck_system<R: Threads + Wait>(
    rt: &R,
    alloc: Global,
    input: &[u8],
    short: &mut LimitedSink,
) -> Result<Status, AllocError>
    requires { short.old.failed ≡ false }
{
    let mut stuck: BoxedSystem = Box::new(alloc, Stuck)?;
    Ok(run_text(rt, alloc, input, &mut stuck, short))
}

/// Runs the command on `input`, with a writer that fails after `room` bytes.
pub fn run_command_with_limited_writer<R: Threads + Wait + Sync>(
    rt: &R,
    alloc: Global,
    command: ProgramCommand,
    input: &[u8],
    room: usize,
) -> Result<CommandOutput, AllocError> {
    let mut short = LimitedSink::new(alloc, room);
    let status = match command {
        ProgramCommand::Check => check_text(alloc, input, &mut short),
        ProgramCommand::List => list_text(alloc, input, &mut short),
        ProgramCommand::Judge => judge_text(rt, alloc, input, &mut short),
        ProgramCommand::Explain => {
            let asked = ExplainOptions {
                order: CallOrder::Time,
                files: &[],
                chosen: ChosenItems::All,
                most: usize::MAX,
                form: ExplanationForm::Text(80),
            };
            explain_text(rt, alloc, input, asked, &mut short)
        }
        ProgramCommand::Run => run_items_on_stuck_system(rt, alloc, input, &mut short)?,
        ProgramCommand::Campaign => run_campaign_on_stuck_system(rt, alloc, input, &mut short)?,
    };
    let LimitedSink {
        bytes,
        room: _,
        failed,
    } = short;
    Ok(CommandOutput {
        status,
        bytes,
        failed,
    })
}

/// Returns `line`, or a note of its length if it has over 200 bytes.
fn line_or_length_note_if_long(alloc: Global, line: &str) -> Result<String, AllocError> {
    let length = line.len();
    if length > 200 {
        return format!(in alloc; "a line of {length} bytes");
    }
    String::from_str(alloc, line)
}

/// Adds the lines of an output, with `, ` between them, or that it is empty.
fn push_shortened_lines_or_word_nothing(
    alloc: Global,
    text: &mut String,
    output: &str,
) -> Result<(), AllocError> {
    if output.is_empty() {
        return text.push_str(" nothing");
    }
    for (index, line) in output.lines().enumerate() {
        text.push_str(if index == 0 { " " } else { ", " })?;
        text.push_str(line_or_length_note_if_long(alloc, line)?.as_str())?;
    }
    Ok(())
}

/// Returns the status code and the output, with `, ` between its lines.
pub fn status_and_shortened_output_text(
    alloc: Global,
    answer: &CommandOutput,
) -> Result<String, AllocError> {
    let code = answer.status.code();
    let mut text = format!(in alloc; "{code}")?;
    match std::str::from_utf8(answer.bytes.as_slice()) {
        Ok(output) => push_shortened_lines_or_word_nothing(alloc, &mut text, output)?,
        Err(_) => text.push_str(" no text")?,
    }
    Ok(text)
}
