//! `pst judge --stream`.
ghost use Rattle.std.specs.Prelude.{◌≡◌, false, ℕ, List, Some, ⊤};
ghost use Rattle.pst_cli.specs.Answering.{Delivers, Reaches, Stands};
ghost use Rattle.pst_cli.specs.Sending.{memory_line};
ghost use Rattle.pst_cli.specs.StreamOutput.{IsStreamOutput};

use crate::input::STANDARD_INPUT;
use crate::item_progress::ProgressDisplay;
use crate::line_messages::{MOST_LINES, RefusedLineMessages};
use crate::outputs::print_file_error_to_stderr;
use crate::terminal::Terminals;
use clap::ArgMatches;
use pst_cli::{
    Absence, Attendant, CallOrder, Destinations, ItemResultCounts, RefusedLineReceiver, Status,
    count_items_of_input, judge_stream, refuse_text,
};
use pst_rejudge::ReaderBlocks;
use pst_sexpr::Sink;
use std::alloc::Global;
use std::io::{self, ErrorKind, Read};
use std::sync::Wait;
use std::thread::Threads;

/// Returns whether the arguments select a stream of items.
pub fn is_item_stream_selected(matches: &ArgMatches<'_>) -> bool {
    match matches.subcommand() {
        Some((subcommand, arguments)) => subcommand == "judge" && arguments.get_flag("stream"),
        None => false,
    }
}

/// Returns whether the file names are that of the model alone, which leaves standard input to the items of a
/// stream.
pub fn is_model_file_alone(names: &[&str]) -> bool {
    match names {
        [model] => *model != STANDARD_INPUT,
        _ => false,
    }
}

/// Refuses the input. Unless `is_quiet`, it writes to standard error that standard input has the items of a stream.
pub fn refuse_stream_with_wrong_files<W: Sink, R: Eprint>(
    rt: &R,
    names: &[&str],
    is_quiet: bool,
    out: &mut W,
) -> Status
    requires { W.broken out.old ≡ false }
{
    if !is_quiet {
        let _ = match names {
            [model, items, ..] if *model != STANDARD_INPUT && *items != STANDARD_INPUT =>
                eprintln!(rt;
                    "pst: with --stream the items come on standard input: pst judge --stream {model} < {items}"
                ),
            _ => eprintln!(rt;
                "pst: with --stream the model is in a file, and standard input has the items"
            ),
        };
    }
    refuse_text(Absence::NoFile, out)
}

/// Writes to standard error that the items after the model in its file are not judged, if there are some.
fn print_warning_if_file_has_unjudged_items<R: Eprint>(rt: &R, alloc: Global, input: &[u8]) {
    if matches!(count_items_of_input(alloc, input), Ok(1..)) {
        let _ = eprintln!(rt;
            "pst: the items after the model are not judged: with --stream they come on standard input"
        );
    }
}

/// Returns how many refused lines get messages, by the arguments.
fn max_refusal_messages_from_arguments(arguments: &ArgMatches<'_>) -> usize {
    if arguments.get_flag("quiet") {
        0
    } else if arguments.get_flag("all-messages") {
        usize::MAX
    } else {
        MOST_LINES
    }
}

/// Writes to standard error how many of the refused lines have no message, if there are some and others have one.
fn print_count_of_refusals_without_message<R: Eprint>(rt: &R, refused: usize, most: usize) {
    let more = refused.saturating_sub(most);
    if most > 0 && more > 0 {
        let items = if more == 1 { "item is" } else { "items are" };
        let _ = eprintln!(rt; "{more} more {items} refused: --all-messages shows each");
    }
}

/// A reader that keeps the last error of another reader, if it was no interruption.
#[derive(Drop)]
struct ReadErrorKeeper<I> {
    reader: I,
    failure: Option<io::Error>,
}

impl<I: Read> Read for ReadErrorKeeper<I> {
    ghost remaining = { λ keeper. I.remaining keeper.reader };

    fn read(&mut self, buf: &mut [u8]) -> io::Result<usize> {
        match self.reader.read(buf) {
            Ok(count) => Ok(count),
            Err(error) => {
                if error.kind() != ErrorKind::Interrupted {
                    self.failure = Some(error);
                }
                Err(error)
            }
        }
    }
}

/// Judges the items of a reader by an order, one on each line, by the model at the beginning of `input`. If
/// `has_progress_line`, a line displays how many are judged. Returns the status, and why the reader failed if it did.
/// `receiver` gets the refused lines.
fn judge_stream_with_progress<
    I: Read + Drop,
    F: Sink,
    W: Sink,
    R: Threads + Wait + Sync + Eprint + AllocGlobal + Copy + Drop + Send + 'static,
    L: RefusedLineReceiver,
>(
    rt: &R,
    has_progress_line: bool,
    input: &[u8],
    order: CallOrder,
    reader: I,
    counts: &mut ItemResultCounts,
    receiver: &mut L,
    to: &mut Destinations<F, W>,
) -> (Status, Option<io::Error>)
    requires { Stands F.broken W.broken to.old }
    ensures { (bytes : List ℕ) → I.remaining reader ≡ Some bytes
        → Reaches memory_line (IsStreamOutput ⊤ order input.now bytes)
        (Delivers F.taken F.broken W.taken W.broken to.old to.new result.0) }
{
    let alloc = rt.alloc();
    let mut display = ProgressDisplay::of_items(rt, alloc, has_progress_line, "judged");
    let mut source = ReaderBlocks {
        reader: ReadErrorKeeper {
            reader,
            failure: None,
        },
    };
    let status = judge_stream(
        rt,
        alloc,
        input,
        order,
        &mut source,
        counts,
        display.steps(),
        receiver,
        to,
    );
    display.before_output(None);
    (status, source.reader.failure)
}

/// Judges the items of a stream, one on each line, by the model at the beginning of `input`. If standard error is a
/// terminal and standard output is not, a line displays how many are judged.
/// Unless the arguments forbid messages, standard error has a message on each of the first refused lines, says how many
/// others are refused, says if there are items after the model, which are not judged, and why the stream cannot be read,
/// if that is so.
pub fn judge_stream_with_messages<
    I: Read + Drop,
    F: Sink,
    W: Sink,
    R: Threads + Wait + Sync + Eprint + AllocGlobal + Copy + Drop + Send + 'static,
>(
    rt: &R,
    arguments: &ArgMatches<'_>,
    terminals: Terminals,
    order: CallOrder,
    input: &[u8],
    stream: I,
    counts: &mut ItemResultCounts,
    to: &mut Destinations<F, W>,
) -> Status
    requires { Stands F.broken W.broken to.old }
    ensures { (bytes : List ℕ) → I.remaining stream ≡ Some bytes
        → Reaches memory_line (IsStreamOutput ⊤ order input.now bytes)
        (Delivers F.taken F.broken W.taken W.broken to.old to.new result) }
{
    let alloc = rt.alloc();
    let is_quiet = arguments.get_flag("quiet");
    if !is_quiet {
        print_warning_if_file_has_unjudged_items(rt, alloc, input);
    }
    let has_progress_line = terminals.errors && !terminals.output && !is_quiet;
    let most = max_refusal_messages_from_arguments(arguments);
    let name = arguments.get_str("FILE").unwrap_or(STANDARD_INPUT);
    let mut messages = RefusedLineMessages::new(rt, name, input, most, has_progress_line);
    let (status, failure) = judge_stream_with_progress(
        rt,
        has_progress_line,
        input,
        order,
        stream,
        counts,
        &mut messages,
        to,
    );
    if !is_quiet && let Some(error) = failure {
        print_file_error_to_stderr(rt, alloc, "read", "standard input", &error);
    }
    print_count_of_refusals_without_message(rt, counts.refused, most);
    status
}
