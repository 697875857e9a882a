//! `pst judge --stream`, and the refused lines of a stream, for messages on them.
ghost use Rattle.std.specs.Prelude.{◌≡◌, ◌+◌, ◌++◌, ℕ, List, Some, false, length, IfOk, MatchResult, OnOk, string_bytes};
ghost use Rattle.pst_cli.specs.Answering.{Delivers, Reaches, Stands};
ghost use Rattle.pst_cli.specs.Sending.{SendsOne, memory_line};
ghost use Rattle.pst_cli.specs.Streaming.{EndsBlock, EndsStream, cut_of};
ghost use Rattle.pst_cli.specs.StreamOutput.{IsStreamOutput};
ghost use Rattle.pst_sexpr.specs.declared.form.Form.{Form};
ghost use Rattle.pst_typing.specs.Loading.{Holds};

use crate::answer::{Destinations, MEMORY_LINE, Status, deliver, refusal_answer, send_text};
use crate::counts::ItemResultCounts;
use crate::input::{compile_model_of_input, prove_compiled_models_are_sync};
use crate::keep::{numbered_item_result_lines, worst_status_after_item_results};
use pst_compile::Compiled;
use pst_judge::{CallOrder, Judge};
use pst_rejudge::{
    BlockSource, ItemResult, ProgressCounter, StreamFault, read_once_and_judge_ended_lines,
};
use pst_sexpr::{Sink, WriteFailed, put_all};
use std::alloc::{AllocError, Global};
use std::thread::Threads;

/// How many bytes are read at once. Each line of a read takes memory until its verdict is written, however short it is.
const BUFFER: usize = 65_536;

/// Why the lines end before the stream does.
#[derive(Clone, Copy, Debug, PartialEq, Eq, Drop)]
pub(crate) enum Cut {
    /// The source failed.
    Unread,
    /// An allocation failed.
    NoMemory,
    /// The writer failed.
    Unwritten,
}

/// How many lines were written, and the worst of their statuses.
#[derive(Clone, Copy, Debug, PartialEq, Eq, Drop)]
pub(crate) struct Written {
    pub count: usize,
    pub status: Status,
}

/// Writes the lines of the answers to a block, after the lines so far.
fn write_item_result_lines_of_block<W: Sink>(
    alloc: Global,
    written: Written,
    answers: &[ItemResult],
    sink: &mut W,
) -> Result<Written, Cut>
    requires { W.broken sink.old ≡ false }
    ensures { EndsBlock written answers.now (W.taken sink.old) (W.taken sink.new) (W.broken sink.new) result }
{
    let text = match numbered_item_result_lines(alloc, written.count, answers) {
        Ok(text) => text,
        Err(AllocError) => return Err(Cut::NoMemory),
    };
    let Some(count) = written.count.checked_add(answers.len()) else {
        return Err(Cut::NoMemory);
    };
    match put_all(text.as_bytes(), sink) {
        Ok(()) => Ok(Written {
            count,
            status: worst_status_after_item_results(written.status, answers),
        }),
        Err(WriteFailed) => Err(Cut::Unwritten),
    }
}

/// The bytes that the lines of a block end in: those that were read, or none if the stream has ended.
fn bytes_read_unless_stream_ended(buffer: &[u8], is_last: bool) -> &[u8] {
    if is_last { &[] } else { buffer }
}

/// Why the lines end if no block can be read.
fn cut_for_stream_fault(fault: StreamFault) -> Cut
    ensures { result ≡ cut_of fault }
{
    match fault {
        StreamFault::Unread => Cut::Unread,
        StreamFault::NoMemory => Cut::NoMemory,
    }
}

/// Writes the line of each item of the source as it comes, and returns the worst of their statuses; or why the lines
/// end before the source does. `refused` gets the refused lines.
fn judge_stream_and_write_lines<I: BlockSource, W: Sink, R: Threads + Sync, L: RefusedLineReceiver>(
    rt: &R,
    alloc: Global,
    judge: &Judge<'_, Compiled>,
    source: &mut I,
    counts: &mut ItemResultCounts,
    steps: &ProgressCounter,
    refused: &mut L,
    sink: &mut W,
) -> Result<Status, Cut>
    requires { W.broken sink.old ≡ false }
    ensures { EndsStream judge.now.order judge.now.callbacks.now (I.remaining source.old) (W.taken sink.old) (W.taken sink.new)
        (W.broken sink.new) I.may_fail result }
{
    let Ok(mut buffer) = vec![in alloc; 0u8; BUFFER] else {
        return Err(Cut::NoMemory);
    };
    prove_compiled_models_are_sync();
    let mut kept = Vec::new(alloc);
    let mut written = Written {
        count: 0,
        status: Status::Accepted,
    };
    for _turn in 0..u64::MAX {
        let begun = copy_begun_line_if_wanted(alloc, refused, kept.as_slice());
        let block = match read_once_and_judge_ended_lines(
            rt,
            judge,
            alloc,
            judge.callbacks.typed(),
            source,
            buffer.as_mut_slice(),
            &mut kept,
        ) {
            Ok(block) => block,
            Err(fault) => return Err(cut_for_stream_fault(fault)),
        };
        let answers = block.answers.as_slice();
        let before = written.count;
        counts.add_item_results(answers);
        steps.add(answers.len());
        written = match write_item_result_lines_of_block(alloc, written, answers, sink) {
            Ok(written) => written,
            Err(cut) => return Err(cut),
        };
        let ended = EndedLines {
            before,
            read: bytes_read_unless_stream_ended(buffer.as_slice(), block.is_last),
            answers,
        };
        hand_over_refused_lines_if_wanted(refused, begun, ended);
        if block.is_last {
            return Ok(written.status);
        }
    }
    Err(Cut::NoMemory)
}

/// Writes the lines of the items of a source, and after them why they end before the source does, if they do.
fn write_stream<I: BlockSource, W: Sink, R: Threads + Sync, L: RefusedLineReceiver>(
    rt: &R,
    alloc: Global,
    judge: &Judge<'_, Compiled>,
    source: &mut I,
    counts: &mut ItemResultCounts,
    steps: &ProgressCounter,
    refused: &mut L,
    sink: &mut W,
) -> Status
    requires { W.broken sink.old ≡ false }
    ensures { (input bytes : List ℕ) (trees : List Form) → Holds input judge.now.callbacks.now trees
        → I.remaining source.old ≡ Some bytes
        → SendsOne (IsStreamOutput I.may_fail judge.now.order input bytes) (W.taken sink.old) (W.taken sink.new) (W.broken sink.new) result }
{
    match judge_stream_and_write_lines(rt, alloc, judge, source, counts, steps, refused, sink) {
        Ok(status) => status,
        Err(Cut::Unread) => send_text(b"refused file\n", Status::Refused, sink),
        Err(Cut::NoMemory) => send_text(MEMORY_LINE, Status::Lost, sink),
        Err(Cut::Unwritten) => Status::Lost,
    }
}

/// Judges the items of a source by an order, one on each line, over the model at the start of the input. For each line, from 1,
/// writes `NUMBER VERDICT`, or `refused run NUMBER command C KIND`. Refuses a line as `BadForm` if it spells no item or
/// more than one, or is longer than a file may be. Judges all lines that end within one block, several at
/// once, and writes their verdicts before it reads the next; keeps no more of the source in memory. `refused` then gets the
/// refused lines. Ignores the items after the model in the input. Writes to the file if there is one, else to `out`.
///
/// The status is the worst of all lines, as in `judge_text_keep_going`. If the model is refused, writes its refusal
/// alone to `out`. If the source fails, writes `refused file` after the lines so far, with the status `Refused`. If an
/// allocation fails, writes `refused memory` after them, with the status `Lost`; alone and to `out` if it fails before
/// the source is read. The status is also `Lost` if the writer fails.
pub fn judge_stream<I: BlockSource, F: Sink, W: Sink, R: Threads + Sync, L: RefusedLineReceiver>(
    rt: &R,
    alloc: Global,
    input: &[u8],
    order: CallOrder,
    source: &mut I,
    counts: &mut ItemResultCounts,
    steps: &ProgressCounter,
    refused: &mut L,
    to: &mut Destinations<F, W>,
) -> Status
    requires stands { Stands F.broken W.broken to.old }
    ensures prints { (bytes : List ℕ) → I.remaining source.old ≡ Some bytes
        → Reaches memory_line (IsStreamOutput I.may_fail order input.now bytes)
        (Delivers F.taken F.broken W.taken W.broken to.old to.new result) }
{
    let compiled = match compile_model_of_input(alloc, input) {
        Ok(Ok(file)) => file.compiled,
        Ok(Err(refusal)) => return deliver(&refusal_answer(alloc, &refusal), MEMORY_LINE, to),
        Err(AllocError) => return deliver(&Err(AllocError), MEMORY_LINE, to),
    };
    let callbacks = &compiled;
    let judge = Judge { callbacks, order };
    match &mut to.file {
        Some(file) => write_stream(rt, alloc, &judge, source, counts, steps, refused, file),
        None => write_stream(
            rt,
            alloc,
            &judge,
            source,
            counts,
            steps,
            refused,
            &mut to.out,
        ),
    }
}

/// One who takes the refused lines of a stream as they come. It changes nothing of what is written for them.
pub trait RefusedLineReceiver {
    /// Returns whether it takes further lines.
    fn takes_more_lines(&self) -> bool;

    /// Takes a refused line, without its end, once its verdict is written. `number` counts the lines of the stream
    /// from 1. A line that is longer than a file may be is cut, but stays longer than that.
    fn take(&mut self, number: usize, line: &[u8]);
}

/// Lines that ended within one read of a stream.
#[derive(Clone, Copy, Drop)]
pub(crate) struct EndedLines<'a> {
    /// How many lines came before them.
    pub before: usize,
    /// The bytes of the read, or none if the stream has ended.
    pub read: &'a [u8],
    /// The answers to the lines.
    pub answers: &'a [ItemResult],
}

/// Returns a copy of the beginning of a line that has not ended, if `lines` takes further lines.
fn copy_begun_line_if_wanted<L: RefusedLineReceiver>(
    alloc: Global,
    lines: &L,
    begun: &[u8],
) -> Result<Option<Vec<u8>>, AllocError> {
    if !lines.takes_more_lines() {
        return Ok(None);
    }
    let mut copy = Vec::new(alloc);
    copy.extend_from_slice(begun)?;
    Ok(Some(copy))
}

/// Returns the place of the first line end from `from` on, or the end of the bytes.
fn place_of_newline_or_end(bytes: &[u8], from: usize) -> usize {
    for at in from..bytes.len() {
        if bytes.get(at) == Some(&b'\n') {
            return at;
        }
    }
    bytes.len()
}

/// Hands over the refused lines among `ended`. `begun` is the beginning of the first line.
fn hand_over_refused_lines<L: RefusedLineReceiver>(
    lines: &mut L,
    begun: Vec<u8>,
    ended: EndedLines<'_>,
) -> Result<(), AllocError> {
    let mut line = begun;
    let mut start = 0;
    let mut number = ended.before;
    for answer in ended.answers {
        number = number.saturating_add(1);
        let end = place_of_newline_or_end(ended.read, start);
        if let ItemResult::Refused { .. } = answer {
            line.extend_from_slice(ended.read.get(start..end).unwrap_or(&[]))?;
            lines.take(number, line.as_slice());
        }
        line.clear();
        start = end.saturating_add(1);
    }
    Ok(())
}

/// Hands over the refused lines among `ended`, if there are some. `begun` is the beginning of the first line, if
/// `lines` takes further lines. Hands over none if an allocation fails.
fn hand_over_refused_lines_if_wanted<L: RefusedLineReceiver>(
    lines: &mut L,
    begun: Result<Option<Vec<u8>>, AllocError>,
    ended: EndedLines<'_>,
) {
    let Ok(Some(begun)) = begun else {
        return;
    };
    let is_refused = |answer: &ItemResult| matches!(answer, ItemResult::Refused { .. });
    if ended.answers.iter().any(is_refused) {
        let _ = hand_over_refused_lines(lines, begun, ended);
    }
}
