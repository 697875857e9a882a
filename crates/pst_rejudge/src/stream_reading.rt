//! Reads a stream in blocks of lines, splits the blocks into lines, and judges the lines that have ended.
ghost use Rattle.std.specs.Prelude.{◌≡◌, ◌<◌, ℕ, suc, List, length, take, IfErr, IfOk, [], ◌∷◌, ◌++◌, map, OnOk, ◌≤◌};
ghost use Rattle.pst_rejudge.specs.Blocks.{IsBlock, MayStopBy};
ghost use Rattle.pst_sexpr.specs.Reading.{max_bytes};
ghost use Rattle.pst_rejudge.specs.Lines.{begun, ended, last_line};
ghost use Rattle.std.specs.Io.KnownBytes.{Consumes, IsAtEnd};

use crate::reading::ItemResult;
use crate::stream_judging::judge_items_on_lines;
use pst_eval::Callbacks;
use pst_judge::Judge;
use pst_model::Typed;
use pst_sexpr::MAX_BYTES;
use std::alloc::{AllocError, Global};
use std::io::{ErrorKind, Read};
use std::thread::Threads;

/// How many bytes of a line are kept at most: one more than a file may have.
const MAX_KEPT: usize = MAX_BYTES + 1;

/// The answers to lines that ended.
#[derive(Drop)]
pub struct Block {
    /// The answers, in the order of the lines.
    pub answers: Vec<ItemResult>,
    /// Whether the reader has ended: no line comes after these.
    pub is_last: bool,
}

/// Why a block was not read and judged.
#[derive(Clone, Copy, Debug, PartialEq, Eq, Drop)]
pub enum StreamFault {
    /// The reader failed.
    Unread,
    /// An allocation failed.
    NoMemory,
}

impl From<AllocError> for StreamFault {
    ghost use Rattle.std.specs.Prelude.{◌≡◌};
    ghost use Rattle.pst_rejudge.specs.declared.stream_reading.StreamFault.TheVariants.{NoMemory};

    ghost from_gives = { λ _ e. e ≡ NoMemory };

    fn from(_refused: AllocError) -> StreamFault {
        StreamFault::NoMemory
    }
}

impl From<Unread> for StreamFault {
    ghost use Rattle.std.specs.Prelude.{◌≡◌};
    ghost use Rattle.pst_rejudge.specs.declared.stream_reading.StreamFault.TheVariants as fault;

    ghost from_gives = { λ _ e. e ≡ fault.Unread };

    fn from(_failed: Unread) -> StreamFault {
        StreamFault::Unread
    }
}

/// A source that failed.
#[derive(Clone, Copy, Debug, PartialEq, Eq, Drop)]
pub struct Unread;

/// A source of bytes, read in blocks.
///
/// Whether it may fail is known of all sources of the type.
pub trait BlockSource {
    ghost use Rattle.std.specs.Prelude.{◌≡◌, ◌≤◌, ◌<◌, ℕ, List, Option, IfErr, IfOk, length, take};
    ghost use Rattle.std.specs.Io.KnownBytes.{Consumes, IsAtEnd};

    /// The bytes that are left, if they are known.
    ghost remaining: { Self → Option (List ℕ) };

    /// That a source of this type may fail.
    ghost may_fail: { Type 0 };

    /// Reads bytes to the front of `buffer`, and returns how many; 0 is the end.
    fn read_block(&mut self, buffer: &mut [u8]) -> Result<usize, Unread>
        ensures within { IfOk result (λ count. count ≤ length buffer.new) }
        ensures read { IfOk result (λ count.
            Consumes (remaining self.old) (remaining self.new) (take count buffer.new)) }
        ensures end { IfOk result (λ count. count ≡ 0 → 0 < length buffer.old → IsAtEnd (remaining self.new)) }
        ensures failed { IfErr result (λ _. may_fail) };
}

/// The bytes of a reader, which may fail at any time.
#[derive(Drop)]
pub struct ReaderBlocks<I> {
    /// The reader.
    pub reader: I,
}

impl<I: Read> BlockSource for ReaderBlocks<I> {
    ghost use Rattle.std.specs.Prelude.{⊤};

    ghost remaining = { λ blocks. I.remaining blocks.reader };

    ghost may_fail = { ⊤ };

    fn read_block(&mut self, buffer: &mut [u8]) -> Result<usize, Unread> {
        read_once_despite_interruptions(&mut self.reader, buffer)
    }
}

/// Reads once, and judges the lines that end in the bytes read, several at once. The end of the source ends the
/// last line, if one has begun. `buffer` receives the bytes, and `kept` is the beginning of the line that has
/// not ended, at first empty.
///
/// `typed` is the model of the judge's callbacks. After a fault the stream cannot be continued.
pub fn read_once_and_judge_ended_lines<I: BlockSource, C: Callbacks + Sync, R: Threads + Sync>(
    rt: &R,
    judge: &Judge<'_, C>,
    alloc: Global,
    typed: &Typed,
    reader: &mut I,
    buffer: &mut [u8],
    kept: &mut Vec<u8>,
) -> Result<Block, StreamFault>
    requires model { typed.now ≡ C.model judge.now.callbacks.now }
    requires room { 0 < length buffer.old }
    ensures same { length buffer.new ≡ length buffer.old }
    ensures block { IfOk result (λ block. (line : List ℕ) → kept.old.items ≡ take (suc max_bytes) line
        → IsBlock judge.now.order (C.model judge.now.callbacks.now) (I.remaining reader.old) (I.remaining reader.new) line kept.new.items
        block.is_last block.answers.items) }
    ensures fault { IfErr result (MayStopBy I.may_fail) }
{
    let count = reader.read_block(buffer)?;
    if count == 0 {
        let lines = take_last_unended_line(alloc, kept)?;
        let answers = judge_items_on_lines(rt, judge, alloc, typed, lines.as_slice())?;
        return Ok(Block {
            answers,
            is_last: true,
        });
    }
    let mut lines = Vec::new(alloc);
    split_bytes_into_lines(alloc, MAX_KEPT, &mut lines, kept, &buffer[..count])?;
    let answers = judge_items_on_lines(rt, judge, alloc, typed, lines.as_slice())?;
    Ok(Block {
        answers,
        is_last: false,
    })
}

/// Adds a byte to `kept`, the beginning of a line, unless the limit is reached.
fn keep_byte_unless_line_is_full(
    limit: usize,
    kept: &mut Vec<u8>,
    byte: u8,
) -> Result<(), AllocError>
    ensures { OnOk result ((line : List ℕ) → kept.old.items ≡ take limit line
        → kept.new.items ≡ take limit (line ++ byte ∷ [])) }
{
    if kept.len() < limit {
        kept.push(byte)?;
    }
    Ok(())
}

/// Ends the current line: copies it to `lines`, and begins another, in the room of this one.
fn move_kept_line_to_lines(
    alloc: Global,
    lines: &mut Vec<Vec<u8>>,
    kept: &mut Vec<u8>,
) -> Result<(), AllocError>
    ensures kept { kept.new.items ≡ [] }
    ensures lines { OnOk result (map (λ line. line.items) lines.new.items
        ≡ map (λ line. line.items) lines.old.items ++ kept.old.items ∷ []) }
{
    let mut line = Vec::new(alloc);
    let copied = line.extend_from_slice(kept.as_slice());
    kept.clear();
    copied?;
    lines.push(line)?;
    Ok(())
}

/// Adds a byte to the current line, or ends it at a line feed.
fn keep_byte_or_end_line(
    alloc: Global,
    limit: usize,
    lines: &mut Vec<Vec<u8>>,
    kept: &mut Vec<u8>,
    byte: u8,
) -> Result<(), AllocError>
    ensures kept { OnOk result ((line : List ℕ) → kept.old.items ≡ take limit line
        → kept.new.items ≡ take limit (begun line (byte ∷ []))) }
    ensures lines { OnOk result ((line : List ℕ) → kept.old.items ≡ take limit line
        → map (λ l. l.items) lines.new.items
        ≡ map (λ l. l.items) lines.old.items ++ map (take limit) (ended line (byte ∷ []))) }
{
    if byte == b'\n' {
        move_kept_line_to_lines(alloc, lines, kept)
    } else {
        keep_byte_unless_line_is_full(limit, kept, byte)
    }
}

/// Splits bytes into lines: adds those that end to `lines`, and keeps the one that has begun. It keeps at most
/// `limit` bytes of each line.
fn split_bytes_into_lines(
    alloc: Global,
    limit: usize,
    lines: &mut Vec<Vec<u8>>,
    kept: &mut Vec<u8>,
    bytes: &[u8],
) -> Result<(), AllocError>
    ensures kept { OnOk result ((line : List ℕ) → kept.old.items ≡ take limit line
        → kept.new.items ≡ take limit (begun line bytes.now)) }
    ensures lines { OnOk result ((line : List ℕ) → kept.old.items ≡ take limit line
        → map (λ l. l.items) lines.new.items
        ≡ map (λ l. l.items) lines.old.items ++ map (take limit) (ended line bytes.now)) }
{
    for byte in bytes {
        keep_byte_or_end_line(alloc, limit, lines, kept, *byte)?;
    }
    Ok(())
}

/// The line that the end of the stream ends, if one has begun.
fn take_last_unended_line(alloc: Global, kept: &mut Vec<u8>) -> Result<Vec<Vec<u8>>, AllocError>
    ensures { IfOk result (λ lines. (limit : ℕ) (line : List ℕ) → 0 < limit → kept.old.items ≡ take limit line
        → map (λ l. l.items) lines.items ≡ map (take limit) (last_line line)) }
{
    let mut lines = Vec::new(alloc);
    if !kept.is_empty() {
        move_kept_line_to_lines(alloc, &mut lines, kept)?;
    }
    Ok(lines)
}

/// Reads once, and again if a signal interrupts the read. Returns how many bytes are at the front of `buffer`;
/// 0 is the end.
fn read_once_despite_interruptions<R: Read>(
    reader: &mut R,
    buffer: &mut [u8],
) -> Result<usize, Unread>
    ensures within { IfOk result (λ count. count ≤ length buffer.new) }
    ensures read { IfOk result (λ count.
        Consumes (R.remaining reader.old) (R.remaining reader.new) (take count buffer.new)) }
    ensures end { IfOk result (λ count. count ≡ 0 → 0 < length buffer.old → IsAtEnd (R.remaining reader.new)) }
{
    for _turn in 0..u64::MAX {
        match reader.read(buffer) {
            Ok(count) => return Ok(count),
            Err(error) => {
                if error.kind() != ErrorKind::Interrupted {
                    return Err(Unread);
                }
            }
        }
    }
    Err(Unread)
}
