//! Judges the items that lines spell.
ghost use Rattle.std.specs.Prelude.{◌≡◌, true, IfOk};
ghost use Rattle.std.specs.List.{AllZip};
ghost use Rattle.pst_json_runs.specs.Lines.{has_json};
ghost use Rattle.pst_rejudge.specs.StreamAnswers.{IsLineAnswer, IsTreeAnswer};

use crate::reading::{ItemResult, read_and_judge_tree};
use crate::sharing::prove_models_are_sync;
use pst_eval::Callbacks;
use pst_json_runs::{begins_like_json_item, json_line_tree_or_empty};
use pst_judge::Judge;
use pst_model::Typed;
use pst_runs::RunFaultKind;
use pst_sexpr::{FaultKind, MAX_BYTES, read};
use rayon::prelude::*;
use std::alloc::{AllocError, Global};
use std::thread::Threads;

/// How few lines are worth a thread of their own.
const FEW_LINES: usize = 16;

/// Reads and judges the tree that a line spells. A line that spells none, or more than one, is refused as `BadForm`.
fn judge_tree_on_line<C: Callbacks>(
    judge: &Judge<'_, C>,
    alloc: Global,
    typed: &Typed,
    line: &[u8],
) -> Result<ItemResult, AllocError>
    requires { typed.now ≡ C.model judge.now.callbacks.now }
    ensures { IfOk result (IsTreeAnswer judge.now.order (C.model judge.now.callbacks.now) line.now) }
{
    let refused = ItemResult::Refused {
        kind: RunFaultKind::BadForm,
        command: 0,
    };
    let trees = match read(alloc, line) {
        Ok(trees) => trees,
        Err(fault) => {
            if fault.kind == FaultKind::NoMemory {
                return Err(AllocError);
            }
            return Ok(refused);
        }
    };
    if trees.len() != 1 {
        return Ok(refused);
    }
    read_and_judge_tree(judge, alloc, typed, &trees[0])
}

/// Reads and judges the JSON item of a line. A line that is longer than a file may be is refused as `BadForm`.
fn judge_json_item_on_line<C: Callbacks>(
    judge: &Judge<'_, C>,
    alloc: Global,
    typed: &Typed,
    line: &[u8],
) -> Result<ItemResult, AllocError>
    requires model { typed.now ≡ C.model judge.now.callbacks.now }
    requires json { has_json line.now ≡ true }
    ensures { IfOk result (IsLineAnswer judge.now.order (C.model judge.now.callbacks.now) line.now) }
{
    if line.len() > MAX_BYTES {
        return Ok(ItemResult::Refused {
            kind: RunFaultKind::BadForm,
            command: 0,
        });
    }
    let tree = json_line_tree_or_empty(alloc, typed.source(), line)?;
    read_and_judge_tree(judge, alloc, typed, &tree)
}

/// Reads and judges the item that a line spells, as a tree or as JSON. A line that spells none, or more than one, is refused
/// as `BadForm`.
fn judge_item_on_line<C: Callbacks>(
    judge: &Judge<'_, C>,
    alloc: Global,
    typed: &Typed,
    line: &[u8],
) -> Result<ItemResult, AllocError>
    requires { typed.now ≡ C.model judge.now.callbacks.now }
    ensures { IfOk result (IsLineAnswer judge.now.order (C.model judge.now.callbacks.now) line.now) }
{
    if begins_like_json_item(line) {
        judge_json_item_on_line(judge, alloc, typed, line)
    } else {
        judge_tree_on_line(judge, alloc, typed, line)
    }
}

/// Judges each line, and returns the answers in order. Several threads judge the lines at once.
pub(crate) fn judge_items_on_lines<C: Callbacks + Sync, R: Threads + Sync>(
    rt: &R,
    judge: &Judge<'_, C>,
    alloc: Global,
    typed: &Typed,
    lines: &[Vec<u8>],
) -> Result<Vec<ItemResult>, AllocError>
    requires { typed.now ≡ C.model judge.now.callbacks.now }
    ensures { IfOk result (λ answers.
        AllZip (λ line. IsLineAnswer judge.now.order (C.model judge.now.callbacks.now) line.items) lines.now answers.items) }
{
    prove_models_are_sync();
    lines
        .par_iter()
        .with_min_len(FEW_LINES)
        .map(
            |line: &Vec<u8>| -> Result<ItemResult, AllocError>
                requires { typed.now ≡ C.model judge.now.callbacks.now }
                ensures { IfOk result (IsLineAnswer judge.entry.now.order (C.model judge.entry.now.callbacks.now) line.now.items) }
            { judge_item_on_line(judge, alloc, typed, line.as_slice()) },
        )
        .collect::<Result<Vec<ItemResult>, AllocError>>(rt, alloc)?
}
