//! Reads items and judges each tree by itself, several at once, so that a refused tree does not affect the verdicts
//! of the others; and reads the trees of a part of an input.
ghost use Rattle.std.specs.Prelude.{◌≡◌, IfOk, MatchResult, Ok, Err};
ghost use Rattle.std.specs.List.{AllZip};
ghost use Rattle.pst_rejudge.specs.Answers.{IsAnswer, spelled_run};
ghost use Rattle.pst_rejudge.specs.Judging.{MayBeJudged};
ghost use Rattle.pst_runs.specs.Items.{item_of};
ghost use Rattle.pst_sexpr.specs.Reading.{Spells};

use crate::sharing::prove_models_are_sync;
use crate::steps::ProgressCounter;
use pst_case::{CaseFaultKind, Run};
use pst_eval::Callbacks;
use pst_judge::{Judge, Judged};
use pst_model::Typed;
use pst_runs::{RunFault, RunFaultKind, read_runs};
use pst_sexpr::{FaultKind, SexprFault, Tree, read};
use rayon::prelude::*;
use std::alloc::{AllocError, Global};
use std::slice;
use std::thread::Threads;

/// The judgement on an item, or why it is refused.
#[derive(Debug, Drop)]
pub enum ItemResult {
    /// It was read, and this is the judgement on it.
    Judged(Judged),
    /// It is refused for this reason.
    Refused {
        /// The kind of its first fault.
        kind: RunFaultKind,
        /// The number of the command that is at fault, from 1, or 0 for the item itself.
        command: u32,
    },
}

/// Reads and judges the item that a tree spells. Returns its run, unless it is refused, and the answer.
pub(crate) fn read_and_judge_item<C: Callbacks>(
    judge: &Judge<'_, C>,
    alloc: Global,
    typed: &Typed,
    tree: &Tree,
) -> Result<(Option<Run>, ItemResult), AllocError>
    requires { typed.now ≡ C.model judge.now.callbacks.now }
    ensures run { IfOk result (λ item. spelled_run (C.model judge.now.callbacks.now) tree.now ≡ item.0) }
    ensures answer { IfOk result (λ item. IsAnswer judge.now.order (C.model judge.now.callbacks.now) tree.now item.1) }
{
    match read_run_of_tree(alloc, typed, tree)? {
        Ok(run) => {
            let judged = judge.judge_one(alloc, &run)?;
            Ok((Some(run), ItemResult::Judged(judged)))
        }
        Err(RunFault { kind, command, .. }) => Ok((None, ItemResult::Refused { kind, command })),
    }
}

/// Reads and judges the item that a tree spells.
pub fn read_and_judge_tree<C: Callbacks>(
    judge: &Judge<'_, C>,
    alloc: Global,
    typed: &Typed,
    tree: &Tree,
) -> Result<ItemResult, AllocError>
    requires { typed.now ≡ C.model judge.now.callbacks.now }
    ensures { IfOk result (IsAnswer judge.now.order (C.model judge.now.callbacks.now) tree.now) }
{
    let (_, answer) = read_and_judge_item(judge, alloc, typed, tree)?;
    Ok(answer)
}

/// Reads and judges the item that a tree spells, and counts it in `steps`.
fn read_and_judge_tree_with_progress<C: Callbacks>(
    judge: &Judge<'_, C>,
    alloc: Global,
    typed: &Typed,
    tree: &Tree,
    steps: &ProgressCounter,
) -> Result<ItemResult, AllocError>
    requires { typed.now ≡ C.model judge.now.callbacks.now }
    ensures { IfOk result (IsAnswer judge.now.order (C.model judge.now.callbacks.now) tree.now) }
{
    let answer = read_and_judge_tree(judge, alloc, typed, tree)?;
    steps.add(1);
    Ok(answer)
}

/// Reads and judges each of the items that trees spell, in their order: returns the judgement on it, or why it
/// is refused. Several threads read and judge the items at once, and count them in `steps`.
///
/// `typed` is the model of the judge's callbacks.
pub fn read_and_judge_each_tree<C: Callbacks + Sync, R: Threads + Sync>(
    rt: &R,
    judge: &Judge<'_, C>,
    alloc: Global,
    typed: &Typed,
    trees: &[Tree],
    steps: &ProgressCounter,
) -> Result<Vec<ItemResult>, AllocError>
    requires { typed.now ≡ C.model judge.now.callbacks.now }
    ensures { IfOk result (λ all. AllZip (IsAnswer judge.now.order (C.model judge.now.callbacks.now)) trees.now all.items) }
{
    prove_models_are_sync();
    trees
        .par_iter()
        .with_min_len(1)
        .map(
            |tree: &Tree| -> Result<ItemResult, AllocError>
                requires { typed.now ≡ C.model judge.now.callbacks.now }
                ensures { IfOk result (IsAnswer judge.entry.now.order (C.model judge.entry.now.callbacks.now) tree.now) }
            { read_and_judge_tree_with_progress(judge, alloc, typed, tree, steps) },
        )
        .collect::<Result<Vec<ItemResult>, AllocError>>(rt, alloc)?
}

/// The run that a tree spells, or its first fault.
#[tactic(auto, using(crate::proofs::One::one))]
fn read_run_of_tree(
    alloc: Global,
    typed: &Typed,
    tree: &Tree,
) -> Result<Result<Run, RunFault>, AllocError>
    ensures read { IfOk result (λ read. MatchResult read
        (λ run. item_of typed.now tree.now ≡ Ok run)
        (λ fault. item_of typed.now tree.now
        ≡ Err (record { kind = fault.kind; command = fault.command }))) }
    ensures lawful { IfOk result (λ read. IfOk read (MayBeJudged typed.now)) }
{
    match read_runs(alloc, typed, slice::from_ref(tree)) {
        Ok(mut runs) => match runs.pop() {
            Some(run) => Ok(Ok(run)),
            None => Err(AllocError),
        },
        Err(fault) => {
            if fault.kind == RunFaultKind::Case(CaseFaultKind::NoMemory) {
                return Err(AllocError);
            }
            Ok(Err(fault))
        }
    }
}

/// Why a part of an input was not read and judged by itself.
#[derive(Clone, Copy, Debug, PartialEq, Eq, Drop)]
pub(crate) enum PartFault {
    /// Its bytes are no text of trees.
    NotRead,
    /// An allocation failed.
    NoMemory,
}

impl From<AllocError> for PartFault {
    fn from(_refused: AllocError) -> PartFault {
        PartFault::NoMemory
    }
}

/// Why a part is not read: the fault of its trees.
fn part_fault_of_sexpr_fault(fault: SexprFault) -> PartFault {
    if fault.kind == FaultKind::NoMemory {
        PartFault::NoMemory
    } else {
        PartFault::NotRead
    }
}

/// The trees that the bytes of a part spell.
pub(crate) fn read_trees_of_part(alloc: Global, bytes: &[u8]) -> Result<Vec<Tree>, PartFault>
    ensures { IfOk result (λ trees. Spells bytes.now trees.items) }
{
    match read(alloc, bytes) {
        Ok(trees) => Ok(trees),
        Err(fault) => Err(part_fault_of_sexpr_fault(fault)),
    }
}
