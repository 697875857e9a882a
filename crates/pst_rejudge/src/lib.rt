//! Judges many items at once, by as many threads as there are processors: items that were read, those that an
//! input spells, each tree by itself, or the lines of a stream as they come; and spells verdicts and refusals as
//! JSON, objects on one line each. `AllocError` means that an allocation of any thread failed.
#![tactic(auto)]

ghost use Rattle.std.specs.Prelude.{◌≡◌, All, IfOk};
ghost use Rattle.std.specs.List.{AllZip};
ghost use Rattle.pst_judge.specs.Judgement.{IsJudgementBy};
ghost use Rattle.pst_rejudge.specs.Judging.{MayBeJudged};

mod field;
mod item_results;
mod laws;
mod parts;
mod plain;
mod reading;
mod sharing;
mod steps;
mod stream_judging;
mod stream_reading;
mod verdict_fields;

use crate::sharing::prove_runs_are_sync;
pub use field::{Field, FieldName, add_number_field, add_text_field, json_object_line};
pub use item_results::{first_refused_item, judgements_of_items};
pub use laws::stream_lines_are_judged_as_items;
pub use parts::{AnsweredParts, read_and_judge_in_parts, split_before_second_bracket_line};
pub use plain::rejudge;
use pst_case::Run;
use pst_eval::Callbacks;
use pst_judge::{Judge, Judged};
use rayon::prelude::*;
pub use reading::{ItemResult, read_and_judge_each_tree, read_and_judge_tree};
pub use sharing::prove_models_are_sync;
use std::alloc::{AllocError, Global};
use std::thread::Threads;
pub use steps::ProgressCounter;
pub use stream_reading::{
    Block, BlockSource, ReaderBlocks, StreamFault, Unread, read_once_and_judge_ended_lines,
};
pub use verdict_fields::{
    accepted_model_fields, judged_item_fields, refused_item_fields, refused_model_fields,
};

/// Judges an item, and counts it in `steps`.
fn judge_run_with_progress<C: Callbacks>(
    judge: &Judge<'_, C>,
    alloc: Global,
    run: &Run,
    steps: &ProgressCounter,
) -> Result<Judged, AllocError>
    requires { MayBeJudged (C.model judge.now.callbacks.now) run.now }
    ensures { IfOk result (IsJudgementBy judge.now.order (C.model judge.now.callbacks.now) run.now) }
{
    let judged = judge.judge_one(alloc, run)?;
    steps.add(1);
    Ok(judged)
}

/// Returns the judgement of each item, in the order of the items: what `judge` gives of it. Several threads judge
/// the items at once, and count them in `steps`.
pub fn rejudge_with_progress<C: Callbacks + Sync, R: Threads + Sync>(
    rt: &R,
    judge: &Judge<'_, C>,
    alloc: Global,
    runs: &[Run],
    steps: &ProgressCounter,
) -> Result<Vec<Judged>, AllocError>
    requires { All (MayBeJudged (C.model judge.now.callbacks.now)) runs.now }
    ensures { IfOk result (λ all. AllZip (IsJudgementBy judge.now.order (C.model judge.now.callbacks.now)) runs.now all.items) }
{
    prove_runs_are_sync();
    runs.par_iter()
        .with_min_len(1)
        .map(
            |run: &Run| -> Result<Judged, AllocError>
                requires { MayBeJudged (C.model judge.now.callbacks.now) run.now }
                ensures { IfOk result (IsJudgementBy judge.entry.now.order (C.model judge.entry.now.callbacks.now) run.now) }
            { judge_run_with_progress(judge, alloc, run, steps) },
        )
        .collect::<Result<Vec<Judged>, AllocError>>(rt, alloc)?
}
