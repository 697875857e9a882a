//! Judging items as [`pst_judge::judge_one`] does, whatever times they have, by several threads.
ghost use Rattle.std.specs.Prelude.{◌≡◌, All, IfOk};
ghost use Rattle.std.specs.List.{AllZip};
ghost use Rattle.pst_judge.specs.Judgement.{IsJudgement};
ghost use Rattle.pst_rejudge.specs.Judging.{MayBeJudged};

use crate::sharing::prove_runs_are_sync;
use pst_case::Run;
use pst_eval::Callbacks;
use pst_judge::{Judged, judge_one};
use rayon::prelude::*;
use std::alloc::{AllocError, Global};
use std::thread::Threads;

/// Returns the judgement of each item, in the order of the items: what `judge_one` gives of it. Several threads
/// judge the items at once.
pub fn rejudge<C: Callbacks + Sync, R: Threads + Sync>(
    rt: &R,
    callbacks: &C,
    alloc: Global,
    runs: &[Run],
) -> Result<Vec<Judged>, AllocError>
    requires { All (MayBeJudged (C.model callbacks.now)) runs.now }
    ensures { IfOk result (λ all. AllZip (IsJudgement (C.model callbacks.now)) runs.now all.items) }
{
    prove_runs_are_sync();
    runs.par_iter()
        .with_min_len(1)
        .map(
            |run: &Run| -> Result<Judged, AllocError>
                requires { MayBeJudged (C.model callbacks.now) run.now }
                ensures { IfOk result (IsJudgement (C.model callbacks.entry.now) run.now) }
            { judge_one(callbacks, alloc, run) },
        )
        .collect::<Result<Vec<Judged>, AllocError>>(rt, alloc)?
}
