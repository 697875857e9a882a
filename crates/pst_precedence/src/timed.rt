//! Runs with recorded times.
ghost use Rattle.std.specs.Prelude.{◌≡◌, ◌++◌, IfOk};
ghost use Rattle.std.specs.List.{All};
ghost use Rattle.pst_judge.specs.RealTime.{real_time};
ghost use Rattle.pst_precedence.specs.Deleting as spec;
ghost use Rattle.pst_precedence.specs.Deleting.{IsTimedRun, IsWhetherExplained};
ghost use Rattle.pst_precedence.specs.Precedences.{IsRecorded, keeping};

use crate::keeping::Keeping;
use crate::precedence::Precedence;
use pst_case::{CallTime, History, Shaped};
use pst_eval::Callbacks;
use pst_judge::{CallOrder, RecordedOrder, Verdict, verdict_in_order};
use pst_value::Items;
use std::alloc::{AllocError, Global};

/// A run of a case with recorded times, and the callbacks of its model.
#[derive(Drop)]
pub(crate) struct TimedRun<'a, C> {
    pub callbacks: &'a C,
    pub alloc: Global,
    pub shaped: &'a Shaped,
    pub history: &'a History,
    pub times: &'a [Items<CallTime>],
}

/// Whether the verdict is that an interleaving explains the run.
pub(crate) fn is_explained(verdict: &Verdict) -> bool
    ensures { result ≡ spec.is_explained verdict.now }
{
    match verdict {
        Verdict::Explained(_) => true,
        Verdict::Faulted(_) | Verdict::Unexplained(_) | Verdict::Broken(_) => false,
    }
}

/// Whether some interleaving that keeps the precedences `first` and `rest` explains the run.
pub(crate) fn is_explained_keeping<C: Callbacks>(
    run: &TimedRun<'_, C>,
    first: &[Precedence],
    rest: &[Precedence],
) -> Result<bool, AllocError>
    requires run { let r = run.now in
        IsTimedRun (C.model r.callbacks.now) r.shaped.now r.history.now r.times.now }
    requires recorded { All (IsRecorded run.now.times.now) (first.now ++ rest.now) }
    ensures { let r = run.now in IfOk result (IsWhetherExplained (C.model r.callbacks.now)
        (keeping (first.now ++ rest.now)) r.shaped.now.case r.history.now) }
{
    let kept = Keeping { first, rest };
    let verdict = verdict_in_order(run.callbacks, &kept, run.alloc, run.shaped, run.history)?;
    Ok(is_explained(&verdict))
}

/// Whether some interleaving in the order of time explains the run.
pub(crate) fn is_explained_in_time<C: Callbacks>(run: &TimedRun<'_, C>) -> Result<bool, AllocError>
    requires { let r = run.now in IsTimedRun (C.model r.callbacks.now) r.shaped.now r.history.now r.times.now }
    ensures { let r = run.now in IfOk result (IsWhetherExplained (C.model r.callbacks.now)
        (real_time r.times.now) r.shaped.now.case r.history.now) }
{
    let recorded = RecordedOrder::new(run.alloc, CallOrder::Time, run.shaped, run.history)?;
    let verdict = verdict_in_order(run.callbacks, &recorded, run.alloc, run.shaped, run.history)?;
    Ok(is_explained(&verdict))
}
