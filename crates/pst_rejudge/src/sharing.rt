//! What threads may share and send. These functions do nothing: their contracts say it of types.
ghost use Rattle.std.specs.Thread.{IsSend, IsSync};
ghost use Rattle.pst_case.specs.contracts.history.Run.{the_row as run_row};
ghost use Rattle.pst_model.specs.contracts.model.Typed.{the_row as typed_row};
ghost use Rattle.pst_rejudge.specs.contracts.parts.AnsweredPart.{the_row as part_row};

use crate::parts::{AnsweredItems, AnsweredPart};
use crate::reading::ItemResult;
use pst_case::{Case, Command, Run};
use pst_judge::Judged;
use pst_model::Typed;
use pst_value::Value;

/// What is `Sync` may be shared by threads.
fn prove_sync<T: Sync>()
    ensures { IsSync T.row }
{}

/// What is `Send` may be sent to a thread.
fn prove_send<T: Send>()
    ensures { IsSend T.row }
{}

/// Items may be shared by threads, since their parts may be.
pub(crate) fn prove_runs_are_sync()
    ensures { IsSync run_row }
{
    prove_sync::<Value>();
    prove_sync::<Command>();
    prove_sync::<Case>();
    prove_sync::<Run>()
}

/// Well-typed models may be shared by threads.
pub fn prove_models_are_sync()
    ensures { IsSync typed_row }
{
    prove_sync::<Typed>()
}

/// Parts whose items are answered may be sent to threads.
pub(crate) fn prove_answered_parts_are_send()
    ensures { IsSend part_row }
{
    prove_send::<Run>();
    prove_send::<Judged>();
    prove_send::<ItemResult>();
    prove_send::<AnsweredItems>();
    prove_send::<AnsweredPart>()
}
