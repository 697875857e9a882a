//! What threads may send and share. These functions do nothing: their contracts say it of the types of plans and
//! records, each by those of its parts.
ghost use Rattle.std.specs.Thread.{IsSend, IsSync};
ghost use Rattle.std.specs.contracts.option.Option.{the_row as option_row};
ghost use Rattle.pst_case.specs.contracts.case.Case.{the_row as case_row};
ghost use Rattle.pst_eval.specs.contracts.callbacks.FaultPlace.{the_row as place_row};
ghost use Rattle.pst_model.specs.contracts.model.Typed.{the_row as typed_row};
ghost use Rattle.pst_value.specs.contracts.items.Items.{the_row as items_row};
ghost use Rattle.pst_shrink.specs.contracts.shrinking.Shrunk.{the_row as shrunk_row};
ghost use Rattle.pst_shrink.specs.contracts.shrinking.FailingCase.{the_row as taken_row};
ghost use Rattle.pst_trial.specs.contracts.record.JudgedRun.{the_row as run_row};
ghost use Rattle.pst_trial.specs.contracts.record.TrialOutcome.{the_row as outcome_row};
ghost use Rattle.pst_trial.specs.contracts.plan.Plan.{the_row as plan_row};
ghost use Rattle.pst_trial.specs.contracts.record.Record.{the_row as record_row};

use crate::plan::{Plan, Settings};
use crate::record::JudgedRun;
use pst_case::Case;
use pst_compile::Compiled;
use pst_eval::FaultPlace;
use pst_judge::CallOrder;
use pst_machine::Code;
use pst_model::{Source, Typed};
use pst_shrink::FailingCase;
use pst_value::Items;

/// What is `Send` may be sent to a thread.
fn prove_send<T: Send>()
    ensures { IsSend T.row }
{}

/// What is `Sync` may be shared by threads.
fn prove_sync<T: Sync>()
    ensures { IsSync T.row }
{}

/// Models may be sent to threads, and shared by them.
fn prove_models_are_send_and_sync()
    ensures sent { IsSend typed_row }
    ensures shared { IsSync typed_row }
{
    prove_send::<Source>();
    prove_sync::<Source>();
    prove_send::<Typed>();
    prove_sync::<Typed>()
}

/// Plans may be sent to threads, and shared by them.
fn prove_plans_are_send_and_sync()
    ensures sent { IsSend plan_row }
    ensures shared { IsSync plan_row }
{
    prove_models_are_send_and_sync();
    prove_send::<Code>();
    prove_sync::<Code>();
    prove_send::<Compiled>();
    prove_sync::<Compiled>();
    prove_send::<CallOrder>();
    prove_sync::<CallOrder>();
    prove_send::<Settings>();
    prove_sync::<Settings>();
    prove_send::<Plan>();
    prove_sync::<Plan>()
}

/// The parts of what came of shrinking may be sent to threads, and shared by them.
fn prove_failing_cases_are_send_and_sync()
    ensures taken_sent { IsSend (taken_row run_row) }
    ensures taken_shared { IsSync (taken_row run_row) }
    ensures all_taken_sent { IsSend (items_row (taken_row run_row)) }
    ensures all_taken_shared { IsSync (items_row (taken_row run_row)) }
    ensures tried_sent { IsSend (items_row (option_row (items_row run_row))) }
    ensures tried_shared { IsSync (items_row (option_row (items_row run_row))) }
{
    prove_send::<FailingCase<JudgedRun>>();
    prove_sync::<FailingCase<JudgedRun>>();
    prove_send::<Items<FailingCase<JudgedRun>>>();
    prove_sync::<Items<FailingCase<JudgedRun>>>();
    prove_send::<Items<Option<Items<JudgedRun>>>>();
    prove_sync::<Items<Option<Items<JudgedRun>>>>()
}

/// What came of shrinking may be sent to threads, and shared by them.
fn prove_shrunk_is_send_and_sync()
    ensures sent { IsSend (shrunk_row run_row) }
    ensures shared { IsSync (shrunk_row run_row) }
{
    prove_failing_cases_are_send_and_sync()
}

/// The parts of outcomes may be sent to threads, and shared by them.
fn prove_outcome_parts_are_send_and_sync()
    ensures place_sent { IsSend place_row }
    ensures place_shared { IsSync place_row }
    ensures case_sent { IsSend case_row }
    ensures case_shared { IsSync case_row }
    ensures runs_sent { IsSend (items_row run_row) }
    ensures runs_shared { IsSync (items_row run_row) }
    ensures shrunk_sent { IsSend (shrunk_row run_row) }
    ensures shrunk_shared { IsSync (shrunk_row run_row) }
{
    prove_send::<FaultPlace>();
    prove_sync::<FaultPlace>();
    prove_send::<Case>();
    prove_sync::<Case>();
    prove_send::<Items<JudgedRun>>();
    prove_sync::<Items<JudgedRun>>();
    prove_shrunk_is_send_and_sync()
}

/// Outcomes of trials may be sent to threads, and shared by them.
fn prove_outcomes_are_send_and_sync()
    ensures sent { IsSend outcome_row }
    ensures shared { IsSync outcome_row }
{
    prove_outcome_parts_are_send_and_sync()
}

/// A law: records may be sent to threads, and shared by them, and so may plans. The function does nothing.
pub fn prove_records_are_send_and_sync()
    ensures plan_sent { IsSend plan_row }
    ensures plan_shared { IsSync plan_row }
    ensures sent { IsSend record_row }
    ensures shared { IsSync record_row }
{
    prove_plans_are_send_and_sync();
    prove_outcomes_are_send_and_sync()
}
