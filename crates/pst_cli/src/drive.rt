//! `pst run` in its forms.
ghost use Rattle.std.specs.Prelude.{◌≡◌, false, IfOk};
ghost use Rattle.std.specs.List.{AllZip};
ghost use Rattle.pst_cli.specs.Answering.{Delivers, Reaches, Stands, memory_of};
ghost use Rattle.pst_cli.specs.Answers.{Answers};
ghost use Rattle.pst_cli.specs.Commands.{IsDriveAnswer};
ghost use Rattle.pst_cli.specs.DrivenItems.{IsDrivenItem};
ghost use Rattle.pst_cli.specs.RunOutput.{IsRunOutput};
ghost use Rattle.pst_cli.specs.Sending.{Prints};
ghost use Rattle.pst_runs.specs.Lawful.{AreLawful};
ghost use Rattle.pst_system.specs.Kept.{AreKept};

use crate::answer::{
    Answer, Destinations, MEMORY_LINE, Output, OutputForm, Status, deliver, memory_text,
    refusal_of, send,
};
use crate::attendant::Attendant;
use crate::counts::ItemResultCounts;
use crate::driven_item::{DrivenItem, drive_item};
use crate::input::{ModelAndRuns, read_model_and_runs_in_form};
use crate::item_output::output_of_items;
use pst_case::Run;
use pst_compile::Compiled;
use pst_judge::{CallOrder, Judge};
use pst_rejudge::ProgressCounter;
use pst_sexpr::Sink;
use pst_system::{BoxedSystem, System};
use std::alloc::{AllocError, Global};
use std::sync::Wait;
use std::thread::Threads;

/// How `pst run` drives cases and writes what became of them.
#[derive(Clone, Copy, Debug, PartialEq, Eq, Drop)]
pub struct DriveOptions {
    /// Whether reports are lines or objects.
    pub form: OutputForm,
    /// How often each case is driven. `None` and 0: once, without a count of drives.
    pub repeats: Option<u32>,
    /// Which interleavings may explain a run. With `CallOrder::Time` the times of its calls are recorded.
    pub order: CallOrder,
}

/// What became of each item. `steps` counts the items that are driven.
fn drive_each_item<R: Threads + Wait>(
    rt: &R,
    alloc: Global,
    judge: &Judge<'_, Compiled>,
    system: &mut BoxedSystem,
    runs: &[Run],
    repeats: Option<u32>,
    steps: &ProgressCounter,
) -> Result<Vec<DrivenItem>, AllocError>
    requires { AreLawful judge.now.callbacks.now runs.now }
    ensures driven { IfOk result (λ items.
        AllZip (IsDrivenItem judge.now.order judge.now.callbacks.now
        (answers system.old) (fails system.old) (reset_fails system.old) repeats) runs.now items.items) }
    ensures kept { AreKept (answers system.new) (answers system.old) (fails system.new) (fails system.old)
        (reset_fails system.new) (reset_fails system.old) }
{
    let mut items = Vec::new(alloc);
    steps.restart_with_total(runs.len());
    for run in runs {
        let item = drive_item(rt, alloc, judge, system, run, repeats)?;
        items.push(item)?;
        steps.add(1);
    }
    Ok(items)
}

/// What `pst run` writes. Counts the items if it is no refusal.
fn drive_answer<R: Threads + Wait>(
    rt: &R,
    alloc: Global,
    input: &[u8],
    system: &mut BoxedSystem,
    options: DriveOptions,
    counts: &mut ItemResultCounts,
    steps: &ProgressCounter,
) -> Result<Answer, AllocError>
    ensures output { IfOk result (Answers
        (IsDriveAnswer options (answers system.old) (fails system.old) (reset_fails system.old) input.now)) }
    ensures kept { AreKept (answers system.new) (answers system.old) (fails system.new) (fails system.old)
        (reset_fails system.new) (reset_fails system.old) }
{
    let form = options.form;
    let ModelAndRuns { compiled, runs } = match read_model_and_runs_in_form(alloc, form, input)? {
        Ok(read) => read,
        Err(answer) => return Ok(answer),
    };
    let runs = runs.as_slice();
    let callbacks = &compiled;
    let order = options.order;
    let judge = Judge { callbacks, order };
    let items = drive_each_item(rt, alloc, &judge, system, runs, options.repeats, steps)?;
    let written = output_of_items(alloc, compiled.typed(), form, items.as_slice())?;
    counts.add_driven_items(items);
    let Output { text, status } = written;
    Ok(Answer {
        text,
        status,
        refuses: false,
        refusal: None,
    })
}

/// Drives the case of each item after the model at the start of the input on the system, once or as often as the options
/// say, and returns the status. Judges the runs by the order of the options, and with `CallOrder::Time` records the times of
/// their calls. Ignores the replies in the input. As text and once, writes what `run_text` does. If a case
/// is driven several times, writes the run of the first drive that is not explained, or else of the last drive, the line
/// of its verdict, and a line `NUMBER drives N failed K`; if a drive is lost, a line `NUMBER lost KIND` alone, and the
/// case is driven no more. As JSON writes an object for each item, on a line: its verdict, as
/// `pst judge` writes it, and its run as a tree; or why its case is not valid; or that it was lost, and why; and the
/// number of drives and of those that failed. Refusals and the status are those of `run_text`; as JSON a refusal is one object.
///
/// Adds the result of each reported item to `counts`, each item once, and counts the items that are driven in the steps
/// of the attendant. If an allocation outside the driver fails, adds nothing.
pub fn drive_items<F: Sink, W: Sink, R: Threads + Wait, A: Attendant>(
    rt: &R,
    alloc: Global,
    input: &[u8],
    system: &mut BoxedSystem,
    options: DriveOptions,
    counts: &mut ItemResultCounts,
    attendant: &mut A,
    to: &mut Destinations<F, W>,
) -> Status
    requires stands { Stands F.broken W.broken to.old }
    ensures prints { Reaches (memory_of options.form)
        (IsDriveAnswer options (answers system.old) (fails system.old) (reset_fails system.old) input.now)
        (Delivers F.taken F.broken W.taken W.broken to.old to.new result) }
    ensures kept { AreKept (answers system.new) (answers system.old) (fails system.new) (fails system.old)
        (reset_fails system.new) (reset_fails system.old) }
{
    let answer = drive_answer(rt, alloc, input, system, options, counts, attendant.steps());
    attendant.before_output(refusal_of(&answer));
    deliver(&answer, memory_text(options.form), to)
}

/// Drives the case of each item after the model at the start of the input once on the system, and returns the status.
/// Ignores the replies in the input. For each item, from 1, writes the run as one tree and a line `NUMBER VERDICT`; for
/// a case that is not valid, a line with the reason alone; for one that could not be driven, a line `NUMBER lost KIND`.
/// If the input is refused, writes its first refusal alone; if an allocation outside the driver fails, `refused memory`
/// alone.
///
/// The status is `Lost` if an item was lost, else `Failed` if one is not explained or not valid, else `Accepted`;
/// `Refused` if the input is refused; `Lost` if an allocation or the writer failed. The relations of the system stay
/// the same.
pub fn run_text<W: Sink, R: Threads + Wait>(
    rt: &R,
    alloc: Global,
    input: &[u8],
    system: &mut BoxedSystem,
    sink: &mut W,
) -> Status
    requires { W.broken sink.old ≡ false }
    ensures prints { Prints
        (IsRunOutput (answers system.old) (fails system.old) (reset_fails system.old) input.now)
        (W.taken sink.old) (W.taken sink.new) (W.broken sink.new) result }
    ensures kept { AreKept (answers system.new) (answers system.old) (fails system.new) (fails system.old)
        (reset_fails system.new) (reset_fails system.old) }
{
    let mut counts = ItemResultCounts::new();
    let steps = ProgressCounter::new();
    let options = DriveOptions {
        form: OutputForm::Text,
        repeats: None,
        order: CallOrder::Any,
    };
    let answer = drive_answer(rt, alloc, input, system, options, &mut counts, &steps);
    send(&answer, MEMORY_LINE, sink)
}
