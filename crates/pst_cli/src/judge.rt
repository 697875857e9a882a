//! `pst judge`.
ghost use Rattle.std.specs.Prelude.{◌≡◌, false, All, IfOk, IfSome, MatchResult, Ok, Err, None, string_bytes};
ghost use Rattle.std.specs.List.{list_all};
ghost use Rattle.pst_cli.specs.Answering.{Delivers, Reaches, Stands, fault_of, memory_of, refusal_of};
ghost use Rattle.pst_cli.specs.Answers.{Answers, IsRefusalBy, shown_results};
ghost use Rattle.pst_cli.specs.Commands.{HoldsJudging, IsJudgeAnswer, IsMeant, IsMeantOf, each_answer};
ghost use Rattle.pst_cli.specs.KeepingOn.{HoldsAnswers, IsKeepingOnOutput, IsShownKeepingOn};
ghost use Rattle.pst_cli.specs.Kept.{HoldsJudged};
ghost use Rattle.pst_cli.specs.Output.{IsJudgeOutput, IsShownOutput, is_good, run_line, status_of, status_of_one};
ghost use Rattle.pst_cli.specs.Sending.{Prints};
ghost use Rattle.pst_cli.specs.declared.answer.Status.TheVariants.{Refused};
ghost use Rattle.pst_judge.specs.declared.by_order.CallOrder.TheVariants.{Any};
ghost use Rattle.pst_rejudge.specs.Parts.{joined};
ghost use Rattle.pst_runs.specs.Items.{runs_of};
ghost use Rattle.pst_runs.specs.Lawful.{AreLawful};

use crate::answer::{
    Answer, Destinations, InputRefusal, MEMORY_LINE, OutputForm, Status, deliver, memory_text,
    refusal_answer, refusal_of, send,
};
use crate::attendant::Attendant;
use crate::input::{JudgedFile, Keep, read_and_judge_file};
use crate::keep::{
    FileWithItemResults, judge_each_item_of_input, shown_item_result_lines,
    worst_status_of_item_results,
};
use crate::lines::{Shown, shown_item_verdict_lines};
use crate::objects::{refusal_object_answer, refused_item_object_answer, shown_item_json_objects};
use pst_case::{CaseFaultKind, Run};
use pst_input::InputText;
use pst_judge::{CallOrder, Judged, Verdict};
use pst_model::Typed;
use pst_rejudge::{ItemResult, ProgressCounter};
use pst_runs::{RunFault, RunFaultKind, read_runs};
use pst_sexpr::{Sink, Tree};
use pst_typing::Refusal;
use std::alloc::{AllocError, Global};
use std::thread::Threads;

/// The runs that the trees spell, or the fault of the first refused one.
pub fn read_runs_of_trees(
    alloc: Global,
    typed: &Typed,
    trees: &[Tree],
) -> Result<Result<Vec<Run>, RunFault>, AllocError>
    ensures runs { IfOk result (λ read. MatchResult read
        (λ runs. runs_of typed.now trees.now ≡ Ok runs.items)
        (λ fault. runs_of typed.now trees.now ≡ Err fault)) }
    ensures lawful { IfOk result (λ read. IfOk read (λ runs. AreLawful typed.now runs.items)) }
{
    match read_runs(alloc, typed, trees) {
        Ok(runs) => Ok(Ok(runs)),
        Err(fault) => {
            if fault.kind == RunFaultKind::Case(CaseFaultKind::NoMemory) {
                return Err(AllocError);
            }
            Ok(Err(fault))
        }
    }
}

/// Whether the item is explained or valid.
pub fn is_explained_or_valid(judged: &Judged) -> bool
    ensures { result ≡ is_good judged.now }
{
    match judged {
        Judged::Verdict(Verdict::Explained(_)) | Judged::Valid => true,
        Judged::Verdict(_) | Judged::Invalid(_) => false,
    }
}

/// `Accepted` if the item is explained or valid, else `Failed`.
pub fn status_of_judgement(judged: &Judged) -> Status
    ensures { result ≡ status_of_one judged.now }
{
    if is_explained_or_valid(judged) {
        Status::Accepted
    } else {
        Status::Failed
    }
}

fn are_all_explained_or_valid(all: &[Judged]) -> bool
    ensures { result ≡ list_all is_good all.now }
{
    all.iter().all(|judged| is_explained_or_valid(judged))
}

/// `Accepted` if all items are explained or valid, else `Failed`.
pub fn status_of_judgements(all: &[Judged]) -> Status
    ensures { result ≡ status_of all.now }
{
    if are_all_explained_or_valid(all) {
        Status::Accepted
    } else {
        Status::Failed
    }
}

/// `refused run R command C KIND`.
pub fn refused_run_line(alloc: Global, fault: &RunFault) -> Result<String, AllocError>
    ensures { IfOk result (λ line. string_bytes line ≡ run_line fault.now) }
{
    format!(in alloc; "refused run {fault}\n")
}

/// The refusal of an item.
pub(crate) fn refused_item_answer(
    alloc: Global,
    form: OutputForm,
    fault: &RunFault,
) -> Result<Answer, AllocError>
    ensures { IfOk result (IsRefusalBy (fault_of form fault.now) Refused) }
{
    let refusal = Some(InputRefusal::Item(*fault));
    match form {
        OutputForm::Text => Ok(Answer::refusal(refused_run_line(alloc, fault)?, refusal)),
        OutputForm::Json => refused_item_object_answer(alloc, fault),
    }
}

/// How `pst judge` judges items and writes their verdicts.
#[derive(Clone, Copy, Debug, PartialEq, Eq, Drop)]
pub struct JudgeOptions {
    /// Whether verdicts are lines or objects. Objects say of each refused item that it is refused.
    pub form: OutputForm,
    /// Whether a line says of each refused item that it is refused; else the first refused item refuses the input.
    pub keeps_going: bool,
    /// Which items have a line or an object.
    pub shown: Shown,
    /// Which interleavings may explain a run.
    pub order: CallOrder,
    /// Whether runs up to the first refused item are returned if the precondition of some operation is another
    /// expression than `true`. Over any other model none is worth a warning, and each thread drops the runs that it
    /// judged.
    pub keeps_runs: bool,
}

/// What was judged.
#[derive(Drop)]
pub enum Judging {
    /// All items of an input without refused ones.
    UpToRefusal(JudgedFile),
    /// Each item, refused or not.
    Each(FileWithItemResults),
}

/// An answer, and what was judged for it if the input is not refused.
type JudgeAnswer = (Answer, Option<Judging>);

/// The lines of the items after the model, and their judgements by an order; or the first refusal.
fn judge_up_to_refusal<R: Threads + Sync>(
    rt: &R,
    alloc: Global,
    input: &[u8],
    order: CallOrder,
    shown: Shown,
    keep: Keep,
    steps: &ProgressCounter,
) -> Result<JudgeAnswer, AllocError>
    ensures output { IfOk result (λ r. Answers (IsShownOutput order shown input.now) r.0) }
    ensures held { IfOk result (λ r. IfSome r.1 (HoldsJudging order input.now)) }
{
    let file = match read_and_judge_file(rt, alloc, input, order, keep, steps)? {
        Ok(file) => file,
        Err(answer) => return Ok((answer, None)),
    };
    let text = shown_item_verdict_lines(rt, alloc, shown, file.judged.as_slice())?;
    let answer = Answer {
        text: text.into_bytes(),
        status: status_of_judgements(file.judged.as_slice()),
        refuses: false,
        refusal: None,
    };
    Ok((answer, Some(Judging::UpToRefusal(file))))
}

/// The refusal of a model.
pub(crate) fn refused_model_answer(
    alloc: Global,
    form: OutputForm,
    refusal: &Refusal,
) -> Result<Answer, AllocError>
    ensures { IfOk result (IsRefusalBy (refusal_of form refusal.now) Refused) }
{
    match form {
        OutputForm::Text => refusal_answer(alloc, refusal),
        OutputForm::Json => refusal_object_answer(alloc, refusal),
    }
}

/// The lines or objects of the displayed items, numbered from 1.
fn shown_item_results(
    alloc: Global,
    form: OutputForm,
    shown: Shown,
    answers: &[ItemResult],
) -> Result<Vec<u8>, AllocError>
    ensures { IfOk result (λ text. text.items ≡ shown_results form shown answers.now) }
{
    match form {
        OutputForm::Text => Ok(shown_item_result_lines(alloc, shown, answers)?.into_bytes()),
        OutputForm::Json => shown_item_json_objects(alloc, shown, answers),
    }
}

/// The lines or objects of the items after the model, judged by an order, and all results; or the refusal of the model.
fn judge_each<R: Threads + Sync>(
    rt: &R,
    alloc: Global,
    input: &[u8],
    order: CallOrder,
    form: OutputForm,
    shown: Shown,
    steps: &ProgressCounter,
) -> Result<JudgeAnswer, AllocError>
    ensures output { IfOk result (λ r. Answers (each_answer order form shown input.now) r.0) }
    ensures held { IfOk result (λ r. IfSome r.1 (HoldsJudging order input.now)) }
{
    let answered = match judge_each_item_of_input(rt, alloc, input, order, steps)? {
        Ok(answered) => answered,
        Err(refusal) => return Ok((refused_model_answer(alloc, form, &refusal)?, None)),
    };
    let answers = answered.answers.as_slice();
    let answer = Answer {
        text: shown_item_results(alloc, form, shown, answers)?,
        status: worst_status_of_item_results(answers),
        refuses: false,
        refusal: None,
    };
    Ok((answer, Some(Judging::Each(answered))))
}

/// What `pst judge` writes, and what was judged if the input was not refused.
fn judge_answer<R: Threads + Sync>(
    rt: &R,
    alloc: Global,
    input: &[u8],
    options: JudgeOptions,
    steps: &ProgressCounter,
) -> Result<JudgeAnswer, AllocError>
    ensures output { IfOk result (λ r. Answers (IsJudgeAnswer options input.now) r.0) }
    ensures held { IfOk result (λ r. IfSome r.1 (HoldsJudging options.order input.now)) }
{
    let order = options.order;
    let shown = options.shown;
    match options.form {
        OutputForm::Json => judge_each(rt, alloc, input, order, OutputForm::Json, shown, steps),
        OutputForm::Text => {
            if options.keeps_going {
                return judge_each(rt, alloc, input, order, OutputForm::Text, shown, steps);
            }
            let keep = Keep::for_warnings(options.keeps_runs);
            judge_up_to_refusal(rt, alloc, input, order, shown, keep, steps)
        }
    }
}

/// The answer by itself, and what was judged.
fn split_judging(
    judged: Result<JudgeAnswer, AllocError>,
) -> (Result<Answer, AllocError>, Option<Judging>)
    ensures { MatchResult judged (λ j. (result.0 ≡ Ok j.0) × (result.1 ≡ j.1))
        (λ e. (result.0 ≡ Err e) × (result.1 ≡ None)) }
{
    match judged {
        Ok((answer, judging)) => (Ok(answer), judging),
        Err(AllocError) => (Err(AllocError), None),
    }
}

/// Judges the items after the model at the start of the input by the order of the options, several at once, and returns
/// the status, and what was judged unless the input is refused or an allocation fails.
///
/// As text without `keeps_going`, writes what [`judge_text`] does; with it, what [`judge_text_keep_going`] does. As
/// JSON, writes a line with an object for each item, in their order: its number and its verdict, or why it is refused;
/// if the input is no file of trees, or the model is refused, the object of that refusal alone; if an allocation fails,
/// [`MEMORY_OBJECT`](crate::MEMORY_OBJECT) alone. With [`Shown::Failures`] leaves out the items that are explained or
/// valid, with the same status. Writes nothing before all items are judged.
pub fn judge_items<F: Sink, W: Sink, R: Threads + Sync, A: Attendant>(
    rt: &R,
    alloc: Global,
    input: &InputText<'_>,
    options: JudgeOptions,
    attendant: &mut A,
    to: &mut Destinations<F, W>,
) -> (Status, Option<Judging>)
    requires stands { Stands F.broken W.broken to.old }
    ensures prints { Reaches (memory_of options.form) (IsMeant (IsJudgeAnswer options) input.now)
        (Delivers F.taken F.broken W.taken W.broken to.old to.new result.0) }
    ensures held { IfSome result.1 (IsMeantOf (HoldsJudging options.order) input.now) }
{
    let judged = judge_answer(rt, alloc, input.plain(), options, attendant.steps());
    let (answer, judging) = split_judging(judged);
    attendant.before_output(refusal_of(&answer));
    (deliver(&answer, memory_text(options.form), to), judging)
}

/// Judges the items after the model at the start of the input, several at once, and returns the status. Writes a line
/// `NUMBER VERDICT` for each, from 1, in the order of the items, or the first refusal alone. Writes nothing before all
/// items are judged. If an allocation fails, writes `refused memory` alone.
pub fn judge_text<W: Sink, R: Threads + Sync>(
    rt: &R,
    alloc: Global,
    input: &[u8],
    sink: &mut W,
) -> Status
    requires { W.broken sink.old ≡ false }
    ensures { Prints (IsJudgeOutput input.now)
        (W.taken sink.old) (W.taken sink.new) (W.broken sink.new) result }
{
    let order = CallOrder::Any;
    let steps = ProgressCounter::new();
    let judged = judge_up_to_refusal(rt, alloc, input, order, Shown::All, Keep::Nothing, &steps);
    let (answer, _) = split_judging(judged);
    send(&answer, MEMORY_LINE, sink)
}

/// Does what [`judge_text`] does, but with [`Shown::Failures`] writes only the lines of items that are neither
/// explained nor valid, with the same status. Returns the judgements if all items were judged, and with them the items
/// if the precondition of some operation is another expression than `true`.
pub fn judge_file<W: Sink, R: Threads + Sync>(
    rt: &R,
    alloc: Global,
    input: &[u8],
    shown: Shown,
    sink: &mut W,
) -> (Status, Option<JudgedFile>)
    requires { W.broken sink.old ≡ false }
    ensures prints { Prints (IsShownOutput Any shown input.now)
        (W.taken sink.old) (W.taken sink.new) (W.broken sink.new) result.0 }
    ensures held { IfSome result.1 (λ file. HoldsJudged Any false input.now file.compiled
        (joined file.runs.items) file.judged.items) }
    ensures lawful { IfSome result.1
        (λ judged. All (λ runs. AreLawful judged.compiled runs.items) judged.runs.items) }
{
    let order = CallOrder::Any;
    let steps = ProgressCounter::new();
    let judged = judge_up_to_refusal(rt, alloc, input, order, shown, Keep::ForWarnings, &steps);
    let (answer, judging) = split_judging(judged);
    let status = send(&answer, MEMORY_LINE, sink);
    match judging {
        Some(Judging::UpToRefusal(file)) => (status, Some(file)),
        _ => (status, None),
    }
}

/// Judges each item after the model at the start of the input, several at once, even if other items are refused. Writes
/// a line for each, in their order, and returns the status: `NUMBER VERDICT`, or `refused run NUMBER command C KIND` if
/// the item is refused. If the input is no file of trees, or the model is refused, writes that refusal alone. Writes
/// nothing before all items are judged. If an allocation fails, writes `refused memory` alone.
///
/// The status is `Refused` if an item is refused, else `Failed` if one is not explained or not valid, else `Accepted`;
/// `Refused` if the model is refused; `Lost` if an allocation or the writer failed. If no item is refused, the lines
/// and the status are those of `judge_text`.
pub fn judge_text_keep_going<W: Sink, R: Threads + Sync>(
    rt: &R,
    alloc: Global,
    input: &[u8],
    sink: &mut W,
) -> Status
    requires { W.broken sink.old ≡ false }
    ensures { Prints (IsKeepingOnOutput input.now)
        (W.taken sink.old) (W.taken sink.new) (W.broken sink.new) result }
{
    let (status, _) = judge_file_keep_going(rt, alloc, input, Shown::All, sink);
    status
}

/// Does what [`judge_text_keep_going`] does, but with [`Shown::Failures`] writes only the lines of items that are
/// refused, or neither explained nor valid, with the same status. Returns the answers if the items were judged.
pub fn judge_file_keep_going<W: Sink, R: Threads + Sync>(
    rt: &R,
    alloc: Global,
    input: &[u8],
    shown: Shown,
    sink: &mut W,
) -> (Status, Option<FileWithItemResults>)
    requires { W.broken sink.old ≡ false }
    ensures prints { Prints (IsShownKeepingOn Any shown input.now)
        (W.taken sink.old) (W.taken sink.new) (W.broken sink.new) result.0 }
    ensures held { IfSome result.1 (λ answered. HoldsAnswers Any input.now answered.file.compiled
        answered.file.trees.items answered.answers.items) }
{
    let order = CallOrder::Any;
    let steps = ProgressCounter::new();
    let judged = judge_each(rt, alloc, input, order, OutputForm::Text, shown, &steps);
    let (answer, judging) = split_judging(judged);
    let status = send(&answer, MEMORY_LINE, sink);
    match judging {
        Some(Judging::Each(answered)) => (status, Some(answered)),
        _ => (status, None),
    }
}
