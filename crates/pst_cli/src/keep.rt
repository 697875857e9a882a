//! The lines of items, of which some may be refused: `pst judge --keep-going`.
ghost use Rattle.std.specs.Prelude.{◌≡◌, ◌+◌, ◌++◌, IfOk, MatchResult, OnOk, string_bytes};
ghost use Rattle.pst_cli.specs.KeepingOn.{HoldsAnswers, answer_line, answer_lines, answer_status, failed_answer_line, failed_answer_lines, is_good_answer, shown_answer_lines, worst_status};
ghost use Rattle.pst_cli.specs.declared.answer.Status.TheVariants.{Accepted};
ghost use Rattle.pst_typing.specs.Loading.{IsRefusal};

use crate::answer::Status;
use crate::input::{CompiledModelAndTrees, compile_model_of_input, prove_compiled_models_are_sync};
use crate::judge::{is_explained_or_valid, refused_run_line, status_of_judgement};
use crate::lines::{Shown, add_item_verdict_line};
use pst_judge::{CallOrder, Judge};
use pst_rejudge::{ItemResult, ProgressCounter, read_and_judge_each_tree};
use pst_runs::RunFault;
use pst_typing::{Refusal, trees_after_model};
use std::alloc::{AllocError, Global};
use std::thread::Threads;

/// Adds the line `NUMBER VERDICT`, or `refused run NUMBER command C KIND`, to a text.
pub(crate) fn add_item_result_line(
    alloc: Global,
    text: &mut String,
    number: usize,
    answer: &ItemResult,
) -> Result<(), AllocError>
    ensures { OnOk result (string_bytes text.new ≡ string_bytes text.old ++ answer_line number answer.now) }
{
    match answer {
        ItemResult::Judged(judged) => add_item_verdict_line(text, number, judged),
        ItemResult::Refused { kind, command } => {
            let fault = RunFault {
                run: number,
                command: *command,
                kind: *kind,
            };
            let line = refused_run_line(alloc, &fault)?;
            text.push_str(line.as_str())
        }
    }
}

/// The lines of the answers, numbered from `count + 1` on.
pub(crate) fn numbered_item_result_lines(
    alloc: Global,
    count: usize,
    answers: &[ItemResult],
) -> Result<String, AllocError>
    ensures { IfOk result (λ text. string_bytes text ≡ answer_lines (count + 1) answers.now) }
{
    let mut text = String::new(alloc);
    let mut number = count;
    for answer in answers {
        number = match number.checked_add(1) {
            Some(number) => number,
            None => return Err(AllocError),
        };
        add_item_result_line(alloc, &mut text, number, answer)?;
    }
    Ok(text)
}

/// Whether the item is explained or valid.
pub fn is_result_explained_or_valid(answer: &ItemResult) -> bool
    ensures { result ≡ is_good_answer answer.now }
{
    match answer {
        ItemResult::Judged(judged) => is_explained_or_valid(judged),
        ItemResult::Refused { .. } => false,
    }
}

/// Adds the line of an item to a text, unless it is explained or valid.
fn add_result_line_if_item_failed(
    alloc: Global,
    text: &mut String,
    number: usize,
    answer: &ItemResult,
) -> Result<(), AllocError>
    ensures { OnOk result
        (string_bytes text.new ≡ string_bytes text.old ++ failed_answer_line number answer.now) }
{
    if is_result_explained_or_valid(answer) {
        return Ok(());
    }
    add_item_result_line(alloc, text, number, answer)
}

/// The lines of the items that are neither explained nor valid, each with its number among all of them, from 1.
fn failed_item_result_lines(alloc: Global, answers: &[ItemResult]) -> Result<String, AllocError>
    ensures { IfOk result (λ text. string_bytes text ≡ failed_answer_lines 1 answers.now) }
{
    let mut text = String::new(alloc);
    for (index, answer) in answers.iter().enumerate() {
        add_result_line_if_item_failed(alloc, &mut text, index + 1, answer)?;
    }
    Ok(text)
}

/// The lines of the displayed items, numbered from 1.
pub(crate) fn shown_item_result_lines(
    alloc: Global,
    shown: Shown,
    answers: &[ItemResult],
) -> Result<String, AllocError>
    ensures { IfOk result (λ text. string_bytes text ≡ shown_answer_lines shown answers.now) }
{
    match shown {
        Shown::All => numbered_item_result_lines(alloc, 0, answers),
        Shown::Failures => failed_item_result_lines(alloc, answers),
    }
}

/// `Refused` if the item is refused, else the status of its judgement.
pub(crate) fn status_of_item_result(answer: &ItemResult) -> Status
    ensures { result ≡ answer_status answer.now }
{
    match answer {
        ItemResult::Judged(judged) => status_of_judgement(judged),
        ItemResult::Refused { .. } => Status::Refused,
    }
}

/// The worst of `so_far` and the statuses of the answers.
pub(crate) fn worst_status_after_item_results(so_far: Status, answers: &[ItemResult]) -> Status
    ensures { result ≡ worst_status so_far answers.now }
{
    let mut status = so_far;
    for answer in answers {
        status = status.or_worse(status_of_item_result(answer));
    }
    status
}

/// The worst of the statuses of all items.
pub fn worst_status_of_item_results(answers: &[ItemResult]) -> Status
    ensures { result ≡ worst_status Accepted answers.now }
{
    worst_status_after_item_results(Status::Accepted, answers)
}

/// A file, and the answer to each item after its model.
#[derive(Drop)]
pub struct FileWithItemResults {
    /// The model, and all trees of the input.
    pub file: CompiledModelAndTrees,
    /// The answers, in the order of the items.
    pub answers: Vec<ItemResult>,
}

/// Judges each item after the model at the start of the input by an order, several at once, and counts them in `steps`; or returns
/// the refusal of the model.
pub(crate) fn judge_each_item_of_input<R: Threads + Sync>(
    rt: &R,
    alloc: Global,
    input: &[u8],
    order: CallOrder,
    steps: &ProgressCounter,
) -> Result<Result<FileWithItemResults, Refusal>, AllocError>
    ensures { IfOk result (λ read. MatchResult read
        (λ answered. HoldsAnswers order input.now answered.file.compiled answered.file.trees.items answered.answers.items)
        (λ refusal. IsRefusal input.now refusal)) }
{
    let file = match compile_model_of_input(alloc, input)? {
        Ok(file) => file,
        Err(refusal) => return Ok(Err(refusal)),
    };
    let items = trees_after_model(file.trees.as_slice());
    prove_compiled_models_are_sync();
    steps.restart_with_total(items.len());
    let typed = file.compiled.typed();
    let callbacks = &file.compiled;
    let judge = Judge { callbacks, order };
    let answers = read_and_judge_each_tree(rt, &judge, alloc, typed, items, steps)?;
    Ok(Ok(FileWithItemResults { file, answers }))
}
