//! `pst explain`: which items it explains, and what it writes for them or for an item that does not exist.
ghost use Rattle.std.specs.Prelude.{◌≡◌, false, IfOk, IsTrue, ◌↔◌, string_bytes};
ghost use Rattle.pst_cli.specs.Commands.{IsMeant};
ghost use Rattle.pst_cli.specs.ExplainOutput.{IsExplainOutput, IsExplanation};
ghost use Rattle.pst_cli.specs.Output.{AreJudged};
ghost use Rattle.pst_cli.specs.Answering.{Delivers, Reaches, Stands};
ghost use Rattle.pst_cli.specs.Answers.{Answers, IsRefusalBy};
ghost use Rattle.pst_cli.specs.Sending.{Prints, memory_line};
ghost use Rattle.pst_judge.specs.Judgement.{IsJudgementBy};
ghost use Rattle.pst_runs.specs.Lawful.{AreLawful, IsLawful};
ghost use Rattle.pst_cli.specs.ChosenItem.{IsItem, no_item_line};
ghost use Rattle.pst_cli.specs.declared.answer.Status.TheVariants.{Refused};

use crate::answer::{Answer, Destinations, MEMORY_LINE, Status, deliver, refusal_of, send};
use crate::attendant::Attendant;
use crate::form::ExplanationForm;
use crate::input::{JudgedFile, Keep, concatenate_run_lists, read_and_judge_file};
use crate::judge::{is_explained_or_valid, status_of_judgements};
use pst_case::Run;
use pst_compile::Compiled;
use pst_explain::{TreePlace, explain_item, graphviz_text_of_item_search, tree_places_in_input};
use pst_input::InputText;
use pst_judge::{CallOrder, Judge, Judged};
use pst_rejudge::ProgressCounter;
use pst_sexpr::Sink;
use pst_sources::SourceFile;
use std::alloc::{AllocError, Global};
use std::thread::Threads;

/// What to explain of an input, and in which form.
#[derive(Clone, Copy, Drop)]
pub struct ExplainOptions<'a> {
    /// The files of the input; none if it is one text.
    pub files: &'a [SourceFile<'a>],
    /// Which items to explain.
    pub chosen: ChosenItems,
    /// How many of the chosen items to explain, at most: the first ones.
    pub most: usize,
    /// The form of the explanations.
    pub form: ExplanationForm,
    /// Which interleavings may explain a run.
    pub order: CallOrder,
}

/// `text` and after it the explanation of an item in a form. `number` is its number, and `place` where it begins. The item
/// and its judgement are parameters of their own, since the contract names each.
fn append_explanation_or_graph_of_item(
    mut text: Vec<u8>,
    alloc: Global,
    judge: &Judge<'_, Compiled>,
    form: ExplanationForm,
    run: &Run,
    judged: &Judged,
    number: usize,
    place: Option<TreePlace<'_>>,
) -> Result<Vec<u8>, AllocError>
    requires lawful { IsLawful judge.now.callbacks.now run.now }
    requires judged { IsJudgementBy judge.now.order judge.now.callbacks.now run.now judged.now }
{
    let compiled = judge.callbacks;
    let order = judge.order;
    let typed = compiled.typed();
    if let ExplanationForm::Dot { is_whole } = form {
        let graph = graphviz_text_of_item_search(
            compiled, order, alloc, typed, run, judged, number, is_whole,
        )?;
        text.extend_from_slice(graph.as_slice())?;
        return Ok(text);
    }
    let explanation = explain_item(compiled, order, alloc, typed, run, judged, number, place)?;
    let appended = form.append_explanation_unless_graph(text, alloc, &explanation);
    drop(explanation);
    appended
}

/// How many of the judged items are explained.
fn count_items_to_explain(asked: ExplainOptions<'_>, all: &[Judged]) -> usize {
    let mut count = 0usize;
    for (index, judged) in all.iter().enumerate() {
        if asked.chosen.includes(index + 1, judged) {
            count = count.saturating_add(1);
        }
    }
    count.min(asked.most)
}

/// The explanations of the chosen items, numbered from 1. `places` says where the items begin.
fn document_explaining_chosen_items(
    alloc: Global,
    judge: &Judge<'_, Compiled>,
    asked: ExplainOptions<'_>,
    places: &[TreePlace<'_>],
    runs: &[Run],
    all: &[Judged],
    steps: &ProgressCounter,
) -> Result<Vec<u8>, AllocError>
    requires lawful { AreLawful judge.now.callbacks.now runs.now }
    requires judged { AreJudged judge.now.order judge.now.callbacks.now runs.now all.now }
{
    let typed = judge.callbacks.typed();
    let form = asked.form;
    steps.restart_with_total(count_items_to_explain(asked, all));
    let mut text = form.text_before_items(alloc, asked.files, typed.source())?;
    let mut number: usize = 0;
    let mut count: usize = 0;
    let mut rest = runs;
    let mut left = all;
    while let Some((run, later)) = rest.split_first() {
        let Some((judged, others)) = left.split_first() else {
            return Ok(text);
        };
        let place = places.get(number).copied();
        number = number.saturating_add(1);
        if count < asked.most && asked.chosen.includes(number, judged) {
            if count > 0 {
                text.extend_from_slice(form.separator_of_explanations().as_bytes())?;
            }
            text = append_explanation_or_graph_of_item(
                text, alloc, judge, form, run, judged, number, place,
            )?;
            count = count.saturating_add(1);
            steps.add(1);
        }
        rest = later;
        left = others;
    }
    form.add_text_after_items(&mut text, count)?;
    Ok(text)
}

/// The explanations of the chosen items, or the refusal of an item that does not exist.
fn explanations_answer(
    alloc: Global,
    judge: &Judge<'_, Compiled>,
    asked: ExplainOptions<'_>,
    places: &[TreePlace<'_>],
    runs: &[Run],
    all: &[Judged],
    steps: &ProgressCounter,
) -> Result<Answer, AllocError>
    requires lawful { AreLawful judge.now.callbacks.now runs.now }
    requires judged { AreJudged judge.now.order judge.now.callbacks.now runs.now all.now }
    ensures { IfOk result (Answers (IsExplanation asked.entry.chosen all.now)) }
{
    if let ChosenItems::Item(number) = asked.chosen {
        if !is_number_of_judged_item(number, all) {
            return missing_item_answer(alloc, number, all.len());
        }
    }
    Ok(Answer {
        text: document_explaining_chosen_items(alloc, judge, asked, places, runs, all, steps)?,
        status: status_of_judgements(all),
        refuses: false,
        refusal: None,
    })
}

/// The explanations of the chosen items after the model, or the first refusal.
fn explain_answer<R: Threads + Sync>(
    rt: &R,
    alloc: Global,
    input: &[u8],
    asked: ExplainOptions<'_>,
    steps: &ProgressCounter,
) -> Result<Answer, AllocError>
    ensures { IfOk result (Answers (IsExplainOutput asked.entry.order input.now asked.entry.chosen)) }
{
    let order = asked.order;
    let JudgedFile {
        compiled,
        runs,
        judged,
    } = match read_and_judge_file(rt, alloc, input, order, Keep::All, &ProgressCounter::new())? {
        Ok(file) => file,
        Err(answer) => return Ok(answer),
    };
    let runs = concatenate_run_lists(alloc, runs)?;
    let places = tree_places_in_input(alloc, asked.files, input)?;
    let callbacks = &compiled;
    explanations_answer(
        alloc,
        &Judge { callbacks, order },
        asked,
        places.get(1..).unwrap_or(&[]),
        runs.as_slice(),
        judged.as_slice(),
        steps,
    )
}

/// Explains the verdicts by the order of `asked` on the chosen items after the model at the start of the input. In the order of the items and
/// in the chosen form, writes for each the line of its verdict, its place in the input, and the reason. If the input is
/// refused, writes its first refusal alone, as `judge_text` does. If the chosen item does not exist, writes
/// `refused item N of COUNT` alone, with the status `Refused`. Otherwise the status is that of `judge_text`, whichever
/// items are explained. If the input is the text of several files, a place has the name of its file. If an allocation
/// fails, writes `refused memory` alone.
pub fn explain_text<W: Sink, R: Threads + Sync>(
    rt: &R,
    alloc: Global,
    input: &[u8],
    asked: ExplainOptions<'_>,
    sink: &mut W,
) -> Status
    requires { W.broken sink.old ≡ false }
    ensures { Prints (IsExplainOutput asked.entry.order input.now asked.entry.chosen)
        (W.taken sink.old) (W.taken sink.new) (W.broken sink.new) result }
{
    let answer = explain_answer(rt, alloc, input, asked, &ProgressCounter::new());
    send(&answer, MEMORY_LINE, sink)
}

/// Does what [`explain_text`] does.
pub fn explain_items<F: Sink, W: Sink, R: Threads + Sync, A: Attendant>(
    rt: &R,
    alloc: Global,
    input: &InputText<'_>,
    options: ExplainOptions<'_>,
    attendant: &mut A,
    to: &mut Destinations<F, W>,
) -> Status
    requires stands { Stands F.broken W.broken to.old }
    ensures prints { Reaches memory_line (IsMeant (λ plain. IsExplainOutput options.entry.order plain options.entry.chosen) input.now)
        (Delivers F.taken F.broken W.taken W.broken to.old to.new result) }
{
    let answer = explain_answer(rt, alloc, input.plain(), options, attendant.steps());
    attendant.before_output(refusal_of(&answer));
    deliver(&answer, MEMORY_LINE, to)
}

/// Which items to explain.
#[derive(Clone, Copy, Debug, PartialEq, Eq, Drop)]
pub enum ChosenItems {
    /// All of them.
    All,
    /// Those that are neither explained nor valid.
    Failures,
    /// The item with this number, from 1.
    Item(usize),
}

impl ChosenItems {
    /// Whether to explain item `number`, with this judgement.
    pub(crate) fn includes(self, number: usize, judged: &Judged) -> bool {
        match self {
            ChosenItems::All => true,
            ChosenItems::Failures => !is_explained_or_valid(judged),
            ChosenItems::Item(chosen) => chosen == number,
        }
    }
}

/// Whether the judged items have an item `number`, from 1.
fn is_number_of_judged_item(number: usize, all: &[Judged]) -> bool
    ensures { IsTrue result ↔ IsItem number all.now }
{
    1 <= number && number <= all.len()
}

/// `refused item N of COUNT`.
fn missing_item_line(alloc: Global, number: usize, count: usize) -> Result<String, AllocError>
    ensures { IfOk result (λ line. string_bytes line ≡ no_item_line number count) }
{
    format!(in alloc; "refused item {number} of {count}\n")
}

/// The refusal of an item that does not exist.
pub(crate) fn missing_item_answer(
    alloc: Global,
    number: usize,
    count: usize,
) -> Result<Answer, AllocError>
    ensures { IfOk result (IsRefusalBy (no_item_line number count) Refused) }
{
    Ok(Answer::refusal(missing_item_line(alloc, number, count)?, None))
}
