//! `pst explain --dot`.
ghost use Rattle.std.specs.Prelude.{◌≡◌, false, IfOk, MatchOption};
ghost use Rattle.pst_cli.specs.Answering.{Delivers, Reaches, Stands};
ghost use Rattle.pst_cli.specs.Answers.{Answers};
ghost use Rattle.pst_cli.specs.ChosenItem.{IsItem};
ghost use Rattle.pst_cli.specs.Commands.{IsMeant};
ghost use Rattle.pst_cli.specs.GraphOutput.{IsGraphOf, IsGraphOutput, drawn_number, first_failed};
ghost use Rattle.pst_cli.specs.Output.{AreJudged};
ghost use Rattle.pst_cli.specs.Sending.{Prints, memory_line};
ghost use Rattle.pst_judge.specs.declared.by_order.CallOrder.TheVariants.{Any};
ghost use Rattle.pst_runs.specs.Lawful.{AreLawful};

use crate::answer::{Answer, Destinations, MEMORY_LINE, Status, deliver, refusal_of, send};
use crate::attendant::Attendant;
use crate::explain::missing_item_answer;
use crate::input::{JudgedFile, Keep, concatenate_run_lists, read_and_judge_file};
use crate::judge::{is_explained_or_valid, status_of_judgements};
use pst_case::Run;
use pst_compile::Compiled;
use pst_explain::graphviz_text_of_item_search;
use pst_input::InputText;
use pst_judge::{CallOrder, Judge, Judged};
use pst_rejudge::ProgressCounter;
use pst_sexpr::Sink;
use std::alloc::{AllocError, Global};
use std::thread::Threads;

/// The number, from 1, of the first item that is neither explained nor valid; 1 if all are.
fn first_failed_item_number_or_one(all: &[Judged]) -> usize
    ensures { result ≡ first_failed 1 all.now }
{
    for (index, judged) in all.iter().enumerate() {
        if !is_explained_or_valid(judged) {
            return index + 1;
        }
    }
    1
}

/// The number of the item to draw: `item`, or else the first that is neither explained nor valid, or else 1.
fn number_of_item_to_draw(item: Option<usize>, all: &[Judged]) -> usize
    ensures { result ≡ drawn_number item all.now }
{
    match item {
        Some(number) => number,
        None => first_failed_item_number_or_one(all),
    }
}

/// The graph of item `number`, from 1, if it exists.
fn graph_of_item_if_it_exists(
    alloc: Global,
    judge: &Judge<'_, Compiled>,
    number: usize,
    whole: bool,
    runs: &[Run],
    all: &[Judged],
) -> Result<Option<Vec<u8>>, AllocError>
    requires lawful { AreLawful judge.now.callbacks.now runs.now }
    requires judged { AreJudged judge.now.order judge.now.callbacks.now runs.now all.now }
    ensures { IfOk result (λ graph.
        MatchOption graph (IsItem number all.now → ⊥) (λ text. IsItem number all.now)) }
{
    let Some(index) = number.checked_sub(1) else {
        return Ok(None);
    };
    let Some(run) = runs.get(index) else {
        return Ok(None);
    };
    let Some(judged) = all.get(index) else {
        return Ok(None);
    };
    let graph = graphviz_text_of_item_search(
        judge.callbacks,
        judge.order,
        alloc,
        judge.callbacks.typed(),
        run,
        judged,
        number,
        whole,
    )?;
    Ok(Some(graph))
}

/// The graph of the chosen item, or the refusal of an item that does not exist.
fn item_graph_answer(
    alloc: Global,
    judge: &Judge<'_, Compiled>,
    item: Option<usize>,
    whole: bool,
    runs: &[Run],
    all: &[Judged],
) -> Result<Answer, AllocError>
    requires lawful { AreLawful judge.now.callbacks.now runs.now }
    requires judged { AreJudged judge.now.order judge.now.callbacks.now runs.now all.now }
    ensures { IfOk result (Answers (IsGraphOf item all.now)) }
{
    let number = number_of_item_to_draw(item, all);
    match graph_of_item_if_it_exists(alloc, judge, number, whole, runs, all)? {
        Some(text) => Ok(Answer {
            text,
            status: status_of_judgements(all),
            refuses: false,
            refusal: None,
        }),
        None => missing_item_answer(alloc, number, all.len()),
    }
}

/// The graph of the chosen item, or the first refusal.
fn graph_answer<R: Threads + Sync>(
    rt: &R,
    alloc: Global,
    input: &[u8],
    order: CallOrder,
    item: Option<usize>,
    whole: bool,
) -> Result<Answer, AllocError>
    ensures { IfOk result (Answers (IsGraphOutput order input.now item)) }
{
    let JudgedFile {
        compiled,
        runs,
        judged,
    } = match read_and_judge_file(rt, alloc, input, order, Keep::All, &ProgressCounter::new())? {
        Ok(file) => file,
        Err(answer) => return Ok(answer),
    };
    let runs = concatenate_run_lists(alloc, runs)?;
    let callbacks = &compiled;
    item_graph_answer(
        alloc,
        &Judge { callbacks, order },
        item,
        whole,
        runs.as_slice(),
        judged.as_slice(),
    )
}

/// Draws the search of an item after the model at the start of the input, as a graph for Graphviz. `item` is its
/// number, from 1; without it, draws the first item that is neither explained nor valid, or item 1 if all are. For an
/// explained run, draws the interleaving and its dead ends, or all positions if `whole` is true. If the item does not
/// exist, writes `refused item N of COUNT` alone, with the status `Refused`. If the input is refused, writes its first
/// refusal alone, as `judge_text` does. Otherwise the status is that of `judge_text`. If an allocation fails, writes
/// `refused memory` alone.
pub fn write_search_graph_of_item<W: Sink, R: Threads + Sync>(
    rt: &R,
    alloc: Global,
    input: &[u8],
    item: Option<usize>,
    whole: bool,
    sink: &mut W,
) -> Status
    requires { W.broken sink.old ≡ false }
    ensures { Prints (IsGraphOutput Any input.now item)
        (W.taken sink.old) (W.taken sink.new) (W.broken sink.new) result }
{
    send(
        &graph_answer(rt, alloc, input, CallOrder::Any, item, whole),
        MEMORY_LINE,
        sink,
    )
}

/// Does what [`write_search_graph_of_item`] does, over the interleavings that count by `order`.
pub fn draw_item<F: Sink, W: Sink, R: Threads + Sync, A: Attendant>(
    rt: &R,
    alloc: Global,
    input: &InputText<'_>,
    order: CallOrder,
    item: Option<usize>,
    is_whole: bool,
    attendant: &mut A,
    to: &mut Destinations<F, W>,
) -> Status
    requires stands { Stands F.broken W.broken to.old }
    ensures prints { Reaches memory_line (IsMeant (λ plain. IsGraphOutput order plain item) input.now)
        (Delivers F.taken F.broken W.taken W.broken to.old to.new result) }
{
    let answer = graph_answer(rt, alloc, input.plain(), order, item, is_whole);
    attendant.before_output(refusal_of(&answer));
    deliver(&answer, MEMORY_LINE, to)
}
