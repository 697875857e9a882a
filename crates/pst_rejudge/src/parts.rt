//! Reads and judges the items of an input in parts: splits it, has several threads take the parts, and puts them
//! in their order.
//!
//! Each part but the last ends with a line. Each thread takes the next part that none has taken, so that a part that
//! takes long holds up one thread alone.
ghost use Rattle.std.specs.Prelude.{◌≡◌, All, IfOk, IfSome, OnOk, ℕ, Bool, List, ◌≤◌, ◌<◌, ◌++◌, map, length, take};
ghost use Rattle.pst_rejudge.specs.Parts.{AreAnswered, AreAnsweredPart, joined, kept_run, EndsLine, AreParts};
ghost use Rattle.pst_rejudge.specs.Places.{StandsIn, HoldsPart, AreFilled, runs_in, answers_in};
ghost use Rattle.std.specs.List.{flat_map};
ghost use Rattle.std.specs.Option.{IsSome};
ghost use Rattle.pst_judge.specs.declared.by_order.CallOrder.{CallOrder};
ghost use Rattle.pst_model.specs.declared.model.Source.{Source};
ghost use Rattle.std.specs.Borrow.{Bor};

use crate::reading::{ItemResult, PartFault, read_and_judge_item, read_trees_of_part};
use crate::sharing::{prove_answered_parts_are_send, prove_models_are_sync};
use crate::steps::ProgressCounter;
use pst_case::Run;
use pst_eval::Callbacks;
use pst_judge::Judge;
use pst_model::Typed;
use pst_sexpr::Tree;
use rayon::prelude::*;
use std::alloc::{AllocError, Global};
use std::sync::atomic::{AtomicUsize, Ordering};
use std::thread::Threads;

/// The answers to the items of one part of an input, with the runs to keep.
#[derive(Drop)]
pub(crate) struct AnsweredItems {
    /// The runs of the items that are not refused, in the order of the items, if runs are kept.
    pub runs: Vec<Run>,
    /// The judgement on each item, or why it is refused, in the order of the items.
    pub answers: Vec<ItemResult>,
}

/// The answers to the items of an input, and their runs in the parts in which it was read.
#[derive(Drop)]
pub struct AnsweredParts {
    /// The runs to keep of each part, in the order of the parts.
    pub runs: Vec<Vec<Run>>,
    /// The judgement on each item, or why it is refused, in the order of the items.
    pub answers: Vec<ItemResult>,
}

/// How many worker tasks start; late ones find no work.
const OFFERS: usize = 64;

/// Returns the judgement on each item that an input spells, or why it is refused, and the runs of the items that are
/// not refused. It reads and judges the input in parts, several at once, each item once, and drops the tree of an item
/// once it is judged. The runs stay in these parts, and the answers are one list. If `keeps` is false, each run is
/// dropped once it is judged, and all lists of runs are empty. `steps` counts the items.
///
/// `None`: some part is no text of trees by itself, which implies nothing for the whole input. `AllocError`: an
/// allocation failed, even while reading or judging parts.
///
/// `typed` is the model of the judge's callbacks.
pub fn read_and_judge_in_parts<C: Callbacks + Sync, R: Threads + Sync>(
    rt: &R,
    judge: &Judge<'_, C>,
    alloc: Global,
    typed: &Typed,
    input: &[u8],
    keeps: bool,
    steps: &ProgressCounter,
) -> Result<Option<AnsweredParts>, AllocError>
    requires { typed.now ≡ C.model judge.now.callbacks.now }
    ensures { IfOk result (λ read. IfSome read
        (λ parts. AreAnsweredPart judge.now.order typed.now keeps input.now (joined parts.runs.items) parts.answers.items)) }
{
    prove_models_are_sync();
    prove_answered_parts_are_send();
    let parts = split_input_into_parts(alloc, input)?;
    let next = AtomicUsize::new(0);
    let offers = [0u8; OFFERS];
    let taken = offers
        .par_iter()
        .with_min_len(1)
        .map(
            |_: &u8| -> Result<Vec<AnsweredPart>, PartFault>
                requires { typed.now ≡ C.model judge.now.callbacks.now }
                ensures { IfOk result (λ taken. All (StandsIn judge.entry.now.order (C.model judge.entry.now.callbacks.now) keeps parts.entry.items) taken.items) }
            {
                take_and_judge_remaining_parts(
                    judge,
                    alloc,
                    typed,
                    parts.as_slice(),
                    keeps,
                    &next,
                    steps,
                )
            },
        )
        .collect::<Result<Vec<Vec<AnsweredPart>>, PartFault>>(rt, alloc)?;
    match taken {
        Ok(lists) => {
            let places = put_answered_parts_in_order(alloc, parts.as_slice(), lists)?;
            join_places_unless_one_is_empty(alloc, places)
        }
        Err(PartFault::NotRead) => Ok(None),
        Err(PartFault::NoMemory) => Err(AllocError),
    }
}

/// A part of an input.
#[derive(Drop)]
pub(crate) struct AnsweredPart {
    /// Its place among the parts, from 0.
    pub place: usize,
    /// The answers to its items, and their runs.
    pub content: AnsweredItems,
}

/// Adds the run of an item to those to keep, if `keeps` is set and the item is not refused.
fn keep_run(keeps: bool, runs: &mut Vec<Run>, run: Option<Run>) -> Result<(), AllocError>
    ensures { OnOk result (runs.new.items ≡ runs.old.items ++ kept_run keeps run) }
{
    match run {
        Some(run) if keeps => {
            runs.push(run)?;
            Ok(())
        }
        _ => Ok(()),
    }
}

/// The answers to the items that trees spell, with the runs if `keeps` is true. `steps` counts the items.
fn read_and_judge_items<C: Callbacks>(
    judge: &Judge<'_, C>,
    alloc: Global,
    typed: &Typed,
    trees: Vec<Tree>,
    keeps: bool,
    steps: &ProgressCounter,
) -> Result<AnsweredItems, AllocError>
    requires { typed.now ≡ C.model judge.now.callbacks.now }
    ensures { IfOk result (λ items. AreAnswered judge.now.order (C.model judge.now.callbacks.now) keeps trees.items items.runs.items items.answers.items) }
{
    let mut runs = Vec::with_capacity(alloc, if keeps { trees.len() } else { 0 })?;
    let mut answers = Vec::with_capacity(alloc, trees.len())?;
    for tree in trees {
        let (run, answer) = read_and_judge_item(judge, alloc, typed, &tree)?;
        steps.add(1);
        keep_run(keeps, &mut runs, run)?;
        answers.push(answer)?;
    }
    Ok(AnsweredItems { runs, answers })
}

/// The answers to the items that the bytes of a part spell, with the runs if `keeps` is true.
fn read_and_judge_part<C: Callbacks>(
    judge: &Judge<'_, C>,
    alloc: Global,
    typed: &Typed,
    bytes: &[u8],
    keeps: bool,
    steps: &ProgressCounter,
) -> Result<AnsweredItems, PartFault>
    requires { typed.now ≡ C.model judge.now.callbacks.now }
    ensures { IfOk result (HoldsPart judge.now.order (C.model judge.now.callbacks.now) keeps bytes.now) }
{
    let trees = read_trees_of_part(alloc, bytes)?;
    let items = read_and_judge_items(judge, alloc, typed, trees, keeps, steps)?;
    Ok(items)
}

/// Reads and judges one part after another until none is left. No other thread takes these parts.
fn take_and_judge_remaining_parts<C: Callbacks>(
    judge: &Judge<'_, C>,
    alloc: Global,
    typed: &Typed,
    parts: &[&[u8]],
    keeps: bool,
    next: &AtomicUsize,
    steps: &ProgressCounter,
) -> Result<Vec<AnsweredPart>, PartFault>
    requires { typed.now ≡ C.model judge.now.callbacks.now }
    ensures { IfOk result (λ taken. All (StandsIn judge.now.order (C.model judge.now.callbacks.now) keeps parts.now) taken.items) }
{
    let mut taken = Vec::new(alloc);
    for _ in 0..parts.len() {
        let place = next.fetch_add(1, Ordering::Relaxed);
        let Some(bytes) = parts.get(place) else {
            return Ok(taken);
        };
        let content = read_and_judge_part(judge, alloc, typed, bytes, keeps, steps)?;
        if taken.push(AnsweredPart { place, content }).is_err() {
            return Err(PartFault::NoMemory);
        }
    }
    Ok(taken)
}

/// An empty place for each part.
fn empty_places_for_parts(
    alloc: Global,
    parts: &[&[u8]],
) -> Result<Vec<Option<AnsweredItems>>, AllocError>
    ensures { IfOk result (λ places. (order : CallOrder) (m : Source) (keeps : Bool) → AreFilled order m keeps parts.now places.items) }
{
    let mut places = Vec::with_capacity(alloc, parts.len())?;
    for _part in parts {
        places.push(None)?;
    }
    Ok(places)
}

/// The places with parts put into them.
fn put_answered_parts_into_places(
    mut places: Vec<Option<AnsweredItems>>,
    taken: Vec<AnsweredPart>,
) -> Vec<Option<AnsweredItems>>
    ensures { (order : CallOrder) (m : Source) (keeps : Bool) (parts : List (Bor (List ℕ)))
        → AreFilled order m keeps parts places.items → All (StandsIn order m keeps parts) taken.items
        → AreFilled order m keeps parts result.items }
{
    for part in taken {
        let AnsweredPart { place, content } = part;
        if place < places.len() {
            places[place] = Some(content);
        }
    }
    places
}

/// All parts that were taken, each in its place.
fn put_answered_parts_in_order(
    alloc: Global,
    parts: &[&[u8]],
    lists: Vec<Vec<AnsweredPart>>,
) -> Result<Vec<Option<AnsweredItems>>, AllocError>
    ensures { IfOk result (λ places. (order : CallOrder) (m : Source) (keeps : Bool)
        → All (λ taken. All (StandsIn order m keeps parts.now) taken.items) lists.items
        → AreFilled order m keeps parts.now places.items) }
{
    let mut places = empty_places_for_parts(alloc, parts)?;
    for taken in lists {
        places = put_answered_parts_into_places(places, taken);
    }
    Ok(places)
}

/// How many items the places hold.
fn count_items_in_places(places: &[Option<AnsweredItems>]) -> usize {
    let mut count: usize = 0;
    for place in places {
        if let Some(content) = place {
            count = count.saturating_add(content.answers.len());
        }
    }
    count
}

/// The runs of each place, and the answers of all as one list, or `None` if some place is empty.
fn join_places_unless_one_is_empty(
    alloc: Global,
    places: Vec<Option<AnsweredItems>>,
) -> Result<Option<AnsweredParts>, AllocError>
    ensures all { IfOk result (λ read. IfSome read (λ all. All IsSome places.items)) }
    ensures runs { IfOk result
        (λ read. IfSome read (λ all. joined all.runs.items ≡ flat_map runs_in places.items)) }
    ensures answers { IfOk result
        (λ read. IfSome read (λ all. all.answers.items ≡ flat_map answers_in places.items)) }
{
    let mut runs = Vec::with_capacity(alloc, places.len())?;
    let mut answers = Vec::with_capacity(alloc, count_items_in_places(places.as_slice()))?;
    for place in places {
        let Some(mut content) = place else {
            return Ok(None);
        };
        answers.append(&mut content.answers)?;
        runs.push(content.runs)?;
    }
    Ok(Some(AnsweredParts { runs, answers }))
}

/// An input has no more parts than these.
const PARTS: usize = 256;

/// A part has more bytes than these, but for the last.
const LEAST_PART: usize = 256;

/// The first place after `from` at which a line begins with a bracket, if there is one.
fn find_next_bracket_line(input: &[u8], from: usize) -> Option<usize>
    ensures { IfSome result (λ at. (0 < at) × (at ≤ length input.now) × EndsLine (take at input.now)) }
{
    for end in from..input.len().saturating_sub(1) {
        if input[end] == b'\n' && input[end + 1] == b'(' {
            return Some(end + 1);
        }
    }
    None
}

/// Splits the input before the second line that begins with a bracket, if there is one.
pub fn split_before_second_bracket_line(input: &[u8]) -> Option<(&[u8], &[u8])>
    ensures { IfSome result (λ r. EndsLine r.0.now × (input.now ≡ r.0.now ++ r.1.now)) }
{
    let first = if input.first() == Some(&b'(') {
        0
    } else {
        find_next_bracket_line(input, 0)?
    };
    let second = find_next_bracket_line(input, first)?;
    Some(input.split_at(second))
}

/// The parts of an input. Each but the last ends before a line that begins with a bracket.
fn split_input_into_parts<'a>(alloc: Global, input: &'a [u8]) -> Result<Vec<&'a [u8]>, AllocError>
    ensures { IfOk result (λ parts. AreParts input.now (map (λ part. part.now) parts.items)) }
{
    let mut parts = Vec::new(alloc);
    let least = (input.len() / PARTS).max(LEAST_PART);
    let mut rest = input;
    while let Some(at) = find_next_bracket_line(rest, least) {
        let (part, behind) = rest.split_at(at);
        parts.push(part)?;
        rest = behind;
    }
    parts.push(rest)?;
    Ok(parts)
}
