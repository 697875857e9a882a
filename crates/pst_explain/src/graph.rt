//! The graph of an item, and the interleaving that it shows.
ghost use Rattle.std.specs.Prelude.{◌≡◌, true};
ghost use Rattle.pst_judge.specs.Judgement.{HistoryMatches, IsJudgementBy};
ghost use Rattle.pst_case.specs.Matches.{matches};

use crate::bounded::StepLimitedCallbacks;
use crate::drawing::search_graph_as_graphviz_text;
use crate::explanation::MOST_STEPS;
use crate::search::{build_interleaving_graph_with_dead_ends, build_search_graph_up_to_limit};
use crate::unknown::{calls_before_first_fault, calls_of_furthest_interleaving};
use pst_case::{History, Run};
use pst_eval::Callbacks;
use pst_judge::{
    CallOrder, Judged, RecordedOrder, Verdict, Why, verdict_with_interleaving_in_order,
};
use pst_model::Typed;
use pst_scene::{
    Call, CasePart, Scene, call_numbered, calls_along_letters, calls_before_call_in_interleaving,
    calls_in_interleaving_order, first_calls, scene_of_run,
};
use std::alloc::{AllocError, Global};

/// The addition to the title if the graph shows only the interleaving of the verdict.
const PATH_ALONE: &str = "\nthe interleaving and its dead ends; --all draws the whole search";

/// The addition to the title if the interleaving of the verdict is not known.
const NO_PATH: &str =
    "\nthe interleaving of the verdict is left out: its search takes too many steps";

/// The addition to the title. `shows_only_path`: the graph shows only the interleaving of the verdict. `is_path_known`: this
/// interleaving is known.
fn graph_title_note_or_empty(shows_only_path: bool, is_path_known: bool) -> &'static str {
    if shows_only_path {
        return PATH_ALONE;
    }
    if is_path_known { "" } else { NO_PATH }
}

/// Whether an interleaving explains the run.
fn is_explained(judged: &Judged) -> bool {
    matches!(judged, Judged::Verdict(Verdict::Explained(_)))
}

/// Draws the search of an item as a graph for Graphviz. `judged` is the item's judgement by `order`, and `number` its
/// number.
///
/// A node is a position of the search: how far each part of the item has come, and the state there. Positions after
/// equally many commands are side by side. An edge is a command with its answer. A command that cannot come next leads,
/// in red, to a dead end with the reason. The edges of the interleaving of the verdict are bold. For an explained run,
/// draws only these and the dead ends beside them, unless `all` is true. The search expands the first 300 positions,
/// and all along the bold edges; positions that it leaves are dashed, and the title says so. If the search for the
/// interleaving takes more than 2,000,000 steps of callbacks, no edge is bold, and the title says so. A command that
/// cannot come next by `order` is not drawn.
pub fn graphviz_text_of_item_search<C: Callbacks>(
    callbacks: &C,
    order: CallOrder,
    alloc: Global,
    typed: &Typed,
    run: &Run,
    judged: &Judged,
    number: usize,
    all: bool,
) -> Result<Vec<u8>, AllocError>
    requires shaped { run.now.shaped.model ≡ C.model callbacks.now }
    requires matches { HistoryMatches (C.model callbacks.now) run.now }
    requires judged { IsJudgementBy order (C.model callbacks.now) run.now judged.now }
{
    let scene = scene_of_run(alloc, typed, run)?;
    let bounded = StepLimitedCallbacks::new(callbacks, MOST_STEPS);
    let shown = bounded.none_if_out_of_steps(calls_of_displayed_interleaving(
        &bounded, order, alloc, &scene, judged,
    ))?;
    let is_path_known = shown.is_some();
    let shown = shown.unwrap_or(Vec::new(alloc));
    let shows_only_path = is_explained(judged) && !all;
    let search = if shows_only_path {
        build_interleaving_graph_with_dead_ends(alloc, &scene, order, shown.as_slice())?
    } else {
        build_search_graph_up_to_limit(alloc, &scene, order, shown.as_slice())?
    };
    let verdict = judged.text(alloc)?;
    let verdict = verdict.as_str();
    let rest = graph_title_note_or_empty(shows_only_path, is_path_known);
    let title = format!(in alloc; "{number} {verdict}{rest}")?;
    search_graph_as_graphviz_text(alloc, &scene, &search, title.as_str())
}

/// The commands before command `number` in an interleaving that begins with `interleaving`.
fn calls_before_numbered_call<'a>(
    alloc: Global,
    scene: &Scene<'a>,
    interleaving: &[usize],
    number: u32,
) -> Result<Vec<Call<'a>>, AllocError> {
    match call_numbered(scene.all.as_slice(), number) {
        Some(call) => calls_before_call_in_interleaving(alloc, scene, interleaving, &call),
        None => Ok(Vec::new(alloc)),
    }
}

/// The commands before command `number`, which faults after `interleaving`.
fn calls_before_fault<'a>(
    alloc: Global,
    scene: &Scene<'a>,
    interleaving: &[usize],
    number: u32,
) -> Result<Vec<Call<'a>>, AllocError> {
    let mut whole = Vec::from_slice(alloc, interleaving)?;
    if let Some(call) = call_numbered(scene.all.as_slice(), number) {
        if let CasePart::Branch(branch) = call.part {
            whole.push(branch)?;
        }
    }
    calls_before_numbered_call(alloc, scene, whole.as_slice(), number)
}

/// The calls of a verdict's interleaving in a run in which calls have unknown outcomes, up to the first that cannot come
/// next. There are none if the search for it is too large.
fn calls_with_unknown_outcomes_until_failure<'a>(
    order: CallOrder,
    alloc: Global,
    scene: &Scene<'a>,
    verdict: &Verdict,
) -> Result<Vec<Call<'a>>, AllocError> {
    let found = match verdict {
        Verdict::Explained(interleaving) => {
            Some(calls_along_letters(alloc, &scene.counted, interleaving.as_slice())?)
        }
        Verdict::Faulted(_) => calls_before_first_fault(alloc, scene, order)?,
        Verdict::Unexplained(far) => calls_of_furthest_interleaving(alloc, scene, order, *far)?,
        Verdict::Broken(_) => None,
    };
    Ok(found.unwrap_or(Vec::new(alloc)))
}

/// The commands of a verdict's interleaving: of the one that explains or, as far as their postconditions are true, of
/// the first that faults or of the one that gets furthest.
fn calls_in_verdict_interleaving_until_failure<'a, C: Callbacks>(
    callbacks: &C,
    order: CallOrder,
    alloc: Global,
    scene: &Scene<'a>,
    history: &History,
    verdict: &Verdict,
) -> Result<Vec<Call<'a>>, AllocError>
    requires shaped { scene.now.run.now.shaped.model ≡ C.model callbacks.now }
    requires matches { matches (C.model callbacks.now) scene.now.run.now.shaped.case history.now ≡ true }
{
    if history.has_unknown() {
        return calls_with_unknown_outcomes_until_failure(order, alloc, scene, verdict);
    }
    let shaped = &scene.run.shaped;
    let recorded = RecordedOrder::new(alloc, order, shaped, history)?;
    match verdict {
        Verdict::Explained(interleaving) => calls_in_interleaving_order(
            alloc,
            &scene.calls,
            interleaving.as_slice(),
        ),
        Verdict::Faulted(place) => {
            let (_, interleaving) = verdict_with_interleaving_in_order(
                callbacks, &recorded, alloc, shaped, history,
            )?;
            calls_before_fault(alloc, scene, interleaving.as_slice(), place.command)
        }
        Verdict::Unexplained(far) => {
            let (_, interleaving) = verdict_with_interleaving_in_order(
                callbacks, &recorded, alloc, shaped, history,
            )?;
            let order = calls_in_interleaving_order(alloc, &scene.calls, interleaving.as_slice())?;
            first_calls(alloc, order.as_slice(), *far)
        }
        Verdict::Broken(_) => Ok(Vec::new(alloc)),
    }
}

/// The commands of the interleaving in which a case is not valid, up to the failure.
fn calls_before_case_failure<'a>(
    alloc: Global,
    scene: &Scene<'a>,
    why: &Why,
) -> Result<Vec<Call<'a>>, AllocError> {
    match why {
        Why::PreFalse { command, merge } => {
            calls_before_numbered_call(alloc, scene, merge.as_slice(), *command)
        }
        Why::CallbackFault { place, merge } => {
            calls_before_numbered_call(alloc, scene, merge.as_slice(), place.command)
        }
        Why::NoMemory => Ok(Vec::new(alloc)),
    }
}

/// The commands of the interleaving that a graph shows; none if the item is valid or has a reply that is no value.
fn calls_of_displayed_interleaving<'a, C: Callbacks>(
    callbacks: &C,
    order: CallOrder,
    alloc: Global,
    scene: &Scene<'a>,
    judged: &Judged,
) -> Result<Vec<Call<'a>>, AllocError>
    requires shaped { scene.now.run.now.shaped.model ≡ C.model callbacks.now }
    requires matches { HistoryMatches (C.model callbacks.now) scene.now.run.now }
{
    match judged {
        Judged::Verdict(verdict) => match &scene.run.history {
            Some(history) => calls_in_verdict_interleaving_until_failure(
                callbacks, order, alloc, scene, history, verdict,
            ),
            None => Ok(Vec::new(alloc)),
        },
        Judged::Valid => Ok(Vec::new(alloc)),
        Judged::Invalid(why) => calls_before_case_failure(alloc, scene, why),
    }
}
