//! The text of explanations.

use crate::breaking::{BreakingCall, breaking_call_sentence};
use crate::core_text::add_optional_core_and_run_text;
use crate::explanation::{Explanation, JudgementReason};
use crate::failure_text::add_failure_explanation_text;
use crate::obstacles::{RuledOut, add_obstacles_text};
use crate::parts::{MarkedRun, add_marked_run_text};
use crate::unknown::calls_without_effect;
use crate::walk_text::{
    add_blocked_calls_text, add_explaining_interleaving_with_precondition_notes,
    add_interleaving_states_text,
};
use crate::walks::InterleavingStates;
use pst_judge::{Judged, Verdict};
use pst_model::Source;
use pst_scene::{
    Call, Page, Scene, Style, add_interleaving_letters_or_dash, add_number, add_str,
    copy_explanation_text,
};
use std::alloc::{AllocError, Global};

/// The style of a judgement: that of something wrong, unless the item is explained or valid.
fn judgement_style(judged: &Judged) -> Style {
    match judged {
        Judged::Verdict(Verdict::Explained(_)) | Judged::Valid => Style::Plain,
        Judged::Verdict(_) | Judged::Invalid(_) => Style::Wrong,
    }
}

/// Adds the first line of an item: its number, its judgement as `pst judge` prints it, and the place where it begins.
fn add_explanation_heading(
    page: &mut Page,
    alloc: Global,
    explanation: &Explanation<'_>,
) -> Result<(), AllocError> {
    let mut heading = String::new(alloc);
    write!(heading, "{} {} (", explanation.number, explanation.judged)?;
    if let Some(place) = &explanation.place {
        place.append_place_text(&mut heading)?;
    }
    heading.push_str(")")?;
    let style = judgement_style(explanation.judged);
    page.add_heading(alloc, style, heading.as_bytes())
}

/// Adds that `far` events hold.
fn add_count_of_holding_events(text: &mut Vec<u8>, far: usize) -> Result<(), AllocError> {
    if far == 1 {
        return add_str(text, "1 event holds");
    }
    add_number(text, far)?;
    add_str(text, " events hold")
}

/// What an interleaving that counts is called.
fn interleaving_name(is_timed: bool) -> &'static str {
    if is_timed {
        "interleaving in order of time"
    } else {
        "interleaving"
    }
}

/// Returns a sentence that says that in every interleaving that counts `far` events hold before one does not.
fn sentence_on_equally_far_interleavings(
    alloc: Global,
    is_timed: bool,
    far: usize,
) -> Result<Vec<u8>, AllocError> {
    let mut text = copy_explanation_text(alloc, "In every ")?;
    add_str(&mut text, interleaving_name(is_timed))?;
    add_str(&mut text, " ")?;
    if far == 0 {
        add_str(&mut text, "the first event does not hold:")?;
        return Ok(text);
    }
    add_count_of_holding_events(&mut text, far)?;
    add_str(&mut text, " before one does not:")?;
    Ok(text)
}

/// Returns a sentence on the interleaving that gets furthest: `far` events hold in it before one does not, and it begins
/// with `interleaving`. If `interleaving` is empty, every interleaving gets as far.
fn furthest_interleaving_sentence(
    alloc: Global,
    is_timed: bool,
    far: usize,
    interleaving: &[usize],
) -> Result<Vec<u8>, AllocError> {
    if far == 0 || interleaving.is_empty() {
        return sentence_on_equally_far_interleavings(alloc, is_timed, far);
    }
    let mut text = copy_explanation_text(alloc, "No ")?;
    add_str(&mut text, interleaving_name(is_timed))?;
    add_str(&mut text, " gets further than ")?;
    add_interleaving_letters_or_dash(&mut text, interleaving)?;
    add_str(&mut text, ", where ")?;
    add_count_of_holding_events(&mut text, far)?;
    add_str(&mut text, ":")?;
    Ok(text)
}

/// What an explanation says in place of the interleaving that gets furthest, if its search takes too many steps.
const NO_FURTHEST: &str =
    "The interleaving that gets furthest is left out: its search takes too many steps.";

/// Adds the interleaving that gets furthest, and why no command can come next. `None` if its search takes too many steps.
fn add_furthest_interleaving_text(
    page: &mut Page,
    alloc: Global,
    model: &Source,
    is_timed: bool,
    far: usize,
    walk: Option<&InterleavingStates<'_>>,
) -> Result<(), AllocError> {
    let Some(walk) = walk else {
        return page.add_wrapped_sentence(alloc, 2, NO_FURTHEST.as_bytes());
    };
    let sentence = furthest_interleaving_sentence(
        alloc,
        is_timed,
        far,
        walk.interleaving.as_slice(),
    )?;
    page.add_wrapped_sentence(alloc, 2, sentence.as_slice())?;
    add_interleaving_states_text(page, alloc, model, walk)?;
    add_blocked_calls_text(page, alloc, model, walk.stopped.as_slice())
}

/// Adds which reply is not a value, and the run.
fn add_broken_reply_and_run_text(
    page: &mut Page,
    alloc: Global,
    scene: &Scene<'_>,
    is_timed: bool,
    broken: &BreakingCall<'_>,
) -> Result<(), AllocError> {
    if let Some(mut sentence) = breaking_call_sentence(alloc, scene.model, broken)? {
        add_str(&mut sentence, ".")?;
        page.add_wrapped_sentence(alloc, 2, sentence.as_slice())?;
    }
    page.add_wrapped_sentence(alloc, 2, b"The run, with * before this command:")?;
    let marked = &[broken.number];
    let run = MarkedRun {
        scene,
        is_timed,
        marked,
    };
    add_marked_run_text(page, alloc, &run)
}

/// What an explanation says in place of what the order in time rules out, if its search takes too many steps.
const NO_OBSTACLES: &str =
    "Whether anything would explain it without the order in time is left out: the search takes too many steps.";

/// Adds what the order in time rules out.
fn add_any_obstacles_text(
    page: &mut Page,
    alloc: Global,
    explanation: &Explanation<'_>,
) -> Result<(), AllocError> {
    match &explanation.ruled_out {
        RuledOut::Nothing => Ok(()),
        RuledOut::Explanations(obstacles) => add_obstacles_text(
            page,
            alloc,
            &explanation.scene,
            obstacles,
        ),
        RuledOut::Unknown => page.add_wrapped_sentence(alloc, 2, NO_OBSTACLES.as_bytes()),
    }
}

/// Returns a sentence on the calls of unknown outcome that took no effect in an interleaving. There is at least one.
fn sentence_on_calls_without_effect(
    alloc: Global,
    model: &Source,
    calls: &[Call<'_>],
) -> Result<Vec<u8>, AllocError> {
    let mut text = Vec::new(alloc);
    for (index, call) in calls.iter().enumerate() {
        if index > 0 {
            add_str(&mut text, ", ")?;
        }
        call.add_text_with_reply_or_variable(&mut text, alloc, model)?;
    }
    add_str(&mut text, " took no effect, or only after the last answer.")?;
    Ok(text)
}

/// Adds which calls of unknown outcome took no effect in the interleaving that explains a run, if there are some.
fn add_calls_without_effect_text(
    page: &mut Page,
    alloc: Global,
    scene: &Scene<'_>,
    walk: &InterleavingStates<'_>,
) -> Result<(), AllocError> {
    let calls = calls_without_effect(alloc, scene, walk)?;
    if calls.is_empty() {
        return Ok(());
    }
    let sentence = sentence_on_calls_without_effect(alloc, scene.model, calls.as_slice())?;
    page.add_wrapped_sentence(alloc, 2, sentence.as_slice())
}

/// Adds the reason of the judgement.
fn add_judgement_reason_text(
    page: &mut Page,
    alloc: Global,
    explanation: &Explanation<'_>,
) -> Result<(), AllocError> {
    let scene = &explanation.scene;
    let is_timed = explanation.is_timed;
    match &explanation.reason {
        JudgementReason::Explained(walk) => {
            add_explaining_interleaving_with_precondition_notes(page, alloc, scene.model, walk)?;
            add_calls_without_effect_text(page, alloc, scene, walk)
        }
        JudgementReason::Unexplained {
            far,
            core,
            furthest,
        } => {
            add_optional_core_and_run_text(page, alloc, scene, is_timed, core.as_ref())?;
            add_any_obstacles_text(page, alloc, explanation)?;
            let furthest = furthest.as_ref();
            add_furthest_interleaving_text(page, alloc, scene.model, is_timed, *far, furthest)
        }
        JudgementReason::Faulted { failure, core } => {
            add_failure_explanation_text(page, alloc, scene, failure)?;
            add_optional_core_and_run_text(page, alloc, scene, is_timed, core.as_ref())?;
            add_any_obstacles_text(page, alloc, explanation)
        }
        JudgementReason::Broken(broken) => add_broken_reply_and_run_text(
            page, alloc, scene, is_timed, broken,
        ),
        JudgementReason::Invalid(failure) => add_failure_explanation_text(
            page, alloc, scene, failure,
        ),
        JudgementReason::Nothing => Ok(()),
    }
}

/// Returns the reason of the judgement, which `append_explanation_text` writes after the first line.
pub fn explanation_text_without_heading(
    alloc: Global,
    explanation: &Explanation<'_>,
    width: usize,
) -> Result<Vec<u8>, AllocError> {
    let mut page = Page::new(alloc, width);
    add_judgement_reason_text(&mut page, alloc, explanation)?;
    Ok(page.into_text())
}

/// Adds an explanation to a page.
fn add_explanation_to_page(
    page: &mut Page,
    alloc: Global,
    explanation: &Explanation<'_>,
) -> Result<(), AllocError> {
    add_explanation_heading(page, alloc, explanation)?;
    add_judgement_reason_text(page, alloc, explanation)
}

/// Returns `text` and after it the text of an explanation in lines of at most `width` bytes. Parts that are longer than a
/// line are cut in the middle with `..`.
pub fn append_explanation_text(
    text: Vec<u8>,
    alloc: Global,
    explanation: &Explanation<'_>,
    width: usize,
) -> Result<Vec<u8>, AllocError> {
    let mut page = Page::plain_after(text, width);
    add_explanation_to_page(&mut page, alloc, explanation)?;
    Ok(page.into_text())
}

/// Returns `text` and after it the text of an explanation in the colors of a terminal, in lines of at most `width`
/// bytes: the core is red, and the answers that the model allows are green.
pub fn append_colored_explanation_text(
    text: Vec<u8>,
    alloc: Global,
    explanation: &Explanation<'_>,
    width: usize,
) -> Result<Vec<u8>, AllocError> {
    let mut page = Page::colored_after(text, width);
    add_explanation_to_page(&mut page, alloc, explanation)?;
    Ok(page.into_text())
}
