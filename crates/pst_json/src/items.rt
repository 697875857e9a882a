//! Items.
ghost use Rattle.std.specs.Prelude.{IfOk};
ghost use Rattle.pst_json.specs.Page.{IsPageText};

use crate::calls::write_json_calls_member;
use crate::failures::{
    write_json_breaking_call_member, write_json_false_or_faulty_callback_member,
};
use crate::graphs::write_json_search_counts_and_any_graph;
use crate::reasons::{write_json_core_members, write_json_obstacles_member};
use crate::walks::{write_json_calls_without_effect_if_any, write_json_interleaving_states_member};
use crate::writing::{into_page_safe_ascii_json, write_json_number_member, write_json_text_member};
use json::Writer;
use pst_explain::{Explanation, JudgementReason, RuledOut, TreePlace};
use pst_judge::{Judged, Verdict, Why};
use std::alloc::{AllocError, Global};

/// Returns the first word of a judgement.
fn json_judgement_name(judged: &Judged) -> &'static str {
    match judged {
        Judged::Verdict(Verdict::Explained(_)) => "explained",
        Judged::Verdict(Verdict::Faulted(_)) => "fault",
        Judged::Verdict(Verdict::Unexplained(_)) => "unexplained",
        Judged::Verdict(Verdict::Broken(_)) => "broken",
        Judged::Valid => "valid",
        Judged::Invalid(Why::PreFalse { .. }) => "prefalse",
        Judged::Invalid(Why::CallbackFault { .. }) => "casefault",
        Judged::Invalid(Why::NoMemory) => "refused",
    }
}

/// Writes the member `at`: the file and the line on which an item begins.
fn write_json_item_place_member(
    writer: &mut Writer<Global>,
    place: &TreePlace<'_>,
) -> Result<(), AllocError> {
    writer.key("at")?;
    writer.begin_object()?;
    if let Some(name) = place.file {
        write_json_text_member(writer, "file", name)?;
    }
    write_json_number_member(writer, "line", place.line)?;
    writer.end_object()
}

/// Writes the members of an item except its reason and its search.
fn write_json_item_members_before_reason(
    writer: &mut Writer<Global>,
    alloc: Global,
    explanation: &Explanation<'_>,
) -> Result<(), AllocError> {
    let is_run = explanation.scene.run.history.is_some();
    let line = explanation.judged.text(alloc)?;
    write_json_number_member(writer, "item", explanation.number)?;
    write_json_text_member(writer, "kind", if is_run { "run" } else { "case" })?;
    write_json_text_member(writer, "verdict", json_judgement_name(explanation.judged))?;
    write_json_text_member(writer, "line", line.as_str())?;
    if explanation.is_timed {
        write_json_text_member(writer, "order", "time")?;
    }
    if let Some(place) = &explanation.place {
        write_json_item_place_member(writer, place)?;
    }
    write_json_calls_member(writer, alloc, &explanation.scene)
}

/// Writes the names of the members of a reason that are not whole.
fn write_json_names_of_parts_left_out(
    writer: &mut Writer<Global>,
    reason: &JudgementReason<'_>,
) -> Result<(), AllocError> {
    match reason.core() {
        Some(core) => {
            if core.is_cut {
                writer.string("allowed")?;
            }
        }
        None => writer.string("core")?,
    }
    if reason.interleaving().is_none() {
        writer.string("walk")?;
    }
    Ok(())
}

/// Writes the member `left_out`: the members that are not whole, because their search takes too many steps.
fn write_json_left_out_names_if_any(
    writer: &mut Writer<Global>,
    explanation: &Explanation<'_>,
) -> Result<(), AllocError> {
    let has_part_left_out = explanation.reason.has_part_left_out();
    let is_time_left_out = matches!(explanation.ruled_out, RuledOut::Unknown);
    if !has_part_left_out && !is_time_left_out {
        return Ok(());
    }
    writer.key("left_out")?;
    writer.begin_array()?;
    if has_part_left_out {
        write_json_names_of_parts_left_out(writer, &explanation.reason)?;
    }
    if is_time_left_out {
        writer.string("in_time")?;
    }
    writer.end_array()
}

/// Writes the reason of the judgement.
fn write_json_reason_members(
    writer: &mut Writer<Global>,
    alloc: Global,
    explanation: &Explanation<'_>,
) -> Result<(), AllocError> {
    let model = explanation.scene.model;
    let reason = &explanation.reason;
    if let Some(core) = reason.core() {
        write_json_core_members(writer, alloc, model, core)?;
    }
    if let RuledOut::Explanations(obstacles) = &explanation.ruled_out {
        write_json_obstacles_member(writer, alloc, &explanation.scene, obstacles)?;
    }
    if let Some(walk) = reason.interleaving() {
        write_json_interleaving_states_member(writer, alloc, explanation, walk)?;
    }
    if let JudgementReason::Explained(walk) = reason {
        write_json_calls_without_effect_if_any(writer, alloc, &explanation.scene, walk)?;
    }
    if let Some(failure) = reason.failure() {
        write_json_false_or_faulty_callback_member(writer, alloc, model, failure)?;
    }
    if let JudgementReason::Broken(broken) = reason {
        write_json_breaking_call_member(writer, alloc, broken)?;
    }
    write_json_left_out_names_if_any(writer, explanation)
}

/// Returns the explanation of an item as a JSON object, without a line end. `trial` is the number of its trial, if it is a
/// failure of a campaign.
fn explanation_json_with_optional_trial(
    alloc: Global,
    explanation: &Explanation<'_>,
    trial: Option<usize>,
) -> Result<Vec<u8>, AllocError>
    ensures { IfOk result (λ text. IsPageText text.items) }
{
    let mut writer = Writer::new(Vec::new(alloc));
    writer.begin_object()?;
    write_json_item_members_before_reason(&mut writer, alloc, explanation)?;
    if let Some(trial) = trial {
        write_json_number_member(&mut writer, "trial", trial)?;
    }
    write_json_reason_members(&mut writer, alloc, explanation)?;
    write_json_search_counts_and_any_graph(&mut writer, alloc, explanation)?;
    writer.end_object()?;
    into_page_safe_ascii_json(alloc, writer)
}

/// Returns the explanation of an item as a JSON object, without a line end.
pub fn item_explanation_json(
    alloc: Global,
    explanation: &Explanation<'_>,
) -> Result<Vec<u8>, AllocError>
    ensures { IfOk result (λ text. IsPageText text.items) }
{
    explanation_json_with_optional_trial(alloc, explanation, None)
}

/// Returns the explanation of the failure of a trial, counted from 0, as a JSON object with the number of the trial,
/// without a line end.
pub fn trial_explanation_json(
    alloc: Global,
    explanation: &Explanation<'_>,
    trial: usize,
) -> Result<Vec<u8>, AllocError>
    ensures { IfOk result (λ text. IsPageText text.items) }
{
    explanation_json_with_optional_trial(alloc, explanation, Some(trial))
}
