//! The objects of items and models: `pst judge` and `pst check` with `--format json`.
ghost use Rattle.std.specs.Prelude.{◌≡◌, ◌++◌, IfOk, OnOk};
ghost use Rattle.pst_cli.specs.Answers.{Answers, IsRefusalBy};
ghost use Rattle.pst_cli.specs.JsonOutput.{IsCheckJson, IsModelObject, answer_object, refusal_object, shown_object, shown_objects};
ghost use Rattle.pst_cli.specs.declared.answer.Status.TheVariants.{Refused};
ghost use Rattle.pst_rejudge.specs.Objects.{object_line};
ghost use Rattle.pst_rejudge.specs.Verdicts.{accepted_fields, refused_fields};

use crate::answer::{Answer, InputRefusal, Status};
use crate::keep::is_result_explained_or_valid;
use crate::lines::Shown;
use pst_model::Typed;
use pst_rejudge::{
    Field, ItemResult, accepted_model_fields, json_object_line, judged_item_fields,
    refused_item_fields, refused_model_fields,
};
use pst_runs::RunFault;
use pst_typing::{Refusal, load, model_name};
use std::alloc::{AllocError, Global};

/// The object of an item: its verdict, or why it is refused.
fn item_result_json_line(
    alloc: Global,
    number: usize,
    answer: &ItemResult,
) -> Result<Vec<u8>, AllocError>
    ensures { IfOk result (λ line. line.items ≡ answer_object number answer.now) }
{
    let fields = match answer {
        ItemResult::Judged(judged) => judged_item_fields(alloc, number, judged)?,
        ItemResult::Refused { kind, command } => refused_item_fields(
            alloc, number, *kind, *command,
        )?,
    };
    json_object_line(alloc, fields.as_slice())
}

/// Adds the object of an item, if `shown` includes it.
fn add_item_json_object_if_shown(
    alloc: Global,
    text: &mut Vec<u8>,
    shown: Shown,
    number: usize,
    answer: &ItemResult,
) -> Result<(), AllocError>
    ensures { OnOk result (text.new.items ≡ text.old.items ++ shown_object shown number answer.now) }
{
    if shown == Shown::Failures && is_result_explained_or_valid(answer) {
        return Ok(());
    }
    let line = item_result_json_line(alloc, number, answer)?;
    text.extend_from_slice(line.as_slice())
}

/// The objects of the displayed items, numbered from 1.
pub(crate) fn shown_item_json_objects(
    alloc: Global,
    shown: Shown,
    answers: &[ItemResult],
) -> Result<Vec<u8>, AllocError>
    ensures { IfOk result (λ text. text.items ≡ shown_objects shown 1 answers.now) }
{
    let mut text = Vec::new(alloc);
    for (index, answer) in answers.iter().enumerate() {
        add_item_json_object_if_shown(alloc, &mut text, shown, index + 1, answer)?;
    }
    Ok(text)
}

/// The refusal of the whole input for `refusal`, by the object with these members.
fn refusal_by_object(
    alloc: Global,
    fields: &[Field],
    refusal: InputRefusal,
) -> Result<Answer, AllocError>
    ensures { IfOk result (IsRefusalBy (object_line fields.now) Refused) }
{
    Ok(Answer {
        text: json_object_line(alloc, fields)?,
        status: Status::Refused,
        refuses: true,
        refusal: Some(refusal),
    })
}

/// The object of a refusal.
pub(crate) fn refusal_object_answer(alloc: Global, refusal: &Refusal) -> Result<Answer, AllocError>
    ensures { IfOk result (IsRefusalBy (refusal_object refusal.now) Refused) }
{
    let fields = refused_model_fields(alloc, refusal)?;
    refusal_by_object(alloc, fields.as_slice(), InputRefusal::Model(*refusal))
}

/// The object of an item that refuses the input.
pub(crate) fn refused_item_object_answer(
    alloc: Global,
    fault: &RunFault,
) -> Result<Answer, AllocError>
    ensures { IfOk result (IsRefusalBy
        (object_line (refused_fields fault.now.run fault.now.kind fault.now.command)) Refused) }
{
    let fields = refused_item_fields(alloc, fault.run, fault.kind, fault.command)?;
    refusal_by_object(alloc, fields.as_slice(), InputRefusal::Item(*fault))
}

/// The line that a command writes alone, as JSON, if an allocation fails.
pub const MEMORY_OBJECT: &[u8] = b"{\"verdict\":\"refused\",\"stage\":\"memory\"}\n";

/// The object of an accepted model.
fn accepted_model_json_object(alloc: Global, typed: &Typed) -> Result<Vec<u8>, AllocError>
    ensures { IfOk result (λ line. line.items ≡ object_line (accepted_fields typed.now.name)) }
{
    let fields = accepted_model_fields(alloc, model_name(typed).as_str())?;
    json_object_line(alloc, fields.as_slice())
}

/// The object of a well-typed model, or of its first refusal.
fn model_object_answer(alloc: Global, input: &[u8]) -> Result<Answer, AllocError>
    ensures { IfOk result (Answers (IsModelObject input.now)) }
{
    match load(alloc, input)? {
        Ok(file) => Ok(Answer {
            text: accepted_model_json_object(alloc, &file.typed)?,
            status: Status::Accepted,
            refuses: false,
            refusal: None,
        }),
        Err(refusal) => refusal_object_answer(alloc, &refusal),
    }
}

/// The object of a well-typed model, or of its first refusal, followed by the notices.
pub(crate) fn check_object_answer(
    alloc: Global,
    input: &[u8],
    notices: &[u8],
) -> Result<Answer, AllocError>
    ensures { IfOk result (Answers (IsCheckJson input.now notices.now)) }
{
    let mut answer = model_object_answer(alloc, input)?;
    answer.text.extend_from_slice(notices)?;
    Ok(answer)
}
