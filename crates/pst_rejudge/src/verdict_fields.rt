//! The members of the objects that spell the verdicts on items and on models.
ghost use Rattle.std.specs.Prelude.{◌≡◌, [], ◌∷◌, ◌++◌, IfOk, OnOk};
ghost use Rattle.pst_rejudge.specs.Verdicts.{judged_fields, merge_field, outcome_fields, place_fields, refused_fields};
ghost use Rattle.pst_judge.specs.declared.judgement.Judged.TheVariants as judged;
ghost use Rattle.pst_rejudge.specs.Verdicts as spec;
ghost use Rattle.pst_judge.specs.VerdictText.{word_text};

use crate::field::{Field, FieldName, add_number_field, add_text_field};
use pst_eval::FaultPlace;
use pst_judge::{InterleavingText, Judged, Verdict, Why};
use pst_runs::RunFaultKind;
use pst_typing::Refusal;
use pst_value::Text;
use std::alloc::{AllocError, Global};

/// Adds the place of a fault.
fn add_fault_place_fields(
    alloc: Global,
    fields: &mut Vec<Field>,
    place: &FaultPlace,
) -> Result<(), AllocError>
    ensures { OnOk result (fields.new.items ≡ fields.old.items ++ place_fields place.now) }
{
    add_number_field(fields, FieldName::Command, place.command as u64)?;
    add_text_field(alloc, fields, FieldName::Callback, place.callback.name())?;
    add_text_field(alloc, fields, FieldName::Fault, place.fault.name())
}

/// Adds an interleaving, the numbers of its branches.
fn add_interleaving_field(
    alloc: Global,
    fields: &mut Vec<Field>,
    branches: &Vec<usize>,
) -> Result<(), AllocError>
    ensures { OnOk result (fields.new.items ≡ fields.old.items ++ merge_field branches.now.items ∷ []) }
{
    let merge = interleaving_text(alloc, branches.as_slice())?;
    fields.push(Field::Words(FieldName::Merge, merge))?;
    Ok(())
}

/// Adds the verdict on a run.
fn add_verdict_fields(
    alloc: Global,
    fields: &mut Vec<Field>,
    verdict: &Verdict,
) -> Result<(), AllocError>
    ensures { OnOk result (fields.new.items ≡ fields.old.items ++ outcome_fields (judged.Verdict verdict.now)) }
{
    match verdict {
        Verdict::Explained(word) => {
            add_text_field(alloc, fields, FieldName::Verdict, "explained")?;
            add_interleaving_field(alloc, fields, word)
        }
        Verdict::Faulted(place) => {
            add_text_field(alloc, fields, FieldName::Verdict, "fault")?;
            add_fault_place_fields(alloc, fields, place)
        }
        Verdict::Unexplained(far) => {
            add_text_field(alloc, fields, FieldName::Verdict, "unexplained")?;
            add_number_field(fields, FieldName::Far, *far as u64)
        }
        Verdict::Broken(command) => {
            add_text_field(alloc, fields, FieldName::Verdict, "broken")?;
            add_number_field(fields, FieldName::Command, *command as u64)
        }
    }
}

/// Adds why a case is not valid.
fn add_invalid_case_fields(
    alloc: Global,
    fields: &mut Vec<Field>,
    why: &Why,
) -> Result<(), AllocError>
    ensures { OnOk result (fields.new.items ≡ fields.old.items ++ outcome_fields (judged.Invalid why.now)) }
{
    match why {
        Why::PreFalse { command, merge } => {
            add_text_field(alloc, fields, FieldName::Verdict, "prefalse")?;
            add_number_field(fields, FieldName::Command, *command as u64)?;
            add_interleaving_field(alloc, fields, merge)
        }
        Why::CallbackFault { place, merge } => {
            add_text_field(alloc, fields, FieldName::Verdict, "casefault")?;
            add_fault_place_fields(alloc, fields, place)?;
            add_interleaving_field(alloc, fields, merge)
        }
        Why::NoMemory => {
            add_text_field(alloc, fields, FieldName::Verdict, "refused")?;
            add_text_field(alloc, fields, FieldName::Stage, "memory")
        }
    }
}

/// Returns the members of the object of a judged item: its number, its verdict, and the details of the verdict.
pub fn judged_item_fields(
    alloc: Global,
    number: usize,
    judged: &Judged,
) -> Result<Vec<Field>, AllocError>
    ensures { IfOk result (λ fields. fields.items ≡ judged_fields number judged.now) }
{
    let mut fields = Vec::new(alloc);
    add_number_field(&mut fields, FieldName::Item, number as u64)?;
    match judged {
        Judged::Verdict(verdict) => add_verdict_fields(alloc, &mut fields, verdict)?,
        Judged::Valid => add_text_field(alloc, &mut fields, FieldName::Verdict, "valid")?,
        Judged::Invalid(why) => add_invalid_case_fields(alloc, &mut fields, why)?,
    }
    Ok(fields)
}

/// Returns the members of the object of a refused item: its number, the command at fault, and the kind of its fault.
pub fn refused_item_fields(
    alloc: Global,
    number: usize,
    kind: RunFaultKind,
    command: u32,
) -> Result<Vec<Field>, AllocError>
    ensures { IfOk result (λ fields. fields.items ≡ refused_fields number kind command) }
{
    let mut fields = Vec::new(alloc);
    add_number_field(&mut fields, FieldName::Item, number as u64)?;
    add_text_field(alloc, &mut fields, FieldName::Verdict, "refused")?;
    add_text_field(alloc, &mut fields, FieldName::Stage, "item")?;
    add_number_field(&mut fields, FieldName::Command, command as u64)?;
    add_text_field(alloc, &mut fields, FieldName::Fault, kind.name())?;
    Ok(fields)
}

/// The members of the object of a model that is accepted: its verdict and its name.
pub fn accepted_model_fields(alloc: Global, model: &str) -> Result<Vec<Field>, AllocError>
    ensures { IfOk result (λ fields. fields.items ≡ spec.accepted_fields model.now) }
{
    let mut fields = Vec::new(alloc);
    add_text_field(alloc, &mut fields, FieldName::Verdict, "accepted")?;
    add_text_field(alloc, &mut fields, FieldName::Model, model)?;
    Ok(fields)
}

/// Returns the members of the object of an input whose model is refused: the stage that refuses it, the kind of its
/// fault, and its place.
pub fn refused_model_fields(alloc: Global, refusal: &Refusal) -> Result<Vec<Field>, AllocError>
    ensures { IfOk result (λ fields. fields.items ≡ spec.refusal_fields refusal.now) }
{
    let mut fields = Vec::new(alloc);
    add_text_field(alloc, &mut fields, FieldName::Verdict, "refused")?;
    match refusal {
        Refusal::Unread(fault) => {
            add_text_field(alloc, &mut fields, FieldName::Stage, "read")?;
            add_text_field(alloc, &mut fields, FieldName::Fault, fault.kind.name())?;
            add_number_field(&mut fields, FieldName::Place, fault.place as u64)?;
        }
        Refusal::NoModel(fault) => {
            add_text_field(alloc, &mut fields, FieldName::Stage, "model")?;
            add_text_field(alloc, &mut fields, FieldName::Fault, fault.kind.name())?;
            add_number_field(&mut fields, FieldName::ModelItem, fault.item as u64)?;
        }
        Refusal::IllTyped(number) => {
            add_text_field(alloc, &mut fields, FieldName::Stage, "type")?;
            add_number_field(&mut fields, FieldName::ModelItem, *number as u64)?;
        }
    }
    Ok(fields)
}

/// Returns the letters of an interleaving's branches, or `-` if it is empty.
fn interleaving_text(alloc: Global, branches: &[usize]) -> Result<Text, AllocError>
    ensures { IfOk result (λ text. text ≡ word_text branches.now) }
{
    let text = format!(in alloc; "{}", InterleavingText { branches })?;
    Ok(Text::from_string(text))
}
