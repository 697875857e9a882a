//! `pst generate`.
ghost use Rattle.std.specs.Prelude.{◌≡◌, ◌≤◌, ◌<◌, ◌+◌, ◌^◌, ◌-◌, ℕ, List, false, IfOk, MatchResult, string_bytes};
ghost use Rattle.std.specs.List.{AllZip, range_with_len};
ghost use Rattle.pst_cli.specs.Answering.{Delivers, Reaches, Stands};
ghost use Rattle.pst_cli.specs.Commands.{IsMeant};
ghost use Rattle.pst_cli.specs.Generating.{EndsCases, EndsLines, IsLineOf, IsPlanOf};
ghost use Rattle.pst_cli.specs.GenerateOutput.{IsGenerateOutput, fault_line, form_beside, genfault_fields, genfault_line, memory_in};
ghost use Rattle.pst_cli.specs.Sending.{SendsOne};
ghost use Rattle.pst_sexpr.specs.declared.form.Form.{Form};
ghost use Rattle.pst_trial.specs.Settings.{AreInRange};
ghost use Rattle.pst_typing.specs.Loading.{Holds, IsRefusal};

use crate::answer::{
    Destinations, Output, OutputForm, Status, deliver, joined_outputs_with_worst_status,
    memory_text, send_text,
};
use crate::judge::refused_model_answer;
use crate::model_commands::{ItemForm, item_line_in_form};
use crate::stream::Cut;
use pst_case::Run;
use pst_eval::FaultPlace;
use pst_input::InputText;
use pst_rejudge::{Field, FieldName, add_number_field, add_text_field, json_object_line};
use pst_sexpr::{Sink, WriteFailed, put_all};
use pst_trial::{Plan, Settings, generate_trial_case, prove_records_are_send_and_sync};
use pst_typing::{Refusal, load};
use rayon::prelude::*;
use std::alloc::{AllocError, Global};
use std::thread::Threads;

/// How many cases are generated at once.
const BLOCK: u64 = 128;

/// `genfault NUMBER COMMAND CALLBACK KIND`.
fn generation_fault_line(
    alloc: Global,
    number: u64,
    place: &FaultPlace,
) -> Result<String, AllocError>
    ensures { IfOk result (λ line. string_bytes line ≡ genfault_line number place.now) }
{
    let mut line = format!(in alloc; "genfault {number} ")?;
    write!(line, "{} ", place.command)?;
    line.push_str(place.callback.name())?;
    line.push_str(" ")?;
    line.push_str(place.fault.name())?;
    line.push_str("\n")?;
    Ok(line)
}

/// The members of the object of a fault: the number of the trial, the command, the callback and the kind.
fn generation_fault_json_fields(
    alloc: Global,
    number: u64,
    place: &FaultPlace,
) -> Result<Vec<Field>, AllocError>
    ensures { IfOk result (λ fields. fields.items ≡ genfault_fields number place.now) }
{
    let mut fields = Vec::new(alloc);
    add_number_field(&mut fields, FieldName::GenFault, number)?;
    add_number_field(&mut fields, FieldName::Command, place.command as u64)?;
    add_text_field(
        alloc,
        &mut fields,
        FieldName::Callback,
        place.callback.name(),
    )?;
    add_text_field(alloc, &mut fields, FieldName::Fault, place.fault.name())?;
    Ok(fields)
}

/// The line of a fault.
fn generation_fault_line_in_form(
    alloc: Global,
    form: ItemForm,
    number: u64,
    place: &FaultPlace,
) -> Result<Vec<u8>, AllocError>
    ensures { IfOk result (λ line. line.items ≡ fault_line form number place.now) }
{
    match form {
        ItemForm::Trees => Ok(generation_fault_line(alloc, number, place)?.into_bytes()),
        ItemForm::Json => {
            let fields = generation_fault_json_fields(alloc, number, place)?;
            json_object_line(alloc, fields.as_slice())
        }
    }
}

/// The line of the case of trial `number`, or of the fault that leaves it without a case. The status is `Failed` at a
/// fault.
fn output_of_case_or_generation_fault(
    alloc: Global,
    plan: &Plan,
    form: ItemForm,
    number: u64,
) -> Result<Output, AllocError>
    ensures { IfOk result (IsLineOf form plan.now number) }
{
    match generate_trial_case(alloc, plan, number)? {
        Ok(valid) => {
            let run = Run {
                shaped: valid.into_shaped(),
                history: None,
            };
            let text = item_line_in_form(alloc, form, plan.typed(), &run)?;
            Ok(Output {
                text,
                status: Status::Accepted,
            })
        }
        Err(place) => Ok(Output {
            text: generation_fault_line_in_form(alloc, form, number, &place)?,
            status: Status::Failed,
        }),
    }
}

/// The lines of the trials from `first` on, which several threads generate at once.
fn outputs_of_cases_or_generation_faults<R: Threads + Sync>(
    rt: &R,
    alloc: Global,
    plan: &Plan,
    form: ItemForm,
    first: u64,
    behind: u64,
) -> Result<Vec<Output>, AllocError>
    requires { first ≤ behind }
    ensures { IfOk result
        (λ outputs. AllZip (IsLineOf form plan.now) (range_with_len first (behind - first)) outputs.items) }
{
    prove_records_are_send_and_sync();
    (first..behind)
        .into_par_iter()
        .with_min_len(1)
        .map(
            |number: u64| -> Result<Output, AllocError>
                ensures { IfOk result (IsLineOf form plan.entry.now number) }
            { output_of_case_or_generation_fault(alloc, plan, form, number) },
        )
        .collect::<Result<Vec<Output>, AllocError>>(rt, alloc)?
}

/// Writes the lines of the trials from `first` on, and returns the worst of `so_far` and their statuses.
fn generate_and_write_block_of_cases<W: Sink, R: Threads + Sync>(
    rt: &R,
    alloc: Global,
    plan: &Plan,
    form: ItemForm,
    first: u64,
    behind: u64,
    so_far: Status,
    sink: &mut W,
) -> Result<Status, Cut>
    requires order { first ≤ behind }
    requires stands { W.broken sink.old ≡ false }
    ensures { EndsLines form plan.now first (behind - first) so_far
        (W.taken sink.old) (W.taken sink.new) (W.broken sink.new) result }
{
    let Ok(outputs) = outputs_of_cases_or_generation_faults(rt, alloc, plan, form, first, behind)
    else {
        return Err(Cut::NoMemory);
    };
    let Ok(output) = joined_outputs_with_worst_status(alloc, so_far, outputs.as_slice()) else {
        return Err(Cut::NoMemory);
    };
    match put_all(output.text.as_slice(), sink) {
        Ok(()) => Ok(output.status),
        Err(WriteFailed) => Err(Cut::Unwritten),
    }
}

/// Writes the lines of the trials from `first` on, and returns the worst of their statuses.
fn generate_and_write_cases_in_blocks<W: Sink, R: Threads + Sync>(
    rt: &R,
    alloc: Global,
    plan: &Plan,
    form: ItemForm,
    first: u64,
    behind: u64,
    sink: &mut W,
) -> Result<Status, Cut>
    requires order { first ≤ behind }
    requires stands { W.broken sink.old ≡ false }
    ensures { EndsCases form plan.now first (behind - first)
        (W.taken sink.old) (W.taken sink.new) (W.broken sink.new) result }
{
    let mut status = Status::Accepted;
    let mut next = first;
    while next < behind {
        let end = next.saturating_add(BLOCK).min(behind);
        status = match generate_and_write_block_of_cases(
            rt, alloc, plan, form, next, end, status, sink,
        ) {
            Ok(status) => status,
            Err(cut) => return Err(cut),
        };
        next = end;
    }
    Ok(status)
}

impl ItemForm {
    /// The form of refusals beside items in this form.
    fn form_beside(self) -> OutputForm
        ensures { result ≡ form_beside self }
    {
        match self {
            ItemForm::Trees => OutputForm::Text,
            ItemForm::Json => OutputForm::Json,
        }
    }
}

/// Writes the lines of `count` trials from `first` on, and after them that an allocation failed, if one does.
fn write_cases<W: Sink, R: Threads + Sync>(
    rt: &R,
    alloc: Global,
    plan: &Plan,
    form: ItemForm,
    first: u64,
    count: u64,
    sink: &mut W,
) -> Status
    requires numbers { first + count < 2 ^ 64 }
    requires stands { W.broken sink.old ≡ false }
    ensures { (input : List ℕ) (trees : List Form) → Holds input plan.now.model trees
        → SendsOne (IsGenerateOutput form plan.now.settings first count input)
        (W.taken sink.old) (W.taken sink.new) (W.broken sink.new) result }
{
    let memory = memory_text(form.form_beside());
    match generate_and_write_cases_in_blocks(rt, alloc, plan, form, first, first + count, sink) {
        Ok(status) => status,
        Err(Cut::Unread) => send_text(memory, Status::Lost, sink),
        Err(Cut::NoMemory) => send_text(memory, Status::Lost, sink),
        Err(Cut::Unwritten) => Status::Lost,
    }
}

/// The plan for the model at the start of the input, or the refusal of the model.
fn plan_of_input(
    alloc: Global,
    input: &[u8],
    settings: Settings,
) -> Result<Result<Plan, Refusal>, AllocError>
    requires { AreInRange settings }
    ensures { IfOk result (λ read. MatchResult read (IsPlanOf input.now settings) (IsRefusal input.now)) }
{
    let typed = match load(alloc, input)? {
        Ok(file) => file.typed,
        Err(refusal) => return Ok(Err(refusal)),
    };
    match Plan::new(alloc, typed, settings) {
        Ok(plan) => Ok(Ok(plan)),
        Err(_) => Err(AllocError),
    }
}

/// Writes the cases of `count` trials of a model, from trial `first` on, a line each: the case in the form, as
/// `convert_items` writes it; or if a callback fault leaves the trial without a case, `genfault NUMBER COMMAND CALLBACK
/// KIND`, in JSON an object with these members. A campaign with these settings tries the same case in the trial of the
/// same number. Generates several cases at once, and writes lines as it goes, to the file if there is one, else to `out`.
///
/// The status is `Failed` if a callback faults, else `Accepted`. If the model is refused, writes its refusal alone to
/// `out`, with the status `Refused`. If an allocation fails, writes `refused memory` after the lines so far, with the
/// status `Lost`; alone and to `out` if it fails before the plan is made. In JSON both are objects. The status is also
/// `Lost` if the writer fails.
pub fn generate_cases<F: Sink, W: Sink, R: Threads + Sync>(
    rt: &R,
    alloc: Global,
    input: &InputText<'_>,
    form: ItemForm,
    settings: Settings,
    first: u64,
    count: u64,
    to: &mut Destinations<F, W>,
) -> Status
    requires ranges { AreInRange settings }
    requires numbers { first + count < 2 ^ 64 }
    requires stands { Stands F.broken W.broken to.old }
    ensures prints { Reaches (memory_in form) (IsMeant (IsGenerateOutput form settings first count) input.now)
        (Delivers F.taken F.broken W.taken W.broken to.old to.new result) }
{
    let memory = memory_text(form.form_beside());
    let plan = match plan_of_input(alloc, input.plain(), settings) {
        Ok(Ok(plan)) => plan,
        Ok(Err(refusal)) => {
            let refused = refused_model_answer(alloc, form.form_beside(), &refusal);
            return deliver(&refused, memory, to);
        }
        Err(AllocError) => return deliver(&Err(AllocError), memory, to),
    };
    match &mut to.file {
        Some(file) => write_cases(rt, alloc, &plan, form, first, count, file),
        None => write_cases(rt, alloc, &plan, form, first, count, &mut to.out),
    }
}
