//! The commands that only read a model or its items and write them: `pst check`, `pst list` and `pst convert`.
ghost use Rattle.std.specs.Prelude.{◌≡◌, false, IfOk, string_bytes};
ghost use Rattle.pst_cli.specs.Answering.{Delivers, Reaches, Stands, memory_of};
ghost use Rattle.pst_cli.specs.Answers.{Answers};
ghost use Rattle.pst_cli.specs.Commands.{IsMeant, check_answer};
ghost use Rattle.pst_cli.specs.Output.{IsCheckOutput, ok_line};
ghost use Rattle.pst_cli.specs.Sending.{Prints, memory_line};
ghost use Rattle.pst_cli.specs.ListOutput.{IsListOutput};
ghost use Rattle.pst_cli.specs.ConvertOutput.{IsConvertOutput, line_in, lines_in};
ghost use Rattle.pst_runs.specs.Lawful.{AreLawful, IsLawful};

use crate::answer::{
    Answer, Destinations, MEMORY_LINE, OutputForm, Status, deliver, memory_text, refusal_answer,
    refusal_of, send,
};
use crate::attendant::Attendant;
use crate::input::{ModelAndRuns, compile_model_of_input, read_model_and_runs_of_input};
use crate::item_output::tree_line_of_run;
use crate::objects::check_object_answer;
use pst_case::Run;
use pst_compile::listing;
use pst_input::InputText;
use pst_json_runs::run_json_line;
use pst_model::Typed;
use pst_sexpr::Sink;
use pst_typing::{load, model_name};
use std::alloc::{AllocError, Global};

/// `ok NAME`.
fn accepted_model_line(alloc: Global, typed: &Typed) -> Result<String, AllocError>
    ensures { IfOk result (λ line. string_bytes line ≡ ok_line typed.now) }
{
    let name = model_name(typed).as_str();
    format!(in alloc; "ok {name}\n")
}

/// `ok NAME`, or the first refusal.
fn check_line_answer(alloc: Global, input: &[u8]) -> Result<Answer, AllocError>
    ensures { IfOk result (Answers (IsCheckOutput input.now)) }
{
    match load(alloc, input)? {
        Ok(file) => Ok(Answer {
            text: accepted_model_line(alloc, &file.typed)?.into_bytes(),
            status: Status::Accepted,
            refuses: false,
            refusal: None,
        }),
        Err(refusal) => refusal_answer(alloc, &refusal),
    }
}

/// The model's name, or its first refusal, in a form. `notices` follow an object.
fn check_answer(
    alloc: Global,
    input: &[u8],
    form: OutputForm,
    notices: &[u8],
) -> Result<Answer, AllocError>
    ensures { IfOk result (Answers (check_answer form notices.now input.now)) }
{
    match form {
        OutputForm::Text => check_line_answer(alloc, input),
        OutputForm::Json => check_object_answer(alloc, input, notices),
    }
}

/// Writes `ok NAME` if the first tree of the input is a well-typed model, else the first refusal of the input, and
/// returns the status. If an allocation fails, writes `refused memory` alone.
pub fn check_text<W: Sink>(alloc: Global, input: &[u8], sink: &mut W) -> Status
    requires { W.broken sink.old ≡ false }
    ensures { Prints (IsCheckOutput input.now) (W.taken sink.old) (W.taken sink.new) (W.broken sink.new)
        result }
{
    send(&check_line_answer(alloc, input), MEMORY_LINE, sink)
}

/// Does what [`check_text`] does. As JSON, writes the object of the model or of its refusal, and then the notices, which
/// are lines of objects.
pub fn check_model<F: Sink, W: Sink, A: Attendant>(
    alloc: Global,
    input: &InputText<'_>,
    form: OutputForm,
    notices: &[u8],
    attendant: &mut A,
    to: &mut Destinations<F, W>,
) -> Status
    requires stands { Stands F.broken W.broken to.old }
    ensures prints { Reaches (memory_of form) (IsMeant (check_answer form notices.now) input.now)
        (Delivers F.taken F.broken W.taken W.broken to.old to.new result) }
{
    let answer = check_answer(alloc, input.plain(), form, notices);
    attendant.before_output(refusal_of(&answer));
    deliver(&answer, memory_text(form), to)
}

/// The listing of the model, or the first refusal.
fn list_answer(alloc: Global, input: &[u8]) -> Result<Answer, AllocError>
    ensures { IfOk result (Answers (IsListOutput input.now)) }
{
    match compile_model_of_input(alloc, input)? {
        Ok(file) => Ok(Answer {
            text: listing(alloc, &file.compiled)?.into_vec(),
            status: Status::Accepted,
            refuses: false,
            refusal: None,
        }),
        Err(refusal) => refusal_answer(alloc, &refusal),
    }
}

/// Writes the listing of the well-typed model at the start of the input, a line for each instruction of its code, or
/// else the first refusal of the input, and returns the status. If an allocation fails, writes `refused memory` alone.
pub fn list_text<W: Sink>(alloc: Global, input: &[u8], sink: &mut W) -> Status
    requires { W.broken sink.old ≡ false }
    ensures { Prints (IsListOutput input.now)
        (W.taken sink.old) (W.taken sink.new) (W.broken sink.new) result }
{
    send(&list_answer(alloc, input), MEMORY_LINE, sink)
}

/// Does what [`list_text`] does.
pub fn list_model<F: Sink, W: Sink, A: Attendant>(
    alloc: Global,
    input: &InputText<'_>,
    attendant: &mut A,
    to: &mut Destinations<F, W>,
) -> Status
    requires stands { Stands F.broken W.broken to.old }
    ensures prints { Reaches memory_line (IsMeant IsListOutput input.now)
        (Delivers F.taken F.broken W.taken W.broken to.old to.new result) }
{
    let answer = list_answer(alloc, input.plain());
    attendant.before_output(refusal_of(&answer));
    deliver(&answer, MEMORY_LINE, to)
}

/// How items are spelled.
#[derive(Clone, Copy, Debug, PartialEq, Eq, Drop)]
pub enum ItemForm {
    /// As trees.
    Trees,
    /// As JSON.
    Json,
}

/// An item on a line.
pub(crate) fn item_line_in_form(
    alloc: Global,
    form: ItemForm,
    typed: &Typed,
    run: &Run,
) -> Result<Vec<u8>, AllocError>
    requires { IsLawful typed.now run.now }
    ensures { IfOk result (λ line. line.items ≡ line_in form typed.now run.now) }
{
    match form {
        ItemForm::Trees => tree_line_of_run(alloc, typed, run),
        ItemForm::Json => run_json_line(alloc, typed, run),
    }
}

/// Items, one on each line.
fn item_lines_in_form(
    alloc: Global,
    form: ItemForm,
    typed: &Typed,
    runs: &[Run],
) -> Result<Vec<u8>, AllocError>
    requires { AreLawful typed.now runs.now }
    ensures { IfOk result (λ text. text.items ≡ lines_in form typed.now runs.now) }
{
    let mut text = Vec::new(alloc);
    let mut rest = runs;
    while let Some((run, others)) = rest.split_first() {
        text.extend_from_slice(item_line_in_form(alloc, form, typed, run)?.as_slice())?;
        rest = others;
    }
    Ok(text)
}

/// The items of an input in a form, or its first refusal.
fn convert_answer(alloc: Global, input: &[u8], form: ItemForm) -> Result<Answer, AllocError>
    ensures { IfOk result (Answers (IsConvertOutput form input.now)) }
{
    let ModelAndRuns { compiled, runs } = match read_model_and_runs_of_input(alloc, input)? {
        Ok(read) => read,
        Err(answer) => return Ok(answer),
    };
    let text = item_lines_in_form(alloc, form, compiled.typed(), runs.as_slice())?;
    Ok(Answer {
        text,
        status: Status::Accepted,
        refuses: false,
        refusal: None,
    })
}

/// Writes the items of the input in a form, one on each line, or the first refusal alone, and returns the status. If an
/// allocation fails, writes `refused memory` alone.
pub fn convert_items<F: Sink, W: Sink, A: Attendant>(
    alloc: Global,
    input: &InputText<'_>,
    form: ItemForm,
    attendant: &mut A,
    to: &mut Destinations<F, W>,
) -> Status
    requires stands { Stands F.broken W.broken to.old }
    ensures prints { Reaches memory_line (IsMeant (IsConvertOutput form) input.now)
        (Delivers F.taken F.broken W.taken W.broken to.old to.new result) }
{
    let answer = convert_answer(alloc, input.plain(), form);
    attendant.before_output(refusal_of(&answer));
    deliver(&answer, MEMORY_LINE, to)
}
