//! What a command answers as a whole, and where it goes.
ghost use Rattle.std.specs.Prelude.{◌≡◌, true, false, IfOk, string_bytes};
ghost use Rattle.pst_cli.specs.Answering.{Delivers, Stands, memory_of, refuses, sent_status, sent_text};
ghost use Rattle.pst_cli.specs.Answers.{IsRefusalBy};
ghost use Rattle.pst_cli.specs.Outputs.{joined, worst_of};
ghost use Rattle.pst_cli.specs.Sending.{Sends};
ghost use Rattle.pst_cli.specs.Head.{refusal_line};
ghost use Rattle.pst_cli.specs.declared.answer.Status.TheVariants.{Refused};

use crate::objects::MEMORY_OBJECT;
use pst_runs::RunFault;
use pst_sexpr::{Sink, put_all};
use pst_typing::Refusal;
use std::alloc::{AllocError, Global};

/// How refusals, verdicts and reports are written.
#[derive(Clone, Copy, Debug, PartialEq, Eq, Drop)]
pub enum OutputForm {
    /// As lines of text.
    Text,
    /// As JSON objects, each on a line.
    Json,
}

/// The line that a command writes alone, as text, if an allocation fails.
pub(crate) const MEMORY_LINE: &[u8] = b"refused memory\n";

/// What is written if an allocation fails.
pub(crate) fn memory_text(form: OutputForm) -> &'static [u8]
    ensures { result.now ≡ memory_of form }
{
    match form {
        OutputForm::Text => MEMORY_LINE,
        OutputForm::Json => MEMORY_OBJECT,
    }
}

/// A piece of an answer: a text, and the status that the program would have with it alone.
#[derive(Debug, Drop)]
pub struct Output {
    pub text: Vec<u8>,
    pub status: Status,
}

impl Output {
    /// An output of this text and status. Allocates nothing.
    pub fn new(text: String, status: Status) -> Output
        ensures text { result.text.items ≡ string_bytes text }
        ensures status { result.status ≡ status }
    {
        let text = text.into_bytes();
        Output { text, status }
    }
}

/// What a whole input is refused for.
#[derive(Clone, Copy, Debug, PartialEq, Eq, Drop)]
pub enum InputRefusal {
    /// It does not begin with a well-typed model.
    Model(Refusal),
    /// An item after the model is refused.
    Item(RunFault),
}

/// All that a command writes, and the status of the program.
#[derive(Debug, Drop)]
pub struct Answer {
    /// The bytes that are written.
    pub text: Vec<u8>,
    /// The status of the program, if they are written.
    pub status: Status,
    /// Whether the text refuses the whole input. It then never goes to a file for results.
    pub refuses: bool,
    /// What the text refuses the whole input for, if it does.
    pub refusal: Option<InputRefusal>,
}

impl Answer {
    /// The refusal of the whole input by this line, for `refusal` if it is known. Allocates nothing.
    pub(crate) fn refusal(line: String, refusal: Option<InputRefusal>) -> Answer
        ensures { IsRefusalBy (string_bytes line) Refused result }
    {
        Answer {
            text: line.into_bytes(),
            status: Status::Refused,
            refuses: true,
            refusal,
        }
    }
}

/// The two places that an answer may go to.
#[derive(Drop)]
pub struct Destinations<F, W> {
    /// The file for results, if there is one. An answer goes there unless it refuses the whole input.
    pub file: Option<F>,
    /// The place for all other answers.
    pub out: W,
}

/// Writes a text and returns the status, or `Lost` if the writer failed.
pub(crate) fn send_text<W: Sink>(text: &[u8], status: Status, sink: &mut W) -> Status
    requires { W.broken sink.old ≡ false }
    ensures { Sends (W.taken sink.old) (W.taken sink.new) (W.broken sink.new) result text.now status }
{
    match put_all(text, sink) {
        Ok(()) => status,
        Err(_) => Status::Lost,
    }
}

/// Writes an answer, or `memory` if an allocation failed, and returns its status, or `Lost` if the writer failed.
pub(crate) fn send<W: Sink>(
    answer: &Result<Answer, AllocError>,
    memory: &[u8],
    sink: &mut W,
) -> Status
    requires { W.broken sink.old ≡ false }
    ensures { Sends (W.taken sink.old) (W.taken sink.new) (W.broken sink.new) result
        (sent_text memory.now answer.now) (sent_status answer.now) }
{
    match answer {
        Ok(answer) => send_text(answer.text.as_slice(), answer.status, sink),
        Err(AllocError) => send_text(memory, Status::Lost, sink),
    }
}

/// Whether an answer refuses the whole input, or an allocation failed.
fn is_refusal(answer: &Result<Answer, AllocError>) -> bool
    ensures { result ≡ refuses answer.now }
{
    match answer {
        Ok(answer) => answer.refuses,
        Err(AllocError) => true,
    }
}

/// What an answer refuses the whole input for, if it does.
pub(crate) fn refusal_of(answer: &Result<Answer, AllocError>) -> Option<InputRefusal> {
    match answer {
        Ok(answer) => answer.refusal,
        Err(AllocError) => None,
    }
}

/// Writes an answer, or `memory` if an allocation failed, to the file if there is one and it is no refusal, else to
/// `out`. Returns its status, or `Lost` if the writer failed.
pub(crate) fn deliver<F: Sink, W: Sink>(
    answer: &Result<Answer, AllocError>,
    memory: &[u8],
    to: &mut Destinations<F, W>,
) -> Status
    requires { Stands F.broken W.broken to.old }
    ensures { Delivers F.taken F.broken W.taken W.broken to.old to.new result
        (refuses answer.now) (sent_text memory.now answer.now) (sent_status answer.now) }
{
    if is_refusal(answer) {
        return send(answer, memory, &mut to.out);
    }
    match &mut to.file {
        Some(file) => send(answer, memory, file),
        None => send(answer, memory, &mut to.out),
    }
}

/// The texts of the outputs, one after another, and the worst of `so_far` and their statuses.
pub(crate) fn joined_outputs_with_worst_status(
    alloc: Global,
    so_far: Status,
    outputs: &[Output],
) -> Result<Output, AllocError>
    ensures text { IfOk result (λ output. output.text.items ≡ joined outputs.now) }
    ensures status { IfOk result (λ output. output.status ≡ worst_of so_far outputs.now) }
{
    let mut text = Vec::new(alloc);
    let mut status = so_far;
    for output in outputs {
        text.extend_from_slice(output.text.as_slice())?;
        status = status.or_worse(output.status);
    }
    Ok(Output { text, status })
}

/// The status of the program.
#[derive(Clone, Copy, Debug, PartialEq, Eq, Drop)]
pub enum Status {
    /// All is accepted, explained or valid.
    Accepted = 0,
    /// Something is not accepted, explained or valid.
    Failed = 1,
    /// The input or the arguments are refused.
    Refused = 2,
    /// An allocation or the writer failed.
    Lost = 3,
}

impl Status {
    ghost use Rattle.std.specs.Prelude.{◌≡◌};
    ghost use Rattle.pst_cli.specs.Status.{code_of, or_worse};

    /// The exit status of the process.
    pub fn code(self) -> u8
        ensures { result ≡ code_of self }
    {
        match self {
            Status::Accepted => 0,
            Status::Failed => 1,
            Status::Refused => 2,
            Status::Lost => 3,
        }
    }

    /// The status with the greater code.
    pub fn or_worse(self, other: Status) -> Status
        ensures { result ≡ or_worse self other }
    {
        if self.code() < other.code() {
            other
        } else {
            self
        }
    }
}

/// `refused read KIND at PLACE`, `refused model KIND item I` or `refused type item I`.
pub(crate) fn refusal_answer(alloc: Global, refusal: &Refusal) -> Result<Answer, AllocError>
    ensures { IfOk result (IsRefusalBy (refusal_line refusal.now) Refused) }
{
    let line = format!(in alloc; "refused {refusal}\n")?;
    Ok(Answer::refusal(line, Some(InputRefusal::Model(*refusal))))
}
