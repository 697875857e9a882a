//! Checks whether answers would be right for an event.
ghost use Rattle.std.specs.Prelude.{◌≡◌, ◌∷◌, [], IfOk, MatchOption};
ghost use Rattle.pst_eval.specs.Callbacks.{post_of};
ghost use Rattle.pst_operators.specs.Answers.{Answers};
ghost use Rattle.pst_operators.specs.Operators as operators;
ghost use Rattle.pst_operators.specs.Outcome.{and_then};
ghost use Rattle.pst_reasons.specs.Allowed as spec;
ghost use Rattle.pst_reasons.specs.Allowed.{PostGives, IsReportOf};

use pst_eval::{Context, Env, eval};
use pst_judge::Event;
use pst_model::{Source, operation_of};
use pst_operators::{Stop, truth_of};
use pst_value::{Fault, Value};
use std::alloc::{AllocError, Global};

/// The number of turns that the evaluation of a postcondition may take.
const MAX_TURNS: u32 = 1_000_000;

/// Returns the value of the postcondition of an operation.
#[tactic(auto, using(crate::proofs::Posts::no_post))]
fn postcondition_value(
    model: &Source,
    alloc: Global,
    op: u32,
    state: &Value,
    arguments: &[Value],
    r: &Value,
) -> Result<Value, Stop>
    ensures { PostGives (post_of model.now op state.now arguments.now r.now) result }
{
    let items = model.items.as_slice();
    let Some(operation) = operation_of(items, op as usize) else {
        return Err(Stop::Stuck);
    };
    let context = Context {
        alloc,
        items,
        earlier: items,
    };
    let frame = Env::Frame(operation.params.as_slice(), arguments);
    let outer = Env::With(b"s", &*state, &frame);
    let inner = Env::With(b"r", &*r, &outer);
    let mut turns = MAX_TURNS;
    eval(&operation.post, &context, &inner, &mut turns)
}

/// Returns whether the postcondition of an event is true with `answer`.
fn is_postcondition_true_of_answer(
    model: &Source,
    alloc: Global,
    state: &Value,
    event: &Event,
    answer: &Value,
) -> Result<bool, Stop>
    ensures { Answers (and_then (post_of model.now event.now.op state.now event.now.args answer.now)
        (λ p. operators.truth_of p.0)) result }
{
    let arguments = event.args.as_slice();
    let value = postcondition_value(model, alloc, event.op, state, arguments, answer)?;
    truth_of(&value)
}

/// Returns whether `answer` would be right for an event on `state`, the state before it.
pub(crate) fn is_answer_right(
    model: &Source,
    alloc: Global,
    state: &Value,
    event: &Event,
    answer: &Value,
) -> Result<Result<bool, Fault>, AllocError>
    ensures { IfOk result (IsReportOf (spec.is_right model.now state.now event.now answer.now)) }
{
    match is_postcondition_true_of_answer(model, alloc, state, event, answer) {
        Ok(right) => Ok(Ok(right)),
        Err(Stop::Fault(fault)) => Ok(Err(fault)),
        Err(Stop::Stuck) => Ok(Ok(false)),
        Err(Stop::NoMemory) => Err(AllocError),
    }
}

pub(crate) fn split_first_answer(answers: &[Value]) -> Option<(&Value, &[Value])>
    ensures { MatchOption result (answers.now ≡ []) (λ p. answers.now ≡ p.0.now ∷ p.1.now) }
{
    answers.split_first()
}

/// Returns whether one of `answers` would be right for an event on `state`, the state before it.
pub(crate) fn is_any_answer_right(
    model: &Source,
    alloc: Global,
    state: &Value,
    event: &Event,
    answers: &[Value],
) -> Result<Result<bool, Fault>, AllocError>
    ensures { IfOk result (IsReportOf (spec.one_is_right model.now state.now event.now answers.now)) }
{
    let Some((first, rest)) = split_first_answer(answers) else {
        return Ok(Ok(false));
    };
    match is_answer_right(model, alloc, state, event, first)? {
        Ok(true) => Ok(Ok(true)),
        Ok(false) => is_any_answer_right(model, alloc, state, event, rest),
        Err(fault) => Ok(Err(fault)),
    }
}
