//! Conditions that check only some answers of a history, or other answers in place of a recorded one.
ghost use Rattle.std.specs.Prelude.{◌≡◌, ◌++◌, []};
ghost use Rattle.pst_reasons.specs.Reasons.{is_among};

use crate::answers::{is_answer_right, is_any_answer_right};
use crate::cores::split_first_number;
use pst_eval::Callbacks;
use pst_judge::{Condition, Event, Postconditions};
use pst_model::Source;
use pst_value::{Fault, Value};
use std::alloc::{AllocError, Global};

/// Checks the postconditions of the commands `first` and `rest`. Those of other commands count as true.
#[derive(Clone, Copy, Drop)]
pub struct SomePostconditions<'a> {
    /// Numbers of commands.
    pub first: &'a [u32],
    /// More numbers of commands.
    pub rest: &'a [u32],
}

fn is_command_number_among(number: u32, numbers: &[u32]) -> bool
    ensures { result ≡ is_among number numbers.now }
{
    let Some((first, rest)) = split_first_number(numbers) else {
        return false;
    };
    *first == number || is_command_number_among(number, rest)
}

/// Returns whether `number` is in `first` or in `rest`.
#[tactic(auto, using(crate::proofs::Among::among_append))]
fn is_postcondition_checked(number: u32, first: &[u32], rest: &[u32]) -> bool
    ensures { result ≡ is_among number (first.now ++ rest.now) }
{
    is_command_number_among(number, first) || is_command_number_among(number, rest)
}

impl<'a> Condition for SomePostconditions<'a> {
    ghost use Rattle.std.specs.Prelude.{◌++◌};
    ghost use Rattle.pst_reasons.specs.Reasons.{asks};

    ghost asked = { λ a m s e. asks (a.first.now ++ a.rest.now) m s e };

    fn evaluate_on_event<C: Callbacks>(
        &self,
        callbacks: &C,
        alloc: Global,
        state: &Value,
        event: &Event,
    ) -> Result<Result<bool, Fault>, AllocError> {
        if is_postcondition_checked(event.number, self.first, self.rest) {
            return Postconditions.evaluate_on_event(callbacks, alloc, state, event);
        }
        Ok(Ok(true))
    }
}

/// Checks whether `answer` would be right for command `number`, and whether the recorded answers of `others` are right.
#[derive(Clone, Copy, Drop)]
pub struct AnswerReplaced<'a> {
    pub model: &'a Source,
    pub number: u32,
    pub answer: &'a Value,
    /// The numbers of the others.
    pub others: &'a [u32],
}

/// Checks whether none of `answers` would be right for command `number`, and whether the recorded answers of `others`
/// are right.
#[derive(Clone, Copy, Drop)]
pub struct AnswersExcluded<'a> {
    pub model: &'a Source,
    pub number: u32,
    pub answers: &'a [Value],
    /// The numbers of the others.
    pub others: &'a [u32],
}

impl<'a> Condition for AnswerReplaced<'a> {
    ghost use Rattle.pst_reasons.specs.Allowed.{asks_at};
    ghost use Rattle.pst_reasons.specs.Allowed as spec;

    ghost asked = { λ a m s e. asks_at a.number (λ t d. spec.is_right a.model.now t d a.answer.now)
        a.others.now m s e };

    fn evaluate_on_event<C: Callbacks>(
        &self,
        callbacks: &C,
        alloc: Global,
        state: &Value,
        event: &Event,
    ) -> Result<Result<bool, Fault>, AllocError> {
        if event.number == self.number {
            return is_answer_right(self.model, alloc, state, event, self.answer);
        }
        let others = SomePostconditions {
            first: self.others,
            rest: &[],
        };
        others.evaluate_on_event(callbacks, alloc, state, event)
    }
}

impl<'a> Condition for AnswersExcluded<'a> {
    ghost use Rattle.pst_reasons.specs.Allowed.{asks_at, none_is_right};

    ghost asked = { λ a m s e. asks_at a.number (λ t d. none_is_right a.model.now t d a.answers.now)
        a.others.now m s e };

    fn evaluate_on_event<C: Callbacks>(
        &self,
        callbacks: &C,
        alloc: Global,
        state: &Value,
        event: &Event,
    ) -> Result<Result<bool, Fault>, AllocError> {
        if event.number == self.number {
            return match is_any_answer_right(self.model, alloc, state, event, self.answers)? {
                Ok(right) => Ok(Ok(!right)),
                Err(fault) => Ok(Err(fault)),
            };
        }
        let others = SomePostconditions {
            first: self.others,
            rest: &[],
        };
        others.evaluate_on_event(callbacks, alloc, state, event)
    }
}
