//! The answers that cannot all be right.
ghost use Rattle.std.specs.Prelude.{◌≡◌};
ghost use Rattle.pst_reasons.specs.Answered.{IsAnsweredRun};
ghost use Rattle.pst_reasons.specs.Reasons.{IsUnexplained};

use crate::allowing::{
    WrongAnswer, allowed_answers_for_explanation, why_answer_contradicts_rest_of_core,
};
use crate::bounded::StepLimitedCallbacks;
use pst_eval::Callbacks;
use pst_reasons::{AllowedValues, Order, RecordedRun, minimal_core};
use pst_scene::{
    Call, CasePart, Scene, call_numbered, operation_of_call, postcondition_wants_one_reply,
};
use pst_value::Items;
use std::alloc::{AllocError, Global};

/// An answer of a core.
#[derive(Drop)]
pub struct CoreAnswer<'a> {
    /// The command that answered it.
    pub call: Call<'a>,
    /// What the model allows in its place if the rest of the core is right; at most eight values.
    pub allowed: AllowedValues,
    /// Whether the form of its postcondition is that one answer alone is right on a state.
    pub has_one_reply: bool,
    /// Why it is wrong in the first interleaving in which the rest of the core is right, if it has no single reply or
    /// no allowed reply is known.
    pub wrong: Option<WrongAnswer<'a>>,
}

/// The answers of an item that cannot all be right, while without any one of them the others can. There are none if the
/// model faults in every interleaving, whatever is answered.
#[derive(Drop)]
pub struct Core<'a> {
    pub answers: Vec<CoreAnswer<'a>>,
    /// Whether what the model allows in place of some answers was not searched to the end, because that takes too many
    /// steps.
    pub is_cut: bool,
}

impl<'a> CoreAnswer<'a> {
    /// Returns whether the explanation has to say why the answer is wrong.
    pub fn needs_reason_why_wrong(&self) -> bool {
        self.allowed.values.is_empty() || !self.has_one_reply
    }

    /// Whether each answer that the model allows is known.
    pub fn is_allowed_list_complete(&self) -> bool {
        self.allowed.all && self.has_one_reply
    }
}

impl<'a> Core<'a> {
    /// The numbers of the commands.
    pub fn command_numbers(&self, alloc: Global) -> Result<Vec<u32>, AllocError> {
        let mut numbers = Vec::new(alloc);
        for answer in &self.answers {
            numbers.push(answer.call.number)?;
        }
        Ok(numbers)
    }

    /// Whether there are answers and all are in the prefix, so that no race is needed.
    pub fn has_answers_only_in_prefix(&self) -> bool {
        for answer in &self.answers {
            if answer.call.part != CasePart::Prefix {
                return false;
            }
        }
        !self.answers.is_empty()
    }
}

/// Returns whether the postcondition of a command requires one single reply.
fn has_postcondition_with_single_reply(
    alloc: Global,
    scene: &Scene<'_>,
    call: &Call<'_>,
) -> Result<bool, AllocError> {
    match operation_of_call(scene, call) {
        Some(operation) => postcondition_wants_one_reply(alloc, &operation.post),
        None => Ok(false),
    }
}

/// Adds to an answer of a core what the model allows in its place, and why it is wrong if the explanation has to say so.
/// `AllocError` too if the callbacks have no steps left.
fn set_allowed_values_and_needed_reason<'a, C: Callbacks, O: Order>(
    run: &RecordedRun<'_, StepLimitedCallbacks<'_, C>, O>,
    scene: &Scene<'a>,
    core: &[u32],
    answer: &mut CoreAnswer<'a>,
) -> Result<(), AllocError>
    requires model { scene.now.model.now ≡ C.model run.now.callbacks.now.callbacks.now }
    requires answered { let r = run.now in
        IsAnsweredRun (C.model r.callbacks.now.callbacks.now) (O.order r.order.now) r.shaped.now r.history.now }
{
    let call = answer.call;
    let allowed = allowed_answers_for_explanation(run, scene, core, &call)?;
    answer.allowed = allowed;
    if answer.needs_reason_why_wrong() {
        let wrong = why_answer_contradicts_rest_of_core(run, scene, core, &call)?;
        answer.wrong = wrong;
    }
    Ok(())
}

/// Returns the answer of a command of a core, before its allowed values are known.
pub fn core_answer_without_allowed_values<'a>(
    alloc: Global,
    scene: &Scene<'a>,
    call: Call<'a>,
) -> Result<CoreAnswer<'a>, AllocError> {
    Ok(CoreAnswer {
        call,
        allowed: AllowedValues {
            values: Items::new(alloc),
            all: false,
        },
        has_one_reply: has_postcondition_with_single_reply(alloc, scene, &call)?,
        wrong: None,
    })
}

/// Returns the answer of a command of a core. If the callbacks have no steps left, what the model allows is unknown.
fn core_answer_within_step_limit<'a, C: Callbacks, O: Order>(
    run: &RecordedRun<'_, StepLimitedCallbacks<'_, C>, O>,
    scene: &Scene<'a>,
    core: &[u32],
    call: Call<'a>,
) -> Result<CoreAnswer<'a>, AllocError>
    requires model { scene.now.model.now ≡ C.model run.now.callbacks.now.callbacks.now }
    requires answered { let r = run.now in
        IsAnsweredRun (C.model r.callbacks.now.callbacks.now) (O.order r.order.now) r.shaped.now r.history.now }
{
    let mut answer = core_answer_without_allowed_values(run.alloc, scene, call)?;
    if !run.callbacks.has_failed_for_lack_of_steps() {
        let searched = set_allowed_values_and_needed_reason(run, scene, core, &mut answer);
        let _found = run.callbacks.none_if_out_of_steps(searched)?;
    }
    Ok(answer)
}

/// Returns a core of the run, with what the model allows in place of each answer as far as the steps of its callbacks
/// last. `AllocError` too if they do not last for the core.
pub fn find_core_for_explanation<'a, C: Callbacks, O: Order>(
    run: &RecordedRun<'_, StepLimitedCallbacks<'_, C>, O>,
    scene: &Scene<'a>,
) -> Result<Core<'a>, AllocError>
    requires model { scene.now.model.now ≡ C.model run.now.callbacks.now.callbacks.now }
    requires answered { let r = run.now in
        IsAnsweredRun (C.model r.callbacks.now.callbacks.now) (O.order r.order.now) r.shaped.now r.history.now }
    requires unexplained { let r = run.now in IsUnexplained (C.model r.callbacks.now.callbacks.now)
        (O.order r.order.now) r.shaped.now.case r.history.now }
{
    let numbers = minimal_core(run)?;
    let numbers = numbers.as_slice();
    let mut answers = Vec::new(run.alloc);
    for number in numbers {
        if let Some(call) = call_numbered(scene.all.as_slice(), *number) {
            answers.push(core_answer_within_step_limit(run, scene, numbers, call)?)?;
        }
    }
    Ok(Core {
        answers,
        is_cut: run.callbacks.has_failed_for_lack_of_steps(),
    })
}
