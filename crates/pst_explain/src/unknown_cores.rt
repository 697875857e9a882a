//! Cores of runs in which calls have unknown outcomes.
ghost use Rattle.pst_reasons.specs.Answered.{IsRunOfCalls};

use crate::allowing::{WrongAnswer, wanted_reply_or_opposite_bool};
use crate::bounded::StepLimitedCallbacks;
use crate::cores::{Core, CoreAnswer, core_answer_without_allowed_values};
use pst_case::Reply;
use pst_eval::Callbacks;
use pst_judge::{Condition, Verdict, verdict_with_unknown};
use pst_reasons::{
    AllowedValues, AnswerReplaced, AnswersExcluded, Order, RecordedRun, SomePostconditions,
    append_numbers_without,
};
use pst_scene::{
    Call, Scene, call_numbered, calls_along_letters, count_calls_before_number, first_calls,
    states_along_calls, why_postcondition_is_not_true,
};
use pst_value::{Items, Value};
use std::alloc::{AllocError, Global};

/// The maximum number of allowed values to find.
const MOST: usize = 8;

/// Returns the letters of the first interleaving that makes the condition true of each call with a value, if there is one.
fn letters_satisfying_condition<C: Callbacks, O: Order, A: Condition>(
    run: &RecordedRun<'_, StepLimitedCallbacks<'_, C>, O>,
    condition: &A,
) -> Result<Option<Vec<usize>>, AllocError>
    requires calls { let r = run.now in
        IsRunOfCalls (C.model r.callbacks.now.callbacks.now) (O.order r.order.now) r.shaped.now r.history.now }
{
    match verdict_with_unknown(
        run.callbacks,
        condition,
        run.order,
        run.alloc,
        run.shaped,
        run.history,
    )? {
        Verdict::Explained(letters) => Ok(Some(letters)),
        Verdict::Faulted(_) | Verdict::Unexplained(_) | Verdict::Broken(_) => Ok(None),
    }
}

/// Returns the numbers of the calls with values.
fn numbers_of_answered_calls(alloc: Global, scene: &Scene<'_>) -> Result<Vec<u32>, AllocError> {
    let mut numbers = Vec::new(alloc);
    for call in &scene.all {
        if matches!(call.reply, Some(Reply::Value(_))) {
            numbers.push(call.number)?;
        }
    }
    Ok(numbers)
}

/// Returns the numbers of calls whose answers cannot all be right, while without any one of them the others can. Calls are
/// left out from the greatest number down if the others stay impossible.
fn minimal_core_with_unknown_outcomes<C: Callbacks, O: Order>(
    run: &RecordedRun<'_, StepLimitedCallbacks<'_, C>, O>,
    scene: &Scene<'_>,
) -> Result<Vec<u32>, AllocError>
    requires calls { let r = run.now in
        IsRunOfCalls (C.model r.callbacks.now.callbacks.now) (O.order r.order.now) r.shaped.now r.history.now }
{
    let all = numbers_of_answered_calls(run.alloc, scene)?;
    let mut first = all.as_slice();
    let mut core = Vec::new(run.alloc);
    for _call in &all {
        let Some((number, others)) = first.split_last() else {
            return Ok(core);
        };
        let asked = SomePostconditions {
            first: others,
            rest: core.as_slice(),
        };
        if letters_satisfying_condition(run, &asked)?.is_some() {
            core.insert(0, *number)?;
        }
        first = others;
    }
    Ok(core)
}

/// Returns the state before a call in an interleaving.
fn state_before_call<'a>(
    alloc: Global,
    scene: &Scene<'a>,
    letters: &[usize],
    call: &Call<'_>,
) -> Result<Option<Value>, AllocError> {
    let calls = calls_along_letters(alloc, &scene.counted, letters)?;
    let count = count_calls_before_number(calls.as_slice(), call.number);
    let before = first_calls(alloc, calls.as_slice(), count)?;
    let mut states = states_along_calls(alloc, scene, before.as_slice())?;
    if states.len() <= before.len() {
        return Ok(None);
    }
    Ok(states.pop())
}

/// Returns why the answer of a call is wrong in an interleaving in which the rest of the core is right.
fn why_answer_is_wrong<'a>(
    alloc: Global,
    scene: &Scene<'a>,
    call: &Call<'_>,
    letters: Vec<usize>,
) -> Result<Option<WrongAnswer<'a>>, AllocError> {
    let Some(state) = state_before_call(alloc, scene, letters.as_slice(), call)? else {
        return Ok(None);
    };
    let falsity = why_postcondition_is_not_true(alloc, scene, call, &state)?;
    Ok(Some(WrongAnswer {
        interleaving: letters,
        state,
        falsity,
    }))
}

/// Whether a value is one of `values`.
fn is_among(value: &Value, values: &[Value]) -> bool {
    values.iter().any(|other| other == value)
}

/// Returns the answer that the postcondition of a call requires in an interleaving, if it is new and right in one in which
/// the rest of the core is right.
fn new_allowed_answer<'a, C: Callbacks, O: Order>(
    run: &RecordedRun<'_, StepLimitedCallbacks<'_, C>, O>,
    scene: &Scene<'a>,
    others: &[u32],
    call: &Call<'_>,
    letters: &[usize],
    known: &[Value],
) -> Result<Option<Value>, AllocError>
    requires calls { let r = run.now in
        IsRunOfCalls (C.model r.callbacks.now.callbacks.now) (O.order r.order.now) r.shaped.now r.history.now }
{
    run.callbacks
        .charge_calls_like_longest_or_fail(scene.all.len())?;
    let Some(state) = state_before_call(run.alloc, scene, letters, call)? else {
        return Ok(None);
    };
    let Some(answer) = wanted_reply_or_opposite_bool(run.alloc, scene, call, &state)? else {
        return Ok(None);
    };
    if is_among(&answer, known) {
        return Ok(None);
    }
    let replaced = AnswerReplaced {
        model: scene.model,
        number: call.number,
        answer: &answer,
        others,
    };
    if letters_satisfying_condition(run, &replaced)?.is_some() {
        Ok(Some(answer))
    } else {
        Ok(None)
    }
}

/// Returns what the model allows in place of the answer of a call, in the interleavings in which the rest of the core is
/// right.
fn allowed_answers<C: Callbacks, O: Order>(
    run: &RecordedRun<'_, StepLimitedCallbacks<'_, C>, O>,
    scene: &Scene<'_>,
    others: &[u32],
    call: &Call<'_>,
) -> Result<AllowedValues, AllocError>
    requires calls { let r = run.now in
        IsRunOfCalls (C.model r.callbacks.now.callbacks.now) (O.order r.order.now) r.shaped.now r.history.now }
{
    let mut values = Items::new(run.alloc);
    for _value in 0..=MOST {
        let excluded = AnswersExcluded {
            model: scene.model,
            number: call.number,
            answers: values.as_slice(),
            others,
        };
        let Some(letters) = letters_satisfying_condition(run, &excluded)? else {
            return Ok(AllowedValues { values, all: true });
        };
        if values.len() >= MOST {
            return Ok(AllowedValues { values, all: false });
        }
        let known = values.as_slice();
        let letters = letters.as_slice();
        match new_allowed_answer(run, scene, others, call, letters, known)? {
            Some(answer) => values.push(answer)?,
            None => return Ok(AllowedValues { values, all: false }),
        }
    }
    Ok(AllowedValues { values, all: false })
}

/// Adds to an answer of a core what the model allows in its place, and why it is wrong if the explanation has to say so.
fn set_allowed_answers_and_needed_reason<'a, C: Callbacks, O: Order>(
    run: &RecordedRun<'_, StepLimitedCallbacks<'_, C>, O>,
    scene: &Scene<'a>,
    core: &[u32],
    answer: &mut CoreAnswer<'a>,
) -> Result<(), AllocError>
    requires calls { let r = run.now in
        IsRunOfCalls (C.model r.callbacks.now.callbacks.now) (O.order r.order.now) r.shaped.now r.history.now }
{
    let call = answer.call;
    let others = append_numbers_without(call.number, core, Vec::new(run.alloc))?;
    answer.allowed = allowed_answers(run, scene, others.as_slice(), &call)?;
    if answer.needs_reason_why_wrong() {
        let rest = SomePostconditions {
            first: others.as_slice(),
            rest: &[],
        };
        if let Some(letters) = letters_satisfying_condition(run, &rest)? {
            answer.wrong = why_answer_is_wrong(run.alloc, scene, &call, letters)?;
        }
    }
    Ok(())
}

/// Returns a core of a run in which calls have unknown outcomes, with what the model allows in place of each answer as far
/// as the steps of its callbacks last. `AllocError` too if they do not last for the core.
pub fn find_core_with_unknown_outcomes<'a, C: Callbacks, O: Order>(
    run: &RecordedRun<'_, StepLimitedCallbacks<'_, C>, O>,
    scene: &Scene<'a>,
) -> Result<Core<'a>, AllocError>
    requires calls { let r = run.now in
        IsRunOfCalls (C.model r.callbacks.now.callbacks.now) (O.order r.order.now) r.shaped.now r.history.now }
{
    let numbers = minimal_core_with_unknown_outcomes(run, scene)?;
    let numbers = numbers.as_slice();
    let mut answers = Vec::new(run.alloc);
    for number in numbers {
        if let Some(call) = call_numbered(scene.all.as_slice(), *number) {
            let mut answer = core_answer_without_allowed_values(run.alloc, scene, call)?;
            if !run.callbacks.has_failed_for_lack_of_steps() {
                let searched = set_allowed_answers_and_needed_reason(
                    run,
                    scene,
                    numbers,
                    &mut answer,
                );
                let _found = run.callbacks.none_if_out_of_steps(searched)?;
            }
            answers.push(answer)?;
        }
    }
    Ok(Core {
        answers,
        is_cut: run.callbacks.has_failed_for_lack_of_steps(),
    })
}
