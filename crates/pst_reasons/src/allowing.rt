//! The answers that a model allows in place of a recorded one, and the searches that decide whether it does.
//!
//! An answer of a command is allowed if some interleaving makes it right, together with the answers of other
//! commands.
ghost use Rattle.std.specs.Prelude.{◌≡◌, ◌+◌, ◌<◌, ◌≤◌, true, false, IfOk, IfSome, length, List, ℕ, MatchOption};
ghost use Rattle.pst_reasons.specs.Allowed as spec;
ghost use Rattle.pst_reasons.specs.Allowed.{AreAllowedOnce, HasOneAnswer, HaveEachAllowed, IsAllowed, IsWhetherAll, AreAll, IsBeyond, IsWhetherAllowed};
ghost use Rattle.pst_reasons.specs.Answered.{IsAnsweredRun};
ghost use Rattle.pst_reasons.specs.Reasons as reasons;
ghost use Rattle.pst_reasons.specs.Reasons.{IsTrueInOrder};

use crate::answers::split_first_answer;
use crate::conditions::{AnswerReplaced, AnswersExcluded};
use crate::cores::append_numbers_without;
use crate::recorded::RecordedRun;
use pst_case::History;
use pst_eval::Callbacks;
use pst_grid::Order;
use pst_judge::{Condition, Verdict, verdict_with_condition_in_order};
use pst_model::Source;
use pst_value::{Items, Value};
use std::alloc::{AllocError, Global};

/// Answers of a command that a model allows.
#[derive(Debug, Drop)]
pub struct AllowedValues {
    /// The allowed answers, each once, in the order in which they were found.
    pub values: Items<Value>,
    /// Whether the model allows no others.
    pub all: bool,
}

/// Proposes answers. A proposal may be wrong: each is checked.
pub trait AnswerProposer {
    /// Returns an answer of the command that may be right in the interleaving `word`, if one is known. `word` has the
    /// branch, from 0, of each of its commands.
    fn propose_answer_for_interleaving(
        &self,
        alloc: Global,
        word: &[usize],
    ) -> Result<Option<Value>, AllocError>;
}

/// Returns whether `answer` is one of `answers`.
fn is_answer_one_of(answer: &Value, answers: &[Value]) -> bool
    ensures { result ≡ spec.is_one_of answer.now answers.now }
{
    let Some((first, rest)) = split_first_answer(answers) else {
        return false;
    };
    *first == *answer || is_answer_one_of(answer, rest)
}

/// Returns the proposed answer for the interleaving `word`, if it is new and the model allows it.
fn proposed_answer_if_new_and_allowed<C: Callbacks, O: Order, P: AnswerProposer>(
    question: &AnswerQuestion<'_, C, O>,
    candidates: &P,
    word: &[usize],
    known: &[Value],
) -> Result<Option<Value>, AllocError>
    requires answered { let r = question.now.run.now in
        IsAnsweredRun (C.model r.callbacks.now) (O.order r.order.now) r.shaped.now r.history.now }
    requires same { question.now.model.now ≡ C.model question.now.run.now.callbacks.now }
    ensures allowed { let q = question.now in let r = q.run.now in IfOk result (λ found. IfSome found
        (IsAllowed (C.model r.callbacks.now) (O.order r.order.now) r.shaped.now.case r.history.now q.others.now
        q.number)) }
    ensures new { IfOk result (λ found. IfSome found (λ value. spec.is_one_of value known.now ≡ false)) }
{
    let Some(value) = candidates.propose_answer_for_interleaving(question.run.alloc, word)? else {
        return Ok(None);
    };
    if is_answer_one_of(&value, known) {
        return Ok(None);
    }
    let allowed = is_answer_allowed(question, &value)?;
    if allowed { Ok(Some(value)) } else { Ok(None) }
}

/// Returns `answers` and the recorded answer of command `number`.
fn answers_and_recorded_answer(
    alloc: Global,
    history: &History,
    number: u32,
    answers: &[Value],
) -> Result<Vec<Value>, AllocError> {
    let mut all = Vec::new(alloc);
    for answer in answers {
        all.push(answer.copy(alloc)?)?;
    }
    let results = history.recorded(alloc)?;
    let index = (number as usize).saturating_sub(1);
    if let Some(Some(answer)) = results.get(index) {
        all.push(answer.copy(alloc)?)?;
    }
    Ok(all)
}

/// Returns the proposed answer for an interleaving in which the recorded answer and the known ones are wrong, if it is
/// new and the model allows it. The postcondition does not fault in such an interleaving.
fn proposed_answer_where_known_are_wrong<C: Callbacks, O: Order, P: AnswerProposer>(
    question: &AnswerQuestion<'_, C, O>,
    candidates: &P,
    known: &[Value],
) -> Result<Option<Value>, AllocError>
    requires answered { let r = question.now.run.now in
        IsAnsweredRun (C.model r.callbacks.now) (O.order r.order.now) r.shaped.now r.history.now }
    requires same { question.now.model.now ≡ C.model question.now.run.now.callbacks.now }
    ensures allowed { let q = question.now in let r = q.run.now in IfOk result (λ found. IfSome found
        (IsAllowed (C.model r.callbacks.now) (O.order r.order.now) r.shaped.now.case r.history.now q.others.now
        q.number)) }
    ensures new { IfOk result (λ found. IfSome found (λ value. spec.is_one_of value known.now ≡ false)) }
{
    let run = question.run;
    let wrong = answers_and_recorded_answer(run.alloc, run.history, question.number, known)?;
    match interleaving_where_answers_are_wrong(question, wrong.as_slice())? {
        Some(word) => proposed_answer_if_new_and_allowed(
            question,
            candidates,
            word.as_slice(),
            known,
        ),
        None => Ok(None),
    }
}

/// Returns a new answer that the model allows, if `left` is not 0: the proposed answer for the interleaving `word`, or
/// else for one in which the postcondition does not fault.
fn find_new_allowed_answer<C: Callbacks, O: Order, P: AnswerProposer>(
    question: &AnswerQuestion<'_, C, O>,
    candidates: &P,
    word: &[usize],
    known: &[Value],
    left: u32,
) -> Result<Option<Value>, AllocError>
    requires answered { let r = question.now.run.now in
        IsAnsweredRun (C.model r.callbacks.now) (O.order r.order.now) r.shaped.now r.history.now }
    requires same { question.now.model.now ≡ C.model question.now.run.now.callbacks.now }
    ensures allowed { let q = question.now in let r = q.run.now in IfOk result (λ found. IfSome found
        (IsAllowed (C.model r.callbacks.now) (O.order r.order.now) r.shaped.now.case r.history.now q.others.now
        q.number)) }
    ensures new { IfOk result (λ found. IfSome found (λ value. spec.is_one_of value known.now ≡ false)) }
    ensures few { IfOk result (λ found. IfSome found (λ value. 0 < left)) }
{
    if left == 0 {
        return Ok(None);
    }
    let first = proposed_answer_if_new_and_allowed(question, candidates, word, known)?;
    if let Some(value) = first {
        return Ok(Some(value));
    }
    proposed_answer_where_known_are_wrong(question, candidates, known)
}

/// Adds at most `left` answers that the model allows to `values`.
fn add_allowed_answers<C: Callbacks, O: Order, P: AnswerProposer>(
    question: &AnswerQuestion<'_, C, O>,
    candidates: &P,
    mut values: Items<Value>,
    left: u32,
) -> Result<AllowedValues, AllocError>
    requires answered { let r = question.now.run.now in
        IsAnsweredRun (C.model r.callbacks.now) (O.order r.order.now) r.shaped.now r.history.now }
    requires same { question.now.model.now ≡ C.model question.now.run.now.callbacks.now }
    requires allowed { let q = question.now in let r = q.run.now in
        AreAllowedOnce (C.model r.callbacks.now) (O.order r.order.now) r.shaped.now.case r.history.now q.others.now
        q.number values }
    ensures allowed { let q = question.now in let r = q.run.now in IfOk result (λ found. AreAllowedOnce
        (C.model r.callbacks.now) (O.order r.order.now) r.shaped.now.case r.history.now q.others.now q.number
        found.values) }
    ensures all { let q = question.now in let r = q.run.now in IfOk result (λ found. IsWhetherAll
        (C.model r.callbacks.now) (O.order r.order.now) r.shaped.now.case r.history.now q.others.now q.number found.all
        found.values) }
    ensures few { IfOk result (λ found. length found.values ≤ length values + left) }
{
    let known = values.as_slice();
    let merge = interleaving_where_answers_are_wrong(question, known)?;
    let Some(word) = merge else {
        return Ok(AllowedValues { values, all: true });
    };
    let found = find_new_allowed_answer(question, candidates, word.as_slice(), known, left)?;
    let Some(value) = found else {
        return Ok(AllowedValues { values, all: false });
    };
    values.push(value)?;
    add_allowed_answers(question, candidates, values, left - 1)
}

/// Returns at most `at_most` answers that the model allows for command `number` of a core: answers that would be right
/// in some interleaving in which the rest of the core is right.
///
/// The results of all other commands, and the references to the result of this one, stay as recorded. The answers come
/// from `candidates`, and a search of its own certifies each. If `all` is true, then in each interleaving in which the
/// rest of the core is right, one of the values would be right for the command (or its postcondition faults with one of
/// them). If `all` is false, there is such an interleaving in which none of the values would be right: more than
/// `at_most` answers are allowed, or `candidates` has no other allowed answer. If `candidates` has none for the first
/// interleaving, for example because the postcondition faults there, it is tried on one in which the postcondition is
/// false of the recorded answer. The function takes at most four searches for each value, and four more.
pub fn find_allowed_values<C: Callbacks, O: Order, P: AnswerProposer>(
    run: &RecordedRun<'_, C, O>,
    model: &Source,
    core: &[u32],
    number: u32,
    candidates: &P,
    at_most: u32,
) -> Result<AllowedValues, AllocError>
    requires answered { let r = run.now in
        IsAnsweredRun (C.model r.callbacks.now) (O.order r.order.now) r.shaped.now r.history.now }
    requires same { model.now ≡ C.model run.now.callbacks.now }
    ensures allowed { let r = run.now in IfOk result (λ found. AreAllowedOnce (C.model r.callbacks.now)
        (O.order r.order.now) r.shaped.now.case r.history.now (reasons.without number core.now) number found.values) }
    ensures all { let r = run.now in IfOk result (λ found. IsWhetherAll (C.model r.callbacks.now)
        (O.order r.order.now) r.shaped.now.case r.history.now (reasons.without number core.now) number found.all
        found.values) }
    ensures exact { let r = run.now in let m = C.model r.callbacks.now in IfOk result (λ found. (found.all ≡ true)
        → HasOneAnswer m r.shaped.now.case r.history.now number
        → HaveEachAllowed m (O.order r.order.now) r.shaped.now.case r.history.now (reasons.without number core.now)
        number found.values) }
    ensures few { IfOk result (λ found. length found.values ≤ at_most) }
{
    let alloc = run.alloc;
    let others = append_numbers_without(number, core, Vec::new(alloc))?;
    let values = Items::new(alloc);
    let question = AnswerQuestion {
        run,
        model,
        others: others.as_slice(),
        number,
    };
    add_allowed_answers(&question, candidates, values, at_most)
}

/// Asks which answers of a command would be right in interleavings in which the answers of others are right.
#[derive(Drop)]
pub struct AnswerQuestion<'a, C, O> {
    pub run: &'a RecordedRun<'a, C, O>,
    /// The model of the run.
    pub model: &'a Source,
    /// The numbers of the others.
    pub others: &'a [u32],
    /// The number of the command.
    pub number: u32,
}

/// Returns an interleaving in order that is true to its end if `condition` is checked for each event. `None` if no
/// interleaving in order is.
fn interleaving_satisfying_condition<C: Callbacks, O: Order, A: Condition>(
    run: &RecordedRun<'_, C, O>,
    condition: &A,
) -> Result<Option<Vec<usize>>, AllocError>
    requires { let r = run.now in
        IsAnsweredRun (C.model r.callbacks.now) (O.order r.order.now) r.shaped.now r.history.now }
    ensures { let r = run.now in let m = C.model r.callbacks.now in let asked = A.asked condition.now m in
        IfOk result (λ merge. MatchOption merge
        ((v : List ℕ) → IsTrueInOrder m (O.order r.order.now) r.shaped.now.case r.history.now asked v → ⊥)
        (λ word. IsTrueInOrder m (O.order r.order.now) r.shaped.now.case r.history.now asked word.items)) }
{
    match verdict_with_condition_in_order(
        run.callbacks,
        condition,
        run.order,
        run.alloc,
        run.shaped,
        run.history,
    )? {
        Verdict::Explained(word) => Ok(Some(word)),
        Verdict::Faulted(_) => Ok(None),
        Verdict::Unexplained(_) => Ok(None),
        Verdict::Broken(_) => unreachable!(),
    }
}

/// Returns whether the model allows `answer`: whether it would be right in some interleaving in which the answers of
/// the others are right.
pub fn is_answer_allowed<C: Callbacks, O: Order>(
    question: &AnswerQuestion<'_, C, O>,
    answer: &Value,
) -> Result<bool, AllocError>
    requires answered { let r = question.now.run.now in
        IsAnsweredRun (C.model r.callbacks.now) (O.order r.order.now) r.shaped.now r.history.now }
    requires same { question.now.model.now ≡ C.model question.now.run.now.callbacks.now }
    ensures { let q = question.now in let r = q.run.now in IfOk result (λ is. IsWhetherAllowed
        (C.model r.callbacks.now) (O.order r.order.now) r.shaped.now.case r.history.now q.others.now q.number is
        answer.now) }
{
    let asked = AnswerReplaced {
        model: question.model,
        number: question.number,
        answer,
        others: question.others,
    };
    match interleaving_satisfying_condition(question.run, &asked)? {
        Some(_word) => Ok(true),
        None => Ok(false),
    }
}

/// Returns an interleaving in which the answers of the others are right and none of `answers` would be right for the
/// command, if there is one.
pub fn interleaving_where_answers_are_wrong<C: Callbacks, O: Order>(
    question: &AnswerQuestion<'_, C, O>,
    answers: &[Value],
) -> Result<Option<Vec<usize>>, AllocError>
    requires answered { let r = question.now.run.now in
        IsAnsweredRun (C.model r.callbacks.now) (O.order r.order.now) r.shaped.now r.history.now }
    requires same { question.now.model.now ≡ C.model question.now.run.now.callbacks.now }
    ensures { let q = question.now in let r = q.run.now in let m = C.model r.callbacks.now in
        IfOk result (λ merge. MatchOption merge
        (AreAll m (O.order r.order.now) r.shaped.now.case r.history.now q.others.now q.number answers.now)
        (λ word. IsBeyond m (O.order r.order.now) r.shaped.now.case r.history.now q.others.now q.number answers.now
        word.items)) }
{
    let asked = AnswersExcluded {
        model: question.model,
        number: question.number,
        answers,
        others: question.others,
    };
    interleaving_satisfying_condition(question.run, &asked)
}
