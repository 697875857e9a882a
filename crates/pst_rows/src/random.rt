//! Random well-typed expressions, evaluated by the plain evaluator and by compiled code.

use crate::expressions::random_model_text;
use crate::requests::Request;
use pst_compile::compile;
use pst_eval::{Callbacks, Plain};
use pst_model::Typed;
use pst_tests::support::typed_model_of_text;
use pst_value::{Fault, Value};
use rand_pcg::Pcg64;
use std::alloc::{AllocError, Global};

/// The outcomes that are counted: a value, and the faults.
const OUTCOMES: [&str; 7] = [
    "value", "Overflow", "DivZero", "Index", "TooLong", "Turns", "Missing",
];

/// How many of the outcomes are the one with this name.
fn count_outcomes_named(outcomes: &[&'static str], name: &str) -> u32 {
    let mut count: u32 = 0;
    for outcome in outcomes {
        if *outcome == name {
            count = count.saturating_add(1);
        }
    }
    count
}

/// The outcomes of `count` expressions. Those that are not counted are written, each with its expression.
fn collect_outcomes_and_note_uncounted_models(
    alloc: Global,
    text: &mut String,
    count: u32,
) -> Result<Vec<&'static str>, AllocError> {
    let mut outcomes = Vec::new(alloc);
    for number in 0..count {
        let mut generator = Pcg64::new(16, number as u128);
        let model = random_model_text(alloc, &mut generator, number % 100 == 0)?;
        let outcome = compare_evaluators_on_initial_state(alloc, model.as_str())?;
        if count_outcomes_named(&OUTCOMES, outcome) == 0 {
            text.push_str(format!(in alloc; "{outcome}: {model}\n")?.as_str())?;
        }
        outcomes.push(outcome)?;
    }
    Ok(outcomes)
}

/// How many of `count=NUMBER` random expressions have a value by both evaluators, and how many have each fault by both; and each
/// expression on which they differ.
pub fn random_expression_outcome_counts_answer(
    alloc: Global,
    request: &Request<'_>,
) -> Result<String, AllocError> {
    let mut text = String::new(alloc);
    let outcomes = collect_outcomes_and_note_uncounted_models(
        alloc,
        &mut text,
        request.option_number_or_default("count", 0),
    )?;
    for name in OUTCOMES {
        let count = count_outcomes_named(outcomes.as_slice(), name);
        text.push_str(format!(in alloc; "{name}: {count} by both\n")?.as_str())?;
    }
    Ok(text)
}

/// A value with the turns left, or a fault.
type EvaluationResult = Result<(Value, u32), Fault>;

/// `value` if both are the same value with the same number of turns left, the name of the fault if both are the same
/// fault, and `different` otherwise.
fn name_of_equal_outcomes_or_different(
    one: &EvaluationResult,
    other: &EvaluationResult,
) -> &'static str {
    match one {
        Ok((value, turns)) => match other {
            Ok((same, left)) if value == same && turns == left => "value",
            _ => "different",
        },
        Err(fault) => match other {
            Err(same) if fault == same => fault.name(),
            _ => "different",
        },
    }
}

/// The outcome of the plain evaluator for the initial state.
fn plain_outcome_of_initial_state(
    alloc: Global,
    typed: &Typed,
) -> Result<EvaluationResult, AllocError> {
    Plain::new(typed).init(alloc)
}

/// The outcome of compiled code for the initial state, compared with the other one.
fn compile_and_compare_with_plain_outcome(
    alloc: Global,
    typed: Typed,
    plain: &EvaluationResult,
) -> Result<&'static str, AllocError> {
    match compile(alloc, typed) {
        Ok(compiled) => Ok(name_of_equal_outcomes_or_different(plain, &compiled.init(alloc)?)),
        Err(_) => Ok("not compiled"),
    }
}

/// The outcome of both evaluators for the initial state of the model that a text begins with.
fn compare_evaluators_on_initial_state(
    alloc: Global,
    text: &str,
) -> Result<&'static str, AllocError> {
    let Some(typed) = typed_model_of_text(alloc, text) else {
        return Ok("not well typed");
    };
    let plain = plain_outcome_of_initial_state(alloc, &typed)?;
    compile_and_compare_with_plain_outcome(alloc, typed, &plain)
}
