//! The part of an expression that makes it false.

ghost use Rattle.std.specs.Prelude.{◌≡◌, IfOk, MatchOption};
ghost use Rattle.pst_eval.specs.Callbacks.{at_names};
ghost use Rattle.pst_eval.specs.Env.{env_of};
ghost use Rattle.pst_scene.specs.Outcomes.{IsFalse};

use crate::evaluating::{truth_of_expression_in_environment, value_of_expression_in_environment};
use crate::wanted::reply_wanted_by_part;
use pst_eval::Env;
use pst_model::{Binary, Expr, Source, Unary};
use pst_value::Value;
use std::alloc::{AllocError, Global};

/// What is known of a part that is false.
#[derive(Drop)]
pub enum Evidence {
    /// It is true of this reply alone.
    Wants(Value),
    /// It compares these values, or is the negation of what does.
    Compares(Value, Value),
    /// Nothing else.
    Nothing,
}

/// A part that makes an expression false.
#[derive(Drop)]
pub struct FalsePart<'a> {
    pub part: &'a Expr,
    pub evidence: Evidence,
}

fn is_comparison(operator: Binary) -> bool {
    matches!(
        operator,
        Binary::Less | Binary::LessEqual | Binary::Equal | Binary::Same
    )
}

/// What is negated if the expression is a negation, and else the expression itself.
fn expression_without_negation(expr: &Expr) -> &Expr {
    match expr {
        Expr::Unary(Unary::Not, operand) => operand.get(),
        _ => expr,
    }
}

/// Whether a part says more than the expression around it: `true` and `false` alone say nothing.
fn is_informative_false_part(found: &FalsePart<'_>) -> bool {
    !matches!(found.part, Expr::Bool(_)) || !matches!(found.evidence, Evidence::Nothing)
}

/// The operands of a comparison or of its negation, if the expression is one.
fn operands_of_maybe_negated_comparison(expr: &Expr) -> Option<(&Expr, &Expr)> {
    let Expr::Binary(operator, first, second) = expression_without_negation(expr) else {
        return None;
    };
    if is_comparison(*operator) {
        Some((first.get(), second.get()))
    } else {
        None
    }
}

/// The evidence that two values are compared, if both operands have one.
fn evidence_of_compared_values(first: Option<Value>, second: Option<Value>) -> Evidence {
    match (first, second) {
        (Some(first), Some(second)) => Evidence::Compares(first, second),
        _ => Evidence::Nothing,
    }
}

/// The values that a comparison or its negation compares, if the expression is one.
fn evidence_of_comparison(
    alloc: Global,
    model: &Source,
    expr: &Expr,
    env: &Env<'_>,
) -> Result<Evidence, AllocError> {
    let Some((first, second)) = operands_of_maybe_negated_comparison(expr) else {
        return Ok(Evidence::Nothing);
    };
    let first = value_of_expression_in_environment(alloc, model, first, env)?;
    let second = value_of_expression_in_environment(alloc, model, second, env)?;
    Ok(evidence_of_compared_values(first, second))
}

/// The expression itself, with what is known of it.
fn whole_expression_as_false_part<'a>(
    alloc: Global,
    model: &Source,
    expr: &'a Expr,
    env: &Env<'_>,
) -> Result<FalsePart<'a>, AllocError>
    ensures { IfOk result (λ p. p.part.now ≡ expr.now) }
{
    let evidence = match reply_wanted_by_part(alloc, model, expr, env)? {
        Some(value) => Evidence::Wants(value),
        None => evidence_of_comparison(alloc, model, expr, env)?,
    };
    Ok(FalsePart {
        part: expr,
        evidence,
    })
}

/// The part that makes an expression false, if it is false.
#[cycle(falsity)]
fn false_part_of_expression<'a>(
    alloc: Global,
    model: &Source,
    expr: &'a Expr,
    env: &Env<'_>,
) -> Result<Option<FalsePart<'a>>, AllocError>
    ensures { IfOk result (λ r. MatchOption r (Unit {0})
        (λ p. IsFalse (at_names model.now p.part.now (env_of env.now)))) }
{
    match truth_of_expression_in_environment(alloc, model, expr, env)? {
        Some(false) => {}
        _ => return Ok(None),
    }
    match false_part_within_conjunct_or_if(alloc, model, expr, env)? {
        Some(found) => Ok(Some(found)),
        None => Ok(Some(whole_expression_as_false_part(alloc, model, expr, env)?)),
    }
}

/// The part that makes the first false conjunct false, or that of the chosen part of an `if` unless it is a bare `false`.
#[cycle(falsity)]
fn false_part_within_conjunct_or_if<'a>(
    alloc: Global,
    model: &Source,
    expr: &'a Expr,
    env: &Env<'_>,
) -> Result<Option<FalsePart<'a>>, AllocError>
    ensures { IfOk result (λ r. MatchOption r (Unit {0})
        (λ p. IsFalse (at_names model.now p.part.now (env_of env.now)))) }
{
    match expr {
        Expr::And(first, second) => match false_part_of_expression(
            alloc,
            model,
            first.get(),
            env,
        )? {
            Some(found) => Ok(Some(found)),
            None => false_part_of_expression(alloc, model, second.get(), env),
        },
        Expr::If(test, then, other) => {
            let found = match truth_of_expression_in_environment(alloc, model, test.get(), env)? {
                Some(true) => false_part_of_expression(alloc, model, then.get(), env)?,
                Some(false) => false_part_of_expression(alloc, model, other.get(), env)?,
                None => None,
            };
            match found {
                Some(part) if is_informative_false_part(&part) => Ok(Some(part)),
                _ => Ok(None),
            }
        }
        _ => Ok(None),
    }
}

/// The part that makes a postcondition of the model false, if it is false: the conjunct that is, or that of the chosen part of
/// an `if`, and what is known of it.
pub fn false_part_of_postcondition<'a>(
    alloc: Global,
    model: &Source,
    post: &'a Expr,
    env: &Env<'_>,
) -> Result<Option<FalsePart<'a>>, AllocError>
    ensures { IfOk result (λ r. MatchOption r (Unit {0})
        (λ p. IsFalse (at_names model.now p.part.now (env_of env.now)))) }
{
    false_part_of_expression(alloc, model, post, env)
}
