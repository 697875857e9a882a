//! The part of an expression that decides its outcome, among the parts that see the names that it sees itself.

ghost use Rattle.std.specs.Prelude.{◌≡◌, IfOk, MatchOption, true, false};
ghost use Rattle.pst_eval.specs.Env.{env_of, mean_in};
ghost use Rattle.pst_model.specs.declared.expr.Expr as form;
ghost use Rattle.pst_operators.specs.Outcome.{Faults, Stuck};
ghost use Rattle.pst_scene.specs.Parts as spec;
ghost use Rattle.pst_scene.specs.Parts.{Decides, HasNoDecidingPart, HasNoFault, and_or, evaluated_operands, referred};

use crate::attempt::{
    Tried, TriedAll, evaluate_references_in_turn, expression_references, try_evaluate,
};
use pst_eval::{Context, Env};
use pst_model::Expr;
use pst_value::{Boxed, Fault, Value};
use std::alloc::{AllocError, Global};

/// A part, and how many turns are left when it begins.
type DecidingPart<'a> = Option<(&'a Expr, u32)>;

/// The test of an `if` if it faults, or else the chosen branch.
fn faulty_test_or_chosen_branch<'a>(
    test: &'a Boxed<Expr>,
    then: &'a Boxed<Expr>,
    other: &'a Boxed<Expr>,
    context: &Context<'_>,
    env: &Env<'_>,
    turns: u32,
) -> Result<DecidingPart<'a>, AllocError>
    ensures { IfOk result (λ r. MatchOption r
        (mean_in context.now (form.If test.now then.now other.now) (env_of env.now) turns ≡ Stuck)
        (λ p. Decides context.now (form.If test.now then.now other.now) (env_of env.now) turns p.0.now p.1)) }
{
    match try_evaluate(test.get(), context, env, turns)? {
        Tried::Faults(_) => Ok(Some((test.get(), turns))),
        Tried::Gives(Value::Bool(true), left) => Ok(Some((then.get(), left))),
        Tried::Gives(Value::Bool(false), left) => Ok(Some((other.get(), left))),
        _ => Ok(None),
    }
}

/// The fault of an operand, if it faults.
fn fault_of_operand(
    operand: &Expr,
    context: &Context<'_>,
    env: &Env<'_>,
    turns: u32,
) -> Result<Option<Fault>, AllocError>
    ensures { IfOk result (λ r. MatchOption r
        (HasNoFault (mean_in context.now operand.now (env_of env.now) turns))
        (λ why. mean_in context.now operand.now (env_of env.now) turns ≡ Faults why)) }
{
    match try_evaluate(operand, context, env, turns)? {
        Tried::Faults(fault) => Ok(Some(fault)),
        _ => Ok(None),
    }
}

/// The operand of an `and` or an `or` that faults. The second operand is evaluated if the first gives `goes_on`: true
/// in an `and`, and false in an `or`.
fn faulty_operand_of_and_or<'a>(
    goes_on: bool,
    first: &'a Boxed<Expr>,
    second: &'a Boxed<Expr>,
    context: &Context<'_>,
    env: &Env<'_>,
    turns: u32,
) -> Result<DecidingPart<'a>, AllocError>
    ensures { IfOk result (λ r. MatchOption r
        (HasNoFault (mean_in context.now (and_or goes_on first.now second.now) (env_of env.now) turns))
        (λ p. Decides context.now (and_or goes_on first.now second.now) (env_of env.now) turns p.0.now p.1)) }
{
    let (truth, left) = match try_evaluate(first.get(), context, env, turns)? {
        Tried::Faults(_) => return Ok(Some((first.get(), turns))),
        Tried::Gives(Value::Bool(truth), left) => (truth, left),
        _ => return Ok(None),
    };
    if truth != goes_on {
        return Ok(None);
    }
    match fault_of_operand(second.get(), context, env, left)? {
        Some(_) => Ok(Some((second.get(), left))),
        None => Ok(None),
    }
}

/// The operands of a form that evaluates all its parts from left to right, in the names that it sees itself. Other
/// forms have none.
fn operands<'a>(alloc: Global, expr: &'a Expr) -> Result<Vec<&'a Expr>, AllocError>
    ensures { IfOk result (λ found. referred found.items ≡ spec.operands expr.now) }
{
    match expr {
        Expr::Unary(_, operand) => Ok(vec![in alloc; operand.get()]?),
        Expr::Binary(_, first, second) => Ok(vec![in alloc; first.get(), second.get()]?),
        Expr::Tuple(parts) => expression_references(alloc, parts.as_slice()),
        Expr::At(tuple, _) => Ok(vec![in alloc; tuple.get()]?),
        Expr::List(_, items) => expression_references(alloc, items.as_slice()),
        Expr::Put(map, key, value) => Ok(vec![in alloc; map.get(), key.get(), value.get()]?),
        Expr::Call(_, arguments) => expression_references(alloc, arguments.as_slice()),
        _ => Ok(Vec::new(alloc)),
    }
}

/// The first operand that faults, with the turns that are left for it.
fn faulty_operand<'a>(
    expr: &'a Expr,
    context: &Context<'_>,
    env: &Env<'_>,
    turns: u32,
) -> Result<DecidingPart<'a>, AllocError>
    ensures { IfOk result (λ r. MatchOption r
        (HasNoFault (evaluated_operands context.now expr.now (env_of env.now) turns))
        (λ p. Decides context.now expr.now (env_of env.now) turns p.0.now p.1)) }
{
    let operands = operands(context.alloc, expr)?;
    match evaluate_references_in_turn(operands.as_slice(), context, env, turns)? {
        TriedAll::Faults(operand, left, _) => Ok(Some((operand, left))),
        _ => Ok(None),
    }
}

/// The part of an expression that has the outcome of the whole: the first that faults, or the chosen branch of an `if`.
/// `None` if there is no such part, and of forms that bind names or apply a function.
pub fn faulty_operand_or_chosen_branch<'a>(
    expr: &'a Expr,
    context: &Context<'_>,
    env: &Env<'_>,
    turns: u32,
) -> Result<DecidingPart<'a>, AllocError>
    ensures { IfOk result (λ r. MatchOption r
        (HasNoDecidingPart context.now expr.now (env_of env.now) turns)
        (λ p. Decides context.now expr.now (env_of env.now) turns p.0.now p.1)) }
{
    match expr {
        Expr::If(test, then, other) => faulty_test_or_chosen_branch(
            test, then, other, context, env, turns,
        ),
        Expr::And(first, second) => faulty_operand_of_and_or(
            true, first, second, context, env, turns,
        ),
        Expr::Or(first, second) => faulty_operand_of_and_or(
            false, first, second, context, env, turns,
        ),
        _ => faulty_operand(expr, context, env, turns),
    }
}
