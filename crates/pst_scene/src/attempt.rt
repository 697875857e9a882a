//! Evaluating the parts of an expression, as far as they have values.
ghost use Rattle.std.specs.Prelude.{◌≡◌, [], ◌∷◌, reverse, IfOk, MatchOption};
ghost use Rattle.pst_eval.specs.Env.{env_of, mean_in};
ghost use Rattle.pst_eval.specs.Meaning as spec;
ghost use Rattle.pst_scene.specs.Outcomes.{outcome_at};
ghost use Rattle.pst_scene.specs.Parts.{Attempts, AttemptsAll, NamedIn, referred};

use crate::faulty::{FaultyPart, bindings_of_environment};
use pst_eval::{Context, Env, eval};
use pst_model::{Clause, Expr, Fun, Item};
use pst_operators::Stop;
use pst_value::{Fault, Items, Value};
use std::alloc::{AllocError, Global};

/// The place of an expression.
#[derive(Drop)]
pub struct Site<'a> {
    /// What it may name besides its variables.
    pub context: Context<'a>,
    /// The name of the function in whose body it is, if it is in one.
    pub function: Option<&'a str>,
}

/// The result of evaluating an expression.
#[derive(Drop)]
pub enum Tried {
    /// Its value, and how many turns are left.
    Gives(Value, u32),
    /// It faults.
    Faults(Fault),
    /// It is not well typed.
    Stuck,
}

/// The result of evaluating several expressions.
#[derive(Drop)]
pub enum TriedAll<'a> {
    /// Their values, and how many turns are left.
    Give(Items<Value>, u32),
    /// The first expression that faults, the turns left for it, and its fault.
    Faults(&'a Expr, u32, Fault),
    /// They are not well typed.
    Stuck,
}

/// Evaluates an expression.
pub fn try_evaluate(
    expr: &Expr,
    context: &Context<'_>,
    env: &Env<'_>,
    turns: u32,
) -> Result<Tried, AllocError>
    ensures { IfOk result (Attempts (mean_in context.now expr.now (env_of env.now) turns)) }
{
    let mut left = turns;
    match eval(expr, context, env, &mut left) {
        Ok(value) => Ok(Tried::Gives(value, left)),
        Err(Stop::Fault(fault)) => Ok(Tried::Faults(fault)),
        Err(Stop::Stuck) => Ok(Tried::Stuck),
        Err(Stop::NoMemory) => Err(AllocError),
    }
}

/// Evaluates expressions from left to right.
pub fn evaluate_references_in_turn<'a>(
    exprs: &[&'a Expr],
    context: &Context<'_>,
    env: &Env<'_>,
    turns: u32,
) -> Result<TriedAll<'a>, AllocError>
    ensures { IfOk result (AttemptsAll (mean_in context.now) (referred exprs.now) (env_of env.now) turns) }
{
    let mut values = Items::new(context.alloc);
    let mut left = turns;
    for expr in exprs {
        match try_evaluate(*expr, context, env, left)? {
            Tried::Gives(value, more) => {
                values.push(value)?;
                left = more;
            }
            Tried::Faults(fault) => return Ok(TriedAll::Faults(*expr, left, fault)),
            Tried::Stuck => return Ok(TriedAll::Stuck),
        }
    }
    Ok(TriedAll::Give(values, left))
}

/// Evaluates the expressions of a slice from left to right.
pub fn evaluate_in_turn<'a>(
    exprs: &'a [Expr],
    context: &Context<'_>,
    env: &Env<'_>,
    turns: u32,
) -> Result<TriedAll<'a>, AllocError>
    ensures { IfOk result (AttemptsAll (mean_in context.now) exprs.now (env_of env.now) turns) }
{
    let each = expression_references(context.alloc, exprs)?;
    evaluate_references_in_turn(each.as_slice(), context, env, turns)
}

/// A reference to each expression of a slice.
pub fn expression_references<'a>(
    alloc: Global,
    exprs: &'a [Expr],
) -> Result<Vec<&'a Expr>, AllocError>
    ensures { IfOk result (λ each. referred each.items ≡ exprs.now) }
{
    let mut each = Vec::new(alloc);
    for expr in exprs {
        each.push(expr)?;
    }
    Ok(each)
}

fn split_last_item(items: &[Item]) -> Option<(&Item, &[Item])>
    ensures { MatchOption result (reverse items.now ≡ [])
        (λ p. reverse items.now ≡ p.0.now ∷ reverse p.1.now) }
{
    items.split_last()
}

/// The first clause, and the others.
pub fn split_first_clause(clauses: &[Clause]) -> Option<(&Clause, &[Clause])>
    ensures { MatchOption result (clauses.now ≡ []) (λ p. clauses.now ≡ p.0.now ∷ p.1.now) }
{
    clauses.split_first()
}

/// The last function called `name`, and the items before it.
pub fn last_function_named<'a>(items: &'a [Item], name: &[u8]) -> Option<(&'a Fun, &'a [Item])>
    ensures { MatchOption result (Unit {0}) (λ p. NamedIn items.now name.now p.0.now p.1.now) }
{
    let (last, earlier) = split_last_item(items)?;
    match last {
        Item::Fun(fun) => {
            if fun.name.as_bytes() == name {
                return Some((fun, earlier));
            }
            last_function_named(earlier, name)
        }
        _ => last_function_named(earlier, name),
    }
}

/// The expression itself, with its names.
pub fn whole_expression_as_faulty_part<'a>(
    expr: &'a Expr,
    site: &Site<'a>,
    env: &Env<'_>,
    turns: u32,
) -> Result<FaultyPart<'a>, AllocError>
    ensures { IfOk result
        (λ p. mean_in site.now.context expr.now (env_of env.now) turns ≡ outcome_at site.now.context.items.now p) }
{
    Ok(FaultyPart {
        part: expr,
        function: site.function,
        earlier: site.context.earlier,
        turns,
        names: bindings_of_environment(site.context.alloc, env)?,
    })
}
