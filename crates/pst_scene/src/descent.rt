//! The way from an expression without a value down to the part that has none by itself.
//!
//! At each form `attempt` evaluates the parts in their order, with the turns that are left. The way goes into
//! the first part without a value, in the names that it sees, or ends at the form itself if all its parts have
//! values. The items of a comprehension or a fold are evaluated once, and the way goes into the one that fails.

ghost use Rattle.std.specs.Prelude.{◌≡◌, IfOk};
ghost use Rattle.pst_eval.specs.Env.{env_of, mean_in, parts_in, functions_in};
ghost use Rattle.pst_eval.specs.Meaning as spec;
ghost use Rattle.pst_operators.specs.Operators as operators;
ghost use Rattle.pst_scene.specs.Outcomes.{outcome_at};
ghost use Rattle.pst_scene.specs.Parts.{Appends, SameIfSome, Visits};

use crate::attempt::{
    Site, Tried, TriedAll, evaluate_in_turn, last_function_named, split_first_clause, try_evaluate,
    whole_expression_as_faulty_part,
};
use crate::faulty::FaultyPart;
use crate::parts::faulty_operand_or_chosen_branch;
use pst_eval::{Context, Env};
use pst_model::{Clause, Expr};
use pst_operators::{Stop, append, items_of, take_turn};
use pst_value::{Fault, Items, Value};
use std::alloc::AllocError;

/// The result of visiting the clauses of a comprehension.
#[derive(Drop)]
pub enum Visited<'a> {
    /// The list that is built, and how many turns are left.
    Built(Items<Value>, u32),
    /// A part faults.
    Part(FaultyPart<'a>, Fault),
    /// The comprehension has no value, though its parts have some.
    Itself,
}

/// The list that is built with one more item.
fn append_to_built_list<'a>(
    built: Items<Value>,
    value: Value,
    left: u32,
) -> Result<Visited<'a>, AllocError>
    ensures { IfOk result (Appends (operators.append built value) left) }
{
    match append(built, value) {
        Ok(built) => Ok(Visited::Built(built, left)),
        Err(Stop::NoMemory) => Err(AllocError),
        Err(_) => Ok(Visited::Itself),
    }
}

/// The part of an expression that has no value by itself.
#[cycle(descent)]
pub fn descend_to_faulty_part<'a>(
    expr: &'a Expr,
    site: &Site<'a>,
    env: &Env<'_>,
    turns: u32,
) -> Result<FaultyPart<'a>, AllocError>
    ensures { IfOk result
        (λ p. mean_in site.now.context expr.now (env_of env.now) turns ≡ outcome_at site.now.context.items.now p) }
{
    let context = &site.context;
    match expr {
        Expr::Let(name, bound, body) => match try_evaluate(bound.get(), context, env, turns)? {
            Tried::Faults(_) => descend_to_faulty_part(bound.get(), site, env, turns),
            Tried::Gives(value, left) => {
                let inner = Env::With(name.as_bytes(), &value, &*env);
                descend_to_faulty_part(body.get(), site, &inner, left)
            }
            Tried::Stuck => whole_expression_as_faulty_part(expr, site, env, turns),
        },
        Expr::Apply(name, parts) => match evaluate_in_turn(parts.as_slice(), context, env, turns)? {
            TriedAll::Faults(part, left, _) => descend_to_faulty_part(part, site, env, left),
            TriedAll::Give(arguments, left) => {
                match faulty_part_in_function_body(
                    name.as_bytes(),
                    arguments.as_slice(),
                    site,
                    left,
                )? {
                    Some(part) => Ok(part),
                    None => whole_expression_as_faulty_part(expr, site, env, turns),
                }
            }
            TriedAll::Stuck => whole_expression_as_faulty_part(expr, site, env, turns),
        },
        Expr::For(clauses, body) => {
            let built = Items::new(context.alloc);
            match try_comprehension(clauses.as_slice(), body.get(), site, env, turns, built)? {
                Visited::Part(part, _) => Ok(part),
                _ => whole_expression_as_faulty_part(expr, site, env, turns),
            }
        }
        Expr::Fold(_, _, _, _, _) => match faulty_part_in_fold(expr, site, env, turns)? {
            Some(part) => Ok(part),
            None => whole_expression_as_faulty_part(expr, site, env, turns),
        },
        _ => match faulty_operand_or_chosen_branch(expr, context, env, turns)? {
            Some((part, left)) => descend_to_faulty_part(part, site, env, left),
            None => whole_expression_as_faulty_part(expr, site, env, turns),
        },
    }
}

/// The part of the body of a function that has no value by itself, if the function can be applied.
#[cycle(descent)]
fn faulty_part_in_function_body<'a>(
    name: &[u8],
    arguments: &[Value],
    site: &Site<'a>,
    turns: u32,
) -> Result<Option<FaultyPart<'a>>, AllocError>
    ensures { IfOk result
        (SameIfSome site.now.context.items.now
        (spec.applied (functions_in site.now.context) name.now arguments.now turns)) }
{
    let Some((function, earlier)) = last_function_named(site.context.earlier, name) else {
        return Ok(None);
    };
    if function.params.len() != arguments.len() {
        return Ok(None);
    }
    let mut left = turns;
    match take_turn(&mut left) {
        Ok(()) => {}
        Err(_) => return Ok(None),
    }
    let inner = Site {
        context: Context {
            alloc: site.context.alloc,
            items: site.context.items,
            earlier,
        },
        function: Some(function.name.as_str()),
    };
    let frame = Env::Frame(function.params.as_slice(), arguments);
    Ok(Some(descend_to_faulty_part(&function.body, &inner, &frame, left)?))
}

/// The part of a fold that has no value by itself, if it is not the whole fold. `None` of any other form.
#[cycle(descent)]
fn faulty_part_in_fold<'a>(
    expr: &'a Expr,
    site: &Site<'a>,
    env: &Env<'_>,
    turns: u32,
) -> Result<Option<FaultyPart<'a>>, AllocError>
    ensures { IfOk result
        (SameIfSome site.now.context.items.now (mean_in site.now.context expr.now (env_of env.now) turns)) }
{
    let Expr::Fold(name, list, acc, first, body) = expr else {
        return Ok(None);
    };
    let context = &site.context;
    match try_evaluate(list.get(), context, env, turns)? {
        Tried::Faults(_) => Ok(Some(descend_to_faulty_part(list.get(), site, env, turns)?)),
        Tried::Gives(value, left) => match items_of(value) {
            Ok(items) => match try_evaluate(first.get(), context, env, left)? {
                Tried::Faults(_) => Ok(Some(descend_to_faulty_part(first.get(), site, env, left)?)),
                Tried::Gives(first, left) => {
                    faulty_part_in_fold_items(
                        body.get(),
                        name.as_bytes(),
                        acc.as_bytes(),
                        items.as_slice(),
                        first,
                        site,
                        env,
                        left,
                    )
                }
                Tried::Stuck => Ok(None),
            },
            Err(_) => Ok(None),
        },
        Tried::Stuck => Ok(None),
    }
}

/// The part of the body of a fold that has no value by itself, of the first item for which it has none. What is
/// evaluated, its names and what is built so far are parameters of their own, since the contract names each.
#[cycle(descent)]
fn faulty_part_in_fold_items<'a>(
    body: &'a Expr,
    name: &[u8],
    acc: &[u8],
    items: &[Value],
    mut built: Value,
    site: &Site<'a>,
    env: &Env<'_>,
    turns: u32,
) -> Result<Option<FaultyPart<'a>>, AllocError>
    ensures { IfOk result
        (SameIfSome site.now.context.items.now
        (spec.fold_over (mean_in site.now.context body.now) name.now acc.now (env_of env.now) items.now built turns)) }
{
    let mut left = turns;
    for item in items {
        match take_turn(&mut left) {
            Ok(()) => {}
            Err(_) => return Ok(None),
        }
        let outer = Env::With(&*name, item, &*env);
        let inner = Env::With(&*acc, &built, &outer);
        match try_evaluate(body, &site.context, &inner, left)? {
            Tried::Faults(_) => return Ok(Some(descend_to_faulty_part(body, site, &inner, left)?)),
            Tried::Gives(next, more) => {
                built = next;
                left = more;
            }
            Tried::Stuck => return Ok(None),
        }
    }
    Ok(None)
}

/// The result of visiting clauses, and after them the body.
#[cycle(descent)]
fn try_comprehension<'a>(
    clauses: &'a [Clause],
    body: &'a Expr,
    site: &Site<'a>,
    env: &Env<'_>,
    turns: u32,
    built: Items<Value>,
) -> Result<Visited<'a>, AllocError>
    ensures { IfOk result
        (Visits site.now.context.items.now
        (spec.visit (parts_in site.now.context clauses.now) (mean_in site.now.context body.now) (env_of env.now)
        built turns)) }
{
    let context = &site.context;
    let Some((first, rest)) = split_first_clause(clauses) else {
        return match try_evaluate(body, context, env, turns)? {
            Tried::Faults(fault) => {
                Ok(Visited::Part(descend_to_faulty_part(body, site, env, turns)?, fault))
            }
            Tried::Gives(value, left) => append_to_built_list(built, value, left),
            Tried::Stuck => Ok(Visited::Itself),
        };
    };
    match first {
        Clause::In(name, list) => match try_evaluate(list, context, env, turns)? {
            Tried::Faults(fault) => {
                Ok(Visited::Part(descend_to_faulty_part(list, site, env, turns)?, fault))
            }
            Tried::Gives(value, left) => match items_of(value) {
                Ok(items) => {
                    try_clause_items(
                        rest,
                        body,
                        name.as_bytes(),
                        items.as_slice(),
                        site,
                        env,
                        left,
                        built,
                    )
                }
                Err(_) => Ok(Visited::Itself),
            },
            Tried::Stuck => Ok(Visited::Itself),
        },
        Clause::When(test) => match try_evaluate(test, context, env, turns)? {
            Tried::Faults(fault) => {
                Ok(Visited::Part(descend_to_faulty_part(test, site, env, turns)?, fault))
            }
            Tried::Gives(Value::Bool(true), left) => {
                try_comprehension(rest, body, site, env, left, built)
            }
            Tried::Gives(Value::Bool(false), left) => Ok(Visited::Built(built, left)),
            _ => Ok(Visited::Itself),
        },
    }
}

/// The result of visiting the other clauses for each item. What is evaluated, its names and what is built so far are
/// parameters of their own, since the contract names each.
#[cycle(descent)]
fn try_clause_items<'a>(
    rest: &'a [Clause],
    body: &'a Expr,
    name: &[u8],
    items: &[Value],
    site: &Site<'a>,
    env: &Env<'_>,
    turns: u32,
    mut built: Items<Value>,
) -> Result<Visited<'a>, AllocError>
    ensures { IfOk result
        (Visits site.now.context.items.now
        (spec.visit_each (spec.visit (parts_in site.now.context rest.now) (mean_in site.now.context body.now))
        name.now (env_of env.now) items.now built turns)) }
{
    let mut left = turns;
    for item in items {
        match take_turn(&mut left) {
            Ok(()) => {}
            Err(_) => return Ok(Visited::Itself),
        }
        let inner = Env::With(&*name, item, &*env);
        match try_comprehension(rest, body, site, &inner, left, built)? {
            Visited::Built(more, fewer) => {
                built = more;
                left = fewer;
            }
            Visited::Part(part, fault) => return Ok(Visited::Part(part, fault)),
            Visited::Itself => return Ok(Visited::Itself),
        }
    }
    Ok(Visited::Built(built, left))
}
