//! The meaning of the model language, and its evaluation by recursion on the expression.
ghost use Rattle.std.specs.Prelude.{map};
ghost use Rattle.pst_eval.specs.Meaning as spec;
ghost use Rattle.pst_eval.specs.Env.{env_of, mean_in, parts_in, functions_in};
ghost use Rattle.pst_model.specs.declared.expr.Expr as form;
ghost use Rattle.pst_operators.specs.Answers.{Meets};

use crate::context::{
    Context, Env, empty_map, look_up, operation_call_as_value, split_first, split_last,
};
use pst_model::{Binary, Clause, Expr, Item};
use pst_operators::{
    Stop, append, apply_binary_operator_to_owned, apply_unary_operator, item, items_of, put,
    take_turn, truth_of,
};
use pst_value::{Boxed, Items, Text, Value};

/// The value of an expression in its environment. Takes each turn from `turns`, which is unspecified after `Err`.
#[cycle(eval)]
pub fn eval(
    expr: &Expr,
    context: &Context<'_>,
    env: &Env<'_>,
    turns: &mut u32,
) -> Result<Value, Stop>
    ensures { Meets (mean_in context.now expr.now (env_of env.now) turns.old) result turns.new }
{
    match expr {
        Expr::Int(number) => Ok(Value::Int(*number)),
        Expr::Bool(truth) => Ok(Value::Bool(*truth)),
        Expr::Text(text) => Ok(Value::Text(text.copy(context.alloc)?)),
        Expr::Name(name) => look_up(env, context.alloc, name.as_bytes()),
        Expr::Let(name, bound, body) => eval_let(name, bound, body, context, env, turns),
        Expr::If(test, then, other) => eval_if(test, then, other, context, env, turns),
        Expr::And(first, second) => eval_and(first, second, context, env, turns),
        Expr::Or(first, second) => eval_or(first, second, context, env, turns),
        Expr::Unary(operator, operand) => {
            let value = eval(operand.get(), context, env, turns)?;
            apply_unary_operator(context.alloc, *operator, &value)
        }
        Expr::Map(_, _) => empty_map(context.alloc),
        Expr::Put(map, key, value) => eval_put(map, key, value, context, env, turns),
        Expr::Binary(operator, left, right) => eval_binary(
            *operator, left, right, context, env, turns,
        ),
        Expr::Tuple(exprs) => Ok(Value::Tuple(eval_all(exprs.as_slice(), context, env, turns)?)),
        Expr::At(tuple, place) => {
            let value = eval(tuple.get(), context, env, turns)?;
            item(context.alloc, *place, &value)
        }
        Expr::List(_, exprs) => Ok(Value::List(eval_all(exprs.as_slice(), context, env, turns)?)),
        Expr::For(clauses, body) => {
            eval_comprehension(clauses.as_slice(), body.get(), context, env, turns)
        }
        Expr::Fold(name, list, acc, first, body) => {
            eval_fold(name, list, acc, first, body, context, env, turns)
        }
        Expr::Call(name, exprs) => {
            let arguments = eval_all(exprs.as_slice(), context, env, turns)?;
            operation_call_as_value(context.items, name.as_bytes(), arguments)
        }
        Expr::Apply(name, exprs) => {
            let arguments = eval_all(exprs.as_slice(), context, env, turns)?;
            eval_apply(context, name.as_bytes(), arguments.as_slice(), turns)
        }
    }
}

/// The value of a body that sees a value under a name.
#[cycle(eval)]
fn eval_let(
    name: &Text,
    bound: &Boxed<Expr>,
    body: &Boxed<Expr>,
    context: &Context<'_>,
    env: &Env<'_>,
    turns: &mut u32,
) -> Result<Value, Stop>
    ensures { Meets
        (mean_in context.now (form.Let name.now bound.now body.now) (env_of env.now)
        turns.old) result turns.new }
{
    let value = eval(bound.get(), context, env, turns)?;
    let inner = Env::With(name.as_bytes(), &value, &*env);
    eval(body.get(), context, &inner, turns)
}

/// The value of one of two expressions, by a test.
#[cycle(eval)]
fn eval_if(
    test: &Boxed<Expr>,
    then: &Boxed<Expr>,
    other: &Boxed<Expr>,
    context: &Context<'_>,
    env: &Env<'_>,
    turns: &mut u32,
) -> Result<Value, Stop>
    ensures { Meets
        (mean_in context.now (form.If test.now then.now other.now) (env_of env.now)
        turns.old) result turns.new }
{
    if eval_truth(test.get(), context, env, turns)? {
        eval(then.get(), context, env, turns)
    } else {
        eval(other.get(), context, env, turns)
    }
}

/// Whether two expressions hold. The second is evaluated only if the first holds.
#[cycle(eval)]
fn eval_and(
    first: &Boxed<Expr>,
    second: &Boxed<Expr>,
    context: &Context<'_>,
    env: &Env<'_>,
    turns: &mut u32,
) -> Result<Value, Stop>
    ensures { Meets (mean_in context.now (form.And first.now second.now) (env_of env.now) turns.old) result
        turns.new }
{
    if !eval_truth(first.get(), context, env, turns)? {
        return Ok(Value::Bool(false));
    }
    Ok(Value::Bool(eval_truth(second.get(), context, env, turns)?))
}

/// Whether one of two expressions holds. The second is evaluated only if the first does not hold.
#[cycle(eval)]
fn eval_or(
    first: &Boxed<Expr>,
    second: &Boxed<Expr>,
    context: &Context<'_>,
    env: &Env<'_>,
    turns: &mut u32,
) -> Result<Value, Stop>
    ensures { Meets (mean_in context.now (form.Or first.now second.now) (env_of env.now) turns.old) result
        turns.new }
{
    if eval_truth(first.get(), context, env, turns)? {
        return Ok(Value::Bool(true));
    }
    Ok(Value::Bool(eval_truth(second.get(), context, env, turns)?))
}

/// A map with one more key, or with another value at a key.
#[cycle(eval)]
fn eval_put(
    map: &Boxed<Expr>,
    key: &Boxed<Expr>,
    value: &Boxed<Expr>,
    context: &Context<'_>,
    env: &Env<'_>,
    turns: &mut u32,
) -> Result<Value, Stop>
    ensures { Meets
        (mean_in context.now (form.Put map.now key.now value.now) (env_of env.now)
        turns.old) result turns.new }
{
    let map = eval(map.get(), context, env, turns)?;
    let key = eval(key.get(), context, env, turns)?;
    let value = eval(value.get(), context, env, turns)?;
    put(context.alloc, map, &key, value)
}

/// What an operator makes of two values.
#[cycle(eval)]
fn eval_binary(
    operator: Binary,
    left: &Boxed<Expr>,
    right: &Boxed<Expr>,
    context: &Context<'_>,
    env: &Env<'_>,
    turns: &mut u32,
) -> Result<Value, Stop>
    ensures { Meets
        (mean_in context.now (form.Binary operator left.now right.now) (env_of env.now)
        turns.old) result turns.new }
{
    let left = eval(left.get(), context, env, turns)?;
    let right = eval(right.get(), context, env, turns)?;
    apply_binary_operator_to_owned(context.alloc, operator, left, right)
}

/// The value of an expression, as a bool.
#[cycle(eval)]
fn eval_truth(
    expr: &Expr,
    context: &Context<'_>,
    env: &Env<'_>,
    turns: &mut u32,
) -> Result<bool, Stop>
    ensures { Meets (spec.truth (mean_in context.now expr.now) (env_of env.now) turns.old) result turns.new }
{
    let value = eval(expr, context, env, turns)?;
    truth_of(&value)
}

#[cycle(eval)]
fn eval_all(
    exprs: &[Expr],
    context: &Context<'_>,
    env: &Env<'_>,
    turns: &mut u32,
) -> Result<Items<Value>, Stop>
    ensures { Meets (spec.all (map (mean_in context.now) exprs.now) (env_of env.now) turns.old) result
        turns.new }
{
    let mut all = Items::new(context.alloc);
    for expr in exprs {
        all.push(eval(expr, context, env, turns)?)?;
    }
    Ok(all)
}

#[cycle(eval)]
fn eval_comprehension(
    clauses: &[Clause],
    body: &Expr,
    context: &Context<'_>,
    env: &Env<'_>,
    turns: &mut u32,
) -> Result<Value, Stop>
    ensures { Meets
        (spec.comprehension (parts_in context.now clauses.now) (mean_in context.now body.now) (env_of env.now)
        turns.old) result turns.new }
{
    let built = eval_clauses(
        clauses,
        body,
        context,
        env,
        turns,
        Items::new(context.alloc),
    )?;
    Ok(Value::List(built))
}

/// What the clauses append to the list built so far.
#[cycle(eval)]
fn eval_clauses(
    clauses: &[Clause],
    body: &Expr,
    context: &Context<'_>,
    env: &Env<'_>,
    turns: &mut u32,
    built: Items<Value>,
) -> Result<Items<Value>, Stop>
    ensures { Meets
        (spec.visit (parts_in context.now clauses.now) (mean_in context.now body.now) (env_of env.now) built
        turns.old) result turns.new }
{
    match split_first(clauses) {
        None => {
            let value = eval(body, context, env, turns)?;
            append(built, value)
        }
        Some((first, rest)) => match first {
            Clause::In(name, list) => {
                let value = eval(list, context, env, turns)?;
                let items = items_of(value)?;
                eval_clauses_for_each(
                    rest,
                    body,
                    context,
                    name.as_bytes(),
                    env,
                    turns,
                    items.as_slice(),
                    built,
                )
            }
            Clause::When(test) => {
                let value = eval(test, context, env, turns)?;
                if truth_of(&value)? {
                    eval_clauses(rest, body, context, env, turns, built)
                } else {
                    Ok(built)
                }
            }
        },
    }
}

/// What the other clauses append for each item. Each parameter is one that the contract names.
#[cycle(eval)]
fn eval_clauses_for_each(
    rest: &[Clause],
    body: &Expr,
    context: &Context<'_>,
    name: &[u8],
    env: &Env<'_>,
    turns: &mut u32,
    items: &[Value],
    mut built: Items<Value>,
) -> Result<Items<Value>, Stop>
    ensures { Meets
        (spec.visit_each (spec.visit (parts_in context.now rest.now) (mean_in context.now body.now)) name.now
        (env_of env.now) items.now built turns.old) result turns.new }
{
    for item in items {
        take_turn(turns)?;
        let inner = Env::With(&*name, item, &*env);
        let more = eval_clauses(rest, body, context, &inner, turns, built)?;
        built = more;
    }
    Ok(built)
}

/// What a fold builds of the items of a list. The contract names each part of the form, so each is a parameter.
#[cycle(eval)]
fn eval_fold(
    name: &Text,
    list: &Boxed<Expr>,
    acc: &Text,
    first: &Boxed<Expr>,
    body: &Boxed<Expr>,
    context: &Context<'_>,
    env: &Env<'_>,
    turns: &mut u32,
) -> Result<Value, Stop>
    ensures { Meets
        (mean_in context.now (form.Fold name.now list.now acc.now first.now body.now) (env_of env.now)
        turns.old) result turns.new }
{
    let value = eval(list.get(), context, env, turns)?;
    let items = items_of(value)?;
    let first = eval(first.get(), context, env, turns)?;
    fold_over(
        body.get(),
        context,
        name.as_bytes(),
        acc.as_bytes(),
        env,
        turns,
        items.as_slice(),
        first,
    )
}

/// What is built of each item in turn. What is evaluated, its names and what is built so far are parameters of their
/// own, since the contract names each.
#[cycle(eval)]
fn fold_over(
    body: &Expr,
    context: &Context<'_>,
    name: &[u8],
    acc: &[u8],
    env: &Env<'_>,
    turns: &mut u32,
    items: &[Value],
    mut built: Value,
) -> Result<Value, Stop>
    ensures { Meets
        (spec.fold_over (mean_in context.now body.now) name.now acc.now (env_of env.now) items.now built
        turns.old) result turns.new }
{
    for item in items {
        take_turn(turns)?;
        let outer = Env::With(&*name, item, &*env);
        let inner = Env::With(&*acc, &built, &outer);
        let next = eval(body, context, &inner, turns)?;
        built = next;
    }
    Ok(built)
}

/// What the last earlier function of the name does.
#[cycle(eval)]
fn eval_apply(
    context: &Context<'_>,
    name: &[u8],
    arguments: &[Value],
    turns: &mut u32,
) -> Result<Value, Stop>
    ensures { Meets (spec.applied (functions_in context.now) name.now arguments.now turns.old) result
        turns.new }
{
    let Some((last, earlier)) = split_last(context.earlier) else {
        return Err(Stop::Stuck);
    };
    let inner = Context {
        alloc: context.alloc,
        items: context.items,
        earlier,
    };
    match last {
        Item::Fun(fun) => {
            if fun.name.as_bytes() != name {
                return eval_apply(&inner, name, arguments, turns);
            }
            if fun.params.len() != arguments.len() {
                return Err(Stop::Stuck);
            }
            take_turn(turns)?;
            let frame = Env::Frame(fun.params.as_slice(), arguments);
            eval(&fun.body, &inner, &frame, turns)
        }
        _ => eval_apply(&inner, name, arguments, turns),
    }
}
