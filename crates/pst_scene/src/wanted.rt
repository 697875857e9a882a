//! The reply that a postcondition wants.

use crate::evaluating::{truth_of_expression_in_environment, value_of_expression_in_environment};
use crate::spelling::expression_mentions_word;
use pst_eval::Env;
use pst_model::{Binary, Expr, Source, Unary};
use pst_value::Value;
use std::alloc::{AllocError, Global};

/// The name of the reply.
const REPLY: &[u8] = b"r";

fn is_reply_name(expr: &Expr) -> bool {
    match expr {
        Expr::Name(name) => name.as_bytes() == REPLY,
        _ => false,
    }
}

/// The reply that alone makes a part of a postcondition true.
#[derive(Drop)]
enum OneReply<'a> {
    Truth(bool),
    /// The value of this expression, which does not contain the reply.
    ValueOf(&'a Expr),
}

/// The other side of an equation with the reply, if it does not contain the reply. For `(= r e)` and `(= e r)`
/// it is `e`.
fn other_side_of_reply_equation(alloc: Global, expr: &Expr) -> Result<Option<&Expr>, AllocError> {
    let Expr::Binary(Binary::Equal, first, second) = expr else {
        return Ok(None);
    };
    let (first, second) = (first.get(), second.get());
    if is_reply_name(first) && !expression_mentions_word(alloc, second, REPLY)? {
        return Ok(Some(second));
    }
    if is_reply_name(second) && !expression_mentions_word(alloc, first, REPLY)? {
        return Ok(Some(first));
    }
    Ok(None)
}

/// The reply that alone makes a part true, if its form says it: that of an equation, `true` of the reply
/// itself, `false` of its negation.
fn one_reply_required_by_part(
    alloc: Global,
    expr: &Expr,
) -> Result<Option<OneReply<'_>>, AllocError> {
    match expr {
        Expr::Name(_) => Ok(is_reply_name(expr).then_some(OneReply::Truth(true))),
        Expr::Unary(Unary::Not, operand) => {
            Ok(is_reply_name(operand.get()).then_some(OneReply::Truth(false)))
        }
        _ => Ok(other_side_of_reply_equation(alloc, expr)?.map(OneReply::ValueOf)),
    }
}

/// Whether the form of a postcondition says that one reply alone is right: `(= r e)` or `(= e r)` with no `r`
/// in `e`, or `r`, or `(not r)`.
pub fn postcondition_wants_one_reply(alloc: Global, post: &Expr) -> Result<bool, AllocError> {
    Ok(one_reply_required_by_part(alloc, post)?.is_some())
}

/// The reply that alone makes a part of a postcondition true, if its form says it and it has a value.
pub fn reply_wanted_by_part(
    alloc: Global,
    model: &Source,
    expr: &Expr,
    env: &Env<'_>,
) -> Result<Option<Value>, AllocError> {
    match one_reply_required_by_part(alloc, expr)? {
        Some(OneReply::Truth(truth)) => Ok(Some(Value::Bool(truth))),
        Some(OneReply::ValueOf(other)) => value_of_expression_in_environment(
            alloc, model, other, env,
        ),
        None => Ok(None),
    }
}

/// A reply that may make a postcondition true, by the first of its conjuncts that determines one, with the
/// other names as in the environment.
pub fn reply_wanted_by_postcondition(
    alloc: Global,
    model: &Source,
    post: &Expr,
    env: &Env<'_>,
) -> Result<Option<Value>, AllocError> {
    match post {
        Expr::And(first, second) => match reply_wanted_by_postcondition(
            alloc,
            model,
            first.get(),
            env,
        )? {
            Some(value) => Ok(Some(value)),
            None => reply_wanted_by_postcondition(alloc, model, second.get(), env),
        },
        Expr::If(test, then, other) => match truth_of_expression_in_environment(
            alloc,
            model,
            test.get(),
            env,
        )? {
            Some(true) => reply_wanted_by_postcondition(alloc, model, then.get(), env),
            Some(false) => reply_wanted_by_postcondition(alloc, model, other.get(), env),
            None => Ok(None),
        },
        _ => reply_wanted_by_part(alloc, model, post, env),
    }
}
