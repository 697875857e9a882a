//! How far the values of an expression can reach, by its form.
ghost use Rattle.std.specs.Prelude.{◌≡◌, ◌+◌, ◌≤◌, IfSome};
ghost use Rattle.pst_eval.specs.Meaning.{looked_up, frame};
ghost use Rattle.pst_model.specs.declared.expr.Expr.TheVariants as expr;
ghost use Rattle.pst_operators.specs.Outcome.{Gives};
ghost use Rattle.pst_eval.specs.Reach as spec;
ghost use Rattle.pst_eval.specs.Reach.{UpTo, NameReaches, Reaches, AllReach};
ghost use Rattle.pst_value.specs.declared.value.Value.{Value};

use pst_model::{Binary, Expr, Param, Unary};
use pst_value::{LIMIT, MOST_KEYS, Text, Value};

/// The names that an expression sees, with how far their values reach, the inner ones first.
#[derive(Drop)]
pub enum NamesWithReach<'a> {
    /// Parameters, and as many arguments.
    Frame(&'a [Param], &'a [Value]),
    /// One more name, and the outer ones.
    With(&'a [u8], u64, &'a NamesWithReach<'a>),
}

/// How far a value reaches: the magnitude of an integer, the length of a text or a list, the number of keys of a map, and
/// the farthest of the items of a tuple.
#[cycle(reach_of_value)]
pub fn reach_of_value(value: &Value) -> u64
    ensures { result ≡ spec.reach_of_value value.now }
{
    match value {
        Value::Int(n) => n.unsigned_abs(),
        Value::Text(text) => text.len() as u64,
        Value::List(items) => items.len() as u64,
        Value::Map(keys, _) => keys.get().len() as u64,
        Value::Tuple(items) => farthest(items.as_slice()),
        Value::Bool(_) | Value::Var(_) | Value::Ref(_, _) | Value::Call(_, _) => 0,
    }
}

#[cycle(reach_of_value)]
fn farthest(values: &[Value]) -> u64
    ensures { result ≡ spec.farthest values.now }
{
    let mut most = 0;
    for value in values {
        most = greater(most, reach_of_value(value));
    }
    most
}

/// The greater of two numbers.
pub fn greater(a: u64, b: u64) -> u64
    ensures { result ≡ spec.greater a b }
{
    if a < b { b } else { a }
}

/// The sum of two numbers, if it is at most `most`.
fn sum_if_at_most(a: u64, b: u64, most: u64) -> Option<u64>
    ensures { IfSome result (λ sum. (sum ≡ a + b) × (sum ≤ most)) }
{
    let sum = a.checked_add(b)?;
    if sum <= most { Some(sum) } else { None }
}

fn reach_of_parameter(params: &[Param], values: &[Value], name: &[u8]) -> Option<u64>
    ensures { IfSome result
        (λ reach. (v : Value) → looked_up (frame params.now values.now) name.now ≡ Gives v → UpTo reach v) }
{
    let (param, params) = params.split_first()?;
    let (value, values) = values.split_first()?;
    if param.name.as_bytes() == name {
        return Some(reach_of_value(value));
    }
    reach_of_parameter(params, values, name)
}

/// Returns a bound for the value of `name`.
fn reach_of_name(names: &NamesWithReach<'_>, name: &[u8]) -> Option<u64>
    ensures { IfSome result (NameReaches names.now name.now) }
{
    match names {
        NamesWithReach::Frame(params, values) => reach_of_parameter(params, values, name),
        NamesWithReach::With(bound, reach, outer) => {
            if *bound == name {
                return Some(*reach);
            }
            reach_of_name(outer, name)
        }
    }
}

/// How far the value of an expression can reach, if the form of the expression shows that it cannot fault.
#[cycle(reach)]
pub fn reach_of_expression(expr: &Expr, names: &NamesWithReach<'_>) -> Option<u64>
    ensures { IfSome result (Reaches names.now expr.now) }
{
    match expr {
        Expr::Int(n) => Some(n.unsigned_abs()),
        Expr::Bool(_) | Expr::Map(_, _) => Some(0),
        Expr::Text(text) => Some(text.len() as u64),
        Expr::Name(name) => reach_of_name(names, name.as_bytes()),
        Expr::Let(name, value, body) => reach_of_let(name, value.get(), body.get(), names),
        Expr::If(condition, yes, no) => {
            reach_of_expression(condition.get(), names)?;
            reach_of_either(yes.get(), no.get(), names)
        }
        Expr::And(a, b) | Expr::Or(a, b) => {
            reach_of_either(a.get(), b.get(), names)?;
            Some(0)
        }
        Expr::Unary(operator, operand) => reach_of_unary(*operator, operand.get(), names),
        Expr::Binary(operator, a, b) => reach_of_binary(*operator, a.get(), b.get(), names),
        Expr::Tuple(items) => reach_of_all(items.as_slice(), names),
        Expr::At(tuple, _) => reach_of_expression(tuple.get(), names),
        Expr::List(_, items) => {
            reach_of_all(items.as_slice(), names)?;
            Some(items.len() as u64)
        }
        Expr::Put(map, key, value) => reach_of_put(map.get(), key.get(), value.get(), names),
        Expr::For(_, _) | Expr::Fold(_, _, _, _, _) | Expr::Call(_, _) | Expr::Apply(_, _) => None,
    }
}

#[cycle(reach)]
fn reach_of_let(name: &Text, value: &Expr, body: &Expr, names: &NamesWithReach<'_>) -> Option<u64>
    ensures { IfSome result (Reaches names.now (expr.Let name.now value.now body.now)) }
{
    let reach = reach_of_expression(value, names)?;
    reach_of_expression(body, &NamesWithReach::With(name.as_bytes(), reach, &*names))
}

/// How far the values of two expressions can reach.
#[cycle(reach)]
fn reach_of_either(a: &Expr, b: &Expr, names: &NamesWithReach<'_>) -> Option<u64>
    ensures { IfSome result (λ reach. Reaches names.now a.now reach × Reaches names.now b.now reach) }
{
    let first = reach_of_expression(a, names)?;
    let second = reach_of_expression(b, names)?;
    Some(greater(first, second))
}

/// How far the values of all expressions can reach.
#[cycle(reach)]
fn reach_of_all(exprs: &[Expr], names: &NamesWithReach<'_>) -> Option<u64>
    ensures { IfSome result (AllReach names.now exprs.now) }
{
    match exprs.split_first() {
        Some((first, rest)) => {
            let reach = reach_of_expression(first, names)?;
            Some(greater(reach, reach_of_all(rest, names)?))
        }
        None => Some(0),
    }
}

#[cycle(reach)]
fn reach_of_unary(operator: Unary, operand: &Expr, names: &NamesWithReach<'_>) -> Option<u64>
    ensures { IfSome result (Reaches names.now (expr.Unary operator operand.now)) }
{
    let reach = reach_of_expression(operand, names)?;
    match operator {
        Unary::Not => Some(0),
        Unary::Len => sum_if_at_most(reach, 0, LIMIT as u64),
        Unary::Deref | Unary::Keys => None,
    }
}

#[cycle(reach)]
fn reach_of_binary(operator: Binary, a: &Expr, b: &Expr, names: &NamesWithReach<'_>) -> Option<u64>
    ensures { IfSome result (Reaches names.now (expr.Binary operator a.now b.now)) }
{
    let first = reach_of_expression(a, names)?;
    let second = reach_of_expression(b, names)?;
    match operator {
        Binary::Add | Binary::Sub => sum_if_at_most(first, second, i64::MAX as u64),
        Binary::Append => sum_if_at_most(first, second, LIMIT as u64),
        Binary::Del => Some(first),
        Binary::Less | Binary::LessEqual | Binary::Equal | Binary::Same | Binary::Has => Some(0),
        Binary::Mul | Binary::Div | Binary::Rem | Binary::Nth | Binary::Range | Binary::Get => None,
    }
}

#[cycle(reach)]
fn reach_of_put(map: &Expr, key: &Expr, value: &Expr, names: &NamesWithReach<'_>) -> Option<u64>
    ensures { IfSome result (Reaches names.now (expr.Put map.now key.now value.now)) }
{
    let reach = reach_of_expression(map, names)?;
    reach_of_expression(key, names)?;
    reach_of_expression(value, names)?;
    sum_if_at_most(reach, 1, MOST_KEYS as u64)
}
