//! The kind of an expression, or the parts of it that are to blame.
ghost use Rattle.std.specs.Prelude.{◌≡◌, [], ◌∷◌, IfOk, MatchOption};
ghost use Rattle.pst_typing.specs.Blamed as spec;
ghost use Rattle.pst_typing.specs.Gathering.{IsGathered, ArePartsOf, AreClausesOf, IsFound};
ghost use Rattle.pst_typing.specs.Scope.{names_of, names_in, type_in};
ghost use Rattle.pst_model.specs.declared.expr.Clause.TheVariants as clause;

use crate::blame::{Found, Gathered, item_kind_if_list};
use crate::by_parts::kind_or_blame_by_parts;
use crate::scope::{Context, Names, Scope, typed_names_of_scope};
use pst_model::{Clause, Expr};
use pst_value::{Boxed, Text};
use std::alloc::AllocError;

/// The kind of an expression among the names of a scope, or the parts that are to blame if it has none.
pub fn infer(expr: &Expr, context: &Context<'_>, scope: &Scope<'_>) -> Result<Found, AllocError>
    ensures { IfOk result (λ found. IsFound (type_in context.now) (names_of scope.now) expr.now found) }
{
    let seen = typed_names_of_scope(context.alloc, scope)?;
    infer_kind(expr, context, &Names::Outer(seen.as_slice()))
}

/// The kind of an expression. It visits all parts, and judges the expression itself if all parts have a kind.
#[cycle(infer)]
fn infer_kind(expr: &Expr, context: &Context<'_>, names: &Names<'_>) -> Result<Found, AllocError>
    ensures { IfOk result (λ found. IsFound (type_in context.now) (names_in names.now) expr.now found) }
{
    let Gathered { kinds, blames, .. } = infer_kinds_of_parts(expr, context, names)?;
    if blames.is_empty() {
        kind_or_blame_by_parts(expr, context, names, kinds)
    } else {
        Ok(Found::Blamed(blames))
    }
}

/// What is known of the parts of an expression.
#[cycle(infer)]
fn infer_kinds_of_parts(
    expr: &Expr,
    context: &Context<'_>,
    names: &Names<'_>,
) -> Result<Gathered, AllocError>
    ensures { IfOk result (λ all. ArePartsOf (type_in context.now) (names_in names.now) expr.now all) }
{
    match expr {
        Expr::Int(_) => Ok(Gathered::new(context.alloc)),
        Expr::Bool(_) => Ok(Gathered::new(context.alloc)),
        Expr::Text(_) => Ok(Gathered::new(context.alloc)),
        Expr::Name(_) => Ok(Gathered::new(context.alloc)),
        Expr::Map(_, _) => Ok(Gathered::new(context.alloc)),
        Expr::Let(name, bound, body) => infer_let_parts(name, bound, body, context, names),
        Expr::If(test, yes, no) => infer_three_parts(test, yes, no, context, names),
        Expr::And(first, second) => infer_two_parts(first, second, context, names),
        Expr::Or(first, second) => infer_two_parts(first, second, context, names),
        Expr::Unary(_, operand) => infer_one_part(operand, context, names),
        Expr::Binary(_, first, second) => infer_two_parts(first, second, context, names),
        Expr::Tuple(exprs) => infer_each_part(exprs.as_slice(), context, names),
        Expr::At(tuple, _) => infer_one_part(tuple, context, names),
        Expr::List(_, exprs) => infer_each_part(exprs.as_slice(), context, names),
        Expr::For(clauses, body) => {
            let none = Gathered::new(context.alloc);
            infer_clauses_and_body(none, clauses.as_slice(), body.get(), context, names)
        }
        Expr::Fold(name, list, acc, first, body) => {
            infer_fold_parts(name, list, acc, first, body, context, names)
        }
        Expr::Put(map, key, value) => infer_three_parts(map, key, value, context, names),
        Expr::Call(_, exprs) => infer_each_part(exprs.as_slice(), context, names),
        Expr::Apply(_, exprs) => infer_each_part(exprs.as_slice(), context, names),
    }
}

/// A value, and a body that sees it under a name. The body is visited only if the value has a kind.
#[cycle(infer)]
fn infer_let_parts(
    name: &Text,
    bound: &Boxed<Expr>,
    body: &Boxed<Expr>,
    context: &Context<'_>,
    names: &Names<'_>,
) -> Result<Gathered, AllocError>
    ensures { IfOk result (λ all. IsGathered (type_in context.now)
        (spec.let_parts (type_in context.now) (names_in names.now) name.now bound.now body.now) all) }
{
    let alloc = context.alloc;
    let none = Gathered::new(alloc);
    let found = infer_kind(bound.get(), context, names)?;
    match found {
        Found::Blamed(blames) => none.with_found_part(alloc, Found::Blamed(blames)),
        Found::Kind(kind) => {
            let inner = Names::With(name.as_bytes(), &kind, &*names);
            let found = infer_kind(body.get(), context, &inner)?;
            none.with_found_part(alloc, Found::Kind(kind))?
                .with_found_part(alloc, found)
        }
    }
}

/// One expression.
#[cycle(infer)]
fn infer_one_part(
    expr: &Boxed<Expr>,
    context: &Context<'_>,
    names: &Names<'_>,
) -> Result<Gathered, AllocError>
    ensures { IfOk result (λ all. IsGathered (type_in context.now)
        (spec.one_part (names_in names.now) expr.now) all) }
{
    let found = infer_kind(expr.get(), context, names)?;
    Gathered::new(context.alloc).with_found_part(context.alloc, found)
}

/// Two expressions.
#[cycle(infer)]
fn infer_two_parts(
    first: &Boxed<Expr>,
    second: &Boxed<Expr>,
    context: &Context<'_>,
    names: &Names<'_>,
) -> Result<Gathered, AllocError>
    ensures { IfOk result (λ all. IsGathered (type_in context.now)
        (spec.two_parts (names_in names.now) first.now second.now) all) }
{
    let all = infer_one_part(first, context, names)?;
    let found = infer_kind(second.get(), context, names)?;
    all.with_found_part(context.alloc, found)
}

/// Three expressions.
#[cycle(infer)]
fn infer_three_parts(
    first: &Boxed<Expr>,
    second: &Boxed<Expr>,
    third: &Boxed<Expr>,
    context: &Context<'_>,
    names: &Names<'_>,
) -> Result<Gathered, AllocError>
    ensures { IfOk result (λ all. IsGathered (type_in context.now)
        (spec.if_parts (names_in names.now) first.now second.now third.now) all) }
{
    let all = infer_two_parts(first, second, context, names)?;
    let found = infer_kind(third.get(), context, names)?;
    all.with_found_part(context.alloc, found)
}

/// Expressions that see the same names.
#[cycle(infer)]
fn infer_each_part(
    exprs: &[Expr],
    context: &Context<'_>,
    names: &Names<'_>,
) -> Result<Gathered, AllocError>
    ensures { IfOk result (λ all. IsGathered (type_in context.now)
        (spec.each_part (names_in names.now) exprs.now) all) }
{
    let mut all = Gathered::new(context.alloc);
    for expr in exprs {
        let found = infer_kind(expr, context, names)?;
        all = all.with_found_part(context.alloc, found)?;
    }
    Ok(all)
}

/// A fold over a list. The body is visited only if what it sees has kinds. The parts of the form are parameters of
/// their own, since the contract names each.
#[cycle(infer)]
fn infer_fold_parts(
    name: &Text,
    list: &Boxed<Expr>,
    acc: &Text,
    first: &Boxed<Expr>,
    body: &Boxed<Expr>,
    context: &Context<'_>,
    names: &Names<'_>,
) -> Result<Gathered, AllocError>
    ensures { IfOk result (λ all. IsGathered (type_in context.now)
        (spec.fold_parts (type_in context.now) (names_in names.now) name.now list.now acc.now first.now
        body.now) all) }
{
    let alloc = context.alloc;
    let found = infer_kind(list.get(), context, names)?;
    let item = item_kind_if_list(alloc, &found)?;
    let all = Gathered::new(alloc).with_found_part(alloc, found)?;
    let found = infer_kind(first.get(), context, names)?;
    let Some(item) = item else {
        return all.with_found_part(alloc, found);
    };
    match found {
        Found::Blamed(blames) => all.with_found_part(alloc, Found::Blamed(blames)),
        Found::Kind(kind) => {
            let outer = Names::With(name.as_bytes(), &item, &*names);
            let inner = Names::With(acc.as_bytes(), &kind, &outer);
            let found = infer_kind(body.get(), context, &inner)?;
            all.with_found_part(alloc, Found::Kind(kind))?
                .with_found_part(alloc, found)
        }
    }
}

/// The clauses and the body of a comprehension, after the parts that are known. What follows a clause that takes
/// items of no list is not visited.
#[cycle(infer)]
fn infer_clauses_and_body(
    all: Gathered,
    clauses: &[Clause],
    body: &Expr,
    context: &Context<'_>,
    names: &Names<'_>,
) -> Result<Gathered, AllocError>
    ensures { IfOk result (λ more. AreClausesOf (type_in context.now) (names_in names.now) clauses.now body.now
        all more) }
{
    match split_first(clauses) {
        None => {
            let found = infer_kind(body, context, names)?;
            all.with_found_part(context.alloc, found)
        }
        Some((first, rest)) => match first {
            Clause::In(name, list) => {
                infer_in_clause(all, name.as_bytes(), list, rest, body, context, names)
            }
            Clause::When(test) => {
                let found = infer_kind(test, context, names)?;
                let all = all.with_found_part(context.alloc, found)?;
                infer_clauses_and_body(all, rest, body, context, names)
            }
        },
    }
}

/// A clause that takes the items of a list, and what follows it. The parts of the clause are parameters of their own,
/// since the contract names each.
#[cycle(infer)]
fn infer_in_clause(
    all: Gathered,
    name: &[u8],
    list: &Expr,
    rest: &[Clause],
    body: &Expr,
    context: &Context<'_>,
    names: &Names<'_>,
) -> Result<Gathered, AllocError>
    ensures { IfOk result (λ more. AreClausesOf (type_in context.now) (names_in names.now)
        (clause.In name.now list.now ∷ rest.now) body.now all more) }
{
    let found = infer_kind(list, context, names)?;
    let item = item_kind_if_list(context.alloc, &found)?;
    let all = all.with_found_part(context.alloc, found)?;
    match item {
        Some(item) => {
            let inner = Names::With(&*name, &item, &*names);
            infer_clauses_and_body(all, rest, body, context, &inner)
        }
        None => Ok(all),
    }
}

fn split_first(clauses: &[Clause]) -> Option<(&Clause, &[Clause])>
    ensures { MatchOption result (clauses.now ≡ []) (λ p. clauses.now ≡ p.0.now ∷ p.1.now) }
{
    clauses.split_first()
}
