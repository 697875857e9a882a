//! The kind of an expression by the kinds of its parts.
ghost use Rattle.std.specs.Prelude.{◌≡◌, Some, reverse, IfOk};
ghost use Rattle.pst_model.specs.Parts.{types_of};
ghost use Rattle.pst_typing.specs.Answers.{Answers};
ghost use Rattle.pst_typing.specs.ByParts as spec;
ghost use Rattle.pst_typing.specs.Gathering.{IsJudged};
ghost use Rattle.pst_typing.specs.Scope.{names_in};
ghost use Rattle.pst_value.specs.declared.ty.Ty.TheVariants.{Map as map_type, Tuple as tuple};

use crate::blame::{Blame, Found, Refusal};
use crate::kinds::Kind;
use crate::operators::{
    binary_type, copy_kind_if_true, copy_kind_or_refuse, int_type, kind_of, kind_of_map_keys,
    kind_of_type_if_true, part_type, text_type_if_lawful, unary_type, values_type,
};
use crate::scope::{Context, Names, kind_of_variable, last_function_of_name, operation_called};
use pst_model::{Binary, Clause, Expr, Param, Unary};
use pst_value::{Items, KeyTy, LIMIT, Ty};
use std::alloc::{AllocError, Global};

/// The kind of an expression by the kinds of its parts. If it has none, it is to blame itself.
pub fn kind_or_blame_by_parts(
    expr: &Expr,
    context: &Context<'_>,
    names: &Names<'_>,
    kinds: Items<Kind>,
) -> Result<Found, AllocError>
    ensures { IfOk result (λ found. IsJudged (spec.by_parts context.now (names_in names.now) expr.now kinds) kinds found) }
{
    match kind_from_kinds_of_parts(expr, context, names, kinds.as_slice()) {
        Ok(kind) => Ok(Found::Kind(kind)),
        Err(Refusal::Ill) => {
            let path = Items::new(context.alloc);
            let mut blames = Items::new(context.alloc);
            blames.push(Blame { path, kinds })?;
            Ok(Found::Blamed(blames))
        }
        Err(Refusal::NoMemory) => Err(AllocError),
    }
}

/// The kind of an expression by the kinds of its parts.
fn kind_from_kinds_of_parts(
    expr: &Expr,
    context: &Context<'_>,
    names: &Names<'_>,
    kinds: &[Kind],
) -> Result<Kind, Refusal>
    ensures { Answers (spec.by_parts context.now (names_in names.now) expr.now kinds.now) result }
{
    let alloc = context.alloc;
    match expr {
        Expr::Int(number) => int_type(alloc, *number),
        Expr::Bool(_) => kind_of(alloc, &Ty::Bool),
        Expr::Text(text) => text_type_if_lawful(alloc, text.as_bytes()),
        Expr::Name(name) => kind_of_variable(names, name.as_bytes()),
        Expr::Let(_, _, _) => copy_kind_or_refuse(kinds.get(1)),
        Expr::If(_, _, _) => kind_of_if(alloc, kinds),
        Expr::And(_, _) => kind_of_and_or(alloc, kinds),
        Expr::Or(_, _) => kind_of_and_or(alloc, kinds),
        Expr::Unary(operator, _) => kind_of_unary(context, *operator, kinds),
        Expr::Binary(operator, _, _) => kind_of_binary(context, *operator, kinds),
        Expr::Tuple(_) => kind_of_tuple(alloc, kinds),
        Expr::At(_, place) => kind_of_tuple_item(alloc, kinds, *place),
        Expr::List(ty, exprs) => kind_of_list(alloc, ty, exprs.len(), kinds),
        Expr::For(clauses, _) => kind_of_for(alloc, clauses.as_slice(), kinds),
        Expr::Fold(_, _, _, _, _) => kind_of_fold(alloc, kinds),
        Expr::Map(keys, ty) => kind_of_map(alloc, *keys, ty),
        Expr::Put(_, _, _) => kind_of_put(alloc, kinds),
        Expr::Call(name, _) => kind_of_call(context, name.as_bytes(), kinds),
        Expr::Apply(name, _) => kind_of_apply(context, name.as_bytes(), kinds),
    }
}

/// The kind of two of one kind, which a test picks from.
fn kind_of_if(alloc: Global, kinds: &[Kind]) -> Result<Kind, Refusal>
    ensures { Answers (spec.of_if kinds.now) result }
{
    let [test, yes, no] = kinds else {
        return Err(Refusal::Ill);
    };
    if !test.is(alloc, &Ty::Bool)? {
        return Err(Refusal::Ill);
    }
    copy_kind_if_true(no.same(alloc, yes)?, yes)
}

/// `bool`, of two tests.
fn kind_of_and_or(alloc: Global, kinds: &[Kind]) -> Result<Kind, Refusal>
    ensures { Answers (spec.of_both kinds.now) result }
{
    let [first, second] = kinds else {
        return Err(Refusal::Ill);
    };
    if !first.is(alloc, &Ty::Bool)? {
        return Err(Refusal::Ill);
    }
    kind_of_type_if_true(alloc, second.is(alloc, &Ty::Bool)?, &Ty::Bool)
}

/// The kind that an operator of one operand gives.
fn kind_of_unary(context: &Context<'_>, operator: Unary, kinds: &[Kind]) -> Result<Kind, Refusal>
    ensures { Answers (spec.of_unary context.now.is_post operator kinds.now) result }
{
    let [operand] = kinds else {
        return Err(Refusal::Ill);
    };
    unary_type(context.alloc, context.is_post, operator, operand)
}

/// The kind that an operator of two operands gives.
fn kind_of_binary(context: &Context<'_>, operator: Binary, kinds: &[Kind]) -> Result<Kind, Refusal>
    ensures { Answers (spec.of_binary context.now.is_post operator kinds.now) result }
{
    let [first, second] = kinds else {
        return Err(Refusal::Ill);
    };
    binary_type(context.alloc, context.is_post, operator, first, second)
}

/// The kind of tuples of kinds.
fn kind_of_tuple(alloc: Global, kinds: &[Kind]) -> Result<Kind, Refusal>
    ensures { Answers (Some (tuple kinds.now)) result }
{
    Ok(Kind::tuple(alloc, kinds)?)
}

/// The kind of an item of a tuple.
fn kind_of_tuple_item(alloc: Global, kinds: &[Kind], place: u64) -> Result<Kind, Refusal>
    ensures { Answers (spec.of_at place kinds.now) result }
{
    let [tuple] = kinds else {
        return Err(Refusal::Ill);
    };
    part_type(alloc, tuple, place)
}

/// The kind of a list of `number` items, all of type `ty`.
fn kind_of_list(alloc: Global, ty: &Ty, number: usize, kinds: &[Kind]) -> Result<Kind, Refusal>
    ensures { Answers (spec.of_list ty.now number kinds.now) result }
{
    if number > LIMIT {
        return Err(Refusal::Ill);
    }
    let item = Kind::of(alloc, ty)?;
    if !are_all_of_kind(alloc, kinds, &item)? {
        return Err(Refusal::Ill);
    }
    Ok(item.list(alloc)?)
}

/// Whether all are one kind.
fn are_all_of_kind(alloc: Global, kinds: &[Kind], item: &Kind) -> Result<bool, AllocError>
    ensures { IfOk result (λ are. are ≡ spec.all_are kinds.now item.now) }
{
    for kind in kinds {
        if !kind.same(alloc, item)? {
            return Ok(false);
        }
    }
    Ok(true)
}

/// The kind of what a comprehension lists. A clause that takes items of no list is the last part.
fn kind_of_for(alloc: Global, clauses: &[Clause], kinds: &[Kind]) -> Result<Kind, Refusal>
    ensures { Answers (spec.of_for clauses.now kinds.now) result }
{
    let Some((kind, others)) = kinds.split_first() else {
        return Err(Refusal::Ill);
    };
    let Some((clause, rest)) = clauses.split_first() else {
        return Ok(kind.list(alloc)?);
    };
    if let Clause::When(_) = clause {
        if !kind.is(alloc, &Ty::Bool)? {
            return Err(Refusal::Ill);
        }
    }
    kind_of_for(alloc, rest, others)
}

/// The kind of what is built of a list's items.
fn kind_of_fold(alloc: Global, kinds: &[Kind]) -> Result<Kind, Refusal>
    ensures { Answers (spec.of_fold kinds.now) result }
{
    let [_, first, body] = kinds else {
        return Err(Refusal::Ill);
    };
    copy_kind_if_true(body.same(alloc, first)?, first)
}

/// The kind of maps of a type of keys and a type of values.
fn kind_of_map(alloc: Global, keys: KeyTy, ty: &Ty) -> Result<Kind, Refusal>
    ensures { Answers (Some (map_type keys ty.now)) result }
{
    Ok(Kind::of(alloc, ty)?.map(alloc, keys)?)
}

/// The kind of a map with a key and its value, if both have the map's types.
fn kind_of_put(alloc: Global, kinds: &[Kind]) -> Result<Kind, Refusal>
    ensures { Answers (spec.of_put kinds.now) result }
{
    let [map, key, value] = kinds else {
        return Err(Refusal::Ill);
    };
    let keys = kind_of_map_keys(alloc, map)?;
    if !key.same(alloc, &keys)? {
        return Err(Refusal::Ill);
    }
    let values = values_type(alloc, map)?;
    copy_kind_if_true(value.same(alloc, &values)?, map)
}

/// `call`, if the operation `name` takes arguments of these kinds.
fn kind_of_call(context: &Context<'_>, name: &[u8], kinds: &[Kind]) -> Result<Kind, Refusal>
    ensures { Answers (spec.of_call context.now.items.now name.now kinds.now) result }
{
    let Some(operation) = operation_called(context.items, name) else {
        return Err(Refusal::Ill);
    };
    if !are_kinds_of_parameters(context.alloc, kinds, operation.params.as_slice())? {
        return Err(Refusal::Ill);
    }
    kind_of(context.alloc, &Ty::Call)
}

/// The kind of the result of the function `name`, if it takes arguments of these kinds.
fn kind_of_apply(context: &Context<'_>, name: &[u8], kinds: &[Kind]) -> Result<Kind, Refusal>
    ensures { Answers
        (spec.of_applied (reverse context.now.earlier.now) context.now.is_post name.now kinds.now) result }
{
    let Some(function) = last_function_of_name(context.earlier, name) else {
        return Err(Refusal::Ill);
    };
    if function.is_post && !context.is_post {
        return Err(Refusal::Ill);
    }
    if !are_kinds_of_parameters(context.alloc, kinds, function.params.as_slice())? {
        return Err(Refusal::Ill);
    }
    kind_of(context.alloc, &function.result)
}

/// Whether there are as many kinds as parameters, and each is the type of its parameter.
fn are_kinds_of_parameters(
    alloc: Global,
    kinds: &[Kind],
    params: &[Param],
) -> Result<bool, AllocError>
    ensures { IfOk result (λ are. are ≡ spec.each_is kinds.now (types_of params.now)) }
{
    let Some((kind, others)) = kinds.split_first() else {
        return Ok(params.is_empty());
    };
    let Some((param, rest)) = params.split_first() else {
        return Ok(false);
    };
    if !kind.is(alloc, &param.ty)? {
        return Ok(false);
    }
    are_kinds_of_parameters(alloc, others, rest)
}
