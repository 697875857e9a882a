//! Reading expressions and clauses.
ghost use Rattle.std.specs.Option.{ok_or};
ghost use Rattle.std.specs.Prelude.{◌≡◌, ◌-◌, ◌<◌, Ok};
ghost use Rattle.pst_model.specs.declared.expr.Expr as expr;
ghost use Rattle.pst_syntax.specs.declared.fault.FaultKind.TheVariants.{OverLimit};
ghost use Rattle.pst_syntax.specs.Limits.{ty_room};
ghost use Rattle.pst_syntax.specs.Reading as spec;
ghost use Rattle.pst_syntax.specs.Reading.{Gives};
ghost use Rattle.pst_syntax.specs.Shape.{Fold, For, If, Let, ListOf, Put, Tuple};
ghost use Rattle.pst_syntax.specs.Shown.{shown, shown_clause};

use crate::fault::FaultKind;
use crate::reader::{MAX_PARTS, MAX_TY_LEVELS};
use crate::shape::{ClauseShape, FoldShape, Shape, clause_shape, shape_of};
use crate::types::read_ty;
use crate::words::{check_and_copy_declared_name, is_unreserved_name, is_usable_operation_name};
use pst_model::{Clause, Expr};
use pst_sexpr::{Form, value_of_integer_word};
use pst_value::{Boxed, Items, LIMIT, Text, Ty};
use std::alloc::Global;

/// A bound name.
fn read_bound_name(alloc: Global, has_maps: bool, name: &Text) -> Result<Text, FaultKind>
    ensures { Gives result (spec.bound has_maps name.now) }
{
    check_and_copy_declared_name(alloc, is_unreserved_name(has_maps, name), false, name)
}

/// A bound name beside another one.
fn read_distinct_bound_name(
    alloc: Global,
    has_maps: bool,
    other: &Text,
    name: &Text,
) -> Result<Text, FaultKind>
    ensures { Gives result (spec.bound_beside has_maps other.now name.now) }
{
    let is_taken = other.as_str() == name.as_str();
    check_and_copy_declared_name(alloc, is_unreserved_name(has_maps, name), is_taken, name)
}

/// The name of an operation at a use of it.
fn check_and_copy_operation_name(alloc: Global, name: &Text) -> Result<Text, FaultKind>
    ensures { Gives result (spec.used_operation name.now) }
{
    if !is_usable_operation_name(name) {
        return Err(FaultKind::UnknownForm);
    }
    Ok(name.copy(alloc)?)
}

/// An integer, if it has at most 64 bits.
fn read_integer_expr(word: &Text) -> Option<Expr>
    ensures { ok_or result OverLimit ≡ spec.int_of word.now }
{
    Some(Expr::Int(value_of_integer_word(word)?))
}

fn read_text_expr(alloc: Global, text: &Text) -> Result<Expr, FaultKind>
    ensures { Gives result (spec.text_of text.now) }
{
    if text.len() > LIMIT {
        return Err(FaultKind::OverLimit);
    }
    Ok(Expr::Text(text.copy(alloc)?))
}

/// An item of a tuple, if its place has at most 64 bits.
fn build_tuple_item_expr(tuple: Boxed<Expr>, place: &Text) -> Option<Expr>
    ensures { ok_or result OverLimit ≡ spec.item_at tuple place.now }
{
    let place = value_of_integer_word(place)?;
    Some(Expr::At(tuple, place.max(0) as u64))
}

/// An application of a function.
fn build_application_expr(
    alloc: Global,
    function: &Text,
    arguments: Items<Expr>,
) -> Result<Expr, FaultKind>
    ensures { Gives result (Ok (expr.Apply function.now arguments)) }
{
    Ok(Expr::Apply(function.copy(alloc)?, arguments))
}

/// Reads an expression with `room` levels of room. `has_maps` says whether the language has maps.
#[cycle(read_expr)]
#[tactic(auto, using(crate::proofs::Rooms::expr_rooms))]
pub fn read_expr(alloc: Global, has_maps: bool, form: &Form, room: usize) -> Result<Expr, FaultKind>
    ensures { Gives result (spec.expr_of has_maps room form.now) }
{
    let Some(shape) = shape_of(has_maps, form) else {
        return Err(FaultKind::UnknownForm);
    };
    if room == 0 {
        return Err(FaultKind::OverLimit);
    }
    read_expr_of_shape(alloc, has_maps, &shape, room - 1)
}

/// Reads an expression by its shape. The function is long because it has an arm for each shape.
#[cycle(read_expr)]
fn read_expr_of_shape(
    alloc: Global,
    has_maps: bool,
    shape: &Shape<'_>,
    room: usize,
) -> Result<Expr, FaultKind>
    ensures { Gives result
        (spec.expr_parts has_maps (spec.ty_of has_maps ty_room) (spec.expr_of has_maps room)
        (shown shape.now)) }
{
    match shape {
        Shape::Integer(word) => read_integer_expr(word).ok_or(FaultKind::OverLimit),
        Shape::Truth(truth) => Ok(Expr::Bool(*truth)),
        Shape::Quoted(bytes) => read_text_expr(alloc, bytes),
        Shape::Used(name) => Ok(Expr::Name(name.copy(alloc)?)),
        Shape::Let(name, value, body) => read_let(alloc, has_maps, name, value, body, room),
        Shape::If(test, yes, no) => read_if(alloc, has_maps, test, yes, no, room),
        Shape::And(a, b) => {
            let a = read_boxed_expr(alloc, has_maps, a, room)?;
            Ok(Expr::And(a, read_boxed_expr(alloc, has_maps, b, room)?))
        }
        Shape::Or(a, b) => {
            let a = read_boxed_expr(alloc, has_maps, a, room)?;
            Ok(Expr::Or(a, read_boxed_expr(alloc, has_maps, b, room)?))
        }
        Shape::Unary(operator, a) => Ok(Expr::Unary(
            *operator,
            read_boxed_expr(alloc, has_maps, a, room)?,
        )),
        Shape::Binary(operator, a, b) => {
            let a = read_boxed_expr(alloc, has_maps, a, room)?;
            Ok(Expr::Binary(*operator, a, read_boxed_expr(alloc, has_maps, b, room)?))
        }
        Shape::Tuple(items) => read_tuple(alloc, has_maps, items, room),
        Shape::At(tuple, place) => {
            build_tuple_item_expr(read_boxed_expr(alloc, has_maps, tuple, room)?, place).ok_or(
                FaultKind::OverLimit,
            )
        }
        Shape::List(item, items) => read_list(alloc, has_maps, item, items, room),
        Shape::For(parts, body) => read_for(alloc, has_maps, parts, body, room),
        Shape::Fold(shape) => read_fold(alloc, has_maps, shape, room),
        Shape::Map(key, value) => Ok(Expr::Map(
            *key,
            read_ty(alloc, has_maps, value, MAX_TY_LEVELS)?,
        )),
        Shape::Put(map, key, value) => read_put(alloc, has_maps, map, key, value, room),
        Shape::Call(operation, arguments) => {
            let operation = check_and_copy_operation_name(alloc, operation)?;
            Ok(Expr::Call(operation, read_exprs(alloc, has_maps, arguments, room)?))
        }
        Shape::Apply(function, arguments) => {
            build_application_expr(
                alloc,
                function,
                read_exprs(alloc, has_maps, arguments, room)?,
            )
        }
    }
}

#[cycle(read_expr)]
fn read_boxed_expr(
    alloc: Global,
    has_maps: bool,
    form: &Form,
    room: usize,
) -> Result<Boxed<Expr>, FaultKind>
    ensures { Gives result (spec.expr_of has_maps room form.now) }
{
    Ok(Boxed::new(alloc, read_expr(alloc, has_maps, form, room)?)?)
}

/// A tuple of few items.
#[cycle(read_expr)]
fn read_tuple(alloc: Global, has_maps: bool, items: &[Form], room: usize) -> Result<Expr, FaultKind>
    ensures { Gives result
        (spec.expr_parts has_maps (spec.ty_of has_maps ty_room) (spec.expr_of has_maps room)
        (Tuple items.now)) }
{
    if items.len() > MAX_PARTS {
        return Err(FaultKind::OverLimit);
    }
    Ok(Expr::Tuple(read_exprs(alloc, has_maps, items, room)?))
}

/// A list of items of a type.
#[cycle(read_expr)]
fn read_list(
    alloc: Global,
    has_maps: bool,
    item: &Form,
    items: &[Form],
    room: usize,
) -> Result<Expr, FaultKind>
    ensures { Gives result
        (spec.expr_parts has_maps (spec.ty_of has_maps ty_room) (spec.expr_of has_maps room)
        (ListOf item.now items.now)) }
{
    let item = read_ty(alloc, has_maps, item, MAX_TY_LEVELS)?;
    Ok(Expr::List(item, read_exprs(alloc, has_maps, items, room)?))
}

/// A body that sees a value under a name.
#[cycle(read_expr)]
fn read_let(
    alloc: Global,
    has_maps: bool,
    name: &Text,
    value: &Form,
    body: &Form,
    room: usize,
) -> Result<Expr, FaultKind>
    ensures { Gives result
        (spec.expr_parts has_maps (spec.ty_of has_maps ty_room) (spec.expr_of has_maps room)
        (Let name.now value.now body.now)) }
{
    let name = read_bound_name(alloc, has_maps, name)?;
    let value = read_boxed_expr(alloc, has_maps, value, room)?;
    Ok(Expr::Let(name, value, read_boxed_expr(alloc, has_maps, body, room)?))
}

/// One of two expressions, by a test.
#[cycle(read_expr)]
fn read_if(
    alloc: Global,
    has_maps: bool,
    test: &Form,
    yes: &Form,
    no: &Form,
    room: usize,
) -> Result<Expr, FaultKind>
    ensures { Gives result
        (spec.expr_parts has_maps (spec.ty_of has_maps ty_room) (spec.expr_of has_maps room)
        (If test.now yes.now no.now)) }
{
    let test = read_boxed_expr(alloc, has_maps, test, room)?;
    let yes = read_boxed_expr(alloc, has_maps, yes, room)?;
    Ok(Expr::If(test, yes, read_boxed_expr(alloc, has_maps, no, room)?))
}

/// A comprehension.
#[cycle(read_expr)]
fn read_for(
    alloc: Global,
    has_maps: bool,
    parts: &[Form],
    body: &Form,
    room: usize,
) -> Result<Expr, FaultKind>
    ensures { Gives result
        (spec.expr_parts has_maps (spec.ty_of has_maps ty_room) (spec.expr_of has_maps room)
        (For parts.now body.now)) }
{
    if parts.len() > MAX_PARTS {
        return Err(FaultKind::OverLimit);
    }
    let clauses = read_clauses(alloc, has_maps, parts, room)?;
    Ok(Expr::For(clauses, read_boxed_expr(alloc, has_maps, body, room)?))
}

/// A fold over a list.
#[cycle(read_expr)]
fn read_fold(
    alloc: Global,
    has_maps: bool,
    shape: &FoldShape<'_>,
    room: usize,
) -> Result<Expr, FaultKind>
    ensures { Gives result
        (spec.expr_parts has_maps (spec.ty_of has_maps ty_room) (spec.expr_of has_maps room)
        (Fold shape.now.name.now shape.now.list.now shape.now.built.now shape.now.first.now
        shape.now.body.now)) }
{
    let name = read_bound_name(alloc, has_maps, shape.name)?;
    let list = read_boxed_expr(alloc, has_maps, shape.list, room)?;
    let built = read_distinct_bound_name(alloc, has_maps, shape.name, shape.built)?;
    let first = read_boxed_expr(alloc, has_maps, shape.first, room)?;
    Ok(Expr::Fold(
        name,
        list,
        built,
        first,
        read_boxed_expr(alloc, has_maps, shape.body, room)?,
    ))
}

/// A map with a key and its value.
#[cycle(read_expr)]
fn read_put(
    alloc: Global,
    has_maps: bool,
    map: &Form,
    key: &Form,
    value: &Form,
    room: usize,
) -> Result<Expr, FaultKind>
    ensures { Gives result
        (spec.expr_parts has_maps (spec.ty_of has_maps ty_room) (spec.expr_of has_maps room)
        (Put map.now key.now value.now)) }
{
    let map = read_boxed_expr(alloc, has_maps, map, room)?;
    let key = read_boxed_expr(alloc, has_maps, key, room)?;
    Ok(Expr::Put(map, key, read_boxed_expr(alloc, has_maps, value, room)?))
}

#[cycle(read_expr)]
fn read_exprs(
    alloc: Global,
    has_maps: bool,
    forms: &[Form],
    room: usize,
) -> Result<Items<Expr>, FaultKind>
    ensures { Gives result (spec.each (spec.expr_of has_maps room) forms.now) }
{
    let mut expressions = Items::new(alloc);
    for form in forms {
        expressions.push(read_expr(alloc, has_maps, form, room)?)?;
    }
    Ok(expressions)
}

#[cycle(read_expr)]
fn read_clauses(
    alloc: Global,
    has_maps: bool,
    forms: &[Form],
    room: usize,
) -> Result<Items<Clause>, FaultKind>
    ensures { Gives result
        (spec.each (spec.clause_of has_maps (spec.expr_of has_maps room)) forms.now) }
{
    let mut clauses = Items::new(alloc);
    for form in forms {
        clauses.push(read_clause(alloc, has_maps, form, room)?)?;
    }
    Ok(clauses)
}

#[cycle(read_expr)]
fn read_clause(alloc: Global, has_maps: bool, form: &Form, room: usize) -> Result<Clause, FaultKind>
    ensures { Gives result (spec.clause_of has_maps (spec.expr_of has_maps room) form.now) }
{
    let Some(shape) = clause_shape(form) else {
        return Err(FaultKind::UnknownForm);
    };
    match shape {
        ClauseShape::In(name, list) => {
            let name = read_bound_name(alloc, has_maps, name)?;
            Ok(Clause::In(name, read_expr(alloc, has_maps, list, room)?))
        }
        ClauseShape::When(test) => Ok(Clause::When(read_expr(alloc, has_maps, test, room)?)),
    }
}
