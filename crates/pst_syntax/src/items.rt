//! Reading items.
ghost use Rattle.std.specs.Prelude.{◌≡◌};
ghost use Rattle.std.specs.List.{list_any, count_by};
ghost use Rattle.pst_syntax.specs.Items as spec;
ghost use Rattle.pst_syntax.specs.ItemShape.{callback_shape, param_shape};
ghost use Rattle.pst_syntax.specs.Reading.{Gives, known, once};
ghost use Rattle.pst_syntax.specs.declared.fault.FaultKind.TheVariants.{Missing};
ghost use Rattle.std.specs.Option.{ok_or};
ghost use Rattle.pst_syntax.specs.ShownItems.{shown_callback, shown_param};

use crate::fault::FaultKind;
use crate::item_shapes::{
    CallbackShape, FunShape, ItemShape, OpShape, ParamShape, callback_shape, item_shape,
    param_shape,
};
use crate::read::read_expr;
use crate::reader::{MAX_DECLARED, MAX_EXPR_LEVELS, MAX_PARTS, MAX_TY_LEVELS};
use crate::types::read_ty;
use crate::words::{check_and_copy_declared_name, is_name, is_unreserved_name};
use pst_model::{Expr, Fun, Item, Op, Param};
use pst_sexpr::Form;
use pst_value::{Boxed, Items, Text, Ty};
use std::alloc::Global;

/// Reads a type that is part of no other type.
fn read_outermost_type(alloc: Global, has_maps: bool, form: &Form) -> Result<Ty, FaultKind>
    ensures { Gives result (spec.whole_ty has_maps form.now) }
{
    read_ty(alloc, has_maps, form, MAX_TY_LEVELS)
}

/// Reads an expression that is part of no other expression.
fn read_outermost_expression(alloc: Global, has_maps: bool, form: &Form) -> Result<Expr, FaultKind>
    ensures { Gives result (spec.whole_expr has_maps form.now) }
{
    read_expr(alloc, has_maps, form, MAX_EXPR_LEVELS)
}

fn declares_parameter(params: &[Param], word: &Text) -> bool
    ensures { result ≡ spec.is_param params.now word.now }
{
    params
        .iter()
        .any(|param| param.name.as_str() == word.as_str())
}

fn read_parameter_of_shape(
    alloc: Global,
    has_maps: bool,
    params: &[Param],
    shape: &ParamShape<'_>,
) -> Result<Param, FaultKind>
    ensures { Gives result (spec.param_of has_maps params.now (shown_param shape.now)) }
{
    let is_taken = declares_parameter(params, shape.name);
    let name = check_and_copy_declared_name(
        alloc,
        is_unreserved_name(has_maps, shape.name),
        is_taken,
        shape.name,
    )?;
    let ty = read_outermost_type(alloc, has_maps, shape.ty)?;
    Ok(Param { name, ty })
}

/// Reads a parameter that follows `params`.
fn read_parameter(
    alloc: Global,
    has_maps: bool,
    params: &[Param],
    form: &Form,
) -> Result<Param, FaultKind>
    ensures { Gives result (known (param_shape form.now) (spec.param_of has_maps params.now)) }
{
    match param_shape(form) {
        Some(shape) => read_parameter_of_shape(alloc, has_maps, params, &shape),
        None => Err(FaultKind::UnknownForm),
    }
}

fn read_parameters(alloc: Global, has_maps: bool, forms: &[Form]) -> Result<Items<Param>, FaultKind>
    ensures { Gives result (spec.params_of has_maps forms.now) }
{
    if forms.len() > MAX_PARTS {
        return Err(FaultKind::OverLimit);
    }
    let mut params = Items::new(alloc);
    for form in forms {
        params.push(read_parameter(alloc, has_maps, params.as_slice(), form)?)?;
    }
    Ok(params)
}

/// The callbacks of an operation that were read so far.
#[derive(Drop)]
pub struct Callbacks {
    pre: Option<Boxed<Expr>>,
    next: Option<Boxed<Expr>>,
    post: Option<Boxed<Expr>>,
}

/// Reads the expression of a callback that may occur once. `is_taken` says whether it has occurred before.
fn read_callback_body_once(
    alloc: Global,
    has_maps: bool,
    is_taken: bool,
    body: &Form,
) -> Result<Boxed<Expr>, FaultKind>
    ensures { Gives result (once is_taken (spec.whole_expr has_maps body.now)) }
{
    if is_taken {
        return Err(FaultKind::DoubleName);
    }
    Ok(Boxed::new(alloc, read_outermost_expression(alloc, has_maps, body)?)?)
}

/// The callbacks, with one more.
fn add_callback_of_shape(
    alloc: Global,
    has_maps: bool,
    callbacks: Callbacks,
    shape: &CallbackShape<'_>,
) -> Result<Callbacks, FaultKind>
    ensures { Gives result (spec.callback_of has_maps callbacks (shown_callback shape.now)) }
{
    let Callbacks { pre, next, post } = callbacks;
    match shape {
        CallbackShape::Pre(body) => {
            let pre = Some(read_callback_body_once(alloc, has_maps, pre.is_some(), body)?);
            Ok(Callbacks { pre, next, post })
        }
        CallbackShape::Next(body) => {
            let next = Some(read_callback_body_once(alloc, has_maps, next.is_some(), body)?);
            Ok(Callbacks { pre, next, post })
        }
        CallbackShape::Post(body) => {
            let post = Some(read_callback_body_once(alloc, has_maps, post.is_some(), body)?);
            Ok(Callbacks { pre, next, post })
        }
    }
}

/// The callbacks, with the one that a tree spells.
fn read_and_add_callback(
    alloc: Global,
    has_maps: bool,
    callbacks: Callbacks,
    form: &Form,
) -> Result<Callbacks, FaultKind>
    ensures { Gives result (known (callback_shape form.now) (spec.callback_of has_maps callbacks)) }
{
    match callback_shape(form) {
        Some(shape) => add_callback_of_shape(alloc, has_maps, callbacks, &shape),
        None => Err(FaultKind::UnknownForm),
    }
}

fn read_callbacks(alloc: Global, has_maps: bool, forms: &[Form]) -> Result<Callbacks, FaultKind>
    ensures { Gives result (spec.callbacks_from has_maps spec.no_callbacks forms.now) }
{
    let mut callbacks = Callbacks {
        pre: None,
        next: None,
        post: None,
    };
    for form in forms {
        callbacks = read_and_add_callback(alloc, has_maps, callbacks, form)?;
    }
    Ok(callbacks)
}

/// The three callbacks of an operation.
#[derive(Drop)]
struct AllCallbacks {
    pre: Expr,
    next: Expr,
    post: Expr,
}

/// The callbacks, if none is missing.
fn all_callbacks_or_none(callbacks: Callbacks) -> Option<AllCallbacks>
    ensures { ok_or result Missing ≡ spec.all_callbacks callbacks }
{
    let ((pre, next), post) = callbacks.pre.zip(callbacks.next).zip(callbacks.post)?;
    Some(AllCallbacks {
        pre: pre.into_inner(),
        next: next.into_inner(),
        post: post.into_inner(),
    })
}

/// The callbacks that trees spell, if none is missing.
fn read_all_callbacks(
    alloc: Global,
    has_maps: bool,
    forms: &[Form],
) -> Result<AllCallbacks, FaultKind>
    ensures { Gives result (spec.whole_callbacks has_maps forms.now) }
{
    all_callbacks_or_none(read_callbacks(alloc, has_maps, forms)?).ok_or(FaultKind::Missing)
}

/// Whether some item gives the type of the state: `(state ..)`.
pub fn has_state(items: &[Item]) -> bool
    ensures { result ≡ list_any spec.is_state items.now }
{
    items.iter().any(|item| matches!(item, Item::State(_)))
}

/// Whether some item gives the initial state: `(init ..)`.
pub fn has_init(items: &[Item]) -> bool
    ensures { result ≡ list_any spec.is_init items.now }
{
    items.iter().any(|item| matches!(item, Item::Init(_)))
}

/// Whether some item gives the calls to pick from: `(command ..)`.
pub fn has_command(items: &[Item]) -> bool
    ensures { result ≡ list_any spec.is_command items.now }
{
    items.iter().any(|item| matches!(item, Item::Command(_)))
}

fn is_function_item_named(item: &Item, word: &Text) -> bool
    ensures { result ≡ spec.is_fun_named word.now item.now }
{
    match item {
        Item::Fun(fun) => fun.name.as_str() == word.as_str(),
        _ => false,
    }
}

fn is_operation_item_named(item: &Item, word: &Text) -> bool
    ensures { result ≡ spec.is_op_named word.now item.now }
{
    match item {
        Item::Op(op) => op.name.as_str() == word.as_str(),
        _ => false,
    }
}

fn declares_function(items: &[Item], word: &Text) -> bool
    ensures { result ≡ list_any (spec.is_fun_named word.now) items.now }
{
    items.iter().any(|item| is_function_item_named(item, word))
}

fn declares_operation(items: &[Item], word: &Text) -> bool
    ensures { result ≡ list_any (spec.is_op_named word.now) items.now }
{
    items.iter().any(|item| is_operation_item_named(item, word))
}

/// Whether one more function may come.
fn may_declare_function(items: &[Item]) -> bool
    ensures { result ≡ spec.has_room spec.is_fun items.now }
{
    items
        .iter()
        .filter(|item| matches!(item, Item::Fun(_)))
        .count()
        < MAX_DECLARED
}

/// Whether one more operation may come.
fn may_declare_operation(items: &[Item]) -> bool
    ensures { result ≡ spec.has_room spec.is_op items.now }
{
    items
        .iter()
        .filter(|item| matches!(item, Item::Op(_)))
        .count()
        < MAX_DECLARED
}

fn read_function(
    alloc: Global,
    has_maps: bool,
    seen: &[Item],
    shape: &FunShape<'_>,
) -> Result<Fun, FaultKind>
    ensures { Gives result
        (spec.fun_of has_maps shape.now.is_post seen.now shape.now.name.now shape.now.params.now
        shape.now.result.now shape.now.body.now) }
{
    let is_taken = declares_function(seen, shape.name);
    let name = check_and_copy_declared_name(
        alloc,
        is_unreserved_name(has_maps, shape.name),
        is_taken,
        shape.name,
    )?;
    let params = read_parameters(alloc, has_maps, shape.params)?;
    let result = read_outermost_type(alloc, has_maps, shape.result)?;
    let body = read_outermost_expression(alloc, has_maps, shape.body)?;
    Ok(Fun {
        is_post: shape.is_post,
        name,
        params,
        result,
        body,
    })
}

fn read_operation(
    alloc: Global,
    has_maps: bool,
    seen: &[Item],
    shape: &OpShape<'_>,
) -> Result<Op, FaultKind>
    ensures { Gives result
        (spec.op_parts has_maps seen.now shape.now.name.now shape.now.params.now
        shape.now.result.now shape.now.callbacks.now) }
{
    let is_taken = declares_operation(seen, shape.name);
    let name = check_and_copy_declared_name(alloc, is_name(shape.name), is_taken, shape.name)?;
    let params = read_parameters(alloc, has_maps, shape.params)?;
    let result = read_outermost_type(alloc, has_maps, shape.result)?;
    let AllCallbacks { pre, next, post } = read_all_callbacks(alloc, has_maps, shape.callbacks)?;
    Ok(Op {
        name,
        params,
        result,
        pre,
        next,
        post,
    })
}

/// An item after others, in the language with or without maps.
#[tactic(auto, unfolding(crate::specs::Items::item_of))]
pub fn read_item(
    alloc: Global,
    has_maps: bool,
    seen: &[Item],
    form: &Form,
) -> Result<Item, FaultKind>
    ensures { Gives result (spec.item_of has_maps seen.now form.now) }
{
    let Some(shape) = item_shape(form) else {
        return Err(FaultKind::UnknownForm);
    };
    match shape {
        ItemShape::State(_) if has_state(seen) => Err(FaultKind::DoubleName),
        ItemShape::Init(_) if has_init(seen) => Err(FaultKind::DoubleName),
        ItemShape::Command(_) if has_command(seen) => Err(FaultKind::DoubleName),
        ItemShape::Fun(_) if !may_declare_function(seen) => Err(FaultKind::OverLimit),
        ItemShape::Op(_) if !may_declare_operation(seen) => Err(FaultKind::OverLimit),
        ItemShape::State(ty) => Ok(Item::State(read_outermost_type(alloc, has_maps, ty)?)),
        ItemShape::Init(value) => Ok(Item::Init(read_outermost_expression(
            alloc, has_maps, value,
        )?)),
        ItemShape::Command(calls) => Ok(Item::Command(read_outermost_expression(
            alloc, has_maps, calls,
        )?)),
        ItemShape::Fun(shape) => Ok(Item::Fun(read_function(alloc, has_maps, seen, &shape)?)),
        ItemShape::Op(shape) => Ok(Item::Op(read_operation(alloc, has_maps, seen, &shape)?)),
    }
}
