//! Items that are well typed, and types searched for references and calls.
ghost use Rattle.std.specs.Prelude.{◌≡◌, true, false, [], ◌∷◌, reverse, IfOk};
ghost use Rattle.pst_model.specs.WellTyped as rules;
ghost use Rattle.pst_typing.specs.Items as spec;
ghost use Rattle.pst_typing.specs.Scope.{names_of, type_in};
ghost use Rattle.pst_value.specs.Fits.{is_ty};
ghost use Rattle.pst_value.specs.declared.ty.Ty.TheVariants.{Bool as truth, List as list, Call as call};
ghost use Rattle.std.specs.List.{list_any};
ghost use Rattle.pst_model.specs.Parts.{types_of};
ghost use Rattle.pst_model.specs.Kinds as kinds;

use crate::blame::Found;
use crate::expressions::infer;
use crate::kinds::Kind;
use crate::scope::{Context, Scope};
use pst_model::{Expr, Item, Op, Param};
use pst_value::Ty;
use std::alloc::{AllocError, Global};

/// Whether an expression has a type.
fn has_type(
    expr: &Expr,
    kind: &Kind,
    context: &Context<'_>,
    scope: &Scope<'_>,
) -> Result<bool, AllocError>
    ensures { IfOk result (λ has. has ≡ is_ty (type_in context.now expr.now (names_of scope.now)) kind.now) }
{
    match infer(expr, context, scope)? {
        Found::Kind(found) => found.same(context.alloc, kind),
        Found::Blamed(_) => Ok(false),
    }
}

fn is_well_typed_pre(alloc: Global, items: &[Item], state: &Ty, op: &Op) -> Result<bool, AllocError>
    ensures { IfOk result (λ has. has ≡
        spec.has_type items.now false (rules.pre_context state.now op.now) op.now.pre truth) }
{
    let context = Context {
        alloc,
        items,
        earlier: items,
        is_post: false,
    };
    let truth = Kind::of(alloc, &Ty::Bool)?;
    let state = Kind::of(alloc, state)?;
    let params = Scope::Parameters(op.params.as_slice());
    let scope = Scope::With(b"s".as_slice(), &state, &params);
    has_type(&op.pre, &truth, &context, &scope)
}

fn is_well_typed_next(
    alloc: Global,
    items: &[Item],
    state: &Ty,
    op: &Op,
) -> Result<bool, AllocError>
    ensures { IfOk result (λ has. has ≡
        spec.has_type items.now false (rules.next_context state.now op.now) op.now.next state.now) }
{
    let context = Context {
        alloc,
        items,
        earlier: items,
        is_post: false,
    };
    let named = Kind::of(alloc, &op.result)?.reference(alloc)?;
    let state = Kind::of(alloc, state)?;
    let params = Scope::Parameters(op.params.as_slice());
    let outer = Scope::With(b"s".as_slice(), &state, &params);
    let scope = Scope::With(b"r".as_slice(), &named, &outer);
    has_type(&op.next, &state, &context, &scope)
}

fn is_well_typed_post(
    alloc: Global,
    items: &[Item],
    state: &Ty,
    op: &Op,
) -> Result<bool, AllocError>
    ensures { IfOk result (λ has. has ≡
        spec.has_type items.now true (rules.post_context state.now op.now) op.now.post truth) }
{
    let context = Context {
        alloc,
        items,
        earlier: items,
        is_post: true,
    };
    let truth = Kind::of(alloc, &Ty::Bool)?;
    let state = Kind::of(alloc, state)?;
    let value = Kind::of(alloc, &op.result)?;
    let params = Scope::Parameters(op.params.as_slice());
    let outer = Scope::With(b"s".as_slice(), &state, &params);
    let scope = Scope::With(b"r".as_slice(), &value, &outer);
    has_type(&op.post, &truth, &context, &scope)
}

fn is_well_typed_operation(
    alloc: Global,
    items: &[Item],
    state: &Ty,
    op: &Op,
) -> Result<bool, AllocError>
    ensures { IfOk result (λ well. well ≡ spec.well_operation items.now state.now op.now) }
{
    if parameters_hold_call(op.params.as_slice()) {
        return Ok(false);
    }
    if holds_ref_or_call(&op.result) {
        return Ok(false);
    }
    if !is_well_typed_pre(alloc, items, state, op)? {
        return Ok(false);
    }
    if !is_well_typed_next(alloc, items, state, op)? {
        return Ok(false);
    }
    is_well_typed_post(alloc, items, state, op)
}

/// Whether an expression over all functions has a type in mode plain, among no names.
fn is_well_typed_initial_state(
    alloc: Global,
    items: &[Item],
    state: &Ty,
    expr: &Expr,
) -> Result<bool, AllocError>
    ensures { IfOk result (λ has. has ≡ spec.has_type items.now false [] expr.now state.now) }
{
    let context = Context {
        alloc,
        items,
        earlier: items,
        is_post: false,
    };
    let state = Kind::of(alloc, state)?;
    has_type(expr, &state, &context, &Scope::Parameters(&[]))
}

fn is_well_typed_command(
    alloc: Global,
    items: &[Item],
    state: &Ty,
    expr: &Expr,
) -> Result<bool, AllocError>
    ensures { IfOk result (λ has. has ≡
        spec.has_type items.now false ((rules.name_s, state.now) ∷ []) expr.now (list call)) }
{
    let context = Context {
        alloc,
        items,
        earlier: items,
        is_post: false,
    };
    let state = Kind::of(alloc, state)?;
    let calls = Kind::of(alloc, &Ty::Call)?.list(alloc)?;
    let none = Scope::Parameters(&[]);
    let scope = Scope::With(b"s".as_slice(), &state, &none);
    has_type(expr, &calls, &context, &scope)
}

/// Whether an item is well typed, over the type of the state and the items before it.
pub fn is_well_typed_item(
    alloc: Global,
    items: &[Item],
    state: &Ty,
    earlier: &[Item],
    item: &Item,
) -> Result<bool, AllocError>
    ensures { IfOk result (λ well. well ≡ spec.well_item items.now state.now (reverse earlier.now) item.now) }
{
    match item {
        Item::State(ty) => Ok(!holds_call(ty)),
        Item::Init(expr) => is_well_typed_initial_state(alloc, items, state, expr),
        Item::Command(expr) => is_well_typed_command(alloc, items, state, expr),
        Item::Fun(fun) => {
            let context = Context {
                alloc,
                items,
                earlier,
                is_post: fun.is_post,
            };
            let result = Kind::of(alloc, &fun.result)?;
            let scope = Scope::Parameters(fun.params.as_slice());
            has_type(&fun.body, &result, &context, &scope)
        }
        Item::Op(op) => is_well_typed_operation(alloc, items, state, op),
    }
}

/// The number, from 1, of the first item that is not well typed.
#[tactic(auto, using(crate::proofs::Ill::ill_step, crate::proofs::Ill::ill_here))]
pub fn first_ill_typed_item_number(
    alloc: Global,
    items: &[Item],
    state: &Ty,
) -> Result<Option<usize>, AllocError>
    ensures { IfOk result (λ number. number ≡ spec.first_ill items.now state.now 1 [] items.now) }
{
    for at in 0..items.len() {
        if !is_well_typed_item(alloc, items, state, &items[..at], &items[at])? {
            return Ok(Some(at + 1));
        }
    }
    Ok(None)
}

/// Whether `ref` or `call` occurs in a type.
#[cycle(refs)]
#[tactic(auto, using(crate::proofs::Holding::refs))]
pub fn holds_ref_or_call(ty: &Ty) -> bool
    ensures { result ≡ kinds.holds_ref_or_call ty.now }
{
    match ty {
        Ty::Int | Ty::Bool | Ty::Text => false,
        Ty::Tuple(items) => any_holds_ref_or_call(items.as_slice()),
        Ty::List(item) | Ty::Map(_, item) => holds_ref_or_call(item.get()),
        Ty::Ref(_) | Ty::Call => true,
    }
}

#[cycle(refs)]
fn any_holds_ref_or_call(types: &[Ty]) -> bool
    ensures { result ≡ list_any kinds.holds_ref_or_call types.now }
{
    for ty in types {
        if holds_ref_or_call(ty) {
            return true;
        }
    }
    false
}

/// Whether `call` occurs in a type.
#[cycle(calls)]
#[tactic(auto, using(crate::proofs::Holding::calls))]
pub fn holds_call(ty: &Ty) -> bool
    ensures { result ≡ kinds.holds_call ty.now }
{
    match ty {
        Ty::Int | Ty::Bool | Ty::Text => false,
        Ty::Tuple(items) => any_holds_call(items.as_slice()),
        Ty::List(item) | Ty::Map(_, item) | Ty::Ref(item) => holds_call(item.get()),
        Ty::Call => true,
    }
}

#[cycle(calls)]
fn any_holds_call(types: &[Ty]) -> bool
    ensures { result ≡ list_any kinds.holds_call types.now }
{
    for ty in types {
        if holds_call(ty) {
            return true;
        }
    }
    false
}

/// Whether `call` occurs in the type of a parameter.
fn parameters_hold_call(params: &[Param]) -> bool
    ensures { result ≡ list_any kinds.holds_call (types_of params.now) }
{
    for param in params {
        if holds_call(&param.ty) {
            return true;
        }
    }
    false
}
