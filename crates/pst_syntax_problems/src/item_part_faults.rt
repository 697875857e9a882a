//! The faults of the parts of items, with their places: parameters, callbacks, and whole types and expressions.
ghost use Rattle.std.specs.Prelude.{◌≡◌, [], OnOk, ◌&&◌, not};
ghost use Rattle.std.specs.List.{list_any};
ghost use Rattle.pst_syntax_problems.specs.Kept.{keep};
ghost use Rattle.pst_syntax_problems.specs.Placed.{below, known_at, unless_at};
ghost use Rattle.pst_syntax_problems.specs.PlacedModel as spec;
ghost use Rattle.pst_syntax_problems.specs.SeenShapes.{holds, params_in, callbacks_in};
ghost use Rattle.pst_syntax_problems.specs.declared.fault.Role.TheVariants as role;
ghost use Rattle.pst_syntax.specs.ModelFaults as faults;
ghost use Rattle.pst_syntax.specs.Reading.{are_few};
ghost use Rattle.pst_syntax.specs.ShownItems.{shown_param_option, shown_callback_option};
ghost use Rattle.pst_syntax.specs.declared.fault.FaultKind.TheVariants.{DoubleName};

use crate::expression_faults::add_expression_faults_at_part;
use crate::fault::{
    AddingResult, DeclaredName, FaultSearch, Faults, Role, push_fault_unless,
    push_fault_within_limit, push_name_faults_at_part,
};
use crate::problem::path_to_part;
use crate::type_faults::add_type_faults_at_part;
use pst_sexpr::Form;
use pst_syntax::{
    CallbackShape, FaultKind, MAX_EXPR_LEVELS, MAX_PARTS, MAX_TY_LEVELS, ParamShape,
    callback_shape, is_unreserved_name, param_shape,
};
use pst_value::{Items, Text};

/// Whether there are no more than there may be.
fn is_allowed_parameter_count(forms: &[Form]) -> bool
    ensures { result ≡ are_few forms.now }
{
    forms.len() <= MAX_PARTS
}

/// Whether one of the parameters has the name.
fn has_parameter_named(seen: &[Option<ParamShape<'_>>], word: &Text) -> bool
    ensures { result ≡
        list_any (λ shape. holds (faults.is_named word.now) (shown_param_option shape)) seen.now }
{
    seen.iter().any(|shape| match shape {
        Some(param) => param.name.as_str() == word.as_str(),
        None => false,
    })
}

/// Adds the faults of the parameter at `path`, after the parameters `seen`.
#[tactic(auto, using(crate::proofs::Keeping::keeping, crate::proofs::Seen::seen))]
fn add_parameter_faults(
    walk: FaultSearch,
    faults: &mut Faults,
    seen: &[Option<ParamShape<'_>>],
    path: &[usize],
    shape: &Option<ParamShape<'_>>,
) -> AddingResult
    ensures { OnOk result (faults.new ≡ keep walk.limit faults.old
        (known_at path.now role.Parameter (shown_param_option shape.now)
        (spec.param_faults_at walk.has_maps (params_in seen.now) path.now))) }
{
    let Some(shape) = shape else {
        return push_fault_within_limit(walk, faults, path, Role::Parameter, FaultKind::UnknownForm);
    };
    let name = DeclaredName {
        word: shape.name,
        is_lawful: is_unreserved_name(walk.has_maps, shape.name),
        is_taken: has_parameter_named(seen, shape.name),
    };
    push_name_faults_at_part(walk, faults, path, 0, Role::ParameterName, name)?;
    add_outermost_type_faults(walk, faults, path, 1, shape.ty)?;
    Ok(())
}

/// Adds the faults of the parameters at `path`.
#[tactic(auto, using(crate::proofs::Keeping::keeping))]
fn add_faults_of_each_parameter(
    walk: FaultSearch,
    faults: &mut Faults,
    path: &[usize],
    forms: &[Form],
) -> AddingResult
    ensures { OnOk result (faults.new ≡ keep walk.limit faults.old
        (spec.params_after_at walk.has_maps [] path.now 0 forms.now)) }
{
    let mut seen = Items::new(walk.alloc);
    let mut number = 0;
    for form in forms {
        if faults.len() >= walk.limit {
            return Ok(());
        }
        let at = path_to_part(path, walk.alloc, number)?;
        let shape = param_shape(form);
        add_parameter_faults(walk, faults, seen.as_slice(), at.as_slice(), &shape)?;
        seen.push(shape)?;
        number += 1;
    }
    Ok(())
}

/// Adds the faults of a list of parameters, which is part 2 of the tree at `path`.
#[tactic(auto, using(crate::proofs::Keeping::keeping))]
pub fn add_parameter_list_faults(
    walk: FaultSearch,
    faults: &mut Faults,
    path: &[usize],
    forms: &[Form],
) -> AddingResult
    ensures { OnOk result (faults.new ≡ keep walk.limit faults.old
        (spec.params_faults_at walk.has_maps (below path.now 2) forms.now)) }
{
    let path = path_to_part(path, walk.alloc, 2)?;
    let path = path.as_slice();
    let role = Role::Parameters;
    let are_few = is_allowed_parameter_count(forms);
    push_fault_unless(walk, faults, path, role, are_few, FaultKind::OverLimit)?;
    add_faults_of_each_parameter(walk, faults, path, forms)?;
    Ok(())
}

fn has_pre_callback(seen: &[Option<CallbackShape<'_>>]) -> bool
    ensures { result ≡ list_any (λ shape. holds faults.is_pre (shown_callback_option shape)) seen.now }
{
    seen.iter()
        .any(|shape| matches!(shape, Some(CallbackShape::Pre(_))))
}

fn has_next_callback(seen: &[Option<CallbackShape<'_>>]) -> bool
    ensures { result ≡ list_any (λ shape. holds faults.is_next (shown_callback_option shape)) seen.now }
{
    seen.iter()
        .any(|shape| matches!(shape, Some(CallbackShape::Next(_))))
}

fn has_post_callback(seen: &[Option<CallbackShape<'_>>]) -> bool
    ensures { result ≡ list_any (λ shape. holds faults.is_post (shown_callback_option shape)) seen.now }
{
    seen.iter()
        .any(|shape| matches!(shape, Some(CallbackShape::Post(_))))
}

/// Whether no callback is missing.
fn has_all_callbacks(seen: &[Option<CallbackShape<'_>>]) -> bool
    ensures { result ≡ (list_any (λ shape. holds faults.is_pre (shown_callback_option shape)) seen.now
        && list_any (λ shape. holds faults.is_next (shown_callback_option shape)) seen.now
        && list_any (λ shape. holds faults.is_post (shown_callback_option shape)) seen.now) }
{
    has_pre_callback(seen) && has_next_callback(seen) && has_post_callback(seen)
}

/// Adds the faults of the callback at `path`, after the callbacks `seen`.
#[tactic(auto, using(crate::proofs::Keeping::keeping, crate::proofs::Seen::seen))]
fn add_callback_faults(
    walk: FaultSearch,
    faults: &mut Faults,
    seen: &[Option<CallbackShape<'_>>],
    path: &[usize],
    shape: &Option<CallbackShape<'_>>,
) -> AddingResult
    ensures { OnOk result (faults.new ≡ keep walk.limit faults.old
        (known_at path.now role.Callback (shown_callback_option shape.now)
        (spec.callback_faults_at walk.has_maps (callbacks_in seen.now) path.now))) }
{
    let role = Role::Callback;
    match shape {
        Some(CallbackShape::Pre(body)) => add_repetition_and_expression_faults(
            walk,
            faults,
            role,
            path,
            has_pre_callback(seen),
            body,
        )?,
        Some(CallbackShape::Next(body)) => add_repetition_and_expression_faults(
            walk,
            faults,
            role,
            path,
            has_next_callback(seen),
            body,
        )?,
        Some(CallbackShape::Post(body)) => add_repetition_and_expression_faults(
            walk,
            faults,
            role,
            path,
            has_post_callback(seen),
            body,
        )?,
        None => push_fault_within_limit(walk, faults, path, role, FaultKind::UnknownForm)?,
    }
    Ok(())
}

/// Adds the faults of the callbacks of an operation, which are the parts from 4 on of the tree at `path`.
#[tactic(auto, using(crate::proofs::Keeping::keeping))]
pub fn add_faults_of_callbacks_and_missing_ones(
    walk: FaultSearch,
    faults: &mut Faults,
    path: &[usize],
    forms: &[Form],
) -> AddingResult
    ensures { OnOk result (faults.new ≡ keep walk.limit faults.old
        (spec.callbacks_faults_at walk.has_maps [] path.now 4 forms.now)) }
{
    let mut seen = Items::new(walk.alloc);
    let mut number = 4;
    for form in forms {
        let at = path_to_part(path, walk.alloc, number)?;
        let shape = callback_shape(form);
        add_callback_faults(walk, faults, seen.as_slice(), at.as_slice(), &shape)?;
        seen.push(shape)?;
        number += 1;
    }
    let are_there = has_all_callbacks(seen.as_slice());
    let role = Role::Callbacks;
    push_fault_unless(walk, faults, path, role, are_there, FaultKind::Missing)?;
    Ok(())
}

/// Adds the faults of a type that is part `number` of the tree at `path`, and of no other type.
pub fn add_outermost_type_faults(
    walk: FaultSearch,
    faults: &mut Faults,
    path: &[usize],
    number: usize,
    form: &Form,
) -> AddingResult
    ensures { OnOk result (faults.new ≡ keep walk.limit faults.old
        (spec.whole_ty_at walk.has_maps (below path.now number) form.now)) }
{
    add_type_faults_at_part(walk, faults, Role::Type, path, number, form, MAX_TY_LEVELS)
}

/// Adds the faults of an expression that is part `number` of the tree at `path`, and of no other expression.
pub fn add_outermost_expression_faults(
    walk: FaultSearch,
    faults: &mut Faults,
    path: &[usize],
    number: usize,
    form: &Form,
) -> AddingResult
    ensures { OnOk result (faults.new ≡ keep walk.limit faults.old
        (spec.whole_expr_at walk.has_maps (below path.now number) form.now)) }
{
    add_expression_faults_at_part(walk, faults, path, number, form, MAX_EXPR_LEVELS)
}

/// Adds the faults of a callback or an item with an expression at `path`. `has_one` is true if there was one before
/// it.
pub fn add_repetition_and_expression_faults(
    walk: FaultSearch,
    faults: &mut Faults,
    role: Role,
    path: &[usize],
    has_one: bool,
    form: &Form,
) -> AddingResult
    ensures { OnOk result (faults.new ≡ keep walk.limit faults.old
        (unless_at path.now role (not has_one) DoubleName
        (spec.whole_expr_at walk.has_maps (below path.now 1) form.now))) }
{
    push_fault_unless(walk, faults, path, role, !has_one, FaultKind::DoubleName)?;
    add_outermost_expression_faults(walk, faults, path, 1, form)?;
    Ok(())
}
