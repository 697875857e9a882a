//! The faults of types, with their places.
ghost use Rattle.std.specs.Prelude.{◌≡◌, ◌∷◌, [], ◌≤◌, OnOk, map};
ghost use Rattle.pst_syntax_problems.specs.Kept.{keep};
ghost use Rattle.pst_syntax_problems.specs.Placed as spec;
ghost use Rattle.pst_syntax_problems.specs.Placed.{all_at, none_at, spots_from, ty_faults_at};
ghost use Rattle.pst_syntax.specs.Faults.{OfType, ty_fits};
ghost use Rattle.pst_syntax.specs.Shown.{shown_ty};

use crate::fault::{
    AddingResult, FaultSearch, Faults, Role, push_fault_unless, push_fault_within_limit,
};
use crate::problem::path_to_part;
use pst_sexpr::Form;
use pst_syntax::{FaultKind, MAX_PARTS, TyShape, ty_shape};

/// Whether a type keeps to the limits besides that of its depth.
fn is_type_shape_within_limits(shape: &TyShape<'_>) -> bool
    ensures { result ≡ ty_fits (shown_ty shape.now) }
{
    match shape {
        TyShape::Tuple(types) => types.len() <= MAX_PARTS,
        _ => true,
    }
}

/// Adds the faults of a type with room for `room` levels of nesting.
#[cycle(add_type_faults)]
#[tactic(auto, using(crate::proofs::Keeping::keeping, crate::proofs::Levels::ty_levels))]
pub fn add_type_faults(
    walk: FaultSearch,
    faults: &mut Faults,
    role: Role,
    path: &[usize],
    form: &Form,
    room: usize,
) -> AddingResult
    ensures { OnOk result (faults.new ≡ keep walk.limit faults.old
        (ty_faults_at walk.has_maps room role path.now form.now)) }
{
    let Some(shape) = ty_shape(walk.has_maps, form) else {
        return push_fault_within_limit(walk, faults, path, role, FaultKind::UnknownForm);
    };
    if room == 0 {
        return push_fault_within_limit(walk, faults, path, Role::DeepType, FaultKind::OverLimit);
    }
    push_fault_unless(
        walk,
        faults,
        path,
        role,
        is_type_shape_within_limits(&shape),
        FaultKind::OverLimit,
    )?;
    add_faults_of_type_parts(walk, faults, role, path, &shape, room - 1)?;
    Ok(())
}

#[cycle(add_type_faults)]
#[tactic(auto, using(crate::proofs::Keeping::keeping))]
fn add_faults_of_type_parts(
    walk: FaultSearch,
    faults: &mut Faults,
    role: Role,
    path: &[usize],
    shape: &TyShape<'_>,
    room: usize,
) -> AddingResult
    ensures { OnOk result (faults.new ≡ keep walk.limit faults.old
        (all_at (spec.spot_at none_at (λ inner. ty_faults_at walk.has_maps room role) none_at)
        (spec.ty_spots path.now (shown_ty shape.now)))) }
{
    match shape {
        TyShape::Int | TyShape::Bool | TyShape::Text | TyShape::Call => Ok(()),
        TyShape::Tuple(types) => add_faults_of_tuple_item_types(
            walk, faults, role, path, types, room,
        ),
        TyShape::List(item) => add_inner_type_faults(walk, faults, role, path, 1, item, room),
        TyShape::Map(_, value) => add_inner_type_faults(walk, faults, role, path, 2, value, room),
        TyShape::Ref(target) => add_inner_type_faults(walk, faults, role, path, 1, target, room),
    }
}

/// Adds the faults of the type in the type at `path`, of which it is part `number`. `role` and `room` are those of the
/// outer type; the tree, its path and its number make the place.
#[cycle(add_type_faults)]
#[tactic(auto, using(crate::proofs::Keeping::keeping))]
fn add_inner_type_faults(
    walk: FaultSearch,
    faults: &mut Faults,
    role: Role,
    path: &[usize],
    number: usize,
    form: &Form,
    room: usize,
) -> AddingResult
    ensures { OnOk result (faults.new ≡ keep walk.limit faults.old
        (all_at (spec.spot_at none_at (λ inner. ty_faults_at walk.has_maps room role) none_at)
        (spots_from path.now number (OfType form.now ∷ [])))) }
{
    add_type_faults_at_part(walk, faults, role, path, number, form, room)?;
    Ok(())
}

/// Adds the faults of a type that is part `number` of the tree at `path`. `role` and `room` are those of the outer type;
/// the tree, its path and its number make the place.
#[cycle(add_type_faults)]
pub fn add_type_faults_at_part(
    walk: FaultSearch,
    faults: &mut Faults,
    role: Role,
    path: &[usize],
    number: usize,
    form: &Form,
    room: usize,
) -> AddingResult
    ensures { OnOk result (faults.new ≡ keep walk.limit faults.old
        (ty_faults_at walk.has_maps room role (spec.below path.now number) form.now)) }
{
    let path = path_to_part(path, walk.alloc, number)?;
    add_type_faults(walk, faults, role, path.as_slice(), form, room)
}

/// Adds the faults of types that are the parts from 1 on of the tree at `path`.
#[cycle(add_type_faults)]
#[tactic(auto, using(crate::proofs::Keeping::keeping))]
fn add_faults_of_tuple_item_types(
    walk: FaultSearch,
    faults: &mut Faults,
    role: Role,
    path: &[usize],
    forms: &[Form],
    room: usize,
) -> AddingResult
    ensures { OnOk result (faults.new ≡ keep walk.limit faults.old
        (all_at (spec.spot_at none_at (λ inner. ty_faults_at walk.has_maps room role) none_at)
        (spots_from path.now 1 (map OfType forms.now)))) }
{
    let mut number = 1;
    for form in forms {
        add_type_faults_at_part(walk, faults, role, path, number, form, room)?;
        number += 1;
    }
    Ok(())
}
