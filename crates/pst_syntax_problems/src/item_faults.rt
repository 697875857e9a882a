//! The faults of items, with their places.
ghost use Rattle.std.specs.Prelude.{◌≡◌, ◌++◌, not, OnOk, map};
ghost use Rattle.pst_syntax_problems.specs.Kept.{keep};
ghost use Rattle.pst_syntax_problems.specs.Placed.{below, known_at, placed, unless_at};
ghost use Rattle.pst_syntax_problems.specs.PlacedModel as spec;
ghost use Rattle.pst_syntax_problems.specs.SeenShapes.{items_in, shown_fun, shown_op};
ghost use Rattle.pst_syntax_problems.specs.declared.fault.Role.TheVariants as role;
ghost use Rattle.pst_syntax.specs.Faults.{name_faults};
ghost use Rattle.pst_syntax.specs.ShownItems.{shown_item_option};
ghost use Rattle.pst_syntax.specs.declared.fault.FaultKind.TheVariants.{DoubleName, OverLimit};

use crate::fault::{
    AddingResult, DeclaredName, FaultSearch, Faults, Role, push_fault_unless,
    push_fault_within_limit, push_name_faults_at_part,
};
use crate::item_part_faults::{
    add_faults_of_callbacks_and_missing_ones, add_outermost_expression_faults,
    add_outermost_type_faults, add_parameter_list_faults, add_repetition_and_expression_faults,
};
use crate::seen_items::{
    has_command_item_shape, has_function_named, has_init_item_shape, has_operation_named,
    has_room_for_function, has_room_for_operation, has_state_item_shape,
};
use pst_sexpr::Form;
use pst_syntax::{FaultKind, FunShape, ItemShape, OpShape, is_name, is_unreserved_name};

/// Adds the faults of the state at `path`. `has_one` is true if there was a state before it.
fn add_state_item_faults(
    walk: FaultSearch,
    faults: &mut Faults,
    path: &[usize],
    has_one: bool,
    form: &Form,
) -> AddingResult
    ensures { OnOk result (faults.new ≡ keep walk.limit faults.old
        (unless_at path.now role.Item (not has_one) DoubleName
        (spec.whole_ty_at walk.has_maps (below path.now 1) form.now))) }
{
    let role = Role::Item;
    push_fault_unless(walk, faults, path, role, !has_one, FaultKind::DoubleName)?;
    add_outermost_type_faults(walk, faults, path, 1, form)?;
    Ok(())
}

/// Adds the faults of a function or an operation at `path`, apart from its body or its callbacks. `has_room`
/// says whether the model may have one more. The parts of the item are parameters of their own, since functions and
/// operations have them in common, and nothing else.
fn add_signature_and_limit_faults(
    walk: FaultSearch,
    faults: &mut Faults,
    path: &[usize],
    has_room: bool,
    name: DeclaredName<'_>,
    forms: &[Form],
    ty: &Form,
) -> AddingResult
    ensures { OnOk result (faults.new ≡ keep walk.limit faults.old
        (unless_at path.now role.Item has_room OverLimit
        (map (placed (below path.now 1) role.ItemName) (name_faults name.entry.is_lawful name.entry.is_taken name.entry.word.now)
        ++ (spec.params_faults_at walk.has_maps (below path.now 2) forms.now
        ++ spec.whole_ty_at walk.has_maps (below path.now 3) ty.now)))) }
{
    let role = Role::Item;
    push_fault_unless(walk, faults, path, role, has_room, FaultKind::OverLimit)?;
    push_name_faults_at_part(walk, faults, path, 1, Role::ItemName, name)?;
    add_parameter_list_faults(walk, faults, path, forms)?;
    add_outermost_type_faults(walk, faults, path, 3, ty)?;
    Ok(())
}

/// Adds the faults of a function at `path`, after the items `seen`.
#[tactic(auto, using(crate::proofs::Keeping::keeping))]
fn add_function_faults(
    walk: FaultSearch,
    faults: &mut Faults,
    seen: &[Option<ItemShape<'_>>],
    path: &[usize],
    shape: &FunShape<'_>,
) -> AddingResult
    ensures { OnOk result (faults.new ≡ keep walk.limit faults.old
        (spec.item_faults_at walk.has_maps (items_in seen.now) path.now (shown_fun shape.now))) }
{
    let name = DeclaredName {
        word: shape.name,
        is_lawful: is_unreserved_name(walk.has_maps, shape.name),
        is_taken: has_function_named(seen, shape.name),
    };
    let has_room = has_room_for_function(seen);
    add_signature_and_limit_faults(
        walk,
        faults,
        path,
        has_room,
        name,
        shape.params,
        shape.result,
    )?;
    add_outermost_expression_faults(walk, faults, path, 4, shape.body)?;
    Ok(())
}

/// Adds the faults of an operation at `path`, after the items `seen`.
#[tactic(auto, using(crate::proofs::Keeping::keeping))]
fn add_operation_faults(
    walk: FaultSearch,
    faults: &mut Faults,
    seen: &[Option<ItemShape<'_>>],
    path: &[usize],
    shape: &OpShape<'_>,
) -> AddingResult
    ensures { OnOk result (faults.new ≡ keep walk.limit faults.old
        (spec.item_faults_at walk.has_maps (items_in seen.now) path.now (shown_op shape.now))) }
{
    let name = DeclaredName {
        word: shape.name,
        is_lawful: is_name(shape.name),
        is_taken: has_operation_named(seen, shape.name),
    };
    let has_room = has_room_for_operation(seen);
    add_signature_and_limit_faults(
        walk,
        faults,
        path,
        has_room,
        name,
        shape.params,
        shape.result,
    )?;
    add_faults_of_callbacks_and_missing_ones(walk, faults, path, shape.callbacks)?;
    Ok(())
}

/// Adds the faults of the item at `path`, after the items `seen`.
#[tactic(auto, using(crate::proofs::Keeping::keeping, crate::proofs::Seen::seen))]
pub fn add_item_faults(
    walk: FaultSearch,
    faults: &mut Faults,
    seen: &[Option<ItemShape<'_>>],
    path: &[usize],
    shape: &Option<ItemShape<'_>>,
) -> AddingResult
    ensures { OnOk result (faults.new ≡ keep walk.limit faults.old
        (known_at path.now role.Item (shown_item_option shape.now)
        (spec.item_faults_at walk.has_maps (items_in seen.now) path.now))) }
{
    let role = Role::Item;
    match shape {
        Some(ItemShape::State(ty)) => add_state_item_faults(
            walk,
            faults,
            path,
            has_state_item_shape(seen),
            ty,
        )?,
        Some(ItemShape::Init(value)) => add_repetition_and_expression_faults(
            walk,
            faults,
            role,
            path,
            has_init_item_shape(seen),
            value,
        )?,
        Some(ItemShape::Command(calls)) => add_repetition_and_expression_faults(
            walk,
            faults,
            role,
            path,
            has_command_item_shape(seen),
            calls,
        )?,
        Some(ItemShape::Fun(shape)) => add_function_faults(walk, faults, seen, path, shape)?,
        Some(ItemShape::Op(shape)) => add_operation_faults(walk, faults, seen, path, shape)?,
        None => push_fault_within_limit(walk, faults, path, role, FaultKind::UnknownForm)?,
    }
    Ok(())
}
