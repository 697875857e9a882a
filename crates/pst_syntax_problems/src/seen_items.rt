//! What the items before another are.

ghost use Rattle.std.specs.Prelude.{◌≡◌, ◌&&◌, nat_lt};
ghost use Rattle.std.specs.List.{list_any, count_by};
ghost use Rattle.pst_syntax_problems.specs.SeenShapes.{holds};
ghost use Rattle.pst_syntax.specs.Limits.{max_declared};
ghost use Rattle.pst_syntax.specs.ModelFaults as faults;
ghost use Rattle.pst_syntax.specs.ShownItems.{shown_item_option};

use pst_syntax::{ItemShape, MAX_DECLARED};
use pst_value::Text;

/// Whether one of the items is the type of the state.
pub fn has_state_item_shape(seen: &[Option<ItemShape<'_>>]) -> bool
    ensures { result ≡ list_any (λ shape. holds faults.is_state (shown_item_option shape)) seen.now }
{
    seen.iter()
        .any(|shape| matches!(shape, Some(ItemShape::State(_))))
}

/// Whether one of the items is the initial state.
pub fn has_init_item_shape(seen: &[Option<ItemShape<'_>>]) -> bool
    ensures { result ≡ list_any (λ shape. holds faults.is_init (shown_item_option shape)) seen.now }
{
    seen.iter()
        .any(|shape| matches!(shape, Some(ItemShape::Init(_))))
}

/// Whether one of the items is the list of calls to pick from.
pub fn has_command_item_shape(seen: &[Option<ItemShape<'_>>]) -> bool
    ensures { result ≡ list_any (λ shape. holds faults.is_command (shown_item_option shape)) seen.now }
{
    seen.iter()
        .any(|shape| matches!(shape, Some(ItemShape::Command(_))))
}

/// Whether no item is missing that a model has to have.
pub fn has_required_items(seen: &[Option<ItemShape<'_>>]) -> bool
    ensures { result ≡ (list_any (λ shape. holds faults.is_state (shown_item_option shape)) seen.now
        && list_any (λ shape. holds faults.is_init (shown_item_option shape)) seen.now
        && list_any (λ shape. holds faults.is_command (shown_item_option shape)) seen.now) }
{
    has_state_item_shape(seen) && has_init_item_shape(seen) && has_command_item_shape(seen)
}

/// Whether there is room for one more function.
pub fn has_room_for_function(seen: &[Option<ItemShape<'_>>]) -> bool
    ensures { result ≡
        nat_lt (count_by (λ shape. holds faults.is_fun (shown_item_option shape)) seen.now) max_declared }
{
    let funs = seen
        .iter()
        .filter(|shape| matches!(shape, Some(ItemShape::Fun(_))));
    funs.count() < MAX_DECLARED
}

/// Whether there is room for one more operation.
pub fn has_room_for_operation(seen: &[Option<ItemShape<'_>>]) -> bool
    ensures { result ≡
        nat_lt (count_by (λ shape. holds faults.is_op (shown_item_option shape)) seen.now) max_declared }
{
    let ops = seen
        .iter()
        .filter(|shape| matches!(shape, Some(ItemShape::Op(_))));
    ops.count() < MAX_DECLARED
}

fn is_function_shape_named(shape: &Option<ItemShape<'_>>, word: &Text) -> bool
    ensures { result ≡ holds (faults.is_fun_named word.now) (shown_item_option shape.now) }
{
    match shape {
        Some(ItemShape::Fun(fun)) => fun.name.as_str() == word.as_str(),
        _ => false,
    }
}

fn is_operation_shape_named(shape: &Option<ItemShape<'_>>, word: &Text) -> bool
    ensures { result ≡ holds (faults.is_op_named word.now) (shown_item_option shape.now) }
{
    match shape {
        Some(ItemShape::Op(op)) => op.name.as_str() == word.as_str(),
        _ => false,
    }
}

/// Whether one of the items is a function with the name `word`.
pub fn has_function_named(seen: &[Option<ItemShape<'_>>], word: &Text) -> bool
    ensures { result ≡
        list_any (λ shape. holds (faults.is_fun_named word.now) (shown_item_option shape)) seen.now }
{
    seen.iter()
        .any(|shape| is_function_shape_named(shape, word))
}

/// Whether one of the items is an operation with the name `word`.
pub fn has_operation_named(seen: &[Option<ItemShape<'_>>], word: &Text) -> bool
    ensures { result ≡
        list_any (λ shape. holds (faults.is_op_named word.now) (shown_item_option shape)) seen.now }
{
    seen.iter()
        .any(|shape| is_operation_shape_named(shape, word))
}
