//! The faults of expressions and clauses, with their places.
ghost use Rattle.std.specs.Prelude.{◌≡◌, ◌∷◌, [], ◌≤◌, OnOk, map};
ghost use Rattle.pst_syntax_problems.specs.Kept.{keep};
ghost use Rattle.pst_syntax_problems.specs.Placed as spec;
ghost use Rattle.pst_syntax_problems.specs.Placed.{all_at, expr_faults_at, spots_from};
ghost use Rattle.pst_syntax_problems.specs.declared.fault.Role.TheVariants as role;
ghost use Rattle.pst_syntax.specs.Faults.{Clause, Expression};
ghost use Rattle.pst_syntax.specs.Shape.{At, Call, Fold, For, Let, ListOf};
ghost use Rattle.pst_syntax.specs.Shown.{shown};

use crate::fault::{
    AddingResult, FaultSearch, Faults, Role, push_fault_unless, push_fault_within_limit,
};
use crate::part_faults::{
    add_bound_name_faults, add_map_value_type_faults, add_operation_name_faults,
    add_tuple_place_faults, is_expression_shape_within_limits,
};
use crate::problem::path_to_part;
use crate::type_faults::add_type_faults_at_part;
use pst_sexpr::Form;
use pst_syntax::{ClauseShape, FaultKind, FoldShape, MAX_TY_LEVELS, Shape, clause_shape, shape_of};
use pst_value::Text;

/// Adds the faults of an expression with room for `room` levels of nesting.
#[cycle(add_expression_faults)]
#[tactic(auto, using(crate::proofs::Keeping::keeping, crate::proofs::Levels::expr_levels))]
pub fn add_expression_faults(
    walk: FaultSearch,
    faults: &mut Faults,
    path: &[usize],
    form: &Form,
    room: usize,
) -> AddingResult
    ensures { OnOk result (faults.new ≡ keep walk.limit faults.old
        (expr_faults_at walk.has_maps room role.Expression path.now form.now)) }
{
    let Some(shape) = shape_of(walk.has_maps, form) else {
        return push_fault_within_limit(
            walk,
            faults,
            path,
            Role::Expression,
            FaultKind::UnknownForm,
        );
    };
    if room == 0 {
        return push_fault_within_limit(
            walk,
            faults,
            path,
            Role::DeepExpression,
            FaultKind::OverLimit,
        );
    }
    push_fault_unless(
        walk,
        faults,
        path,
        Role::Expression,
        is_expression_shape_within_limits(&shape),
        FaultKind::OverLimit,
    )?;
    add_faults_of_expression_parts(walk, faults, path, &shape, room - 1)?;
    Ok(())
}

#[cycle(add_expression_faults)]
#[tactic(auto, using(crate::proofs::Keeping::keeping))]
fn add_faults_of_expression_parts(
    walk: FaultSearch,
    faults: &mut Faults,
    path: &[usize],
    shape: &Shape<'_>,
    room: usize,
) -> AddingResult
    ensures { OnOk result (faults.new ≡ keep walk.limit faults.old
        (all_at (spec.spot_in walk.has_maps (expr_faults_at walk.has_maps room))
        (spec.spots walk.has_maps path.now (shown shape.now)))) }
{
    match shape {
        Shape::Integer(_) | Shape::Truth(_) | Shape::Quoted(_) | Shape::Used(_) => Ok(()),
        Shape::Let(name, value, body) => add_let_faults(
            walk, faults, path, name, value, body, room,
        ),
        Shape::If(a, b, c) => add_faults_of_three_operands(walk, faults, path, a, b, c, room),
        Shape::Put(a, b, c) => add_faults_of_three_operands(walk, faults, path, a, b, c, room),
        Shape::And(a, b) => add_faults_of_two_operands(walk, faults, path, a, b, room),
        Shape::Or(a, b) => add_faults_of_two_operands(walk, faults, path, a, b, room),
        Shape::Binary(_, a, b) => add_faults_of_two_operands(walk, faults, path, a, b, room),
        Shape::Unary(_, a) => add_faults_of_one_operand(walk, faults, path, a, room),
        Shape::Tuple(items) => add_faults_of_expressions_from_part(
            walk, faults, path, 1, items, room,
        ),
        Shape::At(tuple, number) => add_tuple_access_faults(
            walk, faults, path, tuple, number, room,
        ),
        Shape::List(item, items) => add_list_faults(walk, faults, path, item, items, room),
        Shape::For(parts, body) => add_comprehension_faults(walk, faults, path, parts, body, room),
        Shape::Fold(shape) => add_fold_faults(walk, faults, path, shape, room),
        Shape::Map(_, value) => add_map_value_type_faults(walk, faults, path, value),
        Shape::Call(name, arguments) => add_call_faults(walk, faults, path, name, arguments, room),
        Shape::Apply(_, arguments) => add_faults_of_expressions_from_part(
            walk, faults, path, 1, arguments, room,
        ),
    }
}

/// Adds the faults of an expression that is part `number` of the tree at `path`.
#[cycle(add_expression_faults)]
pub fn add_expression_faults_at_part(
    walk: FaultSearch,
    faults: &mut Faults,
    path: &[usize],
    number: usize,
    form: &Form,
    room: usize,
) -> AddingResult
    ensures { OnOk result (faults.new ≡ keep walk.limit faults.old
        (expr_faults_at walk.has_maps room role.Expression (spec.below path.now number) form.now)) }
{
    let path = path_to_part(path, walk.alloc, number)?;
    add_expression_faults(walk, faults, path.as_slice(), form, room)
}

/// Adds the faults of an expression that is part 1 of the tree at `path`.
#[cycle(add_expression_faults)]
#[tactic(auto, using(crate::proofs::Keeping::keeping))]
fn add_faults_of_one_operand(
    walk: FaultSearch,
    faults: &mut Faults,
    path: &[usize],
    a: &Form,
    room: usize,
) -> AddingResult
    ensures { OnOk result (faults.new ≡ keep walk.limit faults.old
        (all_at (spec.spot_in walk.has_maps (expr_faults_at walk.has_maps room))
        (spots_from path.now 1 (Expression a.now ∷ [])))) }
{
    add_expression_faults_at_part(walk, faults, path, 1, a, room)?;
    Ok(())
}

/// Adds the faults of expressions that are the parts 1 and 2 of the tree at `path`.
#[cycle(add_expression_faults)]
#[tactic(auto, using(crate::proofs::Keeping::keeping))]
fn add_faults_of_two_operands(
    walk: FaultSearch,
    faults: &mut Faults,
    path: &[usize],
    a: &Form,
    b: &Form,
    room: usize,
) -> AddingResult
    ensures { OnOk result (faults.new ≡ keep walk.limit faults.old
        (all_at (spec.spot_in walk.has_maps (expr_faults_at walk.has_maps room))
        (spots_from path.now 1 (Expression a.now ∷ Expression b.now ∷ [])))) }
{
    add_expression_faults_at_part(walk, faults, path, 1, a, room)?;
    add_expression_faults_at_part(walk, faults, path, 2, b, room)?;
    Ok(())
}

/// Adds the faults of expressions that are the parts 1, 2 and 3 of the tree at `path`. The parts are parameters of their
/// own, since the contract names each.
#[cycle(add_expression_faults)]
#[tactic(auto, using(crate::proofs::Keeping::keeping))]
fn add_faults_of_three_operands(
    walk: FaultSearch,
    faults: &mut Faults,
    path: &[usize],
    a: &Form,
    b: &Form,
    c: &Form,
    room: usize,
) -> AddingResult
    ensures { OnOk result (faults.new ≡ keep walk.limit faults.old
        (all_at (spec.spot_in walk.has_maps (expr_faults_at walk.has_maps room))
        (spots_from path.now 1 (Expression a.now ∷ Expression b.now ∷ Expression c.now ∷ [])))) }
{
    add_expression_faults_at_part(walk, faults, path, 1, a, room)?;
    add_expression_faults_at_part(walk, faults, path, 2, b, room)?;
    add_expression_faults_at_part(walk, faults, path, 3, c, room)?;
    Ok(())
}

/// Adds the faults of a body that sees a value under a name. The parts of the `let` are parameters of their own, since the
/// contract names each.
#[cycle(add_expression_faults)]
#[tactic(auto, using(crate::proofs::Keeping::keeping))]
fn add_let_faults(
    walk: FaultSearch,
    faults: &mut Faults,
    path: &[usize],
    name: &Text,
    value: &Form,
    body: &Form,
    room: usize,
) -> AddingResult
    ensures { OnOk result (faults.new ≡ keep walk.limit faults.old
        (all_at (spec.spot_in walk.has_maps (expr_faults_at walk.has_maps room))
        (spec.spots walk.has_maps path.now (Let name.now value.now body.now)))) }
{
    add_bound_name_faults(walk, faults, path, 1, false, name)?;
    add_expression_faults_at_part(walk, faults, path, 2, value, room)?;
    add_expression_faults_at_part(walk, faults, path, 3, body, room)?;
    Ok(())
}

/// Adds the faults of an item of a tuple.
#[cycle(add_expression_faults)]
#[tactic(auto, using(crate::proofs::Keeping::keeping))]
fn add_tuple_access_faults(
    walk: FaultSearch,
    faults: &mut Faults,
    path: &[usize],
    tuple: &Form,
    number: &Text,
    room: usize,
) -> AddingResult
    ensures { OnOk result (faults.new ≡ keep walk.limit faults.old
        (all_at (spec.spot_in walk.has_maps (expr_faults_at walk.has_maps room))
        (spec.spots walk.has_maps path.now (At tuple.now number.now)))) }
{
    add_expression_faults_at_part(walk, faults, path, 1, tuple, room)?;
    add_tuple_place_faults(walk, faults, path, number)?;
    Ok(())
}

/// Adds the faults of a list that is written out.
#[cycle(add_expression_faults)]
#[tactic(auto, using(crate::proofs::Keeping::keeping))]
fn add_list_faults(
    walk: FaultSearch,
    faults: &mut Faults,
    path: &[usize],
    item: &Form,
    items: &[Form],
    room: usize,
) -> AddingResult
    ensures { OnOk result (faults.new ≡ keep walk.limit faults.old
        (all_at (spec.spot_in walk.has_maps (expr_faults_at walk.has_maps room))
        (spec.spots walk.has_maps path.now (ListOf item.now items.now)))) }
{
    add_type_faults_at_part(walk, faults, Role::ItemType, path, 1, item, MAX_TY_LEVELS)?;
    add_faults_of_expressions_from_part(walk, faults, path, 2, items, room)?;
    Ok(())
}

/// Adds the faults of a comprehension.
#[cycle(add_expression_faults)]
#[tactic(auto, using(crate::proofs::Keeping::keeping))]
fn add_comprehension_faults(
    walk: FaultSearch,
    faults: &mut Faults,
    path: &[usize],
    parts: &[Form],
    body: &Form,
    room: usize,
) -> AddingResult
    ensures { OnOk result (faults.new ≡ keep walk.limit faults.old
        (all_at (spec.spot_in walk.has_maps (expr_faults_at walk.has_maps room))
        (spec.spots walk.has_maps path.now (For parts.now body.now)))) }
{
    add_faults_of_comprehension_clauses(walk, faults, path, parts, room)?;
    add_expression_faults_at_part(walk, faults, path, 2, body, room)?;
    Ok(())
}

/// Adds the faults of a call of an operation.
#[cycle(add_expression_faults)]
#[tactic(auto, using(crate::proofs::Keeping::keeping))]
fn add_call_faults(
    walk: FaultSearch,
    faults: &mut Faults,
    path: &[usize],
    name: &Text,
    arguments: &[Form],
    room: usize,
) -> AddingResult
    ensures { OnOk result (faults.new ≡ keep walk.limit faults.old
        (all_at (spec.spot_in walk.has_maps (expr_faults_at walk.has_maps room))
        (spec.spots walk.has_maps path.now (Call name.now arguments.now)))) }
{
    add_operation_name_faults(walk, faults, path, name)?;
    add_faults_of_expressions_from_part(walk, faults, path, 2, arguments, room)?;
    Ok(())
}

/// Adds the faults of expressions that are the parts from `from` on of the tree at `path`.
#[cycle(add_expression_faults)]
#[tactic(auto, using(crate::proofs::Keeping::keeping))]
fn add_faults_of_expressions_from_part(
    walk: FaultSearch,
    faults: &mut Faults,
    path: &[usize],
    from: usize,
    forms: &[Form],
    room: usize,
) -> AddingResult
    requires { from ≤ 2 }
    ensures { OnOk result (faults.new ≡ keep walk.limit faults.old
        (all_at (spec.spot_in walk.has_maps (expr_faults_at walk.has_maps room))
        (spots_from path.now from (map Expression forms.now)))) }
{
    let mut number = from;
    for form in forms {
        add_expression_faults_at_part(walk, faults, path, number, form, room)?;
        number += 1;
    }
    Ok(())
}

/// Adds the faults of a fold over a list.
#[cycle(add_expression_faults)]
#[tactic(auto, using(crate::proofs::Keeping::keeping))]
fn add_fold_faults(
    walk: FaultSearch,
    faults: &mut Faults,
    path: &[usize],
    shape: &FoldShape<'_>,
    room: usize,
) -> AddingResult
    ensures { OnOk result (faults.new ≡ keep walk.limit faults.old
        (all_at (spec.spot_in walk.has_maps (expr_faults_at walk.has_maps room))
        (spec.spots walk.has_maps path.now
        (Fold shape.now.name.now shape.now.list.now shape.now.built.now shape.now.first.now
        shape.now.body.now)))) }
{
    add_bound_name_faults(walk, faults, path, 1, false, shape.name)?;
    add_expression_faults_at_part(walk, faults, path, 2, shape.list, room)?;
    let is_taken = shape.name.as_str() == shape.built.as_str();
    add_bound_name_faults(walk, faults, path, 3, is_taken, shape.built)?;
    add_expression_faults_at_part(walk, faults, path, 4, shape.first, room)?;
    add_expression_faults_at_part(walk, faults, path, 5, shape.body, room)?;
    Ok(())
}

/// Adds the faults of the clauses of the comprehension at `path`.
#[cycle(add_expression_faults)]
#[tactic(auto, using(crate::proofs::Keeping::keeping))]
fn add_faults_of_comprehension_clauses(
    walk: FaultSearch,
    faults: &mut Faults,
    path: &[usize],
    forms: &[Form],
    room: usize,
) -> AddingResult
    ensures { OnOk result (faults.new ≡ keep walk.limit faults.old
        (all_at (spec.spot_in walk.has_maps (expr_faults_at walk.has_maps room))
        (spots_from (spec.below path.now 1) 0 (map Clause forms.now)))) }
{
    let path = path_to_part(path, walk.alloc, 1)?;
    let mut number = 0;
    for form in forms {
        add_comprehension_clause_faults(walk, faults, path.as_slice(), number, form, room)?;
        number += 1;
    }
    Ok(())
}

/// Adds the faults of a clause that is part `number` of the tree at `path`.
#[cycle(add_expression_faults)]
#[tactic(auto, using(crate::proofs::Keeping::keeping))]
fn add_comprehension_clause_faults(
    walk: FaultSearch,
    faults: &mut Faults,
    path: &[usize],
    number: usize,
    form: &Form,
    room: usize,
) -> AddingResult
    ensures { OnOk result (faults.new ≡ keep walk.limit faults.old
        (spec.clause_faults_at walk.has_maps (expr_faults_at walk.has_maps room) role.Clause
        (spec.below path.now number) form.now)) }
{
    let path = path_to_part(path, walk.alloc, number)?;
    let path = path.as_slice();
    match clause_shape(form) {
        Some(ClauseShape::In(name, list)) => {
            add_bound_name_faults(walk, faults, path, 1, false, name)?;
            add_expression_faults_at_part(walk, faults, path, 2, list, room)?;
            Ok(())
        }
        Some(ClauseShape::When(test)) => {
            add_expression_faults_at_part(walk, faults, path, 1, test, room)?;
            Ok(())
        }
        None => push_fault_within_limit(walk, faults, path, Role::Clause, FaultKind::UnknownForm),
    }
}
