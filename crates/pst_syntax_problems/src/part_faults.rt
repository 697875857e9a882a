//! The faults of the parts of expressions that are no expressions, with their places.
ghost use Rattle.std.specs.Prelude.{◌≡◌, ◌∷◌, [], OnOk};
ghost use Rattle.pst_syntax_problems.specs.Kept.{keep};
ghost use Rattle.pst_syntax_problems.specs.Placed as spec;
ghost use Rattle.pst_syntax_problems.specs.Placed.{all_at, none_at, part_at, spots_from};
ghost use Rattle.pst_syntax_problems.specs.declared.fault.Role.TheVariants as role;
ghost use Rattle.pst_syntax.specs.Faults.{Declared, OfType, Operation, Place, fits};
ghost use Rattle.pst_syntax.specs.Names.{is_free};
ghost use Rattle.pst_syntax.specs.Shown.{shown};

use crate::fault::{
    AddingResult, DeclaredName, FaultSearch, Faults, Role, push_fault_unless,
    push_name_faults_at_part,
};
use crate::problem::path_to_part;
use crate::type_faults::add_type_faults_at_part;
use pst_sexpr::{Form, value_of_integer_word};
use pst_syntax::{
    FaultKind, MAX_PARTS, MAX_TY_LEVELS, Shape, is_unreserved_name, is_usable_operation_name,
};
use pst_value::{LIMIT, Text};

/// Whether an expression keeps to the limits besides that of its depth.
pub fn is_expression_shape_within_limits(shape: &Shape<'_>) -> bool
    ensures { result ≡ fits (shown shape.now) }
{
    match shape {
        Shape::Integer(word) => value_of_integer_word(word).is_some(),
        Shape::Quoted(text) => text.len() <= LIMIT,
        Shape::Tuple(items) => items.len() <= MAX_PARTS,
        Shape::For(clauses, _) => clauses.len() <= MAX_PARTS,
        _ => true,
    }
}

/// Adds the faults of a bound name that is part `number` of the tree at `path`.
pub fn add_bound_name_faults(
    walk: FaultSearch,
    faults: &mut Faults,
    path: &[usize],
    number: usize,
    is_taken: bool,
    word: &Text,
) -> AddingResult
    ensures { OnOk result (faults.new ≡ keep walk.limit faults.old
        (part_at none_at none_at none_at (spec.below path.now number) role.Name
        (Declared (is_free walk.has_maps word.now) is_taken word.now))) }
{
    let is_lawful = is_unreserved_name(walk.has_maps, word);
    let name = DeclaredName {
        word,
        is_lawful,
        is_taken,
    };
    push_name_faults_at_part(walk, faults, path, number, Role::Name, name)
}

/// Adds the fault of the place of an item of a tuple, which is part 2 of the tree at `path`.
#[tactic(auto, using(crate::proofs::Keeping::keeping))]
pub fn add_tuple_place_faults(
    walk: FaultSearch,
    faults: &mut Faults,
    path: &[usize],
    word: &Text,
) -> AddingResult
    ensures { OnOk result (faults.new ≡ keep walk.limit faults.old
        (part_at none_at none_at none_at (spec.below path.now 2) role.Place (Place word.now))) }
{
    let path = path_to_part(path, walk.alloc, 2)?;
    let path = path.as_slice();
    let fits = value_of_integer_word(word).is_some();
    push_fault_unless(walk, faults, path, Role::Place, fits, FaultKind::OverLimit)
}

/// Adds the fault of the name of an operation, which is part 1 of the tree at `path`.
pub fn add_operation_name_faults(
    walk: FaultSearch,
    faults: &mut Faults,
    path: &[usize],
    word: &Text,
) -> AddingResult
    ensures { OnOk result (faults.new ≡ keep walk.limit faults.old
        (part_at none_at none_at none_at (spec.below path.now 1) role.Operation (Operation word.now))) }
{
    let path = path_to_part(path, walk.alloc, 1)?;
    let holds = is_usable_operation_name(word);
    push_fault_unless(
        walk,
        faults,
        path.as_slice(),
        Role::Operation,
        holds,
        FaultKind::UnknownForm,
    )
}

/// Adds the faults of an empty map.
#[tactic(auto, using(crate::proofs::Keeping::keeping))]
pub fn add_map_value_type_faults(
    walk: FaultSearch,
    faults: &mut Faults,
    path: &[usize],
    value: &Form,
) -> AddingResult
    ensures { (e : spec.At) → OnOk result (faults.new ≡ keep walk.limit faults.old
        (all_at (spec.spot_in walk.has_maps e) (spots_from path.now 2 (OfType value.now ∷ [])))) }
{
    add_type_faults_at_part(walk, faults, Role::Type, path, 2, value, MAX_TY_LEVELS)?;
    Ok(())
}
