//! The faults of a model, with their places.
ghost use Rattle.std.specs.Prelude.{◌≡◌, [], nat_le, IfOk, OnOk, take};
ghost use Rattle.pst_syntax_problems.specs.Kept.{keep};
ghost use Rattle.pst_syntax_problems.specs.Placed.{unless_at};
ghost use Rattle.pst_syntax_problems.specs.PlacedModel as spec;
ghost use Rattle.pst_syntax_problems.specs.declared.fault.Role.TheVariants as role;
ghost use Rattle.pst_syntax.specs.Counting.{trees_in};
ghost use Rattle.pst_syntax.specs.ItemShape.{model_shape};
ghost use Rattle.pst_syntax.specs.Limits.{max_trees};
ghost use Rattle.pst_syntax.specs.declared.fault.FaultKind.TheVariants.{OverLimit};

use crate::fault::{
    AddingResult, DeclaredName, FaultSearch, Faults, FormFault, Role, push_fault_unless,
    push_fault_within_limit, push_name_faults_at_part,
};
use crate::item_faults::add_item_faults;
use crate::problem::path_to_part;
use crate::seen_items::has_required_items;
use pst_sexpr::{Form, Tree};
use pst_syntax::{FaultKind, MAX_TREES, is_name, item_shape, model_shape, room_left_after_tree};
use pst_value::Items;
use std::alloc::{AllocError, Global};

/// Adds the faults of the items, which are the parts from 2 on of the tree at `path`.
#[tactic(auto, using(crate::proofs::Keeping::keeping))]
fn add_faults_of_items_and_missing_ones(
    walk: FaultSearch,
    faults: &mut Faults,
    path: &[usize],
    forms: &[Form],
) -> AddingResult
    ensures { OnOk result (faults.new ≡ keep walk.limit faults.old
        (spec.items_faults_at walk.has_maps [] path.now 2 forms.now)) }
{
    let mut seen = Items::new(walk.alloc);
    let mut number = 2;
    for form in forms {
        if faults.len() >= walk.limit {
            return Ok(());
        }
        let at = path_to_part(path, walk.alloc, number)?;
        let shape = item_shape(form);
        add_item_faults(walk, faults, seen.as_slice(), at.as_slice(), &shape)?;
        seen.push(shape)?;
        number += 1;
    }
    let are_there = has_required_items(seen.as_slice());
    let role = Role::Model;
    push_fault_unless(walk, faults, path, role, are_there, FaultKind::Missing)?;
    Ok(())
}

/// Adds the faults of a model, apart from the number of its trees.
#[tactic(auto, using(crate::proofs::Keeping::keeping))]
fn add_model_faults_except_tree_count(
    walk: FaultSearch,
    faults: &mut Faults,
    path: &[usize],
    form: &Form,
) -> AddingResult
    ensures { OnOk result (faults.new ≡ keep walk.limit faults.old
        (spec.named_faults_at path.now (model_shape form.now))) }
{
    let Some(shape) = model_shape(form) else {
        return push_fault_within_limit(walk, faults, path, Role::Model, FaultKind::UnknownForm);
    };
    let walk = FaultSearch {
        has_maps: shape.has_maps,
        ..walk
    };
    let name = DeclaredName {
        word: shape.name,
        is_lawful: is_name(shape.name),
        is_taken: false,
    };
    push_name_faults_at_part(walk, faults, path, 1, Role::ModelName, name)?;
    add_faults_of_items_and_missing_ones(walk, faults, path, shape.items)?;
    Ok(())
}

/// Whether a model has no more trees than it may have.
fn is_model_within_tree_limit(form: &Form) -> bool
    ensures { result ≡ nat_le (trees_in form.now) max_trees }
{
    room_left_after_tree(form, MAX_TREES).is_some()
}

/// Adds the faults of the model at `path`.
#[tactic(auto, using(crate::proofs::Keeping::keeping))]
fn add_model_faults(
    walk: FaultSearch,
    faults: &mut Faults,
    path: &[usize],
    form: &Form,
) -> AddingResult
    ensures { OnOk result (faults.new ≡ keep walk.limit faults.old
        (unless_at path.now role.Model (nat_le (trees_in form.now) max_trees) OverLimit
        (spec.named_faults_at path.now (model_shape form.now)))) }
{
    let are_few = is_model_within_tree_limit(form);
    push_fault_unless(
        walk,
        faults,
        path,
        Role::Model,
        are_few,
        FaultKind::OverLimit,
    )?;
    add_model_faults_except_tree_count(walk, faults, path, form)?;
    Ok(())
}

/// Adds the faults of the model that the first tree spells.
#[tactic(auto, using(crate::proofs::Keeping::keeping))]
fn add_first_tree_faults_or_missing(
    walk: FaultSearch,
    faults: &mut Faults,
    trees: &[Tree],
) -> AddingResult
    ensures { OnOk result (faults.new ≡ keep walk.limit faults.old (spec.placed_faults trees.now)) }
{
    match trees {
        [] => {
            push_fault_within_limit(walk, faults, &[], Role::Model, FaultKind::Missing)?;
            Ok(())
        }
        [tree, ..] => {
            add_model_faults(walk, faults, &[0], tree.form())?;
            Ok(())
        }
    }
}

/// The faults of the model that the first tree spells, with their places: all, or the first `limit` of them.
/// The first is the one that the reader returns.
#[tactic(auto, using(crate::proofs::Keeping::keeping))]
pub fn model_syntax_faults(
    alloc: Global,
    trees: &[Tree],
    limit: usize,
) -> Result<Items<FormFault>, AllocError>
    ensures { IfOk result (λ faults. faults ≡ take limit (spec.placed_faults trees.now)) }
{
    let walk = FaultSearch {
        alloc,
        has_maps: false,
        limit,
    };
    let mut faults = Items::new(alloc);
    add_first_tree_faults_or_missing(walk, &mut faults, trees)?;
    Ok(faults)
}
