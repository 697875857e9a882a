//! Faults of a model with the places of the refused parts, and functions that add them up to a limit.
ghost use Rattle.std.specs.Prelude.{◌≡◌, ◌∷◌, [], OnOk, map};
ghost use Rattle.pst_syntax_problems.specs.Kept.{keep};
ghost use Rattle.pst_syntax_problems.specs.Placed.{below, placed, unless_at};
ghost use Rattle.pst_syntax.specs.Faults.{name_faults};

use crate::problem::path_to_part;
use pst_syntax::{FaultKind, is_within_name_length};
use pst_value::{Items, Text};
use std::alloc::{AllocError, Global};

/// What the refused part of a model has to be.
#[derive(Clone, Copy, Debug, PartialEq, Eq, Drop)]
pub enum Role {
    /// The model.
    Model,
    /// The name of the model.
    ModelName,
    /// An item.
    Item,
    /// The name of a function or an operation.
    ItemName,
    /// The parameters of a function or an operation.
    Parameters,
    /// One of them.
    Parameter,
    /// Its name.
    ParameterName,
    /// The callbacks of an operation.
    Callbacks,
    /// One of them.
    Callback,
    /// A type.
    Type,
    /// The type of the items of a list that is written out, or a type in it.
    ItemType,
    /// A type that may not be nested so deep.
    DeepType,
    /// An expression.
    Expression,
    /// An expression that is nested too deep.
    DeepExpression,
    /// A clause of a comprehension.
    Clause,
    /// A bound name.
    Name,
    /// The place of an item of a tuple.
    Place,
    /// The name of an operation where it is used.
    Operation,
}

/// A fault of a model, and the part that is refused for it.
#[derive(Debug, Drop)]
pub struct FormFault {
    /// What is wrong.
    pub kind: FaultKind,
    /// The numbers that lead to the part: of a tree of the file, from 0, of a tree in it, and so on.
    pub path: Items<usize>,
    /// What the part has to be.
    pub role: Role,
}

/// What a walk over a model carries along.
#[derive(Clone, Copy)]
pub struct FaultSearch {
    /// The allocator.
    pub alloc: Global,
    /// Whether the language of the model has maps.
    pub has_maps: bool,
    /// The maximum number of faults.
    pub limit: usize,
}

/// The faults that a walk has found.
pub type Faults = Items<FormFault>;

/// The result of adding faults.
pub type AddingResult = Result<(), AllocError>;

/// A name where it is declared.
#[derive(Clone, Copy)]
pub struct DeclaredName<'a> {
    /// The name.
    pub word: &'a Text,
    /// Whether it is valid there.
    pub is_lawful: bool,
    /// Whether it is taken.
    pub is_taken: bool,
}

/// Adds the fault of the part at `path`. Does nothing if there are already as many faults as the limit of `walk`.
#[tactic(auto, using(crate::proofs::Keeping::keeping))]
pub fn push_fault_within_limit(
    walk: FaultSearch,
    faults: &mut Faults,
    path: &[usize],
    role: Role,
    kind: FaultKind,
) -> AddingResult
    ensures { OnOk result (faults.new ≡ keep walk.limit faults.old (placed path.now role kind ∷ [])) }
{
    if faults.len() >= walk.limit {
        return Ok(());
    }
    let path = Items::from_slice(walk.alloc, path)?;
    faults.push(FormFault { kind, path, role })?;
    Ok(())
}

/// Adds the fault of the part at `path` unless `holds`.
#[tactic(auto, using(crate::proofs::Keeping::keeping))]
pub fn push_fault_unless(
    walk: FaultSearch,
    faults: &mut Faults,
    path: &[usize],
    role: Role,
    holds: bool,
    kind: FaultKind,
) -> AddingResult
    ensures { OnOk result (faults.new ≡ keep walk.limit faults.old (unless_at path.now role holds kind [])) }
{
    if holds {
        Ok(())
    } else {
        push_fault_within_limit(walk, faults, path, role, kind)
    }
}

/// Adds the faults of the name at `path`.
#[tactic(auto, using(crate::proofs::Keeping::keeping, crate::proofs::Levels::name_steps))]
fn push_name_faults(
    walk: FaultSearch,
    faults: &mut Faults,
    path: &[usize],
    role: Role,
    name: DeclaredName<'_>,
) -> AddingResult
    ensures { OnOk result (faults.new ≡ keep walk.limit faults.old
        (map (placed path.now role) (name_faults name.entry.is_lawful name.entry.is_taken name.entry.word.now))) }
{
    let is_taken = name.is_taken;
    let is_within_name_length = is_within_name_length(name.word);
    push_fault_unless(walk, faults, path, role, name.is_lawful, FaultKind::BadName)?;
    push_fault_unless(walk, faults, path, role, !is_taken, FaultKind::DoubleName)?;
    push_fault_unless(
        walk,
        faults,
        path,
        role,
        is_within_name_length,
        FaultKind::OverLimit,
    )?;
    Ok(())
}

/// Adds the faults of the name that is part `number` of the tree at `path`.
pub fn push_name_faults_at_part(
    walk: FaultSearch,
    faults: &mut Faults,
    path: &[usize],
    number: usize,
    role: Role,
    name: DeclaredName<'_>,
) -> AddingResult
    ensures { OnOk result (faults.new ≡ keep walk.limit faults.old
        (map (placed (below path.now number) role) (name_faults name.entry.is_lawful name.entry.is_taken name.entry.word.now))) }
{
    let path = path_to_part(path, walk.alloc, number)?;
    push_name_faults(walk, faults, path.as_slice(), role, name)
}
