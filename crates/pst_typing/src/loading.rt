//! Loads and checks models: `load` reads bytes as a well-typed model, `check` checks one; and why they refuse.
ghost use Rattle.std.specs.Prelude.{◌≡◌, IfOk, MatchResult};
ghost use Rattle.pst_typing.specs.FaultName.{fault_name};
ghost use Rattle.pst_model.specs.WellTyped.{WellModel};
ghost use Rattle.pst_syntax.specs.Items.{model_of};
ghost use Rattle.pst_typing.specs.Least.{IsIll, IsWhole, Judged};
ghost use Rattle.pst_typing.specs.Loading.{IsFile, Holds, IsRefusal, items_of};
ghost use Rattle.pst_typing.specs.Checked.{Checks};

use crate::items::first_ill_typed_item_number;
use pst_model::{Source, Typed, find_state_type};
use pst_sexpr::{FaultKind, SexprFault, Tree, read};
use pst_syntax::laws::{
    model_item_counts_are_lawful, model_operations_are_lawful, plain_model_types_have_no_maps,
};
use pst_syntax::{Model, SyntaxFault, read_model};
use std::alloc::{AllocError, Global};
use std::error::Error;
use std::fmt;

/// Why an input does not begin with a well-typed model.
#[derive(Clone, Copy, Debug, PartialEq, Eq, Drop)]
pub enum Refusal {
    /// The bytes are no file of trees.
    Unread(SexprFault),
    /// The first tree is no model.
    NoModel(SyntaxFault),
    /// The number, from 1, of the first item of the model that is not well typed.
    IllTyped(usize),
}

impl fmt::Display for Refusal {
    ghost use Rattle.std.specs.Prelude.{Some};
    ghost use Rattle.pst_typing.specs.Loading.{text_of};

    ghost output = { λ refusal. Some (text_of refusal) };

    fn fmt<W: fmt::Write>(&self, f: &mut fmt::Formatter<W>) -> fmt::Result {
        match self {
            Refusal::Unread(fault) => write!(f, "read {fault}"),
            Refusal::NoModel(fault) => write!(f, "model {fault}"),
            Refusal::IllTyped(number) => write!(f, "type item {number}"),
        }
    }
}

/// Why the check of a model does not call it well typed.
#[derive(Clone, Copy, Debug, PartialEq, Eq, Drop)]
pub enum TypeFault {
    /// The number, from 1, of the first item that is not well typed.
    Item(usize),
    /// An allocation failed.
    NoMemory,
}

impl TypeFault {
    /// The name of its kind, such as `Item`.
    pub fn name(&self) -> &'static str
        ensures { result.now ≡ fault_name self.now }
    {
        match self {
            TypeFault::Item(_) => "Item",
            TypeFault::NoMemory => "NoMemory",
        }
    }
}

impl fmt::Display for TypeFault {
    ghost use Rattle.std.specs.Prelude.{Some};
    ghost use Rattle.pst_typing.specs.FaultName.{text_of};

    ghost output = { λ fault. Some (text_of fault) };

    fn fmt<W: fmt::Write>(&self, f: &mut fmt::Formatter<W>) -> fmt::Result {
        match self {
            TypeFault::Item(number) => write!(f, "item {number}"),
            TypeFault::NoMemory => write!(f, "NoMemory"),
        }
    }
}

impl Error for TypeFault {}

/// A file of trees, the first of which spells a well-typed model.
#[derive(Drop)]
pub struct ModelFile {
    /// The model.
    pub typed: Typed,
    /// All trees, that of the model among them.
    pub trees: Vec<Tree>,
}

/// The trees of a file.
fn read_input_trees(alloc: Global, input: &[u8]) -> Result<Result<Vec<Tree>, Refusal>, AllocError>
    ensures { IfOk result
        (λ read. MatchResult read (λ trees. IsFile input.now trees.items)
        (λ refusal. IsRefusal input.now refusal)) }
{
    match read(alloc, input) {
        Ok(trees) => Ok(Ok(trees)),
        Err(fault) => {
            if fault.kind == FaultKind::NoMemory {
                return Err(AllocError);
            }
            Ok(Err(Refusal::Unread(fault)))
        }
    }
}

/// The model that the first tree spells.
fn read_model_of_trees(
    alloc: Global,
    trees: &[Tree],
) -> Result<Result<Model, SyntaxFault>, AllocError>
    ensures { IfOk result (λ model. model_of trees.now ≡ model) }
{
    match read_model(alloc, trees) {
        Ok(model) => Ok(Ok(model)),
        Err(fault) => {
            if fault.kind == pst_syntax::FaultKind::NoMemory {
                return Err(AllocError);
            }
            Ok(Err(fault))
        }
    }
}

/// The model if it is well typed, or else the number of its first item that is not.
fn check_read_model(alloc: Global, model: Model) -> Result<Result<Typed, usize>, AllocError>
    ensures { IfOk result
        (λ checked. MatchResult checked (λ typed. (typed ≡ model) × WellModel model)
        (λ number. IsIll model number)) }
{
    match check(alloc, model) {
        Ok(typed) => Ok(Ok(typed)),
        Err((_, TypeFault::Item(number))) => Ok(Err(number)),
        Err((_, TypeFault::NoMemory)) => Err(AllocError),
    }
}

/// Returns the well-typed model at the start of an input and all trees of the input, or the first refusal. A
/// fault of the bytes comes first, then one of the model's syntax, then one of its types.
pub fn load(alloc: Global, input: &[u8]) -> Result<Result<ModelFile, Refusal>, AllocError>
    ensures { IfOk result (λ read. MatchResult read
        (λ file. Holds input.now file.typed file.trees.items)
        (λ refusal. IsRefusal input.now refusal)) }
{
    let trees = match read_input_trees(alloc, input)? {
        Ok(trees) => trees,
        Err(refusal) => return Ok(Err(refusal)),
    };
    let model = match read_model_of_trees(alloc, trees.as_slice())? {
        Ok(model) => model,
        Err(fault) => return Ok(Err(Refusal::NoModel(fault))),
    };
    match check_read_model(alloc, model)? {
        Ok(typed) => Ok(Ok(ModelFile { typed, trees })),
        Err(number) => Ok(Err(Refusal::IllTyped(number))),
    }
}

/// The trees after the model: all but the first.
pub fn trees_after_model(trees: &[Tree]) -> &[Tree]
    ensures { result.now ≡ items_of trees.now }
{
    match trees.split_first() {
        Some((_, items)) => items,
        None => &[],
    }
}

/// The number of the first item that is not well typed.
#[tactic(auto, using(crate::proofs::Judging::judged))]
fn number_of_first_ill_typed_item(
    alloc: Global,
    source: &Source,
) -> Result<Option<usize>, AllocError>
    requires { IsWhole source.now }
    ensures { IfOk result (λ number. Judged source.now number) }
{
    let items = source.items.as_slice();
    match find_state_type(items) {
        Some(state) => first_ill_typed_item_number(alloc, items, state),
        None => unreachable!(),
    }
}

/// Checks a model. Returns it as well typed, or gives it back with a fault.
///
/// `Item`: the first item that is not well typed. `NoMemory`: an allocation failed.
pub fn check(alloc: Global, model: Model) -> Result<Typed, (Model, TypeFault)>
    ensures { Checks model result }
{
    model_item_counts_are_lawful();
    model_operations_are_lawful();
    plain_model_types_have_no_maps();
    match number_of_first_ill_typed_item(alloc, model.source()) {
        Ok(None) => Ok(Typed::new(model.into_source())),
        Ok(Some(number)) => Err((model, TypeFault::Item(number))),
        Err(AllocError) => Err((model, TypeFault::NoMemory)),
    }
}
