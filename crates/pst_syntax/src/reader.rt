//! Reading a model: the limits of models, models within them, the count of trees, and `read_model`.
ghost use Rattle.std.specs.Prelude.{◌≡◌, ◌∷◌, [], Err, map};
ghost use Rattle.pst_syntax.specs.Items.{IsModel, Answers, head_of_model, in_item, model_of};
ghost use Rattle.pst_sexpr.specs.Lawful.{IsTree};
ghost use Rattle.pst_syntax.specs.Items as spec;
ghost use Rattle.pst_syntax.specs.declared.fault.FaultKind.{FaultKind};
ghost use Rattle.std.specs.List.{sum};
ghost use Rattle.pst_syntax.specs.Counting.{trees_in, spent};

use crate::fault::{FaultKind, SyntaxFault, syntax_fault_in_item};
use crate::item_shapes::{ModelShape, model_shape};
use crate::items::{has_command, has_init, has_state, read_item};
use crate::words::{check_and_copy_declared_name, is_name};
use pst_model::{Item, Source};
use pst_sexpr::{Form, Tree};
use pst_value::Items;
use std::alloc::Global;

/// The maximum number of trees of a model, its own among them.
pub const MAX_TREES: usize = 20_000;

/// The maximum number of functions of a model, and of operations.
pub const MAX_DECLARED: usize = 64;

/// The maximum length of names, in bytes.
pub const MAX_NAME: usize = 32;

/// The maximum number of items of a tuple, clauses of a comprehension, and parameters.
pub const MAX_PARTS: usize = 8;

/// The maximum number of levels of a type.
pub const MAX_TY_LEVELS: usize = 16;

/// The maximum number of levels of an expression.
pub const MAX_EXPR_LEVELS: usize = 64;

/// A model within the limits: some tree spells it, and `read_model` alone makes it. Contracts see it as its
/// source.
#[derive(Debug, Drop)]
pub struct Model {
    source: Source,
}

impl std::marker::Model for Model {
    ghost use Rattle.pst_model.specs.declared.model.Source.{Source};
    ghost use Rattle.pst_model.specs.contracts.model.Source as coding;
    ghost use Rattle.std.specs.Coded.{codes};
    ghost use Rattle.pst_syntax.specs.Items.{IsModel};

    ghost Value = { Source };

    ghost coded = { Prim.hlevel (codes, coding.the_row.coded) };

    ghost view = { λ model. model.source };

    ghost invariant = { λ model. IsModel model.source };
}

impl Model {
    pub(crate) fn new(source: Source) -> Model
        requires { IsModel source }
        ensures { result ≡ source }
    {
        Model { source }
    }

    /// The model as it was written.
    pub fn source(&self) -> &Source
        ensures same { result.now ≡ self.now }
        ensures lawful { IsModel result.now }
    {
        &self.source
    }

    /// The model as it was written, out of its seal.
    pub fn into_source(self) -> Source
        ensures same { result ≡ self }
        ensures lawful { IsModel result }
    {
        let Model { source } = self;
        source
    }
}

fn read_items(alloc: Global, has_maps: bool, forms: &[Form]) -> Result<Items<Item>, SyntaxFault>
    ensures { Answers result (spec.items_from has_maps [] forms.now) }
{
    let mut items = Items::new(alloc);
    for form in forms {
        let number = items.len() + 1;
        match read_item(alloc, has_maps, items.as_slice(), form) {
            Ok(item) => items.push(item)?,
            Err(kind) => return Err(syntax_fault_in_item(kind, number)),
        }
    }
    Ok(items)
}

/// The model that a tree spells.
fn read_source(alloc: Global, form: &Form) -> Result<Source, SyntaxFault>
    ensures answers { Answers result (model_of (form.now ∷ [])) }
    ensures head { (kind : FaultKind) →
        head_of_model (form.now ∷ []) ≡ Err kind → result ≡ Err (in_item 0 kind) }
{
    if room_left_after_tree(form, MAX_TREES).is_none() {
        return Err(syntax_fault_in_item(FaultKind::OverLimit, 0));
    }
    let Some(
        ModelShape {
            has_maps,
            name,
            items,
        },
    ) = model_shape(form)
    else {
        return Err(syntax_fault_in_item(FaultKind::UnknownForm, 0));
    };
    let name = match check_and_copy_declared_name(alloc, is_name(name), false, name) {
        Ok(name) => name,
        Err(kind) => return Err(syntax_fault_in_item(kind, 0)),
    };
    let items = read_items(alloc, has_maps, items)?;
    if !(has_state(items.as_slice())
        && has_init(items.as_slice())
        && has_command(items.as_slice()))
    {
        return Err(syntax_fault_in_item(FaultKind::Missing, 0));
    }
    Ok(Source {
        has_maps,
        name,
        items,
    })
}

/// Reads the model that the first tree spells, and ignores further trees. Its head is `model`, or `model2` if
/// its language has maps: in `model` the words of maps are ordinary names.
///
/// Returns the first fault: each tree is checked before its parts, and these from left to right. The fault's
/// item is the one that holds it, from 1, or 0 for the model itself.
///
/// `Missing` of item 0: there is no tree, or no state, init or command. `OverLimit` of item 0: the first tree
/// holds more than `MAX_TREES` trees, or the model's name is too long. `UnknownForm` of item 0: the first tree
/// is no model. `NoMemory`: an allocation failed. The checks before the items do not allocate, so what they
/// refuse is never `NoMemory`.
pub fn read_model(alloc: Global, trees: &[Tree]) -> Result<Model, SyntaxFault>
    // The answer is that of the definition, unless an allocation fails.
    ensures answers { Answers result (model_of trees.now) }
    // No tree, too many trees, no model, or a refused name of the model: the answer is this fault, never
    // `NoMemory`.
    ensures head { (kind : FaultKind) →
        head_of_model trees.now ≡ Err kind → result ≡ Err (in_item 0 kind) }
{
    let Some(tree) = trees.first() else {
        return Err(syntax_fault_in_item(FaultKind::Missing, 0));
    };
    let source = read_source(alloc, tree.form())?;
    Ok(Model::new(source))
}

/// The room left of `room` after a tree and all trees in it are counted, or `None` if there is not
/// enough.
#[cycle(room)]
#[tactic(auto, using(crate::proofs::Counted::counted))]
pub fn room_left_after_tree(form: &Form, room: usize) -> Option<usize>
    ensures { result ≡ spent (trees_in form.now) room }
{
    if room == 0 {
        return None;
    }
    match form {
        Form::Word(_) | Form::Text(_) => Some(room - 1),
        Form::Node(parts) => room_left_after_trees(parts.as_slice(), room - 1),
    }
}

#[cycle(room)]
fn room_left_after_trees(forms: &[Form], room: usize) -> Option<usize>
    ensures { result ≡ spent (sum (map trees_in forms.now)) room }
{
    let mut room = room;
    for form in forms {
        room = room_left_after_tree(form, room)?;
    }
    Some(room)
}
