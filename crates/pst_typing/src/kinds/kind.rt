//! Types whose equal parts are shared.
ghost use Rattle.std.specs.Prelude.{◌≡◌, ◌<◌, length, IfOk};
ghost use Rattle.pst_model.specs.Kinds as kinds;
ghost use Rattle.pst_typing.specs.Adding.{AreAdded, IsAdded};
ghost use Rattle.pst_typing.specs.Forms.{formed};
ghost use Rattle.pst_typing.specs.Nodes.{type_at};
ghost use Rattle.pst_value.specs.Equality.{same_ty};
ghost use Rattle.pst_value.specs.declared.ty.Ty.TheVariants as ty;

use crate::kinds::form::{KindForm, form_of, node_holds_ref_or_call};
use crate::kinds::nodes::{Node, Nodes};
use pst_value::{Items, KeyTy, Ty};
use std::alloc::{AllocError, Global};
use std::marker::Model;
use std::rc::Rc;

/// A type that holds each of its different parts once. A copy shares them. Contracts see it as the type.
#[derive(Drop)]
pub struct Kind {
    nodes: Rc<Nodes>,
    root: usize,
}

impl Model for Kind {
    ghost use Rattle.std.specs.Prelude.{◌<◌, length};
    ghost use Rattle.pst_value.specs.declared.ty.Ty.{Ty};
    ghost use Rattle.pst_value.specs.contracts.ty.Ty as coding;
    ghost use Rattle.pst_typing.specs.Nodes.{type_at};

    ghost Value = { Ty };

    ghost coded = { coding.the_row.coded };

    ghost view = { λ k. type_at k.nodes.value k.root };

    ghost invariant = { λ k. k.root < length k.nodes.value };
}

impl Kind {
    /// The kind of a type.
    pub fn of(alloc: Global, ty: &Ty) -> Result<Kind, AllocError>
        ensures { IfOk result (λ kind. kind ≡ ty.now) }
    {
        let mut nodes = Nodes::new(alloc);
        let root = add_type(alloc, &mut nodes, ty)?;
        Kind::new(alloc, nodes, root)
    }

    /// The kind of a node.
    fn new(alloc: Global, nodes: Nodes, root: usize) -> Result<Kind, AllocError>
        requires { root < length nodes }
        ensures { IfOk result (λ kind. kind ≡ type_at nodes root) }
    {
        Ok(Kind {
            nodes: Rc::new(alloc, nodes)?,
            root,
        })
    }

    /// An equal kind.
    pub fn copy(&self) -> Result<Kind, AllocError>
        ensures { IfOk result (λ kind. kind ≡ self.now) }
    {
        Ok(Kind {
            nodes: self.nodes.clone()?,
            root: self.root,
        })
    }

    /// The number that the type has among nodes. What it needs is added.
    fn add_to(&self, alloc: Global, nodes: &mut Nodes) -> Result<usize, AllocError>
        ensures { IfOk result (λ number. IsAdded nodes.old nodes.new number self.now) }
    {
        nodes.copy_type_from_nodes(alloc, self.nodes.as_ref(), self.root)
    }

    /// The kind of a node that is shared.
    pub fn of_node(nodes: &Rc<Nodes>, number: usize) -> Result<Kind, AllocError>
        requires { number < length nodes.now.value }
        ensures { IfOk result (λ kind. kind ≡ type_at nodes.now.value number) }
    {
        Ok(Kind {
            nodes: nodes.clone()?,
            root: number,
        })
    }

    /// The kind of lists of this kind.
    pub fn list(&self, alloc: Global) -> Result<Kind, AllocError>
        ensures { IfOk result (λ kind. kind ≡ ty.List self.now) }
    {
        let mut nodes = Nodes::new(alloc);
        let part = self.add_to(alloc, &mut nodes)?;
        let root = nodes.add(Node::List(part))?;
        Kind::new(alloc, nodes, root)
    }

    /// The kind of maps from keys of a type to values of this kind.
    pub fn map(&self, alloc: Global, keys: KeyTy) -> Result<Kind, AllocError>
        ensures { IfOk result (λ kind. kind ≡ ty.Map keys self.now) }
    {
        let mut nodes = Nodes::new(alloc);
        let part = self.add_to(alloc, &mut nodes)?;
        let root = nodes.add(Node::Map(keys, part))?;
        Kind::new(alloc, nodes, root)
    }

    /// The kind of references to results of this kind.
    pub fn reference(&self, alloc: Global) -> Result<Kind, AllocError>
        ensures { IfOk result (λ kind. kind ≡ ty.Ref self.now) }
    {
        let mut nodes = Nodes::new(alloc);
        let part = self.add_to(alloc, &mut nodes)?;
        let root = nodes.add(Node::Ref(part))?;
        Kind::new(alloc, nodes, root)
    }

    /// The kind of tuples of these kinds.
    pub fn tuple(alloc: Global, kinds: &[Kind]) -> Result<Kind, AllocError>
        ensures { IfOk result (λ kind. kind ≡ ty.Tuple kinds.now) }
    {
        let mut nodes = Nodes::new(alloc);
        let parts = add_kinds(alloc, &mut nodes, kinds)?;
        let root = nodes.add(Node::Tuple(parts))?;
        Kind::new(alloc, nodes, root)
    }

    /// Whether this is the same type.
    pub fn same(&self, alloc: Global, other: &Kind) -> Result<bool, AllocError>
        ensures { IfOk result (λ same. same ≡ same_ty self.now other.now) }
    {
        if self.root == other.root && self.nodes.as_ref().equals(other.nodes.as_ref()) {
            return Ok(true);
        }
        let mut nodes = Nodes::new(alloc);
        let first = self.add_to(alloc, &mut nodes)?;
        let second = other.add_to(alloc, &mut nodes)?;
        Ok(nodes.are_of_same_type(first, second))
    }

    /// The form of the type.
    pub fn form(&self, alloc: Global) -> Result<KindForm, AllocError>
        ensures { IfOk result (λ form. formed form ≡ self.now) }
    {
        form_of(alloc, &self.nodes, self.root)
    }

    /// Whether `ref` or `call` is in the type.
    pub fn holds_ref_or_call(&self, alloc: Global) -> Result<bool, AllocError>
        ensures { IfOk result (λ held. held ≡ kinds.holds_ref_or_call self.now) }
    {
        node_holds_ref_or_call(alloc, self.nodes.as_ref(), self.root)
    }

    /// Whether this is the kind of a type.
    pub fn is(&self, alloc: Global, ty: &Ty) -> Result<bool, AllocError>
        ensures { IfOk result (λ same. same ≡ same_ty self.now ty.now) }
    {
        self.same(alloc, &Kind::of(alloc, ty)?)
    }
}

/// The number of a type among nodes. What it needs is added.
#[cycle(add)]
fn add_type(alloc: Global, nodes: &mut Nodes, ty: &Ty) -> Result<usize, AllocError>
    ensures { IfOk result (λ number. IsAdded nodes.old nodes.new number ty.now) }
{
    match ty {
        Ty::Int => nodes.add(Node::Int),
        Ty::Bool => nodes.add(Node::Bool),
        Ty::Text => nodes.add(Node::Text),
        Ty::Tuple(types) => {
            let parts = add_types(alloc, nodes, types.as_slice())?;
            nodes.add(Node::Tuple(parts))
        }
        Ty::List(item) => {
            let part = add_type(alloc, nodes, item.get())?;
            nodes.add(Node::List(part))
        }
        Ty::Map(keys, value) => {
            let part = add_type(alloc, nodes, value.get())?;
            nodes.add(Node::Map(*keys, part))
        }
        Ty::Ref(named) => {
            let part = add_type(alloc, nodes, named.get())?;
            nodes.add(Node::Ref(part))
        }
        Ty::Call => nodes.add(Node::Call),
    }
}

/// The numbers of types among nodes. What they need is added.
#[cycle(add)]
fn add_types(alloc: Global, nodes: &mut Nodes, types: &[Ty]) -> Result<Items<usize>, AllocError>
    ensures { IfOk result (λ numbers. AreAdded nodes.old nodes.new numbers types.now) }
{
    let mut numbers = Items::new(alloc);
    for ty in types {
        let number = add_type(alloc, nodes, ty)?;
        numbers.push(number)?;
    }
    Ok(numbers)
}

/// The numbers of kinds among nodes. What they need is added.
fn add_kinds(alloc: Global, nodes: &mut Nodes, kinds: &[Kind]) -> Result<Items<usize>, AllocError>
    ensures { IfOk result (λ numbers. AreAdded nodes.old nodes.new numbers kinds.now) }
{
    let mut numbers = Items::new(alloc);
    for kind in kinds {
        let number = kind.add_to(alloc, nodes)?;
        numbers.push(number)?;
    }
    Ok(numbers)
}
