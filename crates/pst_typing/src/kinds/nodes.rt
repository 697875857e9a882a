//! Nodes, whose parts are numbers of nodes, and a list of nodes, each of them once.
ghost use Rattle.std.specs.Prelude.{◌≡◌, true, [], ◌<◌, length, map, slice_index, IfOk};
ghost use Rattle.pst_typing.specs.Adding as spec;
ghost use Rattle.pst_typing.specs.Adding.{IsAdded};
ghost use Rattle.pst_typing.specs.Nodes.{node_type, type_at, AreBelow, IsBelow};
ghost use Rattle.pst_value.specs.Equality.{same_ty};

use indexmap::IndexSet;
use pst_value::{Items, KeyTy};
use std::alloc::{AllocError, Global};
use std::marker::Model;

/// One form of a type, whose parts are numbers of nodes.
#[derive(Debug, PartialEq, Eq, Hash, Drop)]
pub enum Node {
    Int,
    Bool,
    Text,
    Tuple(Items<usize>),
    List(usize),
    Map(KeyTy, usize),
    Ref(usize),
    Call,
}

/// Nodes, each of them once, and none before its parts. Contracts see the list of their types.
#[derive(Drop)]
pub struct Nodes {
    nodes: IndexSet<Node>,
}

impl Model for Nodes {
    ghost use Rattle.std.specs.Prelude.{List, []};
    ghost use Rattle.std.specs.Coded.{coded_list};
    ghost use Rattle.pst_value.specs.declared.ty.Ty.{Ty};
    ghost use Rattle.pst_value.specs.contracts.ty.Ty as coding;
    ghost use Rattle.pst_typing.specs.Nodes.{types_after, AreClosed};

    ghost Value = { List Ty };

    ghost coded = { coded_list coding.the_row.coded };

    ghost view = { λ n. types_after [] n.nodes.keys };

    ghost invariant = { λ n. AreClosed 0 n.nodes.keys };
}

impl Nodes {
    /// No nodes. Takes no memory.
    pub fn new(alloc: Global) -> Nodes
        ensures { result ≡ [] }
    {
        Nodes {
            nodes: IndexSet::new(alloc),
        }
    }

    /// How many nodes there are.
    pub fn len(&self) -> usize
        ensures { result ≡ length self.now }
    {
        self.nodes.len()
    }

    /// The node with this number.
    pub fn get(&self, number: usize) -> &Node
        requires { number < length self.now }
        ensures has_type { node_type self.now result.now ≡ type_at self.now number }
        ensures below { IsBelow number result.now }
    {
        match self.nodes.get_index(number) {
            Some(node) => node,
            None => unreachable!(),
        }
    }

    /// Returns the number of `node`, which is added if it is new.
    pub fn add(&mut self, node: Node) -> Result<usize, AllocError>
        requires { IsBelow (length self.old) node }
        ensures { IfOk result (λ number. IsAdded self.old self.new number (node_type self.old node)) }
    {
        let (number, _) = self.nodes.insert_full(node)?;
        Ok(number)
    }

    /// Whether two numbers are of nodes of one type.
    pub fn are_of_same_type(&self, first: usize, second: usize) -> bool
        requires first { first < length self.now }
        requires second { second < length self.now }
        ensures { result ≡ same_ty (type_at self.now first) (type_at self.now second) }
    {
        let _count = self.nodes.len();
        first == second
    }

    /// Whether these are the same nodes in the same order, and so the same types.
    pub fn equals(&self, others: &Nodes) -> bool
        ensures { result ≡ true → self.now ≡ others.now }
    {
        self.nodes.as_slice() == others.nodes.as_slice()
    }

    /// Copies the type of node `root` of `others`, and returns its number.
    pub fn copy_type_from_nodes(
        &mut self,
        alloc: Global,
        others: &Nodes,
        root: usize,
    ) -> Result<usize, AllocError>
        requires { root < length others.now }
        ensures { IfOk result (λ number. IsAdded self.old self.new number (type_at others.now root)) }
    {
        let _count = others.len();
        let mut places = Items::new(alloc);
        for at in 0..root + 1 {
            let node = node_with_renumbered_parts(alloc, others.get(at), places.as_slice())?;
            let place = self.add(node)?;
            places.push(place)?;
        }
        Ok(places.as_slice()[root])
    }
}

/// A copy of a node whose parts have other numbers.
fn node_with_renumbered_parts(
    alloc: Global,
    node: &Node,
    places: &[usize],
) -> Result<Node, AllocError>
    requires { IsBelow (length places.now) node.now }
    ensures { IfOk result (λ copy. copy ≡ spec.renumbered places.now node.now) }
{
    match node {
        Node::Int => Ok(Node::Int),
        Node::Bool => Ok(Node::Bool),
        Node::Text => Ok(Node::Text),
        Node::Tuple(parts) => Ok(Node::Tuple(renumbered_parts(alloc, parts.as_slice(), places)?)),
        Node::List(part) => Ok(Node::List(new_number_of_part(places, *part))),
        Node::Map(keys, part) => Ok(Node::Map(*keys, new_number_of_part(places, *part))),
        Node::Ref(part) => Ok(Node::Ref(new_number_of_part(places, *part))),
        Node::Call => Ok(Node::Call),
    }
}

/// The place of a part.
fn new_number_of_part(places: &[usize], part: usize) -> usize
    requires { part < length places.now }
    ensures { result ≡ slice_index places.now part }
{
    places[part]
}

/// Numbers, each in the place of another.
fn renumbered_parts(
    alloc: Global,
    parts: &[usize],
    places: &[usize],
) -> Result<Items<usize>, AllocError>
    requires { AreBelow (length places.now) parts.now }
    ensures { IfOk result (λ copies. copies ≡ map (slice_index places.now) parts.now) }
{
    let mut copies = Items::new(alloc);
    for part in parts {
        copies.push(new_number_of_part(places, *part))?;
    }
    Ok(copies)
}
