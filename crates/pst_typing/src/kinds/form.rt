//! The form of a kind, and whether it holds references.
ghost use Rattle.std.specs.Prelude.{◌≡◌, ◌<◌, length, map, IfOk};
ghost use Rattle.std.specs.List.{list_any};
ghost use Rattle.pst_typing.specs.Forms as spec;
ghost use Rattle.pst_typing.specs.Nodes.{type_at, AreBelow, IsBelow};
ghost use Rattle.pst_model.specs.Kinds as kinds;

use crate::kinds::kind::Kind;
use crate::kinds::nodes::{Node, Nodes};
use pst_value::{Items, KeyTy};
use std::alloc::{AllocError, Global};
use std::rc::Rc;

/// The form of a type, with its parts as kinds.
#[derive(Drop)]
pub enum KindForm {
    Int,
    Bool,
    Text,
    Tuple(Items<Kind>),
    List(Kind),
    Map(KeyTy, Kind),
    Ref(Kind),
    Call,
}

/// The form of the type of a node.
pub fn form_of(alloc: Global, nodes: &Rc<Nodes>, number: usize) -> Result<KindForm, AllocError>
    requires { number < length nodes.now.value }
    ensures { IfOk result (λ form. spec.formed form ≡ type_at nodes.now.value number) }
{
    match nodes.as_ref().get(number) {
        Node::Int => Ok(KindForm::Int),
        Node::Bool => Ok(KindForm::Bool),
        Node::Text => Ok(KindForm::Text),
        Node::Tuple(parts) => Ok(KindForm::Tuple(kinds_of_nodes(alloc, nodes, parts.as_slice())?)),
        Node::List(part) => Ok(KindForm::List(Kind::of_node(nodes, *part)?)),
        Node::Map(keys, part) => Ok(KindForm::Map(*keys, Kind::of_node(nodes, *part)?)),
        Node::Ref(part) => Ok(KindForm::Ref(Kind::of_node(nodes, *part)?)),
        Node::Call => Ok(KindForm::Call),
    }
}

/// The kinds of nodes.
fn kinds_of_nodes(
    alloc: Global,
    nodes: &Rc<Nodes>,
    parts: &[usize],
) -> Result<Items<Kind>, AllocError>
    requires { AreBelow (length nodes.now.value) parts.now }
    ensures { IfOk result (λ kinds. kinds ≡ map (type_at nodes.now.value) parts.now) }
{
    let mut kinds = Items::new(alloc);
    for part in parts {
        let kind = Kind::of_node(nodes, *part)?;
        kinds.push(kind)?;
    }
    Ok(kinds)
}

/// Whether `ref` or `call` is in the type of a node.
pub fn node_holds_ref_or_call(
    alloc: Global,
    nodes: &Nodes,
    number: usize,
) -> Result<bool, AllocError>
    requires { number < length nodes.now }
    ensures { IfOk result (λ held. held ≡ kinds.holds_ref_or_call (type_at nodes.now number)) }
{
    let mut held = Items::new(alloc);
    for at in 0..nodes.len() {
        let holds = holds_ref_or_call_by_parts(nodes.get(at), held.as_slice());
        held.push(holds)?;
    }
    Ok(part_holds_ref_or_call(held.as_slice(), number))
}

/// Whether a node holds a reference or a call, by what is known of the nodes before it.
fn holds_ref_or_call_by_parts(node: &Node, held: &[bool]) -> bool
    requires { IsBelow (length held.now) node.now }
    ensures { result ≡ spec.node_holds held.now node.now }
{
    match node {
        Node::Int | Node::Bool | Node::Text => false,
        Node::Tuple(parts) => any_part_holds_ref_or_call(parts.as_slice(), held),
        Node::List(part) | Node::Map(_, part) => part_holds_ref_or_call(held, *part),
        Node::Ref(_) | Node::Call => true,
    }
}

fn any_part_holds_ref_or_call(parts: &[usize], held: &[bool]) -> bool
    requires { AreBelow (length held.now) parts.now }
    ensures { result ≡ list_any (spec.held_at held.now) parts.now }
{
    for part in parts {
        if part_holds_ref_or_call(held, *part) {
            return true;
        }
    }
    false
}

fn part_holds_ref_or_call(held: &[bool], part: usize) -> bool
    requires { part < length held.now }
    ensures { result ≡ spec.held_at held.now part }
{
    held[part]
}
