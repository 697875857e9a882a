//! Texts with JSON items.
ghost use Rattle.std.specs.Prelude.{◌≡◌, IfOk};
ghost use Rattle.pst_json_runs.specs.Lines as spec;
ghost use Rattle.pst_sexpr.specs.Lawful.{IsTree};

use crate::commands::empty_node_form;
use crate::items::item_form_or_empty_from_json;
use json::{Error, Scratch, Value as Json};
use pst_model::Source;
use pst_sexpr::{Form, Out, Tree, WriteFailed, write};
use std::alloc::{AllocError, Global};

/// Whether a line has a JSON item: its first byte is `{`.
pub fn begins_like_json_item(line: &[u8]) -> bool
    ensures { result ≡ spec.has_json line.now }
{
    match line.first() {
        Some(byte) => *byte == b'{',
        None => false,
    }
}

/// The tree of the JSON item on a line.
#[tactic(auto, using(crate::proofs::Utf8::utf8))]
fn json_line_form_or_empty(alloc: Global, model: &Source, line: &[u8]) -> Result<Form, AllocError>
    ensures { IfOk result (λ form. form ≡ spec.line_form model.now line.now) }
{
    let Ok(text) = str::from_utf8(line) else {
        return Ok(empty_node_form(alloc));
    };
    let mut scratch = Scratch::new(alloc);
    match Json::parse(alloc, text, &mut scratch) {
        Ok(json) => item_form_or_empty_from_json(alloc, model, &json),
        Err(Error::OutOfMemory) => Err(AllocError),
        Err(Error::Invalid) => Ok(empty_node_form(alloc)),
        Err(Error::DuplicateKey | Error::TooLong) => unreachable!(),
    }
}

/// The tree of the JSON item on a line. It is `()` if the line is no JSON.
pub fn json_line_tree_or_empty(
    alloc: Global,
    model: &Source,
    line: &[u8],
) -> Result<Tree, AllocError>
    ensures tree { IfOk result (λ tree. tree ≡ spec.line_form model.now line.now) }
    ensures lawful { IfOk result (λ tree. IsTree tree) }
{
    let form = json_line_form_or_empty(alloc, model, line)?;
    Ok(Tree::new(form))
}

/// A line with its JSON item as a tree, if it has one.
fn replace_line_by_tree_if_json(
    alloc: Global,
    model: &Source,
    line: Vec<u8>,
) -> Result<Vec<u8>, AllocError>
    ensures { IfOk result (λ text. text.items ≡ spec.tree_line model.now line.items) }
{
    if !begins_like_json_item(line.as_slice()) {
        return Ok(line);
    }
    let tree = json_line_tree_or_empty(alloc, model, line.as_slice())?;
    let mut out = Out::new(Vec::new(alloc));
    match write(&tree, &mut out) {
        Ok(()) => Ok(out.into_inner()),
        Err(WriteFailed) => Err(AllocError),
    }
}

/// The text with a tree in place of each JSON item, that is, of each line that begins with `{`.
pub fn replace_json_lines_by_trees(
    alloc: Global,
    model: &Source,
    text: &[u8],
) -> Result<Vec<u8>, AllocError>
    ensures { IfOk result (λ trees. trees.items ≡ spec.trees_text model.now text.now) }
{
    let mut trees = Vec::new(alloc);
    let mut line = Vec::new(alloc);
    for byte in text {
        if *byte == b'\n' {
            trees.append(&mut replace_line_by_tree_if_json(alloc, model, line)?)?;
            trees.push(b'\n')?;
            line = Vec::new(alloc);
        } else {
            line.push(*byte)?;
        }
    }
    trees.append(&mut replace_line_by_tree_if_json(alloc, model, line)?)?;
    Ok(trees)
}
