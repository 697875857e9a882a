//! Why a call has no result, and the results of the calls from bytes to a compiled model.

use crate::models::COUNTER_AND_ITEMS;
use pst_compile::{Compiled, compile, listing};
use pst_model::Typed;
use pst_sexpr::{FaultKind, Out, Tree, read, write};
use pst_tests::{Model, ModelFaultKind, print_model, read_model};
use pst_typing::{TypeFault, check, model_name};
use std::alloc::{AllocError, AllocFailed, Global};

/// Why a call has no result.
#[derive(Clone, Copy, Drop)]
pub enum Refused {
    /// An allocation failed, or a thread could not start, which needs memory.
    NoMemory,
    /// Any other reason, by its name. No call of this program should return it.
    Otherwise(&'static str),
}

impl From<AllocError> for Refused {
    fn from(_refused: AllocError) -> Refused {
        Refused::NoMemory
    }
}

impl<T: Drop> From<AllocFailed<T>> for Refused {
    fn from(_refused: AllocFailed<T>) -> Refused {
        Refused::NoMemory
    }
}

/// The trees of the counter's text.
pub fn read_counter_trees(alloc: Global) -> Result<Vec<Tree>, Refused> {
    match read(alloc, COUNTER_AND_ITEMS.as_bytes()) {
        Ok(trees) => Ok(trees),
        Err(fault) if fault.kind == FaultKind::NoMemory => Err(Refused::NoMemory),
        Err(fault) => Err(Refused::Otherwise(fault.kind.name())),
    }
}

/// The counter's model.
fn read_counter_model(alloc: Global) -> Result<Model, Refused> {
    let trees = read_counter_trees(alloc)?;
    match read_model(alloc, trees.as_slice()) {
        Ok(model) => Ok(model),
        Err(fault) if fault.kind == ModelFaultKind::NoMemory => Err(Refused::NoMemory),
        Err(fault) => Err(Refused::Otherwise(fault.kind.name())),
    }
}

/// The counter's well-typed model.
pub fn read_and_check_counter_model(alloc: Global) -> Result<Typed, Refused> {
    match check(alloc, read_counter_model(alloc)?) {
        Ok(typed) => Ok(typed),
        Err((_, TypeFault::NoMemory)) => Err(Refused::NoMemory),
        Err((_, fault)) => Err(Refused::Otherwise(fault.name())),
    }
}

/// The counter's compiled model.
fn compile_counter_model(alloc: Global) -> Result<Compiled, Refused> {
    match compile(alloc, read_and_check_counter_model(alloc)?) {
        Ok(compiled) => Ok(compiled),
        Err(_) => Err(Refused::NoMemory),
    }
}

/// A text of bytes.
pub fn text_of_bytes_or_refusal(alloc: Global, bytes: &[u8]) -> Result<String, Refused> {
    match std::str::from_utf8(bytes) {
        Ok(text) => Ok(String::from_str(alloc, text)?),
        Err(_) => Err(Refused::Otherwise("no text")),
    }
}

/// The spelling of a tree.
fn spell_tree_or_refuse(alloc: Global, tree: &Tree) -> Result<String, Refused> {
    let mut out = Out::new(Vec::new(alloc));
    match write(tree, &mut out) {
        Ok(()) => text_of_bytes_or_refusal(alloc, out.into_inner().as_slice()),
        Err(_) => Err(Refused::NoMemory),
    }
}

/// Calls `read` and returns the last tree of the text.
pub fn read_and_spell_last_counter_tree(alloc: Global) -> Result<String, Refused> {
    match read_counter_trees(alloc)?.last() {
        Some(tree) => spell_tree_or_refuse(alloc, tree),
        None => Err(Refused::Otherwise("no trees")),
    }
}

/// Calls `read_model` and `print_model`, and returns the printed model.
pub fn read_and_print_counter_model(alloc: Global) -> Result<String, Refused> {
    let model = read_counter_model(alloc)?;
    spell_tree_or_refuse(alloc, &print_model(alloc, &model)?)
}

/// Calls `check` and returns the name of the well-typed model.
pub fn name_of_checked_counter_model(alloc: Global) -> Result<String, Refused> {
    let typed = read_and_check_counter_model(alloc)?;
    Ok(String::from_str(alloc, model_name(&typed).as_str())?)
}

/// Calls `compile` and `listing`, and returns the code.
pub fn listing_of_compiled_counter(alloc: Global) -> Result<String, Refused> {
    let code = listing(alloc, &compile_counter_model(alloc)?)?;
    text_of_bytes_or_refusal(alloc, code.as_slice())
}
