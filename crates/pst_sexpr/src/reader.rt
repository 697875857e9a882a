//! The reader of files: their limits, their faults, and `read`.
ghost use Rattle.std.specs.Prelude.{◌≡◌, ◌≤◌, ◌<◌, ◌⊎◌, List, length, Err, IfOk, IfErr, MatchResult};
ghost use Rattle.pst_sexpr.specs.Fault.{name_of, Gives, no_memory};
ghost use Rattle.pst_sexpr.specs.declared.form.Form.{Form};
ghost use Rattle.pst_sexpr.specs.Scan as spec;
ghost use Rattle.pst_sexpr.specs.Lawful.{AreTrees};
ghost use Rattle.pst_sexpr.specs.Reading.{max_bytes, too_large, Spells, IsFault};

use crate::form::{Form, Tree};
use crate::scan::forms;
use pst_value::Items;
use std::alloc::{AllocError, Global};
use std::error::Error;
use std::fmt;

/// The maximum size of a file in bytes.
pub const MAX_BYTES: usize = 1_048_576;

/// The maximum depth of nodes.
pub const MAX_LEVELS: usize = 100;

/// The kinds of faults.
#[derive(Clone, Copy, Debug, Drop, PartialEq, Eq)]
pub enum FaultKind {
    /// The byte fits nowhere.
    BadByte,
    /// The bytes end in a text. The place is that of its opening quote.
    UnclosedText,
    /// The bytes end in a node. The place is that of the innermost bracket that is open.
    UnclosedNode,
    /// The bracket closes no node.
    StrayClose,
    /// The bracket opens a node that is nested too deep.
    TooDeep,
    /// The file has too many bytes. The place is `MAX_BYTES`.
    TooLarge,
    /// An allocation failed. The place is 0.
    NoMemory,
}

impl FaultKind {
    /// The name of the kind, such as `BadByte`.
    pub fn name(&self) -> &'static str
        ensures { result.now ≡ name_of self.now }
    {
        match self {
            FaultKind::BadByte => "BadByte",
            FaultKind::UnclosedText => "UnclosedText",
            FaultKind::UnclosedNode => "UnclosedNode",
            FaultKind::StrayClose => "StrayClose",
            FaultKind::TooDeep => "TooDeep",
            FaultKind::TooLarge => "TooLarge",
            FaultKind::NoMemory => "NoMemory",
        }
    }
}

impl fmt::Display for FaultKind {
    ghost use Rattle.std.specs.Prelude.{Some};
    ghost use Rattle.pst_sexpr.specs.Fault.{name_of};

    ghost output = { λ kind. Some (name_of kind) };

    fn fmt<W: fmt::Write>(&self, f: &mut fmt::Formatter<W>) -> fmt::Result {
        let name = self.name();
        write!(f, "{name}")
    }
}

/// Why bytes are no file: what is wrong, and the place of the byte, from 0.
#[derive(Clone, Copy, Debug, Drop, PartialEq, Eq)]
pub struct SexprFault {
    /// What is wrong.
    pub kind: FaultKind,
    /// The number of bytes before the byte that is at fault.
    pub place: usize,
}

impl fmt::Display for SexprFault {
    ghost use Rattle.std.specs.Prelude.{Some};
    ghost use Rattle.pst_sexpr.specs.Fault.{text_of};

    ghost output = { λ fault. Some (text_of fault) };

    fn fmt<W: fmt::Write>(&self, f: &mut fmt::Formatter<W>) -> fmt::Result {
        let kind = self.kind;
        let place = self.place;
        write!(f, "{kind} at {place}")
    }
}

impl Error for SexprFault {}

impl From<AllocError> for SexprFault {
    ghost use Rattle.std.specs.Prelude.{◌≡◌};
    ghost use Rattle.pst_sexpr.specs.Fault.{no_memory};

    ghost from_gives = { λ _ fault. fault ≡ no_memory };

    fn from(_: AllocError) -> SexprFault {
        SexprFault {
            kind: FaultKind::NoMemory,
            place: 0,
        }
    }
}

/// The forms as trees.
fn trees_of(alloc: Global, mut forms: Items<Form>) -> Result<Vec<Tree>, AllocError>
    requires { AreTrees forms }
    ensures { IfOk result (λ trees. trees.items ≡ forms) }
{
    let mut trees = Vec::new(alloc);
    while let Some(form) = forms.pop() {
        trees.push(Tree::new(form))?;
    }
    trees.reverse();
    Ok(trees)
}

/// The trees that the bytes spell, or the first fault.
fn trees(alloc: Global, bytes: &[u8]) -> Result<Vec<Tree>, SexprFault>
    ensures { Gives (λ trees. trees.items) result (spec.outcome MAX_LEVELS spec.start 0 bytes.now) }
{
    let forms = forms(alloc, bytes)?;
    Ok(trees_of(alloc, forms)?)
}

/// Reads a file of trees, in one pass.
///
/// Returns the first fault from left to right. A file of more than `MAX_BYTES` bytes is always `TooLarge`: this
/// check comes first and does not allocate. `NoMemory`: an allocation failed.
pub fn read(alloc: Global, bytes: &[u8]) -> Result<Vec<Tree>, SexprFault>
    // What is read is spelled so.
    ensures found { IfOk result (λ trees. (length bytes.now ≤ max_bytes) × Spells bytes.now trees.items) }
    // What is spelled so is read, unless an allocation fails.
    ensures only { (spelled : List Form) → length bytes.now ≤ max_bytes → Spells bytes.now spelled →
        MatchResult result (λ trees. trees.items ≡ spelled) (λ fault. fault ≡ no_memory) }
    // Too many bytes are refused before any allocation.
    ensures too_large { max_bytes < length bytes.now → result ≡ Err too_large }
    // A fault is the first of the bytes.
    ensures fault { IfErr result (λ fault. (fault ≡ no_memory) ⊎ IsFault bytes.now fault) }
{
    if bytes.len() > MAX_BYTES {
        return Err(SexprFault {
            kind: FaultKind::TooLarge,
            place: MAX_BYTES,
        });
    }
    trees(alloc, bytes)
}
