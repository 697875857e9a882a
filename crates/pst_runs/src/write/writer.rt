//! The writer of runs, and the faults of writing.
ghost use Rattle.std.specs.Prelude.{◌≡◌, false, IfOk, Ok};
ghost use Rattle.pst_runs.specs.WriteFaultName.{fault_name};
ghost use Rattle.pst_runs.specs.Items.{runs_of};
ghost use Rattle.pst_runs.specs.Lawful.{AreLawful};
ghost use Rattle.pst_runs.specs.Lines.{line_of, lines_of, WritesLines};
ghost use Rattle.pst_runs.specs.Written.{run_forms};
ghost use Rattle.pst_sexpr.specs.Reading.{Spells};
ghost use Rattle.pst_sexpr.specs.Writing.{Writes};

use crate::write::items::{prove_run_is_read_back, run_tree};
use pst_case::Run;
use pst_model::Typed;
use pst_sexpr::{Sink, Tree, WriteFailed, put_all, write};
use std::alloc::{AllocError, Global};
use std::error::Error;
use std::fmt;

/// Why runs were not written to the end.
#[derive(Clone, Copy, Debug, PartialEq, Eq, Drop)]
pub enum WriteFault {
    /// The writer has failed. A beginning of the text went out.
    WriteFailed,
    /// An allocation failed. Nothing went out, and the writer has not failed.
    NoMemory,
}

impl WriteFault {
    /// The word that is printed for it.
    pub fn name(&self) -> &'static str
        ensures { result.now ≡ fault_name self.now }
    {
        match self {
            WriteFault::WriteFailed => "WriteFailed",
            WriteFault::NoMemory => "NoMemory",
        }
    }
}

impl fmt::Display for WriteFault {
    ghost use Rattle.std.specs.Prelude.{Some};
    ghost use Rattle.pst_runs.specs.WriteFaultName.{fault_name};

    ghost output = { λ fault. Some (fault_name fault) };

    fn fmt<W: fmt::Write>(&self, f: &mut fmt::Formatter<W>) -> fmt::Result {
        let name = self.name();
        write!(f, "{name}")
    }
}

impl Error for WriteFault {}

impl From<AllocError> for WriteFault {
    ghost use Rattle.std.specs.Prelude.{◌≡◌};
    ghost use Rattle.pst_runs.specs.declared.write.writer.WriteFault.TheVariants.{NoMemory};

    ghost from_gives = { λ _ e. e ≡ NoMemory };

    fn from(_: AllocError) -> WriteFault {
        WriteFault::NoMemory
    }
}

impl From<WriteFailed> for WriteFault {
    ghost use Rattle.std.specs.Prelude.{◌≡◌};
    ghost use Rattle.pst_runs.specs.declared.write.writer.WriteFault.TheVariants as fault;

    ghost from_gives = { λ _ e. e ≡ fault.WriteFailed };

    fn from(_: WriteFailed) -> WriteFault {
        WriteFault::WriteFailed
    }
}

/// Proves that the lines of valid runs spell their trees, and that these are read as the runs. It allocates nothing: it
/// only uses `prove_run_is_read_back` for each run.
fn prove_runs_are_read_back(typed: &Typed, runs: &[Run])
    requires { AreLawful typed.now runs.now }
    ensures spelled { Spells (lines_of (run_forms typed.now runs.now)) (run_forms typed.now runs.now) }
    ensures read { runs_of typed.now (run_forms typed.now runs.now) ≡ Ok runs.now }
{
    for run in runs {
        prove_run_is_read_back(typed, run);
    }
}

/// The tree of each run.
fn run_trees(alloc: Global, typed: &Typed, runs: &[Run]) -> Result<Vec<Tree>, AllocError>
    requires { AreLawful typed.now runs.now }
    ensures { IfOk result (λ trees. trees.items ≡ run_forms typed.now runs.now) }
{
    let mut trees = Vec::new(alloc);
    for run in runs {
        trees.push(run_tree(alloc, typed, run)?)?;
    }
    Ok(trees)
}

/// Writes a tree and a line end.
fn write_tree_line<W: Sink>(tree: &Tree, writer: &mut W) -> Result<(), WriteFailed>
    requires { W.broken writer.old ≡ false }
    ensures { Writes (W.taken writer.old) (W.taken writer.new) (W.broken writer.new) result
        (line_of tree.now) }
{
    write(tree, writer)?;
    put_all(b"\n", writer)
}

/// Writes each tree, with a line end after it.
fn write_tree_lines<W: Sink>(trees: &[Tree], writer: &mut W) -> Result<(), WriteFailed>
    requires { W.broken writer.old ≡ false }
    ensures { Writes (W.taken writer.old) (W.taken writer.new) (W.broken writer.new) result
        (lines_of trees.now) }
{
    for tree in trees {
        write_tree_line(tree, writer)?;
    }
    Ok(())
}

/// Writes each run as one tree, in its one spelling, with a line end after it. The output is read as equal runs, if it
/// has no more bytes than a file may have (`MAX_BYTES`).
///
/// Each run must be one of the model, its history must match, and the writer must not have failed. All trees are made
/// before the first is written.
/// `WriteFailed` means that the writer has failed and a beginning of the lines went out.
/// `NoMemory` means that an allocation failed; nothing went out, and the writer has not failed.
pub fn write_runs<W: Sink>(
    alloc: Global,
    typed: &Typed,
    runs: &[Run],
    writer: &mut W,
) -> Result<(), WriteFault>
    requires lawful { AreLawful typed.now runs.now }
    requires stands { W.broken writer.old ≡ false }
    // What goes out is the lines of the runs' trees.
    ensures written { WritesLines (W.taken writer.old) (W.taken writer.new) (W.broken writer.new) result
        (run_forms typed.now runs.now) }
    // The lines are read as these trees, and as nothing else.
    ensures spelled { Spells (lines_of (run_forms typed.now runs.now)) (run_forms typed.now runs.now) }
    // The trees are read as the runs.
    ensures read { runs_of typed.now (run_forms typed.now runs.now) ≡ Ok runs.now }
{
    prove_runs_are_read_back(typed, runs);
    let trees = run_trees(alloc, typed, runs)?;
    write_tree_lines(trees.as_slice(), writer)?;
    Ok(())
}
