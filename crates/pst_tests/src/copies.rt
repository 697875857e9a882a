//! Copies are equal to what they are copies of.
ghost use Rattle.std.specs.Prelude.{◌≡◌};

use crate::support::{ATLAS, COUNTER, REGISTRY, typed_model_of_text};
use pst_case::{Case, Run, shape};
use pst_model::{Source, Typed};
use pst_runs::read_runs;
use pst_sexpr::read;
use std::alloc::{AllocError, Global};
use std::test::Fail;

/// The last run that a text spells.
fn read_last_run_of_text(alloc: Global, typed: &Typed, item: &str) -> Option<Run> {
    let trees = read(alloc, item.as_bytes()).ok()?;
    let mut runs = read_runs(alloc, typed, trees.as_slice()).ok()?;
    runs.pop()
}

/// Whether the run that `item` spells is equal to its copy.
fn are_copies_of_spelled_run_equal(alloc: Global, model: &str, item: &str) -> Option<bool> {
    let typed = typed_model_of_text(alloc, model)?;
    let Run { shaped, history } = read_last_run_of_text(alloc, &typed, item)?;
    let shaped = shape(alloc, &typed, shaped.into_case()).ok()?;
    are_copies_of_run_equal(alloc, typed.source(), &Run { shaped, history }).ok()
}

/// Whether a copy of a case is equal to it.
fn is_copy_of_case_equal(alloc: Global, case: &Case) -> Result<bool, AllocError> {
    Ok(case.copy(alloc)? == *case)
}

/// Whether a copy of a run is equal, and so are those of its case and of its shaped case.
fn are_copies_of_run_equal(alloc: Global, model: &Source, run: &Run) -> Result<bool, AllocError>
    requires { run.now.shaped.model ≡ model.now }
{
    let is_case_equal = is_copy_of_case_equal(alloc, run.shaped.case())?;
    let copy = run.copy(alloc, model)?;
    let shaped = run.shaped.copy(alloc, model)?;
    Ok(
        is_case_equal
            && shaped.case() == run.shaped.case()
            && copy.shaped.case() == run.shaped.case()
            && copy.history == run.history,
    )
}

#[test]
fn copies_of_runs_are_equal(rt: HostRuntime) -> Result<(), Fail> {
    let alloc = rt.alloc();
    let rows: [(&str, &str); 3] = [
        (
            ATLAS,
            "(run (prefix (new) (keep (map (\"a\" 1) (\"b\" 2)) (map (1 $1)))) (left (numbers)) (right)
              (replies (1 2) ((map (1 (list 2)) (3 (list)))) ()))",
        ),
        (
            COUNTER,
            "(run (prefix) (left (inc)) (right (inc)) (replies () (1) (2)))",
        ),
        (REGISTRY, "(case (prefix (new) (close $01)) (left) (right))"),
    ];
    for (model, item) in rows {
        assert!(rt;
            are_copies_of_spelled_run_equal(alloc, model, item) == Some(true),
            "{item}"
        );
    }
    Ok(())
}
