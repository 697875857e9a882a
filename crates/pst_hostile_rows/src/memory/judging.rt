//! Results of the calls on cases and runs.
ghost use Rattle.std.specs.Prelude.{◌≡◌, IfOk};
ghost use Rattle.pst_runs.specs.Lawful.{AreLawful};

use crate::memory::reading::{
    Refused, read_and_check_counter_model, read_counter_trees, text_of_bytes_or_refusal,
};
use crate::models::COUNTER_AND_ITEMS;
use pst_case::{Case, CaseFaultKind, Run};
use pst_cli::{Status, judge_text};
use pst_gen::{generate, valid_case_if_accepted};
use pst_judge::{Valid, verdict};
use pst_model::Typed;
use pst_runs::{RunFaultKind, WriteFault, read_runs, write_runs};
use pst_sexpr::Out;
use pst_tests::Plain;
use pst_typing::trees_after_model;
use rand_pcg::Pcg64;
use std::alloc::{AllocError, Global};
use std::thread::Threads;

/// The items of the counter's text.
fn read_counter_runs(alloc: Global, typed: &Typed) -> Result<Vec<Run>, Refused>
    ensures { IfOk result (λ runs. AreLawful typed.now runs.items) }
{
    let trees = read_counter_trees(alloc)?;
    match read_runs(alloc, typed, trees_after_model(trees.as_slice())) {
        Ok(runs) => Ok(runs),
        Err(fault) if fault.kind == RunFaultKind::Case(CaseFaultKind::NoMemory) => {
            Err(Refused::NoMemory)
        }
        Err(fault) => Err(Refused::Otherwise(fault.kind.name())),
    }
}

/// Calls `read_runs` and `write_runs`, and returns the written items.
pub fn read_and_write_counter_runs(alloc: Global) -> Result<String, Refused> {
    let typed = read_and_check_counter_model(alloc)?;
    let runs = read_counter_runs(alloc, &typed)?;
    let mut out = Out::new(Vec::new(alloc));
    match write_runs(alloc, &typed, runs.as_slice(), &mut out) {
        Ok(()) => text_of_bytes_or_refusal(alloc, out.into_inner().as_slice()),
        // A `Vec` that cannot grow is a writer that fails.
        Err(WriteFault::NoMemory | WriteFault::WriteFailed) => Err(Refused::NoMemory),
    }
}

/// Calls `verdict`, which uses `some`, and returns the verdict on the run.
pub fn verdict_text_of_first_counter_run(alloc: Global) -> Result<String, Refused> {
    let typed = read_and_check_counter_model(alloc)?;
    let runs = read_counter_runs(alloc, &typed)?;
    let Some((run, _)) = runs.as_slice().split_first() else {
        return Err(Refused::Otherwise("no run"));
    };
    let Some(history) = &run.history else {
        return Err(Refused::Otherwise("no history"));
    };
    let verdict = verdict(&Plain::new(&typed), alloc, &run.shaped, history)?;
    Ok(verdict.text(alloc)?)
}

/// Returns `valid`, or an error if the case is not valid.
fn valid_text_or_refusal_of_case(
    alloc: Global,
    typed: &Typed,
    case: Case,
) -> Result<String, Refused> {
    match valid_case_if_accepted(&Plain::new(typed), alloc, typed, case)? {
        Some(_) => Ok(String::from_str(alloc, "valid")?),
        None => Err(Refused::Otherwise("not valid")),
    }
}

/// Calls `valid_case_if_accepted`, which uses `every`, and returns whether the case of the run is valid.
pub fn valid_text_of_counter_case(alloc: Global) -> Result<String, Refused> {
    let typed = read_and_check_counter_model(alloc)?;
    let runs = read_counter_runs(alloc, &typed)?;
    match runs.as_slice().first() {
        Some(run) => valid_text_or_refusal_of_case(alloc, &typed, run.shaped.case().copy(alloc)?),
        None => Err(Refused::Otherwise("no case")),
    }
}

/// Returns the case in its `Debug` form.
fn debug_text_of_valid_case(alloc: Global, valid: &Valid) -> Result<String, AllocError> {
    let case = valid.shaped().case();
    format!(in alloc; "{case:?}")
}

/// Calls `generate` and returns a case of four commands.
pub fn generated_counter_case_text(alloc: Global) -> Result<String, Refused> {
    let typed = read_and_check_counter_model(alloc)?;
    let mut generator = Pcg64::new(7, 0);
    match generate(&Plain::new(&typed), alloc, &typed, &mut generator, 4, 2, 0)? {
        Ok(valid) => Ok(debug_text_of_valid_case(alloc, &valid)?),
        Err(_) => Err(Refused::Otherwise("a fault")),
    }
}

/// Calls `judge_text`, and returns the lines of the items.
pub fn judge_output_for_counter_items<R: Threads + Sync>(
    rt: &R,
    alloc: Global,
) -> Result<String, Refused> {
    let mut out = Out::new(Vec::new(alloc));
    let status = judge_text(rt, alloc, COUNTER_AND_ITEMS.as_bytes(), &mut out);
    if status == Status::Lost {
        return Err(Refused::NoMemory);
    }
    text_of_bytes_or_refusal(alloc, out.into_inner().as_slice())
}
