//! Valid cases from random words, and whether a given case is accepted as valid.
ghost use Rattle.std.specs.Prelude.{◌≡◌, ◌≤◌, ◌+◌, ◌++◌, ℕ, List, length, IfOk};
ghost use Rattle.pst_gen.specs.Done.{IsDone};
ghost use Rattle.pst_gen.specs.Draws.{Draws};
ghost use Rattle.pst_gen.specs.Generated.{IsSplit, NoneAbove, IsGenerated, case_in};
ghost use Rattle.pst_gen.specs.Split.{most};
ghost use Rattle.pst_value.specs.declared.value.Value.{Value as AnyValue};
ghost use Rattle.pst_gen.specs.Accepted.{IsIfAccepted};

use crate::script::script;
use crate::split::split_case;
use pst_case::{Case, CaseFaultKind, Command, shape};
use pst_eval::{Callbacks, FaultPlace};
use pst_judge::{Valid, Why, valid};
use pst_model::Typed;
use rand_core::Rng;
use std::alloc::{AllocError, Global};

/// The maximum number of commands that run in parallel.
const MAX_PARALLEL: usize = 16;

/// How many of the commands before the suffix may run in parallel: none if there is one branch.
fn parallel_command_limit(branches: u32, before: &[Command]) -> usize
    ensures { result ≡ most branches before.now }
{
    if branches == 1 {
        0
    } else {
        MAX_PARALLEL.min(before.len())
    }
}

/// The split by `word` with the most parallel commands, at most `parallel`, that gives an accepted case. The bounds on
/// the parts of a case are clauses of their own.
fn valid_case_with_most_parallel_commands<C: Callbacks>(
    callbacks: &C,
    alloc: Global,
    typed: &Typed,
    branches: u32,
    word: u64,
    before: &[Command],
    suffix: &[Command],
    parallel: usize,
) -> Result<Valid, AllocError>
    requires model { C.model callbacks.now ≡ typed.now }
    requires some { 1 ≤ branches }
    requires branches { branches ≤ 4 }
    requires few { length before.now + length suffix.now ≤ 64 }
    requires short { length suffix.now ≤ 8 }
    requires done { (last : AnyValue) × IsDone typed.now (before.now ++ suffix.now) last }
    requires within { parallel ≤ most branches before.now }
    requires above { NoneAbove typed.now branches word before.now suffix.now parallel }
    ensures model { IfOk result (λ v. v.model ≡ typed.now) }
    ensures split { IfOk result (λ v. IsSplit typed.now branches word before.now suffix.now v.case) }
{
    let case = split_case(alloc, branches, word, before, suffix, parallel)?;
    match valid_case_if_accepted(callbacks, alloc, typed, case)? {
        Some(valid) => Ok(valid),
        None => {
            if parallel == 0 {
                unreachable!()
            }
            let fewer = parallel - 1;
            valid_case_with_most_parallel_commands(
                callbacks, alloc, typed, branches, word, before, suffix, fewer,
            )
        }
    }
}

/// Generates a valid case of the model that the callbacks evaluate, from random words. Returns the first fault
/// of a callback instead, if there is one.
///
/// First it draws a script of at most `commands` commands (1 to 64): each command takes one word, which chooses
/// among the calls that `command` lists in the symbolic state and whose precondition is true there. The script
/// ends early if no such call is left. The last `suffix` commands of the script (0 to 8; all of it if it is
/// shorter) become the suffix. Then it draws one word more, also for an empty script. This word sends the last
/// of the other commands to the `branches` branches (1 to 4; with 1 it sends none, and the case has two empty
/// branches): as many, at most 16, as give a valid case that has the shape of the model. It draws no other
/// word, and none after a fault. (Five of its eight clauses are the ranges of its numbers.)
pub fn generate<C: Callbacks, R: Rng>(
    callbacks: &C,
    alloc: Global,
    typed: &Typed,
    rng: &mut R,
    commands: u32,
    branches: u32,
    suffix: u32,
) -> Result<Result<Valid, FaultPlace>, AllocError>
    requires model { C.model callbacks.now ≡ typed.now }
    requires some_commands { 1 ≤ commands }
    requires commands { commands ≤ 64 }
    requires some_branches { 1 ≤ branches }
    requires branches { branches ≤ 4 }
    requires suffix { suffix ≤ 8 }
    ensures model { IfOk result (λ answer. IfOk answer (λ v. v.model ≡ typed.now)) }
    ensures generated { IfOk result (λ answer. (words : List ℕ)
        × Draws words (R.stream rng.old) (R.stream rng.new)
        × IsGenerated typed.now commands branches suffix words (case_in answer)) }
{
    let script = match script(callbacks, alloc, rng, commands)? {
        Ok(script) => script,
        Err(fault) => return Ok(Err(fault)),
    };
    let script = script.as_slice();
    let word = rng.next_u64();
    let (before, behind) = script.split_at(script.len().saturating_sub(suffix as usize));
    let parallel = parallel_command_limit(branches, before);
    let valid = valid_case_with_most_parallel_commands(
        callbacks, alloc, typed, branches, word, before, behind, parallel,
    )?;
    Ok(Ok(valid))
}

/// Returns the case, if it has the shape of the model and is valid by it.
pub fn valid_case_if_accepted<C: Callbacks>(
    callbacks: &C,
    alloc: Global,
    typed: &Typed,
    case: Case,
) -> Result<Option<Valid>, AllocError>
    requires { C.model callbacks.now ≡ typed.now }
    ensures { IfOk result (IsIfAccepted typed.now case) }
{
    let shaped = match shape(alloc, typed, case) {
        Ok(shaped) => shaped,
        Err((_, fault)) => {
            return match fault.kind {
                CaseFaultKind::NoMemory => Err(AllocError),
                _ => Ok(None),
            };
        }
    };
    match valid(callbacks, alloc, shaped) {
        Ok(valid) => Ok(Some(valid)),
        Err((_, Why::NoMemory)) => Err(AllocError),
        Err(_) => Ok(None),
    }
}
