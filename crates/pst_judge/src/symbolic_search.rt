//! The search for an interleaving that fails on symbolic states.
ghost use Rattle.std.specs.Prelude.{◌≡◌, ◌+◌, ◌++◌, ◌<◌, ◌≤◌, ◌^◌, IfOk, IsTrue, map, length, replicate, sum};
ghost use Rattle.pst_case.specs.Shape.{result_types};
ghost use Rattle.pst_judge.specs.Replay.{branch_lengths};
ghost use Rattle.pst_grid.specs.Answers.{IsEveryAnswer};
ghost use Rattle.pst_grid.specs.declared.steps.EveryAnswer.TheVariants.{All};
ghost use Rattle.pst_judge.specs.Symbolic.{symbolic_outcome};
ghost use Rattle.pst_judge.specs.SymbolicSearch.{BranchesFit, CommandsFit, FailsByReason, IsReasonOf, IsReasonOfSearch, IsSymbolicState, in_turn, last_commands, reason_of, reason_of_answer};

use crate::events::{split_first_branch_commands, split_first_command};
use crate::packed::Packed;
use crate::search::count_commands_in_each_branch;
use crate::symbolic::{NumberedCommand, SymbolicFailure, run_command_symbolically, run_suffix};
use crate::total::form_shows_no_command_fails;
use crate::validated::Why;
use pst_case::{Command, Shaped};
use pst_eval::Callbacks;
use pst_grid::{Ending, EveryAnswer, StepOutcome, Steps, every};
use pst_value::{Items, Value};
use std::alloc::{AllocError, Global};

/// The commands of the branches of a case, for a search to step through on symbolic states, and those of its suffix,
/// which run when all branches have ended.
#[derive(Drop)]
pub struct SymbolicBranches<'a, C> {
    pub callbacks: &'a C,
    pub shaped: &'a Shaped,
    pub commands: Items<Items<NumberedCommand>>,
    pub suffix: Items<NumberedCommand>,
}

impl<'a, C: Callbacks> Steps for SymbolicBranches<'a, C> {
    ghost use Rattle.std.proofs.Common.{refl};
    ghost use Rattle.std.specs.Prelude.{◌≡◌, Some, length};
    ghost use Rattle.pst_case.specs.Shape.{result_types};
    ghost use Rattle.pst_judge.specs.Symbolic.{CommandFits, symbolic_outcome, command_at};
    ghost use Rattle.pst_judge.specs.SymbolicSearch.{CommandsFit, IsSymbolicState, last_commands};
    ghost use Rattle.pst_judge.specs.declared.symbolic.NumberedCommand.{NumberedCommand};
    ghost use Rattle.pst_judge.specs.Feeding.{fed};
    ghost use Rattle.pst_value.proofs.Exact.{same_value-Decides};

    type State = Value;

    type Kept = Packed;

    type Fault = SymbolicFailure;

    ghost is_state = { λ b s. let m = C.model b.callbacks.now in
        IsSymbolicState m b.shaped.now.case s × CommandsFit m (result_types m b.shaped.now.case) b.suffix };

    ghost is_command = { λ b branch index. let m = C.model b.callbacks.now in
        (e : NumberedCommand) × (command_at b.commands branch index ≡ Some e)
        × CommandFits m (result_types m b.shaped.now.case) e };

    ghost outcome = { λ b s branch index. symbolic_outcome (C.model b.callbacks.now) b.commands s branch index };

    ghost rest = { λ b s. last_commands (C.model b.callbacks.now) b.suffix s };

    ghost most_rest = { λ b. length b.suffix };

    fn step(
        &self,
        alloc: Global,
        state: &Value,
        branch: usize,
        index: usize,
    ) -> Result<StepOutcome<Value, SymbolicFailure>, AllocError> {
        let Some(commands) = self.commands.get(branch) else {
            unreachable!()
        };
        let Some(command) = commands.get(index) else {
            unreachable!()
        };
        match run_command_symbolically(self.callbacks, alloc, state, command)? {
            Ok(next) => Ok(StepOutcome::Next(next)),
            Err(failing) => Ok(StepOutcome::Stop(pst_grid::StopReason::Fault(failing))),
        }
    }

    fn run_rest(
        &self,
        alloc: Global,
        state: &Value,
    ) -> Result<(Ending<SymbolicFailure>, usize), AllocError> {
        let start = state.copy(alloc)?;
        match run_suffix(self.callbacks, alloc, start, self.suffix.as_slice())? {
            Ending::AllTrue => Ok((Ending::AllTrue, self.suffix.len())),
            Ending::StopsAt(at, why) => Ok((Ending::StopsAt(at, why), at + 1)),
        }
    }

    fn has_rest(&self) -> bool {
        !self.suffix.is_empty()
    }

    fn keep(&self, alloc: Global, state: &Value) -> Result<Packed, AllocError> {
        Packed::new(alloc, state)
    }

    ghost state_of = { λ kept. kept };

    ghost fed = { fed };

    ghost exact = { λ a b h. (same_value-Decides a b).0 h };

    ghost same = { λ a b. refl };

    ghost feeds = { λ kept. refl };
}

/// The reason for a failure in the interleaving `merge`.
fn reason_of(failing: SymbolicFailure, merge: Vec<usize>) -> Why
    ensures { result ≡ reason_of failing merge }
{
    match failing {
        SymbolicFailure::PreFalse(command) => Why::PreFalse { command, merge },
        SymbolicFailure::CallbackFault(place) => Why::CallbackFault { place, merge },
    }
}

/// The reason in the answer of a search, if it has one.
fn reason_of_answer(answer: EveryAnswer<SymbolicFailure>) -> Option<Why>
    requires { FailsByReason answer }
    ensures { result ≡ reason_of_answer answer }
{
    match answer {
        EveryAnswer::All => None,
        EveryAnswer::Not { word, why, .. } => match why {
            pst_grid::StopReason::False => unreachable!(),
            pst_grid::StopReason::Fault(failing) => Some(reason_of(failing, word)),
        },
    }
}

/// The sum of the lengths.
pub(crate) fn sum_of_branch_lengths(lengths: &[usize]) -> usize
    requires { sum lengths.now ≤ 88 }
    ensures { result ≡ sum lengths.now }
{
    match lengths.split_first() {
        Some((first, rest)) => *first + sum_of_branch_lengths(rest),
        None => 0,
    }
}

/// Whether the model is at hand and its form shows that no interleaving of branches of these lengths fails. Each
/// `requires` is one fact on the case that was read.
fn form_shows_no_interleaving_fails<C: Callbacks>(
    branches: &SymbolicBranches<'_, C>,
    lengths: &[usize],
    state: &Value,
) -> bool
    requires state { let m = C.model branches.now.callbacks.now in
        IsSymbolicState m branches.now.shaped.now.case state.now }
    requires commands { let m = C.model branches.now.callbacks.now in
        BranchesFit m branches.now.shaped.now.case branches.now.commands }
    requires last { let m = C.model branches.now.callbacks.now in
        CommandsFit m (result_types m branches.now.shaped.now.case) branches.now.suffix }
    requires lengths { lengths.now ≡ branch_lengths branches.now.shaped.now.case }
    requires few { sum lengths.now ≤ 16 }
    requires suffix { length branches.now.suffix ≤ 8 }
    ensures { let b = branches.now in let m = C.model b.callbacks.now in
        IsTrue result
        → IsEveryAnswer (symbolic_outcome m b.commands) (last_commands m b.suffix) lengths.now state.now All }
{
    let steps = sum_of_branch_lengths(lengths) + branches.suffix.len();
    let commands = branches.commands.as_slice();
    match branches.callbacks.well_typed() {
        Some(typed) => form_shows_no_command_fails(
            typed.source(),
            commands,
            branches.suffix.as_slice(),
            steps,
            state,
        ),
        None => false,
    }
}

/// Searches the interleavings of the branches for the first that fails, from the symbolic state after the prefix and
/// with the suffix after each. It needs no search where the form of the model shows that none fails.
pub fn find_first_failing_interleaving<C: Callbacks>(
    alloc: Global,
    branches: &SymbolicBranches<'_, C>,
    state: &Value,
) -> Result<Option<Why>, AllocError>
    requires state { let m = C.model branches.now.callbacks.now in
        IsSymbolicState m branches.now.shaped.now.case state.now }
    requires commands { let m = C.model branches.now.callbacks.now in
        BranchesFit m branches.now.shaped.now.case branches.now.commands }
    requires last { let m = C.model branches.now.callbacks.now in
        CommandsFit m (result_types m branches.now.shaped.now.case) branches.now.suffix }
    requires lengths { sum (branch_lengths branches.now.shaped.now.case) ≤ 16 }
    requires suffix { length branches.now.suffix ≤ 8 }
    ensures { let b = branches.now in IfOk result
        (IsReasonOfSearch (C.model b.callbacks.now) b.commands b.suffix (branch_lengths b.shaped.now.case)
        state.now) }
{
    let lengths = count_commands_in_each_branch(alloc, branches.shaped.case().branches.as_slice())?;
    if form_shows_no_interleaving_fails(branches, lengths.as_slice(), state) {
        return Ok(None);
    }
    let (answer, _) = every(alloc, branches, lengths.as_slice(), state)?;
    Ok(reason_of_answer(answer))
}

/// Appends the number `branch` to `word` once for each command.
fn append_branch_for_each_command(
    branch: usize,
    commands: &[Command],
    mut word: Vec<usize>,
) -> Result<Vec<usize>, AllocError>
    ensures { IfOk result (λ all. all.items ≡ word.items ++ replicate (length commands.now) branch) }
{
    let Some((_, commands)) = split_first_command(commands) else {
        return Ok(word);
    };
    word.push(branch)?;
    append_branch_for_each_command(branch, commands, word)
}

/// Appends the numbers of the branches to `word` in turn, from `branch` on, each once for each of its commands.
fn append_branch_numbers_in_turn(
    branch: usize,
    branches: &[Items<Command>],
    word: Vec<usize>,
) -> Result<Vec<usize>, AllocError>
    requires { branch + length branches.now < 2 ^ 64 }
    ensures { IfOk result (λ all. all.items ≡ word.items ++ in_turn branch (map length branches.now)) }
{
    let Some((first, rest)) = split_first_branch_commands(branches) else {
        return Ok(word);
    };
    let word = append_branch_for_each_command(branch, first.as_slice(), word)?;
    append_branch_numbers_in_turn(branch + 1, rest, word)
}

/// The reason if all interleavings fail alike: the failure of the first interleaving.
pub fn reason_with_first_interleaving(
    alloc: Global,
    shaped: &Shaped,
    failing: SymbolicFailure,
) -> Result<Option<Why>, AllocError>
    requires { length shaped.now.case.branches ≤ 4 }
    ensures { IfOk result (IsReasonOf failing (in_turn 0 (branch_lengths shaped.now.case))) }
{
    let branches = shaped.case().branches.as_slice();
    let word = append_branch_numbers_in_turn(0, branches, Vec::new(alloc))?;
    Ok(Some(reason_of(failing, word)))
}
