//! Cores, which are lists of the numbers of commands whose answers cannot all be right, and functions on such
//! lists.
ghost use Rattle.std.specs.Prelude.{◌≡◌, ◌++◌, ◌∷◌, [], true, IfOk, MatchOption, ◌+◌, ◌≤◌, length};
ghost use Rattle.pst_reasons.specs.Answered.{IsAnsweredRun};
ghost use Rattle.pst_reasons.specs.Reasons.{AreRising, IsCore, IsCoreSoFar, IsImpossible, IsLeastTrue, IsUnexplained, number_of_commands, numbers_to, without};
ghost use Rattle.pst_case.specs.Shape.{joined};

use crate::conditions::SomePostconditions;
use crate::recorded::RecordedRun;
use pst_case::{Command, Shaped};
use pst_eval::Callbacks;
use pst_grid::Order;
use pst_judge::{Verdict, verdict_with_condition_in_order};
use pst_value::Items;
use std::alloc::{AllocError, Global};

/// Returns the lexicographically first interleaving in order that is true to its end if only the postconditions of the
/// commands `first` and `rest` are checked. `None` if no interleaving in order is.
fn interleaving_where_commands_are_right<C: Callbacks, O: Order>(
    run: &RecordedRun<'_, C, O>,
    first: &[u32],
    rest: &[u32],
) -> Result<Option<Vec<usize>>, AllocError>
    requires answered { let r = run.now in
        IsAnsweredRun (C.model r.callbacks.now) (O.order r.order.now) r.shaped.now r.history.now }
    ensures { let r = run.now in let m = C.model r.callbacks.now in let numbers = first.now ++ rest.now in
        IfOk result (λ merge. MatchOption merge
        (IsImpossible m (O.order r.order.now) r.shaped.now.case r.history.now numbers)
        (λ word. IsLeastTrue m (O.order r.order.now) r.shaped.now.case r.history.now numbers word.items)) }
{
    let asked = SomePostconditions { first, rest };
    match verdict_with_condition_in_order(
        run.callbacks,
        &asked,
        run.order,
        run.alloc,
        run.shaped,
        run.history,
    )? {
        Verdict::Explained(word) => Ok(Some(word)),
        Verdict::Faulted(_) => Ok(None),
        Verdict::Unexplained(_) => Ok(None),
        Verdict::Broken(_) => unreachable!(),
    }
}

/// Leaves out `number` if the others stay impossible without it, or else inserts it before `core`.
fn leave_command_out_of_core_if_possible<C: Callbacks, O: Order>(
    run: &RecordedRun<'_, C, O>,
    first: &[u32],
    number: u32,
    mut core: Vec<u32>,
) -> Result<Vec<u32>, AllocError>
    requires answered { let r = run.now in
        IsAnsweredRun (C.model r.callbacks.now) (O.order r.order.now) r.shaped.now r.history.now }
    requires core { let r = run.now in IsCoreSoFar (C.model r.callbacks.now) (O.order r.order.now) r.shaped.now.case
        r.history.now (first.now ++ number ∷ []) core.items }
    ensures { let r = run.now in IfOk result (λ core. IsCoreSoFar (C.model r.callbacks.now) (O.order r.order.now)
        r.shaped.now.case r.history.now first.now core.items) }
{
    let merge = interleaving_where_commands_are_right(run, first, core.as_slice())?;
    let Some(_word) = merge else {
        return Ok(core);
    };
    core.insert(0, number)?;
    Ok(core)
}

/// Leaves out each number of `first`, from the greatest down, if the others stay impossible without it.
fn leave_commands_out_of_core_if_possible<C: Callbacks, O: Order>(
    run: &RecordedRun<'_, C, O>,
    first: &[u32],
    core: Vec<u32>,
) -> Result<Vec<u32>, AllocError>
    requires answered { let r = run.now in
        IsAnsweredRun (C.model r.callbacks.now) (O.order r.order.now) r.shaped.now r.history.now }
    requires core { let r = run.now in IsCoreSoFar (C.model r.callbacks.now) (O.order r.order.now) r.shaped.now.case
        r.history.now first.now core.items }
    ensures core { let r = run.now in IfOk result (λ core. IsCore (C.model r.callbacks.now) (O.order r.order.now)
        r.shaped.now.case r.history.now core.items) }
    ensures rising { IfOk result (λ core. AreRising 0 (number_of_commands run.now.shaped.now.case) core.items) }
{
    let Some((number, first)) = split_last_number(first) else {
        return Ok(core);
    };
    let core = leave_command_out_of_core_if_possible(run, first, *number, core)?;
    leave_commands_out_of_core_if_possible(run, first, core)
}

/// Returns a core of a history that no interleaving in order explains: the numbers, in rising order, of commands whose
/// postconditions are not all true in any interleaving in order, although without any one of these commands they are in
/// some.
///
/// The order must never block: wherever commands of the branches are left, some branch that has one is open. The
/// function goes through the commands from the last to the first, and leaves out each without which the others are
/// still impossible. So it prefers a core of commands with small numbers. Other commands may have answered anything.
/// The core is empty if every interleaving in order faults in `init` or `next`, whatever was answered. The function
/// takes one search for each command.
pub fn minimal_core<C: Callbacks, O: Order>(
    run: &RecordedRun<'_, C, O>,
) -> Result<Vec<u32>, AllocError>
    requires answered { let r = run.now in
        IsAnsweredRun (C.model r.callbacks.now) (O.order r.order.now) r.shaped.now r.history.now }
    requires unexplained { let r = run.now in IsUnexplained (C.model r.callbacks.now) (O.order r.order.now)
        r.shaped.now.case r.history.now }
    ensures core { let r = run.now in IfOk result (λ core. IsCore (C.model r.callbacks.now) (O.order r.order.now)
        r.shaped.now.case r.history.now core.items) }
    ensures rising { IfOk result (λ core. AreRising 0 (number_of_commands run.now.shaped.now.case) core.items) }
{
    let alloc = run.alloc;
    let numbers = command_numbers_up_to(alloc, count_case_commands(run.shaped))?;
    let core = empty_command_number_list(alloc);
    leave_commands_out_of_core_if_possible(run, numbers.as_slice(), core)
}

/// Returns the numbers from 1 to `last`.
fn command_numbers_up_to(alloc: Global, last: u32) -> Result<Vec<u32>, AllocError>
    ensures { IfOk result (λ numbers. numbers.items ≡ numbers_to last) }
{
    if last == 0 {
        return Ok(Vec::new(alloc));
    }
    let mut numbers = command_numbers_up_to(alloc, last - 1)?;
    numbers.push(last)?;
    Ok(numbers)
}

/// Returns an empty list.
fn empty_command_number_list(alloc: Global) -> Vec<u32>
    ensures { result.items ≡ [] }
{
    Vec::new(alloc)
}

pub(crate) fn split_first_number(numbers: &[u32]) -> Option<(&u32, &[u32])>
    ensures { MatchOption result (numbers.now ≡ []) (λ p. numbers.now ≡ p.0.now ∷ p.1.now) }
{
    numbers.split_first()
}

fn split_last_number(numbers: &[u32]) -> Option<(&u32, &[u32])>
    ensures { MatchOption result (numbers.now ≡ []) (λ p. numbers.now ≡ p.1.now ++ p.0.now ∷ []) }
{
    numbers.split_last()
}

/// Returns `others`, followed by `numbers` without `number`.
pub fn append_numbers_without(
    number: u32,
    numbers: &[u32],
    mut others: Vec<u32>,
) -> Result<Vec<u32>, AllocError>
    ensures { IfOk result (λ all. all.items ≡ others.items ++ without number numbers.now) }
{
    let Some((first, rest)) = split_first_number(numbers) else {
        return Ok(others);
    };
    if *first != number {
        others.push(*first)?;
    }
    append_numbers_without(number, rest, others)
}

fn split_first_branch(branches: &[Items<Command>]) -> Option<(&Items<Command>, &[Items<Command>])>
    ensures { MatchOption result (branches.now ≡ []) (λ p. (branches.now ≡ p.0.now ∷ p.1.now)
        × (length (joined branches.now) ≡ length p.0.now + length (joined p.1.now))) }
{
    branches.split_first()
}

/// Returns how many commands the branches have together.
pub fn count_branch_commands(branches: &[Items<Command>]) -> usize
    requires { length (joined branches.now) ≤ 16 }
    ensures { result ≡ length (joined branches.now) }
{
    let Some((branch, branches)) = split_first_branch(branches) else {
        return 0;
    };
    branch.len() + count_branch_commands(branches)
}

/// Returns how many commands a case has.
fn count_case_commands(shaped: &Shaped) -> u32
    ensures { result ≡ number_of_commands shaped.now.case }
{
    let case = shaped.case();
    let prefix = case.prefix.len();
    let branches = case.branches.as_slice();
    let letters = count_branch_commands(branches);
    let suffix = case.suffix.len();
    (prefix + letters + suffix) as u32
}
