//! The shrink candidates of a case, the new numbers of their commands, and the commands that they keep.
ghost use Rattle.std.specs.Prelude.{◌≡◌, ◌+◌, ◌^◌, ◌<◌, IfOk, length, map};
ghost use Rattle.pst_case.specs.Shape.{commands_of, joined};
ghost use Rattle.pst_shrink.specs.Candidates as spec;
ghost use Rattle.pst_shrink.specs.Number.{number_by, numbers_by, renumber_command};
ghost use Rattle.std.specs.List.{list_any};
ghost use Rattle.pst_shrink.specs.Candidates.{command_uses, others, branch_others, is_used};

use pst_case::{Case, Command, count_commands_of_branches, renumber_command, renumber_commands};
use pst_value::Items;
use std::alloc::{AllocError, Global};

/// The case without command `number`.
fn case_without_command(alloc: Global, case: &Case, number: u32) -> Result<Case, AllocError>
    requires room { length (commands_of case.now) + 1 < 2 ^ 32 }
    ensures { IfOk result (λ smaller. smaller ≡ spec.without number case.now) }
{
    let count = count_case_commands(case);
    let numbers = new_command_numbers(alloc, Renumbering::Without(number), count)?;
    let numbers = numbers.as_slice();
    let first = case.prefix.len() as u32 + 1;
    let first_of_suffix = count + 1 - case.suffix.len() as u32;
    Ok(Case {
        prefix: renumbered_commands_without(alloc, number, 1, case.prefix.as_slice(), numbers)?,
        branches: renumbered_branches_without(
            alloc,
            number,
            first,
            case.branches.as_slice(),
            numbers,
        )?,
        suffix: renumbered_commands_without(
            alloc,
            number,
            first_of_suffix,
            case.suffix.as_slice(),
            numbers,
        )?,
    })
}

/// The case with a command of a branch, which has the number, moved to the end of the prefix.
fn case_with_command_moved_to_prefix(
    alloc: Global,
    case: &Case,
    number: u32,
    command: &Command,
) -> Result<Case, AllocError>
    requires room { length (commands_of case.now) + 1 < 2 ^ 32 }
    ensures { IfOk result (λ smaller. smaller ≡ spec.moved number command.now case.now) }
{
    let first = case.prefix.len() as u32 + 1;
    let numbers = new_command_numbers(
        alloc,
        Renumbering::Moved(number, first),
        count_case_commands(case),
    )?;
    let numbers = numbers.as_slice();
    let mut prefix = renumber_commands(alloc, case.prefix.as_slice(), numbers)?;
    prefix.push(renumber_command(alloc, command, numbers)?)?;
    Ok(Case {
        prefix,
        branches: renumbered_branches_without(
            alloc,
            number,
            first,
            case.branches.as_slice(),
            numbers,
        )?,
        suffix: renumber_commands(alloc, case.suffix.as_slice(), numbers)?,
    })
}

/// The cases without one command whose variable no command uses, by command number.
fn cases_without_one_unused_command(alloc: Global, case: &Case) -> Result<Items<Case>, AllocError>
    requires room { length (commands_of case.now) + 1 < 2 ^ 32 }
    ensures { IfOk result (λ all. all ≡ spec.drops case.now (length (commands_of case.now))) }
{
    let mut all = Items::new(alloc);
    for before in 0..count_case_commands(case) {
        let number = before + 1;
        if !is_result_used(case, number) {
            all.push(case_without_command(alloc, case, number)?)?;
        }
    }
    Ok(all)
}

/// The cases with the first command of one branch moved to the end of the prefix, branch by branch.
fn cases_with_command_moved_to_prefix(alloc: Global, case: &Case) -> Result<Items<Case>, AllocError>
    requires room { length (commands_of case.now) + 1 < 2 ^ 32 }
    ensures { IfOk result
        (λ all. all ≡ spec.moves case.now (spec.first_of_branches case.now) case.now.branches) }
{
    let mut all = Items::new(alloc);
    let mut first = case.prefix.len() as u32 + 1;
    for branch in case.branches.as_slice() {
        if let Some(command) = branch.as_slice().first() {
            all.push(case_with_command_moved_to_prefix(alloc, case, first, command)?)?;
        }
        first += branch.len() as u32;
    }
    Ok(all)
}

/// The shrink candidates of a case: first, by command number, the case without one command whose variable no
/// command uses; then, branch by branch, the case with the first command of the branch moved to the end of the
/// prefix. Variables and references name the same commands under their new numbers, and a number of no command
/// stays. Each candidate weighs less than the case, as `candidates_are_lesser` says.
pub fn candidates(alloc: Global, case: &Case) -> Result<Items<Case>, AllocError>
    requires room { length (commands_of case.now) + 1 < 2 ^ 32 }
    ensures { IfOk result (λ all. all ≡ spec.candidates case.now) }
{
    let mut all = cases_without_one_unused_command(alloc, case)?;
    all.append(cases_with_command_moved_to_prefix(alloc, case)?)?;
    Ok(all)
}

/// The change of a case after which its commands are renumbered. Numbers count from 1.
#[derive(Debug, Clone, Copy, Drop)]
pub enum Renumbering {
    /// The command of this number is left out.
    Without(u32),
    /// The command of the first number moves to the place of the second number, which is not greater.
    Moved(u32, u32),
}

impl Renumbering {
    /// The new number of a command.
    fn new_number(self, number: u32) -> u32
        requires { number + 1 < 2 ^ 32 }
        ensures { result ≡ number_by self number }
    {
        match self {
            Renumbering::Without(left_out) => {
                if left_out < number {
                    number - 1
                } else {
                    number
                }
            }
            Renumbering::Moved(from, to) => {
                if number == from {
                    to
                } else if to <= number && number < from {
                    number + 1
                } else {
                    number
                }
            }
        }
    }
}

/// The new numbers of the commands 1, 2, and so on, of a case with `count` commands.
fn new_command_numbers(alloc: Global, by: Renumbering, count: u32) -> Result<Vec<u32>, AllocError>
    requires { count + 1 < 2 ^ 32 }
    ensures { IfOk result (λ numbers. numbers.items ≡ numbers_by by count) }
{
    let mut numbers = Vec::new(alloc);
    for before in 0..count {
        numbers.push(by.new_number(before + 1))?;
    }
    Ok(numbers)
}

/// How many commands the case has.
#[tactic(auto, using(crate::proofs::Counting::counting))]
fn count_case_commands(case: &Case) -> u32
    requires { length (commands_of case.now) < 2 ^ 32 }
    ensures { result ≡ length (commands_of case.now) }
{
    case.prefix.len() as u32
        + count_commands_of_branches(case.branches.as_slice())
        + case.suffix.len() as u32
}

fn command_uses_result(command: &Command, number: u32) -> bool
    ensures { result ≡ command_uses number command.now }
{
    command.args.as_slice().iter().any(|arg| arg.uses(number))
}

fn any_command_uses_result(commands: &[Command], number: u32) -> bool
    ensures { result ≡ list_any (command_uses number) commands.now }
{
    commands
        .iter()
        .any(|command| command_uses_result(command, number))
}

fn any_branch_uses_result(branches: &[Items<Command>], number: u32) -> bool
    ensures { result ≡ list_any (list_any (command_uses number)) branches.now }
{
    branches.iter().any(|branch| any_command_uses_result(branch.as_slice(), number))
}

/// Whether some command uses the variable of the command with this number, or has a reference to its result.
#[tactic(auto, using(crate::proofs::Counting::searching))]
fn is_result_used(case: &Case, number: u32) -> bool
    ensures { result ≡ is_used number case.now }
{
    any_command_uses_result(case.prefix.as_slice(), number)
        || any_branch_uses_result(case.branches.as_slice(), number)
        || any_command_uses_result(case.suffix.as_slice(), number)
}

/// The commands except command `number`, renumbered. The first of `commands` has the number `first`.
fn renumbered_commands_without(
    alloc: Global,
    number: u32,
    first: u32,
    commands: &[Command],
    numbers: &[u32],
) -> Result<Items<Command>, AllocError>
    requires { first + length commands.now < 2 ^ 32 }
    ensures { IfOk result
        (λ all. all ≡ map (renumber_command numbers.now) (others number first commands.now)) }
{
    let mut all = Items::new(alloc);
    let mut next = first;
    for command in commands {
        if next != number {
            all.push(renumber_command(alloc, command, numbers)?)?;
        }
        next += 1;
    }
    Ok(all)
}

/// The branches without command `number`, renumbered. The first command of the first branch has the number
/// `first`.
fn renumbered_branches_without(
    alloc: Global,
    number: u32,
    first: u32,
    branches: &[Items<Command>],
    numbers: &[u32],
) -> Result<Items<Items<Command>>, AllocError>
    requires { first + length (joined branches.now) < 2 ^ 32 }
    ensures { IfOk result
        (λ all. all ≡ map (map (renumber_command numbers.now)) (branch_others number first branches.now)) }
{
    let mut all = Items::new(alloc);
    let mut next = first;
    for branch in branches {
        all.push(renumbered_commands_without(alloc, number, next, branch.as_slice(), numbers)?)?;
        next += branch.len() as u32;
    }
    Ok(all)
}
