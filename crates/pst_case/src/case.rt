//! Commands and cases, and the limits of a case.
ghost use Rattle.std.specs.Prelude.{◌≡◌, IfOk, None, ◌<◌, ◌^◌, ◌&&◌, length, nat_le};
ghost use Rattle.std.specs.List.{list_all};
ghost use Rattle.pst_case.specs.Shape as spec;

use pst_model::Source;
use pst_value::{Items, Value, copy_values};
use std::alloc::{AllocError, Global};
use std::fmt::{Debug, Error, Formatter, Write};
use std::marker::Model;
use std::snapshot::Snapshot;

/// A call of an operation, by its number from 0, with arguments that may name the results of earlier
/// commands.
#[derive(Debug, PartialEq, Eq, Drop)]
pub struct Command {
    pub op: u32,
    pub args: Items<Value>,
}

/// A symbolic test case: a prefix that runs first, branches that run concurrently after it, and a suffix that runs when
/// all branches have ended. Commands are numbered from 1: the prefix, then each branch in turn, then the suffix.
#[derive(Debug, PartialEq, Eq, Drop)]
pub struct Case {
    pub prefix: Items<Command>,
    pub branches: Items<Items<Command>>,
    pub suffix: Items<Command>,
}

/// A case that keeps the shape of a model: its limits, its variables, and the types of its arguments.
/// Contracts see it as the model and the case.
#[derive(Drop)]
pub struct Shaped {
    case: Case,
    model: Snapshot<Source>,
}

impl Command {
    /// An equal command.
    pub fn copy(&self, alloc: Global) -> Result<Command, AllocError>
        ensures { IfOk result (λ copy. copy ≡ self.now) }
    {
        Ok(Command {
            op: self.op,
            args: copy_values(self.args.as_slice(), alloc)?,
        })
    }
}

/// Returns a list of equal commands.
pub fn copy_commands(alloc: Global, commands: &[Command]) -> Result<Items<Command>, AllocError>
    ensures { IfOk result (λ copies. copies ≡ commands.now) }
{
    let mut copies = Items::new(alloc);
    for command in commands {
        copies.push(command.copy(alloc)?)?;
    }
    Ok(copies)
}

impl Case {
    /// An equal case.
    pub fn copy(&self, alloc: Global) -> Result<Case, AllocError>
        ensures { IfOk result (λ copy. copy ≡ self.now) }
    {
        let mut branches = Items::new(alloc);
        for branch in self.branches.as_slice() {
            branches.push(copy_commands(alloc, branch.as_slice())?)?;
        }
        Ok(Case {
            prefix: copy_commands(alloc, self.prefix.as_slice())?,
            branches,
            suffix: copy_commands(alloc, self.suffix.as_slice())?,
        })
    }
}

impl Model for Shaped {
    ghost use Rattle.pst_case.specs.OfModel.{OfModel, of_model_code};
    ghost use Rattle.pst_case.specs.Shape.{IsShaped};

    ghost Value = { OfModel };

    ghost coded = { of_model_code };

    ghost view = { λ s. record { model = s.model.value; case = s.case } };

    ghost invariant = { λ s. IsShaped s.model.value s.case };
}

impl Debug for Shaped {
    fn fmt<W: Write>(&self, f: &mut Formatter<W>) -> Result<(), Error> {
        Debug::fmt(&self.case, f)
    }
}

impl Shaped {
    ghost use Rattle.pst_case.specs.Shape.{IsShaped};

    /// Keeps a case that has the shape of the model.
    pub fn new(model: &Source, case: Case) -> Shaped
        requires { IsShaped model.now case }
        ensures { result ≡ record { model = model.now; case = case } }
    {
        Shaped {
            case,
            model: Snapshot::of(model),
        }
    }

    /// The case.
    pub fn case(&self) -> &Case
        ensures same { result.now ≡ self.now.case }
        ensures shape { IsShaped self.now.model self.now.case }
    {
        &self.case
    }

    /// Takes the case out of its `Shaped`.
    pub fn into_case(self) -> Case
        ensures { result ≡ self.case }
    {
        let Shaped { case, model: _ } = self;
        case
    }

    /// An equal shaped case. Only contracts read `model`.
    pub fn copy(&self, alloc: Global, model: &Source) -> Result<Shaped, AllocError>
        requires { self.now.model ≡ model.now }
        ensures { IfOk result (λ copy. copy ≡ self.now) }
    {
        Ok(Shaped {
            case: self.case.copy(alloc)?,
            model: Snapshot::of(model),
        })
    }
}

/// The most commands of the prefix.
pub const MAX_PREFIX: usize = 64;

/// The most commands of a branch.
pub const MAX_BRANCH: usize = 8;

/// The most commands of all branches together.
pub const MAX_TOGETHER: usize = 16;

/// The most commands of the suffix.
pub const MAX_SUFFIX: usize = 8;

/// Whether the branches have at most `room` commands together.
fn are_branches_together_within<C>(branches: &[Items<C>], room: usize) -> bool
    ensures { result ≡ nat_le (length (spec.joined branches.now)) room }
{
    let Some((branch, branches)) = branches.split_first() else {
        return true;
    };
    if branch.len() > room {
        return false;
    }
    are_branches_together_within(branches, room - branch.len())
}

fn is_each_branch_within_limit<C>(branches: &[Items<C>]) -> bool
    ensures { result ≡ list_all (λ b. nat_le (length b) 8) branches.now }
{
    branches.iter().all(|branch| branch.len() <= MAX_BRANCH)
}

fn is_branch_count_within_limits<C>(branches: &[Items<C>]) -> bool
    ensures { result ≡ (nat_le 2 (length branches.now) && nat_le (length branches.now) 4) }
{
    2 <= branches.len() && branches.len() <= 4
}

/// Whether a case of these commands is over a limit: `MAX_PREFIX`, `MAX_BRANCH`, `MAX_TOGETHER`, `MAX_SUFFIX`, or two
/// to four branches.
pub fn is_case_size_outside_limits<C>(prefix: &[C], branches: &[Items<C>], suffix: &[C]) -> bool
    ensures { result ≡ spec.are_over_limit prefix.now branches.now suffix.now }
{
    if prefix.len() > MAX_PREFIX {
        return true;
    }
    if !is_each_branch_within_limit(branches) {
        return true;
    }
    if !is_branch_count_within_limits(branches) {
        return true;
    }
    if !are_branches_together_within(branches, MAX_TOGETHER) {
        return true;
    }
    suffix.len() > MAX_SUFFIX
}

/// How many commands the branches have together.
pub fn count_commands_of_branches<C>(branches: &[Items<C>]) -> u32
    requires { length (spec.joined branches.now) < 2 ^ 32 }
    ensures { result ≡ length (spec.joined branches.now) }
{
    let Some((branch, branches)) = branches.split_first() else {
        return 0;
    };
    branch.len() as u32 + count_commands_of_branches(branches)
}
