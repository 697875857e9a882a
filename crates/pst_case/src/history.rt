//! The replies recorded for a case, and the results that they record.
ghost use Rattle.std.specs.Prelude.{◌≡◌, IfOk, ◌++◌, ◌∷◌, [], MatchOption, map};
ghost use Rattle.pst_case.specs.Recorded.{recorded, result_of};
ghost use Rattle.pst_case.specs.Shape.{joined};

use crate::case::Shaped;
use pst_model::Source;
use pst_value::{Items, Value};
use std::alloc::{AllocError, Global};

/// What a system replied to a command.
#[derive(Debug, PartialEq, Eq, Drop)]
pub enum Reply {
    /// A value of the operation's result type.
    Value(Value),
    /// An answer that is no value of the operation's result type.
    Misfit,
    /// The call failed.
    Failed,
    /// The command was not called, since an earlier one failed or has an unknown outcome.
    NotRun,
    /// Nobody knows how the call ended: it may have taken effect, and late, or not at all.
    Unknown,
}

/// When a call was invoked and when it completed: integers from 0, all on one clock.
#[derive(Clone, Copy, Debug, PartialEq, Eq, Drop)]
pub struct CallTime {
    pub invoked: u64,
    /// `None` if nobody knows that the call completed.
    pub completed: Option<u64>,
}

/// The replies to the commands of a case, part by part, and the times of the calls of the branches, if they were
/// recorded.
#[derive(Debug, PartialEq, Eq, Drop)]
pub struct History {
    pub prefix: Items<Reply>,
    pub branches: Items<Items<Reply>>,
    pub suffix: Items<Reply>,
    /// A list for each branch, with a time for each command that was called.
    pub times: Option<Items<Items<CallTime>>>,
}

/// A case, with its recorded history if it was run.
#[derive(Debug, Drop)]
pub struct Run {
    pub shaped: Shaped,
    pub history: Option<History>,
}

impl Reply {
    /// An equal reply.
    pub fn copy(&self, alloc: Global) -> Result<Reply, AllocError>
        ensures { IfOk result (λ copy. copy ≡ self.now) }
    {
        match self {
            Reply::Value(value) => Ok(Reply::Value(value.copy(alloc)?)),
            Reply::Misfit => Ok(Reply::Misfit),
            Reply::Failed => Ok(Reply::Failed),
            Reply::NotRun => Ok(Reply::NotRun),
            Reply::Unknown => Ok(Reply::Unknown),
        }
    }
}

fn copy_replies(alloc: Global, replies: &[Reply]) -> Result<Items<Reply>, AllocError>
    ensures { IfOk result (λ copies. copies ≡ replies.now) }
{
    let mut copies = Items::new(alloc);
    for reply in replies {
        copies.push(reply.copy(alloc)?)?;
    }
    Ok(copies)
}

fn copy_calls(alloc: Global, calls: &[CallTime]) -> Result<Items<CallTime>, AllocError>
    ensures { IfOk result (λ copies. copies ≡ calls.now) }
{
    let mut copies = Items::new(alloc);
    for call in calls {
        copies.push(*call)?;
    }
    Ok(copies)
}

fn copy_times(
    alloc: Global,
    times: &[Items<CallTime>],
) -> Result<Items<Items<CallTime>>, AllocError>
    ensures { IfOk result (λ copies. copies ≡ times.now) }
{
    let mut copies = Items::new(alloc);
    for calls in times {
        copies.push(copy_calls(alloc, calls.as_slice())?)?;
    }
    Ok(copies)
}

impl History {
    /// An equal history.
    pub fn copy(&self, alloc: Global) -> Result<History, AllocError>
        ensures { IfOk result (λ copy. copy ≡ self.now) }
    {
        let mut branches = Items::new(alloc);
        for branch in self.branches.as_slice() {
            branches.push(copy_replies(alloc, branch.as_slice())?)?;
        }
        let times = match &self.times {
            Some(times) => Some(copy_times(alloc, times.as_slice())?),
            None => None,
        };
        Ok(History {
            prefix: copy_replies(alloc, self.prefix.as_slice())?,
            branches,
            suffix: copy_replies(alloc, self.suffix.as_slice())?,
            times,
        })
    }
}

impl Run {
    /// An equal run. Only contracts read `model`.
    pub fn copy(&self, alloc: Global, model: &Source) -> Result<Run, AllocError>
        requires { self.now.shaped.model ≡ model.now }
        ensures shaped { IfOk result (λ copy. copy.shaped ≡ self.now.shaped) }
        ensures history { IfOk result (λ copy. copy.history ≡ self.now.history) }
    {
        let history = match &self.history {
            Some(history) => Some(history.copy(alloc)?),
            None => None,
        };
        Ok(Run {
            shaped: self.shaped.copy(alloc, model)?,
            history,
        })
    }
}

/// Appends the results that `replies` record to `results`.
fn append_results(
    alloc: Global,
    mut results: Vec<Option<Value>>,
    replies: &[Reply],
) -> Result<Vec<Option<Value>>, AllocError>
    ensures { IfOk result (λ all. all.items ≡ results.items ++ map result_of replies.now) }
{
    for reply in replies {
        match reply {
            Reply::Value(value) => results.push(Some(value.copy(alloc)?))?,
            Reply::Misfit | Reply::Failed | Reply::NotRun | Reply::Unknown => results.push(None)?,
        }
    }
    Ok(results)
}

/// The results that the replies of one part record: `None` if the reply is no value.
pub fn results_of_replies(
    alloc: Global,
    replies: &[Reply],
) -> Result<Vec<Option<Value>>, AllocError>
    ensures { IfOk result (λ results. results.items ≡ map result_of replies.now) }
{
    append_results(alloc, Vec::new(alloc), replies)
}

fn split_first(branches: &[Items<Reply>]) -> Option<(&Items<Reply>, &[Items<Reply>])>
    ensures { MatchOption result (branches.now ≡ []) (λ p. branches.now ≡ p.0.now ∷ p.1.now) }
{
    branches.split_first()
}

/// Appends the results that the replies of the branches record to `results`.
fn append_results_of_branches(
    alloc: Global,
    results: Vec<Option<Value>>,
    branches: &[Items<Reply>],
) -> Result<Vec<Option<Value>>, AllocError>
    ensures { IfOk result (λ all. all.items ≡ results.items ++ map result_of (joined branches.now)) }
{
    let Some((branch, branches)) = split_first(branches) else {
        return Ok(results);
    };
    let results = append_results(alloc, results, branch.as_slice())?;
    append_results_of_branches(alloc, results, branches)
}

impl History {
    /// The recorded results, in the order of the command numbers, from 1: `None` if the reply is no value.
    pub fn recorded(&self, alloc: Global) -> Result<Vec<Option<Value>>, AllocError>
        ensures { IfOk result (λ results. results.items ≡ recorded self.now) }
    {
        let results = append_results(alloc, Vec::new(alloc), self.prefix.as_slice())?;
        let results = append_results_of_branches(alloc, results, self.branches.as_slice())?;
        append_results(alloc, results, self.suffix.as_slice())
    }
}
