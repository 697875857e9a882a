//! Which histories have calls of unknown outcome, and the times of their calls.
ghost use Rattle.std.specs.Prelude.{◌≡◌, [], ◌∷◌, MatchOption, IfOk, map, option_copied};
ghost use Rattle.std.specs.List.{list_any};
ghost use Rattle.pst_case.specs.Shape.{joined};
ghost use Rattle.pst_case.specs.Times.{called};
ghost use Rattle.pst_case.specs.Unknown as spec;

use crate::history::{CallTime, History, Reply};
use crate::times::{count_called, do_times_fit};
use pst_value::Items;
use std::alloc::{AllocError, Global};

impl Reply {
    /// Whether nobody knows how the call ended.
    pub fn is_unknown(&self) -> bool
        ensures { result ≡ spec.is_unknown self.now }
    {
        match self {
            Reply::Unknown => true,
            Reply::Value(_) | Reply::Misfit | Reply::Failed | Reply::NotRun => false,
        }
    }
}

fn is_any_unknown(replies: &[Reply]) -> bool
    ensures { result ≡ list_any spec.is_unknown replies.now }
{
    for reply in replies {
        if reply.is_unknown() {
            return true;
        }
    }
    false
}

fn split_first(branches: &[Items<Reply>]) -> Option<(&Items<Reply>, &[Items<Reply>])>
    ensures { MatchOption result (branches.now ≡ []) (λ p. branches.now ≡ p.0.now ∷ p.1.now) }
{
    branches.split_first()
}

/// Whether a reply of one of the branches is unknown.
#[tactic(auto, using(crate::proofs::Unknowns::unknowns))]
fn is_any_of_branches_unknown(branches: &[Items<Reply>]) -> bool
    ensures { result ≡ list_any spec.is_unknown (joined branches.now) }
{
    let Some((branch, branches)) = split_first(branches) else {
        return false;
    };
    is_any_unknown(branch.as_slice()) || is_any_of_branches_unknown(branches)
}

impl History {
    /// Whether some call of the history has an unknown outcome. Allocates nothing.
    #[tactic(auto, using(crate::proofs::Unknowns::unknowns))]
    pub fn has_unknown(&self) -> bool
        ensures { result ≡ spec.has_unknown self.now }
    {
        is_any_unknown(self.prefix.as_slice())
            || is_any_of_branches_unknown(self.branches.as_slice())
            || is_any_unknown(self.suffix.as_slice())
    }
}

/// Whether no call of unknown outcome has a completion. The called ones of the commands have the times `calls`.
fn are_open(replies: &[Reply], calls: &[CallTime]) -> bool
    ensures { result ≡ spec.are_open replies.now calls.now }
{
    let Some((reply, replies)) = replies.split_first() else {
        return true;
    };
    if let Reply::NotRun = reply {
        return are_open(replies, calls);
    }
    match calls.split_first() {
        Some((call, calls)) => {
            (!reply.is_unknown() || call.completed.is_none()) && are_open(replies, calls)
        }
        None => true,
    }
}

/// Whether no call of unknown outcome in the branches has a completion.
fn are_all_open(branches: &[Items<Reply>], times: &[Items<CallTime>]) -> bool
    ensures { result ≡ spec.all_open branches.now times.now }
{
    let Some((replies, branches)) = branches.split_first() else {
        return true;
    };
    match times.split_first() {
        Some((calls, times)) => {
            are_open(replies.as_slice(), calls.as_slice()) && are_all_open(branches, times)
        }
        None => true,
    }
}

/// How many commands of each branch were called.
fn count_called_in_each(alloc: Global, branches: &[Items<Reply>]) -> Result<Vec<usize>, AllocError>
    ensures { IfOk result (λ counts. counts.items ≡ map called branches.now) }
{
    let mut counts = Vec::new(alloc);
    for replies in branches {
        counts.push(count_called(replies.as_slice()))?;
    }
    Ok(counts)
}

impl History {
    /// The recorded times, if they fit the calls of the branches, and no call of unknown outcome has a completion.
    pub fn times_of_calls(&self, alloc: Global) -> Result<Option<&[Items<CallTime>]>, AllocError>
        ensures { IfOk result (λ times. option_copied times ≡ spec.times_of_calls self.now) }
    {
        let Some(times) = &self.times else {
            return Ok(None);
        };
        let branches = self.branches.as_slice();
        let counts = count_called_in_each(alloc, branches)?;
        if do_times_fit(counts.as_slice(), times.as_slice())
            && are_all_open(branches, times.as_slice())
        {
            Ok(Some(times.as_slice()))
        } else {
            Ok(None)
        }
    }
}
