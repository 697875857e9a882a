//! The order that keeps a list of precedences.
ghost use Rattle.std.specs.Prelude.{◌≡◌, slice_index};
ghost use Rattle.pst_precedence.specs.Precedences as spec;

use crate::precedence::Precedence;
use pst_grid::Order;

/// The order that keeps the precedences `first` and `rest`: a branch is closed if its next call is the later one of a
/// precedence whose earlier one is not done.
#[derive(Drop)]
pub(crate) struct Keeping<'a> {
    pub first: &'a [Precedence],
    pub rest: &'a [Precedence],
}

/// How many calls of `branch` are done.
fn done_count(done: &[usize], branch: usize) -> usize
    ensures { result ≡ slice_index done.now branch }
{
    if branch < done.len() { done[branch] } else { 0 }
}

/// Whether the precedence closes `branch`.
fn closes(precedence: Precedence, done: &[usize], branch: usize) -> bool
    ensures { result ≡ spec.closes precedence done.now branch }
{
    let Precedence { earlier, later } = precedence;
    later.branch == branch
        && later.index == done_count(done, branch)
        && earlier.index >= done_count(done, earlier.branch)
}

/// Whether none of the precedences closes `branch`.
fn is_open_by(precedences: &[Precedence], done: &[usize], branch: usize) -> bool
    ensures { result ≡ spec.keeping precedences.now done.now branch }
{
    precedences
        .iter()
        .all(|precedence| !closes(*precedence, done, branch))
}

impl<'a> Order for Keeping<'a> {
    ghost use Rattle.std.specs.Prelude.{◌++◌};
    ghost use Rattle.pst_precedence.specs.Precedences.{keeping};

    ghost order = { λ kept. keeping (kept.first.now ++ kept.rest.now) };

    fn is_open(&self, done: &[usize], branch: usize) -> bool {
        is_open_by(self.first, done, branch) && is_open_by(self.rest, done, branch)
    }
}
