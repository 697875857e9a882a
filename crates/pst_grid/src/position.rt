//! What a search remembers: a state, and how many commands of each branch are done, in little memory.
ghost use Rattle.std.specs.Prelude.{◌≡◌, ◌∷◌, ◌++◌, [], IfOk, MatchBool};
ghost use Rattle.pst_grid.specs.Remembered.{IsRemembered};
ghost use Rattle.pst_grid.specs.DoneCounts.{word_for};

use crate::Steps;
use crate::hasher::BuildPositionHasher;
use indexmap::IndexSet;
use std::alloc::{AllocError, Global};
use std::hash::{Hash, Hasher};
use std::marker::Model;

/// A state as a search remembers it. Contracts see it as the state.
#[derive(Drop)]
pub(crate) struct KeptState<S: Steps> {
    kept: S::Kept,
}

impl<S: Steps> Model for KeptState<S> {
    ghost Value = { S.State };

    ghost coded = { S.State.code };

    ghost view = { λ k. S.state_of k.kept };
}

impl<S: Steps> KeptState<S> {
    /// The state as a search remembers it.
    #[inline(always)]
    pub(crate) fn new(
        alloc: Global,
        steps: &S,
        state: &S::State,
    ) -> Result<KeptState<S>, AllocError>
        ensures { IfOk result (λ k. k ≡ state.now) }
    {
        Ok(KeptState {
            kept: steps.keep(alloc, state)?,
        })
    }
}

impl<S: Steps> PartialEq for KeptState<S> {
    ghost eq = { S.State.PartialEq.eq };

    ghost laws = { S.State.PartialEq.laws };

    #[inline(always)]
    fn eq(&self, other: &Self) -> bool {
        self.kept == other.kept
    }
}

impl<S: Steps> Eq for KeptState<S> {
    ghost laws = { S.State.Eq.laws };
}

impl<S: Steps> Hash for KeptState<S> {
    ghost use Rattle.std.proofs.Common.{ap};

    ghost hash_input = { S.fed };

    ghost respects_eq = { λ a b h. ap S.fed (S.exact a b h) };

    #[inline(always)]
    fn hash<H: Hasher>(&self, state: &mut H) {
        self.kept.hash(state);
    }
}

/// How many commands of each branch are done, and the state there.
#[derive(PartialEq, Eq, Hash, Drop)]
pub(crate) struct Position<S> {
    pub done: DoneCounts,
    pub state: S,
}

/// Remembers a place and a state, and returns whether they are new.
pub(crate) fn remember_position_if_new<S: Steps>(
    alloc: Global,
    steps: &S,
    seen: &mut IndexSet<Position<KeptState<S>>, BuildPositionHasher>,
    done: &[usize],
    state: &S::State,
) -> Result<bool, AllocError>
    ensures { IfOk result (λ is_new. MatchBool is_new
        (seen.new.keys ≡ seen.old.keys ++ record { done = done.now; state = state.now } ∷ [])
        (IsRemembered done.now state.now seen.old.keys × (seen.new.keys ≡ seen.old.keys))) }
{
    let position = Position {
        done: DoneCounts::new(alloc, done)?,
        state: KeptState::new(alloc, steps, state)?,
    };
    Ok(seen.insert(position)?)
}

/// How many counts one word can hold.
const MOST_COUNTS: usize = 4;

/// The smallest count that no word holds.
const LEAST_LARGE: usize = 65_535;

/// How a list of counts is kept.
#[derive(Drop)]
enum Packing {
    /// All counts are digits of the word.
    Word(u64),
    /// The counts are too many or too large for a word.
    Counts(Box<Vec<usize>>),
}

/// How many commands of each branch are done. Contracts see it as the list of these counts.
///
/// Four counts below 65,535 take one word and no further memory: the digits of the word, to the base 65,536, are the
/// counts plus one, the first count lowest, so that a digit 0 ends the list.
#[derive(Drop)]
pub(crate) struct DoneCounts {
    packing: Packing,
}

impl Model for DoneCounts {
    ghost use Rattle.std.specs.Prelude.{List, ℕ};

    ghost Value = { List ℕ };

    ghost use Rattle.pst_grid.specs.Packings.{counts_of, IsPacked};

    ghost view = { λ p. counts_of p.packing };

    ghost invariant = { λ p. IsPacked p.packing };
}

/// The word of these counts, if one word can hold them.
#[inline(always)]
fn pack_done_counts_if_small(done: &[usize]) -> Option<u64>
    ensures { result ≡ word_for done.now }
{
    if done.len() > MOST_COUNTS {
        return None;
    }
    let mut word: u64 = 0;
    for branch in (0..done.len()).rev() {
        let count = done[branch];
        if count >= LEAST_LARGE {
            return None;
        }
        word = word * 65_536 + (count as u64 + 1);
    }
    Some(word)
}

impl DoneCounts {
    /// Keeps these counts. Allocates only if they are many or large.
    #[inline(always)]
    pub(crate) fn new(alloc: Global, done: &[usize]) -> Result<DoneCounts, AllocError>
        ensures { IfOk result (λ p. p ≡ done.now) }
    {
        let packing = match pack_done_counts_if_small(done) {
            Some(word) => Packing::Word(word),
            None => Packing::Counts(Box::new(alloc, done.to_vec(alloc)?)?),
        };
        Ok(DoneCounts { packing })
    }
}

impl PartialEq for DoneCounts {
    ghost use Rattle.std.specs.Cmp.Lexicographic.{pointwise, nat_list_eq_equiv};
    ghost use Rattle.std.specs.Prelude.{nat_eq};
    ghost use Rattle.std.specs.Cmp as cmp;

    ghost eq = { pointwise nat_eq };

    ghost laws = { cmp.partial_equiv_from_equiv nat_list_eq_equiv };

    #[inline(always)]
    fn eq(&self, other: &Self) -> bool {
        match (&self.packing, &other.packing) {
            (Packing::Word(one), Packing::Word(two)) => one == two,
            (Packing::Counts(one), Packing::Counts(two)) => **one == **two,
            _ => false,
        }
    }
}

impl Eq for DoneCounts {
    ghost use Rattle.std.specs.Cmp.Lexicographic.{nat_list_eq_equiv};

    ghost laws = { nat_list_eq_equiv };
}

impl Hash for DoneCounts {
    ghost use Rattle.std.specs.Cmp.Lexicographic.{bytes_decides};
    ghost use Rattle.std.proofs.Common.{ap};
    ghost use Rattle.pst_grid.specs.DoneCounts.{hash_input_of};

    ghost hash_input = { hash_input_of };

    ghost respects_eq = { λ x y h. ap hash_input_of ((bytes_decides x y).0 h) };

    #[inline(always)]
    fn hash<H: Hasher>(&self, state: &mut H) {
        match &self.packing {
            Packing::Word(word) => state.write_u64(*word),
            Packing::Counts(counts) => (**counts).hash(state),
        }
    }
}
