//! What all searches share: the position of a search and what it has seen, and the rest of a run after all branches
//! have ended.
ghost use Rattle.std.specs.Prelude.{List, ◌≡◌, ◌+◌, ◌-◌, ◌*◌, ◌++◌, ◌∷◌, [], ◌<◌, ◌≤◌, ℕ, length, take, sum, slice_index, slice_set, IfOk, OnOk, MatchBool, MatchOption, ◌^◌};
ghost use Rattle.pst_grid.specs.Completions.{IsAt};
ghost use Rattle.pst_grid.specs.Kept as spec;
ghost use Rattle.pst_grid.specs.Kept.{HasEnd, Keeps, nothing_kept, IsFresh};
ghost use Rattle.pst_grid.specs.Orders.{NeverBlocks, IsFirstOpen, IsNoneOpen, IsFilled, Extends};
ghost use Rattle.pst_grid.specs.Merges.{one_more, none_done};
ghost use Rattle.pst_grid.specs.declared.steps.StopReason.TheVariants as stop;
ghost use Rattle.pst_grid.specs.Covered.{IsExplored};

use crate::{Ending, EveryAnswer, Order, SomeAnswer, Steps, StopReason};
use std::alloc::{AllocError, Global};

/// What a search is for. The first interleaving of this kind ends it.
#[derive(Clone, Copy, Drop)]
pub(crate) enum Goal {
    /// An interleaving that is true to its end.
    ToEnd,
    /// An interleaving that is not true to its end.
    Stopped,
}

impl Goal {
    /// Whether an interleaving that stops is of this kind. If not, one that is true to its end is.
    #[inline(always)]
    pub(crate) fn wants_stopped_interleaving(self) -> bool
        ensures { result ≡ spec.is_stopped self }
    {
        match self {
            Goal::ToEnd => false,
            Goal::Stopped => true,
        }
    }
}

/// An interleaving whose run faults, after `at` true events.
#[derive(Drop)]
pub(crate) struct FaultedInterleaving<F> {
    pub word: Vec<usize>,
    pub at: usize,
    pub fault: F,
}

/// An interleaving whose run stops at a false event, after `at` true events.
#[derive(Drop)]
pub(crate) struct FalseInterleaving {
    pub word: Vec<usize>,
    pub at: usize,
}

/// The first faulting interleaving so far, and the first of those so far with the most true events before a false one.
#[derive(Drop)]
pub(crate) struct FirstFailures<F> {
    pub fault: Option<FaultedInterleaving<F>>,
    pub furthest: Option<FalseInterleaving>,
}

/// The position of a search, and what it has seen.
#[derive(Drop)]
pub(crate) struct SearchProgress<F> {
    // How many commands of each branch are done, and the letters that led there.
    pub done: Vec<usize>,
    pub word: Vec<usize>,
    pub best: FirstFailures<F>,
    // How many steps were made.
    pub steps: usize,
}

impl<F: Drop> SearchProgress<F> {
    /// A search at the start of branches of these lengths, which has seen nothing.
    pub(crate) fn new(alloc: Global, lengths: &[usize]) -> Result<SearchProgress<F>, AllocError>
        ensures done { IfOk result (λ s. s.done.items ≡ none_done lengths.now) }
        ensures place { IfOk result (λ s. IsAt lengths.now s.done.items) }
        ensures depth { IfOk result (λ s. sum s.done.items ≡ length s.word.items) }
        ensures word { IfOk result (λ s. s.word.items ≡ []) }
        ensures best { IfOk result (λ s. s.best ≡ nothing_kept) }
        ensures steps { IfOk result (λ s. s.steps ≡ 0) }
    {
        Ok(SearchProgress {
            done: vec![in alloc; 0; lengths.len()]?,
            word: Vec::new(alloc),
            best: FirstFailures {
                fault: None,
                furthest: None,
            },
            steps: 0,
        })
    }

    /// Advances by one command of `branch`. Each clause is a fact on one of the things that the search keeps.
    #[inline(always)]
    pub(crate) fn advance_in_branch(
        &mut self,
        lengths: &[usize],
        branch: usize,
    ) -> Result<(), AllocError>
        requires place { IsAt lengths.now self.old.done.items }
        requires left { slice_index self.old.done.items branch < slice_index lengths.now branch }
        ensures place { OnOk result (IsAt lengths.now self.new.done.items) }
        ensures depth { OnOk result (sum self.old.done.items ≡ length self.old.word.items
            → sum self.new.done.items ≡ length self.new.word.items) }
        ensures fewer_left { OnOk result (2 * (sum lengths.now - sum self.new.done.items) + 1
            < 2 * (sum lengths.now - sum self.old.done.items)) }
        ensures done { OnOk result (self.new.done.items ≡ one_more self.old.done.items branch) }
        ensures word { OnOk result (self.new.word.items ≡ self.old.word.items ++ branch ∷ []) }
        ensures best { self.new.best ≡ self.old.best }
        ensures steps { self.new.steps ≡ self.old.steps }
    {
        self.word.push(branch)?;
        let index = self.done[branch];
        let length = lengths[branch];
        prove!(index < length);
        self.done[branch] = index + 1;
        Ok(())
    }

    /// Goes back by one command of `branch`.
    #[inline(always)]
    pub(crate) fn go_back_in_branch(&mut self, branch: usize)
        requires branch { branch < length self.old.done.items }
        requires done { 0 < slice_index self.old.done.items branch }
        ensures done { self.new.done.items
            ≡ slice_set self.old.done.items branch (slice_index self.old.done.items branch - 1) }
        ensures word { self.new.word.items ≡ take (length self.old.word.items - 1) self.old.word.items }
        ensures best { self.new.best ≡ self.old.best }
        ensures steps { self.new.steps ≡ self.old.steps }
    {
        let _ = self.word.pop();
        self.done[branch] -= 1;
    }

    /// Notes that the first interleaving in order that begins with the word stops after `at` true events. A fault is kept
    /// if it is the first, and a false event if it is further than each so far.
    pub(crate) fn note_stop_if_first_or_furthest<O: Order>(
        &mut self,
        alloc: Global,
        order: &O,
        lengths: &[usize],
        at: usize,
        why: StopReason<F>,
    ) -> Result<(), AllocError>
        requires place { IsAt lengths.now self.old.done.items }
        requires progress { NeverBlocks (O.order order.now) lengths.now }
        ensures done { OnOk result (self.new.done.items ≡ self.old.done.items) }
        ensures word { OnOk result (self.new.word.items ≡ self.old.word.items) }
        ensures steps { self.new.steps ≡ self.old.steps }
        ensures best { OnOk result
            ((letters : List ℕ) × IsFilled (O.order order.now) lengths.now self.old.done.items letters
            × Keeps at (self.old.word.items ++ letters) why self.old.best self.new.best) }
    {
        match why {
            StopReason::False => {
                if is_further(at, &self.best.furthest) {
                    let word = self.first_interleaving_from_current_position(
                        alloc, order, lengths,
                    )?;
                    self.best.furthest = Some(FalseInterleaving { word, at });
                }
            }
            StopReason::Fault(fault) => {
                if self.best.fault.is_none() {
                    let word = self.first_interleaving_from_current_position(
                        alloc, order, lengths,
                    )?;
                    self.best.fault = Some(FaultedInterleaving { word, at, fault });
                }
            }
        }
        Ok(())
    }

    /// Notes that the next command of `branch` stops the run after the word.
    pub(crate) fn note_stop_by_next_command<O: Order>(
        &mut self,
        alloc: Global,
        order: &O,
        lengths: &[usize],
        branch: usize,
        why: StopReason<F>,
    ) -> Result<(), AllocError>
        requires place { IsAt lengths.now self.old.done.items }
        requires left { slice_index self.old.done.items branch < slice_index lengths.now branch }
        requires progress { NeverBlocks (O.order order.now) lengths.now }
        ensures done { OnOk result (self.new.done.items ≡ self.old.done.items) }
        ensures word { OnOk result (self.new.word.items ≡ self.old.word.items) }
        ensures steps { OnOk result (self.new.steps ≡ self.old.steps) }
        ensures best { OnOk result
            ((letters : List ℕ)
            × IsFilled (O.order order.now) lengths.now (one_more self.old.done.items branch) letters
            × Keeps (length self.old.word.items) ((self.old.word.items ++ branch ∷ []) ++ letters) why
            self.old.best self.new.best) }
    {
        let at = self.word.len();
        let kept = self.keeps(at, &why);
        if !kept {
            return Ok(());
        }
        self.advance_in_branch(lengths, branch)?;
        self.note_stop_if_first_or_furthest(alloc, order, lengths, at, why)?;
        self.go_back_in_branch(branch);
        Ok(())
    }

    /// Whether the search keeps an interleaving that stops for this reason after `at` true events.
    fn keeps(&self, at: usize, why: &StopReason<F>) -> bool
        ensures { result ≡ spec.is_kept at why.now self.now.best }
    {
        match why {
            StopReason::False => is_further(at, &self.best.furthest),
            StopReason::Fault(_) => self.best.fault.is_none(),
        }
    }

    /// The first interleaving in order that begins with the word.
    fn first_interleaving_from_current_position<O: Order>(
        &self,
        alloc: Global,
        order: &O,
        lengths: &[usize],
    ) -> Result<Vec<usize>, AllocError>
        requires place { IsAt lengths.now self.now.done.items }
        requires progress { NeverBlocks (O.order order.now) lengths.now }
        ensures { IfOk result (λ v. (letters : List ℕ)
            × IsFilled (O.order order.now) lengths.now self.now.done.items letters
            × (v.items ≡ self.now.word.items ++ letters)) }
    {
        complete_interleaving_in_order(
            order,
            lengths,
            self.done.to_vec(alloc)?,
            self.word.to_vec(alloc)?,
        )
    }

    /// The answer of the finished search. If `found`, the word is an interleaving that is true to its end.
    pub(crate) fn into_answer(self, found: bool) -> SomeAnswer<F>
        requires { HasEnd found self.best }
        ensures { MatchBool found (result ≡ SomeAnswer.Found self.word)
            (MatchOption self.best.fault
            (MatchOption self.best.furthest ⊥ (λ x. result ≡ SomeAnswer.Nothing x.at x.word))
            (λ f. result ≡ SomeAnswer.Faulted f.word f.at f.fault)) }
    {
        let SearchProgress { word, best, .. } = self;
        if found {
            return SomeAnswer::Found { word };
        }
        let FirstFailures { fault, furthest } = best;
        match fault {
            Some(faulted) => SomeAnswer::Faulted {
                word: faulted.word,
                at: faulted.at,
                fault: faulted.fault,
            },
            None => furthest_answer(furthest),
        }
    }

    /// Returns the answer of a finished search for an interleaving that is not true to its end: the interleaving that
    /// the search kept, if there is one.
    pub(crate) fn into_every_answer(self) -> EveryAnswer<F>
        ensures { MatchOption self.best.fault
            (MatchOption self.best.furthest (result ≡ EveryAnswer.All)
            (λ x. result ≡ EveryAnswer.Not x.word x.at stop.False))
            (λ f. result ≡ EveryAnswer.Not f.word f.at (stop.Fault f.fault)) }
    {
        match (self.best.fault, self.best.furthest) {
            (Some(FaultedInterleaving { word, at, fault }), _) => EveryAnswer::Not {
                word,
                at,
                why: StopReason::Fault(fault),
            },
            (None, Some(FalseInterleaving { word, at })) => EveryAnswer::Not {
                word,
                at,
                why: StopReason::False,
            },
            (None, None) => EveryAnswer::All,
        }
    }
}

/// The answer of a search in which no interleaving is true to its end and none faults.
fn furthest_answer<F: Drop>(furthest: Option<FalseInterleaving>) -> SomeAnswer<F>
    requires { MatchOption furthest ⊥ (λ _. Unit {0}) }
    ensures { MatchOption furthest ⊥ (λ x. result ≡ SomeAnswer.Nothing x.at x.word) }
{
    match furthest {
        Some(FalseInterleaving { word, at }) => SomeAnswer::Nothing { far: at, word },
        None => unreachable!(),
    }
}

/// Whether `at` true events are more than those of the furthest interleaving so far.
fn is_further(at: usize, furthest: &Option<FalseInterleaving>) -> bool
    ensures { result ≡ spec.is_further at furthest.now }
{
    match furthest {
        Some(merge) => merge.at < at,
        None => true,
    }
}

/// Whether no command is left.
pub(crate) fn are_all_branches_done(lengths: &[usize], done: &[usize]) -> bool
    requires { length done.now ≡ length lengths.now }
    ensures { MatchBool result ((b : ℕ) → slice_index lengths.now b ≤ slice_index done.now b)
        ((b : ℕ) × (slice_index done.now b < slice_index lengths.now b)) }
{
    for branch in 0..lengths.len() {
        if done[branch] < lengths[branch] {
            return false;
        }
    }
    true
}

/// The first open branch that has a command left.
fn first_open_branch<O: Order>(order: &O, lengths: &[usize], done: &[usize]) -> Option<usize>
    requires { length done.now ≡ length lengths.now }
    ensures { MatchOption result (IsNoneOpen (O.order order.now) lengths.now done.now)
        (IsFirstOpen (O.order order.now) lengths.now done.now) }
{
    for branch in 0..lengths.len() {
        if done[branch] < lengths[branch] && order.is_open(done, branch) {
            return Some(branch);
        }
    }
    None
}

/// The word, followed by the commands that are left, each time the next one of the first open branch.
fn complete_interleaving_in_order<O: Order>(
    order: &O,
    lengths: &[usize],
    done: Vec<usize>,
    word: Vec<usize>,
) -> Result<Vec<usize>, AllocError>
    requires place { IsAt lengths.now done.items }
    requires progress { NeverBlocks (O.order order.now) lengths.now }
    ensures { IfOk result (λ v. (letters : List ℕ)
        × IsFilled (O.order order.now) lengths.now done.items letters
        × (v.items ≡ word.items ++ letters)) }
{
    let mut whole = word;
    let mut done = done;
    while let Some(branch) = first_open_branch(order, lengths, &done) {
        whole.push(branch)?;
        done[branch] += 1;
    }
    Ok(whole)
}

/// Runs the rest after the word, which is a whole interleaving, and returns whether the search is for it. If it is not
/// true to its end, the search notes where it stops. Each clause is a fact on one of the things that the search keeps.
pub(crate) fn run_rest_and_check_goal<S: Steps, O: Order>(
    alloc: Global,
    steps: &S,
    order: &O,
    lengths: &[usize],
    goal: Goal,
    search: &mut SearchProgress<S::Fault>,
    state: &S::State,
) -> Result<bool, AllocError>
    requires place { IsAt lengths.now search.old.done.items }
    requires ended { (b : ℕ) → slice_index lengths.now b ≤ slice_index search.old.done.items b }
    requires state { S.is_state steps.now state.now }
    requires room { length search.old.word.items + S.most_rest steps.now < 2 ^ 64 }
    requires fresh { IsFresh goal search.old.best }
    requires progress { NeverBlocks (O.order order.now) lengths.now }
    ensures steps { OnOk result (search.new.steps ≤ search.old.steps + S.most_rest steps.now) }
    ensures explored { IfOk result (IsExplored (S.outcome steps.now) (S.rest steps.now) goal state.now
        (Extends (O.order order.now) lengths.now search.old.done.items) search.old search.new) }
{
    let (ending, made) = steps.run_rest(alloc, state)?;
    search.steps = search.steps.saturating_add(made);
    match ending {
        Ending::AllTrue => Ok(!goal.wants_stopped_interleaving()),
        Ending::StopsAt(at, why) => {
            let at = search.word.len() + at;
            search.note_stop_if_first_or_furthest(alloc, order, lengths, at, why)?;
            Ok(goal.wants_stopped_interleaving())
        }
    }
}
