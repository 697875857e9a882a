//! The system that a search steps through, and the results of its steps and of the search.
ghost use Rattle.std.specs.Hash.{HashWrites};
ghost use Rattle.std.specs.Prelude.{◌≡◌, ◌≤◌, ℕ, IfOk, MatchBool, true};
ghost use Rattle.pst_grid.specs.declared.steps.Ending.{Ending};
ghost use Rattle.pst_grid.specs.declared.steps.Ending.TheVariants.{AllTrue};
ghost use Rattle.pst_grid.specs.declared.steps.StepOutcome.{StepOutcome};
ghost use Rattle.pst_grid.specs.StepOutcomes.{OnNext, OnStop};

use std::alloc::{AllocError, Global};
use std::hash::Hash;

/// States, the step of each command of each branch from a state, and the rest that follows when all branches have
/// ended. The step and the rest are functions of their arguments.
///
/// A search remembers the states that it has met. It keeps each in a form that the caller chooses, which may be smaller
/// than the state itself.
pub trait Steps {
    /// A state: plain data. `==` distinguishes any two that differ.
    type State: Eq + Drop;

    /// A state as a search remembers it.
    type Kept: Eq + Hash + Drop;

    /// Why an event faults.
    type Fault: Drop;

    // The states that `step` accepts.
    ghost is_state: { Self → Self.State → Type 0 };

    // The commands that `step` accepts, by branch and index.
    ghost is_command: { Self → ℕ → ℕ → Type 0 };

    // The outcome of the step of a branch's command, by its index, from a state.
    ghost outcome: { Self → Self.State → ℕ → ℕ → StepOutcome Self.State Self.Fault };

    // How the run ends from a state in which all branches have ended.
    ghost rest: { Self → Self.State → Ending Self.Fault };

    // The most steps that the rest takes.
    ghost most_rest: { Self → ℕ };

    // The state that is kept.
    ghost state_of: { Self.Kept → Self.State };

    // What a hasher is fed of a state.
    ghost fed: { Self.State → HashWrites };

    /// Steps from this state by the command `index` (from 0) of the branch `branch` (from 0).
    fn step(
        &self,
        alloc: Global,
        state: &Self::State,
        branch: usize,
        index: usize,
    ) -> Result<StepOutcome<Self::State, Self::Fault>, AllocError>
        requires state { is_state self.now state.now }
        requires command { is_command self.now branch index }
        ensures answer { IfOk result (λ t. t ≡ outcome self.now state.now branch index) }
        ensures next { IfOk result (λ t. OnNext t (is_state self.now)) };

    /// Runs the rest, which follows when all branches have ended, from this state. Returns how it ends, and how many
    /// steps it took.
    fn run_rest(
        &self,
        alloc: Global,
        state: &Self::State,
    ) -> Result<(Ending<Self::Fault>, usize), AllocError>
        requires state { is_state self.now state.now }
        ensures ending { IfOk result (λ r. r.0 ≡ rest self.now state.now) }
        ensures place { IfOk result (λ r. OnStop r.0 (λ at. at ≤ most_rest self.now)) }
        ensures steps { IfOk result (λ r. r.1 ≤ most_rest self.now) };

    /// Whether a rest follows when all branches have ended. If not, each run that comes this far is true to its end.
    fn has_rest(&self) -> bool
        ensures { MatchBool result (Unit {0}) ((s : Self.State) → rest self.now s ≡ AllTrue) };

    /// The state as a search remembers it.
    fn keep(&self, alloc: Global, state: &Self::State) -> Result<Self::Kept, AllocError>
        ensures { IfOk result (λ kept. state_of kept ≡ state.now) };

    // Equal states are the same state.
    ghost exact: { (a b : Self.State) → Self.State.eq a b ≡ true → a ≡ b };

    // Two kept states compare like the states.
    ghost same: { (a b : Self.Kept) → Self.Kept.eq a b ≡ Self.State.eq (state_of a) (state_of b) };

    // A kept state feeds a hasher what the state does.
    ghost feeds: { (k : Self.Kept) → Self.Kept.hash_input k ≡ fed (state_of k) };
}

/// Why a run stops before its end.
#[derive(Debug, PartialEq, Eq, Drop)]
pub enum StopReason<F> {
    /// The event is false.
    False,
    /// The event faults.
    Fault(F),
}

/// The outcome of a step.
#[derive(Debug, PartialEq, Eq, Drop)]
pub enum StepOutcome<S, F> {
    /// The event is true, and this is the state after it.
    Next(S),
    /// The run stops here.
    Stop(StopReason<F>),
}

/// How the run of an interleaving, or of the rest after it, ends.
#[derive(Debug, PartialEq, Eq, Drop)]
pub enum Ending<F> {
    /// All events are true.
    AllTrue,
    /// The run stops after this many true events.
    StopsAt(usize, StopReason<F>),
}

/// The result of a search for an interleaving that is true to its end. A `word` is an interleaving: it has one letter
/// for each command of all branches, the number of the branch, from 0, whose next command it is.
#[derive(Debug, PartialEq, Eq, Drop)]
pub enum SomeAnswer<F> {
    /// The first interleaving that is true to its end.
    Found {
        word: Vec<usize>,
    },
    /// No interleaving is true to its end. This is the first that faults, after `at` true events.
    Faulted {
        word: Vec<usize>,
        at: usize,
        fault: F,
    },
    /// No interleaving is true to its end and none faults. `far` is the highest number of true events before a false
    /// one, including those of the rest, and `word` is the first interleaving with this number.
    Nothing {
        far: usize,
        word: Vec<usize>,
    },
}

/// The result of a search for an interleaving that is not true to its end.
#[derive(Debug, PartialEq, Eq, Drop)]
pub enum EveryAnswer<F> {
    /// Each interleaving is true to its end.
    All,
    /// The first interleaving that is not true to its end. It stops after `at` true events.
    Not {
        word: Vec<usize>,
        at: usize,
        why: StopReason<F>,
    },
}
