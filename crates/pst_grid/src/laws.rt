//! Laws of runs and of bounds.
ghost use Rattle.std.specs.Prelude.{ℕ};
ghost use Rattle.pst_grid.specs.Laws.{IsTrueByEvents, MakesFewSteps, RunsAlone};
ghost use Rattle.pst_grid.specs.declared.steps.Ending.{Ending};
ghost use Rattle.pst_grid.specs.declared.steps.StepOutcome.{StepOutcome};

/// If nothing follows the branches, the run of a word is its run alone.
pub fn run_without_rest_is_interleaving_alone<S, F>()
    ensures { (turn : S → ℕ → ℕ → StepOutcome S F) (rest : S → Ending F) → RunsAlone turn rest }
{}

/// If nothing follows the branches, the run of a word is all true exactly if the event of each letter is.
pub fn run_is_true_if_all_events_are<S, F>()
    ensures { (turn : S → ℕ → ℕ → StepOutcome S F) (rest : S → Ending F) → IsTrueByEvents turn rest }
{}

/// If no step changes the state, a search makes at most one step per branch for each place, plus those of the rest
/// once. The number of places is the product of each length plus one.
pub fn few_steps_if_state_never_changes<S, F>()
    ensures { (turn : S → ℕ → ℕ → StepOutcome S F) → MakesFewSteps turn }
{}
