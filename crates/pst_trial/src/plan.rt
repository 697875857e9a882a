//! Plans, which trials go by, and their settings.
ghost use Rattle.std.specs.Prelude.{◌≡◌, MatchResult, ◌↔◌, IsTrue};
ghost use Rattle.pst_trial.specs.Settings.{AreInRange};

use pst_compile::{Compiled, compile};
use pst_judge::CallOrder;
use pst_model::Typed;
use std::alloc::{AllocError, Global};
use std::marker::Model;

/// A well-typed model, compiled, with the settings of its trials, which are in their ranges. Contracts see it
/// as the model and the settings.
#[derive(Drop)]
pub struct Plan {
    compiled: Compiled,
    settings: Settings,
}

impl Model for Plan {
    ghost use Rattle.pst_trial.specs.PlanView.{PlanView, plan_view_code};
    ghost use Rattle.pst_trial.specs.Settings.{AreInRange};

    ghost Value = { PlanView };

    ghost coded = { plan_view_code };

    ghost view = { λ p. record { model = p.compiled; settings = p.settings } };

    ghost invariant = { λ p. AreInRange p.settings };
}

impl Plan {
    ghost use Rattle.pst_trial.specs.Settings.{AreInRange};

    /// Compiles a model, and returns a plan for its trials. `AllocError`, with the model handed back, if
    /// compilation fails.
    pub fn new(alloc: Global, typed: Typed, settings: Settings) -> Result<Plan, (Typed, AllocError)>
        requires ranges { AreInRange settings }
        ensures plan { MatchResult result
            (λ plan. plan ≡ record { model = typed; settings = settings })
            (λ refused. refused.0 ≡ typed) }
    {
        match compile(alloc, typed) {
            Ok(compiled) => Ok(Plan { compiled, settings }),
            Err(refused) => Err(refused),
        }
    }

    /// The model.
    pub fn typed(&self) -> &Typed
        ensures { result.now ≡ self.now.model }
    {
        self.compiled.typed()
    }

    /// The callbacks of the model.
    pub(crate) fn compiled(&self) -> &Compiled
        ensures { result.now ≡ self.now.model }
    {
        &self.compiled
    }

    /// The settings.
    pub fn settings(&self) -> &Settings
        ensures same { result.now ≡ self.now.settings }
        ensures ranges { AreInRange self.now.settings }
    {
        &self.settings
    }
}

/// The maximum number of trials of a plan.
pub const MAX_TRIALS: u32 = 100_000;

/// The maximum number of commands of a script.
pub const MAX_COMMANDS: u32 = 64;

/// The maximum number of branches of a case.
pub const MAX_BRANCHES: u32 = 4;

/// The maximum number of commands of a suffix.
pub const MAX_SUFFIX: u32 = 8;

/// The maximum number of drives of one case.
pub const MAX_REPEATS: u32 = 20;

/// The maximum number of cases that are driven while one is shrunk.
pub const MAX_LIMIT: u32 = 10_000;

/// The settings of a plan.
#[derive(Clone, Copy, Debug, PartialEq, Eq, Drop)]
pub struct Settings {
    /// The seed of the random words. Each trial draws its own, by its number.
    pub seed: u64,
    /// How many trials there are, at most 100,000.
    pub trials: u32,
    /// The maximum number of commands of a script, 1 to 64.
    pub commands: u32,
    /// How many branches run at once, 1 to 4. With 1 no command runs in a branch.
    pub branches: u32,
    /// The maximum number of commands of the suffix, at most 8.
    pub suffix: u32,
    /// How many times a case is driven while its histories are explained, 1 to 20.
    pub repeats: u32,
    /// The maximum number of cases that are driven while one is shrunk, at most 10,000.
    pub limit: u32,
    /// Which interleavings may explain a history, by default any. With `CallOrder::Time` each drive records the times of
    /// its calls.
    pub order: CallOrder,
}

impl Default for Settings {
    ghost use Rattle.std.specs.Prelude.{◌≡◌};
    ghost use Rattle.pst_trial.specs.Settings.{AreInRange, default_settings};

    ghost is_default = { λ s. (s ≡ default_settings) × AreInRange s };

    fn default() -> Settings {
        Settings {
            seed: 0,
            trials: 100,
            commands: 16,
            branches: 2,
            suffix: 0,
            repeats: 5,
            limit: 1_000,
            order: CallOrder::Any,
        }
    }
}

impl Settings {
    /// Whether each setting is in its range.
    pub fn are_in_range(&self) -> bool
        ensures { IsTrue result ↔ AreInRange self.now }
    {
        self.trials <= MAX_TRIALS
            && 1 <= self.commands
            && self.commands <= MAX_COMMANDS
            && 1 <= self.branches
            && self.branches <= MAX_BRANCHES
            && self.suffix <= MAX_SUFFIX
            && 1 <= self.repeats
            && self.repeats <= MAX_REPEATS
            && self.limit <= MAX_LIMIT
    }
}
