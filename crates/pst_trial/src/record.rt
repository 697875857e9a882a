//! Records of trials: the outcome of each, and its histories with their verdicts.
ghost use Rattle.std.specs.Prelude.{◌≡◌};
ghost use Rattle.std.specs.Arc.{arc_value};
ghost use Rattle.pst_trial.specs.JudgedRuns.{is_explained};

use crate::plan::Plan;
use pst_case::{Case, History};
use pst_eval::FaultPlace;
use pst_judge::Verdict;
use pst_ledger::Numbered;
use pst_shrink::Shrunk;
use pst_value::Items;
use std::marker::Model;
use std::sync::Arc;

/// The result of a trial of a plan. Only a trial makes one, and it is sound by its data alone: no system is named.
/// Contracts see it as the plan, the number and the outcome.
#[derive(Drop)]
pub struct Record {
    plan: Arc<Plan>,
    number: u64,
    outcome: TrialOutcome,
}

impl Model for Record {
    ghost use Rattle.std.specs.Arc.{arc_value};
    ghost use Rattle.pst_trial.specs.RecordView.{RecordView, record_view_code};
    ghost use Rattle.pst_trial.specs.Sound.{IsSound};

    ghost Value = { RecordView };

    ghost coded = { record_view_code };

    ghost view = { λ r. record { plan = arc_value r.plan; number = r.number; outcome = r.outcome } };

    ghost invariant = { λ r. IsSound (arc_value r.plan) r.number r.outcome };
}

impl Record {
    ghost use Rattle.pst_trial.specs.Sound.{IsSound};

    /// Makes the record of a trial.
    pub(crate) fn new(plan: Arc<Plan>, number: u64, outcome: TrialOutcome) -> Record
        requires { IsSound (arc_value plan) number outcome }
        ensures { result ≡ record { plan = arc_value plan; number = number; outcome = outcome } }
    {
        Record {
            plan,
            number,
            outcome,
        }
    }

    /// The number of the trial.
    pub fn number(&self) -> u64
        ensures { result ≡ self.now.number }
    {
        self.number
    }

    /// The plan of the trial.
    pub fn plan(&self) -> &Plan
        ensures { result.now ≡ self.now.plan }
    {
        &self.plan
    }

    /// The outcome of the trial.
    pub fn outcome(&self) -> &TrialOutcome
        ensures same { result.now ≡ self.now.outcome }
        ensures sound { IsSound self.now.plan self.now.number self.now.outcome }
    {
        &self.outcome
    }
}

impl Numbered for Record {
    ghost number_of = { λ r. r.number };

    fn number(&self) -> u64 {
        self.number
    }
}

/// The outcome of a trial.
#[derive(Debug, Drop)]
pub enum TrialOutcome {
    /// No case was generated, since a callback faults at this place.
    GenFaulted(FaultPlace),
    /// The case was driven `repeats` times, a setting of the plan, and each history is explained.
    Passed {
        /// The case of the trial.
        case: Case,
        /// Its runs, in order.
        runs: Items<JudgedRun>,
    },
    /// A history of the case is not explained, and the case was shrunk.
    Failed {
        /// The runs before that one, in order. Each is explained.
        earlier: Items<JudgedRun>,
        /// How the case was shrunk. The first case is the one of the trial, with the run that is not
        /// explained.
        shrunk: Shrunk<JudgedRun>,
    },
}

/// A history of a case, with its verdict.
#[derive(Debug, Drop)]
pub struct JudgedRun {
    /// What was recorded when the case was driven.
    pub history: History,
    /// The verdict on the history.
    pub verdict: Verdict,
}

impl JudgedRun {
    /// Whether the verdict is `Explained`.
    pub fn is_explained(&self) -> bool
        ensures { result ≡ is_explained self.now.verdict }
    {
        matches!(self.verdict, Verdict::Explained(_))
    }
}
