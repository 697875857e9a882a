//! A campaign that has ended: its plan and its trials, and what they hold beside the report.
ghost use Rattle.std.specs.Prelude.{◌≡◌, IfOk, IfSome, length};
ghost use Rattle.std.specs.Arc.{arc_value};
ghost use Rattle.std.specs.List.{count_by, list_any};
ghost use Rattle.std.specs.Option.{is_some};
ghost use Rattle.pst_cli.specs.CampaignCalls.{has_call_in_entry};
ghost use Rattle.pst_cli.specs.CampaignFailures.{AreLosses, IsFailingRun, IsSmallestIfAny, number_in};
ghost use Rattle.pst_cli.specs.CampaignView.{IsComplete};
ghost use Rattle.pst_report.specs.Distinct.{AreDistinctFailures};
ghost use Rattle.pst_report.specs.Least.{failure_in, least_fault, of_record};
ghost use Rattle.pst_report.specs.UnknownOutcomes.{ended_count, uncertain_count};

use crate::campaign_calls::has_call_in_entries;
use crate::failing_run::{TrialFailure, count_failed_trials};
use crate::losses::{LostTrials, lost_trials_by_cause};
use crate::smallest::smallest_failure_of;
use pst_ledger::{Closed, Entry};
use pst_report::{
    NumberedFailure, count_ended_trials, count_trials_with_unknown_outcomes, distinct_failures,
    first_trial_with_generation_fault,
};
use pst_trial::{Plan, Record};
use std::alloc::{AllocError, Global};
use std::marker::Model;
use std::sync::Arc;

/// A campaign that has ended: its plan, and the entry of each of its trials. Contracts see it as these two.
#[derive(Drop)]
pub struct CampaignEnd {
    plan: Arc<Plan>,
    closed: Closed<Record>,
}

impl Model for CampaignEnd {
    ghost use Rattle.std.specs.Arc.{arc_value};
    ghost use Rattle.std.specs.Coded.{codes};
    ghost use Rattle.pst_cli.specs.CampaignView.{CampaignView, IsComplete};
    ghost use Rattle.pst_trial.specs.PlanView.{plan_view_code};
    ghost use Rattle.pst_trial.specs.RecordView.{record_view_code};

    ghost Value = { CampaignView };

    ghost coded = { Prim.hlevel (codes, plan_view_code, record_view_code) };

    ghost view = { λ e. record { plan = arc_value e.plan; entries = e.closed } };

    ghost invariant = { λ e. IsComplete (record { plan = arc_value e.plan; entries = e.closed }) };
}

impl CampaignEnd {
    /// The end of a campaign by a plan.
    pub(crate) fn new(plan: Arc<Plan>, closed: Closed<Record>) -> CampaignEnd
        requires { IsComplete (record { plan = arc_value plan; entries = closed }) }
        ensures { result ≡ record { plan = arc_value plan; entries = closed } }
    {
        CampaignEnd { plan, closed }
    }

    /// The plan.
    pub fn plan(&self) -> &Plan
        ensures { result.now ≡ self.now.plan }
    {
        &self.plan
    }

    /// The list of what came of each trial.
    pub(crate) fn closed(&self) -> &Closed<Record>
        ensures same { result.now ≡ self.now.entries }
        ensures complete { IsComplete self.now }
    {
        &self.closed
    }

    /// What came of each trial.
    pub fn entries(&self) -> &[Entry<Record>]
        ensures same { result.now ≡ self.now.entries }
        ensures complete { IsComplete self.now }
    {
        self.closed.entries()
    }

    /// The failures, each shrunk case once.
    pub fn distinct_failures(&self, alloc: Global) -> Result<Vec<NumberedFailure>, AllocError>
        ensures { IfOk result (λ failures. AreDistinctFailures self.now.entries failures.items) }
    {
        distinct_failures(alloc, self.entries())
    }

    /// How many trials failed.
    pub fn count_failures(&self) -> usize
        ensures { result ≡ count_by (λ e. is_some (of_record failure_in e)) self.now.entries }
    {
        count_failed_trials(self.entries())
    }

    /// How many trials had calls of unknown outcome in their recorded runs.
    pub fn count_trials_with_unknown_outcomes(&self) -> usize
        ensures { result ≡ uncertain_count self.now.entries }
    {
        count_trials_with_unknown_outcomes(self.entries())
    }

    /// How many trials were run to their end: neither lost nor undrawn.
    pub fn count_ended_trials(&self) -> usize
        ensures { result ≡ ended_count self.now.entries }
    {
        count_ended_trials(self.entries())
    }

    /// Whether a call was made in a run of its trials. If not, the campaign has tested nothing.
    pub fn has_call(&self) -> bool
        ensures { result ≡ list_any has_call_in_entry self.now.entries }
    {
        has_call_in_entries(self.entries())
    }

    /// The failure whose shrunk case has the fewest commands; of several the one with the fewest calls of unknown outcome, and
    /// of several such the one with the lowest number.
    pub fn smallest_failure(&self) -> Option<TrialFailure<'_>>
        ensures smallest { IsSmallestIfAny (length self.now.entries) self.now.entries result }
        ensures failing { IfSome result (λ f. IsFailingRun self.now.plan f.shrunk.now.last) }
    {
        smallest_failure_of(&self.plan, self.entries())
    }

    /// The number of the first trial whose case could not be generated, from 0.
    pub fn first_trial_without_case(&self) -> Option<usize>
        ensures { result ≡ number_in (least_fault 0 self.now.entries) }
    {
        match first_trial_with_generation_fault(self.entries()) {
            Some((number, _)) => Some(number),
            None => None,
        }
    }

    /// The trials that were lost, for each cause that one was lost for.
    pub fn lost_trials(&self, alloc: Global) -> Result<Vec<LostTrials>, AllocError>
        ensures { IfOk result (λ losses. AreLosses self.now.entries losses.items) }
    {
        lost_trials_by_cause(alloc, self.entries())
    }
}
