//! Whole campaigns, and why one did not start.
ghost use Rattle.std.specs.Prelude.{◌≡◌, ◌≤◌, length, IfOk, IfErr};
ghost use Rattle.std.specs.Arc.{arc_value};
ghost use Rattle.pst_campaign.specs.Entries.{MayGive};
ghost use Rattle.pst_campaign.specs.Working.{AllGiven, AllGivenUnless, HasWorkers, IsCampaignFault};
ghost use Rattle.pst_campaign.specs.FaultName.{fault_name};

use crate::plans::WatchedPlan;
use crate::runner::Worker;
use crate::threads::run_workers_on_threads_or_here;
use crate::watch::{NeverStops, StopCondition, Watch};
use pst_ledger::{Closed, Ledger};
use pst_system::{BoxedSystem, System};
use pst_trial::{Plan, Record, prove_records_are_send_and_sync};
use std::alloc::{AllocError, Global};
use std::sync::{Arc, Wait};
use std::thread::Threads;
use thiserror::Error;

/// The maximum number of systems of a campaign.
const MAX_SYSTEMS: usize = 16;

/// Runs all trials, with one worker for each system, unless they are over before.
pub(crate) fn run_campaign_with_workers<
    S: Drop + Send,
    P: Worker<S> + Sync,
    H: Threads + Wait + Sync,
>(
    rt: &H,
    alloc: Global,
    plan: &P,
    trials: u64,
    systems: Vec<S>,
) -> Result<Closed<Record>, CampaignFault>
    requires { (trials ≤ 100000) × (trials ≡ P.trials plan.now) }
    ensures number { IfOk result (λ closed. HasWorkers (length systems.items)) }
    ensures count { IfOk result (λ closed. length closed ≡ trials) }
    ensures given { IfOk result (λ closed.
        AllGivenUnless (P.may_end plan.now) (P.may_give plan.now) systems.items closed) }
    ensures fault { IfErr result (IsCampaignFault (length systems.items)) }
{
    let workers = systems.len();
    if workers == 0 {
        return Err(CampaignFault::NoSystem);
    }
    if workers > MAX_SYSTEMS {
        return Err(CampaignFault::TooMany);
    }
    prove_records_are_send_and_sync();
    let (ledger, seats) = Ledger::open(alloc, trials, workers as u64)?;
    let worked = run_workers_on_threads_or_here(rt, alloc, plan, &ledger, seats, systems);
    match ledger.close(worked) {
        Ok(closed) => Ok(closed),
        Err(_) => unreachable!(),
    }
}

/// Runs all trials of a plan, with one worker for each system. Each worker has a thread of its own; one whose
/// thread cannot be started works on the calling thread. They share one ledger, and any worker may run any
/// trial. The systems are dropped at the end. The call waits for as long as the calls of the systems do.
/// `watch` is called for each trial that has ended, and once all have.
///
/// `NoSystem` if there is no system, and `TooMany` if there are more than 16: there is no report then.
/// `NoMemory` if an allocation fails before the first trial. A trial that has a fault leaves its number `Lost`.
pub fn campaign<K: Watch + Sync, H: Threads + Wait + Sync>(
    rt: &H,
    alloc: Global,
    plan: Arc<Plan>,
    systems: Vec<BoxedSystem>,
    watch: &K,
) -> Result<Closed<Record>, CampaignFault>
    ensures number { IfOk result (λ closed. HasWorkers (length systems.items)) }
    ensures count { IfOk result (λ closed. length closed ≡ (arc_value plan).settings.trials) }
    ensures given { IfOk result (AllGiven
        (λ s. MayGive ((System-box s).answers s.value) ((System-box s).fails s.value)
        ((System-box s).reset_fails s.value) (arc_value plan))
        systems.items) }
    ensures fault { IfErr result (IsCampaignFault (length systems.items)) }
{
    campaign_until(rt, alloc, plan, systems, &NeverStops { watch })
}

/// Does what [`campaign`] does until `ending` says that the campaign is over: no worker draws a number from then on, trials that
/// have begun are run to their end, and the numbers that were not drawn are `Undrawn`.
pub fn campaign_until<K: StopCondition + Sync, H: Threads + Wait + Sync>(
    rt: &H,
    alloc: Global,
    plan: Arc<Plan>,
    systems: Vec<BoxedSystem>,
    ending: &K,
) -> Result<Closed<Record>, CampaignFault>
    ensures number { IfOk result (λ closed. HasWorkers (length systems.items)) }
    ensures count { IfOk result (λ closed. length closed ≡ (arc_value plan).settings.trials) }
    ensures given { IfOk result (AllGivenUnless (K.may_end ending.now)
        (λ s. MayGive ((System-box s).answers s.value) ((System-box s).fails s.value)
        ((System-box s).reset_fails s.value) (arc_value plan))
        systems.items) }
    ensures fault { IfErr result (IsCampaignFault (length systems.items)) }
{
    let trials = plan.settings().trials as u64;
    prove_records_are_send_and_sync();
    let watched = WatchedPlan {
        plan: &plan,
        watch: ending,
    };
    let ended = run_campaign_with_workers(rt, alloc, &watched, trials, systems);
    ending.campaign_ended();
    ended
}

/// Why a campaign did not start.
#[derive(Clone, Copy, Debug, PartialEq, Eq, Drop, Error)]
pub enum CampaignFault {
    /// No system was handed in.
    #[error("there is no system")]
    NoSystem,
    /// More than 16 systems were handed in.
    #[error("there are more than 16 systems")]
    TooMany,
    /// An allocation failed.
    #[error("not enough memory")]
    NoMemory,
}

impl CampaignFault {
    /// The word for the fault.
    pub fn name(&self) -> &'static str
        ensures { result.now ≡ fault_name self.now }
    {
        match self {
            CampaignFault::NoSystem => "NoSystem",
            CampaignFault::TooMany => "TooMany",
            CampaignFault::NoMemory => "NoMemory",
        }
    }
}

impl From<AllocError> for CampaignFault {
    ghost use Rattle.std.specs.Prelude.{◌≡◌};
    ghost use Rattle.pst_campaign.specs.declared.campaigns.CampaignFault.TheVariants.{NoMemory};

    ghost from_gives = { λ _ e. e ≡ NoMemory };

    fn from(_refused: AllocError) -> CampaignFault {
        CampaignFault::NoMemory
    }
}
