//! Those who watch a campaign while it runs, and those who end it before all its trials have run.

use pst_ledger::Cause;
use pst_trial::{Record, ShrinkProgress, TrialOutcome};
use std::sync::atomic::{AtomicU64, Ordering};

/// One who watches a campaign while it runs. It changes nothing of what the campaign gives.
pub trait Watch {
    /// A trial has ended, with its record or lost for a cause. The thread that ran the trial calls this.
    fn trial_ended(&self, ended: &Result<Record, Cause>);

    /// Returns the counter of the candidates of the trial that is shrunk, if the watcher displays them.
    fn shrink_progress(&self) -> Option<&ShrinkProgress> {
        None
    }

    /// The campaign is over, also if it ended early or never started. The thread that began the campaign calls this.
    fn campaign_ended(&self);
}

/// Nobody watches.
#[derive(Clone, Copy, Drop)]
pub struct Unwatched;

impl Watch for Unwatched {
    fn trial_ended(&self, _ended: &Result<Record, Cause>) {}

    fn campaign_ended(&self) {}
}

/// One who watches a campaign, and says whether it is over.
pub trait StopCondition: Watch {
    ghost use Rattle.std.specs.Prelude.{IsTrue};

    /// That it may end a campaign before all numbers are drawn.
    ghost may_end: { Self → Type 0 };

    /// Whether the campaign is over. A worker draws no number once it is, and trials that have begun are run to their end.
    fn is_campaign_over(&self) -> bool
        ensures { IsTrue result → may_end self.now };
}

/// One who watches a campaign whose trials all run.
#[derive(Clone, Copy, Drop)]
pub struct NeverStops<'a, K> {
    pub watch: &'a K,
}

impl<'a, K: Watch> Watch for NeverStops<'a, K> {
    fn trial_ended(&self, ended: &Result<Record, Cause>) {
        self.watch.trial_ended(ended);
    }

    fn shrink_progress(&self) -> Option<&ShrinkProgress> {
        self.watch.shrink_progress()
    }

    fn campaign_ended(&self) {
        self.watch.campaign_ended();
    }
}

impl<'a, K: Watch> StopCondition for NeverStops<'a, K> {
    ghost may_end = { λ _. ⊥ };

    fn is_campaign_over(&self) -> bool {
        false
    }
}

/// A signal that ends a campaign, as a file that appears when the user interrupts it.
pub trait Signal {
    ghost use Rattle.std.specs.Prelude.{IsTrue};

    /// That the signal may be given.
    ghost may_be_given: { Self → Type 0 };

    /// Whether the signal is given. A worker looks before it draws a number.
    fn is_given(&self) -> bool
        ensures { IsTrue result → may_be_given self.now };
}

/// A signal that is never given.
#[derive(Clone, Copy, Drop)]
pub struct NoSignal;

impl Signal for NoSignal {
    ghost may_be_given = { λ _. ⊥ };

    fn is_given(&self) -> bool {
        false
    }
}

/// Ends a campaign once some of its trials did not pass, or when a signal is given.
#[derive(Drop)]
pub struct EarlyStop<N> {
    /// How many trials that did not pass end the campaign, if there is a limit.
    most: Option<u64>,
    /// How many did not pass so far.
    failures: AtomicU64,
    signal: N,
}

impl<N: Signal> EarlyStop<N> {
    ghost use Rattle.std.specs.Prelude.{◌≡◌, IsTrue, IsSome};

    /// The end of a campaign in which no trial has ended.
    pub fn new(most: Option<u64>, signal: N) -> EarlyStop<N>
        ensures limit { result.most ≡ most }
        ensures signal { result.signal ≡ signal }
    {
        EarlyStop {
            most,
            failures: AtomicU64::new(0),
            signal,
        }
    }

    /// Whether enough trials did not pass for the campaign to be over.
    fn has_reached_limit(&self) -> bool
        ensures { IsTrue result → IsSome self.now.most }
    {
        match self.most {
            Some(most) => self.failures.load(Ordering::SeqCst) >= most,
            None => false,
        }
    }
}

/// Whether the record is one of a trial that did not pass.
pub fn did_not_pass(record: &Record) -> bool {
    match record.outcome() {
        TrialOutcome::Passed { .. } => false,
        TrialOutcome::Failed { .. } | TrialOutcome::GenFaulted(_) => true,
    }
}

impl<N: Signal> Watch for EarlyStop<N> {
    fn trial_ended(&self, ended: &Result<Record, Cause>) {
        if let Ok(record) = ended
            && did_not_pass(record)
        {
            self.failures.fetch_add(1, Ordering::SeqCst);
        }
    }

    fn campaign_ended(&self) {}
}

impl<N: Signal> StopCondition for EarlyStop<N> {
    ghost use Rattle.std.specs.Prelude.{◌⊎◌, IsSome};

    ghost may_end = { λ e. IsSome e.most ⊎ N.may_be_given e.signal };

    fn is_campaign_over(&self) -> bool {
        self.has_reached_limit() || self.signal.is_given()
    }
}
