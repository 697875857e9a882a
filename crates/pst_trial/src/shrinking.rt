//! Which trial is shrunk, and how far.

use std::sync::atomic::{AtomicU64, Ordering};

/// More candidates than are driven while one case is shrunk.
const MORE_CANDIDATES: u64 = 1_000_000;

/// Which trial is shrunk, and how many candidates it has driven, for another thread to look at.
///
/// Of several trials that are shrunk at once, it names the one that began last.
#[derive(Drop)]
pub struct ShrinkProgress {
    /// One number for the trial and its candidates, by `pack_shrink_progress`. 0 if no trial is shrunk.
    packed: AtomicU64,
}

/// One number for a trial that is shrunk and for how many candidates it has driven. It is not 0.
fn pack_shrink_progress(trial: u64, driven: u64) -> u64 {
    let above = trial.saturating_add(1).saturating_mul(MORE_CANDIDATES);
    above.saturating_add(driven % MORE_CANDIDATES)
}

/// What `pack_shrink_progress` made a number of: the trial and its candidates. Nothing if the number is 0.
fn unpack_shrink_progress(packed: u64) -> Option<(u64, u64)> {
    let trial = (packed / MORE_CANDIDATES).checked_sub(1)?;
    Some((trial, packed % MORE_CANDIDATES))
}

impl ShrinkProgress {
    /// No trial is shrunk.
    pub fn new() -> ShrinkProgress {
        ShrinkProgress {
            packed: AtomicU64::new(0),
        }
    }

    /// The trial that is shrunk, and how many candidates it has driven. Nothing if no trial is shrunk.
    pub fn shrinking_trial_and_candidate_count(&self) -> Option<(u64, u64)> {
        unpack_shrink_progress(self.packed.load(Ordering::SeqCst))
    }

    /// Whether this trial is named as the one that is shrunk.
    fn is_shrinking(&self, trial: u64) -> bool {
        match self.shrinking_trial_and_candidate_count() {
            Some((named, _)) => named == trial,
            None => false,
        }
    }

    /// A candidate of a trial is driven next, after `driven` others. Does nothing if another trial is named and
    /// `driven` is not 0.
    pub fn show_candidate_unless_superseded(&self, trial: u64, driven: u64) {
        if driven == 0
            || self.shrinking_trial_and_candidate_count().is_none()
            || self.is_shrinking(trial)
        {
            self.packed
                .store(pack_shrink_progress(trial, driven), Ordering::SeqCst);
        }
    }

    /// A trial has ended. If another is shrunk meanwhile, it is named at its next candidate.
    pub fn clear_progress_if_of_trial(&self, trial: u64) {
        if self.is_shrinking(trial) {
            self.packed.store(0, Ordering::SeqCst);
        }
    }
}
