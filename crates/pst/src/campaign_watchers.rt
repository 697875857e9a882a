//! A line on a terminal that displays the progress of a campaign, and who watches the campaign for it.

use crate::item_progress::{DisplayedRate, ProgressDisplay};
use crate::stop_signals::{SideTask, SideThread};
use pst_campaign::{StopCondition, Watch, did_not_pass};
use pst_ledger::Cause;
use pst_trial::{Record, ShrinkProgress};
use std::alloc::Global;
use std::fmt;
use std::sync::atomic::{AtomicU64, Ordering};
use std::sync::{Arc, Wait};
use std::thread::Threads;

/// How many milliseconds pass before the line is written again.
const PAUSE: u64 = 250;

/// The results of the trials so far, and which trial is shrunk.
#[derive(Drop)]
pub struct CampaignProgress {
    /// How many trials there are.
    all: u64,
    done: AtomicU64,
    failed: AtomicU64,
    lost: AtomicU64,
    shrinking: ShrinkProgress,
}

/// The trials that have ended at a time, in milliseconds after the beginning.
#[derive(Clone, Copy, Drop)]
struct LastTrialEnd {
    count: u64,
    milliseconds: u64,
}

impl LastTrialEnd {
    /// Returns how many seconds `left` trials take, `milliseconds` after the beginning, at the rate up to the
    /// last trial that ended. `None` if more time has passed since then.
    fn estimated_seconds_left(self, left: u64, milliseconds: u64) -> Option<u64> {
        let all = left
            .saturating_mul(self.milliseconds)
            .checked_div(self.count)?;
        let since = milliseconds.saturating_sub(self.milliseconds);
        Some(all.checked_sub(since)? / 1000)
    }
}

/// How long a campaign will take, at the end of its line. Nothing is written if that is not known.
#[derive(Clone, Copy, Drop)]
struct TimeLeft {
    seconds: Option<u64>,
}

impl fmt::Display for TimeLeft {
    fn fmt<W: fmt::Write>(&self, f: &mut fmt::Formatter<W>) -> fmt::Result {
        match self.seconds {
            Some(seconds) => write!(f, ", {seconds} s left"),
            None => Ok(()),
        }
    }
}

/// The word for this number of candidates.
fn candidate_or_candidates(driven: u64) -> &'static str {
    match driven {
        1 => "candidate",
        _ => "candidates",
    }
}

impl CampaignProgress {
    /// Returns the progress of a campaign of `all` trials, none of which has ended. `None` if an allocation fails.
    pub fn shared(alloc: Global, all: u64) -> Option<Arc<CampaignProgress, Global>> {
        let progress = CampaignProgress {
            all,
            done: AtomicU64::new(0),
            failed: AtomicU64::new(0),
            lost: AtomicU64::new(0),
            shrinking: ShrinkProgress::new(),
        };
        Arc::new(alloc, progress).ok()
    }

    /// Writes the line of a campaign in which no trial has ended. Nothing is known of the rate then.
    fn rewrite_line_before_first_trial_ends<R: Eprint>(&self, rt: &R) {
        let all = self.all;
        let Some((trial, driven)) = self.shrinking.shrinking_trial_and_candidate_count() else {
            let _ = eprint!(rt; "\r\x1b[K0 of {all} done");
            return;
        };
        let word = candidate_or_candidates(driven);
        let _ = eprint!(rt;
            "\r\x1b[K\x1b[?7l0 of {all} done, shrinking trial {trial}: {driven} {word}\x1b[?7h"
        );
    }

    /// Returns how many trials have ended, also lost ones.
    fn count_of_ended_trials(&self) -> u64 {
        let done = self.done.load(Ordering::SeqCst);
        done.saturating_add(self.lost.load(Ordering::SeqCst))
    }

    /// Writes the line. `milliseconds` is the time since the campaign began, and `last` is when the last trial ended. If
    /// the line cannot be written, the campaign continues.
    ///
    /// While a trial is shrunk, the terminal cuts the line off at its right edge.
    fn rewrite_progress_line_on_stderr<R: Eprint>(
        &self,
        rt: &R,
        last: LastTrialEnd,
        milliseconds: u64,
    ) {
        if last.count == 0 {
            return self.rewrite_line_before_first_trial_ends(rt);
        }
        let done = self.done.load(Ordering::SeqCst);
        let failed = self.failed.load(Ordering::SeqCst);
        let lost = self.lost.load(Ordering::SeqCst);
        let all = self.all;
        let DisplayedRate { number, unit } = DisplayedRate::from_count_and_milliseconds(
            last.count,
            milliseconds,
        );
        let left = TimeLeft {
            seconds: last.estimated_seconds_left(all.saturating_sub(last.count), milliseconds),
        };
        let Some((trial, driven)) = self.shrinking.shrinking_trial_and_candidate_count() else {
            let _ = eprint!(rt;
                "\r\x1b[K{done} of {all} done, {failed} failed, {lost} lost, {number} {unit}{left}"
            );
            return;
        };
        let word = candidate_or_candidates(driven);
        let _ = eprint!(rt;
            "\r\x1b[K\x1b[?7l{done} of {all} done, {failed} failed, {lost} lost, shrinking trial {trial}: {driven} {word}, {number} {unit}{left}\x1b[?7h"
        );
    }

    /// Counts a trial that has ended.
    fn count_trial(&self, ended: &Result<Record, Cause>) {
        match ended {
            Ok(record) => {
                self.done.fetch_add(1, Ordering::SeqCst);
                if did_not_pass(record) {
                    self.failed.fetch_add(1, Ordering::SeqCst);
                }
            }
            Err(_) => {
                self.lost.fetch_add(1, Ordering::SeqCst);
            }
        }
    }
}

/// What the thread that writes the line knows.
#[derive(Drop)]
struct CampaignProgressLine {
    progress: Arc<CampaignProgress, Global>,
    last: LastTrialEnd,
}

impl SideTask for CampaignProgressLine {
    fn pause(&self) -> u64 {
        PAUSE
    }

    fn turn<R: Eprint>(&mut self, rt: &R, milliseconds: u64) {
        let count = self.progress.count_of_ended_trials();
        if count != self.last.count {
            self.last = LastTrialEnd {
                count,
                milliseconds,
            };
        }
        self.progress
            .rewrite_progress_line_on_stderr(rt, self.last, milliseconds);
    }

    fn end<R: Eprint>(&self, rt: &R) {
        let _ = eprint!(rt; "\r\x1b[K");
    }
}

/// Begins the display of a progress, if there is one, and memory and a thread for it.
pub fn begin_campaign_display<'a, R: Threads + Wait + Eprint + Copy + Drop + Send + 'static>(
    rt: &'a R,
    alloc: Global,
    progress: &Option<Arc<CampaignProgress, Global>>,
) -> ProgressDisplay<'a, R> {
    if let Some(progress) = progress
        && let Ok(own) = Arc::try_clone(progress)
    {
        let line = CampaignProgressLine {
            progress: own,
            last: LastTrialEnd {
                count: 0,
                milliseconds: 0,
            },
        };
        return ProgressDisplay::of_thread(rt, SideThread::start(rt, alloc, line));
    }
    ProgressDisplay::of_thread(rt, None)
}

/// One who counts the trials of a campaign for the line that displays them, if there is one, and ends the campaign where
/// `ending` does.
#[derive(Drop)]
pub struct CampaignWatch<K> {
    pub progress: Option<Arc<CampaignProgress, Global>>,
    pub ending: K,
}

impl<K: Watch> Watch for CampaignWatch<K> {
    fn trial_ended(&self, ended: &Result<Record, Cause>) {
        if let Some(progress) = &self.progress {
            progress.count_trial(ended);
        }
        self.ending.trial_ended(ended);
    }

    fn shrink_progress(&self) -> Option<&ShrinkProgress> {
        match &self.progress {
            Some(progress) => Some(&progress.shrinking),
            None => None,
        }
    }

    fn campaign_ended(&self) {
        self.ending.campaign_ended();
    }
}

impl<K: StopCondition> StopCondition for CampaignWatch<K> {
    ghost may_end = { λ watch. K.may_end watch.ending };

    fn is_campaign_over(&self) -> bool {
        self.ending.is_campaign_over()
    }
}
