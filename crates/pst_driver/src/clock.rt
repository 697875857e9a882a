//! The clock of a drive: when the calls of the branches were invoked and completed.
ghost use Rattle.std.specs.Prelude.{◌≡◌, true, IfOk, map};
ghost use Rattle.pst_case.specs.Times.{called};
ghost use Rattle.pst_case.specs.Unknown.{times_of_calls};
ghost use Rattle.pst_driver.specs.Progress.{IsSameButTimes};

use crate::waiting::StartBarrier;
use pst_case::{CallTime, History, MAX_BRANCH, Reply, count_called};
use pst_value::Items;
use std::alloc::{AllocError, Global};
use std::sync::atomic::{AtomicU64, Ordering};

/// The place for the times of one call.
#[derive(Drop)]
struct TimePlace {
    invoked: AtomicU64,
    /// 0 if nobody knows that the call completed. No call completes at 0, since it was invoked before.
    completed: AtomicU64,
}

impl TimePlace {
    /// A place that no call has filled.
    fn new() -> TimePlace {
        TimePlace {
            invoked: AtomicU64::new(0),
            completed: AtomicU64::new(0),
        }
    }

    /// The times of the call that filled the place last.
    fn time(&self) -> CallTime {
        CallTime {
            invoked: self.invoked.load(Ordering::SeqCst),
            completed: match self.completed.load(Ordering::SeqCst) {
                0 => None,
                completed => Some(completed),
            },
        }
    }
}

/// Places for the calls of one branch. The first `count` of them are filled.
#[derive(Drop)]
struct BranchTimes {
    count: AtomicU64,
    places: Vec<TimePlace>,
}

impl BranchTimes {
    /// No place.
    fn without_places(alloc: Global) -> BranchTimes {
        BranchTimes {
            count: AtomicU64::new(0),
            places: Vec::new(alloc),
        }
    }

    /// A place for each command that a branch may have, none of them filled.
    fn new(alloc: Global) -> Result<BranchTimes, AllocError> {
        let mut places = Vec::new(alloc);
        for _place in 0..MAX_BRANCH {
            places.push(TimePlace::new())?;
        }
        Ok(BranchTimes {
            count: AtomicU64::new(0),
            places,
        })
    }

    /// Fills the next place, if there is one. A `completed` of 0 says that nobody knows that the call completed.
    fn record(&self, invoked: u64, completed: u64) {
        let number = self.count.fetch_add(1, Ordering::SeqCst);
        if let Some(place) = self.places.get(number as usize) {
            place.invoked.store(invoked, Ordering::SeqCst);
            place.completed.store(completed, Ordering::SeqCst);
        }
    }

    /// The times of the first `count` places, or of all if there are fewer.
    fn times(&self, alloc: Global, count: usize) -> Result<Items<CallTime>, AllocError> {
        let mut times = Items::new(alloc);
        for place in self.places.iter().take(count) {
            times.push(place.time())?;
        }
        Ok(times)
    }
}

/// One counter for a drive, which its branches share, and places for the times of their calls. A call takes the
/// counter before it is made and after its answer, so of two calls that did not overlap the earlier one has the
/// smaller times.
#[derive(Drop)]
pub struct CallClock {
    counter: AtomicU64,
    first: BranchTimes,
    second: BranchTimes,
    third: BranchTimes,
    fourth: BranchTimes,
}

impl CallClock {
    /// A clock that has recorded nothing. It has its places from the start, so that recording allocates nothing.
    pub fn new(alloc: Global) -> Result<CallClock, AllocError> {
        Ok(CallClock {
            counter: AtomicU64::new(0),
            first: BranchTimes::new(alloc)?,
            second: BranchTimes::new(alloc)?,
            third: BranchTimes::new(alloc)?,
            fourth: BranchTimes::new(alloc)?,
        })
    }

    /// A clock that records nothing.
    fn without_places(alloc: Global) -> CallClock {
        CallClock {
            counter: AtomicU64::new(0),
            first: BranchTimes::without_places(alloc),
            second: BranchTimes::without_places(alloc),
            third: BranchTimes::without_places(alloc),
            fourth: BranchTimes::without_places(alloc),
        }
    }

    /// The places of branch `number`, which counts from 0.
    fn get(&self, number: u32) -> Option<&BranchTimes> {
        match number {
            0 => Some(&self.first),
            1 => Some(&self.second),
            2 => Some(&self.third),
            3 => Some(&self.fourth),
            _ => None,
        }
    }

    /// Sets the counter to 0, and forgets all times. No branch may be running.
    pub(crate) fn start(&self) {
        self.counter.store(0, Ordering::SeqCst);
        self.first.count.store(0, Ordering::SeqCst);
        self.second.count.store(0, Ordering::SeqCst);
        self.third.count.store(0, Ordering::SeqCst);
        self.fourth.count.store(0, Ordering::SeqCst);
    }

    /// Takes the counter, and adds one to it.
    fn tick(&self) -> u64 {
        self.counter.fetch_add(1, Ordering::SeqCst)
    }

    /// The times of the first `count` calls of branch `number`.
    fn times_of_branch(
        &self,
        alloc: Global,
        number: u32,
        count: usize,
    ) -> Result<Items<CallTime>, AllocError> {
        match self.get(number) {
            Some(branch) => branch.times(alloc, count),
            None => Ok(Items::new(alloc)),
        }
    }

    /// The times of as many calls of each branch as `counts` says.
    fn times_of_branches(
        &self,
        alloc: Global,
        counts: &[usize],
    ) -> Result<Items<Items<CallTime>>, AllocError> {
        let mut times = Items::new(alloc);
        let mut number = 0u32;
        for count in counts {
            times.push(self.times_of_branch(alloc, number, *count)?)?;
            number = number.saturating_add(1);
        }
        Ok(times)
    }

    /// The times of the calls that the branches with these replies made.
    fn times(
        &self,
        alloc: Global,
        branches: &[Items<Reply>],
    ) -> Result<Items<Items<CallTime>>, AllocError> {
        let counts = call_counts_of_branches(alloc, branches)?;
        self.times_of_branches(alloc, counts.as_slice())
    }
}

/// How many commands of each branch were called.
fn call_counts_of_branches(
    alloc: Global,
    branches: &[Items<Reply>],
) -> Result<Vec<usize>, AllocError>
    ensures { IfOk result (λ counts. counts.items ≡ map called branches.now) }
{
    let mut counts = Vec::new(alloc);
    for branch in branches {
        counts.push(count_called(branch.as_slice()))?;
    }
    Ok(counts)
}

/// The meeting of the branches of one drive before their first calls, and the clock of their calls.
#[derive(Drop)]
pub(crate) struct Meeting {
    pub arrivals: StartBarrier,
    pub clock: CallClock,
    /// Whether the clock records.
    is_timed: bool,
}

impl Meeting {
    /// A meeting whose calls are not timed.
    pub(crate) fn untimed(alloc: Global) -> Meeting {
        Meeting {
            arrivals: StartBarrier::new(0),
            clock: CallClock::without_places(alloc),
            is_timed: false,
        }
    }

    /// A meeting whose calls the clock records.
    pub(crate) fn timed(clock: CallClock) -> Meeting {
        Meeting {
            arrivals: StartBarrier::new(0),
            clock,
            is_timed: true,
        }
    }

    /// The site of the calls of branch `number`, counted from 0.
    pub(crate) fn site(&self, number: u32) -> CallSite<'_> {
        CallSite {
            branch: number,
            clock: if self.is_timed {
                Some(&self.clock)
            } else {
                None
            },
        }
    }
}

/// Starts a clock, if there is one.
pub(crate) fn start_clock(clock: Option<&CallClock>) {
    if let Some(clock) = clock {
        clock.start();
    }
}

/// Returns whether the recorded times of a history fit its calls, if it has some.
#[tactic(auto, using(crate::proofs::Timing::fitting_whole))]
fn do_recorded_times_fit(alloc: Global, history: &History) -> Result<bool, AllocError>
    ensures { IfOk result (λ fit. fit ≡ true → times_of_calls history.now ≡ history.now.times) }
{
    Ok(history.times_of_calls(alloc)?.is_some())
}

/// A history, with the times that a clock has of the calls of its branches. It has none if these do not fit its calls,
/// which no thread can bring about.
pub(crate) fn history_with_times(
    alloc: Global,
    clock: &CallClock,
    history: History,
) -> Result<History, AllocError>
    ensures timed { IfOk result (λ h. times_of_calls h ≡ h.times) }
    ensures same { IfOk result (IsSameButTimes history) }
{
    let times = clock.times(alloc, history.branches.as_slice())?;
    let History {
        prefix,
        branches,
        suffix,
        ..
    } = history;
    let mut timed = History {
        prefix,
        branches,
        suffix,
        times: Some(times),
    };
    if !do_recorded_times_fit(alloc, &timed)? {
        timed.times = None;
    }
    Ok(timed)
}

/// From where calls are made: the number of a branch, and the clock that records their times, if there is one.
#[derive(Clone, Copy, Drop)]
pub(crate) struct CallSite<'a> {
    pub branch: u32,
    pub clock: Option<&'a CallClock>,
}

impl<'a> CallSite<'a> {
    /// The site of the calls of the prefix and the suffix: branch 0, with no clock.
    pub(crate) fn outside_branches() -> CallSite<'a> {
        CallSite {
            branch: 0,
            clock: None,
        }
    }

    /// The time on the clock. Returns 0 without a clock.
    pub(crate) fn time(&self) -> u64 {
        match self.clock {
            Some(clock) => clock.tick(),
            None => 0,
        }
    }

    /// Records a call that was invoked at this time, if there is a clock. It completed now, unless its outcome is
    /// unknown.
    pub(crate) fn record_call(&self, invoked: u64, is_outcome_known: bool) {
        let Some(clock) = self.clock else {
            return;
        };
        let completed = if is_outcome_known { clock.tick() } else { 0 };
        if let Some(branch) = clock.get(self.branch) {
            branch.record(invoked, completed);
        }
    }
}
