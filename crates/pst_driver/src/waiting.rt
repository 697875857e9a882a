//! Waiting for other threads: branches that begin together, and a handle for waiting.
//! Each thread makes its own handle, so the runtime is not shared.

use std::hint::spin_loop;
use std::marker::PhantomData;
use std::sync::Wait;
use std::sync::atomic::{AtomicU64, Ordering};
use std::time::Duration;

/// How many times a thread looks for the others before it sleeps. It never yields: beside a busy process a thread
/// that yields gives away a whole slice of its processor's time.
const LOOKS: u32 = 5_000;

/// How many times a thread sleeps at most.
const SLEEPS: u32 = 100;

/// How many milliseconds a thread sleeps each time at most.
const SLEEP_MILLIS: u64 = 10;

/// How many times the last thread looks whether those that slept are awake.
const LAST_LOOKS: u32 = 8_000;

/// Counts the threads of branches that have arrived, so that their first calls come close together. A history
/// shows nothing of it.
#[derive(Drop)]
pub(crate) struct StartBarrier {
    expected: AtomicU64,
    arrived: AtomicU64,
    asleep: AtomicU64,
}

impl StartBarrier {
    /// Expects `expected` threads, none of which has arrived.
    pub(crate) fn new(expected: u64) -> StartBarrier {
        StartBarrier {
            expected: AtomicU64::new(expected),
            arrived: AtomicU64::new(0),
            asleep: AtomicU64::new(0),
        }
    }

    /// Expects `expected` threads from now on, none of which has arrived. No thread may be arriving.
    pub(crate) fn set_expected_and_clear_arrived(&self, expected: u64) {
        self.expected.store(expected, Ordering::SeqCst);
        self.arrived.store(0, Ordering::SeqCst);
    }

    /// Announces one thread, and waits for the others: it looks for them and then sleeps, each a bounded number
    /// of times. The last thread wakes those that sleep.
    pub(crate) fn arrive_and_wait_with_limit<R: Wait>(&self) {
        self.arrived.fetch_add(1, Ordering::SeqCst);
        if self.have_all_arrived() {
            self.wake_sleepers_and_wait_with_limit();
        } else if !self.spin_until_all_arrived_or_limit() {
            self.asleep.fetch_add(1, Ordering::SeqCst);
            self.sleep_until_all_arrived_or_limit(&WaitHandle::<R>::new());
            self.asleep.fetch_sub(1, Ordering::SeqCst);
        }
    }

    /// Releases all threads that wait for others.
    pub(crate) fn release(&self) {
        let expected = self.expected.load(Ordering::SeqCst);
        self.arrived.fetch_add(expected, Ordering::SeqCst);
        self.arrived.wake_all();
    }

    /// Whether all threads have arrived.
    fn have_all_arrived(&self) -> bool {
        self.arrived.load(Ordering::SeqCst) >= self.expected.load(Ordering::SeqCst)
    }

    /// Looks for the others, up to `LOOKS` times. Returns whether all have arrived.
    fn spin_until_all_arrived_or_limit(&self) -> bool {
        for _ in 0..LOOKS {
            if self.have_all_arrived() {
                return true;
            }
            spin_loop();
        }
        false
    }

    /// Sleeps until all threads have arrived, up to `SLEEPS` times.
    fn sleep_until_all_arrived_or_limit<W: Wait>(&self, waiter: &W) {
        for _ in 0..SLEEPS {
            let arrived = self.arrived.load(Ordering::SeqCst);
            if arrived >= self.expected.load(Ordering::SeqCst) {
                return;
            }
            let seen = (arrived & 0xffff_ffff) as u32;
            self.arrived
                .park_timeout(waiter, seen, Duration::from_millis(SLEEP_MILLIS));
        }
    }

    /// Wakes the threads that sleep, and looks up to `LAST_LOOKS` times whether they are awake, so that no first
    /// call comes long before theirs.
    fn wake_sleepers_and_wait_with_limit(&self) {
        if self.asleep.load(Ordering::SeqCst) == 0 {
            return;
        }
        self.arrived.wake_all();
        for _ in 0..LAST_LOOKS {
            if self.asleep.load(Ordering::SeqCst) == 0 {
                return;
            }
            spin_loop();
        }
    }
}

/// Lets a thread wait where `R` may. It holds no `R`, so each thread makes its own and shares none.
#[derive(Drop)]
pub(crate) struct WaitHandle<R: Wait> {
    of: PhantomData<R>,
}

impl<R: Wait> WaitHandle<R> {
    /// Makes one.
    pub(crate) fn new() -> WaitHandle<R> {
        WaitHandle { of: PhantomData }
    }
}

impl<R: Wait> Wait for WaitHandle<R> {}
