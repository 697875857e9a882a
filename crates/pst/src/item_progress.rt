//! A line on a terminal that says how far a command is.

use crate::stop_signals::{SideTask, SideThread};
use crate::summary::add_number_with_thousands_commas;
use pst_cli::{Attendant, InputRefusal, ProgressCounter};
use std::alloc::{AllocError, Global};
use std::sync::{Arc, Wait};
use std::thread::Threads;

/// How many milliseconds pass before the line is written again.
const PAUSE: u64 = 250;

/// How fast something goes: how many a second, or how many seconds each one takes.
#[derive(Clone, Copy, Drop)]
pub struct DisplayedRate {
    pub number: u64,
    /// `a second` or `s each`.
    pub unit: &'static str,
}

impl DisplayedRate {
    /// The rate if `count` took `milliseconds`.
    pub fn from_count_and_milliseconds(count: u64, milliseconds: u64) -> DisplayedRate {
        let rate = count
            .saturating_mul(1000)
            .checked_div(milliseconds)
            .unwrap_or(0);
        match (milliseconds / 1000).checked_div(count) {
            Some(each) if rate == 0 => DisplayedRate {
                number: each,
                unit: "s each",
            },
            _ => DisplayedRate {
                number: rate,
                unit: "a second",
            },
        }
    }
}

/// Adds how many seconds `left` items take, if that is known: `thousandths_done` thousandths of an item took `milliseconds`.
fn add_time_left_if_known(
    line: &mut String,
    alloc: Global,
    left: u64,
    thousandths_done: u64,
    milliseconds: u64,
) -> Result<(), AllocError> {
    let Some(seconds) = left
        .saturating_mul(milliseconds)
        .checked_div(thousandths_done)
    else {
        return Ok(());
    };
    line.push_str(", ")?;
    add_number_with_thousands_commas(line, alloc, seconds as usize)?;
    line.push_str(" s left")
}

/// Adds a rate, as `, 512 a second`.
fn add_rate(line: &mut String, alloc: Global, rate: DisplayedRate) -> Result<(), AllocError> {
    let DisplayedRate { number, unit } = rate;
    line.push_str(", ")?;
    add_number_with_thousands_commas(line, alloc, number as usize)?;
    line.push_str(" ")?;
    line.push_str(unit)
}

/// The line after some milliseconds, as `1,204 of 10,000 explained, 512 a second, 17 s left`. It leaves out what is not
/// known.
fn item_progress_line(
    alloc: Global,
    steps: &ProgressCounter,
    participle: &str,
    milliseconds: u64,
) -> Result<String, AllocError> {
    let done = steps.items_done();
    let thousandths_done = done.saturating_mul(1000);
    let mut line = String::new(alloc);
    add_number_with_thousands_commas(&mut line, alloc, done as usize)?;
    if let Some(all) = steps.known_total() {
        line.push_str(" of ")?;
        add_number_with_thousands_commas(&mut line, alloc, all as usize)?;
    }
    line.push_str(" ")?;
    line.push_str(participle)?;
    add_rate(
        &mut line,
        alloc,
        DisplayedRate::from_count_and_milliseconds(done, milliseconds),
    )?;
    if let Some(all) = steps.known_total() {
        add_time_left_if_known(
            &mut line,
            alloc,
            all.saturating_sub(done),
            thousandths_done,
            milliseconds,
        )?;
    }
    Ok(line)
}

/// What the thread that writes the line knows.
#[derive(Drop)]
struct ItemProgressLine {
    alloc: Global,
    steps: Arc<ProgressCounter, Global>,
    /// What is done with an item, as `explained`.
    participle: &'static str,
}

impl SideTask for ItemProgressLine {
    fn pause(&self) -> u64 {
        PAUSE
    }

    fn turn<R: Eprint>(&mut self, rt: &R, milliseconds: u64) {
        if let Ok(line) = item_progress_line(
            self.alloc,
            &self.steps,
            self.participle,
            milliseconds,
        ) {
            let _ = eprint!(rt; "\r\x1b[K{line}");
        }
    }

    fn end<R: Eprint>(&self, rt: &R) {
        let _ = eprint!(rt; "\r\x1b[K");
    }
}

/// One who displays on standard error how far a command is, if that is wanted. Its handle cannot print on standard output.
#[derive(Drop)]
pub struct ProgressDisplay<'a, R> {
    rt: &'a R,
    thread: Option<SideThread>,
    /// The steps that the thread displays, if it displays steps.
    displayed: Option<Arc<ProgressCounter, Global>>,
    /// The steps that are not displayed.
    steps: ProgressCounter,
    /// What the whole input is refused for, if it is.
    refusal: Option<InputRefusal>,
}

impl<'a, R: Threads + Wait + Eprint + Copy + Drop + Send + 'static> ProgressDisplay<'a, R> {
    /// Displays what a thread displays, if there is one, and no steps.
    pub fn of_thread(rt: &'a R, thread: Option<SideThread>) -> ProgressDisplay<'a, R> {
        ProgressDisplay {
            rt,
            thread,
            displayed: None,
            steps: ProgressCounter::new(),
            refusal: None,
        }
    }

    /// Begins the steps of a command. `participle` is what is done with an item, as `explained`. From now on a line displays
    /// the steps, if `has_progress_line`, and if there is memory and a thread for it.
    pub fn of_items(
        rt: &'a R,
        alloc: Global,
        has_progress_line: bool,
        participle: &'static str,
    ) -> ProgressDisplay<'a, R> {
        let mut display = ProgressDisplay::of_thread(rt, None);
        if has_progress_line
            && let Ok(steps) = Arc::new(alloc, ProgressCounter::new())
            && let Ok(own) = Arc::try_clone(&steps)
        {
            let line = ItemProgressLine {
                alloc,
                steps: own,
                participle,
            };
            display.thread = SideThread::start(rt, alloc, line);
            display.displayed = Some(steps);
        }
        display
    }

    /// What the whole input is refused for, if it is. It is known once the answer is.
    pub fn refusal(&self) -> Option<InputRefusal> {
        self.refusal
    }
}

impl<R: Threads + Wait> Attendant for ProgressDisplay<'_, R> {
    fn steps(&self) -> &ProgressCounter {
        match &self.displayed {
            Some(steps) => steps,
            None => &self.steps,
        }
    }

    fn before_output(&mut self, refusal: Option<InputRefusal>) {
        self.refusal = refusal;
        if let Some(thread) = self.thread.take() {
            thread.end_and_wait(self.rt);
        }
    }
}
