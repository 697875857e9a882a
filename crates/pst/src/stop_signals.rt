//! What ends a campaign from outside, and threads beside a command: a file that appears, or a limit of time.
//! The kit has no handler of signals: at Ctrl-C the launcher makes the file that `--interrupt-file` names.

use crate::input;
use clap::ArgMatches;
use pst_campaign::Signal;
use std::alloc::{AllocError, Global};
use std::rt::Files;
use std::sync::atomic::{AtomicBool, Ordering};
use std::sync::{Arc, Wait};
use std::thread::{Builder, JoinHandle, Parker, Threads};
use std::time::{Clock, Duration, Instant};

/// How many milliseconds pass between two looks for the files.
const PAUSE: u64 = 100;

/// What ends a campaign from outside, by its arguments.
#[derive(Clone, Copy, Drop)]
struct StopConditions<'a> {
    /// The names of files: it ends once one of them is there.
    files: [Option<&'a str>; 2],
    /// It ends after this number of seconds.
    seconds: Option<u64>,
}

/// Returns what ends a campaign from outside, if the arguments say so.
fn stop_conditions_from_arguments<'a>(matches: &ArgMatches<'a>) -> Option<StopConditions<'a>> {
    let Some(("campaign", arguments)) = matches.subcommand() else {
        return None;
    };
    let stop_file = arguments.get_str("stop-file");
    let interrupt_file = arguments.get_str("interrupt-file");
    let seconds: Option<u64> = arguments.get_one("seconds");
    if stop_file.is_none() && interrupt_file.is_none() && seconds.is_none() {
        return None;
    }
    Some(StopConditions {
        files: [stop_file, interrupt_file],
        seconds,
    })
}

/// The flag that ends a campaign: it is set once a file that ends it is there, or its time is over.
#[derive(Clone, Copy, Drop)]
pub struct StopFlag<'a> {
    /// None if the arguments name no file and no time.
    pub is_set: Option<&'a AtomicBool>,
}

impl<'a> Signal for StopFlag<'a> {
    ghost use Rattle.std.specs.Prelude.{IsSome};

    ghost may_be_given = { λ flag. IsSome flag.is_set };

    fn is_given(&self) -> bool {
        match self.is_set {
            Some(flag) => flag.load(Ordering::SeqCst),
            None => false,
        }
    }
}

/// What the thread that looks for the files shares with the one that ends it.
#[derive(Drop)]
pub struct StopState {
    files: Vec<String>,
    seconds: Option<u64>,
    is_set: Arc<AtomicBool>,
    end: EndSignal,
}

/// Returns whether this number of seconds has passed since `began`, also if the clock cannot be read. False without a number.
fn have_seconds_passed<R: Clock>(rt: &R, began: &Option<Instant>, seconds: Option<u64>) -> bool {
    let Some(seconds) = seconds else {
        return false;
    };
    let Some(began) = began else {
        return true;
    };
    match began.elapsed(rt) {
        Ok(passed) => passed.as_secs() >= seconds,
        Err(_) => true,
    }
}

/// Returns whether one of the files can be opened.
fn is_one_file_there<R: Files>(rt: &R, files: &[String]) -> bool {
    for name in files {
        if input::can_file_be_opened(rt, name.as_str()) {
            return true;
        }
    }
    false
}

/// Sets the flag once one of the files is there or the time is over, unless the campaign is over before.
pub fn watch_for_end<R: Wait + Files + Clock>(rt: &R, watched: &StopState) {
    let began = Instant::now(rt).ok();
    for _ in rt.forever() {
        if is_one_file_there(rt, watched.files.as_slice())
            || have_seconds_passed(rt, &began, watched.seconds)
        {
            watched.is_set.store(true, Ordering::SeqCst);
            return;
        }
        if watched.end.wait(rt, PAUSE) {
            return;
        }
    }
}

/// A thread that looks for the files and the time.
#[derive(Drop)]
pub struct StopWatch {
    watched: Arc<StopState, Global>,
    thread: JoinHandle<()>,
}

/// Returns a shared flag that ends a campaign. It is set if one of its files is there. `None` if the arguments name no file and no
/// time.
pub fn shared_stop_flag_if_wanted<R: Files>(
    rt: &R,
    alloc: Global,
    matches: &ArgMatches<'_>,
) -> Result<Option<Arc<AtomicBool>>, AllocError> {
    let Some(conditions) = stop_conditions_from_arguments(matches) else {
        return Ok(None);
    };
    let mut is_there = false;
    for name in conditions.files {
        if let Some(name) = name
            && input::can_file_be_opened(rt, name)
        {
            is_there = true;
        }
    }
    Ok(Some(Arc::new(alloc, AtomicBool::new(is_there))?))
}

/// Returns what the campaign and the thread that looks for the files share, if the arguments name a file or a time.
fn stop_state_if_wanted(
    alloc: Global,
    matches: &ArgMatches<'_>,
    is_set: &Option<Arc<AtomicBool>>,
) -> Option<Arc<StopState, Global>> {
    let conditions = stop_conditions_from_arguments(matches)?;
    let mut files = Vec::new(alloc);
    for name in conditions.files {
        if let Some(name) = name {
            files.push(String::from_str(alloc, name).ok()?).ok()?;
        }
    }
    let watched = StopState {
        files,
        seconds: conditions.seconds,
        is_set: Arc::try_clone(is_set.as_ref()?).ok()?,
        end: EndSignal::new(),
    };
    Arc::new(alloc, watched).ok()
}

impl StopWatch {
    /// Looks for the files and the time that the arguments name, in a thread that `start_thread` starts: only `main` may name
    /// the type of the handle that the thread takes along. `None` if the arguments name neither, or if there is no thread for it.
    pub fn start_if_wanted<F: Fn(Arc<StopState, Global>) -> Option<JoinHandle<()>>>(
        alloc: Global,
        matches: &ArgMatches<'_>,
        is_set: &Option<Arc<AtomicBool>>,
        start_thread: &F,
    ) -> Option<StopWatch>
        requires { F.IsAlwaysCallable start_thread.now }
    {
        let watched = stop_state_if_wanted(alloc, matches, is_set)?;
        let thread = start_thread(Arc::try_clone(&watched).ok()?)?;
        Some(StopWatch { watched, thread })
    }

    /// Ends the thread, and waits for it.
    pub fn end_thread_and_wait<R: Threads + Wait>(self, rt: &R) {
        let StopWatch { watched, thread } = self;
        watched.end.send();
        thread.join(rt)
    }
}

/// What a thread does beside a command, again and again.
pub trait SideTask {
    /// How many milliseconds pass before each turn.
    fn pause(&self) -> u64;

    /// Does one turn, `milliseconds` after the beginning.
    fn turn<R: Eprint>(&mut self, rt: &R, milliseconds: u64);

    /// Ends after at least one turn.
    fn end<R: Eprint>(&self, _rt: &R) {}
}

/// Tells a thread that the command is over, at once also if the thread is waiting.
#[derive(Drop)]
struct EndSignal {
    is_over: AtomicBool,
    parker: Parker,
}

impl EndSignal {
    /// A signal that is not sent yet.
    fn new() -> EndSignal {
        EndSignal {
            is_over: AtomicBool::new(false),
            parker: Parker::new(),
        }
    }

    /// Sends the signal.
    fn send(&self) {
        self.is_over.store(true, Ordering::SeqCst);
        self.parker.unpark();
    }

    /// Waits for the signal, at most `milliseconds`, and returns whether it is sent.
    fn wait<R: Wait>(&self, rt: &R, milliseconds: u64) -> bool {
        self.parker
            .park_timeout(rt, Duration::from_millis(milliseconds));
        self.is_over.load(Ordering::SeqCst)
    }
}

/// Does the turns of a task until the command is over.
fn do_turns_until_over<R: Wait + Eprint, T: SideTask>(rt: &R, task: &mut T, end: &EndSignal) {
    let pause = task.pause();
    let mut milliseconds = 0u64;
    for _ in rt.forever() {
        if end.wait(rt, pause) {
            break;
        }
        milliseconds = milliseconds.saturating_add(pause);
        task.turn(rt, milliseconds);
    }
    if milliseconds > 0 {
        task.end(rt);
    }
}

/// A thread beside a command.
#[derive(Drop)]
pub struct SideThread {
    end: Arc<EndSignal, Global>,
    thread: JoinHandle<()>,
}

impl SideThread {
    /// Starts a thread that does the turns of a task, if there is memory and a thread for it.
    pub fn start<
        R: Threads + Wait + Eprint + Copy + Drop + Send + 'static,
        T: SideTask + Drop + Send + 'static,
    >(rt: &R, alloc: Global, mut task: T) -> Option<SideThread> {
        let end = Arc::new(alloc, EndSignal::new()).ok()?;
        let own = Arc::try_clone(&end).ok()?;
        let rt = *rt;
        let thread = Builder::new()
            .spawn(&rt, move || do_turns_until_over(&rt, &mut task, &own))
            .ok()?;
        Some(SideThread { end, thread })
    }

    /// Ends the thread, and waits for it.
    pub fn end_and_wait<R: Threads + Wait>(self, rt: &R) {
        let SideThread { end, thread } = self;
        end.send();
        thread.join(rt)
    }
}
