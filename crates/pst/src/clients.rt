//! Clients that a campaign or a run calls in place of a known system, and messages on what goes wrong with them.

use crate::outputs::print_file_error_to_stderr;
use crate::preparing::PreparedInput;
use crate::stop_signals::{SideTask, SideThread};
use crate::systems::{
    ChosenSystems, SystemsError, system_in_box, systems_and_count_from_arguments,
};
use clap::ArgMatches;
use pst_cli::Status;
use pst_clients::{
    CallPipe, ClientFolder, ClientOptions, ClientWaits, Clients, Notes, open_clients,
    result_types_of_operations,
};
use pst_typing::load;
use pst_value::{Items, Ty};
use std::alloc::{AllocError, Global};
use std::io::{self, BufReader, ErrorKind};
use std::rt::Files;
use std::sync::atomic::{AtomicBool, Ordering};
use std::sync::{Arc, Wait};
use std::thread::Threads;

/// The notes of all clients, which their boxes and the program share.
pub type SharedClientNotes = Arc<Notes, Global>;

/// Returns an empty list of notes.
pub fn new_client_notes(alloc: Global) -> Result<SharedClientNotes, AllocError> {
    Ok(Arc::new(alloc, Notes::new(alloc)?)?)
}

/// Returns the result types of the operations of the model at the beginning of `input`, if the arguments name clients, which
/// are called for them. There are no types if the model cannot be loaded; it is refused before anything is called.
pub fn result_types_for_clients(
    alloc: Global,
    matches: &ArgMatches<'_>,
    input: &[u8],
) -> Result<Items<Ty>, AllocError> {
    let Some((ChosenSystems::Clients(_), _)) = systems_and_count_from_arguments(matches) else {
        return Ok(Items::new(alloc));
    };
    match load(alloc, input)? {
        Ok(file) => result_types_of_operations(alloc, file.typed.source().items.as_slice()),
        Err(_) => Ok(Items::new(alloc)),
    }
}

/// Returns a copy of types.
fn copy_of_types(alloc: Global, types: &[Ty]) -> Result<Items<Ty>, AllocError> {
    let mut copy = Items::new(alloc);
    for ty in types {
        copy.push(ty.copy(alloc)?)?;
    }
    Ok(copy)
}

/// Opens the clients of worker number `worker`, from 0, whose pipes are in `folder`, and puts them into a box. They
/// answer calls of the model at the beginning of the input, and do what `options` say.
pub fn open_boxed_clients_for_worker<H: Wait + Files + Drop, R: Files + AllocGlobal>(
    handle: H,
    rt: &R,
    folder: ClientFolder<'_>,
    worker: u64,
    options: ClientOptions,
    prepared: &PreparedInput<'_>,
) -> Result<Box<Clients<H, BufReader<R::File>, CallPipe<R::File>>>, SystemsError> {
    let (Ok(types), Ok(notes)) = (
        copy_of_types(rt.alloc(), prepared.result_types.as_slice()),
        Arc::try_clone(&prepared.notes),
    ) else {
        return Err(SystemsError::NoMemory);
    };
    match open_clients(handle, rt, folder, worker, types, notes) {
        Ok(clients) => match system_in_box(
            rt.alloc(),
            clients.with_options(options).with_bursts(prepared.burst),
        ) {
            Ok(clients) => Ok(clients),
            Err(AllocError) => Err(SystemsError::NoMemory),
        },
        Err(error) if error.kind() == ErrorKind::OutOfMemory => Err(SystemsError::NoMemory),
        Err(error) => Err(SystemsError::NoPipes(error)),
    }
}

/// Returns how many times the arguments ask clients to drive a case by themselves; 0 if they do not.
pub fn burst_from_arguments(matches: &ArgMatches<'_>) -> u32 {
    let Some(("campaign", arguments)) = matches.subcommand() else {
        return 0;
    };
    let drives: Option<u64> = arguments.get_one("burst");
    u32::try_from(drives.unwrap_or(0)).unwrap_or(0)
}

/// Refuses a burst if no clients are tested: only these drive cases by themselves.
pub fn refuse_burst_without_clients<R: Eprint>(
    rt: &R,
    matches: &ArgMatches<'_>,
) -> Result<(), Status> {
    if burst_from_arguments(matches) == 0 {
        return Ok(());
    }
    match systems_and_count_from_arguments(matches) {
        Some((ChosenSystems::Known(_), _)) => {
            let _ = eprintln!(rt;
                "error: --burst goes with --client, as in pst campaign --client ./client.py --burst 100 model"
            );
            Err(Status::Refused)
        }
        _ => Ok(()),
    }
}

/// Writes to standard error that the pipes of the clients that the arguments name cannot be opened, and why, unless the
/// arguments forbid it.
pub fn print_client_pipe_error_unless_quiet<R: Eprint + AllocGlobal>(
    rt: &R,
    arguments: &ArgMatches<'_>,
    name: &str,
    error: &io::Error,
) {
    if arguments.get_flag("quiet") {
        return;
    }
    let folder = match ClientFolder::from_argument(name) {
        Some(folder) => folder.name,
        None => name,
    };
    print_file_error_to_stderr(
        rt,
        rt.alloc(),
        "open the pipes of clients in",
        folder,
        error,
    );
}

/// Writes what went wrong with clients to standard error, unless the arguments forbid it.
pub fn print_client_notes_unless_quiet<R: Eprint>(rt: &R, matches: &ArgMatches<'_>, notes: &Notes) {
    let Some((_, arguments)) = matches.subcommand() else {
        return;
    };
    if arguments.get_flag("quiet") {
        return;
    }
    if let Ok(text) = notes.text() {
        let _ = eprint!(rt; "{text}");
    }
    let drives = notes.burst_drives();
    if drives > 0 {
        let _ = eprintln!(rt; "pst: the clients made {drives} drives in bursts");
    }
}

/// How many milliseconds pass between two looks at the clients: the second that is counted.
const PAUSE: u64 = 1_000;

/// The number of seconds without an answer after which a line is written. The next line follows after twice this time.
const FIRST: u64 = 5;

/// The number of resets in a row that fail before a line is written of them, once.
const MANY: u64 = 5;

/// The number of resets in a row that fail before the campaign ends.
const MOST: u64 = 20;

/// A client, as it was a second ago.
#[derive(Clone, Copy, Drop)]
struct SilenceTimer {
    /// The line that it had not answered, if there was one.
    line: Option<u64>,
    /// For how many seconds.
    seconds: u64,
    /// After how many seconds a line is written of it.
    next: u64,
}

impl SilenceTimer {
    /// A client that has just got the line `line`, or has none to answer.
    fn starting_at_line(line: Option<u64>) -> SilenceTimer {
        SilenceTimer {
            line,
            seconds: 0,
            next: FIRST,
        }
    }

    /// Counts a second. Returns whether a line on it is due.
    fn restart_or_advance_and_check_if_due(&mut self, line: Option<u64>) -> bool {
        if line.is_none() || line != self.line {
            *self = SilenceTimer::starting_at_line(line);
            return false;
        }
        self.seconds = self.seconds.saturating_add(1);
        if self.seconds < self.next {
            return false;
        }
        self.next = self.next.saturating_mul(2);
        true
    }
}

/// Writes to standard error that a client does not answer its line.
fn print_that_client_is_silent<R: Eprint>(
    rt: &R,
    alloc: Global,
    waits: &ClientWaits,
    place: usize,
    seconds: u64,
) {
    let (worker, branch) = ClientWaits::worker_and_branch_of_place(place);
    let Ok(line) = waits.printable_last_line_at_place(alloc, place) else {
        let _ = eprintln!(rt;
            "pst: client {worker}-{branch} has not answered for {seconds} seconds"
        );
        return;
    };
    let advice = if seconds <= FIRST {
        ": does it print a line for each line, and flush it?"
    } else {
        ""
    };
    let _ = eprintln!(rt;
        "pst: client {worker}-{branch} has not answered {line} for {seconds} seconds{advice}"
    );
}

/// Writes to standard error that resets fail, and how to end the campaign, if a file ends it.
fn print_that_resets_fail<R: Eprint>(rt: &R, has_stop_file: bool) {
    let advice = if has_stop_file {
        " Ctrl-C ends the campaign with its report"
    } else {
        ""
    };
    let _ = eprintln!(rt; "pst: the reset failed {MANY} times in a row: is the server up?{advice}");
}

/// Returns the waits of `count` clients, none of which has a line to answer.
fn new_silence_timers(alloc: Global, count: usize) -> Result<Vec<SilenceTimer>, AllocError> {
    let mut clients = Vec::with_capacity(alloc, count)?;
    for _ in 0..count {
        clients.push(SilenceTimer::starting_at_line(None))?;
    }
    Ok(clients)
}

/// Counts a second for each client, and reports those that are silent for long.
fn count_second_and_report_silent_clients<R: Eprint>(
    rt: &R,
    alloc: Global,
    waits: &ClientWaits,
    clients: &mut [SilenceTimer],
) {
    for place in 0..clients.len() {
        if clients[place].restart_or_advance_and_check_if_due(waits.unanswered_line_id(place)) {
            print_that_client_is_silent(rt, alloc, waits, place, clients[place].seconds);
        }
    }
}

/// What the thread that watches clients knows.
#[derive(Drop)]
struct WatchedClients {
    alloc: Global,
    notes: SharedClientNotes,
    timers: Vec<SilenceTimer>,
    /// The flag that ends the campaign, if there is one.
    stop: Option<Arc<AtomicBool>>,
    /// Whether the arguments forbid messages.
    is_quiet: bool,
    /// Whether it has reported that resets fail.
    has_reported_resets: bool,
}

impl WatchedClients {
    /// Reports the clients that are silent for long and, once, that resets fail, if `failed` of them failed in a row.
    fn report<R: Eprint>(&mut self, rt: &R, failed: u64) {
        let timers = self.timers.as_mut_slice();
        count_second_and_report_silent_clients(rt, self.alloc, self.notes.waits(), timers);
        if !self.has_reported_resets && failed >= MANY {
            self.has_reported_resets = true;
            print_that_resets_fail(rt, self.stop.is_some());
        }
    }

    /// Ends the campaign, if a flag does.
    fn end_campaign<R: Eprint>(&self, rt: &R) {
        let Some(stop) = &self.stop else {
            return;
        };
        if stop.load(Ordering::SeqCst) {
            return;
        }
        stop.store(true, Ordering::SeqCst);
        if !self.is_quiet {
            let _ = eprintln!(rt; "pst: the reset failed {MOST} times in a row: the campaign ends");
        }
    }
}

impl SideTask for WatchedClients {
    fn pause(&self) -> u64 {
        PAUSE
    }

    /// Reports what goes wrong with the clients, and ends the campaign if `MOST` resets failed in a row.
    fn turn<R: Eprint>(&mut self, rt: &R, _milliseconds: u64) {
        let failed = self.notes.failed_resets_since_last_success();
        if !self.is_quiet {
            self.report(rt, failed);
        }
        if failed >= MOST {
            self.end_campaign(rt);
        }
    }
}

/// Another owner of a flag, if there is one.
fn share_flag(flag: &Option<Arc<AtomicBool>>) -> Option<Arc<AtomicBool>> {
    flag.as_ref()?.clone().ok()
}

/// What the thread that watches the clients of some notes knows, if the arguments name clients.
fn watched_clients_if_any(
    alloc: Global,
    matches: &ArgMatches<'_>,
    notes: &SharedClientNotes,
    stop: &Option<Arc<AtomicBool>>,
) -> Option<WatchedClients> {
    let (_, arguments) = matches.subcommand()?;
    match systems_and_count_from_arguments(matches)? {
        (ChosenSystems::Clients(_), _) => Some(WatchedClients {
            alloc,
            notes: Arc::try_clone(notes).ok()?,
            timers: new_silence_timers(alloc, notes.waits().len()).ok()?,
            stop: share_flag(stop),
            is_quiet: arguments.get_flag("quiet"),
            has_reported_resets: false,
        }),
        _ => None,
    }
}

/// Watches the clients that the arguments name, if there are some and a thread for it. If `MOST` resets fail in a row, the
/// thread sets the flag that ends the campaign.
pub fn start_client_watch<R: Threads + Wait + Eprint + Copy + Drop + Send + 'static>(
    rt: &R,
    alloc: Global,
    matches: &ArgMatches<'_>,
    notes: &SharedClientNotes,
    stop: &Option<Arc<AtomicBool>>,
) -> Option<SideThread> {
    SideThread::start(
        rt,
        alloc,
        watched_clients_if_any(alloc, matches, notes, stop)?,
    )
}
