//! Reading runs, and why a run is refused.
ghost use Rattle.std.specs.Prelude.{◌≡◌, ◌⊎◌, ◌<◌, ◌+◌, ◌^◌, IfOk, IfErr, Ok, Err, length, option_copied};
ghost use Rattle.pst_case.specs.Shape.{joined};
ghost use Rattle.pst_runs.specs.FaultName.{fault_name};
ghost use Rattle.pst_runs.specs.Items as spec;
ghost use Rattle.pst_runs.specs.Lawful.{AreLawful};
ghost use Rattle.pst_runs.specs.Times.{timed_history};

use crate::parts::{ItemParts, read_item_parts};
use crate::reading::shape_spelled_case;
use crate::replies::{read_history, reply_counts_match};
use crate::times::with_read_times;
use pst_case::{CaseFaultKind, History, Run, Shaped};
use pst_model::Typed;
use pst_sexpr::{Form, Tree};
use std::alloc::{AllocError, AllocFailed, Global};
use std::error::Error;
use std::fmt;

/// The kinds of a run's faults.
#[derive(Clone, Copy, Debug, PartialEq, Eq, Drop)]
pub enum RunFaultKind {
    /// A fault of the case: one of `shape`, or `UnknownOp` if no operation has the name, or `BadArgument` if an
    /// argument spells no value. `NoMemory` means that an allocation failed.
    Case(CaseFaultKind),
    /// A tree spells no reply.
    BadReply,
    /// A part has another number of replies than commands.
    NotAFit,
    /// The tree is neither a case nor a run.
    BadForm,
    /// A branch has another number of times than of calls, or a time is none, or it does not fit the time before it, or it
    /// has a completion although the outcome of its call is unknown.
    BadTimes,
}

impl RunFaultKind {
    /// The word that is printed for it.
    pub fn name(&self) -> &'static str
        ensures { result.now ≡ fault_name self.now }
    {
        match self {
            RunFaultKind::Case(kind) => kind.name(),
            RunFaultKind::BadReply => "BadReply",
            RunFaultKind::NotAFit => "NotAFit",
            RunFaultKind::BadForm => "BadForm",
            RunFaultKind::BadTimes => "BadTimes",
        }
    }
}

/// What is wrong with a run, and at which command, counted from 1, or 0 for the run itself.
#[derive(Clone, Copy, Debug, PartialEq, Eq, Drop)]
pub struct ItemFault {
    pub kind: RunFaultKind,
    pub command: u32,
}

/// Which run is refused, counted from 1, why, and at which command, counted from 1, or 0 for the run itself. If an
/// allocation failed, both numbers are 0. It is printed as `1 command 3 CrossVar`.
#[derive(Clone, Copy, Debug, PartialEq, Eq, Drop)]
pub struct RunFault {
    pub run: usize,
    pub command: u32,
    pub kind: RunFaultKind,
}

impl fmt::Display for RunFault {
    ghost use Rattle.std.specs.Prelude.{Some};
    ghost use Rattle.pst_runs.specs.FaultName.{text_of};

    ghost output = { λ fault. Some (text_of fault) };

    fn fmt<W: fmt::Write>(&self, f: &mut fmt::Formatter<W>) -> fmt::Result {
        let run = self.run;
        let command = self.command;
        let name = self.kind.name();
        write!(f, "{run} command {command} {name}")
    }
}

impl Error for RunFault {}

impl From<AllocError> for RunFault {
    ghost use Rattle.std.specs.Prelude.{◌≡◌};
    ghost use Rattle.pst_runs.specs.Items.{no_memory};

    ghost from_gives = { λ _ e. e ≡ no_memory };

    fn from(_: AllocError) -> RunFault {
        RunFault {
            run: 0,
            command: 0,
            kind: RunFaultKind::Case(CaseFaultKind::NoMemory),
        }
    }
}

impl<T: Drop> From<AllocFailed<T>> for RunFault {
    ghost use Rattle.std.specs.Prelude.{◌≡◌};
    ghost use Rattle.pst_runs.specs.Items.{no_memory};

    ghost from_gives = { λ _ e. e ≡ no_memory };

    fn from(_: AllocFailed<T>) -> RunFault {
        RunFault {
            run: 0,
            command: 0,
            kind: RunFaultKind::Case(CaseFaultKind::NoMemory),
        }
    }
}

/// Returns the run of a shaped case with `history` and the times that lists of times spell, or its first fault.
fn run_of_shaped_case_and_history(
    alloc: Global,
    shaped: Shaped,
    history: History,
    times: Option<&[Form]>,
) -> Result<Result<Run, ItemFault>, AllocError>
    requires { length history.prefix + length (joined history.branches) + 1 < 2 ^ 32 }
    ensures { IfOk result (λ run. run ≡
        spec.with_times shaped.model shaped.case (timed_history history (option_copied times.entry))) }
{
    match with_read_times(alloc, history, times)? {
        Ok(history) => {
            let history = Some(history);
            Ok(Ok(Run { shaped, history }))
        }
        Err(command) => Ok(Err(ItemFault {
            kind: RunFaultKind::BadTimes,
            command,
        })),
    }
}

/// Returns the run of a shaped case and its lists of replies and of times, or its first fault.
#[tactic(auto, using(crate::proofs::Limits::limits))]
fn run_of_shaped_case_and_replies(
    alloc: Global,
    typed: &Typed,
    shaped: Shaped,
    replies: Option<&[Form]>,
    times: Option<&[Form]>,
) -> Result<Result<Run, ItemFault>, AllocError>
    requires { shaped.model ≡ typed.now }
    ensures { IfOk result (λ run. run ≡
        spec.run_of typed.now shaped.case (option_copied replies.entry) (option_copied times.entry)) }
{
    let Some(lists) = replies else {
        let history = None;
        return Ok(Ok(Run { shaped, history }));
    };
    if !reply_counts_match(shaped.case(), lists) {
        return Ok(Err(ItemFault {
            kind: RunFaultKind::NotAFit,
            command: 0,
        }));
    }
    match read_history(alloc, typed, shaped.case(), lists)? {
        Ok(history) => run_of_shaped_case_and_history(alloc, shaped, history, times),
        Err(command) => Ok(Err(ItemFault {
            kind: RunFaultKind::BadReply,
            command,
        })),
    }
}

/// Returns the run that a tree spells, or its first fault.
#[tactic(auto, unfolding(crate::specs::Items::item_of))]
fn read_run(alloc: Global, typed: &Typed, form: &Form) -> Result<Result<Run, ItemFault>, AllocError>
    ensures { IfOk result (λ run. run ≡ spec.item_of typed.now form.now) }
{
    let Some(parts) = read_item_parts(alloc, typed, form)? else {
        return Ok(Err(ItemFault {
            kind: RunFaultKind::BadForm,
            command: 0,
        }));
    };
    let ItemParts {
        read,
        replies,
        times,
    } = parts;
    match shape_spelled_case(alloc, typed, read)? {
        Ok(shaped) => run_of_shaped_case_and_replies(alloc, typed, shaped, replies, times),
        Err(fault) => Ok(Err(ItemFault {
            kind: RunFaultKind::Case(fault.kind),
            command: fault.command,
        })),
    }
}

/// Reads the runs that trees spell: `case` items without a history, and `run` items with one.
///
/// The fault is that of the first refused item, numbered from 1. The reader checks each item in this order: its form,
/// its limits, its commands by their numbers, the counts of its replies, each reply, and its times. The kind is `NoMemory` if an
/// allocation fails.
#[tactic(auto, using(crate::proofs::Behind::behind))]
pub fn read_runs(alloc: Global, typed: &Typed, trees: &[Tree]) -> Result<Vec<Run>, RunFault>
    ensures read { IfOk result (λ runs. spec.runs_of typed.now trees.now ≡ Ok runs.items) }
    ensures lawful { IfOk result (λ runs. AreLawful typed.now runs.items) }
    ensures refused { IfErr result (λ fault.
        (spec.runs_of typed.now trees.now ≡ Err fault) ⊎ (fault ≡ spec.no_memory)) }
{
    let mut runs = Vec::with_capacity(alloc, trees.len())?;
    for tree in trees {
        let run = runs.len() + 1;
        match read_run(alloc, typed, tree.form()) {
            Ok(Ok(read)) => runs.push(read)?,
            Ok(Err(ItemFault { kind, command })) => return Err(RunFault { run, command, kind }),
            Err(AllocError) => return Err(RunFault::from(AllocError)),
        }
    }
    Ok(runs)
}
