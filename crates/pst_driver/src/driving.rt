//! Driving a whole case, and why a case was not driven.
ghost use Rattle.std.specs.Prelude.{◌≡◌, ◌∷◌, [], true, None, IfOk, IfErr, MatchBool, MatchOption, map};
ghost use Rattle.pst_driver.specs.FaultName.{fault_name};
ghost use Rattle.pst_case.specs.Matches.{matches, replies_of};
ghost use Rattle.pst_case.specs.Recorded.{result_of};
ghost use Rattle.pst_case.specs.Shape.{IsShaped, joined};
ghost use Rattle.pst_case.specs.Unknown.{times_of_calls};
ghost use Rattle.pst_driver.specs.Driven.{IsDriven, IsDriveFault, all_answers, none_run};
ghost use Rattle.pst_driver.specs.Progress.{BranchesRun, IsBranchFault, all_known};
ghost use Rattle.std.specs.List.{list_all};
ghost use Rattle.pst_system.specs.Kept.{AreKept};

use crate::branches::run_branches_on_threads;
use crate::clock::{CallClock, CallSite, Meeting, history_with_times};
use crate::part::{add_not_run_replies, call_commands_while_replies_are_values};
use crate::subject::Subject;
use crate::suffix::run_suffix_unless_a_call_failed;
use pst_case::{Case, Command, History, Reply, results_of_replies};
use pst_judge::Valid;
use pst_model::Typed;
use pst_system::{BoxedSystem, System};
use pst_value::Items;
use std::alloc::{AllocError, Global};
use std::sync::Wait;
use std::thread::Threads;
use thiserror::Error;

/// Why a case was not driven.
#[derive(Clone, Copy, Debug, PartialEq, Eq, Drop, Error)]
pub enum DriveFault {
    /// The system refused its reset.
    #[error("the reset failed")]
    ResetFailed,
    /// The thread of a branch could not be started.
    #[error("a thread could not be started")]
    NoThread,
    /// An allocation failed.
    #[error("not enough memory")]
    NoMemory,
}

impl DriveFault {
    /// The word for the fault.
    pub fn name(&self) -> &'static str
        ensures { result.now ≡ fault_name self.now }
    {
        match self {
            DriveFault::ResetFailed => "ResetFailed",
            DriveFault::NoThread => "NoThread",
            DriveFault::NoMemory => "NoMemory",
        }
    }
}

impl From<AllocError> for DriveFault {
    ghost use Rattle.std.specs.Prelude.{◌≡◌};
    ghost use Rattle.pst_driver.specs.declared.driving.DriveFault.TheVariants.{NoMemory};

    ghost from_gives = { λ _ e. e ≡ NoMemory };

    fn from(_refused: AllocError) -> DriveFault {
        DriveFault::NoMemory
    }
}

/// Whether each reply is a value.
pub(crate) fn are_all_replies_values(replies: &[Reply]) -> bool
    ensures { result ≡ all_answers replies.now }
{
    for reply in replies {
        if !matches!(reply, Reply::Value(_)) {
            return false;
        }
    }
    true
}

fn split_first_branch(branches: &[Items<Reply>]) -> Option<(&Items<Reply>, &[Items<Reply>])>
    ensures { MatchOption result (branches.now ≡ []) (λ p. branches.now ≡ p.0.now ∷ p.1.now) }
{
    branches.split_first()
}

/// Whether each reply of the branches is a value.
#[tactic(auto, using(crate::proofs::Answering::answering))]
fn are_all_branch_replies_values(branches: &[Items<Reply>]) -> bool
    ensures { result ≡ all_answers (joined branches.now) }
{
    let Some((branch, branches)) = split_first_branch(branches) else {
        return true;
    };
    are_all_replies_values(branch.as_slice()) && are_all_branch_replies_values(branches)
}

/// Returns whether each reply of a history is a value, and none a refusal.
#[tactic(auto, using(crate::proofs::Answering::answering))]
pub fn has_only_value_replies(history: &History) -> bool
    ensures { result ≡ all_answers (replies_of history.now) }
{
    are_all_replies_values(history.prefix.as_slice())
        && are_all_branch_replies_values(history.branches.as_slice())
        && are_all_replies_values(history.suffix.as_slice())
}

/// The replies of branches that are not run.
pub(crate) fn not_run_replies_of_branches(
    alloc: Global,
    branches: &[Items<Command>],
) -> Result<Items<Items<Reply>>, AllocError>
    ensures { IfOk result (λ hs. hs ≡ map none_run branches.now) }
{
    let mut all = Items::new(alloc);
    for branch in branches {
        let mut replies = Items::new(alloc);
        add_not_run_replies(&mut replies, branch.as_slice())?;
        all.push(replies)?;
    }
    Ok(all)
}

/// The replies of the branches, which run at once if the whole prefix has values, and else not at all. `meeting` has
/// the clock of their calls.
fn run_branches_if_prefix_has_values<S: Subject + Sync, R: Threads + Wait>(
    rt: &R,
    alloc: Global,
    typed: &Typed,
    system: &S,
    meeting: &Meeting,
    branches: &[Items<Command>],
    prefix: &[Reply],
) -> Result<Items<Items<Reply>>, DriveFault>
    requires { list_all (all_known typed.now) branches.now ≡ true }
    ensures replies { IfOk result (λ hs. MatchBool (all_answers prefix.now)
        (BranchesRun typed.now (S.may_answer system.now) (S.may_fail system.now)
        (map result_of prefix.now) branches.now hs)
        (hs ≡ map none_run branches.now)) }
    ensures fault { IfErr result (λ e. IsBranchFault branches.now e) }
{
    if !are_all_replies_values(prefix) {
        return Ok(not_run_replies_of_branches(alloc, branches)?);
    }
    let known = results_of_replies(alloc, prefix)?;
    run_branches_on_threads(rt, alloc, typed, system, meeting, branches, known)
}

/// Drives a case that has the shape of the model. The branches come together at `meeting`. The history has no times.
fn drive_shaped_case<S: Subject + Sync, R: Threads + Wait>(
    rt: &R,
    alloc: Global,
    typed: &Typed,
    system: &mut S,
    case: &Case,
    meeting: &Meeting,
) -> Result<History, DriveFault>
    requires shaped { IsShaped typed.now case.now }
    ensures untimed { IfOk result (λ h. h.times ≡ None) }
    ensures driven { IfOk result (λ h.
        IsDriven typed.now (S.may_answer system.old) (S.may_fail system.old) case.now h) }
    ensures fault { IfErr result (λ e. IsDriveFault (S.may_refuse_reset system.old) case.now e) }
    ensures kept { AreKept (S.may_answer system.new) (S.may_answer system.old)
        (S.may_fail system.new) (S.may_fail system.old)
        (S.may_refuse_reset system.new) (S.may_refuse_reset system.old) }
{
    if system.reset_system().is_err() {
        return Err(DriveFault::ResetFailed);
    }
    let system = &*system;
    let prefix = call_commands_while_replies_are_values(
        alloc,
        typed,
        system,
        CallSite::outside_branches(),
        case.prefix.as_slice(),
        Vec::new(alloc),
    )?;
    let branches = case.branches.as_slice();
    let branches = run_branches_if_prefix_has_values(
        rt,
        alloc,
        typed,
        system,
        meeting,
        branches,
        prefix.as_slice(),
    )?;
    let so_far = History {
        prefix,
        branches,
        suffix: Items::new(alloc),
        times: None,
    };
    let suffix = run_suffix_unless_a_call_failed(
        alloc,
        typed,
        system,
        case.suffix.as_slice(),
        &so_far,
    )?;
    let History {
        prefix,
        branches,
        ..
    } = so_far;
    Ok(History {
        prefix,
        branches,
        suffix,
        times: None,
    })
}

/// Drives a valid case on a system: resets it, calls the commands of the prefix, runs the branches at once,
/// each that is not empty on a thread of its own, and calls the commands of the suffix once all branches have
/// ended. Returns the history of the replies, without times. The arguments of each call are plain, with recorded results for
/// variables. After an answer that is no value of the result type, or a call that failed or has an unknown outcome, the
/// rest of its part does not run; after one in the prefix no branch does. The suffix does not run if a call before it failed
/// or misfits. After an unknown outcome those of its commands do not run that need a result that is missing.
///
/// `ResetFailed`: the reset failed. `NoThread`: the thread of a branch could not be started; those that were
/// started are joined first. `NoMemory`: an allocation failed. The call waits for as long as the calls of the
/// system do.
///
/// The threads of the branches wait for one another for a bounded time before their first calls, so that these
/// come close together. No contract promises any timing.
pub fn run<R: Threads + Wait>(
    rt: &R,
    alloc: Global,
    typed: &Typed,
    system: &mut BoxedSystem,
    valid: &Valid,
) -> Result<History, DriveFault>
    requires model { valid.now.model ≡ typed.now }
    ensures matches { IfOk result (λ h. matches typed.now valid.now.case h ≡ true) }
    ensures driven { IfOk result (λ h.
        IsDriven typed.now (answers system.old) (fails system.old) valid.now.case h) }
    ensures untimed { IfOk result (λ h. h.times ≡ None) }
    ensures fault { IfErr result (λ e. IsDriveFault (reset_fails system.old) valid.now.case e) }
    ensures kept { AreKept (answers system.new) (answers system.old) (fails system.new) (fails system.old)
        (reset_fails system.new) (reset_fails system.old) }
{
    let meeting = Meeting::untimed(alloc);
    drive_shaped_case(rt, alloc, typed, system, valid.shaped().case(), &meeting)
}

/// Does what [`run`] does, and records when each call of the branches was invoked and when it completed, all on one
/// counter. No contract promises anything of time itself.
pub fn run_timed<R: Threads + Wait>(
    rt: &R,
    alloc: Global,
    typed: &Typed,
    system: &mut BoxedSystem,
    valid: &Valid,
) -> Result<History, DriveFault>
    requires model { valid.now.model ≡ typed.now }
    ensures matches { IfOk result (λ h. matches typed.now valid.now.case h ≡ true) }
    ensures driven { IfOk result (λ h.
        IsDriven typed.now (answers system.old) (fails system.old) valid.now.case h) }
    ensures timed { IfOk result (λ h. times_of_calls h ≡ h.times) }
    ensures fault { IfErr result (λ e. IsDriveFault (reset_fails system.old) valid.now.case e) }
    ensures kept { AreKept (answers system.new) (answers system.old) (fails system.new) (fails system.old)
        (reset_fails system.new) (reset_fails system.old) }
{
    let meeting = Meeting::timed(CallClock::new(alloc)?);
    let case = valid.shaped().case();
    let history = match drive_shaped_case(rt, alloc, typed, system, case, &meeting) {
        Ok(history) => history,
        Err(fault) => return Err(fault),
    };
    Ok(history_with_times(alloc, &meeting.clock, history)?)
}
