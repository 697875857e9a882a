//! Running the commands of the suffix, also where a call before it has an unknown outcome.
ghost use Rattle.std.specs.Prelude.{◌≡◌, ◌∷◌, [], true, IfOk, MatchOption};
ghost use Rattle.std.specs.List.{list_any};
ghost use Rattle.pst_case.specs.Matches.{replies_of};
ghost use Rattle.pst_case.specs.Recorded.{recorded, result_of};
ghost use Rattle.pst_case.specs.Shape.{joined};
ghost use Rattle.pst_driver.specs.Driven as spec;
ghost use Rattle.pst_driver.specs.Driven.{IsLateReply};
ghost use Rattle.pst_driver.specs.Progress.{LateRuns, SuffixRuns, all_known, calls_known};

use crate::clock::CallSite;
use crate::driving::has_only_value_replies;
use crate::part::{
    add_not_run_replies, call_commands_while_replies_are_values, called_operation,
    make_call_and_classify_answer, real_call_with_known_results,
};
use crate::subject::Subject;
use pst_case::{BannedVariables, Command, History, Reply, any_holds_banned_variable};
use pst_model::Typed;
use pst_value::{Items, Value};
use std::alloc::{AllocError, Global};

// ---- failures before the suffix

/// Whether a call failed, or its answer is no value of its type.
fn is_failure(reply: &Reply) -> bool
    ensures { result ≡ spec.is_failure reply.now }
{
    match reply {
        Reply::Misfit | Reply::Failed => true,
        Reply::Value(_) | Reply::NotRun | Reply::Unknown => false,
    }
}

fn is_any_failure(replies: &[Reply]) -> bool
    ensures { result ≡ list_any spec.is_failure replies.now }
{
    for reply in replies {
        if is_failure(reply) {
            return true;
        }
    }
    false
}

fn split_first(branches: &[Items<Reply>]) -> Option<(&Items<Reply>, &[Items<Reply>])>
    ensures { MatchOption result (branches.now ≡ []) (λ p. branches.now ≡ p.0.now ∷ p.1.now) }
{
    branches.split_first()
}

/// Whether a reply of one of the branches is a failure.
#[tactic(auto, using(crate::proofs::Failures::failures))]
fn is_any_of_branches_failure(branches: &[Items<Reply>]) -> bool
    ensures { result ≡ list_any spec.is_failure (joined branches.now) }
{
    let Some((branch, branches)) = split_first(branches) else {
        return false;
    };
    is_any_failure(branch.as_slice()) || is_any_of_branches_failure(branches)
}

/// Whether some reply of a history is a failure.
#[tactic(auto, using(crate::proofs::Failures::failures))]
fn has_failure(history: &History) -> bool
    ensures { result ≡ list_any spec.is_failure (replies_of history.now) }
{
    is_any_failure(history.prefix.as_slice())
        || is_any_of_branches_failure(history.branches.as_slice())
        || is_any_failure(history.suffix.as_slice())
}

// ---- commands after a call of unknown outcome

/// The result that a reply records, if it is a value.
fn recorded_result(alloc: Global, reply: &Reply) -> Result<Option<Value>, AllocError>
    ensures { IfOk result (λ recorded. recorded ≡ result_of reply.now) }
{
    match reply {
        Reply::Value(value) => Ok(Some(value.copy(alloc)?)),
        Reply::Misfit | Reply::Failed | Reply::NotRun | Reply::Unknown => Ok(None),
    }
}

/// Whether the command after this reply runs.
fn goes_on(reply: &Reply) -> bool
    ensures { result ≡ spec.goes_on reply.now }
{
    match reply {
        Reply::Value(_) | Reply::NotRun => true,
        Reply::Misfit | Reply::Failed | Reply::Unknown => false,
    }
}

/// The reply to a command's call, or `NotRun` if a result that the command needs is missing.
fn call_command_if_its_results_are_there<S: Subject>(
    alloc: Global,
    typed: &Typed,
    system: &S,
    site: CallSite,
    command: &Command,
    known: &[Option<Value>],
) -> Result<Reply, AllocError>
    requires known { calls_known typed.now command.now ≡ true }
    ensures { IfOk result (λ r.
        IsLateReply typed.now (S.may_answer system.now) (S.may_fail system.now) known.now command.now r) }
{
    let call = real_call_with_known_results(
        alloc,
        called_operation(typed, command),
        command,
        known,
    )?;
    if any_holds_banned_variable(call.args.as_slice(), &BannedVariables::Forward(0)) {
        return Ok(Reply::NotRun);
    }
    Ok(make_call_and_classify_answer(typed, system, site, command, &call))
}

/// The replies to the commands of a suffix, called in order from `site` up to the first that fails or has an unknown
/// outcome. Commands that need a result that is missing are not run. `known` has the results before the suffix.
fn call_commands_that_have_their_results<S: Subject>(
    alloc: Global,
    typed: &Typed,
    system: &S,
    site: CallSite,
    commands: &[Command],
    mut known: Vec<Option<Value>>,
) -> Result<Items<Reply>, AllocError>
    requires { all_known typed.now commands.now ≡ true }
    ensures { IfOk result (λ rs.
        LateRuns typed.now (S.may_answer system.now) (S.may_fail system.now) known.items commands.now rs) }
{
    let mut replies = Items::new(alloc);
    let mut rest = commands;
    while let Some((command, later)) = rest.split_first() {
        let reply = call_command_if_its_results_are_there(
            alloc,
            typed,
            system,
            site,
            command,
            known.as_slice(),
        )?;
        if !goes_on(&reply) {
            replies.push(reply)?;
            add_not_run_replies(&mut replies, later)?;
            return Ok(replies);
        }
        known.push(recorded_result(alloc, &reply)?)?;
        replies.push(reply)?;
        rest = later;
    }
    Ok(replies)
}

// ---- the suffix

/// The replies of the suffix. It runs if each reply before it is a value. If not, but no call before it failed, it runs but
/// for the commands that need a missing result.
pub(crate) fn run_suffix_unless_a_call_failed<S: Subject>(
    alloc: Global,
    typed: &Typed,
    system: &S,
    suffix: &[Command],
    so_far: &History,
) -> Result<Items<Reply>, AllocError>
    requires { all_known typed.now suffix.now ≡ true }
    ensures { IfOk result (λ rs. SuffixRuns typed.now (S.may_answer system.now) (S.may_fail system.now)
        (replies_of so_far.now) suffix.now rs) }
{
    let site = CallSite::outside_branches();
    if has_only_value_replies(so_far) {
        let known = so_far.recorded(alloc)?;
        return call_commands_while_replies_are_values(alloc, typed, system, site, suffix, known);
    }
    if has_failure(so_far) {
        let mut replies = Items::new(alloc);
        add_not_run_replies(&mut replies, suffix)?;
        return Ok(replies);
    }
    let known = so_far.recorded(alloc)?;
    call_commands_that_have_their_results(alloc, typed, system, site, suffix, known)
}
