//! The smallest failure of a campaign.
ghost use Rattle.std.specs.Prelude.{◌≡◌, length, IfSome};
ghost use Rattle.std.specs.List.{count_by};
ghost use Rattle.pst_case.specs.Unknown.{is_unknown};
ghost use Rattle.pst_cli.specs.CampaignFailures as spec;
ghost use Rattle.pst_cli.specs.CampaignFailures.{IsFailingRun, IsSmallestIfAny, command_count, unknown_count};
ghost use Rattle.pst_cli.specs.Smaller.{IsSmaller};
ghost use Rattle.pst_report.specs.InOrder.{AreOf};

use crate::failing_run::{TrialFailure, shrinking_of_entry};
use pst_case::{Case, History, Reply};
use pst_ledger::Entry;
use pst_trial::{FailingCase, JudgedRun, Plan, Record};

/// How many commands a case has.
fn count_commands(case: &Case) -> usize
    ensures { result ≡ command_count case.now }
{
    let mut count = case.prefix.len().saturating_add(case.suffix.len());
    for branch in case.branches.as_slice() {
        count = count.saturating_add(branch.len());
    }
    count
}

/// How many of the replies are unknown.
fn count_unknown_replies(replies: &[Reply]) -> usize
    ensures { result ≡ count_by is_unknown replies.now }
{
    let mut count = 0;
    for reply in replies {
        if reply.is_unknown() {
            count += 1;
        }
    }
    count
}

/// How many calls of a history have an unknown outcome.
fn count_unknown_outcomes(history: &History) -> usize
    ensures { result ≡ unknown_count history.now }
{
    let suffix = count_unknown_replies(history.suffix.as_slice());
    let mut count = count_unknown_replies(history.prefix.as_slice()).saturating_add(suffix);
    for branch in history.branches.as_slice() {
        count = count.saturating_add(count_unknown_replies(branch.as_slice()));
    }
    count
}

/// Whether a failing case has fewer commands than another, or as many and fewer calls of unknown outcome.
fn is_less(case: &FailingCase<JudgedRun>, other: &FailingCase<JudgedRun>) -> bool
    ensures { result ≡ spec.is_less case.now other.now }
{
    let (commands, others) = (count_commands(&case.case), count_commands(&other.case));
    if commands == others {
        return count_unknown_outcomes(&case.history.history)
            < count_unknown_outcomes(&other.history.history);
    }
    commands < others
}

/// The smaller one of a failure, if there is one, and the next: the one that is less, or else the first.
fn smaller_failure<'a>(found: Option<TrialFailure<'a>>, next: TrialFailure<'a>) -> TrialFailure<'a>
    ensures { IsSmaller found.entry next.entry result }
{
    let Some(smallest) = found else {
        return next;
    };
    if is_less(&next.shrunk.last, &smallest.shrunk.last) {
        next
    } else {
        smallest
    }
}

/// Of the failures with the fewest commands, and of these with the fewest calls of unknown outcome, the first, if a trial
/// failed.
pub(crate) fn smallest_failure_of<'a>(
    plan: &Plan,
    entries: &'a [Entry<Record>],
) -> Option<TrialFailure<'a>>
    requires { AreOf plan.now 0 entries.now }
    ensures smallest { IsSmallestIfAny (length entries.now) entries.now result }
    ensures failing { IfSome result (λ f. IsFailingRun plan.now f.shrunk.now.last) }
{
    let mut found = None;
    for (trial, entry) in entries.iter().enumerate() {
        if let Some(shrunk) = shrinking_of_entry(entry) {
            found = Some(smaller_failure(found, TrialFailure { trial, shrunk }));
        }
    }
    found
}
