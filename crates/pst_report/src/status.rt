//! How a campaign ended, and how each of its trials ended, by kinds.
ghost use Rattle.std.specs.Prelude.{◌≡◌};
ghost use Rattle.std.specs.List.{list_any};
ghost use Rattle.pst_report.specs.Status as spec;
ghost use Rattle.pst_report.specs.Kinds as kinds_spec;
ghost use Rattle.pst_shrink.specs.Shrinking.{first_of};

use pst_judge::Verdict;
use pst_ledger::{Closed, Entry};
use pst_shrink::{FailingCase, Shrunk};
use pst_trial::{JudgedRun, Record, TrialOutcome};

/// How a campaign ended.
#[derive(Clone, Copy, Debug, PartialEq, Eq, Drop)]
pub enum CampaignStatus {
    /// Every trial passed.
    Passed,
    /// Each trial was run to its end, and one did not pass: it failed, or no case was generated for it.
    Failed,
    /// Some number is lost, held or undrawn.
    Incomplete,
}

fn is_lost_or_undrawn_entry(entry: &Entry<Record>) -> bool
    ensures { result ≡ spec.is_missing entry.now }
{
    let kind = entry_kind(entry);
    kind.is_same(EntryKind::Lost) || kind.is_same(EntryKind::Undrawn)
}

fn is_entry_other_than_passed(entry: &Entry<Record>) -> bool
    ensures { result ≡ spec.is_failed entry.now }
{
    !entry_kind(entry).is_same(EntryKind::Passed)
}

fn any_lost_or_undrawn_entry(entries: &[Entry<Record>]) -> bool
    ensures { result ≡ list_any spec.is_missing entries.now }
{
    entries.iter().any(|entry| is_lost_or_undrawn_entry(entry))
}

fn any_entry_other_than_passed(entries: &[Entry<Record>]) -> bool
    ensures { result ≡ list_any spec.is_failed entries.now }
{
    entries
        .iter()
        .any(|entry| is_entry_other_than_passed(entry))
}

/// How a campaign ended: `Incomplete` goes before `Failed`, and that before `Passed`.
pub fn campaign_status(closed: &Closed<Record>) -> CampaignStatus
    ensures { result ≡ spec.campaign_status closed.now }
{
    let entries = closed.entries();
    if any_lost_or_undrawn_entry(entries) {
        CampaignStatus::Incomplete
    } else if any_entry_other_than_passed(entries) {
        CampaignStatus::Failed
    } else {
        CampaignStatus::Passed
    }
}

fn is_lost_entry(entry: &Entry<Record>) -> bool
    ensures { result ≡ spec.is_lost entry.now }
{
    entry_kind(entry).is_same(EntryKind::Lost)
}

fn is_drawn_entry_other_than_passed(entry: &Entry<Record>) -> bool
    ensures { result ≡ spec.did_not_pass entry.now }
{
    is_entry_other_than_passed(entry) && !entry_kind(entry).is_same(EntryKind::Undrawn)
}

fn any_lost_entry(entries: &[Entry<Record>]) -> bool
    ensures { result ≡ list_any spec.is_lost entries.now }
{
    entries.iter().any(|entry| is_lost_entry(entry))
}

fn any_drawn_entry_other_than_passed(entries: &[Entry<Record>]) -> bool
    ensures { result ≡ list_any spec.did_not_pass entries.now }
{
    entries
        .iter()
        .any(|entry| is_drawn_entry_other_than_passed(entry))
}

/// How a campaign that may end early ended: `Incomplete` if a number is lost; else `Failed` if a trial did not pass, though
/// numbers may be undrawn; else as [`campaign_status`] says.
pub fn status_of_stoppable_campaign(closed: &Closed<Record>) -> CampaignStatus
    ensures { result ≡ spec.ended_status closed.now }
{
    let entries = closed.entries();
    if any_lost_entry(entries) {
        CampaignStatus::Incomplete
    } else if any_drawn_entry_other_than_passed(entries) {
        CampaignStatus::Failed
    } else if any_lost_or_undrawn_entry(entries) {
        CampaignStatus::Incomplete
    } else {
        CampaignStatus::Passed
    }
}

fn is_passed_entry(entry: &Entry<Record>) -> bool
    ensures { result ≡ spec.is_passed entry.now }
{
    entry_kind(entry).is_same(EntryKind::Passed)
}

fn any_passed_entry(entries: &[Entry<Record>]) -> bool
    ensures { result ≡ list_any spec.is_passed entries.now }
{
    entries.iter().any(|entry| is_passed_entry(entry))
}

/// How the trials of a campaign ended that were made, if the campaign ended when its caller wished: `Incomplete` if a number
/// is lost; else `Failed` if a trial did not pass; else `Passed` if a trial passed, though numbers may be undrawn; else as
/// [`campaign_status`] says.
pub fn status_of_made_trials(closed: &Closed<Record>) -> CampaignStatus
    ensures { result ≡ spec.made_status closed.now }
{
    let entries = closed.entries();
    if any_lost_entry(entries) {
        CampaignStatus::Incomplete
    } else if any_drawn_entry_other_than_passed(entries) {
        CampaignStatus::Failed
    } else if any_passed_entry(entries) {
        CampaignStatus::Passed
    } else if any_lost_or_undrawn_entry(entries) {
        CampaignStatus::Incomplete
    } else {
        CampaignStatus::Passed
    }
}

/// How a trial ended.
#[derive(Clone, Copy, Debug, PartialEq, Eq, Drop)]
pub enum EntryKind {
    /// All its runs are explained.
    Passed,
    /// Its own failing run is unexplained.
    Unexplained,
    /// No interleaving explains its own failing run, and a callback faults.
    Faulted,
    /// A reply of its own failing run is no value.
    Broken,
    /// No case was generated for it.
    GenFaulted,
    /// It was drawn, and its trial could not be run to its end.
    Lost,
    /// It was not drawn, or nothing became of it.
    Undrawn,
}

impl EntryKind {
    ghost use Rattle.std.specs.Prelude.{◌≡◌};
    ghost use Rattle.pst_report.specs.Kinds.{is_same};

    /// Whether the kinds are the same.
    pub(crate) fn is_same(self, other: EntryKind) -> bool
        ensures { result ≡ is_same self other }
    {
        self as u8 == other as u8
    }
}

/// The trial's own failing run: the first that was shrunk.
pub fn failing_run_before_shrinking(shrunk: &Shrunk<JudgedRun>) -> &FailingCase<JudgedRun>
    ensures { result.now ≡ kinds_spec.own_failure shrunk.now }
{
    match shrunk.before.as_slice().first() {
        Some(first) => first,
        None => &shrunk.last,
    }
}

fn entry_kind_of_verdict(verdict: &Verdict) -> EntryKind
    ensures { result ≡ kinds_spec.kind_of_verdict verdict.now }
{
    match verdict {
        Verdict::Explained(_) => EntryKind::Passed,
        Verdict::Faulted(_) => EntryKind::Faulted,
        Verdict::Unexplained(_) => EntryKind::Unexplained,
        Verdict::Broken(_) => EntryKind::Broken,
    }
}

fn entry_kind_of_trial_outcome(outcome: &TrialOutcome) -> EntryKind
    ensures { result ≡ kinds_spec.kind_of_outcome outcome.now }
{
    match outcome {
        TrialOutcome::GenFaulted(_) => EntryKind::GenFaulted,
        TrialOutcome::Passed { .. } => EntryKind::Passed,
        TrialOutcome::Failed { shrunk, .. } => {
            entry_kind_of_verdict(&failing_run_before_shrinking(shrunk).history.verdict)
        }
    }
}

/// Returns how a trial ended, by its entry.
fn entry_kind(entry: &Entry<Record>) -> EntryKind
    ensures { result ≡ kinds_spec.kind_of entry.now }
{
    match entry {
        Entry::Undrawn | Entry::Held => EntryKind::Undrawn,
        Entry::Done(record) => entry_kind_of_trial_outcome(record.outcome()),
        Entry::Lost(_) => EntryKind::Lost,
    }
}

/// How many numbers ended in a way.
pub fn count_entries_of_kind(kind: EntryKind, entries: &[Entry<Record>]) -> usize
    ensures { result ≡ kinds_spec.count_of kind entries.now }
{
    entries
        .iter()
        .filter(|entry| entry_kind(entry).is_same(kind))
        .count()
}
