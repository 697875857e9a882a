//! The lost trials of a campaign by their causes, for people to read.
ghost use Rattle.std.specs.Prelude.{◌≡◌, ◌<◌, ◌≤◌, ◌+◌, ◌^◌, ◌++◌, ◌∷◌, [], ℕ, if◌then◌else◌, IfOk, OnOk};
ghost use Rattle.pst_cli.specs.CampaignFailures.{AreLosses, IsLoss, lost_number};
ghost use Rattle.pst_cli.specs.Losses.{AddsLosses};

use pst_ledger::{Cause, Entry};
use pst_trial::Record;
use std::alloc::{AllocError, Global};

/// How many numbers of the trials that were lost for a cause are kept.
const MOST_NAMED: usize = 3;

/// The trials that were lost for a cause.
#[derive(Drop)]
pub struct LostTrials {
    pub cause: Cause,
    /// How many there are, at least one.
    pub count: usize,
    /// The numbers of the first three, from 0, or of all if there are fewer.
    pub first: Vec<usize>,
}

/// Whether a trial was lost for `cause`.
fn is_lost_for_cause(entry: &Entry<Record>, cause: Cause) -> bool
    ensures { (number : ℕ) → lost_number cause number entry.now ≡ (if result then number ∷ [] else []) }
{
    match entry {
        Entry::Lost(why) => *why as u8 == cause as u8,
        Entry::Undrawn | Entry::Held | Entry::Done(_) => false,
    }
}

/// Counts trial `number`, and names it if it is one of the first.
fn add_lost_trial(lost: &mut LostTrials, number: usize) -> Result<(), AllocError>
    requires { lost.old.count + 1 < 2 ^ 64 }
    ensures cause { OnOk result (lost.new.cause ≡ lost.old.cause) }
    ensures count { OnOk result (lost.new.count ≡ lost.old.count + 1) }
    ensures named { OnOk result (lost.old.count < 3
        → lost.new.first.items ≡ lost.old.first.items ++ number ∷ []) }
    ensures counted { OnOk result (3 ≤ lost.old.count → lost.new.first.items ≡ lost.old.first.items) }
{
    if lost.count < MOST_NAMED {
        lost.first.push(number)?;
    }
    lost.count += 1;
    Ok(())
}

/// The trials that were lost for `cause`.
fn trials_lost_for_cause(
    alloc: Global,
    entries: &[Entry<Record>],
    cause: Cause,
) -> Result<LostTrials, AllocError>
    ensures cause { IfOk result (λ lost. lost.cause ≡ cause) }
    ensures loss { IfOk result (IsLoss entries.now) }
{
    let mut lost = LostTrials {
        cause,
        count: 0,
        first: Vec::new(alloc),
    };
    for (number, entry) in entries.iter().enumerate() {
        if is_lost_for_cause(entry, cause) {
            add_lost_trial(&mut lost, number)?;
        }
    }
    Ok(lost)
}

/// Adds the trials that were lost for `cause`, if there is one.
fn add_trials_lost_for_cause(
    alloc: Global,
    losses: &mut Vec<LostTrials>,
    entries: &[Entry<Record>],
    cause: Cause,
) -> Result<(), AllocError>
    ensures { OnOk result (AddsLosses entries.now cause losses.old.items losses.new.items) }
{
    let lost = trials_lost_for_cause(alloc, entries, cause)?;
    if lost.count > 0 {
        losses.push(lost)?;
    }
    Ok(())
}

/// The trials that were lost, for each cause that one was lost for.
pub(crate) fn lost_trials_by_cause(
    alloc: Global,
    entries: &[Entry<Record>],
) -> Result<Vec<LostTrials>, AllocError>
    ensures { IfOk result (λ losses. AreLosses entries.now losses.items) }
{
    let mut losses = Vec::new(alloc);
    add_trials_lost_for_cause(alloc, &mut losses, entries, Cause::ResetFailed)?;
    add_trials_lost_for_cause(alloc, &mut losses, entries, Cause::NoThread)?;
    add_trials_lost_for_cause(alloc, &mut losses, entries, Cause::NoMemory)?;
    Ok(losses)
}
