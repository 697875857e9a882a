//! The report of a campaign as the members of a JSON object.
ghost use Rattle.std.specs.Prelude.{◌≡◌, [], ◌∷◌, ◌++◌, IfOk, OnOk};
ghost use Rattle.pst_report.specs.InOrder.{AreOf};
ghost use Rattle.pst_report.specs.Matching.{AreMatching, IsMatching};
ghost use Rattle.pst_report.specs.Object as spec;

use crate::counterexample::{failing_run_line, shrink_end_name};
use crate::failures::first_failed_trial;
use crate::status::{
    CampaignStatus, EntryKind, count_entries_of_kind, failing_run_before_shrinking,
};
use crate::unknown_outcomes::count_trials_with_unknown_outcomes;
use pst_judge::CallOrder;
use pst_ledger::{Closed, Entry};
use pst_model::Typed;
use pst_rejudge::{Field, FieldName, add_number_field, add_text_field};
use pst_shrink::{FailingCase, Shrunk};
use pst_trial::{JudgedRun, Plan, Record, Settings};
use pst_value::Text;
use std::alloc::{AllocError, Global};

/// How the campaign ended.
fn campaign_status_name(status: CampaignStatus) -> &'static str
    ensures { result.now ≡ spec.status_word status }
{
    match status {
        CampaignStatus::Passed => "passed",
        CampaignStatus::Failed => "failed",
        CampaignStatus::Incomplete => "incomplete",
    }
}

/// Adds how many trials there are, and the kinds of their cases.
fn add_seed_trials_commands_branches_fields(
    fields: &mut Vec<Field>,
    settings: &Settings,
) -> Result<(), AllocError>
    ensures { OnOk result (fields.new.items ≡ fields.old.items ++ spec.case_fields settings.now) }
{
    add_number_field(fields, FieldName::Seed, settings.seed)?;
    add_number_field(fields, FieldName::Trials, settings.trials as u64)?;
    add_number_field(fields, FieldName::Commands, settings.commands as u64)?;
    add_number_field(fields, FieldName::Branches, settings.branches as u64)
}

/// Adds the order of the calls, if it is that of their times.
fn add_order_field(
    alloc: Global,
    fields: &mut Vec<Field>,
    order: CallOrder,
) -> Result<(), AllocError>
    ensures { OnOk result (fields.new.items ≡ fields.old.items ++ spec.order_fields order) }
{
    match order {
        CallOrder::Any => Ok(()),
        CallOrder::Time => add_text_field(alloc, fields, FieldName::Order, "time"),
    }
}

/// Adds how cases are driven, and which interleavings may explain a run.
fn add_drive_fields(
    alloc: Global,
    fields: &mut Vec<Field>,
    settings: &Settings,
) -> Result<(), AllocError>
    ensures { OnOk result (fields.new.items ≡ fields.old.items ++ spec.drive_fields settings.now) }
{
    add_number_field(fields, FieldName::Suffix, settings.suffix as u64)?;
    add_number_field(fields, FieldName::Repeats, settings.repeats as u64)?;
    add_number_field(fields, FieldName::Limit, settings.limit as u64)?;
    add_order_field(alloc, fields, settings.order)
}

/// Adds how many numbers ended in the way of a kind.
fn add_trial_count_field(
    fields: &mut Vec<Field>,
    name: FieldName,
    kind: EntryKind,
    entries: &[Entry<Record>],
) -> Result<(), AllocError>
    ensures { OnOk result
        (fields.new.items ≡ fields.old.items ++ spec.count_field name kind entries.now ∷ []) }
{
    add_number_field(fields, name, count_entries_of_kind(kind, entries) as u64)
}

/// Adds the counts of the trials that passed or failed.
fn add_passed_and_failed_counts(
    fields: &mut Vec<Field>,
    entries: &[Entry<Record>],
) -> Result<(), AllocError>
    ensures { OnOk result (fields.new.items ≡ fields.old.items ++ spec.judged_fields entries.now) }
{
    add_trial_count_field(fields, FieldName::Passed, EntryKind::Passed, entries)?;
    add_trial_count_field(
        fields,
        FieldName::Unexplained,
        EntryKind::Unexplained,
        entries,
    )?;
    add_trial_count_field(fields, FieldName::Faulted, EntryKind::Faulted, entries)?;
    add_trial_count_field(fields, FieldName::Broken, EntryKind::Broken, entries)
}

/// Adds the counts of the numbers for which there is no run.
fn add_counts_of_trials_without_run(
    fields: &mut Vec<Field>,
    entries: &[Entry<Record>],
) -> Result<(), AllocError>
    ensures { OnOk result (fields.new.items ≡ fields.old.items ++ spec.missing_fields entries.now) }
{
    add_trial_count_field(fields, FieldName::GenFault, EntryKind::GenFaulted, entries)?;
    add_trial_count_field(fields, FieldName::Lost, EntryKind::Lost, entries)?;
    add_trial_count_field(fields, FieldName::Undrawn, EntryKind::Undrawn, entries)
}

/// Adds how many trials had calls of unknown outcome, if any had.
fn add_unknown_outcomes_field(
    fields: &mut Vec<Field>,
    entries: &[Entry<Record>],
) -> Result<(), AllocError>
    ensures { OnOk result (fields.new.items ≡ fields.old.items ++ spec.unknown_fields entries.now) }
{
    let count = count_trials_with_unknown_outcomes(entries);
    if count == 0 {
        return Ok(());
    }
    add_number_field(fields, FieldName::UnknownOutcomes, count as u64)
}

/// Adds the counts of the numbers for which there is no run, and of the trials with calls of unknown outcome.
fn add_other_counts(fields: &mut Vec<Field>, entries: &[Entry<Record>]) -> Result<(), AllocError>
    ensures { OnOk result (fields.new.items ≡ fields.old.items ++ spec.other_fields entries.now) }
{
    add_counts_of_trials_without_run(fields, entries)?;
    add_unknown_outcomes_field(fields, entries)
}

/// The first members of the object of a campaign: how it ended, the name of its model, its plan, and how many
/// trials ended in which way.
///
/// `AllocError`: an allocation failed.
pub fn campaign_report_fields_before_losses(
    alloc: Global,
    plan: &Plan,
    closed: &Closed<Record>,
    status: CampaignStatus,
) -> Result<Vec<Field>, AllocError>
    ensures { IfOk result (λ fields. fields.items ≡ spec.report_fields plan.now status closed.now) }
{
    let entries = closed.entries();
    let mut fields = Vec::new(alloc);
    add_text_field(
        alloc,
        &mut fields,
        FieldName::Verdict,
        campaign_status_name(status),
    )?;
    add_text_field(
        alloc,
        &mut fields,
        FieldName::Model,
        plan.typed().source().name.as_str(),
    )?;
    add_seed_trials_commands_branches_fields(&mut fields, plan.settings())?;
    add_drive_fields(alloc, &mut fields, plan.settings())?;
    add_passed_and_failed_counts(&mut fields, entries)?;
    add_other_counts(&mut fields, entries)?;
    Ok(fields)
}

/// A case with its replies as a tree, without a line end.
fn run_tree_text(
    alloc: Global,
    typed: &Typed,
    taken: &FailingCase<JudgedRun>,
) -> Result<Text, AllocError>
    requires { IsMatching typed.now taken.now }
{
    let mut line = failing_run_line(alloc, typed, taken)?;
    let _ = line.pop();
    match String::from_utf8(line) {
        Ok(text) => Ok(Text::from_string(text)),
        Err(_) => Err(AllocError),
    }
}

/// Adds a run and the verdict on it, under two names.
fn add_failing_run_fields(
    alloc: Global,
    fields: &mut Vec<Field>,
    typed: &Typed,
    names: (FieldName, FieldName),
    taken: &FailingCase<JudgedRun>,
) -> Result<(), AllocError>
    requires { IsMatching typed.now taken.now }
{
    let (run, verdict) = names;
    fields.push(Field::Words(run, run_tree_text(alloc, typed, taken)?))?;
    let words = &taken.history.verdict;
    let words = Text::from_string(format!(in alloc; "{words}")?);
    fields.push(Field::Words(verdict, words))?;
    Ok(())
}

/// Adds how the case of a trial that failed was shrunk.
fn add_shrinking_fields(
    alloc: Global,
    fields: &mut Vec<Field>,
    typed: &Typed,
    shrunk: &Shrunk<JudgedRun>,
) -> Result<(), AllocError>
    requires { AreMatching typed.now shrunk.now }
{
    let from = (FieldName::From, FieldName::FromVerdict);
    add_failing_run_fields(
        alloc,
        fields,
        typed,
        from,
        failing_run_before_shrinking(shrunk),
    )?;
    add_number_field(fields, FieldName::Steps, shrunk.before.len() as u64)?;
    add_text_field(
        alloc,
        fields,
        FieldName::Ending,
        shrink_end_name(shrunk.ending),
    )?;
    add_failing_run_fields(
        alloc,
        fields,
        typed,
        (FieldName::To, FieldName::ToVerdict),
        &shrunk.last,
    )
}

/// The lost numbers, each with its cause, such as `3:Panicked`.
fn lost_trials_with_causes(
    alloc: Global,
    entries: &[Entry<Record>],
) -> Result<Vec<Text>, AllocError> {
    let mut losses = Vec::new(alloc);
    for (number, entry) in entries.iter().enumerate() {
        if let Entry::Lost(cause) = entry {
            let name = cause.name();
            losses.push(Text::from_string(format!(in alloc; "{number}:{name}")?))?;
        }
    }
    Ok(losses)
}

/// Adds the last members of the object of a campaign: the lost numbers, and if a trial failed, the lowest
/// number of a failed trial, its own failing run, and the last run of shrinking, each with its verdict.
///
/// The records must belong to the plan, each at its own number. `AllocError`: an allocation failed.
pub fn add_lost_trials_and_first_failure(
    alloc: Global,
    fields: &mut Vec<Field>,
    plan: &Plan,
    entries: &[Entry<Record>],
) -> Result<(), AllocError>
    requires { AreOf plan.now 0 entries.now }
{
    fields.push(Field::Lines(FieldName::Losses, lost_trials_with_causes(alloc, entries)?))?;
    if let Some((number, shrunk)) = first_failed_trial(plan, entries) {
        add_number_field(fields, FieldName::Least, number as u64)?;
        add_shrinking_fields(alloc, fields, plan.typed(), shrunk)?;
    }
    Ok(())
}
