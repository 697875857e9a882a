//! The report of a campaign, with its first two lines, and why it was not written to its end.
ghost use Rattle.std.specs.Prelude.{◌≡◌, false, IfOk, length, string_bytes};
ghost use Rattle.pst_report.specs.FaultName.{fault_name};
ghost use Rattle.pst_report.specs.InOrder.{AreOf};
ghost use Rattle.pst_report.specs.Least.{least_failure};
ghost use Rattle.pst_report.specs.Text as spec;
ghost use Rattle.pst_report.specs.Written.{WritesReport};

use crate::counterexample::failed_trial_report_lines;
use crate::counts::entry_count_report_lines;
use crate::failures::first_failed_trial;
use pst_judge::CallOrder;
use pst_ledger::{Closed, Entry};
use pst_model::Typed;
use pst_sexpr::{Sink, WriteFailed, put_all};
use pst_trial::{Plan, Record, Settings};
use std::alloc::{AllocError, Global};
use thiserror::Error;

/// Why a report was not written to the end.
#[derive(Clone, Copy, Debug, PartialEq, Eq, Drop, Error)]
pub enum ReportFault {
    /// The writer has failed. A beginning of the report went out.
    #[error("the writer failed")]
    WriteFailed,
    /// An allocation failed. Nothing went out, and the writer has not failed.
    #[error("not enough memory")]
    NoMemory,
}

impl ReportFault {
    /// The word for the fault.
    pub fn name(&self) -> &'static str
        ensures { result.now ≡ fault_name self.now }
    {
        match self {
            ReportFault::WriteFailed => "WriteFailed",
            ReportFault::NoMemory => "NoMemory",
        }
    }
}

impl From<AllocError> for ReportFault {
    ghost use Rattle.std.specs.Prelude.{◌≡◌};
    ghost use Rattle.pst_report.specs.declared.writer.ReportFault.TheVariants.{NoMemory};

    ghost from_gives = { λ _ e. e ≡ NoMemory };

    fn from(_refused: AllocError) -> ReportFault {
        ReportFault::NoMemory
    }
}

impl From<WriteFailed> for ReportFault {
    ghost use Rattle.std.specs.Prelude.{◌≡◌};
    ghost use Rattle.pst_report.specs.declared.writer.ReportFault.TheVariants as fault;

    ghost from_gives = { λ _ e. e ≡ fault.WriteFailed };

    fn from(_failed: WriteFailed) -> ReportFault {
        ReportFault::WriteFailed
    }
}

/// The lines of the lowest number whose trial failed, or `least none`.
fn first_failed_trial_lines_or_none(
    alloc: Global,
    plan: &Plan,
    entries: &[Entry<Record>],
) -> Result<Vec<u8>, AllocError>
    requires { AreOf plan.now 0 entries.now }
    ensures { IfOk result (λ lines.
        lines.items ≡ spec.least_lines plan.now.model (least_failure 0 entries.now)) }
{
    match first_failed_trial(plan, entries) {
        Some((number, shrunk)) => failed_trial_report_lines(alloc, plan.typed(), number, shrunk),
        None => Vec::from_slice(alloc, b"least none\n"),
    }
}

/// The whole text of the report.
#[tactic(auto, unfolding(crate::specs::Text::report_text))]
fn campaign_report_text(
    alloc: Global,
    plan: &Plan,
    entries: &[Entry<Record>],
) -> Result<Vec<u8>, AllocError>
    requires { AreOf plan.now 0 entries.now }
    ensures { IfOk result (λ text. text.items ≡ spec.report_text plan.now entries.now) }
{
    let mut text = campaign_plan_report_lines(alloc, plan)?.into_bytes();
    text.extend_from_slice(entry_count_report_lines(alloc, entries)?.as_bytes())?;
    text.extend_from_slice(first_failed_trial_lines_or_none(alloc, plan, entries)?.as_slice())?;
    Ok(text)
}

/// Writes the report of a campaign: the plan, how many trials ended in which way, which numbers were lost, and
/// the lowest number whose trial failed, with its own failing run and the last run of shrinking. The text
/// depends only on the plan and on the entry of each number. All of it is made before its first byte is
/// written.
///
/// The list must have as many numbers as the plan has trials, each record in it must belong to the plan and be
/// at its own number, and the writer must not have failed.
///
/// `WriteFailed`: the writer has failed, and a beginning of the text went out. `NoMemory`: an allocation
/// failed; nothing went out, and the writer has not failed.
pub fn report<W: Sink>(
    alloc: Global,
    plan: &Plan,
    closed: &Closed<Record>,
    writer: &mut W,
) -> Result<(), ReportFault>
    requires trials { length closed.now ≡ plan.now.settings.trials }
    requires records { AreOf plan.now 0 closed.now }
    requires stands { W.broken writer.old ≡ false }
    ensures { WritesReport (W.taken writer.old) (W.taken writer.new) (W.broken writer.new) result
        (spec.report_text plan.now closed.now) }
{
    let text = campaign_report_text(alloc, plan, closed.entries())?;
    put_all(text.as_slice(), writer)?;
    Ok(())
}

/// `campaign NAME`.
fn campaign_name_report_line(alloc: Global, typed: &Typed) -> Result<String, AllocError>
    ensures { IfOk result (λ line. string_bytes line ≡ spec.name_line typed.now) }
{
    let name = typed.source().name.as_str();
    format!(in alloc; "campaign {name}\n")
}

/// The number of branches, if it is not 2.
fn branches_part_unless_two(alloc: Global, branches: u32) -> Result<String, AllocError>
    ensures { IfOk result (λ part. string_bytes part ≡ spec.branches_part branches) }
{
    if branches == 2 {
        Ok(String::new(alloc))
    } else {
        format!(in alloc; " branches {branches}")
    }
}

/// How many commands the suffix has at most, if it may have any.
fn suffix_part_unless_zero(alloc: Global, suffix: u32) -> Result<String, AllocError>
    ensures { IfOk result (λ part. string_bytes part ≡ spec.suffix_part suffix) }
{
    if suffix == 0 {
        Ok(String::new(alloc))
    } else {
        format!(in alloc; " suffix {suffix}")
    }
}

/// ` order time` if runs are judged in the order of their times.
fn order_part_unless_any(order: CallOrder) -> &'static str
    ensures { result.now ≡ spec.order_part order }
{
    match order {
        CallOrder::Any => "",
        CallOrder::Time => " order time",
    }
}

/// `seed S trials N commands C repeats R limit X`.
fn always_printed_settings_part(alloc: Global, settings: &Settings) -> Result<String, AllocError>
    ensures { IfOk result (λ part. string_bytes part ≡ spec.numbers_part settings.now) }
{
    let seed = settings.seed;
    let trials = settings.trials;
    let commands = settings.commands;
    let repeats = settings.repeats;
    let limit = settings.limit;
    format!(in alloc;
        "seed {seed} trials {trials} commands {commands} repeats {repeats} limit {limit}"
    )
}

/// The settings on one line.
fn campaign_settings_report_line(alloc: Global, settings: &Settings) -> Result<String, AllocError>
    ensures { IfOk result (λ line. string_bytes line ≡ spec.settings_line settings.now) }
{
    let mut line = always_printed_settings_part(alloc, settings)?;
    line.push_str(branches_part_unless_two(alloc, settings.branches)?.as_str())?;
    line.push_str(suffix_part_unless_zero(alloc, settings.suffix)?.as_str())?;
    line.push_str(order_part_unless_any(settings.order))?;
    line.push_str("\n")?;
    Ok(line)
}

/// The lines of the plan.
fn campaign_plan_report_lines(alloc: Global, plan: &Plan) -> Result<String, AllocError>
    ensures { IfOk result (λ lines. string_bytes lines ≡ spec.plan_lines plan.now) }
{
    let mut lines = campaign_name_report_line(alloc, plan.typed())?;
    lines.push_str(campaign_settings_report_line(alloc, plan.settings())?.as_str())?;
    Ok(lines)
}
