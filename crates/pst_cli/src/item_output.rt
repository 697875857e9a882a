//! What is written of the items that were driven: the two printers of `pst run`, text and JSON.
ghost use Rattle.std.specs.Prelude.{◌≡◌, [], ◌∷◌, ◌++◌, All, IfOk, IfSome, OnOk, string_bytes};
ghost use Rattle.pst_cli.specs.ItemReports.{IsPrintable};
ghost use Rattle.pst_cli.specs.RunOutput.{drives_fields, drives_line, drives_text, item_in, items_in, lost_line, report_fields, report_text, run_fields, run_text, worst_of_items};
ghost use Rattle.pst_cli.specs.declared.answer.Status.TheVariants.{Accepted};
ghost use Rattle.pst_runs.specs.Lawful.{IsLawful};
ghost use Rattle.pst_runs.specs.Lines.{line_of};
ghost use Rattle.pst_runs.specs.Written.{run_form};
ghost use Rattle.pst_sexpr.specs.Spelling.{spelling};

use crate::answer::{Output, OutputForm, Status};
use crate::driven_item::{DrivenItem, Drives, ItemReport};
use crate::lines::item_verdict_line;
use pst_case::Run;
use pst_driver::DriveFault;
use pst_model::Typed;
use pst_rejudge::{
    Field, FieldName, add_number_field, add_text_field, json_object_line, judged_item_fields,
};
use pst_runs::run_tree;
use pst_sexpr::{Out, WriteFailed, write};
use pst_value::Text;
use std::alloc::{AllocError, Global};

/// The tree of a run in its one spelling.
fn spelled_run(alloc: Global, typed: &Typed, run: &Run) -> Result<Vec<u8>, AllocError>
    requires { IsLawful typed.now run.now }
    ensures { IfOk result (λ text. text.items ≡ spelling (run_form typed.now run.now)) }
{
    let tree = run_tree(alloc, typed, run)?;
    let mut out = Out::new(Vec::new(alloc));
    match write(&tree, &mut out) {
        Ok(()) => Ok(out.into_inner()),
        Err(WriteFailed) => Err(AllocError),
    }
}

/// The tree of a run in its one spelling, and a line end.
pub(crate) fn tree_line_of_run(
    alloc: Global,
    typed: &Typed,
    run: &Run,
) -> Result<Vec<u8>, AllocError>
    requires { IsLawful typed.now run.now }
    ensures { IfOk result (λ line. line.items ≡ line_of (run_form typed.now run.now)) }
{
    let mut line = spelled_run(alloc, typed, run)?;
    line.push(b'\n')?;
    Ok(line)
}

/// The line of a run, if there is one.
fn run_text(alloc: Global, typed: &Typed, run: &Option<Run>) -> Result<Vec<u8>, AllocError>
    requires { IfSome run.now (IsLawful typed.now) }
    ensures { IfOk result (λ text. text.items ≡ run_text typed.now run.now) }
{
    match run {
        Some(run) => tree_line_of_run(alloc, typed, run),
        None => Ok(Vec::new(alloc)),
    }
}

/// `NUMBER lost KIND`.
fn lost_item_line(alloc: Global, number: usize, fault: DriveFault) -> Result<String, AllocError>
    ensures { IfOk result (λ line. string_bytes line ≡ lost_line number fault) }
{
    let mut line = format!(in alloc; "{number} lost ")?;
    line.push_str(fault.name())?;
    line.push_str("\n")?;
    Ok(line)
}

/// The run, if the case was driven, and the line of the verdict on it or why it is not valid; or the line of a loss.
fn report_text(
    alloc: Global,
    typed: &Typed,
    number: usize,
    report: &ItemReport,
) -> Result<Vec<u8>, AllocError>
    requires { IsPrintable typed.now report.now }
    ensures { IfOk result (λ text. text.items ≡ report_text typed.now number report.now) }
{
    match report {
        ItemReport::Judged { run, judged } => {
            let mut text = run_text(alloc, typed, run)?;
            let line = item_verdict_line(alloc, number, judged)?;
            text.extend_from_slice(line.as_bytes())?;
            Ok(text)
        }
        ItemReport::Lost(fault) => Ok(lost_item_line(alloc, number, *fault)?.into_bytes()),
    }
}

/// `NUMBER drives N failed K`.
fn drives_line(alloc: Global, number: usize, drives: u32, failed: u32) -> Result<String, AllocError>
    ensures { IfOk result (λ line. string_bytes line ≡ drives_line number drives failed) }
{
    let line = format!(in alloc; "{number} drives {drives} failed {failed}\n")?;
    Ok(line)
}

/// The line of the drives, if they are counted.
fn drives_text(alloc: Global, number: usize, drives: &Option<Drives>) -> Result<String, AllocError>
    ensures { IfOk result (λ text. string_bytes text ≡ drives_text number drives.now) }
{
    match drives {
        Some(drives) => drives_line(alloc, number, drives.all, drives.failed),
        None => Ok(String::new(alloc)),
    }
}

/// Adds the run as a tree, if there is one.
fn add_run_field(
    alloc: Global,
    fields: &mut Vec<Field>,
    typed: &Typed,
    run: &Option<Run>,
) -> Result<(), AllocError>
    requires { IfSome run.now (IsLawful typed.now) }
    ensures { OnOk result (fields.new.items ≡ fields.old.items ++ run_fields typed.now run.now) }
{
    let Some(run) = run else { return Ok(()) };
    match String::from_utf8(spelled_run(alloc, typed, run)?) {
        Ok(text) => {
            fields.push(Field::Words(FieldName::Run, Text::from_string(text)))?;
            Ok(())
        }
        Err(_) => Err(AllocError),
    }
}

/// The members of a report: the verdict and the run, or why the case is not valid or was lost.
fn report_fields(
    alloc: Global,
    typed: &Typed,
    number: usize,
    report: &ItemReport,
) -> Result<Vec<Field>, AllocError>
    requires { IsPrintable typed.now report.now }
    ensures { IfOk result (λ fields. fields.items ≡ report_fields typed.now number report.now) }
{
    match report {
        ItemReport::Judged { run, judged } => {
            let mut fields = judged_item_fields(alloc, number, judged)?;
            add_run_field(alloc, &mut fields, typed, run)?;
            Ok(fields)
        }
        ItemReport::Lost(fault) => {
            let mut fields = Vec::new(alloc);
            add_number_field(&mut fields, FieldName::Item, number as u64)?;
            add_text_field(alloc, &mut fields, FieldName::Verdict, "lost")?;
            add_text_field(alloc, &mut fields, FieldName::Fault, fault.name())?;
            Ok(fields)
        }
    }
}

/// Adds how many drives were made and how many failed, if drives are counted.
fn add_drives_fields(fields: &mut Vec<Field>, drives: Option<Drives>) -> Result<(), AllocError>
    ensures { OnOk result (fields.new.items ≡ fields.old.items ++ drives_fields drives) }
{
    let Some(Drives { all, failed }) = drives else {
        return Ok(())
    };
    add_number_field(fields, FieldName::Drives, all as u64)?;
    add_number_field(fields, FieldName::Failed, failed as u64)
}

/// What is written of an item.
fn item_in_form(
    alloc: Global,
    typed: &Typed,
    form: OutputForm,
    number: usize,
    item: &DrivenItem,
) -> Result<Vec<u8>, AllocError>
    requires { IsPrintable typed.now item.now.report }
    ensures { IfOk result (λ text. text.items ≡ item_in form typed.now number item.now) }
{
    match form {
        OutputForm::Text => {
            let mut text = report_text(alloc, typed, number, &item.report)?;
            let drives = drives_text(alloc, number, &item.drives)?;
            text.extend_from_slice(drives.as_bytes())?;
            Ok(text)
        }
        OutputForm::Json => {
            let mut fields = report_fields(alloc, typed, number, &item.report)?;
            add_drives_fields(&mut fields, item.drives)?;
            json_object_line(alloc, fields.as_slice())
        }
    }
}

/// What is written of all items, numbered from 1, and the worst of their statuses.
pub(crate) fn output_of_items(
    alloc: Global,
    typed: &Typed,
    form: OutputForm,
    items: &[DrivenItem],
) -> Result<Output, AllocError>
    requires { All (λ item. IsPrintable typed.now item.report) items.now }
    ensures text { IfOk result (λ output. output.text.items ≡ items_in form typed.now 1 items.now) }
    ensures status { IfOk result (λ output. output.status ≡ worst_of_items Accepted items.now) }
{
    let mut text = Vec::new(alloc);
    let mut status = Status::Accepted;
    for (index, item) in items.iter().enumerate() {
        let written = item_in_form(alloc, typed, form, index + 1, item)?;
        text.extend_from_slice(written.as_slice())?;
        status = status.or_worse(item.report.status());
    }
    Ok(Output { text, status })
}
