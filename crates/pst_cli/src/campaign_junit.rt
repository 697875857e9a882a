//! The results of a campaign as JUnit XML, which servers for continuous integration read.
ghost use Rattle.std.specs.Prelude.{◌≡◌};
ghost use Rattle.pst_cli.specs.CampaignFailures.{IsFailingRun};
ghost use Rattle.pst_cli.specs.Page.{AreFailing};

use crate::campaign_end::CampaignEnd;
use crate::explained_run::explain_failure;
use crate::failing_run::TrialFailure;
use crate::failure_page::failures_with_distinct_runs;
use pst_ledger::Entry;
use pst_report::{ShrunkFailure, shrunk_failure_of_record};
use std::alloc::{AllocError, Global};

/// The width of the lines of explanations. The text is for a page, so no postcondition is cut.
const WIDTH: usize = 1_000;

/// The byte, or `?` for one that is no line end and no printable ASCII.
fn printable_byte_or_question_mark(byte: u8) -> u8 {
    if byte == b'\n' || (32 <= byte && byte <= 126) {
        byte
    } else {
        b'?'
    }
}

/// Adds a byte of a text or of the value of an attribute. What is no line end and no printable ASCII becomes `?`.
fn push_escaped_byte(xml: &mut Vec<u8>, byte: u8) -> Result<(), AllocError> {
    match byte {
        b'&' => xml.extend_from_slice(b"&amp;"),
        b'<' => xml.extend_from_slice(b"&lt;"),
        b'>' => xml.extend_from_slice(b"&gt;"),
        b'"' => xml.extend_from_slice(b"&quot;"),
        _ => {
            xml.push(printable_byte_or_question_mark(byte))?;
            Ok(())
        }
    }
}

/// Adds a text or the value of an attribute.
fn push_escaped(xml: &mut Vec<u8>, text: &[u8]) -> Result<(), AllocError> {
    for byte in text {
        push_escaped_byte(xml, *byte)?;
    }
    Ok(())
}

/// Adds the beginning of a test case, up to the end of its tag.
fn push_case_start(xml: &mut Vec<u8>, model: &[u8], name: &[u8]) -> Result<(), AllocError> {
    xml.extend_from_slice(b"  <testcase classname=\"")?;
    push_escaped(xml, model)?;
    xml.extend_from_slice(b"\" name=\"")?;
    push_escaped(xml, name)?;
    xml.extend_from_slice(b"\">\n")
}

/// Adds an error to a test case.
fn push_error(xml: &mut Vec<u8>, message: &[u8]) -> Result<(), AllocError> {
    xml.extend_from_slice(b"    <error message=\"")?;
    push_escaped(xml, message)?;
    xml.extend_from_slice(b"\"/>\n")
}

/// How many trials were lost, whatever the cause.
fn count_lost_trials(end: &CampaignEnd) -> usize {
    let mut count = 0usize;
    for entry in end.entries() {
        if matches!(entry, Entry::Lost(_)) {
            count = count.saturating_add(1);
        }
    }
    count
}

/// Why the campaign could not test all that it began, as an error of its test case. `None` if it could.
fn campaign_error_message(alloc: Global, end: &CampaignEnd) -> Result<Option<String>, AllocError> {
    if let Some(number) = end.first_trial_without_case() {
        return Ok(Some(format!(in alloc; "trial {number} has no case")?));
    }
    let lost = count_lost_trials(end);
    if lost > 0 {
        return Ok(Some(format!(in alloc; "trials that were lost: {lost}")?));
    }
    if end.has_call() {
        return Ok(None);
    }
    Ok(Some(String::from_str(alloc, "no trial made a call")?))
}

/// Adds the test case of the campaign itself, with its error if it has one.
fn push_campaign_case(
    xml: &mut Vec<u8>,
    alloc: Global,
    end: &CampaignEnd,
    error: Option<&str>,
) -> Result<(), AllocError> {
    let plan = end.plan();
    let settings = plan.settings();
    let (seed, trials) = (settings.seed, settings.trials);
    let name = format!(in alloc; "campaign with seed {seed} and {trials} trials")?;
    push_case_start(
        xml,
        plan.typed().source().name.as_str().as_bytes(),
        name.as_bytes(),
    )?;
    if let Some(message) = error {
        push_error(xml, message.as_bytes())?;
    }
    xml.extend_from_slice(b"  </testcase>\n")
}

/// The shrunk failure of the trial with a number, as text.
fn shrunk_failure_of_trial(
    alloc: Global,
    end: &CampaignEnd,
    trial: usize,
) -> Result<Option<ShrunkFailure>, AllocError> {
    match end.entries().get(trial) {
        Some(Entry::Done(record)) => shrunk_failure_of_record(alloc, record),
        _ => Ok(None),
    }
}

/// The text before the line end of a line.
fn line_without_end(line: &[u8]) -> &[u8] {
    match line.split_last() {
        Some((last, text)) if *last == b'\n' => text,
        _ => line,
    }
}

/// Adds the test case of a failure: its name is the shrunk case, and its text the run and why no interleaving explains it.
fn push_failure_case(
    xml: &mut Vec<u8>,
    alloc: Global,
    end: &CampaignEnd,
    failure: &TrialFailure<'_>,
) -> Result<(), AllocError>
    requires { IsFailingRun end.now.plan failure.now.shrunk.now.last }
{
    let explanation = explain_failure(alloc, end, failure, WIDTH)?;
    let Some(shrunk) = shrunk_failure_of_trial(alloc, end, failure.trial)? else {
        return Ok(());
    };
    let model = end.plan().typed().source().name.as_str().as_bytes();
    push_case_start(xml, model, line_without_end(shrunk.case.as_slice()))?;
    xml.extend_from_slice(b"    <failure message=\"")?;
    push_escaped(xml, shrunk.verdict.as_bytes())?;
    let (seed, trial) = (end.plan().settings().seed, failure.trial);
    let start = format!(in alloc; "\">Seed {seed}, trial {trial}:\n")?;
    xml.extend_from_slice(start.as_bytes())?;
    push_escaped(xml, shrunk.run.as_slice())?;
    push_escaped(xml, explanation.as_slice())?;
    xml.extend_from_slice(b"</failure>\n  </testcase>\n")
}

/// Adds the test cases of failures.
fn push_failure_cases(
    xml: &mut Vec<u8>,
    alloc: Global,
    end: &CampaignEnd,
    failures: &[TrialFailure<'_>],
) -> Result<(), AllocError>
    requires { AreFailing end.now.plan failures.now }
{
    for failure in failures {
        push_failure_case(xml, alloc, end, failure)?;
    }
    Ok(())
}

/// Adds the beginning of the document and of the test suite.
fn push_suite_start(
    xml: &mut Vec<u8>,
    alloc: Global,
    end: &CampaignEnd,
    failures: usize,
    errors: usize,
) -> Result<(), AllocError> {
    xml.extend_from_slice(b"<?xml version=\"1.0\" encoding=\"UTF-8\"?>\n<testsuite name=\"")?;
    push_escaped(xml, end.plan().typed().source().name.as_str().as_bytes())?;
    let tests = failures.saturating_add(1);
    let counts = format!(in alloc;
        "\" tests=\"{tests}\" failures=\"{failures}\" errors=\"{errors}\" skipped=\"0\">\n"
    )?;
    xml.extend_from_slice(counts.as_bytes())
}

/// The results of a campaign as a test suite in JUnit XML. The first test case is the campaign itself, with an error if a
/// trial has no case or was lost, or no trial made a call. A test case for each failure follows: the smallest, and then of
/// those that were shrunk to the same run the first, at most 100.
pub fn campaign_junit_xml(alloc: Global, end: &CampaignEnd) -> Result<Vec<u8>, AllocError> {
    let failures = failures_with_distinct_runs(alloc, end.plan(), end.entries())?;
    let error = campaign_error_message(alloc, end)?;
    let (errors, error) = match &error {
        Some(message) => (1, Some(message.as_str())),
        None => (0, None),
    };
    let mut xml = Vec::new(alloc);
    push_suite_start(&mut xml, alloc, end, failures.len(), errors)?;
    push_campaign_case(&mut xml, alloc, end, error)?;
    push_failure_cases(&mut xml, alloc, end, failures.as_slice())?;
    xml.extend_from_slice(b"</testsuite>\n")?;
    Ok(xml)
}
