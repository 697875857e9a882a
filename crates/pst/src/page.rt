//! The files of a campaign beside its report: `pst campaign --html FILE` and `--junit FILE`.
ghost use Rattle.std.specs.Prelude.{◌≡◌, ◌⊎◌};
ghost use Rattle.pst_cli.specs.declared.answer.Status.TheVariants.{Accepted, Lost};

use crate::input::STANDARD_INPUT;
use crate::outputs::print_why_file_was_not_written;
use clap::{Arg, ArgMatches};
use pst_cli::{CampaignEnd, Status, campaign_failures_html_page, campaign_junit_xml};
use pst_sources::SourceFile;
use std::alloc::{AllocError, Global};
use std::fs::{File, OpenOptions, metadata, remove_file};
use std::io::{self, ErrorKind};
use std::rt::Files;

/// The option that names the file of the page.
pub fn html_option<'a>(alloc: Global) -> Arg<'a> {
    Arg::new(alloc, "html").long("html").value_name("FILE").help(
        "Also writes a page for a browser to FILE, which explains the failures",
    )
}

/// The option that names the file of the results as JUnit XML.
pub fn junit_option<'a>(alloc: Global) -> Arg<'a> {
    Arg::new(alloc, "junit")
        .long("junit")
        .value_name("FILE")
        .help("Also writes the results as JUnit XML to FILE, with a test case for each failure")
}

/// Returns the name of the file of the results as JUnit XML, if the arguments give one.
pub fn junit_file_name_from_arguments<'a>(matches: &ArgMatches<'a>) -> Option<&'a str> {
    let (_, arguments) = matches.subcommand()?;
    arguments.get_str("junit")
}

/// Returns the name of the file of the page, if the arguments give one.
pub fn html_file_name_from_arguments<'a>(matches: &ArgMatches<'a>) -> Option<&'a str> {
    let (_, arguments) = matches.subcommand()?;
    arguments.get_str("html")
}

/// Opens the file `name` to write it and leaves it as it is, or makes it and removes it if it is not there.
/// Pipes and devices are not opened.
fn check_writable_by_opening_or_creating_file<R: Files>(rt: &R, name: &str) -> io::Result<()> {
    match metadata(rt, name) {
        Ok(found) if found.is_file() || found.is_dir() => {
            OpenOptions::new().write(true).open(rt, name)?;
            Ok(())
        }
        Err(error) if error.kind() == ErrorKind::NotFound => {
            File::create_new(rt, name)?;
            remove_file(rt, name)
        }
        _ => Ok(()),
    }
}

/// Refuses the file `name` of an option if it is standard output or cannot be written: a campaign may take hours before the file
/// is. The error is the status that the program ends with, and standard error says why.
fn refuse_unwritable_file<R: Files + Eprint + AllocGlobal>(
    rt: &R,
    option: &str,
    example: &str,
    name: Option<&str>,
) -> Result<(), Status> {
    let Some(name) = name else {
        return Ok(());
    };
    if name == STANDARD_INPUT {
        let _ = eprintln!(rt;
            "error: {option} takes the name of a file, and `-` is none: name one, as in {option} {example}"
        );
        return Err(Status::Refused);
    }
    match check_writable_by_opening_or_creating_file(rt, name) {
        Ok(()) => Ok(()),
        Err(error) => {
            print_why_file_was_not_written(rt, rt.alloc(), name, &error);
            Err(Status::Lost)
        }
    }
}

/// Refuses a page or results as JUnit XML on standard output, and files that cannot be written. The error is the status that
/// the program ends with, and standard error says why.
pub fn refuse_unwritable_files_beside_report<R: Files + Eprint + AllocGlobal>(
    rt: &R,
    matches: &ArgMatches<'_>,
) -> Result<(), Status> {
    let page = html_file_name_from_arguments(matches);
    refuse_unwritable_file(rt, "--html", "failures.html", page)?;
    let junit = junit_file_name_from_arguments(matches);
    refuse_unwritable_file(rt, "--junit", "junit.xml", junit)
}

/// Writes the text of a file, or says on standard error why it was not written. The status is then `Lost`, and else `Accepted`.
fn write_file_beside_report<R: Files + Eprint + AllocGlobal>(
    rt: &R,
    name: &str,
    text: Result<Vec<u8>, AllocError>,
) -> Status
    ensures { (result ≡ Accepted) ⊎ (result ≡ Lost) }
{
    let Ok(text) = text else {
        let _ = eprintln!(rt; "pst: cannot write {name}: memory allocation failed");
        return Status::Lost;
    };
    match std::fs::write(rt, name, text.as_slice()) {
        Ok(()) => Status::Accepted,
        Err(error) => {
            print_why_file_was_not_written(rt, rt.alloc(), name, &error);
            Status::Lost
        }
    }
}

/// Writes the file `name` of the page of a campaign on the input of `files`. The status is `Lost` if the file cannot be
/// written, and else `Accepted`.
pub fn write_campaign_page<R: Files + Eprint + AllocGlobal>(
    rt: &R,
    name: &str,
    files: &[SourceFile<'_>],
    end: &CampaignEnd,
) -> Status
    ensures { (result ≡ Accepted) ⊎ (result ≡ Lost) }
{
    write_file_beside_report(
        rt,
        name,
        campaign_failures_html_page(rt.alloc(), files, end),
    )
}

/// Writes the file `name` of the results of a campaign as JUnit XML. The status is `Lost` if the file cannot be written, and
/// else `Accepted`.
pub fn write_campaign_junit_xml<R: Files + Eprint + AllocGlobal>(
    rt: &R,
    name: &str,
    end: &CampaignEnd,
) -> Status
    ensures { (result ≡ Accepted) ⊎ (result ≡ Lost) }
{
    write_file_beside_report(rt, name, campaign_junit_xml(rt.alloc(), end))
}
