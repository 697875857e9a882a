//! Files of the failures of a campaign, with commands whose arguments are quoted as a shell reads them.
ghost use Rattle.std.specs.Prelude.{◌≡◌, ◌⊎◌, IfErr, IfOk, codes};
ghost use Rattle.pst.specs.Commands.{IsGiven};
ghost use Rattle.pst_cli.specs.declared.answer.Status.TheVariants.{Accepted, Lost};

use crate::input::STANDARD_INPUT;
use crate::outputs::print_file_error_to_stderr;
use clap::ArgMatches;
use pst_cli::{CampaignEnd, Status};
use pst_clients::ClientFolder;
use pst_report::NumberedFailure;
use std::alloc::{AllocError, Global};
use std::io;
use std::rt::Files;

/// The folder that the failures of a campaign are saved in, and the comments of each file.
#[derive(Drop)]
pub struct FailureSaver<'a> {
    folder: &'a str,
    seed: u64,
    /// The arguments of a command before the file that it drives.
    command: String,
}

/// The 64-bit FNV-1a hash of `bytes`.
fn fnv1a_hash(bytes: &[u8]) -> u64 {
    let mut number: u64 = 0xcbf2_9ce4_8422_2325;
    for byte in bytes {
        number = (number ^ *byte as u64).wrapping_mul(0x0100_0000_01b3);
    }
    number
}

/// The arguments that name clients: what the launcher wrote into their folder, or else a word in place of their command.
fn read_client_options_or_placeholder<R: Files + AllocGlobal>(
    rt: &R,
    folder: ClientFolder<'_>,
) -> Result<String, AllocError> {
    let alloc = rt.alloc();
    let name = folder.name;
    let file = format!(in alloc; "{name}/arguments")?;
    match std::fs::read_to_string(rt, file.as_str()) {
        Ok(arguments) => Ok(arguments),
        Err(_) => String::from_str(alloc, "--client COMMAND"),
    }
}

/// Adds the system `name` to a command, or the arguments of the clients that it names.
fn add_system_name_or_client_options<R: Files + AllocGlobal>(
    command: &mut String,
    rt: &R,
    name: &str,
) -> Result<(), AllocError> {
    match ClientFolder::from_argument(name) {
        Some(folder) => command.push_str(read_client_options_or_placeholder(rt, folder)?.as_str()),
        None => command.push_str(name),
    }
}

/// Adds the model's file to a command, or `MODEL` for a model that is not in one named file.
fn add_model_file_or_placeholder(
    command: &mut String,
    arguments: &ArgMatches<'_>,
) -> Result<(), AllocError> {
    match arguments.get_strs("FILE") {
        Some(&[model]) if model != STANDARD_INPUT => push_shell_argument_quoted_if_needed(
            command, model,
        ),
        _ => command.push_str("MODEL"),
    }
}

/// The beginning of a command that drives cases on the systems of a campaign: `pst run`, the system or the clients,
/// `--repeats 20` and the model. The file of the cases comes after it. `MODEL` is in the place of a model that is not
/// in one named file.
fn command_start_to_drive_failure_again<R: Files + AllocGlobal>(
    rt: &R,
    arguments: &ArgMatches<'_>,
    name: &str,
) -> Result<String, AllocError> {
    let alloc = rt.alloc();
    let mut command = String::from_str(alloc, "pst run ")?;
    add_system_name_or_client_options(&mut command, rt, name)?;
    command.push_str(" --repeats 20 ")?;
    add_model_file_or_placeholder(&mut command, arguments)?;
    Ok(command)
}

/// The text of a file: comments that say where the failure is from and how its case is driven again, and the run.
fn failure_file_text(
    alloc: Global,
    saving: &FailureSaver<'_>,
    file: &str,
    numbered: &NumberedFailure,
) -> Result<Vec<u8>, AllocError> {
    let NumberedFailure { number, failure } = numbered;
    let (seed, verdict) = (saving.seed, failure.verdict.as_str());
    let mut text = format!(in alloc; "; Seed {seed}, trial {number}: {verdict}\n")?;
    let mut command = saving.command.clone()?;
    command.push_str(" ")?;
    push_shell_argument_quoted_if_needed(&mut command, file)?;
    if !command.as_str().contains('\n') {
        let line = format!(in alloc; "; {command}\n")?;
        text.push_str(line.as_str())?;
    }
    let mut text = text.into_bytes();
    text.extend_from_slice(failure.run.as_slice())?;
    Ok(text)
}

/// Refuses a folder for failures that is a file, or `-`. The error is the status that the program ends with, and
/// standard error says why.
pub fn refuse_file_as_save_folder<R: Files + Eprint>(
    rt: &R,
    matches: &ArgMatches<'_>,
) -> Result<(), Status> {
    let Some(("campaign", arguments)) = matches.subcommand() else {
        return Ok(());
    };
    let Some(folder) = arguments.get_str("save") else {
        return Ok(());
    };
    if folder == STANDARD_INPUT {
        let _ = eprintln!(rt;
            "error: --save takes the name of a folder, and `-` is none: name one, as in --save failures"
        );
        return Err(Status::Refused);
    }
    match std::fs::metadata(rt, folder) {
        Ok(found) if found.is_file() => {
            let _ = eprintln!(rt; "pst: {folder} is a file: --save takes a folder");
            Err(Status::Refused)
        }
        _ => Ok(()),
    }
}

impl<'a> FailureSaver<'a> {
    /// Makes the folder that the arguments name, if they name one and unless it is there, for the failures of a campaign on
    /// the systems `name`. If it cannot be made, standard error says why, and the status is `Lost`.
    pub fn begin_if_wanted<R: Files + Eprint + AllocGlobal>(
        rt: &R,
        arguments: &ArgMatches<'a>,
        seed: u64,
        name: &str,
    ) -> Result<Result<Option<FailureSaver<'a>>, Status>, AllocError>
        ensures folder { IfOk result (λ begun. IfErr begun (λ status. (status ≡ Lost) × IsGiven arguments.now (codes "save"))) }
        ensures memory { IfErr result (λ e. IsGiven arguments.now (codes "save")) }
    {
        let Some(folder) = arguments.get_str("save") else {
            return Ok(Ok(None));
        };
        if let Err(error) = std::fs::create_dir_all(rt, folder) {
            print_file_error_to_stderr(rt, rt.alloc(), "make", folder, &error);
            return Ok(Err(Status::Lost));
        }
        let command = command_start_to_drive_failure_again(rt, arguments, name)?;
        Ok(Ok(Some(FailureSaver {
            folder,
            seed,
            command,
        })))
    }

    /// Writes the file of a failure.
    fn write<R: Files + AllocGlobal>(&self, rt: &R, numbered: &NumberedFailure) -> io::Result<()> {
        let alloc = rt.alloc();
        let case = fnv1a_hash(numbered.failure.case.as_slice());
        let folder = self.folder;
        let file = format!(in alloc; "{folder}/failure-{case:016x}.runs")?;
        let text = failure_file_text(alloc, self, file.as_str(), numbered)?;
        std::fs::write(rt, file.as_str(), text.as_slice())
    }

    /// Writes the files of the failures of a campaign, each shrunk case once, and returns how many there are.
    fn write_failures<R: Files + AllocGlobal>(
        &self,
        rt: &R,
        end: &CampaignEnd,
    ) -> io::Result<usize> {
        let failures = end.distinct_failures(rt.alloc())?;
        for numbered in &failures {
            self.write(rt, numbered)?;
        }
        Ok(failures.len())
    }

    /// Saves the failures of a campaign, and says on standard error how many there are, unless it is to be quiet. The status
    /// is `Lost` if one cannot be written, and else `Accepted`.
    pub fn save_failures<R: Files + Eprint + AllocGlobal>(
        &self,
        rt: &R,
        end: &CampaignEnd,
        is_quiet: bool,
    ) -> Status
        ensures { (result ≡ Accepted) ⊎ (result ≡ Lost) }
    {
        let folder = self.folder;
        let count = match self.write_failures(rt, end) {
            Ok(count) => count,
            Err(error) => {
                print_file_error_to_stderr(rt, rt.alloc(), "write a failure to", folder, &error);
                return Status::Lost;
            }
        };
        if count > 0 && !is_quiet {
            let failures = if count == 1 { "failure" } else { "failures" };
            let _ = eprintln!(rt; "pst: saved {count} {failures} in {folder}");
        }
        Status::Accepted
    }
}

/// Whether a shell takes the character for itself wherever it is.
fn is_safe_unquoted_in_shell(character: char) -> bool {
    matches!(character, 'a'..='z' | 'A'..='Z' | '0'..='9' | '/' | '.' | '_' | '-' | ':' | ',' | '=' | '+' | '@' | '%')
}

/// Adds an argument to the text of a command, between quotes if a shell would not read it as one word.
fn push_shell_argument_quoted_if_needed(
    command: &mut String,
    argument: &str,
) -> Result<(), AllocError> {
    if !argument.is_empty()
        && argument
            .chars()
            .all(|character| is_safe_unquoted_in_shell(character))
    {
        return command.push_str(argument);
    }
    command.push('\'')?;
    for character in argument.chars() {
        if character == '\'' {
            command.push_str("'\\''")?;
        } else {
            command.push(character)?;
        }
    }
    command.push('\'')
}
