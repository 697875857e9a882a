//! `pst campaign`.
ghost use Rattle.std.specs.Prelude.{◌≡◌, ◌⊎◌, IfErr, IfOk, IsSome, codes};
ghost use Rattle.pst_campaign.specs.Entries.{MayGive};
ghost use Rattle.pst.specs.Commands.{IsGiven, SavesFailures};
ghost use Rattle.pst.specs.Endings.{EndsCampaign, IsLostOnlyIf, WritesBeside, WritesFiles};
ghost use Rattle.pst_cli.specs.Answering.{Delivers, Reaches, Stands, memory_of};
ghost use Rattle.pst_cli.specs.Commands.{IsCampaignAnswer};
ghost use Rattle.pst_cli.specs.declared.answer.Status.TheVariants.{Lost};
ghost use Rattle.pst_trial.specs.Settings.{AreInRange};

use crate::campaign_watchers::{CampaignProgress, CampaignWatch, begin_campaign_display};
use crate::commands::CampaignCommand;
use crate::preparing::SubcommandContext;
use crate::running::{SystemsResult, systems_or_absence};
use crate::saving::FailureSaver;
use crate::stop_signals::StopFlag;
use crate::subcommands::{
    Subcommand, campaign_settings_from_arguments, client_options_from_arguments,
};
use crate::systems::system_name_from_arguments_or_empty;
use crate::{diagnostics, failure_explanations, outputs, page};
use clap::ArgMatches;
use pst_campaign::{EarlyStop, Signal};
use pst_cli::{
    Absence, CampaignEnd, Destinations, KnownSystem, ReportOptions, Status, refuse, report_campaign,
};
use pst_input::InputText;
use pst_sexpr::Sink;
use pst_sources::{Input, SourceFile};
use pst_system::{BoxedSystem, System};
use pst_trial::Settings;
use std::alloc::{AllocError, Global};
use std::rt::Files;
use std::sync::Wait;
use std::thread::Threads;

/// Runs a campaign until `signal` is given, and writes its report once it is complete. If standard error is a terminal, a
/// line on it displays the progress, unless the arguments forbid it. Returns the status of the report, and what the trials
/// came to if one could begin.
fn run_campaign_with_progress<
    F: Sink,
    W: Sink,
    N: Signal + Sync + Drop,
    R: Threads + Wait + Sync + Eprint + AllocGlobal + Copy + Drop + Send + 'static,
>(
    rt: &R,
    context: SubcommandContext<'_, '_>,
    campaign: CampaignCommand<'_, '_>,
    input: &[u8],
    systems: Vec<BoxedSystem>,
    signal: N,
    to: &mut Destinations<F, W>,
) -> (Status, Option<CampaignEnd>)
    requires ranges { AreInRange campaign.settings }
    requires stands { Stands F.broken W.broken to.old }
    ensures { Reaches (memory_of campaign.entry.form)
        (IsCampaignAnswer campaign.entry.form campaign.entry.undrawn (IsSome campaign.entry.most ⊎ N.may_be_given signal)
        (λ s. MayGive ((System-box s).answers s.value) ((System-box s).fails s.value)
        ((System-box s).reset_fails s.value)) campaign.entry.settings systems.items input.now)
        (Delivers F.taken F.broken W.taken W.broken to.old to.new result.0) }
{
    let (alloc, settings) = (rt.alloc(), campaign.settings);
    let options = ReportOptions {
        form: campaign.form,
        undrawn: campaign.undrawn,
    };
    let progress = if context.terminals.errors && !context.arguments.get_flag("quiet") {
        CampaignProgress::shared(alloc, settings.trials as u64)
    } else {
        None
    };
    let mut display = begin_campaign_display(rt, alloc, &progress);
    let watch = CampaignWatch {
        progress,
        ending: EarlyStop::new(campaign.most, signal),
    };
    report_campaign(
        rt,
        alloc,
        input,
        settings,
        systems,
        &watch,
        options,
        &mut display,
        to,
    )
}

/// Writes the page of a campaign to the file `name`, if there is one. The status is `Lost` if it cannot be written, and else
/// `Accepted`.
fn write_page_if_wanted<R: Eprint + Files + AllocGlobal>(
    rt: &R,
    name: Option<&str>,
    files: &[SourceFile<'_>],
    end: &CampaignEnd,
) -> Status
    ensures { IsLostOnlyIf (IsSome name.entry) result }
{
    match name {
        Some(name) => page::write_campaign_page(rt, name, files, end),
        None => Status::Accepted,
    }
}

/// Writes the results of a campaign as JUnit XML to the file `name`, if there is one. The status is `Lost` if it cannot be
/// written, and else `Accepted`.
fn write_junit_xml_if_wanted<R: Eprint + Files + AllocGlobal>(
    rt: &R,
    name: Option<&str>,
    end: &CampaignEnd,
) -> Status
    ensures { IsLostOnlyIf (IsSome name.entry) result }
{
    match name {
        Some(name) => page::write_campaign_junit_xml(rt, name, end),
        None => Status::Accepted,
    }
}

/// Writes the page of a campaign and its results as JUnit XML, those that are wanted. The status is `Lost` if one cannot be
/// written, and else `Accepted`.
fn write_files_if_wanted<R: Eprint + Files + AllocGlobal>(
    rt: &R,
    campaign: CampaignCommand<'_, '_>,
    files: &[SourceFile<'_>],
    end: &CampaignEnd,
) -> Status
    ensures { IsLostOnlyIf (WritesFiles campaign.entry) result }
{
    let page = write_page_if_wanted(rt, campaign.page, files, end);
    let junit = write_junit_xml_if_wanted(rt, campaign.junit, end);
    page.or_worse(junit)
}

/// Saves the failures of a campaign, if they are saved. The status is `Lost` if one cannot be written, and else `Accepted`.
fn save_failures_if_wanted<R: Eprint + Files + AllocGlobal>(
    rt: &R,
    saver: Option<&FailureSaver<'_>>,
    end: &CampaignEnd,
    is_quiet: bool,
) -> Status
    ensures { IsLostOnlyIf (IsSome saver.entry) result }
{
    match saver {
        Some(saver) => saver.save_failures(rt, end, is_quiet),
        None => Status::Accepted,
    }
}

/// Writes explanations of the smallest failure and of the first trial without a case to standard error, and without such a
/// trial the warnings on the model.
fn print_messages_on_campaign<R: Eprint + AllocGlobal>(
    rt: &R,
    campaign: CampaignCommand<'_, '_>,
    input: Input<'_>,
    end: &CampaignEnd,
    line_width: usize,
) {
    let alloc = rt.alloc();
    let sample = KnownSystem::named(campaign.system);
    failure_explanations::print_campaign_explanations_to_stderr(
        rt,
        alloc,
        sample,
        input.bytes,
        end,
        line_width,
    );
    if end.first_trial_without_case().is_none() {
        diagnostics::print_input_warnings_to_stderr(rt, alloc, input.files, input.bytes);
    }
}

/// Returns whether some failure of a campaign is unexplained. If an allocation fails, none is.
fn has_unexplained_failure(alloc: Global, end: &CampaignEnd) -> bool {
    let Ok(failures) = end.distinct_failures(alloc) else {
        return false;
    };
    failures.iter().any(|numbered| numbered.failure.verdict.starts_with("unexplained"))
}

/// Writes to standard error that a call may have taken effect in a later run, if some trial is unexplained, a call of the
/// campaign had an unknown outcome or ended its client, and no reset waited for it.
fn print_note_if_call_may_be_late<R: Eprint + AllocGlobal>(
    rt: &R,
    context: SubcommandContext<'_, '_>,
    end: &CampaignEnd,
) {
    if !context.notes.has_call_that_may_be_late()
        || client_options_from_arguments(context.matches).settle_milliseconds > 0
        || !has_unexplained_failure(rt.alloc(), end)
    {
        return;
    }
    let _ = eprintln!(rt;
        "pst: a call of unknown outcome may have taken effect in a later run: let a reset make a new state, or wait with --settle 1"
    );
}

/// Writes what a campaign came to: its files; if `has_messages`, messages on standard error; and the failures in a folder.
fn write_end_of_campaign<R: Eprint + Files + AllocGlobal>(
    rt: &R,
    context: SubcommandContext<'_, '_>,
    campaign: CampaignCommand<'_, '_>,
    input: Input<'_>,
    has_messages: bool,
    end: &CampaignEnd,
) -> Status
    ensures { IsLostOnlyIf (WritesBeside campaign.entry) result }
{
    let written = write_files_if_wanted(rt, campaign, input.files, end);
    if has_messages {
        print_messages_on_campaign(rt, campaign, input, end, context.line_width);
        print_note_if_call_may_be_late(rt, context, end);
    }
    let is_quiet = context.arguments.get_flag("quiet");
    let saved = save_failures_if_wanted(rt, campaign.saver, end, is_quiet);
    written.or_worse(saved)
}

/// Writes what is wanted beside the report of a campaign: if it began, what it came to; and if `has_messages` and no trial
/// is without a case, the warnings on the model on standard error. The status is `Lost` if a file or a failure cannot be
/// written, and else `Accepted`.
fn write_beside_report<R: Eprint + Files + AllocGlobal>(
    rt: &R,
    context: SubcommandContext<'_, '_>,
    campaign: CampaignCommand<'_, '_>,
    input: Input<'_>,
    has_messages: bool,
    end: &Option<CampaignEnd>,
) -> Status
    ensures { IsLostOnlyIf (WritesBeside campaign.entry) result }
{
    let Some(end) = end else {
        if has_messages {
            diagnostics::print_input_warnings_to_stderr(rt, rt.alloc(), input.files, input.bytes);
        }
        return Status::Accepted;
    };
    write_end_of_campaign(rt, context, campaign, input, has_messages, end)
}

/// Writes to standard error that the file that ends the campaign is there before it begins, if that is so.
fn print_warning_if_stop_file_exists<R: Eprint>(
    rt: &R,
    arguments: &ArgMatches<'_>,
    signal: StopFlag<'_>,
) {
    if let Some(name) = arguments.get_str("stop-file")
        && signal.is_given()
    {
        let _ = eprintln!(rt; "pst: {name} is there already: no trial was begun");
    }
}

/// Writes to standard error that no case has calls in two branches, if the settings leave too few commands for them.
fn print_note_if_branches_lack_commands<R: Eprint>(rt: &R, settings: Settings) {
    if settings.branches >= 2 && settings.commands < settings.suffix.saturating_add(2) {
        let _ = eprintln!(rt;
            "pst: no two calls are made at the same time: --commands {} with --suffix {} leaves fewer than two for the branches",
            settings.commands, settings.suffix
        );
    }
}

/// Returns whether there are systems for a campaign.
fn has_systems(systems: &SystemsResult) -> bool {
    match systems {
        Ok(systems) => !systems.is_empty(),
        Err(_) => false,
    }
}

/// Writes to standard error what is odd about a campaign, unless the arguments forbid that, and makes the folder for its
/// failures, if they are saved. The inner error is the status that the program ends with.
fn begin_campaign<'a, R: Eprint + Files + AllocGlobal>(
    rt: &R,
    arguments: &ArgMatches<'a>,
    signal: StopFlag<'_>,
) -> Result<Result<Option<FailureSaver<'a>>, Status>, AllocError>
    ensures folder { IfOk result (λ begun. IfErr begun
        (λ status. (status ≡ Lost) × IsGiven arguments.now (codes "save"))) }
    ensures memory { IfErr result (λ e. IsGiven arguments.now (codes "save")) }
{
    let Some(settings) = campaign_settings_from_arguments(arguments) else {
        return Ok(Ok(None));
    };
    if !arguments.get_flag("quiet") {
        print_warning_if_stop_file_exists(rt, arguments, signal);
        print_note_if_branches_lack_commands(rt, settings);
    }
    let name = system_name_from_arguments_or_empty(arguments);
    FailureSaver::begin_if_wanted(rt, arguments, settings.seed, name)
}

/// Begins the campaign that the arguments choose, if they choose one and its systems were made. The inner error is the status
/// that the program ends with.
pub fn begin_campaign_if_systems_are_made<'a, R: Eprint + Files + AllocGlobal>(
    rt: &R,
    context: SubcommandContext<'_, 'a>,
    systems: &SystemsResult,
) -> Result<Result<Option<FailureSaver<'a>>, Status>, AllocError>
    ensures folder { IfOk result (λ begun. IfErr begun
        (λ status. (status ≡ Lost) × SavesFailures context.entry.subcommand context.entry.arguments.now)) }
    ensures memory { IfErr result (λ e. SavesFailures context.entry.subcommand context.entry.arguments.now) }
{
    if !has_systems(systems) {
        return Ok(Ok(None));
    }
    match context.subcommand {
        Subcommand::Campaign => begin_campaign(rt, context.arguments, context.signal),
        _ => Ok(Ok(None)),
    }
}

/// Writes to standard error that no call was made in any trial, if each trial passed and that is so, and what to mend.
fn print_message_if_nothing_was_tested<R: Eprint>(
    rt: &R,
    status: Status,
    end: &Option<CampaignEnd>,
) {
    let Some(end) = end else {
        return;
    };
    if status != Status::Accepted || end.has_call() {
        return;
    }
    if end.entries().is_empty() {
        let _ = eprintln!(rt; "pst: nothing was tested: --trials is 0");
    } else {
        let _ = eprintln!(rt;
            "pst: nothing was tested: no trial made a call. Let `command` list a call whose precondition is true in the initial state"
        );
    }
}

/// Runs a campaign with a worker for each of the systems, and writes what is wanted beside its report. It refuses if the
/// systems were not made, or there are none. Unless the arguments forbid it, a line on standard error displays the
/// progress, if that is a terminal, and explanations and warnings follow after the report. That nothing was tested is said
/// in any case.
pub fn run_campaign_on_systems<
    F: Sink,
    W: Sink,
    R: Threads + Wait + Sync + Eprint + Files + AllocGlobal + Copy + Drop + Send + 'static,
>(
    rt: &R,
    context: SubcommandContext<'_, '_>,
    campaign: CampaignCommand<'_, '_>,
    input: &InputText<'_>,
    systems: SystemsResult,
    to: &mut Destinations<F, W>,
) -> Status
    requires ranges { AreInRange campaign.settings }
    requires stands { Stands F.broken W.broken to.old }
    ensures { EndsCampaign (Delivers F.taken F.broken W.taken W.broken to.old to.new) systems
        (λ s. (System-box s).answers s.value) (λ s. (System-box s).fails s.value)
        (λ s. (System-box s).reset_fails s.value) input.now (IsSome context.entry.signal.is_set)
        campaign.entry result }
{
    let systems = match systems_or_absence(rt, context.arguments, campaign.system, systems) {
        Ok(systems) => systems,
        Err(why) => return refuse(why, to),
    };
    if systems.is_empty() {
        return refuse(Absence::NoSystem(campaign.system), to);
    }
    let (plain, signal) = (input.plain_input(), context.signal);
    let (status, end) = run_campaign_with_progress(
        rt,
        context,
        campaign,
        plain.bytes,
        systems,
        signal,
        to,
    );
    print_message_if_nothing_was_tested(rt, status, &end);
    let has_messages = !context.arguments.get_flag("quiet") && !outputs::has_output_failed(to);
    let beside = write_beside_report(rt, context, campaign, plain, has_messages, &end);
    status.or_worse(beside)
}
