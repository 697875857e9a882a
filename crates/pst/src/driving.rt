//! `pst run`, and messages on misfits, on standard error: what a system answered for each reply `misfit`.
ghost use Rattle.pst_cli.specs.Answering.{Delivers, Reaches, Stands, memory_of};
ghost use Rattle.pst_cli.specs.Commands.{IsDriveAnswer};

use crate::item_progress::ProgressDisplay;
use crate::preparing::SubcommandContext;
use crate::subcommands::{order_for_systems_from_arguments, output_form_from_arguments};
use crate::systems::system_in_box;
use crate::{failure_explanations, outputs};
use clap::ArgMatches;
use pst_case::Run;
use pst_cli::{
    CallOrder, Destinations, DriveOptions, ItemResultCounts, Status, Unattended, drive_items,
};
use pst_driver::{MisfitRecorder, Misfits, misfit_lines_text};
use pst_sexpr::Sink;
use pst_system::{BoxedSystem, System};
use pst_typing::load;
use std::alloc::{AllocError, Global};
use std::sync::{Arc, Wait};
use std::thread::Threads;

/// Writes to standard error why the first broken run is broken, in lines of at most `line_width` bytes, and how many other
/// runs are broken.
fn explain_first_broken_run_and_count_rest<R: Eprint>(
    rt: &R,
    alloc: Global,
    input: &[u8],
    order: CallOrder,
    counts: &mut ItemResultCounts,
    line_width: usize,
) {
    let Some((item, run)) = counts.first_broken.take() else {
        return;
    };
    let Run { shaped, history } = run;
    let Some(history) = history else {
        return;
    };
    let Ok(heading) = format!(in alloc; "item {item} is broken:") else {
        return;
    };
    failure_explanations::print_explanation_if_run_failed(
        rt,
        alloc,
        heading.as_str(),
        input,
        order,
        shaped.into_case(),
        history,
        line_width,
    );
    let others = counts.broken.saturating_sub(1);
    if others > 0 {
        let items = if others == 1 { "item is" } else { "items are" };
        let _ = eprintln!(rt; "{others} more {items} broken");
    }
}

/// How the arguments choose to drive items.
pub fn drive_options_from_arguments(arguments: &ArgMatches<'_>) -> DriveOptions {
    DriveOptions {
        form: output_form_from_arguments(arguments),
        repeats: arguments.get_one("repeats"),
        order: order_for_systems_from_arguments(arguments),
    }
}

/// Drives the items of the input. If there is a list of misfits, a line on standard error displays the progress if that is a
/// terminal, and once the report is written it has what the system answered for each reply `misfit`, and why a run is
/// broken.
pub fn drive_with_messages<
    F: Sink,
    W: Sink,
    R: Threads + Wait + Sync + Eprint + AllocGlobal + Copy + Drop + Send + 'static,
>(
    rt: &R,
    options: DriveOptions,
    context: SubcommandContext<'_, '_>,
    system: &mut BoxedSystem,
    input: &[u8],
    counts: &mut ItemResultCounts,
    to: &mut Destinations<F, W>,
) -> Status
    requires { Stands F.broken W.broken to.old }
    ensures { Reaches (memory_of options.form)
        (IsDriveAnswer options (answers system.old) (fails system.old) (reset_fails system.old) input.now)
        (Delivers F.taken F.broken W.taken W.broken to.old to.new result) }
{
    let alloc = rt.alloc();
    let Some(misfits) = context.misfits else {
        return drive_items(
            rt,
            alloc,
            input,
            system,
            options,
            counts,
            &mut Unattended::new(),
            to,
        );
    };
    set_model_of_misfits_if_it_loads(alloc, misfits, input);
    let mut display = ProgressDisplay::of_items(rt, alloc, context.terminals.errors, "run");
    let status = drive_items(rt, alloc, input, system, options, counts, &mut display, to);
    counts.refusal = display.refusal();
    if !outputs::has_output_failed(to) {
        print_misfits_to_stderr(rt, alloc, misfits);
        explain_first_broken_run_and_count_rest(
            rt,
            alloc,
            input,
            options.order,
            counts,
            context.line_width,
        );
    }
    status
}

/// The misfits of a system, which its box and the program share.
pub type SharedMisfits = Arc<Misfits, Global>;

/// Returns an empty list for the misfits of `run`. `None` for other commands, if the arguments forbid messages, and if
/// an allocation fails.
pub fn new_misfit_list_for_run_unless_quiet(
    alloc: Global,
    matches: &ArgMatches<'_>,
) -> Option<SharedMisfits> {
    let (subcommand, arguments) = matches.subcommand()?;
    if subcommand != "run" || arguments.get_flag("quiet") {
        return None;
    }
    Arc::new(alloc, Misfits::new(alloc).ok()?).ok()
}

/// Returns another owner of the misfits, if there is a list of them.
fn share_misfits(misfits: &Option<SharedMisfits>) -> Option<SharedMisfits> {
    misfits.as_ref()?.clone().ok()
}

/// Returns a system in a box, which records its misfits if there is a list for them.
pub fn boxed_misfit_recorder<S: System>(
    alloc: Global,
    system: S,
    misfits: &Option<SharedMisfits>,
) -> Result<Box<MisfitRecorder<S>>, AllocError> {
    system_in_box(alloc, MisfitRecorder::new(system, share_misfits(misfits)))
}

/// Compares answers from now on with the model at the beginning of `input`, if it can be loaded.
fn set_model_of_misfits_if_it_loads(alloc: Global, misfits: &Misfits, input: &[u8]) {
    if let Ok(Ok(file)) = load(alloc, input) {
        misfits.set_model_if_unset(file.typed);
    }
}

/// Writes a line for each recorded misfit to standard error. If an allocation fails or the lines cannot be written, the
/// runs and their verdicts remain without them.
fn print_misfits_to_stderr<R: Eprint>(rt: &R, alloc: Global, misfits: &Misfits) {
    if let Ok(text) = misfit_lines_text(alloc, misfits) {
        let _ = eprint!(rt; "{text}");
    }
}
