//! `pst judge`, with messages on standard error.
ghost use Rattle.std.specs.Prelude.{All};
ghost use Rattle.pst_cli.specs.Answering.{Delivers, Reaches, Stands, memory_of};
ghost use Rattle.pst_cli.specs.Commands.{IsJudgeAnswer, IsJudgedInput, IsMeant, IsMeantOf};
ghost use Rattle.pst_runs.specs.Lawful.{AreLawful};

use crate::diagnostics::print_messages_if_any;
use crate::item_progress::ProgressDisplay;
use crate::preparing::SubcommandContext;
use crate::subcommands::{order_for_recorded_runs_from_arguments, output_form_from_arguments};
use clap::ArgMatches;
use pst_cli::{
    Attendant, Destinations, FileWithItemResults, ItemResultCounts, JudgeOptions, JudgedFile,
    Judging, Shown, Status, count_items_of_input, judge_items,
};
use pst_input::InputText;
use pst_messages::{
    ItemInput, RefusedItems, first_broken_item_result_and_count_message,
    first_broken_run_and_count_message, precondition_warnings_on_item_results,
    precondition_warnings_on_runs, refused_items_messages_text,
};
use pst_rejudge::ItemResult;
use pst_sexpr::Sink;
use std::alloc::{AllocError, Global};
use std::mem::forget;
use std::sync::Wait;
use std::thread::Threads;

/// Writes why the first broken item of the judged ones is broken, and the warnings on the judged items.
///
/// The program ends after this, and the system frees its memory at once. So the items are not dropped one by one: with
/// many small items that would take an eighth of the instructions of the whole run.
fn print_messages_on_judged_runs<R: Eprint>(
    rt: &R,
    alloc: Global,
    input: ItemInput<'_>,
    file: JudgedFile,
)
    requires { All (λ runs. AreLawful file.compiled runs.items) file.runs.items }
{
    let JudgedFile {
        compiled,
        runs,
        judged,
    } = file;
    let typed = compiled.typed();
    print_messages_if_any(
        rt,
        first_broken_run_and_count_message(alloc, typed, input, judged.as_slice()),
    );
    let warnings = precondition_warnings_on_runs(
        &compiled,
        alloc,
        typed,
        input,
        runs.as_slice(),
        judged.as_slice(),
    );
    print_messages_if_any(rt, warnings);
    forget((compiled, runs, judged));
}

/// The messages on the refused items among the answered ones.
fn refused_item_messages(
    alloc: Global,
    input: &InputText<'_>,
    answers: &[ItemResult],
    messages: JudgeMessages,
) -> Result<Option<String>, AllocError> {
    let refused = RefusedItems::of_item_results(alloc, answers, messages.has_all_refusals)?;
    refused_items_messages_text(alloc, input, &refused)
}

/// Writes why the first broken item of the answered ones is broken, and the warnings on the answered items.
fn print_messages_on_item_results<R: Eprint>(
    rt: &R,
    alloc: Global,
    input: ItemInput<'_>,
    answered: &FileWithItemResults,
) {
    let file = &answered.file;
    let typed = file.compiled.typed();
    let (trees, answers) = (file.trees.as_slice(), answered.answers.as_slice());
    print_messages_if_any(
        rt,
        first_broken_item_result_and_count_message(alloc, typed, input, answers),
    );
    let warnings = precondition_warnings_on_item_results(
        &file.compiled,
        alloc,
        typed,
        input,
        trees,
        answers,
    );
    print_messages_if_any(rt, warnings)
}

/// Counts what was judged, and writes why the first broken item is broken, the warnings on the items, and the messages on
/// refused items if `status` says that there are some.
fn count_and_print_messages<R: Eprint>(
    rt: &R,
    alloc: Global,
    input: &InputText<'_>,
    counts: &mut ItemResultCounts,
    judging: Judging,
    messages: JudgeMessages,
    status: Status,
)
    requires { IsMeantOf IsJudgedInput input.now judging }
{
    let items = ItemInput {
        trees: input.plain_input(),
        read: input.files(),
    };
    match judging {
        Judging::UpToRefusal(file) => {
            counts.add_judged_items(file.judged.as_slice());
            print_messages_on_judged_runs(rt, alloc, items, file);
        }
        Judging::Each(answered) => {
            let answers = answered.answers.as_slice();
            counts.add_item_results(answers);
            print_messages_on_item_results(rt, alloc, items, &answered);
            if status == Status::Refused {
                print_messages_if_any(rt, refused_item_messages(alloc, input, answers, messages));
            }
        }
    }
}

/// Which messages `pst judge` writes to standard error.
#[derive(Clone, Copy, Drop)]
pub struct JudgeMessages {
    /// Whether it writes none, and counts no items.
    is_quiet: bool,
    /// Whether a line displays the progress.
    has_progress_line: bool,
    /// Whether each refused item has a message; else the first twenty have one.
    has_all_refusals: bool,
}

impl JudgeMessages {
    /// The messages that the arguments choose.
    pub fn of_command(context: SubcommandContext<'_, '_>) -> JudgeMessages {
        let is_quiet = context.arguments.get_flag("quiet");
        JudgeMessages {
            is_quiet,
            has_progress_line: context.terminals.errors && !is_quiet,
            has_all_refusals: context.arguments.get_flag("all-messages"),
        }
    }
}

/// How the arguments choose to judge items.
pub fn judge_options_from_arguments(arguments: &ArgMatches<'_>) -> JudgeOptions {
    JudgeOptions {
        form: output_form_from_arguments(arguments),
        keeps_going: arguments.get_flag("keep-going"),
        shown: if arguments.get_flag("failures") {
            Shown::Failures
        } else {
            Shown::All
        },
        order: order_for_recorded_runs_from_arguments(arguments),
        keeps_runs: !arguments.get_flag("quiet"),
    }
}

/// Judges the items of the input, with messages on standard error, and counts the items unless the messages are quiet. `counts`
/// keeps what the input is refused for, if it is.
pub fn judge_with_messages<
    F: Sink,
    W: Sink,
    R: Threads + Wait + Sync + Eprint + AllocGlobal + Copy + Drop + Send + 'static,
>(
    rt: &R,
    options: JudgeOptions,
    messages: JudgeMessages,
    input: &InputText<'_>,
    counts: &mut ItemResultCounts,
    to: &mut Destinations<F, W>,
) -> Status
    requires { Stands F.broken W.broken to.old }
    ensures { Reaches (memory_of options.form) (IsMeant (IsJudgeAnswer options) input.now)
        (Delivers F.taken F.broken W.taken W.broken to.old to.new result) }
{
    let alloc = rt.alloc();
    let has_line = messages.has_progress_line;
    let mut display = ProgressDisplay::of_items(rt, alloc, has_line, "judged");
    if has_line && let Ok(count) = count_items_of_input(alloc, input.plain()) {
        display.steps().restart_with_total(count);
    }
    let (status, judging) = judge_items(rt, alloc, input, options, &mut display, to);
    counts.refusal = display.refusal();
    if !messages.is_quiet
        && let Some(judging) = judging
    {
        count_and_print_messages(rt, alloc, input, counts, judging, messages, status);
    }
    status
}
