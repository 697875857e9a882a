//! The commands that need nothing but their input.
ghost use Rattle.pst.specs.Answering.{HasTrials, IsInputAnswer, memory_text};
ghost use Rattle.pst_cli.specs.Answering.{Delivers, Reaches, Stands};
ghost use Rattle.pst_cli.specs.Commands.{IsMeant};

use crate::item_progress::ProgressDisplay;
use pst_cli::{
    Attendant, CallOrder, Destinations, ExplainOptions, ItemForm, ItemResultCounts, OutputForm,
    Status, check_model, convert_items, draw_item, explain_items, generate_cases, list_model,
};
use pst_input::InputText;
use pst_sexpr::Sink;
use pst_trial::Settings;
use std::sync::Wait;
use std::thread::Threads;

/// A command that needs nothing but its input, with its options.
#[derive(Clone, Copy, Drop)]
pub enum InputCommand<'a> {
    /// `check`. As JSON, the notices are after the object of the model.
    Check {
        form: OutputForm,
        notices: &'a [u8],
    },
    /// `list`.
    ListCode,
    /// `convert`.
    Convert(ItemForm),
    /// `generate`: the cases of `count` trials from number `first` on.
    Generate {
        form: ItemForm,
        settings: Settings,
        first: u64,
        count: u64,
    },
    /// `explain`.
    Explain {
        options: ExplainOptions<'a>,
        /// Whether a line on standard error displays the progress.
        has_progress_line: bool,
    },
    /// `explain` as the graph of one item, or of the first that is not explained.
    Draw {
        order: CallOrder,
        item: Option<usize>,
        is_whole: bool,
    },
}

/// Writes the output of a command for an input, and returns its status.
fn answer_input_command<F: Sink, W: Sink, R: Threads + Wait + Sync + AllocGlobal, A: Attendant>(
    rt: &R,
    command: InputCommand<'_>,
    input: &InputText<'_>,
    attendant: &mut A,
    to: &mut Destinations<F, W>,
) -> Status
    requires trials { HasTrials command }
    requires stands { Stands F.broken W.broken to.old }
    ensures { Reaches (memory_text command.entry) (IsMeant (IsInputAnswer command.entry) input.now)
        (Delivers F.taken F.broken W.taken W.broken to.old to.new result) }
{
    let alloc = rt.alloc();
    match command {
        InputCommand::Check { form, notices } => check_model(
            alloc, input, form, notices, attendant, to,
        ),
        InputCommand::ListCode => list_model(alloc, input, attendant, to),
        InputCommand::Convert(form) => convert_items(alloc, input, form, attendant, to),
        InputCommand::Generate {
            form,
            settings,
            first,
            count,
        } => generate_cases(rt, alloc, input, form, settings, first, count, to),
        InputCommand::Explain { options, .. } => explain_items(
            rt, alloc, input, options, attendant, to,
        ),
        InputCommand::Draw {
            order,
            item,
            is_whole,
        } => draw_item(rt, alloc, input, order, item, is_whole, attendant, to),
    }
}

/// Returns whether a line on standard error displays the progress of a command.
fn has_progress_line(command: InputCommand<'_>) -> bool {
    match command {
        InputCommand::Explain {
            has_progress_line,
            ..
        } => has_progress_line,
        _ => false,
    }
}

/// Writes the output of a command for an input, and returns its status. `counts` keeps what the input is refused for, if it is.
pub fn answer_with_progress<
    F: Sink,
    W: Sink,
    R: Threads + Wait + Sync + Eprint + AllocGlobal + Copy + Drop + Send + 'static,
>(
    rt: &R,
    command: InputCommand<'_>,
    input: &InputText<'_>,
    counts: &mut ItemResultCounts,
    to: &mut Destinations<F, W>,
) -> Status
    requires trials { HasTrials command }
    requires stands { Stands F.broken W.broken to.old }
    ensures { Reaches (memory_text command.entry) (IsMeant (IsInputAnswer command.entry) input.now)
        (Delivers F.taken F.broken W.taken W.broken to.old to.new result) }
{
    let is_displayed = has_progress_line(command);
    let mut display = ProgressDisplay::of_items(rt, rt.alloc(), is_displayed, "explained");
    let status = answer_input_command(rt, command, input, &mut display, to);
    counts.refusal = display.refusal();
    status
}
