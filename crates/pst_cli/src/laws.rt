//! An input has one output, keeping on changes nothing if no item is refused, and a stream of items has the output of a
//! file of them.
ghost use Rattle.pst_cli.specs.KeepingOn.{KeepsJudgements};
ghost use Rattle.pst_cli.specs.OneOutput.{OneCheckOutput, OneJudgeOutput};
ghost use Rattle.pst_cli.specs.StreamOutput.{StreamsAreFiles};

use pst_judge::judgement_is_unique;
use pst_rejudge::stream_lines_are_judged_as_items;
use pst_sexpr::laws::{
    bytes_have_one_fault, bytes_have_one_reading, bytes_with_trees_have_no_fault,
};
use pst_typing::{first_ill_typed_item_is_unique, ill_typed_item_makes_model_ill_typed};

/// `check_text` and `judge_text` have at most one text and one status for an input, by their definitions.
pub fn check_and_judge_outputs_are_unique()
    ensures check { OneCheckOutput }
    ensures judge { OneJudgeOutput }
{
    bytes_have_one_reading();
    bytes_have_one_fault();
    bytes_with_trees_have_no_fault();
    first_ill_typed_item_is_unique();
    ill_typed_item_makes_model_ill_typed();
    judgement_is_unique();
}

/// If no item is refused, `judge_text_keep_going` writes and returns what `judge_text` does.
pub fn keep_going_changes_nothing_without_refusals()
    ensures { KeepsJudgements }
{}

/// A stream with one item on each line has the lines and the status of `judge_text_keep_going` for a file of these
/// items.
pub fn stream_verdicts_are_file_verdicts()
    ensures { StreamsAreFiles }
{
    stream_lines_are_judged_as_items();
}
