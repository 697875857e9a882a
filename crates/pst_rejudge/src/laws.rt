//! A law of lines that spell one item each.
ghost use Rattle.pst_rejudge.specs.StreamAnswers.{LinesAreItems};

use pst_sexpr::laws::bytes_have_one_reading;

/// The answers to lines that spell one item each are the answers to these items.
pub fn stream_lines_are_judged_as_items()
    ensures { LinesAreItems }
{
    bytes_have_one_reading();
}
