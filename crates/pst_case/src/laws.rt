//! Laws of renumbering.
ghost use Rattle.pst_case.specs.Laws.{NumbersThatStay};

/// If renumbering changes no number, it changes no value and no command.
pub fn unchanged_numbers_change_nothing()
    ensures { NumbersThatStay }
{}
