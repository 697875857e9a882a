//! Laws on when `find_allowed_values` finds each allowed answer, and on the order in which all interleavings count.
ghost use Rattle.pst_reasons.specs.Equality.{EqualityHasOneAnswer};
ghost use Rattle.pst_reasons.specs.Reasons.{AnyOrderHasEachMerge};

/// A command whose postcondition is `(= r e)` or `(= e r)`, without `r` in `e`, has at most one right answer on each
/// state. So if `all` is true, the values of `find_allowed_values` are exactly the answers that the model
/// allows.
pub fn equality_has_one_answer()
    ensures { EqualityHasOneAnswer }
{}

/// In [`pst_grid::AnyOrder`] every interleaving counts: cores and allowed answers are those over all interleavings.
pub fn any_order_has_each_merge()
    ensures { AnyOrderHasEachMerge }
{}
