//! A law of the shrink candidates.
ghost use Rattle.pst_shrink.specs.Weight.{CandidatesAreLesser};

/// Every shrink candidate weighs less than its case, so that shrinking ends. A command of a branch weighs 2,
/// and any other command 1.
pub fn candidates_are_lesser()
    ensures { CandidatesAreLesser }
{}
