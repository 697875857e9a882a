//! Shrinking a case by attempts at its candidates: what it gives, why it fails, and its rounds.
ghost use Rattle.std.specs.Prelude.{◌≡◌, ◌+◌, ◌^◌, ◌<◌, IfOk, IfErr, MatchResult, ◌≤◌, length};
ghost use Rattle.pst_shrink.specs.Outcomes.{drives, IsKept};
ghost use Rattle.pst_shrink.specs.FaultName.{fault_name};
ghost use Rattle.pst_shrink.specs.Weight.{weight};
ghost use Rattle.pst_shrink.specs.Shrinking.{IsShrunk, FaultIsReal};
ghost use Rattle.pst_case.specs.Shape.{commands_of};
ghost use Rattle.pst_shrink.specs.Rounds.{IsRound};

use crate::candidates;
use pst_case::Case;
use pst_value::Items;
use std::alloc::{AllocError, Global};

/// A case with the history that it broke with.
#[derive(Debug, Drop)]
pub struct FailingCase<H> {
    /// The case.
    pub case: Case,
    /// The history of the case that breaks the model.
    pub history: H,
}

/// How shrinking ended.
#[derive(Debug, Clone, Copy, PartialEq, Eq, Drop)]
pub enum ShrinkEnd {
    /// Every candidate of the last case was attempted, and none broke.
    Minimal,
    /// As many valid cases were driven as the limit allows, and a candidate of the last case is untried.
    Stopped,
}

/// The result of shrinking: the cases that were taken one after the other, and how that ended.
#[derive(Debug, Drop)]
pub struct Shrunk<H> {
    /// The first case and those taken after it, except the last. It is empty if no candidate of the first case
    /// broke.
    pub before: Items<FailingCase<H>>,
    /// The last case.
    pub last: FailingCase<H>,
    /// The histories of each attempted candidate of the last case, in order, and `None` for one that is not
    /// valid.
    pub tried: Items<Option<Items<H>>>,
    /// Whether all candidates of the last case were attempted.
    pub ending: ShrinkEnd,
}

/// The result of an attempt at a case.
#[derive(Debug, Drop)]
pub enum AttemptOutcome<H> {
    /// The case is not valid, so it was not driven.
    NotValid,
    /// The case was driven, and each of these histories holds.
    Held(Items<H>),
    /// The case was driven: these earlier histories hold, and the last one breaks the model.
    Broke(Items<H>, H),
}

/// Drives a case if it is valid, and judges the histories that it records.
pub trait Attempt {
    ghost use Rattle.std.specs.Prelude.{ℕ};
    ghost use Rattle.pst_case.specs.declared.case.Case.{Case};
    ghost use Rattle.pst_shrink.specs.declared.shrinking.AttemptOutcome.{AttemptOutcome};

    /// What is kept of one run of a case.
    type History: Drop;

    /// Why a case could not be driven.
    type Fault: Drop;

    /// The outcomes that it may return for a case.
    ghost answers: { Self → Case → AttemptOutcome Self.History → Type 0 };

    /// The faults that it may return.
    ghost fails: { Self → Self.Fault → Type 0 };

    /// How many valid cases it has driven.
    ghost driven: { Self → ℕ };

    /// What an attempt leaves as it was, as a relation of the value before and the value after.
    ghost keeps: { Self → Self → Type 0 };

    /// Tries a case. `Err` if it could not be driven.
    fn attempt(&mut self, case: &Case) -> Result<AttemptOutcome<Self::History>, Self::Fault>
        requires { driven self.old < 2 ^ 32 }
        ensures answer { IfOk result (λ o. answers self.old case.now o) }
        ensures fault { IfErr result (λ f. fails self.old f) }
        ensures count { MatchResult result
            (λ o. driven self.new ≡ driven self.old + drives o)
            (λ _. driven self.new ≡ driven self.old) }
        ensures keeps { keeps self.old self.new };

    /// A value that does not change keeps everything.
    ghost keeps_refl: { (a : Self) → keeps a a };

    /// Two attempts in a row keep what each of them keeps.
    ghost keeps_trans: { (a b c : Self) → keeps a b → keeps b c → keeps a c };

    /// What it may return stays the same, as long as `keeps` holds.
    ghost kept: { (a b : Self) → keeps a b → IsKept (answers a) (answers b) (fails a) (fails b) };
}

/// Why a case was not shrunk.
#[derive(Debug, Drop)]
pub enum ShrinkFault<F> {
    /// An attempt returned this fault.
    Attempt(F),
    /// An allocation of shrinking itself failed.
    NoMemory,
}

impl<F> ShrinkFault<F> {
    /// The name of its kind, such as `Attempt`.
    pub fn name(&self) -> &'static str
        ensures { result.now ≡ fault_name self.now }
    {
        match self {
            ShrinkFault::Attempt(_) => "Attempt",
            ShrinkFault::NoMemory => "NoMemory",
        }
    }
}

impl<F> From<AllocError> for ShrinkFault<F> {
    ghost use Rattle.std.specs.Prelude.{◌≡◌};
    ghost use Rattle.pst_shrink.specs.declared.shrinking.ShrinkFault.TheVariants.{NoMemory};

    ghost from_gives = { λ e r. r ≡ NoMemory };

    fn from(_error: AllocError) -> ShrinkFault<F> {
        ShrinkFault::NoMemory
    }
}

/// Shrinks a case that broke with this history: takes the first of its candidates that breaks, then the first
/// of that one's candidates, and so on, until no candidate breaks or `limit` valid cases were driven.
///
/// `ShrinkFault::Attempt`: an attempt returned this fault. `ShrinkFault::NoMemory`: an allocation failed. After
/// an error the first case and its history are dropped, and `attempt` is as its last use left it.
pub fn shrink<A: Attempt>(
    alloc: Global,
    first: Case,
    history: A::History,
    limit: u32,
    attempt: &mut A,
) -> Result<Shrunk<A::History>, ShrinkFault<A::Fault>>
    requires room { weight first + 1 < 2 ^ 32 }
    requires drives { A.driven attempt.old + limit < 2 ^ 32 }
    ensures shrunk { IfOk result
        (IsShrunk (A.answers attempt.old) (record { case = first; history = history })
        (A.driven attempt.old) (A.driven attempt.new) limit) }
    ensures bound { A.driven attempt.new ≤ A.driven attempt.old + limit }
    ensures fault { IfErr result (FaultIsReal (A.fails attempt.old)) }
    ensures keeps { A.keeps attempt.old attempt.new }
{
    let mut before = Items::new(alloc);
    let mut last = FailingCase {
        case: first,
        history,
    };
    let mut left = limit;
    'rounds: loop {
        match try_candidates_until_one_breaks(alloc, &last.case, left, attempt)? {
            Round::Took(next, rest) => {
                before.push(last)?;
                last = next;
                left = rest;
            }
            Round::Ended(tried, ending) => {
                return Ok(Shrunk {
                    before,
                    last,
                    tried,
                    ending,
                });
            }
        }
    }
}

/// The result of attempting the candidates of one case.
#[derive(Debug, Drop)]
pub(crate) enum Round<H> {
    /// The first candidate that broke, and how many cases may still be driven.
    Took(FailingCase<H>, u32),
    /// None broke: the histories of each attempted candidate, or `None` for one that is not valid.
    Ended(Items<Option<Items<H>>>, ShrinkEnd),
}

/// Tries the candidates of a case in order, up to the first that breaks, and drives at most `limit` of them.
fn try_candidates_until_one_breaks<A: Attempt>(
    alloc: Global,
    case: &Case,
    limit: u32,
    attempt: &mut A,
) -> Result<Round<A::History>, ShrinkFault<A::Fault>>
    requires room { length (commands_of case.now) + 1 < 2 ^ 32 }
    requires drives { A.driven attempt.old + limit < 2 ^ 32 }
    ensures round { IfOk result
        (IsRound (A.answers attempt.old) case.now (A.driven attempt.old) (A.driven attempt.new) limit) }
    ensures bound { A.driven attempt.new ≤ A.driven attempt.old + limit }
    ensures fault { IfErr result (FaultIsReal (A.fails attempt.old)) }
    ensures keeps { A.keeps attempt.old attempt.new }
{
    let cases = candidates(alloc, case)?;
    let all = cases.as_slice();
    let mut tried = Items::new(alloc);
    let mut left = limit;
    for candidate in all {
        if left == 0 {
            return Ok(Round::Ended(tried, ShrinkEnd::Stopped));
        }
        let outcome = match attempt.attempt(candidate) {
            Ok(outcome) => outcome,
            Err(fault) => return Err(ShrinkFault::Attempt(fault)),
        };
        match outcome {
            AttemptOutcome::NotValid => tried.push(None)?,
            AttemptOutcome::Held(histories) => {
                left -= 1;
                tried.push(Some(histories))?;
            }
            AttemptOutcome::Broke(_, history) => {
                let case = candidate.copy(alloc)?;
                return Ok(Round::Took(FailingCase { case, history }, left - 1));
            }
        }
    }
    Ok(Round::Ended(tried, ShrinkEnd::Minimal))
}
