//! The judgement of an item, the verdict on a history, and interleavings, each with its printed text.
ghost use Rattle.std.specs.Prelude.{◌≡◌, IfOk, string_bytes, ◌∷◌, [], None};
ghost use Rattle.pst_judge.specs.JudgedText.{judged_text};
ghost use Rattle.pst_judge.specs.Judgement.{HistoryMatches, IsJudgement, IsJudgementOf};
ghost use Rattle.pst_judge.specs.VerdictText.{verdict_text};
ghost use Rattle.pst_judge.specs.Words.{letter};

use crate::judging::verdict;
use crate::validated::Why;
use crate::validity::why_invalid;
use pst_case::{Run, Shaped};
use pst_eval::{Callbacks, FaultPlace};
use std::alloc::{AllocError, Global};
use std::fmt;

/// The judgement of an item.
#[derive(Debug, PartialEq, Eq, Drop)]
pub enum Judged {
    /// The verdict on its history.
    Verdict(Verdict),
    /// It has no history, and its case is valid.
    Valid,
    /// It has no history, and its case is not valid.
    Invalid(Why),
}

/// Whether a case is valid, as a judgement.
pub(crate) fn judge_case<C: Callbacks>(
    callbacks: &C,
    alloc: Global,
    shaped: &Shaped,
) -> Result<Judged, AllocError>
    requires { shaped.now.model ≡ C.model callbacks.now }
    ensures { IfOk result
        (IsJudgementOf (C.model callbacks.now) shaped.now.case (λ _ _. ⊥) None) }
{
    match why_invalid(callbacks, alloc, shaped)? {
        Some(why) => Ok(Judged::Invalid(why)),
        None => Ok(Judged::Valid),
    }
}

/// Returns the verdict on the item's history or, if the item has no history, whether its case is valid.
pub fn judge_one<C: Callbacks>(
    callbacks: &C,
    alloc: Global,
    run: &Run,
) -> Result<Judged, AllocError>
    requires model { run.now.shaped.model ≡ C.model callbacks.now }
    requires matches { HistoryMatches (C.model callbacks.now) run.now }
    ensures { IfOk result (IsJudgement (C.model callbacks.now) run.now) }
{
    match &run.history {
        Some(history) => Ok(Judged::Verdict(verdict(callbacks, alloc, &run.shaped, history)?)),
        None => judge_case(callbacks, alloc, &run.shaped),
    }
}

impl fmt::Display for Judged {
    ghost use Rattle.std.specs.Prelude.{Some};
    ghost use Rattle.pst_judge.specs.JudgedText.{judged_text};

    ghost output = { λ judged. Some (judged_text judged) };

    fn fmt<W: fmt::Write>(&self, f: &mut fmt::Formatter<W>) -> fmt::Result {
        match self {
            Judged::Verdict(verdict) => write!(f, "{verdict}"),
            Judged::Valid => write!(f, "valid"),
            Judged::Invalid(why) => write!(f, "{why}"),
        }
    }
}

impl Judged {
    /// The judgement as text: the text of the verdict, `valid`, or the reason why the case is not valid, such as
    /// `prefalse 3 merge LR` or `casefault 0 init TooLong merge -`.
    pub fn text(&self, alloc: Global) -> Result<String, AllocError>
        ensures { IfOk result (λ text. string_bytes text ≡ judged_text self.now) }
    {
        format!(in alloc; "{self}")
    }
}

/// The verdict on a history.
#[derive(Debug, PartialEq, Eq, Drop)]
pub enum Verdict {
    /// The first interleaving of the branches in which every event is true, from the prefix to the end of the suffix:
    /// the numbers of its branches, from 0. With calls of unknown outcome it has the letters of
    /// [`crate::verdict_with_unknown`].
    Explained(Vec<usize>),
    /// In no interleaving is every event true. The first interleaving that faults does so here.
    Faulted(FaultPlace),
    /// In no interleaving is every event true, and none faults. This is the highest number of true events before a
    /// false one, including those of the prefix and of the suffix.
    Unexplained(usize),
    /// The first command whose reply is no value.
    Broken(u32),
}

impl fmt::Display for Verdict {
    ghost use Rattle.std.specs.Prelude.{Some};
    ghost use Rattle.pst_judge.specs.VerdictText.{verdict_text};

    ghost output = { λ verdict. Some (verdict_text verdict) };

    fn fmt<W: fmt::Write>(&self, f: &mut fmt::Formatter<W>) -> fmt::Result {
        match self {
            Verdict::Explained(word) => {
                let branches = word.as_slice();
                let word = InterleavingText { branches };
                write!(f, "explained {word}")
            }
            Verdict::Faulted(place) => {
                let command = place.command;
                let callback = place.callback.name();
                let fault = place.fault.name();
                write!(f, "fault {command} {callback} {fault}")
            }
            Verdict::Unexplained(far) => write!(f, "unexplained far {far}"),
            Verdict::Broken(command) => write!(f, "broken {command}"),
        }
    }
}

impl Verdict {
    /// The verdict as text, such as `explained LR`, `unexplained far 1`, `fault 1 next Overflow` or `broken 1`.
    pub fn text(&self, alloc: Global) -> Result<String, AllocError>
        ensures { IfOk result (λ text. string_bytes text ≡ verdict_text self.now) }
    {
        format!(in alloc; "{self}")
    }
}

/// A list of branch numbers, from 0, of 4 for a call of unknown outcome in the prefix, and of 5 for a command of the suffix.
/// It is printed as a letter for each number, and the empty list as `-`.
#[derive(Clone, Copy, Drop)]
pub struct InterleavingText<'a> {
    pub branches: &'a [usize],
}

/// Returns the letter of branch `branch`, counted from 0, of the call of unknown outcome in the prefix, 4, or of a command
/// of the suffix, 5.
fn branch_letter(branch: usize) -> &'static str
    ensures { result.now ≡ letter branch ∷ [] }
{
    match branch {
        0 => "L",
        1 => "R",
        2 => "S",
        3 => "T",
        4 => "P",
        _ => ".",
    }
}

impl fmt::Display for InterleavingText<'_> {
    ghost use Rattle.std.specs.Prelude.{Some};
    ghost use Rattle.pst_judge.specs.VerdictText.{word_text};

    ghost output = { λ word. Some (word_text word.branches.now) };

    fn fmt<W: fmt::Write>(&self, f: &mut fmt::Formatter<W>) -> fmt::Result {
        if self.branches.is_empty() {
            return write!(f, "-");
        }
        for branch in self.branches {
            let letter = branch_letter(*branch);
            write!(f, "{letter}")?;
        }
        Ok(())
    }
}
