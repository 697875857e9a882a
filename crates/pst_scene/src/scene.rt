//! The data of an item to be explained, and its commands with their places and replies.
ghost use Rattle.std.specs.Prelude.{◌≡◌, IfOk};

use crate::order::all_calls;
use crate::spelling::{
    add_command_spelling, add_command_variable, add_number, add_reply_spelling, add_str,
    branch_letter,
};
use pst_case::{Case, Command, History, Reply, Run};
use pst_model::{Source, Typed};
use pst_value::{Items, Value};
use std::alloc::{AllocError, Global};

/// The data of an item to be explained.
#[derive(Drop)]
pub struct Scene<'a> {
    /// The model of the item.
    pub model: &'a Source,
    /// The item.
    pub run: &'a Run,
    /// The commands, part by part.
    pub calls: Calls<'a>,
    /// The commands that an interleaving is made of, part by part: all, unless a call has an unknown outcome. Then they
    /// are the calls with values, and, except in the suffix, those of unknown outcome.
    pub counted: Calls<'a>,
    /// Whether a call has an unknown outcome.
    pub has_unknown: bool,
    /// The commands, by their numbers.
    pub all: Vec<Call<'a>>,
    /// The recorded results, by the numbers of the commands; empty if there is no history.
    pub known: Vec<Option<Value>>,
}

/// Returns the recorded results, or no results if there is no history.
fn recorded_results_of_history(
    alloc: Global,
    history: &Option<History>,
) -> Result<Vec<Option<Value>>, AllocError> {
    match history {
        Some(history) => history.recorded(alloc),
        None => Ok(Vec::new(alloc)),
    }
}

/// Whether a call of a history, if there is one, has an unknown outcome.
fn has_call_of_unknown_outcome(history: &Option<History>) -> bool {
    match history {
        Some(history) => history.has_unknown(),
        None => false,
    }
}

/// Returns the data of an item of the model `typed`.
pub fn scene_of_run<'a>(
    alloc: Global,
    typed: &'a Typed,
    run: &'a Run,
) -> Result<Scene<'a>, AllocError>
    ensures model { IfOk result (λ scene. scene.model.now ≡ typed.now) }
    ensures run { IfOk result (λ scene. scene.run.now ≡ run.now) }
{
    let model = typed.source();
    let calls = calls_of_case(alloc, run.shaped.case(), &run.history)?;
    let has_unknown = has_call_of_unknown_outcome(&run.history);
    let counted = counted_calls(alloc, &calls, has_unknown)?;
    let all = all_calls(alloc, &calls)?;
    let known = recorded_results_of_history(alloc, &run.history)?;
    Ok(Scene {
        model,
        run,
        calls,
        counted,
        has_unknown,
        all,
        known,
    })
}

/// A part of a case.
#[derive(Clone, Copy, Debug, PartialEq, Eq, Drop)]
pub enum CasePart {
    /// What runs before the branches.
    Prefix,
    /// A branch, from 0.
    Branch(usize),
    /// What runs after the branches.
    Suffix,
}

impl CasePart {
    /// The letter of the part: `P`, that of the branch, or `X`.
    pub fn letter(self) -> u8 {
        match self {
            CasePart::Prefix => b'P',
            CasePart::Branch(branch) => branch_letter(branch),
            CasePart::Suffix => b'X',
        }
    }
}

/// A command of a case.
#[derive(Clone, Copy, Drop)]
pub struct Call<'a> {
    /// The part that it is in.
    pub part: CasePart,
    /// Its place in its part, from 1.
    pub place: usize,
    /// Its number in the case, from 1.
    pub number: u32,
    /// The command itself.
    pub command: &'a Command,
    /// The recorded reply, if the case was run.
    pub reply: Option<&'a Reply>,
}

/// The commands of a case, part by part.
#[derive(Drop)]
pub struct Calls<'a> {
    /// Those of the prefix.
    pub prefix: Vec<Call<'a>>,
    /// Those of each branch.
    pub branches: Vec<Vec<Call<'a>>>,
    /// Those of the suffix.
    pub suffix: Vec<Call<'a>>,
}

/// Returns the commands of `part`, numbered from `first` on.
fn calls_of_case_part<'a>(
    alloc: Global,
    part: CasePart,
    first: u32,
    commands: &'a [Command],
    replies: &'a [Reply],
) -> Result<Vec<Call<'a>>, AllocError> {
    let mut calls = Vec::new(alloc);
    let mut number = first;
    for (index, command) in commands.iter().enumerate() {
        calls.push(Call {
            part,
            place: index.saturating_add(1),
            number,
            command,
            reply: replies.get(index),
        })?;
        number = number.saturating_add(1);
    }
    Ok(calls)
}

/// Returns the number after the last of `commands`, which are numbered from `first` on.
fn command_number_after(first: u32, commands: &[Command]) -> u32 {
    let mut number = first;
    for _command in commands {
        number = number.saturating_add(1);
    }
    number
}

/// Returns the commands of the branches, numbered from `first` on, and the number after them.
fn calls_of_branches<'a>(
    alloc: Global,
    first: u32,
    branches: &'a [Items<Command>],
    replies: &'a [Items<Reply>],
) -> Result<(Vec<Vec<Call<'a>>>, u32), AllocError> {
    let mut calls = Vec::new(alloc);
    let mut number = first;
    for (index, branch) in branches.iter().enumerate() {
        let commands = branch.as_slice();
        let answers = match replies.get(index) {
            Some(answers) => answers.as_slice(),
            None => &[],
        };
        calls.push(calls_of_case_part(alloc, CasePart::Branch(index), number, commands, answers)?)?;
        number = command_number_after(number, commands);
    }
    Ok((calls, number))
}

/// Returns the commands of a case with their recorded replies.
pub fn calls_with_replies<'a>(
    alloc: Global,
    case: &'a Case,
    prefix: &'a [Reply],
    branches: &'a [Items<Reply>],
    suffix: &'a [Reply],
) -> Result<Calls<'a>, AllocError> {
    let commands = case.prefix.as_slice();
    let number = command_number_after(1, commands);
    let prefix = calls_of_case_part(alloc, CasePart::Prefix, 1, commands, prefix)?;
    let (branches, number) = calls_of_branches(alloc, number, case.branches.as_slice(), branches)?;
    let suffix = calls_of_case_part(
        alloc,
        CasePart::Suffix,
        number,
        case.suffix.as_slice(),
        suffix,
    )?;
    Ok(Calls {
        prefix,
        branches,
        suffix,
    })
}

/// Returns the commands of a case, with the replies of `history` if there is one.
fn calls_of_case<'a>(
    alloc: Global,
    case: &'a Case,
    history: &'a Option<History>,
) -> Result<Calls<'a>, AllocError> {
    match history {
        Some(history) => calls_with_replies(
            alloc,
            case,
            history.prefix.as_slice(),
            history.branches.as_slice(),
            history.suffix.as_slice(),
        ),
        None => calls_with_replies(alloc, case, &[], &[], &[]),
    }
}

/// Whether an interleaving of a run has the call. `has_unknown` says whether a call of the run has an unknown outcome.
fn is_counted(call: &Call<'_>, has_unknown: bool) -> bool {
    if !has_unknown {
        return true;
    }
    match call.reply {
        Some(Reply::Value(_)) => true,
        Some(Reply::Unknown) => call.part != CasePart::Suffix,
        _ => false,
    }
}

/// Returns those of `calls` that an interleaving has.
fn counted_calls_of_part<'a>(
    alloc: Global,
    calls: &[Call<'a>],
    has_unknown: bool,
) -> Result<Vec<Call<'a>>, AllocError> {
    let mut counted = Vec::new(alloc);
    for call in calls {
        if is_counted(call, has_unknown) {
            counted.push(*call)?;
        }
    }
    Ok(counted)
}

/// Returns those of the commands of a case that an interleaving has.
fn counted_calls<'a>(
    alloc: Global,
    calls: &Calls<'a>,
    has_unknown: bool,
) -> Result<Calls<'a>, AllocError> {
    let mut branches = Vec::new(alloc);
    for branch in &calls.branches {
        branches.push(counted_calls_of_part(alloc, branch.as_slice(), has_unknown)?)?;
    }
    Ok(Calls {
        prefix: counted_calls_of_part(alloc, calls.prefix.as_slice(), has_unknown)?,
        branches,
        suffix: counted_calls_of_part(alloc, calls.suffix.as_slice(), has_unknown)?,
    })
}

impl<'a> Call<'a> {
    /// Whether nobody knows how the call ended.
    pub fn has_unknown_outcome(&self) -> bool {
        matches!(self.reply, Some(Reply::Unknown))
    }

    /// The letter of the call in an interleaving of a run in which calls have unknown outcomes: its branch, 4 if it is in
    /// the prefix, and 5 in the suffix. `None` for a call of the prefix that answered, which is before the interleaving.
    pub fn interleaving_letter(&self) -> Option<usize> {
        match self.part {
            CasePart::Prefix => if self.has_unknown_outcome() {
                Some(4)
            } else {
                None
            },
            CasePart::Branch(branch) => Some(branch),
            CasePart::Suffix => Some(5),
        }
    }

    /// Adds the place of the command, as `P1`, `L2` or `X1`.
    pub fn add_place(&self, out: &mut Vec<u8>) -> Result<(), AllocError> {
        out.push(self.part.letter())?;
        add_number(out, self.place)
    }

    /// Adds the place of the command and its spelling, as `L2 (put 1)`.
    fn add_text(&self, out: &mut Vec<u8>, alloc: Global, model: &Source) -> Result<(), AllocError> {
        self.add_place(out)?;
        add_str(out, " ")?;
        add_command_spelling(out, alloc, model, self.command)
    }

    /// The place of the command and its spelling, as `L2 (put 1)`.
    pub fn text(&self, alloc: Global, model: &Source) -> Result<Vec<u8>, AllocError> {
        let mut out = Vec::new(alloc);
        self.add_text(&mut out, alloc, model)?;
        Ok(out)
    }

    /// Adds the text, followed by the reply, or by the command's variable if it has no reply.
    pub fn add_text_with_reply_or_variable(
        &self,
        out: &mut Vec<u8>,
        alloc: Global,
        model: &Source,
    ) -> Result<(), AllocError> {
        self.add_text(out, alloc, model)?;
        add_str(out, " -> ")?;
        match self.reply {
            Some(reply) => add_reply_spelling(out, alloc, model, reply),
            None => add_command_variable(out, alloc, self.number),
        }
    }

    /// The text, followed by the reply, or by the command's variable if it has no reply.
    pub fn text_with_reply_or_variable(
        &self,
        alloc: Global,
        model: &Source,
    ) -> Result<Vec<u8>, AllocError> {
        let mut out = Vec::new(alloc);
        self.add_text_with_reply_or_variable(&mut out, alloc, model)?;
        Ok(out)
    }
}
