//! The histories that lists of replies spell.
ghost use Rattle.std.specs.Prelude.{◌≡◌, ◌<◌, ◌+◌, ◌^◌, ◌++◌, IfOk, length, option_copied};
ghost use Rattle.pst_case.specs.Shape.{before_suffix, joined};
ghost use Rattle.pst_runs.specs.Replies as spec;
ghost use Rattle.pst_sexpr.specs.Parts.{word_of};

use crate::room::items_with_capacity;
use crate::values::{Spelling, read_value};
use pst_case::{Case, Command, History, Reply, count_commands_of_branches};
use pst_model::Typed;
use pst_sexpr::{Form, node_of, word_of};
use pst_value::{Items, Value};
use std::alloc::{AllocError, Global};

/// Returns the trees of a list, or no trees if `form` is no list.
pub fn trees_of_list_or_empty(form: &Form) -> &[Form]
    ensures { result.now ≡ spec.listed form.now }
{
    match node_of(form) {
        Some(parts) => parts,
        None => &[],
    }
}

/// Returns the trees of list `number`, from 0, or no trees if there is no such list.
fn trees_of_list_at_or_empty(lists: &[Form], number: usize) -> &[Form]
    ensures { result.now ≡ spec.listed_at lists.now number }
{
    match lists.get(number) {
        Some(list) => trees_of_list_or_empty(list),
        None => &[],
    }
}

fn read_reply_without_value(form: &Form) -> Option<Reply>
    ensures { result ≡ spec.reply_word (word_of form.now) }
{
    let word = word_of(form)?;
    if word.as_str() == "misfit" {
        Some(Reply::Misfit)
    } else if word.as_str() == "failed" {
        Some(Reply::Failed)
    } else if word.as_str() == "not-run" {
        Some(Reply::NotRun)
    } else if word.as_str() == "unknown" {
        Some(Reply::Unknown)
    } else {
        None
    }
}

fn value_or_misfit_reply(typed: &Typed, command: &Command, value: Value) -> Reply
    ensures { result ≡ spec.answered typed.now command.now value }
{
    if command.admits_result(typed, &value) {
        Reply::Value(value)
    } else {
        Reply::Misfit
    }
}

/// The reply to a command that a tree spells.
#[tactic(auto, unfolding(crate::specs::Replies::reply_of))]
fn read_reply(
    alloc: Global,
    typed: &Typed,
    command: &Command,
    form: &Form,
) -> Result<Option<Reply>, AllocError>
    ensures { IfOk result (λ reply. reply ≡ spec.reply_of typed.now command.now form.now) }
{
    if let Some(reply) = read_reply_without_value(form) {
        return Ok(Some(reply));
    }
    match read_value(alloc, form, Spelling::of_replies(typed))? {
        Some(value) => Ok(Some(value_or_misfit_reply(typed, command, value))),
        None => Ok(None),
    }
}

/// The replies of a part after others, or the number of the first command whose tree spells no reply.
#[tactic(auto, using(crate::proofs::Behind::behind))]
fn read_remaining_replies(
    alloc: Global,
    typed: &Typed,
    number: u32,
    mut read: Items<Reply>,
    commands: &[Command],
    forms: &[Form],
) -> Result<Result<Items<Reply>, u32>, AllocError>
    requires { number + length commands.now < 2 ^ 32 }
    ensures { IfOk result (λ replies.
        replies ≡ spec.behind read (spec.part_replies typed.now number commands.now forms.now)) }
{
    let Some((command, commands)) = commands.split_first() else {
        return Ok(Ok(read));
    };
    let Some((form, forms)) = forms.split_first() else {
        return Ok(Ok(read));
    };
    let Some(reply) = read_reply(alloc, typed, command, form)? else {
        return Ok(Err(number));
    };
    read.push(reply)?;
    read_remaining_replies(alloc, typed, number + 1, read, commands, forms)
}

/// Returns the replies of a part, whose commands are numbered from `number` on, or the number of the first command
/// whose tree spells no reply.
#[tactic(auto, using(crate::proofs::Behind::behind))]
fn read_part_replies(
    alloc: Global,
    typed: &Typed,
    number: u32,
    commands: &[Command],
    forms: &[Form],
) -> Result<Result<Items<Reply>, u32>, AllocError>
    requires { number + length commands.now < 2 ^ 32 }
    ensures { IfOk result (λ replies.
        replies ≡ spec.part_replies typed.now number commands.now forms.now) }
{
    let read = items_with_capacity(alloc, commands.len())?;
    read_remaining_replies(alloc, typed, number, read, commands, forms)
}

/// Returns `read` with the replies of `branches` appended, or the number of the first command whose tree spells no
/// reply. `before` commands precede the branches.
#[tactic(auto, using(crate::proofs::Behind::behind))]
fn read_remaining_branch_replies(
    alloc: Global,
    typed: &Typed,
    before: u32,
    mut read: Items<Items<Reply>>,
    branches: &[Items<Command>],
    lists: &[Form],
) -> Result<Result<Items<Items<Reply>>, u32>, AllocError>
    requires { before + length (joined branches.now) + 1 < 2 ^ 32 }
    ensures { IfOk result (λ replies.
        replies ≡ spec.behind read (spec.branch_replies typed.now before branches.now lists.now)) }
{
    let Some((branch, branches)) = branches.split_first() else {
        return Ok(Ok(read));
    };
    let Some((list, lists)) = lists.split_first() else {
        return Ok(Ok(read));
    };
    match read_part_replies(
        alloc,
        typed,
        before + 1,
        branch.as_slice(),
        trees_of_list_or_empty(list),
    )? {
        Ok(replies) => {
            read.push(replies)?;
            let before = before + branch.len() as u32;
            read_remaining_branch_replies(alloc, typed, before, read, branches, lists)
        }
        Err(number) => Ok(Err(number)),
    }
}

/// Returns the history without times that lists of replies spell, or the number of the first command whose tree spells no reply.
pub fn read_history(
    alloc: Global,
    typed: &Typed,
    case: &Case,
    lists: &[Form],
) -> Result<Result<History, u32>, AllocError>
    requires { before_suffix case.now + length case.now.suffix + 1 < 2 ^ 32 }
    ensures { IfOk result (λ history. history ≡ spec.history_of typed.now case.now lists.now) }
{
    let Some((list, lists)) = lists.split_first() else {
        return Ok(Ok(History {
            prefix: Items::new(alloc),
            branches: Items::new(alloc),
            suffix: Items::new(alloc),
            times: None,
        }));
    };
    let branches = case.branches.as_slice();
    let commands = case.prefix.as_slice();
    let prefix = match read_part_replies(alloc, typed, 1, commands, trees_of_list_or_empty(list))? {
        Ok(replies) => replies,
        Err(number) => return Ok(Err(number)),
    };
    let before = commands.len() as u32;
    let read = items_with_capacity(alloc, branches.len())?;
    let branch_replies = match read_remaining_branch_replies(
        alloc, typed, before, read, branches, lists,
    )? {
        Ok(replies) => replies,
        Err(number) => return Ok(Err(number)),
    };
    let first = before + count_commands_of_branches(branches) + 1;
    let forms = trees_of_list_at_or_empty(lists, branches.len());
    match read_part_replies(alloc, typed, first, case.suffix.as_slice(), forms)? {
        Ok(suffix) => Ok(Ok(History {
            prefix,
            branches: branch_replies,
            suffix,
            times: None,
        })),
        Err(number) => Ok(Err(number)),
    }
}

fn branch_reply_counts_match(branches: &[Items<Command>], lists: &[Form]) -> bool
    ensures { result ≡ spec.branches_count branches.now lists.now }
{
    let Some((branch, branches)) = branches.split_first() else {
        return true;
    };
    match lists.split_first() {
        Some((list, lists)) => {
            trees_of_list_or_empty(list).len() == branch.len()
                && branch_reply_counts_match(branches, lists)
        }
        None => false,
    }
}

/// Returns whether each part has one reply for each command.
pub fn reply_counts_match(case: &Case, lists: &[Form]) -> bool
    ensures { result ≡ spec.are_counted case.now lists.now }
{
    match lists.split_first() {
        Some((list, lists)) => {
            trees_of_list_or_empty(list).len() == case.prefix.len()
                && branch_reply_counts_match(case.branches.as_slice(), lists)
                && trees_of_list_at_or_empty(lists, case.branches.len()).len() == case.suffix.len()
        }
        None => false,
    }
}
