//! The replies of a run: the first fault in one, and the problems of refused replies.
ghost use Rattle.std.specs.Prelude.{◌≡◌, ◌+◌, ◌<◌, ◌^◌, length, true, IfOk};
ghost use Rattle.pst_run_problems.specs.ItemReplies as spec;
ghost use Rattle.pst_runs.specs.Replies.{listed_at};
ghost use Rattle.std.specs.Option.{is_none, is_some};
ghost use Rattle.pst_run_problems.specs.ValuePlaces as value_places;
ghost use Rattle.pst_runs.specs.Values.{value_of, in_replies};

use crate::command::{
    CaseSearch, Part, find_part_and_offset_of_command, node_parts_after_head, node_parts_or_empty,
};
use crate::value_fault::{FoundValueFault, ValueSearch, Wanted, first_value_fault};
use crate::value_problem::{ValueFault, problem_of_found_or_other_fault, value_fault_problem};
use pst_sexpr::{Form, node_of, tree_in};
use pst_syntax_problems::{
    FoundProblem, Problem, counted_noun, has_head, problem_at, problem_with_note, with_note,
};
use std::alloc::{AllocError, Global};

/// A reply: the numbers that lead to it from its item, and its tree.
#[derive(Clone, Copy, Drop)]
struct LocatedReply<'a> {
    place: usize,
    list: usize,
    offset: usize,
    form: &'a Form,
}

/// The number of the first tree with the head `word` among the trees of a run, and its lists.
pub fn find_lists_with_place<'a>(form: &'a Form, word: &str) -> Option<(usize, &'a [Form])> {
    for (place, part) in node_parts_or_empty(form).iter().enumerate() {
        if has_head(part, word) {
            return Some((place, node_parts_after_head(part)));
        }
    }
    None
}

/// The trees of list `number`, counted from 0.
pub fn trees_in_list_or_empty(lists: &[Form], number: usize) -> &[Form]
    ensures { result.now ≡ listed_at lists.now number }
{
    match lists.get(number) {
        Some(list) => node_parts_or_empty(list),
        None => &[],
    }
}

/// The problem of a part with `replies` replies, which has another number of commands.
fn problem_of_wrong_reply_count(
    alloc: Global,
    path: &[usize],
    part: &Part<'_>,
    replies: usize,
) -> FoundProblem {
    let called = part.called;
    let has = counted_noun(part.commands.len(), "command");
    if replies == 1 {
        return problem_at(alloc, path, format_args!("{called}: 1 reply for {has}"));
    }
    problem_at(
        alloc,
        path,
        format_args!("{called}: {replies} replies for {has}"),
    )
}

/// The problem of a run with `lists` lists of replies for `parts` parts, which differ in number.
fn problem_of_reply_list_count_mismatch(
    alloc: Global,
    path: &[usize],
    lists: usize,
    parts: usize,
) -> FoundProblem {
    let found = counted_noun(lists, "list");
    let wanted = counted_noun(parts, "part");
    problem_with_note(
        alloc,
        path,
        format_args!("{found} of replies for {wanted}"),
        "the replies of the prefix come first, then those of each branch, then those of the suffix",
    )
}

/// The number of the first of `parts` with another number of replies than of commands. The first part has list `number`.
fn first_part_with_wrong_reply_count(
    lists: &[Form],
    number: usize,
    parts: &[Part<'_>],
) -> Option<usize>
    requires { number + length parts.now < 2 ^ 64 }
    ensures { result ≡ spec.first_other lists.now number parts.now }
{
    let (part, others) = parts.split_first()?;
    if trees_in_list_or_empty(lists, number).len() == part.commands.len() {
        first_part_with_wrong_reply_count(lists, number + 1, others)
    } else {
        Some(number)
    }
}

/// The problem of the first part with another number of replies than of commands. Each part has a list of replies.
/// `place` is the number of the `(replies ..)` tree.
fn first_wrong_reply_count_problem(
    alloc: Global,
    item: usize,
    place: usize,
    lists: &[Form],
    parts: &[Part<'_>],
) -> FoundProblem {
    let Some(number) = first_part_with_wrong_reply_count(lists, 0, parts) else {
        return Ok(None);
    };
    let path = [item, place, number.saturating_add(1)];
    match parts.get(number) {
        Some(part) => problem_of_wrong_reply_count(
            alloc,
            &path,
            part,
            trees_in_list_or_empty(lists, number).len(),
        ),
        None => Ok(None),
    }
}

/// The problem of a run whose replies do not fit its parts and commands.
pub fn wrong_reply_or_list_count_problem(
    alloc: Global,
    item: usize,
    form: &Form,
    parts: &[Part<'_>],
) -> FoundProblem {
    match find_lists_with_place(form, "replies") {
        Some((place, lists)) if lists.len() == parts.len() => {
            first_wrong_reply_count_problem(alloc, item, place, lists, parts)
        }
        Some((place, lists)) => problem_of_reply_list_count_mismatch(
            alloc,
            &[item, place],
            lists.len(),
            parts.len(),
        ),
        None => Ok(None),
    }
}

/// The reply to command `command`, counted from 1.
fn find_reply_to_command<'a>(
    form: &'a Form,
    parts: &[Part<'_>],
    command: usize,
) -> Option<LocatedReply<'a>> {
    let Some((number, offset)) = find_part_and_offset_of_command(parts, command) else {
        return None;
    };
    let Some((place, lists)) = find_lists_with_place(form, "replies") else {
        return None;
    };
    match trees_in_list_or_empty(lists, number).get(offset) {
        Some(form) => Some(LocatedReply {
            place,
            list: number.saturating_add(1),
            offset,
            form,
        }),
        None => None,
    }
}

/// The problem of a tree at `path` that is not a reply.
fn not_a_reply_problem(
    alloc: Global,
    search: &CaseSearch<'_>,
    path: &[usize],
    form: &Form,
) -> FoundProblem {
    let other = ValueFault::Tree {
        before: "",
        form,
        after: " is not a reply",
    };
    if node_of(form).is_none() {
        return value_fault_problem(alloc, path, Some(other));
    }
    let found = first_reply_fault(alloc, search, form)?;
    problem_of_found_or_other_fault(alloc, search, path, found, other)
}

/// The problem `found`, if there is one, with a note on how replies are written.
fn with_reply_syntax_note(alloc: Global, found: Option<Problem>, has_maps: bool) -> FoundProblem {
    let maps = if has_maps {
        ", (map (k v) ..) with rising keys"
    } else {
        ""
    };
    with_note(
        alloc,
        found,
        format_args!(
            "a reply is an integer, true, false, a text, (tuple v ..), (list v ..){maps}, misfit, failed, not-run or unknown"
        ),
    )
}

/// What to write in the place of `word` in a reply, if it is a word of models, of another language or of another tool.
fn hint_on_foreign_word_in_reply(word: &str) -> Option<&'static str> {
    match word {
        "int" | "bool" | "text" => {
            Some("hint: values have no types: `(list int 1)` of a model is `(list 1)`")
        }
        "True" | "#t" => Some("hint: write `true`"),
        "False" | "#f" => Some("hint: write `false`"),
        "null" | "None" | "nil" | "undefined" => {
            Some(
                "hint: there is no null: `true` if there is no result, `(list)` or `(list v)` for an option, `not-run` if the call was not made",
            )
        }
        "timeout" | "info" | "pending" | "lost" | "?" => {
            Some(
                "hint: `unknown` is the reply of a call of which nobody knows whether it took effect, as after a timeout",
            )
        }
        _ => None,
    }
}

/// The problem `found` in the item `form`, with a hint if it is at a word of models or of another language.
fn with_hint_if_foreign_word_in_reply(
    alloc: Global,
    form: &Form,
    found: Option<Problem>,
) -> FoundProblem {
    let Some(problem) = found else {
        return Ok(None);
    };
    let hint = match tree_in(form, problem.path.as_slice().get(1..).unwrap_or(&[])) {
        Some(Form::Word(word)) => hint_on_foreign_word_in_reply(word.as_str()),
        _ => None,
    };
    match hint {
        Some(hint) => Ok(Some(problem.with(alloc, hint)?)),
        None => Ok(Some(problem)),
    }
}

/// The problem of a run in which the reply to command `command`, counted from 1, is not a reply.
pub fn bad_reply_problem(
    alloc: Global,
    search: &CaseSearch<'_>,
    item: usize,
    form: &Form,
    command: usize,
) -> FoundProblem {
    match find_reply_to_command(form, search.parts, command) {
        Some(reply) => {
            let path = [item, reply.place, reply.list, reply.offset];
            let found = not_a_reply_problem(alloc, search, &path, reply.form)?;
            let found = with_reply_syntax_note(alloc, found, search.source.has_maps)?;
            with_hint_if_foreign_word_in_reply(alloc, form, found)
        }
        None => Ok(None),
    }
}

/// The first fault in a reply. None is found exactly if the reply spells a value as the reader reads it, and its path
/// leads to a tree that the reader refuses.
pub fn first_reply_fault<'a>(
    alloc: Global,
    search: &CaseSearch<'_>,
    form: &'a Form,
) -> Result<Option<FoundValueFault<'a>>, AllocError>
    ensures none { IfOk result (λ found.
        is_none found ≡ is_some (value_of (in_replies search.now.source.now) form.now)) }
    ensures place { IfOk result (λ found.
        value_places.is_reply_led search.now.source.now form.now found ≡ true) }
{
    let search = ValueSearch {
        source: search.source,
        parts: search.parts,
        results: &[],
    };
    first_value_fault(alloc, &search, form, Wanted::Any)
}
