//! Why recorded runs are broken.

use crate::items::TreeCursor;
use crate::json_input::ItemInput;
use pst_explain::breaking_call_sentence_of_run;
use pst_judge::{Judged, Verdict};
use pst_model::Typed;
use pst_rejudge::ItemResult;
use pst_run_problems::{find_part_and_offset_of_command, parts_of_case_or_run};
use pst_runs::read_runs;
use pst_sexpr::{Form, Tree, node_of, word_of};
use pst_sources::{Notice, span_at_path_or_whole_input};
use std::alloc::{AllocError, Global};
use std::slice;

/// The broken items: the first of them, and how many there are.
#[derive(Drop)]
struct BrokenItems {
    /// The number of the first, from 1.
    item: usize,
    /// The number of its command whose reply is no value, from 1.
    command: u32,
    count: usize,
}

/// The broken items with item `item`, if it is broken.
fn count_item_if_broken(
    broken: Option<BrokenItems>,
    item: usize,
    judged: &Judged,
) -> Option<BrokenItems> {
    let Judged::Verdict(Verdict::Broken(command)) = judged else {
        return broken;
    };
    match broken {
        Some(
            BrokenItems {
                item,
                command,
                count,
            },
        ) => Some(BrokenItems {
            item,
            command,
            count: count.saturating_add(1),
        }),
        None => Some(BrokenItems {
            item,
            command: *command,
            count: 1,
        }),
    }
}

/// Whether a tree has the head `replies`.
fn has_replies_head(form: &Form) -> bool {
    match node_of(form).unwrap_or(&[]).first() {
        Some(head) => match word_of(head) {
            Some(word) => word.as_str() == "replies",
            None => false,
        },
        None => false,
    }
}

/// The path to the reply to command `command` of item `item`, or to the item if it has no such reply. Each part has a
/// tree of its replies after the head `replies`.
fn path_to_reply_or_item(
    alloc: Global,
    form: &Form,
    item: usize,
    command: usize,
) -> Result<Vec<usize>, AllocError> {
    let parts = parts_of_case_or_run(alloc, form)?;
    let trees = node_of(form).unwrap_or(&[]);
    let replies = trees.iter().position(|tree| has_replies_head(tree));
    match (
        replies,
        find_part_and_offset_of_command(parts.as_slice(), command),
    ) {
        (Some(replies), Some((part, offset))) => {
            Vec::from_slice(alloc, &[item, replies, part.saturating_add(1), offset])
        }
        _ => Vec::from_slice(alloc, &[item]),
    }
}

/// The sentence that says why the item `tree` is broken.
fn broken_item_sentence(
    alloc: Global,
    typed: &Typed,
    tree: &Tree,
    command: u32,
) -> Result<Option<Vec<u8>>, AllocError> {
    let Ok(runs) = read_runs(alloc, typed, slice::from_ref(tree)) else {
        return Ok(None);
    };
    match runs.first() {
        Some(run) => breaking_call_sentence_of_run(alloc, typed, run, command),
        None => Ok(None),
    }
}

/// The note on a reply by which clients of other tools say that the outcome of a call is unknown.
const UNKNOWN_OUTCOME: &str =
    "hint: if nobody knows whether the call took effect, as after a timeout, its reply is `unknown` (in JSON `{\"unknown\":null}`)";

/// The message on the first broken item, and how many others there are. Reads this item alone.
fn first_broken_item_and_count_message(
    alloc: Global,
    typed: &Typed,
    input: &ItemInput<'_>,
    broken: &BrokenItems,
) -> Result<Option<String>, AllocError> {
    let item = broken.item;
    let Some(tree) = TreeCursor::new(input.trees.bytes).read_tree(alloc, item) else {
        return Ok(None);
    };
    let Some(sentence) = broken_item_sentence(alloc, typed, &tree, broken.command)? else {
        return Ok(None);
    };
    let Ok(sentence) = std::str::from_utf8(sentence.as_slice()) else {
        return Ok(None);
    };
    let path = path_to_reply_or_item(alloc, tree.form(), item, broken.command as usize)?;
    let mut notes = Vec::new(alloc);
    if input.is_unknown_outcome_as_read(alloc, tree.form(), path.as_slice())? {
        notes.push(String::from_str(alloc, UNKNOWN_OUTCOME)?)?;
    }
    let notice = Notice {
        span: span_at_path_or_whole_input(input.trees.bytes, path.as_slice()),
        is_warning: false,
        what: format!(in alloc; "item {item} is broken: {sentence}")?,
        notes,
        lines: String::new(alloc),
    };
    let mut text = input.notice_text_on_part_as_read(alloc, tree.form(), path.as_slice(), notice)?;
    let more = broken.count.saturating_sub(1);
    if more > 0 {
        let items = if more == 1 { "item is" } else { "items are" };
        write!(text, "{more} more {items} broken\n")?;
    }
    Ok(Some(text))
}

/// Says why the first broken item is broken, and how many others are, for a person to read. Returns `None` if no item
/// is broken, or if its reply cannot be said.
///
/// `typed` is the model of the input, and `judged` are the judgements on all items in their order.
pub fn first_broken_run_and_count_message(
    alloc: Global,
    typed: &Typed,
    input: ItemInput<'_>,
    judged: &[Judged],
) -> Result<Option<String>, AllocError> {
    let mut broken = None;
    for (index, judged) in judged.iter().enumerate() {
        broken = count_item_if_broken(broken, index.saturating_add(1), judged);
    }
    match broken {
        Some(broken) => first_broken_item_and_count_message(alloc, typed, &input, &broken),
        None => Ok(None),
    }
}

/// Says why the first broken item is broken, and how many others are, for a person to read. Returns `None` if no item
/// is broken, or if its reply cannot be said. `answers` are the answers to all items in their order.
pub fn first_broken_item_result_and_count_message(
    alloc: Global,
    typed: &Typed,
    input: ItemInput<'_>,
    answers: &[ItemResult],
) -> Result<Option<String>, AllocError> {
    let mut broken = None;
    for (index, answer) in answers.iter().enumerate() {
        if let ItemResult::Judged(judged) = answer {
            broken = count_item_if_broken(broken, index.saturating_add(1), judged);
        }
    }
    match broken {
        Some(broken) => first_broken_item_and_count_message(alloc, typed, &input, &broken),
        None => Ok(None),
    }
}
