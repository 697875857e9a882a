//! The messages on refused items, by what is known of them: each message reads its item alone.

use crate::item_hints::replace_notes_by_hint_if_misplaced;
use crate::items::TreeCursor;
use crate::json_input::notices_on_text_as_read;
use crate::message::error_notice_of_problem;
use pst_input::{InputText, find_json_items};
use pst_model::Typed;
use pst_rejudge::ItemResult;
use pst_run_problems::refused_case_or_run_problem;
use pst_runs::RunFault;
use pst_sexpr::Tree;
use pst_sources::{
    Input, Notice, Notices, Span, deepest_span_on_path_in_tree, text_of_notices_if_any,
};
use pst_syntax_problems::{MOST_PROBLEMS, Problem};
use pst_typing::load;
use std::alloc::{AllocError, Global};

/// The refused items of an input: why those that get a message are refused, in their order, and how many others are.
#[derive(Drop)]
pub struct RefusedItems {
    faults: Vec<RunFault>,
    others: usize,
}

impl RefusedItems {
    /// No items.
    pub fn none(alloc: Global) -> RefusedItems {
        RefusedItems {
            faults: Vec::new(alloc),
            others: 0,
        }
    }

    /// One item, which is refused with `fault`.
    pub fn one(alloc: Global, fault: RunFault) -> Result<RefusedItems, AllocError> {
        let mut items = RefusedItems::none(alloc);
        items.add(fault, 1)?;
        Ok(items)
    }

    /// The refused items among those with these answers. The first twenty get messages, or all if `has_all_messages`.
    pub fn of_item_results(
        alloc: Global,
        answers: &[ItemResult],
        has_all_messages: bool,
    ) -> Result<RefusedItems, AllocError> {
        let most = if has_all_messages {
            usize::MAX
        } else {
            MOST_PROBLEMS
        };
        let mut items = RefusedItems::none(alloc);
        for (index, answer) in answers.iter().enumerate() {
            if let ItemResult::Refused { kind, command } = answer {
                let fault = RunFault {
                    run: index.saturating_add(1),
                    command: *command,
                    kind: *kind,
                };
                items.add(fault, most)?;
            }
        }
        Ok(items)
    }

    /// Adds the item that is refused with `fault`, which comes after the others. It gets a message unless `most` items have one.
    pub(crate) fn add(&mut self, fault: RunFault, most: usize) -> Result<(), AllocError> {
        if self.faults.len() < most {
            self.faults.push(fault)?;
        } else {
            self.others = self.others.saturating_add(1);
        }
        Ok(())
    }
}

/// The error on `problem`, which is a problem of the item at the span `item`.
fn notice_on_problem_in_item(
    alloc: Global,
    input: &Input<'_>,
    item: Span,
    problem: Problem,
) -> Notice {
    let path = problem.path.get(1..).unwrap_or(&[]);
    let span = deepest_span_on_path_in_tree(input.bytes, item, path);
    error_notice_of_problem(alloc, span, problem)
}

/// The error on the item at the span `item`, whose tree is refused with `fault`.
fn notice_on_item_with_fault(
    alloc: Global,
    input: &Input<'_>,
    typed: &Typed,
    item: Span,
    tree: &Tree,
    fault: RunFault,
) -> Result<Option<Notice>, AllocError> {
    match refused_case_or_run_problem(alloc, typed.source(), tree.form(), fault)? {
        Some(problem) => {
            let notice = notice_on_problem_in_item(alloc, input, item, problem);
            Ok(Some(replace_notes_by_hint_if_misplaced(alloc, input, tree, notice)?))
        }
        None => Ok(None),
    }
}

/// Adds the line that counts the refused items without a message, if there are some.
fn add_unshown_refusal_count_if_any(text: &mut String, more: usize) -> Result<(), AllocError> {
    if more == 0 {
        return Ok(());
    }
    let items = if more == 1 { "item is" } else { "items are" };
    write!(
        text,
        "{more} more {items} refused: --all-messages shows each\n"
    )
}

/// The errors on the refused items after the model `typed`. Scans the text once, and reads these items alone.
pub(crate) fn notices_on_refused_items(
    alloc: Global,
    input: &Input<'_>,
    typed: &Typed,
    items: &RefusedItems,
) -> Result<Notices, AllocError> {
    let mut notices = Notices::none(alloc);
    let mut trees = TreeCursor::new(input.bytes);
    for fault in items.faults.as_slice() {
        let item = trees.advance_to(fault.run);
        let Some(tree) = trees.read_tree(alloc, fault.run) else {
            continue;
        };
        if let Some(notice) = notice_on_item_with_fault(alloc, input, typed, item, &tree, *fault)? {
            notices.all.push(notice)?;
        }
    }
    add_unshown_refusal_count_if_any(&mut notices.more, items.others)?;
    Ok(notices)
}

/// The messages on refused items of an input, for a person to read, and how many other items are refused. Reads the model and
/// these items alone. Returns `None` if there are no refused items.
pub fn refused_items_messages_text(
    alloc: Global,
    input: &InputText<'_>,
    items: &RefusedItems,
) -> Result<Option<String>, AllocError> {
    if items.faults.is_empty() {
        return Ok(None);
    }
    let trees = input.plain_input();
    let mut cursor = TreeCursor::new(trees.bytes);
    let model = cursor.advance_to(0);
    let Ok(file) = load(alloc, cursor.bytes_at(model))? else {
        return Ok(None);
    };
    let notices = notices_on_refused_items(alloc, &trees, &file.typed, items)?;
    let read = Input {
        files: input.files(),
        bytes: input.bytes(),
    };
    if find_json_items(read.bytes).is_none() {
        return text_of_notices_if_any(alloc, &read, &notices);
    }
    let notices = notices_on_text_as_read(alloc, &file.typed, &read, trees.bytes, notices)?;
    text_of_notices_if_any(alloc, &read, &notices)
}
