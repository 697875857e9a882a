//! The messages on refused inputs.

use crate::bytes::{ByteFault, byte_fault_of_sexpr_fault};
use crate::items::TreeCursor;
use crate::json_input::errors_of_input_with_json_items;
use crate::missing_model::model_form_problems_with_hints;
use crate::refused_items::{RefusedItems, notices_on_refused_items};
use pst_input::{InputText, find_json_items};
use pst_model::Typed;
use pst_runs::{RunFault, read_runs};
use pst_sexpr::{FaultKind, Form, SexprFault, Tree, read};
use pst_sources::{
    Input, Notice, Notices, SourceFile, Span, span_at_path_or_whole_input, text_of_notices_if_any,
};
use pst_syntax::read_model;
use pst_syntax_problems::{MOST_PROBLEMS, Problem, with_call_or_assignment_hint_if_meant};
use pst_type_problems::type_problems_from_item_on;
use pst_typing::{ModelFile, Refusal, load, trees_after_model};
use std::alloc::{AllocError, Global};
use std::slice;

/// The parts of an input that get messages.
#[derive(Clone, Copy, Debug, PartialEq, Eq, Drop)]
pub enum MessageScope {
    /// The model alone, without the items after it.
    Model,
    /// The model, and the first refused item after it.
    FirstItem,
    /// The model, and the first twenty refused items after it, with the number of further ones.
    EachItem,
    /// The model, and all refused items after it.
    AllItems,
}

/// The error on the bytes of `span` that `problem` describes.
pub fn error_notice_of_problem(alloc: Global, span: Span, problem: Problem) -> Notice {
    let Problem {
        path: _,
        what,
        notes,
    } = problem;
    Notice {
        span,
        is_warning: false,
        what,
        notes,
        lines: String::new(alloc),
    }
}

/// The error on the tree of the input that has the problem `problem`.
fn error_notice_at_tree(alloc: Global, input: &Input<'_>, problem: Problem) -> Notice {
    let span = span_at_path_or_whole_input(input.bytes, problem.path.as_slice());
    error_notice_of_problem(alloc, span, problem)
}

/// The errors on the problems of a model, at most twenty.
fn notices_on_first_model_problems(
    alloc: Global,
    input: &Input<'_>,
    problems: Vec<Problem>,
) -> Result<Notices, AllocError> {
    let mut notices = Notices::none(alloc);
    for problem in problems {
        if notices.all.len() < MOST_PROBLEMS {
            notices
                .all
                .push(error_notice_at_tree(alloc, input, problem))?;
        } else if notices.more.is_empty() {
            notices
                .more
                .push_str("more errors of the model are not shown\n")?;
        }
    }
    Ok(notices)
}

/// The problems of an ill-typed model, with hints on calls and assignments in the style of other languages.
fn with_call_or_assignment_hints(
    alloc: Global,
    model: &Form,
    problems: Vec<Problem>,
) -> Result<Vec<Problem>, AllocError> {
    let mut hinted = Vec::new(alloc);
    for problem in problems {
        hinted.push(with_call_or_assignment_hint_if_meant(alloc, model, problem)?)?;
    }
    Ok(hinted)
}

/// The problems of a model whose first ill-typed item has this number, from 1. Reads the model alone.
fn problems_of_ill_typed_model(
    alloc: Global,
    input: &Input<'_>,
    number: usize,
) -> Result<Vec<Problem>, AllocError> {
    let Some(tree) = TreeCursor::new(input.bytes).read_tree(alloc, 0) else {
        return Ok(Vec::new(alloc));
    };
    match read_model(alloc, slice::from_ref(&tree)) {
        Ok(model) => {
            let problems = type_problems_from_item_on(alloc, model.source(), tree.form(), number)?;
            with_call_or_assignment_hints(alloc, tree.form(), problems)
        }
        Err(_) => Ok(Vec::new(alloc)),
    }
}

/// The problems of a model that was read as trees.
fn problems_of_refused_model(
    alloc: Global,
    input: &Input<'_>,
    refusal: &Refusal,
) -> Result<Vec<Problem>, AllocError> {
    match refusal {
        Refusal::NoModel(_) => match read(alloc, input.bytes) {
            Ok(trees) => model_form_problems_with_hints(alloc, input, trees.as_slice()),
            Err(_) => Ok(Vec::new(alloc)),
        },
        Refusal::IllTyped(number) => problems_of_ill_typed_model(alloc, input, *number),
        Refusal::Unread(_) => Ok(Vec::new(alloc)),
    }
}

/// The first refused item after a model, if there is one.
fn first_refused_item(
    alloc: Global,
    typed: &Typed,
    trees: &[Tree],
) -> Result<RefusedItems, AllocError> {
    match read_runs(alloc, typed, trees_after_model(trees)) {
        Ok(_) => Ok(RefusedItems::none(alloc)),
        Err(fault) => RefusedItems::one(alloc, fault),
    }
}

/// The refused items after a model, of which the first `most` get messages.
fn refused_items(
    alloc: Global,
    typed: &Typed,
    trees: &[Tree],
    most: usize,
) -> Result<RefusedItems, AllocError> {
    let mut items = RefusedItems::none(alloc);
    for (index, tree) in trees_after_model(trees).iter().enumerate() {
        if let Err(fault) = read_runs(alloc, typed, slice::from_ref(tree)) {
            let run = index.saturating_add(1);
            items.add(RunFault { run, ..fault }, most)?;
        }
    }
    Ok(items)
}

/// The errors on the items after a well-typed model.
fn item_error_notices(
    alloc: Global,
    input: &Input<'_>,
    file: &ModelFile,
    scope: MessageScope,
) -> Result<Notices, AllocError> {
    let (typed, trees) = (&file.typed, file.trees.as_slice());
    let items = match scope {
        MessageScope::Model => return Ok(Notices::none(alloc)),
        MessageScope::FirstItem => first_refused_item(alloc, typed, trees)?,
        MessageScope::EachItem => refused_items(alloc, typed, trees, MOST_PROBLEMS)?,
        MessageScope::AllItems => refused_items(alloc, typed, trees, usize::MAX)?,
    };
    notices_on_refused_items(alloc, input, typed, &items)
}

/// The hints on items that are too large for one input.
pub const MANY_ITEMS: [&str; 2] = [
    "hint: `pst judge --stream MODEL < ITEMS` judges any number of items, one on each line",
    "hint: `sed -n 7p ITEMS | pst explain MODEL -` explains the item on line 7",
];

/// The error on bytes that are no file of trees.
fn error_notice_of_unread_bytes(
    alloc: Global,
    input: &Input<'_>,
    scope: MessageScope,
    refused: SexprFault,
) -> Result<Notice, AllocError> {
    let mut fault = byte_fault_of_sexpr_fault(alloc, input, refused)?;
    if refused.kind == FaultKind::TooLarge && scope != MessageScope::Model {
        for hint in MANY_ITEMS {
            fault = fault.with_note(alloc, hint)?;
        }
    }
    let ByteFault { span, what, notes } = fault;
    Ok(Notice {
        span,
        is_warning: false,
        what,
        notes,
        lines: String::new(alloc),
    })
}

/// The errors of an input without JSON items that begins with no well-typed model.
fn notices_on_refused_model(
    alloc: Global,
    input: &Input<'_>,
    scope: MessageScope,
    refusal: Refusal,
) -> Result<Notices, AllocError> {
    match refusal {
        Refusal::Unread(refused) => {
            Notices::one(
                alloc,
                error_notice_of_unread_bytes(alloc, input, scope, refused)?,
            )
        }
        _ => {
            let problems = problems_of_refused_model(alloc, input, &refusal)?;
            notices_on_first_model_problems(alloc, input, problems)
        }
    }
}

/// The messages on an input that is refused with `refusal`, for a person to read: those of [`input_error_messages_text`]. An
/// input without items as JSON is not loaded once more for them.
pub fn refused_model_messages_text(
    alloc: Global,
    input: &InputText<'_>,
    scope: MessageScope,
    refusal: Refusal,
) -> Result<Option<String>, AllocError> {
    let read = Input {
        files: input.files(),
        bytes: input.bytes(),
    };
    let errors = match find_json_items(read.bytes) {
        Some(place) => errors_of_input_with_json_items(alloc, &read, scope, place)?,
        None => notices_on_refused_model(alloc, &read, scope, refusal)?,
    };
    text_of_notices_if_any(alloc, &read, &errors)
}

/// The errors of an input without JSON items.
pub fn errors_of_input_without_json_items(
    alloc: Global,
    input: &Input<'_>,
    scope: MessageScope,
) -> Result<Notices, AllocError> {
    match load(alloc, input.bytes)? {
        Ok(file) => item_error_notices(alloc, input, &file, scope),
        Err(refusal) => notices_on_refused_model(alloc, input, scope, refusal),
    }
}

/// The errors of an input: for each the bytes that are wrong, what was expected and found, and hints. There are none if
/// no part that `scope` selects is refused. Lines after the first tree that begin with `{` are items as JSON.
pub fn input_error_notices(
    alloc: Global,
    input: &Input<'_>,
    scope: MessageScope,
) -> Result<Notices, AllocError> {
    match find_json_items(input.bytes) {
        Some(place) => errors_of_input_with_json_items(alloc, input, scope, place),
        None => errors_of_input_without_json_items(alloc, input, scope),
    }
}

/// The messages on the refused parts of an input, for a person to read. Each has the name of the file, the line and the
/// column of what is wrong, that line with the place underlined, what was expected and found, and hints. `input` is the
/// text of `files`. Returns `None` if no part that `scope` selects is refused.
pub fn input_error_messages_text(
    alloc: Global,
    files: &[SourceFile<'_>],
    input: &[u8],
    scope: MessageScope,
) -> Result<Option<String>, AllocError> {
    let input = Input {
        files,
        bytes: input,
    };
    let errors = input_error_notices(alloc, &input, scope)?;
    text_of_notices_if_any(alloc, &input, &errors)
}
