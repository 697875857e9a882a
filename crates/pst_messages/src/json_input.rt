//! Inputs whose items may be JSON, and the messages on them.

use crate::bytes::ByteFault;
use crate::json_item::{json_item_fault, json_span_at_or_around_tree_path};
use crate::message::{MANY_ITEMS, MessageScope, errors_of_input_without_json_items};
use pst_json_runs::{begins_like_json_item, replace_json_lines_by_trees};
use pst_model::{Source, Typed};
use pst_sexpr::{Form, MAX_BYTES};
use pst_sources::{
    Input, Notice, Notices, SourceFile, Span, joined_text_of_files, notice_text,
    span_at_path_or_whole_input,
};
use pst_typing::load;
use std::alloc::{AllocError, Global};

/// The texts by which clients of other tools say that the outcome of a call is unknown.
const UNKNOWN_OUTCOMES: [&str; 5] = [
    "\"timeout\"",
    "\"timed out\"",
    "\"unknown\"",
    "\"info\"",
    "\"pending\"",
];

/// An input of items, as it was read and with a tree in place of each JSON item.
#[derive(Clone, Copy, Drop)]
pub struct ItemInput<'a> {
    /// The input with a tree in place of each JSON item.
    pub trees: Input<'a>,
    /// The files as they were read.
    pub read: &'a [SourceFile<'a>],
}

impl ItemInput<'_> {
    /// The span of the part at `path` of the item `tree` in `read`, the text of the files as they were read. The path begins
    /// with the number of the item.
    fn span_of_part_as_read(&self, read: &[u8], tree: &Form, path: &[usize]) -> Span {
        translate_span_to_json_text(
            read,
            self.trees.bytes,
            tree,
            path.get(1..).unwrap_or(&[]),
            span_at_path_or_whole_input(self.trees.bytes, path),
        )
    }

    /// Whether the part at `path` of the item `tree`, as it was read, is a text by which clients of other tools say that the
    /// outcome of a call is unknown.
    pub fn is_unknown_outcome_as_read(
        &self,
        alloc: Global,
        tree: &Form,
        path: &[usize],
    ) -> Result<bool, AllocError> {
        let text = joined_text_of_files(alloc, self.read)?;
        let span = self.span_of_part_as_read(text.as_slice(), tree, path);
        let part = text.as_slice().get(span.start..span.end).unwrap_or(&[]);
        Ok(
            UNKNOWN_OUTCOMES
                .iter()
                .any(|known| part == known.as_bytes()),
        )
    }

    /// The text of `notice`, a notice on the part at `path` of the item `tree`. It shows the part as it was read. The
    /// path begins with the number of the item.
    pub fn notice_text_on_part_as_read(
        &self,
        alloc: Global,
        tree: &Form,
        path: &[usize],
        notice: Notice,
    ) -> Result<String, AllocError> {
        let text = joined_text_of_files(alloc, self.read)?;
        let read = Input {
            files: self.read,
            bytes: text.as_slice(),
        };
        let span = self.span_of_part_as_read(read.bytes, tree, path);
        notice_text(alloc, &read, &Notice { span, ..notice })
    }
}

/// The line that begins at `place`, without its end.
fn json_text_line_starting_at(text: &[u8], place: usize) -> &[u8] {
    for at in place..text.len() {
        if text.get(at) == Some(&b'\n') {
            return text.get(place..at).unwrap_or(&[]);
        }
    }
    text.get(place..).unwrap_or(&[])
}

/// The two places at which a line begins: in the text with JSON items, and in the text with trees in their place.
#[derive(Clone, Copy, Drop)]
struct JsonAndTreeLineStart {
    json: usize,
    tree: usize,
}

impl JsonAndTreeLineStart {
    /// The first line.
    fn first() -> JsonAndTreeLineStart {
        JsonAndTreeLineStart { json: 0, tree: 0 }
    }

    /// The line that `place` is in, which is a place in the text with trees. It is this line or a later one.
    fn advance_to_line_at(self, json: &[u8], trees: &[u8], place: usize) -> JsonAndTreeLineStart {
        let mut pair = self;
        for at in self.tree..place {
            if trees.get(at) == Some(&b'\n') {
                let length = json_text_line_starting_at(json, pair.json).len();
                pair = JsonAndTreeLineStart {
                    json: pair.json.saturating_add(length).saturating_add(1),
                    tree: at.saturating_add(1),
                };
            }
        }
        pair
    }

    /// The place in the text with JSON items of a place in this line of the other text.
    fn place_in_json(self, place: usize) -> usize {
        place.saturating_sub(self.tree).saturating_add(self.json)
    }
}

/// The bytes of a part of the item `tree` in `json`, a text with JSON items, if the part is at `span` in `trees`, the text
/// with a tree in place of each of them. `path` leads to the part. In a JSON item the bytes may be those of an array
/// around the part. The span may be empty if a text is not the one that is meant.
fn translate_span_to_json_text(
    json: &[u8],
    trees: &[u8],
    tree: &Form,
    path: &[usize],
    span: Span,
) -> Span {
    let pair = JsonAndTreeLineStart::first().advance_to_line_at(json, trees, span.start);
    let line = json_text_line_starting_at(json, pair.json);
    if !begins_like_json_item(line) {
        return Span {
            start: pair.place_in_json(span.start),
            end: pair.place_in_json(span.end),
        };
    }
    let found = json_span_at_or_around_tree_path(line, tree, path);
    Span {
        start: pair.json.saturating_add(found.start),
        end: pair.json.saturating_add(found.end),
    }
}

/// The error on the fault of the JSON item whose line begins at `start`.
fn json_fault_notice(alloc: Global, start: usize, fault: ByteFault) -> Notice {
    let ByteFault { span, what, notes } = fault;
    Notice {
        span: Span {
            start: start.saturating_add(span.start),
            end: start.saturating_add(span.end),
        },
        is_warning: false,
        what,
        notes,
        lines: String::new(alloc),
    }
}

/// The error `notice`, which is about the text with trees, as an error on the text with JSON items. If `pair` is at a
/// JSON item with a fault, it is the error on this fault instead.
fn json_fault_or_translated_notice(
    alloc: Global,
    typed: &Typed,
    json: &[u8],
    pair: JsonAndTreeLineStart,
    notice: Notice,
) -> Result<Notice, AllocError> {
    let line = json_text_line_starting_at(json, pair.json);
    if begins_like_json_item(line) {
        if let Some(fault) = json_item_fault(alloc, typed, line)? {
            return Ok(json_fault_notice(alloc, pair.json, fault));
        }
    }
    let span = Span {
        start: pair.place_in_json(notice.span.start),
        end: pair.place_in_json(notice.span.end),
    };
    Ok(Notice { span, ..notice })
}

/// The files with a tree in place of each JSON item.
fn files_with_json_as_trees<'a>(
    alloc: Global,
    model: &Source,
    files: &[SourceFile<'a>],
) -> Result<Vec<SourceFile<'a>>, AllocError> {
    let mut all = Vec::new(alloc);
    for file in files {
        let bytes = replace_json_lines_by_trees(alloc, model, file.bytes.as_slice())?;
        let name = file.name;
        all.push(SourceFile { name, bytes })?;
    }
    Ok(all)
}

/// The error on a text `json` with JSON items that is too large with trees in place of them, as `trees` is. It is at the
/// item that passes the limit.
fn too_large_as_trees_notice(
    alloc: Global,
    json: &[u8],
    trees: &[u8],
) -> Result<Notice, AllocError> {
    let JsonAndTreeLineStart {
        json: start,
        tree: _,
    } = JsonAndTreeLineStart::first().advance_to_line_at(json, trees, MAX_BYTES);
    let first_byte = Span { start: 0, end: 1 };
    let mut fault = ByteFault::new(
        alloc,
        first_byte,
        format_args!("as trees, the items up to here have more than {MAX_BYTES} bytes"),
    )?;
    for hint in MANY_ITEMS {
        fault = fault.with_note(alloc, hint)?;
    }
    Ok(json_fault_notice(alloc, start, fault))
}

/// The errors on `trees`, the text with a tree in place of each JSON item, as errors on the input as it was read.
pub(crate) fn notices_on_text_as_read(
    alloc: Global,
    typed: &Typed,
    input: &Input<'_>,
    trees: &[u8],
    notices: Notices,
) -> Result<Notices, AllocError> {
    let Notices { all, more } = notices;
    let mut notices = Notices {
        all: Vec::new(alloc),
        more,
    };
    let mut pair = JsonAndTreeLineStart::first();
    for notice in all {
        pair = pair.advance_to_line_at(input.bytes, trees, notice.span.start);
        notices.all.push(json_fault_or_translated_notice(
            alloc,
            typed,
            input.bytes,
            pair,
            notice,
        )?)?;
    }
    Ok(notices)
}

/// The errors of an input with JSON items whose model is accepted.
fn errors_of_json_and_tree_items(
    alloc: Global,
    input: &Input<'_>,
    typed: &Typed,
    scope: MessageScope,
) -> Result<Notices, AllocError> {
    let files = files_with_json_as_trees(alloc, typed.source(), input.files)?;
    let text = replace_json_lines_by_trees(alloc, typed.source(), input.bytes)?;
    if text.len() > MAX_BYTES {
        let notice = too_large_as_trees_notice(alloc, input.bytes, text.as_slice())?;
        return Notices::one(alloc, notice);
    }
    let trees = Input {
        files: files.as_slice(),
        bytes: text.as_slice(),
    };
    let notices = errors_of_input_without_json_items(alloc, &trees, scope)?;
    notices_on_text_as_read(alloc, typed, input, trees.bytes, notices)
}

/// The errors of an input whose first JSON item is at `place`. If the model is refused, they are those of the text
/// before this item.
pub fn errors_of_input_with_json_items(
    alloc: Global,
    input: &Input<'_>,
    scope: MessageScope,
    place: usize,
) -> Result<Notices, AllocError> {
    if input.bytes.len() > MAX_BYTES {
        return errors_of_input_without_json_items(alloc, input, scope);
    }
    let head = input.bytes.get(..place).unwrap_or(&[]);
    match load(alloc, head)? {
        Ok(file) => errors_of_json_and_tree_items(alloc, input, &file.typed, scope),
        Err(_) => {
            let files = input.files;
            errors_of_input_without_json_items(alloc, &Input { files, bytes: head }, scope)
        }
    }
}
