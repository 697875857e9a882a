//! Inputs of several files: their joined text, the file of a place in this text, and messages at places. Also places of
//! trees: their bytes, their line and column, and the line as messages show it; and notices, which messages and warnings
//! are made of.
//!
//! `span_at_path_or_whole_input` and `deepest_span_on_path_in_tree` find the bytes of the tree at a path. It is proved that they spell this tree.
//! Messages themselves are tested and not proved.
//!
//! `AllocError` means that an allocation failed.
#![tactic(auto)]

mod brackets;
mod input;
mod laws;
mod notice;
mod scan;
mod shown;

pub use brackets::{
    ClosedItem, Unclosed, find_probably_unclosed_item, head_of_first_item,
    item_closed_before_stray_bracket,
};
pub use input::{
    FilePart, FilePlace, Input, LastMessageLine, SourceFile, find_file_of_place,
    joined_text_of_files,
};
pub use laws::files_start_in_joined_text;
pub use notice::{
    Notice, NoticePlace, Notices, notice_text, place_of_notice, text_of_notices_if_any,
};
pub use scan::{
    Span, State, deepest_span_on_path_in_tree, is_space, scan_state_after_byte,
    span_at_path_or_whole_input, tree_at,
};
pub use shown::{
    LineStart, Place, char_and_length_at, count_on_to_line_start, place_of_span,
    place_of_span_on_line, start_of_first_line,
};
