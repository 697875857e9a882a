//! Inputs: the files as they were read, their joined bytes, and the text of trees that these mean.
//!
//! A line that begins with `{`, after the model, is an item as JSON, and means a tree (`specs/Meaning.antt`).
//! [`InputText`] keeps an input with its meaning.
//!
//! `AllocError` means that an allocation failed.
#![tactic(auto)]

pub mod laws;
mod lines;
mod meaning;
mod text;

pub use lines::{
    find_first_line_like_json_item, find_json_items, text_before, text_with_json_items_blanked,
};
pub use text::InputText;
