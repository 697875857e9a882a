//! Values and items as JSON: the value that JSON spells where a type is wanted, the JSON of a value, the tree of
//! each JSON item, and the JSON of each run.
//!
//! A JSON item is read by way of its tree (`specs/Trees.antt`), so cases and runs are judged in one way, whatever their
//! spelling. `specs/Lines.antt` turns a text with JSON items into a text of trees, `specs/Written.antt` has what is
//! written of a run.
#![tactic(auto)]

mod commands;
mod items;
mod lines;
mod reading;
mod replies;
mod spelled;
mod times;
mod write;
mod writing;

pub use items::item_form_or_empty_from_json;
pub use lines::{begins_like_json_item, json_line_tree_or_empty, replace_json_lines_by_trees};
pub use reading::value_from_json;
pub use write::{prove_json_is_read_back, run_json_line};
pub use writing::{write_json_value, write_json_values_and_end};
