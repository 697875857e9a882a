//! Turns models back into trees, and lays out the text of a model file with its comments. `AllocError` means that an allocation failed.
#![tactic(auto)]

mod expressions;
mod layout;
mod measure;
mod parts;
mod printer;
mod style;
mod tokens;

pub use expressions::{expr_form, ty_form};
pub use layout::format_file;
pub use printer::print_model;
