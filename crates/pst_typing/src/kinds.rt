//! Types in which equal parts are shared.
//!
//! A type of the language is a tree, and a name that is used twice doubles it. A `Kind` holds each different part
//! once, so its memory grows with the number of different parts, and kinds are compared in time that does too.

mod form;
mod kind;
mod nodes;

pub use form::KindForm;
pub use kind::Kind;
