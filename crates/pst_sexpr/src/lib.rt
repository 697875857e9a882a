//! The reader and the writer of trees of words, texts and brackets, the sinks that texts are written to, and the
//! integers that words spell.
//!
//! `read` returns the trees that a file spells, or its first fault. `write` writes the one spelling of a tree
//! to a `Sink`. `specs/Grammar.antt` has the grammar, `specs/Reading.antt` the faults, and
//! `specs/Spelling.antt` the spelling. `AllocError` means that an allocation failed.
#![tactic(auto)]

mod bytes;
mod form;
mod integer;
pub mod laws;
mod levels;
mod reader;
mod scan;
mod sink;
mod writer;

pub use form::{Form, Tree, headed, list_of_one_form, node_of, tree_in, word, word_of};
pub use integer::{are_digits, integer_of, is_integer, magnitude_of, value_of_integer_word};
pub use reader::{FaultKind, MAX_BYTES, MAX_LEVELS, SexprFault, read};
pub use sink::{Failed, Out, Sink, WriteFailed, put_all, put_each};
pub use writer::write;
