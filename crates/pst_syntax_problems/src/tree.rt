//! The head words of trees.

use pst_sexpr::{Form, node_of, word_of};
use pst_value::Text;

/// The head word of a node.
pub fn head_word_of_node(form: &Form) -> Option<&Text> {
    word_of(node_of(form)?.first()?)
}

/// The head word of a node, or an empty word if it has none.
pub fn head_word_or_empty(form: &Form) -> &str {
    match head_word_of_node(form) {
        Some(head) => head.as_str(),
        None => "",
    }
}

/// Whether a tree is a node with the head `word`.
pub fn has_head(form: &Form, word: &str) -> bool {
    head_word_or_empty(form) == word
}
