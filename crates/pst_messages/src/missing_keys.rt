//! The warning on a postcondition that reads a key which the map may not have.

use crate::warning::{tree_number_of_model_item, warning_notice};
use pst_model::{Expr, Item};
use pst_sexpr::{Form, node_of, tree_in};
use pst_sources::{Input, Notice};
use pst_syntax_problems::{has_head, head_word_or_empty, path_to_part};
use std::alloc::{AllocError, Global};

/// The heads by which an expression learns which keys a map has.
const TESTS_OF_KEYS: [&str; 2] = ["has", "keys"];

/// Whether a word is one of these.
fn is_one_of(word: &str, words: &[&str]) -> bool {
    words.iter().any(|known| *known == word)
}

/// Whether the tree, or a tree in it, has one of these words as its head.
#[cycle(holds_head)]
fn holds_head(form: &Form, words: &[&str]) -> bool {
    match form {
        Form::Node(parts) => {
            is_one_of(head_word_or_empty(form), words) || any_holds_head(parts.as_slice(), words)
        }
        Form::Word(_) | Form::Text(_) => false,
    }
}

/// Whether one of the trees, or a tree in one of them, has one of these words as its head.
#[cycle(holds_head)]
fn any_holds_head(forms: &[Form], words: &[&str]) -> bool {
    for form in forms {
        if holds_head(form, words) {
            return true;
        }
    }
    false
}

/// Adds the way from the tree to the first `get` in it to `path`, and returns true. Without a `get` it returns false and
/// leaves `path` as it is.
fn extend_path_to_first_get(form: &Form, path: &mut Vec<usize>) -> Result<bool, AllocError> {
    let Form::Node(parts) = form else {
        return Ok(false);
    };
    if head_word_or_empty(form) == "get" {
        return Ok(true);
    }
    for (number, part) in parts.as_slice().iter().enumerate() {
        path.push(number)?;
        if extend_path_to_first_get(part, path)? {
            return Ok(true);
        }
        path.pop();
    }
    Ok(false)
}

/// The name of the function that an item declares, or an empty word.
fn function_name_or_empty(item: &Form) -> &str {
    match node_of(item) {
        Some([Form::Word(head), Form::Word(declared), ..])
            if is_one_of(head.as_str(), &["fun", "postfun"]) => declared.as_str(),
        _ => "",
    }
}

/// Whether an expression applies a function among `items`.
fn applies_function(items: &[Form], expression: &Form) -> bool {
    for item in items {
        let name = function_name_or_empty(item);
        if !name.is_empty() && holds_head(expression, &[name]) {
            return true;
        }
    }
    false
}

/// Whether a function among `items` tests which keys a map has.
fn has_function_testing_keys(items: &[Form]) -> bool {
    for item in items {
        if !function_name_or_empty(item).is_empty() && holds_head(item, &TESTS_OF_KEYS) {
            return true;
        }
    }
    false
}

/// Whether an expression may test which keys a map has, by itself or by a function of the model.
fn may_test_keys(items: &[Form], expression: &Form) -> bool {
    holds_head(expression, &TESTS_OF_KEYS)
        || applies_function(items, expression) && has_function_testing_keys(items)
}

/// Whether a model begins with an empty map: its initial state has one, puts nothing into it, and applies no function.
fn begins_with_empty_map(items: &[Form]) -> bool {
    for item in items {
        if has_head(item, "init") {
            return holds_head(item, &["map"])
                && !holds_head(item, &["put"])
                && !applies_function(items, item);
        }
    }
    false
}

/// The path to the first `get` of the postcondition of an operation, if nothing tests whether the key is there. `item` is
/// the tree of the operation, which `path` leads to, and `items` are the trees of all items.
fn path_to_untested_get(
    alloc: Global,
    items: &[Form],
    path: &[usize],
    item: &Form,
) -> Result<Option<Vec<usize>>, AllocError> {
    for (number, part) in node_of(item).unwrap_or(&[]).iter().enumerate() {
        if has_head(part, "post") && !may_test_keys(items, part) {
            let mut found = path_to_part(path, alloc, number)?;
            if extend_path_to_first_get(part, &mut found)? {
                return Ok(Some(found));
            }
        }
    }
    Ok(None)
}

/// The warnings on postconditions that get a key which nothing tests: the map is empty at first, the precondition of the
/// operation is `true`, and neither the postcondition nor a function that it applies may ask which keys there are. `items` are the items
/// of the model whose tree is `model`.
pub fn warnings_on_missing_keys(
    alloc: Global,
    input: &Input<'_>,
    items: &[Item],
    model: &Form,
) -> Result<Vec<Notice>, AllocError> {
    let mut warnings = Vec::new(alloc);
    let forms = node_of(model).unwrap_or(&[]);
    if !begins_with_empty_map(forms) {
        return Ok(warnings);
    }
    for (number, item) in items.iter().enumerate() {
        let Item::Op(op) = item else {
            continue;
        };
        if !matches!(&op.pre, Expr::Bool(true)) {
            continue;
        }
        let number = tree_number_of_model_item(number);
        let Some(tree) = tree_in(model, &[number]) else {
            continue;
        };
        if let Some(found) = path_to_untested_get(alloc, forms, &[0, number], tree)? {
            warnings.push(warning_notice(
                alloc,
                input,
                found.as_slice(),
                "`get` faults if the map does not have the key, and the map is empty at first",
                "hint: ask by `(has m k)`, in `pre` or as in `(if (has m k) .. ..)`",
            )?)?;
        }
    }
    Ok(warnings)
}
