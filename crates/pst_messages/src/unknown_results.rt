//! The warnings on operations whose next state depends on the result, for systems whose calls may have an unknown outcome.

use crate::warning::{tree_number_of_model_item, warning_notice};
use pst_eval::does_next_name_result;
use pst_model::{Item, Op};
use pst_sexpr::{Form, node_of, tree_in};
use pst_sources::{Input, Notice, Notices};
use pst_syntax_problems::{has_head, path_to_part};
use pst_typing::{ModelFile, load};
use std::alloc::{AllocError, Global};

/// The path to the next state of an operation, or to the operation if its tree has none. `number` is the number of the
/// operation's tree in the tree of the model.
fn path_to_next_state(
    alloc: Global,
    model: &Form,
    number: usize,
) -> Result<Vec<usize>, AllocError> {
    let path = [0, number];
    let parts = match tree_in(model, &[number]) {
        Some(tree) => node_of(tree).unwrap_or(&[]),
        None => &[],
    };
    for (place, part) in parts.iter().enumerate() {
        if has_head(part, "next") {
            return path_to_part(&path, alloc, place);
        }
    }
    let mut whole = Vec::new(alloc);
    whole.extend_from_slice(&path)?;
    Ok(whole)
}

/// The warning that the next state after a call of the operation depends on the result.
fn used_result_warning(
    alloc: Global,
    input: &Input<'_>,
    path: &[usize],
    op: &Op,
) -> Result<Notice, AllocError> {
    let name = op.name.as_str();
    warning_notice(
        alloc,
        input,
        path,
        format_args!("the next state after `{name}` depends on its result `r`"),
        format_args!(
            "a run in which a call of `{name}` has an unknown outcome is `broken` at this call"
        ),
    )
}

/// The warnings on the operations of a model whose next state depends on the result, one for each: a run in which a call of
/// such an operation has an unknown outcome is broken. There are no warnings if the model is refused.
pub fn unknown_outcome_warning_notices(
    alloc: Global,
    input: &Input<'_>,
) -> Result<Notices, AllocError> {
    let mut warnings = Notices::none(alloc);
    let Ok(ModelFile { typed, trees }) = load(alloc, input.bytes)? else {
        return Ok(warnings);
    };
    let Some(tree) = trees.first() else {
        return Ok(warnings);
    };
    let source = typed.source();
    let mut operation: u32 = 0;
    for (number, item) in source.items.as_slice().iter().enumerate() {
        let Item::Op(op) = item else {
            continue;
        };
        if does_next_name_result(source, operation) {
            let number = tree_number_of_model_item(number);
            let path = path_to_next_state(alloc, tree.form(), number)?;
            let warning = used_result_warning(alloc, input, path.as_slice(), op)?;
            warnings.all.push(warning)?;
        }
        operation = operation.saturating_add(1);
    }
    Ok(warnings)
}
