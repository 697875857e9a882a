//! What the bytes of an input mean.
ghost use Rattle.std.specs.Prelude.{IfOk, MatchResult};
ghost use Rattle.pst_input.specs.Meaning.{HasJson, Means};
ghost use Rattle.pst_input.specs.Plain.{MeansTrees, plain_of};
ghost use Rattle.pst_sexpr.specs.Reading.{IsFault};
ghost use Rattle.pst_typing.specs.Loading.{IsFile};

use crate::lines::{
    find_first_line_like_json_item, has_first_tree, text_before, text_with_json_items_blanked,
};
use pst_json_runs::replace_json_lines_by_trees;
use pst_model::Source;
use pst_sexpr::{FaultKind, MAX_BYTES, SexprFault, Tree, read};
use pst_typing::load;
use std::alloc::{AllocError, Global};

/// The trees of a file, or its first fault.
fn read_trees_or_fault(
    alloc: Global,
    bytes: &[u8],
) -> Result<Result<Vec<Tree>, SexprFault>, AllocError>
    ensures { IfOk result
        (λ read. MatchResult read (λ trees. IsFile bytes.now trees.items) (IsFault bytes.now)) }
{
    match read(alloc, bytes) {
        Ok(trees) => Ok(Ok(trees)),
        Err(fault) => {
            if fault.kind == FaultKind::NoMemory {
                return Err(AllocError);
            }
            Ok(Err(fault))
        }
    }
}

/// Returns the text with a tree in place of each line that begins with `{`; or, if what is around these lines is no text of trees,
/// with blanks.
fn text_with_json_items_as_trees_or_blanks(
    alloc: Global,
    model: &Source,
    text: &[u8],
) -> Result<Vec<u8>, AllocError>
    ensures { IfOk result (λ plain. MeansTrees model.now text.now plain.items) }
{
    let blanked = text_with_json_items_blanked(alloc, text)?;
    let read = read_trees_or_fault(alloc, blanked.as_slice())?;
    match read {
        Ok(_) => replace_json_lines_by_trees(alloc, model, text),
        Err(_) => Ok(blanked),
    }
}

/// Returns the plain text of an input whose items as JSON begin at `place`.
fn plain_text_of_input_with_json_items(
    alloc: Global,
    input: &[u8],
    place: usize,
) -> Result<Vec<u8>, AllocError>
    requires { HasJson input.now place }
    ensures { IfOk result (λ plain. Means input.now plain.items) }
{
    let head = text_before(input, place);
    match load(alloc, head)? {
        Ok(file) => text_with_json_items_as_trees_or_blanks(alloc, file.typed.source(), input),
        Err(_) => Vec::from_slice(alloc, head),
    }
}

/// Returns the plain text that an input means. `None` if the input means itself.
pub(crate) fn plain_text_if_input_has_json_items(
    alloc: Global,
    input: &[u8],
) -> Result<Option<Vec<u8>>, AllocError>
    ensures { IfOk result (λ plain. Means input.now (plain_of input.now plain)) }
{
    let Some(place) = find_first_line_like_json_item(input) else {
        return Ok(None);
    };
    if input.len() > MAX_BYTES {
        return Ok(None);
    }
    if !has_first_tree(text_before(input, place)) {
        return Ok(None);
    }
    Ok(Some(plain_text_of_input_with_json_items(alloc, input, place)?))
}
