//! How messages spell types.

ghost use Rattle.std.specs.Prelude.{◌≤◌};

use pst_syntax_problems::key_type_word;
use pst_typing::{Kind, KindForm};
use std::alloc::{AllocError, Global};

/// The greatest number of forms of a type in a message. `..` replaces the others. A type may have more forms than
/// memory holds, because its equal parts are shared.
const MOST_FORMS: usize = 64;

/// How a reference is written.
#[derive(Clone, Copy, Drop)]
enum ReferenceSpelling {
    /// As the type that it is.
    Whole,
    /// As the type of its value.
    Values,
}

/// The spelling of a type.
pub fn shortened_type_text_of_kind(alloc: Global, kind: &Kind) -> Result<String, AllocError> {
    let mut text = String::new(alloc);
    let mut left = MOST_FORMS;
    push_type_text_within_limit(&mut text, alloc, kind, ReferenceSpelling::Whole, &mut left)?;
    Ok(text)
}

/// A type, as it is written with the type of its value in the place of each reference.
pub fn shortened_type_text_without_references(
    alloc: Global,
    kind: &Kind,
) -> Result<String, AllocError> {
    let mut text = String::new(alloc);
    let mut left = MOST_FORMS;
    push_type_text_within_limit(&mut text, alloc, kind, ReferenceSpelling::Values, &mut left)?;
    Ok(text)
}

/// Adds a type, and subtracts the number of its forms from `left`.
#[cycle(push_type_text_within_limit)]
fn push_type_text_within_limit(
    text: &mut String,
    alloc: Global,
    kind: &Kind,
    references: ReferenceSpelling,
    left: &mut usize,
) -> Result<(), AllocError>
    ensures { left.new ≤ left.old }
{
    if *left == 0 {
        return text.push_str("..");
    }
    *left -= 1;
    match kind.form(alloc)? {
        KindForm::Int => text.push_str("int"),
        KindForm::Bool => text.push_str("bool"),
        KindForm::Text => text.push_str("text"),
        KindForm::Call => text.push_str("call"),
        KindForm::Tuple(kinds) => push_tuple_type_text(
            text,
            alloc,
            kinds.as_slice(),
            references,
            left,
        ),
        KindForm::List(item) => push_last_type_part_and_bracket(
            text, alloc, "(list ", &item, references, left,
        ),
        KindForm::Ref(named) => match references {
            ReferenceSpelling::Whole => push_last_type_part_and_bracket(
                text, alloc, "(ref ", &named, references, left,
            ),
            ReferenceSpelling::Values => push_type_text_within_limit(
                text, alloc, &named, references, left,
            ),
        },
        KindForm::Map(keys, value) => {
            text.push_str("(map ")?;
            text.push_str(key_type_word(keys))?;
            push_last_type_part_and_bracket(text, alloc, " ", &value, references, left)
        }
    }
}

/// Adds `start`, the last part of a type, and a closing bracket.
#[cycle(push_type_text_within_limit)]
fn push_last_type_part_and_bracket(
    text: &mut String,
    alloc: Global,
    start: &str,
    kind: &Kind,
    references: ReferenceSpelling,
    left: &mut usize,
) -> Result<(), AllocError>
    ensures { left.new ≤ left.old }
{
    text.push_str(start)?;
    push_type_text_within_limit(text, alloc, kind, references, left)?;
    text.push_str(")")
}

/// Adds the type of tuples with items of `kinds`.
#[cycle(push_type_text_within_limit)]
fn push_tuple_type_text(
    text: &mut String,
    alloc: Global,
    kinds: &[Kind],
    references: ReferenceSpelling,
    left: &mut usize,
) -> Result<(), AllocError>
    ensures { left.new ≤ left.old }
{
    text.push_str("(tuple")?;
    for kind in kinds {
        if *left == 0 {
            return text.push_str(" ..)");
        }
        text.push_str(" ")?;
        push_type_text_within_limit(text, alloc, kind, references, left)?;
    }
    text.push_str(")")
}
