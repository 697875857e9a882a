//! A model that begins in the state after a call of another model.

use crate::warning::tree_number_of_model_item;
use pst_case::Command;
use pst_model::{Item, Op, Typed};
use pst_sexpr::{Form, Tree, node_of, tree_in};
use pst_sources::{Span, State, scan_state_after_byte, span_at_path_or_whole_input};
use pst_syntax_problems::{FormText, has_head};
use pst_typing::{ModelFile, load};
use pst_value::Value;
use std::alloc::{AllocError, Global};

/// The name of the state before the call.
const BEFORE: &[u8] = b"pst-before";

/// The word for the state.
const STATE: &[u8] = b"s";

/// The word for the result.
const RESULT: &[u8] = b"r";

/// Returns operation `number` of a model, from 0, with the number of its item.
fn operation_with_item_number(items: &[Item], number: u32) -> Option<(usize, &Op)> {
    let mut left = number;
    for (place, item) in items.iter().enumerate() {
        if let Item::Op(op) = item {
            if left == 0 {
                return Some((place, op));
            }
            left -= 1;
        }
    }
    None
}

/// Returns the literal of an integer, a bool or a text, and `None` for other values.
fn literal_if_scalar(alloc: Global, value: &Value) -> Result<Option<String>, AllocError> {
    match value {
        Value::Int(number) => Ok(Some(format!(in alloc; "{number}")?)),
        Value::Bool(holds) => Ok(Some(format!(in alloc; "{holds}")?)),
        Value::Text(text) => {
            let form = Form::Text(text.copy(alloc)?);
            let shown = FormText(&form);
            Ok(Some(format!(in alloc; "{shown}")?))
        }
        _ => Ok(None),
    }
}

/// Adds a word of an expression, or the name of the state before the call in the place of `s`.
fn push_word_or_state_name(text: &mut Vec<u8>, word: &[u8]) -> Result<(), AllocError> {
    if word == STATE {
        text.extend_from_slice(BEFORE)
    } else {
        text.extend_from_slice(word)
    }
}

/// Adds an expression in which the state has another name. Returns false if the expression has the word `r`, the result.
fn push_expression_with_state_name(
    text: &mut Vec<u8>,
    expression: &[u8],
) -> Result<bool, AllocError> {
    let mut state = State::Between;
    let mut start = 0;
    for (at, byte) in expression.iter().enumerate() {
        let next = scan_state_after_byte(state, *byte);
        if state != State::Word && next == State::Word {
            start = at;
        }
        if state == State::Word && next != State::Word {
            let word = expression.get(start..at).unwrap_or(&[]);
            if word == RESULT {
                return Ok(false);
            }
            push_word_or_state_name(text, word)?;
        }
        if next != State::Word {
            text.push(*byte)?;
        }
        state = next;
    }
    if state == State::Word {
        let word = expression.get(start..).unwrap_or(&[]);
        if word == RESULT {
            return Ok(false);
        }
        push_word_or_state_name(text, word)?;
    }
    Ok(true)
}

/// Adds the beginning of a `let` for each parameter of an operation. Returns false if an argument is no literal.
fn push_arguments_as_lets(
    text: &mut Vec<u8>,
    alloc: Global,
    op: &Op,
    arguments: &[Value],
) -> Result<bool, AllocError> {
    for (param, argument) in op.params.as_slice().iter().zip(arguments) {
        let Some(literal) = literal_if_scalar(alloc, argument)? else {
            return Ok(false);
        };
        text.extend_from_slice(b"(let ")?;
        text.extend_from_slice(param.name.as_bytes())?;
        text.push(b' ')?;
        text.extend_from_slice(literal.as_bytes())?;
        text.push(b' ')?;
    }
    Ok(true)
}

/// The parts of a model's text that make the state after a call.
#[derive(Clone, Copy, Drop)]
struct CallSpans {
    /// The model.
    model: Span,
    /// The item of the initial state.
    init: Span,
    /// The initial state.
    before: Span,
    /// The state after a call of the operation.
    next: Span,
}

/// Returns the number of the first of the trees with this head.
fn number_of_tree_headed(forms: &[Form], head: &str) -> Option<usize> {
    forms.iter().position(|form| has_head(form, head))
}

/// Returns the parts of the text of a model that make the state after a call of the operation that item `item` is.
fn spans_of_call(input: &[u8], tree: &Tree, item: usize) -> Option<CallSpans> {
    let item = tree_number_of_model_item(item);
    let init = number_of_tree_headed(node_of(tree.form())?, "init")?;
    let next = number_of_tree_headed(node_of(tree_in(tree.form(), &[item])?)?, "next")?;
    Some(CallSpans {
        model: span_at_path_or_whole_input(input, &[0]),
        init: span_at_path_or_whole_input(input, &[0, init]),
        before: span_at_path_or_whole_input(input, &[0, init, 1]),
        next: span_at_path_or_whole_input(input, &[0, item, next, 1]),
    })
}

/// Returns the bytes of a span.
fn bytes_of_span(input: &[u8], span: Span) -> &[u8] {
    input.get(span.start..span.end).unwrap_or(&[])
}

/// Returns the text of the model with another initial state, which is written after all other items: the state after a call
/// of `op`. `None` if it cannot be written.
fn text_with_later_state(
    alloc: Global,
    input: &[u8],
    spans: &CallSpans,
    op: &Op,
    arguments: &[Value],
) -> Result<Option<Vec<u8>>, AllocError> {
    let end = spans.model.end.saturating_sub(1);
    let mut text = Vec::from_slice(alloc, input.get(..spans.init.start).unwrap_or(&[]))?;
    text.extend_from_slice(input.get(spans.init.end..end).unwrap_or(&[]))?;
    text.extend_from_slice(b"\n(init (let ")?;
    text.extend_from_slice(BEFORE)?;
    text.push(b' ')?;
    text.extend_from_slice(bytes_of_span(input, spans.before))?;
    text.push(b' ')?;
    if !push_arguments_as_lets(&mut text, alloc, op, arguments)?
        || !push_expression_with_state_name(&mut text, bytes_of_span(input, spans.next))?
    {
        return Ok(None);
    }
    for _ in 0..op.params.len() {
        text.push(b')')?;
    }
    text.extend_from_slice(b")))")?;
    Ok(Some(text))
}

/// Returns a model like that at the beginning of `input`, which begins in the state of that model after `command` is called in
/// its initial state. `None` if there is no such model, or it cannot be written: an argument is no integer, bool or text, or
/// `next` uses the result.
pub fn model_beginning_after_call(
    alloc: Global,
    input: &[u8],
    command: &Command,
) -> Result<Option<Typed>, AllocError> {
    let Ok(ModelFile { typed, trees }) = load(alloc, input)? else {
        return Ok(None);
    };
    let items = typed.source().items.as_slice();
    let (Some(tree), Some((item, op))) = (
        trees.first(),
        operation_with_item_number(items, command.op),
    ) else {
        return Ok(None);
    };
    let Some(spans) = spans_of_call(input, tree, item) else {
        return Ok(None);
    };
    let arguments = command.args.as_slice();
    let Some(text) = text_with_later_state(alloc, input, &spans, op, arguments)? else {
        return Ok(None);
    };
    match load(alloc, text.as_slice())? {
        Ok(file) => Ok(Some(file.typed)),
        Err(_) => Ok(None),
    }
}
