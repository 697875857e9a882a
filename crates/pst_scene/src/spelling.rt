//! The spelling of trees, values, expressions, commands and interleavings, and the words of an expression.

use crate::scene::{Call, Scene};
use pst_case::{Command, Reply};
use pst_model::{Expr, Op, Source, operation_of};
use pst_print::expr_form;
use pst_sexpr::Form;
use pst_value::{Key, Value};
use std::alloc::{AllocError, Global};

/// Adds a text.
pub fn add_str(out: &mut Vec<u8>, text: &str) -> Result<(), AllocError> {
    out.extend_from_slice(text.as_bytes())
}

/// Adds a number.
pub fn add_number(out: &mut Vec<u8>, number: usize) -> Result<(), AllocError> {
    if number >= 10 {
        add_number(out, number / 10)?;
    }
    let digit = (number % 10) as u8;
    out.push(b'0' + digit)?;
    Ok(())
}

fn add_integer(out: &mut Vec<u8>, alloc: Global, number: i64) -> Result<(), AllocError> {
    if number >= 0 {
        return add_number(out, number as usize);
    }
    let text = format!(in alloc; "{number}")?;
    add_str(out, text.as_str())
}

/// Adds the variable of a command.
pub fn add_command_variable(
    out: &mut Vec<u8>,
    alloc: Global,
    number: u32,
) -> Result<(), AllocError> {
    let text = format!(in alloc; "${number}")?;
    add_str(out, text.as_str())
}

fn add_bool_spelling(out: &mut Vec<u8>, holds: bool) -> Result<(), AllocError> {
    add_str(out, if holds { "true" } else { "false" })
}

fn add_map_key_spelling(out: &mut Vec<u8>, alloc: Global, key: &Key) -> Result<(), AllocError> {
    match key {
        Key::Int(number) => add_integer(out, alloc, *number),
        Key::Bool(holds) => add_bool_spelling(out, *holds),
        Key::Text(text) => add_quoted_text(out, text.as_bytes()),
    }
}

/// Adds the name of an operation, by its number from 0.
pub fn add_operation_name_if_known(
    out: &mut Vec<u8>,
    model: &Source,
    number: u32,
) -> Result<(), AllocError> {
    match operation_of(model.items.as_slice(), number as usize) {
        Some(operation) => add_str(out, operation.name.as_str()),
        None => Ok(()),
    }
}

/// Adds a value as items spell it; a reference as `$n=` and the value that it names; a call as its operation and its
/// arguments.
#[cycle(value)]
pub fn add_value_spelling(
    out: &mut Vec<u8>,
    alloc: Global,
    model: &Source,
    value: &Value,
) -> Result<(), AllocError> {
    match value {
        Value::Int(number) => add_integer(out, alloc, *number),
        Value::Bool(holds) => add_bool_spelling(out, *holds),
        Value::Text(text) => add_quoted_text(out, text.as_bytes()),
        Value::Tuple(parts) => {
            add_str(out, "(tuple")?;
            add_value_spellings_and_bracket(out, alloc, model, parts.as_slice())
        }
        Value::List(parts) => {
            add_str(out, "(list")?;
            add_value_spellings_and_bracket(out, alloc, model, parts.as_slice())
        }
        Value::Map(keys, values) => {
            add_str(out, "(map")?;
            add_map_entries_and_bracket(
                out,
                alloc,
                model,
                keys.get().as_slice(),
                values.get().as_slice(),
            )
        }
        Value::Var(number) => add_command_variable(out, alloc, *number),
        Value::Ref(number, value) => {
            add_command_variable(out, alloc, *number)?;
            add_str(out, "=")?;
            add_value_spelling(out, alloc, model, value.get())
        }
        Value::Call(operation, args) => {
            add_str(out, "(")?;
            add_operation_name_if_known(out, model, *operation)?;
            add_value_spellings_and_bracket(out, alloc, model, args.as_slice())
        }
    }
}

/// Adds values, a space before each, and the bracket that closes them.
#[cycle(value)]
fn add_value_spellings_and_bracket(
    out: &mut Vec<u8>,
    alloc: Global,
    model: &Source,
    values: &[Value],
) -> Result<(), AllocError> {
    for value in values {
        add_str(out, " ")?;
        add_value_spelling(out, alloc, model, value)?;
    }
    add_str(out, ")")
}

/// Adds the entries of a map, a space before each, and the bracket that closes them.
#[cycle(value)]
fn add_map_entries_and_bracket(
    out: &mut Vec<u8>,
    alloc: Global,
    model: &Source,
    keys: &[Key],
    values: &[Value],
) -> Result<(), AllocError> {
    let mut rest = keys;
    for value in values {
        let Some((key, others)) = rest.split_first() else {
            return add_str(out, ")");
        };
        add_str(out, " (")?;
        add_map_key_spelling(out, alloc, key)?;
        add_str(out, " ")?;
        add_value_spelling(out, alloc, model, value)?;
        add_str(out, ")")?;
        rest = others;
    }
    add_str(out, ")")
}

/// Adds a command as items spell it.
pub fn add_command_spelling(
    out: &mut Vec<u8>,
    alloc: Global,
    model: &Source,
    command: &Command,
) -> Result<(), AllocError> {
    add_str(out, "(")?;
    add_operation_name_if_known(out, model, command.op)?;
    add_value_spellings_and_bracket(out, alloc, model, command.args.as_slice())
}

/// Adds a reply as items spell it.
pub fn add_reply_spelling(
    out: &mut Vec<u8>,
    alloc: Global,
    model: &Source,
    reply: &Reply,
) -> Result<(), AllocError> {
    match reply {
        Reply::Value(value) => add_value_spelling(out, alloc, model, value),
        Reply::Misfit => add_str(out, "misfit"),
        Reply::Failed => add_str(out, "failed"),
        Reply::NotRun => add_str(out, "not-run"),
        Reply::Unknown => add_str(out, "unknown"),
    }
}

/// Adds a text between quotes.
pub fn add_quoted_text(out: &mut Vec<u8>, bytes: &[u8]) -> Result<(), AllocError> {
    out.push(b'"')?;
    for byte in bytes {
        if *byte == b'"' || *byte == b'\\' {
            out.push(b'\\')?;
        }
        out.push(*byte)?;
    }
    out.push(b'"')?;
    Ok(())
}

/// Adds the spelling of a tree.
#[cycle(form)]
pub fn add_tree_spelling(out: &mut Vec<u8>, form: &Form) -> Result<(), AllocError> {
    match form {
        Form::Word(word) => out.extend_from_slice(word.as_bytes()),
        Form::Text(text) => add_quoted_text(out, text.as_bytes()),
        Form::Node(forms) => {
            out.push(b'(')?;
            add_tree_spellings(out, forms.as_slice())?;
            out.push(b')')?;
            Ok(())
        }
    }
}

/// Adds the spellings of trees, with a space between them.
#[cycle(form)]
fn add_tree_spellings(out: &mut Vec<u8>, forms: &[Form]) -> Result<(), AllocError> {
    for (place, form) in forms.iter().enumerate() {
        if place > 0 {
            out.push(b' ')?;
        }
        add_tree_spelling(out, form)?;
    }
    Ok(())
}

/// The letter of a branch, from 0; of the call of unknown outcome in the prefix, 4, and of a command of the suffix, 5.
pub fn branch_letter(branch: usize) -> u8 {
    match branch {
        0 => b'L',
        1 => b'R',
        2 => b'S',
        3 => b'T',
        4 => b'P',
        _ => b'.',
    }
}

/// Adds an interleaving of branches: a letter for each branch in `interleaving`, or `-` if it is empty.
pub fn add_interleaving_letters_or_dash(
    out: &mut Vec<u8>,
    interleaving: &[usize],
) -> Result<(), AllocError> {
    if interleaving.is_empty() {
        out.push(b'-')?;
    }
    for branch in interleaving {
        out.push(branch_letter(*branch))?;
    }
    Ok(())
}

/// Returns the parts, joined to one text.
pub fn join_explanation_parts(alloc: Global, parts: &[&[u8]]) -> Result<Vec<u8>, AllocError> {
    let mut text = Vec::new(alloc);
    for part in parts {
        text.extend_from_slice(part)?;
    }
    Ok(text)
}

/// A text of one part.
pub fn copy_explanation_text(alloc: Global, part: &str) -> Result<Vec<u8>, AllocError> {
    let mut text = Vec::new(alloc);
    add_str(&mut text, part)?;
    Ok(text)
}

/// The spelling of a value.
pub fn value_text(alloc: Global, model: &Source, value: &Value) -> Result<Vec<u8>, AllocError> {
    let mut text = Vec::new(alloc);
    add_value_spelling(&mut text, alloc, model, value)?;
    Ok(text)
}

/// The spelling of an expression.
pub fn expression_text(alloc: Global, expression: &Expr) -> Result<Vec<u8>, AllocError> {
    let mut text = Vec::new(alloc);
    add_tree_spelling(&mut text, &expr_form(alloc, expression)?)?;
    Ok(text)
}

/// The operation of a command.
pub fn operation_of_call<'a>(scene: &Scene<'a>, call: &Call<'_>) -> Option<&'a Op> {
    operation_of(scene.model.items.as_slice(), call.command.op as usize)
}

fn is_word_among(words: &[Vec<u8>], word: &[u8]) -> bool {
    for other in words {
        if other.as_slice() == word {
            return true;
        }
    }
    false
}

fn add_word_once(words: &mut Vec<Vec<u8>>, alloc: Global, word: &[u8]) -> Result<(), AllocError> {
    if !is_word_among(words.as_slice(), word) {
        words.push(Vec::from_slice(alloc, word)?)?;
    }
    Ok(())
}

#[cycle(words)]
fn add_words_of_tree(
    words: &mut Vec<Vec<u8>>,
    alloc: Global,
    form: &Form,
) -> Result<(), AllocError> {
    match form {
        Form::Word(word) => add_word_once(words, alloc, word.as_bytes()),
        Form::Text(_) => Ok(()),
        Form::Node(forms) => add_words_of_trees(words, alloc, forms.as_slice()),
    }
}

#[cycle(words)]
fn add_words_of_trees(
    words: &mut Vec<Vec<u8>>,
    alloc: Global,
    forms: &[Form],
) -> Result<(), AllocError> {
    for form in forms {
        add_words_of_tree(words, alloc, form)?;
    }
    Ok(())
}

/// The words of an expression as it is spelled, in their order, each once.
pub fn words_of_expression(alloc: Global, expr: &Expr) -> Result<Vec<Vec<u8>>, AllocError> {
    let mut words = Vec::new(alloc);
    let form = expr_form(alloc, expr)?;
    add_words_of_tree(&mut words, alloc, &form)?;
    Ok(words)
}

/// Whether `word` occurs in an expression.
pub fn expression_mentions_word(
    alloc: Global,
    expr: &Expr,
    word: &[u8],
) -> Result<bool, AllocError> {
    let words = words_of_expression(alloc, expr)?;
    Ok(is_word_among(words.as_slice(), word))
}
