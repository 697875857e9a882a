//! Types, trees and names as messages show them.

use pst_model::Param;
use pst_sexpr::Form;
use pst_value::{Items, KeyTy, Text, Ty};
use std::alloc::{AllocError, Global};
use std::fmt;

/// The word for a type of keys.
pub fn key_type_word(keys: KeyTy) -> &'static str {
    match keys {
        KeyTy::Int => "int",
        KeyTy::Bool => "bool",
        KeyTy::Text => "text",
    }
}

/// A type, shown as it is written.
#[derive(Clone, Copy, Drop)]
pub struct TypeText<'a>(pub &'a Ty);

impl fmt::Display for TypeText<'_> {
    fn fmt<W: fmt::Write>(&self, f: &mut fmt::Formatter<W>) -> fmt::Result {
        write_type_for_message(f, self.0)
    }
}

#[cycle(write_type_for_message)]
fn write_type_for_message<W: fmt::Write>(f: &mut fmt::Formatter<W>, ty: &Ty) -> fmt::Result {
    match ty {
        Ty::Int => f.write_str("int"),
        Ty::Bool => f.write_str("bool"),
        Ty::Text => f.write_str("text"),
        Ty::Call => f.write_str("call"),
        Ty::Tuple(items) => {
            f.write_str("(tuple")?;
            write_types_and_closing_bracket(f, items.as_slice())
        }
        Ty::List(item) => {
            f.write_str("(list ")?;
            write_type_and_closing_bracket(f, item.get())
        }
        Ty::Ref(named) => {
            f.write_str("(ref ")?;
            write_type_and_closing_bracket(f, named.get())
        }
        Ty::Map(keys, value) => {
            let keys = key_type_word(*keys);
            write!(f, "(map {keys} ")?;
            write_type_and_closing_bracket(f, value.get())
        }
    }
}

/// Writes a type and a closing bracket.
#[cycle(write_type_for_message)]
fn write_type_and_closing_bracket<W: fmt::Write>(
    f: &mut fmt::Formatter<W>,
    ty: &Ty,
) -> fmt::Result {
    write_type_for_message(f, ty)?;
    f.write_str(")")
}

/// Writes types with a blank before each, and a closing bracket.
#[cycle(write_type_for_message)]
fn write_types_and_closing_bracket<W: fmt::Write>(
    f: &mut fmt::Formatter<W>,
    types: &[Ty],
) -> fmt::Result {
    for ty in types {
        f.write_str(" ")?;
        write_type_for_message(f, ty)?;
    }
    f.write_str(")")
}

/// A tree, shown as it is written.
#[derive(Clone, Copy, Drop)]
pub struct FormText<'a>(pub &'a Form);

impl fmt::Display for FormText<'_> {
    fn fmt<W: fmt::Write>(&self, f: &mut fmt::Formatter<W>) -> fmt::Result {
        write_tree_for_message(f, self.0)
    }
}

#[cycle(write_tree_for_message)]
fn write_tree_for_message<W: fmt::Write>(f: &mut fmt::Formatter<W>, form: &Form) -> fmt::Result {
    match form {
        Form::Word(word) => f.write_str(word.as_str()),
        Form::Text(text) => write_quoted_and_escaped(f, text.as_str()),
        Form::Node(parts) => {
            f.write_str("(")?;
            write_form_parts_and_closing_bracket(f, parts.as_slice())
        }
    }
}

/// Writes a text in quotes, with a backslash before each quote and each backslash in it.
pub fn write_quoted_and_escaped<W: fmt::Write>(
    f: &mut fmt::Formatter<W>,
    text: &str,
) -> fmt::Result {
    f.write_str("\"")?;
    for letter in text.chars() {
        if letter == '"' || letter == '\\' {
            f.write_str("\\")?;
        }
        f.write_char(letter)?;
    }
    f.write_str("\"")
}

/// Writes trees with a blank between them, and a closing bracket.
#[cycle(write_tree_for_message)]
fn write_form_parts_and_closing_bracket<W: fmt::Write>(
    f: &mut fmt::Formatter<W>,
    parts: &[Form],
) -> fmt::Result {
    for (number, part) in parts.iter().enumerate() {
        if number > 0 {
            f.write_str(" ")?;
        }
        write_tree_for_message(f, part)?;
    }
    f.write_str(")")
}

/// A tree as it is written: all of it if that is shorter than 40 bytes, or else its first 40 bytes and `...`.
pub fn shortened_tree_text(alloc: Global, form: &Form) -> Result<String, AllocError> {
    let form = FormText(form);
    let whole = format!(in alloc; "{form}")?;
    match whole.as_str().get(..40) {
        Some(start) => format!(in alloc; "{start}..."),
        None => Ok(whole),
    }
}

/// The head of a signature, shown as `(NAME a:int b:text) of type bool`.
#[derive(Clone, Copy, Drop)]
pub struct SignatureText<'a> {
    /// The name of the function or the operation.
    pub name: &'a str,
    /// Its parameters.
    pub params: &'a [Param],
    /// The type of its result.
    pub gives: &'a Ty,
}

impl fmt::Display for SignatureText<'_> {
    fn fmt<W: fmt::Write>(&self, f: &mut fmt::Formatter<W>) -> fmt::Result {
        f.write_str("(")?;
        f.write_str(self.name)?;
        for param in self.params {
            let name = param.name.as_str();
            let ty = TypeText(&param.ty);
            write!(f, " {name}:{ty}")?;
        }
        let gives = TypeText(self.gives);
        write!(f, ") of type {gives}")
    }
}

/// A number of things, shown as `1 part` or `2 parts`.
#[derive(Clone, Copy, Drop)]
pub struct CountedNoun<'a> {
    /// How many there are.
    pub number: usize,
    /// The word for one of them.
    pub word: &'a str,
}

impl fmt::Display for CountedNoun<'_> {
    fn fmt<W: fmt::Write>(&self, f: &mut fmt::Formatter<W>) -> fmt::Result {
        let CountedNoun { number, word } = *self;
        let ending = if number == 1 { "" } else { "s" };
        write!(f, "{number} {word}{ending}")
    }
}

/// `number` things, by the word for one of them.
pub fn counted_noun(number: usize, word: &str) -> CountedNoun<'_> {
    CountedNoun { number, word }
}

/// Names, shown with commas between them.
#[derive(Clone, Copy, Drop)]
pub struct CommaSeparatedNames<'a>(pub &'a Items<Text>);

impl fmt::Display for CommaSeparatedNames<'_> {
    fn fmt<W: fmt::Write>(&self, f: &mut fmt::Formatter<W>) -> fmt::Result {
        for (number, name) in self.0.as_slice().iter().enumerate() {
            if number > 0 {
                f.write_str(", ")?;
            }
            f.write_str(name.as_str())?;
        }
        Ok(())
    }
}
