//! Random expressions.

use crate::forms::{BODY, BOUND, FORMS, SMALLEST_EXPRESSIONS, TAKEN};
use rand_core::Rng;
use rand_pcg::Pcg64;
use std::alloc::{AllocError, Global};

/// How many forms with parts are built for a model.
const STEPS: u32 = 40;

/// How many bytes an expression has at most.
const MOST_BYTES: usize = 1_200;

/// A random number below `most`, which is not 0.
fn random_number_below(generator: &mut Pcg64, most: usize) -> usize {
    match generator.next_u64().checked_rem(most as u64) {
        Some(rest) => rest as usize,
        None => 0,
    }
}

/// The first of the expressions that has the type of the letter.
fn first_expression_of_type<'a>(built: &'a [String], letter: &str) -> Option<&'a str> {
    for expression in built {
        if let Some(text) = expression.as_str().strip_prefix(letter) {
            return Some(text);
        }
    }
    None
}

/// An expression of the type of the letter: rather one that was built late.
fn random_expression_of_type_or_zero<'a>(
    built: &'a [String],
    generator: &mut Pcg64,
    letter: &str,
) -> &'a str {
    let one = random_number_below(generator, built.len());
    let start = one
        .max(random_number_below(generator, built.len()))
        .min(built.len());
    let (front, back) = built.split_at(start);
    match first_expression_of_type(back, letter) {
        Some(text) => text,
        None => first_expression_of_type(front, letter).unwrap_or("0"),
    }
}

/// The form with an expression for each part.
fn form_with_random_parts(
    alloc: Global,
    built: &[String],
    generator: &mut Pcg64,
    form: &str,
) -> Result<String, AllocError> {
    let mut text = String::new(alloc);
    for (index, piece) in form.split('@').enumerate() {
        if index == 0 {
            text.push_str(piece)?;
        } else if let Some((letter, rest)) = piece.split_at_checked(1) {
            text.push_str(random_expression_of_type_or_zero(built, generator, letter))?;
            text.push_str(rest)?;
        }
    }
    Ok(text)
}

/// A list of the smallest expressions.
fn smallest_expressions(alloc: Global) -> Result<Vec<String>, AllocError> {
    let mut built = Vec::new(alloc);
    for form in SMALLEST_EXPRESSIONS {
        built.push(String::from_str(alloc, form)?)?;
    }
    Ok(built)
}

/// Builds further expressions. Applications are among them only if `may_apply`.
fn push_random_expressions(
    alloc: Global,
    built: &mut Vec<String>,
    generator: &mut Pcg64,
    may_apply: bool,
) -> Result<(), AllocError> {
    for _ in 0..STEPS {
        let form = FORMS
            .get(random_number_below(generator, FORMS.len()))
            .copied()
            .unwrap_or("i0");
        let text = form_with_random_parts(alloc, built.as_slice(), generator, form)?;
        if text.len() <= MOST_BYTES && (may_apply || !text.as_str().contains("(f ")) {
            built.push(text)?;
        }
    }
    Ok(())
}

/// A random expression over the names that `bound` binds.
fn random_expression_in_binding_form(
    alloc: Global,
    generator: &mut Pcg64,
    may_apply: bool,
    bound: &str,
) -> Result<String, AllocError> {
    let mut built = smallest_expressions(alloc)?;
    push_random_expressions(alloc, &mut built, generator, may_apply)?;
    form_with_random_parts(alloc, built.as_slice(), generator, bound)
}

/// The text of a model with a random initial state and a random function. If `has_slow_initial_state`, an expression that takes a
/// million turns comes first in the initial state.
pub fn random_model_text(
    alloc: Global,
    generator: &mut Pcg64,
    has_slow_initial_state: bool,
) -> Result<String, AllocError> {
    let bound = if has_slow_initial_state { TAKEN } else { BOUND };
    let init = random_expression_in_binding_form(alloc, generator, true, bound)?;
    let body = random_expression_in_binding_form(alloc, generator, false, BODY)?;
    format!(in alloc;
        "(model2 m (state int) (init {init}) (command (list call)) (op o ((i int)) int (pre true) (next s) (post true))
          (fun f ((i int) (k int)) int {body}))"
    )
}
