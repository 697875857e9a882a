//! The answers about generated cases, and the generator over given words that they are generated from.
ghost use Rattle.std.specs.Prelude.{◌≡◌};

use crate::models::spell_tree_as_text;
use pst_case::Run;
use pst_eval::Plain;
use pst_gen::generate;
use pst_judge::Valid;
use pst_model::Typed;
use pst_runs::run_tree;
use pst_tests::support::typed_model_of_text;
use rand_core::utils::NextWord;
use rand_core::{Rng, utils};
use std::alloc::{AllocError, Global};

/// The wanted numbers of commands, branches and commands of a suffix.
#[derive(Clone, Copy, Drop)]
struct Sizes {
    commands: u32,
    branches: u32,
    suffix: u32,
}

/// The sizes that a text names.
fn parse_sizes_of_case(text: &str) -> Option<Sizes> {
    let mut parts = text.split(' ');
    let commands: u32 = parts.next()?.parse().ok()?;
    let branches: u32 = parts.next()?.parse().ok()?;
    let suffix: u32 = parts.next()?.parse().ok()?;
    Some(Sizes {
        commands,
        branches,
        suffix,
    })
}

/// The numbers in a text.
fn parse_numbers_or_zeros(alloc: Global, text: &str) -> Result<Vec<u64>, AllocError> {
    let mut numbers = Vec::new(alloc);
    for word in text.trim().split(' ') {
        numbers.push(word.parse().unwrap_or(0))?;
    }
    Ok(numbers)
}

/// The spelling of a valid case.
fn spelling_of_valid_case(alloc: Global, typed: &Typed, valid: Valid) -> Result<String, AllocError>
    requires { valid.model ≡ typed.now }
{
    let run = Run {
        shaped: valid.into_shaped(),
        history: None,
    };
    spell_tree_as_text(alloc, &run_tree(alloc, typed, &run)?)
}

/// The case that is generated from `words`, or the fault.
fn generated_case_or_fault_text(
    alloc: Global,
    typed: &Typed,
    sizes: Sizes,
    words: &mut Words<'_>,
) -> Result<String, AllocError> {
    let Sizes {
        commands,
        branches,
        suffix,
    } = sizes;
    if commands == 0 || commands > 64 || branches == 0 || branches > 4 || suffix > 8 {
        return String::from_str(alloc, "out of range");
    }
    let plain = Plain::new(typed);
    match generate(&plain, alloc, typed, words, commands, branches, suffix)? {
        Ok(valid) => spelling_of_valid_case(alloc, typed, valid),
        Err(fault) => {
            let command = fault.command;
            let callback = fault.callback.name();
            let fault = fault.fault.name();
            format!(in alloc; "{command} {callback} {fault}")
        }
    }
}

/// The case that is generated from the words of a text, or the fault, and how many words were drawn.
fn generated_case_and_draw_count(
    alloc: Global,
    typed: &Typed,
    sizes: Sizes,
    text: &str,
) -> Result<String, AllocError> {
    let numbers = parse_numbers_or_zeros(alloc, text)?;
    let mut words = Words {
        words: numbers.as_slice(),
        drawn: 0,
    };
    let answer = generated_case_or_fault_text(alloc, typed, sizes, &mut words)?;
    let drawn = words.drawn;
    format!(in alloc; "{answer} {drawn} drawn")
}

/// The case that is generated for a model, or the fault, and how many words were drawn. The text is
/// `COMMANDS BRANCHES SUFFIX, WORD WORD ..`.
pub fn generated_case_and_draws_answer(
    alloc: Global,
    model: &str,
    text: &str,
) -> Result<String, AllocError> {
    let (head, rest) = text.split_once(",").unwrap_or((text, ""));
    let Some(sizes) = parse_sizes_of_case(head) else {
        return String::from_str(alloc, "no sizes");
    };
    match typed_model_of_text(alloc, model) {
        Some(typed) => generated_case_and_draw_count(alloc, &typed, sizes, rest),
        None => String::from_str(alloc, "no model"),
    }
}

/// A generator that gives the words of a list, then 0, and counts the words that were drawn.
#[derive(Drop)]
pub struct Words<'a> {
    pub words: &'a [u64],
    pub drawn: usize,
}

impl<'a> NextWord<u64> for Words<'a> {
    ghost use Rattle.std.specs.Prelude.{◌+◌, ◌-◌, ◌^◌, min, slice_index};

    ghost step = { λ s. (slice_index s.words.now s.drawn, record s { drawn = min (s.drawn + 1) (2 ^ 64 - 1) }) };

    fn next_word(&mut self) -> u64 {
        let word = self.words.get(self.drawn).copied().unwrap_or(0);
        self.drawn = self.drawn.saturating_add(1);
        word
    }
}

impl<'a> Rng for Words<'a> {
    ghost use Rattle.std.specs.Prelude.{◌+◌, ◌-◌, ◌^◌, min, slice_index};
    ghost use Rattle.rand_core.specs.Steps.{stream_of, steps_u64_low};

    ghost stream = { stream_of (steps_u64_low (λ s. (slice_index s.words.now s.drawn, record s { drawn = min (s.drawn + 1) (2 ^ 64 - 1) }))) };

    fn next_u32(&mut self) -> u32 {
        (self.next_word() % 4_294_967_296) as u32
    }

    fn next_u64(&mut self) -> u64 {
        self.next_word()
    }

    fn fill_bytes(&mut self, dst: &mut [u8]) {
        utils::fill_bytes_via_u64(self, dst)
    }
}
