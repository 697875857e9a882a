//! The values that trees spell, and the keys of maps.
ghost use Rattle.std.specs.Prelude.{◌≡◌, IfOk, MatchOption, None, Some};
ghost use Rattle.pst_runs.specs.Values as spec;

use crate::room::items_with_capacity;
use pst_model::Typed;
use pst_sexpr::{Form, MAX_LEVELS, are_digits, integer_of, magnitude_of, node_of, word_of};
use pst_value::{Boxed, Items, Key, Text, Value, are_rising};
use std::alloc::{AllocError, Global};

/// What the values that trees spell may contain.
#[derive(Clone, Copy, Debug, PartialEq, Eq)]
pub struct Spelling {
    /// Maps, in the language that has them.
    pub has_maps: bool,
    /// Variables, in arguments.
    pub symbolic: bool,
}

impl Spelling {
    /// Returns what the arguments of commands may contain.
    pub fn of_arguments(typed: &Typed) -> Spelling
        ensures { result ≡ spec.in_arguments typed.now }
    {
        Spelling {
            has_maps: typed.source().has_maps,
            symbolic: true,
        }
    }

    /// Returns what replies may contain.
    pub fn of_replies(typed: &Typed) -> Spelling
        ensures { result ≡ spec.in_replies typed.now }
    {
        Spelling {
            has_maps: typed.source().has_maps,
            symbolic: false,
        }
    }
}

/// The maximum number of digits of a variable.
const MAX_DIGITS: usize = 4;

/// Returns the number of the variable with these digits.
#[tactic(auto, using(crate::proofs::Small::small))]
fn read_variable_number(digits: &[u8]) -> Option<u32>
    ensures { result ≡ spec.number_in digits.now }
{
    if digits.len() > MAX_DIGITS || !are_digits(digits) {
        return None;
    }
    u32::try_from(magnitude_of(digits)?).ok()
}

fn read_variable_word(word: &Text, symbolic: bool) -> Option<Value>
    ensures { result ≡ spec.variable_of symbolic word.now }
{
    match word.as_bytes() {
        [] => None,
        [first, digits @ ..] => if symbolic && *first == b'$' {
            Some(Value::Var(read_variable_number(digits)?))
        } else {
            None
        },
    }
}

#[tactic(auto, unfolding(crate::specs::Values::word_value))]
fn read_value_word(word: &Text, symbolic: bool) -> Option<Value>
    ensures { result ≡ spec.word_value symbolic word.now }
{
    if word.as_str() == "true" {
        return Some(Value::Bool(true));
    }
    if word.as_str() == "false" {
        return Some(Value::Bool(false));
    }
    match integer_of(word) {
        Some(number) => Some(Value::Int(number)),
        None => read_variable_word(word, symbolic),
    }
}

/// Returns the value that a tree spells, with at most `room` levels of values.
#[cycle(value)]
#[tactic(auto, using(crate::proofs::Rooms::rooms))]
fn read_value_within_levels(
    alloc: Global,
    form: &Form,
    spelling: Spelling,
    room: usize,
) -> Result<Option<Value>, AllocError>
    ensures { IfOk result (λ value. value ≡ spec.value_in spelling room form.now) }
{
    if room == 0 {
        return Ok(None);
    }
    match form {
        Form::Word(word) => Ok(read_value_word(word, spelling.symbolic)),
        Form::Text(text) => Ok(Some(Value::Text(text.copy(alloc)?))),
        Form::Node(parts) => read_node_value(alloc, parts.as_slice(), spelling, room - 1),
    }
}

#[cycle(value)]
fn read_node_value(
    alloc: Global,
    parts: &[Form],
    spelling: Spelling,
    room: usize,
) -> Result<Option<Value>, AllocError>
    ensures { IfOk result (λ value.
        value ≡ spec.node_value spelling (spec.value_in spelling room) parts.now) }
{
    let Some((first, parts)) = parts.split_first() else {
        return Ok(None);
    };
    let Some(head) = word_of(first) else {
        return Ok(None);
    };
    if head.as_str() == "tuple" {
        return match read_values_within_levels(alloc, parts, spelling, room)? {
            Some(values) => Ok(Some(Value::Tuple(values))),
            None => Ok(None),
        };
    }
    if head.as_str() == "list" {
        return match read_values_within_levels(alloc, parts, spelling, room)? {
            Some(values) => Ok(Some(Value::List(values))),
            None => Ok(None),
        };
    }
    if spelling.has_maps && head.as_str() == "map" {
        return read_map_value(alloc, parts, spelling, room);
    }
    Ok(None)
}

#[cycle(value)]
fn read_values_within_levels(
    alloc: Global,
    forms: &[Form],
    spelling: Spelling,
    room: usize,
) -> Result<Option<Items<Value>>, AllocError>
    ensures { IfOk result (λ values. values ≡ spec.each (spec.value_in spelling room) forms.now) }
{
    let mut values = items_with_capacity(alloc, forms.len())?;
    for form in forms {
        let Some(value) = read_value_within_levels(alloc, form, spelling, room)? else {
            return Ok(None);
        };
        values.push(value)?;
    }
    Ok(Some(values))
}

/// Returns the map of entries `(k v)` whose keys rise.
#[cycle(value)]
fn read_map_value(
    alloc: Global,
    entries: &[Form],
    spelling: Spelling,
    room: usize,
) -> Result<Option<Value>, AllocError>
    ensures { IfOk result (λ value. value ≡ spec.map_of (spec.value_in spelling room) entries.now) }
{
    let Some(keys) = read_map_keys(alloc, entries)? else {
        return Ok(None);
    };
    let Some(values) = read_map_entry_values(alloc, entries, spelling, room)? else {
        return Ok(None);
    };
    if are_rising(keys.as_slice()) {
        Ok(Some(Value::Map(Boxed::new(alloc, keys)?, Boxed::new(alloc, values)?)))
    } else {
        Ok(None)
    }
}

#[cycle(value)]
fn read_map_entry_values(
    alloc: Global,
    entries: &[Form],
    spelling: Spelling,
    room: usize,
) -> Result<Option<Items<Value>>, AllocError>
    ensures { IfOk result (λ values.
        values ≡ spec.each (spec.entry_value (spec.value_in spelling room)) entries.now) }
{
    let mut values = items_with_capacity(alloc, entries.len())?;
    for entry in entries {
        let Some((_, form)) = map_entry_key_and_value(entry) else {
            return Ok(None);
        };
        let Some(value) = read_value_within_levels(alloc, form, spelling, room)? else {
            return Ok(None);
        };
        values.push(value)?;
    }
    Ok(Some(values))
}

/// Returns the value that a tree spells, with at most `MAX_LEVELS` levels. It contains only what `spelling` allows.
pub fn read_value(
    alloc: Global,
    form: &Form,
    spelling: Spelling,
) -> Result<Option<Value>, AllocError>
    ensures { IfOk result (λ value. value ≡ spec.value_of spelling form.now) }
{
    read_value_within_levels(alloc, form, spelling, MAX_LEVELS)
}

/// Returns the key and the value of an entry `(k v)`, as trees.
pub fn map_entry_key_and_value(entry: &Form) -> Option<(&Form, &Form)>
    ensures { MatchOption result (spec.pair_of entry.now ≡ None)
        (λ pair. spec.pair_of entry.now ≡ Some (pair.0.now, pair.1.now)) }
{
    match node_of(entry)? {
        [key, value] => Some((key, value)),
        _ => None,
    }
}

#[tactic(auto, unfolding(crate::specs::Values::key_word))]
fn map_key_from_word(word: &Text) -> Option<Key>
    ensures { result ≡ spec.key_word word.now }
{
    if word.as_str() == "true" {
        return Some(Key::Bool(true));
    }
    if word.as_str() == "false" {
        return Some(Key::Bool(false));
    }
    Some(Key::Int(integer_of(word)?))
}

/// Returns the key that a tree spells.
#[tactic(auto, unfolding(crate::specs::Values::key_of))]
pub fn read_map_key(alloc: Global, form: &Form) -> Result<Option<Key>, AllocError>
    ensures { IfOk result (λ key. key ≡ spec.key_of form.now) }
{
    match form {
        Form::Word(word) => Ok(map_key_from_word(word)),
        Form::Text(text) => Ok(Some(Key::Text(text.copy(alloc)?))),
        Form::Node(_) => Ok(None),
    }
}

/// Returns the keys of the entries `(k v)` of a map. `None` if one of them is no entry, or its key spells none.
fn read_map_keys(alloc: Global, entries: &[Form]) -> Result<Option<Items<Key>>, AllocError>
    ensures { IfOk result (λ keys. keys ≡ spec.each spec.entry_key entries.now) }
{
    let mut keys = items_with_capacity(alloc, entries.len())?;
    for entry in entries {
        let Some((key, _)) = map_entry_key_and_value(entry) else {
            return Ok(None);
        };
        let Some(key) = read_map_key(alloc, key)? else {
            return Ok(None);
        };
        keys.push(key)?;
    }
    Ok(Some(keys))
}
