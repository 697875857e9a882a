//! The entries of a map in an argument or a reply.
ghost use Rattle.std.specs.Prelude.{◌≡◌, ◌<◌, true, IfOk, Option, List, option_copied};
ghost use Rattle.pst_run_problems.specs.ValuePlaces as spec;
ghost use Rattle.pst_model.specs.declared.model.Source.{Source};
ghost use Rattle.pst_value.specs.declared.ty.Ty.{Ty};

use crate::value_fault::FoundValueFault;
use crate::value_problem::ValueFault;
use pst_runs::{map_entry_key_and_value, read_map_key};
use pst_sexpr::Form;
use pst_value::{Items, Key, KeyTy};
use std::alloc::{AllocError, Global};

/// Whether a word is `true` or `false`.
pub fn is_bool_word(word: &str) -> bool {
    matches!(word, "true" | "false")
}

/// The type of a key.
fn type_of_map_key(key: &Key) -> KeyTy
    ensures { result ≡ spec.kind_of key.now }
{
    match key {
        Key::Int(_) => KeyTy::Int,
        Key::Bool(_) => KeyTy::Bool,
        Key::Text(_) => KeyTy::Text,
    }
}

/// Whether two types of keys are the same.
fn are_same_key_types(kind: KeyTy, other: KeyTy) -> bool
    ensures { result ≡ spec.is_same kind other }
{
    match (kind, other) {
        (KeyTy::Int, KeyTy::Int) | (KeyTy::Bool, KeyTy::Bool) | (KeyTy::Text, KeyTy::Text) => true,
        _ => false,
    }
}

/// Whether there is a key of the type `wanted`, and it comes after the key `before`.
fn is_allowed_next_map_key(wanted: Option<KeyTy>, before: &Option<Key>, key: &Option<Key>) -> bool
    ensures { result ≡ spec.is_next wanted before.now key.now }
{
    let Some(key) = key else {
        return false;
    };
    let is_of = match wanted {
        Some(wanted) => are_same_key_types(type_of_map_key(key), wanted),
        None => true,
    };
    let is_after = match before {
        Some(before) => before.comes_before(key),
        None => true,
    };
    is_of && is_after
}

/// The entry before entry `number` of a map with the trees `trees`.
fn map_entry_before(trees: &[Form], number: usize) -> Option<&Form>
    ensures { option_copied result ≡ spec.entry_before trees.now number }
{
    if number < 2 {
        return None;
    }
    trees.get(number - 1)
}

/// The key of the entry before entry `number` of a map with the trees `trees`.
fn map_key_before(alloc: Global, trees: &[Form], number: usize) -> Result<Option<Key>, AllocError>
    ensures { IfOk result (λ key. key ≡ spec.key_before trees.now number) }
{
    let Some(entry) = map_entry_before(trees, number) else {
        return Ok(None);
    };
    match map_entry_key_and_value(entry) {
        Some((key, _)) => read_map_key(alloc, key),
        None => Ok(None),
    }
}

/// The fault of `key`, which is not greater than the key of the entry `before`, or spells no key.
fn map_key_order_or_unnamed_fault<'a>(key: &'a Form, before: Option<&'a Form>) -> ValueFault<'a> {
    match before {
        Some(entry) => match map_entry_key_and_value(entry) {
            Some((before, _)) => ValueFault::Falls(key, before),
            None => ValueFault::Unnamed,
        },
        None => ValueFault::Unnamed,
    }
}

/// The fault of the tree `key`, which spells the key `spelled` and may not come after the key `before`.
fn refused_map_key_fault<'a>(
    key: &'a Form,
    wanted: Option<KeyTy>,
    before: &Option<Key>,
    spelled: &Option<Key>,
    entry_before: Option<&'a Form>,
) -> ValueFault<'a> {
    let Some(spelled) = spelled else {
        return ValueFault::Tree {
            before: "",
            form: key,
            after: " is not a key of a map",
        };
    };
    let wanted = match before {
        Some(before) => Some(type_of_map_key(before)),
        None => wanted,
    };
    match wanted {
        Some(wanted) if type_of_map_key(spelled) != wanted => ValueFault::OtherKey(key, wanted),
        _ => map_key_order_or_unnamed_fault(key, entry_before),
    }
}

/// The fault of a tree in a map that is no entry.
fn not_a_map_entry_fault(form: &Form) -> ValueFault<'_> {
    ValueFault::Tree {
        before: "an entry of a map is `(KEY VALUE)`, found ",
        form,
        after: "",
    }
}

/// The fault of entry `number`, or of its key, of a map with the trees `trees`.
fn map_entry_or_key_fault<'a>(
    alloc: Global,
    trees: &'a [Form],
    wanted: Option<KeyTy>,
    number: usize,
) -> Result<Option<FoundValueFault<'a>>, AllocError>
    requires { 0 < number }
    ensures { IfOk result (λ found. (m : Source) (results : List Ty) (ty : Option Ty) →
        spec.is_led_in m results (spec.AreEntries wanted ty) trees.now found ≡ true) }
{
    let Some(entry) = trees.get(number) else {
        return Ok(None);
    };
    let Some((key, _)) = map_entry_key_and_value(entry) else {
        let path = Items::from_slice(alloc, &[number])?;
        let fault = not_a_map_entry_fault(entry);
        return Ok(Some(FoundValueFault { path, fault }));
    };
    let before = map_key_before(alloc, trees, number)?;
    let spelled = read_map_key(alloc, key)?;
    if is_allowed_next_map_key(wanted, &before, &spelled) {
        return Ok(None);
    }
    let path = Items::from_slice(alloc, &[number, 0])?;
    let fault = refused_map_key_fault(
        key,
        wanted,
        &before,
        &spelled,
        map_entry_before(trees, number),
    );
    Ok(Some(FoundValueFault { path, fault }))
}

/// The fault of the first wrong entry or key of a map with the trees `trees`. It does not check the values.
pub fn fault_of_first_bad_map_entry_or_key<'a>(
    alloc: Global,
    trees: &'a [Form],
    wanted: Option<KeyTy>,
) -> Result<Option<FoundValueFault<'a>>, AllocError>
    ensures { IfOk result (λ found. (m : Source) (results : List Ty) (ty : Option Ty) →
        spec.is_led_in m results (spec.AreEntries wanted ty) trees.now found ≡ true) }
{
    for number in 1..trees.len() {
        let found = map_entry_or_key_fault(alloc, trees, wanted, number)?;
        if found.is_some() {
            return Ok(found);
        }
    }
    Ok(None)
}
