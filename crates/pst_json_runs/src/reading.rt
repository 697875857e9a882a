//! Values that JSON spells.
ghost use Rattle.std.specs.Prelude.{◌≡◌, IfOk, [], option_copied};
ghost use Rattle.json.specs.Value.{value_view, items_view, members_view};
ghost use Rattle.pst_json_runs.specs.Reading as spec;

use json::Value as Json;
use pst_sexpr::integer_of;
use pst_value::{Boxed, Items, Key, KeyTy, MOST_KEYS, Text, Ty, Value};
use std::alloc::{AllocError, Global};

/// Variables have smaller numbers.
const MOST_COMMANDS: u32 = 10_000;

fn copy_to_text(alloc: Global, text: &str) -> Result<Text, AllocError>
    ensures { IfOk result (λ copy. copy ≡ text.now) }
{
    Ok(Text::from_string(String::from_str(alloc, text)?))
}

/// The key of a type that a name spells, or else the name itself.
fn map_key_or_text_from_json_name(alloc: Global, kind: KeyTy, name: &str) -> Result<Key, AllocError>
    ensures { IfOk result (λ key. key ≡ spec.key_in kind name.now) }
{
    let name = copy_to_text(alloc, name)?;
    match kind {
        KeyTy::Int => match integer_of(&name) {
            Some(number) => Ok(Key::Int(number)),
            None => Ok(Key::Text(name)),
        },
        KeyTy::Bool => if name.as_str() == "true" {
            Ok(Key::Bool(true))
        } else if name.as_str() == "false" {
            Ok(Key::Bool(false))
        } else {
            Ok(Key::Text(name))
        },
        KeyTy::Text => Ok(Key::Text(name)),
    }
}

/// How many keys from the front on come before a key.
fn sorted_place_of_map_key(key: &Key, keys: &[Key]) -> usize
    ensures { result ≡ spec.place_of key.now keys.now }
{
    let mut place = 0;
    for other in keys {
        if !other.comes_before(key) {
            return place;
        }
        place += 1;
    }
    place
}

/// The types of the parts, if a tuple of `count` parts is wanted.
fn item_types_if_tuple_has_count<'a>(ty: Option<&'a Ty>, count: usize) -> Option<&'a [Ty]>
    ensures { option_copied result ≡ spec.tuple_types (option_copied ty.entry) count }
{
    match ty {
        Some(Ty::Tuple(types)) if types.len() == count => Some(types.as_slice()),
        _ => None,
    }
}

/// The type of the items, if a list is wanted.
fn list_item_type<'a>(ty: Option<&'a Ty>) -> Option<&'a Ty>
    ensures { option_copied result ≡ spec.item_type (option_copied ty.entry) }
{
    match ty {
        Some(Ty::List(ty)) => Some(ty.get()),
        _ => None,
    }
}

/// The types of keys and values, if a map is wanted, or else keys that are texts.
fn map_types_or_text_keys<'a>(ty: Option<&'a Ty>) -> (KeyTy, Option<&'a Ty>)
    ensures { (result.0, option_copied result.1) ≡ spec.map_types (option_copied ty.entry) }
{
    match ty {
        Some(Ty::Map(kind, ty)) => (*kind, Some(ty.get())),
        _ => (KeyTy::Text, None),
    }
}

/// The integer that digits spell, if it has at most 64 bits.
fn integer_from_digits(alloc: Global, digits: &str) -> Result<Option<Value>, AllocError>
    ensures { IfOk result (λ value. value ≡ spec.number_in digits.now) }
{
    match integer_of(&copy_to_text(alloc, digits)?) {
        Some(number) => Ok(Some(Value::Int(number))),
        None => Ok(None),
    }
}

/// The tuple of values, if one is wanted, or else the list.
fn tuple_or_list(types: Option<&[Ty]>, values: Items<Value>) -> Value
    ensures { result ≡ spec.tuple_or_list (option_copied types.entry) values }
{
    match types {
        Some(_) => Value::Tuple(values),
        None => Value::List(values),
    }
}

/// Whether the result of a command is wanted.
fn is_reference_type(ty: Option<&Ty>) -> bool
    ensures { result ≡ spec.is_reference (option_copied ty.entry) }
{
    match ty {
        Some(Ty::Ref(_)) => true,
        _ => false,
    }
}

/// Variable `number`, if it has at most four digits.
fn variable_if_number_in_range(number: i64) -> Option<Value>
    ensures { result ≡ spec.variable_of number }
{
    match u32::try_from(number) {
        Ok(number) if number < MOST_COMMANDS => Some(Value::Var(number)),
        _ => None,
    }
}

/// The variable whose number is spelled.
fn variable_from_json_number(alloc: Global, json: &Json<'_>) -> Result<Option<Value>, AllocError>
    ensures { IfOk result (λ value. value ≡ spec.variable_in (value_view json.now)) }
{
    match json {
        Json::Number(digits) => match integer_of(&copy_to_text(alloc, digits)?) {
            Some(number) => Ok(variable_if_number_in_range(number)),
            None => Ok(None),
        },
        _ => Ok(None),
    }
}

/// The variable that `{"result":n}` spells.
#[tactic(auto, using(crate::proofs::Wanted::wanted))]
fn variable_from_json_reference(alloc: Global, json: &Json<'_>) -> Result<Option<Value>, AllocError>
    ensures { IfOk result (λ value. value ≡ spec.reference_in (value_view json.now)) }
{
    match json {
        Json::Object(members) => {
            if members.len() != 1 {
                return Ok(None);
            }
            match json.get("result") {
                Some(number) => variable_from_json_number(alloc, number),
                None => Ok(None),
            }
        }
        _ => Ok(None),
    }
}

/// The value that JSON spells if type `ty` is wanted, or `None`. The value may have another type.
#[cycle(value)]
#[tactic(auto, using(crate::proofs::Wanted::wanted))]
pub fn value_from_json(
    alloc: Global,
    ty: Option<&Ty>,
    json: &Json<'_>,
) -> Result<Option<Value>, AllocError>
    ensures { IfOk result (λ value.
        value ≡ spec.value_in (option_copied ty.entry) (value_view json.now)) }
{
    match json {
        Json::Null => Ok(None),
        Json::Bool(holds) => Ok(Some(Value::Bool(*holds))),
        Json::Number(digits) => integer_from_digits(alloc, digits),
        Json::String(text) => Ok(Some(Value::Text(copy_to_text(alloc, text)?))),
        Json::Array(parts) => {
            let types = item_types_if_tuple_has_count(ty, parts.len());
            let first = types.unwrap_or(&[]);
            match values_from_json(alloc, first, list_item_type(ty), parts.as_slice())? {
                Some(values) => Ok(Some(tuple_or_list(types, values))),
                None => Ok(None),
            }
        }
        Json::Object(members) => {
            if is_reference_type(ty) {
                return variable_from_json_reference(alloc, json);
            }
            if members.len() > MOST_KEYS {
                return Ok(None);
            }
            let (kind, ty) = map_types_or_text_keys(ty);
            map_from_json_members(alloc, kind, ty, members.as_slice())
        }
    }
}

/// The values of parts, the first ones at the types, and each other one at the type.
#[cycle(value)]
fn values_from_json(
    alloc: Global,
    types: &[Ty],
    ty: Option<&Ty>,
    parts: &[Json<'_>],
) -> Result<Option<Items<Value>>, AllocError>
    ensures { IfOk result (λ values.
        values ≡ spec.values_in types.now (option_copied ty.entry) (items_view parts.now)) }
{
    let mut values = Items::new(alloc);
    let mut rest = types;
    for part in parts {
        let wanted = match rest.split_first() {
            Some((first, others)) => {
                rest = others;
                Some(first)
            }
            None => ty,
        };
        let Some(value) = value_from_json(alloc, wanted, part)? else {
            return Ok(None);
        };
        values.push(value)?;
    }
    Ok(Some(values))
}

/// The map of members, each put at the place of its key.
#[cycle(value)]
fn map_from_json_members(
    alloc: Global,
    kind: KeyTy,
    ty: Option<&Ty>,
    members: &[(&str, Json<'_>)],
) -> Result<Option<Value>, AllocError>
    ensures { IfOk result (λ value.
        value ≡ spec.map_in kind (option_copied ty.entry) [] [] (members_view members.now)) }
{
    let mut keys = Items::new(alloc);
    let mut values = Items::new(alloc);
    for (name, json) in members {
        let Some(value) = value_from_json(alloc, ty, json)? else {
            return Ok(None);
        };
        let key = map_key_or_text_from_json_name(alloc, kind, name)?;
        let place = sorted_place_of_map_key(&key, keys.as_slice());
        keys.insert(place, key)?;
        values.insert(place, value)?;
    }
    Ok(Some(Value::Map(Boxed::new(alloc, keys)?, Boxed::new(alloc, values)?)))
}
