//! Values as trees.
ghost use Rattle.std.specs.Prelude.{◌≡◌, ◌++◌, ◌∷◌, [], IfOk, map, codes, decimal};
ghost use Rattle.std.specs.Fmt.{signed_decimal};
ghost use Rattle.pst_sexpr.specs.declared.form.Form.TheVariants.{Node, Word};
ghost use Rattle.pst_runs.specs.Written.{entries_form, key_form, truth_word, value_form};

use pst_sexpr::{Form, headed, word};
use pst_value::{Items, Key, Text, Value};
use std::alloc::{AllocError, Global};

fn integer_value_form(alloc: Global, number: i64) -> Result<Form, AllocError>
    ensures { IfOk result (λ form. form ≡ Word (signed_decimal number)) }
{
    Ok(Form::Word(Text::from_string(format!(in alloc; "{number}")?)))
}

fn variable_form(alloc: Global, number: u32) -> Result<Form, AllocError>
    ensures { IfOk result (λ form. form ≡ Word (codes "$" ++ decimal number)) }
{
    Ok(Form::Word(Text::from_string(format!(in alloc; "${number}")?)))
}

fn bool_value_form(alloc: Global, holds: bool) -> Result<Form, AllocError>
    ensures { IfOk result (λ form. form ≡ Word (truth_word holds)) }
{
    if holds {
        word(alloc, "true")
    } else {
        word(alloc, "false")
    }
}

/// The tree of a key.
fn map_key_form(alloc: Global, key: &Key) -> Result<Form, AllocError>
    ensures { IfOk result (λ form. form ≡ key_form key.now) }
{
    match key {
        Key::Int(number) => integer_value_form(alloc, *number),
        Key::Bool(holds) => bool_value_form(alloc, *holds),
        Key::Text(text) => Ok(Form::Text(text.copy(alloc)?)),
    }
}

/// The tree of a key and its value.
fn map_entry_form(alloc: Global, key: &Key, value: Form) -> Result<Form, AllocError>
    ensures { IfOk result (λ form. form ≡ Node (key_form key.now ∷ value ∷ [])) }
{
    let mut parts = Items::new(alloc);
    parts.push(map_key_form(alloc, key)?)?;
    parts.push(value)?;
    Ok(Form::Node(parts))
}

/// Returns the tree of a value. A reference is written as its value, and a call as its arguments: a valid run contains
/// neither.
#[cycle(value_form)]
#[tactic(auto, using(crate::proofs::Forms::value_forms))]
pub fn value_form(alloc: Global, value: &Value) -> Result<Form, AllocError>
    ensures { IfOk result (λ form. form ≡ value_form value.now) }
{
    match value {
        Value::Int(number) => integer_value_form(alloc, *number),
        Value::Bool(holds) => bool_value_form(alloc, *holds),
        Value::Text(text) => Ok(Form::Text(text.copy(alloc)?)),
        Value::Tuple(parts) => headed(alloc, "tuple", forms_of_values(alloc, parts.as_slice())?),
        Value::List(parts) => headed(alloc, "list", forms_of_values(alloc, parts.as_slice())?),
        Value::Map(keys, values) => {
            headed(
                alloc,
                "map",
                map_entry_forms(alloc, keys.get().as_slice(), values.get().as_slice())?,
            )
        }
        Value::Var(number) => variable_form(alloc, *number),
        Value::Ref(_, part) => value_form(alloc, part.get()),
        Value::Call(_, parts) => Ok(Form::Node(forms_of_values(alloc, parts.as_slice())?)),
    }
}

/// The trees of values.
#[cycle(value_form)]
pub fn forms_of_values(alloc: Global, values: &[Value]) -> Result<Items<Form>, AllocError>
    ensures { IfOk result (λ forms. forms ≡ map value_form values.now) }
{
    let mut forms = Items::new(alloc);
    for value in values {
        forms.push(value_form(alloc, value)?)?;
    }
    Ok(forms)
}

/// The trees of the entries of a map.
#[cycle(value_form)]
fn map_entry_forms(alloc: Global, keys: &[Key], values: &[Value]) -> Result<Items<Form>, AllocError>
    ensures { IfOk result (λ forms. forms ≡ entries_form keys.now (map value_form values.now)) }
{
    let mut entries = Items::new(alloc);
    let mut rest = keys;
    for value in values {
        let Some((key, others)) = rest.split_first() else {
            return Ok(entries);
        };
        let form = value_form(alloc, value)?;
        entries.push(map_entry_form(alloc, key, form)?)?;
        rest = others;
    }
    Ok(entries)
}
