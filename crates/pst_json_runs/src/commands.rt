//! The trees of commands.
ghost use Rattle.std.specs.Prelude.{◌≡◌, IfOk, option_copied, slice_get};
ghost use Rattle.json.specs.Value.{items_view, value_view};
ghost use Rattle.pst_json_runs.specs.Trees as spec;

use crate::reading::value_from_json;
use crate::spelled::form_or_other_if_unspellable;
use json::Value as Json;
use pst_model::{Op, Param, Source, operation_number, operation_of};
use pst_runs::value_form;
use pst_sexpr::{Form, word};
use pst_value::{Items, Text, Ty, Value};
use std::alloc::{AllocError, Global};

/// `()`, which spells nothing.
pub fn empty_node_form(alloc: Global) -> Form
    ensures { result ≡ spec.nothing }
{
    Form::Node(Items::new(alloc))
}

/// The parts of an array.
#[tactic(auto, using(crate::proofs::Views::views))]
pub fn json_array_items_or_empty<'b, 'a>(json: &'b Json<'a>) -> &'b [Json<'a>]
    ensures { items_view result.now ≡ spec.items_in (value_view json.now) }
{
    match json {
        Json::Array(parts) => parts.as_slice(),
        _ => &[],
    }
}

/// The tree of a value, or `other` if it has no spelling. JSON that spells no value has the tree `()`.
pub fn value_form_or_other_or_empty(
    alloc: Global,
    other: Form,
    value: Option<Value>,
) -> Result<Form, AllocError>
    ensures { IfOk result (λ form. form ≡ spec.tree_or other value) }
{
    match value {
        Some(value) => Ok(form_or_other_if_unspellable(value_form(alloc, &value)?, other)),
        None => Ok(empty_node_form(alloc)),
    }
}

/// The operation `name`, if the model has it.
pub fn find_operation_in_model<'a>(model: &'a Source, name: &str) -> Option<&'a Op>
    ensures { option_copied result ≡ spec.operation_named model.now name.now }
{
    let number = operation_number(model.items.as_slice(), name.as_bytes())?;
    operation_of(model.items.as_slice(), number)
}

fn argument_form_or_empty_from_json(
    alloc: Global,
    ty: Option<&Ty>,
    json: &Json<'_>,
) -> Result<Form, AllocError>
    ensures { IfOk result (λ form. form ≡ spec.argument_form (option_copied ty.entry) (value_view json.now)) }
{
    let value = value_from_json(alloc, ty, json)?;
    value_form_or_other_or_empty(alloc, empty_node_form(alloc), value)
}

/// The name of an operation, and arguments at the types of parameters.
fn call_form_with_param_types(
    alloc: Global,
    name: &str,
    params: &[Param],
    args: &[Json<'_>],
) -> Result<Form, AllocError>
    ensures { IfOk result (λ form. form ≡ spec.named_form name.now params.now (items_view args.now)) }
{
    let mut forms = Items::new(alloc);
    forms.push(operation_name_form_or_question_mark(alloc, name)?)?;
    let mut rest = params;
    for arg in args {
        let ty = match rest.split_first() {
            Some((param, others)) => {
                rest = others;
                Some(&param.ty)
            }
            None => None,
        };
        forms.push(argument_form_or_empty_from_json(alloc, ty, arg)?)?;
    }
    Ok(Form::Node(forms))
}

/// The name of an operation. One that is no word names none, as `?` does.
fn operation_name_form_or_question_mark(alloc: Global, name: &str) -> Result<Form, AllocError>
    ensures { IfOk result (λ form. form ≡ spec.name_form name.now) }
{
    let other = word(alloc, "?")?;
    Ok(form_or_other_if_unspellable(word(alloc, name)?, other))
}

fn call_form_from_json(
    alloc: Global,
    model: &Source,
    name: &str,
    args: &[Json<'_>],
) -> Result<Form, AllocError>
    ensures { IfOk result (λ form. form ≡ spec.call_form model.now name.now (items_view args.now)) }
{
    match find_operation_in_model(model, name) {
        Some(operation) => call_form_with_param_types(
            alloc,
            name,
            operation.params.as_slice(),
            args,
        ),
        None => call_form_with_param_types(alloc, name, &[], args),
    }
}

/// The tree of `["op", arg, ..]`.
fn command_form_or_empty_from_json(
    alloc: Global,
    model: &Source,
    json: &Json<'_>,
) -> Result<Form, AllocError>
    ensures { IfOk result (λ form. form ≡ spec.command_form model.now (value_view json.now)) }
{
    match json_array_items_or_empty(json).split_first() {
        Some((first, args)) => match first {
            Json::String(name) => call_form_from_json(alloc, model, name, args),
            _ => Ok(empty_node_form(alloc)),
        },
        None => Ok(empty_node_form(alloc)),
    }
}

/// The trees of commands.
pub fn command_forms_from_json(
    alloc: Global,
    model: &Source,
    commands: &[Json<'_>],
) -> Result<Items<Form>, AllocError>
    ensures { IfOk result (λ forms. forms ≡ spec.command_forms model.now (items_view commands.now)) }
{
    let mut forms = Items::new(alloc);
    for command in commands {
        forms.push(command_form_or_empty_from_json(alloc, model, command)?)?;
    }
    Ok(forms)
}
