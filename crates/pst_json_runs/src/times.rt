//! The trees of times.
ghost use Rattle.std.specs.Prelude.{◌≡◌, IfOk};
ghost use Rattle.json.specs.Value.{items_view, value_view};
ghost use Rattle.pst_json_runs.specs.Shown.{shown};
ghost use Rattle.pst_json_runs.specs.Trees as spec;

use crate::commands::{empty_node_form, json_array_items_or_empty};
use crate::spelled::form_or_other_if_unspellable;
use json::Value as Json;
use pst_sexpr::{Form, headed, list_of_one_form, word};
use pst_value::Items;
use std::alloc::{AllocError, Global};

/// The digits of a JSON number, and `-` for `null`.
fn instant_form_or_empty_from_json(alloc: Global, json: &Json<'_>) -> Result<Form, AllocError>
    ensures { IfOk result (λ form. form ≡ spec.instant_form (value_view json.now)) }
{
    match json {
        Json::Number(digits) => Ok(form_or_other_if_unspellable(
            word(alloc, digits)?,
            empty_node_form(alloc),
        )),
        Json::Null => word(alloc, "-"),
        _ => Ok(empty_node_form(alloc)),
    }
}

/// The tree of `[INVOKED, COMPLETED]`, and `()` for JSON that is no array.
fn time_form_or_empty_from_json(alloc: Global, json: &Json<'_>) -> Result<Form, AllocError>
    ensures { IfOk result (λ form. form ≡ spec.time_form (value_view json.now)) }
{
    let instants = json_array_items_or_empty(json);
    let mut forms = Items::new(alloc);
    for instant in instants {
        forms.push(instant_form_or_empty_from_json(alloc, instant)?)?;
    }
    Ok(Form::Node(forms))
}

/// The times of the calls of a branch.
fn branch_times_form_from_json(alloc: Global, json: &Json<'_>) -> Result<Form, AllocError>
    ensures { IfOk result (λ form. form ≡ spec.times_form (value_view json.now)) }
{
    let times = json_array_items_or_empty(json);
    let mut forms = Items::new(alloc);
    for time in times {
        forms.push(time_form_or_empty_from_json(alloc, time)?)?;
    }
    Ok(Form::Node(forms))
}

/// The times of each branch.
fn times_forms_of_branches_from_json(
    alloc: Global,
    lists: &[Json<'_>],
) -> Result<Items<Form>, AllocError>
    ensures { IfOk result (λ forms. forms ≡ spec.times_in (items_view lists.now)) }
{
    let mut forms = Items::new(alloc);
    for list in lists {
        forms.push(branch_times_form_from_json(alloc, list)?)?;
    }
    Ok(forms)
}

/// The part of an item for its times, if they are there.
pub fn times_form_from_json_if_present(
    alloc: Global,
    times: Option<&Json<'_>>,
) -> Result<Items<Form>, AllocError>
    ensures { IfOk result (λ forms. forms ≡ spec.times_forms (shown times.entry)) }
{
    match times {
        Some(lists) => {
            let lists = times_forms_of_branches_from_json(alloc, json_array_items_or_empty(lists))?;
            list_of_one_form(alloc, headed(alloc, "times", lists)?)
        }
        None => Ok(Items::new(alloc)),
    }
}
