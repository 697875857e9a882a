//! The trees of items.
ghost use Rattle.std.specs.Prelude.{◌≡◌, IfOk};
ghost use Rattle.std.specs.Option.{option_map};
ghost use Rattle.json.specs.Value.{items_view, value_view};
ghost use Rattle.pst_json_runs.specs.Shown.{shown};
ghost use Rattle.pst_json_runs.specs.Trees as spec;

use crate::commands::{command_forms_from_json, empty_node_form, json_array_items_or_empty};
use crate::replies::{reply_list_forms_of_parts_from_json, rest_after_first_json};
use crate::spelled::form_or_other_if_unspellable;
use crate::times::times_form_from_json_if_present;
use json::Value as Json;
use pst_model::Source;
use pst_sexpr::{Form, headed, list_of_one_form};
use pst_value::Items;
use std::alloc::{AllocError, Global};

#[tactic(auto, using(crate::proofs::Views::views))]
fn is_json_array(json: &Json<'_>) -> bool
    ensures { result ≡ spec.is_array (value_view json.now) }
{
    match json {
        Json::Array(_) => true,
        _ => false,
    }
}

fn are_json_arrays(parts: &[Json<'_>]) -> bool
    ensures { result ≡ spec.are_arrays (items_view parts.now) }
{
    for part in parts {
        if !is_json_array(part) {
            return false;
        }
    }
    true
}

/// Whether it is an array of arrays.
fn is_json_array_of_arrays(json: &Json<'_>) -> bool
    ensures { result ≡ spec.are_parts (value_view json.now) }
{
    is_json_array(json) && are_json_arrays(json_array_items_or_empty(json))
}

/// Whether it is an array, if it is there.
fn is_absent_or_json_array(json: Option<&Json<'_>>) -> bool
    ensures { result ≡ spec.is_part (shown json.entry) }
{
    match json {
        Some(json) => is_json_array(json),
        None => true,
    }
}

fn is_present_json_array_of_arrays(json: Option<&Json<'_>>) -> bool
    ensures { result ≡ spec.are_branches (shown json.entry) }
{
    match json {
        Some(json) => is_json_array_of_arrays(json),
        None => false,
    }
}

fn is_absent_or_json_array_of_arrays(json: Option<&Json<'_>>) -> bool
    ensures { result ≡ spec.are_lists (shown json.entry) }
{
    match json {
        Some(json) => is_json_array_of_arrays(json),
        None => true,
    }
}

fn one_if_present_else_zero(json: Option<&Json<'_>>) -> usize
    ensures { result ≡ spec.count (shown json.entry) }
{
    match json {
        Some(_) => 1,
        None => 0,
    }
}

/// How many of the parts of an item are there.
fn count_known_json_item_members(json: &Json<'_>) -> usize
    ensures { result ≡ spec.named (value_view json.now) }
{
    one_if_present_else_zero(json.get("prefix"))
        + one_if_present_else_zero(json.get("branches"))
        + one_if_present_else_zero(json.get("suffix"))
        + one_if_present_else_zero(json.get("replies"))
        + one_if_present_else_zero(json.get("times"))
}

#[tactic(auto, using(crate::proofs::Views::views))]
fn count_json_members_or_zero(json: &Json<'_>) -> usize
    ensures { result ≡ spec.size_of (value_view json.now) }
{
    match json {
        Json::Object(members) => members.len(),
        _ => 0,
    }
}

/// Whether the replies and the times are arrays of arrays, if they are there.
fn has_outer_shape_of_json_records(json: &Json<'_>) -> bool
    ensures { result ≡ spec.are_records (value_view json.now) }
{
    is_absent_or_json_array_of_arrays(json.get("replies"))
        && is_absent_or_json_array_of_arrays(json.get("times"))
}

/// Whether it is an object with the parts of an item, each once, and nothing else.
fn has_outer_shape_of_json_item(json: &Json<'_>) -> bool
    ensures { result ≡ spec.is_item (value_view json.now) }
{
    count_json_members_or_zero(json) == count_known_json_item_members(json)
        && is_absent_or_json_array(json.get("prefix"))
        && is_present_json_array_of_arrays(json.get("branches"))
        && is_absent_or_json_array(json.get("suffix"))
        && has_outer_shape_of_json_records(json)
}

/// A word, and the commands of a part, if it is there.
fn headed_commands_form_from_json(
    alloc: Global,
    model: &Source,
    word: &str,
    part: Option<&Json<'_>>,
) -> Result<Form, AllocError>
    ensures { IfOk result (λ form. form ≡ spec.section model.now word.now (shown part.entry)) }
{
    match part {
        Some(part) => headed(
            alloc,
            word,
            command_forms_from_json(alloc, model, json_array_items_or_empty(part))?,
        ),
        None => headed(alloc, word, Items::new(alloc)),
    }
}

fn unheaded_branch_forms_from_json(
    alloc: Global,
    model: &Source,
    branches: &[Json<'_>],
) -> Result<Items<Form>, AllocError>
    ensures { IfOk result (λ forms. forms ≡ spec.branch_forms model.now (items_view branches.now)) }
{
    let mut forms = Items::new(alloc);
    for branch in branches {
        forms.push(Form::Node(command_forms_from_json(
            alloc,
            model,
            json_array_items_or_empty(branch),
        )?))?;
    }
    Ok(forms)
}

/// Two branches as `left` and `right`.
fn left_and_right_forms_from_json(
    alloc: Global,
    model: &Source,
    branches: &[Json<'_>],
) -> Result<Items<Form>, AllocError>
    ensures { IfOk result (λ forms. forms ≡ spec.two_forms model.now (items_view branches.now)) }
{
    let left = headed_commands_form_from_json(alloc, model, "left", branches.first())?;
    let right = headed_commands_form_from_json(
        alloc,
        model,
        "right",
        rest_after_first_json(branches).first(),
    )?;
    let mut forms = list_of_one_form(alloc, left)?;
    forms.push(right)?;
    Ok(forms)
}

/// Another number of branches.
fn headed_branches_form_from_json(
    alloc: Global,
    model: &Source,
    branches: &[Json<'_>],
) -> Result<Items<Form>, AllocError>
    ensures { IfOk result (λ forms. forms ≡ spec.many_forms model.now (items_view branches.now)) }
{
    let forms = unheaded_branch_forms_from_json(alloc, model, branches)?;
    list_of_one_form(alloc, headed(alloc, "branches", forms)?)
}

/// Two branches as `left` and `right`, or another number of branches.
#[tactic(auto, using(crate::proofs::Views::views))]
fn branch_forms_by_count_from_json(
    alloc: Global,
    model: &Source,
    branches: &[Json<'_>],
) -> Result<Items<Form>, AllocError>
    ensures { IfOk result (λ forms. forms ≡ spec.branches_forms model.now (items_view branches.now)) }
{
    if branches.len() == 2 {
        left_and_right_forms_from_json(alloc, model, branches)
    } else {
        headed_branches_form_from_json(alloc, model, branches)
    }
}

fn suffix_form_from_json_if_present(
    alloc: Global,
    model: &Source,
    suffix: Option<&Json<'_>>,
) -> Result<Items<Form>, AllocError>
    ensures { IfOk result (λ forms. forms ≡ spec.suffix_forms model.now (shown suffix.entry)) }
{
    match suffix {
        Some(json) => list_of_one_form(
            alloc,
            headed_commands_form_from_json(alloc, model, "suffix", Some(json))?,
        ),
        None => Ok(Items::new(alloc)),
    }
}

/// The lists of replies to the parts of an item.
fn item_reply_list_forms_from_json(
    alloc: Global,
    model: &Source,
    json: &Json<'_>,
    lists: &[Json<'_>],
) -> Result<Items<Form>, AllocError>
    ensures { IfOk result (λ forms.
        forms ≡ spec.lists_in model.now (value_view json.now) (items_view lists.now)) }
{
    match json.get("branches") {
        Some(branches) => reply_list_forms_of_parts_from_json(
            alloc,
            model,
            json.get("prefix"),
            json_array_items_or_empty(branches),
            json.get("suffix"),
            lists,
        ),
        None => reply_list_forms_of_parts_from_json(
            alloc,
            model,
            json.get("prefix"),
            &[],
            json.get("suffix"),
            lists,
        ),
    }
}

fn replies_form_from_json_if_present(
    alloc: Global,
    model: &Source,
    json: &Json<'_>,
    replies: Option<&Json<'_>>,
) -> Result<Items<Form>, AllocError>
    ensures { IfOk result (λ forms.
        forms ≡ spec.replies_forms model.now (value_view json.now) (shown replies.entry)) }
{
    match replies {
        Some(lists) => {
            let lists = item_reply_list_forms_from_json(
                alloc,
                model,
                json,
                json_array_items_or_empty(lists),
            )?;
            list_of_one_form(alloc, headed(alloc, "replies", lists)?)
        }
        None => Ok(Items::new(alloc)),
    }
}

/// The replies of an item, and the times after them, if they are there.
fn record_forms_from_json_if_present(
    alloc: Global,
    model: &Source,
    json: &Json<'_>,
) -> Result<Items<Form>, AllocError>
    ensures { IfOk result (λ forms. forms ≡ spec.records_forms model.now (value_view json.now)) }
{
    let mut forms = replies_form_from_json_if_present(alloc, model, json, json.get("replies"))?;
    forms.append(times_form_from_json_if_present(alloc, json.get("times"))?)?;
    Ok(forms)
}

/// The branches of an item.
fn item_branch_forms_from_json(
    alloc: Global,
    model: &Source,
    branches: Option<&Json<'_>>,
) -> Result<Items<Form>, AllocError>
    ensures { IfOk result (λ forms. forms ≡ spec.branches_forms model.now (spec.part (shown branches.entry))) }
{
    match branches {
        Some(branches) => branch_forms_by_count_from_json(
            alloc,
            model,
            json_array_items_or_empty(branches),
        ),
        None => branch_forms_by_count_from_json(alloc, model, &[]),
    }
}

/// The parts of an item, which is a case if it has no replies.
fn case_or_run_form_from_json(
    alloc: Global,
    model: &Source,
    json: &Json<'_>,
) -> Result<Form, AllocError>
    ensures { IfOk result (λ form. form ≡ spec.whole_form model.now (value_view json.now)) }
{
    let prefix = headed_commands_form_from_json(alloc, model, "prefix", json.get("prefix"))?;
    let mut forms = list_of_one_form(alloc, prefix)?;
    forms.append(item_branch_forms_from_json(alloc, model, json.get("branches"))?)?;
    let mut more = suffix_form_from_json_if_present(alloc, model, json.get("suffix"))?;
    more.append(record_forms_from_json_if_present(alloc, model, json)?)?;
    forms.append(more)?;
    match json.get("replies") {
        Some(_) => headed(alloc, "run", forms),
        None => headed(alloc, "case", forms),
    }
}

/// The tree of an item. It is `()` if the JSON has another form than an item, or if the tree has no spelling.
pub fn item_form_or_empty_from_json(
    alloc: Global,
    model: &Source,
    json: &Json<'_>,
) -> Result<Form, AllocError>
    ensures { IfOk result (λ form. form ≡ spec.item_form model.now (value_view json.now)) }
{
    if has_outer_shape_of_json_item(json) {
        Ok(form_or_other_if_unspellable(
            case_or_run_form_from_json(alloc, model, json)?,
            empty_node_form(alloc),
        ))
    } else {
        Ok(empty_node_form(alloc))
    }
}
