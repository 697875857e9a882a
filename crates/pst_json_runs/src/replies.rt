//! The trees of replies.
ghost use Rattle.std.specs.Prelude.{◌≡◌, IfOk, option_copied};
ghost use Rattle.std.specs.Option.{option_map};
ghost use Rattle.json.specs.Value.{items_view, members_view, value_view};
ghost use Rattle.pst_json_runs.specs.Shown.{shown};
ghost use Rattle.pst_json_runs.specs.Trees as spec;

use crate::commands::{
    find_operation_in_model, json_array_items_or_empty, value_form_or_other_or_empty,
};
use crate::reading::value_from_json;
use json::Value as Json;
use pst_model::Source;
use pst_sexpr::{Form, word};
use pst_value::{Items, Ty};
use std::alloc::{AllocError, Global};

/// The result type of the operation that a command names.
fn result_type_of_json_command<'a>(model: &'a Source, command: &Json<'_>) -> Option<&'a Ty>
    ensures { option_copied result ≡ spec.result_of model.now (value_view command.now) }
{
    let (first, _) = json_array_items_or_empty(command).split_first()?;
    match first {
        Json::String(name) => match find_operation_in_model(model, name) {
            Some(operation) => Some(&operation.result),
            None => None,
        },
        _ => None,
    }
}

/// The outcome that a member says, if it is `null`.
fn outcome_of_null_json_member(name: &str, json: &Json<'_>) -> Option<&'static str>
    ensures { option_map (λ word. word.now) result ≡ spec.outcome_at name.now (value_view json.now) }
{
    match json {
        Json::Null => if name == "failed" {
            Some("failed")
        } else if name == "misfit" {
            Some("misfit")
        } else if name == "unknown" {
            Some("unknown")
        } else {
            None
        },
        _ => None,
    }
}

/// The outcome that an only member says.
fn outcome_of_only_json_member(members: &[(&str, Json<'_>)]) -> Option<&'static str>
    ensures { option_map (λ word. word.now) result ≡ spec.outcome_in (members_view members.now) }
{
    let (member, rest) = members.split_first()?;
    match rest.first() {
        Some(_) => None,
        None => {
            let (name, json) = member;
            outcome_of_null_json_member(name, json)
        }
    }
}

/// What became of a call that answered no value.
#[tactic(auto, using(crate::proofs::Views::views))]
fn outcome_without_value_from_json(json: &Json<'_>) -> Option<&'static str>
    ensures { option_map (λ word. word.now) result ≡ spec.outcome_of (value_view json.now) }
{
    match json {
        Json::Null => Some("not-run"),
        Json::Object(members) => outcome_of_only_json_member(members.as_slice()),
        _ => None,
    }
}

/// The tree of a reply to a command whose result has type `ty`.
fn reply_form_or_misfit_from_json(
    alloc: Global,
    ty: Option<&Ty>,
    json: &Json<'_>,
) -> Result<Form, AllocError>
    ensures { IfOk result (λ form. form ≡ spec.reply_form (option_copied ty.entry) (value_view json.now)) }
{
    if let Some(outcome) = outcome_without_value_from_json(json) {
        return word(alloc, outcome);
    }
    let value = value_from_json(alloc, ty, json)?;
    value_form_or_other_or_empty(alloc, word(alloc, "misfit")?, value)
}

/// The tree of a reply to a command, if there is one for it.
fn reply_form_for_json_command(
    alloc: Global,
    model: &Source,
    command: Option<&Json<'_>>,
    reply: &Json<'_>,
) -> Result<Form, AllocError>
    ensures { IfOk result (λ form.
        form ≡ spec.reply_to model.now (shown command.entry) (value_view reply.now)) }
{
    match command {
        Some(command) => reply_form_or_misfit_from_json(
            alloc,
            result_type_of_json_command(model, command),
            reply,
        ),
        None => reply_form_or_misfit_from_json(alloc, None, reply),
    }
}

/// All but the first of some parts.
pub fn rest_after_first_json<'b, 'a>(parts: &'b [Json<'a>]) -> &'b [Json<'a>]
    ensures { items_view result.now ≡ spec.others (items_view parts.now) }
{
    if parts.is_empty() {
        return parts;
    }
    &parts[1..]
}

/// The trees of the replies to commands.
fn reply_forms_from_json(
    alloc: Global,
    model: &Source,
    commands: &[Json<'_>],
    replies: &[Json<'_>],
) -> Result<Items<Form>, AllocError>
    ensures { IfOk result (λ forms.
        forms ≡ spec.reply_forms model.now (items_view commands.now) (items_view replies.now)) }
{
    let mut forms = Items::new(alloc);
    let mut rest = commands;
    for reply in replies {
        forms.push(reply_form_for_json_command(alloc, model, rest.first(), reply)?)?;
        rest = rest_after_first_json(rest);
    }
    Ok(forms)
}

fn reply_list_form_from_json(
    alloc: Global,
    model: &Source,
    commands: Option<&Json<'_>>,
    list: &Json<'_>,
) -> Result<Form, AllocError>
    ensures { IfOk result (λ form.
        form ≡ spec.list_form model.now (shown commands.entry) (value_view list.now)) }
{
    let replies = match commands {
        Some(commands) => reply_forms_from_json(
            alloc,
            model,
            json_array_items_or_empty(commands),
            json_array_items_or_empty(list),
        )?,
        None => reply_forms_from_json(alloc, model, &[], json_array_items_or_empty(list))?,
    };
    Ok(Form::Node(replies))
}

/// The tree of the list of replies to the next branch, or to the suffix if there is no more branch.
fn first_branch_or_suffix_replies_from_json(
    alloc: Global,
    model: &Source,
    branches: &[Json<'_>],
    suffix: Option<&Json<'_>>,
    list: &Json<'_>,
) -> Result<Form, AllocError>
    ensures { IfOk result (λ form. form ≡ spec.list_form model.now
        (spec.next_part (items_view branches.now) (shown suffix.entry)) (value_view list.now)) }
{
    match branches.first() {
        Some(branch) => reply_list_form_from_json(alloc, model, Some(branch), list),
        None => reply_list_form_from_json(alloc, model, suffix, list),
    }
}

/// The trees of the lists of replies to the branches, and to the suffix after them.
fn branch_and_suffix_replies_from_json(
    alloc: Global,
    model: &Source,
    branches: &[Json<'_>],
    suffix: Option<&Json<'_>>,
    lists: &[Json<'_>],
) -> Result<Items<Form>, AllocError>
    ensures { IfOk result (λ forms. forms ≡ spec.rest_forms model.now (items_view branches.now)
        (shown suffix.entry) (items_view lists.now)) }
{
    let mut forms = Items::new(alloc);
    let mut rest = branches;
    for list in lists {
        forms.push(first_branch_or_suffix_replies_from_json(alloc, model, rest, suffix, list)?)?;
        rest = rest_after_first_json(rest);
    }
    Ok(forms)
}

/// The trees of the lists of replies: to the prefix, to each branch, and to the suffix.
pub fn reply_list_forms_of_parts_from_json(
    alloc: Global,
    model: &Source,
    prefix: Option<&Json<'_>>,
    branches: &[Json<'_>],
    suffix: Option<&Json<'_>>,
    lists: &[Json<'_>],
) -> Result<Items<Form>, AllocError>
    ensures { IfOk result (λ forms. forms ≡ spec.list_forms model.now (shown prefix.entry)
        (items_view branches.now) (shown suffix.entry) (items_view lists.now)) }
{
    let mut forms = Items::new(alloc);
    if let Some((first, others)) = lists.split_first() {
        forms.push(reply_list_form_from_json(alloc, model, prefix, first)?)?;
        forms.append(branch_and_suffix_replies_from_json(alloc, model, branches, suffix, others)?)?;
    }
    Ok(forms)
}
