//! Cases that trees spell, with their lists of replies and of times.
ghost use Rattle.std.specs.Prelude.{◌≡◌, ◌++◌, IfOk, MatchOption, length, option_copied};
ghost use Rattle.pst_runs.specs.Forms as spec;
ghost use Rattle.pst_runs.specs.Shown.{shown_option, shown_sections};
ghost use Rattle.pst_sexpr.specs.Parts.{node_of};

use crate::commands::{SpelledCase, SpelledCommand, read_commands};
use crate::room::items_with_capacity;
use pst_model::Typed;
use pst_sexpr::{Form, node_of, word_of};
use pst_value::Items;
use std::alloc::{AllocError, Global};

/// A case as trees spell it, and its lists of replies and of times, if it has them.
#[derive(Drop)]
pub struct ItemParts<'a> {
    pub read: SpelledCase,
    pub replies: Option<&'a [Form]>,
    pub times: Option<&'a [Form]>,
}

/// The prefix and the branches of a case, and the commands of its suffix, if there is one.
#[derive(Drop)]
struct Sections<'a> {
    front: &'a [Form],
    suffix: Option<&'a [Form]>,
}

/// Returns the parts of `form` after the word `name`. `None` if `form` is no node that begins with this word.
fn section_parts<'a>(name: &str, form: &'a Form) -> Option<&'a [Form]>
    ensures { option_copied result ≡ spec.section name.now form.now }
{
    let (first, parts) = node_of(form)?.split_first()?;
    if word_of(first)?.as_str() == name {
        Some(parts)
    } else {
        None
    }
}

/// Returns the commands of the section `name`.
fn read_section_commands(
    alloc: Global,
    typed: &Typed,
    name: &str,
    form: &Form,
) -> Result<Option<Items<SpelledCommand>>, AllocError>
    ensures { IfOk result (λ commands. commands ≡ spec.section_commands typed.now name.now form.now) }
{
    match section_parts(name, form) {
        Some(forms) => read_commands(alloc, typed, forms),
        None => Ok(None),
    }
}

fn read_branch(
    alloc: Global,
    typed: &Typed,
    form: &Form,
) -> Result<Option<Items<SpelledCommand>>, AllocError>
    ensures { IfOk result (λ commands. commands ≡ spec.branch_of typed.now form.now) }
{
    match node_of(form) {
        Some(forms) => read_commands(alloc, typed, forms),
        None => Ok(None),
    }
}

/// The branches `(left ..)` and `(right ..)`.
fn read_left_and_right_branches(
    alloc: Global,
    typed: &Typed,
    left: &Form,
    right: &Form,
) -> Result<Option<Items<Items<SpelledCommand>>>, AllocError>
    ensures { IfOk result (λ branches. branches ≡ spec.two_branches typed.now left.now right.now) }
{
    let Some(left) = read_section_commands(alloc, typed, "left", left)? else {
        return Ok(None);
    };
    let Some(right) = read_section_commands(alloc, typed, "right", right)? else {
        return Ok(None);
    };
    let mut branches = items_with_capacity(alloc, 2)?;
    branches.push(left)?;
    branches.push(right)?;
    Ok(Some(branches))
}

fn is_allowed_branch_count(forms: &[Form]) -> bool
    ensures { result ≡ spec.are_two_to_four forms.now }
{
    2 <= forms.len() && forms.len() <= 4
}

fn read_two_to_four_branches(
    alloc: Global,
    typed: &Typed,
    forms: &[Form],
) -> Result<Option<Items<Items<SpelledCommand>>>, AllocError>
    ensures { IfOk result (λ branches. branches ≡ spec.each_branch typed.now forms.now) }
{
    if !is_allowed_branch_count(forms) {
        return Ok(None);
    }
    let mut branches = items_with_capacity(alloc, forms.len())?;
    for form in forms {
        let Some(branch) = read_branch(alloc, typed, form)? else {
            return Ok(None);
        };
        branches.push(branch)?;
    }
    Ok(Some(branches))
}

fn read_branches(
    alloc: Global,
    typed: &Typed,
    forms: &[Form],
) -> Result<Option<Items<Items<SpelledCommand>>>, AllocError>
    ensures { IfOk result (λ branches. branches ≡ spec.branches_of typed.now forms.now) }
{
    match forms {
        [left, right] => read_left_and_right_branches(alloc, typed, left, right),
        [branches] => match section_parts("branches", branches) {
            Some(forms) => read_two_to_four_branches(alloc, typed, forms),
            None => Ok(None),
        },
        _ => Ok(None),
    }
}

/// Returns the trees before the last one, and the last one.
#[tactic(auto, using(crate::proofs::Last::last))]
fn split_last_tree(parts: &[Form]) -> Option<(&[Form], &Form)>
    ensures { MatchOption result (spec.front_and_last parts.now ≡ None)
        (λ p. spec.front_and_last parts.now ≡ Some (p.0.now, p.1.now)) }
{
    let (last, front) = parts.split_last()?;
    Some((front, last))
}

/// Returns the sections of a case. The last tree is the suffix if it is `(suffix ..)`.
fn split_off_suffix_section(parts: &[Form]) -> Sections<'_>
    ensures { shown_sections result ≡ spec.sections_of parts.now }
{
    if let Some((front, last)) = split_last_tree(parts) {
        if let Some(suffix) = section_parts("suffix", last) {
            return Sections {
                front,
                suffix: Some(suffix),
            };
        }
    }
    Sections {
        front: parts,
        suffix: None,
    }
}

fn read_suffix(
    alloc: Global,
    typed: &Typed,
    suffix: Option<&[Form]>,
) -> Result<Option<Items<SpelledCommand>>, AllocError>
    ensures { IfOk result (λ commands. commands ≡ spec.suffix_of typed.now (option_copied suffix.entry)) }
{
    match suffix {
        Some(forms) => read_commands(alloc, typed, forms),
        None => Ok(Some(Items::new(alloc))),
    }
}

fn read_spelled_case(
    alloc: Global,
    typed: &Typed,
    sections: &Sections<'_>,
) -> Result<Option<SpelledCase>, AllocError>
    ensures { IfOk result (λ case. case ≡ spec.case_of typed.now (shown_sections sections.now)) }
{
    let Some((first, others)) = sections.front.split_first() else {
        return Ok(None);
    };
    let Some(prefix) = read_section_commands(alloc, typed, "prefix", first)? else {
        return Ok(None);
    };
    let Some(branches) = read_branches(alloc, typed, others)? else {
        return Ok(None);
    };
    let Some(suffix) = read_suffix(alloc, typed, sections.suffix)? else {
        return Ok(None);
    };
    Ok(Some(SpelledCase {
        prefix,
        branches,
        suffix,
    }))
}

fn is_node(form: &Form) -> bool
    ensures { result ≡ spec.is_node (node_of form.now) }
{
    node_of(form).is_some()
}

/// Returns whether there is a list for each part: the prefix, each branch, and the suffix if it is written.
fn has_reply_list_for_each_part(lists: usize, sections: &Sections<'_>, case: &SpelledCase) -> bool
    ensures { result ≡ spec.is_number_of_parts lists (shown_sections sections.now) case.now }
{
    match sections.suffix {
        Some(_) => lists == case.branches.as_slice().len() + 2,
        None => lists == case.branches.as_slice().len() + 1,
    }
}

fn are_nodes(forms: &[Form]) -> bool
    ensures { result ≡ spec.are_nodes forms.now }
{
    forms.iter().all(|form| is_node(form))
}

fn are_reply_lists(lists: &[Form], sections: &Sections<'_>, case: &SpelledCase) -> bool
    ensures { result ≡ spec.are_reply_lists lists.now (shown_sections sections.now) case.now }
{
    has_reply_list_for_each_part(lists.len(), sections, case) && are_nodes(lists)
}

/// Returns whether there is a list of times for each branch, if there are such lists.
fn are_time_lists(times: Option<&[Form]>, case: &SpelledCase) -> bool
    ensures { result ≡ spec.are_time_lists (option_copied times.entry) case.now }
{
    match times {
        Some(lists) => lists.len() == case.branches.as_slice().len() && are_nodes(lists),
        None => true,
    }
}

fn item_parts_with_replies<'a>(
    form: &'a Form,
    times: Option<&'a [Form]>,
    sections: &Sections<'_>,
    read: SpelledCase,
) -> Option<ItemParts<'a>>
    ensures { shown_option result ≡
        spec.with_replies form.now (option_copied times.entry) (shown_sections sections.now) read }
{
    let lists = section_parts("replies", form)?;
    if are_reply_lists(lists, sections, &read) && are_time_lists(times, &read) {
        Some(ItemParts {
            read,
            replies: Some(lists),
            times,
        })
    } else {
        None
    }
}

fn read_case_item_parts<'a>(
    alloc: Global,
    typed: &Typed,
    parts: &'a [Form],
) -> Result<Option<ItemParts<'a>>, AllocError>
    ensures { IfOk result (λ item. shown_option item ≡ spec.case_parts typed.now parts.now) }
{
    let Some(read) = read_spelled_case(alloc, typed, &split_off_suffix_section(parts))? else {
        return Ok(None);
    };
    Ok(Some(ItemParts {
        read,
        replies: None,
        times: None,
    }))
}

/// Returns the parts of a run whose last tree is `(replies ..)`.
fn read_replied_parts<'a>(
    alloc: Global,
    typed: &Typed,
    times: Option<&'a [Form]>,
    parts: &'a [Form],
) -> Result<Option<ItemParts<'a>>, AllocError>
    ensures { IfOk result (λ item.
        shown_option item ≡ spec.replied_parts typed.now (option_copied times.entry) parts.now) }
{
    let Some((front, replies)) = split_last_tree(parts) else {
        return Ok(None);
    };
    let sections = split_off_suffix_section(front);
    let Some(read) = read_spelled_case(alloc, typed, &sections)? else {
        return Ok(None);
    };
    Ok(item_parts_with_replies(replies, times, &sections, read))
}

fn read_run_item_parts<'a>(
    alloc: Global,
    typed: &Typed,
    parts: &'a [Form],
) -> Result<Option<ItemParts<'a>>, AllocError>
    ensures { IfOk result (λ item. shown_option item ≡ spec.run_parts typed.now parts.now) }
{
    let Some((front, last)) = split_last_tree(parts) else {
        return Ok(None);
    };
    match section_parts("times", last) {
        Some(times) => read_replied_parts(alloc, typed, Some(times), front),
        None => read_replied_parts(alloc, typed, None, parts),
    }
}

/// Returns the case of an item with its lists of replies and of times. `None` if the tree does not have the form of an item.
#[tactic(auto, unfolding(crate::specs::Forms::parts_of))]
pub fn read_item_parts<'a>(
    alloc: Global,
    typed: &Typed,
    form: &'a Form,
) -> Result<Option<ItemParts<'a>>, AllocError>
    ensures { IfOk result (λ item. shown_option item ≡ spec.parts_of typed.now form.now) }
{
    let Some(parts) = node_of(form) else {
        return Ok(None);
    };
    let Some((first, parts)) = parts.split_first() else {
        return Ok(None);
    };
    let Some(head) = word_of(first) else {
        return Ok(None);
    };
    if head.as_str() == "case" {
        return read_case_item_parts(alloc, typed, parts);
    }
    if head.as_str() == "run" {
        return read_run_item_parts(alloc, typed, parts);
    }
    Ok(None)
}
