//! Warnings on recorded runs whose explaining interleaving has a precondition that is not true.
ghost use Rattle.std.specs.Prelude.{◌≡◌, All};
ghost use Rattle.pst_runs.specs.Lawful.{AreLawful, IsLawful};

use crate::items::TreeCursor;
use crate::json_input::ItemInput;
use crate::spelling::{LocatedCommand, locate_and_spell_command, shortened_value_text};
use crate::untrue_precondition::{
    FalsePreconditionCommand, does_case_call_marked_operation,
    first_untrue_precondition_if_results_known, which_operations_have_preconditions,
};
use crate::warning::warning_notice;
use pst_case::Run;
use pst_eval::Callbacks;
use pst_judge::{Judged, Verdict};
use pst_model::{Source, Typed};
use pst_rejudge::ItemResult;
use pst_runs::read_runs;
use pst_sexpr::{Form, Tree};
use pst_value::Value;
use std::alloc::{AllocError, Global};
use std::slice;

/// The greatest number of warnings on preconditions in a text.
const MOST: usize = 8;

/// The subject of the warnings: an input, its model, and the operations whose precondition is not just `true`.
#[derive(Drop)]
struct WarningSubject<'a> {
    input: ItemInput<'a>,
    source: &'a Source,
    conditional: Vec<bool>,
}

/// The items with a command whose precondition is not true: the first ones by their numbers, and how many there are.
#[derive(Drop)]
struct FalsePreconditions {
    first: Vec<(usize, FalsePreconditionCommand)>,
    count: usize,
}

/// The warning on a command of item `item`, counted from 1, of the input. Reads this item alone.
fn precondition_warning_or_empty(
    alloc: Global,
    subject: &WarningSubject<'_>,
    trees: &mut TreeCursor<'_>,
    item: usize,
    failing: &FalsePreconditionCommand,
) -> Result<String, AllocError> {
    let Some(tree) = trees.read_tree(alloc, item) else {
        return Ok(String::new(alloc));
    };
    match locate_and_spell_command(alloc, tree.form(), item, failing.command)? {
        Some(spot) => precondition_warning_on_located_command(
            alloc,
            subject,
            tree.form(),
            item,
            &spot,
            &failing.state,
        ),
        None => Ok(String::new(alloc)),
    }
}

/// The warning on the command at `spot` of item `item`, which is `tree`, with the state before the command.
fn precondition_warning_on_located_command(
    alloc: Global,
    subject: &WarningSubject<'_>,
    tree: &Form,
    item: usize,
    spot: &LocatedCommand,
    state: &Value,
) -> Result<String, AllocError> {
    let place = spot.place;
    let call = spot.call.as_str();
    let state = shortened_value_text(alloc, subject.source, state)?;
    let warning = warning_notice(
        alloc,
        &subject.input.trees,
        spot.path.as_slice(),
        format_args!(
            "item {item}: the precondition of {place} {call} is not true in the interleaving that explains it"
        ),
        format_args!(
            "the state before it is {state}; a verdict on a recorded run checks no precondition"
        ),
    )?;
    subject
        .input
        .notice_text_on_part_as_read(alloc, tree, spot.path.as_slice(), warning)
}

/// Adds the recorded run of item `item`, which `interleaving` explains, if it gets a warning.
fn add_run_if_precondition_untrue<C: Callbacks>(
    found: &mut FalsePreconditions,
    callbacks: &C,
    alloc: Global,
    subject: &WarningSubject<'_>,
    item: usize,
    run: &Run,
    interleaving: &[usize],
) -> Result<(), AllocError>
    requires { IsLawful (C.model callbacks.now) run.now }
{
    if !does_case_call_marked_operation(subject.conditional.as_slice(), run.shaped.case()) {
        return Ok(());
    }
    let Some(failing) = first_untrue_precondition_if_results_known(
        callbacks,
        alloc,
        run,
        interleaving,
    )?
    else {
        return Ok(());
    };
    if found.count < MOST {
        found.first.push((item, failing))?;
    }
    found.count = found.count.saturating_add(1);
    Ok(())
}

/// The interleaving that explains a recorded run, if one does.
fn interleaving_of_explained_verdict(judged: &Judged) -> Option<&[usize]> {
    match judged {
        Judged::Verdict(Verdict::Explained(interleaving)) => Some(interleaving.as_slice()),
        _ => None,
    }
}

/// The text of the warnings on the items in `found`; `None` if it is empty.
fn precondition_warnings_text(
    alloc: Global,
    subject: &WarningSubject<'_>,
    found: &FalsePreconditions,
) -> Result<Option<String>, AllocError> {
    let mut text = String::new(alloc);
    let mut trees = TreeCursor::new(subject.input.trees.bytes);
    for (item, failing) in found.first.as_slice() {
        let warning = precondition_warning_or_empty(alloc, subject, &mut trees, *item, failing)?;
        text.push_str(warning.as_str())?;
    }
    if found.count > MOST {
        let more = found.count - MOST;
        let items = if more == 1 { "item has" } else { "items have" };
        write!(text, "warning: {more} more {items} such a command\n")?;
    }
    if text.is_empty() {
        Ok(None)
    } else {
        Ok(Some(text))
    }
}

/// Adds the items of `runs` that get a warning. `judged` are their judgements, and `first` is the number of the first
/// one, from 1.
fn add_runs_with_false_preconditions<C: Callbacks>(
    found: &mut FalsePreconditions,
    callbacks: &C,
    alloc: Global,
    subject: &WarningSubject<'_>,
    first: usize,
    runs: &[Run],
    judged: &[Judged],
) -> Result<(), AllocError>
    requires { AreLawful (C.model callbacks.now) runs.now }
{
    let mut item = first;
    let mut rest = runs;
    let mut left = judged;
    while let Some((run, later)) = rest.split_first() {
        let Some((judged, others)) = left.split_first() else {
            return Ok(());
        };
        if let Some(interleaving) = interleaving_of_explained_verdict(judged) {
            add_run_if_precondition_untrue(
                found,
                callbacks,
                alloc,
                subject,
                item,
                run,
                interleaving,
            )?;
        }
        item = item.saturating_add(1);
        rest = later;
        left = others;
    }
    Ok(())
}

/// Adds the items of all `parts` that get a warning. `judged` are their judgements in their order.
fn add_false_preconditions_of_parts<C: Callbacks>(
    found: &mut FalsePreconditions,
    callbacks: &C,
    alloc: Global,
    subject: &WarningSubject<'_>,
    parts: &[Vec<Run>],
    judged: &[Judged],
) -> Result<(), AllocError>
    requires { All (λ runs. AreLawful (C.model callbacks.now) runs.items) parts.now }
{
    let mut first: usize = 1;
    let mut left = judged;
    for runs in parts {
        add_runs_with_false_preconditions(
            found,
            callbacks,
            alloc,
            subject,
            first,
            runs.as_slice(),
            left,
        )?;
        first = first.saturating_add(runs.len());
        left = left.get(runs.len()..).unwrap_or(&[]);
    }
    Ok(())
}

/// Adds item `item`, counted from 1, of the input if it was judged and gets a warning. `typed` is a parameter of its
/// own, the seventh, because the contract speaks of it.
fn add_result_if_precondition_untrue<C: Callbacks>(
    found: &mut FalsePreconditions,
    callbacks: &C,
    alloc: Global,
    typed: &Typed,
    subject: &WarningSubject<'_>,
    trees: &[Tree],
    item: usize,
    answer: &ItemResult,
) -> Result<(), AllocError>
    requires { typed.now ≡ C.model callbacks.now }
{
    let ItemResult::Judged(judged) = answer else {
        return Ok(());
    };
    let Some(tree) = trees.get(item) else {
        return Ok(());
    };
    if interleaving_of_explained_verdict(judged).is_none() {
        return Ok(());
    }
    match read_runs(alloc, typed, slice::from_ref(tree)) {
        Ok(runs) => add_runs_with_false_preconditions(
            found,
            callbacks,
            alloc,
            subject,
            item,
            runs.as_slice(),
            slice::from_ref(judged),
        ),
        Err(_) => Ok(()),
    }
}

/// The subject of the warnings on an input; `None` if the precondition of each operation is the expression `true`.
fn warning_subject_if_preconditions_exist<'a>(
    alloc: Global,
    typed: &'a Typed,
    input: ItemInput<'a>,
) -> Result<Option<WarningSubject<'a>>, AllocError> {
    let source = typed.source();
    let conditional = which_operations_have_preconditions(alloc, source.items.as_slice())?;
    if !conditional.iter().any(|is_marked| *is_marked) {
        return Ok(None);
    }
    Ok(Some(WarningSubject {
        input,
        source,
        conditional,
    }))
}

/// No items.
fn empty_list_of_false_preconditions(alloc: Global) -> FalsePreconditions {
    FalsePreconditions {
        first: Vec::new(alloc),
        count: 0,
    }
}

/// Warns of judged recorded runs whose explaining interleaving has a precondition that is not true. Returns the
/// warnings as messages for a person to read, or `None` if there are no warnings. The text has at most eight warnings,
/// and then the number of further ones.
///
/// `typed` is the model of the input, `parts` are the items after it in one part or more, and `judged` are the
/// judgements on them in their order. The function reads the items that have a warning once more.
pub fn precondition_warnings_on_runs<C: Callbacks>(
    callbacks: &C,
    alloc: Global,
    typed: &Typed,
    input: ItemInput<'_>,
    parts: &[Vec<Run>],
    judged: &[Judged],
) -> Result<Option<String>, AllocError>
    requires { All (λ runs. AreLawful (C.model callbacks.now) runs.items) parts.now }
{
    let Some(subject) = warning_subject_if_preconditions_exist(alloc, typed, input)? else {
        return Ok(None);
    };
    let mut found = empty_list_of_false_preconditions(alloc);
    add_false_preconditions_of_parts(&mut found, callbacks, alloc, &subject, parts, judged)?;
    precondition_warnings_text(alloc, &subject, &found)
}

/// Warns as [`precondition_warnings_on_runs`] does, if some items of the input may be refused: on the items that were judged.
/// `answers` are the answers to all items in their order, and `trees` are the trees of the input.
pub fn precondition_warnings_on_item_results<C: Callbacks>(
    callbacks: &C,
    alloc: Global,
    typed: &Typed,
    input: ItemInput<'_>,
    trees: &[Tree],
    answers: &[ItemResult],
) -> Result<Option<String>, AllocError>
    requires { typed.now ≡ C.model callbacks.now }
{
    let Some(subject) = warning_subject_if_preconditions_exist(alloc, typed, input)? else {
        return Ok(None);
    };
    let mut found = empty_list_of_false_preconditions(alloc);
    for (index, answer) in answers.iter().enumerate() {
        let item = index.saturating_add(1);
        add_result_if_precondition_untrue(
            &mut found, callbacks, alloc, typed, &subject, trees, item, answer,
        )?;
    }
    precondition_warnings_text(alloc, &subject, &found)
}
