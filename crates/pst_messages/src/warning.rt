//! The warnings on an input.

use crate::faults::faulty_scripts_warning_if_any;
use crate::item_hints::is_model_tree;
use crate::missing_keys::warnings_on_missing_keys;
use crate::scripts::{COMMANDS, SCRIPTS, generate_and_summarize_scripts};
use crate::unread_results::warnings_on_unread_results;
use pst_compile::{Compiled, compile};
use pst_model::Item;
use pst_sexpr::Tree;
use pst_sources::{
    Input, Notice, Notices, SourceFile, span_at_path_or_whole_input, text_of_notices_if_any,
};
use pst_typing::{ModelFile, load, trees_after_model};
use std::alloc::{AllocError, Global};
use std::fmt::Display;

/// The warning on the tree that `path` leads to, with a note.
pub fn warning_notice<D: Display + Drop, N: Display + Drop>(
    alloc: Global,
    input: &Input<'_>,
    path: &[usize],
    what: D,
    note: N,
) -> Result<Notice, AllocError> {
    let mut notes = Vec::new(alloc);
    notes.push(format!(in alloc; "{note}")?)?;
    Ok(Notice {
        span: span_at_path_or_whole_input(input.bytes, path),
        is_warning: true,
        what: format!(in alloc; "{what}")?,
        notes,
        lines: String::new(alloc),
    })
}

/// The number of the tree of item `item`, counted from 0, in its model. The head and the name of the model come first.
pub fn tree_number_of_model_item(item: usize) -> usize {
    item.saturating_add(2)
}

/// The warning that no call may be made at first, at the item `command`.
fn no_initial_call_warning(
    alloc: Global,
    input: &Input<'_>,
    items: &[Item],
) -> Result<Notice, AllocError> {
    let mut place = 0;
    for (number, item) in items.iter().enumerate() {
        if let Item::Command(_) = item {
            place = number;
        }
    }
    warning_notice(
        alloc,
        input,
        &[0, tree_number_of_model_item(place)],
        "no call may be made at first",
        "`command` lists none in the initial state, or the precondition of each is false there",
    )
}

/// The warning that no script calls the operation `name`.
fn uncalled_operation_warning(
    alloc: Global,
    input: &Input<'_>,
    item: usize,
    name: &str,
) -> Result<Notice, AllocError> {
    warning_notice(
        alloc,
        input,
        &[0, tree_number_of_model_item(item), 1],
        format_args!("none of {SCRIPTS} generated scripts of {COMMANDS} commands calls `{name}`"),
        "`command` does not list it in their states, or its precondition is false there",
    )
}

/// The warnings on the operations that no script calls. `called` says for each whether one does.
fn warnings_on_uncalled_operations(
    alloc: Global,
    input: &Input<'_>,
    items: &[Item],
    called: &[bool],
) -> Result<Vec<Notice>, AllocError> {
    let mut warnings = Vec::new(alloc);
    let mut operation: usize = 0;
    for (number, item) in items.iter().enumerate() {
        if let Item::Op(op) = item {
            if called.get(operation) == Some(&false) {
                warnings.push(uncalled_operation_warning(alloc, input, number, op.name.as_str())?)?;
            }
            operation = operation.saturating_add(1);
        }
    }
    Ok(warnings)
}

/// The warnings on generated scripts of a model. If not all scripts are generated, there are no warnings on operations
/// that none of them calls.
fn warnings_from_generated_scripts(
    alloc: Global,
    input: &Input<'_>,
    compiled: &Compiled,
) -> Result<Vec<Notice>, AllocError> {
    let typed = compiled.typed();
    let items = typed.source().items.as_slice();
    let scripts = generate_and_summarize_scripts(alloc, compiled)?;
    if scripts.faulty > 0 {
        return faulty_scripts_warning_if_any(alloc, input, typed, scripts);
    }
    let mut warnings = Vec::new(alloc);
    if scripts.is_cut {
        return Ok(warnings);
    }
    let called = scripts.called.as_slice();
    if called.iter().any(|is_called| *is_called) {
        return warnings_on_uncalled_operations(alloc, input, items, called);
    }
    warnings.push(no_initial_call_warning(alloc, input, items)?)?;
    Ok(warnings)
}

/// Adds the warnings on further models after the first.
fn add_further_model_warnings(
    alloc: Global,
    input: &Input<'_>,
    trees: &[Tree],
    warnings: &mut Vec<Notice>,
) -> Result<(), AllocError> {
    for (index, tree) in trees_after_model(trees).iter().enumerate() {
        if is_model_tree(tree) {
            let path = [index.saturating_add(1)];
            let warning = warning_notice(
                alloc,
                input,
                &path,
                "a second model, which is not read",
                "the first tree of an input is its model; cases and runs come after it",
            )?;
            warnings.push(warning)?;
        }
    }
    Ok(())
}

/// Warnings on an input whose model is accepted: scripts in which a callback faults, an operation that no generated
/// script calls, a model in whose initial state no call may be made, a postcondition that reads a key which the map may not
/// have, postconditions none of which looks at the result, and a second model after the first. There are no warnings if the
/// model is refused.
///
/// The function generates at most sixteen scripts of at most sixteen commands, always of the same random words, and
/// their callbacks take a bounded number of steps. If a callback faults in one of them, or the steps do not suffice for
/// all, there are no warnings on calls.
pub fn input_warning_notices(alloc: Global, input: &Input<'_>) -> Result<Notices, AllocError> {
    let Ok(ModelFile { typed, trees }) = load(alloc, input.bytes)? else {
        return Ok(Notices::none(alloc));
    };
    let Ok(compiled) = compile(alloc, typed) else {
        return Err(AllocError);
    };
    let mut all = warnings_from_generated_scripts(alloc, input, &compiled)?;
    if let Some(tree) = trees.first() {
        let items = compiled.typed().source().items.as_slice();
        let mut more = warnings_on_missing_keys(alloc, input, items, tree.form())?;
        all.append(&mut more)?;
        let mut more = warnings_on_unread_results(alloc, input, tree.form())?;
        all.append(&mut more)?;
    }
    add_further_model_warnings(alloc, input, trees.as_slice(), &mut all)?;
    Ok(Notices {
        all,
        more: String::new(alloc),
    })
}

/// The warnings on an input, as [`input_warning_notices`] finds them, for a person to read. `input` is the text of `files`.
/// Returns `None` if there are no warnings.
pub fn input_warnings_text(
    alloc: Global,
    files: &[SourceFile<'_>],
    input: &[u8],
) -> Result<Option<String>, AllocError> {
    let input = Input {
        files,
        bytes: input,
    };
    let warnings = input_warning_notices(alloc, &input)?;
    text_of_notices_if_any(alloc, &input, &warnings)
}
