//! Faults of the values in commands and replies, and the problems that say them.

use crate::command::{
    CaseSearch, Part, command_number_of_variable, find_command, find_part_and_offset_of_command,
    result_type_of_command,
};
use crate::value_fault::FoundValueFault;
use pst_sexpr::Form;
use pst_syntax_problems::{
    FoundProblem, Problem, TypeText, key_type_word, problem_at, problem_with_note,
    shortened_tree_text, strip_single_quotes, with_note,
};
use pst_value::{KeyTy, Ty};
use std::alloc::{AllocError, Global};
use std::fmt::Display;

/// A fault of a command or a reply.
#[derive(Clone, Copy, Drop)]
pub enum ValueFault<'a> {
    /// A tree, which the message shows between these texts.
    Tree {
        before: &'static str,
        form: &'a Form,
        after: &'static str,
    },
    /// A tree that spells no value of the type.
    OtherType(&'a Form, &'a Ty),
    /// A key of another type than this.
    OtherKey(&'a Form, KeyTy),
    /// A key, and the key before it, which is not less.
    Falls(&'a Form, &'a Form),
    /// A variable in command `command` that names command `number`, which is not earlier.
    Later {
        number: usize,
        command: usize,
    },
    /// A variable that names the command with this number, which is in another branch.
    OtherBranch(usize),
    /// An argument of another type, or that is not a value.
    Argument,
    /// A tree that is refused, about which nothing more is known.
    Unnamed,
}

/// The problem of `key`, which is not greater than `before`, the key before it.
fn map_key_order_problem(alloc: Global, path: &[usize], key: &Form, before: &Form) -> FoundProblem {
    let key = shortened_tree_text(alloc, key)?;
    problem_showing_tree(
        alloc,
        path,
        format_args!("the keys of a map must rise: `{key}` comes after "),
        before,
        "",
    )
}

/// The problem of a variable in command `command` that names command `number`, which is not earlier.
fn later_command_variable_problem(
    alloc: Global,
    path: &[usize],
    number: usize,
    command: usize,
) -> FoundProblem {
    problem_with_note(
        alloc,
        path,
        format_args!(
            "${number} is not the result of an earlier command: this is command {command}"
        ),
        "commands are numbered from 1: first the prefix, then each branch, then the suffix",
    )
}

/// The problem of a variable that names command `number`, which is in another branch.
fn other_branch_variable_problem(alloc: Global, path: &[usize], number: usize) -> FoundProblem {
    problem_with_note(
        alloc,
        path,
        format_args!("${number} is the result of a command of another branch"),
        "a command sees the results of the prefix and of earlier commands of its own branch",
    )
}

/// The problem of `fault`, if there is one, at the tree that `path` leads to.
pub fn value_fault_problem(
    alloc: Global,
    path: &[usize],
    fault: Option<ValueFault<'_>>,
) -> FoundProblem {
    let Some(fault) = fault else {
        return Ok(None);
    };
    match fault {
        ValueFault::Tree {
            before,
            form,
            after,
        } => problem_showing_tree(alloc, path, before, form, after),
        ValueFault::OtherType(form, wanted) => {
            let wanted = TypeText(wanted);
            let before = format_args!("expected {wanted}, found ");
            problem_showing_tree(alloc, path, before, form, "")
        }
        ValueFault::OtherKey(form, wanted) => {
            let wanted = key_type_word(wanted);
            let before = format_args!("expected a key of type {wanted}, found ");
            problem_showing_tree(alloc, path, before, form, "")
        }
        ValueFault::Falls(key, before) => map_key_order_problem(alloc, path, key, before),
        ValueFault::Later { number, command } => later_command_variable_problem(
            alloc, path, number, command,
        ),
        ValueFault::OtherBranch(number) => other_branch_variable_problem(alloc, path, number),
        ValueFault::Argument | ValueFault::Unnamed => problem_at(
            alloc,
            path,
            "an argument has another type, or is not a value",
        ),
    }
}

/// The problem `found`, if there is one, with a note on command `number`, whose result the variable refers to.
fn with_command_result_note_if_known(
    alloc: Global,
    search: &CaseSearch<'_>,
    found: Option<Problem>,
    number: usize,
) -> FoundProblem {
    let (Some(command), Some(ty)) = (
        find_command(search.parts, number),
        result_type_of_command(search.source, search.parts, number),
    ) else {
        return Ok(found);
    };
    let call = shortened_tree_text(alloc, command.form)?;
    let ty = TypeText(ty);
    with_note(
        alloc,
        found,
        format_args!(
            "${number} is a reference to the result of command {number}, `{call}`: a (ref {ty})"
        ),
    )
}

/// The problem `found` of a tree that is not a value of the type `wanted`. If the tree is a variable, a note says what
/// it refers to, if that is a command of a known operation. Of another tree, a note says how a value of the type is
/// written, if the type is a reference, or if it is text and the tree is a word.
fn with_variable_or_spelling_note_if_any(
    alloc: Global,
    search: &CaseSearch<'_>,
    found: Option<Problem>,
    form: &Form,
    wanted: &Ty,
) -> FoundProblem {
    if let Some(number) = command_number_of_variable_tree(form) {
        return with_command_result_note_if_known(alloc, search, found, number);
    }
    match (form, wanted) {
        (Form::Word(word), Ty::Text) => {
            let word = word.as_str();
            let text = strip_single_quotes(word).unwrap_or(word);
            with_note(
                alloc,
                found,
                format_args!("hint: a text is in double quotes: `\"{text}\"`"),
            )
        }
        (_, Ty::Ref(_)) => with_note(
            alloc,
            found,
            "a reference is written `$n`: it refers to the result of command `n`, from 1",
        ),
        _ => Ok(found),
    }
}

/// The problem of the fault `found` in the tree that `path` leads to. If the fault has no name, `other` is the fault, and
/// it is in that tree.
pub fn problem_of_found_or_other_fault(
    alloc: Global,
    search: &CaseSearch<'_>,
    path: &[usize],
    found: Option<FoundValueFault<'_>>,
    other: ValueFault<'_>,
) -> FoundProblem {
    let Some(FoundValueFault { path: below, fault }) = found else {
        return value_fault_problem(alloc, path, Some(other));
    };
    if matches!(fault, ValueFault::Unnamed) {
        return value_fault_problem(alloc, path, Some(other));
    }
    let mut path = Vec::from_slice(alloc, path)?;
    path.extend_from_slice(below.as_slice())?;
    let found = value_fault_problem(alloc, path.as_slice(), Some(fault))?;
    match fault {
        ValueFault::OtherType(form, wanted) => with_variable_or_spelling_note_if_any(
            alloc, search, found, form, wanted,
        ),
        _ => Ok(found),
    }
}

/// The variables that a search looks for.
#[derive(Clone, Copy, Drop)]
pub enum SoughtVariable {
    /// One that names a command which is not earlier than the command with this number.
    Later(usize),
    /// One that names a command in another branch than the command with this number.
    OtherBranch(usize),
}

/// Whether command `number` is in a branch, and command `command` is in another part.
fn is_command_in_other_branch(parts: &[Part<'_>], number: usize, command: usize) -> bool {
    let (Some((part, _)), Some((own, _))) = (
        find_part_and_offset_of_command(parts, number),
        find_part_and_offset_of_command(parts, command),
    ) else {
        return false;
    };
    match parts.get(part) {
        Some(named) => part != own && named.is_branch,
        None => false,
    }
}

/// The number of the command that a tree names, if it is a variable.
fn command_number_of_variable_tree(form: &Form) -> Option<usize> {
    match form {
        Form::Word(word) => command_number_of_variable(word.as_str()),
        Form::Text(_) | Form::Node(_) => None,
    }
}

/// The fault of a tree that is no node, if it is a variable that the search looks for.
fn fault_if_sought_variable<'a>(
    parts: &[Part<'_>],
    sought: SoughtVariable,
    form: &Form,
) -> Option<ValueFault<'a>> {
    match (sought, command_number_of_variable_tree(form)) {
        (SoughtVariable::Later(command), Some(number)) if number == 0 || number >= command => {
            Some(ValueFault::Later { number, command })
        }
        (SoughtVariable::OtherBranch(command), Some(number))
            if is_command_in_other_branch(parts, number, command) => {
            Some(ValueFault::OtherBranch(number))
        }
        _ => None,
    }
}

/// The first variable in a tree that the search looks for. The path to the tree becomes the path to the variable; it
/// stays the same if no variable is found.
fn first_sought_variable_fault_with_path<'a>(
    parts: &[Part<'_>],
    sought: SoughtVariable,
    path: &mut Vec<usize>,
    form: &Form,
) -> Result<Option<ValueFault<'a>>, AllocError> {
    let Form::Node(trees) = form else {
        return Ok(fault_if_sought_variable(parts, sought, form));
    };
    for (number, tree) in trees.as_slice().iter().enumerate() {
        if number > 0 {
            path.push(number)?;
            let found = first_sought_variable_fault_with_path(parts, sought, path, tree)?;
            if found.is_some() {
                return Ok(found);
            }
            path.pop();
        }
    }
    Ok(None)
}

/// The problem of the first variable that the search looks for, in the command that `path` leads to.
pub fn first_sought_variable_problem(
    alloc: Global,
    parts: &[Part<'_>],
    sought: SoughtVariable,
    path: &[usize],
    form: &Form,
) -> FoundProblem {
    let mut path = Vec::from_slice(alloc, path)?;
    let ill = first_sought_variable_fault_with_path(parts, sought, &mut path, form)?;
    value_fault_problem(alloc, path.as_slice(), ill)
}

/// A problem at `path` whose text shows `tree` between `before` and `after`.
pub fn problem_showing_tree<D: Display + Drop>(
    alloc: Global,
    path: &[usize],
    before: D,
    tree: &Form,
    after: &str,
) -> FoundProblem {
    let tree = shortened_tree_text(alloc, tree)?;
    problem_at(alloc, path, format_args!("{before}`{tree}`{after}"))
}
