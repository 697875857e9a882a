//! The commands of a case with their places, and the types of their results.
ghost use Rattle.std.specs.Prelude.{◌≡◌, ◌++◌, IfOk, map, option_copied};
ghost use Rattle.pst_runs.specs.Replies.{listed};
ghost use Rattle.pst_run_problems.specs.ResultTypes as spec;

use pst_model::{Op, Source, operation_number, operation_of};
use pst_sexpr::{Form, node_of, word_of};
use pst_syntax_problems::{find_operation, has_head, head_word_or_empty};
use pst_value::{Items, Ty};
use std::alloc::{AllocError, Global};

/// A part of a case: where it is in its item, and its commands.
#[derive(Clone, Copy, Drop)]
pub struct Part<'a> {
    /// What messages call it.
    pub called: &'static str,
    pub is_prefix: bool,
    pub is_branch: bool,
    /// The number of its tree in the item.
    pub place: usize,
    /// Its number in that tree, if the tree has all branches.
    pub branch: Option<usize>,
    pub commands: &'a [Form],
}

/// A search in the trees of a case: its model, and its parts.
#[derive(Clone, Copy, Drop)]
pub struct CaseSearch<'a> {
    pub source: &'a Source,
    pub parts: &'a [Part<'a>],
}

/// A command of a case: its part, its number in it, from 0, and its tree.
#[derive(Clone, Copy, Drop)]
pub struct Command<'a> {
    pub part: Part<'a>,
    pub offset: usize,
    pub form: &'a Form,
}

/// The head of a part with one list of commands.
#[derive(Clone, Copy, Drop)]
struct CasePartHead {
    word: &'static str,
    is_prefix: bool,
    is_branch: bool,
}

/// The commands before the branches.
const PREFIX: CasePartHead = CasePartHead {
    word: "prefix",
    is_prefix: true,
    is_branch: false,
};

/// The first branch of two.
const LEFT: CasePartHead = CasePartHead {
    word: "left",
    is_prefix: false,
    is_branch: true,
};

/// The second branch of two.
const RIGHT: CasePartHead = CasePartHead {
    word: "right",
    is_prefix: false,
    is_branch: true,
};

/// The commands after the branches.
const SUFFIX: CasePartHead = CasePartHead {
    word: "suffix",
    is_prefix: false,
    is_branch: false,
};

/// The heads of parts with one list of commands.
const HEADS: [CasePartHead; 4] = [PREFIX, LEFT, RIGHT, SUFFIX];

/// The names of the branches of a `(branches ..)` tree.
const BRANCHES: [&str; 4] = [
    "the first branch",
    "the second branch",
    "the third branch",
    "the fourth branch",
];

/// The trees in a tree.
pub fn node_parts_or_empty(form: &Form) -> &[Form]
    ensures { result.now ≡ listed form.now }
{
    match node_of(form) {
        Some(trees) => trees,
        None => &[],
    }
}

/// The trees after the head of a tree.
pub fn node_parts_after_head(form: &Form) -> &[Form] {
    match node_parts_or_empty(form).split_first() {
        Some((_, trees)) => trees,
        None => &[],
    }
}

/// The part that `form` is, with the head `head`. `place` is the number of its tree in the item.
fn case_part_with_head(head: CasePartHead, form: &Form, place: usize) -> Part<'_> {
    Part {
        called: head.word,
        is_prefix: head.is_prefix,
        is_branch: head.is_branch,
        place,
        branch: None,
        commands: node_parts_after_head(form),
    }
}

/// Branch `number`, counted from 1, of a `(branches ..)` tree. That tree is tree `place` of the item.
fn branch_as_case_part(form: &Form, place: usize, number: usize) -> Part<'_> {
    let called = match BRANCHES.get(number.saturating_sub(1)) {
        Some(called) => *called,
        None => "a branch",
    };
    Part {
        called,
        is_prefix: false,
        is_branch: true,
        place,
        branch: Some(number),
        commands: node_parts_or_empty(form),
    }
}

/// The head of a part with the word `word`.
fn find_case_part_head(word: &str) -> Option<CasePartHead> {
    for head in &HEADS {
        if head.word == word {
            return Some(*head);
        }
    }
    None
}

/// Adds the branches of a `(branches ..)` tree.
fn push_branches_as_case_parts<'a>(
    parts: &mut Vec<Part<'a>>,
    forms: &'a [Form],
    place: usize,
) -> Result<(), AllocError> {
    for (index, form) in forms.iter().enumerate() {
        parts.extend_from_slice(&[branch_as_case_part(form, place, index.saturating_add(1))])?;
    }
    Ok(())
}

/// Adds the parts of a case that `tree` holds.
fn push_case_parts_of_tree<'a>(
    parts: &mut Vec<Part<'a>>,
    tree: &'a Form,
    place: usize,
) -> Result<(), AllocError> {
    if has_head(tree, "branches") {
        return push_branches_as_case_parts(parts, node_parts_after_head(tree), place);
    }
    match find_case_part_head(head_word_or_empty(tree)) {
        Some(head) => parts.extend_from_slice(&[case_part_with_head(head, tree, place)]),
        None => Ok(()),
    }
}

/// The parts of a case, in the order of the numbers of their commands.
pub fn parts_of_case_or_run<'a>(
    alloc: Global,
    form: &'a Form,
) -> Result<Vec<Part<'a>>, AllocError> {
    let mut parts = Vec::new(alloc);
    for (place, tree) in node_parts_or_empty(form).iter().enumerate() {
        push_case_parts_of_tree(&mut parts, tree, place)?;
    }
    Ok(parts)
}

/// The part of command `command`, counted from 1, and the number of the command in it. Both results count from 0.
pub fn find_part_and_offset_of_command(
    parts: &[Part<'_>],
    command: usize,
) -> Option<(usize, usize)> {
    let mut left = command.saturating_sub(1);
    for (number, part) in parts.iter().enumerate() {
        let length = part.commands.len();
        if left < length {
            return Some((number, left));
        }
        left = left.saturating_sub(length);
    }
    None
}

/// Command `command`, counted from 1.
pub fn find_command<'a>(parts: &[Part<'a>], command: usize) -> Option<Command<'a>> {
    let mut offset = command.saturating_sub(1);
    for part in parts {
        if let Some(form) = part.commands.get(offset) {
            return Some(Command {
                part: *part,
                offset,
                form,
            });
        }
        offset = offset.saturating_sub(part.commands.len());
    }
    None
}

/// The path to a command within its item.
fn path_to_command(alloc: Global, command: &Command<'_>) -> Result<Vec<usize>, AllocError> {
    let place = command.part.place;
    match command.part.branch {
        Some(branch) => Vec::from_slice(alloc, &[place, branch, command.offset]),
        None => Vec::from_slice(alloc, &[place, command.offset.saturating_add(1)]),
    }
}

/// Command `command`, counted from 1, with the path to it within its item.
pub fn find_command_with_path<'a>(
    alloc: Global,
    parts: &[Part<'a>],
    command: usize,
) -> Result<Option<(Vec<usize>, &'a Form)>, AllocError> {
    match find_command(parts, command) {
        Some(command) => Ok(Some((path_to_command(alloc, &command)?, command.form))),
        None => Ok(None),
    }
}

/// The number of the command that the variable `word` names.
pub fn command_number_of_variable(word: &str) -> Option<usize> {
    match word.strip_prefix("$") {
        Some(digits) => digits.parse::<usize>().ok(),
        None => None,
    }
}

/// The type of the result of command `command`, counted from 1.
pub fn result_type_of_command<'a>(
    source: &'a Source,
    parts: &[Part<'_>],
    command: usize,
) -> Option<&'a Ty> {
    let Some(command) = find_command(parts, command) else {
        return None;
    };
    match find_operation(source.items.as_slice(), head_word_or_empty(command.form)) {
        Some(op) => Some(&op.result),
        None => None,
    }
}

/// The operation that a command calls.
fn operation_of_command<'a>(source: &'a Source, form: &Form) -> Option<&'a Op>
    ensures { option_copied result ≡ spec.operation_in source.now form.now }
{
    let items = source.items.as_slice();
    let (first, _) = node_parts_or_empty(form).split_first()?;
    let name = word_of(first)?;
    let number = operation_number(items, name.as_bytes())?;
    operation_of(items, number)
}

fn command_result_type_or_call_type(
    alloc: Global,
    source: &Source,
    form: &Form,
) -> Result<Ty, AllocError>
    ensures { IfOk result (λ ty. ty ≡ spec.result_type source.now form.now) }
{
    match operation_of_command(source, form) {
        Some(op) => op.result.copy(alloc),
        None => Ok(Ty::Call),
    }
}

fn add_result_types_of_commands(
    alloc: Global,
    mut types: Items<Ty>,
    source: &Source,
    commands: &[Form],
) -> Result<Items<Ty>, AllocError>
    ensures { IfOk result (λ all. all ≡ types ++ map (spec.result_type source.now) commands.now) }
{
    for command in commands {
        types.push(command_result_type_or_call_type(alloc, source, command)?)?;
    }
    Ok(types)
}

fn add_result_types_of_parts(
    alloc: Global,
    types: Items<Ty>,
    source: &Source,
    parts: &[Part<'_>],
) -> Result<Items<Ty>, AllocError>
    ensures { IfOk result (λ all. all ≡ types ++ spec.result_types source.now parts.now) }
{
    let Some((part, parts)) = parts.split_first() else {
        return Ok(types);
    };
    let types = add_result_types_of_commands(alloc, types, source, part.commands)?;
    add_result_types_of_parts(alloc, types, source, parts)
}

/// The types of the results of all commands, in the order of their numbers, from 1.
pub fn result_types_of_commands(
    alloc: Global,
    source: &Source,
    parts: &[Part<'_>],
) -> Result<Items<Ty>, AllocError>
    ensures { IfOk result (λ types. types ≡ spec.result_types source.now parts.now) }
{
    add_result_types_of_parts(alloc, Items::new(alloc), source, parts)
}
