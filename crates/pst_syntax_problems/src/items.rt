//! What messages say of refused items and of their parts.

use crate::forms::hint_for_foreign_word;
use crate::infix::{
    ASSIGNMENT, assigned_trees_if_assignment, is_model_or_foreign_operator,
    operator_first_text_of_infix_parts, operators_come_first_phrase,
};
use crate::item_forms::{
    CALLS, ITEM_FORMS, ItemForm, OPERATION, find_item_form, is_callback_head,
    item_head_for_foreign_word,
};
use crate::names::{DidYouMean, NearestNameSoFar, push_name};
use crate::problem::{
    FoundProblem, Problem, missing_name_problem, path_to_part, problem_at, problem_at_part,
    problem_with_note, problem_with_note_at_part, with_note,
};
use crate::tree::{has_head, head_word_of_node};
use crate::writing::{CommaSeparatedNames, counted_noun, shortened_tree_text};
use pst_sexpr::{Form, node_of};
use pst_syntax::{FaultKind, MAX_DECLARED, MAX_PARTS};
use pst_value::Items;
use std::alloc::{AllocError, Global};
use std::fmt;

/// The heads of all items, for a note.
const ITEMS: &str =
    "items are (state ..), (init ..), (command ..), (fun ..), (postfun ..) and (op ..)";

/// The problem of a tree whose head `head` heads no item.
fn unknown_model_item_head_problem(alloc: Global, path: &[usize], head: &str) -> FoundProblem {
    let what = format_args!("no item of a model begins with `{head}`");
    if let Some(meant) = item_head_for_foreign_word(head) {
        return problem_with_note_at_part(alloc, path, 0, what, DidYouMean(meant));
    }
    let mut near = NearestNameSoFar::without_candidates(head);
    for form in ITEM_FORMS.as_slice() {
        near = near.or_nearer_candidate(alloc, form.head, head)?;
    }
    match near.hint() {
        Some(hint) => problem_with_note_at_part(alloc, path, 0, what, hint),
        None => problem_with_note_at_part(alloc, path, 0, what, ITEMS),
    }
}

/// The problem of a tree that is no item.
fn not_a_model_item_problem(alloc: Global, path: &[usize], form: &Form) -> FoundProblem {
    if let Some(head) = head_word_of_node(form) {
        return unknown_model_item_head_problem(alloc, path, head.as_str());
    }
    let shown = shortened_tree_text(alloc, form)?;
    let shown = shown.as_str();
    let what = format_args!("`{shown}` is not an item of a model");
    match hint_for_foreign_word(shown) {
        Some(hint) => problem_with_note(alloc, path, what, format_args!("hint: {hint}")),
        None => problem_with_note(alloc, path, what, ITEMS),
    }
}

/// The problem of an item with `number` parts, which is not the right number.
fn problem_of_wrong_item_part_count(
    alloc: Global,
    path: &[usize],
    form: ItemForm,
    number: usize,
) -> FoundProblem {
    let ItemForm { head, written, .. } = form;
    let has = counted_noun(number, "part");
    let what = format_args!("`{head}` is not written like this: it has {has}");
    if head == "command" {
        return problem_with_note(alloc, path, what, CALLS);
    }
    problem_with_note(alloc, path, what, format_args!("it is written `{written}`"))
}

/// The problem of a function or an operation whose name is no word, or else whose parameters are no list.
fn missing_name_or_parameters_problem(
    alloc: Global,
    path: &[usize],
    form: ItemForm,
    parts: &[Form],
) -> FoundProblem {
    if let [Form::Word(_), ..] = parts {
        return problem_with_note_at_part(
            alloc,
            path,
            2,
            "expected the parameters here, in brackets",
            "they are written `((p T) (q U))`, or `()` if there are none",
        );
    }
    let head = form.head;
    let what = format_args!("expected the name of the `{head}` here");
    problem_at_part(alloc, path, 1, what)
}

/// The form of an item, and its parts after its head.
fn item_form_and_parts(item: &Form) -> Option<(ItemForm, &[Form])> {
    let (_, parts) = node_of(item)?.split_first()?;
    Some((find_item_form(head_word_of_node(item)?.as_str())?, parts))
}

/// The problem of a tree that has the form of no item.
fn malformed_model_item_problem(alloc: Global, path: &[usize], item: &Form) -> FoundProblem {
    let Some((form, parts)) = item_form_and_parts(item) else {
        return not_a_model_item_problem(alloc, path, item);
    };
    let number = parts.len();
    if number == form.least || form.head == "op" && number > form.least {
        missing_name_or_parameters_problem(alloc, path, form, parts)
    } else {
        problem_of_wrong_item_part_count(alloc, path, form, number)
    }
}

/// The problem of an item with the fault `kind`.
pub fn refused_model_item_problem(
    alloc: Global,
    path: &[usize],
    item: &Form,
    kind: FaultKind,
) -> FoundProblem {
    let head = match head_word_of_node(item) {
        Some(head) => head.as_str(),
        None => "",
    };
    match kind {
        FaultKind::DoubleName => {
            let what = format_args!("the model has two items `{head}`");
            problem_at(alloc, path, what)
        }
        FaultKind::OverLimit => {
            let what = format_args!("the model has more than {MAX_DECLARED} items `{head}`");
            problem_at(alloc, path, what)
        }
        _ => malformed_model_item_problem(alloc, path, item),
    }
}

/// The problem of a list of too many parameters.
pub fn problem_of_too_many_parameters(
    alloc: Global,
    path: &[usize],
    params: &Form,
) -> FoundProblem {
    let number = node_of(params).unwrap_or(&[]).len();
    let what = format_args!("there are {number} parameters, at most {MAX_PARTS}");
    problem_at(alloc, path, what)
}

/// The problem of a tree that is no parameter.
pub fn malformed_parameter_problem(alloc: Global, path: &[usize], form: &Form) -> FoundProblem {
    let what = "a parameter is `(NAME TYPE)`";
    match node_of(form) {
        Some([_, _]) => missing_name_problem(alloc, path_to_part(path, alloc, 0)?.as_slice()),
        Some(_) => problem_at(alloc, path, what),
        None => problem_with_note(
            alloc,
            path,
            what,
            "the parameters are in brackets: `((p T) (q U))`",
        ),
    }
}

/// How the callback `head` is written in the place of one with `has` parts.
#[derive(Clone, Copy, Drop)]
struct CallbackPartCountNote<'a> {
    head: &'a str,
    has: usize,
}

impl fmt::Display for CallbackPartCountNote<'_> {
    fn fmt<W: fmt::Write>(&self, f: &mut fmt::Formatter<W>) -> fmt::Result {
        let head = self.head;
        if self.has > 1 && head != "next" {
            write!(f, "hint: if all must hold, write `({head} (and a b))`")
        } else {
            write!(f, "it is written `({head} E)`")
        }
    }
}

/// The hint on parts of a callback with operators that are not between their operands.
const OPERATORS: &str = "hint: operators come first, in brackets: `(= a (+ b c))`";

/// The hint on the parts of the callback `head`, if they are an assignment.
fn hint_if_callback_assigns(
    alloc: Global,
    head: &str,
    parts: &[Form],
) -> Result<Option<String>, AllocError> {
    let is_next = head == "next";
    let Some(value) = assigned_trees_if_assignment(is_next, parts) else {
        return Ok(None);
    };
    match operator_first_text_of_infix_parts(alloc, value)? {
        Some(written) if is_next => Ok(Some(format!(in alloc;
            "hint: write `(next {written})`: the new state alone"
        )?)),
        _ => Ok(Some(String::from_str(alloc, ASSIGNMENT)?)),
    }
}

/// The hint on the parts of the callback `head`, if the second of them is an operator or a word of another language.
fn operator_or_foreign_word_hint(
    alloc: Global,
    head: &str,
    parts: &[Form],
) -> Result<Option<String>, AllocError> {
    let [_, Form::Word(operator), _, ..] = parts else {
        return Ok(None);
    };
    match operator_first_text_of_infix_parts(alloc, parts)? {
        Some(written) => {
            let first = operators_come_first_phrase(parts);
            Ok(Some(format!(in alloc; "hint: write `({head} {written})`: {first}")?))
        }
        None if is_model_or_foreign_operator(operator.as_str()) => Ok(Some(String::from_str(
            alloc, OPERATORS,
        )?)),
        None => match hint_for_foreign_word(operator.as_str()) {
            Some(hint) => Ok(Some(format!(in alloc; "hint: {hint}")?)),
            None => Ok(None),
        },
    }
}

/// The problem of a callback that has not one expression. `parts` are the parts after its head.
fn problem_of_wrong_callback_part_count(
    alloc: Global,
    path: &[usize],
    head: &str,
    parts: &[Form],
) -> FoundProblem {
    let has = parts.len();
    let what = format_args!("`{head}` takes 1 part, here it has {has}");
    let found = problem_at(alloc, path, what)?;
    if let Some(hint) = hint_if_callback_assigns(alloc, head, parts)? {
        return with_note(alloc, found, hint);
    }
    match operator_or_foreign_word_hint(alloc, head, parts)? {
        Some(hint) => with_note(alloc, found, hint),
        None => with_note(alloc, found, CallbackPartCountNote { head, has }),
    }
}

/// The problem of a callback with the fault `kind`.
pub fn refused_callback_problem(
    alloc: Global,
    path: &[usize],
    form: &Form,
    kind: FaultKind,
) -> FoundProblem {
    match (kind, head_word_of_node(form)) {
        (FaultKind::DoubleName, Some(head)) => {
            let head = head.as_str();
            let what = format_args!("the operation has two callbacks `{head}`");
            problem_at(alloc, path, what)
        }
        (_, Some(head)) if is_callback_head(head.as_str()) => problem_of_wrong_callback_part_count(
            alloc,
            path,
            head.as_str(),
            node_of(form).unwrap_or(&[]).get(1..).unwrap_or(&[]),
        ),
        _ => problem_with_note(
            alloc,
            path,
            "a callback is `(pre E)`, `(next E)` or `(post E)`",
            OPERATION,
        ),
    }
}

/// The problem of a tree that is no clause of a comprehension.
pub fn not_a_comprehension_clause_problem(alloc: Global, path: &[usize]) -> FoundProblem {
    problem_with_note(
        alloc,
        path,
        "a clause is `(in NAME LIST)` or `(when TEST)`",
        "it is written `(for ((in x LIST) (when TEST)) BODY)`",
    )
}

/// The hint that says what the callback `word` may be at the least.
fn simplest_callback_hint(word: &str) -> &'static str {
    match word {
        "pre" => "hint: write `(pre true)` if it may always be called",
        "next" => "hint: write `(next s)` if it leaves the state as it is",
        _ => "hint: write `(post true)` if any result is right",
    }
}

/// The problem of an operation that lacks callbacks.
pub fn missing_callbacks_problem(alloc: Global, path: &[usize], item: &Form) -> FoundProblem {
    let parts = node_of(item).unwrap_or(&[]);
    let mut names = Items::new(alloc);
    for word in ["pre", "next", "post"] {
        if !parts.iter().any(|part| has_head(part, word)) {
            push_name(alloc, &mut names, word)?;
        }
    }
    let path = Vec::from_slice(alloc, path)?;
    let listed = CommaSeparatedNames(&names);
    let what = format_args!("the operation has no callback {listed}");
    let mut problem = Problem::new(alloc, path, what)?;
    for name in names.as_slice() {
        let hint = String::from_str(alloc, simplest_callback_hint(name.as_str()))?;
        problem.notes.push(hint)?;
    }
    Ok(Some(problem))
}
