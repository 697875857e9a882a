//! What messages say of refused types.

use crate::expressions::{
    bad_map_key_type_problem, problem_of_too_many_tuple_items, problem_of_wrong_part_count,
    type_tree_contains_value,
};
use crate::forms::{find_type_form, hint_for_foreign_word, is_head_of_map_form};
use crate::item_forms::{OPERATION, is_callback_head};
use crate::names::{DidYouMean, NearestNameSoFar};
use crate::problem::{
    FoundProblem, Problem, path_to_part, problem_at, problem_with_hint_if_foreign_word,
    problem_with_note, problem_with_note_at_part, with_note,
};
use crate::tree::has_head;
use crate::writing::shortened_tree_text;
use pst_sexpr::{Form, node_of, tree_in, word_of};
use pst_syntax::FaultKind;
use pst_value::Text;
use std::alloc::{AllocError, Global};

/// The head word of a node, and the trees after it.
fn head_word_and_parts(form: &Form) -> Option<(&Text, &[Form])> {
    let (first, rest) = node_of(form)?.split_first()?;
    Some((word_of(first)?, rest))
}

/// The problem of a form of maps in a language without maps.
fn maps_not_allowed_problem(alloc: Global, path: &[usize]) -> FoundProblem {
    problem_with_note(
        alloc,
        path,
        "a `model` has no maps",
        "hint: a model with maps begins with `(model2 NAME ..)`",
    )
}

/// The problem of a node with the head `head` and the trees `rest` after it, which is no type.
fn malformed_type_node_problem(
    alloc: Global,
    has_maps: bool,
    path: &[usize],
    form: &Form,
    head: &str,
    rest: &[Form],
) -> FoundProblem {
    let Some(shown) = find_type_form(head) else {
        return unknown_type_head_problem(alloc, path, form, head);
    };
    if is_head_of_map_form(head) && !has_maps {
        return maps_not_allowed_problem(alloc, path);
    }
    if rest.len() < shown.least || rest.len() > shown.most {
        return problem_of_wrong_part_count(alloc, path, shown, rest.len());
    }
    bad_map_key_type_problem(alloc, path_to_part(path, alloc, 1)?.as_slice())
}

/// The problem of a tree that is no type.
fn not_a_type_problem(alloc: Global, has_maps: bool, path: &[usize], form: &Form) -> FoundProblem {
    match (form, head_word_and_parts(form)) {
        (Form::Word(word), _) => unknown_type_word_problem(alloc, path, word.as_str()),
        (_, Some((head, rest))) => malformed_type_node_problem(
            alloc,
            has_maps,
            path,
            form,
            head.as_str(),
            rest,
        ),
        _ => nothing_like_a_type_problem(alloc, path, form),
    }
}

/// The problem of a word that is no type.
fn unknown_type_word_problem(alloc: Global, path: &[usize], word: &str) -> FoundProblem {
    if let Some(shown) = find_type_form(word) {
        let written = shown.written;
        return problem_at(alloc, path, format_args!("the type is written `{written}`"));
    }
    let what = format_args!("`{word}` is not a type");
    match nearest_int_bool_or_text_hint(alloc, word)? {
        Some(hint) if hint_for_foreign_word(word).is_none() => problem_with_note(
            alloc, path, what, hint,
        ),
        _ => problem_with_hint_if_foreign_word(alloc, path, word, what),
    }
}

/// The problem `found` of the type that `path` leads to in `model`, with a hint if it is the name of a parameter whose
/// type comes before it: if the node around it has two words, the first of them `int`, `bool` or `text`.
pub fn with_hint_if_type_before_name(
    alloc: Global,
    model: &Form,
    path: &[usize],
    found: Option<Problem>,
) -> FoundProblem {
    let Some((_, before)) = path.split_last() else {
        return Ok(found);
    };
    let Some(around) = tree_in(model, before.get(1..).unwrap_or(&[])) else {
        return Ok(found);
    };
    match node_of(around) {
        Some([Form::Word(ty), Form::Word(name)]) if is_int_bool_or_text_word(ty.as_str()) => {
            let ty = ty.as_str();
            let name = name.as_str();
            let hint = format_args!("hint: the name comes first: `({name} {ty})`");
            with_note(alloc, found, hint)
        }
        _ => Ok(found),
    }
}

/// Whether `word` is a type by itself.
fn is_int_bool_or_text_word(word: &str) -> bool {
    matches!(word, "int" | "bool" | "text")
}

/// The type that `word` probably means, as a hint.
fn nearest_int_bool_or_text_hint(
    alloc: Global,
    word: &str,
) -> Result<Option<DidYouMean<'static>>, AllocError> {
    let mut near = NearestNameSoFar::without_candidates(word);
    for name in ["int", "bool", "text"] {
        near = near.or_nearer_candidate(alloc, name, word)?;
    }
    Ok(near.hint())
}

/// The problem of a node that has to be a type, and whose head heads no type.
fn unknown_type_head_problem(
    alloc: Global,
    path: &[usize],
    form: &Form,
    head: &str,
) -> FoundProblem {
    if is_callback_head(head) {
        let what = "expected the type of the result here, before the callbacks";
        return problem_with_note(alloc, path, what, OPERATION);
    }
    let what = format_args!("`{head}` is not a type");
    match hint_for_foreign_word(head) {
        Some(hint) => problem_with_note_at_part(alloc, path, 0, what, format_args!("hint: {hint}")),
        None => nothing_like_a_type_problem(alloc, path, form),
    }
}

/// The problem of a tree that is not even similar to a type.
fn nothing_like_a_type_problem(alloc: Global, path: &[usize], form: &Form) -> FoundProblem {
    let shown = shortened_tree_text(alloc, form)?;
    problem_with_note(
        alloc,
        path,
        format_args!("`{shown}` is not a type"),
        "types are int, bool, text, (tuple T ..), (list T), (ref T), call, and (map K V) in model2",
    )
}

/// The problem of a type that is nested too deep.
pub fn too_deep_type_problem(alloc: Global, path: &[usize]) -> FoundProblem {
    problem_at(alloc, path, "types are nested more than 16 deep")
}

/// The problem of a type with the fault `kind`.
pub fn refused_type_problem(
    alloc: Global,
    has_maps: bool,
    path: &[usize],
    form: &Form,
    kind: FaultKind,
) -> FoundProblem {
    match kind {
        FaultKind::OverLimit => problem_of_too_many_tuple_items(
            alloc,
            path,
            node_of(form).unwrap_or(&[]),
        ),
        _ => not_a_type_problem(alloc, has_maps, path, form),
    }
}

/// How many numbers of `path` lead to the type of the items of a list that is written out. The path leads to
/// it, or to a type in it.
fn path_length_to_list_item_type(model: &Form, path: &[usize]) -> usize {
    let mut length: usize = 1;
    let mut form = Some(model);
    for number in path.get(1..).unwrap_or(&[]) {
        length = length.saturating_add(1);
        let is_list = form.is_some_and(|form| has_head(form, "list"));
        if is_list && *number == 1 {
            break;
        }
        form = form.and_then(|form| tree_in(form, &[*number]));
    }
    length
}

/// Returns the problem of a type with the fault `kind`. The type is the item type of a list expression, or a part of
/// this type.
pub fn refused_list_item_type_problem(
    alloc: Global,
    has_maps: bool,
    model: &Form,
    path: &[usize],
    form: &Form,
    kind: FaultKind,
) -> FoundProblem {
    let hint = "hint: a list begins with the type of its items: `(list int 1 2)`";
    let length = path_length_to_list_item_type(model, path);
    let whole = path.get(..length).unwrap_or(path);
    let ty = tree_in(model, whole.get(1..).unwrap_or(&[]));
    if ty.is_some_and(|ty| type_tree_contains_value(has_maps, ty)) {
        return problem_with_note(
            alloc,
            whole,
            "`list` takes the type of its items first",
            hint,
        );
    }
    let found = refused_type_problem(alloc, has_maps, path, form, kind)?;
    if length == path.len() {
        with_note(alloc, found, hint)
    } else {
        Ok(found)
    }
}
