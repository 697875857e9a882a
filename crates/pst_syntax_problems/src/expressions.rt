//! What messages say of refused expressions.

use crate::forms::{
    HeadedForm, find_expression_form, find_type_form, hint_for_foreign_word,
    nearest_expression_head_hint,
};
use crate::problem::{
    FoundProblem, Problem, missing_name_problem, missing_operation_name_problem, path_to_part,
    problem_at, problem_at_part, problem_with_hint_if_foreign_word, problem_with_note,
    problem_with_note_at_part, with_hint_if_opens_single_quote, with_note,
};
use crate::tree::head_word_of_node;
use crate::writing::{counted_noun, shortened_tree_text};
use pst_sexpr::{Form, is_integer, node_of, word_of};
use pst_syntax::{FaultKind, MAX_PARTS};
use pst_value::{LIMIT, Text};
use std::alloc::Global;
use std::fmt;

/// Whether a word is `true`, `false`, the state or the result.
fn is_bool_state_or_result_word(name: &str) -> bool {
    matches!(name, "true" | "false" | "s" | "r")
}

/// Whether a tree that has to be a type spells a value, or has one in it.
#[cycle(spells_value)]
pub fn type_tree_contains_value(has_maps: bool, form: &Form) -> bool {
    match form {
        Form::Word(word) => is_bool_state_or_result_word(word.as_str()) || is_integer(word),
        Form::Text(_) => true,
        Form::Node(parts) => {
            has_head_of_expressions_only(has_maps, form)
                || any_type_tree_contains_value(has_maps, parts.as_slice())
        }
    }
}

/// Whether one of the trees spells a value, or has one in it.
#[cycle(spells_value)]
fn any_type_tree_contains_value(has_maps: bool, forms: &[Form]) -> bool {
    for form in forms {
        if type_tree_contains_value(has_maps, form) {
            return true;
        }
    }
    false
}

/// Whether the head of a tree heads expressions and no types.
fn has_head_of_expressions_only(has_maps: bool, form: &Form) -> bool {
    match head_word_of_node(form) {
        Some(head) => {
            let head = head.as_str();
            find_type_form(head).is_none() && find_expression_form(has_maps, head).is_some()
        }
        None => false,
    }
}

/// The problem of a word that is no expression.
fn unknown_expression_word_problem(
    alloc: Global,
    has_maps: bool,
    path: &[usize],
    word: &Text,
) -> FoundProblem {
    let name = word.as_str();
    if let Some(form) = find_expression_form(has_maps, name) {
        let written = form.written;
        return problem_at(
            alloc,
            path,
            format_args!("`{name}` is a form, not a value: `{written}`"),
        );
    }
    let what = format_args!("`{name}` is neither an integer nor a name");
    let found = problem_with_hint_if_foreign_word(alloc, path, name, what)?;
    with_hint_if_opens_single_quote(alloc, found, name)
}

/// How a form is written, or what to write in the place of one with `parts` parts.
#[derive(Clone, Copy, Drop)]
struct PartCountNote {
    form: HeadedForm,
    parts: usize,
}

impl fmt::Display for PartCountNote {
    fn fmt<W: fmt::Write>(&self, f: &mut fmt::Formatter<W>) -> fmt::Result {
        let word = self.form.word;
        match word {
            "and" | "or" | "+" | "*" if self.parts > 2 => {
                write!(f, "hint: write `({word} a ({word} b c))`")
            }
            "-" if self.parts == 1 => f.write_str("hint: write `(- 0 a)`"),
            "list" if self.parts == 0 && self.form.most > 1 => {
                f.write_str("hint: an empty list has the type of its items: `(list int)`")
            }
            "map" if self.parts == 0 => {
                f.write_str(
                    "hint: a map has the types of its keys and its values: `(map text int)`",
                )
            }
            _ => {
                let written = self.form.written;
                write!(f, "it is written `{written}`")
            }
        }
    }
}

/// The problem of a form with `parts` parts, which takes another number.
pub fn problem_of_wrong_part_count(
    alloc: Global,
    path: &[usize],
    form: HeadedForm,
    parts: usize,
) -> FoundProblem {
    let word = form.word;
    let takes = counted_noun(form.least, "part");
    let least = if form.least == form.most {
        ""
    } else {
        "at least "
    };
    problem_with_note(
        alloc,
        path,
        format_args!("`{word}` takes {least}{takes}, here it has {parts}"),
        PartCountNote { form, parts },
    )
}

/// A hint for a word that heads no expression, if it heads a clause or is a word of another language.
fn hint_for_non_expression_head(has_maps: bool, name: &str) -> Option<&'static str> {
    match name {
        "in" if has_maps => Some(
            "clauses are in `(for (CLAUSE ..) BODY)`; whether a map has a key is `(has m k)`",
        ),
        "in" | "when" => Some("clauses are in `(for (CLAUSE ..) BODY)`"),
        _ => hint_for_foreign_word(name),
    }
}

/// The problem of a node whose first tree heads no form and is no name of a function.
fn unknown_expression_head_problem(
    alloc: Global,
    has_maps: bool,
    path: &[usize],
    word: &Text,
) -> FoundProblem {
    let name = word.as_str();
    let what = format_args!("no expression begins with `{name}`");
    if let Some(hint) = hint_for_non_expression_head(has_maps, name) {
        return problem_with_note_at_part(alloc, path, 0, what, format_args!("hint: {hint}"));
    }
    match nearest_expression_head_hint(alloc, has_maps, name)? {
        Some(hint) => problem_with_note_at_part(alloc, path, 0, what, hint),
        None => problem_at_part(alloc, path, 0, what),
    }
}

/// The problem of a node whose head `word` is a value. The node has `parts` parts after it.
fn value_as_head_problem(alloc: Global, path: &[usize], word: &Text, parts: usize) -> FoundProblem {
    let name = word.as_str();
    let advice = if parts == 0 {
        ": write it without brackets"
    } else {
        ""
    };
    let what = format_args!("`{name}` is not a function{advice}");
    problem_at_part(alloc, path, 0, what)
}

/// The problem of `place`, which is no place of an item of a tuple. `path` leads to it.
pub fn problem_of_bad_tuple_place(alloc: Global, path: &[usize], place: &Form) -> FoundProblem {
    let what = "the place of a tuple's item is an integer, from 1";
    match word_of(place) {
        Some(word) if is_integer(word) => {
            let hint = "hint: items are numbered from 1: `(at t 1)` is the first one of `t`";
            problem_with_note(alloc, path, what, hint)
        }
        _ => {
            let hint = "hint: for a list write `(nth LIST PLACE)`, counted from 0";
            problem_with_note(alloc, path, what, hint)
        }
    }
}

/// The problem of a tree that is no type of the keys of a map. `path` leads to it.
pub fn bad_map_key_type_problem(alloc: Global, path: &[usize]) -> FoundProblem {
    problem_at(alloc, path, "the keys of a map are `int`, `bool` or `text`")
}

/// The problem of a tree that is no list of clauses. `path` leads to it.
fn not_a_clause_list_problem(alloc: Global, path: &[usize]) -> FoundProblem {
    problem_with_note(
        alloc,
        path,
        "expected the clauses here, in brackets of their own",
        "it is written `(for ((in x LIST) (when TEST)) BODY)`",
    )
}

/// The hint on how a map gets its entries.
const MAP_ENTRIES: &str = "hint: an empty map is `(map text int)`, and `(put m k v)` adds to it";

/// The problem of a form with the head `word` and the right number of parts, one of which is not what it has
/// to be. `path` leads to the form.
fn wrong_expression_part_problem(
    alloc: Global,
    path: &[usize],
    word: &str,
    parts: &[Form],
) -> FoundProblem {
    match (word, parts) {
        ("at", [_, place]) => problem_of_bad_tuple_place(
            alloc,
            path_to_part(path, alloc, 2)?.as_slice(),
            place,
        ),
        ("map", _) => with_note(
            alloc,
            bad_map_key_type_problem(alloc, path_to_part(path, alloc, 1)?.as_slice())?,
            MAP_ENTRIES,
        ),
        ("for", _) => not_a_clause_list_problem(alloc, path_to_part(path, alloc, 1)?.as_slice()),
        ("call", [called, ..]) => missing_operation_name_problem(
            alloc,
            path_to_part(path, alloc, 1)?.as_slice(),
            called,
        ),
        ("fold", [Form::Word(_), ..]) => missing_name_problem(
            alloc,
            path_to_part(path, alloc, 3)?.as_slice(),
        ),
        _ => missing_name_problem(alloc, path_to_part(path, alloc, 1)?.as_slice()),
    }
}

/// The problem of a node with the head `word` and the parts `parts` after it, which is no expression.
fn malformed_expression_node_problem(
    alloc: Global,
    has_maps: bool,
    path: &[usize],
    word: &Text,
    parts: &[Form],
) -> FoundProblem {
    let head = word.as_str();
    match find_expression_form(has_maps, head) {
        Some(form) if parts.len() < form.least || parts.len() > form.most => {
            let found = problem_of_wrong_part_count(alloc, path, form, parts.len())?;
            if head == "map" && !parts.is_empty() {
                with_note(alloc, found, MAP_ENTRIES)
            } else {
                Ok(found)
            }
        }
        Some(_) => wrong_expression_part_problem(alloc, path, head, parts),
        None if is_bool_state_or_result_word(head) || is_integer(word) => value_as_head_problem(
            alloc,
            path,
            word,
            parts.len(),
        ),
        None => unknown_expression_head_problem(alloc, has_maps, path, word),
    }
}

/// The problem of a node without trees.
fn empty_expression_node_problem(alloc: Global, has_maps: bool, path: &[usize]) -> FoundProblem {
    let hint = if has_maps {
        "hint: an empty list is `(list T)`, an empty map is `(map K V)`"
    } else {
        "hint: an empty list is `(list T)`"
    };
    problem_with_note(alloc, path, "`()` is not an expression", hint)
}

/// The problem of a tree that is no expression.
fn not_an_expression_problem(
    alloc: Global,
    has_maps: bool,
    path: &[usize],
    form: &Form,
) -> FoundProblem {
    let parts = match form {
        Form::Word(word) => return unknown_expression_word_problem(alloc, has_maps, path, word),
        Form::Text(_) => &[],
        Form::Node(parts) => parts.as_slice(),
    };
    let Some((first, parts)) = parts.split_first() else {
        return empty_expression_node_problem(alloc, has_maps, path);
    };
    match word_of(first) {
        Some(word) => malformed_expression_node_problem(alloc, has_maps, path, word, parts),
        None => problem_at(alloc, path, "an expression in brackets begins with a word"),
    }
}

/// The problem of a comprehension or a tuple with too many parts. `path` leads to it.
fn problem_of_too_many_clauses_or_items(
    alloc: Global,
    path: &[usize],
    parts: &[Form],
) -> FoundProblem {
    match parts {
        [Form::Word(word), Form::Node(clauses), _] if word.as_str() == "for" => {
            let number = clauses.len();
            let what = format_args!("the comprehension has {number} clauses, at most {MAX_PARTS}");
            problem_at_part(alloc, path, 1, what)
        }
        _ => problem_of_too_many_tuple_items(alloc, path, parts),
    }
}

/// The problem of a tuple, or of the type of tuples, with too many items. `parts` are its parts, its head
/// among them.
pub fn problem_of_too_many_tuple_items(
    alloc: Global,
    path: &[usize],
    parts: &[Form],
) -> FoundProblem {
    let number = parts.len().saturating_sub(1);
    let what = format_args!("the tuple has {number} items, at most {MAX_PARTS}");
    problem_at(alloc, path, what)
}

/// The problem of an expression that passes a limit, apart from that of its depth.
fn problem_of_expression_over_limit(alloc: Global, path: &[usize], form: &Form) -> FoundProblem {
    match form {
        Form::Word(word) => {
            let name = word.as_str();
            problem_at(
                alloc,
                path,
                format_args!("`{name}` does not fit in 64 bits"),
            )
        }
        Form::Text(text) => {
            let length = text.len();
            let what = format_args!("the text has {length} bytes, at most {LIMIT}");
            problem_at(alloc, path, what)
        }
        Form::Node(parts) => problem_of_too_many_clauses_or_items(alloc, path, parts.as_slice()),
    }
}

/// The problem `found` of a node without a head, with a hint if it may be meant as a tuple or as a list: its first tree is an
/// integer or a text, and others follow.
fn with_hint_if_tuple_or_list_without_head(
    alloc: Global,
    form: &Form,
    found: Option<Problem>,
) -> FoundProblem {
    let item = match node_of(form) {
        Some([Form::Word(word), _, ..]) if is_integer(word) => "int",
        Some([Form::Text(_), _, ..]) => "text",
        _ => return Ok(found),
    };
    let written = shortened_tree_text(alloc, form)?;
    let parts = match written.as_str().strip_prefix("(") {
        Some(parts) if parts.ends_with(")") => parts,
        _ => "a b ..)",
    };
    let hint = format_args!("hint: a tuple is `(tuple {parts}`, a list `(list {item} {parts}`");
    with_note(alloc, found, hint)
}

/// The problem of an expression with the fault `kind`.
pub fn refused_expression_problem(
    alloc: Global,
    has_maps: bool,
    path: &[usize],
    form: &Form,
    kind: FaultKind,
) -> FoundProblem {
    match kind {
        FaultKind::OverLimit => problem_of_expression_over_limit(alloc, path, form),
        _ => {
            let found = not_an_expression_problem(alloc, has_maps, path, form)?;
            with_hint_if_tuple_or_list_without_head(alloc, form, found)
        }
    }
}

/// The problem of an expression that is nested too deep.
pub fn too_deep_expression_problem(alloc: Global, path: &[usize]) -> FoundProblem {
    problem_at(alloc, path, "expressions are nested more than 64 deep")
}
