//! Models that are refused for their form.

use crate::expressions::{
    problem_of_bad_tuple_place, refused_expression_problem, too_deep_expression_problem,
};
use crate::fault::{FormFault, Role};
use crate::items::{
    malformed_parameter_problem, missing_callbacks_problem, not_a_comprehension_clause_problem,
    problem_of_too_many_parameters, refused_callback_problem, refused_model_item_problem,
};
use crate::model_faults::model_syntax_faults;
use crate::names::{DidYouMean, NearestNameSoFar, push_name};
use crate::problem::{
    FoundProblem, MOST_PROBLEMS, Problem, missing_name_problem, missing_operation_name_problem,
    problem_at, problem_of_bad_name, problem_of_too_long_name, problem_with_note,
    problem_with_note_at_part, push_problem_if_any,
};
use crate::slips::{add_or_replace_notes_if_foreign_syntax, with_hint_if_malformed_word_or_part};
use crate::tree::{has_head, head_word_of_node};
use crate::types::{
    refused_list_item_type_problem, refused_type_problem, too_deep_type_problem,
    with_hint_if_type_before_name,
};
use crate::writing::CommaSeparatedNames;
use pst_sexpr::{Form, Tree, node_of, tree_in, word_of};
use pst_syntax::{FaultKind, MAX_TREES};
use pst_value::Items;
use std::alloc::{AllocError, Global};

/// The problem of a model that lacks items.
fn missing_model_items_problem(alloc: Global, items: &[Form]) -> FoundProblem {
    let mut names = Items::new(alloc);
    for word in ["state", "init", "command"] {
        if !items.iter().any(|item| has_head(item, word)) {
            push_name(alloc, &mut names, word)?;
        }
    }
    let names = CommaSeparatedNames(&names);
    problem_with_note(
        alloc,
        &[0],
        format_args!("the model lacks {names}"),
        "a model has a (state TYPE), an (init E) and a (command E)",
    )
}

/// How a model is written.
const MODEL: &str = "a model is `(model NAME ITEM ..)`, with maps `(model2 NAME ITEM ..)`";

/// The hint that `head` probably means the head of a model, if it is similar.
fn nearest_model_head_hint(
    alloc: Global,
    head: &str,
) -> Result<Option<DidYouMean<'static>>, AllocError> {
    if head.starts_with("model") || head.ends_with("model") {
        return Ok(Some(DidYouMean("model")));
    }
    let near = NearestNameSoFar::without_candidates(head).or_nearer_candidate(
        alloc, "model", head,
    )?;
    Ok(near.hint())
}

/// The problem of a tree that is no model and has the head `head`.
fn non_model_head_problem(alloc: Global, head: &str) -> FoundProblem {
    if head == "case" || head == "run" {
        let what = format_args!("a `{head}` comes before the model");
        return problem_with_note_at_part(alloc, &[0], 0, what, MODEL);
    }
    match nearest_model_head_hint(alloc, head)? {
        Some(hint) => problem_with_note_at_part(
            alloc,
            &[0],
            0,
            format_args!("no model begins with `{head}`"),
            hint,
        ),
        None => problem_with_note(alloc, &[0], "the file does not begin with a model", MODEL),
    }
}

/// The problem of a model whose name is no word. `parts` are its parts after its head.
fn nameless_model_problem(alloc: Global, parts: &[Form]) -> FoundProblem {
    let what = "the model has no name";
    if parts.is_empty() {
        return problem_with_note(alloc, &[0], what, MODEL);
    }
    problem_with_note(alloc, &[0, 1], what, MODEL)
}

/// The problem of a tree that is no model.
fn not_a_model_problem(alloc: Global, form: &Form) -> FoundProblem {
    let what = "the file does not begin with a model";
    match word_of(form) {
        Some(word) if word.as_str().starts_with("//") || word.as_str().starts_with("#") => {
            return problem_with_note(alloc, &[0], what, "hint: a comment begins with `;`");
        }
        _ => {}
    }
    match head_word_of_node(form) {
        Some(head) if head.as_str() == "model" || head.as_str() == "model2" => {
            nameless_model_problem(alloc, node_of(form).unwrap_or(&[]).get(1..).unwrap_or(&[]))
        }
        Some(head) => non_model_head_problem(alloc, head.as_str()),
        None => problem_with_note(alloc, &[0], what, MODEL),
    }
}

/// The problem of a model with the fault `kind`, which is none of its parts.
fn refused_whole_model_problem(alloc: Global, form: &Form, kind: FaultKind) -> FoundProblem {
    match kind {
        FaultKind::Missing => missing_model_items_problem(alloc, node_of(form).unwrap_or(&[])),
        FaultKind::OverLimit => {
            let what = format_args!("the model has more than {MAX_TREES} trees");
            problem_at(alloc, &[0], what)
        }
        _ => not_a_model_problem(alloc, form),
    }
}

/// The problem of a declared name with the fault `kind`.
fn refused_declared_name_problem(
    alloc: Global,
    path: &[usize],
    form: &Form,
    role: Role,
    kind: FaultKind,
) -> FoundProblem {
    let Some(word) = word_of(form) else {
        return missing_name_problem(alloc, path);
    };
    let name = word.as_str();
    match (kind, role) {
        (FaultKind::BadName, _) => problem_of_bad_name(alloc, path, word),
        (FaultKind::OverLimit, _) => problem_of_too_long_name(alloc, path, word),
        (_, Role::ParameterName) => {
            let what = format_args!("two parameters have the name `{name}`");
            problem_at(alloc, path, what)
        }
        (_, Role::ItemName) => {
            let what = format_args!("an earlier item declares `{name}`");
            problem_at(alloc, path, what)
        }
        _ => {
            let what = format_args!("`{name}` is bound twice; choose another name");
            problem_at(alloc, path, what)
        }
    }
}

/// The problem of `fault`, whose part is `form`.
fn model_fault_problem(
    alloc: Global,
    model: &Form,
    form: &Form,
    fault: &FormFault,
) -> FoundProblem {
    let FormFault { kind, role, .. } = *fault;
    let path = fault.path.as_slice();
    let has_maps = has_head(model, "model2");
    match role {
        Role::Model => refused_whole_model_problem(alloc, form, kind),
        Role::Item => refused_model_item_problem(alloc, path, form, kind),
        Role::Parameters => problem_of_too_many_parameters(alloc, path, form),
        Role::Parameter => malformed_parameter_problem(alloc, path, form),
        Role::Callbacks => missing_callbacks_problem(alloc, path, form),
        Role::Callback => refused_callback_problem(alloc, path, form, kind),
        Role::Type => refused_type_problem(alloc, has_maps, path, form, kind),
        Role::ItemType => refused_list_item_type_problem(alloc, has_maps, model, path, form, kind),
        Role::DeepType => too_deep_type_problem(alloc, path),
        Role::Expression => refused_expression_problem(alloc, has_maps, path, form, kind),
        Role::DeepExpression => too_deep_expression_problem(alloc, path),
        Role::Clause => not_a_comprehension_clause_problem(alloc, path),
        Role::Place => problem_of_bad_tuple_place(alloc, path, form),
        Role::Operation => missing_operation_name_problem(alloc, path, form),
        Role::ModelName | Role::ItemName | Role::ParameterName | Role::Name => {
            refused_declared_name_problem(alloc, path, form, role, kind)
        }
    }
}

/// The problem of `fault`, whose part is `form`, with a hint if it is written as in another language.
fn model_fault_problem_with_hint_if_foreign(
    alloc: Global,
    model: &Form,
    form: &Form,
    fault: &FormFault,
) -> FoundProblem {
    let found = model_fault_problem(alloc, model, form, fault)?;
    match (fault.kind, fault.role) {
        (FaultKind::UnknownForm, Role::Expression) => {
            let has_maps = has_head(model, "model2");
            add_or_replace_notes_if_foreign_syntax(
                alloc,
                has_maps,
                model,
                fault.path.as_slice(),
                form,
                found,
            )
        }
        (FaultKind::UnknownForm, Role::Item | Role::Callback) =>
            with_hint_if_malformed_word_or_part(alloc, form, found),
        (FaultKind::UnknownForm, Role::Type) => {
            with_hint_if_type_before_name(alloc, model, fault.path.as_slice(), found)
        }
        _ => Ok(found),
    }
}

/// Whether something is missing that the faults before may account for, since they are in the same tree.
fn is_missing_with_earlier_fault_inside(fault: &FormFault, before: &[FormFault]) -> bool {
    let path = fault.path.as_slice();
    let is_in = |other: &FormFault| other.path.as_slice().get(..path.len()) == Some(path);
    fault.kind == FaultKind::Missing && before.iter().any(is_in)
}

/// Adds `problem`, unless it is the last one once more.
fn push_problem_unless_same_as_last(
    problems: &mut Vec<Problem>,
    problem: Problem,
) -> Result<(), AllocError> {
    if let Some(last) = problems.last() {
        if last.path.as_slice() == problem.path.as_slice() && last.what == problem.what {
            return Ok(());
        }
    }
    problems.push(problem)?;
    Ok(())
}

/// The problems of a model that is refused for its form: one for each of its first `MOST_PROBLEMS + 1` faults, in their
/// order. What is missing is left out where an earlier fault may account for it, and so is a problem that equals the
/// last one. No problem comes after a fault of the whole model, as that it has too many trees.
pub fn first_model_syntax_problems(
    alloc: Global,
    trees: &[Tree],
) -> Result<Vec<Problem>, AllocError> {
    let mut problems = Vec::new(alloc);
    let Some(tree) = trees.first() else {
        push_problem_if_any(
            &mut problems,
            problem_with_note(alloc, &[], "the file has no model", MODEL)?,
        )?;
        return Ok(problems);
    };
    let model = tree.form();
    let faults = model_syntax_faults(alloc, trees, MOST_PROBLEMS.saturating_add(1))?;
    for (number, fault) in faults.as_slice().iter().enumerate() {
        let before = faults.as_slice().get(..number).unwrap_or(&[]);
        let path = fault.path.as_slice().get(1..).unwrap_or(&[]);
        let Some(form) = tree_in(model, path) else {
            continue;
        };
        if is_missing_with_earlier_fault_inside(fault, before) {
            continue;
        }
        if let Some(problem) = model_fault_problem_with_hint_if_foreign(
            alloc, model, form, fault,
        )? {
            push_problem_unless_same_as_last(&mut problems, problem)?;
        }
        if fault.role == Role::Model {
            break;
        }
    }
    Ok(problems)
}
