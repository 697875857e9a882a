//! The parts of expressions and of their trees, the paths to them, and the names that a part sees.

use pst_model::{Clause, Expr};
use pst_sexpr::{Form, node_of};
use pst_syntax_problems::head_word_or_empty;
use pst_typing::Scope;
use pst_value::{Items, Text};
use std::alloc::{AllocError, Global};

/// Tree `number` in `form`, or `form` itself if it holds no such tree.
pub fn tree_part_or_whole(form: &Form, number: usize) -> &Form {
    match node_of(form) {
        Some(trees) => trees.get(number).unwrap_or(form),
        None => form,
    }
}

/// The clauses of a comprehension.
pub fn comprehension_clauses_or_empty(form: &Form) -> &[Form] {
    match node_of(form) {
        Some([_, clauses, _]) => node_of(clauses).unwrap_or(&[]),
        _ => &[],
    }
}

/// Whether a clause goes over a list. Any other one is a test.
pub fn is_clause_over_list(clause: &Form) -> bool {
    head_word_or_empty(clause) == "in"
}

/// The body of the callback `word`, if the tree is this callback.
fn body_if_callback_tree<'a>(form: &'a Form, word: &str) -> Option<&'a Form> {
    match node_of(form)? {
        [_, body] if head_word_or_empty(form) == word => Some(body),
        _ => None,
    }
}

/// The number and the body of the callback `word` among the parts of an operation.
pub fn find_callback_number_and_body<'a>(form: &'a Form, word: &str) -> Option<(usize, &'a Form)> {
    for (number, part) in node_of(form)?.iter().enumerate() {
        if number >= 4 {
            if let Some(body) = body_if_callback_tree(part, word) {
                return Some((number, body));
            }
        }
    }
    None
}

/// Goes from a tree to tree `number` in it: extends `path`, and returns that tree.
fn enter_tree_part<'a>(
    path: &mut Vec<usize>,
    form: &'a Form,
    number: usize,
) -> Result<&'a Form, AllocError> {
    path.push(number)?;
    Ok(tree_part_or_whole(form, number))
}

/// Goes from the tree of a comprehension to the expression of clause `part`, or to the body if it has no such clause.
fn enter_comprehension_part<'a>(
    path: &mut Vec<usize>,
    form: &'a Form,
    part: usize,
) -> Result<&'a Form, AllocError> {
    let Some(clause) = comprehension_clauses_or_empty(form).get(part) else {
        return enter_tree_part(path, form, 2);
    };
    path.push(1)?;
    path.push(part)?;
    enter_tree_part(
        path,
        clause,
        if is_clause_over_list(clause) { 2 } else { 1 },
    )
}

/// Goes from the tree of an expression to its part `part`: extends `path`, and returns the tree of the part.
pub fn enter_expression_part<'a>(
    path: &mut Vec<usize>,
    form: &'a Form,
    part: usize,
) -> Result<&'a Form, AllocError> {
    match head_word_or_empty(form) {
        "let" | "list" | "call" => enter_tree_part(path, form, part.saturating_add(2)),
        "fold" if part > 0 => enter_tree_part(path, form, part.saturating_add(3)),
        "fold" => enter_tree_part(path, form, 2),
        "for" => enter_comprehension_part(path, form, part),
        _ => enter_tree_part(path, form, part.saturating_add(1)),
    }
}

/// The names of a scope, the inner ones last.
pub fn scope_names(alloc: Global, scope: &Scope<'_>) -> Result<Items<Text>, AllocError> {
    match scope {
        Scope::Parameters(params) => {
            let mut names = Items::new(alloc);
            for param in *params {
                names.push(param.name.copy(alloc)?)?;
            }
            Ok(names)
        }
        Scope::With(name, _, outer) => {
            let mut names = scope_names(alloc, outer)?;
            if let Ok(name) = std::str::from_utf8(name) {
                names.push(Text::from_string(String::from_str(alloc, name)?))?;
            }
            Ok(names)
        }
    }
}

/// Expression `part` of `exprs`, or `whole` if it has no such expression.
fn expression_part_or_whole<'a>(whole: &'a Expr, exprs: &'a Items<Expr>, part: usize) -> &'a Expr {
    match exprs.get(part) {
        Some(expr) => expr,
        None => whole,
    }
}

/// Part `part` of a comprehension. Adds the names that the part sees.
fn comprehension_part_adding_names<'a>(
    alloc: Global,
    names: &mut Items<Text>,
    clauses: &'a [Clause],
    body: &'a Expr,
    part: usize,
) -> Result<&'a Expr, AllocError> {
    for (number, clause) in clauses.iter().enumerate() {
        match clause {
            Clause::In(name, list) => {
                if number == part {
                    return Ok(list);
                }
                names.push(name.copy(alloc)?)?;
            }
            Clause::When(test) => {
                if number == part {
                    return Ok(test);
                }
            }
        }
    }
    Ok(body)
}

/// Part `part` of three, counted from 0. The third has each greater number.
fn expression_part_or_last_of_three<'a>(
    part: usize,
    first: &'a Expr,
    second: &'a Expr,
    third: &'a Expr,
) -> &'a Expr {
    match part {
        0 => first,
        1 => second,
        _ => third,
    }
}

/// Part `part` of two, counted from 0. The second has each greater number.
fn expression_part_or_last_of_two<'a>(part: usize, first: &'a Expr, second: &'a Expr) -> &'a Expr {
    if part == 0 { first } else { second }
}

/// Part `part` of an expression whose parts see no further names.
fn nonbinding_expression_part_or_whole(expr: &Expr, part: usize) -> &Expr {
    match expr {
        Expr::If(first, second, third) | Expr::Put(first, second, third) => {
            expression_part_or_last_of_three(part, first.get(), second.get(), third.get())
        }
        Expr::And(first, second) | Expr::Or(first, second) | Expr::Binary(_, first, second) => {
            expression_part_or_last_of_two(part, first.get(), second.get())
        }
        Expr::Unary(_, operand) | Expr::At(operand, _) => operand.get(),
        Expr::Tuple(exprs) | Expr::List(_, exprs) | Expr::Call(_, exprs) | Expr::Apply(_, exprs) =>
            expression_part_or_whole(expr, exprs, part),
        _ => expr,
    }
}

/// Part `part` of an expression. Adds the names that the part sees.
fn expression_part_adding_names<'a>(
    alloc: Global,
    names: &mut Items<Text>,
    expr: &'a Expr,
    part: usize,
) -> Result<&'a Expr, AllocError> {
    match (expr, part) {
        (Expr::Let(_, bound, _), 0) => Ok(bound.get()),
        (Expr::Let(name, _, body), _) => {
            names.push(name.copy(alloc)?)?;
            Ok(body.get())
        }
        (Expr::Fold(_, list, _, _, _), 0) => Ok(list.get()),
        (Expr::Fold(_, _, _, first, _), 1) => Ok(first.get()),
        (Expr::Fold(name, _, acc, _, body), _) => {
            names.push(name.copy(alloc)?)?;
            names.push(acc.copy(alloc)?)?;
            Ok(body.get())
        }
        (Expr::For(clauses, body), _) => {
            comprehension_part_adding_names(alloc, names, clauses.as_slice(), body.get(), part)
        }
        _ => Ok(nonbinding_expression_part_or_whole(expr, part)),
    }
}

/// The part of an expression that `path` leads to. Adds the names that the part sees.
pub fn expression_part_at_path_adding_names<'a>(
    alloc: Global,
    names: &mut Items<Text>,
    expr: &'a Expr,
    path: &[usize],
) -> Result<&'a Expr, AllocError> {
    let mut here = expr;
    for part in path {
        here = expression_part_adding_names(alloc, names, here, *part)?;
    }
    Ok(here)
}
