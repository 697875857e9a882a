//! Models that are not well typed.

use crate::diagnose::{BlamedPart, diagnose_blamed_part};
use crate::expression_parts::{
    enter_expression_part, expression_part_at_path_adding_names, find_callback_number_and_body,
    scope_names, tree_part_or_whole,
};
use crate::operands::problem_of_type_mismatch;
use pst_model::{Expr, Fun, Item, Op, Source, find_state_type};
use pst_sexpr::Form;
use pst_syntax_problems::{
    FoundProblem, MOST_PROBLEMS, Problem, head_word_or_empty, problem_at, problem_with_note,
    push_problem_if_any, with_note,
};
use pst_typing::{Blame, Context, Found, Kind, Scope, holds_call, holds_ref_or_call, infer};
use pst_value::Ty;
use std::alloc::{AllocError, Global};

/// The place of an expression: its tree, the path to it, what it is called, and the type that it must have.
#[derive(Drop)]
pub struct ExpressionSite<'a> {
    pub form: &'a Form,
    pub path: &'a [usize],
    pub called: &'a str,
    pub wanted: &'a Kind,
    /// Whether the language of the model has maps.
    pub has_maps: bool,
}

/// The place of an item: the items of its model, the type of the state, the tree of the item, and its number in the
/// tree of the model.
#[derive(Clone, Copy, Drop)]
pub struct ItemSite<'a> {
    pub alloc: Global,
    pub items: &'a [Item],
    pub state: &'a Kind,
    pub form: &'a Form,
    pub number: usize,
    /// Whether the language of the model has maps.
    pub has_maps: bool,
}

/// Goes from the tree of an expression to the part in it that the numbers `parts` lead to: extends `path`, and returns
/// the tree of the part.
fn enter_expression_part_at_path<'a>(
    path: &mut Vec<usize>,
    form: &'a Form,
    parts: &[usize],
) -> Result<&'a Form, AllocError> {
    let mut here = form;
    for part in parts {
        here = enter_expression_part(path, here, *part)?;
    }
    Ok(here)
}

/// The problem of a part that is to blame.
fn type_problem_of_blame(
    expr: &Expr,
    context: &Context<'_>,
    scope: &Scope<'_>,
    site: &ExpressionSite<'_>,
    blame: &Blame,
) -> FoundProblem {
    let alloc = context.alloc;
    let mut path = Vec::from_slice(alloc, site.path)?;
    let form = enter_expression_part_at_path(&mut path, site.form, blame.path.as_slice())?;
    let mut names = scope_names(alloc, scope)?;
    let expr = expression_part_at_path_adding_names(
        alloc,
        &mut names,
        expr,
        blame.path.as_slice(),
    )?;
    let blamed = BlamedPart {
        alloc,
        context,
        expr,
        form,
        path: path.as_slice(),
        kinds: blame.kinds.as_slice(),
        names: &names,
        called: site.called,
        has_maps: site.has_maps,
    };
    diagnose_blamed_part(&blamed)
}

/// The problem of an expression of the kind `found`, if it has to have another kind.
fn problem_if_expression_type_differs(
    alloc: Global,
    site: &ExpressionSite<'_>,
    found: &Kind,
) -> FoundProblem {
    if found.same(alloc, site.wanted)? {
        return Ok(None);
    }
    let refused = problem_of_type_mismatch(alloc, site.path, site.called, site.wanted, found)?;
    if site.called == "next" && head_word_or_empty(site.form) == "=" {
        return with_note(
            alloc,
            refused,
            "hint: `=` compares: write the new state alone",
        );
    }
    Ok(refused)
}

/// Adds what is wrong with the type of an expression: one problem for each part that is to blame.
fn add_expression_type_problems(
    problems: &mut Vec<Problem>,
    expr: &Expr,
    context: &Context<'_>,
    scope: &Scope<'_>,
    site: &ExpressionSite<'_>,
) -> Result<(), AllocError> {
    match infer(expr, context, scope)? {
        Found::Kind(kind) => push_problem_if_any(
            problems,
            problem_if_expression_type_differs(context.alloc, site, &kind)?,
        ),
        Found::Blamed(blames) => {
            for blame in blames.as_slice() {
                push_problem_if_any(
                    problems,
                    type_problem_of_blame(expr, context, scope, site, blame)?,
                )?;
            }
            Ok(())
        }
    }
}

/// The context of an expression that sees all items.
fn context_with_all_items(here: ItemSite<'_>, is_post: bool) -> Context<'_> {
    Context {
        alloc: here.alloc,
        items: here.items,
        earlier: here.items,
        is_post,
    }
}

/// Adds what is wrong with the callback `word`.
fn add_callback_type_problems(
    problems: &mut Vec<Problem>,
    expr: &Expr,
    word: &str,
    scope: &Scope<'_>,
    wanted: &Kind,
    here: ItemSite<'_>,
) -> Result<(), AllocError> {
    let context = context_with_all_items(here, word == "post");
    let Some((place, body)) = find_callback_number_and_body(here.form, word) else {
        return Ok(());
    };
    let site = ExpressionSite {
        form: body,
        path: &[0, here.number, place, 1],
        called: word,
        wanted,
        has_maps: here.has_maps,
    };
    add_expression_type_problems(problems, expr, &context, scope, &site)
}

/// Adds what is wrong with the callback `pre`, which sees the state.
fn add_pre_type_problems(
    problems: &mut Vec<Problem>,
    op: &Op,
    here: ItemSite<'_>,
) -> Result<(), AllocError> {
    let truth = Kind::of(here.alloc, &Ty::Bool)?;
    let params = Scope::Parameters(op.params.as_slice());
    let scope = Scope::With(b"s".as_slice(), here.state, &params);
    add_callback_type_problems(problems, &op.pre, "pre", &scope, &truth, here)
}

/// Adds what is wrong with the callback `next`, which sees the state and a reference to the result.
fn add_next_type_problems(
    problems: &mut Vec<Problem>,
    op: &Op,
    here: ItemSite<'_>,
) -> Result<(), AllocError> {
    let named = Kind::of(here.alloc, &op.result)?.reference(here.alloc)?;
    let params = Scope::Parameters(op.params.as_slice());
    let seen = Scope::With(b"s".as_slice(), here.state, &params);
    let scope = Scope::With(b"r".as_slice(), &named, &seen);
    add_callback_type_problems(problems, &op.next, "next", &scope, here.state, here)
}

/// Adds what is wrong with the callback `post`, which sees the state and the result.
fn add_post_type_problems(
    problems: &mut Vec<Problem>,
    op: &Op,
    here: ItemSite<'_>,
) -> Result<(), AllocError> {
    let truth = Kind::of(here.alloc, &Ty::Bool)?;
    let value = Kind::of(here.alloc, &op.result)?;
    let params = Scope::Parameters(op.params.as_slice());
    let seen = Scope::With(b"s".as_slice(), here.state, &params);
    let scope = Scope::With(b"r".as_slice(), &value, &seen);
    add_callback_type_problems(problems, &op.post, "post", &scope, &truth, here)
}

/// What is wrong with the types that an operation declares.
fn operation_signature_type_problem(op: &Op, here: ItemSite<'_>) -> FoundProblem {
    let (alloc, number) = (here.alloc, here.number);
    for (place, param) in op.params.as_slice().iter().enumerate() {
        if holds_call(&param.ty) {
            let what = "the parameter of an operation cannot hold a `call`";
            return problem_at(alloc, &[0, number, 2, place, 1], what);
        }
    }
    if !holds_ref_or_call(&op.result) {
        return Ok(None);
    }
    problem_with_note(
        alloc,
        &[0, number, 3],
        "the result of an operation cannot hold a `ref` or a `call`",
        "hint: declare the type of the value; `next` sees a reference to it",
    )
}

/// Adds what is wrong with an operation: the types that it declares, and each of its callbacks.
fn add_operation_type_problems(
    problems: &mut Vec<Problem>,
    op: &Op,
    here: ItemSite<'_>,
) -> Result<(), AllocError> {
    push_problem_if_any(problems, operation_signature_type_problem(op, here)?)?;
    add_pre_type_problems(problems, op, here)?;
    add_next_type_problems(problems, op, here)?;
    add_post_type_problems(problems, op, here)
}

/// Adds what is wrong with a function.
fn add_function_type_problems(
    problems: &mut Vec<Problem>,
    fun: &Fun,
    here: ItemSite<'_>,
) -> Result<(), AllocError> {
    let (alloc, number) = (here.alloc, here.number);
    let result = Kind::of(alloc, &fun.result)?;
    let context = Context {
        alloc,
        items: here.items,
        earlier: here.items.get(..number.saturating_sub(2)).unwrap_or(&[]),
        is_post: fun.is_post,
    };
    let scope = Scope::Parameters(fun.params.as_slice());
    let site = ExpressionSite {
        form: tree_part_or_whole(here.form, 4),
        path: &[0, number, 4],
        called: fun.name.as_str(),
        wanted: &result,
        has_maps: here.has_maps,
    };
    add_expression_type_problems(problems, &fun.body, &context, &scope, &site)
}

/// Adds what is wrong with the expression of the item `called`, which is not in an operation or a function.
fn add_init_or_command_type_problems(
    problems: &mut Vec<Problem>,
    expr: &Expr,
    called: &str,
    scope: &Scope<'_>,
    wanted: &Kind,
    here: ItemSite<'_>,
) -> Result<(), AllocError> {
    let site = ExpressionSite {
        form: tree_part_or_whole(here.form, 1),
        path: &[0, here.number, 1],
        called,
        wanted,
        has_maps: here.has_maps,
    };
    add_expression_type_problems(
        problems,
        expr,
        &context_with_all_items(here, false),
        scope,
        &site,
    )
}

/// Adds what is wrong with the initial state.
fn add_init_type_problems(
    problems: &mut Vec<Problem>,
    expr: &Expr,
    here: ItemSite<'_>,
) -> Result<(), AllocError> {
    let none = Scope::Parameters(&[]);
    add_init_or_command_type_problems(problems, expr, "init", &none, here.state, here)
}

/// Adds what is wrong with the item `command`, which sees the state.
fn add_command_type_problems(
    problems: &mut Vec<Problem>,
    expr: &Expr,
    here: ItemSite<'_>,
) -> Result<(), AllocError> {
    let calls = Kind::of(here.alloc, &Ty::Call)?.list(here.alloc)?;
    let none = Scope::Parameters(&[]);
    let scope = Scope::With(b"s".as_slice(), here.state, &none);
    add_init_or_command_type_problems(problems, expr, "command", &scope, &calls, here)
}

/// What is wrong with the type of the state.
fn state_type_problem(state: &Ty, here: ItemSite<'_>) -> FoundProblem {
    if holds_call(state) {
        let what = "the state cannot hold a `call`";
        problem_at(here.alloc, &[0, here.number, 1], what)
    } else {
        Ok(None)
    }
}

/// Adds what is wrong with an item.
fn add_item_type_problems(
    problems: &mut Vec<Problem>,
    item: &Item,
    here: ItemSite<'_>,
) -> Result<(), AllocError> {
    match item {
        Item::Fun(fun) => add_function_type_problems(problems, fun, here),
        Item::Op(op) => add_operation_type_problems(problems, op, here),
        Item::Init(expr) => add_init_type_problems(problems, expr, here),
        Item::Command(expr) => add_command_type_problems(problems, expr, here),
        Item::State(state) => push_problem_if_any(problems, state_type_problem(state, here)?),
    }
}

/// Adds the problem that item `number` in the tree of the model is not well typed, if there are no others.
fn add_ill_typed_item_problem_if_none(
    problems: &mut Vec<Problem>,
    alloc: Global,
    number: usize,
) -> Result<(), AllocError> {
    if problems.is_empty() {
        let problem = problem_at(alloc, &[0, number], "the item is not well typed")?;
        push_problem_if_any(problems, problem)?;
    }
    Ok(())
}

/// Adds the problems of item `number` and of the items after it, as `type_problems_from_item_on` says.
fn add_type_problems_from_item_on(
    problems: &mut Vec<Problem>,
    alloc: Global,
    source: &Source,
    state: &Kind,
    model: &Form,
    number: usize,
) -> Result<(), AllocError> {
    let items = source.items.as_slice();
    for (index, item) in items.iter().enumerate() {
        let place = index.saturating_add(2);
        let is_first = index.saturating_add(1) == number;
        if index.saturating_add(1) >= number && problems.len() <= MOST_PROBLEMS {
            let here = ItemSite {
                alloc,
                items,
                state,
                form: tree_part_or_whole(model, place),
                number: place,
                has_maps: source.has_maps,
            };
            add_item_type_problems(problems, item, here)?;
        }
        if is_first {
            add_ill_typed_item_problem_if_none(problems, alloc, place)?;
        }
    }
    Ok(())
}

/// The problems of item `number`, counted from 1, of a model that is not well typed, and of the items after it. The
/// problem that the model is refused for comes first. Each is independent of the others, because functions and
/// operations are used by the types that they declare. Once there are more than `MOST_PROBLEMS` problems, the items
/// after that are left out.
pub fn type_problems_from_item_on(
    alloc: Global,
    source: &Source,
    model: &Form,
    number: usize,
) -> Result<Vec<Problem>, AllocError> {
    let mut problems = Vec::new(alloc);
    if let Some(state) = find_state_type(source.items.as_slice()) {
        let state = Kind::of(alloc, state)?;
        add_type_problems_from_item_on(&mut problems, alloc, source, &state, model, number)?;
    }
    Ok(problems)
}
