//! The printer of models: models and their items as trees.
ghost use Rattle.std.specs.Prelude.{◌≡◌, IfOk, [], ◌∷◌, Ok, map};
ghost use Rattle.pst_print.specs.Printed.{source_form};
ghost use Rattle.pst_syntax.specs.Items.{model_of};
ghost use Rattle.pst_print.specs.Printed as spec;

use crate::expressions::{expr_form, ty_form};
use crate::parts::{
    list_of_three_forms, list_of_two_forms, model_head_word, prepend_form, print_name,
};
use pst_model::{Expr, Fun, Item, Op, Param, Source};
use pst_sexpr::{Form, Tree, headed, list_of_one_form};
use pst_syntax::Model;
use pst_value::{Items, Text, Ty};
use std::alloc::{AllocError, Global};

/// The tree of a model: its head by its language, `model2` if that has maps, integers in their shortest form,
/// the callbacks of an operation in the order pre, next, post. `read_model` reads it as the model.
#[tactic(auto, using(crate::proofs::ModelAgain::printed))]
pub fn print_model(alloc: Global, model: &Model) -> Result<Tree, AllocError>
    ensures form { IfOk result (λ tree. tree ≡ source_form model.now) }
    ensures again { IfOk result (λ tree. model_of (tree ∷ []) ≡ Ok model.now) }
{
    let form = print_source(alloc, model.source())?;
    Ok(Tree::new(form))
}

fn print_parameter(alloc: Global, param: &Param) -> Result<Form, AllocError>
    ensures { IfOk result (λ form. form ≡ spec.param_form param.now) }
{
    let ty = ty_form(alloc, &param.ty)?;
    Ok(Form::Node(list_of_two_forms(alloc, print_name(alloc, &param.name)?, ty)?))
}

fn print_parameters(alloc: Global, params: &[Param]) -> Result<Form, AllocError>
    ensures { IfOk result (λ form. form ≡ spec.params_form params.now) }
{
    let mut forms = Items::new(alloc);
    for param in params {
        forms.push(print_parameter(alloc, param)?)?;
    }
    Ok(Form::Node(forms))
}

/// A name, parameters and a result, and then others.
fn prepend_signature(
    alloc: Global,
    declared: &Text,
    params: &[Param],
    answer: &Ty,
    rest: Items<Form>,
) -> Result<Items<Form>, AllocError>
    ensures { IfOk result (λ forms. forms ≡ spec.signature declared.now params.now answer.now rest) }
{
    let rest = prepend_form(alloc, ty_form(alloc, answer)?, rest)?;
    let rest = prepend_form(alloc, print_parameters(alloc, params)?, rest)?;
    prepend_form(alloc, print_name(alloc, declared)?, rest)
}

fn print_function(alloc: Global, function: &Fun) -> Result<Form, AllocError>
    ensures { IfOk result (λ form. form ≡ spec.fun_form function.now) }
{
    let body = list_of_one_form(alloc, expr_form(alloc, &function.body)?)?;
    let params = function.params.as_slice();
    let parts = prepend_signature(alloc, &function.name, params, &function.result, body)?;
    if function.is_post {
        headed(alloc, "postfun", parts)
    } else {
        headed(alloc, "fun", parts)
    }
}

/// A word, and an expression.
fn print_headed_expression(alloc: Global, head: &str, expr: &Expr) -> Result<Form, AllocError>
    ensures { IfOk result (λ form. form ≡ spec.single head.now expr.now) }
{
    headed(
        alloc,
        head,
        list_of_one_form(alloc, expr_form(alloc, expr)?)?,
    )
}

fn print_operation(alloc: Global, operation: &Op) -> Result<Form, AllocError>
    ensures { IfOk result (λ form. form ≡ spec.op_form operation.now) }
{
    let pre = print_headed_expression(alloc, "pre", &operation.pre)?;
    let next = print_headed_expression(alloc, "next", &operation.next)?;
    let post = print_headed_expression(alloc, "post", &operation.post)?;
    let callbacks = list_of_three_forms(alloc, pre, next, post)?;
    let params = operation.params.as_slice();
    let parts = prepend_signature(alloc, &operation.name, params, &operation.result, callbacks)?;
    headed(alloc, "op", parts)
}

fn print_item(alloc: Global, item: &Item) -> Result<Form, AllocError>
    ensures { IfOk result (λ form. form ≡ spec.item_form item.now) }
{
    match item {
        Item::State(ty) => headed(
            alloc,
            "state",
            list_of_one_form(alloc, ty_form(alloc, ty)?)?,
        ),
        Item::Init(expr) => print_headed_expression(alloc, "init", expr),
        Item::Command(expr) => print_headed_expression(alloc, "command", expr),
        Item::Fun(function) => print_function(alloc, function),
        Item::Op(operation) => print_operation(alloc, operation),
    }
}

/// The tree of a model.
fn print_source(alloc: Global, source: &Source) -> Result<Form, AllocError>
    ensures { IfOk result (λ form. form ≡ spec.source_form source.now) }
{
    let mut forms = list_of_one_form(alloc, print_name(alloc, &source.name)?)?;
    for item in source.items.as_slice() {
        forms.push(print_item(alloc, item)?)?;
    }
    headed(alloc, model_head_word(source.has_maps), forms)
}
