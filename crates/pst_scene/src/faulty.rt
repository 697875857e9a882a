//! The part of an expression that faults, and the names that it sees with their values.
ghost use Rattle.std.specs.Prelude.{◌≡◌, IfOk, ◌++◌, OnOk};
ghost use Rattle.pst_eval.specs.Callbacks.{at_names};
ghost use Rattle.pst_eval.specs.Env.{env_of};
ghost use Rattle.pst_scene.specs.Outcomes.{FaultsIn};
ghost use Rattle.pst_eval.specs.Meaning.{frame};
ghost use Rattle.pst_scene.specs.Names.{named};

use crate::attempt::Site;
use crate::descent::descend_to_faulty_part;
use crate::evaluating::{TURNS, evaluate_expression_of_model, evaluation_context_of_model};
use pst_eval::Env;
use pst_model::{Expr, Item, Param, Source};
use pst_operators::Stop;
use pst_value::{Items, Value};
use std::alloc::{AllocError, Global};

/// The part of an expression that faults by itself: its own parts have values.
#[derive(Drop)]
pub struct FaultyPart<'a> {
    pub part: &'a Expr,
    /// The name of the function in whose body it is, if it is in one.
    pub function: Option<&'a str>,
    /// The items whose functions it may apply.
    pub earlier: &'a [Item],
    /// How many turns are left when it begins.
    pub turns: u32,
    /// The names that it sees with their values, the inner ones first.
    pub names: Items<Binding>,
}

/// The part of an expression of the model that faults, if the expression does in its environment.
pub fn faulty_part_of_expression<'a>(
    alloc: Global,
    model: &'a Source,
    expr: &'a Expr,
    env: &Env<'_>,
) -> Result<Option<FaultyPart<'a>>, AllocError>
    ensures { IfOk result (FaultsIn model.now.items (at_names model.now expr.now (env_of env.now))) }
{
    match evaluate_expression_of_model(alloc, model, expr, env)? {
        Ok(_) => Ok(None),
        Err(Stop::Fault(_)) => {
            let site = Site {
                context: evaluation_context_of_model(alloc, model),
                function: None,
            };
            Ok(Some(descend_to_faulty_part(expr, &site, env, TURNS)?))
        }
        Err(Stop::Stuck) => Ok(None),
        Err(Stop::NoMemory) => Err(AllocError),
    }
}

/// A name and its value.
#[derive(Drop)]
pub struct Binding {
    pub name: Items<u8>,
    pub value: Value,
}

/// Copies `name` and its value.
fn copy_as_binding(alloc: Global, name: &[u8], value: &Value) -> Result<Binding, AllocError>
    ensures name { IfOk result (λ b. b.name ≡ name.now) }
    ensures value { IfOk result (λ b. b.value ≡ value.now) }
{
    Ok(Binding {
        name: Items::from_slice(alloc, name)?,
        value: value.copy(alloc)?,
    })
}

/// Adds parameters with their arguments.
fn add_parameter_bindings(
    bindings: &mut Items<Binding>,
    alloc: Global,
    params: &[Param],
    values: &[Value],
) -> Result<(), AllocError>
    ensures { OnOk result (named bindings.new ≡ named bindings.old ++ frame params.now values.now) }
{
    let (Some((param, params)), Some((value, values))) = (
        params.split_first(),
        values.split_first(),
    ) else {
        return Ok(());
    };
    bindings.push(copy_as_binding(alloc, param.name.as_bytes(), value)?)?;
    add_parameter_bindings(bindings, alloc, params, values)
}

/// Adds the names of an environment, the inner ones first.
fn add_environment_bindings(
    bindings: &mut Items<Binding>,
    alloc: Global,
    env: &Env<'_>,
) -> Result<(), AllocError>
    ensures { OnOk result (named bindings.new ≡ named bindings.old ++ env_of env.now) }
{
    match env {
        Env::Frame(params, values) => add_parameter_bindings(bindings, alloc, params, values),
        Env::With(name, value, outer) => {
            bindings.push(copy_as_binding(alloc, name, value)?)?;
            add_environment_bindings(bindings, alloc, outer)
        }
    }
}

/// The names that an expression sees with copies of their values, the inner ones first.
pub fn bindings_of_environment(alloc: Global, env: &Env<'_>) -> Result<Items<Binding>, AllocError>
    ensures { IfOk result (λ bindings. named bindings ≡ env_of env.now) }
{
    let mut bindings = Items::new(alloc);
    add_environment_bindings(&mut bindings, alloc, env)?;
    Ok(bindings)
}
