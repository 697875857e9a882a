//! The evaluation of a model's expressions, of the states of a run and of its preconditions.
ghost use Rattle.std.specs.Prelude.{◌≡◌, IfOk, MatchOption};
ghost use Rattle.pst_eval.specs.Callbacks.{at_names};
ghost use Rattle.pst_eval.specs.Env.{env_of};
ghost use Rattle.pst_scene.specs.Outcomes.{ValueOf, GivesValue, GivesTruth};

use crate::order::{calls_in_interleaving_order, count_calls_before_number, first_calls};
use crate::scene::{Call, Scene};
use crate::spelling::operation_of_call;
use pst_case::Reply;
use pst_eval::{Context, Env, eval};
use pst_model::{Expr, Source, find_initial_state_expression};
use pst_operators::Stop;
use pst_value::{Boxed, Fault, Items, Value};
use std::alloc::{AllocError, Global};
use std::mem;

/// The turns that a callback starts with.
pub const TURNS: u32 = 1_000_000;

/// What callbacks of the model may name besides their variables.
pub fn evaluation_context_of_model<'a>(alloc: Global, model: &'a Source) -> Context<'a>
    ensures items { result.items.now ≡ model.now.items }
    ensures earlier { result.earlier.now ≡ model.now.items }
{
    Context {
        alloc,
        items: model.items.as_slice(),
        earlier: model.items.as_slice(),
    }
}

/// The value of an expression of the model in an environment, or why it has none, which is never lack of memory.
#[tactic(auto, unfolding(pst_eval::specs::Callbacks::at_names))]
pub fn evaluate_expression_of_model(
    alloc: Global,
    model: &Source,
    expr: &Expr,
    env: &Env<'_>,
) -> Result<Result<Value, Stop>, AllocError>
    ensures { IfOk result (ValueOf (at_names model.now expr.now (env_of env.now))) }
{
    let mut turns = TURNS;
    match eval(
        expr,
        &evaluation_context_of_model(alloc, model),
        env,
        &mut turns,
    ) {
        Ok(value) => Ok(Ok(value)),
        Err(Stop::Fault(fault)) => Ok(Err(Stop::Fault(fault))),
        Err(Stop::Stuck) => Ok(Err(Stop::Stuck)),
        Err(Stop::NoMemory) => Err(AllocError),
    }
}

/// The value of an expression of the model in an environment, if it has one.
pub fn value_of_expression_in_environment(
    alloc: Global,
    model: &Source,
    expr: &Expr,
    env: &Env<'_>,
) -> Result<Option<Value>, AllocError>
    ensures { IfOk result (GivesValue (at_names model.now expr.now (env_of env.now))) }
{
    match evaluate_expression_of_model(alloc, model, expr, env)? {
        Ok(value) => Ok(Some(value)),
        Err(Stop::Fault(_)) => Ok(None),
        Err(Stop::Stuck) => Ok(None),
        Err(Stop::NoMemory) => Err(AllocError),
    }
}

/// Whether an expression of the model is true in an environment; `None` if its value is no bool or it has none.
pub fn truth_of_expression_in_environment(
    alloc: Global,
    model: &Source,
    expr: &Expr,
    env: &Env<'_>,
) -> Result<Option<bool>, AllocError>
    ensures { IfOk result (GivesTruth (at_names model.now expr.now (env_of env.now))) }
{
    match value_of_expression_in_environment(alloc, model, expr, env)? {
        Some(Value::Bool(truth)) => Ok(Some(truth)),
        _ => Ok(None),
    }
}

/// The result of a precondition.
#[derive(Clone, Copy, Debug, PartialEq, Eq, Drop)]
pub enum PreAnswer {
    /// It is true.
    Holds,
    /// It is false.
    Fails,
    /// It faults.
    Faults(Fault),
}

/// Returns the arguments of a command, with recorded results for variables.
pub fn arguments_with_recorded_results(
    alloc: Global,
    scene: &Scene<'_>,
    call: &Call<'_>,
) -> Result<Items<Value>, AllocError> {
    let mut args = Items::new(alloc);
    for arg in call.command.args.as_slice() {
        args.push(arg.subst(scene.known.as_slice(), alloc)?)?;
    }
    Ok(args)
}

/// Returns the reference to the result of a command, or its variable if no result was recorded.
pub fn result_reference_or_variable(alloc: Global, call: &Call<'_>) -> Result<Value, AllocError> {
    match call.reply {
        Some(Reply::Value(value)) => Ok(Value::Ref(
            call.number,
            Boxed::new(alloc, value.copy(alloc)?)?,
        )),
        _ => Ok(Value::Var(call.number)),
    }
}

/// Returns the initial state. `None` if the model gives none, or `init` cannot be evaluated.
pub fn evaluate_initial_state(
    alloc: Global,
    scene: &Scene<'_>,
) -> Result<Option<Value>, AllocError> {
    match find_initial_state_expression(scene.model.items.as_slice()) {
        Some(opening) => {
            let outcome = evaluate_expression_of_model(
                alloc,
                scene.model,
                opening,
                &Env::Frame(&[], &[]),
            )?;
            Ok(outcome.ok())
        }
        None => Ok(None),
    }
}

/// Returns the state after a command. `None` if its `next` cannot be evaluated.
pub fn state_after_call(
    alloc: Global,
    scene: &Scene<'_>,
    state: &Value,
    call: &Call<'_>,
) -> Result<Option<Value>, AllocError> {
    let Some(operation) = operation_of_call(scene, call) else {
        return Ok(None);
    };
    let args = arguments_with_recorded_results(alloc, scene, call)?;
    let result = result_reference_or_variable(alloc, call)?;
    let frame = Env::Frame(operation.params.as_slice(), args.as_slice());
    let outer = Env::With(b"s", &*state, &frame);
    let inner = Env::With(b"r", &result, &outer);
    let outcome = evaluate_expression_of_model(alloc, scene.model, &operation.next, &inner)?;
    Ok(outcome.ok())
}

/// Moves `state` to the end of `states` and puts the state after a command in its place. Leaves both and returns
/// `false` if the callback faults.
fn record_state_and_try_to_advance(
    alloc: Global,
    scene: &Scene<'_>,
    states: &mut Vec<Value>,
    state: &mut Value,
    call: &Call<'_>,
) -> Result<bool, AllocError> {
    let Some(next) = state_after_call(alloc, scene, &*state, call)? else {
        return Ok(false);
    };
    states.push(mem::replace(state, next))?;
    Ok(true)
}

/// Adds `first` and the state after each command in turn from it, up to the first callback that faults.
fn add_states_until_callback_faults(
    alloc: Global,
    scene: &Scene<'_>,
    states: &mut Vec<Value>,
    first: Value,
    calls: &[Call<'_>],
) -> Result<(), AllocError> {
    let mut state = first;
    for call in calls {
        if !record_state_and_try_to_advance(alloc, scene, states, &mut state, call)? {
            break;
        }
    }
    states.push(state)?;
    Ok(())
}

/// Returns the initial state and the state after each command in turn, up to the first callback that faults.
pub fn states_along_calls(
    alloc: Global,
    scene: &Scene<'_>,
    calls: &[Call<'_>],
) -> Result<Vec<Value>, AllocError> {
    let mut states = Vec::new(alloc);
    if let Some(first) = evaluate_initial_state(alloc, scene)? {
        add_states_until_callback_faults(alloc, scene, &mut states, first, calls)?;
    }
    Ok(states)
}

/// Returns the commands before `call` in `interleaving`.
pub fn calls_before_call_in_interleaving<'a>(
    alloc: Global,
    scene: &Scene<'a>,
    interleaving: &[usize],
    call: &Call<'_>,
) -> Result<Vec<Call<'a>>, AllocError> {
    let order = calls_in_interleaving_order(alloc, &scene.calls, interleaving)?;
    let count = count_calls_before_number(order.as_slice(), call.number);
    first_calls(alloc, order.as_slice(), count)
}

/// Returns the state before `call` in `interleaving`. `None` if a callback faults before it.
pub fn state_before_call_in_interleaving(
    alloc: Global,
    scene: &Scene<'_>,
    interleaving: &[usize],
    call: &Call<'_>,
) -> Result<Option<Value>, AllocError> {
    let before = calls_before_call_in_interleaving(alloc, scene, interleaving, call)?;
    let mut states = states_along_calls(alloc, scene, before.as_slice())?;
    if states.len() <= before.len() {
        return Ok(None);
    }
    Ok(states.pop())
}

/// Returns the result of a precondition, by its value or why it has none.
fn classify_precondition_outcome(outcome: &Result<Value, Stop>) -> PreAnswer {
    match outcome {
        Ok(Value::Bool(false)) => PreAnswer::Fails,
        Err(Stop::Fault(fault)) => PreAnswer::Faults(*fault),
        _ => PreAnswer::Holds,
    }
}

/// Returns the result of the precondition of a command on `state`.
pub fn evaluate_precondition(
    alloc: Global,
    scene: &Scene<'_>,
    state: &Value,
    call: &Call<'_>,
) -> Result<PreAnswer, AllocError> {
    let Some(operation) = operation_of_call(scene, call) else {
        return Ok(PreAnswer::Holds);
    };
    if let Expr::Bool(true) = operation.pre {
        return Ok(PreAnswer::Holds);
    }
    let args = arguments_with_recorded_results(alloc, scene, call)?;
    let frame = Env::Frame(operation.params.as_slice(), args.as_slice());
    let env = Env::With(b"s", &*state, &frame);
    let outcome = evaluate_expression_of_model(alloc, scene.model, &operation.pre, &env)?;
    Ok(classify_precondition_outcome(&outcome))
}
