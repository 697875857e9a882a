//! Callbacks that fault, and preconditions that are false.

use crate::walks::{
    InterleavingStates, blocked_calls_after, interleaving_states_along_calls,
    interleaving_without_states,
};
use pst_case::Reply;
use pst_eval::{Callback, Env, FaultPlace};
use pst_model::{Expr, find_command_expression, find_initial_state_expression};
use pst_reasons::{AnyOrder, Order};
use pst_scene::{
    Binding, Call, FaultyPart, Scene, arguments_with_recorded_results, bindings_of_environment,
    call_numbered, calls_before_call_in_interleaving, faulty_part_of_expression, operation_of_call,
    result_reference_or_variable, states_along_calls, words_of_expression,
};
use pst_value::{Fault, Items, Value};
use std::alloc::{AllocError, Global};

/// An expression with the values of its names.
#[derive(Drop)]
pub struct ExpressionWithNameValues<'a> {
    pub expr: &'a Expr,
    /// The names in it that have a value, in the order in which it has them.
    pub names: Vec<Binding>,
}

/// The part of an expression that faults.
#[derive(Drop)]
pub struct FaultyPartWithValues<'a> {
    /// The name of the function in whose body it is, if it is in one.
    pub function: Option<&'a str>,
    pub evaluated: ExpressionWithNameValues<'a>,
}

/// An expression of a callback, and the part of it that faults, if it is not the whole.
#[derive(Drop)]
pub struct ExpressionWithFaultyPart<'a> {
    pub whole: ExpressionWithNameValues<'a>,
    pub part: Option<FaultyPartWithValues<'a>>,
}

/// A callback that faults, or a precondition that is false.
#[derive(Drop)]
pub struct Failure<'a> {
    pub callback: Callback,
    /// The command whose callback it is; `None` for `init` and `command`.
    pub call: Option<Call<'a>>,
    /// Its fault; `None` if it is a precondition that is false.
    pub fault: Option<Fault>,
    /// Its expression. `None` if the model has none, or there is no state before the command.
    pub expression: Option<ExpressionWithFaultyPart<'a>>,
    /// The interleaving up to there; `None` if its search takes too many steps.
    pub walk: Option<InterleavingStates<'a>>,
}

/// Returns the value of `name`, the inner one if it has several.
fn innermost_bound_value<'a>(bindings: &'a [Binding], name: &[u8]) -> Option<&'a Value> {
    for binding in bindings {
        if binding.name.as_slice() == name {
            return Some(&binding.value);
        }
    }
    None
}

/// Returns an expression, and the names in it with their values.
fn expression_with_bound_values<'a>(
    alloc: Global,
    expr: &'a Expr,
    bindings: &[Binding],
) -> Result<ExpressionWithNameValues<'a>, AllocError> {
    let mut names = Vec::new(alloc);
    let used = words_of_expression(alloc, expr)?;
    for name in &used {
        if let Some(value) = innermost_bound_value(bindings, name.as_slice()) {
            names.push(Binding {
                name: Items::from_slice(alloc, name.as_slice())?,
                value: value.copy(alloc)?,
            })?;
        }
    }
    Ok(ExpressionWithNameValues { expr, names })
}

/// Returns the part of an expression that faults, if it is not the whole.
fn faulty_part_unless_whole_expression<'a>(
    alloc: Global,
    whole: &Expr,
    found: &FaultyPart<'a>,
) -> Result<Option<FaultyPartWithValues<'a>>, AllocError> {
    if found.function.is_none() && *found.part == *whole {
        return Ok(None);
    }
    Ok(Some(FaultyPartWithValues {
        function: found.function,
        evaluated: expression_with_bound_values(alloc, found.part, found.names.as_slice())?,
    }))
}

/// Returns an expression of the model with its values in `env`, and the part of it that faults.
fn expression_with_faulty_part<'a>(
    alloc: Global,
    scene: &Scene<'a>,
    expr: &'a Expr,
    env: &Env<'_>,
) -> Result<Option<ExpressionWithFaultyPart<'a>>, AllocError> {
    let names = bindings_of_environment(alloc, env)?;
    let whole = expression_with_bound_values(alloc, expr, names.as_slice())?;
    let part = match faulty_part_of_expression(alloc, scene.model, expr, env)? {
        Some(found) => faulty_part_unless_whole_expression(alloc, expr, &found)?,
        None => None,
    };
    Ok(Some(ExpressionWithFaultyPart { whole, part }))
}

/// Returns the expression of the initial state, and the part of it that faults. `None` if the model has none.
fn init_expression_with_faulty_part<'a>(
    alloc: Global,
    scene: &Scene<'a>,
) -> Result<Option<ExpressionWithFaultyPart<'a>>, AllocError> {
    match find_initial_state_expression(scene.model.items.as_slice()) {
        Some(expr) => expression_with_faulty_part(alloc, scene, expr, &Env::Frame(&[], &[])),
        None => Ok(None),
    }
}

/// Returns the expression of the calls to pick from in `state`, and the part of it that faults. `None` if the model has
/// none.
fn command_expression_with_faulty_part<'a>(
    alloc: Global,
    scene: &Scene<'a>,
    state: &Value,
) -> Result<Option<ExpressionWithFaultyPart<'a>>, AllocError> {
    match find_command_expression(scene.model.items.as_slice()) {
        Some(expr) => {
            let frame = Env::Frame(&[], &[]);
            expression_with_faulty_part(alloc, scene, expr, &Env::With(b"s", &*state, &frame))
        }
        None => Ok(None),
    }
}

/// Returns the expression of the `next` of a command, and the part of it that faults. `env` has no
/// result yet.
fn next_expression_with_faulty_part<'a>(
    alloc: Global,
    scene: &Scene<'a>,
    call: &Call<'_>,
    expr: &'a Expr,
    env: &Env<'_>,
) -> Result<Option<ExpressionWithFaultyPart<'a>>, AllocError> {
    let result = result_reference_or_variable(alloc, call)?;
    let inner = Env::With(b"r", &result, &*env);
    expression_with_faulty_part(alloc, scene, expr, &inner)
}

/// Returns the expression of the `post` of a command, and the part of it that faults. `env` has no
/// result yet. `None` if the reply is no value.
fn post_expression_with_faulty_part<'a>(
    alloc: Global,
    scene: &Scene<'a>,
    call: &Call<'_>,
    expr: &'a Expr,
    env: &Env<'_>,
) -> Result<Option<ExpressionWithFaultyPart<'a>>, AllocError> {
    match call.reply {
        Some(Reply::Value(value)) => {
            let inner = Env::With(b"r", &*value, &*env);
            expression_with_faulty_part(alloc, scene, expr, &inner)
        }
        _ => Ok(None),
    }
}

/// Returns the expression of a callback of a command on `state`, the state before it, and the part of it that faults.
/// `None` for `init` and `command`, for `post` if the reply is no value, and if the model has no such operation.
fn operation_expression_with_faulty_part<'a>(
    alloc: Global,
    scene: &Scene<'a>,
    callback: Callback,
    call: &Call<'_>,
    state: &Value,
) -> Result<Option<ExpressionWithFaultyPart<'a>>, AllocError> {
    let Some(operation) = operation_of_call(scene, call) else {
        return Ok(None);
    };
    let args = arguments_with_recorded_results(alloc, scene, call)?;
    let frame = Env::Frame(operation.params.as_slice(), args.as_slice());
    let env = Env::With(b"s", &*state, &frame);
    match callback {
        Callback::Init | Callback::Command => Ok(None),
        Callback::Pre => expression_with_faulty_part(alloc, scene, &operation.pre, &env),
        Callback::Next => next_expression_with_faulty_part(
            alloc,
            scene,
            call,
            &operation.next,
            &env,
        ),
        Callback::Post => post_expression_with_faulty_part(
            alloc,
            scene,
            call,
            &operation.post,
            &env,
        ),
    }
}

/// Returns the walk along the commands `before` of `interleaving`, as far as `states` has
/// states, with the commands that may come next by the order and cannot on the state after them.
fn interleaving_states_with_blocked_calls<'a, O: Order>(
    alloc: Global,
    order: &O,
    scene: &Scene<'a>,
    interleaving: &[usize],
    before: &[Call<'a>],
    states: &[Value],
) -> Result<InterleavingStates<'a>, AllocError> {
    let mut walk = interleaving_states_along_calls(alloc, scene, interleaving, before, states)?;
    if let Some(state) = states.get(before.len()) {
        walk.stopped = blocked_calls_after(alloc, order, scene, before, state)?;
    }
    Ok(walk)
}

/// Returns the failure of a callback of a command in `interleaving`. `fault` is its fault, or `None` if it is
/// a precondition that is false.
pub fn failure_of_call_in_interleaving<'a, O: Order>(
    alloc: Global,
    order: &O,
    scene: &Scene<'a>,
    interleaving: &[usize],
    callback: Callback,
    call: Call<'a>,
    fault: Option<Fault>,
) -> Result<Failure<'a>, AllocError> {
    let before = calls_before_call_in_interleaving(alloc, scene, interleaving, &call)?;
    let before = before.as_slice();
    let states = states_along_calls(alloc, scene, before)?;
    let states = states.as_slice();
    let expression = match states.get(before.len()) {
        Some(state) => operation_expression_with_faulty_part(alloc, scene, callback, &call, state)?,
        None => None,
    };
    let walk = interleaving_states_with_blocked_calls(
        alloc,
        order,
        scene,
        interleaving,
        before,
        states,
    )?;
    Ok(Failure {
        callback,
        call: Some(call),
        fault,
        expression,
        walk: Some(walk),
    })
}

/// Returns the failure of `call` at `place` after `calls`. `walk` is the walk along these.
pub fn failure_after_calls<'a>(
    alloc: Global,
    scene: &Scene<'a>,
    calls: &[Call<'_>],
    walk: InterleavingStates<'a>,
    call: Call<'a>,
    place: FaultPlace,
) -> Result<Failure<'a>, AllocError> {
    let callback = place.callback;
    let states = states_along_calls(alloc, scene, calls)?;
    let expression = match states.as_slice().get(calls.len()) {
        Some(state) => operation_expression_with_faulty_part(alloc, scene, callback, &call, state)?,
        None => None,
    };
    Ok(Failure {
        callback,
        call: Some(call),
        fault: Some(place.fault),
        expression,
        walk: Some(walk),
    })
}

/// Returns the failure at `place` in `interleaving`.
pub fn failure_at_fault_place<'a, O: Order>(
    alloc: Global,
    order: &O,
    scene: &Scene<'a>,
    interleaving: &[usize],
    place: FaultPlace,
) -> Result<Failure<'a>, AllocError> {
    let fault = Some(place.fault);
    if let Some(call) = call_numbered(scene.all.as_slice(), place.command) {
        return failure_of_call_in_interleaving(
            alloc,
            order,
            scene,
            interleaving,
            place.callback,
            call,
            fault,
        );
    }
    Ok(Failure {
        callback: Callback::Init,
        call: None,
        fault,
        expression: init_expression_with_faulty_part(alloc, scene)?,
        walk: Some(interleaving_without_states(alloc, interleaving)?),
    })
}

/// Returns the expression of a callback of a command, without any value.
fn operation_expression_without_values<'a>(
    alloc: Global,
    scene: &Scene<'a>,
    callback: Callback,
    call: &Call<'_>,
) -> Option<ExpressionWithFaultyPart<'a>> {
    let operation = operation_of_call(scene, call)?;
    let expr = match callback {
        Callback::Init | Callback::Command => return None,
        Callback::Pre => &operation.pre,
        Callback::Next => &operation.next,
        Callback::Post => &operation.post,
    };
    let names = Vec::new(alloc);
    let whole = ExpressionWithNameValues { expr, names };
    Some(ExpressionWithFaultyPart { whole, part: None })
}

/// Returns the failure at `place` in an interleaving that is not known.
pub fn failure_in_unknown_interleaving<'a>(
    alloc: Global,
    scene: &Scene<'a>,
    place: FaultPlace,
) -> Result<Failure<'a>, AllocError> {
    let Some(call) = call_numbered(scene.all.as_slice(), place.command) else {
        return failure_at_fault_place(alloc, &AnyOrder, scene, &[], place);
    };
    Ok(Failure {
        callback: place.callback,
        call: Some(call),
        fault: Some(place.fault),
        expression: operation_expression_without_values(alloc, scene, place.callback, &call),
        walk: None,
    })
}

/// Returns the failure of the calls to pick from after a script, whose commands are all commands of the item.
pub fn command_callback_failure_after_script<'a>(
    alloc: Global,
    scene: &Scene<'a>,
    fault: Fault,
) -> Result<Failure<'a>, AllocError> {
    let calls = scene.all.as_slice();
    let states = states_along_calls(alloc, scene, calls)?;
    let states = states.as_slice();
    let expression = match states.get(calls.len()) {
        Some(state) => command_expression_with_faulty_part(alloc, scene, state)?,
        None => None,
    };
    Ok(Failure {
        callback: Callback::Command,
        call: None,
        fault: Some(fault),
        expression,
        walk: Some(interleaving_states_along_calls(alloc, scene, &[], calls, states)?),
    })
}
