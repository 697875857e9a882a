//! What the model allows in place of an answer of a core.
ghost use Rattle.std.specs.Prelude.{◌≡◌};
ghost use Rattle.pst_reasons.specs.Answered.{IsAnsweredRun};

use crate::bounded::StepLimitedCallbacks;
use pst_case::Reply;
use pst_eval::{Callbacks, Env};
use pst_model::Source;
use pst_reasons::{
    AllowedValues, AnswerProposer, AnswerQuestion, Order, RecordedRun, append_numbers_without,
    find_allowed_values, interleaving_where_answers_are_wrong,
};
use pst_scene::{
    Call, Falsity, Scene, arguments_with_recorded_results, operation_of_call,
    reply_wanted_by_postcondition, state_before_call_in_interleaving,
    why_postcondition_is_not_true,
};
use pst_value::Value;
use std::alloc::{AllocError, Global};

/// The maximum number of allowed values to find.
const MOST: u32 = 8;

/// Why an answer is wrong in an interleaving in which the rest of the core is right.
#[derive(Drop)]
pub struct WrongAnswer<'a> {
    /// The branches, from 0, of the letters that name the interleaving.
    pub interleaving: Vec<usize>,
    /// The state before the command.
    pub state: Value,
    pub falsity: Falsity<'a>,
}

/// Proposes, for an interleaving, the reply that the postcondition of a command requires there.
#[derive(Drop)]
struct ReplyProposer<'s, 'a, C> {
    callbacks: &'s StepLimitedCallbacks<'s, C>,
    scene: &'s Scene<'a>,
    call: &'s Call<'a>,
}

/// Returns the opposite bool, if the command answered a bool.
fn opposite_bool_reply(call: &Call<'_>) -> Option<Value> {
    match call.reply {
        Some(Reply::Value(Value::Bool(truth))) => Some(Value::Bool(!*truth)),
        _ => None,
    }
}

/// Returns a reply that may be right on `state`, the state before the command.
pub fn wanted_reply_or_opposite_bool(
    alloc: Global,
    scene: &Scene<'_>,
    call: &Call<'_>,
    state: &Value,
) -> Result<Option<Value>, AllocError> {
    let Some(operation) = operation_of_call(scene, call) else {
        return Ok(None);
    };
    let args = arguments_with_recorded_results(alloc, scene, call)?;
    let frame = Env::Frame(operation.params.as_slice(), args.as_slice());
    let env = Env::With(b"s", &*state, &frame);
    match reply_wanted_by_postcondition(alloc, scene.model, &operation.post, &env)? {
        Some(value) => Ok(Some(value)),
        None => Ok(opposite_bool_reply(call)),
    }
}

impl<'s, 'a, C: Callbacks> AnswerProposer for ReplyProposer<'s, 'a, C> {
    fn propose_answer_for_interleaving(
        &self,
        alloc: Global,
        interleaving: &[usize],
    ) -> Result<Option<Value>, AllocError> {
        self.callbacks
            .charge_calls_like_longest_or_fail(self.scene.all.len())?;
        match state_before_call_in_interleaving(alloc, self.scene, interleaving, self.call)? {
            Some(state) => wanted_reply_or_opposite_bool(alloc, self.scene, self.call, &state),
            None => Ok(None),
        }
    }
}

/// Returns why the postcondition of a command is not true in `interleaving`. `None` if a callback faults
/// before the command.
fn why_answer_is_wrong_in_interleaving<'a>(
    alloc: Global,
    scene: &Scene<'a>,
    call: &Call<'_>,
    interleaving: Vec<usize>,
) -> Result<Option<WrongAnswer<'a>>, AllocError> {
    let Some(state) = state_before_call_in_interleaving(
        alloc,
        scene,
        interleaving.as_slice(),
        call,
    )?
    else {
        return Ok(None);
    };
    let falsity = why_postcondition_is_not_true(alloc, scene, call, &state)?;
    Ok(Some(WrongAnswer {
        interleaving,
        state,
        falsity,
    }))
}

/// Returns the lexicographically first interleaving in order in which the commands of a core but `number` are right, if
/// there is one.
fn interleaving_where_rest_of_core_is_right<C: Callbacks, O: Order>(
    run: &RecordedRun<'_, C, O>,
    model: &Source,
    core: &[u32],
    number: u32,
) -> Result<Option<Vec<usize>>, AllocError>
    requires model { model.now ≡ C.model run.now.callbacks.now }
    requires answered { let r = run.now in
        IsAnsweredRun (C.model r.callbacks.now) (O.order r.order.now) r.shaped.now r.history.now }
{
    let others = append_numbers_without(number, core, Vec::new(run.alloc))?;
    let question = AnswerQuestion {
        run,
        model,
        others: others.as_slice(),
        number,
    };
    interleaving_where_answers_are_wrong(&question, &[])
}

/// Returns why the postcondition of a command is not true in the lexicographically first interleaving in order in which
/// the rest of the core is right and it is not, if there is one. `AllocError` too if the callbacks have no steps left.
pub fn why_answer_contradicts_rest_of_core<'a, C: Callbacks, O: Order>(
    run: &RecordedRun<'_, StepLimitedCallbacks<'_, C>, O>,
    scene: &Scene<'a>,
    core: &[u32],
    call: &Call<'_>,
) -> Result<Option<WrongAnswer<'a>>, AllocError>
    requires model { scene.now.model.now ≡ C.model run.now.callbacks.now.callbacks.now }
    requires answered { let r = run.now in
        IsAnsweredRun (C.model r.callbacks.now.callbacks.now) (O.order r.order.now) r.shaped.now r.history.now }
{
    let merge = interleaving_where_rest_of_core_is_right(run, scene.model, core, call.number)?;
    run.callbacks
        .charge_calls_like_longest_or_fail(scene.all.len())?;
    match merge {
        Some(interleaving) => why_answer_is_wrong_in_interleaving(
            run.alloc,
            scene,
            call,
            interleaving,
        ),
        None => Ok(None),
    }
}

/// Returns what the model allows in place of the answer of a command of a core, in the interleavings in order in which
/// the rest of the core is right. It evaluates the postcondition by recursion: the deepest valid model takes some tens of
/// MiB of stack. `AllocError` too if the callbacks have no steps left.
pub fn allowed_answers_for_explanation<C: Callbacks, O: Order>(
    run: &RecordedRun<'_, StepLimitedCallbacks<'_, C>, O>,
    scene: &Scene<'_>,
    core: &[u32],
    call: &Call<'_>,
) -> Result<AllowedValues, AllocError>
    requires model { scene.now.model.now ≡ C.model run.now.callbacks.now.callbacks.now }
    requires answered { let r = run.now in
        IsAnsweredRun (C.model r.callbacks.now.callbacks.now) (O.order r.order.now) r.shaped.now r.history.now }
{
    let wanted = ReplyProposer {
        callbacks: run.callbacks,
        scene,
        call,
    };
    run.callbacks.set_extra_calls_charged_per_state(1);
    let found = find_allowed_values(run, scene.model, core, call.number, &wanted, MOST)?;
    run.callbacks.set_extra_calls_charged_per_state(0);
    Ok(found)
}
