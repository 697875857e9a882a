//! Commands that break a run: a reply that is not a value, and calls that cannot be where they are beside calls of unknown
//! outcome.

use pst_case::{Reply, Run};
use pst_model::{Source, Typed};
use pst_print::ty_form;
use pst_scene::{
    Call, Scene, add_str, add_tree_spelling, call_numbered, operation_of_call, scene_of_run,
};
use pst_value::{Ty, Value};
use std::alloc::{AllocError, Global};

/// Why a command breaks its run.
#[derive(Drop)]
pub enum BreakingCause<'a> {
    /// Its reply is not a value.
    NoValue,
    /// It was called although this call before it in its part has an unknown outcome.
    AfterUnknown(Call<'a>),
    /// It was called although it uses the result of this command, which has none.
    NeedsResult(Call<'a>),
    /// Its outcome is unknown, and the next state depends on its result.
    ChangesStateByResult,
}

/// A command that breaks its run.
#[derive(Drop)]
pub struct BreakingCall<'a> {
    /// The number of the command.
    pub number: u32,
    /// The command, if there is one with this number.
    pub call: Option<Call<'a>>,
    pub cause: BreakingCause<'a>,
    /// The type of the operation's result.
    pub wanted: Option<&'a Ty>,
}

/// Returns the call of unknown outcome before `call` in its part, if there is one.
fn unknown_call_before<'a>(scene: &Scene<'a>, call: &Call<'_>) -> Option<Call<'a>> {
    for other in &scene.all {
        let is_unknown = matches!(other.reply, Some(Reply::Unknown));
        if is_unknown && other.part == call.part && other.place < call.place {
            return Some(*other);
        }
    }
    None
}

/// Whether one of the values uses the result of command `number`.
fn is_result_used(values: &[Value], number: u32) -> bool {
    for value in values {
        if value.uses(number) {
            return true;
        }
    }
    false
}

/// Returns the first command without a result whose result `call` uses, if there is one.
fn command_of_missing_result<'a>(scene: &Scene<'a>, call: &Call<'_>) -> Option<Call<'a>> {
    for other in &scene.all {
        let has_result = matches!(other.reply, Some(Reply::Value(_)));
        if !has_result && is_result_used(call.command.args.as_slice(), other.number) {
            return Some(*other);
        }
    }
    None
}

/// Returns why `call` breaks its run, which it does.
fn cause_of_breaking_call<'a>(scene: &Scene<'a>, call: &Call<'_>) -> BreakingCause<'a> {
    match call.reply {
        Some(Reply::Value(_) | Reply::Unknown) => {}
        _ => return BreakingCause::NoValue,
    }
    if let Some(other) = unknown_call_before(scene, call) {
        return BreakingCause::AfterUnknown(other);
    }
    match command_of_missing_result(scene, call) {
        Some(other) => BreakingCause::NeedsResult(other),
        None => BreakingCause::ChangesStateByResult,
    }
}

/// Returns command `number`, which breaks its run, and why.
pub fn breaking_call_numbered<'a>(scene: &Scene<'a>, number: u32) -> BreakingCall<'a> {
    let call = call_numbered(scene.all.as_slice(), number);
    let wanted = match &call {
        Some(call) => match operation_of_call(scene, call) {
            Some(operation) => Some(&operation.result),
            None => None,
        },
        None => None,
    };
    let cause = match &call {
        Some(call) => cause_of_breaking_call(scene, call),
        None => BreakingCause::NoValue,
    };
    BreakingCall {
        number,
        call,
        cause,
        wanted,
    }
}

/// Returns what the reply says about a command.
fn verb_phrase_on_reply(reply: &Reply) -> &'static str {
    match reply {
        Reply::Value(_) => "has a value",
        Reply::Misfit => "has the reply misfit: it answered something other than",
        Reply::Failed =>
            "has the reply failed: it failed, or its answer is not a value, instead of",
        Reply::NotRun => "has the reply not-run: it was not called, and did not answer",
        Reply::Unknown =>
            "has the reply unknown: nobody knows whether it took effect, and it did not answer",
    }
}

/// Adds to the text of a command that its reply is not a value, and the expected type, if it is known.
fn add_reply_and_wanted_type(
    text: &mut Vec<u8>,
    alloc: Global,
    reply: &Reply,
    wanted: Option<&Ty>,
) -> Result<(), AllocError> {
    add_str(text, " ")?;
    add_str(text, verb_phrase_on_reply(reply))?;
    if let Some(wanted) = wanted {
        add_str(text, " a value of type ")?;
        add_tree_spelling(text, &ty_form(alloc, wanted)?)?;
    }
    Ok(())
}

/// Adds `before` and the text of a command.
fn add_call_text_after(
    text: &mut Vec<u8>,
    alloc: Global,
    model: &Source,
    before: &str,
    call: &Call<'_>,
) -> Result<(), AllocError> {
    add_str(text, before)?;
    let call = call.text(alloc, model)?;
    text.extend_from_slice(call.as_slice())
}

/// Adds to the text of a command why it breaks its run. Its reply is `reply`.
fn add_breaking_cause(
    text: &mut Vec<u8>,
    alloc: Global,
    model: &Source,
    broken: &BreakingCall<'_>,
    reply: &Reply,
) -> Result<(), AllocError> {
    match &broken.cause {
        BreakingCause::NoValue => add_reply_and_wanted_type(text, alloc, reply, broken.wanted),
        BreakingCause::AfterUnknown(other) => {
            add_call_text_after(text, alloc, model, " was called after ", other)?;
            add_str(
                text,
                ", whose outcome is unknown: the commands after it in its part are not-run",
            )
        }
        BreakingCause::NeedsResult(other) => {
            add_call_text_after(text, alloc, model, " uses the result of ", other)?;
            add_str(text, ", which has none: it cannot have been called")
        }
        BreakingCause::ChangesStateByResult => add_str(
            text,
            " has the reply unknown, but `next` of its operation uses `r`: nobody knows the state after it",
        ),
    }
}

/// Returns a sentence that says why a command breaks its run. `None` if there is no reply.
pub fn breaking_call_sentence(
    alloc: Global,
    model: &Source,
    broken: &BreakingCall<'_>,
) -> Result<Option<Vec<u8>>, AllocError> {
    let Some(call) = &broken.call else {
        return Ok(None);
    };
    let Some(reply) = call.reply else {
        return Ok(None);
    };
    let mut text = call.text(alloc, model)?;
    add_breaking_cause(&mut text, alloc, model, broken, reply)?;
    Ok(Some(text))
}

/// Returns a sentence that says why command `number` makes a recorded run broken. `None` if the run has no such command
/// or no reply to it.
///
/// `P1 (inc) has the reply failed: it failed, or its answer is not a value, instead of a value of type int` is an
/// example.
pub fn breaking_call_sentence_of_run(
    alloc: Global,
    typed: &Typed,
    run: &Run,
    number: u32,
) -> Result<Option<Vec<u8>>, AllocError> {
    let scene = scene_of_run(alloc, typed, run)?;
    breaking_call_sentence(alloc, scene.model, &breaking_call_numbered(&scene, number))
}
