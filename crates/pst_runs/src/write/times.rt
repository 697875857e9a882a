//! Times as trees.
ghost use Rattle.std.specs.Prelude.{◌≡◌, ◌∷◌, [], IfOk, IfSome, decimal, map};
ghost use Rattle.pst_runs.specs.ReadAgain.{IsSmall, AreSmallCalls, AreSmallTimes, HasSmallTimes};
ghost use Rattle.pst_runs.specs.Written as spec;
ghost use Rattle.pst_sexpr.specs.declared.form.Form.TheVariants.{Word};

use pst_case::{CallTime, History};
use pst_sexpr::{Form, headed, list_of_one_form, word};
use pst_value::{Items, Text};
use std::alloc::{AllocError, Global};

fn instant_form(alloc: Global, at: u64) -> Result<Form, AllocError>
    ensures { IfOk result (λ form. form ≡ Word (decimal at)) }
{
    Ok(Form::Word(Text::from_string(format!(in alloc; "{at}")?)))
}

fn completion_form(alloc: Global, completed: Option<u64>) -> Result<Form, AllocError>
    ensures { IfOk result (λ form. form ≡ Word (spec.completion_word completed)) }
{
    match completed {
        Some(at) => instant_form(alloc, at),
        None => word(alloc, "-"),
    }
}

fn time_form(alloc: Global, time: &CallTime) -> Result<Form, AllocError>
    ensures { IfOk result (λ form. form ≡ spec.time_form time.now) }
{
    let mut parts = list_of_one_form(alloc, instant_form(alloc, time.invoked)?)?;
    parts.push(completion_form(alloc, time.completed)?)?;
    Ok(Form::Node(parts))
}

/// The times of a branch.
fn times_form(alloc: Global, times: &[CallTime]) -> Result<Form, AllocError>
    ensures { IfOk result (λ form. form ≡ spec.times_form times.now) }
{
    let mut forms = Items::new(alloc);
    for time in times {
        forms.push(time_form(alloc, time)?)?;
    }
    Ok(Form::Node(forms))
}

fn time_list_forms(alloc: Global, branches: &[Items<CallTime>]) -> Result<Items<Form>, AllocError>
    ensures { IfOk result (λ forms. forms ≡ map spec.times_form branches.now) }
{
    let mut forms = Items::new(alloc);
    for times in branches {
        forms.push(times_form(alloc, times.as_slice())?)?;
    }
    Ok(forms)
}

/// Returns the part of a run for its times, if they were recorded.
pub fn times_forms(
    alloc: Global,
    times: &Option<Items<Items<CallTime>>>,
) -> Result<Items<Form>, AllocError>
    ensures { IfOk result (λ forms. forms ≡ spec.times_forms times.now) }
{
    match times {
        Some(times) => {
            let lists = time_list_forms(alloc, times.as_slice())?;
            list_of_one_form(alloc, headed(alloc, "times", lists)?)
        }
        None => Ok(Items::new(alloc)),
    }
}

fn prove_call_is_small(call: CallTime)
    ensures { IsSmall call }
{
    let CallTime {
        invoked: _invoked,
        completed: _completed,
    } = call;
}

fn prove_calls_are_small(calls: &[CallTime])
    ensures { AreSmallCalls calls.now }
{
    let Some((call, calls)) = calls.split_first() else {
        return;
    };
    prove_call_is_small(*call);
    prove_calls_are_small(calls)
}

fn prove_branches_are_small(branches: &[Items<CallTime>])
    ensures { AreSmallTimes branches.now }
{
    let Some((calls, branches)) = branches.split_first() else {
        return;
    };
    prove_calls_are_small(calls.as_slice());
    prove_branches_are_small(branches)
}

/// Proves that the times of a history have at most 64 bits. Allocates nothing.
pub fn prove_times_are_small(history: &Option<History>)
    ensures { IfSome history.now HasSmallTimes }
{
    if let Some(
        History {
            times: Some(times),
            ..
        },
    ) = history
    {
        prove_branches_are_small(times.as_slice());
    }
}
