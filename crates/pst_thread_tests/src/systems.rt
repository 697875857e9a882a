//! Calls of the sample systems.

use pst_samples::{Counter, Flags, Meet, Pair, Queue, Racy, Registry, Side, Stuck};
use pst_system::{BoxedSystem, RealCall, call_boxed_system, reset_boxed_system};
use pst_value::{Items, Text, Value};
use std::alloc::{AllocError, Global};
use std::sync::Arc;
use std::test::Fail;

/// The call of that name with integers as arguments.
fn real_call_with_integer_arguments(
    alloc: Global,
    name: &str,
    numbers: &[i64],
) -> Result<RealCall, AllocError> {
    let name = Text::from_string(String::from_str(alloc, name)?);
    let mut args = Items::new(alloc);
    for number in numbers {
        args.push(Value::Int(*number))?;
    }
    Ok(RealCall { op: 0, name, args })
}

/// The system's answer to the call of that name with integers as arguments, after a space.
fn answer_to_call(
    alloc: Global,
    system: &BoxedSystem,
    name: &str,
    numbers: &[i64],
) -> Result<String, AllocError> {
    let call = real_call_with_integer_arguments(alloc, name, numbers)?;
    let answer = call_boxed_system(system, 0, &call);
    format!(in alloc; " {answer:?}")
}

/// The system's answers to the calls in order, each after a space.
fn answers_to_calls(
    alloc: Global,
    system: &BoxedSystem,
    calls: &[(&str, &[i64])],
) -> Result<String, AllocError> {
    let mut text = String::new(alloc);
    for (name, numbers) in calls {
        text.push_str(answer_to_call(alloc, system, name, numbers)?.as_str())?;
    }
    Ok(text)
}

#[test]
fn a_counter_counts(rt: HostRuntime) -> Result<(), Fail> {
    let alloc = rt.alloc();
    let counter: BoxedSystem = Box::new(alloc, Counter::new(rt))?;
    let text = answers_to_calls(
        alloc,
        &counter,
        &[("inc", &[]), ("get", &[]), ("get", &[1])],
    )?;
    assert_eq!(rt; text.as_str(), " Ok(Int(1)) Ok(Int(1)) Err(Refused)");
    Ok(())
}

#[test]
fn a_racy_counter_is_reset(rt: HostRuntime) -> Result<(), Fail> {
    let alloc = rt.alloc();
    let mut racy: BoxedSystem = Box::new(alloc, Racy::new())?;
    let before = answers_to_calls(alloc, &racy, &[("inc", &[])])?;
    let reset = reset_boxed_system(&mut racy);
    let after = answers_to_calls(alloc, &racy, &[("get", &[])])?;
    let all = format!(in alloc; "{before} {reset:?}{after}")?;
    assert_eq!(rt; all.as_str(), " Ok(Int(1)) Ok(()) Ok(Int(0))");
    Ok(())
}

#[test]
fn a_stuck_counter_answers_zero(rt: HostRuntime) -> Result<(), Fail> {
    let alloc = rt.alloc();
    let stuck: BoxedSystem = Box::new(alloc, Stuck)?;
    let text = answers_to_calls(alloc, &stuck, &[("inc", &[])])?;
    assert_eq!(rt; text.as_str(), " Ok(Int(0))");
    Ok(())
}

#[test]
fn a_registry_opens_and_closes(rt: HostRuntime) -> Result<(), Fail> {
    let alloc = rt.alloc();
    let registry: BoxedSystem = Box::new(alloc, Registry::new(rt, alloc))?;
    let calls = [
        ("new", [].as_slice()),
        ("new", &[]),
        ("close", &[1]),
        ("close", &[1]),
        ("read", &[0]),
        ("read", &[1]),
    ];
    let text = answers_to_calls(alloc, &registry, &calls)?;
    let wanted = " Ok(Int(0)) Ok(Int(1)) Ok(Bool(true)) Ok(Bool(false)) Ok(Int(0)) Ok(Int(-1))";
    assert_eq!(rt; text.as_str(), wanted);
    Ok(())
}

#[test]
fn a_queue_keeps_its_order(rt: HostRuntime) -> Result<(), Fail> {
    let alloc = rt.alloc();
    let queue: BoxedSystem = Box::new(alloc, Queue::new(rt, alloc))?;
    let text = answers_to_calls(
        alloc,
        &queue,
        &[("put", &[5]), ("put", &[6]), ("take", &[])],
    )?;
    let wanted = " Ok(Bool(true)) Ok(Bool(true)) Ok(List(Items { items: [Int(5)] }))";
    assert_eq!(rt; text.as_str(), wanted);
    Ok(())
}

/// How many of `count` calls of `put` a system refuses.
fn put_items_and_count_refusals(
    alloc: Global,
    system: &BoxedSystem,
    count: u32,
) -> Result<u32, AllocError> {
    let call = real_call_with_integer_arguments(alloc, "put", &[1])?;
    let mut refused: u32 = 0;
    for _ in 0..count {
        if call_boxed_system(system, 0, &call).is_err() {
            refused = refused.saturating_add(1);
        }
    }
    Ok(refused)
}

#[test]
fn a_full_queue_refuses_items(rt: HostRuntime) -> Result<(), Fail> {
    let alloc = rt.alloc();
    let queue: BoxedSystem = Box::new(alloc, Queue::new(rt, alloc))?;
    assert_eq!(rt; put_items_and_count_refusals(alloc, &queue, 1024)?, 0);
    assert_eq!(rt; put_items_and_count_refusals(alloc, &queue, 2)?, 2);
    Ok(())
}

#[test]
fn an_unknown_flag_is_refused(rt: HostRuntime) -> Result<(), Fail> {
    let alloc = rt.alloc();
    let meet: BoxedSystem = Box::new(alloc, Meet::new())?;
    let text = answers_to_calls(alloc, &meet, &[("meet", &[3])])?;
    assert_eq!(rt; text.as_str(), " Err(Refused)");
    Ok(())
}

#[test]
fn a_second_caller_meets_the_first(rt: HostRuntime) -> Result<(), Fail> {
    let alloc = rt.alloc();
    let flags = Arc::new(alloc, Flags::new())?;
    let pair: BoxedSystem = Box::new(alloc, Pair::new(Side::Second, flags.clone()?))?;
    let alone = flags.meet(Side::First);
    let text = answers_to_calls(alloc, &pair, &[("meet", &[1])])?;
    let all = format!(in alloc; "{alone}{text}")?;
    assert_eq!(rt; all.as_str(), "false Ok(Bool(true))");
    Ok(())
}
