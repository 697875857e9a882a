//! Runs of functions by hand.

use crate::codes::functions::{
    code_that_copies_a_list, code_that_divides_by_zero, code_that_gets_last_put_value,
    code_that_gets_missing_key, code_that_returns_keys_after_deletion,
    code_that_returns_unwritten_register, code_that_sums_a_list,
};
use pst_machine::{Code, FunCode, Outcome};
use pst_value::{Items, Value};
use std::alloc::{AllocError, Global};
use std::test::Fail;

/// The first function's outcome, or `None` if the code is refused.
fn run_first_function_if_valid(
    alloc: Global,
    functions: Items<FunCode>,
    args: Items<Value>,
    turns: u32,
) -> Result<Option<Outcome>, AllocError> {
    let Ok(code) = Code::check(functions) else {
        return Ok(None);
    };
    if code.functions().is_empty() {
        return Ok(None);
    }
    Ok(Some(code.run(alloc, 0, args, turns)?))
}

/// One list as the arguments.
fn integer_list_as_only_argument(alloc: Global, items: &[i64]) -> Result<Items<Value>, AllocError> {
    let mut list = Items::new(alloc);
    for item in items {
        list.push(Value::Int(*item))?;
    }
    let mut args = Items::new(alloc);
    args.push(Value::List(list))?;
    Ok(args)
}

/// The first function's outcome on integers in a list, as text; `refused` if the code is.
fn outcome_or_refusal_text_on_list(
    alloc: Global,
    functions: Items<FunCode>,
    items: &[i64],
    turns: u32,
) -> Result<String, AllocError> {
    match run_first_function_if_valid(
        alloc,
        functions,
        integer_list_as_only_argument(alloc, items)?,
        turns,
    )? {
        Some(outcome) => format!(in alloc; "{outcome:?}"),
        None => String::from_str(alloc, "refused"),
    }
}

/// The first function's outcome without arguments or turns, as text; `refused` if the code is.
fn outcome_or_refusal_text_without_arguments(
    alloc: Global,
    functions: Items<FunCode>,
) -> Result<String, AllocError> {
    match run_first_function_if_valid(alloc, functions, Items::new(alloc), 0)? {
        Some(outcome) => format!(in alloc; "{outcome:?}"),
        None => String::from_str(alloc, "refused"),
    }
}

#[test]
fn the_sum_of_three_takes_three_turns(rt: HostRuntime) -> Result<(), Fail> {
    let alloc = rt.alloc();
    let shown = outcome_or_refusal_text_on_list(
        alloc,
        code_that_sums_a_list(alloc)?,
        &[4, 5, 6],
        3,
    )?;
    assert_eq!(rt; shown.as_str(), "Value(Int(15), 0)");
    Ok(())
}

#[test]
fn summing_three_faults_after_two_turns(rt: HostRuntime) -> Result<(), Fail> {
    let alloc = rt.alloc();
    let shown = outcome_or_refusal_text_on_list(
        alloc,
        code_that_sums_a_list(alloc)?,
        &[4, 5, 6],
        2,
    )?;
    assert_eq!(rt; shown.as_str(), "Fault(Turns)");
    Ok(())
}

#[test]
fn a_division_by_zero_faults(rt: HostRuntime) -> Result<(), Fail> {
    let shown = outcome_or_refusal_text_without_arguments(
        rt.alloc(),
        code_that_divides_by_zero(rt.alloc())?,
    )?;
    assert_eq!(rt; shown.as_str(), "Fault(DivZero)");
    Ok(())
}

#[test]
fn reading_an_unwritten_register_is_stuck(rt: HostRuntime) -> Result<(), Fail> {
    let shown = outcome_or_refusal_text_without_arguments(
        rt.alloc(),
        code_that_returns_unwritten_register(rt.alloc())?,
    )?;
    assert_eq!(rt; shown.as_str(), "Stuck");
    Ok(())
}

#[test]
fn a_wrong_argument_count_is_stuck(rt: HostRuntime) -> Result<(), Fail> {
    let shown = outcome_or_refusal_text_without_arguments(
        rt.alloc(),
        code_that_sums_a_list(rt.alloc())?,
    )?;
    assert_eq!(rt; shown.as_str(), "Stuck");
    Ok(())
}

#[test]
fn appending_keeps_the_order(rt: HostRuntime) -> Result<(), Fail> {
    let alloc = rt.alloc();
    let shown = outcome_or_refusal_text_on_list(
        alloc,
        code_that_copies_a_list(alloc)?,
        &[4, 5, 6],
        3,
    )?;
    let wanted = "Value(List(Items { items: [Int(4), Int(5), Int(6)] }), 0)";
    assert_eq!(rt; shown.as_str(), wanted);
    Ok(())
}

#[test]
fn a_long_list_is_summed(rt: HostRuntime) -> Result<(), Fail> {
    let alloc = rt.alloc();
    let shown = outcome_or_refusal_text_on_list(
        alloc,
        code_that_sums_a_list(alloc)?,
        &[1; 60000],
        100000,
    )?;
    assert_eq!(rt; shown.as_str(), "Value(Int(60000), 40000)");
    Ok(())
}

/// How many items a list has that is the outcome, and how many turns are left.
fn list_length_and_turns_left(outcome: &Option<Outcome>) -> Option<(usize, u32)> {
    match outcome {
        Some(Outcome::Value(Value::List(items), turns)) => Some((items.len(), *turns)),
        _ => None,
    }
}

#[test]
fn a_long_list_is_copied(rt: HostRuntime) -> Result<(), Fail> {
    let alloc = rt.alloc();
    let ones = integer_list_as_only_argument(alloc, &[1; 60000])?;
    let outcome = run_first_function_if_valid(
        alloc,
        code_that_copies_a_list(alloc)?,
        ones,
        100000,
    )?;
    assert!(rt; list_length_and_turns_left(&outcome) == Some((60000, 40000)));
    Ok(())
}

#[test]
fn map_keys_left_after_deletion_rise(rt: HostRuntime) -> Result<(), Fail> {
    let shown = outcome_or_refusal_text_without_arguments(
        rt.alloc(),
        code_that_returns_keys_after_deletion(rt.alloc())?,
    )?;
    assert_eq!(rt;
        shown.as_str(),
        "Value(List(Items { items: [Int(3), Int(5)] }), 0)"
    );
    Ok(())
}

#[test]
fn a_key_has_what_was_put_there_last(rt: HostRuntime) -> Result<(), Fail> {
    let shown = outcome_or_refusal_text_without_arguments(
        rt.alloc(),
        code_that_gets_last_put_value(rt.alloc())?,
    )?;
    assert_eq!(rt; shown.as_str(), "Value(Int(8), 0)");
    Ok(())
}

#[test]
fn a_key_that_is_missing_faults(rt: HostRuntime) -> Result<(), Fail> {
    let shown = outcome_or_refusal_text_without_arguments(
        rt.alloc(),
        code_that_gets_missing_key(rt.alloc())?,
    )?;
    assert_eq!(rt; shown.as_str(), "Fault(Missing)");
    Ok(())
}
