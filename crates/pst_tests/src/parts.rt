//! The parts of a well-typed model, and its calls.

use crate::support::{COUNTER, REGISTRY, typed_model_of_text};
use pst_eval::{Callbacks, Plain};
use pst_model::Typed;
use pst_typing::{model_name, operation_name, operation_parameters, operation_result};
use pst_value::Value;
use std::alloc::{AllocError, Global};
use std::test::Fail;

/// The operation `number`: its name, how many parameters it has, and its result type.
fn operation_name_parameter_count_and_result(
    alloc: Global,
    typed: &Typed,
    number: u32,
) -> Result<String, AllocError> {
    let Some(name) = operation_name(typed, number) else {
        return String::from_str(alloc, "none");
    };
    let Some(parameters) = operation_parameters(typed, number) else {
        return String::from_str(alloc, "no parameters");
    };
    let Some(ty) = operation_result(typed, number) else {
        return String::from_str(alloc, "no result");
    };
    let name = name.as_str();
    let count = parameters.len();
    format!(in alloc; "{name} {count} {ty:?}")
}

#[test]
fn registry_operations_have_expected_parts(rt: HostRuntime) -> Result<(), Fail> {
    let alloc = rt.alloc();
    let typed = typed_model_of_text(alloc, REGISTRY).ok_or("no model")?;
    assert_eq!(rt; model_name(&typed).as_str(), "registry");
    let rows: [(u32, &str); 4] = [
        (0, "new 0 Int"),
        (1, "close 1 Bool"),
        (2, "read 1 Int"),
        (3, "none"),
    ];
    for (number, want) in rows {
        assert_eq!(rt;
            operation_name_parameter_count_and_result(alloc, &typed, number)?.as_str(),
            want
        );
    }
    Ok(())
}

/// How many items a list has, and the turns left.
fn item_count_and_turns(alloc: Global, list: &Value, turns: u32) -> Result<String, AllocError> {
    let Value::List(items) = list else {
        return String::from_str(alloc, "no list");
    };
    let count = items.len();
    format!(in alloc; "{count} {turns}")
}

/// How many calls are listed in the initial state, and the turns left.
fn initial_call_count_turns_or_fault(alloc: Global, typed: &Typed) -> Result<String, AllocError> {
    let plain = Plain::new(typed);
    let (state, _) = match plain.init(alloc)? {
        Ok(opening) => opening,
        Err(fault) => return String::from_str(alloc, fault.name()),
    };
    let (calls, turns) = match plain.command(alloc, &state)? {
        Ok(listed) => listed,
        Err(fault) => return String::from_str(alloc, fault.name()),
    };
    item_count_and_turns(alloc, &calls, turns)
}

#[test]
fn the_counter_lists_two_calls(rt: HostRuntime) -> Result<(), Fail> {
    let alloc = rt.alloc();
    let typed = typed_model_of_text(alloc, COUNTER).ok_or("no model")?;
    assert_eq!(rt;
        initial_call_count_turns_or_fault(alloc, &typed)?.as_str(),
        "2 1000000"
    );
    Ok(())
}
