//! Values: the collections that hold them, the variables that they use, and values with new numbers.

use pst_case::renumber_value;
use pst_value::{Boxed, Items, Key, Text, Value};
use std::alloc::{AllocError, Global};
use std::test::Fail;

/// What operations return for items on their way from a slice to a `Vec`.
fn results_of_items_operations(alloc: Global) -> Result<String, AllocError> {
    let mut items = Items::from_slice(alloc, &[1u8, 2])?;
    items.push(3)?;
    items.set(0, 9);
    let seen = (items.len(), items.is_empty(), items.get(0).copied());
    let last = items.pop();
    items.append(Items::from_slice(alloc, &[4])?)?;
    let all = items.into_vec();
    format!(in alloc; "{seen:?} {last:?} {all:?}")
}

#[test]
fn items_operations_act_like_a_vec(rt: HostRuntime) -> Result<(), Fail> {
    let text = results_of_items_operations(rt.alloc())?;
    assert_eq!(rt; text.as_str(), "(3, false, Some(9)) Some(3) [9, 2, 4]");
    Ok(())
}

#[test]
fn items_compare_by_their_elements(rt: HostRuntime) -> Result<(), Fail> {
    let alloc = rt.alloc();
    let one = Items::from_slice(alloc, &[1u8, 2])?;
    let same = Items::from_vec(vec![in alloc; 1u8, 2]?);
    let shorter = Items::from_slice(alloc, &[1u8])?;
    let are_equal = (one == same, one == shorter, Items::new(alloc) == shorter);
    assert!(rt; are_equal == (true, false, false));
    Ok(())
}

#[test]
fn a_box_holds_its_value(rt: HostRuntime) -> Result<(), Fail> {
    let alloc = rt.alloc();
    let boxed = Boxed::new(alloc, 7u8)?;
    let is_same = boxed == Boxed::from_box(Box::new(alloc, 7u8)?);
    assert!(rt; is_same && *boxed.get() == 7 && boxed.into_inner() == 7);
    Ok(())
}

/// What operations return for a text, for a copy of it, and for the same text made byte by byte.
fn results_of_text_operations(alloc: Global, text: &Text) -> Result<String, AllocError> {
    let copy = text.copy(alloc)?;
    let mut pushed = Text::new(alloc);
    let was_empty = pushed.is_empty();
    pushed.push(b'a')?;
    pushed.push(b'b')?;
    let are_equal = (copy == *text, pushed == *text);
    let length = text.len();
    let string = copy.into_string();
    format!(in alloc; "{was_empty} {are_equal:?} {length} {string}")
}

#[test]
fn a_text_holds_its_bytes(rt: HostRuntime) -> Result<(), Fail> {
    let text = Text::from_string(String::from_str(rt.alloc(), "ab")?);
    let asked = results_of_text_operations(rt.alloc(), &text)?;
    assert_eq!(rt; asked.as_str(), "true (true, true) 2 ab");
    Ok(())
}

/// A value holds its own variable and no other.
#[test]
fn a_variable_uses_only_itself(rt: HostRuntime) {
    let variable = Value::Var(3);
    assert!(rt; variable.uses(3));
    assert!(rt; !variable.uses(2));
}

/// A variable as the only item.
fn variable_as_only_item(alloc: Global, number: u32) -> Result<Items<Value>, AllocError> {
    let mut items = Items::new(alloc);
    items.push(Value::Var(number))?;
    Ok(items)
}

/// The keys 1 and 2.
fn keys_one_and_two(alloc: Global) -> Result<Items<Key>, AllocError> {
    let mut keys = Items::new(alloc);
    keys.push(Key::Int(1))?;
    keys.push(Key::Int(2))?;
    Ok(keys)
}

/// A map of a variable, and of a list of a variable, by the keys 1 and 2.
fn map_with_two_variables(alloc: Global, first: u32, second: u32) -> Result<Value, AllocError> {
    let mut values = variable_as_only_item(alloc, first)?;
    values.push(Value::List(variable_as_only_item(alloc, second)?))?;
    let values = Boxed::new(alloc, values)?;
    Ok(Value::Map(Boxed::new(alloc, keys_one_and_two(alloc)?)?, values))
}

/// A variable, a reference to a variable, a call with a variable, a map, and a variable of no command.
fn list_with_four_variables(alloc: Global, numbers: [u32; 4]) -> Result<Value, AllocError> {
    let [first, second, third, fourth] = numbers;
    let mut parts = variable_as_only_item(alloc, first)?;
    parts.push(Value::Ref(second, Boxed::new(alloc, Value::Var(first))?))?;
    parts.push(Value::Call(0, variable_as_only_item(alloc, third)?))?;
    parts.push(map_with_two_variables(alloc, second, third)?)?;
    parts.push(Value::Var(fourth))?;
    Ok(Value::List(parts))
}

/// Whether such a list, renumbered by the new numbers of commands 1, 2 and so on, is the list of the wanted numbers.
fn is_list_renumbered_as_wanted(
    alloc: Global,
    numbers: [u32; 4],
    new_numbers: &[u32],
    wanted: [u32; 4],
) -> Result<bool, AllocError> {
    let value = list_with_four_variables(alloc, numbers)?;
    let new = renumber_value(alloc, &value, new_numbers)?;
    Ok(new == list_with_four_variables(alloc, wanted)?)
}

#[test]
fn variables_are_renumbered_at_every_depth(rt: HostRuntime) -> Result<(), Fail> {
    let alloc = rt.alloc();
    assert!(rt; is_list_renumbered_as_wanted(alloc, [1, 2, 3, 9], &[3, 1, 2], [3, 1, 2, 9])?);
    assert!(rt; is_list_renumbered_as_wanted(alloc, [3, 1, 2, 9], &[], [3, 1, 2, 9])?);
    Ok(())
}
