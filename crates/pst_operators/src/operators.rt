//! Operators of one operand and operators of two operands.
ghost use Rattle.std.specs.Prelude.{◌≡◌, pos, ◌+ℤ◌, ◌-ℤ◌, ◌*ℤ◌, int_div, int_rem, IfOk, MatchOption};
ghost use Rattle.pst_operators.specs.Operators as spec;
ghost use Rattle.pst_operators.specs.Outcome.{turn, Gives};
ghost use Rattle.pst_operators.specs.Answers.{Answers, Meets};
ghost use Rattle.pst_value.specs.declared.value.Value.TheOpen.{Value-F};

use crate::lists::{joined_lists, nth, range};
use crate::maps::{del, get, has, keys_as_values, value_as_key};
use crate::stop::Stop;
use pst_model::{Binary, Unary};
use pst_value::{Boxed, Fault, Items, LIMIT, Text, Value, copy_keys, text_less};
use std::alloc::{AllocError, Global};

/// Takes one of the turns that are left. Faults with `Turns` if none is left.
pub fn take_turn(turns: &mut u32) -> Result<(), Stop>
    ensures { Meets (turn turns.old) result turns.new }
{
    if *turns == 0 {
        return Err(Stop::Fault(Fault::Turns));
    }
    *turns -= 1;
    Ok(())
}

/// The bool that a value is, or `Stuck` if it is none.
pub fn truth_of(value: &Value) -> Result<bool, Stop>
    ensures { Answers (spec.truth_of value.now) result }
{
    match value {
        Value::Bool(truth) => Ok(*truth),
        _ => Err(Stop::Stuck),
    }
}

/// How many there are, as an integer.
fn length_as_value(length: usize) -> Result<Value, Stop>
    ensures { Answers (spec.integer (pos length)) result }
{
    match i64::try_from(length) {
        Ok(count) => Ok(Value::Int(count)),
        Err(_) => Err(Stop::Fault(Fault::Overflow)),
    }
}

/// What an operator gives of its operand.
pub fn apply_unary_operator(alloc: Global, operator: Unary, operand: &Value) -> Result<Value, Stop>
    ensures { Answers (spec.unary operator operand.now) result }
{
    match (operator, operand) {
        (Unary::Not, Value::Bool(truth)) => Ok(Value::Bool(!*truth)),
        (Unary::Len, Value::Text(text)) => length_as_value(text.len()),
        (Unary::Len, Value::List(items)) => length_as_value(items.len()),
        (Unary::Keys, Value::Map(keys, _)) => {
            Ok(Value::List(keys_as_values(alloc, keys.get().as_slice())?))
        }
        (Unary::Deref, Value::Ref(_, value)) => Ok(value.get().copy(alloc)?),
        _ => Err(Stop::Stuck),
    }
}

/// An item of a tuple, by its place from 1.
pub fn item(alloc: Global, place: u64, value: &Value) -> Result<Value, Stop>
    ensures { Answers (spec.item place value.now) result }
{
    let Value::Tuple(items) = value else {
        return Err(Stop::Stuck);
    };
    if place == 0 {
        return Err(Stop::Stuck);
    }
    match items.get(place as usize - 1) {
        Some(item) => Ok(item.copy(alloc)?),
        None => Err(Stop::Stuck),
    }
}

fn add(m: i64, n: i64) -> Result<Value, Stop>
    ensures { Answers (spec.integer (m +ℤ n)) result }
{
    match m.checked_add(n) {
        Some(sum) => Ok(Value::Int(sum)),
        None => Err(Stop::Fault(Fault::Overflow)),
    }
}

fn subtract(m: i64, n: i64) -> Result<Value, Stop>
    ensures { Answers (spec.integer (m -ℤ n)) result }
{
    match m.checked_sub(n) {
        Some(difference) => Ok(Value::Int(difference)),
        None => Err(Stop::Fault(Fault::Overflow)),
    }
}

fn multiply(m: i64, n: i64) -> Result<Value, Stop>
    ensures { Answers (spec.integer (m *ℤ n)) result }
{
    match m.checked_mul(n) {
        Some(product) => Ok(Value::Int(product)),
        None => Err(Stop::Fault(Fault::Overflow)),
    }
}

/// Divides, rounding towards zero. Faults with `DivZero` if `n` is 0, and with `Overflow` for the least integer by -1.
fn divide(m: i64, n: i64) -> Result<Value, Stop>
    ensures { Answers (spec.divided n (spec.integer (int_div m n))) result }
{
    if n == 0 {
        return Err(Stop::Fault(Fault::DivZero));
    }
    match m.checked_div(n) {
        Some(quotient) => Ok(Value::Int(quotient)),
        None => Err(Stop::Fault(Fault::Overflow)),
    }
}

/// The quotient, rounded towards zero. `None` if `n` is 0 or the quotient is no integer of 64 bits.
fn checked_quotient(m: i64, n: i64) -> Option<i64>
    ensures { MatchOption result (Unit {0})
        (λ k. spec.divided n (spec.integer (int_div m n)) ≡ Gives (spec.int k)) }
{
    if n == 0 {
        return None;
    }
    m.checked_div(n)
}

/// The remainder, with the sign of `m`. `None` if `n` is 0.
fn checked_remainder(m: i64, n: i64) -> Option<i64>
    ensures { MatchOption result (Unit {0})
        (λ k. spec.divided n (Gives (spec.int (int_rem m n))) ≡ Gives (spec.int k)) }
{
    if n == 0 {
        return None;
    }
    Some(m.wrapping_rem(n))
}

/// The remainder, with the sign of `m`. Faults with `DivZero` if `n` is 0.
fn remainder(m: i64, n: i64) -> Result<Value, Stop>
    ensures { Answers (spec.divided n (Gives (spec.int (int_rem m n)))) result }
{
    if n == 0 {
        return Err(Stop::Fault(Fault::DivZero));
    }
    Ok(Value::Int(m.wrapping_rem(n)))
}

/// Both texts, one after the other. Faults with TooLong over 65,536 bytes.
fn joined_texts(alloc: Global, left: &Text, right: &Text) -> Result<Value, Stop>
    ensures { Answers (spec.joined_texts left.now right.now) result }
{
    if left.len() > LIMIT || right.len() > LIMIT - left.len() {
        return Err(Stop::Fault(Fault::TooLong));
    }
    let mut all = String::from_str(alloc, left.as_str())?;
    all.push_str(right.as_str())?;
    Ok(Value::Text(Text::from_string(all)))
}

fn command_number_of_value(value: &Value) -> Option<u32>
    ensures { result ≡ spec.number_of value.now }
{
    match value {
        Value::Var(number) => Some(*number),
        Value::Ref(number, _) => Some(*number),
        _ => None,
    }
}

fn have_same_command_number(left: &Value, right: &Value) -> Result<Value, Stop>
    ensures { Answers (spec.same_number (spec.number_of left.now) (spec.number_of right.now)) result }
{
    match (
        command_number_of_value(left),
        command_number_of_value(right),
    ) {
        (Some(m), Some(n)) => Ok(Value::Bool(m == n)),
        _ => Err(Stop::Stuck),
    }
}

/// The integer that an operator gives of two integers.
fn integer_result_of_integers(operator: Binary, m: i64, n: i64) -> Option<i64>
    ensures { MatchOption result (Unit {0})
        (λ k. spec.binary_at operator (Value-F.Int m) (Value-F.Int n) ≡ Gives (spec.int k)) }
{
    match operator {
        Binary::Add => m.checked_add(n),
        Binary::Sub => m.checked_sub(n),
        Binary::Mul => m.checked_mul(n),
        Binary::Div => checked_quotient(m, n),
        Binary::Rem => checked_remainder(m, n),
        _ => None,
    }
}

/// The result of `Less` or `LessEqual` for two integers, or `None` for other operators.
fn bool_result_of_integers(operator: Binary, m: i64, n: i64) -> Option<bool>
    ensures { MatchOption result (Unit {0})
        (λ truth. spec.binary_at operator (Value-F.Int m) (Value-F.Int n) ≡ Gives (spec.bool truth)) }
{
    match operator {
        Binary::Less => Some(m < n),
        Binary::LessEqual => Some(m <= n),
        _ => None,
    }
}

/// The integer that an operator gives of its operands.
pub fn integer_result_of_operands(operator: Binary, left: &Value, right: &Value) -> Option<i64>
    ensures { MatchOption result (Unit {0})
        (λ k. spec.binary operator left.now right.now ≡ Gives (spec.int k)) }
{
    match (operator, left, right) {
        (Binary::Equal | Binary::Same, _, _) => None,
        (_, Value::Int(m), Value::Int(n)) => integer_result_of_integers(operator, *m, *n),
        _ => None,
    }
}

/// The bool that a comparison gives of its operands, or `None` for other operators or operands.
pub fn bool_result_of_operands(operator: Binary, left: &Value, right: &Value) -> Option<bool>
    ensures { MatchOption result (Unit {0})
        (λ truth. spec.binary operator left.now right.now ≡ Gives (spec.bool truth)) }
{
    match (operator, left, right) {
        (Binary::Equal, _, _) => Some(*left == *right),
        (Binary::Same, _, _) => None,
        (_, Value::Int(m), Value::Int(n)) => bool_result_of_integers(operator, *m, *n),
        _ => None,
    }
}

/// What an operator gives of two integers.
fn apply_binary_to_integers(alloc: Global, operator: Binary, m: i64, n: i64) -> Result<Value, Stop>
    ensures { Answers (spec.binary_at operator (Value-F.Int m) (Value-F.Int n)) result }
{
    match operator {
        Binary::Add => add(m, n),
        Binary::Sub => subtract(m, n),
        Binary::Mul => multiply(m, n),
        Binary::Div => divide(m, n),
        Binary::Rem => remainder(m, n),
        Binary::Less => Ok(Value::Bool(m < n)),
        Binary::LessEqual => Ok(Value::Bool(m <= n)),
        Binary::Range => range(alloc, m, n),
        _ => Err(Stop::Stuck),
    }
}

/// What an operator gives of two texts.
fn apply_binary_to_texts(
    alloc: Global,
    operator: Binary,
    left: &Text,
    right: &Text,
) -> Result<Value, Stop>
    ensures { Answers (spec.binary_at operator (Value-F.Text left.now) (Value-F.Text right.now)) result }
{
    match operator {
        Binary::Less => Ok(Value::Bool(text_less(left.as_bytes(), right.as_bytes()))),
        Binary::LessEqual => Ok(Value::Bool(!text_less(right.as_bytes(), left.as_bytes()))),
        Binary::Append => joined_texts(alloc, left, right),
        _ => Err(Stop::Stuck),
    }
}

/// What an operator gives of its operands.
pub fn apply_binary_operator(
    alloc: Global,
    operator: Binary,
    left: &Value,
    right: &Value,
) -> Result<Value, Stop>
    ensures { Answers (spec.binary operator left.now right.now) result }
{
    match (operator, left, right) {
        (Binary::Equal, _, _) => Ok(Value::Bool(*left == *right)),
        (Binary::Same, _, _) => have_same_command_number(left, right),
        (_, Value::Int(m), Value::Int(n)) => apply_binary_to_integers(alloc, operator, *m, *n),
        (_, Value::Text(s), Value::Text(t)) => apply_binary_to_texts(alloc, operator, s, t),
        (Binary::Nth, Value::List(items), Value::Int(n)) => nth(alloc, items.as_slice(), *n),
        (Binary::Append, Value::List(items), Value::List(more)) => {
            joined_lists(
                copy_of_values_with_room(alloc, items.as_slice(), more.len())?,
                copy_of_values(alloc, more.as_slice())?,
            )
        }
        (Binary::Get, Value::Map(keys, values), _) => {
            get(
                alloc,
                keys.get().as_slice(),
                values.get().as_slice(),
                &value_as_key(alloc, right)?,
            )
        }
        (Binary::Has, Value::Map(keys, _), _) => {
            Ok(Value::Bool(has(keys.get().as_slice(), &value_as_key(alloc, right)?)))
        }
        (Binary::Del, Value::Map(keys, values), _) => {
            let key = value_as_key(alloc, right)?;
            let keys = Boxed::new(alloc, copy_keys(keys.get().as_slice(), alloc)?)?;
            let values = Boxed::new(alloc, copy_of_values(alloc, values.get().as_slice())?)?;
            Ok(del(keys, values, &key))
        }
        _ => Err(Stop::Stuck),
    }
}

/// Does what `apply_binary_operator` does, with operands that are not used again: `++` of lists moves their items, and `del`
/// changes its map.
pub fn apply_binary_operator_to_owned(
    alloc: Global,
    operator: Binary,
    left: Value,
    right: Value,
) -> Result<Value, Stop>
    ensures { Answers (spec.binary operator left right) result }
{
    match (operator, left, right) {
        (Binary::Append, Value::List(items), Value::List(more)) => joined_lists(items, more),
        (Binary::Del, Value::Map(keys, values), right) => {
            let key = value_as_key(alloc, &right)?;
            Ok(del(keys, values, &key))
        }
        (operator, left, right) => apply_binary_operator(alloc, operator, &left, &right),
    }
}

/// Copies items, with capacity for `room` more.
fn copy_of_values_with_room(
    alloc: Global,
    items: &[Value],
    room: usize,
) -> Result<Items<Value>, AllocError>
    ensures { IfOk result (λ all. all ≡ items.now) }
{
    let mut all = Items::from_vec(Vec::with_capacity(alloc, items.len().saturating_add(room))?);
    for item in items {
        all.push(item.copy(alloc)?)?;
    }
    Ok(all)
}

fn copy_of_values(alloc: Global, items: &[Value]) -> Result<Items<Value>, AllocError>
    ensures { IfOk result (λ all. all ≡ items.now) }
{
    copy_of_values_with_room(alloc, items, 0)
}
