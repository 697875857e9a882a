//! Deeply nested values in each kind of thread: that of the program, those of branches and workers, and those that
//! judge many items.

use crate::odd::variable_in_mixed_nested_values;
use indexmap::IndexSet;
use pst_value::Value;
use rayon::prelude::*;
use std::alloc::{AllocError, Global};
use std::thread::Threads;
use std::{io, thread};

/// Returns whether two values are equal and have the same `Debug` form, of more than `bytes` bytes.
fn are_equal_with_same_long_text(
    alloc: Global,
    one: &Value,
    other: &Value,
    bytes: usize,
) -> Result<bool, AllocError> {
    let written = format!(in alloc; "{one:?}")?;
    let again = format!(in alloc; "{other:?}")?;
    Ok(one == other && written.as_str() == again.as_str() && written.len() > bytes)
}

/// Returns whether a set of a copy of `value` contains `value` and does not contain `other`.
fn is_value_but_not_other_found_in_set(
    alloc: Global,
    value: &Value,
    other: &Value,
) -> Result<bool, AllocError> {
    let mut seen = IndexSet::new(alloc);
    seen.insert(value.copy(alloc)?)?;
    Ok(seen.contains(value) && !seen.contains(other))
}

/// Returns whether a copy of `value` is alike, with a `Debug` form of more than `bytes` bytes.
fn is_copy_equal_with_same_long_text(
    alloc: Global,
    value: &Value,
    bytes: usize,
) -> Result<bool, AllocError> {
    let copy = value.copy(alloc)?;
    are_equal_with_same_long_text(alloc, value, &copy, bytes)
}

/// Returns whether `value` is found in a set of it alone, and its plain form is not.
fn is_distinct_from_plain_in_set(alloc: Global, value: &Value) -> Result<bool, AllocError> {
    let plain = value.plain(alloc)?;
    is_value_but_not_other_found_in_set(alloc, value, &plain)
}

/// Returns whether `value`, whose one variable is 1, is copied, compared, hashed, searched and
/// written correctly in this thread. Its `Debug` form has more than `bytes` bytes.
fn is_value_copied_and_searched_correctly(
    alloc: Global,
    value: &Value,
    bytes: usize,
) -> Result<bool, AllocError> {
    let is_copied = is_copy_equal_with_same_long_text(alloc, value, bytes)?;
    let is_found = is_distinct_from_plain_in_set(alloc, value)?;
    Ok(is_copied && is_found && value.uses(1) && !value.uses(2))
}

/// Returns whether a value of `levels` levels is copied, compared, hashed, searched and written correctly in this
/// thread.
fn is_nested_value_copied_and_searched(alloc: Global, levels: usize) -> Result<bool, AllocError> {
    let value = variable_in_mixed_nested_values(alloc, levels)?;
    is_value_copied_and_searched_correctly(alloc, &value, levels)
}

/// Returns whether `is_nested_value_copied_and_searched` holds in threads of their own.
fn is_nested_value_correct_in_four_threads<R: Threads + Sync>(
    rt: &R,
    alloc: Global,
    levels: usize,
) -> Result<bool, AllocError> {
    let answers = thread::map_indices(
        rt,
        alloc,
        4,
        &|_number: usize| is_nested_value_copied_and_searched(alloc, levels),
    )?;
    Ok(answers.iter().all(|kept| *kept == Ok(true)))
}

/// Returns whether `is_nested_value_copied_and_searched` holds in the threads that judge many items.
fn is_nested_value_correct_in_parallel_iterator<R: Threads + Sync>(
    rt: &R,
    alloc: Global,
    levels: usize,
) -> Result<bool, AllocError> {
    let all = [levels, levels, levels, levels];
    let answers = all
        .par_iter()
        .with_min_len(1)
        .map(|levels: &usize| is_nested_value_copied_and_searched(alloc, *levels))
        .collect::<Result<Vec<bool>, AllocError>>(rt, alloc)??;
    Ok(answers.iter().all(|kept| *kept))
}

/// Prints whether `is_nested_value_copied_and_searched` holds for 100 levels in each kind of thread.
pub fn print_correctness_of_nested_values_in_threads<R: Threads + Sync + Print + AllocGlobal>(
    rt: &R,
) -> io::Result<()> {
    let alloc = rt.alloc();
    let here = is_nested_value_copied_and_searched(alloc, 100)?;
    let threads = is_nested_value_correct_in_four_threads(rt, alloc, 100)?;
    let parallel = is_nested_value_correct_in_parallel_iterator(rt, alloc, 100)?;
    println!(rt;
        "a value of 100 levels: {here} here, {threads} in threads, {parallel} where many are judged"
    )
}
