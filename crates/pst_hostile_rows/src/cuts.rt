//! A file that is cut off after each of its bytes.

use crate::commands::{
    CommandOutput, ProgramCommand, run_command_with_limited_writer,
    status_and_shortened_output_text,
};
use pst_tests::support::COUNTER;
use std::alloc::{AllocError, Global};
use std::io;
use std::sync::Wait;
use std::thread::Threads;

/// Returns the offset of the innermost bracket that is still open at the end. `bytes` contains no texts or comments.
fn offset_of_innermost_open_bracket(bytes: &[u8]) -> Option<usize> {
    let mut closed: usize = 0;
    for (place, byte) in bytes.iter().enumerate().rev() {
        match byte {
            b')' => closed = closed.saturating_add(1),
            b'(' => {
                if closed == 0 {
                    return Some(place);
                }
                closed -= 1;
            }
            _ => {}
        }
    }
    None
}

/// Returns the expected answer for `cut`, the beginning of a file whose model takes its first `model` bytes.
fn expected_judge_output_for_cut(
    alloc: Global,
    cut: &[u8],
    model: usize,
) -> Result<String, AllocError> {
    if let Some(place) = offset_of_innermost_open_bracket(cut) {
        return format!(in alloc; "2 refused read UnclosedNode at {place}");
    }
    if cut.len() < model {
        return String::from_str(alloc, "2 refused model Missing item 0");
    }
    String::from_str(alloc, "0 nothing")
}

/// Returns a file, after the number of bytes that its model takes at the beginning.
fn counter_model_length_and_file_text(alloc: Global) -> Result<(usize, String), AllocError> {
    let model = format!(in alloc; "\n {COUNTER}")?;
    let file = format!(in alloc;
        "{model}\n (run (prefix) (left (inc)) (right (inc)) (replies () (1) (2)))"
    )?;
    Ok((model.len(), file))
}

/// Prints the answer for `cut` unless it is the expected one.
fn print_cut_if_output_is_unexpected<R: Print + AllocGlobal>(
    rt: &R,
    cut: &[u8],
    model: usize,
    judged: &CommandOutput,
) -> io::Result<()> {
    let text = status_and_shortened_output_text(rt.alloc(), judged)?;
    let want = expected_judge_output_for_cut(rt.alloc(), cut, model)?;
    if text.as_str() != want.as_str() {
        let length = cut.len();
        println!(rt; "cut at {length}: {text}, wanted {want}")?;
    }
    Ok(())
}

/// Prints the answer for the whole file.
fn print_judge_output_of_whole_file<R: Print + AllocGlobal>(
    rt: &R,
    judged: &CommandOutput,
) -> io::Result<()> {
    let text = status_and_shortened_output_text(rt.alloc(), judged)?;
    println!(rt; "not cut: {text}")
}

/// Prints each beginning of a file that `judge` does not answer as expected, and its answer for the whole file.
pub fn print_judge_output_and_unexpected_cuts<R: Threads + Wait + Sync + Print + AllocGlobal>(
    rt: &R,
) -> io::Result<()> {
    let alloc = rt.alloc();
    let (model, file) = counter_model_length_and_file_text(alloc)?;
    for length in 0..file.len() {
        let cut = &file.as_bytes()[..length];
        let judged = run_command_with_limited_writer(
            rt,
            alloc,
            ProgramCommand::Judge,
            cut,
            usize::MAX,
        )?;
        print_cut_if_output_is_unexpected(rt, cut, model, &judged)?;
    }
    let judged = run_command_with_limited_writer(
        rt,
        alloc,
        ProgramCommand::Judge,
        file.as_bytes(),
        usize::MAX,
    )?;
    print_judge_output_of_whole_file(rt, &judged)
}
