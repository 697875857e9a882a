//! Malformed and extreme inputs.

use crate::commands::{
    COMMANDS, CommandOutput, ProgramCommand, run_command_with_limited_writer,
    status_and_shortened_output_text,
};
use pst_cli::Status;
use pst_tests::support::COUNTER;
use std::alloc::{AllocError, Global};
use std::io;
use std::sync::Wait;
use std::thread::Threads;

/// A run of the counter.
const RUN: &str = "(run (prefix) (left (inc)) (right (inc)) (replies () (1) (2)))";

/// Inputs by their names.
const INPUTS: [(&str, &[u8]); 18] = [
    ("nothing", b""),
    ("white space", b" \t\r\n"),
    ("a comment", b"; ("),
    ("a comment of other bytes", b";\xff\xc3\x00\n"),
    ("a comment that a CR does not end", b"; a\r(b"),
    ("a byte of no UTF-8", b"\xff"),
    ("a mark of UTF-8", b"\xef\xbb\xbf(model m)"),
    ("a letter beyond ASCII", b"(model caf\xc3\xa9)"),
    (
        "a letter beyond ASCII in a text",
        b"(model m (init \"\xc3\xa9\"))",
    ),
    ("half a letter in a text", b"\"\xc3"),
    ("a zero byte", b"(model m\x00)"),
    ("the byte 127", b"\x7f"),
    ("a tab in a text", b"\"a\tb\""),
    ("a line end in a text", b"\"a\r\n\""),
    ("a bracket that closes nothing", b")"),
    ("an escaped letter", b"\"\\a"),
    ("a text", b"\"model\""),
    ("a word", b"model"),
];

/// Prints and returns the answer of `judge`.
fn print_and_return_judge_output<R: Threads + Wait + Sync + Print + AllocGlobal>(
    rt: &R,
    name: &str,
    input: &[u8],
) -> io::Result<CommandOutput> {
    let judged = run_command_with_limited_writer(
        rt,
        rt.alloc(),
        ProgramCommand::Judge,
        input,
        usize::MAX,
    )?;
    let text = status_and_shortened_output_text(rt.alloc(), &judged)?;
    println!(rt; "{name}: {text}")?;
    Ok(judged)
}

/// Prints the answer of a command if it is no refusal, or another one than that of `judge`.
fn print_output_unless_same_refusal<R: Print + AllocGlobal>(
    rt: &R,
    command: ProgramCommand,
    other: &CommandOutput,
    judged: &CommandOutput,
) -> io::Result<()> {
    if other.status != Status::Refused || other.bytes.as_slice() != judged.bytes.as_slice() {
        let word = command.name();
        let text = status_and_shortened_output_text(rt.alloc(), other)?;
        println!(rt; "  {word}: {text}")?;
    }
    Ok(())
}

/// Prints the answer of `judge`. If `judge` refuses the input, it also prints each command that answers otherwise.
fn print_judge_output_and_refusal_differences<R: Threads + Wait + Sync + Print + AllocGlobal>(
    rt: &R,
    name: &str,
    input: &[u8],
) -> io::Result<()> {
    let alloc = rt.alloc();
    let judged = print_and_return_judge_output(rt, name, input)?;
    if judged.status != Status::Refused {
        return Ok(());
    }
    for command in COMMANDS {
        let other = run_command_with_limited_writer(rt, alloc, command, input, usize::MAX)?;
        print_output_unless_same_refusal(rt, command, &other, &judged)?;
    }
    Ok(())
}

/// An input with its name.
#[derive(Drop)]
struct NamedInput {
    name: String,
    text: String,
}

/// Returns `text`, filled up with spaces to `length` bytes.
fn text_padded_with_spaces(alloc: Global, text: &str, length: usize) -> Result<String, AllocError> {
    let mut whole = String::from_str(alloc, text)?;
    let spaces = " ".repeat(alloc, length.saturating_sub(text.len()))?;
    whole.push_str(spaces.as_str())?;
    Ok(whole)
}

/// What the largest inputs consist of: the model, and bytes.
const PARTS: [&str; 7] = [COUNTER, "(", ")", "a", "\"", ";", "\\"];

/// Returns the input of `length` times the part, a byte. For the model it is the model, filled up
/// with spaces to `length` bytes.
fn named_input_repeating_or_padding_part(
    alloc: Global,
    part: &str,
    length: usize,
) -> Result<NamedInput, AllocError> {
    if part == COUNTER {
        let text = text_padded_with_spaces(alloc, part, length)?;
        let name = format!(in alloc; "a model in {length} bytes")?;
        return Ok(NamedInput { name, text });
    }
    let text = part.repeat(alloc, length)?;
    let name = format!(in alloc; "{length} times {part}")?;
    Ok(NamedInput { name, text })
}

/// Returns the input of `depth` brackets that are not closed.
fn named_input_of_open_brackets(alloc: Global, depth: usize) -> Result<NamedInput, AllocError> {
    let text = "(".repeat(alloc, depth)?;
    let name = format!(in alloc; "{depth} brackets")?;
    Ok(NamedInput { name, text })
}

/// Prints the answers for inputs of the greatest size that a file may have, and of one byte more.
fn print_judge_outputs_at_size_limit<R: Threads + Wait + Sync + Print + AllocGlobal>(
    rt: &R,
) -> io::Result<()> {
    let alloc = rt.alloc();
    let most: usize = 1_048_576;
    for length in most..most + 2 {
        for part in &PARTS {
            let input = named_input_repeating_or_padding_part(alloc, *part, length)?;
            let _ = print_and_return_judge_output(rt, input.name.as_str(), input.text.as_bytes())?;
        }
    }
    let text = "()".repeat(alloc, most / 2)?;
    let _ = print_and_return_judge_output(rt, "524288 empty nodes", text.as_bytes())?;
    Ok(())
}

/// Prints the answers for a file with line ends of one kind, with comments and three runs. The second run has lost an
/// update.
fn print_outputs_for_line_end<R: Threads + Wait + Sync + Print + AllocGlobal>(
    rt: &R,
    name: &str,
    line_end: &str,
) -> io::Result<()> {
    let alloc = rt.alloc();
    let items = [
        RUN,
        "(run (prefix) (left (inc)) (right (inc)) (replies () (1) (1)))",
        RUN,
    ];
    let mut text = String::from_str(alloc, COUNTER)?;
    for item in items {
        text.push_str("\n; an item (\n")?;
        text.push_str(item)?;
    }
    let text = text.as_str().replace(alloc, "\n", line_end)?;
    print_judge_output_and_refusal_differences(rt, name, text.as_bytes())
}

/// The line ends of files, with their names.
const LINE_ENDS: [(&str, &str); 3] = [
    ("line ends LF", "\n"),
    ("line ends CR LF", "\r\n"),
    ("line ends CR", "\r"),
];

/// Prints all inputs.
pub fn print_outputs_for_malformed_or_extreme_inputs<
    R: Threads + Wait + Sync + Print + AllocGlobal,
>(rt: &R) -> io::Result<()> {
    for (name, input) in &INPUTS {
        print_judge_output_and_refusal_differences(rt, *name, *input)?;
    }
    for (name, line_end) in &LINE_ENDS {
        print_outputs_for_line_end(rt, *name, *line_end)?;
    }
    print_judge_outputs_at_size_limit(rt)?;
    for depth in 100..102 {
        let input = named_input_of_open_brackets(rt.alloc(), depth)?;
        print_judge_output_and_refusal_differences(rt, input.name.as_str(), input.text.as_bytes())?;
    }
    Ok(())
}
