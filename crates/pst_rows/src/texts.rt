//! Texts that name models and characters, and repeat their parts.
//!
//! `{NAME}` is the text of the file `models/NAME.model`, and `{FOLDER/NAME}` that of `FOLDER/NAME.model`; `{nul}`, `{tab}`,
//! `{return}`, `{byte_order_mark}`, `{right_to_left}` and `{open_brace}` are characters; and `{N*PART}` is the part, N times, in
//! which each `#` is the next number, from 1 on.

use std::alloc::{AllocError, Global};
use std::fs::Files;
use std::{fs, io};

/// Adds the part, in which each `#` is the next number, and returns the last number.
fn push_part_with_next_numbers(
    alloc: Global,
    whole: &mut String,
    last: u64,
    part: &str,
) -> Result<u64, AllocError> {
    let mut number = last;
    for (index, piece) in part.split('#').enumerate() {
        if index > 0 {
            number = number.saturating_add(1);
            let digits = format!(in alloc; "{number}")?;
            whole.push_str(digits.as_str())?;
        }
        whole.push_str(piece)?;
    }
    Ok(number)
}

/// Adds the part `count` times.
fn push_part_repeated_and_numbered(
    alloc: Global,
    whole: &mut String,
    count: usize,
    part: &str,
) -> Result<(), AllocError> {
    if !part.contains('#') {
        return whole.push_str(part.repeat(alloc, count)?.as_str());
    }
    let mut number: u64 = 0;
    for _ in 0..count {
        number = push_part_with_next_numbers(alloc, whole, number, part)?;
    }
    Ok(())
}

/// The character of that name, if it is one that is hard to see in a text, or has a meaning there.
fn special_character_named(name: &str) -> Option<&'static str> {
    match name {
        "nul" => Some("\0"),
        "tab" => Some("\t"),
        "return" => Some("\r"),
        "byte_order_mark" => Some("\u{feff}"),
        "right_to_left" => Some("\u{202e}"),
        "open_brace" => Some("{"),
        _ => None,
    }
}

/// Adds the text of the file `NAME.model` in `models`, or in the folder that the name begins with.
fn push_text_of_model_file<R: Files + AllocGlobal>(
    rt: &R,
    whole: &mut String,
    name: &str,
) -> io::Result<()> {
    let file = if name.contains('/') {
        format!(in rt.alloc(); "{name}.model")?
    } else {
        format!(in rt.alloc(); "models/{name}.model")?
    };
    let text = fs::read_to_string(rt, file.as_str())?;
    whole.push_str(text.as_str().trim())?;
    Ok(())
}

/// Adds what is in braces: `{NAME}` or `{N*PART}`.
fn push_expansion_of_braces<R: Files + AllocGlobal>(
    rt: &R,
    whole: &mut String,
    inside: &str,
) -> io::Result<()> {
    if let Some((count, part)) = inside.split_once("*") {
        let count: usize = count.parse().unwrap_or(0);
        push_part_repeated_and_numbered(rt.alloc(), whole, count, part)?;
        return Ok(());
    }
    match special_character_named(inside) {
        Some(character) => {
            whole.push_str(character)?;
            Ok(())
        }
        None => push_text_of_model_file(rt, whole, inside),
    }
}

/// The text with what its braces mean.
pub fn text_with_braces_expanded<R: Files + AllocGlobal>(rt: &R, text: &str) -> io::Result<String> {
    let mut whole = String::new(rt.alloc());
    for (index, piece) in text.split('{').enumerate() {
        let mut rest = piece;
        if index > 0 {
            if let Some((inside, after)) = piece.split_once("}") {
                push_expansion_of_braces(rt, &mut whole, inside)?;
                rest = after;
            }
        }
        whole.push_str(rest)?;
    }
    Ok(whole)
}
