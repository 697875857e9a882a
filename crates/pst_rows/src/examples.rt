//! Judges files of items and compares what is written with the comments in them.

use crate::requests::Request;
use pst_cli::{Status, judge_text, judge_text_keep_going};
use pst_sexpr::Out;
use pst_sources::joined_text_of_files;
use std::alloc::{AllocError, Global};
use std::thread::Threads;

/// The lines that a comment says: those that begin with `; ` and a digit, or with `; refused`.
fn verdict_lines_in_comments(alloc: Global, text: &str) -> Result<String, AllocError> {
    let mut lines = String::new(alloc);
    for line in text.lines() {
        if let Some(said) = line.strip_prefix("; ") {
            if said.starts_with(|c: char| c.is_ascii_digit()) || said.starts_with("refused") {
                lines.push_str(said)?;
                lines.push_str("\n")?;
            }
        }
    }
    Ok(lines)
}

/// Whether the lines that were written are those of the comments of a text; if not, the lines.
fn compare_output_with_comments(
    alloc: Global,
    text: &str,
    written: &[u8],
    status: Status,
) -> Result<String, AllocError> {
    let said = verdict_lines_in_comments(alloc, text)?;
    if written == said.as_bytes() {
        let count = said.lines().count();
        let code = status.code();
        return format!(in alloc; "{count} lines as the comments say, status {code}\n");
    }
    match std::str::from_utf8(written) {
        Ok(lines) => format!(in alloc; "other lines than the comments say:\n{lines}"),
        Err(_) => String::from_str(alloc, "no text\n"),
    }
}

/// What is written of the items of the files, compared with the comments of the last file. If a model has a file of its own, the
/// items that are refused leave the others their verdicts.
pub fn judged_output_against_comments_answer<R: Threads + Sync>(
    rt: &R,
    alloc: Global,
    request: &Request<'_>,
) -> Result<String, AllocError> {
    let files = request.files.as_slice();
    let Some((last, before)) = files.split_last() else {
        return String::from_str(alloc, "no file\n");
    };
    let Ok(text) = std::str::from_utf8(last.bytes.as_slice()) else {
        return String::from_str(alloc, "no text\n");
    };
    let input = joined_text_of_files(alloc, files)?;
    let mut out = Out::new(Vec::new(alloc));
    let status = if before.is_empty() {
        judge_text(rt, alloc, input.as_slice(), &mut out)
    } else {
        judge_text_keep_going(rt, alloc, input.as_slice(), &mut out)
    };
    compare_output_with_comments(alloc, text, out.into_inner().as_slice(), status)
}
