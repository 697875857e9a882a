//! Blocks: requests with their answers, which may be long.
//!
//! A file of blocks has notes, then blocks, and `$ end` as its last line. A block is `$ REQUEST` on a line and the wanted answer
//! on the lines after it, up to the next `$`, which an empty line precedes. A request is a word, options `NAME=VALUE`, and
//! files. A file with a `/` in its name is one of `data`, another one of the folder of the blocks. A block may also have files of
//! its own: after the request `-- NAME` on a line and the file's text on the lines after it, for each of them; then `=>` on a
//! line, and the answer. In the text of such a file braces mean what they mean in tables, and the last line break
//! belongs to it only if an empty line follows.

use crate::campaigns::SystemPool;
use crate::requests::{Request, answer_to_request};
use crate::tally::{Tally, print_difference};
use crate::texts::text_with_braces_expanded;
use pst_sources::SourceFile;
use std::fs::Files;
use std::sync::Wait;
use std::thread::Threads;
use std::{fs, io};

/// The last part of a path, which is the file's name.
fn file_name_of_path(path: &str) -> &str {
    match path.rsplit_once("/") {
        Some((_, name)) => name,
        None => path,
    }
}

/// The folder that a file is in.
fn folder_of_path(path: &str) -> &str {
    match path.rsplit_once("/") {
        Some((folder, _)) => folder,
        None => "",
    }
}

/// Reads the files that a request names, next to the file of blocks.
fn read_files_named_in_request<'a, R: Files + AllocGlobal>(
    rt: &R,
    path: &str,
    line: &'a str,
) -> io::Result<Vec<SourceFile<'a>>> {
    let folder = folder_of_path(path);
    let mut files = Vec::new(rt.alloc());
    for word in line.split(' ').skip(1) {
        if word.contains('=') {
            continue;
        }
        let bytes = if word.contains('/') {
            fs::read(rt, word)?
        } else {
            fs::read(rt, format!(in rt.alloc(); "{folder}/{word}")?.as_str())?
        };
        let name = file_name_of_path(word);
        files.push(SourceFile { name, bytes })?;
    }
    Ok(files)
}

/// Adds the files that a block has itself: in each part the name is on the first line, and the text on the others.
fn push_files_inside_block<'a, R: Files + AllocGlobal>(
    rt: &R,
    files: &mut Vec<SourceFile<'a>>,
    text: &'a str,
) -> io::Result<()> {
    for part in text.split("\n-- ") {
        let (name, text) = part.split_once("\n").unwrap_or((part, ""));
        let bytes = text_with_braces_expanded(rt, text)?.into_bytes();
        files.push(SourceFile { name, bytes })?;
    }
    Ok(())
}

/// Checks a block of the file at that path, and prints how its answer differs.
fn check_block_and_print_difference<R: Threads + Wait + Sync + Files + Print + AllocGlobal>(
    rt: &R,
    pool: &mut SystemPool,
    tally: &mut Tally,
    path: &str,
    block: &str,
) -> anyhow::Result<()> {
    let (line, rest) = block.split_once("\n").unwrap_or((block, ""));
    let mut files = read_files_named_in_request(rt, path, line)?;
    let named = files.len();
    let mut wanted = rest;
    if let Some(own) = rest.strip_prefix("-- ") {
        let (texts, answer) = own.split_once("\n=>\n").unwrap_or((own, ""));
        push_files_inside_block(rt, &mut files, texts)?;
        wanted = answer;
    }
    let request = Request { line, files };
    let answer = answer_to_request(rt, pool, &request)?;
    let is_right = answer.as_str() == wanted;
    tally.count_row(is_right);
    if !is_right {
        let names = request.spaced_file_names_after_count(rt.alloc(), named)?;
        println!(rt; "{path}: $ {line}{names}")?;
        print_difference(rt, wanted, answer.as_str())?;
    }
    Ok(())
}

/// Checks the blocks of a file, and prints those that have another answer.
pub fn check_blocks_and_print_differences<R: Threads + Wait + Sync + Files + Print + AllocGlobal>(
    rt: &R,
    pool: &mut SystemPool,
    tally: &mut Tally,
    path: &str,
    text: &str,
) -> anyhow::Result<()> {
    let Some(whole) = text.strip_suffix("\n$ end\n") else {
        return Ok(tally.print_and_count_problem(rt, path, "the last line is not `$ end`")?);
    };
    for block in whole.split("\n$ ").skip(1) {
        check_block_and_print_difference(rt, pool, tally, path, block)?;
    }
    Ok(())
}
