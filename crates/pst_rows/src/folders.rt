//! The folders of rows, which `data/folders` lists: each line has a folder and how many rows it has at least. A folder with fewer
//! was cut short or is not read as it should be.

use crate::blocks::check_blocks_and_print_differences;
use crate::campaigns::SystemPool;
use crate::tables::check_tables_and_print_wrong_rows;
use crate::tally::Tally;
use std::fs::Files;
use std::sync::Wait;
use std::thread::Threads;
use std::{fs, io};

/// The names of the files in a folder, in order.
fn sorted_file_names_of_folder<R: Files + AllocGlobal + Clone + Drop>(
    rt: &R,
    folder: &str,
) -> io::Result<Vec<String>> {
    let mut names = Vec::new(rt.alloc());
    for entry in fs::read_dir(rt, folder)? {
        names.push(String::from_str(rt.alloc(), entry?.file_name())?)?;
    }
    names.sort()?;
    Ok(names)
}

/// Checks the rows of a file: of its tables if its name ends in `.rows`, of its blocks if it ends in `.blocks`. Other
/// files are inputs of blocks.
fn check_file_if_rows_or_blocks<R: Threads + Wait + Sync + Files + Print + AllocGlobal>(
    rt: &R,
    pool: &mut SystemPool,
    tally: &mut Tally,
    path: &str,
) -> anyhow::Result<()> {
    if path.ends_with(".rows") {
        let text = fs::read_to_string(rt, path)?;
        check_tables_and_print_wrong_rows(rt, tally, path, text.as_str())?;
    } else if path.ends_with(".blocks") {
        let text = fs::read_to_string(rt, path)?;
        check_blocks_and_print_differences(rt, pool, tally, path, text.as_str())?;
    }
    Ok(())
}

/// Checks the rows of a folder, which has at least the given number of rows.
fn check_folder_and_its_row_count<
    R: Threads + Wait + Sync + Files + Print + AllocGlobal + Clone + Drop,
>(
    rt: &R,
    pool: &mut SystemPool,
    tally: &mut Tally,
    folder: &str,
    least: usize,
) -> anyhow::Result<()> {
    let before = tally.rows;
    for name in sorted_file_names_of_folder(rt, folder)? {
        let path = format!(in rt.alloc(); "{folder}/{name}")?;
        check_file_if_rows_or_blocks(rt, pool, tally, path.as_str())?;
    }
    let rows = tally.rows.saturating_sub(before);
    if rows < least {
        let wrong = format!(in rt.alloc(); "{rows} rows, and at least {least} are wanted")?;
        tally.print_and_count_problem(rt, folder, wrong.as_str())?;
    }
    Ok(())
}

/// Checks the rows of all folders and prints those that have another answer; if there are none, a line that says so.
pub fn check_folder_rows_and_print_results<
    R: Threads + Wait + Sync + Files + Print + AllocGlobal + Clone + Drop,
>(rt: &R, pool: &mut SystemPool) -> anyhow::Result<()> {
    let mut tally = Tally::new();
    let folders = fs::read_to_string(rt, "folders")?;
    for line in folders.as_str().lines() {
        match line.split_once(" ") {
            Some(("#", _)) => {}
            Some((folder, least)) => {
                let least = least.parse().unwrap_or(usize::MAX);
                check_folder_and_its_row_count(rt, pool, &mut tally, folder, least)?;
            }
            None => tally.print_and_count_problem(rt, "folders", line)?,
        }
    }
    if tally.misses == 0 {
        println!(rt; "every row has the wanted answer")?;
    }
    Ok(())
}
