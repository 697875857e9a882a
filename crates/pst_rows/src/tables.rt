//! Tables of texts with the answers that are wanted.
//!
//! A file of tables has notes, then tables that begin with a line `table NAME`, and `end` as its last line. A table has a head, a
//! blank line and its rows. The lines of the head are notes, which begin with `#`, the question (`ask QUESTION`), and what comes
//! before and after each row's text (`before TEXT`, `after TEXT`). A row is `TEXT => WANTED`; its text may have several
//! lines. In all texts braces mean what `texts.rt` says.

use crate::questions::{Question, QuestionText, answer_to_question, question_named};
use crate::tally::Tally;
use crate::texts::text_with_braces_expanded;
use std::fs::Files;
use std::io;
use std::thread::Threads;

/// The head of a table: its question, and what comes before and after each row's text.
#[derive(Drop)]
struct TableHead {
    question: Question,
    before: String,
    after: String,
}

/// The text after a word, on the line of a head that begins with the word, with what its braces mean.
fn expanded_text_after_keyword<R: Files + AllocGlobal>(
    rt: &R,
    lines: &str,
    word: &str,
) -> io::Result<String> {
    for line in lines.lines() {
        if let Some((first, text)) = line.split_once(" ") {
            if first == word {
                return text_with_braces_expanded(rt, text);
            }
        }
    }
    Ok(String::new(rt.alloc()))
}

/// Reads the lines of a head. `None` if there is no question of its name.
fn read_table_head<R: Files + AllocGlobal>(rt: &R, lines: &str) -> io::Result<Option<TableHead>> {
    let name = expanded_text_after_keyword(rt, lines, "ask")?;
    let Some(question) = question_named(name.as_str()) else {
        return Ok(None);
    };
    let before = expanded_text_after_keyword(rt, lines, "before")?;
    let after = expanded_text_after_keyword(rt, lines, "after")?;
    Ok(Some(TableHead {
        question,
        before,
        after,
    }))
}

/// Checks a row, and prints it with its answer if that is not the wanted one.
fn check_row_and_print_wrong_answer<R: Threads + Sync + Files + Print + AllocGlobal>(
    rt: &R,
    tally: &mut Tally,
    head: &TableHead,
    text: &str,
    want: &str,
) -> io::Result<()> {
    let whole = text_with_braces_expanded(rt, text)?;
    let wanted = text_with_braces_expanded(rt, want)?;
    let question_text = QuestionText {
        before: head.before.as_str(),
        text: whole.as_str(),
        after: head.after.as_str(),
    };
    let answer = answer_to_question(rt, rt.alloc(), head.question, &question_text)?;
    let is_right = answer.as_str() == wanted.as_str();
    tally.count_row(is_right);
    if is_right {
        return Ok(());
    }
    println!(rt; "{text}\n  => {answer}\n  wanted {want}")
}

/// Checks the rows of a table, and returns what is left of the last line that has an answer.
fn check_rows_and_return_rest<R: Threads + Sync + Files + Print + AllocGlobal>(
    rt: &R,
    tally: &mut Tally,
    head: &TableHead,
    rows: &str,
) -> io::Result<String> {
    let mut text = String::new(rt.alloc());
    for line in rows.lines() {
        match line.split_once("=>") {
            Some((end, want)) => {
                text.push_str(end)?;
                check_row_and_print_wrong_answer(
                    rt,
                    tally,
                    head,
                    text.as_str().trim_matches(' '),
                    want.trim(),
                )?;
                text.clear();
            }
            None => {
                text.push_str(line)?;
                text.push_str("\n")?;
            }
        }
    }
    Ok(text)
}

/// Checks the rows of a table, and prints its name if a row of it has another answer.
fn check_table_and_print_wrong_rows<R: Threads + Sync + Files + Print + AllocGlobal>(
    rt: &R,
    tally: &mut Tally,
    place: &str,
    table: &str,
) -> io::Result<()> {
    let Some((lines, rows)) = table.split_once("\n\n") else {
        return tally.print_and_count_problem(rt, place, "no rows");
    };
    let Some(head) = read_table_head(rt, lines)? else {
        return tally.print_and_count_problem(rt, place, "there is no such question");
    };
    let before = tally.misses;
    let rest = check_rows_and_return_rest(rt, tally, &head, rows)?;
    if tally.misses > before {
        println!(rt; "  in {place}")?;
    }
    if rest.as_str().trim().is_empty() {
        return Ok(());
    }
    tally.print_and_count_problem(rt, place, "the last row has no answer")
}

/// Checks the rows of the tables of a file, and prints those that have another answer.
pub fn check_tables_and_print_wrong_rows<R: Threads + Sync + Files + Print + AllocGlobal>(
    rt: &R,
    tally: &mut Tally,
    path: &str,
    text: &str,
) -> io::Result<()> {
    let Some(whole) = text.strip_suffix("\nend\n") else {
        return tally.print_and_count_problem(rt, path, "the last line is not `end`");
    };
    for table in whole.split("\ntable ").skip(1) {
        let (name, rest) = table.split_once("\n").unwrap_or((table, ""));
        let place = format!(in rt.alloc(); "{path} {name}")?;
        check_table_and_print_wrong_rows(rt, tally, place.as_str(), rest)?;
    }
    Ok(())
}
