//! The explanations of the items of files, and the graphs of some of them. Each core and each interleaving of the wanted texts
//! is derived in the comments of its file in `data/explain`, and so are the positions and dead ends of the graphs of
//! `counter.runs`.

use crate::requests::Request;
use pst_cli::{
    ChosenItems, ExplainOptions, ExplanationForm, Status, explain_text, write_search_graph_of_item,
};
use pst_judge::CallOrder;
use pst_sexpr::Out;
use pst_sources::{SourceFile, joined_text_of_files};
use std::alloc::{AllocError, Global};
use std::slice;
use std::thread::Threads;

/// What was written, and the status.
fn text_with_status_line(
    alloc: Global,
    bytes: &[u8],
    status: Status,
) -> Result<String, AllocError> {
    let code = status.code();
    let mut text = match std::str::from_utf8(bytes) {
        Ok(text) => String::from_str(alloc, text)?,
        Err(_) => String::from_str(alloc, "no text\n")?,
    };
    let end = format!(in alloc; "status {code}\n")?;
    text.push_str(end.as_str())?;
    Ok(text)
}

/// The items that a request chooses.
fn chosen_items_of_request(request: &Request<'_>) -> ChosenItems {
    match request.option_value("items") {
        Some("failures") => ChosenItems::Failures,
        Some(number) => ChosenItems::Item(number.parse().unwrap_or(0)),
        None => ChosenItems::All,
    }
}

/// What is written of the chosen items of an input in files, and the status.
fn explanation_text_with_status_line<R: Threads + Sync>(
    rt: &R,
    alloc: Global,
    files: &[SourceFile<'_>],
    chosen: ChosenItems,
    width: usize,
) -> Result<String, AllocError> {
    let input = joined_text_of_files(alloc, files)?;
    let mut out = Out::new(Vec::new(alloc));
    let options = ExplainOptions {
        order: CallOrder::Time,
        files,
        chosen,
        most: usize::MAX,
        form: ExplanationForm::Text(width),
    };
    let status = explain_text(rt, alloc, input.as_slice(), options, &mut out);
    text_with_status_line(alloc, out.into_inner().as_slice(), status)
}

/// The explanations of the items of the files, `items=NUMBER` or `items=failures` of them, in lines of `width=NUMBER`
/// columns; and the status.
pub fn explanations_and_status_answer<R: Threads + Sync>(
    rt: &R,
    alloc: Global,
    request: &Request<'_>,
) -> Result<String, AllocError> {
    let width = request.option_number_or_default("width", 80) as usize;
    let chosen = chosen_items_of_request(request);
    explanation_text_with_status_line(rt, alloc, request.files.as_slice(), chosen, width)
}

/// How long the longest line is in the explanations of the files, each alone.
pub fn longest_explanation_line_length_answer<R: Threads + Sync>(
    rt: &R,
    alloc: Global,
    request: &Request<'_>,
) -> Result<String, AllocError> {
    let width = request.option_number_or_default("width", 80) as usize;
    let mut longest = 0;
    for file in request.files.as_slice() {
        let text = explanation_text_with_status_line(
            rt,
            alloc,
            slice::from_ref(file),
            ChosenItems::All,
            width,
        )?;
        for line in text.as_str().lines() {
            longest = line.len().max(longest);
        }
    }
    format!(in alloc; "{longest}\n")
}

/// The graph of an item of the first file, `item=NUMBER` or the one that the program chooses; and the status.
pub fn search_graph_and_status_answer<R: Threads + Sync>(
    rt: &R,
    alloc: Global,
    request: &Request<'_>,
) -> Result<String, AllocError> {
    let item = match request.option_number_or_default("item", 0) {
        0 => None,
        number => Some(number as usize),
    };
    let mut out = Out::new(Vec::new(alloc));
    let status = write_search_graph_of_item(
        rt,
        alloc,
        request.first_file_bytes(),
        item,
        true,
        &mut out,
    );
    text_with_status_line(alloc, out.into_inner().as_slice(), status)
}
