//! The answers to the requests of blocks.

use crate::campaigns::{SystemPool, campaign_report_and_status_answer};
use crate::examples::judged_output_against_comments_answer;
use crate::explained::{
    explanations_and_status_answer, longest_explanation_line_length_answer,
    search_graph_and_status_answer,
};
use crate::messages::{
    count_prefixes_with_placed_message_answer, judged_item_warnings_answer, model_warnings_answer,
    refusal_messages_answer,
};
use crate::random::random_expression_outcome_counts_answer;
use pst_messages::MessageScope;
use pst_sources::SourceFile;
use std::alloc::{AllocError, Global};
use std::sync::Wait;
use std::thread::Threads;

/// A request: its line, and the files that it is about.
#[derive(Drop)]
pub struct Request<'a> {
    pub line: &'a str,
    pub files: Vec<SourceFile<'a>>,
}

impl<'a> Request<'a> {
    /// The value of an option `NAME=VALUE`.
    pub fn option_value(&self, name: &str) -> Option<&'a str> {
        for word in self.line.split(' ') {
            if let Some((found, value)) = word.split_once("=") {
                if found == name {
                    return Some(value);
                }
            }
        }
        None
    }

    /// The number that an option has, or another one without it.
    pub fn option_number_or_default(&self, name: &str, without: u32) -> u32 {
        match self.option_value(name) {
            Some(value) => value.parse().unwrap_or(0),
            None => without,
        }
    }

    /// The bytes of the first file.
    pub fn first_file_bytes(&self) -> &[u8] {
        match self.files.as_slice().first() {
            Some(file) => file.bytes.as_slice(),
            None => &[],
        }
    }

    /// The names of the files but the first `count`, each after a blank.
    pub fn spaced_file_names_after_count(
        &self,
        alloc: Global,
        count: usize,
    ) -> Result<String, AllocError> {
        let mut names = String::new(alloc);
        for file in self.files.iter().skip(count) {
            names.push_str(" ")?;
            names.push_str(file.name)?;
        }
        Ok(names)
    }
}

/// The answer to a question on the texts of files, or that there is no such question.
fn answer_to_question_about_texts(
    alloc: Global,
    question: &str,
    request: &Request<'_>,
) -> Result<String, AllocError> {
    match question {
        "message" => refusal_messages_answer(alloc, request, MessageScope::FirstItem),
        "message_of_model" => refusal_messages_answer(alloc, request, MessageScope::Model),
        "messages" => refusal_messages_answer(alloc, request, MessageScope::EachItem),
        "beginnings" => count_prefixes_with_placed_message_answer(alloc, request),
        "warnings" => model_warnings_answer(alloc, request),
        "random" => random_expression_outcome_counts_answer(alloc, request),
        _ => String::from_str(alloc, "there is no such question\n"),
    }
}

/// The answer to a question whose items are judged in threads, or to one on the texts of files.
fn answer_to_judging_or_text_question<R: Threads + Sync>(
    rt: &R,
    alloc: Global,
    question: &str,
    request: &Request<'_>,
) -> Result<String, AllocError> {
    match question {
        "explain" => explanations_and_status_answer(rt, alloc, request),
        "graph" => search_graph_and_status_answer(rt, alloc, request),
        "longest" => longest_explanation_line_length_answer(rt, alloc, request),
        "comments" => judged_output_against_comments_answer(rt, alloc, request),
        "warnings_on_runs" => judged_item_warnings_answer(rt, alloc, request, false),
        "warnings_on_answers" => judged_item_warnings_answer(rt, alloc, request, true),
        _ => answer_to_question_about_texts(alloc, question, request),
    }
}

/// The answer to a request.
pub fn answer_to_request<R: Threads + Wait + Sync + AllocGlobal>(
    rt: &R,
    pool: &mut SystemPool,
    request: &Request<'_>,
) -> anyhow::Result<String> {
    let question = request.line.split(' ').next().unwrap_or("");
    if question == "campaign" {
        return campaign_report_and_status_answer(rt, pool, request);
    }
    Ok(answer_to_judging_or_text_question(rt, rt.alloc(), question, request)?)
}
