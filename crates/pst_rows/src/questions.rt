//! The questions about a text, and the answers of the libraries to them in words.

use crate::generated::generated_case_and_draws_answer;
use crate::items::{
    each_item_judged_alone_answer, first_run_core_or_verdict_answer, judge_output_answer,
    last_item_validity_answer, verdicts_or_refusal_answer, written_and_rewritten_items_answer,
};
use crate::models::{
    check_output_answer, initial_state_by_both_evaluators_answer, list_status_or_refusal_answer,
    model_reading_answer_for_text, printed_and_reread_model_answer, tree_count_or_fault_answer,
};
use std::alloc::{AllocError, Global};
use std::thread::Threads;

/// A question about a text.
#[derive(Clone, Copy, Drop)]
pub enum Question {
    /// How many trees it spells, or the first fault.
    Trees,
    /// Whether it is read as a model: `read`, or `KIND item I`.
    Form,
    /// The output of `pst check`: its status and its line.
    Check,
    /// The spelling of its model, which has to be read as that model again.
    Print,
    /// The output of `pst list`: its status, and the line of a refusal.
    List,
    /// The initial state of its model, an integer, and the turns left; or the fault. The plain evaluator and compiled
    /// code have to agree on it.
    InitialState,
    /// The verdicts on its runs, `case` for a case; or `RUN COMMAND KIND`.
    Runs,
    /// The text that is written for its cases and runs, with `, ` between the lines. The text that is written for this
    /// text has to be the same.
    Write,
    /// Whether its case is valid, or the name of the reason why it is not.
    Valid,
    /// The judgements of its items, each alone, with `, ` between them.
    Alone,
    /// The output of `pst judge`: its status and its lines, with `, ` between them.
    Judge,
    /// The numbers of the core of its first run, or the word of its verdict if it has no core.
    Core,
    /// The case that is generated for the model before the text, or the fault, and how many words were drawn. The text
    /// is `COMMANDS BRANCHES SUFFIX, WORD WORD ..`.
    Generate,
}

/// The question `name` about the items of a text.
fn question_about_items_named(name: &str) -> Option<Question> {
    match name {
        "runs" => Some(Question::Runs),
        "write" => Some(Question::Write),
        "valid" => Some(Question::Valid),
        "alone" => Some(Question::Alone),
        "core" => Some(Question::Core),
        "judge" => Some(Question::Judge),
        _ => None,
    }
}

/// The question `name`.
pub fn question_named(name: &str) -> Option<Question> {
    match name {
        "trees" => Some(Question::Trees),
        "form" => Some(Question::Form),
        "check" => Some(Question::Check),
        "print" => Some(Question::Print),
        "list" => Some(Question::List),
        "opening" => Some(Question::InitialState),
        "generate" => Some(Question::Generate),
        _ => question_about_items_named(name),
    }
}

/// The text of a question, and what comes before it and after it.
#[derive(Clone, Copy, Drop)]
pub struct QuestionText<'a> {
    pub before: &'a str,
    pub text: &'a str,
    pub after: &'a str,
}

/// The whole text of a question, with a space between what comes before the text and the text.
fn join_question_text(
    alloc: Global,
    question_text: &QuestionText<'_>,
) -> Result<String, AllocError> {
    let mut whole = String::from_str(alloc, question_text.before)?;
    if !question_text.before.is_empty() {
        whole.push_str(" ")?;
    }
    whole.push_str(question_text.text)?;
    whole.push_str(question_text.after)?;
    Ok(whole)
}

/// The answer to a question about a whole text.
fn answer_to_question_about_whole_text<R: Threads + Sync>(
    rt: &R,
    alloc: Global,
    question: Question,
    text: &str,
) -> Result<String, AllocError> {
    match question {
        Question::Trees => tree_count_or_fault_answer(alloc, text),
        Question::Form => model_reading_answer_for_text(alloc, text),
        Question::Check => check_output_answer(alloc, text),
        Question::Print => printed_and_reread_model_answer(alloc, text),
        Question::List => list_status_or_refusal_answer(alloc, text),
        Question::InitialState => initial_state_by_both_evaluators_answer(alloc, text),
        Question::Runs => verdicts_or_refusal_answer(alloc, text),
        Question::Alone => each_item_judged_alone_answer(alloc, text),
        Question::Valid => last_item_validity_answer(alloc, text),
        Question::Core => first_run_core_or_verdict_answer(alloc, text),
        Question::Judge => judge_output_answer(rt, alloc, text),
        Question::Write | Question::Generate => Ok(String::new(alloc)),
    }
}

/// The answer to a question.
pub fn answer_to_question<R: Threads + Sync>(
    rt: &R,
    alloc: Global,
    question: Question,
    question_text: &QuestionText<'_>,
) -> Result<String, AllocError> {
    match question {
        Question::Write => written_and_rewritten_items_answer(
            alloc,
            question_text.before,
            question_text.text,
        ),
        Question::Generate => generated_case_and_draws_answer(
            alloc,
            question_text.before,
            question_text.text,
        ),
        _ => {
            let whole = join_question_text(alloc, question_text)?;
            answer_to_question_about_whole_text(rt, alloc, question, whole.as_str())
        }
    }
}
