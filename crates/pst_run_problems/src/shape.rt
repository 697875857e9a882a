//! The form of cases and runs.

use crate::command::node_parts_or_empty;
use crate::form_fault::{
    CaseFormFault, PartsWithReplyLists, first_case_or_run_form_fault, path_to_form_fault,
};
use crate::value_problem::problem_showing_tree;
use pst_sexpr::{Form, tree_in};
use pst_syntax_problems::{
    DidYouMean, FoundProblem, NearestNameSoFar, counted_noun, has_head, head_word_or_empty,
    problem_at, problem_at_part, problem_with_note, problem_with_note_at_part, with_note,
};
use std::alloc::{AllocError, Global};
use std::fmt;

/// How an item is written.
#[derive(Clone, Copy, Drop)]
struct CaseOrRunSyntax {
    /// It is a run and not a case.
    is_run: bool,
    /// Its branches are in one part.
    has_branches: bool,
    /// It has a suffix.
    has_suffix: bool,
    /// It has times.
    has_times: bool,
}

impl CaseOrRunSyntax {
    /// How an item with the parts of `form` is written.
    fn with_parts_of_tree(form: &Form, is_run: bool) -> CaseOrRunSyntax {
        CaseOrRunSyntax {
            is_run,
            has_branches: has_part_with_head(form, "branches"),
            has_suffix: has_part_with_head(form, "suffix"),
            has_times: is_run && has_part_with_head(form, "times"),
        }
    }

    /// How the branches are written.
    fn branches_syntax(&self) -> &'static str {
        if self.has_branches {
            "(branches (CALL ..) (CALL ..) ..)"
        } else {
            "(left CALL ..) (right CALL ..)"
        }
    }

    /// How the replies are written, if it has some.
    fn replies_syntax_or_empty(&self) -> &'static str {
        match (self.is_run, self.has_branches, self.has_suffix) {
            (false, _, _) => "",
            (true, true, _) => " (replies (R ..) (R ..) ..)",
            (true, false, false) => " (replies (R ..) (R ..) (R ..))",
            (true, false, true) => " (replies (R ..) (R ..) (R ..) (R ..))",
        }
    }
}

impl CaseOrRunSyntax {
    /// How the times are written, if it has some.
    fn times_syntax_or_empty(&self) -> &'static str {
        match (self.has_times, self.has_branches) {
            (false, _) => "",
            (true, true) => " (times (TIME ..) (TIME ..) ..)",
            (true, false) => " (times (TIME ..) (TIME ..))",
        }
    }
}

impl fmt::Display for CaseOrRunSyntax {
    fn fmt<W: fmt::Write>(&self, f: &mut fmt::Formatter<W>) -> fmt::Result {
        let head = if self.is_run { "run" } else { "case" };
        let branches = self.branches_syntax();
        let suffix = if self.has_suffix {
            " (suffix CALL ..)"
        } else {
            ""
        };
        let replies = self.replies_syntax_or_empty();
        let times = self.times_syntax_or_empty();
        write!(
            f,
            "it is written `({head} (prefix CALL ..) {branches}{suffix}{replies}{times})`"
        )
    }
}

/// Whether one of the trees in `form` has the head `word`.
fn has_part_with_head(form: &Form, word: &str) -> bool {
    node_parts_or_empty(form)
        .iter()
        .any(|part| has_head(part, word))
}

/// The problem of the tree `tree` of the item `form`, which may not be where it is.
fn misplaced_case_or_run_part_problem(
    alloc: Global,
    path: &[usize],
    form: &Form,
    tree: &Form,
) -> FoundProblem {
    match head_word_or_empty(tree) {
        "replies" if !has_head(form, "run") => {
            problem_at(
                alloc,
                path,
                "a case has no replies: with replies it is a run",
            )
        }
        "times" if !has_head(form, "run") => {
            problem_at(
                alloc,
                path,
                "a case has no times: a run has them, after its replies",
            )
        }
        "times" => problem_at(alloc, path, "a run has its times once, after its replies"),
        "suffix" => problem_at(
            alloc,
            path,
            "an item has one suffix, after the branches and before the replies",
        ),
        _ => problem_at(alloc, path, "an item has no such part here"),
    }
}

impl fmt::Display for PartsWithReplyLists {
    fn fmt<W: fmt::Write>(&self, f: &mut fmt::Formatter<W>) -> fmt::Result {
        let branches = self.branches;
        let suffix = if self.has_suffix { ", suffix" } else { "" };
        write!(f, "prefix, {branches} branches{suffix}")
    }
}

/// The problem of a run with `lists` lists of replies for the parts `parts`.
fn problem_of_wrong_reply_list_count(
    alloc: Global,
    path: &[usize],
    lists: usize,
    parts: PartsWithReplyLists,
) -> FoundProblem {
    let has = counted_noun(lists, "list");
    let count = parts.count();
    let what = format_args!(
        "the replies are lists, one for each part: {count} parts ({parts}), {has}"
    );
    if lists.saturating_add(1) == count {
        return problem_with_note(
            alloc,
            path,
            what,
            "hint: the prefix has a list too, which may be empty",
        );
    }
    problem_at(alloc, path, what)
}

/// The problem of a run with `lists` lists of times for its branches.
fn problem_of_wrong_time_list_count(
    alloc: Global,
    path: &[usize],
    lists: usize,
    branches: usize,
) -> FoundProblem {
    let has = counted_noun(lists, "list");
    problem_at(
        alloc,
        path,
        format_args!("the times are lists, one for each branch: {branches} branches, {has}"),
    )
}

/// The problem of a tree that is not written as a call.
fn not_a_command_call_problem(alloc: Global, path: &[usize], tree: &Form) -> FoundProblem {
    let found = problem_showing_tree(alloc, path, "", tree, " is not a call")?;
    with_note(alloc, found, "a call is `(OPERATION VALUE ..)`")
}

/// The problem of the fault `fault` of item `item`, whose tree is `form`. `place` leads to its place in the item.
fn case_or_run_form_fault_problem(
    alloc: Global,
    item: usize,
    form: &Form,
    fault: CaseFormFault,
    place: &[usize],
) -> FoundProblem {
    let mut path = Vec::from_slice(alloc, &[item])?;
    path.extend_from_slice(place)?;
    let path = path.as_slice();
    let tree = tree_in(form, place).unwrap_or(form);
    match fault {
        CaseFormFault::OtherHead => neither_case_nor_run_problem(alloc, item, form),
        CaseFormFault::Missing(part) => {
            let word = part.keyword();
            problem_at(alloc, path, format_args!("`({word} ..)` is missing"))
        }
        CaseFormFault::OtherPart(part, _) => {
            let word = part.keyword();
            let before = format_args!("expected `({word} ..)` here, found ");
            problem_showing_tree(alloc, path, before, tree, "")
        }
        CaseFormFault::NoCall(_, _) | CaseFormFault::NoBranchCall(_, _) =>
            not_a_command_call_problem(alloc, path, tree),
        CaseFormFault::BranchCount(count) => problem_at(
            alloc,
            path,
            format_args!("an item has 2 to 4 branches, this one has {count}"),
        ),
        CaseFormFault::NoBranch(_) => {
            problem_at(alloc, path, "a branch is a list of calls: `(CALL ..)`")
        }
        CaseFormFault::Misplaced(_) => misplaced_case_or_run_part_problem(alloc, path, form, tree),
        CaseFormFault::ListCount(lists, parts) => problem_of_wrong_reply_list_count(
            alloc, path, lists, parts,
        ),
        CaseFormFault::NoList => {
            problem_at(alloc, path, "the replies are lists, one for each part")
        }
        CaseFormFault::TimeListCount(lists, branches) => problem_of_wrong_time_list_count(
            alloc, path, lists, branches,
        ),
        CaseFormFault::NoTimeList => {
            problem_at(alloc, path, "the times are lists, one for each branch")
        }
    }
}

/// The head of items that is probably meant by `head`, as a hint.
fn nearest_case_or_run_head_hint(
    alloc: Global,
    head: &str,
) -> Result<Option<DidYouMean<'static>>, AllocError> {
    let near = NearestNameSoFar::without_candidates(head).or_nearer_candidate(alloc, "case", head)?;
    Ok(near.or_nearer_candidate(alloc, "run", head)?.hint())
}

/// The problem of a tree that is neither a case nor a run.
fn neither_case_nor_run_problem(alloc: Global, item: usize, form: &Form) -> FoundProblem {
    let head = head_word_or_empty(form);
    if head.is_empty() {
        return problem_showing_tree(alloc, &[item], "", form, " is neither a case nor a run");
    }
    if matches!(head, "model" | "model2") {
        return problem_at(
            alloc,
            &[item],
            "a second model: the first tree of an input is its model",
        );
    }
    let what = format_args!("neither a case nor a run begins with `{head}`");
    match nearest_case_or_run_head_hint(alloc, head)? {
        Some(hint) => problem_with_note_at_part(alloc, &[item], 0, what, hint),
        None => problem_at_part(alloc, &[item], 0, what),
    }
}

/// The problem of the form of an item.
fn case_or_run_form_problem(alloc: Global, item: usize, form: &Form) -> FoundProblem {
    match first_case_or_run_form_fault(form) {
        Some(fault) => {
            let place = path_to_form_fault(alloc, fault)?;
            case_or_run_form_fault_problem(alloc, item, form, fault, place.as_slice())
        }
        None => Ok(None),
    }
}

/// The note on items as JSON.
pub const JSON_ITEM: &str = "an item as JSON is one object on one line, which begins with `{`";

/// Whether a tree is probably a piece of JSON.
fn is_word_beginning_with_json_bracket(form: &Form) -> bool {
    match form {
        Form::Word(word) => matches!(word.as_bytes().first(), Some(b'[' | b'{' | b']' | b'}')),
        Form::Text(_) | Form::Node(_) => false,
    }
}

/// The problem of item `item`, which has another form than a case or a run. A note shows the form that is probably
/// meant.
pub fn case_or_run_form_problem_with_note(alloc: Global, item: usize, form: &Form) -> FoundProblem {
    let found = case_or_run_form_problem(alloc, item, form)?;
    if is_word_beginning_with_json_bracket(form) {
        return with_note(alloc, found, JSON_ITEM);
    }
    let is_run = match nearest_case_or_run_head_hint(alloc, head_word_or_empty(form))? {
        Some(DidYouMean(head)) => head == "run",
        None => false,
    };
    with_note(
        alloc,
        found,
        CaseOrRunSyntax::with_parts_of_tree(form, is_run || has_part_with_head(form, "replies")),
    )
}
