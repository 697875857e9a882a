//! Problems: what is wrong with a tree and where, with notes, and what messages say of refused names.
ghost use Rattle.std.specs.Prelude.{◌≡◌, IfOk};
ghost use Rattle.pst_syntax_problems.specs.Placed.{below};

use crate::forms::hint_for_foreign_word;
use pst_sexpr::{Form, word_of};
use pst_syntax::{MAX_NAME, is_name};
use pst_value::Text;
use std::alloc::{AllocError, Global};
use std::fmt::Display;

/// The limit on the number of problems of an input that get messages.
pub const MOST_PROBLEMS: usize = 20;

/// What is wrong with a tree.
#[derive(Drop)]
pub struct Problem {
    /// The numbers that lead to the tree: of a tree of the file, from 0, of a tree in it, and so on.
    pub path: Vec<usize>,
    /// What is wrong, in a line.
    pub what: String,
    /// What was wanted, what was found, and hints: a line each.
    pub notes: Vec<String>,
}

impl Problem {
    /// A problem without notes.
    pub fn new<D: Display + Drop>(
        alloc: Global,
        path: Vec<usize>,
        what: D,
    ) -> Result<Problem, AllocError> {
        Ok(Problem {
            path,
            what: format!(in alloc; "{what}")?,
            notes: Vec::new(alloc),
        })
    }

    /// The problem with one more note.
    pub fn with<D: Display + Drop>(self, alloc: Global, note: D) -> Result<Problem, AllocError> {
        let mut problem = self;
        problem.add_note(format!(in alloc; "{note}")?)?;
        Ok(problem)
    }

    /// Adds a note.
    fn add_note(&mut self, note: String) -> Result<(), AllocError> {
        self.notes.push(note)?;
        Ok(())
    }
}

/// `path` with one more number at its end.
pub fn path_to_part(path: &[usize], alloc: Global, number: usize) -> Result<Vec<usize>, AllocError>
    ensures { IfOk result (λ longer. longer.items ≡ below path.now number) }
{
    let mut longer = Vec::from_slice(alloc, path)?;
    longer.push(number)?;
    Ok(longer)
}

/// The result of a check: a problem, or none.
pub type FoundProblem = Result<Option<Problem>, AllocError>;

/// Adds `problem` to `problems`, if there is one.
pub fn push_problem_if_any(
    problems: &mut Vec<Problem>,
    problem: Option<Problem>,
) -> Result<(), AllocError> {
    match problem {
        Some(problem) => Ok(problems.push(problem)?),
        None => Ok(()),
    }
}

/// A problem at the tree that `path` leads to.
pub fn problem_at<D: Display + Drop>(alloc: Global, path: &[usize], what: D) -> FoundProblem {
    let path = Vec::from_slice(alloc, path)?;
    Ok(Some(Problem::new(alloc, path, what)?))
}

/// A problem at part `part` of the tree that `path` leads to.
pub fn problem_at_part<D: Display + Drop>(
    alloc: Global,
    path: &[usize],
    part: usize,
    what: D,
) -> FoundProblem {
    let path = path_to_part(path, alloc, part)?;
    Ok(Some(Problem::new(alloc, path, what)?))
}

/// The problem `found`, if there is one, with one more note.
pub fn with_note<N: Display + Drop>(
    alloc: Global,
    found: Option<Problem>,
    note: N,
) -> FoundProblem {
    match found {
        Some(problem) => Ok(Some(problem.with(alloc, note)?)),
        None => Ok(None),
    }
}

/// A problem at the tree that `path` leads to, with a note.
pub fn problem_with_note<D: Display + Drop, N: Display + Drop>(
    alloc: Global,
    path: &[usize],
    what: D,
    note: N,
) -> FoundProblem {
    with_note(alloc, problem_at(alloc, path, what)?, note)
}

/// A problem at part `part` of the tree that `path` leads to, with a note.
pub fn problem_with_note_at_part<D: Display + Drop, N: Display + Drop>(
    alloc: Global,
    path: &[usize],
    part: usize,
    what: D,
    note: N,
) -> FoundProblem {
    with_note(alloc, problem_at_part(alloc, path, part, what)?, note)
}

/// A problem at `word`, with a hint on what to write instead if it is a word of another language.
pub fn problem_with_hint_if_foreign_word<D: Display + Drop>(
    alloc: Global,
    path: &[usize],
    word: &str,
    what: D,
) -> FoundProblem {
    match hint_for_foreign_word(word) {
        Some(hint) => problem_with_note(alloc, path, what, format_args!("hint: {hint}")),
        None => problem_at(alloc, path, what),
    }
}

/// What is in the single quotes around a word, if they are around it.
pub fn strip_single_quotes(word: &str) -> Option<&str> {
    word.strip_prefix("'")?.strip_suffix("'")
}

/// The problem `found` of `word`, with a hint if the word begins a text in single quotes.
pub fn with_hint_if_opens_single_quote(
    alloc: Global,
    found: Option<Problem>,
    word: &str,
) -> FoundProblem {
    if let Some(text) = strip_single_quotes(word) {
        let hint = format_args!("hint: a text is in double quotes: `\"{text}\"`");
        return with_note(alloc, found, hint);
    }
    if word.starts_with("'") {
        return with_note(alloc, found, "hint: a text is in double quotes");
    }
    Ok(found)
}

/// Whether a name may have `byte` after its first byte.
fn is_inner_name_byte(byte: u8) -> bool {
    byte.is_ascii_alphanumeric() || byte == b'_' || byte == b'-'
}

/// Whether a word would be a name if its first letter were lower-case.
pub fn is_capitalized_name(word: &str) -> bool {
    let bytes = word.as_bytes();
    match bytes.first() {
        Some(first) => first.is_ascii_uppercase()
            && bytes.iter().all(|byte| is_inner_name_byte(*byte)),
        None => false,
    }
}

/// The hint on a word that is no name because it begins with a capital letter.
pub const CAPITAL: &str = "hint: names begin with a lower-case letter";

/// What a name that may not be declared means.
fn meaning_of_reserved_name(name: &str) -> &'static str {
    match name {
        "s" => "the state",
        "r" => "the result",
        _ => "a word of the language",
    }
}

/// The problem of `word` where it is declared and is no valid name there.
pub fn problem_of_bad_name(alloc: Global, path: &[usize], word: &Text) -> FoundProblem {
    let name = word.as_str();
    if is_capitalized_name(name) {
        return problem_with_note(alloc, path, format_args!("`{name}` is not a name"), CAPITAL);
    }
    if !is_name(word) {
        return problem_with_note(
            alloc,
            path,
            format_args!("`{name}` is not a name"),
            "a name is a lower-case letter, then letters, digits, `_` and `-`",
        );
    }
    let meaning = meaning_of_reserved_name(name);
    let what = format_args!("`{name}` is {meaning}; choose another name");
    problem_at(alloc, path, what)
}

/// Returns the problem of `word`, a name with too many bytes.
pub fn problem_of_too_long_name(alloc: Global, path: &[usize], word: &Text) -> FoundProblem {
    let length = word.len();
    let what = format_args!("the name has {length} bytes, at most {MAX_NAME}");
    problem_at(alloc, path, what)
}

/// The problem of a tree that is no word where a name is declared.
pub fn missing_name_problem(alloc: Global, path: &[usize]) -> FoundProblem {
    problem_at(alloc, path, "expected a name here")
}

/// The problem of `form`, which is no name where an operation is named.
pub fn missing_operation_name_problem(alloc: Global, path: &[usize], form: &Form) -> FoundProblem {
    let found = problem_at(alloc, path, "expected the name of an operation here")?;
    match word_of(form) {
        Some(word) if is_capitalized_name(word.as_str()) => with_note(alloc, found, CAPITAL),
        _ => Ok(found),
    }
}
