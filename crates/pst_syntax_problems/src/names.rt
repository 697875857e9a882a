//! Unknown names: the nearest of known names, and what messages say of an unknown operation or function.

use crate::problem::{CAPITAL, FoundProblem, is_capitalized_name, problem_at, with_note};
use crate::writing::CommaSeparatedNames;
use pst_model::{Item, Op};
use pst_value::{Items, Text};
use std::alloc::{AllocError, Global};
use std::fmt;
use strsim::levenshtein;

/// Whether `candidate` has as many bytes as `name`, and each of them is one of `name`.
fn has_length_and_only_bytes_of(candidate: &str, name: &str) -> bool {
    let bytes = name.as_bytes();
    candidate.len() == name.len()
        && candidate
            .as_bytes()
            .iter()
            .all(|byte| bytes.iter().any(|other| other == byte))
}

/// The nearest to a name among the candidates so far: at most two edits away, and fewer than the name has
/// bytes. A name of three bytes that is two edits away has the same bytes in another order.
#[derive(Clone, Copy, Drop)]
pub struct NearestNameSoFar<'a> {
    /// The number of edits that is too great.
    limit: usize,
    /// The nearest name so far.
    best: Option<&'a str>,
}

impl<'a> NearestNameSoFar<'a> {
    /// No candidate yet.
    pub fn without_candidates(name: &str) -> NearestNameSoFar<'a> {
        NearestNameSoFar {
            limit: 3.min(name.len()),
            best: None,
        }
    }

    /// The nearest to `name` among the candidates so far and `candidate`.
    pub fn or_nearer_candidate(
        self,
        alloc: Global,
        candidate: &'a str,
        name: &str,
    ) -> Result<NearestNameSoFar<'a>, AllocError> {
        let edits = levenshtein(alloc, candidate, name)?;
        let is_alike = edits < 2 || name.len() > 3 || has_length_and_only_bytes_of(candidate, name);
        if is_alike && edits < self.limit {
            Ok(NearestNameSoFar {
                limit: edits,
                best: Some(candidate),
            })
        } else {
            Ok(self)
        }
    }

    /// The nearest name, as a hint.
    pub fn hint(self) -> Option<DidYouMean<'a>> {
        match self.best {
            Some(best) => Some(DidYouMean(best)),
            None => None,
        }
    }
}

/// The known name that is nearest to `name`, as a hint: see [`NearestNameSoFar`].
pub fn nearest_known_name_hint<'a>(
    alloc: Global,
    known: &'a Items<Text>,
    name: &str,
) -> Result<Option<DidYouMean<'a>>, AllocError> {
    let mut near = NearestNameSoFar::without_candidates(name);
    for candidate in known.as_slice() {
        near = near.or_nearer_candidate(alloc, candidate.as_str(), name)?;
    }
    Ok(near.hint())
}

/// A known name that is probably meant, shown as a hint.
#[derive(Clone, Copy, Drop)]
pub struct DidYouMean<'a>(pub &'a str);

impl fmt::Display for DidYouMean<'_> {
    fn fmt<W: fmt::Write>(&self, f: &mut fmt::Formatter<W>) -> fmt::Result {
        let near = self.0;
        write!(f, "hint: did you mean `{near}`?")
    }
}

/// Adds `name` to `names`.
pub fn push_name(alloc: Global, names: &mut Items<Text>, name: &str) -> Result<(), AllocError> {
    names.push(Text::from_string(String::from_str(alloc, name)?))
}

/// The operation `name`.
pub fn find_operation<'a>(items: &'a [Item], name: &str) -> Option<&'a Op> {
    for item in items {
        if let Item::Op(op) = item {
            if op.name.as_str() == name {
                return Some(op);
            }
        }
    }
    None
}

/// The names of the operations if `are_operations`, else those of the functions.
fn operation_or_function_names(
    alloc: Global,
    items: &[Item],
    are_operations: bool,
) -> Result<Items<Text>, AllocError> {
    let mut names = Items::new(alloc);
    for item in items {
        match item {
            Item::Op(op) if are_operations => push_name(alloc, &mut names, op.name.as_str())?,
            Item::Fun(fun) if !are_operations => push_name(alloc, &mut names, fun.name.as_str())?,
            _ => {}
        }
    }
    Ok(names)
}

/// The problem of the name `name`, which no operation, or no function, has. Its note is the known name that
/// is probably meant, else a hint on a capital letter, else the known names, if there are some.
pub fn unknown_operation_or_function_problem(
    alloc: Global,
    items: &[Item],
    path: &[usize],
    name: &str,
    are_operations: bool,
) -> FoundProblem {
    let known = operation_or_function_names(alloc, items, are_operations)?;
    let kind = if are_operations {
        "operation"
    } else {
        "function"
    };
    let found = problem_at(alloc, path, format_args!("no {kind} has the name `{name}`"))?;
    if let Some(hint) = nearest_known_name_hint(alloc, &known, name)? {
        return with_note(alloc, found, hint);
    }
    if is_capitalized_name(name) {
        return with_note(alloc, found, CAPITAL);
    }
    if known.is_empty() {
        return Ok(found);
    }
    let names = CommaSeparatedNames(&known);
    with_note(alloc, found, format_args!("{kind}s: {names}"))
}
