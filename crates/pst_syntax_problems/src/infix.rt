//! What other languages write in the place of expressions: operators between their operands, and assignments.

use crate::writing::shortened_tree_text;
use pst_sexpr::{Form, word_of};
use std::alloc::{AllocError, Global};

/// The greatest number of trees with operators between them that a hint rewrites.
const MOST_TREES: usize = 9;

/// The number of ranks of operators.
const RANKS: usize = 5;

/// The hint on an assignment.
pub const ASSIGNMENT: &str =
    "hint: there is no assignment: write `(next v)`, where `v` is the new state";

/// The operator of this language that `operator` means.
fn model_operator_meant_by(operator: &str) -> Option<&str> {
    match operator {
        "+" | "-" | "*" | "++" | "<" | "<=" | "=" | "and" | "or" | "div" | "rem" => Some(operator),
        "==" => Some("="),
        "&&" => Some("and"),
        "||" => Some("or"),
        "/" => Some("div"),
        "%" => Some("rem"),
        _ => None,
    }
}

/// Whether a word is an operator of this or of another language.
pub fn is_model_or_foreign_operator(word: &str) -> bool {
    matches!(word, ">" | ">=" | "!=") || model_operator_meant_by(word).is_some()
}

/// The rank of an operator: those of rank 0 are applied first.
fn precedence_rank_of_operator(operator: &str) -> usize {
    match operator {
        "*" | "/" | "%" | "div" | "rem" => 0,
        "+" | "-" | "++" => 1,
        "and" | "&&" => 3,
        "or" | "||" => 4,
        _ => 2,
    }
}

/// How `operator` is applied to `left` and `right`, if it is an operator of this or of another language.
fn operator_application_text(
    alloc: Global,
    operator: &str,
    left: &str,
    right: &str,
) -> Result<Option<String>, AllocError> {
    match operator {
        ">" => Ok(Some(format!(in alloc; "(< {right} {left})")?)),
        ">=" => Ok(Some(format!(in alloc; "(<= {right} {left})")?)),
        "!=" => Ok(Some(format!(in alloc; "(not (= {left} {right}))")?)),
        _ => match model_operator_meant_by(operator) {
            Some(head) => Ok(Some(format!(in alloc; "({head} {left} {right})")?)),
            None => Ok(None),
        },
    }
}

/// An operand and the operator before it. The first operand has an empty word before it.
#[derive(Drop)]
struct OperandAfterOperator<'a> {
    operator: &'a str,
    operand: String,
}

/// The operands among `parts`, each with the operator before it. `None` unless every second tree is a word, and the last
/// tree an operand.
fn operands_with_operators_before<'a>(
    alloc: Global,
    parts: &'a [Form],
) -> Result<Option<Vec<OperandAfterOperator<'a>>>, AllocError> {
    let mut links = Vec::new(alloc);
    let mut operator = "";
    let mut is_operand = true;
    for part in parts {
        if is_operand {
            let operand = shortened_tree_text(alloc, part)?;
            links.push(OperandAfterOperator { operator, operand })?;
        } else if let Some(word) = word_of(part) {
            operator = word.as_str();
        } else {
            return Ok(None);
        }
        is_operand = !is_operand;
    }
    if is_operand {
        Ok(None)
    } else {
        Ok(Some(links))
    }
}

/// The operand that the operator of `right` makes of the operand of `left` and its own.
fn operand_after_applying_operator<'a>(
    alloc: Global,
    left: Option<OperandAfterOperator<'a>>,
    right: OperandAfterOperator<'a>,
) -> Result<Option<OperandAfterOperator<'a>>, AllocError> {
    let Some(left) = left else {
        return Ok(None);
    };
    let (first, second) = (left.operand.as_str(), right.operand.as_str());
    match operator_application_text(alloc, right.operator, first, second)? {
        Some(operand) => Ok(Some(OperandAfterOperator {
            operator: left.operator,
            operand,
        })),
        None => Ok(None),
    }
}

/// The operands after the operators of `rank` are applied, from left to right. `None` if one of them is no operator.
fn operands_after_applying_operators_of_rank<'a>(
    alloc: Global,
    links: Vec<OperandAfterOperator<'a>>,
    rank: usize,
) -> Result<Option<Vec<OperandAfterOperator<'a>>>, AllocError> {
    let mut applied = Vec::new(alloc);
    for link in links {
        if link.operator.is_empty() || precedence_rank_of_operator(link.operator) != rank {
            applied.push(link)?;
            continue;
        }
        match operand_after_applying_operator(alloc, applied.pop(), link)? {
            Some(link) => applied.push(link)?,
            None => return Ok(None),
        }
    }
    Ok(Some(applied))
}

/// The expression that `parts` mean, if they are one operand or an operator is between each two operands. `None` if
/// there are more than `MOST_TREES` of them.
pub fn operator_first_text_of_infix_parts(
    alloc: Global,
    parts: &[Form],
) -> Result<Option<String>, AllocError> {
    if parts.len() > MOST_TREES {
        return Ok(None);
    }
    let Some(mut links) = operands_with_operators_before(alloc, parts)? else {
        return Ok(None);
    };
    for rank in 0..RANKS {
        let Some(applied) = operands_after_applying_operators_of_rank(alloc, links, rank)? else {
            return Ok(None);
        };
        links = applied;
    }
    match links.pop() {
        Some(link) => Ok(Some(link.operand)),
        None => Ok(None),
    }
}

/// What a hint says of the operators among `parts`.
pub fn operators_come_first_phrase(parts: &[Form]) -> &'static str {
    if parts.len() > 3 {
        "operators come first"
    } else {
        "the operator comes first"
    }
}

/// Whether a word means the new state in other languages.
pub fn is_foreign_word_for_new_state(word: &str) -> bool {
    matches!(word, "s'" | "state'")
}

/// What the trees `parts` assign, if they are an assignment. `=` assigns to the new state, and in next also to `s`.
pub fn assigned_trees_if_assignment(is_next: bool, parts: &[Form]) -> Option<&[Form]> {
    let [Form::Word(name), Form::Word(operator), value @ ..] = parts else {
        return None;
    };
    let name = name.as_str();
    let is_assignment = match operator.as_str() {
        ":=" | "<-" => true,
        "=" | "==" => is_foreign_word_for_new_state(name) || (is_next && name == "s"),
        _ => false,
    };
    if is_assignment { Some(value) } else { None }
}
