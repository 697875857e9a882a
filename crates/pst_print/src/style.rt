//! How the parts of a node are split into lines, by its head word.

/// Which parts stay on the line of the part before them, in a node that does not fit on one line. Each other part
/// begins a line.
#[derive(Clone, Copy, Debug, PartialEq, Eq, Drop)]
pub enum Rule {
    /// This number of parts after the head.
    First(usize),
    /// Each part that fits there.
    Filled,
    /// Each part of an operation that fits there, and begins no line in the file.
    Operation,
    /// Each part of a case or of a recorded run that begins no line in the file.
    Item,
    /// The name, and then the state and the initial state if they fit and begin no line in the file.
    Model,
}

/// How a node that does not fit on one line is laid out.
#[derive(Clone, Copy, Debug, PartialEq, Eq, Drop)]
pub struct Style {
    pub rule: Rule,
    /// The column in which lines begin within the node.
    pub indent: usize,
}

/// The greatest column in which parts are aligned with the first one.
const MOST_ALIGNED: usize = 40;

/// The head words of nodes whose lines take as many parts as fit.
const FILLED: [&str; 9] = [
    "list", "tuple", "call", "replies", "prefix", "left", "right", "branches", "suffix",
];

/// Whether a head word is one of these words.
fn is_one_of(head: &[u8], words: &[&str]) -> bool {
    for word in words {
        if head == word.as_bytes() {
            return true;
        }
    }
    false
}

/// Which parts stay on one line, and whether lines begin two columns within the node, not below its first part.
fn line_rule_and_indent_of_head(head: &[u8]) -> (Rule, bool) {
    if is_one_of(head, &["model", "model2"]) {
        (Rule::Model, true)
    } else if is_one_of(head, &["op"]) {
        (Rule::Operation, true)
    } else if is_one_of(head, &["fun", "postfun"]) {
        (Rule::First(3), true)
    } else if is_one_of(head, &["let"]) {
        (Rule::First(2), true)
    } else if is_one_of(head, &["for"]) {
        (Rule::First(1), true)
    } else if is_one_of(head, &["case", "run"]) {
        (Rule::Item, true)
    } else if is_one_of(head, &["fold"]) {
        (Rule::First(4), true)
    } else if is_one_of(head, &FILLED) {
        (Rule::Filled, false)
    } else {
        (Rule::First(1), false)
    }
}

/// The style of a node with the head word `head` and its bracket in `column`.
pub fn node_layout_style(head: &[u8], column: usize) -> Style {
    let (rule, is_within) = line_rule_and_indent_of_head(head);
    let within = column.saturating_add(2);
    let aligned = within.saturating_add(head.len());
    let indent = if is_within || aligned > MOST_ALIGNED {
        within
    } else {
        aligned
    };
    Style { rule, indent }
}

/// How many parts of a node with the head word `head` are leading: they stay on the line of its bracket wherever they
/// begin in the file. These are the head word, and the name of a model.
pub fn leading_parts_of_head(head: &[u8]) -> usize {
    match line_rule_and_indent_of_head(head) {
        (Rule::Model, _) => 2,
        _ => 1,
    }
}

impl Rule {
    /// Whether a part that begins a line in the file still begins one.
    pub fn keeps_input_line_breaks(self) -> bool {
        matches!(self, Rule::Operation | Rule::Item | Rule::Model)
    }
}

/// The style of a node without a head word, with its bracket in `column`: each part begins a line.
pub fn headless_node_layout_style(column: usize) -> Style {
    Style {
        rule: Rule::First(0),
        indent: column.saturating_add(1),
    }
}
