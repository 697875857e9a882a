//! White space, comments and trees, one after another, and the bytes of the tree at a path.
ghost use Rattle.std.specs.Prelude.{◌≡◌, ◌+◌, ◌<◌, ◌≤◌, drop, length, ℕ, List, MatchOption, slice_get};
ghost use Rattle.pst_sources.specs.Paths.{IsWithin, HasTree};
ghost use Rattle.pst_sources.specs.Scanning as spec;
ghost use Rattle.pst_sexpr.specs.declared.form.Form.{Form};
ghost use Rattle.pst_sexpr.specs.Parts.{node_of, tree_in};
ghost use Rattle.pst_sexpr.specs.Reading.{Spells};
ghost use Rattle.pst_sources.specs.Paths as paths;
ghost use Rattle.pst_sources.specs.Scanning.{HasTreesFrom};

/// The bytes of a file from `start` up to `end`, counted from 0.
#[derive(Clone, Copy, Debug, PartialEq, Eq, Drop)]
pub struct Span {
    /// The place of the first byte.
    pub start: usize,
    /// The place after the last byte.
    pub end: usize,
}

/// What a byte is part of.
#[derive(Clone, Copy, PartialEq, Eq, Drop)]
pub enum State {
    /// Between trees.
    Between,
    /// In a comment.
    Comment,
    /// In a word.
    Word,
    /// In a text.
    Text,
    /// In a text, after a `\`.
    Escape,
}

/// Whether a byte is white space.
#[tactic(auto, unfolding(crate::specs::Scanning::is_space))]
pub fn is_space(byte: u8) -> bool
    ensures { result ≡ spec.is_space byte }
{
    byte == b' ' || byte == b'\t' || byte == b'\n' || byte == b'\r'
}

/// Returns the state after `byte`, a byte outside of texts and comments.
#[tactic(auto, unfolding(crate::specs::Scanning::outside))]
fn scan_state_after_byte_outside_texts(byte: u8) -> State
    ensures { result ≡ spec.outside byte }
{
    if byte == b';' {
        State::Comment
    } else if byte == b'"' {
        State::Text
    } else if byte == b'(' || byte == b')' || is_space(byte) {
        State::Between
    } else {
        State::Word
    }
}

/// Returns the state after `byte` in `state`.
#[tactic(auto, unfolding(crate::specs::Scanning::after))]
pub fn scan_state_after_byte(state: State, byte: u8) -> State
    ensures { result ≡ spec.after state byte }
{
    match state {
        State::Between | State::Word => scan_state_after_byte_outside_texts(byte),
        State::Comment => {
            if byte == b'\n' {
                State::Between
            } else {
                State::Comment
            }
        }
        State::Text => {
            if byte == b'"' {
                State::Between
            } else if byte == b'\\' {
                State::Escape
            } else {
                State::Text
            }
        }
        State::Escape => State::Text,
    }
}

/// Returns whether `byte`, read in `state`, is the bracket `bracket` outside of texts and comments.
#[tactic(auto, unfolding(crate::specs::Scanning::is_bracket))]
pub fn is_bracket(state: State, byte: u8, bracket: u8) -> bool
    ensures { result ≡ spec.is_bracket state byte bracket }
{
    byte == bracket && matches!(state, State::Between | State::Word)
}

/// Returns whether `byte`, after which the state is `state`, is part of no tree.
#[tactic(auto, unfolding(crate::specs::Scanning::is_blank))]
fn is_blank(state: State, byte: u8) -> bool
    ensures { result ≡ spec.is_blank state byte }
{
    match state {
        State::Between => is_space(byte),
        State::Comment => true,
        State::Word | State::Text | State::Escape => false,
    }
}

/// Returns the place of the first tree from `from` on, or the end of the input.
#[tactic(auto, using(crate::proofs::Counted::counted))]
pub fn skip_blanks_and_comments(input: &[u8], from: usize) -> usize
    ensures within { result ≤ length input.now }
    ensures counted { from ≤ length input.now
        → result ≡ from + spec.blanks State.Between (drop from input.now) }
{
    let mut state = State::Between;
    for at in from..input.len() {
        let byte = input[at];
        state = scan_state_after_byte(state, byte);
        if !is_blank(state, byte) {
            return at;
        }
    }
    input.len()
}

/// Returns whether a byte after which the state is `state` is part of a word.
fn is_state_in_word(state: State) -> bool
    ensures { result ≡ spec.is_word state }
{
    matches!(state, State::Word)
}

/// Returns the end of the word that begins at `from`.
#[tactic(auto, using(crate::proofs::Counted::counted))]
fn word_end(input: &[u8], from: usize) -> usize
    ensures within { result ≤ length input.now }
    ensures counted { from ≤ length input.now → result ≡ from + spec.word_bytes (drop from input.now) }
{
    for at in from..input.len() {
        if !is_state_in_word(scan_state_after_byte_outside_texts(input[at])) {
            return at;
        }
    }
    input.len()
}

/// Returns how many nodes are open after `byte`, read in `state` with `depth` open nodes.
#[tactic(auto, unfolding(crate::specs::Scanning::depth_after))]
fn depth_after(state: State, depth: usize, byte: u8) -> usize
    requires { depth < usize.MAX }
    ensures { result ≡ spec.depth_after state depth byte }
{
    if is_bracket(state, byte, b'(') {
        depth + 1
    } else if is_bracket(state, byte, b')') {
        depth.saturating_sub(1)
    } else {
        depth
    }
}

/// Returns whether a text or a node ends with `byte`. The state before it is `state`, and after it `next`.
#[tactic(auto, unfolding(crate::specs::Scanning::is_end))]
fn is_end(state: State, byte: u8, next: State) -> bool
    ensures { result ≡ spec.is_end state byte next }
{
    match (state, next) {
        (State::Text, State::Between) => true,
        (_, State::Between) => byte == b')',
        _ => false,
    }
}

/// Returns the end of the text or node that begins at `from`, or the end of the input if it is not closed.
#[tactic(auto, using(crate::proofs::Counted::counted))]
fn end_of_text_or_node(input: &[u8], from: usize) -> usize
    ensures within { result ≤ length input.now }
    ensures counted { from ≤ length input.now
        → result ≡ from + spec.closed_bytes State.Between 0 (drop from input.now) }
{
    let mut state = State::Between;
    let mut depth: usize = 0;
    for at in from..input.len() {
        let byte = input[at];
        let next = scan_state_after_byte(state, byte);
        depth = depth_after(state, depth, byte);
        if depth == 0 && is_end(state, byte, next) {
            return at + 1;
        }
        state = next;
    }
    input.len()
}

/// Returns the end of the tree that begins at `start`, or the end of the input.
#[tactic(auto, unfolding(crate::specs::Scanning::tree_bytes))]
fn tree_end(input: &[u8], start: usize) -> usize
    ensures within { result ≤ length input.now }
    ensures counted { start ≤ length input.now → result ≡ start + spec.tree_bytes (drop start input.now) }
{
    let Some(byte) = input.get(start) else {
        return input.len();
    };
    if *byte == b'(' || *byte == b'"' {
        end_of_text_or_node(input, start)
    } else if *byte == b')' {
        start + 1
    } else {
        word_end(input, start)
    }
}

/// Returns the bytes of the first tree from `from` on, or an empty span at the end of the input.
pub fn tree_at(input: &[u8], from: usize) -> Span
    ensures within { IsWithin input.now result }
    ensures start { from ≤ length input.now
        → result.start ≡ from + spec.blanks State.Between (drop from input.now) }
    ensures end { result.end ≡ result.start + spec.tree_bytes (drop result.start input.now) }
{
    let start = skip_blanks_and_comments(input, from);
    Span {
        start,
        end: tree_end(input, start),
    }
}

/// Returns the tree after the first `count` trees from `from` on.
fn span_of_tree_after_count(input: &[u8], from: usize, count: usize) -> Span
    ensures within { IsWithin input.now result }
    ensures found { (trees : List Form) (tree : Form) → HasTreesFrom input.now from trees
        → slice_get trees count ≡ Some tree → HasTree input.now result tree }
{
    let mut at = from;
    for _ in 0..count {
        at = tree_at(input, at).end;
    }
    tree_at(input, at)
}

/// Returns tree `number`, from 0, of those that begin at `from` and end before a `)` or the end of the input.
fn span_of_tree_numbered(input: &[u8], from: usize, number: usize) -> Option<Span>
    ensures within { MatchOption result (Unit {0}) (IsWithin input.now) }
    ensures found { (trees : List Form) (tree : Form) → HasTreesFrom input.now from trees
        → slice_get trees number ≡ Some tree → MatchOption result ⊥ (λ span. HasTree input.now span tree) }
{
    let span = span_of_tree_after_count(input, from, number);
    let byte = *input.get(span.start)?;
    if byte == b')' { None } else { Some(span) }
}

/// Returns part `number`, from 0, of the node `tree`.
fn span_of_node_part(input: &[u8], tree: Span, number: usize) -> Option<Span>
    ensures within { MatchOption result (Unit {0}) (IsWithin input.now) }
    ensures found { (node : Form) (parts : List Form) (part : Form) → HasTree input.now tree node
        → node_of node ≡ Some parts → slice_get parts number ≡ Some part
        → MatchOption result ⊥ (λ span. HasTree input.now span part) }
{
    let byte = *input.get(tree.start)?;
    if byte == b'(' {
        span_of_tree_numbered(input, tree.start + 1, number)
    } else {
        None
    }
}

/// Returns the bytes of the tree at `path` in `tree`. The path is the number of a part, from 0, then that
/// of a part of this part, and so on. If a part is missing, returns the bytes of the last tree on the path.
///
/// `found` says this of bytes that spell one tree from the first byte on.
pub fn deepest_span_on_path_in_tree(input: &[u8], tree: Span, path: &[usize]) -> Span
    ensures within { IsWithin input.now tree → IsWithin input.now result }
    ensures found { (whole : Form) (part : Form) → HasTree input.now tree whole
        → tree_in path.now whole ≡ Some part → HasTree input.now result part }
{
    let mut found = tree;
    for number in path {
        let Some(part) = span_of_node_part(input, found, *number) else {
            return found;
        };
        found = part;
    }
    found
}

/// Returns the bytes of the tree at `path`: the number of a tree of the file, from 0, and then a path in it,
/// as for `deepest_span_on_path_in_tree`. If the file has no such tree, returns all its bytes.
///
/// `found` says this of every file that spells trees.
pub fn span_at_path_or_whole_input(input: &[u8], path: &[usize]) -> Span
    ensures within { IsWithin input.now result }
    ensures found { (trees : List Form) (tree : Form) → Spells input.now trees
        → paths.tree_at path.now trees ≡ Some tree → HasTree input.now result tree }
{
    let all = Span {
        start: 0,
        end: input.len(),
    };
    let Some((first, rest)) = path.split_first() else {
        return all;
    };
    match span_of_tree_numbered(input, 0, *first) {
        Some(tree) => deepest_span_on_path_in_tree(input, tree, rest),
        None => all,
    }
}
