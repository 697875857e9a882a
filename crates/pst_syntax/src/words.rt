//! The words of models: those that head a bracket, and the valid names.
ghost use Rattle.std.specs.Prelude.{◌≡◌, map, Err};
ghost use Rattle.pst_syntax.specs.Heads.{head_of, look_up};
ghost use Rattle.std.specs.List.{list_all};
ghost use Rattle.pst_model.specs.Names as names;
ghost use Rattle.pst_syntax.specs.Names as spec;
ghost use Rattle.pst_syntax.specs.Reading.{Gives, declared};
ghost use Rattle.pst_syntax.specs.declared.fault.FaultKind.{FaultKind};

use crate::fault::FaultKind;
use crate::reader::MAX_NAME;
use pst_model::{Binary, Unary};
use pst_value::Text;
use std::alloc::Global;

/// What a bracket is, by its first word.
#[derive(Clone, Copy, Debug, PartialEq, Eq)]
pub enum Head {
    Let,
    If,
    And,
    Or,
    Unary(Unary),
    Binary(Binary),
    Tuple,
    At,
    List,
    For,
    Fold,
    Map,
    Put,
    Call,
    Ref,
    In,
    When,
}

/// The head words of expressions, types and clauses in both languages.
pub const HEADS: [(&str, Head); 28] = [
    ("let", Head::Let),
    ("if", Head::If),
    ("+", Head::Binary(Binary::Add)),
    ("-", Head::Binary(Binary::Sub)),
    ("*", Head::Binary(Binary::Mul)),
    ("div", Head::Binary(Binary::Div)),
    ("rem", Head::Binary(Binary::Rem)),
    ("<", Head::Binary(Binary::Less)),
    ("<=", Head::Binary(Binary::LessEqual)),
    ("=", Head::Binary(Binary::Equal)),
    ("same", Head::Binary(Binary::Same)),
    ("not", Head::Unary(Unary::Not)),
    ("and", Head::And),
    ("or", Head::Or),
    ("tuple", Head::Tuple),
    ("at", Head::At),
    ("list", Head::List),
    ("++", Head::Binary(Binary::Append)),
    ("len", Head::Unary(Unary::Len)),
    ("nth", Head::Binary(Binary::Nth)),
    ("range", Head::Binary(Binary::Range)),
    ("for", Head::For),
    ("fold", Head::Fold),
    ("call", Head::Call),
    ("deref", Head::Unary(Unary::Deref)),
    ("ref", Head::Ref),
    ("in", Head::In),
    ("when", Head::When),
];

/// The head words of maps, which are free names in the language without maps.
pub const MAP_HEADS: [(&str, Head); 6] = [
    ("get", Head::Binary(Binary::Get)),
    ("has", Head::Binary(Binary::Has)),
    ("del", Head::Binary(Binary::Del)),
    ("keys", Head::Unary(Unary::Keys)),
    ("put", Head::Put),
    ("map", Head::Map),
];

/// The head that a word is, in the language with or without maps.
#[tactic(auto, unfolding(crate::specs::Heads::head_of))]
pub fn head_of(has_maps: bool, word: &str) -> Option<Head>
    ensures { result ≡ head_of has_maps word.now }
{
    if let Some(head) = look_up(&HEADS, word) {
        return Some(head);
    }
    if has_maps {
        look_up(&MAP_HEADS, word)
    } else {
        None
    }
}

fn look_up(rows: &[(&str, Head)], word: &str) -> Option<Head>
    ensures { result ≡ look_up (map (λ row. (row.0.now, row.1)) rows.now) word.now }
{
    match rows {
        [] => None,
        [row, rows @ ..] => if row.0 == word {
            Some(row.1)
        } else {
            look_up(rows, word)
        },
    }
}

fn is_name_byte(byte: u8) -> bool
    ensures { result ≡ names.is_name_byte byte }
{
    (b'a' <= byte && byte <= b'z')
        || (b'A' <= byte && byte <= b'Z')
        || (b'0' <= byte && byte <= b'9')
        || byte == b'_'
        || byte == b'-'
}

fn all_name_bytes(bytes: &[u8]) -> bool
    ensures { result ≡ list_all names.is_name_byte bytes.now }
{
    bytes.iter().all(|byte| is_name_byte(*byte))
}

fn bytes_are_name(bytes: &[u8]) -> bool
    ensures { result ≡ names.is_name bytes.now }
{
    match bytes {
        [] => false,
        [first, rest @ ..] => b'a' <= *first && *first <= b'z' && all_name_bytes(rest),
    }
}

/// Whether a word is a lower-case letter and then letters, digits, `_` and `-`.
pub fn is_name(word: &Text) -> bool
    ensures { result ≡ names.is_name word.now }
{
    bytes_are_name(word.as_bytes())
}

/// Whether a word has at most `MAX_NAME` bytes.
pub fn is_within_name_length(word: &Text) -> bool
    ensures { result ≡ spec.is_short word.now }
{
    word.len() <= MAX_NAME
}

/// Whether `word` has a meaning of its own at a name's place. The words of maps have one only if the
/// language has maps.
#[tactic(auto, unfolding(crate::specs::Names::is_reserved))]
fn is_reserved(has_maps: bool, word: &str) -> bool
    ensures { result ≡ spec.is_reserved has_maps word.now }
{
    word == "true"
        || word == "false"
        || word == "s"
        || word == "r"
        || head_of(has_maps, word).is_some()
}

/// Whether a function, a parameter or a bound name may be named so in the language with or without maps,
/// whatever the length of the name.
pub fn is_unreserved_name(has_maps: bool, word: &Text) -> bool
    ensures { result ≡ spec.is_free has_maps word.now }
{
    is_name(word) && !is_reserved(has_maps, word.as_str())
}

/// Whether a word may be used as the name of a function, a parameter or a bound name in the language with or
/// without maps.
#[tactic(auto, unfolding(crate::specs::Names::is_used))]
pub fn is_usable_name(has_maps: bool, word: &Text) -> bool
    ensures { result ≡ spec.is_used has_maps word.now }
{
    is_unreserved_name(has_maps, word) && is_within_name_length(word)
}

/// Whether a word may be used as the name of an operation.
#[tactic(auto, unfolding(crate::specs::Names::is_used_operation))]
pub fn is_usable_operation_name(word: &Text) -> bool
    ensures { result ≡ spec.is_used_operation word.now }
{
    is_name(word) && is_within_name_length(word)
}

/// Copies a declared name. `is_lawful` says whether it is valid there, and `is_taken` whether it is taken.
///
/// `BadName`: it is not valid. `DoubleName`: it is taken. `OverLimit`: it has more than `MAX_NAME` bytes.
/// `NoMemory`: an allocation failed; the other faults do not allocate.
#[tactic(auto, unfolding(crate::specs::Reading::declared))]
pub fn check_and_copy_declared_name(
    alloc: Global,
    is_lawful: bool,
    is_taken: bool,
    word: &Text,
) -> Result<Text, FaultKind>
    ensures gives { Gives result (declared is_lawful is_taken word.now) }
    ensures refused { (kind : FaultKind) →
        declared is_lawful is_taken word.now ≡ Err kind → result ≡ Err kind }
{
    if !is_lawful {
        return Err(FaultKind::BadName);
    }
    if is_taken {
        return Err(FaultKind::DoubleName);
    }
    if !is_within_name_length(word) {
        return Err(FaultKind::OverLimit);
    }
    Ok(word.copy(alloc)?)
}
