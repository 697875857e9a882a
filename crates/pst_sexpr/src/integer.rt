//! Words that spell integers: an optional `-`, and then one digit or more.
//!
//! Models and recorded runs share this grammar. Leading zeros are allowed, and so is `-0`. `integer_of`
//! returns the integer that a word spells, if it has at most 64 bits.

ghost use Rattle.std.specs.Prelude.{◌≡◌, ◌+◌, ◌-◌, ◌*◌, pos};
ghost use Rattle.std.specs.List.{list_all};
ghost use Rattle.pst_sexpr.specs.Integers as spec;

use pst_value::Text;

fn is_digit(byte: u8) -> bool
    ensures { result ≡ spec.is_digit byte }
{
    b'0' <= byte && byte <= b'9'
}

fn all_digits(bytes: &[u8]) -> bool
    ensures { result ≡ list_all spec.is_digit bytes.now }
{
    bytes.iter().all(|byte| is_digit(*byte))
}

/// Whether the bytes are one digit or more.
pub fn are_digits(bytes: &[u8]) -> bool
    ensures { result ≡ spec.are_digits bytes.now }
{
    match bytes {
        [] => false,
        [first, digits @ ..] => is_digit(*first) && all_digits(digits),
    }
}

#[tactic(auto, unfolding(crate::specs::Integers::is_integer))]
fn bytes_spell_integer(bytes: &[u8]) -> bool
    ensures { result ≡ spec.is_integer bytes.now }
{
    match bytes {
        [] => false,
        [first, digits @ ..] => if *first == b'-' {
            are_digits(digits)
        } else {
            are_digits(bytes)
        },
    }
}

/// Whether a word is an optional `-`, and then one digit or more.
pub fn is_integer(word: &Text) -> bool
    ensures { result ≡ spec.is_integer word.now }
{
    bytes_spell_integer(word.as_bytes())
}

/// The number with one more digit, if it has at most 64 bits.
fn append_decimal_digit(number: u64, digit: u8) -> Option<u64>
    ensures { result ≡ spec.in_u64 (number * 10 + (digit - 48)) }
{
    number
        .checked_mul(10)?
        .checked_add(u64::from(digit.saturating_sub(b'0')))
}

/// The number that digits spell, or `None` if it has more than 64 bits.
pub fn magnitude_of(digits: &[u8]) -> Option<u64>
    ensures { result ≡ spec.in_u64 (spec.magnitude 0 digits.now) }
{
    let mut number = 0;
    for digit in digits {
        number = append_decimal_digit(number, *digit)?;
    }
    Some(number)
}

fn as_positive_integer(number: u64) -> Option<i64>
    ensures { result ≡ spec.in_i64 (pos number) }
{
    i64::try_from(number).ok()
}

fn as_negative_integer(number: u64) -> Option<i64>
    ensures { result ≡ spec.in_i64 (spec.negative number) }
{
    0i64.checked_sub_unsigned(number)
}

/// The integer that an integer word spells, or `None` if it has more than 64 bits.
#[tactic(auto, unfolding(crate::specs::Integers::value))]
pub fn value_of_integer_word(word: &Text) -> Option<i64>
    ensures { result ≡ spec.in_i64 (spec.value word.now) }
{
    match word.as_bytes() {
        [] => Some(0),
        [first, digits @ ..] => if *first == b'-' {
            as_negative_integer(magnitude_of(digits)?)
        } else {
            as_positive_integer(magnitude_of(word.as_bytes())?)
        },
    }
}

/// The integer that a word spells, or `None` if the word is no integer or the integer has more than 64 bits.
#[tactic(auto, unfolding(crate::specs::Integers::integer_of))]
pub fn integer_of(word: &Text) -> Option<i64>
    ensures { result ≡ spec.integer_of word.now }
{
    if is_integer(word) {
        value_of_integer_word(word)
    } else {
        None
    }
}
