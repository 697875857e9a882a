//! Forms that have a spelling.
ghost use Rattle.std.specs.Prelude.{◌≡◌, ◌≤◌, true};
ghost use Rattle.std.specs.List.{list_all};
ghost use Rattle.pst_json_runs.specs.Spelled as spec;
ghost use Rattle.pst_sexpr.specs.Bytes as of_bytes;
ghost use Rattle.pst_sexpr.specs.Lawful.{IsTree};
ghost use Rattle.pst_value.specs.Text.{is_printable};

use pst_sexpr::{Form, MAX_LEVELS};

#[tactic(auto, unfolding(pst_sexpr::specs::Bytes::is_word_byte))]
fn is_word_byte(byte: u8) -> bool
    ensures { result ≡ of_bytes.is_word_byte byte }
{
    b' ' < byte && byte < 127 && !(byte == b'(' || byte == b')' || byte == b'"' || byte == b';')
}

fn are_word_bytes(bytes: &[u8]) -> bool
    ensures { result ≡ list_all of_bytes.is_word_byte bytes.now }
{
    bytes.iter().all(|byte| is_word_byte(*byte))
}

fn is_word(bytes: &[u8]) -> bool
    ensures { result ≡ spec.is_word bytes.now }
{
    match bytes {
        [] => false,
        [first, others @ ..] => is_word_byte(*first) && are_word_bytes(others),
    }
}

fn is_printable(byte: u8) -> bool
    ensures { result ≡ is_printable byte }
{
    32 <= byte && byte <= 126
}

fn has_only_printable_bytes(bytes: &[u8]) -> bool
    ensures { result ≡ list_all is_printable bytes.now }
{
    bytes.iter().all(|byte| is_printable(*byte))
}

/// Whether a form has a spelling of at most `room` levels.
#[cycle(spelled)]
#[tactic(auto, using(crate::proofs::Levels::levels))]
fn has_spelling_within_levels(form: &Form, room: usize) -> bool
    ensures { result ≡ spec.spelled_in room form.now }
{
    match form {
        Form::Word(bytes) => is_word(bytes.as_bytes()),
        Form::Text(bytes) => has_only_printable_bytes(bytes.as_bytes()),
        Form::Node(parts) => {
            if room == 0 {
                return false;
            }
            all_have_spelling_within_levels(parts.as_slice(), room - 1)
        }
    }
}

#[cycle(spelled)]
fn all_have_spelling_within_levels(forms: &[Form], room: usize) -> bool
    ensures { result ≡ list_all (spec.spelled_in room) forms.now }
{
    for form in forms {
        if !has_spelling_within_levels(form, room) {
            return false;
        }
    }
    true
}

/// Whether a form has a spelling.
fn has_spelling(form: &Form) -> bool
    ensures { result ≡ spec.has_spelling form.now }
{
    has_spelling_within_levels(form, MAX_LEVELS)
}

/// The form, or the other one if it has no spelling.
pub fn form_or_other_if_unspellable(form: Form, other: Form) -> Form
    ensures { result ≡ spec.if_spelled form other }
{
    if has_spelling(&form) { form } else { other }
}
