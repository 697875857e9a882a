//! The classes of bytes.

ghost use Rattle.std.specs.Prelude.{◌≡◌, ◌<◌, IsTrue};
ghost use Rattle.pst_sexpr.specs.Bytes as spec;

/// Whether `byte` separates trees.
#[tactic(auto, unfolding(crate::specs::Bytes::is_blank))]
pub fn is_blank(byte: u8) -> bool
    ensures { result ≡ spec.is_blank byte }
{
    byte == 9 || byte == 10 || byte == 13 || byte == 32
}

/// Whether `byte` may be part of a word.
#[tactic(auto, unfolding(crate::specs::Bytes::is_word_byte))]
pub fn is_word_byte(byte: u8) -> bool
    ensures same { result ≡ spec.is_word_byte byte }
    ensures ascii { IsTrue result → byte < 128 }
{
    32 < byte && byte < 127 && !(byte == b'(' || byte == b')' || byte == b'"' || byte == b';')
}

/// Whether `byte` may be in a text unescaped.
#[tactic(auto, unfolding(crate::specs::Bytes::is_text_byte))]
pub fn is_text_byte(byte: u8) -> bool
    ensures same { result ≡ spec.is_text_byte byte }
    ensures ascii { IsTrue result → byte < 128 }
{
    31 < byte && byte < 127 && !(byte == b'"' || byte == b'\\')
}

/// Whether `byte` may follow `\` in a text.
#[tactic(auto, unfolding(crate::specs::Bytes::is_escaped_byte))]
pub fn is_escaped_byte(byte: u8) -> bool
    ensures same { result ≡ spec.is_escaped_byte byte }
    ensures ascii { IsTrue result → byte < 128 }
{
    byte == b'"' || byte == b'\\'
}
