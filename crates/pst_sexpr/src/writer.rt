//! The writer of trees.
ghost use Rattle.std.specs.Prelude.{◌≡◌, [], ◌∷◌, false, map};
ghost use Rattle.pst_sexpr.specs.Spelling.{escape, escaped, gap, spaced, spelling};
ghost use Rattle.pst_sexpr.specs.Reading.{Spells};
ghost use Rattle.pst_sexpr.specs.Writing.{Writes};

use crate::bytes::is_escaped_byte;
use crate::form::{Form, Tree};
use crate::sink::{Sink, WriteFailed, put_all};

/// Writes a byte of a text.
fn write_byte_escaped_if_needed<W: Sink>(byte: u8, sink: &mut W) -> Result<(), WriteFailed>
    requires { W.broken sink.old ≡ false }
    ensures { Writes (W.taken sink.old) (W.taken sink.new) (W.broken sink.new) result (escaped byte) }
{
    if is_escaped_byte(byte) {
        put_all(&[b'\\', byte], sink)
    } else {
        put_all(&[byte], sink)
    }
}

/// Writes the escaped bytes between the quotes of a text.
fn write_escaped_text_bytes<W: Sink>(bytes: &[u8], sink: &mut W) -> Result<(), WriteFailed>
    requires { W.broken sink.old ≡ false }
    ensures { Writes (W.taken sink.old) (W.taken sink.new) (W.broken sink.new) result (escape bytes.now) }
{
    for byte in bytes {
        write_byte_escaped_if_needed(*byte, sink)?;
    }
    Ok(())
}

/// Writes what separates a part of a node from the `parts` parts before it: a space, or nothing if `parts` is
/// 0.
fn write_space_unless_first<W: Sink>(parts: usize, sink: &mut W) -> Result<(), WriteFailed>
    requires { W.broken sink.old ≡ false }
    ensures { Writes (W.taken sink.old) (W.taken sink.new) (W.broken sink.new) result (gap parts) }
{
    if parts == 0 {
        Ok(())
    } else {
        put_all(b" ", sink)
    }
}

/// Writes a tree.
#[cycle(writing)]
fn write_form<W: Sink>(form: &Form, sink: &mut W) -> Result<(), WriteFailed>
    requires { W.broken sink.old ≡ false }
    ensures { Writes (W.taken sink.old) (W.taken sink.new) (W.broken sink.new) result (spelling form.now) }
{
    match form {
        Form::Word(word) => put_all(word.as_bytes(), sink),
        Form::Text(text) => {
            put_all(b"\"", sink)?;
            write_escaped_text_bytes(text.as_bytes(), sink)?;
            put_all(b"\"", sink)
        }
        Form::Node(forms) => {
            put_all(b"(", sink)?;
            write_forms_with_spaces(forms.as_slice(), sink)?;
            put_all(b")", sink)
        }
    }
}

/// Writes trees with a space between them.
#[cycle(writing)]
fn write_forms_with_spaces<W: Sink>(forms: &[Form], sink: &mut W) -> Result<(), WriteFailed>
    requires { W.broken sink.old ≡ false }
    ensures { Writes (W.taken sink.old) (W.taken sink.new) (W.broken sink.new) result
        (spaced (map spelling forms.now)) }
{
    for (place, form) in forms.iter().enumerate() {
        write_space_unless_first(place, sink)?;
        write_form(form, sink)?;
    }
    Ok(())
}

/// Writes the tree in its one spelling: a space between the trees of a node, and nowhere else.
///
/// It does not allocate. The sink must not have failed. `WriteFailed`: the sink failed, and took only a
/// beginning of the spelling.
pub fn write<W: Sink>(tree: &Tree, sink: &mut W) -> Result<(), WriteFailed>
    requires { W.broken sink.old ≡ false }
    // What goes out is the spelling of the tree.
    ensures written { Writes (W.taken sink.old) (W.taken sink.new) (W.broken sink.new) result
        (spelling tree.now) }
    // Its spelling is read as the tree and as nothing else.
    ensures reads_back { Spells (spelling tree.now) (tree.now ∷ []) }
{
    write_form(tree.form(), sink)
}
