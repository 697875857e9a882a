//! Values in little memory, for a search that remembers many of them: how they are kept, compared and hashed.
//!
//! A [`Packed`] is an integer as it is, or the code of any other value: a tag, and then the parts, as bytes. No
//! code is a prefix of another. So equal bytes are the codes of equal values, and a short code needs no length.
//! Two packed values are compared, and hashed, as their bytes are. `AllocError` means that an allocation
//! failed.
ghost use Rattle.std.specs.Prelude.{◌≡◌, IfOk, ◌≤◌, length, None};
ghost use Rattle.pst_judge.specs.Kept.{int_of, padded};
ghost use Rattle.pst_judge.specs.Forms.{int_in, bytes_in, IsForm};
ghost use Rattle.std.specs.List.{fold};
ghost use Rattle.pst_judge.specs.Feeding.{words};

use crate::code::encode_value;
use pst_value::Value;
use std::alloc::{AllocError, Global};
use std::hash::{Hash, Hasher};
use std::marker::Model;
use std::mem::size_of;
use std::snapshot::Snapshot;

/// A value in little memory. Contracts see it as the value.
///
/// It takes 32 bytes, and more memory only if the value's code is longer than 24 bytes: one block, with as many
/// bytes as the code.
#[derive(Drop)]
pub struct Packed {
    form: PackedForm,
    value: Snapshot<Value>,
}

/// A packed value takes no more memory than one node of a value.
const _: () = prove!(size_of::<Packed>() == 32);

impl Model for Packed {
    ghost use Rattle.pst_value.specs.declared.value.Value.{Value as Tree};
    ghost use Rattle.pst_value.specs.contracts.value.Value as coding;

    ghost Value = { Tree };

    ghost coded = { coding.the_row.coded };

    ghost use Rattle.pst_judge.specs.Forms.{IsForm};

    ghost view = { λ p. p.value.value };

    ghost invariant = { λ p. IsForm p.form p.value.value };
}

impl Packed {
    /// Packs a value into little memory.
    #[inline(always)]
    pub fn new(alloc: Global, value: &Value) -> Result<Packed, AllocError>
        ensures { IfOk result (λ p. p ≡ value.now) }
    {
        Ok(Packed {
            form: PackedForm::new(alloc, value)?,
            value: Snapshot::of(value),
        })
    }
}

impl PartialEq for Packed {
    ghost use Rattle.std.specs.Cmp.{partial_equiv_from_equiv, decided};
    ghost use Rattle.pst_value.specs.Equality.{same_value};
    ghost use Rattle.pst_value.proofs.Exact.{same_value-Decides};

    ghost eq = { same_value };

    ghost laws = { partial_equiv_from_equiv (decided same_value same_value-Decides) };

    #[inline(always)]
    fn eq(&self, other: &Self) -> bool {
        match (self.form.int(), other.form.int()) {
            (Some(one), Some(two)) => one == two,
            (None, None) => self.form.bytes() == other.form.bytes(),
            (Some(_), None) => false,
            (None, Some(_)) => false,
        }
    }
}

impl Eq for Packed {
    ghost use Rattle.std.specs.Cmp.{decided};
    ghost use Rattle.pst_value.specs.Equality.{same_value};
    ghost use Rattle.pst_value.proofs.Exact.{same_value-Decides};

    ghost laws = { decided same_value same_value-Decides };
}

impl Hash for Packed {
    ghost use Rattle.std.proofs.Common.{ap};
    ghost use Rattle.pst_judge.specs.Feeding.{fed};
    ghost use Rattle.pst_value.proofs.Exact.{same_value-Decides};

    ghost hash_input = { fed };

    ghost respects_eq = { λ x y h. ap fed ((same_value-Decides x y).0 h) };

    #[inline(always)]
    fn hash<H: Hasher>(&self, state: &mut H) {
        match self.form.int() {
            Some(n) => state.write_i64(n),
            None => hash_packed_bytes(self.form.bytes(), state),
        }
    }
}

/// The maximum number of bytes of a code that takes no memory of its own.
const SHORT: usize = 24;

/// The bytes that a draft of a code has room for at first. Most codes are shorter.
const DRAFT: usize = 128;

/// How a value is kept.
#[derive(Drop)]
pub(crate) enum PackedForm {
    /// The value is this integer.
    Int(i64),
    /// A code of at most `SHORT` bytes, and zeros after it. No code is a prefix of another, so its length is
    /// not stored.
    Short([u8; SHORT]),
    /// A longer code.
    Long(Vec<u8>),
}

/// The integer that a value is, if it is one.
#[inline(always)]
#[tactic(auto, using(crate::proofs::Coding::integers))]
fn int_of(value: &Value) -> Option<i64>
    ensures { result ≡ int_of value.now }
{
    match value {
        Value::Int(n) => Some(*n),
        Value::Bool(_) | Value::Text(_) | Value::Tuple(_) | Value::List(_) => None,
        Value::Map(_, _) | Value::Var(_) | Value::Ref(_, _) | Value::Call(_, _) => None,
    }
}

/// The bytes of a short code, and zeros after them.
fn pad_code_with_zeros(code: &[u8]) -> [u8; SHORT]
    requires { length code.now ≤ 24 }
    ensures { result ≡ padded code.now }
{
    let mut bytes = [0; SHORT];
    bytes[..code.len()].copy_from_slice(code);
    bytes
}

/// The form of bytes that are the code of a value.
fn short_or_long_form_of_code(alloc: Global, code: &[u8]) -> Result<PackedForm, AllocError>
    ensures none { IfOk result (λ form. int_in form ≡ None) }
    ensures all { IfOk result (λ form. bytes_in form ≡ padded code.now) }
{
    if code.len() <= SHORT {
        return Ok(PackedForm::Short(pad_code_with_zeros(code)));
    }
    Ok(PackedForm::Long(Vec::from_slice(alloc, code)?))
}

impl PackedForm {
    /// The form of a value.
    #[inline(always)]
    pub(crate) fn new(alloc: Global, value: &Value) -> Result<PackedForm, AllocError>
        ensures { IfOk result (λ form. IsForm form value.now) }
    {
        match int_of(value) {
            Some(n) => Ok(PackedForm::Int(n)),
            None => PackedForm::from_non_integer_value(alloc, value),
        }
    }

    /// The form of a value that is no integer.
    fn from_non_integer_value(alloc: Global, value: &Value) -> Result<PackedForm, AllocError>
        requires { int_of value.now ≡ None }
        ensures { IfOk result (λ form. IsForm form value.now) }
    {
        let mut draft = Vec::with_capacity(alloc, DRAFT)?;
        encode_value(value, &mut draft)?;
        short_or_long_form_of_code(alloc, draft.as_slice())
    }

    /// The integer, if it is one.
    #[inline(always)]
    pub(crate) fn int(&self) -> Option<i64>
        ensures { result ≡ int_in self.now }
    {
        match self {
            PackedForm::Int(n) => Some(*n),
            PackedForm::Short(_) | PackedForm::Long(_) => None,
        }
    }

    /// The bytes: none of an integer.
    #[inline(always)]
    pub(crate) fn bytes(&self) -> &[u8]
        ensures { result.now ≡ bytes_in self.now }
    {
        match self {
            PackedForm::Int(_) => &[],
            PackedForm::Short(bytes) => bytes.as_slice(),
            PackedForm::Long(bytes) => bytes.as_slice(),
        }
    }
}

/// Feeds bytes to a hasher: eight at a time as one number, and those that are left, if any, in one write.
#[tactic(auto, using(crate::proofs::Feeding::feeding))]
fn hash_packed_bytes<H: Hasher>(bytes: &[u8], state: &mut H)
    ensures { state.new ≡ fold H.write state.old (words bytes.now) }
{
    let mut rest = bytes;
    while let [a, b, c, d, e, f, g, h, more @ ..] = rest {
        state.write_u64(u64::from_le_bytes([*a, *b, *c, *d, *e, *f, *g, *h]));
        rest = more;
    }
    if !rest.is_empty() {
        state.write(rest);
    }
}
