//! The kinds of what operators give, and of the parts of kinds.
ghost use Rattle.std.specs.Prelude.{◌≡◌, ◌&&◌, true, Some, IfOk};
ghost use Rattle.std.specs.List.{list_all};
ghost use Rattle.std.specs.Option.{option_copied};
ghost use Rattle.pst_model.specs.declared.expr.Unary.TheVariants.{Keys};
ghost use Rattle.pst_model.specs.Rules as rules;
ghost use Rattle.pst_typing.specs.Answers.{Answers};
ghost use Rattle.pst_typing.specs.Decision as spec;
ghost use Rattle.pst_value.specs.Equality.{same_ty};
ghost use Rattle.pst_value.specs.Fits.{is_ty};
ghost use Rattle.pst_value.specs.Text as lawful;
ghost use Rattle.pst_value.specs.declared.ty.Ty.TheVariants.{Int as int, List as list, Text as text};

use crate::blame::Refusal;
use crate::kinds::{Kind, KindForm};
use pst_model::{Binary, Unary};
use pst_value::{KeyTy, LIMIT, Ty};
use std::alloc::{AllocError, Global};

/// The kind of a type.
pub fn kind_of(alloc: Global, ty: &Ty) -> Result<Kind, Refusal>
    ensures { Answers (Some ty.now) result }
{
    Ok(Kind::of(alloc, ty)?)
}

/// A copy of a kind, if there is one.
pub fn copy_kind_or_refuse(kind: Option<&Kind>) -> Result<Kind, Refusal>
    ensures { Answers (option_copied kind.entry) result }
{
    match kind {
        Some(kind) => Ok(kind.copy()?),
        None => Err(Refusal::Ill),
    }
}

/// The kind of a type, if a test is passed.
pub fn kind_of_type_if_true(alloc: Global, test: bool, ty: &Ty) -> Result<Kind, Refusal>
    ensures { Answers (spec.where_true test (Some ty.now)) result }
{
    if test {
        kind_of(alloc, ty)
    } else {
        Err(Refusal::Ill)
    }
}

/// A kind, if a test is passed.
pub fn copy_kind_if_true(test: bool, kind: &Kind) -> Result<Kind, Refusal>
    ensures { Answers (spec.where_true test (Some kind.now)) result }
{
    if test {
        Ok(kind.copy()?)
    } else {
        Err(Refusal::Ill)
    }
}

fn is_sequence(alloc: Global, kind: &Kind) -> Result<bool, AllocError>
    ensures { IfOk result (λ is. is ≡ spec.is_sequence kind.now) }
{
    match kind.form(alloc)? {
        KindForm::Text => Ok(true),
        KindForm::List(_) => Ok(true),
        _ => Ok(false),
    }
}

fn is_ref(alloc: Global, kind: &Kind) -> Result<bool, AllocError>
    ensures { IfOk result (λ is. is ≡ spec.is_ref kind.now) }
{
    match kind.form(alloc)? {
        KindForm::Ref(_) => Ok(true),
        _ => Ok(false),
    }
}

fn are_both_int(alloc: Global, first: &Kind, second: &Kind) -> Result<bool, AllocError>
    ensures { IfOk result (λ are. are ≡ spec.both_int first.now second.now) }
{
    if !first.is(alloc, &Ty::Int)? {
        return Ok(false);
    }
    second.is(alloc, &Ty::Int)
}

/// Whether both are `int`, or both `text`.
fn are_orderable(alloc: Global, first: &Kind, second: &Kind) -> Result<bool, AllocError>
    ensures { IfOk result (λ are. are ≡ spec.are_ordered first.now second.now) }
{
    if !first.same(alloc, second)? {
        return Ok(false);
    }
    if first.is(alloc, &Ty::Int)? {
        return Ok(true);
    }
    first.is(alloc, &Ty::Text)
}

/// Whether `=` compares them: in mode post any type, else one without references.
fn are_comparable(
    alloc: Global,
    is_post: bool,
    first: &Kind,
    second: &Kind,
) -> Result<bool, AllocError>
    ensures { IfOk result (λ are. are ≡ spec.are_compared is_post first.now second.now) }
{
    if !first.same(alloc, second)? {
        return Ok(false);
    }
    if is_post {
        return Ok(true);
    }
    let holds_ref_or_call = first.holds_ref_or_call(alloc)?;
    Ok(!holds_ref_or_call)
}

/// Whether `same` compares them: references of one type.
fn are_references(alloc: Global, first: &Kind, second: &Kind) -> Result<bool, AllocError>
    ensures { IfOk result (λ are. are ≡ same_ty first.now second.now && spec.is_ref first.now) }
{
    if !first.same(alloc, second)? {
        return Ok(false);
    }
    is_ref(alloc, first)
}

/// Whether `append` joins them: texts, or lists of one type.
fn are_joinable(alloc: Global, first: &Kind, second: &Kind) -> Result<bool, AllocError>
    ensures { IfOk result (λ are. are ≡ same_ty first.now second.now && spec.is_sequence first.now) }
{
    if !first.same(alloc, second)? {
        return Ok(false);
    }
    is_sequence(alloc, first)
}

/// The kind of a list's items.
pub fn item_type(alloc: Global, list: &Kind) -> Result<Kind, Refusal>
    ensures { Answers (spec.item_type list.now) result }
{
    match list.form(alloc)? {
        KindForm::List(item) => Ok(item),
        _ => Err(Refusal::Ill),
    }
}

/// The kind of the result that a reference names.
fn referred_type(alloc: Global, reference: &Kind) -> Result<Kind, Refusal>
    ensures { Answers (spec.referred_type reference.now) result }
{
    match reference.form(alloc)? {
        KindForm::Ref(named) => Ok(named),
        _ => Err(Refusal::Ill),
    }
}

/// Returns the type of the values that are keys of the type `keys`.
pub fn key_type(keys: KeyTy) -> Ty
    ensures { result ≡ rules.key_type keys }
{
    match keys {
        KeyTy::Int => Ty::Int,
        KeyTy::Bool => Ty::Bool,
        KeyTy::Text => Ty::Text,
    }
}

/// The kind of a map's keys, as values.
pub fn kind_of_map_keys(alloc: Global, map: &Kind) -> Result<Kind, Refusal>
    ensures { Answers (spec.keys_type map.now) result }
{
    match map.form(alloc)? {
        KindForm::Map(keys, _) => kind_of(alloc, &key_type(keys)),
        _ => Err(Refusal::Ill),
    }
}

/// The kind of a map's values.
pub fn values_type(alloc: Global, map: &Kind) -> Result<Kind, Refusal>
    ensures { Answers (spec.values_type map.now) result }
{
    match map.form(alloc)? {
        KindForm::Map(_, value) => Ok(value),
        _ => Err(Refusal::Ill),
    }
}

/// Whether the first is a map type, and the second the type of its keys.
fn is_map_with_key_type(alloc: Global, map: &Kind, key: &Kind) -> Result<bool, AllocError>
    ensures { IfOk result (λ has. has ≡ is_ty (spec.keys_type map.now) key.now) }
{
    match kind_of_map_keys(alloc, map) {
        Ok(kind) => kind.same(alloc, key),
        Err(Refusal::Ill) => Ok(false),
        Err(Refusal::NoMemory) => Err(AllocError),
    }
}

/// The kind of a tuple's item, by its place from 1.
pub fn part_type(alloc: Global, tuple: &Kind, place: u64) -> Result<Kind, Refusal>
    ensures { Answers (spec.part_type tuple.now place) result }
{
    let KindForm::Tuple(kinds) = tuple.form(alloc)? else {
        return Err(Refusal::Ill);
    };
    if place == 0 {
        return Err(Refusal::Ill);
    }
    copy_kind_or_refuse(kinds.get(place as usize - 1))
}

/// The kind of what `nth` takes out of the first at the second.
fn nth_type(alloc: Global, list: &Kind, place: &Kind) -> Result<Kind, Refusal>
    ensures { Answers (spec.where_true (same_ty place.now int) (spec.item_type list.now)) result }
{
    if place.is(alloc, &Ty::Int)? {
        item_type(alloc, list)
    } else {
        Err(Refusal::Ill)
    }
}

/// The kind of what `get` takes out of the first at the second.
fn kind_of_get_result(alloc: Global, map: &Kind, key: &Kind) -> Result<Kind, Refusal>
    ensures { Answers (spec.where_true (is_ty (spec.keys_type map.now) key.now) (spec.values_type map.now)) result }
{
    if is_map_with_key_type(alloc, map, key)? {
        values_type(alloc, map)
    } else {
        Err(Refusal::Ill)
    }
}

/// The kind of the list of a map's keys.
fn keys_list_type(alloc: Global, map: &Kind) -> Result<Kind, Refusal>
    ensures { Answers (spec.unary_type true Keys map.now) result }
{
    let keys = kind_of_map_keys(alloc, map)?;
    Ok(keys.list(alloc)?)
}

/// The kind of lists of integers, if both are `int`.
fn range_type(alloc: Global, first: &Kind, second: &Kind) -> Result<Kind, Refusal>
    ensures { Answers (spec.where_true (spec.both_int first.now second.now) (Some (list int))) result }
{
    let both = are_both_int(alloc, first, second)?;
    let ints = Kind::of(alloc, &Ty::Int)?.list(alloc)?;
    copy_kind_if_true(both, &ints)
}

/// The kind of an operator's value, by that of its operand.
pub fn unary_type(
    alloc: Global,
    is_post: bool,
    operator: Unary,
    operand: &Kind,
) -> Result<Kind, Refusal>
    ensures { Answers (spec.unary_type is_post operator operand.now) result }
{
    match operator {
        Unary::Not => kind_of_type_if_true(alloc, operand.is(alloc, &Ty::Bool)?, &Ty::Bool),
        Unary::Len => kind_of_type_if_true(alloc, is_sequence(alloc, operand)?, &Ty::Int),
        Unary::Deref => {
            if !is_post {
                return Err(Refusal::Ill);
            }
            referred_type(alloc, operand)
        }
        Unary::Keys => keys_list_type(alloc, operand),
    }
}

/// The kind of an operator's value, by those of its operands.
pub fn binary_type(
    alloc: Global,
    is_post: bool,
    operator: Binary,
    first: &Kind,
    second: &Kind,
) -> Result<Kind, Refusal>
    ensures { Answers (spec.binary_type is_post operator first.now second.now) result }
{
    match operator {
        Binary::Add | Binary::Sub | Binary::Mul | Binary::Div | Binary::Rem => {
            kind_of_type_if_true(alloc, are_both_int(alloc, first, second)?, &Ty::Int)
        }
        Binary::Less | Binary::LessEqual => {
            kind_of_type_if_true(alloc, are_orderable(alloc, first, second)?, &Ty::Bool)
        }
        Binary::Equal => {
            let are = are_comparable(alloc, is_post, first, second)?;
            kind_of_type_if_true(alloc, are, &Ty::Bool)
        }
        Binary::Same => kind_of_type_if_true(
            alloc,
            are_references(alloc, first, second)?,
            &Ty::Bool,
        ),
        Binary::Append => copy_kind_if_true(are_joinable(alloc, first, second)?, first),
        Binary::Nth => nth_type(alloc, first, second),
        Binary::Get => kind_of_get_result(alloc, first, second),
        Binary::Has => kind_of_type_if_true(
            alloc,
            is_map_with_key_type(alloc, first, second)?,
            &Ty::Bool,
        ),
        Binary::Del => copy_kind_if_true(is_map_with_key_type(alloc, first, second)?, first),
        Binary::Range => range_type(alloc, first, second),
    }
}

/// `int`: an integer of 64 bits is always in range.
pub fn int_type(alloc: Global, number: i64) -> Result<Kind, Refusal>
    ensures { Answers (spec.where_true (lawful.is_i64 number) (Some int)) result }
{
    kind_of(alloc, &Ty::Int)
}

/// `text`, unless the text is too long or has a byte that is not printable.
pub fn text_type_if_lawful(alloc: Global, bytes: &[u8]) -> Result<Kind, Refusal>
    ensures { Answers (spec.where_true (lawful.is_text bytes.now) (Some text)) result }
{
    kind_of_type_if_true(alloc, is_printable_text_within_limit(bytes), &Ty::Text)
}

/// Whether it has at most `LIMIT` bytes, each 32 to 126.
#[tactic(auto, using(pst_value::proofs::Typing::within))]
fn is_printable_text_within_limit(bytes: &[u8]) -> bool
    ensures { result ≡ lawful.is_text bytes.now }
{
    bytes.len() <= LIMIT && are_all_printable(bytes)
}

fn are_all_printable(bytes: &[u8]) -> bool
    ensures { result ≡ list_all lawful.is_printable bytes.now }
{
    bytes.iter().all(|byte| b' ' <= *byte && *byte <= b'~')
}
