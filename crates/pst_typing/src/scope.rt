//! What an expression may name, and what names mean: variables, operations and functions.
ghost use Rattle.std.specs.Prelude.{◌≡◌, map, reverse, IfOk};
ghost use Rattle.std.specs.Option.{option_copied};
ghost use Rattle.pst_model.specs.Rules as rules;
ghost use Rattle.pst_typing.specs.Decision as decision;
ghost use Rattle.pst_typing.specs.Answers.{Answers};
ghost use Rattle.pst_typing.specs.Scope.{names_of, names_in, name_seen};

use crate::blame::Refusal;
use crate::kinds::Kind;
use crate::operators::copy_kind_or_refuse;
use pst_model::{Fun, Item, Op, Param, operation_number, operation_of};
use pst_value::Items;
use std::alloc::{AllocError, Global};

/// What an expression may name besides its variables.
#[derive(Drop)]
pub struct Context<'a> {
    pub alloc: Global,
    /// The items of the model, whose operations a call may name.
    pub items: &'a [Item],
    /// The items before the place of the expression, whose functions it may apply.
    pub earlier: &'a [Item],
    /// Whether the expression is in mode post, in which a reference has a value.
    pub is_post: bool,
}

/// The names that an expression sees with their types, the inner ones first.
#[derive(Drop)]
pub enum Scope<'a> {
    /// The parameters of a function or an operation.
    Parameters(&'a [Param]),
    /// One more name, and the outer ones.
    With(&'a [u8], &'a Kind, &'a Scope<'a>),
}

/// A name and its kind.
#[derive(Drop)]
pub struct TypedName {
    pub name: Items<u8>,
    pub kind: Kind,
}

/// The names that a part of an expression sees with their kinds, the inner ones first.
#[derive(Drop)]
pub enum Names<'a> {
    /// The names that the whole expression sees.
    Outer(&'a [TypedName]),
    /// One more name, and the outer ones.
    With(&'a [u8], &'a Kind, &'a Names<'a>),
}

/// The names of parameters, with the kinds of their types.
fn typed_names_of_parameters(
    alloc: Global,
    params: &[Param],
) -> Result<Items<TypedName>, AllocError>
    ensures { IfOk result (λ seen. map name_seen seen ≡ rules.context_of params.now) }
{
    let mut seen = Items::new(alloc);
    for param in params {
        let name = Items::from_slice(alloc, param.name.as_bytes())?;
        let kind = Kind::of(alloc, &param.ty)?;
        seen.push(TypedName { name, kind })?;
    }
    Ok(seen)
}

/// The names of a scope, with the kinds of their types.
pub fn typed_names_of_scope(
    alloc: Global,
    scope: &Scope<'_>,
) -> Result<Items<TypedName>, AllocError>
    ensures { IfOk result (λ seen. map name_seen seen ≡ names_of scope.now) }
{
    match scope {
        Scope::Parameters(params) => typed_names_of_parameters(alloc, params),
        Scope::With(name, kind, outer) => {
            let name = Items::from_slice(alloc, name)?;
            let kind = kind.copy()?;
            let mut seen = Items::new(alloc);
            seen.push(TypedName { name, kind })?;
            seen.append(typed_names_of_scope(alloc, outer)?)?;
            Ok(seen)
        }
    }
}

/// The kind of `name` among the names that the whole expression sees.
fn kind_of_outer_name<'a>(seen: &'a [TypedName], name: &[u8]) -> Option<&'a Kind>
    ensures { option_copied result ≡ rules.type_named (map name_seen seen.now) name.now }
{
    match seen {
        [] => None,
        [first, others @ ..] => if first.name.as_slice() == name {
            Some(&first.kind)
        } else {
            kind_of_outer_name(others, name)
        },
    }
}

/// The kind of a variable.
pub fn kind_of_variable(names: &Names<'_>, name: &[u8]) -> Result<Kind, Refusal>
    ensures { Answers (rules.type_named (names_in names.now) name.now) result }
{
    match names {
        Names::Outer(seen) => copy_kind_or_refuse(kind_of_outer_name(seen, name)),
        Names::With(bound, kind, outer) => {
            if *bound == name {
                return Ok(kind.copy()?);
            }
            kind_of_variable(outer, name)
        }
    }
}

/// The last function of the name.
pub fn last_function_of_name<'a>(items: &'a [Item], name: &[u8]) -> Option<&'a Fun>
    ensures { option_copied result ≡ rules.signature (reverse items.now) name.now }
{
    let (last, earlier) = items.split_last()?;
    match last {
        Item::Fun(fun) => {
            if fun.name.as_bytes() == name {
                return Some(fun);
            }
            last_function_of_name(earlier, name)
        }
        _ => last_function_of_name(earlier, name),
    }
}

/// The operation of the name, whose number has 32 bits.
pub fn operation_called<'a>(items: &'a [Item], name: &[u8]) -> Option<&'a Op>
    ensures { option_copied result ≡ decision.operation_called items.now name.now }
{
    let number = operation_number(items, name)?;
    match u32::try_from(number) {
        Ok(_) => operation_of(items, number),
        Err(_) => None,
    }
}
