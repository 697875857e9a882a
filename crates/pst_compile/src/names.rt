//! Names and their registers, functions and their numbers, and the code of names, calls and applications.
ghost use Rattle.std.specs.Prelude.{◌≡◌, reverse, IfOk, ◌∷◌, [], MatchOption};
ghost use Rattle.pst_compile.specs.Code as spec;
ghost use Rattle.pst_compile.specs.Scopes.{scope_of, code_in, numbers_in};
ghost use Rattle.pst_model.specs.Parts.{operation_number};

use crate::blocks::{Block, Target, register_after, single_instruction};
use pst_eval::Context;
use pst_machine::Instr;
use pst_model::{Clause, Expr, Item, Param, operation_number};
use pst_value::{Items, Text};
use std::alloc::{AllocError, Global};

/// The registers of the names that an expression sees, the inner ones first.
#[derive(Drop)]
pub enum Names<'a> {
    /// Parameters, in registers from this one on.
    Frame(&'a [Param], u32),
    /// One more name with its register, and the outer ones.
    With(&'a [u8], u32, &'a Names<'a>),
}

/// The register of the parameter `name`, if there is one. The parameters have the registers from `first` on.
fn parameter_register(params: &[Param], first: u32, name: &[u8]) -> Result<Option<u32>, AllocError>
    ensures { IfOk result (λ r. r ≡ spec.find (spec.parameter_scope params.now first) name.now) }
{
    let mut register = first;
    for param in params {
        if param.name.as_bytes() == name {
            return Ok(Some(register));
        }
        register = register_after(register, 1)?;
    }
    Ok(None)
}

/// The register of `name`, if it has one.
fn register_of_name(names: &Names<'_>, name: &[u8]) -> Result<Option<u32>, AllocError>
    ensures { IfOk result (λ r. r ≡ spec.find (scope_of names.now) name.now) }
{
    match names {
        Names::Frame(params, first) => parameter_register(params, *first, name),
        Names::With(bound, register, outer) => {
            if *bound == name {
                return Ok(Some(*register));
            }
            register_of_name(outer, name)
        }
    }
}

/// Whether an item is a function.
fn is_function(item: &Item) -> bool
    ensures { result ≡ spec.is_function item.now }
{
    match item {
        Item::Fun(_) => true,
        _ => false,
    }
}

/// Whether an item is a function of the name.
fn is_function_named(item: &Item, name: &[u8]) -> bool
    ensures { result ≡ spec.is_function_of item.now name.now }
{
    match item {
        Item::Fun(fun) => fun.name.as_bytes() == name,
        _ => false,
    }
}

/// How many functions there are among items.
#[tactic(auto, using(crate::proofs::Earlier::earlier_next))]
pub fn count_functions(items: &[Item]) -> usize
    ensures { result ≡ spec.functions (reverse items.now) }
{
    let mut count = 0;
    for item in items {
        if is_function(item) {
            count += 1;
        }
    }
    count
}

/// The number of the last function called `name`, if there is one.
#[tactic(auto, using(crate::proofs::Earlier::earlier_next))]
fn number_of_last_function_named(items: &[Item], name: &[u8]) -> Option<usize>
    ensures { result ≡ spec.number (reverse items.now) name.now }
{
    let mut count = 0;
    let mut found = None;
    for item in items {
        if is_function_named(item, name) {
            found = Some(count);
        }
        if is_function(item) {
            count += 1;
        }
    }
    found
}

/// The code of an operand, and the register of its value.
#[derive(Drop)]
pub struct Operand {
    pub code: Items<Instr>,
    pub register: u32,
}

/// The code of several operands, and the registers of their values.
#[derive(Drop)]
pub struct Operands {
    pub code: Items<Instr>,
    pub registers: Items<u32>,
}

/// The register of the name that an expression is.
pub fn register_if_name(
    expr: &Expr,
    context: &Context<'_>,
    names: &Names<'_>,
) -> Result<Option<u32>, AllocError>
    ensures { IfOk result (λ r. r ≡ spec.own (code_in context.now expr.now).name (scope_of names.now)) }
{
    match expr {
        Expr::Name(name) => register_of_name(names, name.as_bytes()),
        Expr::Int(_)
        | Expr::Bool(_)
        | Expr::Text(_)
        | Expr::Let(_, _, _)
        | Expr::If(_, _, _)
        | Expr::And(_, _)
        | Expr::Or(_, _)
        | Expr::Unary(_, _)
        | Expr::Binary(_, _, _)
        | Expr::Tuple(_)
        | Expr::At(_, _)
        | Expr::List(_, _)
        | Expr::For(_, _)
        | Expr::Fold(_, _, _, _, _)
        | Expr::Map(_, _)
        | Expr::Put(_, _, _)
        | Expr::Call(_, _)
        | Expr::Apply(_, _) => Ok(None),
    }
}

/// Code that puts the value of `name` into the target. An unknown name gets code that is stuck.
pub fn name_code(name: &Text, alloc: Global, names: &Names<'_>, target: Target) -> Block
    ensures { IfOk result (λ code. code ≡
        spec.name_code name.now (scope_of names.now) target.register target.place) }
{
    match register_of_name(names, name.as_bytes())? {
        Some(register) => single_instruction(alloc, Instr::Move(target.register, register)),
        None => single_instruction(alloc, Instr::Move(target.register, target.register)),
    }
}

/// A call of the operation of the name, as a value.
pub fn call_instruction_code(
    name: &Text,
    context: &Context<'_>,
    target: Target,
    from: Items<u32>,
) -> Block
    ensures { IfOk result (λ code. code ≡
        spec.call_to target.register (operation_number context.now.items.now name.now) from target.place) }
{
    let unknown = Instr::Move(target.register, target.register);
    let Some(number) = operation_number(context.items, name.as_bytes()) else {
        return single_instruction(context.alloc, unknown);
    };
    match u32::try_from(number) {
        Ok(number) => single_instruction(context.alloc, Instr::Call(target.register, number, from)),
        Err(_) => single_instruction(context.alloc, unknown),
    }
}

/// An application of the function of the name.
pub fn apply_instruction_code(
    name: &Text,
    context: &Context<'_>,
    target: Target,
    from: Items<u32>,
) -> Block
    ensures { IfOk result (λ code. code ≡
        spec.apply_to target.register (numbers_in context.now name.now) from target.place) }
{
    match number_of_last_function_named(context.earlier, name.as_bytes()) {
        Some(fun) => single_instruction(context.alloc, Instr::Apply(target.register, fun, from)),
        None => single_instruction(context.alloc, Instr::Move(target.register, target.register)),
    }
}

/// The first clause, and the others.
pub fn split_first(clauses: &[Clause]) -> Option<(&Clause, &[Clause])>
    ensures { MatchOption result (clauses.now ≡ []) (λ p. clauses.now ≡ p.0.now ∷ p.1.now) }
{
    clauses.split_first()
}
