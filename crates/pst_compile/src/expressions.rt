//! The code of expressions.
ghost use Rattle.std.specs.Prelude.{◌≡◌, map, IfOk};
ghost use Rattle.pst_compile.specs.Code as spec;
ghost use Rattle.pst_compile.specs.Scopes.{scope_of, code_in, numbers_in};
ghost use Rattle.pst_model.specs.Parts.{operation_number};

use crate::blocks::{
    Block, Target, append_instruction, code_skipped_unless_true, concat_code, empty_map,
    if_else_code, single_instruction,
};
use crate::loops::{fold_code, for_code};
use crate::names::{
    Names, Operand, Operands, apply_instruction_code, call_instruction_code, name_code,
    register_if_name,
};
use pst_eval::Context;
use pst_machine::Instr;
use pst_model::{Binary, Expr, Unary};
use pst_value::{Boxed, Items, Text, Value};
use std::alloc::AllocError;

/// The code of an expression, which leaves its value in the target's register.
#[cycle(expression_code)]
pub fn expression_code(
    expr: &Expr,
    context: &Context<'_>,
    names: &Names<'_>,
    target: Target,
) -> Block
    ensures { IfOk result (λ code. code ≡
        (code_in context.now expr.now).put (scope_of names.now) target.register target.place) }
{
    let alloc = context.alloc;
    let register = target.register;
    match expr {
        Expr::Int(number) => single_instruction(alloc, Instr::Const(register, Value::Int(*number))),
        Expr::Bool(truth) => single_instruction(alloc, Instr::Const(register, Value::Bool(*truth))),
        Expr::Text(text) => single_instruction(
            alloc,
            Instr::Const(register, Value::Text(text.copy(alloc)?)),
        ),
        Expr::Name(name) => name_code(name, alloc, names, target),
        Expr::Unary(operator, operand) => unary_code(*operator, operand, context, names, target),
        Expr::At(tuple, item) => {
            let operand = operand_code(tuple.get(), context, names, target)?;
            append_instruction(operand.code, Instr::At(register, operand.register, *item))
        }
        Expr::Binary(operator, a, b) => {
            binary_code(*operator, a, b, context, names, register, target)
        }
        Expr::Let(name, bound, body) => let_code(name, bound, body, context, names, target),
        Expr::If(test, then, other) => if_code(test, then, other, context, names, target),
        Expr::And(first, second) => and_code(first, second, context, names, target),
        Expr::Or(first, second) => or_code(first, second, context, names, target),
        Expr::Tuple(exprs) => {
            let operands = operands_code(exprs.as_slice(), context, names, target)?;
            append_instruction(operands.code, Instr::Tuple(register, operands.registers))
        }
        Expr::List(_, exprs) => {
            let operands = operands_code(exprs.as_slice(), context, names, target)?;
            append_instruction(operands.code, Instr::List(register, operands.registers))
        }
        Expr::Map(_, _) => single_instruction(alloc, Instr::Const(register, empty_map(alloc)?)),
        Expr::Put(map, key, value) => map_put_code(
            map, key, value, context, names, register, target,
        ),
        Expr::Call(name, exprs) => call_code(name, exprs, context, names, target),
        Expr::Apply(name, exprs) => apply_code(name, exprs, context, names, target),
        Expr::For(clauses, body) => for_code(clauses, body, context, names, target),
        Expr::Fold(name, list, acc, first, body) => {
            fold_code(name, list, acc, first, body, context, names, target)
        }
    }
}

/// The code of an operand. A name has its own register, and no code.
#[cycle(expression_code)]
pub fn operand_code(
    expr: &Expr,
    context: &Context<'_>,
    names: &Names<'_>,
    target: Target,
) -> Result<Operand, AllocError>
    ensures code { IfOk result (λ operand. operand.code ≡
        spec.load (code_in context.now expr.now) (scope_of names.now) target.register target.place) }
    ensures register { IfOk result (λ operand. operand.register ≡
        spec.at (code_in context.now expr.now) (scope_of names.now) target.register) }
{
    match register_if_name(expr, context, names)? {
        Some(register) => Ok(Operand {
            code: Items::new(context.alloc),
            register,
        }),
        None => Ok(Operand {
            code: expression_code(expr, context, names, target)?,
            register: target.register,
        }),
    }
}

/// The code of operands, with registers from the target's on.
#[cycle(expression_code)]
fn operands_code(
    exprs: &[Expr],
    context: &Context<'_>,
    names: &Names<'_>,
    target: Target,
) -> Result<Operands, AllocError>
    ensures code { IfOk result (λ operands. operands.code ≡
        spec.load_all (map (code_in context.now) exprs.now) (scope_of names.now)
        target.register target.place) }
    ensures registers { IfOk result (λ operands. operands.registers ≡
        spec.all_at (map (code_in context.now) exprs.now) (scope_of names.now) target.register) }
{
    let mut code = Items::new(context.alloc);
    let mut registers = Items::new(context.alloc);
    let mut next = target;
    for expr in exprs {
        let operand = operand_code(expr, context, names, next)?;
        next = next
            .instructions_later(operand.code.len())?
            .registers_higher(1)?;
        code.append(operand.code)?;
        registers.push(operand.register)?;
    }
    Ok(Operands { code, registers })
}

#[cycle(expression_code)]
fn unary_code(
    operator: Unary,
    operand: &Boxed<Expr>,
    context: &Context<'_>,
    names: &Names<'_>,
    target: Target,
) -> Block
    ensures { IfOk result (λ code. code ≡ spec.unary_code operator (code_in context.now operand.now)
        (scope_of names.now) target.register target.place) }
{
    let operand = operand_code(operand.get(), context, names, target)?;
    append_instruction(
        operand.code,
        Instr::Unary(operator, target.register, operand.register),
    )
}

/// The code of an operator, whose value goes to the register `dest`. The parts of the form are parameters of their own,
/// since the contract names each.
#[cycle(expression_code)]
pub fn binary_code(
    operator: Binary,
    first: &Boxed<Expr>,
    second: &Boxed<Expr>,
    context: &Context<'_>,
    names: &Names<'_>,
    dest: u32,
    target: Target,
) -> Block
    ensures { IfOk result (λ code. code ≡ spec.binary_code operator (code_in context.now first.now)
        (code_in context.now second.now) (scope_of names.now) dest target.register target.place) }
{
    let left = operand_code(first.get(), context, names, target)?;
    let next = target
        .instructions_later(left.code.len())?
        .registers_higher(1)?;
    let right = operand_code(second.get(), context, names, next)?;
    let last = Instr::Binary(operator, dest, left.register, right.register);
    concat_code(left.code, append_instruction(right.code, last)?)
}

/// The code of a map with a key and its value, which goes to the register `dest`. The parts of the form are parameters
/// of their own, since the contract names each.
#[cycle(expression_code)]
pub fn map_put_code(
    map: &Boxed<Expr>,
    key: &Boxed<Expr>,
    value: &Boxed<Expr>,
    context: &Context<'_>,
    names: &Names<'_>,
    dest: u32,
    target: Target,
) -> Block
    ensures { IfOk result (λ code. code ≡ spec.put_code (code_in context.now map.now)
        (code_in context.now key.now) (code_in context.now value.now)
        (scope_of names.now) dest target.register target.place) }
{
    let first = operand_code(map.get(), context, names, target)?;
    let next = target
        .instructions_later(first.code.len())?
        .registers_higher(1)?;
    let second = operand_code(key.get(), context, names, next)?;
    let last = next
        .instructions_later(second.code.len())?
        .registers_higher(1)?;
    let third = operand_code(value.get(), context, names, last)?;
    let instr = Instr::Put(dest, first.register, second.register, third.register);
    concat_code(
        first.code,
        concat_code(second.code, append_instruction(third.code, instr)?)?,
    )
}

#[cycle(expression_code)]
fn let_code(
    name: &Text,
    bound: &Boxed<Expr>,
    body: &Boxed<Expr>,
    context: &Context<'_>,
    names: &Names<'_>,
    target: Target,
) -> Block
    ensures { IfOk result (λ code. code ≡ spec.let_code name.now (code_in context.now bound.now)
        (code_in context.now body.now) (scope_of names.now) target.register target.place) }
{
    let first = operand_code(bound.get(), context, names, target)?;
    let next = target
        .instructions_later(first.code.len())?
        .registers_higher(1)?;
    let inner = Names::With(name.as_bytes(), first.register, &*names);
    let second = expression_code(body.get(), context, &inner, next)?;
    concat_code(
        first.code,
        append_instruction(second, Instr::Take(target.register, next.register))?,
    )
}

#[cycle(expression_code)]
fn if_code(
    test: &Boxed<Expr>,
    then: &Boxed<Expr>,
    other: &Boxed<Expr>,
    context: &Context<'_>,
    names: &Names<'_>,
    target: Target,
) -> Block
    ensures { IfOk result (λ code. code ≡ spec.if_code (code_in context.now test.now)
        (code_in context.now then.now) (code_in context.now other.now)
        (scope_of names.now) target.register target.place) }
{
    let operand = operand_code(test.get(), context, names, target)?;
    let jump = target.instructions_later(operand.code.len())?;
    let start = jump.instructions_later(1)?;
    let first = expression_code(then.get(), context, names, start)?;
    let middle = start
        .instructions_later(first.len())?
        .instructions_later(1)?;
    let second = expression_code(other.get(), context, names, middle)?;
    let both = if_else_code(context.alloc, operand.register, first, second, jump.place)?;
    concat_code(operand.code, both)
}

#[cycle(expression_code)]
fn and_code(
    first: &Boxed<Expr>,
    second: &Boxed<Expr>,
    context: &Context<'_>,
    names: &Names<'_>,
    target: Target,
) -> Block
    ensures { IfOk result (λ code. code ≡ spec.and_code (code_in context.now first.now)
        (code_in context.now second.now) (scope_of names.now) target.register target.place) }
{
    let code = expression_code(first.get(), context, names, target)?;
    let jump = target.instructions_later(code.len())?;
    let inner = expression_code(second.get(), context, names, jump.instructions_later(1)?)?;
    let rest = code_skipped_unless_true(context.alloc, target.register, inner, jump.place)?;
    concat_code(code, rest)
}

#[cycle(expression_code)]
fn or_code(
    first: &Boxed<Expr>,
    second: &Boxed<Expr>,
    context: &Context<'_>,
    names: &Names<'_>,
    target: Target,
) -> Block
    ensures { IfOk result (λ code. code ≡ spec.or_code (code_in context.now first.now)
        (code_in context.now second.now) (scope_of names.now) target.register target.place) }
{
    let code = expression_code(first.get(), context, names, target)?;
    let jump = target.instructions_later(code.len())?;
    let inner = expression_code(
        second.get(),
        context,
        names,
        jump.instructions_later(1)?.instructions_later(1)?,
    )?;
    let rest = if_else_code(
        context.alloc,
        target.register,
        Items::new(context.alloc),
        inner,
        jump.place,
    )?;
    concat_code(code, rest)
}

#[cycle(expression_code)]
fn call_code(
    name: &Text,
    exprs: &Items<Expr>,
    context: &Context<'_>,
    names: &Names<'_>,
    target: Target,
) -> Block
    ensures { IfOk result (λ code. code ≡ spec.call_code (operation_number context.now.items.now name.now)
        (map (code_in context.now) exprs.now) (scope_of names.now) target.register target.place) }
{
    let operands = operands_code(exprs.as_slice(), context, names, target)?;
    let next = target.instructions_later(operands.code.len())?;
    concat_code(
        operands.code,
        call_instruction_code(name, context, next, operands.registers)?,
    )
}

#[cycle(expression_code)]
fn apply_code(
    name: &Text,
    exprs: &Items<Expr>,
    context: &Context<'_>,
    names: &Names<'_>,
    target: Target,
) -> Block
    ensures { IfOk result (λ code. code ≡ spec.apply_code (numbers_in context.now name.now)
        (map (code_in context.now) exprs.now) (scope_of names.now) target.register target.place) }
{
    let operands = operands_code(exprs.as_slice(), context, names, target)?;
    let next = target.instructions_later(operands.code.len())?;
    concat_code(
        operands.code,
        apply_instruction_code(name, context, next, operands.registers)?,
    )
}
