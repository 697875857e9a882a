//! The code of expressions whose value goes to a register in place of what it holds.
//!
//! A fold keeps what it has built in one register, which its body may read. Each turn overwrites that register
//! by its last instruction, so that the machine changes a map or a list in place if it is the first operand.
ghost use Rattle.std.specs.Prelude.{◌≡◌, IfOk};
ghost use Rattle.pst_compile.specs.Code as spec;
ghost use Rattle.pst_compile.specs.Scopes.{scope_of, code_in};

use crate::blocks::{Block, Target, append_instruction, concat_code, if_else_code};
use crate::expressions::{binary_code, expression_code, map_put_code, operand_code};
use crate::names::{Names, name_code};
use pst_eval::Context;
use pst_machine::Instr;
use pst_model::Expr;
use pst_value::{Boxed, Text};

/// The code of an expression, which leaves its value in the register `dest` in place of what that held. It
/// changes no other register below the target's.
#[cycle(expression_code)]
pub fn overwriting_code(
    expr: &Expr,
    context: &Context<'_>,
    names: &Names<'_>,
    dest: u32,
    target: Target,
) -> Block
    ensures { IfOk result (λ code. code ≡ (code_in context.now expr.now).overwrite
        (scope_of names.now) dest target.register target.place) }
{
    match expr {
        Expr::Name(name) => name_code(name, context.alloc, names, target.with_register(dest)),
        Expr::Binary(operator, a, b) => binary_code(*operator, a, b, context, names, dest, target),
        Expr::Put(map, key, value) => map_put_code(map, key, value, context, names, dest, target),
        Expr::Let(name, bound, body) => {
            overwriting_let_code(name, bound, body, context, names, dest, target)
        }
        Expr::If(test, then, other) => {
            overwriting_if_code(test, then, other, context, names, dest, target)
        }
        Expr::Int(_)
        | Expr::Bool(_)
        | Expr::Text(_)
        | Expr::And(_, _)
        | Expr::Or(_, _)
        | Expr::Unary(_, _)
        | Expr::Tuple(_)
        | Expr::At(_, _)
        | Expr::List(_, _)
        | Expr::For(_, _)
        | Expr::Fold(_, _, _, _, _)
        | Expr::Map(_, _)
        | Expr::Call(_, _)
        | Expr::Apply(_, _) => {
            let code = expression_code(expr, context, names, target)?;
            append_instruction(code, Instr::Take(dest, target.register))
        }
    }
}

/// The code of a `let` whose value goes to the register `dest`, over the value there. The parts of the form are
/// parameters of their own, since the contract names each.
#[cycle(expression_code)]
fn overwriting_let_code(
    name: &Text,
    bound: &Boxed<Expr>,
    body: &Boxed<Expr>,
    context: &Context<'_>,
    names: &Names<'_>,
    dest: u32,
    target: Target,
) -> Block
    ensures { IfOk result (λ code. code ≡ spec.overwriting_let name.now (code_in context.now bound.now)
        (code_in context.now body.now) (scope_of names.now) dest target.register target.place) }
{
    let first = operand_code(bound.get(), context, names, target)?;
    let next = target
        .instructions_later(first.code.len())?
        .registers_higher(1)?;
    let inner = Names::With(name.as_bytes(), first.register, &*names);
    let second = overwriting_code(body.get(), context, &inner, dest, next)?;
    concat_code(first.code, second)
}

/// The code of an `if` whose value goes to the register `dest`, over the value there. The parts of the form are
/// parameters of their own, since the contract names each.
#[cycle(expression_code)]
fn overwriting_if_code(
    test: &Boxed<Expr>,
    then: &Boxed<Expr>,
    other: &Boxed<Expr>,
    context: &Context<'_>,
    names: &Names<'_>,
    dest: u32,
    target: Target,
) -> Block
    ensures { IfOk result (λ code. code ≡ spec.overwriting_if (code_in context.now test.now)
        (code_in context.now then.now) (code_in context.now other.now)
        (scope_of names.now) dest target.register target.place) }
{
    let operand = operand_code(test.get(), context, names, target)?;
    let jump = target.instructions_later(operand.code.len())?;
    let start = jump.instructions_later(1)?;
    let first = overwriting_code(then.get(), context, names, dest, start)?;
    let middle = start
        .instructions_later(first.len())?
        .instructions_later(1)?;
    let second = overwriting_code(other.get(), context, names, dest, middle)?;
    let both = if_else_code(context.alloc, operand.register, first, second, jump.place)?;
    concat_code(operand.code, both)
}
