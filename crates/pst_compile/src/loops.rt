//! The code of comprehensions and folds.
ghost use Rattle.std.specs.Prelude.{◌≡◌, map, IfOk};
ghost use Rattle.pst_compile.specs.Code as spec;
ghost use Rattle.pst_compile.specs.Scopes.{scope_of, code_in, part_in};

use crate::blocks::{
    Block, Target, append_instruction, code_skipped_unless_true, concat_code, loop_code,
    prepend_instruction,
};
use crate::expressions::{expression_code, operand_code};
use crate::names::{Names, split_first};
use crate::overwriting::overwriting_code;
use pst_eval::Context;
use pst_machine::Instr;
use pst_model::{Clause, Expr};
use pst_value::{Boxed, Items, Text, Value};

/// The code of a comprehension, which appends to the list in the target's register.
#[cycle(expression_code)]
pub fn for_code(
    clauses: &Items<Clause>,
    body: &Boxed<Expr>,
    context: &Context<'_>,
    names: &Names<'_>,
    target: Target,
) -> Block
    ensures { IfOk result (λ code. code ≡ spec.for_code (map (part_in context.now) clauses.now)
        (code_in context.now body.now) (scope_of names.now) target.register target.place) }
{
    let built = target.register;
    let next = target.instructions_later(1)?.registers_higher(1)?;
    let code = clauses_code(clauses.as_slice(), body.get(), context, names, built, next)?;
    let empty = Value::List(Items::new(context.alloc));
    prepend_instruction(context.alloc, Instr::Const(built, empty), code)
}

/// The code of a fold. The parts of the form are parameters of their own, since the contract names each.
#[cycle(expression_code)]
pub fn fold_code(
    name: &Text,
    list: &Boxed<Expr>,
    acc: &Text,
    first: &Boxed<Expr>,
    body: &Boxed<Expr>,
    context: &Context<'_>,
    names: &Names<'_>,
    target: Target,
) -> Block
    ensures { IfOk result (λ code. code ≡ spec.fold_code name.now (code_in context.now list.now)
        acc.now (code_in context.now first.now) (code_in context.now body.now)
        (scope_of names.now) target.register target.place) }
{
    let list = operand_code(list.get(), context, names, target)?;
    let built = target
        .instructions_later(list.code.len())?
        .registers_higher(1)?;
    let opening = expression_code(first.get(), context, names, built)?;
    let index = built
        .instructions_later(opening.len())?
        .registers_higher(1)?;
    let item = index.instructions_later(1)?.registers_higher(1)?;
    let inside = item.instructions_later(1)?.registers_higher(1)?;
    let outer = Names::With(name.as_bytes(), item.register, &*names);
    let inner = Names::With(acc.as_bytes(), built.register, &outer);
    let turn = overwriting_code(body.get(), context, &inner, built.register, inside)?;
    let each = loop_code(context.alloc, list.register, index, turn)?;
    let rest = append_instruction(each, Instr::Take(target.register, built.register))?;
    concat_code(list.code, concat_code(opening, rest)?)
}

/// The code of the clauses and the body, which appends to the list in the register `built`.
#[cycle(expression_code)]
fn clauses_code(
    clauses: &[Clause],
    body: &Expr,
    context: &Context<'_>,
    names: &Names<'_>,
    built: u32,
    target: Target,
) -> Block
    ensures { IfOk result (λ code. code ≡ spec.visit_code (map (part_in context.now) clauses.now)
        (code_in context.now body.now) built (scope_of names.now) target.register target.place) }
{
    match split_first(clauses) {
        None => {
            let operand = operand_code(body, context, names, target)?;
            append_instruction(operand.code, Instr::Append(built, operand.register))
        }
        Some((first, rest)) => match first {
            Clause::In(name, list) => {
                in_clause_code(name, list, rest, body, context, names, built, target)
            }
            Clause::When(test) => when_clause_code(test, rest, body, context, names, built, target),
        },
    }
}

/// The code of the other clauses and the body for each item of a list. The parts of the clause are parameters of their
/// own, since the contract names each.
#[cycle(expression_code)]
fn in_clause_code(
    name: &Text,
    list: &Expr,
    rest: &[Clause],
    body: &Expr,
    context: &Context<'_>,
    names: &Names<'_>,
    built: u32,
    target: Target,
) -> Block
    ensures { IfOk result (λ code. code ≡ spec.in_code name.now (code_in context.now list.now)
        (spec.visit_code (map (part_in context.now) rest.now) (code_in context.now body.now) built)
        (scope_of names.now) target.register target.place) }
{
    let list = operand_code(list, context, names, target)?;
    let index = target
        .instructions_later(list.code.len())?
        .registers_higher(1)?;
    let item = index.instructions_later(1)?.registers_higher(1)?;
    let inside = item.instructions_later(1)?.registers_higher(1)?;
    let inner = Names::With(name.as_bytes(), item.register, &*names);
    let turn = clauses_code(rest, body, context, &inner, built, inside)?;
    concat_code(
        list.code,
        loop_code(context.alloc, list.register, index, turn)?,
    )
}

/// The code that runs the other clauses and the body if a test is true. The parts of the clause are parameters of their
/// own, since the contract names each.
#[cycle(expression_code)]
fn when_clause_code(
    test: &Expr,
    rest: &[Clause],
    body: &Expr,
    context: &Context<'_>,
    names: &Names<'_>,
    built: u32,
    target: Target,
) -> Block
    ensures { IfOk result (λ code. code ≡ spec.when_code (code_in context.now test.now)
        (spec.visit_code (map (part_in context.now) rest.now) (code_in context.now body.now) built)
        (scope_of names.now) target.register target.place) }
{
    let operand = operand_code(test, context, names, target)?;
    let jump = target.instructions_later(operand.code.len())?;
    let inner = clauses_code(
        rest,
        body,
        context,
        names,
        built,
        jump.instructions_later(1)?,
    )?;
    let code = code_skipped_unless_true(context.alloc, operand.register, inner, jump.place)?;
    concat_code(operand.code, code)
}
