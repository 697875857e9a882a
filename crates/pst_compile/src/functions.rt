//! The code of functions and of callbacks, and how many registers it needs.
ghost use Rattle.std.specs.Prelude.{◌≡◌, [], ◌∷◌, reverse, max, IfOk};
ghost use Rattle.std.specs.Option.{option_copied};
ghost use Rattle.pst_compile.specs.Functions as spec;
ghost use Rattle.pst_compile.specs.Scopes.{scope_of, function_in, numbers_in};

use crate::blocks::{Target, append_instruction, register_after};
use crate::expressions::operand_code;
use crate::names::Names;
use pst_eval::Context;
use pst_machine::{FunCode, Instr};
use pst_model::{Expr, Fun, Item, Op, find_command_expression, find_initial_state_expression};
use pst_value::Items;
use std::alloc::{AllocError, Global};

/// The code of functions, or `AllocError`.
type Functions = Result<Items<FunCode>, AllocError>;

/// The function of an expression whose names have the first `count` registers.
fn expression_function_code(
    expr: &Expr,
    context: &Context<'_>,
    names: &Names<'_>,
    count: u32,
) -> Result<FunCode, AllocError>
    ensures { IfOk result (λ code. code ≡ function_in context.now count (scope_of names.now) expr.now) }
{
    let start = Target {
        register: count,
        place: 0,
    };
    let loaded = operand_code(expr, context, names, start)?;
    let body = append_instruction(loaded.code, Instr::Return(loaded.register))?;
    let registers = larger_register_count(count, frame_size(body.as_slice())?);
    Ok(FunCode {
        args: count,
        registers,
        body,
    })
}

/// How many registers the parameters have.
fn parameter_register_count(params: usize) -> Result<u32, AllocError>
    ensures { IfOk result (λ count. count ≡ params) }
{
    match u32::try_from(params) {
        Ok(count) => Ok(count),
        Err(_) => Err(AllocError),
    }
}

/// The code of a function of the model. Its parameters have the first registers.
fn function_code(fun: &Fun, context: &Context<'_>) -> Result<FunCode, AllocError>
    ensures { IfOk result (λ code. code ≡ spec.function_code context.now.items.now
        (numbers_in context.now) fun.now) }
{
    let names = Names::Frame(fun.params.as_slice(), 0);
    expression_function_code(
        &fun.body,
        context,
        &names,
        parameter_register_count(fun.params.len())?,
    )
}

/// The code of the functions among the items.
#[tactic(auto, using(crate::proofs::Earlier::earlier_next))]
fn functions_code(alloc: Global, items: &[Item]) -> Functions
    ensures { IfOk result (λ all. all ≡ spec.functions_code items.now (reverse items.now)) }
{
    let mut all = Items::new(alloc);
    for (place, item) in items.iter().enumerate() {
        if let Item::Fun(fun) = item {
            let context = Context {
                alloc,
                items,
                earlier: &items[..place],
            };
            all.push(function_code(fun, &context)?)?;
        }
    }
    Ok(all)
}

/// The code of an expression, or an empty function if there is no expression.
fn function_code_or_empty(
    expr: Option<&Expr>,
    context: &Context<'_>,
    names: &Names<'_>,
    count: u32,
) -> Result<FunCode, AllocError>
    ensures { IfOk result (λ code. code ≡ spec.optional_code context.now.items.now
        (numbers_in context.now) count (scope_of names.now) (option_copied expr.entry)) }
{
    match expr {
        Some(expr) => expression_function_code(expr, context, names, count),
        None => Ok(FunCode {
            args: 0,
            registers: 0,
            body: Items::new(context.alloc),
        }),
    }
}

/// The code of the three callbacks of an operation.
fn operation_callbacks_code(op: &Op, context: &Context<'_>) -> Functions
    ensures { IfOk result (λ all. all ≡ spec.operation_code context.now.items.now
        (numbers_in context.now) op.now) }
{
    let count = parameter_register_count(op.params.len())?;
    let with_state = register_after(count, 1)?;
    let with_result = register_after(count, 2)?;
    let params = Names::Frame(op.params.as_slice(), 1);
    let before = Names::With(b"s", 0, &params);
    let shifted = Names::Frame(op.params.as_slice(), 2);
    let state = Names::With(b"s", 0, &shifted);
    let after = Names::With(b"r", 1, &state);
    let pre = expression_function_code(&op.pre, context, &before, with_state)?;
    let next = expression_function_code(&op.next, context, &after, with_result)?;
    let post = expression_function_code(&op.post, context, &after, with_result)?;
    let all = Vec::from_array(context.alloc, [pre, next, post])?;
    Ok(Items::from_vec(all))
}

/// The code of the callbacks of the operations among some items.
fn callbacks_code_of_operations(context: &Context<'_>, some: &[Item]) -> Functions
    ensures { IfOk result (λ all. all ≡ spec.operations_code context.now.items.now
        (numbers_in context.now) some.now) }
{
    let mut all = Items::new(context.alloc);
    for item in some {
        if let Item::Op(op) = item {
            all.append(operation_callbacks_code(op, context)?)?;
        }
    }
    Ok(all)
}

/// The code of the callbacks of a model.
fn callbacks_code(alloc: Global, items: &[Item]) -> Functions
    ensures { IfOk result (λ all. all ≡ spec.callbacks_code items.now) }
{
    let context = Context {
        alloc,
        items,
        earlier: items,
    };
    let none = Names::Frame(&[], 0);
    let state = Names::With(b"s", 0, &none);
    let opening = function_code_or_empty(find_initial_state_expression(items), &context, &none, 0)?;
    let command = function_code_or_empty(find_command_expression(items), &context, &state, 1)?;
    let others = callbacks_code_of_operations(&context, items)?;
    let mut all = Items::new(alloc);
    all.push(opening)?;
    all.push(command)?;
    all.append(others)?;
    Ok(all)
}

/// The code of a model: its functions in their order, then `init` and `command`, and then `pre`,
/// `next` and `post` of each operation.
#[tactic(auto, unfolding(crate::specs::Functions::whole_code))]
pub fn model_code(alloc: Global, items: &[Item]) -> Functions
    ensures { IfOk result (λ all. all ≡ spec.whole_code items.now) }
{
    let mut all = functions_code(alloc, items)?;
    let callbacks = callbacks_code(alloc, items)?;
    all.append(callbacks)?;
    Ok(all)
}

/// The larger of two counts.
fn larger_register_count(a: u32, b: u32) -> u32
    ensures { result ≡ max a b }
{
    if a < b { b } else { a }
}

/// One past a register.
fn next_register(register: u32) -> Result<u32, AllocError>
    ensures { IfOk result (λ count. count ≡ spec.past register) }
{
    register_after(register, 1)
}

/// One past the greater of two registers.
fn frame_size_for_two_registers(a: u32, b: u32) -> Result<u32, AllocError>
    ensures { IfOk result (λ count. count ≡ max (spec.past a) (spec.past b)) }
{
    Ok(larger_register_count(next_register(a)?, next_register(b)?))
}

/// One past the greatest of some registers.
fn frame_size_for_registers(registers: &[u32]) -> Result<u32, AllocError>
    ensures { IfOk result (λ count. count ≡ spec.past_all registers.now) }
{
    let mut count = 0;
    for register in registers {
        count = larger_register_count(count, next_register(*register)?);
    }
    Ok(count)
}

/// One past the greatest register of an instruction.
fn frame_size_for_instruction(instr: &Instr) -> Result<u32, AllocError>
    ensures { IfOk result (λ count. count ≡ spec.past_instr instr.now) }
{
    match instr {
        Instr::Const(d, _) => next_register(*d),
        Instr::Move(d, a)
        | Instr::Take(d, a)
        | Instr::Unary(_, d, a)
        | Instr::At(d, a, _)
        | Instr::Append(d, a) => frame_size_for_two_registers(*d, *a),
        Instr::Binary(_, d, a, b) => Ok(larger_register_count(
            next_register(*d)?,
            frame_size_for_two_registers(*a, *b)?,
        )),
        Instr::Put(d, a, b, c) => Ok(larger_register_count(
            frame_size_for_two_registers(*d, *a)?,
            frame_size_for_two_registers(*b, *c)?,
        )),
        Instr::Tuple(d, from)
        | Instr::List(d, from)
        | Instr::Call(d, _, from)
        | Instr::Apply(d, _, from) => Ok(larger_register_count(
            next_register(*d)?,
            frame_size_for_registers(from.as_slice())?,
        )),
        Instr::Jump(_) => Ok(0),
        Instr::Unless(a, _) => next_register(*a),
        Instr::Loop(d, a, i, _) => Ok(larger_register_count(
            next_register(*d)?,
            frame_size_for_two_registers(*a, *i)?,
        )),
        Instr::Return(a) => next_register(*a),
    }
}

/// How many registers the code needs.
fn frame_size(body: &[Instr]) -> Result<u32, AllocError>
    ensures { IfOk result (λ count. count ≡ spec.frame_size body.now) }
{
    let mut count = 0;
    for instr in body {
        count = larger_register_count(count, frame_size_for_instruction(instr)?);
    }
    Ok(count)
}
