//! Code that is put together of parts, and the places of instructions and registers of values in it.
ghost use Rattle.std.specs.Prelude.{◌≡◌, ◌+◌, IfOk, ◌++◌, ◌∷◌, [], pos};
ghost use Rattle.pst_machine.specs.declared.code.Instr.TheVariants as instr;
ghost use Rattle.pst_operators.specs.Maps.{map_of};
ghost use Rattle.pst_operators.specs.Operators.{int};
ghost use Rattle.pst_compile.specs.Code as spec;

use pst_machine::Instr;
use pst_value::{Boxed, Items, Value};
use std::alloc::{AllocError, Global};

/// The register that a value goes to, and the place of the first instruction of its code.
#[derive(Clone, Copy)]
pub struct Target {
    pub register: u32,
    pub place: usize,
}

impl Target {
    /// At the same place, with this register.
    pub fn with_register(self, register: u32) -> Target
        ensures register { result.register ≡ register }
        ensures place { result.place ≡ self.place }
    {
        Target {
            register,
            place: self.place,
        }
    }

    /// The target `count` instructions later.
    ///
    /// `AllocError`: the place has no number, and no memory holds such code.
    pub fn instructions_later(self, count: usize) -> Result<Target, AllocError>
        ensures register { IfOk result (λ target. target.register ≡ self.register) }
        ensures place { IfOk result (λ target. target.place ≡ self.place + count) }
    {
        match self.place.checked_add(count) {
            Some(place) => Ok(Target {
                register: self.register,
                place,
            }),
            None => Err(AllocError),
        }
    }

    /// The target with the register `count` further on.
    ///
    /// `AllocError`: the register has no number.
    pub fn registers_higher(self, count: u32) -> Result<Target, AllocError>
        ensures register { IfOk result (λ target. target.register ≡ self.register + count) }
        ensures place { IfOk result (λ target. target.place ≡ self.place) }
    {
        Ok(Target {
            register: register_after(self.register, count)?,
            place: self.place,
        })
    }
}

/// The register `count` after `register`.
///
/// `AllocError`: it has no number.
pub fn register_after(register: u32, count: u32) -> Result<u32, AllocError>
    ensures { IfOk result (λ after. after ≡ register + count) }
{
    match register.checked_add(count) {
        Some(after) => Ok(after),
        None => Err(AllocError),
    }
}

/// Code, or `AllocError`.
pub type Block = Result<Items<Instr>, AllocError>;

/// The place `count` instructions after `place`.
fn instruction_place_after(place: usize, count: usize) -> Result<usize, AllocError>
    ensures { IfOk result (λ after. after ≡ place + count) }
{
    match place.checked_add(count) {
        Some(after) => Ok(after),
        None => Err(AllocError),
    }
}

/// The map that has no keys.
pub fn empty_map(alloc: Global) -> Result<Value, AllocError>
    ensures { IfOk result (λ map. map ≡ map_of [] []) }
{
    let keys = Boxed::new(alloc, Items::new(alloc))?;
    let values = Boxed::new(alloc, Items::new(alloc))?;
    Ok(Value::Map(keys, values))
}

/// One instruction.
pub fn single_instruction(alloc: Global, instr: Instr) -> Block
    ensures { IfOk result (λ code. code ≡ instr ∷ []) }
{
    let mut code = Items::new(alloc);
    code.push(instr)?;
    Ok(code)
}

/// The first code, and then the second.
pub fn concat_code(first: Items<Instr>, second: Items<Instr>) -> Block
    ensures { IfOk result (λ code. code ≡ first ++ second) }
{
    let mut code = first;
    code.append(second)?;
    Ok(code)
}

/// An instruction, and then the code.
pub fn prepend_instruction(alloc: Global, instr: Instr, rest: Items<Instr>) -> Block
    ensures { IfOk result (λ code. code ≡ instr ∷ rest) }
{
    let first = single_instruction(alloc, instr)?;
    concat_code(first, rest)
}

/// The code, and then an instruction.
pub fn append_instruction(code: Items<Instr>, instr: Instr) -> Block
    ensures { IfOk result (λ all. all ≡ code ++ instr ∷ []) }
{
    let mut all = code;
    all.push(instr)?;
    Ok(all)
}

/// The code, with a jump at `place` that skips it if the register is false.
pub fn code_skipped_unless_true(
    alloc: Global,
    register: u32,
    code: Items<Instr>,
    place: usize,
) -> Block
    ensures { IfOk result (λ all. all ≡ spec.skipped_unless register code place) }
{
    let after = instruction_place_after(instruction_place_after(place, 1)?, code.len())?;
    prepend_instruction(alloc, Instr::Unless(register, after), code)
}

/// Code that runs `first`, or `second` if the register is false. The jump to `second` is at `place`.
pub fn if_else_code(
    alloc: Global,
    register: u32,
    first: Items<Instr>,
    second: Items<Instr>,
    place: usize,
) -> Block
    ensures { IfOk result (λ all. all ≡ spec.either register first second place) }
{
    let other = instruction_place_after(
        instruction_place_after(instruction_place_after(place, 1)?, first.len())?,
        1,
    )?;
    let after = instruction_place_after(other, second.len())?;
    let rest = prepend_instruction(alloc, Instr::Jump(after), second)?;
    let both = concat_code(first, rest)?;
    prepend_instruction(alloc, Instr::Unless(register, other), both)
}

/// The body, for each item of the list in a register, with the item in the register after the index.
/// The first index is written at the place of `index`.
pub fn loop_code(alloc: Global, list: u32, index: Target, body: Items<Instr>) -> Block
    ensures { IfOk result (λ all. all ≡
        instr.Const index.register (int (pos 0))
        ∷ spec.looped (index.register + 1) list index.register body (index.place + 1)) }
{
    let jump = instruction_place_after(index.place, 1)?;
    let start = instruction_place_after(jump, 1)?;
    let end = instruction_place_after(start, body.len())?;
    let item = register_after(index.register, 1)?;
    let turns = append_instruction(body, Instr::Loop(item, list, index.register, start))?;
    let all = prepend_instruction(alloc, Instr::Jump(end), turns)?;
    prepend_instruction(alloc, Instr::Const(index.register, Value::Int(0)), all)
}
