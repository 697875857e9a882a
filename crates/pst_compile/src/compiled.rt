//! The callbacks of a model by its code.

ghost use Rattle.std.specs.Prelude.{◌≡◌, ◌++◌, ◌+◌, ◌*◌, map, IfOk, MatchResult};
ghost use Rattle.pst_eval.specs.Callbacks.{Says};
ghost use Rattle.pst_machine.specs.Machine.{End};
ghost use Rattle.pst_compile.specs.Compiled.{DoesOnly};
ghost use Rattle.pst_compile.specs.Functions.{listing_of};

use crate::functions::model_code;
use crate::names::count_functions;
use pst_eval::{Callbacks, does_next_name_result};
use pst_machine::{Code, Outcome};
use pst_model::Typed;
use pst_value::{Fault, Items, Value};
use std::alloc::{AllocError, Global};
use std::marker::Model;

/// What a callback returns: a value and the turns left, or a fault; or `AllocError`.
type Answer = Result<Result<(Value, u32), Fault>, AllocError>;

/// The turns that a callback starts with.
const MAX_TURNS: u32 = 1_000_000;

/// The callbacks of a well-typed model, by its code. Contracts see it as the model.
///
/// Each callback answers what the model's expression means: the value, the fault and the turns left.
#[derive(Drop)]
pub struct Compiled {
    typed: Typed,
    code: Code,
    /// How many functions come before the callbacks.
    base: usize,
}

impl Model for Compiled {
    ghost use Rattle.pst_model.specs.declared.model.Source.{Source};
    ghost use Rattle.pst_model.specs.contracts.model.Source as coding;
    ghost use Rattle.pst_compile.specs.Compiled.{IsCompiled};

    ghost Value = { Source };

    ghost coded = { coding.the_row.coded };

    ghost view = { λ c. c.typed };

    ghost invariant = { λ c. IsCompiled c.typed.items c.code c.base };
}

impl Compiled {
    ghost use Rattle.std.specs.Prelude.{◌≡◌};

    /// The model.
    pub fn typed(&self) -> &Typed
        ensures { result.now ≡ self.now }
    {
        &self.typed
    }
}

/// Compiles a well-typed model.
///
/// `AllocError`, with the model handed back: an allocation failed, or the code has more registers or places
/// than there are numbers.
#[tactic(auto, using(crate::proofs::Checking::whole_fits))]
pub fn compile(alloc: Global, typed: Typed) -> Result<Compiled, (Typed, AllocError)>
    ensures { MatchResult result (λ compiled. compiled ≡ typed) (λ refused. refused.0 ≡ typed) }
{
    let codes = match model_code(alloc, typed.source().items.as_slice()) {
        Ok(codes) => codes,
        Err(error) => return Err((typed, error)),
    };
    let base = count_functions(typed.source().items.as_slice());
    match Code::check(codes) {
        Ok(code) => Ok(Compiled { typed, code, base }),
        Err(_) => unreachable!(),
    }
}

/// Returns the text of the compiled code as bytes: a line for each instruction, with the number of its
/// function, its place, its name and its operands, with single spaces. The functions of the model come in their
/// order, then `init` and `command`, and then `pre`, `next` and `post` of each operation.
pub fn listing(alloc: Global, compiled: &Compiled) -> Result<Items<u8>, AllocError>
    ensures { IfOk result (λ text. text ≡ listing_of compiled.now.items) }
{
    compiled.code.listing(alloc)
}

/// Runs a function of the code on lent arguments: those of `first`, and then those of `rest`. Each of its runs
/// has one end, which is not stuck.
fn run_callback_with_max_turns(
    code: &Code,
    alloc: Global,
    fun: usize,
    first: &[&Value],
    rest: &[Value],
) -> Answer
    requires { (o : End) × DoesOnly code.now fun (map (λ v. v.now) first.now ++ rest.now) o }
    ensures { IfOk result (λ a. (o : End)
        → DoesOnly code.now fun (map (λ v. v.now) first.now ++ rest.now) o → Says o a) }
{
    match code.run_on_lent_arguments(alloc, fun, first, rest, MAX_TURNS)? {
        Outcome::Value(value, turns) => Ok(Ok((value, turns))),
        Outcome::Fault(fault) => Ok(Err(fault)),
        Outcome::Stuck => unreachable!(),
    }
}

/// The number of a callback's function: `init` and `command` come after the functions, and then three for each
/// operation.
fn callback_function_number(base: usize, op: u32, callback: usize) -> Result<usize, AllocError>
    ensures { IfOk result (λ number. number ≡ base + 3 * op + callback) }
{
    let Some(first) = base.checked_add((op as usize) * 3) else {
        return Err(AllocError);
    };
    match first.checked_add(callback) {
        Some(number) => Ok(number),
        None => Err(AllocError),
    }
}

impl Callbacks for Compiled {
    ghost model = { λ c. c };

    fn well_typed(&self) -> Option<&Typed> {
        Some(&self.typed)
    }

    fn next_names_result(&self, op: u32) -> bool {
        does_next_name_result(self.typed.source(), op)
    }

    fn init(&self, alloc: Global) -> Answer {
        let _model = self.typed.source();
        let place = callback_function_number(self.base, 0, 0)?;
        run_callback_with_max_turns(&self.code, alloc, place, &[], &[])
    }

    fn command(&self, alloc: Global, state: &Value) -> Answer {
        let _model = self.typed.source();
        let place = callback_function_number(self.base, 0, 1)?;
        run_callback_with_max_turns(&self.code, alloc, place, &[state], &[])
    }

    fn pre(&self, alloc: Global, op: u32, state: &Value, arguments: &[Value]) -> Answer {
        let _model = self.typed.source();
        let place = callback_function_number(self.base, op, 2)?;
        run_callback_with_max_turns(&self.code, alloc, place, &[state], arguments)
    }

    fn next(
        &self,
        alloc: Global,
        op: u32,
        state: &Value,
        arguments: &[Value],
        r: &Value,
    ) -> Answer {
        let _model = self.typed.source();
        let place = callback_function_number(self.base, op, 3)?;
        run_callback_with_max_turns(&self.code, alloc, place, &[state, r], arguments)
    }

    fn post(
        &self,
        alloc: Global,
        op: u32,
        state: &Value,
        arguments: &[Value],
        r: &Value,
    ) -> Answer {
        let _model = self.typed.source();
        let place = callback_function_number(self.base, op, 4)?;
        run_callback_with_max_turns(&self.code, alloc, place, &[state, r], arguments)
    }
}
