//! The callbacks of a model, their plain evaluation, and the places of their faults.
ghost use Rattle.std.specs.Prelude.{◌≡◌, true, [], List, IfOk, IfSome, ◌≢◌};
ghost use Rattle.pst_eval.specs.Callbacks.{Says, Given, GivenState, PreFits, NextFits, PostFits, init_of, command_of, pre_of, next_of, post_of, at_names};
ghost use Rattle.pst_model.specs.Fitting.{is_state};
ghost use Rattle.pst_model.specs.WellTyped.{WellModel};
ghost use Rattle.pst_model.specs.declared.model.Source.{Source};
ghost use Rattle.pst_value.specs.declared.ty.Ty.{Ty};
ghost use Rattle.pst_value.specs.declared.ty.Ty.TheVariants as ty;
ghost use Rattle.pst_eval.specs.Env.{env_of};
ghost use Rattle.pst_operators.specs.Outcome.{Stuck};
ghost use Rattle.pst_eval.specs.Places.{callback_name};
ghost use Rattle.pst_eval.specs.Names.{next_names_result};

use crate::context::{Context, Env};
use crate::evaluation::eval;
use crate::names::does_next_name_result;
use pst_model::{
    Expr, Source, Typed, find_command_expression, find_initial_state_expression, operation_of,
};
use pst_operators::Stop;
use pst_value::{Fault, Value};
use std::alloc::{AllocError, Global};

/// What a callback returns: a value with the turns left of 1,000,000, or a fault; or `AllocError` if an
/// allocation fails.
pub type Answer = Result<Result<(Value, u32), Fault>, AllocError>;

/// The five callbacks of a model (of `eqc_statem`). Each returns what the model's expression means.
///
/// In contracts `free` has the result types of the commands whose variables may be free in the values, and `vars`
/// those of the commands whose results may occur in them. Operations are numbered from 0.
pub trait Callbacks {
    /// The model, as its name and items.
    ghost model: { Self → Source };

    /// The model, if it is at hand.
    fn well_typed(&self) -> Option<&Typed>
        ensures { IfSome result (λ typed. typed.now ≡ model self.now) }
    {
        None
    }

    /// Whether the state after a call of an operation depends on its result, by the form of the model, which is well
    /// typed. Allocates nothing.
    fn next_names_result(&self, op: u32) -> bool
        ensures form { result ≡ next_names_result (model self.now) op }
        ensures well { WellModel (model self.now) };

    /// The initial state.
    fn init(&self, alloc: Global) -> Answer
        ensures says { IfOk result (λ a. Says (init_of (model self.now)) a) }
        ensures fits { IfOk result (λ a. (free vars : List Ty) → GivenState (model self.now) free vars a) };

    /// The calls to pick from in a state, as a list.
    fn command(&self, alloc: Global, state: &Value) -> Answer
        requires { (free : List Ty) × (vars : List Ty)
            × (is_state (model self.now) free vars state.now ≡ true) }
        ensures says { IfOk result (λ a. Says (command_of (model self.now) state.now) a) }
        ensures fits { IfOk result
            (λ a. (free vars : List Ty) → is_state (model self.now) free vars state.now ≡ true
            → Given (model self.now) free vars (ty.List ty.Call) a) };

    /// The precondition of a call in a state, as a bool.
    fn pre(&self, alloc: Global, op: u32, state: &Value, arguments: &[Value]) -> Answer
        requires { (free : List Ty) × (vars : List Ty)
            × PreFits (model self.now) op state.now arguments.now free vars }
        ensures says { IfOk result (λ a. Says (pre_of (model self.now) op state.now arguments.now) a) }
        ensures fits { IfOk result (λ a. Given (model self.now) [] [] ty.Bool a) };

    /// The state after a call. `r` is the variable of the call or the reference to its result.
    fn next(&self, alloc: Global, op: u32, state: &Value, arguments: &[Value], r: &Value) -> Answer
        requires { (free : List Ty) × (vars : List Ty)
            × NextFits (model self.now) op state.now arguments.now r.now free vars }
        ensures says { IfOk result (λ a. Says (next_of (model self.now) op state.now arguments.now r.now) a) }
        ensures fits { IfOk result
            (λ a. (free vars : List Ty) → NextFits (model self.now) op state.now arguments.now r.now free vars
            → GivenState (model self.now) free vars a) };

    /// The postcondition of a call, on the state before it and its plain result, as a bool. No variable is free
    /// in the values.
    fn post(&self, alloc: Global, op: u32, state: &Value, arguments: &[Value], r: &Value) -> Answer
        requires { (vars : List Ty) × PostFits (model self.now) op state.now arguments.now r.now vars }
        ensures says { IfOk result (λ a. Says (post_of (model self.now) op state.now arguments.now r.now) a) }
        ensures fits { IfOk result (λ a. Given (model self.now) [] [] ty.Bool a) };
}

/// The turns that a callback starts with.
const MAX_TURNS: u32 = 1_000_000;

/// The callbacks of a well-typed model, evaluated by recursion on its expressions.
#[derive(Drop)]
pub struct Plain<'a> {
    typed: &'a Typed,
}

/// Evaluates an expression of the model.
#[tactic(auto, unfolding(crate::specs::Callbacks::at_names))]
fn eval_with_max_turns(model: &Source, expr: &Expr, alloc: Global, env: &Env<'_>) -> Answer
    requires { at_names model.now expr.now (env_of env.now) ≢ Stuck }
    ensures { IfOk result (λ a. Says (at_names model.now expr.now (env_of env.now)) a) }
{
    let context = Context {
        alloc,
        items: model.items.as_slice(),
        earlier: model.items.as_slice(),
    };
    let mut turns = MAX_TURNS;
    match eval(expr, &context, env, &mut turns) {
        Ok(value) => Ok(Ok((value, turns))),
        Err(Stop::Fault(fault)) => Ok(Err(fault)),
        Err(Stop::Stuck) => unreachable!(),
        Err(Stop::NoMemory) => Err(AllocError),
    }
}

impl<'a> Plain<'a> {
    /// The callbacks of the model.
    pub fn new(typed: &'a Typed) -> Plain<'a>
        ensures { result.typed.now ≡ typed.now }
    {
        Plain { typed }
    }
}

impl<'a> Callbacks for Plain<'a> {
    ghost model = { λ p. p.typed.now };

    fn well_typed(&self) -> Option<&Typed> {
        Some(self.typed)
    }

    fn next_names_result(&self, op: u32) -> bool {
        does_next_name_result(self.typed.source(), op)
    }

    fn init(&self, alloc: Global) -> Answer {
        let model = self.typed.source();
        let Some(opening) = find_initial_state_expression(model.items.as_slice()) else {
            unreachable!()
        };
        eval_with_max_turns(model, opening, alloc, &Env::Frame(&[], &[]))
    }

    fn command(&self, alloc: Global, state: &Value) -> Answer {
        let model = self.typed.source();
        let Some(calls) = find_command_expression(model.items.as_slice()) else {
            unreachable!()
        };
        let frame = Env::Frame(&[], &[]);
        let env = Env::With(b"s", &*state, &frame);
        eval_with_max_turns(model, calls, alloc, &env)
    }

    fn pre(&self, alloc: Global, op: u32, state: &Value, arguments: &[Value]) -> Answer {
        let model = self.typed.source();
        let Some(operation) = operation_of(model.items.as_slice(), op as usize) else {
            unreachable!()
        };
        let frame = Env::Frame(operation.params.as_slice(), arguments);
        let env = Env::With(b"s", &*state, &frame);
        eval_with_max_turns(model, &operation.pre, alloc, &env)
    }

    fn next(
        &self,
        alloc: Global,
        op: u32,
        state: &Value,
        arguments: &[Value],
        r: &Value,
    ) -> Answer {
        let model = self.typed.source();
        let Some(operation) = operation_of(model.items.as_slice(), op as usize) else {
            unreachable!()
        };
        let frame = Env::Frame(operation.params.as_slice(), arguments);
        let outer = Env::With(b"s", &*state, &frame);
        let inner = Env::With(b"r", &*r, &outer);
        eval_with_max_turns(model, &operation.next, alloc, &inner)
    }

    fn post(
        &self,
        alloc: Global,
        op: u32,
        state: &Value,
        arguments: &[Value],
        r: &Value,
    ) -> Answer {
        let model = self.typed.source();
        let Some(operation) = operation_of(model.items.as_slice(), op as usize) else {
            unreachable!()
        };
        let frame = Env::Frame(operation.params.as_slice(), arguments);
        let outer = Env::With(b"s", &*state, &frame);
        let inner = Env::With(b"r", &*r, &outer);
        eval_with_max_turns(model, &operation.post, alloc, &inner)
    }
}

/// A callback of a model (of `eqc_statem`).
#[derive(Clone, Copy, Debug, PartialEq, Eq, Drop)]
pub enum Callback {
    /// The initial state.
    Init,
    /// The calls to pick from.
    Command,
    /// The precondition of an operation.
    Pre,
    /// The next state.
    Next,
    /// The postcondition of an operation.
    Post,
}

impl Callback {
    /// The word that is printed for it.
    pub fn name(&self) -> &'static str
        ensures { result.now ≡ callback_name self.now }
    {
        match self {
            Callback::Init => "init",
            Callback::Command => "command",
            Callback::Pre => "pre",
            Callback::Next => "next",
            Callback::Post => "post",
        }
    }
}

/// The place of a callback's fault.
#[derive(Clone, Copy, Debug, PartialEq, Eq, Drop)]
pub struct FaultPlace {
    /// The number of the command, from 1, or 0 for the initial state.
    pub command: u32,
    /// The callback that faults.
    pub callback: Callback,
    /// The kind of its fault.
    pub fault: Fault,
}
