//! The callbacks of a model while a script is generated. They take a bounded number of steps, and record the commands.
ghost use Rattle.std.specs.Prelude.{◌≡◌};

use pst_case::Command;
use pst_compile::Compiled;
use pst_eval::Callbacks;
use pst_value::{Fault, Items, Value};
use std::alloc::{AllocError, Global};
use std::cell::RefCell;

/// The result of a callback: a value and the turns left, or a fault.
type Answer = Result<Result<(Value, u32), Fault>, AllocError>;

/// The callbacks of a compiled model, with a limit on their steps, which `pst_explain::StepLimitedCallbacks` counts. If no steps are
/// left, a call returns `AllocError`, which ends the generation of a script.
#[derive(Drop)]
pub struct StepLimitedCommandRecorder<'a> {
    limited: pst_explain::StepLimitedCallbacks<'a, Compiled>,
    /// The commands since the last call of `init`: those whose `next` was called, then the one whose `pre` faulted.
    commands: RefCell<Items<Command>>,
}

/// A command of the operation `op` with copies of `arguments`.
fn command_with_copied_arguments(
    alloc: Global,
    op: u32,
    arguments: &[Value],
) -> Result<Command, AllocError> {
    let mut args = Items::new(alloc);
    for argument in arguments {
        args.push(argument.copy(alloc)?)?;
    }
    Ok(Command { op, args })
}

impl<'a> StepLimitedCommandRecorder<'a> {
    /// The callbacks of `compiled`, which may take `steps` steps.
    pub fn new(alloc: Global, compiled: &'a Compiled, steps: u64) -> StepLimitedCommandRecorder<'a>
        ensures { result.limited.callbacks.now ≡ compiled.now }
    {
        StepLimitedCommandRecorder {
            limited: pst_explain::StepLimitedCallbacks::new(compiled, steps),
            commands: RefCell::new(Items::new(alloc)),
        }
    }

    /// How many steps are left.
    pub fn steps_left(&self) -> u64 {
        self.limited.steps_left()
    }

    /// The commands of the last script, up to the one whose callback faulted, if one did.
    pub fn into_commands(self) -> Items<Command> {
        self.commands.into_inner()
    }

    /// Forgets the commands of the last script.
    fn clear_commands(&self, alloc: Global) {
        if let Ok(mut commands) = self.commands.try_borrow_mut() {
            *commands = Items::new(alloc);
        }
    }

    /// Records a command of the script.
    fn record_command(
        &self,
        alloc: Global,
        op: u32,
        arguments: &[Value],
    ) -> Result<(), AllocError> {
        let command = command_with_copied_arguments(alloc, op, arguments)?;
        match self.commands.try_borrow_mut() {
            Ok(mut commands) => commands.push(command),
            Err(_) => Ok(()),
        }
    }
}

impl<'a> Callbacks for StepLimitedCommandRecorder<'a> {
    ghost model = { λ b. b.limited.callbacks.now };

    fn next_names_result(&self, op: u32) -> bool {
        self.limited.next_names_result(op)
    }

    fn init(&self, alloc: Global) -> Answer {
        self.limited.note_and_fail_if_out_of_steps()?;
        self.clear_commands(alloc);
        self.limited.init(alloc)
    }

    fn command(&self, alloc: Global, state: &Value) -> Answer {
        self.limited.command(alloc, state)
    }

    fn pre(&self, alloc: Global, op: u32, state: &Value, arguments: &[Value]) -> Answer {
        let answer = self.limited.pre(alloc, op, state, arguments)?;
        if answer.is_err() {
            self.record_command(alloc, op, arguments)?;
        }
        Ok(answer)
    }

    fn next(
        &self,
        alloc: Global,
        op: u32,
        state: &Value,
        arguments: &[Value],
        r: &Value,
    ) -> Answer {
        self.limited.note_and_fail_if_out_of_steps()?;
        self.record_command(alloc, op, arguments)?;
        self.limited.next(alloc, op, state, arguments, r)
    }

    fn post(
        &self,
        alloc: Global,
        op: u32,
        state: &Value,
        arguments: &[Value],
        r: &Value,
    ) -> Answer {
        self.limited.post(alloc, op, state, arguments, r)
    }
}
