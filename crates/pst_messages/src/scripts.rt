//! Generated scripts of a model: which operations they call, and which of them fault.
ghost use Rattle.std.specs.Prelude.{◌≤◌};

use crate::bounded::StepLimitedCommandRecorder;
use pst_case::Command;
use pst_compile::Compiled;
use pst_eval::FaultPlace;
use pst_gen::generate;
use pst_judge::Valid;
use pst_model::{Item, Typed};
use pst_value::Items;
use rand_pcg::Pcg64;
use std::alloc::{AllocError, Global};

/// The greatest number of scripts to generate for warnings.
pub const SCRIPTS: u32 = 16;

/// The greatest number of commands of a script.
pub const COMMANDS: u32 = 16;

/// How many steps the callbacks may take before the generation of scripts for warnings ends, as `StepLimitedCommandRecorder` counts them.
/// A call that has begun runs to its end.
const STEPS: u64 = 1_000_000;

/// A script in which a callback faults.
#[derive(Drop)]
pub struct FaultyScript {
    /// Its commands. If `pre` or `next` faults, the command of that call is the last.
    pub commands: Items<Command>,
    /// The place where the callback faults.
    pub place: FaultPlace,
}

/// How a generation ends.
#[derive(Drop)]
enum GeneratedScript {
    /// It gives a case.
    Whole(Valid),
    /// A callback faults.
    Faulty(FaultyScript),
    /// No steps are left.
    Cut,
}

/// What generated scripts of a model show.
#[derive(Drop)]
pub struct ScriptSummary {
    /// For each operation, in their order, whether a script calls it.
    pub called: Vec<bool>,
    /// How many were generated.
    pub count: u32,
    /// How many of them fault.
    pub faulty: u32,
    /// The first that faults.
    pub first_faulty: Option<FaultyScript>,
    /// Whether there were too few steps for all of them.
    pub is_cut: bool,
}

/// Generates the script of trial `number`. `seed` and `number` choose its random words. `steps` are the steps that the
/// callbacks may take, and afterwards the steps that are left.
fn generate_script_within_steps(
    alloc: Global,
    compiled: &Compiled,
    seed: u64,
    number: u64,
    commands: u32,
    steps: &mut u64,
) -> Result<GeneratedScript, AllocError>
    requires some { 1 ≤ commands }
    requires few { commands ≤ 64 }
{
    let callbacks = StepLimitedCommandRecorder::new(alloc, compiled, *steps);
    let mut words = Pcg64::new(seed as u128, number as u128);
    let generated = generate(
        &callbacks,
        alloc,
        compiled.typed(),
        &mut words,
        commands,
        1,
        0,
    );
    *steps = callbacks.steps_left();
    match generated {
        Ok(Ok(valid)) => Ok(GeneratedScript::Whole(valid)),
        Ok(Err(place)) => Ok(GeneratedScript::Faulty(FaultyScript {
            commands: callbacks.into_commands(),
            place,
        })),
        Err(AllocError) if *steps == 0 => Ok(GeneratedScript::Cut),
        Err(AllocError) => Err(AllocError),
    }
}

/// The script of trial `number` if a callback faults in it, so that the trial has no case. `seed` and `number` choose
/// its random words, and `commands` is the greatest number of its commands.
pub fn find_faulty_script_of_trial(
    alloc: Global,
    compiled: &Compiled,
    seed: u64,
    number: u64,
    commands: u32,
) -> Result<Option<FaultyScript>, AllocError>
    requires some { 1 ≤ commands }
    requires few { commands ≤ 64 }
{
    let mut steps = u64::MAX;
    match generate_script_within_steps(alloc, compiled, seed, number, commands, &mut steps)? {
        GeneratedScript::Faulty(script) => Ok(Some(script)),
        _ => Ok(None),
    }
}

/// A mark for each operation of a model, in their order, none of them set.
fn list_of_unset_operation_marks(alloc: Global, typed: &Typed) -> Result<Vec<bool>, AllocError> {
    let mut marks = Vec::new(alloc);
    for item in typed.source().items.as_slice() {
        if let Item::Op(_) = item {
            marks.push(false)?;
        }
    }
    Ok(marks)
}

/// Sets the marks of the operations that `commands` call.
fn mark_called_operations(marks: &mut Vec<bool>, commands: &[Command]) {
    for command in commands {
        if let Some(mark) = marks.get_mut(command.op as usize) {
            *mark = true;
        }
    }
}

impl ScriptSummary {
    /// Adds a script. A cut one is not counted.
    fn add_script_or_mark_cut(&mut self, script: GeneratedScript) {
        match script {
            GeneratedScript::Whole(valid) => {
                let case = valid.shaped().case();
                mark_called_operations(&mut self.called, case.prefix.as_slice());
            }
            GeneratedScript::Faulty(script) => {
                self.faulty = self.faulty.saturating_add(1);
                if self.first_faulty.is_none() {
                    self.first_faulty = Some(script);
                }
            }
            GeneratedScript::Cut => {
                self.is_cut = true;
                return;
            }
        }
        self.count = self.count.saturating_add(1);
    }
}

/// Generates scripts of a model, always of the same random words, up to a limit on the scripts and on the steps.
pub fn generate_and_summarize_scripts(
    alloc: Global,
    compiled: &Compiled,
) -> Result<ScriptSummary, AllocError> {
    let mut scripts = ScriptSummary {
        called: list_of_unset_operation_marks(alloc, compiled.typed())?,
        count: 0,
        faulty: 0,
        first_faulty: None,
        is_cut: false,
    };
    let mut steps = STEPS;
    for number in 0..SCRIPTS {
        let script = generate_script_within_steps(
            alloc,
            compiled,
            0,
            u64::from(number),
            COMMANDS,
            &mut steps,
        )?;
        scripts.add_script_or_mark_cut(script);
        if scripts.is_cut {
            break;
        }
    }
    Ok(scripts)
}
