//! Misfits: answers of a system that are not of the result type of the called operation.
//!
//! A driver replies `misfit` to such an answer and does not keep it. A system in `MisfitRecorder` answers as
//! before, and `Misfits` keeps the first of these answers, for lines that people read (`misfit_lines_text`).
ghost use Rattle.std.specs.Prelude.{◌≡◌, [], IfOk};
ghost use Rattle.pst_case.specs.Shape.{result_type};
ghost use Rattle.pst_model.specs.Fitting.{fits_in};
ghost use Rattle.pst_system.specs.Kept.{AreKept};

use pst_case::Command;
use pst_model::{Source, Typed, operation_of};
use pst_print::ty_form;
use pst_scene::{
    add_str, add_tree_spelling, add_value_spelling, copy_explanation_text, value_text,
};
use pst_system::{BurstCase, BurstDrive, CallEnd, CallFault, RealCall, System};
use pst_value::{Items, Ty, Value};
use std::alloc::{AllocError, Global};
use std::sync::atomic::{AtomicU64, Ordering};
use std::sync::{Arc, OnceLock};

/// How many misfits are kept at most.
pub const MOST_KEPT: usize = 8;

/// A call, and the answer to it, which is not of the operation's result type.
#[derive(Debug, PartialEq, Eq, Drop)]
pub struct Misfit {
    pub call: RealCall,
    pub answer: Value,
}

/// The first misfits of a system, with their calls, and how many there were. The threads that call a system may
/// note answers at once; they do not wait for one another.
#[derive(Drop)]
pub struct Misfits {
    alloc: Global,
    /// The model, from when answers are compared with it.
    typed: OnceLock<Typed>,
    /// How many there were.
    count: AtomicU64,
    /// A place for each of the first, which stays empty if there is no memory for a copy.
    kept: Vec<OnceLock<Misfit>>,
}

impl Misfit {
    /// An answer and its call, copied.
    pub fn from_copies(alloc: Global, call: &RealCall, answer: &Value) -> Result<Misfit, AllocError>
        ensures call { IfOk result (λ misfit. misfit.call ≡ call.now) }
        ensures answer { IfOk result (λ misfit. misfit.answer ≡ answer.now) }
    {
        Ok(Misfit {
            call: call.copy(alloc)?,
            answer: answer.copy(alloc)?,
        })
    }
}

/// Whether the answer is of the result type of the operation that is called.
fn is_answer_of_result_type(alloc: Global, typed: &Typed, call: &RealCall, answer: &Value) -> bool
    ensures { result ≡ fits_in typed.now [] [] answer.now
        (result_type typed.now (record { op = call.now.op; args = [] })) }
{
    // The type depends on the operation alone, and no arguments take no memory.
    let command = Command {
        op: call.op,
        args: Items::new(alloc),
    };
    command.admits_result(typed, answer)
}

impl Misfits {
    /// No answers. None is noted before `set_model_if_unset`.
    pub fn new(alloc: Global) -> Result<Misfits, AllocError> {
        let mut kept = Vec::new(alloc);
        for _ in 0..MOST_KEPT {
            kept.push(OnceLock::new())?;
        }
        Ok(Misfits {
            alloc,
            typed: OnceLock::new(),
            count: AtomicU64::new(0),
            kept,
        })
    }

    /// Compares answers from now on with the result types of the model. The first model stays.
    pub fn set_model_if_unset(&self, typed: Typed) {
        let _ = self.typed.try_set(typed);
    }

    /// The model that answers are compared with, if there is one.
    pub fn model(&self) -> Option<&Source> {
        match self.typed.get() {
            Some(typed) => Some(typed.source()),
            None => None,
        }
    }

    /// Counts a misfit. Keeps a copy of the answer and of its call, if a place is left and no allocation fails.
    fn count_misfit_and_keep_if_room(&self, call: &RealCall, answer: &Value) {
        let before = self.count.fetch_add(1, Ordering::SeqCst);
        let Ok(place) = usize::try_from(before) else {
            return;
        };
        let Some(place) = self.kept.get(place) else {
            return;
        };
        if let Ok(misfit) = Misfit::from_copies(self.alloc, call, answer) {
            let _ = place.try_set(misfit);
        }
    }

    /// Notes the answer to a call, if it is not of the operation's result type.
    pub fn record_answer_if_misfit(&self, call: &RealCall, answer: &Value) {
        if let Some(typed) = self.typed.get() {
            if !is_answer_of_result_type(self.alloc, typed, call, answer) {
                self.count_misfit_and_keep_if_room(call, answer);
            }
        }
    }

    /// Notes the answers in drives of a burst that are not of the result types of their operations.
    fn record_misfits_of_drives(&self, drives: &[BurstDrive]) {
        for drive in drives {
            for branch in drive.branches.as_slice() {
                for made in branch.as_slice() {
                    if let CallEnd::Answered(answer) = &made.end {
                        self.record_answer_if_misfit(&made.call, answer);
                    }
                }
            }
        }
    }

    /// The misfit at a place below `MOST_KEPT`, if one is kept there.
    pub fn get(&self, place: usize) -> Option<&Misfit> {
        self.kept.get(place)?.get()
    }

    /// How many misfits there were, kept or not.
    pub fn count(&self) -> u64 {
        self.count.load(Ordering::SeqCst)
    }
}

/// Wraps a system to note its misfits: answers of the wrong type. It answers as the system does.
#[derive(Drop)]
pub struct MisfitRecorder<S: System> {
    system: S,
    misfits: Option<Arc<Misfits, Global>>,
}

impl<S: System> MisfitRecorder<S> {
    /// Wraps a system, and notes its misfits in `misfits`, if it is given. What the system may answer, and how
    /// its calls and its resets may fail, stays.
    pub fn new(system: S, misfits: Option<Arc<Misfits, Global>>) -> MisfitRecorder<S>
        ensures { AreKept
            (⟦<MisfitRecorder<S> as System>⟧.answers result) (S.answers system)
            (⟦<MisfitRecorder<S> as System>⟧.fails result) (S.fails system)
            (⟦<MisfitRecorder<S> as System>⟧.reset_fails result) (S.reset_fails system) }
    {
        MisfitRecorder { system, misfits }
    }
}

impl<S: System> System for MisfitRecorder<S> {
    ghost answers = { λ s c v. S.answers s.system c v };

    ghost fails = { λ s c f. S.fails s.system c f };

    ghost reset_fails = { λ s f. S.reset_fails s.system f };

    fn reset(&mut self) -> Result<(), CallFault> {
        self.system.reset()
    }

    fn call(&self, call: &RealCall) -> Result<Value, CallFault> {
        let answer = self.system.call(call)?;
        if let Some(misfits) = &self.misfits {
            misfits.record_answer_if_misfit(call, &answer);
        }
        Ok(answer)
    }

    fn call_from(&self, branch: u32, call: &RealCall) -> Result<Value, CallFault> {
        let answer = self.system.call_from(branch, call)?;
        if let Some(misfits) = &self.misfits {
            misfits.record_answer_if_misfit(call, &answer);
        }
        Ok(answer)
    }

    fn bursts(&self) -> bool {
        self.system.bursts()
    }

    fn burst(&mut self, case: &BurstCase) -> Option<Items<BurstDrive>> {
        let drives = self.system.burst(case)?;
        if let Some(misfits) = &self.misfits {
            misfits.record_misfits_of_drives(drives.as_slice());
        }
        Some(drives)
    }
}

/// How many characters of a call or of an answer a line shows at most.
const MOST_SHOWN: usize = 60;

/// The beginning of a spelling on one line, with control characters as `\x0a`. Empty if the spelling is not UTF-8.
fn printable_beginning_of_spelling(alloc: Global, spelling: &[u8]) -> Result<String, AllocError> {
    let mut shown = String::new(alloc);
    let Ok(text) = std::str::from_utf8(spelling) else {
        return Ok(shown);
    };
    for (place, character) in text.chars().enumerate() {
        if place == MOST_SHOWN {
            shown.push_str("..")?;
            return Ok(shown);
        }
        if character.is_control() {
            let code = u32::from(character);
            shown.push_str(format!(in alloc; "\\x{code:02x}")?.as_str())?;
        } else {
            shown.push(character)?;
        }
    }
    Ok(shown)
}

/// The call as items spell it.
fn real_call_spelling(
    alloc: Global,
    model: &Source,
    call: &RealCall,
) -> Result<Vec<u8>, AllocError> {
    let mut text = copy_explanation_text(alloc, "(")?;
    add_str(&mut text, call.name.as_str())?;
    for arg in call.args.as_slice() {
        add_str(&mut text, " ")?;
        add_value_spelling(&mut text, alloc, model, arg)?;
    }
    add_str(&mut text, ")")?;
    Ok(text)
}

/// The type as models spell it.
fn type_spelling(alloc: Global, ty: &Ty) -> Result<Vec<u8>, AllocError> {
    let mut text = Vec::new(alloc);
    add_tree_spelling(&mut text, &ty_form(alloc, ty)?)?;
    Ok(text)
}

/// `misfit: (get) answered "x", wanted int`, and a line end.
fn misfit_line(alloc: Global, model: &Source, misfit: &Misfit) -> Result<String, AllocError> {
    let call = printable_beginning_of_spelling(
        alloc,
        real_call_spelling(alloc, model, &misfit.call)?.as_slice(),
    )?;
    let answer = printable_beginning_of_spelling(
        alloc,
        value_text(alloc, model, &misfit.answer)?.as_slice(),
    )?;
    match operation_of(model.items.as_slice(), misfit.call.op as usize) {
        Some(operation) => {
            let wanted = printable_beginning_of_spelling(
                alloc,
                type_spelling(alloc, &operation.result)?.as_slice(),
            )?;
            format!(in alloc; "misfit: {call} answered {answer}, wanted {wanted}\n")
        }
        None => format!(in alloc; "misfit: {call} answered {answer}\n"),
    }
}

/// A line such as `misfit: (get) answered "x", wanted int` for each misfit in `misfits`. If there were others,
/// a line such as `misfit: 3 more` follows. The text is empty if there were none.
pub fn misfit_lines_text(alloc: Global, misfits: &Misfits) -> Result<String, AllocError> {
    let mut text = String::new(alloc);
    let Some(model) = misfits.model() else {
        return Ok(text);
    };
    let mut others = misfits.count();
    for place in 0..MOST_KEPT {
        if let Some(misfit) = misfits.get(place) {
            text.push_str(misfit_line(alloc, model, misfit)?.as_str())?;
            others = others.saturating_sub(1);
        }
    }
    if others > 0 {
        text.push_str(format!(in alloc; "misfit: {others} more\n")?.as_str())?;
    }
    Ok(text)
}
