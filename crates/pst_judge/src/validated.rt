//! Cases that are valid by their model, and why a case is not valid.
ghost use Rattle.std.specs.Prelude.{◌≡◌, IfOk};
ghost use Rattle.pst_judge.specs.WhyName.{why_name};

use crate::judgement::InterleavingText;
use pst_case::Shaped;
use pst_eval::FaultPlace;
use pst_model::Source;
use std::alloc::{AllocError, Global};
use std::fmt;
use std::marker::Model;

/// A case that is valid by its model: in every interleaving of its branches each precondition is true and no callback
/// faults. Contracts see it as the model and the case.
#[derive(Debug, Drop)]
pub struct Valid {
    shaped: Shaped,
}

impl Model for Valid {
    ghost use Rattle.pst_case.specs.OfModel.{OfModel, of_model_code};
    ghost use Rattle.pst_judge.specs.Validity.{IsValid};

    ghost Value = { OfModel };

    ghost coded = { of_model_code };

    ghost view = { λ v. v.shaped };

    ghost invariant = { λ v. IsValid v.shaped.model v.shaped.case };
}

impl Valid {
    ghost use Rattle.pst_judge.specs.Validity.{IsValid};

    /// Keeps a case that is valid by its model.
    pub(crate) fn new(shaped: Shaped) -> Valid
        requires { IsValid shaped.model shaped.case }
        ensures { result ≡ shaped }
    {
        Valid { shaped }
    }

    /// The case.
    pub fn shaped(&self) -> &Shaped
        ensures same { result.now ≡ self.now }
        ensures validity { IsValid self.now.model self.now.case }
    {
        &self.shaped
    }

    /// Takes the case out of its `Valid`.
    pub fn into_shaped(self) -> Shaped
        ensures same { result ≡ self }
        ensures validity { IsValid self.model self.case }
    {
        let Valid { shaped } = self;
        shaped
    }

    /// An equal valid case. Only contracts read `model`.
    pub fn copy(&self, alloc: Global, model: &Source) -> Result<Valid, AllocError>
        requires { self.now.model ≡ model.now }
        ensures { IfOk result (λ copy. copy ≡ self.now) }
    {
        Ok(Valid {
            shaped: self.shaped.copy(alloc, model)?,
        })
    }
}

/// Why a case is not valid.
#[derive(Debug, PartialEq, Eq, Drop)]
pub enum Why {
    /// In this interleaving, the first that fails, the precondition of the command is not true at its turn. An
    /// interleaving is a list of branch numbers, from 0.
    PreFalse {
        command: u32,
        merge: Vec<usize>,
    },
    /// In this interleaving, the first that fails, a callback faults at the place.
    CallbackFault {
        place: FaultPlace,
        merge: Vec<usize>,
    },
    /// An allocation failed.
    NoMemory,
}

impl Why {
    /// The name of the kind of reason.
    pub fn name(&self) -> &'static str
        ensures { result.now ≡ why_name self.now }
    {
        match self {
            Why::PreFalse { .. } => "PreFalse",
            Why::CallbackFault { .. } => "CallbackFault",
            Why::NoMemory => "NoMemory",
        }
    }
}

impl fmt::Display for Why {
    ghost use Rattle.std.specs.Prelude.{Some};
    ghost use Rattle.pst_judge.specs.JudgedText.{why_text};

    ghost output = { λ why. Some (why_text why) };

    fn fmt<W: fmt::Write>(&self, f: &mut fmt::Formatter<W>) -> fmt::Result {
        match self {
            Why::PreFalse { command, merge } => {
                let branches = merge.as_slice();
                let word = InterleavingText { branches };
                write!(f, "prefalse {command} merge {word}")
            }
            Why::CallbackFault { place, merge } => {
                let command = place.command;
                let callback = place.callback.name();
                let fault = place.fault.name();
                write!(f, "casefault {command} {callback} {fault}")?;
                let branches = merge.as_slice();
                let word = InterleavingText { branches };
                write!(f, " merge {word}")
            }
            Why::NoMemory => write!(f, "refused memory"),
        }
    }
}
