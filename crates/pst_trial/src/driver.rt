//! What drives the cases of a trial.
ghost use Rattle.std.specs.Prelude.{◌≡◌, true, All, IfOk, IfErr, IfSome};
ghost use Rattle.pst_case.specs.Matches.{matches};
ghost use Rattle.pst_case.specs.Unknown.{times_of_calls};
ghost use Rattle.pst_trial.specs.Driving.{MayHaveDriven};

use pst_case::History;
use pst_driver::DriveFault;
use pst_judge::Valid;
use pst_model::Typed;
use pst_value::Items;
use std::alloc::{AllocError, Global};

/// Drives valid cases and records their histories, such as with threads on a system.
///
/// Each implementation names the histories and the faults that it may return. Two more things are known: a history
/// matches its case, and its times, if it has any, fit its calls.
pub trait Driver {
    ghost use Rattle.pst_case.specs.OfModel.{OfModel};
    ghost use Rattle.pst_case.specs.declared.history.History.{History};
    ghost use Rattle.pst_driver.specs.declared.driving.DriveFault.{DriveFault};
    ghost use Rattle.pst_trial.specs.Driving.{IsSteady};

    /// The histories that it may record of a case.
    ghost may_drive: { Self → OfModel → History → Type 0 };

    /// The faults that it may return in place of a history.
    ghost may_fail: { Self → OfModel → DriveFault → Type 0 };

    /// What a drive leaves as it was, as a relation of the value before and the value after.
    ghost keeps: { Self → Self → Type 0 };

    /// Drives a valid case of the model: the history that it recorded, or why the case was not driven.
    fn drive(&mut self, alloc: Global, typed: &Typed, valid: &Valid) -> Result<History, DriveFault>
        requires model { valid.now.model ≡ typed.now }
        ensures matches { IfOk result (λ h. matches typed.now valid.now.case h ≡ true) }
        ensures timed { IfOk result (λ h. times_of_calls h ≡ h.times) }
        ensures driven { IfOk result (λ h. may_drive self.old valid.now h) }
        ensures fault { IfErr result (λ f. may_fail self.old valid.now f) }
        ensures keeps { keeps self.old self.new };

    /// Has the system drive a valid case of the model many times by itself. Returns the histories that differ, in the order
    /// in which each came first, or `None` if it does not do so. A driver without such a system returns `None`.
    fn burst(
        &self,
        _alloc: Global,
        _typed: &Typed,
        _valid: &Valid,
    ) -> Result<Option<Items<History>>, AllocError>
        requires model { _valid.now.model ≡ _typed.now }
        ensures driven { IfOk result (λ found. IfSome found (All (MayHaveDriven (may_drive self.now) _valid.now))) }
    {
        Ok(None)
    }

    /// A shrink candidate of the trial is driven next, after this number of others. A driver may say so to somebody.
    fn note_next_candidate(&self, _driven: u64) {}

    /// A value that does not change keeps everything.
    ghost keeps_refl: { (a : Self) → keeps a a };

    /// Two drives in a row keep what each of them keeps.
    ghost keeps_trans: { (a b c : Self) → keeps a b → keeps b c → keeps a c };

    /// What it may record and return stays the same, as long as `keeps` holds.
    ghost steady: { (a b : Self) → keeps a b
        → IsSteady (may_drive b) (may_drive a) (may_fail b) (may_fail a) };
}
