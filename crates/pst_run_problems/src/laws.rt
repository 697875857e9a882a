//! Laws of the faults of items.

ghost use Rattle.std.specs.Prelude.{◌≡◌, true, length, List};
ghost use Rattle.std.specs.Option.{is_some, is_none};
ghost use Rattle.pst_case.specs.declared.case.Case.{Case};
ghost use Rattle.pst_run_problems.specs.ItemForm.{form_fault};
ghost use Rattle.pst_run_problems.specs.ItemReplies.{ArePartsOf, first_other};
ghost use Rattle.pst_run_problems.specs.Places.{refused};
ghost use Rattle.pst_run_problems.specs.ValuePlaces.{are_accepted, have_types};
ghost use Rattle.pst_run_problems.specs.declared.command.Part.{Part};
ghost use Rattle.pst_run_problems.specs.declared.form_fault.CaseFormFault.{CaseFormFault};
ghost use Rattle.pst_model.specs.declared.model.Source.{Source};
ghost use Rattle.pst_runs.specs.Forms.{parts_of};
ghost use Rattle.pst_runs.specs.Replies.{are_counted};
ghost use Rattle.pst_runs.specs.Values.{each, in_arguments, value_of};
ghost use Rattle.pst_sexpr.specs.declared.form.Form.{Form};
ghost use Rattle.pst_value.specs.declared.ty.Ty.{Ty};

/// No fault is found exactly in the trees that the reader accepts as items.
pub fn no_case_form_fault_iff_accepted()
    ensures { (m : Source) (form : Form) → is_none (form_fault form) ≡ is_some (parts_of m form) }
{}

/// The place of a fault leads to a tree that the reader refuses there.
pub fn place_of_case_form_fault_is_refused()
    ensures { (m : Source) (form : Form) (fault : CaseFormFault) → form_fault form ≡ Some fault →
        refused m fault form ≡ true }
{}

/// If each part of a case has a list of replies, no part with another number of replies than of commands is found exactly
/// if the reader accepts the lists.
pub fn no_wrong_reply_count_iff_lists_accepted()
    ensures { (c : Case) (lists : List Form) (parts : List Part) → length lists ≡ length parts →
        ArePartsOf c parts → is_none (first_other lists 0 parts) ≡ are_counted c lists }
{}

/// The arguments of a command are accepted exactly if each spells a value as the reader reads it, and these have the types
/// that are wanted.
pub fn command_arguments_accepted_iff_well_typed()
    ensures { (m : Source) (results : List Ty) (forms : List Form) (types : List Ty) →
        are_accepted m results forms types ≡
        have_types results types (each (value_of (in_arguments m)) forms) }
{}
