//! Checks whether a case is valid.
ghost use Rattle.std.specs.Prelude.{◌≡◌, ◌⊎◌, IfOk, IfErr};
ghost use Rattle.pst_case.specs.Shape.{IsShaped};
ghost use Rattle.pst_judge.specs.SymbolicSearch.{IsReasonOfSearch, IsSymbolicState};
ghost use Rattle.pst_judge.specs.Real.{IsAlwaysValid};
ghost use Rattle.pst_judge.specs.Replay.{branch_lengths};
ghost use Rattle.pst_judge.specs.Symbolic.{branch_commands, suffix_commands};
ghost use Rattle.pst_judge.specs.Validity.{IsValid, IsWhy, IsReason};
ghost use Rattle.pst_model.specs.WellTyped.{WellModel};

use crate::events::number_after;
use crate::symbolic::{
    append_numbered_commands, branches_with_numbers, callback_fault_at_command,
    run_commands_symbolically,
};
use crate::symbolic_search::{
    SymbolicBranches, find_first_failing_interleaving, reason_with_first_interleaving,
};
use crate::validated::{Valid, Why};
use pst_case::Shaped;
use pst_eval::{Callback, Callbacks};
use pst_value::{Items, Value};
use std::alloc::{AllocError, Global};

/// Why the case is not valid, from the symbolic state after the prefix; `None` if it is valid.
fn why_invalid_after_prefix<C: Callbacks>(
    callbacks: &C,
    alloc: Global,
    shaped: &Shaped,
    state: &Value,
) -> Result<Option<Why>, AllocError>
    requires shape { IsShaped (C.model callbacks.now) shaped.now.case }
    requires state { IsSymbolicState (C.model callbacks.now) shaped.now.case state.now }
    ensures { let c = shaped.now.case in IfOk result
        (IsReasonOfSearch (C.model callbacks.now) (branch_commands c) (suffix_commands c) (branch_lengths c)
        state.now) }
{
    let case = shaped.case();
    let number = 1 + case.prefix.len() as u32;
    let branches = case.branches.as_slice();
    let commands = branches_with_numbers(alloc, number, branches, Items::new(alloc))?;
    let number = number_after(number, branches);
    let suffix = append_numbered_commands(
        alloc,
        number,
        case.suffix.as_slice(),
        Items::new(alloc),
    )?;
    let symbolic = SymbolicBranches {
        callbacks,
        shaped,
        commands,
        suffix,
    };
    find_first_failing_interleaving(alloc, &symbolic, state)
}

/// Why the case is not valid by the model of the callbacks; `None` if it is valid.
pub fn why_invalid<C: Callbacks>(
    callbacks: &C,
    alloc: Global,
    shaped: &Shaped,
) -> Result<Option<Why>, AllocError>
    requires { shaped.now.model ≡ C.model callbacks.now }
    ensures { IfOk result (IsReason (C.model callbacks.now) shaped.now.case) }
{
    let case = shaped.case();
    let (state, _) = match callbacks.init(alloc)? {
        Ok(opening) => opening,
        Err(fault) => {
            return reason_with_first_interleaving(
                alloc,
                shaped,
                callback_fault_at_command(0, Callback::Init, fault),
            );
        }
    };
    let commands = case.prefix.as_slice();
    let prefix = append_numbered_commands(alloc, 1, commands, Items::new(alloc))?;
    match run_commands_symbolically(callbacks, alloc, state, prefix.as_slice())? {
        Ok(last) => why_invalid_after_prefix(callbacks, alloc, shaped, &last),
        Err(failing) => reason_with_first_interleaving(alloc, shaped, failing),
    }
}

/// Returns the case as a [`Valid`] if it is valid by the model of the callbacks, and otherwise the case with the
/// reason.
///
/// The check covers every interleaving of the branches, after the prefix and before the suffix, on symbolic states from
/// the initial state on. Each command's precondition must be true, and its next state, with the variable of the
/// command's number as the result, must come without a fault. The reason is that of the first interleaving that fails,
/// at its first command that fails. If an allocation fails, the reason is `NoMemory`.
///
/// Over a well-typed model a valid case stays valid with recorded results in place of variables: whatever values a
/// history records, in every interleaving each precondition is true on the real state, and neither `init` nor a `pre`
/// or `next` faults.
pub fn valid<C: Callbacks>(
    callbacks: &C,
    alloc: Global,
    shaped: Shaped,
) -> Result<Valid, (Shaped, Why)>
    requires model { shaped.model ≡ C.model callbacks.now }
    ensures valid { IfOk result (λ v. (v ≡ shaped) × IsValid (C.model callbacks.now) shaped.case) }
    ensures real { IfOk result
        (λ v. WellModel (C.model callbacks.now) → IsAlwaysValid (C.model callbacks.now) shaped.case) }
    ensures refused { IfErr result (λ r. (r.0 ≡ shaped)
        × ((r.1 ≡ Why.NoMemory) ⊎ IsWhy (C.model callbacks.now) shaped.case r.1)) }
{
    let _case = shaped.case();
    match why_invalid(callbacks, alloc, &shaped) {
        Ok(None) => Ok(Valid::new(shaped)),
        Ok(Some(why)) => Err((shaped, why)),
        Err(AllocError) => Err((shaped, Why::NoMemory)),
    }
}
