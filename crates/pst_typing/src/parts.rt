//! Parts of a well-typed model.
ghost use Rattle.std.specs.Prelude.{◌≡◌};
ghost use Rattle.std.specs.Option.{option_copied};
ghost use Rattle.pst_typing.specs.Operations as spec;

use pst_model::{Param, Typed, operation_of};
use pst_value::{Text, Ty};

/// The name of the model.
pub fn model_name(typed: &Typed) -> &Text
    ensures { result.now ≡ typed.now.name }
{
    &typed.source().name
}

/// The name of operation `number`, from 0.
pub fn operation_name(typed: &Typed, number: u32) -> Option<&Text>
    ensures { option_copied result ≡ spec.operation_name typed.now.items number }
{
    let operation = operation_of(typed.source().items.as_slice(), number as usize)?;
    Some(&operation.name)
}

/// The result type of operation `number`, from 0.
pub fn operation_result(typed: &Typed, number: u32) -> Option<&Ty>
    ensures { option_copied result ≡ spec.operation_result typed.now.items number }
{
    let operation = operation_of(typed.source().items.as_slice(), number as usize)?;
    Some(&operation.result)
}

/// The parameters, with their types, of operation `number`, from 0.
pub fn operation_parameters(typed: &Typed, number: u32) -> Option<&[Param]>
    ensures { option_copied result ≡ spec.operation_parameters typed.now.items number }
{
    let operation = operation_of(typed.source().items.as_slice(), number as usize)?;
    Some(operation.params.as_slice())
}
