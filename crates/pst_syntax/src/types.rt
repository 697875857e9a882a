//! Reading types.
ghost use Rattle.pst_syntax.specs.Reading as spec;
ghost use Rattle.pst_syntax.specs.Reading.{Gives};
ghost use Rattle.pst_syntax.specs.Shown.{shown_ty};

use crate::fault::FaultKind;
use crate::reader::MAX_PARTS;
use crate::shape::{TyShape, ty_shape};
use pst_sexpr::Form;
use pst_value::{Boxed, Items, Ty};
use std::alloc::Global;

/// Reads a type with `room` levels of room. `has_maps` says whether the language has maps.
#[cycle(read_ty)]
#[tactic(auto, using(crate::proofs::Rooms::ty_rooms))]
pub fn read_ty(alloc: Global, has_maps: bool, form: &Form, room: usize) -> Result<Ty, FaultKind>
    ensures { Gives result (spec.ty_of has_maps room form.now) }
{
    let Some(shape) = ty_shape(has_maps, form) else {
        return Err(FaultKind::UnknownForm);
    };
    if room == 0 {
        return Err(FaultKind::OverLimit);
    }
    read_type_of_shape(alloc, has_maps, &shape, room - 1)
}

#[cycle(read_ty)]
fn read_type_of_shape(
    alloc: Global,
    has_maps: bool,
    shape: &TyShape<'_>,
    room: usize,
) -> Result<Ty, FaultKind>
    ensures { Gives result (spec.ty_parts (spec.ty_of has_maps room) (shown_ty shape.now)) }
{
    match shape {
        TyShape::Int => Ok(Ty::Int),
        TyShape::Bool => Ok(Ty::Bool),
        TyShape::Text => Ok(Ty::Text),
        TyShape::Call => Ok(Ty::Call),
        TyShape::Tuple(types) => {
            if types.len() > MAX_PARTS {
                return Err(FaultKind::OverLimit);
            }
            Ok(Ty::Tuple(read_types(alloc, has_maps, types, room)?))
        }
        TyShape::List(item) => Ok(Ty::List(read_boxed_type(alloc, has_maps, item, room)?)),
        TyShape::Map(key, value) => Ok(Ty::Map(
            *key,
            read_boxed_type(alloc, has_maps, value, room)?,
        )),
        TyShape::Ref(target) => Ok(Ty::Ref(read_boxed_type(alloc, has_maps, target, room)?)),
    }
}

#[cycle(read_ty)]
fn read_boxed_type(
    alloc: Global,
    has_maps: bool,
    form: &Form,
    room: usize,
) -> Result<Boxed<Ty>, FaultKind>
    ensures { Gives result (spec.ty_of has_maps room form.now) }
{
    Ok(Boxed::new(alloc, read_ty(alloc, has_maps, form, room)?)?)
}

#[cycle(read_ty)]
fn read_types(
    alloc: Global,
    has_maps: bool,
    forms: &[Form],
    room: usize,
) -> Result<Items<Ty>, FaultKind>
    ensures { Gives result (spec.each (spec.ty_of has_maps room) forms.now) }
{
    let mut types = Items::new(alloc);
    for form in forms {
        types.push(read_ty(alloc, has_maps, form, room)?)?;
    }
    Ok(types)
}
