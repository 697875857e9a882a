//! Models.

use crate::writing::{
    write_json_expression_text, write_json_expression_text_member, write_json_text_member,
    write_json_type_text,
};
use json::Writer;
use pst_model::{Fun, Item, Op, Param, Source, find_initial_state_expression, find_state_type};
use std::alloc::{AllocError, Global};

/// Writes the member `params`: the parameters with their types.
fn write_json_parameters_member(
    writer: &mut Writer<Global>,
    alloc: Global,
    params: &[Param],
) -> Result<(), AllocError> {
    writer.key("params")?;
    writer.begin_array()?;
    for param in params {
        writer.begin_array()?;
        writer.string(param.name.as_str())?;
        write_json_type_text(writer, alloc, &param.ty)?;
        writer.end_array()?;
    }
    writer.end_array()
}

/// Writes an operation.
fn write_json_operation(
    writer: &mut Writer<Global>,
    alloc: Global,
    op: &Op,
) -> Result<(), AllocError> {
    writer.begin_object()?;
    write_json_text_member(writer, "name", op.name.as_str())?;
    write_json_parameters_member(writer, alloc, op.params.as_slice())?;
    writer.key("result")?;
    write_json_type_text(writer, alloc, &op.result)?;
    write_json_expression_text_member(writer, alloc, "pre", &op.pre)?;
    write_json_expression_text_member(writer, alloc, "next", &op.next)?;
    write_json_expression_text_member(writer, alloc, "post", &op.post)?;
    writer.end_object()
}

/// Writes a function.
fn write_json_function(
    writer: &mut Writer<Global>,
    alloc: Global,
    fun: &Fun,
) -> Result<(), AllocError> {
    writer.begin_object()?;
    write_json_text_member(writer, "name", fun.name.as_str())?;
    write_json_parameters_member(writer, alloc, fun.params.as_slice())?;
    writer.key("result")?;
    write_json_type_text(writer, alloc, &fun.result)?;
    write_json_expression_text_member(writer, alloc, "body", &fun.body)?;
    writer.end_object()
}

/// Writes the member `ops`: the operations.
fn write_json_operations_member(
    writer: &mut Writer<Global>,
    alloc: Global,
    items: &[Item],
) -> Result<(), AllocError> {
    writer.key("ops")?;
    writer.begin_array()?;
    for item in items {
        if let Item::Op(op) = item {
            write_json_operation(writer, alloc, op)?;
        }
    }
    writer.end_array()
}

/// Writes the member `funs`: the functions.
fn write_json_functions_member(
    writer: &mut Writer<Global>,
    alloc: Global,
    items: &[Item],
) -> Result<(), AllocError> {
    writer.key("funs")?;
    writer.begin_array()?;
    for item in items {
        if let Item::Fun(fun) = item {
            write_json_function(writer, alloc, fun)?;
        }
    }
    writer.end_array()
}

/// Writes the members `state` and `init`: the type of the state, and the initial state.
fn write_json_state_type_and_init_members(
    writer: &mut Writer<Global>,
    alloc: Global,
    items: &[Item],
) -> Result<(), AllocError> {
    if let Some(ty) = find_state_type(items) {
        writer.key("state")?;
        write_json_type_text(writer, alloc, ty)?;
    }
    if let Some(expr) = find_initial_state_expression(items) {
        writer.key("init")?;
        write_json_expression_text(writer, alloc, expr)?;
    }
    Ok(())
}

/// Writes the member `model`.
pub fn write_json_model_member(
    writer: &mut Writer<Global>,
    alloc: Global,
    model: &Source,
) -> Result<(), AllocError> {
    let items = model.items.as_slice();
    writer.key("model")?;
    writer.begin_object()?;
    write_json_text_member(writer, "name", model.name.as_str())?;
    write_json_state_type_and_init_members(writer, alloc, items)?;
    write_json_operations_member(writer, alloc, items)?;
    write_json_functions_member(writer, alloc, items)?;
    writer.end_object()
}
