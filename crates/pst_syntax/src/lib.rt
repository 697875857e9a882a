//! Models as text: their reader, which finds the first fault of a model and its item.
#![tactic(auto)]

mod fault;
mod item_shapes;
mod items;
pub mod laws;
mod read;
mod reader;
mod shape;
mod types;
mod words;

pub use fault::{FaultKind, SyntaxFault};
pub use item_shapes::{
    CallbackShape, FunShape, ItemShape, ModelShape, OpShape, ParamShape, callback_shape,
    item_shape, model_shape, param_shape,
};
pub use reader::{
    MAX_DECLARED, MAX_EXPR_LEVELS, MAX_NAME, MAX_PARTS, MAX_TREES, MAX_TY_LEVELS, Model,
    read_model, room_left_after_tree,
};
pub use shape::{
    ClauseShape, FoldShape, Shape, TyShape, clause_shape, read_key_type, shape_of, ty_shape,
};
pub use words::{
    is_name, is_unreserved_name, is_usable_name, is_usable_operation_name, is_within_name_length,
};
