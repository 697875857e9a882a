//! The type checker of the model language, and `load`, which reads bytes as a well-typed model and the trees
//! after it, or returns the first refusal. `AllocError` means that an allocation failed.
#![tactic(auto)]

mod blame;
mod by_parts;
mod expressions;
mod items;
mod kinds;
mod laws;
mod loading;
mod operators;
mod parts;
mod scope;

pub use blame::{Blame, Found};
pub use expressions::infer;
pub use items::{first_ill_typed_item_number, holds_call, holds_ref_or_call, is_well_typed_item};
pub use kinds::{Kind, KindForm};
pub use laws::{
    first_ill_typed_item_is_unique, ill_typed_item_makes_model_ill_typed,
    inferred_type_agrees_with_rules, item_check_agrees_with_rules,
    search_finds_first_ill_typed_item,
};
pub use loading::{ModelFile, Refusal, TypeFault, check, load, trees_after_model};
pub use operators::key_type;
pub use parts::{model_name, operation_name, operation_parameters, operation_result};
pub use scope::{Context, Scope};
