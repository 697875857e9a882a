//! A register machine for the model language.
//!
//! A function is a list of instructions over its registers. `Code::check` accepts valid functions only, and `Code::run`
//! of such code returns. `specs/Lawful.antt` defines which code is valid, and `specs/Machine.antt` what the machine
//! does. `AllocError` means that an allocation failed.
#![tactic(auto)]

mod brief;
mod cells;
mod code;
mod in_place;
mod listing;
mod machine;
mod quick;
mod registers;
mod run;

pub use code::{Code, FunCode, Instr};
pub use run::Outcome;
