//! Why a model is refused.

ghost use Rattle.std.specs.Prelude.{◌≡◌};
ghost use Rattle.pst_syntax.specs.FaultName.{name_of};
ghost use Rattle.pst_syntax.specs.Items.{FaultOf};

use std::alloc::{AllocError, AllocFailed};
use std::error::Error;
use std::fmt;

/// Why a model is refused. At one tree the reader returns the first of this list.
#[derive(Clone, Copy, Debug, PartialEq, Eq, Drop)]
pub enum FaultKind {
    /// The tree is no form of the language.
    UnknownForm,
    /// A declared name is not valid.
    BadName,
    /// Something that may occur once occurs again.
    DoubleName,
    /// A limit is passed.
    OverLimit,
    /// A state, an init, a command or a callback is missing.
    Missing,
    /// An allocation failed.
    NoMemory,
}

impl FaultKind {
    /// The kind's name, such as `UnknownForm`.
    pub fn name(&self) -> &'static str
        ensures { result.now ≡ name_of self.now }
    {
        match self {
            FaultKind::UnknownForm => "UnknownForm",
            FaultKind::BadName => "BadName",
            FaultKind::DoubleName => "DoubleName",
            FaultKind::OverLimit => "OverLimit",
            FaultKind::Missing => "Missing",
            FaultKind::NoMemory => "NoMemory",
        }
    }
}

impl fmt::Display for FaultKind {
    ghost use Rattle.std.specs.Prelude.{Some};
    ghost use Rattle.pst_syntax.specs.FaultName.{name_of};

    ghost output = { λ kind. Some (name_of kind) };

    fn fmt<W: fmt::Write>(&self, f: &mut fmt::Formatter<W>) -> fmt::Result {
        let name = self.name();
        write!(f, "{name}")
    }
}

impl From<AllocError> for FaultKind {
    ghost use Rattle.std.specs.Prelude.{◌≡◌};
    ghost use Rattle.pst_syntax.specs.declared.fault.FaultKind.TheVariants.{NoMemory};

    ghost from_gives = { λ _ e. e ≡ NoMemory };

    fn from(_: AllocError) -> FaultKind {
        FaultKind::NoMemory
    }
}

impl<T: Drop> From<AllocFailed<T>> for FaultKind {
    ghost use Rattle.std.specs.Prelude.{◌≡◌};
    ghost use Rattle.pst_syntax.specs.declared.fault.FaultKind.TheVariants.{NoMemory};

    ghost from_gives = { λ _ e. e ≡ NoMemory };

    fn from(_: AllocFailed<T>) -> FaultKind {
        FaultKind::NoMemory
    }
}

/// What is refused, and in which item of the model, from 1. Item 0 is the model itself.
#[derive(Clone, Copy, Debug, PartialEq, Eq, Drop)]
pub struct SyntaxFault {
    /// What is refused.
    pub kind: FaultKind,
    /// The item, from 1; 0 for the model itself, and if an allocation failed.
    pub item: usize,
}

impl fmt::Display for SyntaxFault {
    ghost use Rattle.std.specs.Prelude.{Some};
    ghost use Rattle.pst_syntax.specs.FaultName.{text_of};

    ghost output = { λ fault. Some (text_of fault) };

    fn fmt<W: fmt::Write>(&self, f: &mut fmt::Formatter<W>) -> fmt::Result {
        let kind = self.kind;
        let item = self.item;
        write!(f, "{kind} item {item}")
    }
}

impl Error for SyntaxFault {}

/// The fault of that kind in that item; without memory there is no item.
pub fn syntax_fault_in_item(kind: FaultKind, item: usize) -> SyntaxFault
    ensures { FaultOf kind item result }
{
    match kind {
        FaultKind::NoMemory => SyntaxFault { kind, item: 0 },
        _ => SyntaxFault { kind, item },
    }
}

impl From<AllocError> for SyntaxFault {
    ghost use Rattle.std.specs.Prelude.{◌≡◌};
    ghost use Rattle.pst_syntax.specs.declared.fault.FaultKind.TheVariants.{NoMemory};

    ghost from_gives = { λ _ e. e ≡ record { kind = NoMemory; item = 0 } };

    fn from(_: AllocError) -> SyntaxFault {
        SyntaxFault {
            kind: FaultKind::NoMemory,
            item: 0,
        }
    }
}

impl<T: Drop> From<AllocFailed<T>> for SyntaxFault {
    ghost use Rattle.std.specs.Prelude.{◌≡◌};
    ghost use Rattle.pst_syntax.specs.declared.fault.FaultKind.TheVariants.{NoMemory};

    ghost from_gives = { λ _ e. e ≡ record { kind = NoMemory; item = 0 } };

    fn from(_: AllocFailed<T>) -> SyntaxFault {
        SyntaxFault {
            kind: FaultKind::NoMemory,
            item: 0,
        }
    }
}
