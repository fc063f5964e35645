//! What may be wrong with a table of a graph file.
ghost use Rattle.std.specs.Prelude.{◌≡◌};
ghost use Rattle.kind_schema.specs.Fault.{row_of};
ghost use Rattle.kind_schema.specs.declared.fault.KeyFault.TheVariants.{BadParameter, Memory};

use crate::key::Key;
use block_parameters::{ParamFault, Parameter};
use refusal_codes::Refusal;
use std::alloc::{AllocError, AllocFailed};

/// What is wrong with a table.
#[derive(Clone, Copy, Debug, PartialEq, Eq)]
pub enum KeyFault {
    /// It has a key that such tables do not have.
    UnknownKey,
    MissingKey(Key),
    /// The value at the key is of a wrong form.
    WrongType(Key),
    /// No kind of block has this name.
    UnknownKind,
    /// A block of the kind may not have this value of the parameter.
    BadParameter(Parameter),
    /// Memory ran out.
    Memory,
}

impl Refusal for KeyFault {
    ghost row = { row_of };

    fn row(&self) -> (u32, &'static str) {
        match self {
            KeyFault::UnknownKey => (41, "UnknownKey"),
            KeyFault::MissingKey(_) => (42, "MissingKey"),
            KeyFault::WrongType(_) => (43, "WrongType"),
            KeyFault::UnknownKind => (44, "UnknownKind"),
            KeyFault::BadParameter(_) => (10, "BadParameter"),
            KeyFault::Memory => (32, "Memory"),
        }
    }
}

impl From<ParamFault> for KeyFault {
    ghost use Rattle.kind_schema.specs.Reading.{carried};

    ghost from_gives = { λ fault e. e ≡ carried fault };

    fn from(fault: ParamFault) -> KeyFault {
        match fault {
            ParamFault::BadParameter(parameter) => KeyFault::BadParameter(parameter),
            ParamFault::Memory => KeyFault::Memory,
        }
    }
}

impl From<AllocError> for KeyFault {
    ghost from_gives = { λ _ e. e ≡ Memory };

    fn from(_refusal: AllocError) -> KeyFault {
        KeyFault::Memory
    }
}

impl<T: Drop> From<AllocFailed<T>> for KeyFault {
    ghost from_gives = { λ _ e. e ≡ Memory };

    fn from(_refusal: AllocFailed<T>) -> KeyFault {
        KeyFault::Memory
    }
}
