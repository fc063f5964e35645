//! Why a ring could not be made or take a reader.
ghost use Rattle.std.specs.Prelude.{◌≡◌, Some};
ghost use Rattle.ring_readers.specs.Fault.{text_of};
ghost use Rattle.ring_readers.specs.declared.fault.RingFault.TheVariants.{Memory};

use std::alloc::AllocError;
use std::error::Error;
use std::fmt;

/// Why a ring could not be made or take a reader.
#[derive(Clone, Copy, Debug, PartialEq, Eq)]
pub enum RingFault {
    /// Memory ran out.
    Memory,
}

impl fmt::Display for RingFault {
    ghost output = { λ fault. Some (text_of fault) };

    fn fmt<W: fmt::Write>(&self, f: &mut fmt::Formatter<W>) -> fmt::Result {
        match self {
            RingFault::Memory => write!(f, "out of memory"),
        }
    }
}

impl Error for RingFault {}

impl From<AllocError> for RingFault {
    ghost from_gives = { λ _ e. e ≡ Memory };

    fn from(_refusal: AllocError) -> RingFault {
        RingFault::Memory
    }
}
