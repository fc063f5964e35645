//! Why a setting was refused.
ghost use Rattle.std.specs.Prelude.{◌≡◌, Some};
ghost use Rattle.settings.specs.Fault.{text_of};
ghost use Rattle.settings.specs.declared.fault.SettingFault.TheVariants.{Memory};

use std::alloc::AllocError;
use std::error::Error;
use std::fmt;

/// Why a setting was refused.
#[derive(Clone, Copy, Debug, PartialEq, Eq)]
pub enum SettingFault {
    /// The item lies below the first that may still be set.
    Late { floor: u64 },
    /// Out of memory.
    Memory,
}

impl fmt::Display for SettingFault {
    ghost output = { λ fault. Some (text_of fault) };

    fn fmt<W: fmt::Write>(&self, f: &mut fmt::Formatter<W>) -> fmt::Result {
        match self {
            SettingFault::Late { floor } => write!(f, "set below item {floor}"),
            SettingFault::Memory => write!(f, "out of memory"),
        }
    }
}

impl Error for SettingFault {}

impl From<AllocError> for SettingFault {
    ghost from_gives = { λ _ e. e ≡ Memory };

    fn from(_refusal: AllocError) -> SettingFault {
        SettingFault::Memory
    }
}
