//! Why items could not be made.
ghost use Rattle.std.specs.Prelude.{◌≡◌, Some};
ghost use Rattle.items.specs.Fault.{row_of, text_of};
ghost use Rattle.items.specs.declared.fault.ItemFault.TheVariants.{Memory};

use refusal_codes::Refusal;
use std::alloc::AllocError;
use std::error::Error;
use std::fmt;

/// Why items could not be made.
#[derive(Clone, Copy, Debug, PartialEq, Eq)]
pub enum ItemFault {
    /// A number lies outside its type's range, or a place outside the items.
    ItemRange,
    /// Out of memory.
    Memory,
}

impl Refusal for ItemFault {
    ghost row = { row_of };

    fn row(&self) -> (u32, &'static str) {
        match self {
            ItemFault::ItemRange => (24, "ItemRange"),
            ItemFault::Memory => (32, "Memory"),
        }
    }
}

impl fmt::Display for ItemFault {
    ghost output = { λ fault. Some (text_of fault) };

    fn fmt<W: fmt::Write>(&self, f: &mut fmt::Formatter<W>) -> fmt::Result {
        match self {
            ItemFault::ItemRange => write!(f, "out of range"),
            ItemFault::Memory => write!(f, "out of memory"),
        }
    }
}

impl Error for ItemFault {}

impl From<AllocError> for ItemFault {
    ghost from_gives = { λ _ e. e ≡ Memory };

    fn from(_refusal: AllocError) -> ItemFault {
        ItemFault::Memory
    }
}
