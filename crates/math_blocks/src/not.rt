//! The block that inverts all bits.
ghost use Rattle.std.specs.Prelude.{◌≡◌};
ghost use Rattle.kind_model.specs.Math.{not_of};

use crate::per_item::{Makes, PerItem};
use items::ItemType;
use lane_kernels::{SimdLane, append_not};

/// Each item with all bits inverted, as GNU Radio's `not_xx`.
pub type Not = PerItem<Inverse>;

/// The inverted bits of an item.
#[derive(Debug, Drop, PartialEq, Eq)]
pub struct Inverse {
    item: ItemType,
}

impl Not {
    /// The block for items of this type.
    pub fn new(item: ItemType) -> Not
        ensures { not_of result.makes.item ≡ not_of item }
    {
        PerItem {
            makes: Inverse { item },
        }
    }
}

impl Makes for Inverse {
    ghost use Rattle.std.specs.Prelude.{refl};
    ghost use Rattle.kind_model.specs.Kernels.{turned};
    ghost use Rattle.kind_model.specs.Math.{not_of};
    ghost use Rattle.kind_laws.specs.Math.{not_of-lawful};
    ghost use Rattle.block_trait.specs.SameItem.{same_item};

    ghost takes = { λ m. m.item };

    ghost gives = { λ m. turned m.item };

    ghost equation = { λ m. not_of m.item };

    fn item(&self) -> ItemType {
        self.item
    }

    fn append<T: SimdLane>(&self, items: &[T], out: &mut Vec<T>) {
        append_not(items, out);
    }

    ghost is_made = { λ m. refl };

    ghost lawful = { λ m. not_of-lawful m.item };

    ghost same = { λ m n e i. not_of (same_item m.item n.item e i) };
}
