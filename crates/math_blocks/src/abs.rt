//! The block that takes the sign from each item.
ghost use Rattle.std.specs.Prelude.{◌≡◌};
ghost use Rattle.kind_model.specs.Math.{abs};

use crate::per_item::{Makes, PerItem};
use items::ItemType;
use lane_kernels::{SimdLane, append_abs_wrap};

/// Each item without its sign, wrapped to the items' type, as GNU Radio's `abs_xx`: the least short and the least int
/// stay what they are. Bytes, which GNU Radio's block does not take, have no sign.
pub type Abs = PerItem<Magnitude>;

/// The wrapped distance of an item from 0.
#[derive(Debug, Drop, PartialEq, Eq)]
pub struct Magnitude {
    item: ItemType,
}

impl Abs {
    /// The block for items of this type.
    pub fn new(item: ItemType) -> Abs
        ensures { abs result.makes.item ≡ abs item }
    {
        PerItem {
            makes: Magnitude { item },
        }
    }
}

impl Makes for Magnitude {
    ghost use Rattle.std.specs.Prelude.{refl};
    ghost use Rattle.kind_model.specs.Kernels.{absolute};
    ghost use Rattle.kind_model.specs.Math.{abs};
    ghost use Rattle.kind_laws.specs.Math.{abs-lawful};
    ghost use Rattle.block_trait.specs.SameItem.{same_item};

    ghost takes = { λ m. m.item };

    ghost gives = { λ m. absolute m.item };

    ghost equation = { λ m. abs m.item };

    fn item(&self) -> ItemType {
        self.item
    }

    fn append<T: SimdLane>(&self, items: &[T], out: &mut Vec<T>) {
        append_abs_wrap(items, out);
    }

    ghost is_made = { λ m. refl };

    ghost lawful = { λ m. abs-lawful m.item };

    ghost same = { λ m n e i. abs (same_item m.item n.item e i) };
}
