//! The block that clips each item to a range.
ghost use Rattle.std.specs.Prelude.{◌≡◌, ◌↔◌, ◌≤ℤ◌, ◌<ℤ◌, ◌⊎◌, IsOk, IfOk, IsErrOf};
ghost use Rattle.stream_model.specs.Numbers.{IsItem};
ghost use Rattle.kind_model.specs.Math.{clip};

use crate::per_item::{Makes, PerItem};
use block_parameters::{ParamFault, Parameter};
use items::ItemType;
use lane_kernels::{SimdLane, append_clip};
use numbers::Number;
use numbers::range::is_item;

/// The number nearest to each item in the range from `low` to `high`, as GNU Radio's `rail_ff` has it for floats.
pub type Clip = PerItem<Nearest>;

/// The nearest number in a range.
#[derive(Debug, Drop, PartialEq, Eq)]
pub struct Nearest {
    item: ItemType,
    low: i64,
    high: i64,
    ghost low_in_range: { IsItem item low },
    ghost high_in_range: { IsItem item high },
}

impl Clip {
    ghost use Rattle.math_blocks.specs.Kinds.{clip_of};

    /// The block with this range, both of its ends in it and in the range of the items' type. `BadParameter` names
    /// `low` where that is outside the type's range, and else `high` where that is, or where it is less than `low`.
    pub fn new(item: ItemType, low: i64, high: i64) -> Result<Clip, ParamFault>
        ensures meaning { IfOk result (λ block. clip_of block.makes ≡ clip item low high) }
        ensures range { IsOk result ↔ (IsItem item low × IsItem item high × (low ≤ℤ high)) }
        ensures bad_low { IsErrOf result (ParamFault.BadParameter Parameter.Low) ↔ (¬ IsItem item low) }
        ensures bad_high { IsErrOf result (ParamFault.BadParameter Parameter.High)
            ↔ (IsItem item low × ((¬ IsItem item high) ⊎ (high <ℤ low))) }
    {
        if !is_item(item, low) {
            return Err(ParamFault::BadParameter(Parameter::Low));
        }
        if !is_item(item, high) || high < low {
            return Err(ParamFault::BadParameter(Parameter::High));
        }
        Ok(PerItem {
            makes: Nearest { item, low, high },
        })
    }
}

impl Makes for Nearest {
    ghost use Rattle.std.specs.Prelude.{refl};
    ghost use Rattle.kind_model.specs.Kernels.{clipped};
    ghost use Rattle.kind_laws.specs.Math.{clip-lawful};
    ghost use Rattle.math_blocks.specs.Kinds.{clip_of, clip-same};

    ghost takes = { λ m. m.item };

    ghost gives = { λ m. clipped m.low m.high };

    ghost equation = { clip_of };

    fn item(&self) -> ItemType {
        self.item
    }

    fn append<T: SimdLane>(&self, items: &[T], out: &mut Vec<T>) {
        append_clip(items, T::narrow(self.low), T::narrow(self.high), out);
    }

    ghost is_made = { λ m. refl };

    ghost lawful = { λ m. clip-lawful m.item m.low m.high m.low_in_range m.high_in_range };

    ghost same = { clip-same };
}
