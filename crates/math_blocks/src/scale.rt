//! The block that scales each item.
ghost use Rattle.std.specs.Prelude.{◌≡◌, ◌<◌, ◌≤◌, ◌↔◌, IsOk, IfOk, IsErrOf};
ghost use Rattle.stream_model.specs.declared.vocabulary.ItemType.TheVariants as types;
ghost use Rattle.stream_model.specs.Numbers.{IsItem, least_of, greatest_of};
ghost use Rattle.kind_model.specs.Math.{scale};

use crate::stretch::{EachItem, fill_each};
use block_parameters::{ParamFault, Parameter};
use block_trait::{Batch, Block, ByPace, Held, Setting, Shape, Single, work_single};
use items::{ItemType, Items};
use lane_kernels::{SimdLane, append_scale_sat};
use numbers::Number;
use numbers::range::{greatest, is_item, least};

/// Each item times the factor in force at it over `2 ^ shift`, rounded to the nearest whole number (ties round up) and
/// clamped to the range of the items' type. Its parameter `factor` is in force until a setting replaces it. GNU Radio
/// has no block like it.
#[derive(Debug, Drop, PartialEq, Eq)]
pub struct Scale {
    item: ItemType,
    factor: i64,
    shift: u32,
    ghost in_range: { IsItem types.Short factor },
    ghost few: { shift ≤ 31 },
}

impl Scale {
    ghost use Rattle.math_blocks.specs.Kinds.{scale_of};

    /// The block with a factor of -32,768 to 32,767 and a shift of 0 to 31; `BadParameter` names the first that is
    /// outside, the factor first.
    pub fn new(item: ItemType, factor: i64, shift: u32) -> Result<Scale, ParamFault>
        ensures meaning { IfOk result (λ block. scale_of block ≡ scale item factor shift) }
        ensures range { IsOk result ↔ (IsItem types.Short factor × (shift ≤ 31)) }
        ensures bad_factor { IsErrOf result (ParamFault.BadParameter Parameter.Factor) ↔ (¬ IsItem types.Short factor) }
        ensures bad_shift { IsErrOf result (ParamFault.BadParameter Parameter.Shift)
            ↔ (IsItem types.Short factor × (31 < shift)) }
    {
        if !is_item(ItemType::Short, factor) {
            return Err(ParamFault::BadParameter(Parameter::Factor));
        }
        if 31 < shift {
            return Err(ParamFault::BadParameter(Parameter::Shift));
        }
        Ok(Scale {
            item,
            factor,
            shift,
        })
    }
}

impl EachItem for Scale {
    ghost use Rattle.kind_model.specs.Kernels.{scaled};

    ghost takes = { λ b. b.item };

    ghost low = { λ b. least_of types.Short };

    ghost high = { λ b. greatest_of types.Short };

    ghost own = { λ b. b.factor };

    ghost gives = { λ b factor z. scaled b.item factor b.shift z };

    fn run<T: SimdLane>(&self, number: i64, items: &[T], out: &mut Vec<T>) {
        append_scale_sat(items, i16::narrow(number), self.shift, out);
    }

    ghost in_range = { λ b. record { above = b.in_range.above; below = b.in_range.below } };
}

impl Single for Scale {
    ghost use Rattle.std.specs.Prelude.{refl};
    ghost use Rattle.math_blocks.specs.Kinds.{scale_of};

    ghost equation = { scale_of };

    fn fill(&self, batch: &Batch<'_>, out: &mut Items) -> u64 {
        fill_each(self, batch, out);
        0
    }

    ghost single = { λ b. record { in_least = refl; in_most = refl; out_least = refl; out_most = refl } };
}

impl Block for Scale {
    ghost use Rattle.kind_laws.specs.Math.{scale-lawful};
    ghost use Rattle.math_blocks.specs.Kinds.{scale_of, scale-same};

    ghost meaning = { scale_of };

    type Places = ByPace;

    fn shape(&self, _input: usize) -> Shape<'_> {
        Shape {
            setting: Setting::Number(
                least(ItemType::Short),
                greatest(ItemType::Short),
                self.factor,
            ),
            ..Shape::sync(self.item, self.item)
        }
    }

    fn work(
        &self,
        state: u64,
        first: u64,
        count: u64,
        windows: &[Items],
        held: &[Held],
        out: &mut [Items],
    ) -> u64 {
        work_single(self, state, first, count, windows, held, out)
    }

    ghost lawful = { λ b. scale-lawful b.item b.factor b.shift b.in_range };

    ghost same = { scale-same };
}
