//! The block that sums up the last items.
ghost use Rattle.std.specs.Prelude.{◌≡◌, ◌≤◌, ◌↔◌, IsOk, IfOk, IfErr};
ghost use Rattle.kind_model.specs.Math.{moving_sum};

use block_parameters::{ParamFault, Parameter};
use block_trait::{Batch, Block, ByPace, Held, Shape, Single, work_single};
use item_dispatch::{LaneWork, make_items, sum_of};
use items::{ItemType, Items};
use lane_kernels::SimdLane;
use numbers::vectors::are_in_range;

/// For each item the sum of it and those before it, `length` in all, wrapped to the items' type. As GNU Radio's
/// `moving_average_xx` without its scale.
#[derive(Debug, Drop, PartialEq, Eq)]
pub struct MovingSum {
    item: ItemType,
    length: u32,
    ghost some: { 1 ≤ length },
    ghost few: { length ≤ 1024 },
}

impl MovingSum {
    ghost use Rattle.math_blocks.specs.Kinds.{moving_sum_of};

    /// The block with this length in items; `BadParameter` outside 1 to 1,024.
    pub fn new(item: ItemType, length: u32) -> Result<MovingSum, ParamFault>
        ensures meaning { IfOk result (λ block. moving_sum_of block ≡ moving_sum item length) }
        ensures range { IsOk result ↔ ((1 ≤ length) × (length ≤ 1024)) }
        ensures err { IfErr result (λ fault. fault ≡ ParamFault.BadParameter Parameter.Length) }
    {
        if length < 1 || 1_024 < length {
            return Err(ParamFault::BadParameter(Parameter::Length));
        }
        Ok(MovingSum { item, length })
    }
}

impl LaneWork for MovingSum {
    ghost use Rattle.std.specs.Prelude.{◌+◌, ◌-◌, length};
    ghost use Rattle.stream_model.specs.Numbers.{wrap};
    ghost use Rattle.stream_model.specs.Lists.{item, listed, sum_below};

    ghost can_make = { λ b t xs count. length xs ≡ b.length - 1 + count };

    ghost makes = { λ b t xs count. listed count (λ k. wrap t (sum_below b.length (λ j. item xs (k + j)))) };

    // Each sum is the one before it with the item that comes, without the one that goes.
    fn make<T: SimdLane>(&self, items: &[T], out: &mut [T]) {
        are_in_range(items);
        let past = self.length as usize - 1;
        let mut sum = sum_of(&items[..past]);
        for k in 0..out.len() {
            sum += items[past + k].widen();
            out[k] = T::wrap(sum);
            sum -= items[k].widen();
        }
    }
}

impl Single for MovingSum {
    ghost use Rattle.std.specs.Prelude.{refl};
    ghost use Rattle.math_blocks.specs.Kinds.{moving_sum_of};

    ghost equation = { moving_sum_of };

    fn fill(&self, batch: &Batch<'_>, out: &mut Items) -> u64 {
        make_items(self, batch.window, batch.count as usize, out);
        0
    }

    ghost single = { λ b. record { in_least = refl; in_most = refl; out_least = refl; out_most = refl } };
}

impl Block for MovingSum {
    ghost use Rattle.kind_model.specs.Math.{moving_sum};
    ghost use Rattle.kind_laws.specs.Math.{moving_sum-lawful};
    ghost use Rattle.block_trait.specs.SameItem.{same_sized};
    ghost use Rattle.math_blocks.specs.Kinds.{moving_sum_of};

    ghost meaning = { moving_sum_of };

    type Places = ByPace;

    fn shape(&self, _input: usize) -> Shape<'_> {
        Shape {
            history: self.length,
            ..Shape::sync(self.item, self.item)
        }
    }

    fn work(
        &self,
        state: u64,
        first: u64,
        count: u64,
        windows: &[Items],
        held: &[Held],
        out: &mut [Items],
    ) -> u64 {
        work_single(self, state, first, count, windows, held, out)
    }

    ghost lawful = { λ b. moving_sum-lawful b.item b.length b.some };

    ghost same = { λ a b. same_sized moving_sum a.item b.item a.length b.length };
}
