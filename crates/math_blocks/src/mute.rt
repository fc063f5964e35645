//! The block that gives zeros while it is muted.
ghost use Rattle.std.specs.Prelude.{◌≡◌, ◌≤ℤ◌, ◌↔◌, pos, IsOk, IfOk, IfErr};
ghost use Rattle.kind_model.specs.Math.{mute};

use crate::stretch::{EachItem, fill_each};
use block_parameters::{ParamFault, Parameter};
use block_trait::{Batch, Block, ByPace, Held, Setting, Shape, Single, work_single};
use items::{ItemType, Items};
use lane_kernels::SimdLane;
use numbers::vectors::{append, append_copies};

/// Zeros while 1 is in force, and each item while 0 is, as GNU Radio's `mute_xx`. Its parameter `on` is in force until
/// a setting replaces it.
#[derive(Debug, Drop, PartialEq, Eq)]
pub struct Mute {
    item: ItemType,
    on: i64,
    ghost above: { pos 0 ≤ℤ on },
    ghost below: { on ≤ℤ pos 1 },
}

impl Mute {
    ghost use Rattle.math_blocks.specs.Kinds.{mute_of};

    /// The block that is muted where `on` is 1, and not where it is 0; `BadParameter` where it is neither.
    pub fn new(item: ItemType, on: i64) -> Result<Mute, ParamFault>
        ensures meaning { IfOk result (λ block. mute_of block ≡ mute item on) }
        ensures range { IsOk result ↔ ((pos 0 ≤ℤ on) × (on ≤ℤ pos 1)) }
        ensures err { IfErr result (λ fault. fault ≡ ParamFault.BadParameter Parameter.On) }
    {
        if on < 0 || 1 < on {
            return Err(ParamFault::BadParameter(Parameter::On));
        }
        Ok(Mute { item, on })
    }
}

impl EachItem for Mute {
    ghost use Rattle.kind_model.specs.Math.{muted};

    ghost takes = { λ b. b.item };

    ghost low = { λ b. pos 0 };

    ghost high = { λ b. pos 1 };

    ghost own = { λ b. b.on };

    ghost gives = { λ b. muted };

    fn run<T: SimdLane>(&self, number: i64, items: &[T], out: &mut Vec<T>) {
        if 0 < number {
            append_copies(out, items.len(), T::narrow(0));
        } else {
            append(out, items);
        }
    }

    ghost in_range = { λ b. record { above = b.above; below = b.below } };
}

impl Single for Mute {
    ghost use Rattle.std.specs.Prelude.{refl};
    ghost use Rattle.math_blocks.specs.Kinds.{mute_of};

    ghost equation = { mute_of };

    fn fill(&self, batch: &Batch<'_>, out: &mut Items) -> u64 {
        fill_each(self, batch, out);
        0
    }

    ghost single = { λ b. record { in_least = refl; in_most = refl; out_least = refl; out_most = refl } };
}

impl Block for Mute {
    ghost use Rattle.kind_laws.specs.Math.{mute-lawful};
    ghost use Rattle.math_blocks.specs.Kinds.{mute_of, mute-same};

    ghost meaning = { mute_of };

    type Places = ByPace;

    fn shape(&self, _input: usize) -> Shape<'_> {
        Shape {
            setting: Setting::Number(0, 1, self.on),
            ..Shape::sync(self.item, self.item)
        }
    }

    fn work(
        &self,
        state: u64,
        first: u64,
        count: u64,
        windows: &[Items],
        held: &[Held],
        out: &mut [Items],
    ) -> u64 {
        work_single(self, state, first, count, windows, held, out)
    }

    ghost lawful = { λ b. mute-lawful b.item b.on b.above b.below };

    ghost same = { mute-same };
}
