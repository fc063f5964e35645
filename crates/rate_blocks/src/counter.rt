//! The block that counts its items.
ghost use Rattle.std.specs.Prelude.{◌≤◌, ◌+◌, ◌%◌, pos};
ghost use Rattle.stream_model.specs.Numbers.{wrap};
ghost use Rattle.stream_model.specs.Lists.{listed};

use crate::counted::Counted;
use crate::counting::Counting;
use crate::pattern::after;
use block_trait::{Batch, Shape};
use item_dispatch::{LaneWork, make_items};
use items::{ItemType, Items};
use lane_kernels::SimdLane;

/// For each item its number modulo `n`, from 0 on, wrapped to the items' type: the input is only its clock. GNU Radio
/// has no block like it; a `vector_source` that repeats stands for it there.
pub type Counter = Counted<Counts>;

/// The numbers of items modulo `n`, 1 to 2^31.
#[derive(Drop)]
pub struct Counts {
    first: u64,
    n: u64,
    ghost some: { 1 ≤ n },
    ghost few: { n ≤ 2147483648 },
}

impl LaneWork for Counts {
    ghost use Rattle.std.specs.Prelude.{⊤};

    ghost can_make = { λ b t xs count. ⊤ };

    ghost makes = { λ b t xs count. listed count (λ k. wrap t (pos ((b.first + k) % b.n))) };

    fn make<T: SimdLane>(&self, _items: &[T], out: &mut [T]) {
        let mut count = self.first % self.n;
        for k in 0..out.len() {
            out[k] = T::wrap(count as i64);
            count = after(count, self.n);
        }
    }
}

impl Counting for Counts {
    ghost use Rattle.std.specs.Prelude.{refl};
    ghost use Rattle.kind_laws.specs.Rates.{counter-lawful};
    ghost use Rattle.kind_model.specs.Rates.{counter};

    ghost equation = { counter };

    ghost LEAST = { 1 };

    ghost MOST = { 2147483648 };

    const LEAST: u64 = 1;

    const MOST: u64 = 2_147_483_648;

    fn shape<'a>(item: ItemType, _n: u64) -> Shape<'a> {
        Shape::sync(item, item)
    }

    fn fill(_item: ItemType, n: u64, batch: &Batch<'_>, out: &mut Items) {
        let counts = Counts {
            first: batch.first,
            n,
        };
        make_items(&counts, batch.window, batch.count as usize, out);
    }

    ghost plain = { λ _ _ _. refl };

    ghost lawful = { λ t n _ _. counter-lawful t n };
}
