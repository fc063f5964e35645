//! Blocks that make an item of each `n` items.
ghost use Rattle.std.specs.Prelude.{◌≡◌, ◌≤◌, ◌+◌, ℕ, ℤ, List, length, map};
ghost use Rattle.stream_model.specs.declared.vocabulary.ItemType.{ItemType};
ghost use Rattle.stream_model.specs.Meaning.{Meaning, IsLawful};
ghost use Rattle.items.specs.Items.{type_of, numbers_of, spare_of};
ghost use Rattle.block_trait.specs.Fill.{CanFill, HasFilled};
ghost use Rattle.rate_blocks.specs.PerFrame.{framed};

use crate::counting::Counting;
use block_trait::{Batch, Shape, ports};
use item_dispatch::{LaneWork, make_items};
use items::{ItemType, Items};
use lane_kernels::SimdLane;
use numbers::Number;
use std::marker::PhantomData;

/// How an item is made of a frame.
pub trait MakesOne: Drop {
    /// What is made of the items of a frame, by their type.
    ghost gives: { ItemType → List ℤ → ℤ };

    /// What a block means that makes items so, by their type and how many a frame has.
    ghost equation: { ItemType → ℕ → Meaning };

    /// The item that is made of those of a frame.
    fn of_frame<T: Number>(frame: &[T]) -> T
        requires some { 1 ≤ length frame.now }
        requires few { length frame.now ≤ 1024 }
        ensures { T.number result ≡ gives T.kind (map T.number frame.now) };

    /// The equation says what is made of each frame.
    ghost is_made: { (t : ItemType) (n : ℕ) → 1 ≤ n → framed t n (gives t) ≡ equation t n };

    /// The equation keeps the laws.
    ghost lawful: { (t : ItemType) (n : ℕ) → 1 ≤ n → n ≤ 1024 → IsLawful (equation t n) };
}

/// An item of each frame of `n` items, 1 to 1,024. `M` says which.
#[derive(Drop)]
pub struct PerFrame<M> {
    n: u64,
    makes: PhantomData<M>,
    ghost some: { 1 ≤ n },
    ghost few: { n ≤ 1024 },
}

impl<M: MakesOne> LaneWork for PerFrame<M> {
    ghost use Rattle.std.specs.Prelude.{◌*◌};
    ghost use Rattle.stream_model.specs.Lists.{listed};
    ghost use Rattle.kind_model.specs.Rates.{frame};

    ghost can_make = { λ b t xs count. length xs ≡ b.n * count };

    ghost makes = { λ b t xs count. listed count (λ k. M.gives t (frame b.n xs k)) };

    fn make<T: SimdLane>(&self, items: &[T], out: &mut [T]) {
        let n = self.n as usize;
        for k in 0..out.len() {
            let start = k * n;
            out[k] = M::of_frame(&items[start..start + n]);
        }
    }
}

// What `fill` writes.
fn fill_framed<M: MakesOne>(work: &PerFrame<M>, item: ItemType, batch: &Batch<'_>, out: &mut Items)
    requires { CanFill (framed item work.now.n (M.gives item)) batch.now out.old }
    ensures items { HasFilled (framed item work.now.n (M.gives item)) batch.now out.new }
    ensures item_type { type_of out.new ≡ type_of out.old }
    ensures room { spare_of out.old ≤ spare_of out.new + length (numbers_of out.new) }
{
    make_items(work, batch.window, batch.count as usize, out);
}

impl<M: MakesOne> Counting for PerFrame<M> {
    ghost use Rattle.rate_blocks.specs.PerFrame.{framed-plain};

    ghost equation = { M.equation };

    ghost LEAST = { 1 };

    ghost MOST = { 1024 };

    const LEAST: u64 = 1;

    const MOST: u64 = 1_024;

    fn shape<'a>(item: ItemType, n: u64) -> Shape<'a> {
        Shape::at_rate(ports(1, item), ports(1, item), n, 1)
    }

    fn fill(item: ItemType, n: u64, batch: &Batch<'_>, out: &mut Items) {
        let work: PerFrame<M> = PerFrame {
            n,
            makes: PhantomData,
        };
        fill_framed(&work, item, batch, out);
    }

    ghost plain = { λ t n some. framed-plain t n (M.gives t) (M.is_made t n some) };

    ghost lawful = { M.lawful };
}
