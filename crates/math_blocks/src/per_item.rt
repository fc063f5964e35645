//! Blocks that make each item of one item, by numbers that stay what they are.
ghost use Rattle.std.specs.Prelude.{◌≡◌, ◌≤◌, ◌+◌, ◌++◌, ℤ, true, length, map, vec_len, vec_capacity};
ghost use Rattle.stream_model.specs.declared.vocabulary.ItemType.{ItemType};
ghost use Rattle.stream_model.specs.Lists.{item, listed};
ghost use Rattle.stream_model.specs.Meaning.{Meaning, IsLawful};
ghost use Rattle.items.specs.Items.{type_of, numbers_of, spare_of};
ghost use Rattle.block_trait.specs.Fill.{CanFill, HasFilled};
ghost use Rattle.math_blocks.specs.PerItem.{made_of};

use block_trait::{Batch, Block, ByPace, Held, Shape, Single, work_single};
use item_dispatch::{AppendWork, append_items};
use items::{ItemType, Items};
use lane_kernels::SimdLane;

/// How an item is made of one item.
pub trait Makes: Eq + Drop {
    /// The type of the items.
    ghost takes: { Self → ItemType };

    /// What is made of an item.
    ghost gives: { Self → ℤ → ℤ };

    /// What a block means that makes items so.
    ghost equation: { Self → Meaning };

    /// The type of the items.
    fn item(&self) -> ItemType
        ensures { result ≡ takes self.now };

    /// Appends what is made of each item, where the capacity has room.
    fn append<T: SimdLane>(&self, items: &[T], out: &mut Vec<T>)
        requires same_type { takes self.now ≡ T.kind }
        requires room { vec_len out.old + length items.now ≤ vec_capacity out.old }
        ensures items { map T.number out.new.items ≡ map T.number out.old.items
            ++ listed (length (map T.number items.now))
            (λ k. gives self.now (item (map T.number items.now) k)) }
        ensures capacity { vec_capacity out.old ≤ vec_capacity out.new };

    /// The equation says what is made of each item.
    ghost is_made: { (m : Self) → made_of (takes m) (gives m) ≡ equation m };

    /// The equation keeps the laws.
    ghost lawful: { (m : Self) → IsLawful (equation m) };

    /// What is equal makes the same.
    ghost same: { (m n : Self) → Self.Eq.eq m n ≡ true → equation m ≡ equation n };
}

/// A block that makes each item of one item.
#[derive(Debug, Drop, PartialEq, Eq)]
pub struct PerItem<M> {
    pub(crate) makes: M,
}

impl<M: Makes> AppendWork for PerItem<M> {
    ghost can_make = { λ b t xs count. (count ≡ length xs) × (M.takes b.makes ≡ t) };

    ghost makes = { λ b t xs count. listed (length xs) (λ k. M.gives b.makes (item xs k)) };

    fn append<T: SimdLane>(&self, items: &[T], _count: usize, out: &mut Vec<T>) {
        self.makes.append(items, out);
    }
}

/// What `fill` writes.
fn fill_made<M: Makes>(block: &PerItem<M>, batch: &Batch<'_>, out: &mut Items)
    requires { CanFill (made_of (M.takes block.now.makes) (M.gives block.now.makes)) batch.now out.old }
    ensures items { HasFilled (made_of (M.takes block.now.makes) (M.gives block.now.makes)) batch.now out.new }
    ensures item_type { type_of out.new ≡ type_of out.old }
    ensures room { spare_of out.old ≤ spare_of out.new + length (numbers_of out.new) }
{
    append_items(block, batch.window, batch.count as usize, out);
}

impl<M: Makes> Single for PerItem<M> {
    ghost use Rattle.math_blocks.specs.PerItem.{made-single};

    ghost equation = { λ b. M.equation b.makes };

    fn fill(&self, batch: &Batch<'_>, out: &mut Items) -> u64 {
        fill_made(self, batch, out);
        0
    }

    ghost single = { λ b. made-single (M.takes b.makes) (M.gives b.makes) (M.is_made b.makes) };
}

impl<M: Makes> Block for PerItem<M> {
    ghost meaning = { λ b. M.equation b.makes };

    type Places = ByPace;

    fn shape(&self, _input: usize) -> Shape<'_> {
        Shape::sync(self.makes.item(), self.makes.item())
    }

    fn work(
        &self,
        state: u64,
        first: u64,
        count: u64,
        windows: &[Items],
        held: &[Held],
        out: &mut [Items],
    ) -> u64 {
        work_single(self, state, first, count, windows, held, out)
    }

    ghost lawful = { λ b. M.lawful b.makes };

    ghost same = { λ a b. M.same a.makes b.makes };
}
