//! Blocks that make each item of one item and a constant.
ghost use Rattle.std.specs.Prelude.{◌≡◌, ◌≤◌, ◌+◌, ◌++◌, ◌↔◌, ℤ, length, map, vec_len, vec_capacity, IsOk, IfOk, IfErr};
ghost use Rattle.stream_model.specs.declared.vocabulary.ItemType.{ItemType};
ghost use Rattle.stream_model.specs.Numbers.{IsItem, least_of, greatest_of};
ghost use Rattle.stream_model.specs.Lists.{item, listed};
ghost use Rattle.stream_model.specs.Meaning.{Meaning, IsLawful};
ghost use Rattle.math_blocks.specs.Stretch.{each_of};

use crate::stretch::{EachItem, fill_each};
use block_parameters::{ParamFault, Parameter};
use block_trait::{Batch, Block, ByPace, Held, Setting, Shape, Single, work_single};
use items::{ItemType, Items};
use lane_kernels::SimdLane;
use numbers::Number;
use numbers::range::{greatest, is_item, least};
use std::marker::PhantomData;

/// How a constant is applied to items.
pub trait Applies: Eq + Drop {
    /// What is made of a constant and an item.
    ghost gives: { ItemType → ℤ → ℤ → ℤ };

    /// What a block means that applies its constant so.
    ghost equation: { ItemType → ℤ → Meaning };

    /// Appends what is made of each item, where the capacity has room.
    fn append<T: SimdLane>(items: &[T], constant: T, out: &mut Vec<T>)
        requires room { vec_len out.old + length items.now ≤ vec_capacity out.old }
        ensures items { map T.number out.new.items ≡ map T.number out.old.items
            ++ listed (length (map T.number items.now))
            (λ k. gives T.kind (T.number constant) (item (map T.number items.now) k)) }
        ensures len { vec_len out.new ≡ vec_len out.old + length items.now }
        ensures capacity { vec_capacity out.old ≤ vec_capacity out.new };

    /// The equation says what is made of each item.
    ghost is_applied: { (t : ItemType) (v : ℤ) → each_of t (least_of t) (greatest_of t) v (gives t) ≡ equation t v };

    /// The equation keeps the laws.
    ghost lawful: { (t : ItemType) (v : ℤ) → IsItem t v → IsLawful (equation t v) };
}

/// A block that applies a constant to each item. Its parameter is in force until a setting replaces it.
#[derive(Debug, Drop, PartialEq, Eq)]
pub struct Constant<A> {
    item: ItemType,
    value: i64,
    applies: PhantomData<A>,
    ghost in_range: { IsItem item value },
}

impl<A: Applies> Constant<A> {
    /// The block with this parameter; `BadParameter` where it lies outside the range of the items' type.
    pub fn new(item: ItemType, value: i64) -> Result<Constant<A>, ParamFault>
        ensures meaning { IfOk result (λ block. A.equation block.item block.value ≡ A.equation item value) }
        ensures range { IsOk result ↔ IsItem item value }
        ensures err { IfErr result (λ fault. fault ≡ ParamFault.BadParameter Parameter.Value) }
    {
        if !is_item(item, value) {
            return Err(ParamFault::BadParameter(Parameter::Value));
        }
        Ok(Constant {
            item,
            value,
            applies: PhantomData,
        })
    }
}

impl<A: Applies> EachItem for Constant<A> {
    ghost takes = { λ b. b.item };

    ghost low = { λ b. least_of b.item };

    ghost high = { λ b. greatest_of b.item };

    ghost own = { λ b. b.value };

    ghost gives = { λ b. A.gives b.item };

    fn run<T: SimdLane>(&self, number: i64, items: &[T], out: &mut Vec<T>) {
        A::append(items, T::narrow(number), out);
    }

    ghost in_range = { λ b. record { above = b.in_range.above; below = b.in_range.below } };
}

impl<A: Applies> Single for Constant<A> {
    ghost use Rattle.math_blocks.specs.Stretch.{each-single};

    ghost equation = { λ b. A.equation b.item b.value };

    fn fill(&self, batch: &Batch<'_>, out: &mut Items) -> u64 {
        fill_each(self, batch, out);
        0
    }

    ghost single = { λ b. each-single b.item (least_of b.item) (greatest_of b.item) b.value (A.gives b.item) (A.is_applied b.item b.value) };
}

impl<A: Applies> Block for Constant<A> {
    ghost use Rattle.math_blocks.specs.Kinds.{constant-same};

    ghost meaning = { λ b. A.equation b.item b.value };

    type Places = ByPace;

    fn shape(&self, _input: usize) -> Shape<'_> {
        Shape {
            setting: Setting::Number(least(self.item), greatest(self.item), self.value),
            ..Shape::sync(self.item, self.item)
        }
    }

    fn work(
        &self,
        state: u64,
        first: u64,
        count: u64,
        windows: &[Items],
        held: &[Held],
        out: &mut [Items],
    ) -> u64 {
        work_single(self, state, first, count, windows, held, out)
    }

    ghost lawful = { λ b. A.lawful b.item b.value b.in_range };

    ghost same = { constant-same A.equation };
}
