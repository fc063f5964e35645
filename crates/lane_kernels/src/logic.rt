//! Logic on the bits of items.
ghost use Rattle.std.specs.Prelude.{◌≡◌, ℕ, ◌≤◌, ◌+◌, ◌++◌, length, map, vec_len, vec_capacity};
ghost use Rattle.std.specs.Simd.Lanes.{zip2};
ghost use Rattle.stream_model.specs.declared.vocabulary.ItemType.{ItemType};
ghost use Rattle.kind_model.specs.Kernels.{bits_joined, joined_bits, joined_bits_const, not_bits, turned};
ghost use Rattle.lane_kernels.specs.Blocks.{IsBlock};
ghost use Rattle.lane_kernels.specs.Bitwise.{IsBitwise};

use crate::SimdLane;
use crate::appending::{append_map, append_zip};
use crate::blocks::{MapBlock, ZipBlock, map_blocks, zip_blocks};
use crate::joining::zip_into;
use crate::plain::with;
use std::marker::PhantomData;

/// An operation that joins the bits of two items, bit for bit.
pub trait BitOperation: Eq + Drop {
    /// The bits that it makes of those of two items.
    ghost on_bits: { ℕ → ℕ → ℕ };

    /// The bits that join to nothing new.
    ghost none: { ItemType → ℕ };

    /// The operation at each two items of two blocks.
    fn block<T: SimdLane>(a: &[T], b: &[T], out: &mut [T])
        requires a_block { IsBlock T.LANES T.kind T.number a.now }
        requires b_block { IsBlock T.LANES T.kind T.number b.now }
        requires out_block { length out.old ≡ T.LANES }
        ensures { map T.number out.new ≡ zip2 (bits_joined on_bits T.kind) (map T.number a.now) (map T.number b.now) };

    /// Items may be joined in any order.
    ghost is_bitwise: { IsBitwise on_bits none };
}

/// The bits that both items have.
#[derive(Debug, Drop, PartialEq, Eq)]
pub struct AndBits;

impl BitOperation for AndBits {
    ghost use Rattle.std.specs.Prelude.{bit_and};
    ghost use Rattle.lane_kernels.specs.Bitwise.{all_set, and_is_bitwise};

    ghost on_bits = { bit_and };

    ghost none = { all_set };

    #[inline(always)]
    fn block<T: SimdLane>(a: &[T], b: &[T], out: &mut [T]) {
        T::and_block(a, b, out);
    }

    ghost is_bitwise = { and_is_bitwise };
}

/// The bits that either item has.
#[derive(Debug, Drop, PartialEq, Eq)]
pub struct OrBits;

impl BitOperation for OrBits {
    ghost use Rattle.std.specs.Prelude.{bit_or};
    ghost use Rattle.lane_kernels.specs.Bitwise.{none_set, or_is_bitwise};

    ghost on_bits = { bit_or };

    ghost none = { none_set };

    #[inline(always)]
    fn block<T: SimdLane>(a: &[T], b: &[T], out: &mut [T]) {
        T::or_block(a, b, out);
    }

    ghost is_bitwise = { or_is_bitwise };
}

/// The bits that one of two items has alone.
#[derive(Debug, Drop, PartialEq, Eq)]
pub struct XorBits;

impl BitOperation for XorBits {
    ghost use Rattle.std.specs.Prelude.{bit_xor};
    ghost use Rattle.lane_kernels.specs.Bitwise.{none_set, xor_is_bitwise};

    ghost on_bits = { bit_xor };

    ghost none = { none_set };

    #[inline(always)]
    fn block<T: SimdLane>(a: &[T], b: &[T], out: &mut [T]) {
        T::xor_block(a, b, out);
    }

    ghost is_bitwise = { xor_is_bitwise };
}

/// The operation as one of blocks.
#[derive(Drop)]
struct OnBits<O> {
    _operation: PhantomData<O>,
}

impl<T: SimdLane, O: BitOperation> ZipBlock<T> for OnBits<O> {
    ghost means = { bits_joined O.on_bits T.kind };

    #[inline(always)]
    fn block(a: &[T], b: &[T], out: &mut [T]) {
        O::block(a, b, out);
    }
}

#[derive(Drop)]
struct Turn;

impl<T: SimdLane> MapBlock<T, T> for Turn {
    ghost LANES = { T.LANES };

    const LANES: usize = T::LANES;

    ghost means = { λ s. turned T.kind };

    fn block(&self, a: &[T], out: &mut [T]) {
        T::not_block(a, out);
    }

    ghost has_lane = { T.has_lane };

    ghost has_few_lanes = { T.has_few_lanes };
}

/// The operation at each two items.
#[tactic(auto, using(crate::proofs::Listed::zipped_is_listed))]
#[inline(always)]
pub fn join_bits<T: SimdLane, O: BitOperation>(a: &[T], b: &[T], out: &mut [T])
    requires same_length { length a.now ≡ length b.now }
    requires out_length { length out.old ≡ length a.now }
    ensures { map T.number out.new ≡ joined_bits O.on_bits T.kind (map T.number a.now) (map T.number b.now) }
{
    zip_blocks::<T, OnBits<O>>(a, b, out);
}

/// Writes over each item of `out` the operation at it and the item of `items` at its place.
#[tactic(auto, using(crate::proofs::Listed::zipped_is_listed))]
#[inline(always)]
pub fn join_bits_into<T: SimdLane, O: BitOperation>(items: &[T], out: &mut [T])
    requires { length items.now ≡ length out.old }
    ensures { map T.number out.new ≡ joined_bits O.on_bits T.kind (map T.number out.old) (map T.number items.now) }
{
    zip_into::<T, OnBits<O>>(items, out);
}

/// The bits that each item lacks.
#[tactic(auto, using(crate::proofs::Listed::mapped_is_listed))]
#[inline(always)]
pub fn not<T: SimdLane>(a: &[T], out: &mut [T])
    requires { length out.old ≡ length a.now }
    ensures { map T.number out.new ≡ not_bits T.kind (map T.number a.now) }
{
    map_blocks(&Turn, a, out);
}

/// Appends the operation at each two items, where the capacity has room.
#[inline(always)]
pub fn append_joined_bits<T: SimdLane, O: BitOperation>(a: &[T], b: &[T], out: &mut Vec<T>)
    requires same_length { length a.now ≡ length b.now }
    requires room { vec_len out.old + length a.now ≤ vec_capacity out.old }
    ensures items { map T.number out.new.items ≡ map T.number out.old.items
        ++ joined_bits O.on_bits T.kind (map T.number a.now) (map T.number b.now) }
    ensures len { vec_len out.new ≡ vec_len out.old + length a.now }
    ensures capacity { vec_capacity out.old ≤ vec_capacity out.new }
{
    append_zip::<T, OnBits<O>>(a, b, out);
}

/// Appends the operation at each item and `c`, where the capacity has room.
#[inline(always)]
pub fn append_joined_bits_const<T: SimdLane, O: BitOperation>(a: &[T], c: T, out: &mut Vec<T>)
    requires room { vec_len out.old + length a.now ≤ vec_capacity out.old }
    ensures items { map T.number out.new.items ≡ map T.number out.old.items
        ++ joined_bits_const O.on_bits T.kind (map T.number a.now) (T.number c) }
    ensures len { vec_len out.new ≡ vec_len out.old + length a.now }
    ensures capacity { vec_capacity out.old ≤ vec_capacity out.new }
{
    append_map(&with::<T, OnBits<O>>(c), a, out);
}

/// Appends the bits that each item lacks, where the capacity has room.
#[inline(always)]
pub fn append_not<T: SimdLane>(a: &[T], out: &mut Vec<T>)
    requires room { vec_len out.old + length a.now ≤ vec_capacity out.old }
    ensures items { map T.number out.new.items ≡ map T.number out.old.items ++ not_bits T.kind (map T.number a.now) }
    ensures len { vec_len out.new ≡ vec_len out.old + length a.now }
    ensures capacity { vec_capacity out.old ≤ vec_capacity out.new }
{
    append_map(&Turn, a, out);
}
