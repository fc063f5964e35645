//! Items of one type as items of another.
ghost use Rattle.std.specs.Prelude.{◌≡◌, length, map};
ghost use Rattle.kind_model.specs.Kernels.{convert};
ghost use Rattle.stream_model.specs.Numbers.{wrap};
ghost use Rattle.lane_kernels.specs.Blocks.{IsBlock};

use crate::SimdLane;
use crate::blocks::{MapBlock, map_blocks};
use std::simd::prelude::*;

/// A number type whose numbers `U` has too.
pub trait WidensTo<U: SimdLane>: SimdLane {
    /// A block of `U` with the numbers of a block of `T`.
    fn widen_block(a: &[Self], out: &mut [U])
        requires a_block { IsBlock U.LANES Self.kind Self.number a.now }
        requires out_block { length out.old ≡ U.LANES }
        ensures { map U.number out.new ≡ map (wrap U.kind) (map Self.number a.now) };
}

/// A number type with more bits than `U`.
pub trait NarrowsTo<U: SimdLane>: SimdLane {
    /// The numbers of the low bits: a block of `U`.
    fn narrow_block(a: &[Self], out: &mut [U])
        requires a_block { IsBlock U.LANES Self.kind Self.number a.now }
        requires out_block { length out.old ≡ U.LANES }
        ensures { map U.number out.new ≡ map (wrap U.kind) (map Self.number a.now) };
}

impl WidensTo<i16> for u8 {
    fn widen_block(a: &[u8], out: &mut [i16]) {
        let block: Simd<u8, 16> = Simd::from_slice(a);
        block.cast::<i16>().copy_to_slice(out);
    }
}

impl WidensTo<i32> for u8 {
    fn widen_block(a: &[u8], out: &mut [i32]) {
        let block: Simd<u8, 8> = Simd::from_slice(a);
        block.cast::<i32>().copy_to_slice(out);
    }
}

impl WidensTo<i32> for i16 {
    fn widen_block(a: &[i16], out: &mut [i32]) {
        let block: Simd<i16, 8> = Simd::from_slice(a);
        block.cast::<i32>().copy_to_slice(out);
    }
}

impl NarrowsTo<u8> for i16 {
    fn narrow_block(a: &[i16], out: &mut [u8]) {
        let block: Simd<i16, 16> = Simd::from_slice(a);
        let low = block & Simd::splat(255);
        low.cast::<u8>().copy_to_slice(out);
    }
}

impl NarrowsTo<u8> for i32 {
    fn narrow_block(a: &[i32], out: &mut [u8]) {
        let block: Simd<i32, 16> = Simd::from_slice(a);
        let low = block & Simd::splat(255);
        low.cast::<u8>().copy_to_slice(out);
    }
}

// A cast has to fit: the low half is first put in place of the whole.
impl NarrowsTo<i16> for i32 {
    fn narrow_block(a: &[i32], out: &mut [i16]) {
        let block: Simd<i32, 16> = Simd::from_slice(a);
        let low = (block << Simd::splat(16)) >> Simd::splat(16);
        low.cast::<i16>().copy_to_slice(out);
    }
}

#[derive(Drop)]
struct Widening;

impl<T: WidensTo<U>, U: SimdLane> MapBlock<T, U> for Widening {
    ghost LANES = { U.LANES };

    const LANES: usize = U::LANES;

    ghost means = { λ s. wrap U.kind };

    fn block(&self, a: &[T], out: &mut [U]) {
        T::widen_block(a, out);
    }

    ghost has_lane = { U.has_lane };

    ghost has_few_lanes = { U.has_few_lanes };
}

#[derive(Drop)]
struct Narrowing;

impl<T: NarrowsTo<U>, U: SimdLane> MapBlock<T, U> for Narrowing {
    ghost LANES = { U.LANES };

    const LANES: usize = U::LANES;

    ghost means = { λ s. wrap U.kind };

    fn block(&self, a: &[T], out: &mut [U]) {
        T::narrow_block(a, out);
    }

    ghost has_lane = { U.has_lane };

    ghost has_few_lanes = { U.has_few_lanes };
}

/// Writes the numbers in a type with more bits.
#[tactic(auto, using(crate::proofs::Listed::mapped_is_listed))]
#[inline(always)]
pub fn widen<T: WidensTo<U>, U: SimdLane>(a: &[T], out: &mut [U])
    requires { length out.old ≡ length a.now }
    ensures { map U.number out.new ≡ convert U.kind (map T.number a.now) }
{
    map_blocks(&Widening, a, out);
}

/// The numbers of the low bits, in a type with fewer.
#[tactic(auto, using(crate::proofs::Listed::mapped_is_listed))]
#[inline(always)]
pub fn narrow<T: NarrowsTo<U>, U: SimdLane>(a: &[T], out: &mut [U])
    requires { length out.old ≡ length a.now }
    ensures { map U.number out.new ≡ convert U.kind (map T.number a.now) }
{
    map_blocks(&Narrowing, a, out);
}
