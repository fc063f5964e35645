//! What a filter does by the item's type: products, and what it writes.
ghost use Rattle.std.specs.Prelude.{◌≡◌, ◌+◌, ◌<◌, ◌≤◌, ◌^◌, ◌*ℤ◌, length, map, take, All};
ghost use Rattle.std.specs.Simd.Lanes.{zip2, put_chunk};
ghost use Rattle.stream_model.specs.Lists.{listed};
ghost use Rattle.stream_model.specs.Numbers.{sat, IsItem, AreItems};
ghost use Rattle.stream_model.specs.declared.vocabulary.ItemType.TheVariants.{Short};
ghost use Rattle.lane_filters.specs.Words.{AreWithin, IsPlan, output};

use crate::halves::{Halves, write_halves};
use crate::ints::write_ints;
use crate::pairs::{is_light, write_light};
use crate::sums::nearest_shorts;
use numbers::Number;
use std::simd::prelude::*;

/// An item type whose products with taps fit lanes of 64 bits.
pub trait ProductLane: Number {
    /// Lane by lane, a tap times an item: the first eight items.
    fn products(taps: i16x8, items: &[Self]) -> i64x8
        requires taps { AreItems Short taps }
        requires items { All (λ x. IsItem Self.kind (Self.number x)) items.now }
        requires room { 8 ≤ length items.now }
        ensures value { result ≡ zip2 (λ h x. h *ℤ Self.number x) taps (take 8 items.now) }
        ensures within { AreWithin (2 ^ 46) result };

    /// The number, or the nearest that the type has.
    fn saturate(n: i64) -> Self
        ensures { Self.number result ≡ sat Self.kind n };

    /// Writes eight saturated numbers.
    fn store(numbers: i64x8, out: &mut [Self], at: usize)
        requires numbers { AreWithin (2 ^ 61) numbers }
        requires room { at + 8 ≤ length out.old }
        ensures { map Self.number out.new ≡ put_chunk at (map Self.number out.old) (map (sat Self.kind) numbers) };
}

/// An item type that has filters.
pub trait FilterLane: ProductLane {
    /// The halves of the taps, or none where a row goes by the taps themselves.
    fn halves_for(h: &[i16], shift: u32) -> Option<Halves>
        requires { length h.now ≤ 256 }
        ensures { IsPlan Self.kind h.now shift result };

    /// Writes 32 outputs, from `at` on, where those before stand.
    fn write_block(
        h: &[i16],
        halves: &Option<Halves>,
        x: &[Self],
        at: usize,
        shift: u32,
        out: &mut [Self],
    )
        requires taps { 1 ≤ length h.now }
        requires most { length h.now ≤ 256 }
        requires shift { shift ≤ 31 }
        requires plan { IsPlan Self.kind h.now shift halves.now }
        requires room { at + 31 + length h.now ≤ length x.now }
        requires place { at + 32 ≤ length out.old }
        requires taps_in_range { AreItems Short h.now }
        requires items_in_range { All (λ x. IsItem Self.kind (Self.number x)) x.now }
        requires done { take at (map Self.number out.old) ≡ listed at (output Self.kind h.now (map Self.number x.now)
            shift) }
        ensures { take (at + 32) (map Self.number out.new) ≡ listed (at + 32)
            (output Self.kind h.now (map Self.number x.now) shift) };
}

impl ProductLane for i16 {
    #[inline(always)]
    fn products(taps: i16x8, items: &[i16]) -> i64x8 {
        let items = i16x8::from_slice(items).cast::<i64>();
        taps.cast::<i64>().strict_mul(items)
    }

    #[inline(always)]
    fn saturate(n: i64) -> i16 {
        n.clamp(-32768, 32767) as i16
    }

    #[inline(always)]
    fn store(numbers: i64x8, out: &mut [i16], at: usize) {
        nearest_shorts(numbers).copy_to_slice(&mut out[at..]);
    }
}

impl ProductLane for i32 {
    #[inline(always)]
    fn products(taps: i16x8, items: &[i32]) -> i64x8 {
        let items = i32x8::from_slice(items).cast::<i64>();
        taps.cast::<i64>().strict_mul(items)
    }

    #[inline(always)]
    fn saturate(n: i64) -> i32 {
        n.clamp(-2147483648, 2147483647) as i32
    }

    #[inline(always)]
    fn store(numbers: i64x8, out: &mut [i32], at: usize) {
        let capped = numbers
            .simd_max(i64x8::splat(-2147483648))
            .simd_min(i64x8::splat(2147483647));
        capped.cast::<i32>().copy_to_slice(&mut out[at..]);
    }
}

impl FilterLane for i16 {
    fn halves_for(h: &[i16], shift: u32) -> Option<Halves> {
        if shift <= 15 && is_light(h) {
            None
        } else {
            Some(Halves::of(h))
        }
    }

    fn write_block(
        h: &[i16],
        halves: &Option<Halves>,
        x: &[i16],
        at: usize,
        shift: u32,
        out: &mut [i16],
    ) {
        match halves {
            Some(halves) => write_halves(h, halves, x, at, shift, out),
            None => write_light(h, x, at, shift, out),
        }
    }
}

impl FilterLane for i32 {
    fn halves_for(_h: &[i16], _shift: u32) -> Option<Halves> {
        None
    }

    fn write_block(
        h: &[i16],
        _halves: &Option<Halves>,
        x: &[i32],
        at: usize,
        shift: u32,
        out: &mut [i32],
    ) {
        write_ints(h, x, at, shift, out);
    }
}
