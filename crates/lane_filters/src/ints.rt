//! Outputs of taps and ints by sums in lanes of 64 bits. Each lane is loaded with two neighbouring ints, of which no
//! product needs more than the lane that they are in.
ghost use Rattle.std.specs.Prelude.{◌≡◌, ◌+◌, ◌-◌, ◌<◌, ◌≤◌, ◌^◌, ◌*ℤ◌, length, map, take};
ghost use Rattle.stream_model.specs.Lists.{item, listed};
ghost use Rattle.stream_model.specs.Numbers.{AreItems};
ghost use Rattle.stream_model.specs.declared.vocabulary.ItemType.TheVariants.{Short, Int};
ghost use Rattle.lane_filters.specs.Words.{AreWithin, every_other, output, spread_sums};

use crate::sums::{added, nearest_ints, rounded_lanes};
use std::simd::prelude::*;

/// Writes 32 outputs, from `at` on. A tap is read once for all of them.
pub(crate) fn write_ints(h: &[i16], x: &[i32], at: usize, shift: u32, out: &mut [i32])
    requires most { length h.now ≤ 256 }
    requires shift { shift ≤ 31 }
    requires room { at + 31 + length h.now ≤ length x.now }
    requires place { at + 32 ≤ length out.old }
    requires taps_in_range { AreItems Short h.now }
    requires items_in_range { AreItems Int x.now }
    requires done { take at out.old ≡ listed at (output Int h.now x.now shift) }
    ensures { take (at + 32) out.new ≡ listed (at + 32) (output Int h.now x.now shift) }
{
    let mut even = i64x8::splat(0);
    let mut odd = i64x8::splat(0);
    let mut next_even = i64x8::splat(0);
    let mut next_odd = i64x8::splat(0);
    for j in 0..h.len() {
        (even, odd) = with_tap(h, x, at, j, even, odd);
        (next_even, next_odd) = with_tap(h, x, at + 16, j, next_even, next_odd);
    }
    write_sixteen(h, x, at, shift, even, odd, out);
    write_sixteen(h, x, at + 16, shift, next_even, next_odd, out);
}

/// The sums of one more tap at sixteen outputs: at every other one from `at` on, and at those between.
#[inline(always)]
fn with_tap(h: &[i16], x: &[i32], at: usize, j: usize, even: i64x8, odd: i64x8) -> (i64x8, i64x8)
    requires most { length h.now ≤ 256 }
    requires tap { j < length h.now }
    requires room { at + 15 + length h.now ≤ length x.now }
    requires taps_in_range { AreItems Short h.now }
    requires items_in_range { AreItems Int x.now }
    requires even { even ≡ spread_sums h.now x.now j at }
    requires odd { odd ≡ spread_sums h.now x.now j (at + 1) }
    ensures even { result.0 ≡ spread_sums h.now x.now (j + 1) at }
    ensures odd { result.1 ≡ spread_sums h.now x.now (j + 1) (at + 1) }
{
    let tap = h[j];
    let (lower, upper) = spread(&x[at + (h.len() - 1 - j)..]);
    let even = added(even, times(tap, lower));
    let odd = added(odd, times(tap, upper));
    (even, odd)
}

/// Of sixteen ints every other one, and those between.
#[inline(always)]
fn spread(items: &[i32]) -> (i64x8, i64x8)
    requires room { 16 ≤ length items.now }
    requires range { AreItems Int items.now }
    ensures lower { result.0 ≡ map (item items.now) (every_other 0) }
    ensures upper { result.1 ≡ map (item items.now) (every_other 1) }
{
    let pairs = i64x8::from_le_bytes(i32x16::from_slice(items).to_le_bytes());
    let places = i64x8::splat(32);
    ((pairs << places) >> places, pairs >> places)
}

/// A tap times each number.
#[inline(always)]
fn times(tap: i16, numbers: i64x8) -> i64x8
    requires { AreWithin (2 ^ 31) numbers }
    ensures value { result ≡ map (λ z. tap *ℤ z) numbers }
    ensures within { AreWithin (2 ^ 46) result }
{
    i64x8::splat(i64::from(tap)).strict_mul(numbers)
}

/// Writes sixteen outputs, whose sums are given: at every other one from `at` on, and at those between.
#[inline(always)]
fn write_sixteen(
    h: &[i16],
    x: &[i32],
    at: usize,
    shift: u32,
    even: i64x8,
    odd: i64x8,
    out: &mut [i32],
)
    requires most { length h.now ≤ 256 }
    requires shift { shift ≤ 31 }
    requires place { at + 16 ≤ length out.old }
    requires taps_in_range { AreItems Short h.now }
    requires items_in_range { AreItems Int x.now }
    requires even { even ≡ spread_sums h.now x.now (length h.now) at }
    requires odd { odd ≡ spread_sums h.now x.now (length h.now) (at + 1) }
    requires done { take at out.old ≡ listed at (output Int h.now x.now shift) }
    ensures { take (at + 16) out.new ≡ listed (at + 16) (output Int h.now x.now shift) }
{
    let even = nearest_ints(rounded_lanes(even, shift));
    let odd = nearest_ints(rounded_lanes(odd, shift));
    let both = even.shuffle(odd, [0, 8, 1, 9, 2, 10, 3, 11, 4, 12, 5, 13, 6, 14, 7, 15]);
    both.copy_to_slice(&mut out[at..]);
}
