//! Outputs of taps and short items by lanes of 32 bits, which hold the sums where the taps' distances from
//! 0 sum up to less than `2 ^ 16`. Products of neighbouring items are added at once.
ghost use Rattle.std.specs.Prelude.{◌≡◌, ◌+◌, ◌-◌, ◌*◌, ◌/◌, ◌%◌, ◌<◌, ◌≤◌, ◌^◌, ◌↔◌, ◌+ℤ◌, length, map, take, IsTrue};
ghost use Rattle.std.specs.Simd.Lanes.{zip2};
ghost use Rattle.std.specs.Int.RustNames.{unsigned_abs};
ghost use Rattle.stream_model.specs.Lists.{item, listed};
ghost use Rattle.stream_model.specs.Numbers.{AreItems};
ghost use Rattle.stream_model.specs.declared.vocabulary.ItemType.TheVariants.{Short};
ghost use Rattle.lane_filters.specs.Words.{AreWithin, output, spread_sums, paired, weight};

use crate::sums::{capped_shorts, rounded_ints};
use std::simd::prelude::*;

/// Whether the taps' distances from 0 sum up to less than `2 ^ 16`.
pub(crate) fn is_light(h: &[i16]) -> bool
    requires { length h.now ≤ 256 }
    ensures { IsTrue result ↔ (weight h.now < 2 ^ 16) }
{
    let mut weight: u32 = 0;
    for tap in h {
        weight += u32::from(tap.unsigned_abs());
    }
    weight < 65536
}

/// Writes 32 outputs, from `at` on. A pair of taps is read once for all of them.
pub(crate) fn write_light(h: &[i16], x: &[i16], at: usize, shift: u32, out: &mut [i16])
    requires taps { 1 ≤ length h.now }
    requires most { length h.now ≤ 256 }
    requires light { weight h.now < 2 ^ 16 }
    requires shift { shift ≤ 15 }
    requires room { at + 31 + length h.now ≤ length x.now }
    requires place { at + 32 ≤ length out.old }
    requires taps_in_range { AreItems Short h.now }
    requires items_in_range { AreItems Short x.now }
    requires done { take at out.old ≡ listed at (output Short h.now x.now shift) }
    ensures { take (at + 32) out.new ≡ listed (at + 32) (output Short h.now x.now shift) }
{
    let mut even = i32x8::splat(0);
    let mut odd = i32x8::splat(0);
    let mut next_even = i32x8::splat(0);
    let mut next_odd = i32x8::splat(0);
    for pair in 0..h.len() / 2 {
        (even, odd) = with_pair(h, x, at, pair, even, odd);
        (next_even, next_odd) = with_pair(h, x, at + 16, pair, next_even, next_odd);
    }
    write_sixteen(h, x, at, shift, even, odd, out);
    write_sixteen(h, x, at + 16, shift, next_even, next_odd, out);
}

/// The sums of two more taps at sixteen outputs: at every other one from `at` on, and at those between.
#[inline(always)]
pub(crate) fn with_pair(
    h: &[i16],
    x: &[i16],
    at: usize,
    pair: usize,
    even: i32x8,
    odd: i32x8,
) -> (i32x8, i32x8)
    requires most { length h.now ≤ 256 }
    requires light { weight h.now < 2 ^ 16 }
    requires taps { pair < length h.now / 2 }
    requires room { at + 15 + length h.now ≤ length x.now }
    requires taps_in_range { AreItems Short h.now }
    requires items_in_range { AreItems Short x.now }
    requires even { even ≡ spread_sums h.now x.now (2 * pair) at }
    requires odd { odd ≡ spread_sums h.now x.now (2 * pair) (at + 1) }
    ensures even { result.0 ≡ spread_sums h.now x.now (2 * (pair + 1)) at }
    ensures odd { result.1 ≡ spread_sums h.now x.now (2 * (pair + 1)) (at + 1) }
{
    let (tap, next) = (h[2 * pair], h[2 * pair + 1]);
    let from = at + (h.len() - 2 - 2 * pair);
    let even = added_exactly(even, pair_sums(next, tap, &x[from..]));
    let odd = added_exactly(odd, pair_sums(next, tap, &x[from + 1..]));
    (even, odd)
}

/// The sums with the last of an odd number of taps.
#[inline(always)]
fn with_last(h: &[i16], x: &[i16], at: usize, even: i32x8, odd: i32x8) -> (i32x8, i32x8)
    requires most { length h.now ≤ 256 }
    requires light { weight h.now < 2 ^ 16 }
    requires taps { 1 ≤ length h.now }
    requires room { at + 15 + length h.now ≤ length x.now }
    requires taps_in_range { AreItems Short h.now }
    requires items_in_range { AreItems Short x.now }
    requires even { even ≡ spread_sums h.now x.now (length h.now - 1) at }
    requires odd { odd ≡ spread_sums h.now x.now (length h.now - 1) (at + 1) }
    ensures even { result.0 ≡ spread_sums h.now x.now (length h.now) at }
    ensures odd { result.1 ≡ spread_sums h.now x.now (length h.now) (at + 1) }
{
    let last = h[h.len() - 1];
    let even = added_exactly(even, pair_sums(last, 0, &x[at..]));
    let odd = added_exactly(odd, pair_sums(0, last, &x[at..]));
    (even, odd)
}

/// The sums of all taps, from those of the pairs.
#[inline(always)]
pub(crate) fn with_all(h: &[i16], x: &[i16], at: usize, even: i32x8, odd: i32x8) -> (i32x8, i32x8)
    requires most { length h.now ≤ 256 }
    requires light { weight h.now < 2 ^ 16 }
    requires taps { 1 ≤ length h.now }
    requires room { at + 15 + length h.now ≤ length x.now }
    requires taps_in_range { AreItems Short h.now }
    requires items_in_range { AreItems Short x.now }
    requires even { even ≡ spread_sums h.now x.now (2 * (length h.now / 2)) at }
    requires odd { odd ≡ spread_sums h.now x.now (2 * (length h.now / 2)) (at + 1) }
    ensures even { result.0 ≡ spread_sums h.now x.now (length h.now) at }
    ensures odd { result.1 ≡ spread_sums h.now x.now (length h.now) (at + 1) }
{
    if h.len() % 2 == 0 {
        return (even, odd);
    }
    with_last(h, x, at, even, odd)
}

/// Writes sixteen outputs, whose sums of the pairs of taps are given.
#[inline(always)]
fn write_sixteen(
    h: &[i16],
    x: &[i16],
    at: usize,
    shift: u32,
    even: i32x8,
    odd: i32x8,
    out: &mut [i16],
)
    requires most { length h.now ≤ 256 }
    requires light { weight h.now < 2 ^ 16 }
    requires taps { 1 ≤ length h.now }
    requires shift { shift ≤ 15 }
    requires room { at + 15 + length h.now ≤ length x.now }
    requires place { at + 16 ≤ length out.old }
    requires taps_in_range { AreItems Short h.now }
    requires items_in_range { AreItems Short x.now }
    requires even { even ≡ spread_sums h.now x.now (2 * (length h.now / 2)) at }
    requires odd { odd ≡ spread_sums h.now x.now (2 * (length h.now / 2)) (at + 1) }
    requires done { take at out.old ≡ listed at (output Short h.now x.now shift) }
    ensures { take (at + 16) out.new ≡ listed (at + 16) (output Short h.now x.now shift) }
{
    let (even, odd) = with_all(h, x, at, even, odd);
    let even = capped_shorts(rounded_ints(even, shift));
    let odd = capped_shorts(rounded_ints(odd, shift));
    let both = even.shuffle(odd, [0, 8, 1, 9, 2, 10, 3, 11, 4, 12, 5, 13, 6, 14, 7, 15]);
    both.copy_to_slice(&mut out[at..]);
}

/// Two taps times two neighbouring items, summed: of the first sixteen items.
#[inline(always)]
fn pair_sums(a: i16, b: i16, items: &[i16]) -> i32x8
    requires light { unsigned_abs a + unsigned_abs b < 2 ^ 16 }
    requires items { AreItems Short items.now }
    requires room { 16 ≤ length items.now }
    ensures value { result ≡ paired a b items.now }
    ensures within { AreWithin (2 ^ 31 - 2 ^ 15) result }
{
    let taps = i16x16::from_array([a, b, a, b, a, b, a, b, a, b, a, b, a, b, a, b]);
    let items = i16x16::from_slice(items).cast::<i32>();
    let products = taps.cast::<i32>().strict_mul(items);
    let first = products.swizzle([0, 2, 4, 6, 8, 10, 12, 14]);
    first.strict_add(products.swizzle([1, 3, 5, 7, 9, 11, 13, 15]))
}

/// The sums, lane by lane.
#[inline(always)]
fn added_exactly(a: i32x8, b: i32x8) -> i32x8
    requires left { AreWithin (2 ^ 31 - 2 ^ 15) a }
    requires right { AreWithin (2 ^ 31 - 2 ^ 15) b }
    requires sums { AreWithin (2 ^ 31 - 2 ^ 15) (zip2 (λ x y. x +ℤ y) a b) }
    ensures { result ≡ zip2 (λ x y. x +ℤ y) a b }
{
    a.strict_add(b)
}
