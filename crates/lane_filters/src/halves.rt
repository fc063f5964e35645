//! Outputs of any taps and short items by lanes of 32 bits. Each tap is 256 times a high half and a low one: the sums
//! of up to 256 halves fit such lanes, and both sums are joined in lanes of 64 bits.
ghost use Rattle.std.specs.Prelude.{◌≡◌, ◌+◌, ◌-◌, ◌*◌, ◌/◌, ◌<◌, ◌≤◌, ◌^◌, ◌+ℤ◌, ◌*ℤ◌, pos, length, take};
ghost use Rattle.std.specs.Simd.Lanes.{zip2};
ghost use Rattle.stream_model.specs.Lists.{listed};
ghost use Rattle.stream_model.specs.Numbers.{AreItems};
ghost use Rattle.stream_model.specs.declared.vocabulary.ItemType.TheVariants.{Short};
ghost use Rattle.lane_filters.specs.Words.{AreHalves, AreHalvesOf, AreWithin, output, spread_sums, weight};

use crate::pairs::{with_all, with_pair};
use crate::sums::{added, nearest_shorts, rounded, rounded_lanes};
use std::simd::prelude::*;

/// The taps of a row, each as 256 times a high half and a low one.
#[derive(Drop)]
pub struct Halves {
    high: [i16; 256],
    low: [i16; 256],
}

impl Halves {
    /// The halves of the taps.
    pub(crate) fn of(h: &[i16]) -> Halves
        requires { length h.now ≤ 256 }
        ensures { AreHalves h.now result.high result.low }
    {
        let mut high = [0; 256];
        let mut low = [0; 256];
        for j in 0..h.len() {
            let (upper, lower) = halves_of(h[j]);
            high[j] = upper;
            low[j] = lower;
        }
        Halves { high, low }
    }

    /// The high halves of the taps, which are light.
    #[inline(always)]
    fn high_taps(&self, h: &[i16]) -> &[i16]
        requires most { length h.now ≤ 256 }
        requires halves { AreHalves h.now self.now.high self.now.low }
        ensures value { result.now ≡ take (length h.now) self.now.high }
        ensures len { length result.now ≡ length h.now }
        ensures light { weight result.now < 2 ^ 16 }
        ensures in_range { AreItems Short result.now }
    {
        &self.high[..h.len()]
    }

    /// The low halves of the taps, which are light.
    #[inline(always)]
    fn low_taps(&self, h: &[i16]) -> &[i16]
        requires most { length h.now ≤ 256 }
        requires halves { AreHalves h.now self.now.high self.now.low }
        ensures value { result.now ≡ take (length h.now) self.now.low }
        ensures len { length result.now ≡ length h.now }
        ensures light { weight result.now < 2 ^ 16 }
        ensures in_range { AreItems Short result.now }
    {
        &self.low[..h.len()]
    }
}

/// The high half, which is the tap over 256, rounded, and the low one.
fn halves_of(tap: i16) -> (i16, i16)
    ensures { AreHalvesOf tap result.0 result.1 }
{
    let tap = i64::from(tap);
    let high = rounded(tap, 8);
    (high as i16, (tap - 256 * high) as i16)
}

/// Writes 32 outputs, from `at` on. The items that a pair of taps meets are read once for both halves.
pub(crate) fn write_halves(
    h: &[i16],
    halves: &Halves,
    x: &[i16],
    at: usize,
    shift: u32,
    out: &mut [i16],
)
    requires taps { 1 ≤ length h.now }
    requires most { length h.now ≤ 256 }
    requires halves { AreHalves h.now halves.now.high halves.now.low }
    requires shift { shift ≤ 31 }
    requires room { at + 31 + length h.now ≤ length x.now }
    requires place { at + 32 ≤ length out.old }
    requires items_in_range { AreItems Short x.now }
    requires done { take at out.old ≡ listed at (output Short h.now x.now shift) }
    ensures { take (at + 32) out.new ≡ listed (at + 32) (output Short h.now x.now shift) }
{
    let high = halves.high_taps(h);
    let low = halves.low_taps(h);
    let zeros = (i32x8::splat(0), i32x8::splat(0));
    let (mut highs, mut lows, mut next_highs, mut next_lows) = (zeros, zeros, zeros, zeros);
    for pair in 0..h.len() / 2 {
        highs = with_pair(high, x, at, pair, highs.0, highs.1);
        lows = with_pair(low, x, at, pair, lows.0, lows.1);
        next_highs = with_pair(high, x, at + 16, pair, next_highs.0, next_highs.1);
        next_lows = with_pair(low, x, at + 16, pair, next_lows.0, next_lows.1);
    }
    write_sixteen(h, halves, x, at, shift, highs, lows, out);
    write_sixteen(h, halves, x, at + 16, shift, next_highs, next_lows, out);
}

/// Writes sixteen outputs, whose sums of the pairs of halves are given: at every other one from `at` on, and at those
/// between.
#[inline(always)]
fn write_sixteen(
    h: &[i16],
    halves: &Halves,
    x: &[i16],
    at: usize,
    shift: u32,
    high: (i32x8, i32x8),
    low: (i32x8, i32x8),
    out: &mut [i16],
)
    requires taps { 1 ≤ length h.now }
    requires most { length h.now ≤ 256 }
    requires halves { AreHalves h.now halves.now.high halves.now.low }
    requires shift { shift ≤ 31 }
    requires room { at + 15 + length h.now ≤ length x.now }
    requires place { at + 16 ≤ length out.old }
    requires items_in_range { AreItems Short x.now }
    requires high_even { high.0 ≡ spread_sums (take (length h.now) halves.now.high) x.now (2 * (length h.now / 2)) at }
    requires high_odd { high.1 ≡ spread_sums (take (length h.now) halves.now.high) x.now (2 * (length h.now / 2))
        (at + 1) }
    requires low_even { low.0 ≡ spread_sums (take (length h.now) halves.now.low) x.now (2 * (length h.now / 2)) at }
    requires low_odd { low.1 ≡ spread_sums (take (length h.now) halves.now.low) x.now (2 * (length h.now / 2))
        (at + 1) }
    requires done { take at out.old ≡ listed at (output Short h.now x.now shift) }
    ensures { take (at + 16) out.new ≡ listed (at + 16) (output Short h.now x.now shift) }
{
    let (high_even, high_odd) = with_all(halves.high_taps(h), x, at, high.0, high.1);
    let (low_even, low_odd) = with_all(halves.low_taps(h), x, at, low.0, low.1);
    let even = nearest_shorts(rounded_lanes(joined(high_even, low_even), shift));
    let odd = nearest_shorts(rounded_lanes(joined(high_odd, low_odd), shift));
    let both = even.shuffle(odd, [0, 8, 1, 9, 2, 10, 3, 11, 4, 12, 5, 13, 6, 14, 7, 15]);
    both.copy_to_slice(&mut out[at..]);
}

/// 256 times the sums of high halves, and those of low ones.
#[inline(always)]
fn joined(high: i32x8, low: i32x8) -> i64x8
    requires high { AreWithin (2 ^ 31 - 2 ^ 15) high }
    requires low { AreWithin (2 ^ 31 - 2 ^ 15) low }
    ensures value { result ≡ zip2 (λ a b. (pos 256 *ℤ a) +ℤ b) high low }
    ensures within { AreWithin (2 ^ 60) result }
{
    let high = i64x8::splat(256).strict_mul(high.cast::<i64>());
    added(high, low.cast::<i64>())
}
