//! Rows of outputs of a finite impulse response.
ghost use Rattle.std.specs.Prelude.{◌≡◌, ◌+◌, ◌-◌, ◌*◌, ◌/◌, ◌<◌, ◌≤◌, ◌^◌, length, map, take, All};
ghost use Rattle.std.specs.Int.RustNames.{unsigned_abs};
ghost use Rattle.stream_model.specs.Lists.{listed};
ghost use Rattle.kind_model.specs.Kernels.{fir_row};
ghost use Rattle.stream_model.specs.Numbers.{IsItem, AreItems, sat, rnd};
ghost use Rattle.stream_model.specs.declared.vocabulary.ItemType.TheVariants.{Short};
ghost use Rattle.lane_filters.specs.Words.{AreWithin, tap_sum, tap_sums, output};

use crate::filter_lane::{FilterLane, ProductLane};
use crate::sums::{added, rounded, rounded_lanes, with_product};
use numbers::vectors::are_in_range;
use std::simd::prelude::*;

/// Each output is the sum of the taps times the items up to it, the newest first, over `2 ^ shift`,
/// rounded and saturated. `x` begins with the items before the first output's.
pub fn fir_row<T: FilterLane>(h: &[i16], x: &[T], shift: u32, out: &mut [T])
    requires taps { 1 ≤ length h.now }
    requires most { length h.now ≤ 256 }
    requires lengths { length x.now + 1 ≡ length out.old + length h.now }
    requires shift { shift ≤ 31 }
    ensures { map T.number out.new ≡ fir_row T.kind h.now (map T.number x.now) shift }
{
    are_in_range(h);
    are_in_range(x);
    if out.len() >= 32 {
        long_row(h, x, shift, out);
    } else {
        short_row(h, x, shift, out);
    }
}

/// The row in blocks of 32. The last of them may begin among outputs that the block before has written.
fn long_row<T: FilterLane>(h: &[i16], x: &[T], shift: u32, out: &mut [T])
    requires taps { 1 ≤ length h.now }
    requires most { length h.now ≤ 256 }
    requires lengths { length x.now + 1 ≡ length out.old + length h.now }
    requires long { 32 ≤ length out.old }
    requires shift { shift ≤ 31 }
    requires taps_in_range { AreItems Short h.now }
    requires items_in_range { All (λ x. IsItem T.kind (T.number x)) x.now }
    ensures { map T.number out.new ≡ listed (length out.old) (output T.kind h.now (map T.number x.now) shift) }
{
    let halves = T::halves_for(h, shift);
    for block in 0..out.len() / 32 {
        T::write_block(h, &halves, x, 32 * block, shift, out);
    }
    if out.len() % 32 != 0 {
        T::write_block(h, &halves, x, out.len() - 32, shift, out);
    }
}

/// The row in blocks of eight, and one by one behind them.
fn short_row<T: ProductLane>(h: &[i16], x: &[T], shift: u32, out: &mut [T])
    requires taps { 1 ≤ length h.now }
    requires most { length h.now ≤ 256 }
    requires lengths { length x.now + 1 ≡ length out.old + length h.now }
    requires shift { shift ≤ 31 }
    requires taps_in_range { AreItems Short h.now }
    requires items_in_range { All (λ x. IsItem T.kind (T.number x)) x.now }
    ensures { map T.number out.new ≡ listed (length out.old) (output T.kind h.now (map T.number x.now) shift) }
{
    for block in 0..out.len() / 8 {
        let sums = eight_sums(h, x, 8 * block);
        T::store(rounded_lanes(sums, shift), out, 8 * block);
    }
    for n in 8 * (out.len() / 8)..out.len() {
        out[n] = T::saturate(rounded(one_sum(h, x, n), shift));
    }
}

/// The sums at eight outputs.
fn eight_sums<T: ProductLane>(h: &[i16], x: &[T], at: usize) -> i64x8
    requires taps { 1 ≤ length h.now }
    requires most { length h.now ≤ 256 }
    requires room { at + 7 + length h.now ≤ length x.now }
    requires taps_in_range { AreItems Short h.now }
    requires items_in_range { All (λ x. IsItem T.kind (T.number x)) x.now }
    ensures value { result ≡ tap_sums h.now (map T.number x.now) (length h.now) at }
    ensures within { AreWithin (2 ^ 60) result }
{
    let mut sums = i64x8::splat(0);
    for j in 0..h.len() {
        let items = &x[at + (h.len() - 1 - j)..];
        sums = added(sums, T::products(i16x8::splat(h[j]), items));
    }
    sums
}

/// The sum at one output.
fn one_sum<T: ProductLane>(h: &[i16], x: &[T], at: usize) -> i64
    requires taps { 1 ≤ length h.now }
    requires most { length h.now ≤ 256 }
    requires room { at + length h.now ≤ length x.now }
    ensures value { result ≡ tap_sum h.now (map T.number x.now) (length h.now) at }
    ensures within { unsigned_abs result ≤ 2 ^ 60 }
{
    let mut sum = 0;
    for j in 0..h.len() {
        sum = with_product(sum, h[j], x[at + (h.len() - 1 - j)]);
    }
    sum
}
