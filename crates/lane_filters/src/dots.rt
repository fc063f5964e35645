//! Dot products of taps and items.
ghost use Rattle.std.specs.Prelude.{◌≡◌, ◌+◌, ◌*◌, ◌/◌, ◌≤◌, ◌^◌, length, map, All};
ghost use Rattle.std.specs.Int.RustNames.{unsigned_abs};
ghost use Rattle.stream_model.specs.Lists.{sum_below};
ghost use Rattle.kind_model.specs.Kernels.{dot};
ghost use Rattle.stream_model.specs.Numbers.{IsItem, AreItems, total};
ghost use Rattle.stream_model.specs.declared.vocabulary.ItemType.TheVariants.{Short};
ghost use Rattle.lane_filters.specs.Words.{AreWithin, tap_product};

use crate::ProductLane;
use crate::sums::{added, lane_total, with_product};
use numbers::vectors::are_in_range;
use std::simd::prelude::*;

/// The sum of the products of taps and short items, exactly.
pub fn dot_i16(h: &[i16], x: &[i16]) -> i64
    requires lengths { length h.now ≡ length x.now }
    requires most { length h.now ≤ 256 }
    ensures { result ≡ dot h.now x.now }
{
    dot_lanes::<i16>(h, x)
}

/// The sum of the products of taps and items, exactly.
pub fn dot_i32(h: &[i16], x: &[i32]) -> i64
    requires lengths { length h.now ≡ length x.now }
    requires most { length h.now ≤ 256 }
    ensures { result ≡ dot h.now x.now }
{
    dot_lanes::<i32>(h, x)
}

/// The sum of the products over any item type: eight products at a time, then the rest one by one.
fn dot_lanes<T: ProductLane>(h: &[i16], x: &[T]) -> i64
    requires lengths { length h.now ≡ length x.now }
    requires most { length h.now ≤ 256 }
    ensures { result ≡ dot h.now (map T.number x.now) }
{
    are_in_range(h);
    are_in_range(x);
    let mut sum = dot_blocks(h, x);
    for n in 8 * (h.len() / 8)..h.len() {
        sum = with_product(sum, h[n], x[n]);
    }
    sum
}

/// The sum of the products of the full blocks of eight.
fn dot_blocks<T: ProductLane>(h: &[i16], x: &[T]) -> i64
    requires lengths { length h.now ≡ length x.now }
    requires most { length h.now ≤ 256 }
    requires taps { AreItems Short h.now }
    requires items { All (λ x. IsItem T.kind (T.number x)) x.now }
    ensures value { result ≡ sum_below (8 * (length h.now / 8)) (tap_product h.now (map T.number x.now)) }
    ensures within { unsigned_abs result ≤ 8 * (length h.now / 8) * 2 ^ 46 }
{
    let mut sums = i64x8::splat(0);
    for block in 0..h.len() / 8 {
        let taps = i16x8::from_slice(&h[8 * block..]);
        sums = added(sums, T::products(taps, &x[8 * block..]));
    }
    lane_total(sums)
}
