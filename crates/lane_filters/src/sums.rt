//! Sums in lanes.
ghost use Rattle.std.specs.Prelude.{◌≡◌, ◌+◌, ◌-◌, ◌/◌, ◌≤◌, ◌^◌, ◌+ℤ◌, ◌*ℤ◌, pos, map};
ghost use Rattle.std.specs.Int.RustNames.{unsigned_abs};
ghost use Rattle.std.specs.Simd.Lanes.{zip2};
ghost use Rattle.stream_model.specs.Numbers.{rnd, sat, total};
ghost use Rattle.stream_model.specs.declared.vocabulary.ItemType.TheVariants.{Short, Int};
ghost use Rattle.lane_filters.specs.Words.{AreWithin};

use numbers::Number;
use std::simd::prelude::*;

/// The sums, lane by lane.
#[inline(always)]
pub(crate) fn added(a: i64x8, b: i64x8) -> i64x8
    requires left { AreWithin (2 ^ 60) a }
    requires right { AreWithin (2 ^ 60) b }
    ensures { result ≡ zip2 (λ x y. x +ℤ y) a b }
{
    a.strict_add(b)
}

/// The sum of the lanes.
pub(crate) fn lane_total(sums: i64x8) -> i64
    requires { AreWithin (2 ^ 58) sums }
    ensures { result ≡ total sums }
{
    sums.strict_reduce_sum()
}

/// The sum with the product of a tap and an item.
#[inline(always)]
pub(crate) fn with_product<T: Number>(sum: i64, tap: i16, item: T) -> i64
    requires { unsigned_abs sum ≤ 2 ^ 60 }
    ensures value { result ≡ sum +ℤ (tap *ℤ T.number item) }
    ensures within { unsigned_abs result ≤ unsigned_abs sum + 2 ^ 46 }
{
    sum + i64::from(tap) * item.widen()
}

/// Half of what a shift divides by.
#[inline(always)]
fn half_of(shift: u32) -> i64
    requires { shift ≤ 31 }
    ensures { result ≡ pos (2 ^ shift / 2) }
{
    i64::from((1u32 << shift) / 2)
}

/// The sum over `2 ^ shift`, rounded to the nearest; ties round up.
#[inline(always)]
pub(crate) fn rounded(sum: i64, shift: u32) -> i64
    requires shift { shift ≤ 31 }
    requires sum { unsigned_abs sum ≤ 2 ^ 60 }
    ensures { result ≡ rnd sum shift }
{
    (sum + half_of(shift)) >> shift
}

/// Each sum over `2 ^ shift`, rounded to the nearest; ties round up.
#[inline(always)]
pub(crate) fn rounded_lanes(sums: i64x8, shift: u32) -> i64x8
    requires shift { shift ≤ 31 }
    requires sums { AreWithin (2 ^ 60) sums }
    ensures value { result ≡ map (λ z. rnd z shift) sums }
    ensures within { AreWithin (2 ^ 61) result }
{
    let halves = i64x8::splat(half_of(shift));
    sums.strict_add(halves) >> i64x8::splat(i64::from(shift))
}

/// The same as an int.
#[inline(always)]
fn half_int(shift: u32) -> i32
    requires { shift ≤ 15 }
    ensures { result ≡ pos (2 ^ shift / 2) }
{
    i32::from((1u16 << shift) / 2)
}

/// A shift as an int.
#[inline(always)]
fn int_of(shift: u32) -> i32
    requires { shift ≤ 15 }
    ensures { result ≡ pos shift }
{
    shift as i32
}

/// Each sum over `2 ^ shift`, rounded to the nearest; ties round up.
#[inline(always)]
pub(crate) fn rounded_ints(sums: i32x8, shift: u32) -> i32x8
    requires shift { shift ≤ 15 }
    requires sums { AreWithin (2 ^ 31 - 2 ^ 15) sums }
    ensures value { result ≡ map (λ z. rnd z shift) sums }
    ensures within { AreWithin (2 ^ 31 - 1) result }
{
    let halves = i32x8::splat(half_int(shift));
    sums.strict_add(halves) >> i32x8::splat(int_of(shift))
}

/// Each number, or the nearest that a short is.
#[inline(always)]
pub(crate) fn nearest_shorts(numbers: i64x8) -> i16x8
    requires { AreWithin (2 ^ 61) numbers }
    ensures { result ≡ map (sat Short) numbers }
{
    let capped = numbers
        .simd_max(i64x8::splat(-32768))
        .simd_min(i64x8::splat(32767));
    capped.cast::<i16>()
}

/// Each number, or the nearest that an int is.
#[inline(always)]
pub(crate) fn nearest_ints(numbers: i64x8) -> i32x8
    requires { AreWithin (2 ^ 61) numbers }
    ensures { result ≡ map (sat Int) numbers }
{
    let capped = numbers
        .simd_max(i64x8::splat(-2147483648))
        .simd_min(i64x8::splat(2147483647));
    capped.cast::<i32>()
}

/// Each number, or the nearest that a short is.
#[inline(always)]
pub(crate) fn capped_shorts(numbers: i32x8) -> i16x8
    requires { AreWithin (2 ^ 31 - 1) numbers }
    ensures { result ≡ map (sat Short) numbers }
{
    let capped = numbers
        .simd_max(i32x8::splat(-32768))
        .simd_min(i32x8::splat(32767));
    capped.cast::<i16>()
}
