//! Products over a power of two, rounded and saturated. A product of a byte or a short has 32
//! bits, and one of an int 64.
ghost use Rattle.std.specs.Prelude.{◌≡◌, ◌^◌, ◌≤◌, ◌≤ℤ◌, length, map, All};
ghost use Rattle.stream_model.specs.Numbers.{rnd};
ghost use Rattle.lane_kernels.specs.Blocks.{IsWithin, clamped};

use std::simd::prelude::*;

/// Over 2 to the power of `shift` (ties round up), and then the nearest number from `least` to
/// `greatest`. The half is added after all places but one are shifted out: before, the sum may be
/// too large for a lane.
#[inline(always)]
pub(crate) fn scaled(
    products: Simd<i32, 16>,
    shift: u32,
    least: i32,
    greatest: i32,
) -> Simd<i32, 16>
    requires whole { length products ≡ 16 }
    requires small { All (IsWithin (2 ^ 30)) products }
    requires in_range { shift ≤ 31 }
    requires ordered { least ≤ℤ greatest }
    ensures { result ≡ map (λ z. clamped least greatest (rnd z shift)) products }
{
    let last = shift.min(1);
    let first = Simd::splat((shift - last) as i32);
    let last = Simd::splat(last as i32);
    (((products >> first) + last) >> last)
        .simd_max(Simd::splat(least))
        .simd_min(Simd::splat(greatest))
}

/// `scaled` of products of 64 bits, where the half is added at once.
#[inline(always)]
pub(crate) fn scaled_wide(wide: Simd<i64, 4>, shift: u32, least: i64, greatest: i64) -> Simd<i64, 4>
    requires whole { length wide ≡ 4 }
    requires small { All (IsWithin (2 ^ 46)) wide }
    requires in_range { shift ≤ 31 }
    requires ordered { least ≤ℤ greatest }
    ensures { result ≡ map (λ z. clamped least greatest (rnd z shift)) wide }
{
    let half = (1u32 << shift) / 2;
    ((wide + Simd::splat(half as i64)) >> Simd::splat(shift as i64))
        .simd_max(Simd::splat(least))
        .simd_min(Simd::splat(greatest))
}
