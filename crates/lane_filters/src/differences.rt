//! Differences of neighbouring bytes.
ghost use Rattle.std.specs.Prelude.{◌≡◌, ◌+◌, ◌-◌, ◌*◌, ◌/◌, ◌<◌, ◌≤◌, ◌^◌, length, map, take, pos};
ghost use Rattle.std.specs.Simd.Lanes.{zip2};
ghost use Rattle.kind_model.specs.Kernels.{diff_decode};
ghost use Rattle.lane_filters.specs.Words.{byte_difference};

use std::simd::prelude::*;

/// Each item less the one before it, modulo `m`. Items may be above `m`.
pub fn diff_decode(m: u32, before: u8, x: &[u8], out: &mut [u8])
    requires least { 2 ≤ m }
    requires most { m ≤ 256 }
    requires lengths { length x.now ≡ length out.old }
    ensures { map pos out.new ≡ diff_decode m (pos before) (map pos x.now) }
{
    if x.len() == 0 {
        return;
    }
    out[0] = difference(m, x[0], before);
    let blocks = (x.len() - 1) / 16;
    for block in 0..blocks {
        let at = 16 * block;
        let differences = sixteen_differences(m, &x[at + 1..], &x[at..]);
        differences.copy_to_slice(&mut out[at + 1..]);
    }
    for n in 16 * blocks + 1..x.len() {
        out[n] = difference(m, x[n], x[n - 1]);
    }
}

/// The difference of two bytes modulo `m`.
#[inline(always)]
fn difference(m: u32, now: u8, past: u8) -> u8
    requires least { 2 ≤ m }
    requires most { m ≤ 256 }
    ensures { result ≡ byte_difference m now past }
{
    ((u32::from(now) + 256 * m - u32::from(past)) % m) as u8
}

/// The differences of the first sixteen bytes, by a mask where `m` is a power of two.
#[inline(always)]
fn sixteen_differences(m: u32, now: &[u8], past: &[u8]) -> u8x16
    requires least { 2 ≤ m }
    requires most { m ≤ 256 }
    requires room { (16 ≤ length now.now) × (16 ≤ length past.now) }
    ensures { result ≡ zip2 (byte_difference m) (take 16 now.now) (take 16 past.now) }
{
    let power = m.trailing_zeros();
    if m == 1 << power {
        masked(m, power, now, past)
    } else {
        reduced(m, now, past)
    }
}

/// Sixteen differences modulo `m`, which is `2 ^ power`: its low bits are kept.
#[inline(always)]
fn masked(m: u32, power: u32, now: &[u8], past: &[u8]) -> u8x16
    requires is_power { m ≡ 2 ^ power }
    requires most { m ≤ 256 }
    requires room { (16 ≤ length now.now) × (16 ≤ length past.now) }
    ensures { result ≡ zip2 (byte_difference m) (take 16 now.now) (take 16 past.now) }
{
    let mask = (m - 1) as u8;
    (u8x16::from_slice(now) - u8x16::from_slice(past)) & u8x16::splat(mask)
}

/// Sixteen differences modulo any `m`.
#[inline(always)]
fn reduced(m: u32, now: &[u8], past: &[u8]) -> u8x16
    requires least { 2 ≤ m }
    requires most { m ≤ 256 }
    requires room { (16 ≤ length now.now) × (16 ≤ length past.now) }
    ensures { result ≡ zip2 (byte_difference m) (take 16 now.now) (take 16 past.now) }
{
    let whole = (255 + m) / m * m;
    let inverse = ((1 << 20) + m - 1) / m;
    reduced_by(m, whole, inverse, now, past)
}

/// Sixteen differences modulo `m`, where `whole` is the multiple of `m` that is added, and the division by `m` is a
/// multiplication by `inverse`.
#[inline(always)]
fn reduced_by(m: u32, whole: u32, inverse: u32, now: &[u8], past: &[u8]) -> u8x16
    requires least { 2 ≤ m }
    requires most { m ≤ 256 }
    requires whole { whole ≡ (255 + m) / m * m }
    requires inverse { inverse ≡ (2 ^ 20 + m - 1) / m }
    requires room { (16 ≤ length now.now) × (16 ≤ length past.now) }
    ensures { result ≡ zip2 (byte_difference m) (take 16 now.now) (take 16 past.now) }
{
    let (whole, inverse) = (u32x16::splat(whole), u32x16::splat(inverse));
    let now = u8x16::from_slice(now).cast::<u32>();
    let past = u8x16::from_slice(past).cast::<u32>();
    let positive = now + (whole - past);
    let quotients = positive * inverse >> u32x16::splat(20);
    (positive - quotients * u32x16::splat(m)).cast::<u8>()
}
