//! Bits, packed into bytes and unpacked, the highest first.
ghost use Rattle.std.specs.Prelude.{◌≡◌, ◌+◌, ◌*◌, ◌≤◌, ◌++◌, length, map, take, pos};
ghost use Rattle.kind_model.specs.Kernels.{pack_bits, unpack_bits};
ghost use Rattle.stream_model.specs.Lists.{below};
ghost use Rattle.lane_filters.specs.Words.{first_bits, bit_of};

use std::simd::prelude::*;

/// What the bits of a byte count, the highest first.
const PLACES: [u8; 8] = [128, 64, 32, 16, 8, 4, 2, 1];

/// Each output has the lowest bits of `k` items, the first of them highest.
pub fn pack_bits(k: u32, x: &[u8], out: &mut [u8])
    requires least { 1 ≤ k }
    requires most { k ≤ 8 }
    requires lengths { length x.now ≡ k * length out.old }
    ensures { map pos out.new ≡ pack_bits k (map pos x.now) }
{
    let width = k as usize;
    for n in 0..out.len() {
        let at = width * n;
        out[n] = if x.len() - at >= 8 {
            packed_lanes(k, &x[at..])
        } else {
            packed_byte(k, &x[at..])
        };
    }
}

/// The lowest bits of the first `k` items, where there are eight.
#[inline(always)]
fn packed_lanes(k: u32, items: &[u8]) -> u8
    requires least { 1 ≤ k }
    requires most { k ≤ 8 }
    requires room { 8 ≤ length items.now }
    ensures { result ≡ first_bits items.now k }
{
    let ones = u8x8::from_slice(items) & u8x8::splat(1);
    let places = u8x8::from_array(PLACES);
    let set = ones.simd_eq(u8x8::splat(1));
    set.select(places, u8x8::splat(0)).reduce_sum() >> (8 - k)
}

/// The lowest bits of the first `k` items, one by one.
fn packed_byte(k: u32, items: &[u8]) -> u8
    requires least { 1 ≤ k }
    requires most { k ≤ 8 }
    requires room { k ≤ length items.now }
    ensures { result ≡ first_bits items.now k }
{
    let mut byte = 0;
    for j in 0..k as usize {
        byte = 2 * byte + items[j] % 2;
    }
    byte
}

/// Each item gives `k` outputs: its lowest bits, the highest of them first.
pub fn unpack_bits(k: u32, x: &[u8], out: &mut [u8])
    requires least { 1 ≤ k }
    requires most { k ≤ 8 }
    requires lengths { length out.old ≡ k * length x.now }
    ensures { map pos out.new ≡ unpack_bits k (map pos x.now) }
{
    let width = k as usize;
    for n in 0..x.len() {
        let at = width * n;
        if out.len() - at >= 8 {
            spread(k, x[n]).copy_to_slice(&mut out[at..]);
        } else {
            write_bits(k, x[n], out, at);
        }
    }
}

/// The lowest `k` bits of a byte in the first lanes. The lanes behind them are of no use.
#[inline(always)]
fn spread(k: u32, byte: u8) -> u8x8
    requires least { 1 ≤ k }
    requires most { k ≤ 8 }
    ensures lanes { length result ≡ 8 }
    ensures bits { take k result ≡ map (bit_of k byte) (below k) }
{
    let high = u8x8::splat(byte << (8 - k));
    let places = u8x8::from_array(PLACES);
    let clear = (high & places).simd_eq(u8x8::splat(0));
    clear.select(u8x8::splat(0), u8x8::splat(1))
}

/// Writes the lowest `k` bits of a byte.
fn write_bits(k: u32, byte: u8, out: &mut [u8], at: usize)
    requires least { 1 ≤ k }
    requires most { k ≤ 8 }
    requires room { at + k ≤ length out.old }
    ensures { take (at + k) out.new ≡ take at out.old ++ map (bit_of k byte) (below k) }
{
    for j in 0..k {
        out[at + j as usize] = (byte >> (k - 1 - j)) % 2;
    }
}
