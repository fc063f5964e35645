//! Sums of bytes, many at a time.
ghost use Rattle.std.specs.Prelude.{◌≡◌, ◌≤◌, ◌<◌, ◌+◌, ◌-◌, ◌*◌, ◌/◌, ◌%◌, ◌^◌, ℕ, length, map, take, drop, pos, slice_index_or};
ghost use Rattle.kind_model.specs.Bits.{low_bit};
ghost use Rattle.bit_blocks.specs.Codes.{masked_before};
ghost use Rattle.bit_blocks.specs.declared.register.TheConstants.{MOST_BITS};

use crate::register::{MOST_BITS, Register};

/// Adds the bytes to the sums. Only whether a sum is even counts.
fn add_bytes(bytes: &[u8], sums: &mut [u8])
    requires { length sums.old ≤ length bytes.now }
    ensures same_length { length sums.new ≡ length sums.old }
    ensures sums { (k : ℕ) → k < length sums.old →
        slice_index_or sums.new k 0 % 2 ≡ (slice_index_or sums.old k 0 + slice_index_or bytes.now k 0) % 2 }
{
    for k in 0..sums.len() {
        sums[k] = sums[k].wrapping_add(bytes[k]);
    }
}

/// The lowest bit of each.
fn keep_low_bits(sums: &mut [u8])
    ensures same_length { length sums.new ≡ length sums.old }
    ensures bits { (k : ℕ) → k < length sums.old → slice_index_or sums.new k 0 ≡ slice_index_or sums.old k 0 % 2 }
{
    for k in 0..sums.len() {
        sums[k] %= 2;
    }
}

/// Adds the bytes before those that are summed at a place of the mask, counted from 0, if the mask has it.
fn add_place(register: &Register, place: u32, bytes: &[u8], sums: &mut [u8])
    requires there { length bytes.now ≡ MOST_BITS + length sums.old }
    requires place { place < register.now.bits }
    ensures same_length { length sums.new ≡ length sums.old }
    ensures sums { (k : ℕ) → k < length sums.old → slice_index_or sums.new k 0 % 2
        ≡ (slice_index_or sums.old k 0 + register.now.mask / 2 ^ place % 2 * slice_index_or bytes.now
        (MOST_BITS - 1 - place + k) 0) % 2 }
{
    if (register.mask >> place) % 2 == 1 {
        add_bytes(&bytes[MOST_BITS - 1 - place as usize..], sums);
    }
}

/// Over each byte of `sums`, which are the bytes from place `MOST_BITS` on, its sum with those before it that the mask
/// has, modulo 2.
fn masked_sums(register: &Register, bytes: &[u8], sums: &mut [u8])
    requires there { length bytes.now ≡ MOST_BITS + length sums.old }
    requires behind { sums.old ≡ drop MOST_BITS bytes.now }
    ensures same_length { length sums.new ≡ length sums.old }
    ensures sums { (k : ℕ) → k < length sums.old → slice_index_or sums.new k 0
        ≡ (low_bit (map pos bytes.now) (MOST_BITS + k) + masked_before register.now.bits register.now.mask
        (map pos bytes.now) (MOST_BITS + k)) % 2 }
{
    for place in 0..register.bits {
        add_place(register, place, bytes, sums);
    }
    keep_low_bits(sums);
}

/// `masked_sums` from place `MOST_BITS` of `out` on, where the bytes stand.
pub(crate) fn sum_behind(register: &Register, bytes: &[u8], out: &mut [u8])
    requires same_length { length out.old ≡ length bytes.now }
    requires there { MOST_BITS ≤ length bytes.now }
    requires behind { drop MOST_BITS out.old ≡ drop MOST_BITS bytes.now }
    ensures same_length { length out.new ≡ length out.old }
    ensures first { take MOST_BITS out.new ≡ take MOST_BITS out.old }
    ensures sums { (k : ℕ) → MOST_BITS + k < length bytes.now → slice_index_or out.new (MOST_BITS + k) 0
        ≡ (low_bit (map pos bytes.now) (MOST_BITS + k) + masked_before register.now.bits register.now.mask
        (map pos bytes.now) (MOST_BITS + k)) % 2 }
{
    masked_sums(register, bytes, &mut out[MOST_BITS..]);
}
