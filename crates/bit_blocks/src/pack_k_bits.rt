//! The block that packs the lowest bits of `k` bytes into one, the first the highest.

use crate::k_bits::KBits;
use crate::packing::Packing;
use lane_filters::pack_bits;

/// The lowest bits of `k` bytes in one byte, the first bit the highest, as GNU Radio's `pack_k_bits_bb`.
pub type PackKBits = KBits<Pack>;

/// Bits go into bytes.
#[derive(Clone, Copy)]
pub struct Pack;

impl Packing for Pack {
    ghost use Rattle.kind_model.specs.Kernels as kernels;
    ghost use Rattle.kind_model.specs.Bits.{pack_k_bits};
    ghost use Rattle.kind_laws.specs.Bits.{pack_k_bits-lawful};
    ghost use Rattle.bit_blocks.specs.Packed.{pack_k_bits-packed};

    ghost equation = { pack_k_bits };

    ghost taken = { λ k. k };

    ghost given = { λ _. 1 };

    ghost makes = { kernels.pack_bits };

    fn pace(k: u32) -> (u64, u64) {
        (u64::from(k), 1)
    }

    fn make(k: u32, bytes: &[u8], out: &mut [u8]) {
        pack_bits(k, bytes, out);
    }

    ghost packed = { pack_k_bits-packed };

    ghost lawful = { pack_k_bits-lawful };
}
