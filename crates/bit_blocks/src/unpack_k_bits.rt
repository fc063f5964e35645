//! The block that gives the `k` lowest bits of each byte, one in each byte, the highest first.

use crate::k_bits::KBits;
use crate::packing::Packing;
use lane_filters::unpack_bits;

/// The `k` lowest bits of each byte, one in each byte, the highest first, as GNU Radio's `unpack_k_bits_bb`.
pub type UnpackKBits = KBits<Unpack>;

/// Bits are taken out of bytes.
#[derive(Clone, Copy)]
pub struct Unpack;

impl Packing for Unpack {
    ghost use Rattle.kind_model.specs.Kernels as kernels;
    ghost use Rattle.kind_model.specs.Bits.{unpack_k_bits};
    ghost use Rattle.kind_laws.specs.Bits.{unpack_k_bits-lawful};
    ghost use Rattle.bit_blocks.specs.Packed.{unpack_k_bits-packed};

    ghost equation = { unpack_k_bits };

    ghost taken = { λ _. 1 };

    ghost given = { λ k. k };

    ghost makes = { kernels.unpack_bits };

    fn pace(k: u32) -> (u64, u64) {
        (1, u64::from(k))
    }

    fn make(k: u32, bytes: &[u8], out: &mut [u8]) {
        unpack_bits(k, bytes, out);
    }

    ghost packed = { unpack_k_bits-packed };

    ghost lawful = { unpack_k_bits-lawful };
}
