//! The block that goes from `k` bits in a byte to `l`.
ghost use Rattle.std.specs.Prelude.{◌≡◌, ◌≤◌, ◌<◌, ◌↔◌, ◌⊎◌, IsOk, IfOk, IsErrOf};
ghost use Rattle.kind_model.specs.BitStreams.{repack_bits};

use crate::repacking::Repacking;
use block_parameters::{ParamFault, Parameter};
use items::ItemType;
use kind_model::BitOrder;

/// The lowest `k` bits of each byte, one after the other, in bytes of `l` bits, in one order on both sides. As GNU
/// Radio's `repack_bits_bb` without a length tag, its `endianness` the order; but a firing takes whole rounds, as many
/// bytes as fill whole bytes of `l` bits, so that of a last round that is not whole nothing is given, where GNU Radio's
/// block gives each byte that is full.
pub type RepackBits = Repacking<ByteToByte>;

/// Some bits of a byte become another number of them.
#[derive(Clone, Copy)]
pub struct ByteToByte;

impl RepackBits {
    ghost use Rattle.bit_blocks.specs.Kinds.{repacking_of};

    /// The block with `k` and `l` of 1 to 8. `BadParameter` names the first that is not so, in this order.
    pub fn new(k: u32, l: u32, order: BitOrder) -> Result<RepackBits, ParamFault>
        ensures meaning { IfOk result (λ block. repacking_of block ≡ repack_bits k l order) }
        ensures range { IsOk result ↔ ((1 ≤ k) × (k ≤ 8) × (1 ≤ l) × (l ≤ 8)) }
        ensures bad_k { IsErrOf result (ParamFault.BadParameter Parameter.K) ↔ ((k < 1) ⊎ (8 < k)) }
        ensures bad_l { IsErrOf result (ParamFault.BadParameter Parameter.L)
            ↔ ((1 ≤ k) × (k ≤ 8) × ((l < 1) ⊎ (8 < l))) }
    {
        if k < 1 || 8 < k {
            return Err(ParamFault::BadParameter(Parameter::K));
        }
        if l < 1 || 8 < l {
            return Err(ParamFault::BadParameter(Parameter::L));
        }
        Ok(Repacking::of_widths(ItemType::Byte, k, l, order, order))
    }
}
