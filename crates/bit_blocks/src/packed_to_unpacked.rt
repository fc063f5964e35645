//! The block that cuts items into items of fewer bits.
ghost use Rattle.std.specs.Prelude.{◌≡◌, ◌≤◌, ◌↔◌, IsOk, IfOk, IfErr};
ghost use Rattle.stream_model.specs.Numbers.{bits_of};
ghost use Rattle.kind_model.specs.BitStreams.{packed_to_unpacked};

use crate::repacking::{Repacking, width_of};
use block_parameters::{ParamFault, Parameter};
use items::ItemType;
use kind_model::BitOrder;

/// All bits of each item, one after the other, in items of `bits` bits. As GNU Radio's `packed_to_unpacked_xx`, its
/// `endianness` the order in which an item's bits are taken: the first bit of an output is its highest in either order.
/// But a firing takes whole rounds, as many items as fill whole outputs, so that of a last round that is not whole
/// nothing is given, where GNU Radio's block gives each output that is full; and it has one stream.
pub type PackedToUnpacked = Repacking<ToUnpacked>;

/// Whole items become items of fewer bits.
#[derive(Clone, Copy)]
pub struct ToUnpacked;

impl PackedToUnpacked {
    ghost use Rattle.bit_blocks.specs.Kinds.{repacking_of};

    /// The block with this number of bits; `BadParameter` outside 1 to those of the type.
    pub fn new(item: ItemType, bits: u32, order: BitOrder) -> Result<PackedToUnpacked, ParamFault>
        ensures meaning { IfOk result (λ block. repacking_of block ≡ packed_to_unpacked item bits order) }
        ensures range { IsOk result ↔ ((1 ≤ bits) × (bits ≤ bits_of item)) }
        ensures err { IfErr result (λ fault. fault ≡ ParamFault.BadParameter Parameter.Bits) }
    {
        let width = width_of(item);
        if bits < 1 || width < bits {
            return Err(ParamFault::BadParameter(Parameter::Bits));
        }
        Ok(Repacking::of_widths(item, width, bits, order, BitOrder::MsbFirst))
    }
}
