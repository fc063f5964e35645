//! The block that tells which items are at least a threshold.
ghost use Rattle.std.specs.Prelude.{◌≡◌, ◌↔◌, IsOk, IfOk, IfErr};
ghost use Rattle.stream_model.specs.Numbers.{IsItem};
ghost use Rattle.kind_model.specs.Math.{binary_slicer};

use crate::to_bytes::{MakesByte, ToBytes, int_of};
use block_parameters::{ParamFault, Parameter};
use items::ItemType;
use numbers::Number;
use numbers::range::is_item;

/// The byte 1 for each item that is at least the threshold, and 0 for each other. With a threshold of 0 it decides as
/// GNU Radio's `binary_slicer_fb`.
pub type BinarySlicer = ToBytes<AtLeast>;

/// Whether an item is at least a threshold.
#[derive(Debug, Drop, PartialEq, Eq)]
pub struct AtLeast {
    item: ItemType,
    threshold: i32,
}

impl BinarySlicer {
    ghost use Rattle.math_blocks.specs.Kinds.{binary_slicer_of};

    /// The block with this threshold; `BadParameter` where it lies outside the range of the items' type.
    pub fn new(item: ItemType, threshold: i64) -> Result<BinarySlicer, ParamFault>
        ensures meaning { IfOk result (λ block. binary_slicer_of block.makes ≡ binary_slicer item threshold) }
        ensures range { IsOk result ↔ IsItem item threshold }
        ensures err { IfErr result (λ fault. fault ≡ ParamFault.BadParameter Parameter.Threshold) }
    {
        if !is_item(item, threshold) {
            return Err(ParamFault::BadParameter(Parameter::Threshold));
        }
        Ok(ToBytes {
            makes: AtLeast {
                item,
                threshold: threshold as i32,
            },
        })
    }
}

impl MakesByte for AtLeast {
    ghost use Rattle.std.specs.Prelude.{refl};
    ghost use Rattle.kind_model.specs.Math.{sliced};
    ghost use Rattle.kind_laws.specs.Math.{binary_slicer-lawful};
    ghost use Rattle.math_blocks.specs.Kinds.{binary_slicer_of, binary_slicer-same};

    ghost takes = { λ m. m.item };

    ghost gives = { λ m. sliced m.threshold };

    ghost equation = { binary_slicer_of };

    fn item(&self) -> ItemType {
        self.item
    }

    #[inline(always)]
    fn byte_of<T: Number>(&self, item: T) -> u8 {
        if int_of(item) < self.threshold { 0 } else { 1 }
    }

    ghost is_made = { λ m. refl };

    ghost lawful = { λ m. binary_slicer-lawful m.item m.threshold };

    ghost same = { binary_slicer-same };
}
