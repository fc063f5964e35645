//! The block that gives the difference of each byte and the one before it, modulo `modulus`.
ghost use Rattle.std.specs.Prelude.{◌≡◌, ◌≤◌, ◌↔◌, IsOk, IfOk, IfErr};
ghost use Rattle.kind_model.specs.Bits.{diff_decoder};

use crate::modulus::Modulus;
use block_parameters::{ParamFault, Parameter};
use block_trait::{Batch, Block, ByPace, Held, Shape, Single, work_single};
use item_dispatch::{ByteWork, make_bytes};
use items::{ItemType, Items};
use lane_filters::diff_decode;

/// The difference of each byte and the one before it, modulo `modulus`, as GNU Radio's `diff_decoder_bb`.
#[derive(Debug, Drop, PartialEq, Eq)]
pub struct DiffDecoder {
    modulus: Modulus,
}

impl DiffDecoder {
    ghost use Rattle.bit_blocks.specs.Kinds.{diff_decoder_of};

    /// The block with this modulus; `BadParameter` outside 2 to 256.
    pub fn new(modulus: u32) -> Result<DiffDecoder, ParamFault>
        ensures meaning { IfOk result (λ block. diff_decoder_of block ≡ diff_decoder modulus) }
        ensures range { IsOk result ↔ ((2 ≤ modulus) × (modulus ≤ 256)) }
        ensures err { IfErr result (λ fault. fault ≡ ParamFault.BadParameter Parameter.Modulus) }
    {
        Ok(DiffDecoder {
            modulus: Modulus::new(modulus)?,
        })
    }
}

impl ByteWork for DiffDecoder {
    ghost use Rattle.std.specs.Prelude.{length, drop, ◌+◌};
    ghost use Rattle.stream_model.specs.Lists.{item};
    ghost use Rattle.kind_model.specs.Kernels as kernels;

    ghost can_make = { λ b xs count. length xs ≡ 1 + count };

    ghost makes = { λ b xs count. kernels.diff_decode b.modulus.value (item xs 0) (drop 1 xs) };

    fn make(&self, items: &[u8], out: &mut [u8]) {
        diff_decode(self.modulus.value, items[0], &items[1..], out);
    }
}

impl Single for DiffDecoder {
    ghost use Rattle.std.specs.Prelude.{refl};
    ghost use Rattle.bit_blocks.specs.Kinds.{diff_decoder_of};

    ghost equation = { diff_decoder_of };

    fn fill(&self, batch: &Batch<'_>, out: &mut Items) -> u64 {
        make_bytes(self, batch.window, batch.count as usize, out);
        0
    }

    ghost single = { λ b. record { in_least = refl; in_most = refl; out_least = refl; out_most = refl } };
}

impl Block for DiffDecoder {
    ghost use Rattle.std.proofs.Common.{ap};
    ghost use Rattle.kind_model.specs.Bits.{diff_decoder};
    ghost use Rattle.kind_laws.specs.Bits.{diff_decoder-lawful};
    ghost use Rattle.block_trait.specs.SameItem.{same_number};
    ghost use Rattle.bit_blocks.specs.Kinds.{diff_decoder_of, some_modulus};

    ghost meaning = { diff_decoder_of };

    type Places = ByPace;

    fn shape(&self, _input: usize) -> Shape<'_> {
        Shape {
            history: 2,
            ..Shape::sync(ItemType::Byte, ItemType::Byte)
        }
    }

    fn work(
        &self,
        state: u64,
        first: u64,
        count: u64,
        windows: &[Items],
        held: &[Held],
        out: &mut [Items],
    ) -> u64 {
        work_single(self, state, first, count, windows, held, out)
    }

    ghost lawful = { λ b. diff_decoder-lawful b.modulus.value (some_modulus b.modulus) b.modulus.few };

    ghost same = { λ a b e. ap diff_decoder (same_number a.modulus.value b.modulus.value e) };
}
