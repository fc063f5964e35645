//! The block that sums up all bytes modulo a number.
ghost use Rattle.std.specs.Prelude.{◌≡◌, ◌+◌, ◌≤◌, ◌<◌, ◌↔◌, [], length, IsOk, IfOk, IfErr};
ghost use Rattle.items.specs.Items.{numbers_of, spare_of};
ghost use Rattle.bit_blocks.specs.Codes.{summed, CanCode, HasCoded};
ghost use Rattle.kind_model.specs.Bits.{diff_encoder};

use crate::code::{Coder, code};
use crate::modulus::Modulus;
use block_parameters::{ParamFault, Parameter};
use block_trait::{Batch, Block, ByPace, Held, Shape, Single, work_single};
use items::{ItemType, Items};

/// The sum of all bytes so far, modulo `modulus`, as GNU Radio's `diff_encoder_bb`.
#[derive(Debug, Drop, PartialEq, Eq)]
pub struct DiffEncoder {
    modulus: Modulus,
}

impl DiffEncoder {
    ghost use Rattle.bit_blocks.specs.Kinds.{diff_encoder_of};

    /// The block with this modulus; `BadParameter` outside 2 to 256.
    pub fn new(modulus: u32) -> Result<DiffEncoder, ParamFault>
        ensures meaning { IfOk result (λ block. diff_encoder_of block ≡ diff_encoder modulus) }
        ensures range { IsOk result ↔ ((2 ≤ modulus) × (modulus ≤ 256)) }
        ensures err { IfErr result (λ fault. fault ≡ ParamFault.BadParameter Parameter.Modulus) }
    {
        Ok(DiffEncoder {
            modulus: Modulus::new(modulus)?,
        })
    }
}

// The code of the sums by a modulus.
impl Coder for Modulus {
    ghost use Rattle.std.specs.Prelude.{◌<◌};
    ghost use Rattle.bit_blocks.specs.Codes.{summed};

    ghost is_word = { λ b word. word < b.value };

    ghost gives = { λ b. summed b.value };

    ghost next = { λ b. summed b.value };

    // The byte is divided, which waits for no other step, and not the sum.
    fn step(self, word: u64, byte: u8) -> (u8, u64) {
        let modulus = u64::from(self.value);
        let sum = word + u64::from(u32::from(byte) % self.value);
        let sum = if sum < modulus { sum } else { sum - modulus };
        (sum as u8, sum)
    }
}

// Writes the sums of the items, from a sum on, into an empty `out` with room for it, and answers the last sum. Where
// the compiler knows the modulus, it needs no division.
fn sum_items(modulus: Modulus, state: u64, items: &Items, out: &mut Items) -> u64
    requires word { state < modulus.value }
    requires can { CanCode items.now out.old }
    ensures coded { HasCoded (summed modulus.value) (summed modulus.value) state items.now out.new result }
    ensures room { spare_of out.old ≤ spare_of out.new + length (numbers_of out.new) }
{
    match modulus.value {
        2 => code(Modulus { value: 2 }, state, items, out),
        4 => code(Modulus { value: 4 }, state, items, out),
        8 => code(Modulus { value: 8 }, state, items, out),
        16 => code(Modulus { value: 16 }, state, items, out),
        256 => code(Modulus { value: 256 }, state, items, out),
        _ => code(modulus, state, items, out),
    }
}

impl Single for DiffEncoder {
    ghost use Rattle.std.specs.Prelude.{refl};
    ghost use Rattle.bit_blocks.specs.Kinds.{diff_encoder_of};

    ghost equation = { diff_encoder_of };

    fn fill(&self, batch: &Batch<'_>, out: &mut Items) -> u64 {
        sum_items(self.modulus, batch.state, batch.window, out)
    }

    ghost single = { λ b. record { in_least = refl; in_most = refl; out_least = refl; out_most = refl } };
}

impl Block for DiffEncoder {
    ghost use Rattle.std.proofs.Common.{ap};
    ghost use Rattle.kind_model.specs.Bits.{diff_encoder};
    ghost use Rattle.kind_laws.specs.Bits.{diff_encoder-lawful};
    ghost use Rattle.block_trait.specs.SameItem.{same_number};
    ghost use Rattle.bit_blocks.specs.Kinds.{diff_encoder_of, some_modulus};

    ghost meaning = { diff_encoder_of };

    type Places = ByPace;

    fn shape(&self, _input: usize) -> Shape<'_> {
        Shape::sync(ItemType::Byte, ItemType::Byte)
    }

    fn work(
        &self,
        state: u64,
        first: u64,
        count: u64,
        windows: &[Items],
        held: &[Held],
        out: &mut [Items],
    ) -> u64 {
        work_single(self, state, first, count, windows, held, out)
    }

    ghost lawful = { λ b. diff_encoder-lawful b.modulus.value (some_modulus b.modulus) b.modulus.few };

    ghost same = { λ a b e. ap diff_encoder (same_number a.modulus.value b.modulus.value e) };
}
