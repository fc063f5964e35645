//! The block that adds the bits of a shift register with feedback to its input.
ghost use Rattle.std.specs.Prelude.{◌≡◌};
ghost use Rattle.kind_model.specs.Bits.{additive_scrambler};
ghost use Rattle.bit_blocks.specs.Kinds.{register_block_of, scrambler_after};

use crate::jump::register_after;
use crate::register::Register;
use crate::register_block::RegisterBlock;
use crate::scrambling::{Feed, Scrambling};

/// An additive scrambler: each output is the input plus the next bit of a shift register with feedback, modulo 2. Only
/// the lowest bit of a byte counts. GNU Radio's `additive_scrambler_bb` has the bits of its register in front of this
/// sequence.
pub type AdditiveScrambler = RegisterBlock<OwnFeed>;

impl AdditiveScrambler {
    /// The block that goes on where this one stands after so many items: it begins with the register of then. The time
    /// that this takes grows with the digits of their number.
    pub fn after(self, items: u64) -> AdditiveScrambler
        ensures { register_block_of additive_scrambler result ≡ scrambler_after self items }
    {
        let init = register_after(&self.register, items);
        let Register { bits, mask, .. } = self.register;
        RegisterBlock::new(Register { bits, mask, init })
    }
}

/// The register follows its own sums.
#[derive(Clone, Copy)]
pub struct OwnFeed;

impl Feed for OwnFeed {
    ghost use Rattle.std.specs.Prelude.{◌%◌};

    ghost fed = { λ _ sum. sum % 2 };

    fn fed(_bit: u64, sum: u64) -> u64 {
        sum % 2
    }
}

impl Scrambling for OwnFeed {
    ghost use Rattle.kind_model.specs.Bits.{additive_scrambler};
    ghost use Rattle.kind_laws.specs.Bits.{additive_scrambler-lawful};
    ghost use Rattle.bit_blocks.specs.Scrambled.{additive_scrambler-coded};

    ghost equation = { additive_scrambler };

    ghost coded = { additive_scrambler-coded };

    ghost lawful = { additive_scrambler-lawful };
}
