//! The block that scrambles bits: each output is the input with earlier outputs.

use crate::register_block::RegisterBlock;
use crate::scrambling::{Feed, Scrambling};

/// A multiplicative scrambler: each output is the input plus earlier outputs, modulo 2. Only the lowest bit of a byte
/// counts. GNU Radio's `scrambler_bb` gives the bits of its register first.
pub type Scrambler = RegisterBlock<OutputFeed>;

/// The register follows the outputs.
#[derive(Clone, Copy)]
pub struct OutputFeed;

impl Feed for OutputFeed {
    ghost use Rattle.std.specs.Prelude.{◌+◌, ◌%◌};

    ghost fed = { λ bit sum. (bit + sum) % 2 };

    fn fed(bit: u64, sum: u64) -> u64 {
        (bit + sum) % 2
    }
}

impl Scrambling for OutputFeed {
    ghost use Rattle.kind_model.specs.Bits.{scrambler};
    ghost use Rattle.kind_laws.specs.Bits.{scrambler-lawful};
    ghost use Rattle.bit_blocks.specs.Scrambled.{scrambler-coded};

    ghost equation = { scrambler };

    ghost coded = { scrambler-coded };

    ghost lawful = { scrambler-lawful };
}
