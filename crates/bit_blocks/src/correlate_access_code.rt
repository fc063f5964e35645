//! The block that marks what follows an access code.
ghost use Rattle.std.specs.Prelude.{◌≡◌, ◌≤◌, ◌<◌, ◌^◌, ◌↔◌, IsTrue, IsOk, IfOk, IsErrOf};
ghost use Rattle.kind_model.specs.BitStreams.{correlate_access_code};

use crate::code_search::CodeSearch;
use block_parameters::{ParamFault, Parameter};
use block_trait::{Batch, Block, ByPace, Held, Shape, Single, work_single};
use item_dispatch::make_bytes;
use items::{ItemType, Items};

/// Delays bits by 64 items and sets bit 1 of the first item behind each access code. Bit 0 of an output is the lowest
/// bit of the item 64 before it, 0 where there is none. Bit 1 is set where the items before that one, as many as the
/// code has bits, differ from the code in at most `threshold` bits; items before the first are zeros, but no output at
/// fewer items than the code has bits is marked. The highest bit of the code is the one that comes first.
///
/// As GNU Radio's `correlate_access_code_bb`, whose code is text, and which takes any threshold.
#[derive(Debug, Drop, PartialEq, Eq)]
pub struct CorrelateAccessCode {
    code: u64,
    length: u32,
    threshold: u32,
    ghost some: { 1 ≤ length },
    ghost few: { length ≤ 64 },
}

// Whether a number has so many bits.
fn is_code(code: u64, length: u32) -> bool
    ensures { IsTrue result ↔ ((1 ≤ length) × (length ≤ 64) × (code < 2 ^ length)) }
{
    match length {
        0 => false,
        1..=63 => code < 1 << length,
        _ => length == 64,
    }
}

impl CorrelateAccessCode {
    ghost use Rattle.bit_blocks.specs.Kinds.{correlate_access_code_of};

    /// The block for the code of 1 to 64 bits, a number below `2 ^ length`, and a threshold of at most that length.
    /// `BadParameter` names the code or, where that is right, the threshold.
    pub fn new(code: u64, length: u32, threshold: u32) -> Result<CorrelateAccessCode, ParamFault>
        ensures meaning { IfOk result (λ block. correlate_access_code_of block
            ≡ correlate_access_code code length threshold) }
        ensures range { IsOk result ↔ ((1 ≤ length) × (length ≤ 64) × (code < 2 ^ length) × (threshold ≤ length)) }
        ensures bad_code { IsErrOf result (ParamFault.BadParameter Parameter.Code)
            ↔ (¬ ((1 ≤ length) × (length ≤ 64) × (code < 2 ^ length))) }
        ensures bad_threshold { IsErrOf result (ParamFault.BadParameter Parameter.Threshold)
            ↔ ((1 ≤ length) × (length ≤ 64) × (code < 2 ^ length) × (length < threshold)) }
    {
        if !is_code(code, length) {
            return Err(ParamFault::BadParameter(Parameter::Code));
        }
        if length < threshold {
            return Err(ParamFault::BadParameter(Parameter::Threshold));
        }
        Ok(CorrelateAccessCode {
            code,
            length,
            threshold,
        })
    }
}

impl Single for CorrelateAccessCode {
    ghost use Rattle.std.specs.Prelude.{refl};
    ghost use Rattle.bit_blocks.specs.Kinds.{correlate_access_code_of};

    ghost equation = { correlate_access_code_of };

    fn fill(&self, batch: &Batch<'_>, out: &mut Items) -> u64 {
        let search = CodeSearch {
            code: self.code,
            length: self.length,
            threshold: self.threshold,
            first: batch.first,
        };
        make_bytes(&search, batch.window, batch.count as usize, out);
        0
    }

    ghost single = { λ b. record { in_least = refl; in_most = refl; out_least = refl; out_most = refl } };
}

impl Block for CorrelateAccessCode {
    ghost use Rattle.kind_laws.specs.BitStreams.{correlate_access_code-lawful};
    ghost use Rattle.bit_blocks.specs.Kinds.{correlate_access_code_of, correlate_access_code-same};

    ghost meaning = { correlate_access_code_of };

    type Places = ByPace;

    fn shape(&self, _input: usize) -> Shape<'_> {
        Shape {
            history: 65 + self.length,
            ..Shape::sync(ItemType::Byte, ItemType::Byte)
        }
    }

    fn work(
        &self,
        state: u64,
        first: u64,
        count: u64,
        windows: &[Items],
        held: &[Held],
        out: &mut [Items],
    ) -> u64 {
        work_single(self, state, first, count, windows, held, out)
    }

    ghost lawful = { λ b. correlate_access_code-lawful b.code b.length b.threshold };

    ghost same = { correlate_access_code-same };
}
