//! The block that tells whether the checksum behind each frame is its own.
ghost use Rattle.std.specs.Prelude.{◌≡◌, ◌+◌, ◌*◌, length, map, pos, IfOk, IfErr, OnOk};
ghost use Rattle.stream_model.specs.Lists.{listed};
ghost use Rattle.kind_model.specs.Codes.{IsChecksum, bytes_of, crc_check, is_checked};
ghost use Rattle.code_blocks.specs.Faults.{IsRefusal};

use crate::crc::Crc;
use block_parameters::ParamFault;
use block_trait::{Batch, Block, ByPace, Held, Shape, Single, ports, work_single};
use item_dispatch::{ByteWork, make_bytes};
use items::{ItemType, Items};
use kind_model::Checksum;
use std::alloc::Global;

/// 1 for each frame of so many bytes with its checksum behind it, and 0 for each with other bytes there. GNU Radio's
/// `crc_check` of messages and `crc32_bb` of tagged streams drop such a frame, and give the others without their
/// checksums: `keep_m_in_n` gives all frames so.
#[derive(Debug, Drop, PartialEq, Eq)]
pub struct CrcCheck {
    crc: Crc,
}

impl CrcCheck {
    ghost use Rattle.code_blocks.specs.Kinds.{crc_check_of};

    /// The block for frames of 1 to 1,020 bytes, behind which the bytes of a checksum come. `BadParameter` names the
    /// first parameter that is outside its range, as [`Crc::new`] has it; `Memory` comes only where the allocator
    /// refuses a table of 256 words.
    pub fn new(alloc: Global, length: u64, rule: Checksum) -> Result<CrcCheck, ParamFault>
        ensures meaning { IfOk result (λ block. crc_check_of block ≡ crc_check length rule) }
        ensures range { OnOk result (IsChecksum rule length) }
        ensures fault { IfErr result (IsRefusal length rule) }
    {
        Ok(CrcCheck {
            crc: Crc::new(alloc, length, rule)?,
        })
    }
}

impl ByteWork for CrcCheck {
    ghost can_make = { λ b xs count. length xs ≡ (b.crc.length + bytes_of b.crc.rule) * count };

    ghost makes = { λ b xs count. listed count (λ k. pos (is_checked b.crc.rule b.crc.length xs (k * (b.crc.length + bytes_of b.crc.rule)))) };

    fn make(&self, items: &[u8], out: &mut [u8]) {
        let m = (self.crc.length() + self.crc.bytes()) as usize;
        for k in 0..out.len() {
            let from = k * m;
            out[k] = u8::from(self.crc.is_right(&items[from..from + m]));
        }
    }
}

impl Single for CrcCheck {
    ghost use Rattle.std.specs.Prelude.{refl};
    ghost use Rattle.code_blocks.specs.Kinds.{crc_check_of};

    ghost equation = { crc_check_of };

    fn fill(&self, batch: &Batch<'_>, out: &mut Items) -> u64 {
        make_bytes(self, batch.window, batch.count as usize, out);
        0
    }

    ghost single = { λ b. record { in_least = refl; in_most = refl; out_least = refl; out_most = refl } };
}

impl Block for CrcCheck {
    ghost use Rattle.code_blocks.specs.Kinds.{crc_check_of, crc_check_of-lawful, crc_check_of-same};

    ghost meaning = { crc_check_of };

    type Places = ByPace;

    fn shape(&self, _input: usize) -> Shape<'_> {
        let bytes = ports(1, ItemType::Byte);
        Shape::at_rate(bytes, bytes, self.crc.length() + self.crc.bytes(), 1)
    }

    fn work(
        &self,
        state: u64,
        first: u64,
        count: u64,
        windows: &[Items],
        held: &[Held],
        out: &mut [Items],
    ) -> u64 {
        work_single(self, state, first, count, windows, held, out)
    }

    ghost lawful = { crc_check_of-lawful };

    ghost same = { crc_check_of-same };
}
