//! The block that puts a checksum behind each frame.
ghost use Rattle.std.specs.Prelude.{◌≡◌, ◌+◌, ◌*◌, ◌/◌, ◌%◌, length, map, pos, IfOk, IfErr, OnOk};
ghost use Rattle.stream_model.specs.Lists.{listed};
ghost use Rattle.kind_model.specs.Codes.{IsChecksum, bytes_of, crc_append, with_checksum};
ghost use Rattle.code_blocks.specs.Faults.{IsRefusal};

use crate::crc::Crc;
use block_parameters::ParamFault;
use block_trait::{Batch, Block, ByPace, Held, Shape, Single, ports, work_single};
use item_dispatch::{ByteWork, make_bytes};
use items::{ItemType, Items};
use kind_model::Checksum;
use std::alloc::Global;

/// Each frame of so many bytes, and then its checksum: the highest byte first where bits come highest first, else the
/// lowest. As GNU Radio's `crc_append` of messages and `crc32_bb` of tagged streams, whose frames may have any lengths.
#[derive(Debug, Drop, PartialEq, Eq)]
pub struct CrcAppend {
    crc: Crc,
}

impl CrcAppend {
    ghost use Rattle.code_blocks.specs.Kinds.{crc_append_of};

    /// The block for frames of 1 to 1,020 bytes. `BadParameter` names the first parameter that is outside its range, as
    /// [`Crc::new`] has it; `Memory` comes only where the allocator refuses a table of 256 words.
    pub fn new(alloc: Global, length: u64, rule: Checksum) -> Result<CrcAppend, ParamFault>
        ensures meaning { IfOk result (λ block. crc_append_of block ≡ crc_append length rule) }
        ensures range { OnOk result (IsChecksum rule length) }
        ensures fault { IfErr result (IsRefusal length rule) }
    {
        Ok(CrcAppend {
            crc: Crc::new(alloc, length, rule)?,
        })
    }
}

// Some frames that get their checksums.
#[derive(Drop)]
struct Frames<'a> {
    crc: &'a Crc,
    count: usize,
}

impl<'a> ByteWork for Frames<'a> {
    ghost can_make = { λ b xs count. (length xs ≡ b.crc.now.length * b.count) × (count ≡ (b.crc.now.length + bytes_of b.crc.now.rule) * b.count) };

    ghost makes = { λ b xs count. listed count (λ k. with_checksum b.crc.now.rule b.crc.now.length xs
        (k / (b.crc.now.length + bytes_of b.crc.now.rule) * b.crc.now.length)
        (k % (b.crc.now.length + bytes_of b.crc.now.rule))) };

    fn make(&self, items: &[u8], out: &mut [u8]) {
        let n = self.crc.length() as usize;
        let m = n + self.crc.bytes() as usize;
        for k in 0..self.count {
            let from = k * n;
            self.crc.append(&items[from..from + n], out, k * m);
        }
    }
}

impl Single for CrcAppend {
    ghost use Rattle.std.specs.Prelude.{refl};
    ghost use Rattle.code_blocks.specs.Kinds.{crc_append_of};

    ghost equation = { crc_append_of };

    fn fill(&self, batch: &Batch<'_>, out: &mut Items) -> u64 {
        let frames = Frames {
            crc: &self.crc,
            count: batch.count as usize,
        };
        let given = (self.crc.length() + self.crc.bytes()) * batch.count;
        make_bytes(&frames, batch.window, given as usize, out);
        0
    }

    ghost single = { λ b. record { in_least = refl; in_most = refl; out_least = refl; out_most = refl } };
}

impl Block for CrcAppend {
    ghost use Rattle.code_blocks.specs.Kinds.{crc_append_of, crc_append_of-lawful, crc_append_of-same};

    ghost meaning = { crc_append_of };

    type Places = ByPace;

    fn shape(&self, _input: usize) -> Shape<'_> {
        let bytes = ports(1, ItemType::Byte);
        let n = self.crc.length();
        Shape::at_rate(bytes, bytes, n, n + self.crc.bytes())
    }

    fn work(
        &self,
        state: u64,
        first: u64,
        count: u64,
        windows: &[Items],
        held: &[Held],
        out: &mut [Items],
    ) -> u64 {
        work_single(self, state, first, count, windows, held, out)
    }

    ghost lawful = { crc_append_of-lawful };

    ghost same = { crc_append_of-same };
}
