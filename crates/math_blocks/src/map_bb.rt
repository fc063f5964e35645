//! The block that looks bytes up in a table.
ghost use Rattle.std.specs.Prelude.{◌≡◌, ℤ, [], length, map, pos, IsOk, IfOk, IfErr, IsErrOf, OnOk, ◌↔◌, ◌⊎◌};
ghost use Rattle.stream_model.specs.Numbers.{AreItems};
ghost use Rattle.stream_model.specs.declared.vocabulary.ItemType.TheVariants as types;
ghost use Rattle.stream_model.specs.Lists.{item, listed};
ghost use Rattle.kind_model.specs.Math.{looked_up, map_bb};

use block_parameters::{ParamFault, Parameter};
use block_trait::{Batch, Block, ByPace, Held, Shape, Single, work_single};
use item_dispatch::{ByteWork, make_bytes};
use items::{ItemType, Items};
use numbers::vectors::narrowed;
use std::alloc::Global;

/// For each byte the table's number at it, and bytes past the table's end as they are; as GNU Radio's `map_bb`.
#[derive(Debug, Drop, PartialEq, Eq)]
pub struct MapBb {
    table: Vec<u8>,
    ghost bytes: { AreItems types.Byte (map pos table.items) },
}

impl MapBb {
    ghost use Rattle.math_blocks.specs.Kinds.{IsTable, map_bb_of};

    /// The block with a copy of this table. `BadParameter` where it has more than 256 numbers or one outside 0 to 255,
    /// before any memory is asked for; `Memory` only where the allocator refuses the copy.
    pub fn new(alloc: Global, table: &[i64]) -> Result<MapBb, ParamFault>
        ensures meaning { IfOk result (λ block. map_bb_of block ≡ map_bb table.now) }
        ensures range { OnOk result (IsTable table.now) }
        ensures bad { IsErrOf result (ParamFault.BadParameter Parameter.Map) ↔ (¬ IsTable table.now) }
        ensures nothing { table.now ≡ [] → IsOk result }
        ensures memory { IsErrOf result ParamFault.Memory → IsTable table.now }
        ensures err { IfErr result (λ fault. (fault ≡ ParamFault.BadParameter Parameter.Map)
            ⊎ (fault ≡ ParamFault.Memory)) }
    {
        if table.len() > 256 || !table.iter().all(|n| 0 <= *n && *n <= 255) {
            return Err(ParamFault::BadParameter(Parameter::Map));
        }
        Ok(MapBb {
            table: narrowed(alloc, table)?,
        })
    }
}

// A byte through a table, and one past the table's end as it is.
fn entry(table: &[u8], byte: u8) -> u8
    ensures { pos result ≡ looked_up (map pos table.now) (pos byte) }
{
    match table.get(byte as usize) {
        Some(to) => *to,
        None => byte,
    }
}

// A byte through a table that has all bytes.
fn entry_of_all(table: &[u8], byte: u8) -> u8
    requires { length table.now ≡ 256 }
    ensures { pos result ≡ looked_up (map pos table.now) (pos byte) }
{
    table[byte as usize]
}

// Each byte through a table. It is passed as a slice, so that no write can change where it is.
fn look_up(table: &[u8], items: &[u8], out: &mut [u8])
    requires { length out.old ≡ length items.now }
    ensures { map pos out.new ≡ listed (length out.old) (λ k. looked_up (map pos table.now)
        (item (map pos items.now) k)) }
{
    for k in 0..out.len() {
        out[k] = entry(table, items[k]);
    }
}

// Each byte through a table that has all bytes.
fn look_up_all(table: &[u8], items: &[u8], out: &mut [u8])
    requires whole { length table.now ≡ 256 }
    requires same_length { length out.old ≡ length items.now }
    ensures { map pos out.new ≡ listed (length out.old) (λ k. looked_up (map pos table.now)
        (item (map pos items.now) k)) }
{
    for k in 0..out.len() {
        out[k] = entry_of_all(table, items[k]);
    }
}

impl ByteWork for MapBb {
    ghost can_make = { λ b xs count. count ≡ length xs };

    ghost makes = { λ b xs count. listed count (λ k. looked_up (map pos b.table.items) (item xs k)) };

    fn make(&self, items: &[u8], out: &mut [u8]) {
        let table = self.table.as_slice();
        if table.len() == 256 {
            look_up_all(table, items, out);
        } else {
            look_up(table, items, out);
        }
    }
}

impl Single for MapBb {
    ghost use Rattle.std.specs.Prelude.{refl};
    ghost use Rattle.math_blocks.specs.Kinds.{map_bb_of};

    ghost equation = { map_bb_of };

    fn fill(&self, batch: &Batch<'_>, out: &mut Items) -> u64 {
        make_bytes(self, batch.window, batch.count as usize, out);
        0
    }

    ghost single = { λ b. record { in_least = refl; in_most = refl; out_least = refl; out_most = refl } };
}

impl Block for MapBb {
    ghost use Rattle.math_blocks.specs.Kinds.{map_bb_of, map_bb_of-lawful, map_bb-same};

    ghost meaning = { map_bb_of };

    type Places = ByPace;

    fn shape(&self, _input: usize) -> Shape<'_> {
        Shape::sync(ItemType::Byte, ItemType::Byte)
    }

    fn work(
        &self,
        state: u64,
        first: u64,
        count: u64,
        windows: &[Items],
        held: &[Held],
        out: &mut [Items],
    ) -> u64 {
        work_single(self, state, first, count, windows, held, out)
    }

    ghost lawful = { map_bb_of-lawful };

    ghost same = { map_bb-same };
}
