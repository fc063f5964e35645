//! The block that gives a list again and again.
ghost use Rattle.std.specs.Prelude.{◌≡◌, ◌<◌, ◌≤◌, ◌+◌, ◌%◌, ◌⊎◌, ◌↔◌, suc, length, IfOk, IfErr, IsErrOf, OnOk};
ghost use Rattle.stream_model.specs.Numbers.{AreItems};
ghost use Rattle.stream_model.specs.Lists.{item, listed};
ghost use Rattle.kind_model.specs.Rates.{pattern};
ghost use Rattle.rate_blocks.specs.Inserts.{AreValues};

use crate::insert::are_values;
use block_parameters::{ParamFault, Parameter};
use block_trait::{Batch, Block, ByPace, Held, Shape, Single, work_single};
use item_dispatch::{LaneWork, make_items};
use items::{ItemType, Items};
use lane_kernels::SimdLane;
use numbers::vectors::copied;
use std::alloc::Global;

/// A list of 1 to 256 values again and again, an item for each item of the input, which is only its clock. GNU Radio
/// has no block like it; a `vector_source` that repeats stands for it there.
#[derive(Debug, Drop, PartialEq, Eq)]
pub struct Pattern {
    item: ItemType,
    values: Vec<i64>,
    ghost are: { AreValues item values.items },
}

impl Pattern {
    ghost use Rattle.rate_blocks.specs.Framed.{pattern_of};

    /// The block with a copy of 1 to 256 values of the type. `BadParameter` where they are not so, before any memory is
    /// asked for; `Memory` only where the allocator refuses the copy.
    pub fn new(alloc: Global, item: ItemType, values: &[i64]) -> Result<Pattern, ParamFault>
        ensures meaning { IfOk result (λ block. pattern_of block ≡ pattern item values.now) }
        ensures range { OnOk result (AreValues item values.now) }
        ensures bad { IsErrOf result (ParamFault.BadParameter Parameter.Values) ↔ (¬ AreValues item values.now) }
        ensures memory { IsErrOf result ParamFault.Memory → AreValues item values.now }
        ensures err { IfErr result (λ fault. (fault ≡ ParamFault.BadParameter Parameter.Values)
            ⊎ (fault ≡ ParamFault.Memory)) }
    {
        if !are_values(item, values) {
            return Err(ParamFault::BadParameter(Parameter::Values));
        }
        Ok(Pattern {
            item,
            values: copied(alloc, values)?,
        })
    }
}

/// The number after `count` modulo `n`.
#[inline(always)]
pub(crate) fn after(count: u64, n: u64) -> u64
    requires within { count < n }
    requires few { n ≤ 4294967296 }
    ensures { result ≡ suc count % n }
{
    let next = count + 1;
    if next == n { 0 } else { next }
}

// Some items of a pattern.
#[derive(Drop)]
struct Turns<'a> {
    values: &'a [i64],
    /// The number of the first item.
    first: u64,
}

impl<'a> LaneWork for Turns<'a> {
    ghost can_make = { λ b t xs count. AreValues t b.values.now };

    ghost makes = { λ b t xs count. listed count (λ k. item b.values.now ((b.first + k) % length b.values.now)) };

    fn make<T: SimdLane>(&self, _items: &[T], out: &mut [T]) {
        let count = self.values.len() as u64;
        let mut at = self.first % count;
        for k in 0..out.len() {
            out[k] = T::narrow(self.values[at as usize]);
            at = after(at, count);
        }
    }
}

impl Single for Pattern {
    ghost use Rattle.std.specs.Prelude.{refl};
    ghost use Rattle.rate_blocks.specs.Framed.{pattern_of};

    ghost equation = { pattern_of };

    fn fill(&self, batch: &Batch<'_>, out: &mut Items) -> u64 {
        let turns = Turns {
            values: &self.values,
            first: batch.first,
        };
        make_items(&turns, batch.window, batch.count as usize, out);
        0
    }

    ghost single = { λ b. record { in_least = refl; in_most = refl; out_least = refl; out_most = refl } };
}

impl Block for Pattern {
    ghost use Rattle.rate_blocks.specs.Framed.{pattern_of, pattern_of-lawful, pattern_of-same};

    ghost meaning = { pattern_of };

    type Places = ByPace;

    fn shape(&self, _input: usize) -> Shape<'_> {
        Shape::sync(self.item, self.item)
    }

    fn work(
        &self,
        state: u64,
        first: u64,
        count: u64,
        windows: &[Items],
        held: &[Held],
        out: &mut [Items],
    ) -> u64 {
        work_single(self, state, first, count, windows, held, out)
    }

    ghost lawful = { pattern_of-lawful };

    ghost same = { pattern_of-same };
}
