//! The block that puts a list into a stream, again and again.
ghost use Rattle.std.specs.Prelude.{◌≡◌, ◌<◌, ◌≤◌, ◌+◌, ◌-◌, ◌*◌, length, map, IfOk, IfErr, IfSome, IsNone, OnOk, IsTrue, ◌↔◌};
ghost use Rattle.stream_model.specs.Numbers.{AreItems};
ghost use Rattle.kind_model.specs.Rates.{IsInsert, insert, inserted};
ghost use Rattle.rate_blocks.specs.Inserts.{AreValues, IsFirstBad, IsRefusal};

use block_parameters::{ParamFault, Parameter};
use block_trait::{Batch, Block, ByPace, Held, Shape, Single, ports, work_single};
use item_dispatch::{LaneWork, make_items};
use items::{ItemType, Items};
use lane_kernels::SimdLane;
use numbers::range::is_item;
use numbers::vectors::copied;
use std::alloc::Global;

/// The values once in each `period` items of the output, from item `offset` of these on, and the input in all other
/// places. GNU Radio's `vector_insert` has the values first in each period, and its `offset` says at which item of one
/// its output begins: it gives the same with `period` less the offset here, or 0 for 0. Its output may begin amid the
/// values, which then wrap around; here they lie whole in each period.
#[derive(Debug, Drop, PartialEq, Eq)]
pub struct Insert {
    item: ItemType,
    values: Vec<i64>,
    period: u64,
    offset: u64,
    ghost is: { IsInsert item values.items period offset },
}

/// Whether these may be put into a stream of the type.
pub(crate) fn are_values(item: ItemType, values: &[i64]) -> bool
    ensures { IsTrue result ↔ AreValues item values.now }
{
    1 <= values.len() && values.len() <= 256 && values.iter().all(|value| is_item(item, *value))
}

// The first parameter that no such block may have.
fn first_bad(item: ItemType, values: &[i64], period: u64, offset: u64) -> Option<Parameter>
    ensures bad { IfSome result (IsFirstBad item values.now period offset) }
    ensures good { IsNone result ↔ IsInsert item values.now period offset }
{
    if !are_values(item, values) {
        return Some(Parameter::Values);
    }
    let count = values.len() as u64;
    if period <= count || 1_024 < period {
        Some(Parameter::Period)
    } else if period - count < offset {
        Some(Parameter::Offset)
    } else {
        None
    }
}

impl Insert {
    ghost use Rattle.rate_blocks.specs.Framed.{insert_of};

    /// The block with a copy of 1 to 256 values of the type, a `period` above their number and up to 1,024, and an
    /// `offset` by which they end in the period. `BadParameter` names the first that is not so, in this order; `Memory`
    /// comes only where the allocator refuses the copy.
    pub fn new(
        alloc: Global,
        item: ItemType,
        values: &[i64],
        period: u64,
        offset: u64,
    ) -> Result<Insert, ParamFault>
        ensures meaning { IfOk result (λ block. insert_of block ≡ insert item values.now period offset) }
        ensures range { OnOk result (IsInsert item values.now period offset) }
        ensures fault { IfErr result (IsRefusal item values.now period offset) }
    {
        if let Some(parameter) = first_bad(item, values, period, offset) {
            return Err(ParamFault::BadParameter(parameter));
        }
        Ok(Insert {
            item,
            values: copied(alloc, values)?,
            period,
            offset,
        })
    }
}

// Some periods of a stream with values in them.
#[derive(Drop)]
struct Periods<'a> {
    values: &'a [i64],
    count: usize,
    /// How many items a period has.
    period: usize,
    /// How many items of a period come before the values.
    offset: usize,
}

// Writes the values as items.
fn write_values<T: SimdLane>(values: &[i64], out: &mut [T])
    requires items { AreItems T.kind values.now }
    requires same_length { length out.old ≡ length values.now }
    ensures { map T.number out.new ≡ values.now }
{
    for k in 0..values.len() {
        out[k] = T::narrow(values[k]);
    }
}

impl<'a> LaneWork for Periods<'a> {
    ghost use Rattle.std.specs.Prelude.{◌/◌, ◌%◌};
    ghost use Rattle.stream_model.specs.Lists.{listed};

    ghost can_make = { λ b t xs count. IsInsert t b.values.now b.period b.offset × (length xs ≡ (b.period - length b.values.now) * b.count) × (count ≡ b.period * b.count) };

    ghost makes = { λ b t xs count. listed count (λ k. inserted b.values.now b.offset xs (k / b.period * (b.period - length b.values.now)) (k % b.period)) };

    fn make<T: SimdLane>(&self, items: &[T], out: &mut [T]) {
        let values = self.values.len();
        let rest = self.period - values;
        for k in 0..self.count {
            let from = k * rest;
            let at = k * self.period;
            let begin = at + self.offset;
            out[at..begin].copy_from_slice(&items[from..from + self.offset]);
            write_values(self.values, &mut out[begin..begin + values]);
            out[begin + values..at + self.period].copy_from_slice(
                &items[from + self.offset..from + rest],
            );
        }
    }
}

impl Single for Insert {
    ghost use Rattle.std.specs.Prelude.{refl};
    ghost use Rattle.rate_blocks.specs.Framed.{insert_of};

    ghost equation = { insert_of };

    fn fill(&self, batch: &Batch<'_>, out: &mut Items) -> u64 {
        let periods = Periods {
            values: &self.values,
            count: batch.count as usize,
            period: self.period as usize,
            offset: self.offset as usize,
        };
        make_items(
            &periods,
            batch.window,
            (self.period * batch.count) as usize,
            out,
        );
        0
    }

    ghost single = { λ b. record { in_least = refl; in_most = refl; out_least = refl; out_most = refl } };
}

impl Block for Insert {
    ghost use Rattle.rate_blocks.specs.Framed.{insert_of, insert_of-lawful, insert_of-same};

    ghost meaning = { insert_of };

    type Places = ByPace;

    fn shape(&self, _input: usize) -> Shape<'_> {
        let taken = self.period - self.values.len() as u64;
        Shape::at_rate(ports(1, self.item), ports(1, self.item), taken, self.period)
    }

    fn work(
        &self,
        state: u64,
        first: u64,
        count: u64,
        windows: &[Items],
        held: &[Held],
        out: &mut [Items],
    ) -> u64 {
        work_single(self, state, first, count, windows, held, out)
    }

    ghost lawful = { insert_of-lawful };

    ghost same = { insert_of-same };
}
