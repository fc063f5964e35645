//! The block that gives a number for each byte.
ghost use Rattle.std.specs.Prelude.{◌≡◌, ◌≤◌, ◌+◌, ◌-◌, ◌↔◌, ◌⊎◌, [], pos, min, length, map, vec_len, vec_capacity, slice_index_or, IsOk, IfOk, IfErr, IsErrOf, OnOk};
ghost use Rattle.stream_model.specs.Numbers.{AreItems};
ghost use Rattle.stream_model.specs.declared.vocabulary.ItemType.TheVariants as types;
ghost use Rattle.stream_model.specs.Lists.{item, listed};
ghost use Rattle.kind_model.specs.Math.{number_for, table};
ghost use Rattle.items.specs.Items.{type_of, numbers_of, spare_of};

use block_parameters::{ParamFault, Parameter};
use block_trait::{Batch, Block, ByPace, Held, Shape, Single, work_single};
use items::{ItemFault, ItemType, Items};
use lane_kernels::SimdLane;
use numbers::Number;
use numbers::vectors::append_copies;
use std::alloc::Global;

/// For each byte the number at its place of a list of up to 256, and the last of them for a byte behind their end. As
/// GNU Radio's `chunks_to_symbols` of one dimension, which reads outside its list there.
#[derive(Debug, Drop, PartialEq, Eq)]
pub struct Table {
    values: Items,
    ghost some: { 1 ≤ length (numbers_of values) },
    ghost in_range: { AreItems (type_of values) (numbers_of values) },
}

impl Table {
    ghost use Rattle.math_blocks.specs.Kinds.{AreValues, table_of};

    /// The block with a copy of these numbers. `BadParameter` where there is none, where there are more than 256, or
    /// where one lies outside the range of `to`, before any memory is asked for; `Memory` only where the allocator
    /// refuses the copy.
    pub fn new(alloc: Global, to: ItemType, values: &[i64]) -> Result<Table, ParamFault>
        ensures meaning { IfOk result (λ block. table_of block ≡ table to values.now) }
        ensures range { OnOk result (AreValues to values.now) }
        ensures bad { IsErrOf result (ParamFault.BadParameter Parameter.Values) ↔ (¬ AreValues to values.now) }
        ensures memory { IsErrOf result ParamFault.Memory → AreValues to values.now }
        ensures err { IfErr result (λ fault. (fault ≡ ParamFault.BadParameter Parameter.Values)
            ⊎ (fault ≡ ParamFault.Memory)) }
    {
        if values.is_empty() || values.len() > 256 {
            return Err(ParamFault::BadParameter(Parameter::Values));
        }
        match Items::from_numbers(alloc, to, values) {
            Ok(values) => {
                values.in_range();
                Ok(Table { values })
            }
            Err(ItemFault::ItemRange) => Err(ParamFault::BadParameter(Parameter::Values)),
            Err(ItemFault::Memory) => Err(ParamFault::Memory),
        }
    }
}

// The number for a byte.
fn number_of<T: Number>(values: &[T], byte: u8) -> T
    requires { 1 ≤ length values.now }
    ensures { T.number result ≡ number_for (map T.number values.now) (pos byte) }
{
    values[(byte as usize).min(values.len() - 1)]
}

// Writes for each byte its number over `out`. The numbers are passed as a slice, so that no write can change where they
// are.
fn write_numbers<T: Number>(values: &[T], items: &[u8], out: &mut [T])
    requires some { 1 ≤ length values.now }
    requires same_length { length out.old ≡ length items.now }
    ensures { map T.number out.new ≡ listed (length out.old) (λ k. number_for (map T.number values.now)
        (item (map pos items.now) k)) }
{
    for k in 0..out.len() {
        out[k] = number_of(values, items[k]);
    }
}

// Writes for each byte its number into an empty `out` with room for them.
fn append_numbers<T: Number>(values: &[T], items: &[u8], out: &mut Vec<T>)
    requires some { 1 ≤ length (map T.number values.now) }
    requires empty { map T.number out.old.items ≡ [] }
    requires room { length items.now ≤ vec_capacity out.old - vec_len out.old }
    ensures items { map T.number out.new.items
        ≡ listed (length items.now) (λ k. number_for (map T.number values.now) (item (map pos items.now) k)) }
    ensures capacity { vec_capacity out.old ≤ vec_capacity out.new }
{
    append_copies(out, items.len(), T::narrow(0));
    write_numbers(values, items, out);
}

// Gives for each byte its number, at the type of the numbers.
fn give_numbers(values: &Items, items: &Items, out: &mut Items)
    requires some { 1 ≤ length (numbers_of values.now) }
    requires bytes { type_of items.now ≡ types.Byte }
    requires same_type { type_of values.now ≡ type_of out.old }
    requires empty { numbers_of out.old ≡ [] }
    requires room { length (numbers_of items.now) ≤ spare_of out.old }
    ensures item_type { type_of out.new ≡ type_of out.old }
    ensures numbers { numbers_of out.new
        ≡ listed (length (numbers_of items.now)) (λ k. number_for (numbers_of values.now)
        (item (numbers_of items.now) k)) }
    ensures room { spare_of out.old ≤ spare_of out.new + length (numbers_of out.new) }
{
    match (values, items, out) {
        (Items::Byte(values), Items::Byte(items), Items::Byte(out)) => append_numbers(
            values, items, out,
        ),
        (Items::Short(values), Items::Byte(items), Items::Short(out)) => append_numbers(
            values, items, out,
        ),
        (Items::Int(values), Items::Byte(items), Items::Int(out)) => append_numbers(
            values, items, out,
        ),
        _ => unreachable!(),
    }
}

impl Single for Table {
    ghost use Rattle.std.specs.Prelude.{refl};
    ghost use Rattle.math_blocks.specs.Kinds.{table_of};

    ghost equation = { table_of };

    fn fill(&self, batch: &Batch<'_>, out: &mut Items) -> u64 {
        give_numbers(&self.values, batch.window, out);
        0
    }

    ghost single = { λ b. record { in_least = refl; in_most = refl; out_least = refl; out_most = refl } };
}

impl Block for Table {
    ghost use Rattle.math_blocks.specs.Kinds.{table_of, table_of-lawful, table-same};

    ghost meaning = { table_of };

    type Places = ByPace;

    fn shape(&self, _input: usize) -> Shape<'_> {
        Shape::sync(ItemType::Byte, self.values.item_type())
    }

    fn work(
        &self,
        state: u64,
        first: u64,
        count: u64,
        windows: &[Items],
        held: &[Held],
        out: &mut [Items],
    ) -> u64 {
        work_single(self, state, first, count, windows, held, out)
    }

    ghost lawful = { table_of-lawful };

    ghost same = { table-same };
}
