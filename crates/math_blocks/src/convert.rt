//! The block that gives items another type.
ghost use Rattle.std.specs.Prelude.{◌≡◌, ◌≤◌, ◌+◌, ◌-◌, [], map, length, vec_len, vec_capacity};
ghost use Rattle.kind_model.specs.Math.{convert};
ghost use Rattle.kind_model.specs.Kernels as kernels;
ghost use Rattle.items.specs.Items.{type_of, numbers_of, spare_of};

use block_trait::{Batch, Block, ByPace, Held, Shape, Single, work_single};
use items::{ItemType, Items};
use lane_kernels::{NarrowsTo, SimdLane, WidensTo, narrow, widen};
use numbers::Number;
use numbers::vectors::append_copies;

/// Each item as the item of another type with the same lowest bits; a number that the other type can hold stays what it
/// is. As GNU Radio's `char_to_short` and its kin, without their scaling.
#[derive(Debug, Drop, PartialEq, Eq)]
pub struct Convert {
    item: ItemType,
    to: ItemType,
}

impl Convert {
    ghost use Rattle.math_blocks.specs.Kinds.{convert_of};

    /// The block from the type `item` to the type `to`.
    pub fn new(item: ItemType, to: ItemType) -> Convert
        ensures { convert_of result ≡ convert item to }
    {
        Convert { item, to }
    }
}

fn widen_lanes<T: WidensTo<U>, U: SimdLane>(items: &[T], out: &mut Vec<U>)
    requires empty { map U.number out.old.items ≡ [] }
    requires room { length items.now ≤ vec_capacity out.old - vec_len out.old }
    ensures items { map U.number out.new.items ≡ kernels.convert U.kind (map T.number items.now) }
    ensures capacity { vec_capacity out.old ≤ vec_capacity out.new }
{
    append_copies(out, items.len(), U::narrow(0));
    widen(items, out);
}

fn narrow_lanes<T: NarrowsTo<U>, U: SimdLane>(items: &[T], out: &mut Vec<U>)
    requires empty { map U.number out.old.items ≡ [] }
    requires room { length items.now ≤ vec_capacity out.old - vec_len out.old }
    ensures items { map U.number out.new.items ≡ kernels.convert U.kind (map T.number items.now) }
    ensures capacity { vec_capacity out.old ≤ vec_capacity out.new }
{
    append_copies(out, items.len(), U::narrow(0));
    narrow(items, out);
}

// Writes the items as those of the type of the empty `out`, which has room for them.
fn convert_items(items: &Items, out: &mut Items)
    requires empty { numbers_of out.old ≡ [] }
    requires room { length (numbers_of items.now) ≤ spare_of out.old }
    ensures item_type { type_of out.new ≡ type_of out.old }
    ensures numbers { numbers_of out.new ≡ kernels.convert (type_of out.old) (numbers_of items.now) }
    ensures room { spare_of out.old ≤ spare_of out.new + length (numbers_of out.new) }
{
    if items.item_type() == out.item_type() {
        items.in_range();
        out.push_slice(items);
        return;
    }
    match (items, out) {
        (Items::Byte(items), Items::Short(out)) => widen_lanes(items, out),
        (Items::Byte(items), Items::Int(out)) => widen_lanes(items, out),
        (Items::Short(items), Items::Int(out)) => widen_lanes(items, out),
        (Items::Short(items), Items::Byte(out)) => narrow_lanes(items, out),
        (Items::Int(items), Items::Byte(out)) => narrow_lanes(items, out),
        (Items::Int(items), Items::Short(out)) => narrow_lanes(items, out),
        _ => unreachable!(),
    }
}

impl Single for Convert {
    ghost use Rattle.std.specs.Prelude.{refl};
    ghost use Rattle.math_blocks.specs.Kinds.{convert_of};

    ghost equation = { convert_of };

    fn fill(&self, batch: &Batch<'_>, out: &mut Items) -> u64 {
        convert_items(batch.window, out);
        0
    }

    ghost single = { λ b. record { in_least = refl; in_most = refl; out_least = refl; out_most = refl } };
}

impl Block for Convert {
    ghost use Rattle.kind_laws.specs.Math.{convert-lawful};
    ghost use Rattle.math_blocks.specs.Kinds.{convert_of, convert-same};

    ghost meaning = { convert_of };

    type Places = ByPace;

    fn shape(&self, _input: usize) -> Shape<'_> {
        Shape::sync(self.item, self.to)
    }

    fn work(
        &self,
        state: u64,
        first: u64,
        count: u64,
        windows: &[Items],
        held: &[Held],
        out: &mut [Items],
    ) -> u64 {
        work_single(self, state, first, count, windows, held, out)
    }

    ghost lawful = { λ b. convert-lawful b.item b.to };

    ghost same = { convert-same };
}
