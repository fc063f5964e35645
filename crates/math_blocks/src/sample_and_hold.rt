//! The block that holds an item until it takes the next.
ghost use Rattle.std.specs.Prelude.{◌≡◌, ◌<◌, ◌≤◌, ◌^◌, ◌+◌, ◌-◌, suc, pos, [], length, map, vec_len, vec_capacity, if◌then◌else◌};
ghost use Rattle.std.specs.Ordering.{int_eq};
ghost use Rattle.stream_model.specs.Lists.{listed};
ghost use Rattle.stream_model.specs.Numbers.{wrap};
ghost use Rattle.kind_model.specs.Kernels.{bits_in};
ghost use Rattle.kind_model.specs.Math.{sample_and_hold};
ghost use Rattle.items.specs.Items.{type_of, numbers_of, spare_of};
ghost use Rattle.math_blocks.specs.Holding.{held_from};

use block_trait::{Block, ByPace, Held, Shape, ports};
use items::{ItemType, Items};
use numbers::Number;

/// The item of its first input from where the second has another number than 0, until the next such place, and 0 before
/// the first one. As GNU Radio's `sample_and_hold`, whose second input has bytes: `convert` makes items of the type of
/// them.
#[derive(Debug, Drop, PartialEq, Eq)]
pub struct SampleAndHold {
    item: ItemType,
}

impl SampleAndHold {
    /// The block for items of this type.
    pub fn new(item: ItemType) -> SampleAndHold
        ensures { sample_and_hold result.item ≡ sample_and_hold item }
    {
        SampleAndHold { item }
    }
}

// The bits of a number of the type, as one that is not below 0.
fn bits_of(item: ItemType, number: i64) -> u64
    ensures { result ≡ bits_in item number }
{
    match item {
        ItemType::Byte => number.rem_euclid(256) as u64,
        ItemType::Short => number.rem_euclid(65_536) as u64,
        ItemType::Int => number.rem_euclid(4_294_967_296) as u64,
    }
}

// What is held behind an item, where another was held before it.
#[inline(always)]
fn held_behind<T: Number>(held: T, item: T, control: T) -> T
    ensures { T.number result ≡ (if int_eq (T.number control) (pos 0) then T.number held else T.number item) }
{
    if control.widen() == 0 { held } else { item }
}

// Appends what is held behind each item to an empty `out` with room for it, and answers what is held last.
fn hold<T: Number>(held: T, items: &[T], control: &[T], out: &mut Vec<T>) -> T
    requires same_length { length items.now ≡ length control.now }
    requires empty { map T.number out.old.items ≡ [] }
    requires room { length items.now ≤ vec_capacity out.old - vec_len out.old }
    ensures items { map T.number out.new.items ≡ listed (length items.now)
        (λ k. held_from (T.number held) (map T.number items.now) (map T.number control.now) (suc k)) }
    ensures last { T.number result ≡ held_from (T.number held) (map T.number items.now) (map T.number control.now)
        (length items.now) }
    ensures len { vec_len out.new ≡ length items.now }
    ensures capacity { vec_capacity out.new ≡ vec_capacity out.old }
{
    let mut last = held;
    for k in 0..items.len() {
        last = held_behind(last, items[k], control[k]);
        out.push_reserved(last);
    }
    last
}

// The same, where the bits of what is held are given; the last is answered as a number.
fn hold_bits<T: Number>(bits: u64, items: &[T], control: &[T], out: &mut Vec<T>) -> i64
    requires bits { bits < 2 ^ 32 }
    requires same_length { length (map T.number items.now) ≡ length (map T.number control.now) }
    requires empty { map T.number out.old.items ≡ [] }
    requires room { length (map T.number items.now) ≤ vec_capacity out.old - vec_len out.old }
    ensures items { map T.number out.new.items ≡ listed (length (map T.number items.now))
        (λ k. held_from (wrap T.kind (pos bits)) (map T.number items.now) (map T.number control.now) (suc k)) }
    ensures last { result ≡ held_from (wrap T.kind (pos bits)) (map T.number items.now) (map T.number control.now)
        (length (map T.number items.now)) }
    ensures len { vec_len out.new ≡ length (map T.number items.now) }
    ensures capacity { vec_capacity out.new ≡ vec_capacity out.old }
{
    hold(T::wrap(bits as i64), items, control, out).widen()
}

// The same of items of any type.
fn hold_items(bits: u64, items: &Items, control: &Items, out: &mut Items) -> i64
    requires bits { bits < 2 ^ 32 }
    requires items_type { type_of items.now ≡ type_of out.old }
    requires control_type { type_of control.now ≡ type_of out.old }
    requires same_length { length (numbers_of items.now) ≡ length (numbers_of control.now) }
    requires empty { numbers_of out.old ≡ [] }
    requires room { length (numbers_of items.now) ≤ spare_of out.old }
    ensures item_type { type_of out.new ≡ type_of out.old }
    ensures numbers { numbers_of out.new ≡ listed (length (numbers_of items.now))
        (λ k. held_from (wrap (type_of out.old) (pos bits)) (numbers_of items.now) (numbers_of control.now) (suc k)) }
    ensures last { result ≡ held_from (wrap (type_of out.old) (pos bits)) (numbers_of items.now)
        (numbers_of control.now) (length (numbers_of items.now)) }
    ensures room { spare_of out.old ≤ spare_of out.new + length (numbers_of out.new) }
{
    match (items, control, out) {
        (Items::Byte(items), Items::Byte(control), Items::Byte(out)) => hold_bits(
            bits, items, control, out,
        ),
        (Items::Short(items), Items::Short(control), Items::Short(out)) => hold_bits(
            bits, items, control, out,
        ),
        (Items::Int(items), Items::Int(control), Items::Int(out)) => hold_bits(
            bits, items, control, out,
        ),
        _ => unreachable!(),
    }
}

impl Block for SampleAndHold {
    ghost use Rattle.std.proofs.Common.{ap};
    ghost use Rattle.block_trait.specs.SameItem.{same_item};
    ghost use Rattle.kind_model.specs.Math.{sample_and_hold};
    ghost use Rattle.kind_laws.specs.Math.{sample_and_hold-lawful};

    ghost meaning = { λ b. sample_and_hold b.item };

    type Places = ByPace;

    fn shape(&self, _input: usize) -> Shape<'_> {
        Shape::at_rate(ports(2, self.item), ports(1, self.item), 1, 1)
    }

    fn work(
        &self,
        state: u64,
        _first: u64,
        _count: u64,
        windows: &[Items],
        _held: &[Held],
        out: &mut [Items],
    ) -> u64 {
        let items = &windows[0];
        items.in_range();
        let last = hold_items(state, items, &windows[1], &mut out[0]);
        bits_of(self.item, last)
    }

    ghost lawful = { λ b. sample_and_hold-lawful b.item };

    ghost same = { λ a b e. ap sample_and_hold (same_item a.item b.item e) };
}
