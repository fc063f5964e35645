//! Stretches of items between two settings.
ghost use Rattle.std.specs.Prelude.{◌≡◌, ◌+◌, ◌-◌, ◌^◌, ◌<◌, ◌≤◌, ◌++◌, ℤ, [], length, map, drop, vec_len, vec_capacity};
ghost use Rattle.stream_model.specs.declared.vocabulary.ItemType.{ItemType};
ghost use Rattle.stream_model.specs.Lists.{item, listed};
ghost use Rattle.stream_model.specs.Shapes.{number_set};
ghost use Rattle.items.specs.Items.{type_of, numbers_of, spare_of};
ghost use Rattle.settings.specs.Values.{value_of, held_of};
ghost use Rattle.block_trait.specs.Fill.{CanFill, HasFilled};
ghost use Rattle.block_trait.specs.InForce.{AreOver};
ghost use Rattle.math_blocks.specs.Stretch.{IsBetween, SetBetween, each_of, number_among, end_before};

use block_trait::{Batch, Held, Value};
use items::Items;
use lane_kernels::SimdLane;

/// A block that makes each item of one item, by a number that may be set.
pub(crate) trait EachItem {
    /// The type of the items.
    ghost takes: { Self → ItemType };

    /// The least that the number may be.
    ghost low: { Self → ℤ };

    /// The greatest that the number may be.
    ghost high: { Self → ℤ };

    /// The number that is in force until a setting replaces it.
    ghost own: { Self → ℤ };

    /// What is made of an item, where the first number is in force.
    ghost gives: { Self → ℤ → ℤ → ℤ };

    /// Appends what is made of each item, where `number` is in force at all of them and the capacity has room.
    fn run<T: SimdLane>(&self, number: i64, items: &[T], out: &mut Vec<T>)
        requires same_type { takes self.now ≡ T.kind }
        requires in_range { IsBetween (low self.now) (high self.now) number }
        requires room { vec_len out.old + length items.now ≤ vec_capacity out.old }
        ensures items { map T.number out.new.items
            ≡ map T.number out.old.items ++ listed (length items.now) (λ k. gives self.now number
            (item (map T.number items.now) k)) }
        ensures len { vec_len out.new ≡ vec_len out.old + length items.now }
        ensures capacity { vec_capacity out.old ≤ vec_capacity out.new };

    /// The number of its own is in range.
    ghost in_range: { (b : Self) → IsBetween (low b) (high b) (own b) };
}

// The number that a value sets. Taps set none, which counts as 0.
fn number_in(value: &Value) -> i64
    ensures { result ≡ number_set (value_of value.now) }
{
    match value {
        Value::Number(number) => *number,
        Value::Taps(_) => 0,
    }
}

// Where the stretch of setting `i` ends.
fn end_of(held: &[Held], i: usize, to: u64) -> u64
    requires { i < length held.now }
    ensures { result ≡ end_before (drop (i + 1) (map held_of held.now)) to }
{
    match held.get(i + 1) {
        Some(next) => next.at,
        None => to,
    }
}

// Appends what the block makes of each item to an empty `out` with room for it: one run for each setting that is in
// force. The items are those of their stream from item `from` on.
fn run_stretches<T: SimdLane, B: EachItem>(
    block: &B,
    items: &[T],
    held: &[Held],
    from: u64,
    out: &mut Vec<T>,
)
    requires same_type { B.takes block.now ≡ T.kind }
    requires over { AreOver from (from + length items.now) (map held_of held.now) }
    requires in_range { SetBetween (B.low block.now) (B.high block.now) (map held_of held.now) }
    requires small { from + length items.now < 2 ^ 63 }
    requires empty { map T.number out.old.items ≡ [] }
    requires room { length items.now ≤ vec_capacity out.old - vec_len out.old }
    ensures items { map T.number out.new.items ≡ listed (length items.now)
        (λ k. B.gives block.now (number_among (map held_of held.now) (from + k)) (item (map T.number items.now) k)) }
    ensures capacity { vec_capacity out.old ≤ vec_capacity out.new }
{
    let to = from + items.len() as u64;
    let mut at = from;
    for (i, setting) in held.iter().enumerate() {
        let end = end_of(held, i, to);
        let number = number_in(&setting.value);
        let start = (at - from) as usize;
        let stop = (end - from) as usize;
        block.run(number, &items[start..stop], out);
        at = end;
    }
}

// Writes what the block makes of each item into an empty `out` with room for it. The items are those of their stream
// from item `from` on, and the settings those over them.
fn run_items<B: EachItem>(block: &B, items: &Items, held: &[Held], from: u64, out: &mut Items)
    requires kind { B.takes block.now ≡ type_of items.now }
    requires same_type { type_of items.now ≡ type_of out.old }
    requires over { AreOver from (from + length (numbers_of items.now)) (map held_of held.now) }
    requires in_range { SetBetween (B.low block.now) (B.high block.now) (map held_of held.now) }
    requires small { from + length (numbers_of items.now) < 2 ^ 63 }
    requires empty { numbers_of out.old ≡ [] }
    requires room { length (numbers_of items.now) ≤ spare_of out.old }
    ensures item_type { type_of out.new ≡ type_of out.old }
    ensures numbers { numbers_of out.new ≡ listed (length (numbers_of items.now))
        (λ k. B.gives block.now (number_among (map held_of held.now) (from + k)) (item (numbers_of items.now) k)) }
    ensures room { spare_of out.old ≤ spare_of out.new + length (numbers_of out.new) }
{
    match (items, out) {
        (Items::Byte(items), Items::Byte(out)) => run_stretches(block, items, held, from, out),
        (Items::Short(items), Items::Short(out)) => run_stretches(block, items, held, from, out),
        (Items::Int(items), Items::Int(out)) => run_stretches(block, items, held, from, out),
        _ => unreachable!(),
    }
}

/// What `fill` writes, of a block that makes each item of one item, by a number that may be set.
pub(crate) fn fill_each<B: EachItem>(block: &B, batch: &Batch<'_>, out: &mut Items)
    requires { CanFill (each_of (B.takes block.now) (B.low block.now) (B.high block.now) (B.own block.now)
        (B.gives block.now)) batch.now out.old }
    ensures items { HasFilled (each_of (B.takes block.now) (B.low block.now) (B.high block.now) (B.own block.now)
        (B.gives block.now)) batch.now out.new }
    ensures item_type { type_of out.new ≡ type_of out.old }
    ensures room { spare_of out.old ≤ spare_of out.new + length (numbers_of out.new) }
{
    run_items(block, batch.window, batch.held, batch.first, out);
}
