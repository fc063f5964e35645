//! Blocks that make each item of one item of each input.
ghost use Rattle.std.specs.Prelude.{◌≡◌, ◌<◌, ◌≤◌, ◌+◌, ◌-◌, ◌++◌, ℤ, List, [], length, map, take, vec_len, vec_capacity};
ghost use Rattle.stream_model.specs.declared.vocabulary.ItemType.{ItemType};
ghost use Rattle.stream_model.specs.Lists.{item, listed};
ghost use Rattle.stream_model.specs.Meaning.{Meaning, IsLawful};
ghost use Rattle.kind_model.specs.Math.{items_at};
ghost use Rattle.items.specs.Items.{type_of, numbers_of, spare_of};
ghost use Rattle.math_blocks.specs.Joined.{AreJoined, CanJoin, joined_of};

use block_trait::{Block, ByPace, Held, Shape, any_ports, ports};
use items::{ItemType, Items};
use lane_kernels::SimdLane;
use numbers::vectors::append;
use std::marker::PhantomData;

/// How items are joined in one.
pub trait Joins: Eq + Drop {
    /// What is made of one item of each input.
    ghost joins: { ItemType → List ℤ → ℤ };

    /// What is made of the item of a single input.
    ghost alone: { ItemType → ℤ → ℤ };

    /// What is made of two items.
    ghost pair: { ItemType → ℤ → ℤ → ℤ };

    /// What a block means that joins its inputs so.
    ghost equation: { ItemType → Meaning };

    /// Writes over each item of `out` what is made of it and the item of `items` at its place.
    fn join_into<T: SimdLane>(items: &[T], out: &mut [T])
        requires { length items.now ≡ length out.old }
        ensures { map T.number out.new ≡ listed (length items.now)
            (λ k. pair T.kind (item (map T.number out.old) k) (item (map T.number items.now) k)) };

    /// Appends what is made of each item of a single input, where the capacity has room.
    fn append_alone<T: SimdLane>(items: &[T], out: &mut Vec<T>)
        requires room { vec_len out.old + length items.now ≤ vec_capacity out.old }
        ensures items { map T.number out.new.items ≡ map T.number out.old.items ++ listed (length items.now)
            (λ k. alone T.kind (item (map T.number items.now) k)) }
        ensures capacity { vec_capacity out.old ≤ vec_capacity out.new };

    /// Appends what is made of each two items at one place, where the capacity has room.
    fn append<T: SimdLane>(a: &[T], b: &[T], out: &mut Vec<T>)
        requires same_length { length a.now ≡ length b.now }
        requires room { vec_len out.old + length a.now ≤ vec_capacity out.old }
        ensures items { map T.number out.new.items ≡ map T.number out.old.items ++ listed (length a.now)
            (λ k. pair T.kind (item (map T.number a.now) k) (item (map T.number b.now) k)) }
        ensures capacity { vec_capacity out.old ≤ vec_capacity out.new };

    /// Items may be joined one after the other.
    ghost one_by_one: { AreJoined joins alone pair };

    /// The equation says what is made of one item of each input.
    ghost is_joined: { (t : ItemType) → joined_of joins t ≡ equation t };

    /// The equation keeps the laws.
    ghost lawful: { (t : ItemType) → IsLawful (equation t) };
}

/// A block that joins the items at one place of its 1 to 16 inputs in one.
#[derive(Debug, Drop, PartialEq, Eq)]
pub struct Joined<J> {
    item: ItemType,
    joins: PhantomData<J>,
}

impl<J: Joins> Joined<J> {
    /// The block for items of this type.
    pub fn new(item: ItemType) -> Joined<J>
        ensures { J.equation result.item ≡ J.equation item }
    {
        Joined {
            item,
            joins: PhantomData,
        }
    }
}

impl<J: Joins> Block for Joined<J> {
    ghost use Rattle.math_blocks.specs.Joined.{joined-same};

    ghost meaning = { λ b. J.equation b.item };

    type Places = ByPace;

    fn shape(&self, _input: usize) -> Shape<'_> {
        Shape::at_rate(any_ports(self.item), ports(1, self.item), 1, 1)
    }

    fn work(
        &self,
        _state: u64,
        _first: u64,
        count: u64,
        windows: &[Items],
        _held: &[Held],
        out: &mut [Items],
    ) -> u64 {
        join_windows::<J>(windows, count as usize, &mut out[0]);
        0
    }

    ghost lawful = { λ b. J.lawful b.item };

    ghost same = { joined-same J.equation };
}

/// Joins each item of `out` with the item of `items` at its place.
fn join_items_into<J: Joins>(items: &Items, out: &mut Items)
    requires same_type { type_of items.now ≡ type_of out.old }
    requires same_length { length (numbers_of items.now) ≡ length (numbers_of out.old) }
    ensures item_type { type_of out.new ≡ type_of out.old }
    ensures same_length { length (numbers_of out.new) ≡ length (numbers_of out.old) }
    ensures numbers { numbers_of out.new ≡ listed (length (numbers_of items.now))
        (λ k. J.pair (type_of items.now) (item (numbers_of out.old) k) (item (numbers_of items.now) k)) }
    ensures room { spare_of out.new ≡ spare_of out.old }
{
    match (items, out) {
        (Items::Byte(items), Items::Byte(out)) => J::join_into(items, out),
        (Items::Short(items), Items::Short(out)) => J::join_into(items, out),
        (Items::Int(items), Items::Int(out)) => J::join_into(items, out),
        _ => unreachable!(),
    }
}

/// Writes what is made of each item of `a` and the item of `b` at its place into an empty `out` with room for it.
fn join_pair<J: Joins>(a: &Items, b: &Items, out: &mut Items)
    requires a_type { type_of a.now ≡ type_of out.old }
    requires b_type { type_of b.now ≡ type_of out.old }
    requires same_length { length (numbers_of a.now) ≡ length (numbers_of b.now) }
    requires empty { numbers_of out.old ≡ [] }
    requires room { length (numbers_of b.now) ≤ spare_of out.old }
    ensures item_type { type_of out.new ≡ type_of out.old }
    ensures numbers { numbers_of out.new ≡ listed (length (numbers_of b.now))
        (λ k. J.pair (type_of b.now) (item (numbers_of a.now) k) (item (numbers_of b.now) k)) }
    ensures room { spare_of out.old ≤ spare_of out.new + length (numbers_of out.new) }
{
    match (a, b, out) {
        (Items::Byte(a), Items::Byte(b), Items::Byte(out)) => append_pair::<u8, J>(a, b, out),
        (Items::Short(a), Items::Short(b), Items::Short(out)) => append_pair::<i16, J>(a, b, out),
        (Items::Int(a), Items::Int(b), Items::Int(out)) => append_pair::<i32, J>(a, b, out),
        _ => unreachable!(),
    }
}

fn append_pair<T: SimdLane, J: Joins>(a: &[T], b: &[T], out: &mut Vec<T>)
    requires same_length { length (map T.number a.now) ≡ length (map T.number b.now) }
    requires empty { map T.number out.old.items ≡ [] }
    requires room { length (map T.number b.now) ≤ vec_capacity out.old - vec_len out.old }
    ensures items { map T.number out.new.items ≡ listed (length (map T.number b.now))
        (λ k. J.pair T.kind (item (map T.number a.now) k) (item (map T.number b.now) k)) }
    ensures capacity { vec_capacity out.old ≤ vec_capacity out.new }
{
    J::append(a, b, out);
}

/// Writes what is made of each item of the only window into an empty `out` with room for it.
fn join_alone<J: Joins>(items: &Items, out: &mut Items)
    requires same_type { type_of items.now ≡ type_of out.old }
    requires empty { numbers_of out.old ≡ [] }
    requires room { length (numbers_of items.now) ≤ spare_of out.old }
    ensures item_type { type_of out.new ≡ type_of out.old }
    ensures numbers { numbers_of out.new ≡ listed (length (numbers_of items.now))
        (λ k. J.alone (type_of items.now) (item (numbers_of items.now) k)) }
    ensures room { spare_of out.old ≤ spare_of out.new + length (numbers_of out.new) }
{
    match (items, out) {
        (Items::Byte(items), Items::Byte(out)) => append_only::<u8, J>(items, out),
        (Items::Short(items), Items::Short(out)) => append_only::<i16, J>(items, out),
        (Items::Int(items), Items::Int(out)) => append_only::<i32, J>(items, out),
        _ => unreachable!(),
    }
}

fn append_only<T: SimdLane, J: Joins>(items: &[T], out: &mut Vec<T>)
    requires empty { map T.number out.old.items ≡ [] }
    requires room { length (map T.number items.now) ≤ vec_capacity out.old - vec_len out.old }
    ensures items { map T.number out.new.items ≡ listed (length (map T.number items.now))
        (λ k. J.alone T.kind (item (map T.number items.now) k)) }
    ensures capacity { vec_capacity out.old ≤ vec_capacity out.new }
{
    J::append_alone(items, out);
}

/// Appends the items as they are, where the capacity has room.
pub(crate) fn append_same<T: SimdLane>(items: &[T], out: &mut Vec<T>)
    requires { vec_len out.old + length items.now ≤ vec_capacity out.old }
    ensures items { map T.number out.new.items ≡ map T.number out.old.items
        ++ listed (length items.now) (λ k. item (map T.number items.now) k) }
    ensures capacity { vec_capacity out.old ≤ vec_capacity out.new }
{
    append(out, items);
}

/// Writes what is made of the items of the first windows, two where there are two, into an empty `out` with room for
/// it, and answers how many windows these are.
fn join_first<J: Joins>(windows: &[Items], count: usize, out: &mut Items) -> usize
    requires { CanJoin count windows.now out.old }
    ensures there { result ≤ length windows.now }
    ensures several { result < length windows.now → 2 ≤ result }
    ensures item_type { type_of out.new ≡ type_of out.old }
    ensures numbers { numbers_of out.new ≡ listed count (λ k. J.joins (type_of out.old)
        (items_at (map numbers_of (take result windows.now)) k)) }
    ensures room { spare_of out.old ≤ spare_of out.new + length (numbers_of out.new) }
{
    let first = &windows[0];
    first.in_range();
    if windows.len() < 2 {
        join_alone::<J>(first, out);
        return 1;
    }
    join_pair::<J>(first, &windows[1], out);
    2
}

/// Writes what is made of the items of all windows into an empty `out` with room for it.
fn join_windows<J: Joins>(windows: &[Items], count: usize, out: &mut Items)
    requires { CanJoin count windows.now out.old }
    ensures item_type { type_of out.new ≡ type_of out.old }
    ensures numbers { numbers_of out.new ≡ listed count (λ k. J.joins (type_of out.old)
        (items_at (map numbers_of windows.now) k)) }
    ensures room { spare_of out.old ≤ spare_of out.new + length (numbers_of out.new) }
{
    let begun = join_first::<J>(windows, count, out);
    for p in begun..windows.len() {
        join_items_into::<J>(&windows[p], out);
    }
}
