//! Items of which only the last may be in memory.

ghost use Rattle.std.specs.Prelude.{◌≡◌, ◌+◌, ◌-◌, ◌*◌, ◌<◌, ◌≤◌, ◌^◌, [], ◌++◌, length, take, drop, slice_range, IfOk, OnOk, IsOk, max, vec_len, vec_capacity};
ghost use Rattle.items.specs.Items.{type_of, numbers_of, spare_of};

use crate::past::Past;
use items::{ItemFault, ItemType, Items};
use std::alloc::{AllocError, Global};
use std::fmt;
use std::marker::Model;

// No list has more items than so.
const MOST: u64 = 1 << 62;

/// A list of items, of which the first may be forgotten. A contract sees all of them, and which is the first that is
/// kept.
#[derive(Drop)]
pub struct RecentItems {
    // The items that are out of memory: of each of these so many, from the front.
    forgotten: Past<Items, usize>,
    // How many these are.
    before: u64,
    items: Items,
    // How many items at the front of these are forgotten. They wait until they are more than those that are kept:
    // forgetting then costs as many steps as items go, whatever stays.
    gone: usize,
}

/// The items in memory.
#[derive(Clone, Copy, Debug)]
pub struct Kept<'a> {
    /// The number of the first of them, which may be forgotten.
    pub first: u64,
    pub items: &'a Items,
}

impl fmt::Debug for RecentItems {
    fn fmt<W: fmt::Write>(&self, f: &mut fmt::Formatter<W>) -> fmt::Result {
        f.debug_struct("RecentItems").finish_non_exhaustive()
    }
}

impl Model for RecentItems {
    ghost use Rattle.std.specs.Prelude.{◌+◌, ◌-◌, ◌^◌, ◌++◌, length, min};
    ghost use Rattle.items.specs.Items.{type_of, numbers_of, spare_of};
    ghost use Rattle.recordings.specs.Recent.{ItemsState, AreRecent, forgotten_items};

    ghost Value = { ItemsState };

    ghost view = { λ r. record {
      item = type_of r.items;
      items = forgotten_items r.forgotten.pieces ++ numbers_of r.items;
      from = r.before + r.gone;
      spare = min (spare_of r.items) (2 ^ 62 - (r.before + length (numbers_of r.items)));
      capacity = spare_of r.items + length (numbers_of r.items);
    } };

    ghost invariant = { λ r. AreRecent r.forgotten.pieces r.before r.gone (numbers_of r.items) };
}

impl RecentItems {
    /// No items of the type. It takes no memory.
    pub fn new(alloc: Global, item: ItemType) -> RecentItems
        ensures item { result.item ≡ item }
        ensures items { result.items ≡ [] }
        ensures from { result.from ≡ 0 }
    {
        RecentItems {
            forgotten: Past::new(),
            before: 0,
            items: Items::empty(alloc, item),
            gone: 0,
        }
    }

    /// The type of the items.
    pub fn item_type(&self) -> ItemType
        ensures { result ≡ self.now.item }
    {
        self.items.item_type()
    }

    /// How many items there are, with those that are forgotten.
    pub fn len(&self) -> u64
        ensures value { result ≡ length self.now.items }
        ensures small { result ≤ 2 ^ 62 }
    {
        self.before + self.items.len() as u64
    }

    /// The first item that is kept.
    pub fn from(&self) -> u64
        ensures value { result ≡ self.now.from }
        ensures within { result ≤ length self.now.items }
    {
        self.before + self.gone as u64
    }

    /// How many items are in memory: all that are kept, and at most twice as many.
    pub fn in_memory(&self) -> usize
        ensures least { length self.now.items - self.now.from ≤ result }
        ensures most { result ≤ 2 * (length self.now.items - self.now.from) }
    {
        self.items.len()
    }

    /// Makes room for `n` more items. Where they do not fit, memory grows by as many items as it has, or by `n` if that
    /// is more. It fails only where the allocator refuses, or where there would be more than 2^62 items.
    pub fn reserve(&mut self, n: usize) -> Result<(), AllocError>
        ensures item { self.new.item ≡ self.old.item }
        ensures items { self.new.items ≡ self.old.items }
        ensures from { self.new.from ≡ self.old.from }
        ensures ok { OnOk result (n ≤ self.new.spare) }
        ensures spare { self.old.spare ≤ self.new.spare }
        ensures capacity { self.new.capacity ≤ max self.old.capacity (4 * (length self.old.items - self.old.from) + n) }
        ensures succeeds { n ≤ self.old.spare → IsOk result }
    {
        if MOST - self.before - (self.items.len() as u64) < n as u64 {
            return Err(AllocError);
        }
        make_room(&mut self.items, n)
    }

    /// Appends items. It takes no memory.
    pub fn push(&mut self, more: &Items)
        requires same_type { type_of more.now ≡ self.old.item }
        requires room { length (numbers_of more.now) ≤ self.old.spare }
        ensures item { self.new.item ≡ self.old.item }
        ensures items { self.new.items ≡ self.old.items ++ numbers_of more.now }
        ensures from { self.new.from ≡ self.old.from }
        ensures spare { self.old.spare ≤ self.new.spare + length (numbers_of more.now) }
    {
        self.items.push_slice(more);
    }

    /// The items in memory. They begin with the first that is kept, or before it.
    pub fn kept(&self) -> Kept<'_>
        ensures first { result.first ≤ self.now.from }
        ensures item { type_of result.items.now ≡ self.now.item }
        ensures items { numbers_of result.items.now ≡ drop result.first self.now.items }
    {
        Kept {
            first: self.before,
            items: &self.items,
        }
    }

    /// A copy of items `from` to below `to`, which are kept. It fails only where the allocator refuses.
    pub fn slice(&self, alloc: Global, from: u64, to: u64) -> Result<Items, AllocError>
        requires kept { self.now.from ≤ from }
        requires ordered { from ≤ to }
        requires within { to ≤ length self.now.items }
        ensures item { IfOk result (λ items. type_of items ≡ self.now.item) }
        ensures items { IfOk result (λ items. numbers_of items ≡ slice_range self.now.items from to) }
    {
        let (first, end) = ((from - self.before) as usize, (to - self.before) as usize);
        match self.items.slice(alloc, first, end) {
            Ok(items) => Ok(items),
            Err(ItemFault::Memory) => Err(AllocError),
            Err(ItemFault::ItemRange) => unreachable!(),
        }
    }

    /// The items before `to` are forgotten. It takes no memory, and moving those that are kept is amortized over those
    /// that are forgotten.
    pub fn forget(&mut self, to: u64)
        requires kept { self.old.from ≤ to }
        requires within { to ≤ length self.old.items }
        ensures item { self.new.item ≡ self.old.item }
        ensures items { self.new.items ≡ self.old.items }
        ensures from { self.new.from ≡ to }
        ensures spare { self.old.spare ≤ self.new.spare }
    {
        let gone = (to - self.before) as usize;
        if gone <= self.items.len() - gone {
            self.gone = gone;
            return;
        }
        self.forgotten = self.forgotten.and(&self.items, &gone);
        drop_front(&mut self.items, gone);
        self.before = to;
        self.gone = 0;
    }

    /// The same items in memory of their own; what is forgotten stays so. It fails only where the allocator refuses.
    pub fn copy(&self, alloc: Global) -> Result<RecentItems, AllocError>
        ensures item { IfOk result (λ copy. copy.item ≡ self.now.item) }
        ensures items { IfOk result (λ copy. copy.items ≡ self.now.items) }
        ensures from { IfOk result (λ copy. copy.from ≡ self.now.from) }
    {
        let mut items = Items::empty(alloc, self.item_type());
        items.reserve(self.items.len())?;
        items.push_slice(&self.items);
        Ok(RecentItems {
            forgotten: self.forgotten.and(&self.items, &0),
            before: self.before,
            items,
            gone: self.gone,
        })
    }
}

// Makes room for `n` more items.
fn make_room(items: &mut Items, n: usize) -> Result<(), AllocError>
    ensures item { type_of items.new ≡ type_of items.old }
    ensures items { numbers_of items.new ≡ numbers_of items.old }
    ensures ok { OnOk result (n ≤ spare_of items.new) }
    ensures spare { spare_of items.old ≤ spare_of items.new }
    ensures most { spare_of items.new ≤ max (spare_of items.old) (length (numbers_of items.old) + n) }
    ensures succeeds { n ≤ spare_of items.old → IsOk result }
{
    match items {
        Items::Byte(numbers) => grow(numbers, n),
        Items::Short(numbers) => grow(numbers, n),
        Items::Int(numbers) => grow(numbers, n),
    }
}

// Makes room for `n` more numbers. `Vec::reserve` does not say how much it takes at most.
fn grow<T>(numbers: &mut Vec<T>, n: usize) -> Result<(), AllocError>
    ensures items { numbers.new.items ≡ numbers.old.items }
    ensures len { vec_len numbers.new ≡ vec_len numbers.old }
    ensures ok { OnOk result (vec_len numbers.new + n ≤ vec_capacity numbers.new) }
    ensures spare { vec_capacity numbers.old ≤ vec_capacity numbers.new }
    ensures most { vec_capacity numbers.new ≤ max (vec_capacity numbers.old) (2 * vec_len numbers.old + n) }
    ensures succeeds { vec_len numbers.old + n ≤ vec_capacity numbers.old → IsOk result }
{
    if n <= numbers.capacity() - numbers.len() {
        return Ok(());
    }
    numbers.reserve_exact(n.max(numbers.len()))
}

// Takes the first items away, which are at least as many as those behind them.
fn drop_front(items: &mut Items, gone: usize)
    requires within { gone ≤ length (numbers_of items.old) }
    requires many { length (numbers_of items.old) - gone ≤ gone }
    ensures item { type_of items.new ≡ type_of items.old }
    ensures items { numbers_of items.new ≡ drop gone (numbers_of items.old) }
    ensures spare { spare_of items.old ≤ spare_of items.new }
{
    match items {
        Items::Byte(numbers) => drop_first(numbers, gone),
        Items::Short(numbers) => drop_first(numbers, gone),
        Items::Int(numbers) => drop_first(numbers, gone),
    }
}

// Takes the first numbers away.
fn drop_first<T: Copy>(numbers: &mut Vec<T>, gone: usize)
    requires within { gone ≤ length numbers.old.items }
    requires many { length numbers.old.items - gone ≤ gone }
    ensures items { numbers.new.items ≡ drop gone numbers.old.items }
    ensures spare { vec_capacity numbers.old - vec_len numbers.old ≤ vec_capacity numbers.new - vec_len numbers.new }
{
    move_to_front(numbers, gone);
    numbers.truncate(numbers.len() - gone);
}

// Moves the numbers from place `gone` on to the front, where there are no fewer before them.
fn move_to_front<T: Copy>(numbers: &mut [T], gone: usize)
    requires within { gone ≤ length numbers.old }
    requires few { length numbers.old - gone ≤ gone }
    ensures len { length numbers.new ≡ length numbers.old }
    ensures front { take (length numbers.old - gone) numbers.new ≡ drop gone numbers.old }
{
    let (front, rest) = numbers.split_at_mut(gone);
    front[..rest.len()].copy_from_slice(rest);
}
