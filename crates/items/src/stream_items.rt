//! Items of one type, in order.
ghost use Rattle.std.specs.Prelude.{◌≡◌, ◌+◌, ◌^◌, ◌<◌, ◌≤◌, ◌↔◌, ◌⊎◌, pos, [], ◌++◌, length, replicate, slice_range, slice_index_or, IsTrue, IsOk, IsErrOf, IfOk, OnOk, OnErr};
ghost use Rattle.stream_model.specs.Numbers.{IsItem, AreItems};
ghost use Rattle.items.specs.Items.{type_of, numbers_of, spare_of};

use crate::ItemFault;
use numbers::Number;
use numbers::range::is_item;
use numbers::vectors::{append, append_copies, are_in_range, copied, narrowed};
use std::alloc::{AllocError, Global};
use stream_model::ItemType;

/// Items of one type, in order. A contract sees the type, the numbers, and how many more fit.
#[derive(Debug, Drop)]
pub enum Items {
    /// Items of the type `Byte`.
    Byte(Vec<u8>),
    /// Items of the type `Short`.
    Short(Vec<i16>),
    /// Items of the type `Int`.
    Int(Vec<i32>),
}

// A match on items, where each arm does the same with its own vector.
macro_rules! on_type {
    ($items:expr, $values:ident => $body:expr) => {
        match $items {
            Items::Byte($values) => $body,
            Items::Short($values) => $body,
            Items::Int($values) => $body,
        }
    };
}

// A match on two values of one type, and what stands for it where the types differ.
macro_rules! on_same_type {
    ($items:expr, $other:expr, ($values:ident, $more:ident) => $body:expr, $differ:expr) => {
        match ($items, $other) {
            (Items::Byte($values), Items::Byte($more)) => $body,
            (Items::Short($values), Items::Short($more)) => $body,
            (Items::Int($values), Items::Int($more)) => $body,
            _ => $differ,
        }
    };
}

// A match on two values of one type, where each arm makes items of the same type.
macro_rules! like_type {
    ($items:expr, $values:ident => $body:expr) => {
        match $items {
            Items::Byte($values) => Items::Byte($body),
            Items::Short($values) => Items::Short($body),
            Items::Int($values) => Items::Int($body),
        }
    };
}

// Items of the type `$t`, over the vector that `$body` makes at its number type.
macro_rules! of_type {
    ($t:expr, $body:expr) => {
        match $t {
            ItemType::Byte => Items::Byte($body),
            ItemType::Short => Items::Short($body),
            ItemType::Int => Items::Int($body),
        }
    };
}

impl Items {
    /// No items of the type. It takes no memory.
    pub fn empty(alloc: Global, t: ItemType) -> Items
        ensures item_type { type_of result ≡ t }
        ensures numbers { numbers_of result ≡ [] }
        ensures spare { spare_of result ≡ 0 }
    {
        of_type!(t, Vec::new(alloc))
    }

    /// The items of these numbers. `ItemRange` where one lies outside the type's range, before any memory is asked for;
    /// `Memory` only where the allocator refuses, and not without numbers.
    #[tactic(auto, using(crate::proofs::Numbers::map_same))]
    pub fn from_numbers(alloc: Global, t: ItemType, numbers: &[i64]) -> Result<Items, ItemFault>
        ensures item_type { IfOk result (λ items. type_of items ≡ t) }
        ensures numbers { IfOk result (λ items. numbers_of items ≡ numbers.now) }
        ensures range { IsErrOf result ItemFault.ItemRange ↔ (¬ AreItems t numbers.now) }
        ensures in_range { OnOk result (AreItems t numbers.now) }
        ensures memory { IsErrOf result ItemFault.Memory → AreItems t numbers.now }
        ensures nothing { numbers.now ≡ [] → IsOk result }
    {
        if !fit(t, numbers) {
            return Err(ItemFault::ItemRange);
        }
        Ok(of_type!(t, narrowed(alloc, numbers)?))
    }

    /// The type of the items.
    pub fn item_type(&self) -> ItemType
        ensures { result ≡ type_of self.now }
    {
        match self {
            Items::Byte(_) => ItemType::Byte,
            Items::Short(_) => ItemType::Short,
            Items::Int(_) => ItemType::Int,
        }
    }

    /// How many items there are.
    pub fn len(&self) -> usize
        ensures value { result ≡ length (numbers_of self.now) }
        ensures small { result < 2 ^ 63 }
    {
        on_type!(self, values => values.len())
    }

    /// Whether there is no item.
    pub fn is_empty(&self) -> bool
        ensures { IsTrue result ↔ (numbers_of self.now ≡ []) }
    {
        self.len() == 0
    }

    /// How many more items fit before memory is needed. It counts items, not bytes.
    pub fn spare(&self) -> usize
        ensures value { result ≡ spare_of self.now }
        ensures small { length (numbers_of self.now) + result < 2 ^ 63 }
    {
        on_type!(self, values => values.capacity() - values.len())
    }

    /// The number at place `n`, where the first is 0.
    pub fn number(&self, n: usize) -> i64
        requires { n < length (numbers_of self.now) }
        ensures value { result ≡ slice_index_or (numbers_of self.now) n (pos 0) }
        ensures in_range { IsItem (type_of self.now) result }
    {
        on_type!(self, values => values[n].widen())
    }

    /// Recalls that each number is in the range of the items' type. It does nothing.
    pub fn in_range(&self)
        ensures { AreItems (type_of self.now) (numbers_of self.now) }
    {
        on_type!(self, values => are_in_range(values))
    }

    /// Makes room for `n` more items, with new memory where fewer fit. It fails only where the allocator refuses, and
    /// then changes nothing.
    pub fn reserve(&mut self, n: usize) -> Result<(), AllocError>
        ensures item_type { type_of self.new ≡ type_of self.old }
        ensures numbers { numbers_of self.new ≡ numbers_of self.old }

        ensures ok { OnOk result (n ≤ spare_of self.new) }
        ensures spare { spare_of self.old ≤ spare_of self.new }
        ensures succeeds { n ≤ spare_of self.old → IsOk result }
        ensures err { OnErr result (spare_of self.new ≡ spare_of self.old) }
    {
        on_type!(self, values => values.reserve(n))
    }

    /// Appends the items of `other`. It takes no memory.
    pub fn push_slice(&mut self, other: &Items)
        requires same_type { type_of self.old ≡ type_of other.now }
        requires room { length (numbers_of other.now) ≤ spare_of self.old }
        ensures item_type { type_of self.new ≡ type_of self.old }
        ensures numbers { numbers_of self.new ≡ numbers_of self.old ++ numbers_of other.now }
        ensures spare { spare_of self.old ≤ spare_of self.new + length (numbers_of other.now) }
    {
        on_same_type!(self, other, (values, more) => append(values, more), unreachable!())
    }

    /// Appends the items of `other` from place `from` to below place `to`. It takes no memory.
    #[tactic(auto, using(crate::proofs::Numbers::map_push_range))]
    pub fn push_range(&mut self, other: &Items, from: usize, to: usize)
        requires same_type { type_of self.old ≡ type_of other.now }
        requires ordered { from ≤ to }
        requires within { to ≤ length (numbers_of other.now) }
        requires room { to ≤ spare_of self.old + from }
        ensures item_type { type_of self.new ≡ type_of self.old }
        ensures numbers { numbers_of self.new ≡ numbers_of self.old ++ slice_range (numbers_of other.now) from to }
        ensures spare { spare_of self.old + from ≤ spare_of self.new + to }
    {
        on_same_type!(self, other, (values, more) => append(values, &more[from..to]), unreachable!())
    }

    /// Appends `n` zeros, which may be written over. It takes no memory.
    #[tactic(auto, using(crate::proofs::Numbers::map_push_copies))]
    pub fn push_zeros(&mut self, n: usize)
        requires { n ≤ spare_of self.old }
        ensures item_type { type_of self.new ≡ type_of self.old }
        ensures numbers { numbers_of self.new ≡ numbers_of self.old ++ replicate n (pos 0) }
        ensures spare { spare_of self.old ≤ spare_of self.new + n }
    {
        on_type!(self, values => append_copies(values, n, 0))
    }

    /// A copy of the items from place `from` to below place `to`. `ItemRange` where `to` is below `from` or above the
    /// number of items, before any memory is asked for; `Memory` only where the allocator refuses, and not for no
    /// items.
    #[tactic(auto, using(crate::proofs::Numbers::map_slice_range))]
    pub fn slice(&self, alloc: Global, from: usize, to: usize) -> Result<Items, ItemFault>
        ensures item_type { IfOk result (λ items. type_of items ≡ type_of self.now) }
        ensures numbers { IfOk result (λ items. numbers_of items ≡ slice_range (numbers_of self.now) from to) }
        ensures range { IsErrOf result ItemFault.ItemRange ↔ ((to < from) ⊎ (length (numbers_of self.now) < to)) }
        ensures within { OnOk result ((from ≤ to) × (to ≤ length (numbers_of self.now))) }
        ensures nothing { from ≡ to → to ≤ length (numbers_of self.now) → IsOk result }
    {
        if to < from || self.len() < to {
            return Err(ItemFault::ItemRange);
        }
        Ok(like_type!(self, values => copied(alloc, &values[from..to])?))
    }

    /// Drops each item and keeps the memory.
    pub fn clear(&mut self)
        ensures item_type { type_of self.new ≡ type_of self.old }
        ensures numbers { numbers_of self.new ≡ [] }
        ensures spare { spare_of self.new ≡ spare_of self.old + length (numbers_of self.old) }
    {
        on_type!(self, values => values.clear())
    }
}

// Whether each number is in the type's range.
fn fit(t: ItemType, numbers: &[i64]) -> bool
    ensures { IsTrue result ↔ AreItems t numbers.now }
{
    numbers.iter().all(|n| is_item(t, *n))
}

impl PartialEq for Items {
    ghost use Rattle.std.specs.Prelude.{◌≡◌, ◌↔◌, IsTrue};
    ghost use Rattle.std.specs.Cmp.{partial_equiv_from_equiv};
    ghost use Rattle.items.specs.Items.{type_of, numbers_of};
    ghost use Rattle.items.specs.Equality.{items_eq, items_eq_equiv};

    ghost eq = { items_eq };

    ghost laws = { partial_equiv_from_equiv items_eq_equiv };

    fn eq(&self, other: &Items) -> bool
        ensures value { result ≡ items_eq self.now other.now }
        ensures exact { IsTrue result ↔ ((type_of self.now ≡ type_of other.now)
            × (numbers_of self.now ≡ numbers_of other.now)) }
    {
        on_same_type!(self, other, (values, more) => values == more, false)
    }
}

impl Eq for Items {
    ghost use Rattle.items.specs.Equality.{items_eq_equiv};

    ghost laws = { items_eq_equiv };
}
