//! Rings of each item type behind one type.
ghost use Rattle.std.specs.Prelude.{◌≡◌, ◌≢◌, ℕ, ◌+◌, ◌^◌, ◌<◌, ◌≤◌, ℤ, List, ◌++◌, length, All, ◌↔◌, IsTrue, IfOk, IfSome, OnOk, OnErr};
ghost use Rattle.stream_model.specs.Lists.{window};
ghost use Rattle.items.specs.Items as typed;
ghost use Rattle.items.specs.Items.{numbers_of, spare_of};
ghost use Rattle.ring_readers.specs.State.{IsRing, IsLive, IsEndOf, reader_at, unread_of, past_of, slowest_of, room_of, empty_ring, with_reader, with_items, with_taken, without_reader};
ghost use Rattle.buffers.specs.Buffer.{type_of, ring_of};

use items::{ItemType, Items};
use ring_readers::{Reader, Ring, RingFault};
use std::alloc::Global;

/// A ring of one of the item types.
#[derive(Drop)]
pub enum Rings {
    /// A ring of items of the type `Byte`.
    Byte(Ring<u8>),
    /// A ring of items of the type `Short`.
    Short(Ring<i16>),
    /// A ring of items of the type `Int`.
    Int(Ring<i32>),
}

// A match on a ring, where each arm does the same.
macro_rules! on_ring {
    ($rings:expr, $ring:ident => $body:expr) => {
        match $rings {
            Rings::Byte($ring) => $body,
            Rings::Short($ring) => $body,
            Rings::Int($ring) => $body,
        }
    };
}

// A match on a ring and items of its type.
macro_rules! on_ring_and_items {
    ($rings:expr, $items:expr, ($ring:ident, $values:ident) => $body:expr) => {
        match ($rings, $items) {
            (Rings::Byte($ring), Items::Byte($values)) => $body,
            (Rings::Short($ring), Items::Short($values)) => $body,
            (Rings::Int($ring), Items::Int($values)) => $body,
            _ => unreachable!(),
        }
    };
}

impl Rings {
    pub fn new(
        alloc: Global,
        item: ItemType,
        capacity: u32,
        greatest: u32,
    ) -> Result<Rings, RingFault>
        requires some_capacity { 1 ≤ capacity }
        requires some_history { 1 ≤ greatest }
        ensures item { IfOk result (λ rings. type_of rings ≡ item) }
        ensures ring { IfOk result (λ rings. ring_of rings ≡ empty_ring capacity greatest) }
    {
        Ok(match item {
            ItemType::Byte => Rings::Byte(Ring::new(alloc, capacity, greatest)?),
            ItemType::Short => Rings::Short(Ring::new(alloc, capacity, greatest)?),
            ItemType::Int => Rings::Int(Ring::new(alloc, capacity, greatest)?),
        })
    }

    pub fn item_type(&self) -> ItemType
        ensures { result ≡ type_of self.now }
    {
        match self {
            Rings::Byte(_) => ItemType::Byte,
            Rings::Short(_) => ItemType::Short,
            Rings::Int(_) => ItemType::Int,
        }
    }

    pub fn add_reader(&mut self, history: u32) -> Result<Reader, RingFault>
        requires fresh { (ring_of self.old).written ≡ 0 }
        requires some_history { 1 ≤ history }
        requires short { history ≤ (ring_of self.old).greatest }
        ensures item { type_of self.new ≡ type_of self.old }
        ensures reader { IfOk result (λ reader. reader ≡ length (ring_of self.old).readers) }
        ensures ok { OnOk result (ring_of self.new ≡ with_reader (ring_of self.old) history) }
        ensures err { OnErr result (ring_of self.new ≡ ring_of self.old) }
        ensures live { IfOk result (IsLive (ring_of self.new)) }
        ensures others { (n : ℕ) → IsLive (ring_of self.old) n → IsLive (ring_of self.new) n }
    {
        on_ring!(self, ring => ring.add_reader(history))
    }

    pub fn written(&self) -> u64
        ensures value { result ≡ (ring_of self.now).written }
        ensures ring { IsRing (ring_of self.now) }
    {
        on_ring!(self, ring => ring.written())
    }

    pub fn kept(&self) -> usize
        ensures { result ≡ length (ring_of self.now).kept }
    {
        on_ring!(self, ring => ring.kept())
    }

    pub fn place(&self, reader: Reader) -> u64
        requires { IsLive (ring_of self.now) reader }
        ensures value { result ≡ (reader_at (ring_of self.now) reader).place }
        ensures reached { result ≤ (ring_of self.now).written }
        ensures near { (ring_of self.now).written ≤ result + (ring_of self.now).capacity }
        ensures small { (ring_of self.now).written < 2 ^ 62 }
    {
        on_ring!(self, ring => ring.place(reader))
    }

    pub fn history(&self, reader: Reader) -> u32
        requires { IsLive (ring_of self.now) reader }
        ensures value { result ≡ (reader_at (ring_of self.now) reader).history }
        ensures some { 1 ≤ result }
    {
        on_ring!(self, ring => ring.history(reader))
    }

    pub fn unread(&self, reader: Reader) -> usize
        requires { IsLive (ring_of self.now) reader }
        ensures value { result ≡ unread_of (ring_of self.now) reader }
        ensures near { (result ≤ (ring_of self.now).capacity) × ((ring_of self.now).capacity < 2 ^ 32) }
    {
        on_ring!(self, ring => ring.unread(reader))
    }

    pub fn slowest(&self) -> Option<u64>
        ensures value { result ≡ slowest_of (ring_of self.now).readers }
        ensures least { IfSome result (λ place. All (λ p. IsTrue p.live → place ≤ p.place) (ring_of self.now).readers) }
        ensures reached { IfSome result (λ place. place ≤ (ring_of self.now).written) }
        ensures near { IfSome result (λ place. (ring_of self.now).written ≤ place + (ring_of self.now).capacity) }
    {
        on_ring!(self, ring => ring.slowest())
    }

    pub fn room(&self) -> usize
        ensures value { result ≡ room_of (ring_of self.now) }
        ensures within { (result ≤ (ring_of self.now).capacity) × ((ring_of self.now).capacity < 2 ^ 32) }
    {
        on_ring!(self, ring => ring.room())
    }

    pub fn push_slice(&mut self, items: &Items)
        requires same_type { typed.type_of items.now ≡ type_of self.old }
        requires room { length (numbers_of items.now) ≤ room_of (ring_of self.old) }
        requires small { (ring_of self.old).written + length (numbers_of items.now) < 2 ^ 62 }
        ensures item { type_of self.new ≡ type_of self.old }
        ensures value { ring_of self.new ≡ with_items (ring_of self.old) (numbers_of items.now) }
        ensures stream { (stream : List ℤ) → IsEndOf (ring_of self.old) stream
            → IsEndOf (ring_of self.new) (stream ++ numbers_of items.now) }
    {
        on_ring_and_items!(self, items, (ring, values) => ring.push_slice(values))
    }

    pub fn window(&self, reader: Reader, count: usize, out: &mut Items)
        requires same_type { typed.type_of out.old ≡ type_of self.now }
        requires live { IsLive (ring_of self.now) reader }
        requires unread { count ≤ unread_of (ring_of self.now) reader }
        requires room { past_of (ring_of self.now) reader + count ≤ spare_of out.old }
        ensures same_type { typed.type_of out.new ≡ typed.type_of out.old }
        ensures items { (stream : List ℤ) → IsEndOf (ring_of self.now) stream →
            let place = (reader_at (ring_of self.now) reader).place in
            numbers_of out.new ≡ numbers_of out.old ++ window stream (past_of (ring_of self.now) reader) place
            (place + count) }
        ensures len { length (numbers_of out.new) ≡ length (numbers_of out.old) + past_of (ring_of self.now)
            reader + count }
        ensures spare { spare_of out.old ≤ spare_of out.new + past_of (ring_of self.now) reader + count }
    {
        on_ring_and_items!(self, out, (ring, values) => ring.window(reader, count, values))
    }

    pub fn is_window(&self, reader: Reader, count: usize, items: &Items) -> bool
        requires same_type { typed.type_of items.now ≡ type_of self.now }
        requires live { IsLive (ring_of self.now) reader }
        requires unread { count ≤ unread_of (ring_of self.now) reader }
        ensures { (stream : List ℤ) → IsEndOf (ring_of self.now) stream →
            let place = (reader_at (ring_of self.now) reader).place in
            IsTrue result ↔ (numbers_of items.now ≡ window stream (past_of (ring_of self.now) reader) place
            (place + count)) }
    {
        on_ring_and_items!(self, items, (ring, values) => ring.is_window(reader, count, values))
    }

    pub fn advance(&mut self, reader: Reader, count: usize)
        requires live { IsLive (ring_of self.old) reader }
        requires unread { count ≤ unread_of (ring_of self.old) reader }
        ensures item { type_of self.new ≡ type_of self.old }
        ensures value { ring_of self.new ≡ with_taken (ring_of self.old) reader count }
        ensures live { (n : ℕ) → IsLive (ring_of self.old) n → IsLive (ring_of self.new) n }
    {
        on_ring!(self, ring => ring.advance(reader, count))
    }

    pub fn drop_reader(&mut self, reader: Reader)
        requires { IsLive (ring_of self.old) reader }
        ensures item { type_of self.new ≡ type_of self.old }
        ensures value { ring_of self.new ≡ without_reader (ring_of self.old) reader }
        ensures others { (n : ℕ) → n ≢ reader → IsLive (ring_of self.old) n → IsLive (ring_of self.new) n }
    {
        on_ring!(self, ring => ring.drop_reader(reader))
    }
}
