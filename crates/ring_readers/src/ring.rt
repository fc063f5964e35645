//! A ring that one writer fills and several readers take from.
ghost use Rattle.std.specs.Prelude.{◌≡◌, ◌≢◌, ℕ, ◌+◌, ◌^◌, ◌<◌, ◌≤◌, ℤ, List, ◌++◌, length, map, All, ◌↔◌, IsTrue, IfSome, IfOk, OnOk, OnErr, vec_len, vec_capacity};
ghost use Rattle.stream_model.specs.Lists.{window};
ghost use Rattle.ring_readers.specs.State.{IsRing, IsLive, IsEndOf, reader_at, unread_of, past_of, slowest_of, room_of, empty_ring, with_reader, with_items, with_taken, without_reader};

use crate::RingFault;
use crate::copies::{append_range, are_zeros, is_range};
use crate::reader::{Reader, ReaderState};
use circular_buffer::HeapCircularBuffer;
use numbers::Number;
use numbers::vectors::append_copies;
use std::alloc::Global;
use std::fmt;
use std::marker::Model;

/// A bounded buffer with one writer and several readers. A contract sees what was written, what is
/// kept of it, and the places of the readers.
#[derive(Drop)]
pub struct Ring<T: Number> {
    items: HeapCircularBuffer<T>,
    capacity: u32,
    greatest: u32,
    written: u64,
    readers: Vec<ReaderState>,
}

impl<T: Number> fmt::Debug for Ring<T> {
    fn fmt<W: fmt::Write>(&self, f: &mut fmt::Formatter<W>) -> fmt::Result {
        f.debug_struct("Ring").finish_non_exhaustive()
    }
}

impl<T: Number> Model for Ring<T> {
    ghost use Rattle.std.specs.Prelude.{◌≡◌, map};
    ghost use Rattle.ring_readers.specs.State.{RingState, ring_state, IsRing, most_kept};

    ghost Value = { RingState };

    ghost view = { λ r. ring_state r.written (map T.number r.items.items) r.capacity r.greatest r.readers.items };

    ghost invariant = { λ r.
        IsRing (ring_state r.written (map T.number r.items.items) r.capacity r.greatest r.readers.items)
        × (r.items.capacity ≡ most_kept r.capacity r.greatest) };
}

impl<T: Number> Ring<T> {
    /// An empty ring, whose readers may each have `capacity` unread items and a history of `greatest`.
    pub fn new(alloc: Global, capacity: u32, greatest: u32) -> Result<Self, RingFault>
        requires some_capacity { 1 ≤ capacity }
        requires some_history { 1 ≤ greatest }
        ensures { IfOk result (λ ring. ring ≡ empty_ring capacity greatest) }
    {
        let most = capacity as usize + greatest as usize - 1;
        Ok(Ring {
            items: HeapCircularBuffer::with_capacity(alloc, most)?,
            capacity,
            greatest,
            written: 0,
            readers: Vec::new(alloc),
        })
    }

    /// Adds a reader, which sees up to each item `history` items, that one included.
    pub fn add_reader(&mut self, history: u32) -> Result<Reader, RingFault>
        requires fresh { self.old.written ≡ 0 }
        requires some_history { 1 ≤ history }
        requires short { history ≤ self.old.greatest }
        ensures reader { IfOk result (λ reader. reader ≡ length self.old.readers) }
        ensures ok { OnOk result (self.new ≡ with_reader self.old history) }
        ensures err { OnErr result (self.new ≡ self.old) }
        ensures live { IfOk result (IsLive self.new) }
        ensures others { (n : ℕ) → IsLive self.old n → IsLive self.new n }
    {
        self.readers.reserve(1)?;
        let reader = Reader::numbered(self.readers.len());
        self.readers.push_reserved(ReaderState {
            place: 0,
            history,
            live: true,
        });
        Ok(reader)
    }

    /// How many items have been written.
    pub fn written(&self) -> u64
        ensures value { result ≡ self.now.written }
        ensures ring { IsRing self.now }
    {
        self.written
    }

    /// How many items are kept.
    pub fn kept(&self) -> usize
        ensures { result ≡ length self.now.kept }
    {
        self.items.len()
    }

    /// How many items the reader has taken.
    pub fn place(&self, reader: Reader) -> u64
        requires { IsLive self.now reader }
        ensures value { result ≡ (reader_at self.now reader).place }
        ensures reached { result ≤ self.now.written }
        ensures near { self.now.written ≤ result + self.now.capacity }
        ensures small { self.now.written < 2 ^ 62 }
    {
        self.readers[reader.number()].place
    }

    /// How many items the reader sees up to each one, that one included.
    pub fn history(&self, reader: Reader) -> u32
        requires { IsLive self.now reader }
        ensures value { result ≡ (reader_at self.now reader).history }
        ensures some { 1 ≤ result }
        ensures short { result ≤ self.now.greatest }
    {
        self.readers[reader.number()].history
    }

    /// How many items the reader has not taken.
    pub fn unread(&self, reader: Reader) -> usize
        requires { IsLive self.now reader }
        ensures value { result ≡ unread_of self.now reader }
        ensures near { (result ≤ self.now.capacity) × (self.now.capacity < 2 ^ 32) }
    {
        (self.written - self.place(reader)) as usize
    }

    /// The least place of a live reader, `None` where none is left.
    pub fn slowest(&self) -> Option<u64>
        ensures value { result ≡ slowest_of self.now.readers }
        ensures least { IfSome result (λ place. All (λ p. IsTrue p.live → place ≤ p.place) self.now.readers) }
        ensures reached { IfSome result (λ place. place ≤ self.now.written) }
        ensures near { IfSome result (λ place. self.now.written ≤ place + self.now.capacity) }
    {
        let mut found = None;
        for p in &self.readers {
            if p.live {
                found = match found {
                    Some(place) => Some(p.place.min(place)),
                    None => Some(p.place),
                };
            }
        }
        found
    }

    /// How many more items may be written before the slowest live reader takes some.
    pub fn room(&self) -> usize
        ensures value { result ≡ room_of self.now }
        ensures within { (result ≤ self.now.capacity) × (self.now.capacity < 2 ^ 32) }
    {
        let capacity = self.capacity as usize;
        match self.slowest() {
            Some(place) => capacity - (self.written - place) as usize,
            None => capacity,
        }
    }

    /// Writes items. It takes no memory.
    pub fn push_slice(&mut self, items: &[T])
        requires room { length items.now ≤ room_of self.old }
        requires small { self.old.written + length items.now < 2 ^ 62 }
        ensures value { self.new ≡ with_items self.old (map T.number items.now) }
        ensures stream { (stream : List ℤ) →
            IsEndOf self.old stream → IsEndOf self.new (stream ++ map T.number items.now) }
    {
        self.items.extend_from_slice(items);
        self.written += items.len() as u64;
    }

    /// Appends what the reader sees with its next `count` items: the items before its place that its
    /// history has, with zeros before item 0, and those `count`. It takes no memory.
    pub fn window(&self, reader: Reader, count: usize, out: &mut Vec<T>)
        requires live { IsLive self.now reader }
        requires unread { count ≤ unread_of self.now reader }
        requires room { vec_len out.old + past_of self.now reader + count ≤ vec_capacity out.old }
        ensures items { (stream : List ℤ) → IsEndOf self.now stream →
            let place = (reader_at self.now reader).place in
            let seen = window stream (past_of self.now reader) place (place + count) in
            map T.number out.new.items ≡ map T.number out.old.items ++ seen }
        ensures len { vec_len out.new ≡ vec_len out.old + past_of self.now reader + count }
        ensures capacity { vec_capacity out.old ≤ vec_capacity out.new }
    {
        let place = self.place(reader);
        let past = u64::from(self.history(reader) - 1);
        append_copies(out, past.saturating_sub(place) as usize, T::narrow(0));
        let oldest = self.written - self.items.len() as u64;
        let from = (place.saturating_sub(past) - oldest) as usize;
        let to = (place - oldest) as usize + count;
        let (front, back) = self.items.as_slices();
        append_range(out, front, back, from, to);
    }

    /// Whether the items are what `window` appends for the reader's next `count` items.
    pub fn is_window(&self, reader: Reader, count: usize, items: &[T]) -> bool
        requires live { IsLive self.now reader }
        requires unread { count ≤ unread_of self.now reader }
        ensures { (stream : List ℤ) → IsEndOf self.now stream →
            let place = (reader_at self.now reader).place in
            IsTrue result ↔ (map T.number items.now ≡ window stream (past_of self.now reader) place (place + count)) }
    {
        let place = self.place(reader);
        let past = u64::from(self.history(reader) - 1);
        let zeros = past.saturating_sub(place) as usize;
        if items.len() < zeros {
            return false;
        }
        let oldest = self.written - self.items.len() as u64;
        let from = (place.saturating_sub(past) - oldest) as usize;
        let to = (place - oldest) as usize + count;
        let (front, back) = self.items.as_slices();
        let (start, rest) = items.split_at(zeros);
        are_zeros(start) && is_range(rest, front, back, from, to)
    }

    /// The reader takes its next `count` items.
    pub fn advance(&mut self, reader: Reader, count: usize)
        requires live { IsLive self.old reader }
        requires unread { count ≤ unread_of self.old reader }
        ensures value { self.new ≡ with_taken self.old reader count }
        ensures live { (n : ℕ) → IsLive self.old n → IsLive self.new n }
    {
        self.readers[reader.number()].place += count as u64;
    }

    /// The ring waits for the reader no longer.
    pub fn drop_reader(&mut self, reader: Reader)
        requires { IsLive self.old reader }
        ensures value { self.new ≡ without_reader self.old reader }
        ensures others { (n : ℕ) → n ≢ reader → IsLive self.old n → IsLive self.new n }
    {
        self.readers[reader.number()].live = false;
    }
}
