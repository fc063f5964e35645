//! One output's items and tags.
ghost use Rattle.std.specs.Prelude.{◌≡◌, ◌≢◌, ℕ, ◌+◌, ◌^◌, ◌<◌, ◌≤◌, ℤ, List, [], ◌++◌, length, map, All, ◌↔◌, IsTrue, IfOk, IsOk, OnOk, OnErr, is_some, None, IfSome, min};
ghost use Rattle.stream_model.specs.Lists.{window};
ghost use Rattle.stream_model.specs.Tags as model;
ghost use Rattle.stream_model.specs.Tags.{tags_within};
ghost use Rattle.items.specs.Items as typed;
ghost use Rattle.items.specs.Items.{numbers_of, spare_of};
ghost use Rattle.std.specs.Option.{option_map_or};
ghost use Rattle.items.specs.Tags.{tag_of};
ghost use Rattle.tags.specs.TagList.{tags_from, insert_tags};
ghost use Rattle.ring_readers.specs.State.{IsLive, IsEndOf, reader_at, unread_of, past_of, room_of, slowest_of, most_kept, empty_ring, with_reader, with_items, with_taken, without_reader};
ghost use Rattle.buffers.specs.Buffer.{KeepsTagsOf, wanted_tags};

use crate::rings::Rings;
use items::{ItemType, Items};
use ring_readers::{Reader, RingFault};
use std::alloc::{AllocError, Global};
use std::fmt;
use std::marker::Model;
use tags::{Tag, Tags};

/// The buffer of an output. It keeps of the output's stream what a live reader may still take: for each its unread
/// items with the history before them, and the tags at or behind the place of the slowest.
pub struct Buffer {
    rings: Rings,
    tags: Tags,
}

// By hand, so that no crate above proves the drop of each part again.
impl Drop for Buffer {
    fn drop(self) {
        let Buffer { rings, tags } = self;
        drop(rings);
        drop(tags);
    }
}

impl fmt::Debug for Buffer {
    fn fmt<W: fmt::Write>(&self, f: &mut fmt::Formatter<W>) -> fmt::Result {
        f.debug_struct("Buffer").finish_non_exhaustive()
    }
}

impl Model for Buffer {
    ghost use Rattle.std.specs.Prelude.{◌≡◌};
    ghost use Rattle.buffers.specs.Buffer.{BufferState, type_of, ring_of, wanted_tags};

    ghost Value = { BufferState };

    ghost view = { λ b. record { item = type_of b.rings; ring = ring_of b.rings; tags = b.tags.tags; spare = b.tags.spare } };

    ghost invariant = { λ b. wanted_tags (ring_of b.rings) b.tags.tags ≡ b.tags.tags };
}

impl Buffer {
    /// An empty buffer for items of a type, whose readers may each have `capacity` unread items and a history of
    /// `greatest`. `Memory` comes only where the allocator refuses.
    pub fn new(
        alloc: Global,
        item: ItemType,
        capacity: u32,
        greatest: u32,
    ) -> Result<Buffer, RingFault>
        requires some_capacity { 1 ≤ capacity }
        requires some_history { 1 ≤ greatest }
        ensures item { IfOk result (λ b. b.item ≡ item) }
        ensures ring { IfOk result (λ b. b.ring ≡ empty_ring capacity greatest) }
        ensures tags { IfOk result (λ b. b.tags ≡ []) }
    {
        Ok(Buffer {
            rings: Rings::new(alloc, item, capacity, greatest)?,
            tags: Tags::new(alloc),
        })
    }

    /// The type of the items.
    pub fn item_type(&self) -> ItemType
        ensures { result ≡ self.now.item }
    {
        self.rings.item_type()
    }

    /// Adds a reader, which sees up to each item `history` items, that one included. `Memory` comes only where the
    /// allocator refuses.
    pub fn add_reader(&mut self, history: u32) -> Result<Reader, RingFault>
        requires fresh { self.old.ring.written ≡ 0 }
        requires no_tags { self.old.tags ≡ [] }
        requires some_history { 1 ≤ history }
        requires short { history ≤ self.old.ring.greatest }
        ensures reader { IfOk result (λ reader. reader ≡ length self.old.ring.readers) }
        ensures ok { OnOk result (self.new ≡ record self.old { ring = with_reader self.old.ring history }) }
        ensures err { OnErr result (self.new ≡ self.old) }
        ensures live { IfOk result (IsLive self.new.ring) }
        ensures others { (n : ℕ) → IsLive self.old.ring n → IsLive self.new.ring n }
    {
        self.rings.add_reader(history)
    }

    /// Makes room for `n` more tags. It fails only where the allocator refuses.
    pub fn reserve(&mut self, n: usize) -> Result<(), AllocError>
        ensures item { self.new.item ≡ self.old.item }
        ensures ring { self.new.ring ≡ self.old.ring }
        ensures tags { self.new.tags ≡ self.old.tags }
        ensures ok { OnOk result (n ≤ self.new.spare) }
        ensures spare { self.old.spare ≤ self.new.spare }
        ensures succeeds { n ≤ self.old.spare → IsOk result }
        ensures err { OnErr result (self.new ≡ self.old) }
    {
        self.tags.reserve(n)
    }

    /// Writes items, and tags at or behind the first of them. It takes no memory. Where no reader is left, tags are not
    /// kept.
    pub fn push(&mut self, items: &Items, tags: &[Tag])
        requires same_type { typed.type_of items.now ≡ self.old.item }
        requires room { length (numbers_of items.now) ≤ room_of self.old.ring }
        requires small { self.old.ring.written + length (numbers_of items.now) < 2 ^ 62 }
        requires tags_room { length tags.now ≤ self.old.spare }
        requires tags_ahead { All (λ t. self.old.ring.written ≤ t.offset) tags.now }
        ensures item { self.new.item ≡ self.old.item }
        ensures ring { self.new.ring ≡ with_items self.old.ring (numbers_of items.now) }
        ensures tags { self.new.tags ≡ wanted_tags self.old.ring (insert_tags (map tag_of tags.now) self.old.tags) }
        ensures spare { self.new.spare + length self.new.tags ≡ self.old.spare + length self.old.tags }
        ensures stream { (stream : List ℤ) → IsEndOf self.old.ring stream
            → IsEndOf self.new.ring (stream ++ numbers_of items.now) }
        ensures stream_tags { (whole : List model.Tag) → KeepsTagsOf self.old whole
            → KeepsTagsOf self.new (insert_tags (map tag_of tags.now) whole) }
    {
        insert_wanted(&mut self.tags, self.rings.slowest(), tags);
        self.rings.push_slice(items);
    }

    /// How many items have been written.
    pub fn written(&self) -> u64
        ensures { result ≡ self.now.ring.written }
    {
        self.rings.written()
    }

    /// How many more items may be written before the slowest live reader takes some.
    pub fn room(&self) -> usize
        ensures value { result ≡ room_of self.now.ring }
        ensures within { (result ≤ self.now.ring.capacity) × (self.now.ring.capacity < 2 ^ 32) }
    {
        self.rings.room()
    }

    /// Whether a reader is left.
    pub fn is_read(&self) -> bool
        ensures { result ≡ is_some (slowest_of self.now.ring.readers) }
    {
        self.rings.slowest().is_some()
    }

    /// How many items are kept.
    pub fn items(&self) -> usize
        ensures value { result ≡ length self.now.ring.kept }
        ensures all { result ≡ min self.now.ring.written (most_kept self.now.ring.capacity self.now.ring.greatest) }
        ensures near { IfSome (slowest_of self.now.ring.readers) (λ place.
            self.now.ring.written ≤ place + self.now.ring.capacity) }
    {
        let _ = self.rings.written();
        let _ = self.rings.slowest();
        self.rings.kept()
    }

    /// How many items the reader has not taken.
    pub fn unread(&self, reader: Reader) -> usize
        requires { IsLive self.now.ring reader }
        ensures value { result ≡ unread_of self.now.ring reader }
        ensures near { (result ≤ self.now.ring.capacity) × (self.now.ring.capacity < 2 ^ 32) }
    {
        self.rings.unread(reader)
    }

    /// How many items the reader sees up to each one, that one included.
    pub fn history(&self, reader: Reader) -> u32
        requires { IsLive self.now.ring reader }
        ensures value { result ≡ (reader_at self.now.ring reader).history }
        ensures some { 1 ≤ result }
    {
        self.rings.history(reader)
    }

    /// Appends what the reader sees with its next `count` items: the items before its place that its history has, with
    /// zeros before item 0, and those `count`. It takes no memory.
    pub fn window(&self, reader: Reader, count: usize, out: &mut Items)
        requires same_type { typed.type_of out.old ≡ self.now.item }
        requires live { IsLive self.now.ring reader }
        requires unread { count ≤ unread_of self.now.ring reader }
        requires room { past_of self.now.ring reader + count ≤ spare_of out.old }
        ensures same_type { typed.type_of out.new ≡ typed.type_of out.old }
        ensures items { (stream : List ℤ) → IsEndOf self.now.ring stream →
            let place = (reader_at self.now.ring reader).place in
            numbers_of out.new ≡ numbers_of out.old ++ window stream (past_of self.now.ring reader) place
            (place + count) }
        ensures len { length (numbers_of out.new) ≡ length (numbers_of out.old) + past_of self.now.ring reader + count }
        ensures spare { spare_of out.old ≤ spare_of out.new + past_of self.now.ring reader + count }
    {
        self.rings.window(reader, count, out)
    }

    /// Whether the items are what `window` appends for the reader's next `count` items.
    pub fn is_window(&self, reader: Reader, count: usize, items: &Items) -> bool
        requires same_type { typed.type_of items.now ≡ self.now.item }
        requires live { IsLive self.now.ring reader }
        requires unread { count ≤ unread_of self.now.ring reader }
        ensures { (stream : List ℤ) → IsEndOf self.now.ring stream →
            let place = (reader_at self.now.ring reader).place in
            IsTrue result ↔ (numbers_of items.now ≡ window stream (past_of self.now.ring reader) place
            (place + count)) }
    {
        self.rings.is_window(reader, count, items)
    }

    /// The tags on the reader's next `count` items.
    pub fn tags(&self, reader: Reader, count: usize) -> &[Tag]
        requires live { IsLive self.now.ring reader }
        requires unread { count ≤ unread_of self.now.ring reader }
        ensures kept { let place = (reader_at self.now.ring reader).place in map tag_of result.now
            ≡ tags_within place (place + count) self.now.tags }
        ensures stream_tags { (whole : List model.Tag) → KeepsTagsOf self.now whole →
            let place = (reader_at self.now.ring reader).place in map tag_of result.now
            ≡ tags_within place (place + count) whole }
    {
        let place = self.rings.place(reader);
        self.tags.range(place, place + count as u64)
    }

    /// How many tags lie on items that were written, from the slowest live reader's place on; none where no reader is
    /// left.
    pub fn tags_kept(&self) -> usize
        ensures value { result ≡ length (tags_within 0 self.now.ring.written self.now.tags) }
        ensures none { slowest_of self.now.ring.readers ≡ None → result ≡ 0 }
    {
        self.tags.range(0, self.rings.written()).len()
    }

    /// The reader takes its next `count` items. Tags before the slowest live reader are forgotten.
    pub fn advance(&mut self, reader: Reader, count: usize)
        requires live { IsLive self.old.ring reader }
        requires unread { count ≤ unread_of self.old.ring reader }
        ensures item { self.new.item ≡ self.old.item }
        ensures ring { self.new.ring ≡ with_taken self.old.ring reader count }
        ensures tags { self.new.tags ≡ wanted_tags self.new.ring self.old.tags }
        ensures spare { self.new.spare + length self.new.tags ≡ self.old.spare + length self.old.tags }
        ensures live { (n : ℕ) → IsLive self.old.ring n → IsLive self.new.ring n }
        ensures stream_tags { (whole : List model.Tag) → KeepsTagsOf self.old whole → KeepsTagsOf self.new whole }
    {
        self.rings.advance(reader, count);
        prune(&mut self.tags, self.rings.slowest());
    }

    /// The buffer waits for the reader no longer. Tags before the slowest live reader are forgotten, all where none is
    /// left.
    pub fn drop_reader(&mut self, reader: Reader)
        requires { IsLive self.old.ring reader }
        ensures item { self.new.item ≡ self.old.item }
        ensures ring { self.new.ring ≡ without_reader self.old.ring reader }
        ensures tags { self.new.tags ≡ wanted_tags self.new.ring self.old.tags }
        ensures spare { self.new.spare + length self.new.tags ≡ self.old.spare + length self.old.tags }
        ensures others { (n : ℕ) → n ≢ reader → IsLive self.old.ring n → IsLive self.new.ring n }
        ensures stream_tags { (whole : List model.Tag) → KeepsTagsOf self.old whole → KeepsTagsOf self.new whole }
    {
        self.rings.drop_reader(reader);
        prune(&mut self.tags, self.rings.slowest());
    }
}

// Inserts tags where a reader is left to take them.
fn insert_wanted(tags: &mut Tags, slowest: Option<u64>, more: &[Tag])
    requires { length more.now ≤ tags.old.spare }
    ensures tags { tags.new.tags ≡ option_map_or (λ _. insert_tags (map tag_of more.now) tags.old.tags) slowest
        tags.old.tags }
    ensures spare { tags.new.spare + length tags.new.tags ≡ tags.old.spare + length tags.old.tags }
{
    match slowest {
        Some(_) => tags.insert_all(more),
        None => {}
    }
}

// Forgets the tags before the slowest reader, all where there is none.
fn prune(tags: &mut Tags, slowest: Option<u64>)
    ensures tags { tags.new.tags ≡ option_map_or (λ place. tags_from place tags.old.tags) slowest [] }
    ensures spare { tags.new.spare + length tags.new.tags ≡ tags.old.spare + length tags.old.tags }
{
    match slowest {
        Some(place) => tags.prune(place),
        None => tags.clear(),
    }
}
