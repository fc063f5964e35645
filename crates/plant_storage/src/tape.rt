//! The tapes of sources.

ghost use Rattle.std.specs.Prelude.{◌≡◌, ◌+◌, ◌^◌, ◌<◌, ◌≤◌, ◌++◌, ◌↔◌, length, map, IsTrue, IfOk, OnOk, OnErr};
ghost use Rattle.std.specs.Vec.{vec_len, vec_capacity};
ghost use Rattle.items.specs.Items.{type_of, numbers_of};
ghost use Rattle.items.specs.Tags.{tag_of};
ghost use Rattle.plant_storage.specs.Marks.{mark_of, stamped};
ghost use Rattle.plant_storage.specs.Tapes.{blank_tape, longer_tape, room_for, shorter_tape};

use items::{ItemType, Items, Mark, Tag};
use recordings::{Past, Recording};
use std::alloc::{AllocError, Global};
use std::fmt;
use std::marker::Model;

/// What a source was fed: its items, and the tags on them, both in their order and in that of feeding. What it forgets
/// takes no memory.
#[derive(Drop)]
pub struct Tape {
    recording: Recording,
    // The same tags in the order of feeding, which the recording does not keep. Those that are out of memory are so
    // many of each of these.
    forgotten: Past<Vec<Tag>, usize>,
    marks: Vec<Tag>,
}

impl fmt::Debug for Tape {
    fn fmt<W: fmt::Write>(&self, f: &mut fmt::Formatter<W>) -> fmt::Result {
        f.debug_struct("Tape").finish_non_exhaustive()
    }
}

impl Model for Tape {
    ghost use Rattle.std.specs.Prelude.{◌≡◌, ◌++◌, [], map, take, flat_map};
    ghost use Rattle.std.specs.Vec.{vec_len, vec_capacity};
    ghost use Rattle.items.specs.Tags.{tag_of};
    ghost use Rattle.plant_storage.specs.Tapes.{TapeState};

    ghost Value = { TapeState };

    ghost view = { λ t. record {
      item = t.recording.item;
      items = t.recording.items;
      tags = t.recording.tags;
      marks = map tag_of (flat_map (λ p. take p.1 p.0.items) t.forgotten.pieces ++ t.marks.items);
      from = t.recording.from;
      marks_held = vec_len t.marks;
      marks_room = vec_capacity t.marks;
    } };

    ghost invariant = { λ t. t.recording.from ≡ 0 → flat_map (λ p. take p.1 p.0.items) t.forgotten.pieces ≡ [] };
}

impl Tape {
    /// A tape without items. It takes no memory.
    pub fn new(alloc: Global, item: ItemType) -> Tape
        ensures { result ≡ blank_tape item }
    {
        Tape {
            recording: Recording::new(alloc, item),
            forgotten: Past::new(),
            marks: Vec::new(alloc),
        }
    }

    /// How many items it has.
    pub fn len(&self) -> u64
        ensures value { result ≡ length self.now.items }
        ensures small { result < 2 ^ 63 }
    {
        self.recording.len()
    }

    /// Its items and its tags in order.
    pub fn recording(&self) -> &Recording
        ensures item { result.now.item ≡ self.now.item }
        ensures items { result.now.items ≡ self.now.items }
        ensures tags { result.now.tags ≡ self.now.tags }
        ensures from { result.now.from ≡ self.now.from }
    {
        &self.recording
    }

    /// Puts items at its end, with each mark as a tag of the source. An `Err` changes nothing.
    pub fn feed(&mut self, source: u32, items: &Items, marks: &[Mark]) -> Result<(), AllocError>
        requires { type_of items.now ≡ self.old.item }
        ensures ok { OnOk result (self.new ≡ longer_tape self.old source (numbers_of items.now)
            (map mark_of marks.now)) }
        ensures err { OnErr result (self.new ≡ self.old) }
    {
        self.recording.reserve(items.len(), marks.len())?;
        make_room(&mut self.marks, marks.len())?;
        let before = self.marks.len();
        push_stamped(&mut self.marks, source, marks);
        self.recording.push(items, &self.marks[before..]);
        Ok(())
    }

    /// The items before `to` and the tags on them are forgotten, and all tags in the order of feeding. It takes no
    /// memory.
    pub fn forget(&mut self, to: u64)
        requires kept { self.old.from ≤ to }
        requires within { to ≤ length self.old.items }
        ensures { self.new ≡ shorter_tape self.old to }
    {
        if to == 0 {
            return;
        }
        self.recording.forget(to);
        self.forgotten = self.forgotten.and(&self.marks, &self.marks.len());
        self.marks.clear();
    }

    /// The same tape in memory of its own. It fails only where the allocator refuses.
    pub fn copy(&self, alloc: Global) -> Result<Tape, AllocError>
        ensures { IfOk result (λ copy. copy ≡ self.now) }
    {
        Ok(Tape {
            recording: self.recording.copy(alloc)?,
            forgotten: self.forgotten.and(&self.marks, &0),
            marks: copied(alloc, &self.marks)?,
        })
    }

    /// Whether items and marks are the same. It looks at each once, and copies none.
    pub fn is_same(&self, other: &Tape) -> bool
        requires whole { self.now.from ≡ 0 }
        requires other_whole { other.now.from ≡ 0 }
        ensures { IsTrue result ↔ ((self.now.items ≡ other.now.items) × (self.now.marks ≡ other.now.marks)) }
    {
        same_numbers(self.recording.kept().items, other.recording.kept().items)
            && are_same(&self.marks, &other.marks)
    }
}

impl Clone for Tape {
    ghost is_clone = { λ tape copy. copy ≡ tape };

    fn clone(&self) -> Result<Tape, AllocError> {
        self.copy(*self.marks.allocator())
    }
}

// The same tags in memory of their own, with as much room.
fn copied(alloc: Global, tags: &Vec<Tag>) -> Result<Vec<Tag>, AllocError>
    ensures items { IfOk result (λ copy. copy.items ≡ tags.now.items) }
    ensures len { IfOk result (λ copy. vec_len copy ≡ vec_len tags.now) }
    ensures room { IfOk result (λ copy. vec_capacity copy ≡ vec_capacity tags.now) }
{
    let mut copy = Vec::with_capacity(alloc, tags.capacity())?;
    for tag in tags {
        copy.push_reserved(*tag);
    }
    Ok(copy)
}

// Makes room for `n` more tags. `Vec::reserve` does not say how much it takes.
fn make_room(tags: &mut Vec<Tag>, n: usize) -> Result<(), AllocError>
    ensures items { tags.new.items ≡ tags.old.items }
    ensures len { vec_len tags.new ≡ vec_len tags.old }
    ensures fits { OnOk result (vec_len tags.new + n ≤ vec_capacity tags.new) }
    ensures room { OnOk result (vec_capacity tags.new ≡ room_for (vec_len tags.old) (vec_capacity tags.old) n) }
    ensures err { OnErr result (vec_capacity tags.new ≡ vec_capacity tags.old) }
{
    if n <= tags.capacity() - tags.len() {
        return Ok(());
    }
    tags.reserve_exact(n.max(tags.len()))
}

// Appends the tag that each mark becomes. It takes no memory.
fn push_stamped(tags: &mut Vec<Tag>, source: u32, marks: &[Mark])
    requires { vec_len tags.old + length marks.now ≤ vec_capacity tags.old }
    ensures items { tags.new.items ≡ tags.old.items ++ map (stamped source) marks.now }
    ensures len { vec_len tags.new ≡ vec_len tags.old + length marks.now }
    ensures capacity { vec_capacity tags.new ≡ vec_capacity tags.old }
{
    for mark in marks {
        tags.push_reserved(Tag {
            offset: mark.offset,
            key: mark.key,
            value: mark.value,
            source,
        });
    }
}

// Whether the numbers are the same, whatever their types.
fn same_numbers(one: &Items, other: &Items) -> bool
    ensures { IsTrue result ↔ (numbers_of one.now ≡ numbers_of other.now) }
{
    if one.item_type() == other.item_type() {
        return one == other;
    }
    if one.len() != other.len() {
        return false;
    }
    for place in 0..one.len() {
        if one.number(place) != other.number(place) {
            return false;
        }
    }
    true
}

/// Whether the tags are the same, one by one.
pub fn are_same(one: &[Tag], other: &[Tag]) -> bool
    ensures { IsTrue result ↔ (map tag_of one.now ≡ map tag_of other.now) }
{
    one == other
}
