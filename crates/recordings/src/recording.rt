//! A stream of which only the end may be in memory: its items, and its tags.

ghost use Rattle.std.specs.Prelude.{◌≡◌, ◌+◌, ◌-◌, ◌*◌, ◌≤◌, ◌^◌, [], ◌++◌, length, map, drop, slice_range, IfOk, OnOk, IsOk, max, ◌==◌};
ghost use Rattle.stream_model.specs.Tags.{tags_within};
ghost use Rattle.items.specs.Items as typed;
ghost use Rattle.items.specs.Items.{numbers_of};
ghost use Rattle.items.specs.Tags.{tag_of};
ghost use Rattle.tags.specs.TagList.{insert_tags, tags_from};

use crate::recent_items::{Kept, RecentItems};
use crate::recent_tags::RecentTags;
use items::{ItemType, Items};
use std::alloc::{AllocError, Global};
use std::marker::Model;
use tags::Tag;

/// A stream: its items, and its tags in their order. What it forgets takes no memory.
#[derive(Debug, Drop)]
pub struct Recording {
    items: RecentItems,
    tags: RecentTags,
}

impl Model for Recording {
    ghost use Rattle.std.specs.Prelude.{◌≡◌};
    ghost use Rattle.recordings.specs.Recording.{RecordingState};

    ghost Value = { RecordingState };

    ghost view = { λ r. record {
      item = r.items.item;
      items = r.items.items;
      tags = r.tags.tags;
      from = r.items.from;
      spare_items = r.items.spare;
      spare_tags = r.tags.spare;
      capacity = r.items.capacity;
    } };

    ghost invariant = { λ r. r.tags.from ≡ r.items.from };
}

impl Recording {
    /// No items of the type, and no tags. It takes no memory.
    pub fn new(alloc: Global, item: ItemType) -> Recording
        ensures item { result.item ≡ item }
        ensures items { result.items ≡ [] }
        ensures tags { result.tags ≡ [] }
        ensures from { result.from ≡ 0 }
    {
        Recording {
            items: RecentItems::new(alloc, item),
            tags: RecentTags::new(alloc),
        }
    }

    /// The type of the items.
    pub fn item_type(&self) -> ItemType
        ensures { result ≡ self.now.item }
    {
        self.items.item_type()
    }

    /// How many items there are, with those that are forgotten.
    pub fn len(&self) -> u64
        ensures value { result ≡ length self.now.items }
        ensures small { result ≤ 2 ^ 62 }
    {
        self.items.len()
    }

    /// Whether there is no item.
    pub fn is_empty(&self) -> bool
        ensures { result ≡ (length self.now.items == 0) }
    {
        self.len() == 0
    }

    /// The first item that is kept.
    pub fn from(&self) -> u64
        ensures value { result ≡ self.now.from }
        ensures within { result ≤ length self.now.items }
    {
        self.items.from()
    }

    /// How many items are in memory: all that are kept, and at most twice as many.
    pub fn in_memory(&self) -> usize
        ensures least { length self.now.items - self.now.from ≤ result }
        ensures most { result ≤ 2 * (length self.now.items - self.now.from) }
    {
        self.items.in_memory()
    }

    /// How many tags are in memory: those on items that are kept.
    pub fn tags_in_memory(&self) -> usize
        ensures { result ≡ length (tags_from self.now.from self.now.tags) }
    {
        self.tags.in_memory()
    }

    /// Makes room for so many more items and tags. It fails only where the allocator refuses, or where there would be
    /// more than 2^62 items.
    pub fn reserve(&mut self, items: usize, tags: usize) -> Result<(), AllocError>
        ensures item { self.new.item ≡ self.old.item }
        ensures items { self.new.items ≡ self.old.items }
        ensures tags { self.new.tags ≡ self.old.tags }
        ensures from { self.new.from ≡ self.old.from }
        ensures ok { OnOk result ((items ≤ self.new.spare_items) × (tags ≤ self.new.spare_tags)) }
        ensures spare { (self.old.spare_items ≤ self.new.spare_items) × (self.old.spare_tags ≤ self.new.spare_tags) }
        ensures capacity { self.new.capacity ≤ max self.old.capacity (4 * (length
            self.old.items - self.old.from) + items) }
        ensures succeeds { items ≤ self.old.spare_items → tags ≤ self.old.spare_tags → IsOk result }
    {
        self.items.reserve(items)?;
        self.tags.reserve(tags)
    }

    /// Appends items, and takes in tags. It takes no memory.
    pub fn push(&mut self, items: &Items, tags: &[Tag])
        requires same_type { typed.type_of items.now ≡ self.old.item }
        requires room { length (numbers_of items.now) ≤ self.old.spare_items }
        requires tags_room { length tags.now ≤ self.old.spare_tags }
        ensures item { self.new.item ≡ self.old.item }
        ensures items { self.new.items ≡ self.old.items ++ numbers_of items.now }
        ensures tags { self.new.tags ≡ insert_tags (map tag_of tags.now) self.old.tags }
        ensures from { self.new.from ≡ self.old.from }
        ensures spare { self.old.spare_items ≤ self.new.spare_items + length (numbers_of items.now) }
        ensures spare_tags { self.old.spare_tags ≤ self.new.spare_tags + length tags.now }
    {
        self.items.push(items);
        self.tags.insert_all(tags);
    }

    /// The items in memory. They begin with the first that is kept, or before it.
    pub fn kept(&self) -> Kept<'_>
        ensures first { result.first ≤ self.now.from }
        ensures item { typed.type_of result.items.now ≡ self.now.item }
        ensures items { numbers_of result.items.now ≡ drop result.first self.now.items }
    {
        self.items.kept()
    }

    /// A copy of items `from` to below `to`, which are kept. It fails only where the allocator refuses.
    pub fn slice(&self, alloc: Global, from: u64, to: u64) -> Result<Items, AllocError>
        requires kept { self.now.from ≤ from }
        requires ordered { from ≤ to }
        requires within { to ≤ length self.now.items }
        ensures item { IfOk result (λ items. typed.type_of items ≡ self.now.item) }
        ensures items { IfOk result (λ items. numbers_of items ≡ slice_range self.now.items from to) }
    {
        self.items.slice(alloc, from, to)
    }

    /// The tags on items `from` to below `to`, which are kept.
    pub fn tags(&self, from: u64, to: u64) -> &[Tag]
        requires { self.now.from ≤ from }
        ensures { map tag_of result.now ≡ tags_within from to self.now.tags }
    {
        self.tags.range(from, to)
    }

    /// The items before `to` and the tags on them are forgotten. It takes no memory, and moving those that are kept is
    /// amortized over those that are forgotten.
    pub fn forget(&mut self, to: u64)
        requires kept { self.old.from ≤ to }
        requires within { to ≤ length self.old.items }
        ensures item { self.new.item ≡ self.old.item }
        ensures items { self.new.items ≡ self.old.items }
        ensures tags { self.new.tags ≡ self.old.tags }
        ensures from { self.new.from ≡ to }
        ensures spare { (self.old.spare_items ≤ self.new.spare_items) × (self.old.spare_tags ≤ self.new.spare_tags) }
    {
        self.items.forget(to);
        self.tags.forget(to);
    }

    /// The same items and tags in memory of their own; what is forgotten stays so. It fails only where the allocator
    /// refuses.
    pub fn copy(&self, alloc: Global) -> Result<Recording, AllocError>
        ensures item { IfOk result (λ copy. copy.item ≡ self.now.item) }
        ensures items { IfOk result (λ copy. copy.items ≡ self.now.items) }
        ensures tags { IfOk result (λ copy. copy.tags ≡ self.now.tags) }
        ensures from { IfOk result (λ copy. copy.from ≡ self.now.from) }
    {
        Ok(Recording {
            items: self.items.copy(alloc)?,
            tags: self.tags.copy(alloc)?,
        })
    }
}
