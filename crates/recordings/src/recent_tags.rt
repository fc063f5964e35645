//! Tags of which only those on the last items may be in memory.

ghost use Rattle.std.specs.Prelude.{◌≡◌, ◌+◌, ◌≤◌, ℕ, [], length, map, false, IfOk, OnOk, IsOk};
ghost use Rattle.stream_model.specs.Tags.{IsOrdered, tags_within};
ghost use Rattle.items.specs.Tags.{tag_of};
ghost use Rattle.tags.specs.TagList.{insert_tags, tags_from};
ghost use Rattle.recordings.specs.Recent.{LieBefore, LieFrom, forgotten_tags};

use crate::past::Past;
use std::alloc::{AllocError, Global};
use std::fmt;
use std::marker::Model;
use tags::{Tag, Tags};

/// The tags of a stream in their order, of which those on the first items may be forgotten. A contract sees all of
/// them, and which is the first item whose tags are kept.
#[derive(Drop)]
pub struct RecentTags {
    // The tags that are out of memory: of each of these those on items below one.
    forgotten: Past<Tags, u64>,
    from: u64,
    // Those in memory: the tags on items from `from` on.
    tags: Tags,
}

impl fmt::Debug for RecentTags {
    fn fmt<W: fmt::Write>(&self, f: &mut fmt::Formatter<W>) -> fmt::Result {
        f.debug_struct("RecentTags").finish_non_exhaustive()
    }
}

impl Model for RecentTags {
    ghost use Rattle.tags.specs.TagList.{insert_tags};
    ghost use Rattle.recordings.specs.Recent.{TagsState, AreRecentTags, forgotten_tags};

    ghost Value = { TagsState };

    ghost view = { λ r. record {
      tags = insert_tags (forgotten_tags r.forgotten.pieces) r.tags.tags;
      from = r.from;
      spare = r.tags.spare;
    } };

    ghost invariant = { λ r. AreRecentTags r.from r.forgotten.pieces r.tags.tags };
}

impl RecentTags {
    /// No tags. It takes no memory.
    pub fn new(alloc: Global) -> RecentTags
        ensures tags { result.tags ≡ [] }
        ensures from { result.from ≡ 0 }
    {
        RecentTags {
            forgotten: Past::new(),
            from: 0,
            tags: Tags::new(alloc),
        }
    }

    /// How many tags are in memory: those on items from the first on whose tags are kept.
    pub fn in_memory(&self) -> usize
        ensures { result ≡ length (tags_from self.now.from self.now.tags) }
    {
        self.tags.len()
    }

    /// Makes room for `n` more tags. It fails only where the allocator refuses.
    pub fn reserve(&mut self, n: usize) -> Result<(), AllocError>
        ensures tags { self.new.tags ≡ self.old.tags }
        ensures from { self.new.from ≡ self.old.from }
        ensures ok { OnOk result (n ≤ self.new.spare) }
        ensures spare { self.old.spare ≤ self.new.spare }
        ensures succeeds { n ≤ self.old.spare → IsOk result }
    {
        self.tags.reserve(n)
    }

    /// Takes in tags, each at its place. Those on items whose tags are not kept are forgotten at once. It takes no
    /// memory.
    pub fn insert_all(&mut self, more: &[Tag])
        requires { length more.now ≤ self.old.spare }
        ensures tags { self.new.tags ≡ insert_tags (map tag_of more.now) self.old.tags }
        ensures from { self.new.from ≡ self.old.from }
        ensures spare { self.old.spare ≤ self.new.spare + length more.now }
    {
        self.tags.insert_all(more);
        take_out(&mut self.forgotten, &mut self.tags, self.from);
    }

    /// The tags on items `from` to below `to`, which are kept.
    pub fn range(&self, from: u64, to: u64) -> &[Tag]
        requires { self.now.from ≤ from }
        ensures { map tag_of result.now ≡ tags_within from to self.now.tags }
    {
        self.tags.range(from, to)
    }

    /// The tags on items before `to` are forgotten. It takes no memory.
    pub fn forget(&mut self, to: u64)
        requires { self.old.from ≤ to }
        ensures tags { self.new.tags ≡ self.old.tags }
        ensures from { self.new.from ≡ to }
        ensures spare { self.old.spare ≤ self.new.spare }
    {
        take_out(&mut self.forgotten, &mut self.tags, to);
        self.from = to;
    }

    /// The same tags in memory of their own; what is forgotten stays so. It fails only where the allocator refuses.
    pub fn copy(&self, alloc: Global) -> Result<RecentTags, AllocError>
        ensures tags { IfOk result (λ copy. copy.tags ≡ self.now.tags) }
        ensures from { IfOk result (λ copy. copy.from ≡ self.now.from) }
    {
        let mut tags = Tags::new(alloc);
        tags.reserve(self.tags.len())?;
        tags.insert_all(self.tags.as_slice());
        Ok(RecentTags {
            forgotten: self.forgotten.and(&self.tags, &0),
            from: self.from,
            tags,
        })
    }
}

// Takes the tags on items before `to` out of memory. It looks at one tag where there is none.
fn take_out(forgotten: &mut Past<Tags, u64>, tags: &mut Tags, to: u64)
    ensures same { insert_tags (forgotten_tags forgotten.new.pieces) tags.new.tags
        ≡ insert_tags (forgotten_tags forgotten.old.pieces) tags.old.tags }
    ensures before { (from : ℕ) → from ≤ to → LieBefore from forgotten.old.pieces → LieBefore to forgotten.new.pieces }
    ensures behind { LieFrom to tags.new.tags }
    ensures spare { tags.old.spare ≤ tags.new.spare }
{
    if begins_before(tags.as_slice(), to) {
        *forgotten = forgotten.and(tags, &to);
        tags.prune(to);
    }
}

// Whether the first of the tags is on an item before `to`. If not, none is.
fn begins_before(tags: &[Tag], to: u64) -> bool
    requires { IsOrdered (map tag_of tags.now) }
    ensures { result ≡ false → LieFrom to (map tag_of tags.now) }
{
    match tags.first() {
        Some(first) => first.offset < to,
        None => false,
    }
}
