//! The tags of a stream, in their order.
ghost use Rattle.std.specs.Prelude.{◌≡◌, ◌+◌, ◌-◌, ◌<◌, ◌≤◌, ◌↔◌, [], ◌∷◌, ◌++◌, length, map, take, drop, insert, nat_lt, All, true, false, IsTrue, IsNone, IfSome, IsOk, OnOk, OnErr, vec_len, vec_capacity};
ghost use Rattle.std.specs.Ordering.{is_lt, is_le};
ghost use Rattle.std.specs.List.Sorted.{IsPartitionPoint};
ghost use Rattle.stream_model.specs.Tags.{IsOrdered, tag_cmp, insert_tag, tags_within};
ghost use Rattle.items.specs.Tags.{tag_of};
ghost use Rattle.tags.specs.TagList.{tags_from, insert_tags};

use items::Tag;
use std::alloc::{AllocError, Global};
use std::marker::Model;

// How many tags at most are put in one after the other: moving the tags behind each of them costs less than sorting
// these.
const FEW: usize = 16;

/// The tags of a stream, ordered by offset, key, value and source. Duplicates are kept. A contract sees the list, and
/// how many more tags fit before memory is needed.
#[derive(Debug, Drop)]
pub struct Tags {
    // The tags, behind those that are gone. Half of the room is for these, so that they may wait until they are as many
    // as the tags behind them: forgetting then costs as many steps as tags go, whatever stays.
    row: Vec<Tag>,
    gone: usize,
}

impl Model for Tags {
    ghost use Rattle.std.specs.Prelude.{◌-◌, ◌/◌};
    ghost use Rattle.std.specs.Vec.{vec_len, vec_capacity};
    ghost use Rattle.tags.specs.TagList.{TagList, kept_of, IsRow};

    ghost Value = { TagList };

    ghost view = { λ t. record {
      tags = kept_of t.row.items t.gone;
      spare = vec_capacity t.row / 2 - (vec_len t.row - t.gone);
    } };

    ghost invariant = { λ t. IsRow t.row.items (vec_len t.row) (vec_capacity t.row) t.gone };
}

impl Tags {
    /// No tags. It takes no memory.
    pub fn new(alloc: Global) -> Tags
        ensures tags { result.tags ≡ [] }
        ensures spare { result.spare ≡ 0 }
    {
        Tags {
            row: Vec::new(alloc),
            gone: 0,
        }
    }

    /// How many tags there are.
    pub fn len(&self) -> usize
        ensures { result ≡ length self.now.tags }
    {
        self.row.len() - self.gone
    }

    /// Whether there is no tag.
    pub fn is_empty(&self) -> bool
        ensures { IsTrue result ↔ (self.now.tags ≡ []) }
    {
        self.len() == 0
    }

    /// All tags, in their order.
    pub fn as_slice(&self) -> &[Tag]
        ensures tags { map tag_of result.now ≡ self.now.tags }
        ensures ordered { IsOrdered self.now.tags }
    {
        &self.row[self.gone..]
    }

    /// Makes room for `n` more tags, with new memory where fewer fit. It fails only where the allocator refuses, and
    /// then changes nothing.
    pub fn reserve(&mut self, n: usize) -> Result<(), AllocError>
        ensures tags { self.new.tags ≡ self.old.tags }
        ensures ok { OnOk result (n ≤ self.new.spare) }
        ensures spare { self.old.spare ≤ self.new.spare }
        ensures succeeds { n ≤ self.old.spare → IsOk result }
        ensures err { OnErr result (self.new ≡ self.old) }
    {
        let kept = self.row.len() - self.gone;
        if n <= self.row.capacity() / 2 - kept {
            return Ok(());
        }
        // A number that no memory holds stands for all above it.
        let room = kept.saturating_add(n).saturating_mul(2);
        self.row.reserve(room - self.row.len())
    }

    /// Adds a tag at its place, where there is room. It takes no memory. The common case, a tag that goes last, takes
    /// one comparison.
    pub fn insert_reserved(&mut self, tag: Tag)
        requires { 0 < self.old.spare }
        ensures tags { self.new.tags ≡ insert_tag (tag_of tag) self.old.tags }
        ensures spare { self.new.spare + 1 ≡ self.old.spare }
    {
        if comes_last(&self.row[self.gone..], &tag) {
            self.row.push_reserved(tag);
            return;
        }
        let place = place_of(&self.row[self.gone..], &tag);
        if self.row.insert(self.gone + place, tag).is_err() {
            unreachable!();
        }
    }

    /// Adds tags at their places, where there is room. It takes no memory. A few are put in one after the other; more
    /// are sorted at once, together with the tags from the least of them on.
    pub fn insert_all(&mut self, more: &[Tag])
        requires { length more.now ≤ self.old.spare }
        ensures tags { self.new.tags ≡ insert_tags (map tag_of more.now) self.old.tags }
        ensures spare { self.new.spare + length more.now ≡ self.old.spare }
        ensures room { self.new.spare + length self.new.tags ≡ self.old.spare + length self.old.tags }
    {
        if more.len() <= FEW {
            self.insert_each(more);
            return;
        }
        let kept = self.row.len() - self.gone;
        append(&mut self.row, more);
        sort_in(&mut self.row[self.gone..], kept);
    }

    // Adds tags one after the other, where there is room.
    fn insert_each(&mut self, more: &[Tag])
        requires { length more.now ≤ self.old.spare }
        ensures tags { self.new.tags ≡ insert_tags (map tag_of more.now) self.old.tags }
        ensures spare { self.new.spare + length more.now ≡ self.old.spare }
        ensures room { self.new.spare + length self.new.tags ≡ self.old.spare + length self.old.tags }
    {
        for tag in more {
            self.insert_reserved(*tag);
        }
    }

    /// The tags on items `from` to below `to`; none where `to` is not above `from`. Both places are searched by
    /// halving.
    pub fn range(&self, from: u64, to: u64) -> &[Tag]
        ensures { map tag_of result.now ≡ tags_within from to self.now.tags }
    {
        let tags = self.as_slice();
        let first = count_before(tags, from);
        let end = count_before(tags, to);
        &tags[first..end.max(first)]
    }

    /// Drops the tags on items before `before`, and keeps the memory. It looks at one tag where there is none to drop;
    /// else it searches by halving, and moving the rest is amortized over the tags dropped.
    pub fn prune(&mut self, before: u64)
        ensures tags { self.new.tags ≡ tags_from before self.old.tags }
        ensures spare { self.new.spare + length self.new.tags ≡ self.old.spare + length self.old.tags }
    {
        let gone = self.gone + count_before(&self.row[self.gone..], before);
        let kept = self.row.len() - gone;
        if gone <= kept {
            self.gone = gone;
        } else {
            move_to_front(&mut self.row, gone);
            self.row.truncate(kept);
            self.gone = 0;
        }
    }

    /// Drops each tag, and keeps the memory.
    pub fn clear(&mut self)
        ensures tags { self.new.tags ≡ [] }
        ensures spare { self.new.spare ≡ self.old.spare + length self.old.tags }
    {
        self.row.clear();
        self.gone = 0;
    }
}

// Whether it is seen at once that `tag` goes behind all others.
fn comes_last(tags: &[Tag], tag: &Tag) -> bool
    requires { IsOrdered (map tag_of tags.now) }
    ensures { result ≡ true → insert_tag (tag_of tag.now) (map tag_of tags.now) ≡ map tag_of tags.now
        ++ tag_of tag.now ∷ [] }
{
    match tags.last() {
        Some(last) => last <= tag,
        None => true,
    }
}

// Behind how many of the tags `tag` goes.
fn place_of(tags: &[Tag], tag: &Tag) -> usize
    requires { IsOrdered (map tag_of tags.now) }
    ensures bound { result ≤ length tags.now }
    ensures place { insert_tag (tag_of tag.now) (map tag_of tags.now)
        ≡ insert (map tag_of tags.now) result (tag_of tag.now) }
{
    tags.partition_point(|before| before < tag)
}

// Appends tags where there is room.
fn append(row: &mut Vec<Tag>, more: &[Tag])
    requires { vec_len row.old + length more.now ≤ vec_capacity row.old }
    ensures items { row.new.items ≡ row.old.items ++ more.now }
    ensures capacity { vec_capacity row.new ≡ vec_capacity row.old }
{
    for tag in more {
        row.push_reserved(*tag);
    }
}

// Whether all tags are in order, of which those before place `kept` are.
fn are_in_order(tags: &[Tag], kept: usize) -> bool
    requires within { kept ≤ length tags.now }
    requires ordered { IsOrdered (map tag_of (take kept tags.now)) }
    ensures { result ≡ true → IsOrdered (map tag_of tags.now) }
{
    tags[kept.saturating_sub(1)..].is_sorted()
}

// Moves the tags from place `kept` on to their places among those before it, which are in order. The common case, tags
// in order that go behind all others, takes one comparison for each.
fn sort_in(tags: &mut [Tag], kept: usize)
    requires within { kept ≤ length tags.old }
    requires ordered { IsOrdered (map tag_of (take kept tags.old)) }
    ensures len { length tags.new ≡ length tags.old }
    ensures tags { map tag_of tags.new ≡ insert_tags (map tag_of (drop kept tags.old))
        (map tag_of (take kept tags.old)) }
{
    if are_in_order(tags, kept) {
        return;
    }
    let (before, more) = tags.split_at(kept);
    if let Some(least) = least_of(more) {
        let place = count_upto(before, least);
        tags[place..].sort_unstable();
    }
}

// The least of the tags.
fn least_of(tags: &[Tag]) -> Option<&Tag>
    ensures none { IsNone result → tags.now ≡ [] }
    ensures least { IfSome result (λ least. All (λ t. is_lt (tag_cmp (tag_of t) (tag_of least.now)) ≡ false) tags.now) }
{
    tags.iter().min()
}

// How many of the tags are not behind `tag`.
fn count_upto(tags: &[Tag], tag: &Tag) -> usize
    requires { IsOrdered (map tag_of tags.now) }
    ensures bound { result ≤ length tags.now }
    ensures point { IsPartitionPoint (λ t. is_le (tag_cmp (tag_of t) (tag_of tag.now)) ≡ true)
        (λ t. is_le (tag_cmp (tag_of t) (tag_of tag.now)) ≡ false) tags.now result }
{
    tags.partition_point(|before| before <= tag)
}

// Moves the tags from place `gone` on to the front, where there are no fewer before them.
fn move_to_front(row: &mut [Tag], gone: usize)
    requires within { gone ≤ length row.old }
    requires few { length row.old - gone ≤ gone }
    ensures len { length row.new ≡ length row.old }
    ensures front { take (length row.old - gone) row.new ≡ drop gone row.old }
{
    let (front, rest) = row.split_at_mut(gone);
    front[..rest.len()].copy_from_slice(rest);
}

// How many of the tags are on items before `offset`.
fn count_before(tags: &[Tag], offset: u64) -> usize
    requires { IsOrdered (map tag_of tags.now) }
    ensures bound { result ≤ length tags.now }
    ensures point { IsPartitionPoint (λ t. nat_lt t.offset offset ≡ true) (λ t. nat_lt t.offset offset ≡ false) tags.now
        result }
{
    match tags.first() {
        Some(first) if first.offset < offset => tags.partition_point(|tag| tag.offset < offset),
        _ => 0,
    }
}
