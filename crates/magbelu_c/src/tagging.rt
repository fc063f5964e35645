//! Feeds with the tags of a C caller.

ghost use Rattle.std.specs.Prelude.{◌≡◌, ◌<◌, length, map, false, None, IfOk, IfSome, OnErr};
ghost use Rattle.std.specs.List.{Any};
ghost use Rattle.items.specs.Name.{IsName};
ghost use Rattle.plant_storage.specs.Marks.{mark_of};
ghost use Rattle.plant.specs.Feeding.{feed_numbers};
ghost use Rattle.magbelu_c.specs.AnyPlants.{plant_of};
ghost use Rattle.magbelu_c.specs.Replies.{CallsOn, fed_bytes, is_fed, named, wants};
ghost use Rattle.magbelu_c.specs.Tagging.{Feeds, given};

use crate::any_plant::AnyPlant;
use crate::reply::{Reply, no_memory, refused};
use crate::{block_calls, tables};
use items::{Mark, TagKey};
use raw_items::ByteOrder;
use std::alloc::{AllocError, Global};

// The refusal number for an invalid key.
const BAD_KEY: u32 = 58;

/// Feeds a source bytes as items, with tags on them.
pub(crate) fn feed(
    alloc: Global,
    plant: &mut AnyPlant,
    source: &[u8],
    order: ByteOrder,
    bytes: &[u8],
    tags: &[tables::Mark<'_>],
) -> Reply
    ensures { Feeds tags.now plant.old plant.new result (λ ms.
        CallsOn (wants (plant_of plant.old) source.now is_fed) (named (plant_of plant.old) source.now
        (fed_bytes order bytes.now ms)) plant.old plant.new result) }
{
    let found = match marks_of(alloc, tags) {
        Ok(found) => found,
        Err(_) => return no_memory(),
    };
    let Some(marks) = found else {
        return refused(BAD_KEY, 0);
    };
    block_calls::feed(alloc, plant, source, order, bytes, &marks)
}

/// Feeds numbers to a source, with tags on them.
pub(crate) fn feed_numbers(
    alloc: Global,
    plant: &mut AnyPlant,
    source: &[u8],
    numbers: &[i64],
    tags: &[tables::Mark<'_>],
) -> Reply
    ensures { Feeds tags.now plant.old plant.new result (λ ms.
        CallsOn false (named (plant_of plant.old) source.now (λ net st b. feed_numbers net st b numbers.now ms))
        plant.old plant.new result) }
{
    let found = match marks_of(alloc, tags) {
        Ok(found) => found,
        Err(_) => return no_memory(),
    };
    let Some(marks) = found else {
        return refused(BAD_KEY, 0);
    };
    block_calls::feed_numbers(alloc, plant, source, numbers, &marks)
}

// Tags as marks, or none if one has an invalid key.
fn marks_of(alloc: Global, tags: &[tables::Mark<'_>]) -> Result<Option<Vec<Mark>>, AllocError>
    ensures marks { IfOk result (λ found. IfSome found (λ marks. map mark_of marks.items ≡ map given tags.now)) }
    ensures copies { OnErr result (0 < length tags.now) }
    ensures none { IfOk result (λ found. found ≡ None → Any (λ tag. ¬ (IsName 16 tag.key.now)) tags.now) }
{
    let mut marks = Vec::new(alloc);
    for tag in tags {
        let Some(key) = TagKey::new(tag.key) else {
            return Ok(None);
        };
        marks.push(Mark {
            offset: tag.offset,
            key,
            value: tag.value,
        })?;
    }
    Ok(Some(marks))
}
