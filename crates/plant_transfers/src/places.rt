//! Places for items, in the memory that they have where that is enough.
ghost use Rattle.std.specs.Prelude.{◌≡◌, ◌≤◌, [], length, All, IsOk, OnOk};
ghost use Rattle.items.specs.Items.{type_of};
ghost use Rattle.plant_transfers.specs.Places.{IsPlace, ArePlaces, KeepsRoom, KeepRoom, room_of};

use items::{ItemType, Items};
use std::alloc::{AllocError, Global};

/// Makes them so many. A new one has no memory.
pub(crate) fn resize(
    alloc: Global,
    places: &mut Vec<Items>,
    count: usize,
    item: ItemType,
) -> Result<(), AllocError>
    ensures long { OnOk result (length places.new.items ≡ count) }
    ensures succeeds { length places.old.items ≡ count → IsOk result }
    ensures same { length places.old.items ≡ count → places.new.items ≡ places.old.items }
{
    // Each claim comes here, and all but the first of a block find as many as they need.
    if places.len() == count {
        return Ok(());
    }
    cut_or_grow(alloc, places, count, item)
}

#[inline(never)]
fn cut_or_grow(
    alloc: Global,
    places: &mut Vec<Items>,
    count: usize,
    item: ItemType,
) -> Result<(), AllocError>
    ensures { OnOk result (length places.new.items ≡ count) }
{
    places.truncate(count);
    for _ in places.len()..count {
        places.push(Items::empty(alloc, item))?;
    }
    Ok(())
}

/// Makes it an empty place of the type with room for so many items.
pub(crate) fn make_ready(
    alloc: Global,
    place: &mut Items,
    item: ItemType,
    room: usize,
) -> Result<(), AllocError>
    ensures ready { OnOk result (IsPlace item room place.new) }
    ensures succeeds { type_of place.old ≡ item → room ≤ room_of place.old → IsOk result }
    ensures keeps { type_of place.old ≡ item → KeepsRoom place.old place.new }
{
    if place.item_type() == item {
        place.clear();
    } else {
        *place = Items::empty(alloc, item);
    }
    place.reserve(room)
}

/// Makes them so many empty places of the type, each with room for so many items.
pub(crate) fn ready_places(
    alloc: Global,
    places: &mut Vec<Items>,
    count: usize,
    item: ItemType,
    room: usize,
) -> Result<(), AllocError>
    ensures long { OnOk result (length places.new.items ≡ count) }
    ensures ready { OnOk result (All (IsPlace item room) places.new.items) }
    ensures succeeds { ArePlaces item count places.old.items → All (λ p. room ≤ room_of p) places.old.items
        → IsOk result }
    ensures keeps { ArePlaces item count places.old.items → KeepRoom places.old.items places.new.items }
{
    resize(alloc, places, count, item)?;
    make_all_ready(alloc, places, item, room)
}

// Makes each an empty place of the type with room for so many items.
fn make_all_ready(
    alloc: Global,
    places: &mut [Items],
    item: ItemType,
    room: usize,
) -> Result<(), AllocError>
    ensures ready { OnOk result (All (IsPlace item room) places.new) }
    ensures succeeds { All (λ p. type_of p ≡ item) places.old → All (λ p. room ≤ room_of p) places.old → IsOk result }
    ensures keeps { All (λ p. type_of p ≡ item) places.old → KeepRoom places.old places.new }
{
    for place in places.iter_mut() {
        make_ready(alloc, place, item, room)?;
    }
    Ok(())
}
