//! Copies of what a job is lent.
ghost use Rattle.std.specs.Prelude.{◌≡◌, map, IfOk};
ghost use Rattle.items.specs.Items.{numbers_of, type_of};
ghost use Rattle.settings.specs.Values.{held_of};
ghost use Rattle.claimed_work.specs.Copies.{AreLike};

use items::Items;
use settings::Held;
use std::alloc::{AllocError, Global};

/// Windows with the same items, in memory of their own.
pub fn copied_windows(alloc: Global, windows: &[Items]) -> Result<Vec<Items>, AllocError>
    ensures numbers { IfOk result (λ copies. map numbers_of copies.items ≡ map numbers_of windows.now) }
    ensures types { IfOk result (λ copies. map type_of copies.items ≡ map type_of windows.now) }
{
    let mut copies = Vec::with_capacity(alloc, windows.len())?;
    for window in windows {
        copies.push_reserved(copied(alloc, window)?);
    }
    Ok(copies)
}

// Items of the same type and numbers, in memory of their own.
fn copied(alloc: Global, items: &Items) -> Result<Items, AllocError>
    ensures numbers { IfOk result (λ copy. numbers_of copy ≡ numbers_of items.now) }
    ensures item_type { IfOk result (λ copy. type_of copy ≡ type_of items.now) }
{
    let mut copy = Items::empty(alloc, items.item_type());
    copy.reserve(items.len())?;
    copy.push_slice(items);
    Ok(copy)
}

/// Settings with the same values, in memory of their own.
pub fn copied_settings(alloc: Global, held: &[Held]) -> Result<Vec<Held>, AllocError>
    ensures { IfOk result (λ copies. map held_of copies.items ≡ map held_of held.now) }
{
    let mut copies = Vec::with_capacity(alloc, held.len())?;
    for one in held {
        copies.push_reserved(Held {
            at: one.at,
            value: one.value.copy(alloc)?,
        });
    }
    Ok(copies)
}

/// Empty places of the same types with room for no fewer items.
pub fn like_outputs(alloc: Global, outputs: &[Items]) -> Result<Vec<Items>, AllocError>
    ensures { IfOk result (λ copies. AreLike copies.items outputs.now) }
{
    let mut copies = Vec::with_capacity(alloc, outputs.len())?;
    for output in outputs {
        let mut copy = Items::empty(alloc, output.item_type());
        copy.reserve(output.spare())?;
        copies.push_reserved(copy);
    }
    Ok(copies)
}
