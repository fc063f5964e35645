//! Items as bytes.
ghost use Rattle.std.specs.Prelude.{◌≡◌, ◌-◌, ◌+◌, ◌*◌, ◌≤◌, ◌++◌, length, slice_range, OnOk, OnErr, IsOk, vec_len, vec_capacity};
ghost use Rattle.items.specs.Items.{type_of, numbers_of};
ghost use Rattle.raw_items.specs.Layout.{size_of};
ghost use Rattle.raw_items.specs.Values.{items_of, all_bytes_of};

use crate::ByteOrder;
use crate::chunks::push_number_bytes;
use items::Items;
use numbers::vectors::are_in_range;
use std::alloc::AllocError;

/// Appends the bytes of the items from place `from` to below place `to`. It fails only where there is no room for them
/// and the allocator refuses.
#[tactic(auto, using(crate::proofs::Steps::map_slice_range))]
pub fn push_item_bytes(
    out: &mut Vec<u8>,
    items: &Items,
    from: usize,
    to: usize,
    order: ByteOrder,
) -> Result<(), AllocError>
    requires ordered { from ≤ to }
    requires within { to ≤ length (numbers_of items.now) }
    ensures bytes { OnOk result (out.new.items ≡ out.old.items
        ++ all_bytes_of (type_of items.now) order (slice_range (numbers_of items.now) from to)) }
    ensures len { OnOk result (vec_len out.new ≡ vec_len out.old + (to - from) * size_of (type_of items.now)) }
    ensures err { OnErr result (out.new.items ≡ out.old.items) }
    ensures capacity { vec_capacity out.old ≤ vec_capacity out.new }
    ensures succeeds { vec_len out.old + (to - from) * size_of (type_of items.now) ≤ vec_capacity out.old
        → IsOk result }

    // The bytes give the items back.
    ensures round_trip { OnOk result (items_of (type_of items.now) order
        (all_bytes_of (type_of items.now) order (slice_range (numbers_of items.now) from to))
        ≡ slice_range (numbers_of items.now) from to) }
{
    match items {
        Items::Byte(numbers) => {
            // Each is its own byte, so that they are copied as they stand.
            are_in_range(&numbers[from..to]);
            out.extend_from_slice(&numbers[from..to])
        }
        Items::Short(numbers) => push_number_bytes(out, &numbers[from..to], order),
        Items::Int(numbers) => push_number_bytes(out, &numbers[from..to], order),
    }
}
