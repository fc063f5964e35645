//! The layout of items in bytes: how many bytes an item has, and their order.
ghost use Rattle.std.specs.Prelude.{◌≡◌};
ghost use Rattle.raw_items.specs.Layout.{size_of};

use stream_model::ItemType;

/// The order of the bytes of an item.
#[derive(Clone, Copy, Debug, PartialEq, Eq)]
pub enum ByteOrder {
    /// The lowest byte first.
    Little,
    /// The highest byte first.
    Big,
}

/// How many bytes an item of the type has: 1, 2 or 4.
pub fn item_size(t: ItemType) -> usize
    ensures { result ≡ size_of t }
{
    match t {
        ItemType::Byte => 1,
        ItemType::Short => 2,
        ItemType::Int => 4,
    }
}
