//! The range of a type of items.
ghost use Rattle.std.specs.Prelude.{◌≡◌, ◌↔◌, IsTrue};
ghost use Rattle.stream_model.specs.Numbers.{IsItem, least_of, greatest_of};

use stream_model::ItemType;

/// The least number of the type.
pub fn least(t: ItemType) -> i64
    ensures { result ≡ least_of t }
{
    match t {
        ItemType::Byte => 0,
        ItemType::Short => i64::from(i16::MIN),
        ItemType::Int => i64::from(i32::MIN),
    }
}

/// The greatest number of the type.
pub fn greatest(t: ItemType) -> i64
    ensures { result ≡ greatest_of t }
{
    match t {
        ItemType::Byte => i64::from(u8::MAX),
        ItemType::Short => i64::from(i16::MAX),
        ItemType::Int => i64::from(i32::MAX),
    }
}

/// Whether the number lies in the range of the type.
pub fn is_item(t: ItemType, number: i64) -> bool
    ensures { IsTrue result ↔ IsItem t number }
{
    least(t) <= number && number <= greatest(t)
}
