//! Orders of bytes by number.

ghost use Rattle.std.specs.Prelude.{◌≡◌};
ghost use Rattle.magbelu_c.specs.CallAnswers.{order_of};

use raw_items::ByteOrder;

/// The order that a number names: 0 for the lowest byte first.
pub(crate) fn order(big_endian: u32) -> ByteOrder
    ensures { result ≡ order_of big_endian }
{
    if big_endian == 0 {
        ByteOrder::Little
    } else {
        ByteOrder::Big
    }
}
