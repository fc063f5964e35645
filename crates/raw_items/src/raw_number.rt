//! One number and its bytes.
ghost use Rattle.std.specs.Prelude.{◌≡◌};
ghost use Rattle.stream_model.specs.Numbers.{IsItem};
ghost use Rattle.raw_items.specs.Layout.{size_of};
ghost use Rattle.raw_items.specs.Values.{item_of, bytes_of};

use crate::ByteOrder;
use numbers::Number;

/// A number type of items that have `N` bytes each.
pub(crate) trait RawNumber<const N: usize>: Number {
    /// The number that the bytes are.
    fn from_bytes(bytes: &[u8; N], order: ByteOrder) -> Self
        ensures { Self.number result ≡ item_of Self.kind order bytes.now };

    /// The bytes of the number.
    fn to_bytes(self, order: ByteOrder) -> [u8; N]
        ensures bytes { result ≡ bytes_of Self.kind order (Self.number self) }
        ensures in_range { IsItem Self.kind (Self.number self) };

    ghost has_size: { size_of Self.kind ≡ N };
}

impl RawNumber<2> for i16 {
    ghost use Rattle.std.specs.Prelude.{refl};

    ghost has_size = { refl };

    fn from_bytes(bytes: &[u8; 2], order: ByteOrder) -> i16 {
        match order {
            ByteOrder::Little => i16::from_le_bytes(*bytes),
            ByteOrder::Big => i16::from_be_bytes(*bytes),
        }
    }

    fn to_bytes(self, order: ByteOrder) -> [u8; 2] {
        match order {
            ByteOrder::Little => self.to_le_bytes(),
            ByteOrder::Big => self.to_be_bytes(),
        }
    }
}

impl RawNumber<4> for i32 {
    ghost use Rattle.std.specs.Prelude.{refl};

    ghost has_size = { refl };

    fn from_bytes(bytes: &[u8; 4], order: ByteOrder) -> i32 {
        match order {
            ByteOrder::Little => i32::from_le_bytes(*bytes),
            ByteOrder::Big => i32::from_be_bytes(*bytes),
        }
    }

    fn to_bytes(self, order: ByteOrder) -> [u8; 4] {
        match order {
            ByteOrder::Little => self.to_le_bytes(),
            ByteOrder::Big => self.to_be_bytes(),
        }
    }
}
