//! One number of an item's type.
ghost use Rattle.std.specs.Prelude.{◌≡◌, ◌↔◌, IsTrue, ℤ, pos, map};
ghost use Rattle.stream_model.specs.Numbers.{IsItem, wrap};
ghost use Rattle.stream_model.specs.declared.vocabulary.ItemType.{ItemType};
ghost use Rattle.stream_model.specs.declared.vocabulary.ItemType.TheVariants.{Byte, Short, Int};

/// A number type that stands for a type of items.
pub trait Number: Copy {
    /// The type of the items.
    ghost kind: { ItemType };

    /// The whole number that the value is.
    ghost number: { Self → ℤ };

    /// The number as an `i64`.
    fn widen(self) -> i64
        ensures value { result ≡ number self }
        ensures in_range { IsItem kind (number self) };

    /// The value that is this number.
    fn narrow(n: i64) -> Self
        requires { IsItem kind n }
        ensures { number result ≡ n };

    /// The value that equals this number modulo the number of values of the type.
    fn wrap(n: i64) -> Self
        ensures { number result ≡ wrap kind n };

    /// Whether the numbers are the same, one by one.
    fn are_same(one: &[Self], other: &[Self]) -> bool
        ensures { IsTrue result ↔ (map number one.now ≡ map number other.now) };
}

impl Number for u8 {
    ghost kind = { Byte };

    ghost number = { pos };

    fn widen(self) -> i64 {
        i64::from(self)
    }

    fn narrow(n: i64) -> u8 {
        n as u8
    }

    fn wrap(n: i64) -> u8 {
        n.rem_euclid(256) as u8
    }

    fn are_same(one: &[u8], other: &[u8]) -> bool {
        one == other
    }
}

impl Number for i16 {
    ghost kind = { Short };

    ghost number = { λ n. n };

    fn widen(self) -> i64 {
        i64::from(self)
    }

    fn narrow(n: i64) -> i16 {
        n as i16
    }

    fn wrap(n: i64) -> i16 {
        (n.rem_euclid(65_536) as u16).cast_signed()
    }

    fn are_same(one: &[i16], other: &[i16]) -> bool {
        one == other
    }
}

impl Number for i32 {
    ghost kind = { Int };

    ghost number = { λ n. n };

    fn widen(self) -> i64 {
        i64::from(self)
    }

    fn narrow(n: i64) -> i32 {
        n as i32
    }

    fn wrap(n: i64) -> i32 {
        (n.rem_euclid(4_294_967_296) as u32).cast_signed()
    }

    fn are_same(one: &[i32], other: &[i32]) -> bool {
        one == other
    }
}
