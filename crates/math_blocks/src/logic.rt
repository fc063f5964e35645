//! The blocks that join the bits of their inputs, or those of each item with those of a number.
use crate::constant::{Applies, Constant};
use crate::joined::{Joined, Joins, append_same};
use lane_kernels::{
    AndBits, BitOperation, OrBits, SimdLane, XorBits, append_joined_bits, append_joined_bits_const,
    join_bits_into,
};
use std::marker::PhantomData;

/// The bitwise and of the items of its 1 to 16 inputs, as GNU Radio's `and_xx`.
pub type And = Joined<Bitwise<AndBits>>;

/// The bitwise or of the items of its 1 to 16 inputs, as GNU Radio's `or_xx`.
pub type Or = Joined<Bitwise<OrBits>>;

/// The bitwise exclusive or of the items of its 1 to 16 inputs, as GNU Radio's `xor_xx`: the bits that an odd number of
/// items have.
pub type Xor = Joined<Bitwise<XorBits>>;

/// The bitwise and of each item and the number in force at it, as GNU Radio's `and_const_xx`. Its parameter is in force
/// until a setting replaces it.
pub type AndConst = Constant<Bitwise<AndBits>>;

/// The bitwise or of each item and the number in force at it. GNU Radio has no block like it. Its parameter is in force
/// until a setting replaces it.
pub type OrConst = Constant<Bitwise<OrBits>>;

/// The bitwise exclusive or of each item and the number in force at it. GNU Radio has no block like it. Its parameter
/// is in force until a setting replaces it.
pub type XorConst = Constant<Bitwise<XorBits>>;

/// The operation on the bits of items, or of an item and a constant.
#[derive(Debug, Drop, PartialEq, Eq)]
pub struct Bitwise<O> {
    _operation: PhantomData<O>,
}

impl<O: BitOperation> Joins for Bitwise<O> {
    ghost use Rattle.std.specs.Prelude.{refl};
    ghost use Rattle.kind_model.specs.Kernels.{bits_joined};
    ghost use Rattle.kind_model.specs.Math.{bitwise};
    ghost use Rattle.kind_laws.specs.Math.{bitwise-lawful};
    ghost use Rattle.math_blocks.specs.Joined.{itself, bits_of_all};
    ghost use Rattle.math_blocks.specs.Bitwise.{bits_are_joined};

    ghost joins = { bits_of_all O.on_bits O.none };

    ghost alone = { itself };

    ghost pair = { bits_joined O.on_bits };

    ghost equation = { λ t. bitwise O.on_bits (O.none t) t };

    fn join_into<T: SimdLane>(items: &[T], out: &mut [T]) {
        join_bits_into::<T, O>(items, out);
    }

    fn append_alone<T: SimdLane>(items: &[T], out: &mut Vec<T>) {
        append_same(items, out);
    }

    fn append<T: SimdLane>(a: &[T], b: &[T], out: &mut Vec<T>) {
        append_joined_bits::<T, O>(a, b, out);
    }

    ghost one_by_one = { bits_are_joined O.on_bits O.none O.is_bitwise };

    ghost is_joined = { λ t. refl };

    ghost lawful = { λ t. bitwise-lawful O.on_bits (O.none t) t };
}

impl<O: BitOperation> Applies for Bitwise<O> {
    ghost use Rattle.std.specs.Prelude.{refl};
    ghost use Rattle.kind_model.specs.Kernels.{bits_joined};
    ghost use Rattle.kind_model.specs.Math.{bitwise_const};
    ghost use Rattle.kind_laws.specs.Math.{bitwise_const-lawful};

    ghost gives = { λ t value z. bits_joined O.on_bits t z value };

    ghost equation = { bitwise_const O.on_bits };

    fn append<T: SimdLane>(items: &[T], constant: T, out: &mut Vec<T>) {
        append_joined_bits_const::<T, O>(items, constant, out);
    }

    ghost is_applied = { λ t v. refl };

    ghost lawful = { bitwise_const-lawful O.on_bits };
}
