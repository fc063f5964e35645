//! The block that subtracts its inputs.
use crate::joined::{Joined, Joins};
use lane_kernels::{SimdLane, append_mul_wrap, append_sub_wrap, sub_wrap_into};
use numbers::Number;

/// The item of the first of its 1 to 16 inputs less those of the others, and of one input its negative, wrapped to
/// their type, as GNU Radio's `sub_xx`, which gives the items of one input as they are, and takes no bytes.
pub type Sub = Joined<Difference>;

/// The wrapped difference of items.
#[derive(Debug, Drop, PartialEq, Eq)]
pub struct Difference;

impl Joins for Difference {
    ghost use Rattle.std.specs.Prelude.{refl};
    ghost use Rattle.kind_model.specs.Math.{sub};
    ghost use Rattle.kind_laws.specs.Math.{sub-lawful};
    ghost use Rattle.math_blocks.specs.Joined.{difference_of, negative_of, difference_of_two};
    ghost use Rattle.math_blocks.specs.Differences.{differences_joined};

    ghost joins = { difference_of };

    ghost alone = { negative_of };

    ghost pair = { difference_of_two };

    ghost equation = { sub };

    fn join_into<T: SimdLane>(items: &[T], out: &mut [T]) {
        sub_wrap_into(items, out);
    }

    fn append_alone<T: SimdLane>(items: &[T], out: &mut Vec<T>) {
        append_mul_wrap(items, T::wrap(-1), out);
    }

    fn append<T: SimdLane>(a: &[T], b: &[T], out: &mut Vec<T>) {
        append_sub_wrap(a, b, out);
    }

    ghost one_by_one = { differences_joined };

    ghost is_joined = { λ t. refl };

    ghost lawful = { sub-lawful };
}
