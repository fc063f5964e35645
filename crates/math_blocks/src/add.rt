//! The block that adds its inputs.
use crate::joined::{Joined, Joins, append_same};
use lane_kernels::{SimdLane, add_wrap_into, append_add_wrap};

/// The sum of the items of its 1 to 16 inputs, wrapped to their type, as GNU Radio's `add_xx`.
pub type Add = Joined<Sum>;

/// The wrapped sum of items.
#[derive(Debug, Drop, PartialEq, Eq)]
pub struct Sum;

impl Joins for Sum {
    ghost use Rattle.std.specs.Prelude.{refl};
    ghost use Rattle.kind_model.specs.Math.{add};
    ghost use Rattle.kind_laws.specs.Math.{add-lawful};
    ghost use Rattle.math_blocks.specs.Joined.{itself, sum_of, sum_of_two};
    ghost use Rattle.math_blocks.specs.Bitwise.{sums_joined};

    ghost joins = { sum_of };

    ghost alone = { itself };

    ghost pair = { sum_of_two };

    ghost equation = { add };

    fn join_into<T: SimdLane>(items: &[T], out: &mut [T]) {
        add_wrap_into(items, out);
    }

    fn append_alone<T: SimdLane>(items: &[T], out: &mut Vec<T>) {
        append_same(items, out);
    }

    fn append<T: SimdLane>(a: &[T], b: &[T], out: &mut Vec<T>) {
        append_add_wrap(a, b, out);
    }

    ghost one_by_one = { sums_joined };

    ghost is_joined = { λ t. refl };

    ghost lawful = { add-lawful };
}
