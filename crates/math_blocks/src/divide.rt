//! The block that divides its inputs.
use crate::joined::{Joined, Joins, append_same};
use lane_kernels::{SimdLane, append_divide, divide_into};

/// The item of the first of its 1 to 16 inputs over those of the others in turn, each quotient rounded toward 0, as GNU
/// Radio's `divide_xx`, which takes no bytes. What is divided by 0 gives 0, and the least number of the items' type
/// over -1 is itself, which is wrapped; GNU Radio's program is ended by the first, and by the second where items are
/// ints.
pub type Divide = Joined<Quotient>;

/// The wrapped quotient of items.
#[derive(Debug, Drop, PartialEq, Eq)]
pub struct Quotient;

impl Joins for Quotient {
    ghost use Rattle.std.specs.Prelude.{refl};
    ghost use Rattle.kind_model.specs.Kernels.{divided};
    ghost use Rattle.kind_model.specs.Math.{divide, quotient};
    ghost use Rattle.kind_laws.specs.Math.{divide-lawful};
    ghost use Rattle.math_blocks.specs.Joined.{itself};
    ghost use Rattle.math_blocks.specs.Quotients.{quotients_joined};

    ghost joins = { quotient };

    ghost alone = { itself };

    ghost pair = { divided };

    ghost equation = { divide };

    fn join_into<T: SimdLane>(items: &[T], out: &mut [T]) {
        divide_into(items, out);
    }

    fn append_alone<T: SimdLane>(items: &[T], out: &mut Vec<T>) {
        append_same(items, out);
    }

    fn append<T: SimdLane>(a: &[T], b: &[T], out: &mut Vec<T>) {
        append_divide(a, b, out);
    }

    ghost one_by_one = { quotients_joined };

    ghost is_joined = { λ t. refl };

    ghost lawful = { divide-lawful };
}
