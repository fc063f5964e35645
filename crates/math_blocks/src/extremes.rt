//! The blocks that choose the least or the greatest of the items of their inputs.
use crate::joined::{Joined, Joins, append_same};
use lane_kernels::{SimdLane, append_maximum, append_minimum, maximum_into, minimum_into};

/// The least of the items of its 1 to 16 inputs, as GNU Radio's `min_xx` of items that are no vectors.
pub type Minimum = Joined<Least>;

/// The least of items.
#[derive(Debug, Drop, PartialEq, Eq)]
pub struct Least;

impl Joins for Least {
    ghost use Rattle.std.specs.Prelude.{refl};
    ghost use Rattle.kind_model.specs.Math.{minimum};
    ghost use Rattle.kind_laws.specs.Math.{minimum-lawful};
    ghost use Rattle.math_blocks.specs.Joined.{itself, least_among, lesser_of_two};
    ghost use Rattle.math_blocks.specs.Extremes.{least_joined};

    ghost joins = { least_among };

    ghost alone = { itself };

    ghost pair = { lesser_of_two };

    ghost equation = { minimum };

    fn join_into<T: SimdLane>(items: &[T], out: &mut [T]) {
        minimum_into(items, out);
    }

    fn append_alone<T: SimdLane>(items: &[T], out: &mut Vec<T>) {
        append_same(items, out);
    }

    fn append<T: SimdLane>(a: &[T], b: &[T], out: &mut Vec<T>) {
        append_minimum(a, b, out);
    }

    ghost one_by_one = { least_joined };

    ghost is_joined = { λ t. refl };

    ghost lawful = { minimum-lawful };
}

/// The greatest of the items of its 1 to 16 inputs, as GNU Radio's `max_xx` of items that are no vectors.
pub type Maximum = Joined<Greatest>;

/// The greatest of items.
#[derive(Debug, Drop, PartialEq, Eq)]
pub struct Greatest;

impl Joins for Greatest {
    ghost use Rattle.std.specs.Prelude.{refl};
    ghost use Rattle.kind_model.specs.Math.{maximum};
    ghost use Rattle.kind_laws.specs.Math.{maximum-lawful};
    ghost use Rattle.math_blocks.specs.Joined.{itself, greatest_among, greater_of_two};
    ghost use Rattle.math_blocks.specs.Extremes.{greatest_joined};

    ghost joins = { greatest_among };

    ghost alone = { itself };

    ghost pair = { greater_of_two };

    ghost equation = { maximum };

    fn join_into<T: SimdLane>(items: &[T], out: &mut [T]) {
        maximum_into(items, out);
    }

    fn append_alone<T: SimdLane>(items: &[T], out: &mut Vec<T>) {
        append_same(items, out);
    }

    fn append<T: SimdLane>(a: &[T], b: &[T], out: &mut Vec<T>) {
        append_maximum(a, b, out);
    }

    ghost one_by_one = { greatest_joined };

    ghost is_joined = { λ t. refl };

    ghost lawful = { maximum-lawful };
}
