//! The block that multiplies each item by a number.
use crate::constant::{Applies, Constant};
use lane_kernels::{SimdLane, append_mul_wrap};

/// Each item times the number in force at it, wrapped to the items' type, as GNU Radio's `multiply_const_xx`. Its
/// parameter is in force until a setting replaces it.
pub type MultiplyConst = Constant<Times>;

/// The wrapped product of an item and a constant.
#[derive(Debug, Drop, PartialEq, Eq)]
pub struct Times;

impl Applies for Times {
    ghost use Rattle.std.specs.Prelude.{refl, ◌*ℤ◌};
    ghost use Rattle.stream_model.specs.Numbers.{wrap};
    ghost use Rattle.kind_model.specs.Math.{multiply_const};
    ghost use Rattle.kind_laws.specs.Math.{multiply_const-lawful};

    ghost gives = { λ t value z. wrap t (z *ℤ value) };

    ghost equation = { multiply_const };

    fn append<T: SimdLane>(items: &[T], constant: T, out: &mut Vec<T>) {
        append_mul_wrap(items, constant, out);
    }

    ghost is_applied = { λ t v. refl };

    ghost lawful = { multiply_const-lawful };
}
