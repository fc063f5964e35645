//! The block that divides each item by a number.
use crate::constant::{Applies, Constant};
use lane_kernels::{SimdLane, append_divide_const};

/// Each item over the number in force at it, rounded toward 0: 0 where that number is 0, and the least number of the
/// items' type over -1 is itself, which is wrapped. Its parameter is in force until a setting replaces it. GNU Radio
/// has no block like it.
pub type DivideConst = Constant<Over>;

/// The wrapped quotient of an item and a constant.
#[derive(Debug, Drop, PartialEq, Eq)]
pub struct Over;

impl Applies for Over {
    ghost use Rattle.std.specs.Prelude.{refl};
    ghost use Rattle.kind_model.specs.Kernels.{divided};
    ghost use Rattle.kind_model.specs.Math.{divide_const};
    ghost use Rattle.kind_laws.specs.Math.{divide_const-lawful};

    ghost gives = { λ t value z. divided t z value };

    ghost equation = { divide_const };

    fn append<T: SimdLane>(items: &[T], constant: T, out: &mut Vec<T>) {
        append_divide_const(items, constant, out);
    }

    ghost is_applied = { λ t v. refl };

    ghost lawful = { divide_const-lawful };
}
