//! The block that adds a number to each item.
use crate::constant::{Applies, Constant};
use lane_kernels::{SimdLane, append_add_const_wrap};

/// Each item plus the number in force at it, wrapped to the items' type, as GNU Radio's `add_const_xx`. Its parameter
/// is in force until a setting replaces it.
pub type AddConst = Constant<Plus>;

/// The wrapped sum of an item and a constant.
#[derive(Debug, Drop, PartialEq, Eq)]
pub struct Plus;

impl Applies for Plus {
    ghost use Rattle.std.specs.Prelude.{refl, ◌+ℤ◌};
    ghost use Rattle.stream_model.specs.Numbers.{wrap};
    ghost use Rattle.kind_model.specs.Math.{add_const};
    ghost use Rattle.kind_laws.specs.Math.{add_const-lawful};

    ghost gives = { λ t value z. wrap t (z +ℤ value) };

    ghost equation = { add_const };

    fn append<T: SimdLane>(items: &[T], constant: T, out: &mut Vec<T>) {
        append_add_const_wrap(items, constant, out);
    }

    ghost is_applied = { λ t v. refl };

    ghost lawful = { add_const-lawful };
}
