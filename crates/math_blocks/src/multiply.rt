//! The block that multiplies its inputs.
use crate::joined::{Joined, Joins, append_same};
use lane_kernels::{SimdLane, append_multiply_wrap, multiply_wrap_into};

/// The product of the items of its 1 to 16 inputs, wrapped to their type, as GNU Radio's `multiply_xx`.
pub type Multiply = Joined<Product>;

/// The wrapped product of items.
#[derive(Debug, Drop, PartialEq, Eq)]
pub struct Product;

impl Joins for Product {
    ghost use Rattle.std.specs.Prelude.{refl};
    ghost use Rattle.kind_model.specs.Math.{multiply};
    ghost use Rattle.kind_laws.specs.Math.{multiply-lawful};
    ghost use Rattle.math_blocks.specs.Joined.{itself, product_of, product_of_two};
    ghost use Rattle.math_blocks.specs.Products.{products_joined};

    ghost joins = { product_of };

    ghost alone = { itself };

    ghost pair = { product_of_two };

    ghost equation = { multiply };

    fn join_into<T: SimdLane>(items: &[T], out: &mut [T]) {
        multiply_wrap_into(items, out);
    }

    fn append_alone<T: SimdLane>(items: &[T], out: &mut Vec<T>) {
        append_same(items, out);
    }

    fn append<T: SimdLane>(a: &[T], b: &[T], out: &mut Vec<T>) {
        append_multiply_wrap(a, b, out);
    }

    ghost one_by_one = { products_joined };

    ghost is_joined = { λ t. refl };

    ghost lawful = { multiply-lawful };
}
