//! Operations on one item or on two, done item by item in a loop that compilers make lanes of themselves.
ghost use Rattle.std.specs.Prelude.{◌≡◌, ℤ};

use crate::blocks::{MapBlock, ZipBlock};
use crate::{MOST_LANES, SimdLane};
use numbers::Number;
use std::marker::PhantomData;

/// An operation that makes an item from one.
pub(crate) trait OfOne<T: Number> {
    /// The number that it makes of a number.
    ghost means: { Self → ℤ → ℤ };

    fn of(&self, x: T) -> T
        ensures { T.number result ≡ means self.now (T.number x) };
}

/// An operation that makes an item from two.
pub(crate) trait OfTwo<T: Number> {
    /// The number that it makes of two.
    ghost means: { ℤ → ℤ → ℤ };

    fn of(x: T, y: T) -> T
        ensures { T.number result ≡ means (T.number x) (T.number y) };
}

/// The operation at each item of a block.
#[derive(Drop)]
pub(crate) struct Each<O> {
    pub(crate) op: O,
}

impl<T: SimdLane, O: OfOne<T>> MapBlock<T, T> for Each<O> {
    ghost LANES = { T.LANES };

    const LANES: usize = T::LANES;

    ghost means = { λ s. O.means s.op };

    #[inline(always)]
    fn block(&self, a: &[T], out: &mut [T]) {
        for k in 0..out.len() {
            out[k] = self.op.of(a[k]);
        }
    }

    ghost has_lane = { T.has_lane };

    ghost has_few_lanes = { T.has_few_lanes };
}

/// The operation at each two items of two blocks.
pub(crate) struct EachTwo<O> {
    _op: PhantomData<O>,
}

impl<T: SimdLane, O: OfTwo<T>> ZipBlock<T> for EachTwo<O> {
    ghost means = { O.means };

    #[inline(always)]
    fn block(a: &[T], b: &[T], out: &mut [T]) {
        for k in 0..out.len() {
            out[k] = O::of(a[k], b[k]);
        }
    }
}

/// The operation of two blocks, where the second has one item at all places.
#[derive(Drop)]
pub(crate) struct Fixed<T, Z> {
    by: T,
    op: PhantomData<Z>,
}

/// The operation with `by` as the second item.
#[inline(always)]
pub(crate) fn with<T: SimdLane, Z: ZipBlock<T>>(by: T) -> Fixed<T, Z>
    ensures { result.by ≡ by }
{
    Fixed {
        by,
        op: PhantomData,
    }
}

impl<T: SimdLane, Z: ZipBlock<T>> MapBlock<T, T> for Fixed<T, Z> {
    ghost LANES = { T.LANES };

    const LANES: usize = T::LANES;

    ghost means = { λ s x. Z.means x (T.number s.by) };

    #[inline(always)]
    fn block(&self, a: &[T], out: &mut [T]) {
        let _read = self.by.widen();
        let others = [self.by; MOST_LANES];
        Z::block(a, &others[..a.len()], out);
    }

    ghost has_lane = { T.has_lane };

    ghost has_few_lanes = { T.has_few_lanes };
}
