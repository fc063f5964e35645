//! Quotients of items.
ghost use Rattle.std.specs.Prelude.{◌≡◌, ◌≤◌, ◌+◌, ◌++◌, length, map, vec_len, vec_capacity};
ghost use Rattle.kind_model.specs.Kernels;

use crate::SimdLane;
use crate::appending::{append_map, append_zip};
use crate::joining::zip_into;
use crate::plain::{EachTwo, OfTwo, with};

struct Quotient;

impl<T: SimdLane> OfTwo<T> for Quotient {
    ghost means = { Kernels.divided T.kind };

    #[inline(always)]
    fn of(x: T, y: T) -> T {
        let divisor = y.widen();
        if divisor == 0 {
            T::narrow(0)
        } else {
            T::wrap(x.widen() / divisor)
        }
    }
}

/// Divides each item of `out` by the item of `items` at its place, rounded toward 0 and wrapped; by 0 it gives 0.
#[tactic(auto, using(crate::proofs::Listed::zipped_is_listed))]
#[inline(always)]
pub fn divide_into<T: SimdLane>(items: &[T], out: &mut [T])
    requires { length items.now ≡ length out.old }
    ensures { map T.number out.new ≡ Kernels.divide T.kind (map T.number out.old) (map T.number items.now) }
{
    zip_into::<T, EachTwo<Quotient>>(items, out);
}

/// Appends the items of `a` over those of `b`, rounded toward 0 and wrapped, and 0 for each over 0, where the capacity
/// has room.
#[inline(always)]
pub fn append_divide<T: SimdLane>(a: &[T], b: &[T], out: &mut Vec<T>)
    requires same_length { length a.now ≡ length b.now }
    requires room { vec_len out.old + length a.now ≤ vec_capacity out.old }
    ensures items { map T.number out.new.items ≡ map T.number out.old.items
        ++ Kernels.divide T.kind (map T.number a.now) (map T.number b.now) }
    ensures len { vec_len out.new ≡ vec_len out.old + length a.now }
    ensures capacity { vec_capacity out.old ≤ vec_capacity out.new }
{
    append_zip::<T, EachTwo<Quotient>>(a, b, out);
}

/// Appends each item over `c`, rounded toward 0 and wrapped, and 0 for each where `c` is 0, where the capacity has
/// room.
#[inline(always)]
pub fn append_divide_const<T: SimdLane>(a: &[T], c: T, out: &mut Vec<T>)
    requires room { vec_len out.old + length a.now ≤ vec_capacity out.old }
    ensures items { map T.number out.new.items ≡ map T.number out.old.items
        ++ Kernels.divide_const T.kind (map T.number a.now) (T.number c) }
    ensures len { vec_len out.new ≡ vec_len out.old + length a.now }
    ensures capacity { vec_capacity out.old ≤ vec_capacity out.new }
{
    append_map(&with::<T, EachTwo<Quotient>>(c), a, out);
}
