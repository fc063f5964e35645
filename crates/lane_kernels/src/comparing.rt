//! Items that are compared: the lesser and the greater of two, the nearest in a range, and an item without its sign.
ghost use Rattle.std.specs.Prelude.{◌≡◌, ◌≤◌, ◌+◌, ◌++◌, length, map, vec_len, vec_capacity};
ghost use Rattle.kind_model.specs.Kernels;

use crate::SimdLane;
use crate::appending::{append_map, append_zip};
use crate::joining::zip_into;
use crate::plain::{Each, EachTwo, OfOne, OfTwo};

struct Lesser;

impl<T: SimdLane> OfTwo<T> for Lesser {
    ghost means = { Kernels.lesser };

    #[inline(always)]
    fn of(x: T, y: T) -> T {
        if y.widen() < x.widen() { y } else { x }
    }
}

struct Greater;

impl<T: SimdLane> OfTwo<T> for Greater {
    ghost means = { Kernels.greater };

    #[inline(always)]
    fn of(x: T, y: T) -> T {
        if x.widen() < y.widen() { y } else { x }
    }
}

#[derive(Drop)]
struct Unsigned;

impl<T: SimdLane> OfOne<T> for Unsigned {
    ghost means = { λ s. Kernels.absolute T.kind };

    #[inline(always)]
    fn of(&self, x: T) -> T {
        let z = x.widen();
        T::wrap(if z < 0 { -z } else { z })
    }
}

#[derive(Drop)]
struct Range<T> {
    low: T,
    high: T,
}

impl<T: SimdLane> OfOne<T> for Range<T> {
    ghost means = { λ s. Kernels.clipped (T.number s.low) (T.number s.high) };

    #[inline(always)]
    fn of(&self, x: T) -> T {
        let z = x.widen();
        if z < self.low.widen() {
            self.low
        } else if self.high.widen() < z {
            self.high
        } else {
            x
        }
    }
}

/// Writes over each item of `out` the item of `items` at its place where that is less.
#[tactic(auto, using(crate::proofs::Listed::zipped_is_listed))]
#[inline(always)]
pub fn minimum_into<T: SimdLane>(items: &[T], out: &mut [T])
    requires { length items.now ≡ length out.old }
    ensures { map T.number out.new ≡ Kernels.minimum (map T.number out.old) (map T.number items.now) }
{
    zip_into::<T, EachTwo<Lesser>>(items, out);
}

/// Appends the lesser of the items of `a` and `b`, where the capacity has room.
#[inline(always)]
pub fn append_minimum<T: SimdLane>(a: &[T], b: &[T], out: &mut Vec<T>)
    requires same_length { length a.now ≡ length b.now }
    requires room { vec_len out.old + length a.now ≤ vec_capacity out.old }
    ensures items { map T.number out.new.items ≡ map T.number out.old.items
        ++ Kernels.minimum (map T.number a.now) (map T.number b.now) }
    ensures len { vec_len out.new ≡ vec_len out.old + length a.now }
    ensures capacity { vec_capacity out.old ≤ vec_capacity out.new }
{
    append_zip::<T, EachTwo<Lesser>>(a, b, out);
}

/// Writes over each item of `out` the item of `items` at its place where that is greater.
#[tactic(auto, using(crate::proofs::Listed::zipped_is_listed))]
#[inline(always)]
pub fn maximum_into<T: SimdLane>(items: &[T], out: &mut [T])
    requires { length items.now ≡ length out.old }
    ensures { map T.number out.new ≡ Kernels.maximum (map T.number out.old) (map T.number items.now) }
{
    zip_into::<T, EachTwo<Greater>>(items, out);
}

/// Appends the greater of the items of `a` and `b`, where the capacity has room.
#[inline(always)]
pub fn append_maximum<T: SimdLane>(a: &[T], b: &[T], out: &mut Vec<T>)
    requires same_length { length a.now ≡ length b.now }
    requires room { vec_len out.old + length a.now ≤ vec_capacity out.old }
    ensures items { map T.number out.new.items ≡ map T.number out.old.items
        ++ Kernels.maximum (map T.number a.now) (map T.number b.now) }
    ensures len { vec_len out.new ≡ vec_len out.old + length a.now }
    ensures capacity { vec_capacity out.old ≤ vec_capacity out.new }
{
    append_zip::<T, EachTwo<Greater>>(a, b, out);
}

/// Appends each item without its sign, wrapped, where the capacity has room.
#[inline(always)]
pub fn append_abs_wrap<T: SimdLane>(a: &[T], out: &mut Vec<T>)
    requires room { vec_len out.old + length a.now ≤ vec_capacity out.old }
    ensures items { map T.number out.new.items ≡ map T.number out.old.items
        ++ Kernels.abs_wrap T.kind (map T.number a.now) }
    ensures len { vec_len out.new ≡ vec_len out.old + length a.now }
    ensures capacity { vec_capacity out.old ≤ vec_capacity out.new }
{
    append_map(&Each { op: Unsigned }, a, out);
}

/// Appends each item, or the nearer of `low` and `high`, where the capacity has room.
#[inline(always)]
pub fn append_clip<T: SimdLane>(a: &[T], low: T, high: T, out: &mut Vec<T>)
    requires room { vec_len out.old + length a.now ≤ vec_capacity out.old }
    ensures items { map T.number out.new.items ≡ map T.number out.old.items
        ++ Kernels.clip (map T.number a.now) (T.number low) (T.number high) }
    ensures len { vec_len out.new ≡ vec_len out.old + length a.now }
    ensures capacity { vec_capacity out.old ≤ vec_capacity out.new }
{
    append_map(
        &Each {
            op: Range { low, high },
        },
        a,
        out,
    );
}
