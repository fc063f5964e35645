//! Sums and products of items.
ghost use Rattle.std.specs.Prelude.{◌≡◌, ◌≤◌, ◌+◌, ◌++◌, length, map, ◌+ℤ◌, ◌-ℤ◌, ◌*ℤ◌, vec_len, vec_capacity};
ghost use Rattle.kind_model.specs.Kernels;
ghost use Rattle.stream_model.specs.Numbers.{wrap};

use crate::SimdLane;
use crate::appending::{append_map, append_zip};
use crate::blocks::{MapBlock, ZipBlock, map_blocks, zip_blocks};
use crate::joining::zip_into;
use crate::plain::{EachTwo, OfTwo};

struct Sum;

impl<T: SimdLane> ZipBlock<T> for Sum {
    ghost means = { λ x y. wrap T.kind (x +ℤ y) };

    fn block(a: &[T], b: &[T], out: &mut [T]) {
        T::add_block(a, b, out);
    }
}

#[derive(Drop)]
struct Offset<T> {
    by: T,
}

impl<T: SimdLane> MapBlock<T, T> for Offset<T> {
    ghost LANES = { T.LANES };

    const LANES: usize = T::LANES;

    ghost means = { λ s x. wrap T.kind (x +ℤ T.number s.by) };

    fn block(&self, a: &[T], out: &mut [T]) {
        T::add_const_block(a, self.by, out);
    }

    ghost has_lane = { T.has_lane };

    ghost has_few_lanes = { T.has_few_lanes };
}

#[derive(Drop)]
struct Multiple<T> {
    by: T,
}

impl<T: SimdLane> MapBlock<T, T> for Multiple<T> {
    ghost LANES = { T.LANES };

    const LANES: usize = T::LANES;

    ghost means = { λ s x. wrap T.kind (x *ℤ T.number s.by) };

    fn block(&self, a: &[T], out: &mut [T]) {
        T::mul_block(a, self.by, out);
    }

    ghost has_lane = { T.has_lane };

    ghost has_few_lanes = { T.has_few_lanes };
}

struct Product;

impl<T: SimdLane> ZipBlock<T> for Product {
    ghost means = { λ x y. wrap T.kind (x *ℤ y) };

    fn block(a: &[T], b: &[T], out: &mut [T]) {
        T::mul_items_block(a, b, out);
    }
}

struct Difference;

impl<T: SimdLane> OfTwo<T> for Difference {
    ghost means = { λ x y. wrap T.kind (x -ℤ y) };

    #[inline(always)]
    fn of(x: T, y: T) -> T {
        T::wrap(x.widen() - y.widen())
    }
}

#[derive(Drop)]
struct Scaling {
    factor: i16,
    shift: u32,
    ghost in_range: { shift ≤ 31 },
}

impl<T: SimdLane> MapBlock<T, T> for Scaling {
    ghost LANES = { T.SCALED_LANES };

    const LANES: usize = T::SCALED_LANES;

    ghost means = { λ s x. Kernels.scaled T.kind s.factor s.shift x };

    fn block(&self, a: &[T], out: &mut [T]) {
        T::scale_block(a, self.factor, self.shift, out);
    }

    ghost has_lane = { T.scales_some };

    ghost has_few_lanes = { T.scales_few };
}

/// Adds the items of `a` and `b`, wrapping where a sum leaves the type's range.
#[tactic(auto, using(crate::proofs::Listed::zipped_is_listed))]
#[inline(always)]
pub fn add_wrap<T: SimdLane>(a: &[T], b: &[T], out: &mut [T])
    requires same_length { length a.now ≡ length b.now }
    requires out_length { length out.old ≡ length a.now }
    ensures { map T.number out.new ≡ Kernels.add_wrap T.kind (map T.number a.now) (map T.number b.now) }
{
    zip_blocks::<T, Sum>(a, b, out);
}

/// Adds to each item of `out` the item of `items` at its place, wrapping where a sum leaves the type's range.
#[tactic(auto, using(crate::proofs::Listed::zipped_is_listed))]
#[inline(always)]
pub fn add_wrap_into<T: SimdLane>(items: &[T], out: &mut [T])
    requires { length items.now ≡ length out.old }
    ensures { map T.number out.new ≡ Kernels.add_wrap T.kind (map T.number out.old) (map T.number items.now) }
{
    zip_into::<T, Sum>(items, out);
}

/// Adds `c` to each item, wrapping where a sum leaves the type's range.
#[tactic(auto, using(crate::proofs::Listed::mapped_is_listed))]
#[inline(always)]
pub fn add_const_wrap<T: SimdLane>(a: &[T], c: T, out: &mut [T])
    requires { length out.old ≡ length a.now }
    ensures { map T.number out.new ≡ Kernels.add_const_wrap T.kind (map T.number a.now) (T.number c) }
{
    map_blocks(&Offset { by: c }, a, out);
}

/// Multiplies each item by `c`, wrapping where a product leaves the type's range.
#[tactic(auto, using(crate::proofs::Listed::mapped_is_listed))]
#[inline(always)]
pub fn mul_wrap<T: SimdLane>(a: &[T], c: T, out: &mut [T])
    requires { length out.old ≡ length a.now }
    ensures { map T.number out.new ≡ Kernels.mul_wrap T.kind (map T.number a.now) (T.number c) }
{
    map_blocks(&Multiple { by: c }, a, out);
}

/// Multiplies each item by `factor` and divides by two to the power of `shift`, to the nearest
/// number of the type; ties round up.
#[tactic(auto, using(crate::proofs::Listed::mapped_is_listed))]
#[inline(always)]
pub fn scale_sat<T: SimdLane>(a: &[T], factor: i16, shift: u32, out: &mut [T])
    requires in_range { shift ≤ 31 }
    requires out_length { length out.old ≡ length a.now }
    ensures { map T.number out.new ≡ Kernels.scale_sat T.kind (map T.number a.now) factor shift }
{
    map_blocks(&Scaling { factor, shift }, a, out);
}

/// Appends the sums of the items of `a` and `b`, wrapped, where the capacity has room.
#[inline(always)]
pub fn append_add_wrap<T: SimdLane>(a: &[T], b: &[T], out: &mut Vec<T>)
    requires same_length { length a.now ≡ length b.now }
    requires room { vec_len out.old + length a.now ≤ vec_capacity out.old }
    ensures items { map T.number out.new.items ≡ map T.number out.old.items
        ++ Kernels.add_wrap T.kind (map T.number a.now) (map T.number b.now) }
    ensures len { vec_len out.new ≡ vec_len out.old + length a.now }
    ensures capacity { vec_capacity out.old ≤ vec_capacity out.new }
{
    append_zip::<T, Sum>(a, b, out);
}

/// Appends each item plus `c`, wrapped, where the capacity has room.
#[inline(always)]
pub fn append_add_const_wrap<T: SimdLane>(a: &[T], c: T, out: &mut Vec<T>)
    requires room { vec_len out.old + length a.now ≤ vec_capacity out.old }
    ensures items { map T.number out.new.items ≡ map T.number out.old.items
        ++ Kernels.add_const_wrap T.kind (map T.number a.now) (T.number c) }
    ensures len { vec_len out.new ≡ vec_len out.old + length a.now }
    ensures capacity { vec_capacity out.old ≤ vec_capacity out.new }
{
    append_map(&Offset { by: c }, a, out);
}

/// Appends each item times `c`, wrapped, where the capacity has room.
#[inline(always)]
pub fn append_mul_wrap<T: SimdLane>(a: &[T], c: T, out: &mut Vec<T>)
    requires room { vec_len out.old + length a.now ≤ vec_capacity out.old }
    ensures items { map T.number out.new.items ≡ map T.number out.old.items
        ++ Kernels.mul_wrap T.kind (map T.number a.now) (T.number c) }
    ensures len { vec_len out.new ≡ vec_len out.old + length a.now }
    ensures capacity { vec_capacity out.old ≤ vec_capacity out.new }
{
    append_map(&Multiple { by: c }, a, out);
}

/// Appends each item, scaled as by `scale_sat`, where the capacity has room.
#[inline(always)]
pub fn append_scale_sat<T: SimdLane>(a: &[T], factor: i16, shift: u32, out: &mut Vec<T>)
    requires in_range { shift ≤ 31 }
    requires room { vec_len out.old + length a.now ≤ vec_capacity out.old }
    ensures items { map T.number out.new.items ≡ map T.number out.old.items
        ++ Kernels.scale_sat T.kind (map T.number a.now) factor shift }
    ensures len { vec_len out.new ≡ vec_len out.old + length a.now }
    ensures capacity { vec_capacity out.old ≤ vec_capacity out.new }
{
    append_map(&Scaling { factor, shift }, a, out);
}

/// Multiplies each item of `out` by the item of `items` at its place, wrapping where a product leaves the type's range.
#[tactic(auto, using(crate::proofs::Listed::zipped_is_listed))]
#[inline(always)]
pub fn multiply_wrap_into<T: SimdLane>(items: &[T], out: &mut [T])
    requires { length items.now ≡ length out.old }
    ensures { map T.number out.new ≡ Kernels.multiply_wrap T.kind (map T.number out.old) (map T.number items.now) }
{
    zip_into::<T, Product>(items, out);
}

/// Appends the products of the items of `a` and `b`, wrapped, where the capacity has room.
#[inline(always)]
pub fn append_multiply_wrap<T: SimdLane>(a: &[T], b: &[T], out: &mut Vec<T>)
    requires same_length { length a.now ≡ length b.now }
    requires room { vec_len out.old + length a.now ≤ vec_capacity out.old }
    ensures items { map T.number out.new.items ≡ map T.number out.old.items
        ++ Kernels.multiply_wrap T.kind (map T.number a.now) (map T.number b.now) }
    ensures len { vec_len out.new ≡ vec_len out.old + length a.now }
    ensures capacity { vec_capacity out.old ≤ vec_capacity out.new }
{
    append_zip::<T, Product>(a, b, out);
}

/// Takes from each item of `out` the item of `items` at its place, wrapping where a difference leaves the type's range.
#[tactic(auto, using(crate::proofs::Listed::zipped_is_listed))]
#[inline(always)]
pub fn sub_wrap_into<T: SimdLane>(items: &[T], out: &mut [T])
    requires { length items.now ≡ length out.old }
    ensures { map T.number out.new ≡ Kernels.sub_wrap T.kind (map T.number out.old) (map T.number items.now) }
{
    zip_into::<T, EachTwo<Difference>>(items, out);
}

/// Appends the items of `a` less those of `b`, wrapped, where the capacity has room.
#[inline(always)]
pub fn append_sub_wrap<T: SimdLane>(a: &[T], b: &[T], out: &mut Vec<T>)
    requires same_length { length a.now ≡ length b.now }
    requires room { vec_len out.old + length a.now ≤ vec_capacity out.old }
    ensures items { map T.number out.new.items ≡ map T.number out.old.items
        ++ Kernels.sub_wrap T.kind (map T.number a.now) (map T.number b.now) }
    ensures len { vec_len out.new ≡ vec_len out.old + length a.now }
    ensures capacity { vec_capacity out.old ≤ vec_capacity out.new }
{
    append_zip::<T, EachTwo<Difference>>(a, b, out);
}
