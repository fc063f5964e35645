//! What a filter does by the item's type.
ghost use Rattle.std.specs.Prelude.{◌≡◌, ◌≤◌, ◌^◌, pos, length, map};
ghost use Rattle.std.specs.Int.RustNames.{unsigned_abs};
ghost use Rattle.stream_model.specs.Numbers.{sat, rnd};
ghost use Rattle.kind_model.specs.Kernels as kernels;

use lane_filters::{FilterLane, dot_i16, dot_i32};
use numbers::vectors::are_in_range;

/// An item type that has dots with taps.
pub(crate) trait TapLane: FilterLane {
    /// The sum of the products of taps and items.
    fn dot(taps: &[i16], items: &[Self]) -> i64
        requires lengths { length taps.now ≡ length items.now }
        requires most { length taps.now ≤ 256 }
        ensures { result ≡ kernels.dot taps.now (map Self.number items.now) };
}

impl TapLane for i16 {
    fn dot(taps: &[i16], items: &[i16]) -> i64 {
        dot_i16(taps, items)
    }
}

impl TapLane for i32 {
    fn dot(taps: &[i16], items: &[i32]) -> i64 {
        dot_i32(taps, items)
    }
}

// The sum over `2 ^ shift`, rounded to the nearest; ties round up.
fn rounded(sum: i64, shift: u32) -> i64
    requires shift { shift ≤ 31 }
    requires sum { unsigned_abs sum ≤ 2 ^ 60 }
    ensures { result ≡ rnd sum shift }
{
    (sum + i64::from((1u32 << shift) / 2)) >> shift
}

/// The output that these taps make of these items: the sum of the products over `2 ^ shift`, rounded and saturated.
pub(crate) fn output<T: TapLane>(taps: &[i16], items: &[T], shift: u32) -> T
    requires lengths { length taps.now ≡ length items.now }
    requires most { length taps.now ≤ 256 }
    requires shift { shift ≤ 31 }
    ensures { T.number result ≡ sat T.kind (rnd (kernels.dot taps.now (map T.number items.now)) shift) }
{
    are_in_range(taps);
    are_in_range(items);
    T::saturate(rounded(T::dot(taps, items), shift))
}
