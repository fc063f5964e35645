//! From an operation on one block of items to slices of every length: sixteen items a turn, block by
//! block, and at the end a block that overlaps.
ghost use Rattle.std.specs.Prelude.{◌≡◌, ℕ, ◌+◌, ◌*◌, ◌<◌, ◌≤◌, length, map, take, ℤ};
ghost use Rattle.std.specs.Simd.Lanes.{zip2};
ghost use Rattle.lane_kernels.specs.Blocks.{IsBlock};
ghost use Rattle.lane_kernels.specs.declared.simd_lane.TheConstants.{MOST_LANES};

use crate::turns::TURN;
use crate::{MOST_LANES, SimdLane};
use numbers::vectors::are_in_range;

/// An operation that makes an item from one.
pub(crate) trait MapBlock<T: SimdLane, U: SimdLane> {
    /// The number that it makes of a number.
    ghost means: { Self → ℤ → ℤ };

    /// How many items a block has.
    ghost LANES: { ℕ };

    const LANES: usize;

    fn block(&self, a: &[T], out: &mut [U])
        requires a_block { IsBlock LANES T.kind T.number a.now }
        requires out_block { length out.old ≡ LANES }
        ensures { map U.number out.new ≡ map (means self.now) (map T.number a.now) };

    ghost has_lane: { 0 < LANES };

    ghost has_few_lanes: { LANES ≤ MOST_LANES };
}

/// An operation that makes an item from two.
pub(crate) trait ZipBlock<T: SimdLane> {
    /// The number that it makes of two.
    ghost means: { ℤ → ℤ → ℤ };

    fn block(a: &[T], b: &[T], out: &mut [T])
        requires a_block { IsBlock T.LANES T.kind T.number a.now }
        requires b_block { IsBlock T.LANES T.kind T.number b.now }
        requires out_block { length out.old ≡ T.LANES }
        ensures { map T.number out.new ≡ zip2 means (map T.number a.now) (map T.number b.now) };
}

/// The operation at each item.
#[inline(always)]
pub(crate) fn map_blocks<T: SimdLane, U: SimdLane, M: MapBlock<T, U>>(
    op: &M,
    a: &[T],
    out: &mut [U],
)
    requires { length out.old ≡ length a.now }
    ensures { map U.number out.new ≡ map (M.means op.now) (map T.number a.now) }
{
    for turn in 0..a.len() / TURN {
        let at = turn * TURN;
        let end = at + TURN;
        map_steps(op, &a[at..end], &mut out[at..end]);
    }
    if a.len() % TURN > 0 {
        let at = a.len().saturating_sub(TURN);
        map_last(op, &a[at..], &mut out[at..]);
    }
}

/// The operation at each item of the last turn, which may overlap the one before. Not inlined, so
/// that the code of whole turns stays short.
#[inline(never)]
fn map_last<T: SimdLane, U: SimdLane, M: MapBlock<T, U>>(op: &M, a: &[T], out: &mut [U])
    requires { length out.old ≡ length a.now }
    ensures { map U.number out.new ≡ map (M.means op.now) (map T.number a.now) }
{
    map_steps(op, a, out);
}

/// The operation block by block, each stored before the next is loaded, and at the end one that overlaps.
#[inline(always)]
pub(crate) fn map_steps<T: SimdLane, U: SimdLane, M: MapBlock<T, U>>(op: &M, a: &[T], out: &mut [U])
    requires { length out.old ≡ length a.now }
    ensures { map U.number out.new ≡ map (M.means op.now) (map T.number a.now) }
{
    let lanes = M::LANES;
    let mut at = 0;
    'blocks: while a.len() - at >= lanes {
        let end = at + lanes;
        map_one(op, &a[at..end], &mut out[at..end]);
        at = end;
    }
    if at < a.len() {
        let from = at.min(a.len().saturating_sub(lanes));
        map_rest(op, &a[from..], &mut out[from..]);
    }
}

#[inline(always)]
fn map_one<T: SimdLane, U: SimdLane, M: MapBlock<T, U>>(op: &M, a: &[T], out: &mut [U])
    requires one { length a.now ≡ M.LANES }
    requires same_length { length out.old ≡ length a.now }
    ensures { map U.number out.new ≡ map (M.means op.now) (map T.number a.now) }
{
    are_in_range(a);
    op.block(a, out);
}

/// The operation at each item of the last block, which may overlap the one before. Fewer items
/// begin a block.
fn map_rest<T: SimdLane, U: SimdLane, M: MapBlock<T, U>>(op: &M, a: &[T], out: &mut [U])
    requires same_length { length out.old ≡ length a.now }
    requires some { 0 < length a.now }
    requires at_most_a_block { length a.now ≤ M.LANES }
    ensures { map U.number out.new ≡ map (M.means op.now) (map T.number a.now) }
{
    let lanes = M::LANES;
    if a.len() == lanes {
        map_one(op, a, out);
        return;
    }
    let block = padded(a);
    let mut made = [out[0]; MOST_LANES];
    map_one(op, &block[..lanes], &mut made[..lanes]);
    out.copy_from_slice(&made[..a.len()]);
}

/// The operation at each two items.
#[inline(always)]
pub(crate) fn zip_blocks<T: SimdLane, Z: ZipBlock<T>>(a: &[T], b: &[T], out: &mut [T])
    requires b_length { length b.now ≡ length a.now }
    requires out_length { length out.old ≡ length a.now }
    ensures { map T.number out.new ≡ zip2 Z.means (map T.number a.now) (map T.number b.now) }
{
    for turn in 0..a.len() / TURN {
        let at = turn * TURN;
        let end = at + TURN;
        zip_steps::<T, Z>(&a[at..end], &b[at..end], &mut out[at..end]);
    }
    if a.len() % TURN > 0 {
        let at = a.len().saturating_sub(TURN);
        zip_last::<T, Z>(&a[at..], &b[at..], &mut out[at..]);
    }
}

/// The operation at each two items of the last turn, which may overlap the one before. Not inlined,
/// so that the code of whole turns stays short.
#[inline(never)]
fn zip_last<T: SimdLane, Z: ZipBlock<T>>(a: &[T], b: &[T], out: &mut [T])
    requires b_length { length b.now ≡ length a.now }
    requires out_length { length out.old ≡ length a.now }
    ensures { map T.number out.new ≡ zip2 Z.means (map T.number a.now) (map T.number b.now) }
{
    zip_steps::<T, Z>(a, b, out);
}

/// The operation block by block, each stored before the next is loaded, and at the end one that overlaps.
#[inline(always)]
pub(crate) fn zip_steps<T: SimdLane, Z: ZipBlock<T>>(a: &[T], b: &[T], out: &mut [T])
    requires b_length { length b.now ≡ length a.now }
    requires out_length { length out.old ≡ length a.now }
    ensures { map T.number out.new ≡ zip2 Z.means (map T.number a.now) (map T.number b.now) }
{
    let lanes = T::LANES;
    let mut at = 0;
    'blocks: while a.len() - at >= lanes {
        let end = at + lanes;
        zip_one::<T, Z>(&a[at..end], &b[at..end], &mut out[at..end]);
        at = end;
    }
    if at < a.len() {
        let from = at.min(a.len().saturating_sub(lanes));
        zip_rest::<T, Z>(&a[from..], &b[from..], &mut out[from..]);
    }
}

#[inline(always)]
fn zip_one<T: SimdLane, Z: ZipBlock<T>>(a: &[T], b: &[T], out: &mut [T])
    requires one { length a.now ≡ T.LANES }
    requires b_length { length b.now ≡ length a.now }
    requires out_length { length out.old ≡ length a.now }
    ensures { map T.number out.new ≡ zip2 Z.means (map T.number a.now) (map T.number b.now) }
{
    are_in_range(a);
    are_in_range(b);
    Z::block(a, b, out);
}

/// The operation at each two items of the last block, which may overlap the one before. Fewer
/// items begin a block.
fn zip_rest<T: SimdLane, Z: ZipBlock<T>>(a: &[T], b: &[T], out: &mut [T])
    requires b_length { length b.now ≡ length a.now }
    requires out_length { length out.old ≡ length a.now }
    requires some { 0 < length a.now }
    requires at_most_a_block { length a.now ≤ T.LANES }
    ensures { map T.number out.new ≡ zip2 Z.means (map T.number a.now) (map T.number b.now) }
{
    let lanes = T::LANES;
    if a.len() == lanes {
        zip_one::<T, Z>(a, b, out);
        return;
    }
    let first = padded(a);
    let second = padded(b);
    let mut made = [out[0]; MOST_LANES];
    zip_one::<T, Z>(&first[..lanes], &second[..lanes], &mut made[..lanes]);
    out.copy_from_slice(&made[..a.len()]);
}

/// An array that begins with the items.
fn padded<T: SimdLane>(a: &[T]) -> [T; MOST_LANES]
    requires some { 0 < length a.now }
    requires at_most_a_block { length a.now ≤ MOST_LANES }
    ensures items { take (length a.now) result ≡ a.now }
    ensures whole { length result ≡ MOST_LANES }
{
    let mut block = [a[0]; MOST_LANES];
    block[..a.len()].copy_from_slice(a);
    block
}
