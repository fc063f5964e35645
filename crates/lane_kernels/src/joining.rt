//! From an operation on one block of items to slices of every length, where what is made of the items of two slices is
//! written over those of one: turn by turn, and at the end the items that are left.
ghost use Rattle.std.specs.Prelude.{◌≡◌, ◌<◌, length, map};
ghost use Rattle.std.specs.Simd.Lanes.{zip2};
ghost use Rattle.lane_kernels.specs.declared.turns.TheConstants.{TURN};

use crate::SimdLane;
use crate::appending::{zip_part, zip_turn};
use crate::blocks::ZipBlock;
use crate::turns::TURN;

/// Writes over each item of `out` the operation at it and the item of `items` at its place.
#[inline(always)]
pub(crate) fn zip_into<T: SimdLane, Z: ZipBlock<T>>(items: &[T], out: &mut [T])
    requires { length items.now ≡ length out.old }
    ensures { map T.number out.new ≡ zip2 Z.means (map T.number out.old) (map T.number items.now) }
{
    for turn in 0..out.len() / TURN {
        let at = turn * TURN;
        let end = at + TURN;
        zip_turn_into::<T, Z>(&items[at..end], &mut out[at..end]);
    }
    let at = out.len() / TURN * TURN;
    if at < out.len() {
        zip_last_into::<T, Z>(&items[at..], &mut out[at..]);
    }
}

/// Writes over a turn, all of which is made before it is stored.
#[inline(always)]
fn zip_turn_into<T: SimdLane, Z: ZipBlock<T>>(items: &[T], out: &mut [T])
    requires same_length { length items.now ≡ length out.old }
    requires one { length out.old ≡ TURN }
    ensures { map T.number out.new ≡ zip2 Z.means (map T.number out.old) (map T.number items.now) }
{
    let made = zip_turn::<T, Z>(out, items);
    out.copy_from_slice(&made);
}

/// Writes over fewer items than a turn has. Not inlined, so that the code of whole turns stays short.
#[inline(never)]
fn zip_last_into<T: SimdLane, Z: ZipBlock<T>>(items: &[T], out: &mut [T])
    requires same_length { length items.now ≡ length out.old }
    requires few { length out.old < TURN }
    ensures { map T.number out.new ≡ zip2 Z.means (map T.number out.old) (map T.number items.now) }
{
    let last = zip_part::<T, Z>(out, items);
    out.copy_from_slice(&last[..out.len()]);
}
