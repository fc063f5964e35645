//! From an operation on one block of items to slices of every length, where what is made is appended: turn by turn, and
//! at the end one that overlaps.
ghost use Rattle.std.specs.Prelude.{◌≡◌, ◌+◌, ◌<◌, ◌≤◌, ◌-◌, ◌++◌, length, map, take, drop, vec_len, vec_capacity};
ghost use Rattle.std.specs.Simd.Lanes.{zip2};
ghost use Rattle.lane_kernels.specs.declared.turns.TheConstants.{TURN};

use crate::SimdLane;
use crate::blocks::{MapBlock, ZipBlock, map_steps, zip_steps};
use crate::turns::{TURN, push_turn};
use numbers::vectors::append;
use std::mem;

/// Appends the operation at each item, where the capacity has room. The loop appends to a vector of its own, whose
/// length and place in memory stay in registers then.
#[inline(always)]
pub(crate) fn append_map<T: SimdLane, U: SimdLane, M: MapBlock<T, U>>(
    op: &M,
    a: &[T],
    out: &mut Vec<U>,
)
    requires { vec_len out.old + length a.now ≤ vec_capacity out.old }
    ensures items { map U.number out.new.items ≡ map U.number out.old.items
        ++ map (M.means op.now) (map T.number a.now) }
    ensures len { vec_len out.new ≡ vec_len out.old + length a.now }
    ensures capacity { vec_capacity out.old ≤ vec_capacity out.new }
{
    let alloc = *out.allocator();
    let mut made = mem::replace(out, Vec::new(alloc));
    push_map(op, a, &mut made);
    *out = made;
}

/// `append_map` to a vector of the caller's own.
#[inline(always)]
fn push_map<T: SimdLane, U: SimdLane, M: MapBlock<T, U>>(op: &M, a: &[T], made: &mut Vec<U>)
    requires { vec_len made.old + length a.now ≤ vec_capacity made.old }
    ensures items { map U.number made.new.items ≡ map U.number made.old.items
        ++ map (M.means op.now) (map T.number a.now) }
    ensures len { vec_len made.new ≡ vec_len made.old + length a.now }
    ensures capacity { vec_capacity made.old ≤ vec_capacity made.new }
{
    for turn in 0..a.len() / TURN {
        let at = turn * TURN;
        let end = at + TURN;
        push_turn(map_turn(op, &a[at..end]), made);
    }
    let rest = a.len() % TURN;
    if rest > 0 {
        push_map_last(op, a, rest, made);
    }
}

/// The operation at each item of a turn.
#[inline(always)]
fn map_turn<T: SimdLane, U: SimdLane, M: MapBlock<T, U>>(op: &M, a: &[T]) -> [U; TURN]
    requires { length a.now ≡ TURN }
    ensures { map U.number result ≡ map (M.means op.now) (map T.number a.now) }
{
    let mut made = [U::narrow(0); TURN];
    map_steps(op, a, &mut made);
    made
}

/// Appends the operation at each of the last `rest` items, from a turn which may begin with some before them. Not
/// inlined, so that the code of whole turns stays short.
#[inline(never)]
fn push_map_last<T: SimdLane, U: SimdLane, M: MapBlock<T, U>>(
    op: &M,
    a: &[T],
    rest: usize,
    made: &mut Vec<U>,
)
    requires some { rest ≤ length a.now }
    requires few { rest < TURN }
    requires room { vec_len made.old + rest ≤ vec_capacity made.old }
    ensures items { map U.number made.new.items ≡ map U.number made.old.items
        ++ map (M.means op.now) (map T.number (drop (length a.now - rest) a.now)) }
    ensures len { vec_len made.new ≡ vec_len made.old + rest }
    ensures capacity { vec_capacity made.old ≤ vec_capacity made.new }
{
    let from = a.len().saturating_sub(TURN);
    let last = map_part(op, &a[from..]);
    let part = &last[..a.len() - from];
    append(made, &part[part.len() - rest..]);
}

/// The operation at each of a few items, where a turn begins.
#[inline(always)]
fn map_part<T: SimdLane, U: SimdLane, M: MapBlock<T, U>>(op: &M, a: &[T]) -> [U; TURN]
    requires { length a.now ≤ TURN }
    ensures { map U.number (take (length a.now) result) ≡ map (M.means op.now) (map T.number a.now) }
{
    let mut made = [U::narrow(0); TURN];
    map_steps(op, a, &mut made[..a.len()]);
    made
}

/// Appends the operation at each two items, where the capacity has room.
#[inline(always)]
pub(crate) fn append_zip<T: SimdLane, Z: ZipBlock<T>>(a: &[T], b: &[T], out: &mut Vec<T>)
    requires b_length { length b.now ≡ length a.now }
    requires room { vec_len out.old + length a.now ≤ vec_capacity out.old }
    ensures items { map T.number out.new.items ≡ map T.number out.old.items
        ++ zip2 Z.means (map T.number a.now) (map T.number b.now) }
    ensures len { vec_len out.new ≡ vec_len out.old + length a.now }
    ensures capacity { vec_capacity out.old ≤ vec_capacity out.new }
{
    let alloc = *out.allocator();
    let mut made = mem::replace(out, Vec::new(alloc));
    push_zip::<T, Z>(a, b, &mut made);
    *out = made;
}

/// `append_zip` to a vector of the caller's own.
#[inline(always)]
fn push_zip<T: SimdLane, Z: ZipBlock<T>>(a: &[T], b: &[T], made: &mut Vec<T>)
    requires b_length { length b.now ≡ length a.now }
    requires room { vec_len made.old + length a.now ≤ vec_capacity made.old }
    ensures items { map T.number made.new.items ≡ map T.number made.old.items
        ++ zip2 Z.means (map T.number a.now) (map T.number b.now) }
    ensures len { vec_len made.new ≡ vec_len made.old + length a.now }
    ensures capacity { vec_capacity made.old ≤ vec_capacity made.new }
{
    for turn in 0..a.len() / TURN {
        let at = turn * TURN;
        let end = at + TURN;
        push_turn(zip_turn::<T, Z>(&a[at..end], &b[at..end]), made);
    }
    let rest = a.len() % TURN;
    if rest > 0 {
        push_zip_last::<T, Z>(a, b, rest, made);
    }
}

/// The operation at each two items of a turn.
#[inline(always)]
pub(crate) fn zip_turn<T: SimdLane, Z: ZipBlock<T>>(a: &[T], b: &[T]) -> [T; TURN]
    requires one { length a.now ≡ TURN }
    requires b_length { length b.now ≡ length a.now }
    ensures { map T.number result ≡ zip2 Z.means (map T.number a.now) (map T.number b.now) }
{
    let mut made = [T::narrow(0); TURN];
    zip_steps::<T, Z>(a, b, &mut made);
    made
}

/// Appends the operation at each of the last `rest` two items, from a turn which may begin with some before them. Not
/// inlined, so that the code of whole turns stays short.
#[inline(never)]
fn push_zip_last<T: SimdLane, Z: ZipBlock<T>>(a: &[T], b: &[T], rest: usize, made: &mut Vec<T>)
    requires b_length { length b.now ≡ length a.now }
    requires some { rest ≤ length a.now }
    requires few { rest < TURN }
    requires room { vec_len made.old + rest ≤ vec_capacity made.old }
    ensures items { map T.number made.new.items
        ≡ map T.number made.old.items ++ drop (length a.now - rest) (zip2 Z.means (map T.number a.now)
        (map T.number b.now)) }
    ensures len { vec_len made.new ≡ vec_len made.old + rest }
    ensures capacity { vec_capacity made.old ≤ vec_capacity made.new }
{
    let from = a.len().saturating_sub(TURN);
    let last = zip_part::<T, Z>(&a[from..], &b[from..]);
    let part = &last[..a.len() - from];
    append(made, &part[part.len() - rest..]);
}

/// The operation at each two of a few items, where a turn begins.
#[inline(always)]
pub(crate) fn zip_part<T: SimdLane, Z: ZipBlock<T>>(a: &[T], b: &[T]) -> [T; TURN]
    requires few { length a.now ≤ TURN }
    requires b_length { length b.now ≡ length a.now }
    ensures { map T.number (take (length a.now) result) ≡ zip2 Z.means (map T.number a.now) (map T.number b.now) }
{
    let mut made = [T::narrow(0); TURN];
    zip_steps::<T, Z>(a, b, &mut made[..a.len()]);
    made
}
