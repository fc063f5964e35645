//! Ranges of items that lie in two slices, one behind the other.
ghost use Rattle.std.specs.Prelude.{◌≡◌, ◌↔◌, IsTrue, map, replicate, pos, ◌+◌, ◌-◌, ◌≤◌, ◌++◌, length, slice_range, vec_len, vec_capacity};

use numbers::Number;
use numbers::vectors::append;

// The parts of a range in the two slices.
fn parts<'a, T>(front: &'a [T], back: &'a [T], from: usize, to: usize) -> (&'a [T], &'a [T])
    requires ordered { from ≤ to }
    requires within { to ≤ length (front.now ++ back.now) }
    ensures items { result.0.now ++ result.1.now ≡ slice_range (front.now ++ back.now) from to }
    ensures len { length result.0.now + length result.1.now ≡ to - from }
{
    let seam = front.len();
    (
        &front[from.min(seam)..to.min(seam)],
        &back[from.saturating_sub(seam)..to.saturating_sub(seam)],
    )
}

/// Whether the items are a range of those that lie in two slices, one behind the other.
pub fn is_range<T: Number>(items: &[T], front: &[T], back: &[T], from: usize, to: usize) -> bool
    requires ordered { from ≤ to }
    requires within { to ≤ length (front.now ++ back.now) }
    ensures { IsTrue result ↔ (map T.number items.now ≡ map T.number (slice_range (front.now ++ back.now) from to)) }
{
    let (first, second) = parts(front, back, from, to);
    if items.len() != first.len() + second.len() {
        return false;
    }
    let (start, rest) = items.split_at(first.len());
    T::are_same(start, first) && T::are_same(rest, second)
}

/// Appends a range of the items that lie in two slices, one behind the other.
pub fn append_range<T: Copy>(out: &mut Vec<T>, front: &[T], back: &[T], from: usize, to: usize)
    requires ordered { from ≤ to }
    requires within { to ≤ length (front.now ++ back.now) }
    requires room { vec_len out.old + (to - from) ≤ vec_capacity out.old }
    ensures items { out.new.items ≡ out.old.items ++ slice_range (front.now ++ back.now) from to }
    ensures len { vec_len out.new ≡ vec_len out.old + (to - from) }
    ensures capacity { vec_capacity out.old ≤ vec_capacity out.new }
{
    let (first, second) = parts(front, back, from, to);
    append(out, first);
    append(out, second);
}

/// Whether all items are 0.
pub fn are_zeros<T: Number>(items: &[T]) -> bool
    ensures { IsTrue result ↔ (map T.number items.now ≡ replicate (length items.now) (pos 0)) }
{
    for item in items {
        if item.widen() != 0 {
            return false;
        }
    }
    true
}
