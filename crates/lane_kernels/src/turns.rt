//! Items that are appended sixteen at a time. All of them are made before the first is stored, so that they stay in
//! registers, and no place in memory is written twice.
ghost use Rattle.std.specs.Prelude.{◌≡◌, ◌≤◌, ◌+◌, ◌++◌, vec_len, vec_capacity};

use crate::SimdLane;

/// How many items a turn has.
pub(crate) const TURN: usize = 16;

/// Appends the items of a turn where the capacity has room.
#[inline(always)]
pub(crate) fn push_turn<T: SimdLane>(turn: [T; TURN], made: &mut Vec<T>)
    requires { vec_len made.old + TURN ≤ vec_capacity made.old }
    ensures items { made.new.items ≡ made.old.items ++ turn }
    ensures len { vec_len made.new ≡ vec_len made.old + TURN }
    ensures capacity { vec_capacity made.new ≡ vec_capacity made.old }
{
    for k in 0..TURN {
        made.push_reserved(turn[k]);
    }
}
