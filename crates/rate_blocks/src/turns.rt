//! Inputs that take turns on one output.
ghost use Rattle.std.specs.Prelude.{◌≡◌, ◌≤◌, ◌<◌, ◌+◌, ◌*◌, ◌/◌, ◌%◌, ℕ, List, [], All, length, map, sum};
ghost use Rattle.stream_model.specs.Lists.{listed};
ghost use Rattle.stream_model.specs.Meaning.{input};
ghost use Rattle.kind_model.specs.Rates.{turn_of, round_item};
ghost use Rattle.items.specs.Items.{type_of, numbers_of, spare_of};
ghost use Rattle.rate_blocks.specs.Turns.{CanTurn, HasTurned, IsTurnOf};

use item_dispatch::{LaneChange, change_items};
use items::Items;
use lane_kernels::SimdLane;

/// The turn of one input in each of some rounds.
#[derive(Drop)]
pub(crate) struct Turn {
    pub(crate) rounds: usize,
    /// How many items the input gives in a round.
    pub(crate) length: usize,
    /// How many items of a round come before them.
    pub(crate) before: usize,
    /// How many items a round has.
    pub(crate) all: usize,
}

/// A block whose inputs take turns.
pub(crate) trait TakesTurns {
    /// How many items each input gives in a round.
    ghost lengths: { Self → List ℕ };

    /// The turn of an input.
    fn turn(&self, rounds: usize, port: usize) -> Turn
        requires { port < length (lengths self.now) }
        ensures { IsTurnOf (lengths self.now) rounds port result };
}

// Writes one item a round.
fn spread<T: SimdLane>(turn: &Turn, items: &[T], out: &mut [T])
    requires one { turn.now.length ≡ 1 }
    requires can { CanTurn turn.now (map T.number items.now) (map T.number out.old) }
    ensures { HasTurned turn.now (map T.number items.now) (map T.number out.old) (map T.number out.new) }
{
    for g in 0..turn.rounds {
        out[g * turn.all + turn.before] = items[g];
    }
}

// Writes the items of each round.
#[inline(always)]
fn copy_turns<T: SimdLane>(turn: &Turn, items: &[T], out: &mut [T])
    requires can { CanTurn turn.now (map T.number items.now) (map T.number out.old) }
    ensures { HasTurned turn.now (map T.number items.now) (map T.number out.old) (map T.number out.new) }
{
    for g in 0..turn.rounds {
        let from = g * turn.length;
        let at = g * turn.all + turn.before;
        out[at..at + turn.length].copy_from_slice(&items[from..from + turn.length]);
    }
}

// `copy_turns` where the caller may know the length, by a turn of its own, which no write can change.
#[inline(always)]
fn copy_lengths<T: SimdLane>(turn: &Turn, length: usize, items: &[T], out: &mut [T])
    requires length { length ≡ turn.now.length }
    requires can { CanTurn turn.now (map T.number items.now) (map T.number out.old) }
    ensures { HasTurned turn.now (map T.number items.now) (map T.number out.old) (map T.number out.new) }
{
    let known = Turn {
        rounds: turn.rounds,
        length,
        before: turn.before,
        all: turn.all,
    };
    copy_turns(&known, items, out);
}

impl LaneChange for Turn {
    ghost use Rattle.rate_blocks.specs.Turns.{CanTurn, HasTurned};

    ghost can_change = { CanTurn };

    ghost changes = { HasTurned };

    fn change<T: SimdLane>(&self, items: &[T], out: &mut [T]) {
        match self.length {
            1 => spread(self, items, out),
            2 => copy_lengths(self, 2, items, out),
            3 => copy_lengths(self, 3, items, out),
            4 => copy_lengths(self, 4, items, out),
            8 => copy_lengths(self, 8, items, out),
            length => copy_lengths(self, length, items, out),
        }
    }
}

/// Writes what the inputs give in so many rounds, which are `total` items, into an empty `out` with room for it.
pub(crate) fn merge_turns<M: TakesTurns>(
    block: &M,
    rounds: usize,
    total: usize,
    windows: &[Items],
    out: &mut Items,
)
    requires ports { length windows.now ≡ length (M.lengths block.now) }
    requires whole { total ≡ rounds * sum (M.lengths block.now) }
    requires same_type { All (λ w. type_of w ≡ type_of out.old) windows.now }
    requires same_length { (p : ℕ) → p < length windows.now →
        length (input (map numbers_of windows.now) p) ≡ rounds * turn_of (M.lengths block.now) p }
    requires empty { numbers_of out.old ≡ [] }
    requires room { total ≤ spare_of out.old }
    ensures item_type { type_of out.new ≡ type_of out.old }
    ensures numbers { numbers_of out.new ≡ listed total (λ k.
        round_item (M.lengths block.now) 0 (map numbers_of windows.now) (k / sum (M.lengths block.now))
        (k % sum (M.lengths block.now))) }
    ensures room { spare_of out.old ≤ spare_of out.new + length (numbers_of out.new) }
{
    out.push_zeros(total);
    for p in 0..windows.len() {
        change_items(&block.turn(rounds, p), &windows[p], out);
    }
}
