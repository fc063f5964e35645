//! How many firings of a block some items allow, in closed form.

ghost use Rattle.std.specs.Prelude.{◌≡◌, ◌/◌, ◌^◌, ◌<◌, min};
ghost use Rattle.stream_model.specs.Firings as closed;
ghost use Rattle.firing_rules.specs.Situation.{node_seen};

use crate::progress::Tapes;
use crate::situation::Situation;
use block_trait::{Block, Pace};

impl<B: Block, T: Tapes> Situation<'_, B, T> {
    /// How many firings take at most so many items of an input.
    pub(crate) fn allowed(&self, port: usize, items: u64) -> u64
        requires { items < 2 ^ 62 }
        ensures { result ≡ closed.allowed (node_seen B.meaning self.now) port items }
    {
        let multiple = u64::from(self.graph.multiple(self.block));
        match self.graph.pace(self.block, port) {
            Pace::Rate(taken, _) | Pace::Turns(taken, _, _) | Pace::Placed(taken, _) => {
                quotient(items, multiple * taken)
            }
            Pace::Skip(_) => items,
            Pace::Delay(count) => items + count,
        }
    }

    /// How many firings, at most `bound`, give at most so many items on each output.
    pub(crate) fn fitting(&self, items: u64, bound: u64) -> u64
        ensures { result ≡ min (closed.fitting (node_seen B.meaning self.now) items) bound }
    {
        let multiple = u64::from(self.graph.multiple(self.block));
        let count = match self.graph.pace(self.block, 0) {
            Pace::Rate(_, given) => quotient(items, multiple * given),
            Pace::Turns(_, given, _) => quotient(items, multiple * given),
            Pace::Placed(_, given) => quotient(items, multiple * given),
            Pace::Skip(count) => items.saturating_add(count),
            Pace::Delay(_) => items,
        };
        count.min(bound)
    }
}

// The items divided by those of one firing. Most blocks take one item a firing; then it divides nothing.
fn quotient(items: u64, each: u64) -> u64
    requires { 0 < each }
    ensures { result ≡ items / each }
{
    if each == 1 { items } else { items / each }
}
