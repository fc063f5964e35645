//! How long sinks wait until what they get is right.
ghost use Rattle.std.specs.Prelude.{◌≡◌, ◌<◌, ◌≤◌, ◌+◌, ◌*◌, ◌↔◌, ℕ, length};
ghost use Rattle.flowgraph.specs.Flowgraph.{net_of};
ghost use Rattle.slice_laws.specs.Tags.{both_right};
ghost use Rattle.slices.specs.Firings.{CanRise, firing_at};
ghost use Rattle.slices.specs.Plans.{CanWait, HasWaited};

use crate::first_firings::settled_at;
use block_trait::Block;
use flowgraph::{BlockId, Valid};

/// After how many more iterations there are `items` items, if there are `there` now and each gives `period`.
fn wait(items: u64, there: u64, period: u64) -> u64
    requires { 1 ≤ period }
    ensures least { (i : ℕ) → items ≤ there + i * period → result ≤ i }
    ensures enough { (i : ℕ) → result ≤ i → items ≤ there + i * period }
    ensures few { result ≤ items }
{
    items.saturating_sub(there).div_ceil(period)
}

/// The item from which on a block's items and their tags are right: items are right from the firings `first` on, tags
/// from `tagged` on.
pub fn right_at<B: Block>(graph: &Valid<B>, block: BlockId, first: &[u64], tagged: &[u64]) -> u64
    requires there { block.0 < length graph.now.blocks }
    requires first { CanRise (net_of B.meaning graph.now) first.now }
    requires tagged { CanRise (net_of B.meaning graph.now) tagged.now }
    ensures { result ≡ both_right (net_of B.meaning graph.now) (firing_at first.now) (firing_at tagged.now) block.0 }
{
    settled_at(graph, block, first).max(settled_at(graph, block, tagged))
}

/// After how many more iterations each sink has got all that is not right yet. It has got `there` items, and gets as
/// many more in each iteration as it fires.
pub fn longest_wait<B: Block>(
    graph: &Valid<B>,
    firings: &[u32],
    first: &[u64],
    tagged: &[u64],
    there: &[u64],
) -> u64
    requires { CanWait (net_of B.meaning graph.now) firings.now first.now tagged.now there.now }
    ensures { HasWaited (net_of B.meaning graph.now) firings.now first.now tagged.now there.now result }
{
    let mut longest: u64 = 0;
    for block in 0..graph.len() {
        let id = BlockId(block as u32);
        if graph.is_keeper(id) {
            let right = right_at(graph, id, first, tagged);
            longest = longest.max(wait(right, there[block], u64::from(firings[block])));
        }
    }
    longest
}
