//! What a sink that keeps its items collects.
ghost use Rattle.std.specs.Prelude.{◌≡◌, ℕ, ◌<◌, [], length, map, true};
ghost use Rattle.stream_model.specs.Network.{role_at, is_keeper};
ghost use Rattle.items.specs.Items.{numbers_of};
ghost use Rattle.flowgraph.specs.Flowgraph.{net_of};
ghost use Rattle.plant_storage.specs.Stores.{collected_of, stored_of};
ghost use Rattle.plant_storage.specs.Delivery.{delivered_sinks};
ghost use Rattle.plant_transfers.specs.Rows.{rows_of};
ghost use Rattle.plant_transfers.specs.Steps.{stored_with, CanRead, CanKeep, sink_in};

use crate::firing_range::FiringRange;
use crate::inputs::tags_on;
use block_trait::{Block, Role};
use buffers::Buffer;
use flowgraph::Valid;
use items::Items;
use plant_storage::Recording;

/// A sink that keeps its items collects those of the firings' window, and the tags on them. It takes no memory.
pub(crate) fn collect<B: Block>(
    sinks: &mut [Recording],
    buffers: &[Vec<Buffer>],
    graph: &Valid<B>,
    firings: FiringRange,
    windows: &[Items],
)
    requires reads { CanRead (net_of B.meaning graph.now) (stored_with [] (rows_of (λ row. row.items) buffers.now))
        firings.block.0 firings.first firings.next }
    requires sink { firings.block.0 < length sinks.old }
    requires keeps { is_keeper (role_at (net_of B.meaning graph.now) firings.block.0) ≡ true
        → CanKeep (net_of B.meaning graph.now) (rows_of (λ row. row.items) buffers.now) sinks.old firings.block.0
        firings.first firings.next windows.now }
    ensures sinks { map collected_of sinks.new
        ≡ delivered_sinks (net_of B.meaning graph.now) (stored_of [] [] (rows_of (λ row. row.items) buffers.now)
        sinks.old) firings.block.0 firings.first firings.next (map numbers_of windows.now) }
    ensures others { (a : ℕ) → (a ≡ firings.block.0 → ⊥) → sink_in sinks.new a ≡ sink_in sinks.old a }
{
    graph.recall();
    match graph.role(firings.block) {
        Role::Keep => {
            let tags = tags_on(buffers, graph, firings, 0);
            sinks[firings.block.0 as usize].push(&windows[0], tags);
        }
        Role::Source | Role::Work | Role::Discard => {}
    }
}
