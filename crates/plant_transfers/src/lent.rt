//! What a job is lent.
ghost use Rattle.std.specs.Prelude.{◌≡◌, ◌+◌, ◌*◌, ◌^◌, ◌<◌, ◌≤◌, ℕ, length, map, None, IsOk, OnOk};
ghost use Rattle.stream_model.specs.Network.{node_at, taken_by};
ghost use Rattle.settings.specs.Values.{held_of};
ghost use Rattle.flowgraph.specs.Flowgraph.{net_of};
ghost use Rattle.plant_laws.specs.Stored.{timeline_at, settings_from};
ghost use Rattle.plant_laws.specs.Claims.{held_over};
ghost use Rattle.plant_storage.specs.Stores.{stored_in};
ghost use Rattle.plant_storage.specs.Lending.{CanLend, IsLent};
ghost use Rattle.plant_transfers.specs.Places.{Suffices};

use crate::places::ready_places;
use crate::windows::lend_windows;
use block_trait::Block;
use claimed_work::Lent;
use flowgraph::{BlockId, Valid};
use plant_storage::{RecentSettings, Stores};
use settings::Held;
use std::alloc::{AllocError, Global};

/// Makes `lent` what a job of these firings is lent, in the memory that it has where that suffices. It fails only where
/// the allocator refuses. The items that `lent` has are then left open, but none of its memory is lost.
pub fn lend<B: Block>(
    alloc: Global,
    stores: &Stores,
    graph: &Valid<B>,
    block: BlockId,
    first: u64,
    count: u32,
    lent: &mut Lent,
) -> Result<(), AllocError>
    requires { CanLend (net_of B.meaning graph.now) (stored_in stores.now) block.0 first count }
    ensures lent { OnOk result (IsLent (net_of B.meaning graph.now) (stored_in stores.now) block.0 first count
        lent.new.windows.items lent.new.held.items lent.new.outputs.items) }
    ensures succeeds { timeline_at (stored_in stores.now) block.0 ≡ None
        → Suffices (net_of B.meaning graph.now) block.0 first (first + count) lent.old.windows.items
        lent.old.outputs.items → IsOk result }
    ensures keeps { (k next : ℕ) → Suffices (net_of B.meaning graph.now) block.0 k next lent.old.windows.items
        lent.old.outputs.items
        → Suffices (net_of B.meaning graph.now) block.0 k next lent.new.windows.items lent.new.outputs.items }
{
    lend_windows(alloc, stores, graph, block, first, count, &mut lent.windows)?;
    graph.recall();
    let next = first + u64::from(count);
    lend_settings(
        alloc,
        graph,
        &stores.handed[block.0 as usize].timeline,
        block,
        first,
        next,
        &mut lent.held,
    )?;
    let room = graph.gives(block, first, next);
    ready_places(
        alloc,
        &mut lent.outputs,
        graph.outputs(block),
        graph.output_type(block),
        room as usize,
    )
}

// Makes `held` the settings in force over the items that firings `first` to below `next` of a block take of its first
// input, none where it has no timeline.
fn lend_settings<B: Block>(
    alloc: Global,
    graph: &Valid<B>,
    timeline: &Option<RecentSettings>,
    block: BlockId,
    first: u64,
    next: u64,
    held: &mut Vec<Held>,
) -> Result<(), AllocError>
    requires block { block.0 < length graph.now.blocks }
    requires ordered { first ≤ next }
    requires firings { (node_at (net_of B.meaning graph.now) block.0).multiple * next < 2 ^ 62 }
    requires taken { taken_by (node_at (net_of B.meaning graph.now) block.0) 0 next < 2 ^ 62 }
    requires unread { settings_from timeline.now ≤ taken_by (node_at (net_of B.meaning graph.now) block.0) 0 first }
    ensures held { let n = node_at (net_of B.meaning graph.now) block.0 in
        OnOk result (map held_of held.new.items ≡ held_over timeline.now (taken_by n 0 first) (taken_by n 0 next)) }
    ensures succeeds { timeline.now ≡ None → IsOk result }
{
    match timeline {
        None => {
            held.clear();
            Ok(())
        }
        Some(timeline) => {
            graph.recall();
            let from = graph.taken(block, 0, first);
            let to = graph.taken(block, 0, next);
            timeline.copy_between(alloc, from, to, held)
        }
    }
}
