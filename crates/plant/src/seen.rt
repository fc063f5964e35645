//! Compares windows and settings with what is stored, without a copy.

ghost use Rattle.std.specs.Prelude.{◌≡◌, ◌∷◌, [], ◌*◌, ◌<◌, ◌≤◌, ◌^◌, ◌↔◌, ℕ, ℤ, List, length, map, slice_range, All, IsTrue};
ghost use Rattle.stream_model.specs.Network.{node_at, taken_by};
ghost use Rattle.items.specs.Items.{type_of, numbers_of};
ghost use Rattle.settings.specs.Values.{held_of};
ghost use Rattle.ring_readers.specs.State.{IsEndOf};
ghost use Rattle.flowgraph.specs.Flowgraph.{net_of};
ghost use Rattle.plant_laws.specs.Stored.{settings_from};
ghost use Rattle.plant_laws.specs.Claims.{held_over};
ghost use Rattle.plant.specs.Seen.{CanSee, CanSeeAll, AreEnds, AreSeen, ring_behind, seen_of};

use block_trait::Block;
use buffers::{Buffer, Reader};
use flowgraph::{BlockId, Input, Valid};
use items::Items;
use numbers::Number;
use plant_storage::{RecentSettings, Recording};
use settings::Held;

// Whether the items are those of `whole` from place `from` to below place `to`.
#[tactic(auto, using(items::proofs::Numbers::map_same, numbers::proofs::Mapped::map_slice_range))]
fn is_range(items: &Items, whole: &Items, from: usize, to: usize) -> bool
    requires same_type { type_of items.now ≡ type_of whole.now }
    requires ordered { from ≤ to }
    requires within { to ≤ length (numbers_of whole.now) }
    ensures { IsTrue result ↔ (numbers_of items.now ≡ slice_range (numbers_of whole.now) from to) }
{
    match (items, whole) {
        (Items::Byte(values), Items::Byte(more)) => u8::are_same(values, &more[from..to]),
        (Items::Short(values), Items::Short(more)) => i16::are_same(values, &more[from..to]),
        (Items::Int(values), Items::Int(more)) => i32::are_same(values, &more[from..to]),
        _ => unreachable!(),
    }
}

/// Whether the only window is cut out of a tape, from item `first` to below item `next`.
pub(crate) fn is_cut(tape: &Recording, first: u64, next: u64, windows: &[Items]) -> bool
    requires kept { tape.now.from ≤ first }
    requires ordered { first ≤ next }
    requires within { next ≤ length tape.now.items }
    requires types { All (λ w. type_of w ≡ tape.now.item) windows.now }
    ensures { IsTrue result ↔ (map numbers_of windows.now ≡ slice_range tape.now.items first next ∷ []) }
{
    let kept = tape.kept();
    let (start, end) = (first - kept.first, next - kept.first);
    windows.len() == 1 && is_range(&windows[0], kept.items, start as usize, end as usize)
}

/// Whether the settings are those in force over the items that firings `first` to below `next` of a block take of its
/// first input: none without a timeline.
pub(crate) fn are_held<B: Block>(
    graph: &Valid<B>,
    block: BlockId,
    timeline: &Option<RecentSettings>,
    first: u64,
    next: u64,
    held: &[Held],
) -> bool
    requires block { block.0 < length graph.now.blocks }
    requires firings { (node_at (net_of B.meaning graph.now) block.0).multiple * next < 2 ^ 62 }
    requires ordered { first ≤ next }
    requires taken { taken_by (node_at (net_of B.meaning graph.now) block.0) 0 next < 2 ^ 62 }
    requires unread { settings_from timeline.now ≤ taken_by (node_at (net_of B.meaning graph.now) block.0) 0 first }
    ensures { let n = node_at (net_of B.meaning graph.now) block.0 in
        IsTrue result ↔ (map held_of held.now ≡ held_over timeline.now (taken_by n 0 first) (taken_by n 0 next)) }
{
    graph.recall();
    match timeline {
        Some(timeline) => timeline.is_between(
            graph.taken(block, 0, first),
            graph.taken(block, 0, next),
            held,
        ),
        None => held.is_empty(),
    }
}

// Whether the window on an input is what its reader sees with the items of these firings.
fn is_seen<B: Block>(
    buffers: &[Vec<Buffer>],
    graph: &Valid<B>,
    block: BlockId,
    input: &Input,
    port: usize,
    first: u64,
    next: u64,
    window: &Items,
) -> bool
    requires block { block.0 < length graph.now.blocks }
    requires ordered { first ≤ next }
    requires input { CanSee (map (λ row. row.items) buffers.now) (node_at (net_of B.meaning graph.now) block.0) first
        next port input.now }
    requires same_type { type_of window.now ≡ (node_at (net_of B.meaning graph.now) block.0).meaning.inputs.item }
    ensures { (stream : List ℤ) → IsEndOf (ring_behind (map (λ row. row.items) buffers.now) input.now) stream →
        IsTrue result ↔ (numbers_of window.now ≡ seen_of (map (λ row. row.items) buffers.now)
        (node_at (net_of B.meaning graph.now) block.0) first next port input.now stream) }
{
    let count = graph.takes(block, port, first, next);
    let writer = input.connection;
    buffers[writer.from.0 as usize][writer.out_port].is_window(
        Reader::numbered(input.reader),
        count as usize,
        window,
    )
}

/// Whether the windows are what the readers at a block's inputs see with the items of firings `first` to below `next`.
pub(crate) fn are_seen<B: Block>(
    buffers: &[Vec<Buffer>],
    graph: &Valid<B>,
    block: BlockId,
    inputs: &[Input],
    first: u64,
    next: u64,
    windows: &[Items],
) -> bool
    requires block { block.0 < length graph.now.blocks }
    requires ordered { first ≤ next }
    requires inputs { CanSeeAll (map (λ row. row.items) buffers.now) (node_at (net_of B.meaning graph.now) block.0)
        first next inputs.now }
    requires types { All (λ w. type_of w ≡ (node_at (net_of B.meaning graph.now) block.0).meaning.inputs.item)
        windows.now }
    ensures { (streams : ℕ → List ℤ) → AreEnds (map (λ row. row.items) buffers.now) inputs.now streams →
        IsTrue result ↔ AreSeen (map (λ row. row.items) buffers.now) (node_at (net_of B.meaning graph.now) block.0)
        first next inputs.now streams (map numbers_of windows.now) }
{
    if windows.len() != inputs.len() {
        return false;
    }
    for (port, input) in inputs.iter().enumerate() {
        let window = &windows[port];
        if !is_seen(buffers, graph, block, input, port, first, next, window) {
            return false;
        }
    }
    true
}
