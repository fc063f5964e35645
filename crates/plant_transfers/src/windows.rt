//! The windows of firings.
ghost use Rattle.std.specs.Prelude.{◌≡◌, ◌+◌, ◌-◌, ◌<◌, ◌≤◌, ℕ, [], length, map, slice_range, slice_index_or, All, IsOk, OnOk};
ghost use Rattle.stream_model.specs.Network.{node_at, writers_of};
ghost use Rattle.items.specs.declared.stream_items.Items.{Items};
ghost use Rattle.items.specs.Items.{type_of, numbers_of};
ghost use Rattle.flowgraph.specs.Flowgraph.{net_of};
ghost use Rattle.plant_storage.specs.Stores.{stored_in};
ghost use Rattle.plant_storage.specs.Lending.{CanLend, AreWindows, takes_between};
ghost use Rattle.plant_transfers.specs.Places.{ArePlaces, HoldWindows, KeepsRoom, KeepRoom, room_of, windows_of};
ghost use Rattle.plant_transfers.specs.Rows.{rows_of};
ghost use Rattle.plant_transfers.specs.Steps.{stored_with, CanRead};
ghost use Rattle.plant_transfers.specs.Windows.{IsWindow};

use crate::firing_range::FiringRange;
use crate::inputs::{input_of, taken};
use crate::places::{make_ready, resize};
use block_trait::Block;
use buffers::Buffer;
use flowgraph::{BlockId, Valid};
use items::Items;
use plant_storage::{Recording, Stores};
use std::alloc::{AllocError, Global};

/// Makes them the windows of these firings.
pub(crate) fn lend_windows<B: Block>(
    alloc: Global,
    stores: &Stores,
    graph: &Valid<B>,
    block: BlockId,
    first: u64,
    count: u32,
    windows: &mut Vec<Items>,
) -> Result<(), AllocError>
    requires { CanLend (net_of B.meaning graph.now) (stored_in stores.now) block.0 first count }
    ensures windows { OnOk result (AreWindows (net_of B.meaning graph.now) (stored_in stores.now) block.0 first count
        (map numbers_of windows.new.items)) }
    ensures types { OnOk result (All (λ w. type_of w ≡ (node_at (net_of B.meaning graph.now)
        block.0).meaning.inputs.item) windows.new.items) }
    ensures succeeds { HoldWindows (net_of B.meaning graph.now) block.0 first (first + count) windows.old.items
        → IsOk result }
    ensures keeps { let net = net_of B.meaning graph.now in
        ArePlaces (node_at net block.0).meaning.inputs.item (windows_of net block.0) windows.old.items
        → KeepRoom windows.old.items windows.new.items }
{
    graph.recall();
    let firings = FiringRange::new(block, first, count);
    let item = graph.input_type(block);
    if graph.is_source(block) {
        resize(alloc, windows, 1, item)?;
        let tape = stores.handed[block.0 as usize].tape.recording();
        return cut_tape(alloc, tape, first as usize, count as usize, &mut windows[0]);
    }
    resize(alloc, windows, graph.inputs(block).len(), item)?;
    read_inputs(alloc, &stores.buffers, graph, firings, windows)
}

// Makes the window the items of a tape from the first on.
fn cut_tape(
    alloc: Global,
    tape: &Recording,
    first: usize,
    count: usize,
    window: &mut Items,
) -> Result<(), AllocError>
    requires kept { tape.now.from ≤ first }
    requires within { first + count ≤ length tape.now.items }
    ensures item { OnOk result (type_of window.new ≡ tape.now.item) }
    ensures items { OnOk result (numbers_of window.new ≡ slice_range tape.now.items first (first + count)) }
    ensures succeeds { type_of window.old ≡ tape.now.item → count ≤ room_of window.old → IsOk result }
    ensures keeps { type_of window.old ≡ tape.now.item → KeepsRoom window.old window.new }
{
    let kept = tape.kept();
    make_ready(alloc, window, kept.items.item_type(), count)?;
    let start = first - kept.first as usize;
    window.push_range(kept.items, start, start + count);
    Ok(())
}

// Makes each window what the input of its number reads with the items that the firings take.
fn read_inputs<B: Block>(
    alloc: Global,
    buffers: &[Vec<Buffer>],
    graph: &Valid<B>,
    firings: FiringRange,
    windows: &mut [Items],
) -> Result<(), AllocError>
    requires reads { CanRead (net_of B.meaning graph.now) (stored_with [] (rows_of (λ row. row.items) buffers.now))
        firings.block.0 firings.first firings.next }
    requires many { length windows.old ≡ length (writers_of (net_of B.meaning graph.now) firings.block.0) }
    ensures read { OnOk result ((p : ℕ) (d : Items) → p < length windows.new
        → IsWindow (net_of B.meaning graph.now) (stored_with [] (rows_of (λ row. row.items) buffers.now))
        firings.block.0 p firings.first firings.next (slice_index_or windows.new p d)) }
    ensures succeeds { let net = net_of B.meaning graph.now in let n = node_at net firings.block.0 in
        All (λ w. type_of w ≡ n.meaning.inputs.item) windows.old
        → ((p : ℕ) (d : Items) → p < length windows.old → n.meaning.history - 1 + takes_between net firings.block.0 p
        firings.first firings.next ≤ room_of (slice_index_or windows.old p d))
        → IsOk result }
    ensures keeps { All (λ w. type_of w ≡ (node_at (net_of B.meaning graph.now) firings.block.0).meaning.inputs.item)
        windows.old → KeepRoom windows.old windows.new }
{
    for (port, window) in windows.iter_mut().enumerate() {
        read_input(alloc, buffers, graph, firings, port, window)?;
    }
    Ok(())
}

// Makes the window what an input reads with the items that the firings take.
fn read_input<B: Block>(
    alloc: Global,
    buffers: &[Vec<Buffer>],
    graph: &Valid<B>,
    firings: FiringRange,
    port: usize,
    window: &mut Items,
) -> Result<(), AllocError>
    requires reads { CanRead (net_of B.meaning graph.now) (stored_with [] (rows_of (λ row. row.items) buffers.now))
        firings.block.0 firings.first firings.next }
    requires port { port < length (writers_of (net_of B.meaning graph.now) firings.block.0) }
    ensures read { OnOk result (IsWindow (net_of B.meaning graph.now)
        (stored_with [] (rows_of (λ row. row.items) buffers.now)) firings.block.0 port firings.first firings.next
        window.new) }
    ensures succeeds { let net = net_of B.meaning graph.now in let n = node_at net firings.block.0 in
        type_of window.old ≡ n.meaning.inputs.item → n.meaning.history - 1 + takes_between net firings.block.0 port
        firings.first firings.next ≤ room_of window.old → IsOk result }
    ensures keeps { type_of window.old ≡ (node_at (net_of B.meaning graph.now) firings.block.0).meaning.inputs.item
        → KeepsRoom window.old window.new }
{
    let (buffer, reader) = input_of(buffers, graph, firings.block, port);
    let takes = taken(graph, firings, port);
    let past = buffer.history(reader) as usize - 1;
    make_ready(alloc, window, buffer.item_type(), past + takes)?;
    buffer.window(reader, takes, window);
    Ok(())
}
