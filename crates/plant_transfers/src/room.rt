//! Room for what a commit stores.
ghost use Rattle.std.specs.Prelude.{◌≡◌, ◌+◌, ◌^◌, ◌<◌, ◌≤◌, ℕ, [], length, map, slice_index_or, All, IfOk, IsOk, OnOk, sum_by};
ghost use Rattle.flowgraph.specs.Flowgraph.{net_of};
ghost use Rattle.plant_storage.specs.Stores.{stored_in, buffer_of, collected_of};
ghost use Rattle.plant_storage.specs.Lending.{CanLend, HasRoom, KeepsAllRoom, no_buffer, no_sink};
ghost use Rattle.plant_transfers.specs.Rows.{rows_of, HasNoLessRoom};
ghost use Rattle.plant_transfers.specs.Spare.{HasSpare, HasSpareFor};
ghost use Rattle.plant_transfers.specs.Tags.{tags_on_items};

use crate::firing_range::FiringRange;
use crate::inputs::tags_on;
use block_trait::Block;
use buffers::Buffer;
use flowgraph::{BlockId, Valid};
use plant_storage::{Recording, Stores};
use std::alloc::AllocError;

/// Makes room for all that the commit of these firings stores. What is stored stays the same. It fails only where the
/// allocator refuses.
pub fn make_room<B: Block>(
    stores: &mut Stores,
    graph: &Valid<B>,
    block: BlockId,
    first: u64,
    count: u32,
) -> Result<(), AllocError>
    requires { CanLend (net_of B.meaning graph.now) (stored_in stores.old) block.0 first count }
    ensures stored { stored_in stores.new ≡ stored_in stores.old }
    ensures handed { stores.new.handed ≡ stores.old.handed }
    ensures words { stores.new.words ≡ stores.old.words }
    ensures room { OnOk result (HasRoom (net_of B.meaning graph.now) stores.new block.0 first count) }
    ensures keeps { KeepsAllRoom stores.old stores.new }
    ensures succeeds { HasSpareFor (net_of B.meaning graph.now) stores.old block.0 first count → IsOk result }
{
    graph.recall();
    let tags = count_tags(stores, graph, block, first, count)?;
    let at = block.0 as usize;
    reserve_outputs(&mut stores.buffers, at, tags)?;
    // Else the room would be that behind the tags of the last commit.
    stores.brought.clear();
    stores.brought.reserve(tags)?;
    if graph.is_keeper(block) {
        reserve_sink(&mut stores.sinks, at, count as usize, tags)?;
    }
    Ok(())
}

// How many tags lie on the items that the firings take. No output is brought more.
fn count_tags<B: Block>(
    stores: &Stores,
    graph: &Valid<B>,
    block: BlockId,
    first: u64,
    count: u32,
) -> Result<usize, AllocError>
    requires { CanLend (net_of B.meaning graph.now) (stored_in stores.now) block.0 first count }
    ensures sum { IfOk result (λ n. n ≡ sum_by length (tags_on_items (net_of B.meaning graph.now) (stored_in stores.now)
        block.0 first (first + count))) }
    ensures succeeds { sum_by length (tags_on_items (net_of B.meaning graph.now) (stored_in stores.now) block.0 first
        (first + count)) < 2 ^ 64 → IsOk result }
{
    graph.recall();
    let firings = FiringRange::new(block, first, count);
    if graph.is_source(block) {
        let tape = stores.handed[block.0 as usize].tape.recording();
        return Ok(tape.tags(firings.first, firings.next).len());
    }
    let mut tags: usize = 0;
    for port in 0..graph.inputs(block).len() {
        let more = tags_on(&stores.buffers, graph, firings, port).len();
        // No memory holds more tags than a word counts.
        tags = tags.checked_add(more).ok_or(AllocError)?;
    }
    Ok(tags)
}

// Makes room for so many more tags in each buffer of a row.
fn reserve_outputs(rows: &mut [Vec<Buffer>], at: usize, tags: usize) -> Result<(), AllocError>
    requires { at < length rows.old }
    ensures stored { map (map buffer_of) (map (λ row. row.items) rows.new)
        ≡ map (map buffer_of) (map (λ row. row.items) rows.old) }
    ensures room { OnOk result (All (λ b. tags ≤ b.spare) (slice_index_or (map (λ row. row.items) rows.new) at [])) }
    ensures keeps { HasNoLessRoom (rows_of (λ row. row.items) rows.old) (rows_of (λ row. row.items) rows.new) }
    ensures succeeds { All (λ b. tags ≤ b.spare) (slice_index_or (map (λ row. row.items) rows.old) at [])
        → IsOk result }
{
    reserve_tags(&mut rows[at], tags)
}

// Makes room for so many more tags in each buffer.
fn reserve_tags(buffers: &mut [Buffer], tags: usize) -> Result<(), AllocError>
    ensures stored { map buffer_of buffers.new ≡ map buffer_of buffers.old }
    ensures room { OnOk result (All (λ b. tags ≤ b.spare) buffers.new) }
    ensures keeps { (p : ℕ) → (slice_index_or buffers.old p no_buffer).spare ≤ (slice_index_or buffers.new p
        no_buffer).spare }
    ensures succeeds { All (λ b. tags ≤ b.spare) buffers.old → IsOk result }
{
    for buffer in buffers.iter_mut() {
        buffer.reserve(tags)?;
    }
    Ok(())
}

// Makes room for so many more items and tags of a sink.
fn reserve_sink(
    sinks: &mut [Recording],
    at: usize,
    items: usize,
    tags: usize,
) -> Result<(), AllocError>
    requires { at < length sinks.old }
    ensures stored { map collected_of sinks.new ≡ map collected_of sinks.old }
    ensures room { OnOk result (HasSpare items tags (slice_index_or sinks.new at no_sink)) }
    ensures keeps { (a : ℕ) → let old = slice_index_or sinks.old a no_sink in HasSpare old.spare_items old.spare_tags
        (slice_index_or sinks.new a no_sink) }
    ensures succeeds { HasSpare items tags (slice_index_or sinks.old at no_sink) → IsOk result }
{
    sinks[at].reserve(items, tags)
}
