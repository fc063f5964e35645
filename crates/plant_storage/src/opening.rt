//! What is stored before anything happens.

ghost use Rattle.std.specs.Prelude.{◌≡◌, ◌<◌, ◌≤◌, length, map, IfOk};
ghost use Rattle.stream_model.specs.Lists.{below};
ghost use Rattle.stream_model.specs.Network.{node_at, used_outputs};
ghost use Rattle.stream_model.specs.Machine.{capacity_at};
ghost use Rattle.flowgraph.specs.Flowgraph.{net_of, connection_of};
ghost use Rattle.plant_laws.specs.Opening.{empty_sink, empty_buffer};
ghost use Rattle.plant_storage.specs.Stores.{buffer_of, collected_of};
ghost use Rattle.plant_storage.specs.Opening.{LeadInside, HaveCapacities, IsUnhanded, AreUnhanded, history_among};

use crate::intake::Intake;
use block_trait::Block;
use buffers::Buffer;
use flowgraph::{BlockId, Connection, Valid};
use recordings::Recording;
use ring_readers::RingFault;
use std::alloc::{AllocError, Global};

/// What each block is handed before anything is, where a tape may come to hold `longest` items, and is `alone` its
/// owner's or shared with copies.
pub(crate) fn all_handed<B: Block>(
    alloc: Global,
    graph: &Valid<B>,
    longest: u64,
    alone: bool,
) -> Result<Vec<Intake>, AllocError>
    ensures { IfOk result (λ handed. AreUnhanded longest alone (net_of B.meaning graph.now).nodes handed.items) }
{
    let mut handed = Vec::with_capacity(alloc, graph.len())?;
    for block in 0..graph.len() {
        handed.push_reserved(unhanded(alloc, graph, BlockId(block as u32), longest, alone)?);
    }
    Ok(handed)
}

// What a block is handed before anything is.
fn unhanded<B: Block>(
    alloc: Global,
    graph: &Valid<B>,
    block: BlockId,
    longest: u64,
    alone: bool,
) -> Result<Intake, AllocError>
    requires { block.0 < length graph.now.blocks }
    ensures { IfOk result (IsUnhanded longest alone (node_at (net_of B.meaning graph.now) block.0)) }
{
    let kind = graph.block(block);
    let own = kind.own(alloc)?;
    Intake::new(alloc, kind.outputs().item, own, longest, alone)
}

/// The state word of each block before its first firing.
pub(crate) fn words<B: Block>(alloc: Global, graph: &Valid<B>) -> Result<Vec<u64>, AllocError>
    ensures { IfOk result (λ words. words.items ≡ map (λ n. n.meaning.start) (net_of B.meaning graph.now).nodes) }
{
    let mut words = Vec::with_capacity(alloc, graph.len())?;
    for block in 0..graph.len() {
        words.push_reserved(graph.block(BlockId(block as u32)).start());
    }
    Ok(words)
}

/// For each block a place for what it collects.
pub(crate) fn sinks<B: Block>(alloc: Global, graph: &Valid<B>) -> Result<Vec<Recording>, AllocError>
    ensures { IfOk result (λ sinks. map collected_of sinks.items ≡ map empty_sink (net_of B.meaning graph.now).nodes) }
{
    let mut sinks = Vec::with_capacity(alloc, graph.len())?;
    for block in 0..graph.len() {
        let item = graph.block(BlockId(block as u32)).inputs().item;
        sinks.push_reserved(Recording::new(alloc, item));
    }
    Ok(sinks)
}

/// For each block the empty buffers of its used outputs.
pub(crate) fn buffers<B: Block>(
    alloc: Global,
    graph: &Valid<B>,
    capacities: &[Vec<u32>],
) -> Result<Vec<Vec<Buffer>>, AllocError>
    requires { HaveCapacities (net_of B.meaning graph.now) (map (λ row. row.items) capacities.now) }
    ensures { let net = net_of B.meaning graph.now in
        IfOk result (λ rows. map (λ row. map buffer_of row.items) rows.items
        ≡ map (λ b. map (empty_buffer net (map (λ row. row.items) capacities.now) b) (below (used_outputs net b)))
        (below (length net.nodes))) }
{
    let mut rows = Vec::with_capacity(alloc, graph.len())?;
    for block in 0..graph.len() {
        rows.push_reserved(row(alloc, graph, capacities, BlockId(block as u32))?);
    }
    Ok(rows)
}

// The empty buffers of the used outputs of a block.
fn row<B: Block>(
    alloc: Global,
    graph: &Valid<B>,
    capacities: &[Vec<u32>],
    block: BlockId,
) -> Result<Vec<Buffer>, AllocError>
    requires capacities { HaveCapacities (net_of B.meaning graph.now) (map (λ row. row.items) capacities.now) }
    requires block { block.0 < length graph.now.blocks }
    ensures { let net = net_of B.meaning graph.now in
        IfOk result (λ row. map buffer_of row.items ≡ map (empty_buffer net (map (λ row. row.items) capacities.now)
        block.0) (below (used_outputs net block.0))) }
{
    let mut row = Vec::with_capacity(alloc, graph.outputs(block))?;
    for port in 0..graph.outputs(block) {
        match buffer(alloc, graph, capacities, block, port) {
            Ok(buffer) => row.push_reserved(buffer),
            Err(RingFault::Memory) => return Err(AllocError),
        }
    }
    Ok(row)
}

// The empty buffer of a used output, with a place for each of its readers.
fn buffer<B: Block>(
    alloc: Global,
    graph: &Valid<B>,
    capacities: &[Vec<u32>],
    block: BlockId,
    port: usize,
) -> Result<Buffer, RingFault>
    requires capacities { HaveCapacities (net_of B.meaning graph.now) (map (λ row. row.items) capacities.now) }
    requires block { block.0 < length graph.now.blocks }
    requires port { port < used_outputs (net_of B.meaning graph.now) block.0 }
    ensures { IfOk result (λ buffer. buffer_of buffer ≡ empty_buffer (net_of B.meaning graph.now)
        (map (λ row. row.items) capacities.now) block.0 port) }
{
    graph.recall();
    let capacity = capacity_at(capacities, block.0 as usize, port);
    let readers = graph.readers(block, port);
    let greatest = greatest_history(graph, readers);
    let item = graph.block(block).outputs().item;
    let mut buffer = Buffer::new(alloc, item, capacity, greatest)?;
    for connection in readers {
        buffer.add_reader(graph.block(connection.to).history())?;
    }
    Ok(buffer)
}

// The greatest history of the blocks to which connections lead, 1 where there are none.
fn greatest_history<B: Block>(graph: &Valid<B>, connections: &[Connection]) -> u32
    requires { LeadInside (net_of B.meaning graph.now) (map connection_of connections.now) }
    ensures { result ≡ history_among (net_of B.meaning graph.now) (map connection_of connections.now) }
{
    let mut greatest: u32 = 1;
    for connection in connections {
        greatest = greatest.max(graph.block(connection.to).history());
    }
    greatest
}

// The capacity of an output that has one.
fn capacity_at(capacities: &[Vec<u32>], block: usize, port: usize) -> u32
    requires { 1 ≤ capacity_at (map (λ row. row.items) capacities.now) block port }
    ensures { result ≡ capacity_at (map (λ row. row.items) capacities.now) block port }
{
    capacities[block][port]
}
