//! The inputs of a block: which buffer each reads, as which of its readers, and what firings take there.
ghost use Rattle.std.specs.Prelude.{◌≡◌, ◌^◌, ◌<◌, ◌≤◌, [], length, map, slice_index_or};
ghost use Rattle.stream_model.specs.Tags.{tags_within};
ghost use Rattle.stream_model.specs.Network.{node_at, writers_of, taken_by};
ghost use Rattle.items.specs.Tags.{tag_of};
ghost use Rattle.ring_readers.specs.State.{IsLive};
ghost use Rattle.flowgraph.specs.Flowgraph.{net_of};
ghost use Rattle.plant_laws.specs.Changes.{tags_waiting};
ghost use Rattle.plant_laws.specs.Claims.{input_buffer, input_reader};
ghost use Rattle.plant_storage.specs.Stores.{buffer_of};
ghost use Rattle.plant_storage.specs.Lending.{FitsWords, takes_between};
ghost use Rattle.plant_transfers.specs.Rows.{rows_of};
ghost use Rattle.plant_transfers.specs.Steps.{stored_with, CanRead};

use crate::firing_range::FiringRange;
use block_trait::Block;
use buffers::{Buffer, Reader};
use flowgraph::{BlockId, Valid};
use tags::Tag;

/// The buffer that an input reads, and which of its readers the input is.
pub(crate) fn input_of<'a, B: Block>(
    buffers: &'a [Vec<Buffer>],
    graph: &Valid<B>,
    block: BlockId,
    port: usize,
) -> (&'a Buffer, Reader)
    requires block { block.0 < length graph.now.blocks }
    requires port { port < length (writers_of (net_of B.meaning graph.now) block.0) }
    requires live { let net = net_of B.meaning graph.now in
        IsLive (input_buffer net (stored_with [] (rows_of (λ row. row.items) buffers.now)) block.0 port).ring
        (input_reader net block.0 port) }
    ensures buffer { let net = net_of B.meaning graph.now in
        buffer_of result.0.now ≡ input_buffer net (stored_with [] (rows_of (λ row. row.items) buffers.now)) block.0
        port }
    ensures reader { result.1 ≡ input_reader (net_of B.meaning graph.now) block.0 port }
{
    graph.recall();
    let input = graph.inputs(block)[port];
    let output = input.connection;
    (
        &buffers[output.from.0 as usize][output.out_port],
        Reader::numbered(input.reader),
    )
}

/// How many items of an input the firings take.
pub(crate) fn taken<B: Block>(graph: &Valid<B>, firings: FiringRange, port: usize) -> usize
    requires block { firings.block.0 < length graph.now.blocks }
    requires rises { firings.first ≤ firings.next }
    requires words { FitsWords (net_of B.meaning graph.now) firings.block.0 firings.next }
    requires port { port < length (writers_of (net_of B.meaning graph.now) firings.block.0) }
    ensures value { result ≡ takes_between (net_of B.meaning graph.now) firings.block.0 port firings.first
        firings.next }
    ensures small { result < 2 ^ 62 }
{
    graph.takes(firings.block, port, firings.first, firings.next) as usize
}

/// The tags on the items that the firings take of an input. Each claim and each commit asks for them, most often in
/// vain.
#[inline(always)]
pub(crate) fn tags_on<'a, B: Block>(
    buffers: &'a [Vec<Buffer>],
    graph: &Valid<B>,
    firings: FiringRange,
    port: usize,
) -> &'a [Tag]
    requires reads { CanRead (net_of B.meaning graph.now) (stored_with [] (rows_of (λ row. row.items) buffers.now))
        firings.block.0 firings.first firings.next }
    requires port { port < length (writers_of (net_of B.meaning graph.now) firings.block.0) }
    ensures { let net = net_of B.meaning graph.now in
        let n = node_at net firings.block.0 in
        let waiting = tags_waiting net (stored_with [] (rows_of (λ row. row.items) buffers.now)) firings.block.0 in
        map tag_of result.now ≡ tags_within (taken_by n port firings.first) (taken_by n port firings.next)
        (slice_index_or waiting port []) }
{
    let (buffer, reader) = input_of(buffers, graph, firings.block, port);
    buffer.tags(reader, taken(graph, firings, port))
}
