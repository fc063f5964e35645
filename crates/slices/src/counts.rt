//! How often the blocks of a graph have fired after some iterations.
ghost use Rattle.std.specs.Prelude.{◌≡◌, ◌<◌, ◌≤◌, ℕ, length, slice_index, IfOk};
ghost use Rattle.stream_model.specs.Network.{node_at, given_by};
ghost use Rattle.stream_model.specs.Firings as model;
ghost use Rattle.flowgraph.specs.Flowgraph.{net_of, connection_of};
ghost use Rattle.slices.specs.Counts.{CanCut, AreBelow, IsNext, HasCounted, AreCounted, IsCarried};
ghost use Rattle.slices.specs.Order.{AreWithin};

use crate::rising::raise;
use block_trait::{Block, Pace};
use flowgraph::{BlockId, Connection, Valid};
use std::alloc::{AllocError, Global};

/// How many firings of its reader a connection allows if its writer has fired so often.
fn allowed<B: Block>(graph: &Valid<B>, connection: Connection, firings: u64) -> u64
    requires { IsCarried (net_of B.meaning graph.now) (connection_of connection) firings }
    ensures value { result ≡ model.allowed (node_at (net_of B.meaning graph.now) connection.to.0) connection.in_port
        (given_by (node_at (net_of B.meaning graph.now) connection.from.0) firings) }
{
    let items = graph.given(connection.from, firings);
    let multiple = u64::from(graph.multiple(connection.to));
    match graph.pace(connection.to, connection.in_port) {
        Pace::Rate(taken, _) | Pace::Turns(taken, _, _) | Pace::Placed(taken, _) => {
            items / (multiple * taken)
        }
        Pace::Skip(_) => items,
        Pace::Delay(count) => items + count,
    }
}

/// How often a block has fired after so many iterations, by what is known of its writers.
fn next<B: Block>(
    graph: &Valid<B>,
    firings: &[u32],
    iterations: u64,
    block: BlockId,
    counts: &[u64],
) -> u64
    requires there { block.0 < length graph.now.blocks }
    requires below { AreBelow (net_of B.meaning graph.now) firings.now iterations counts.now }
    ensures { IsNext (net_of B.meaning graph.now) firings.now iterations counts.now block.0 result }
{
    if graph.is_source(block) {
        return iterations * u64::from(firings[block.0 as usize]);
    }
    let mut fewest = u64::MAX;
    for input in graph.inputs(block) {
        let connection = input.connection;
        fewest = fewest.min(allowed(graph, connection, counts[connection.from.0 as usize]));
    }
    fewest
}

/// Raises the count of each block to what is known of its writers, and returns whether it raised one.
fn turn<B: Block>(graph: &Valid<B>, firings: &[u32], iterations: u64, counts: &mut [u64]) -> bool
    requires { AreBelow (net_of B.meaning graph.now) firings.now iterations counts.old }
    ensures { HasCounted (net_of B.meaning graph.now) firings.now iterations counts.old counts.new result }
{
    let mut risen = false;
    for block in 0..graph.len() {
        let count = next(graph, firings, iterations, BlockId(block as u32), counts);
        if raise(counts, block, count) {
            risen = true;
        }
    }
    risen
}

/// Raises the counts block by block, in this order.
fn pass<B: Block>(
    graph: &Valid<B>,
    order: &[BlockId],
    firings: &[u32],
    iterations: u64,
    counts: &mut [u64],
)
    requires order { AreWithin (length graph.now.blocks) order.now }
    requires below { AreBelow (net_of B.meaning graph.now) firings.now iterations counts.old }
    ensures { AreBelow (net_of B.meaning graph.now) firings.now iterations counts.new }
{
    for block in order {
        let count = next(graph, firings, iterations, *block, counts);
        raise(counts, block.0 as usize, count);
    }
}

/// Raises counts until they are those after so many iterations. It makes a pass in the order of the stream, and then
/// turns over all blocks until a turn raises none. If the order is right, the first turn raises none.
fn rise<B: Block>(
    graph: &Valid<B>,
    order: &[BlockId],
    firings: &[u32],
    iterations: u64,
    counts: &mut [u64],
)
    requires order { AreWithin (length graph.now.blocks) order.now }
    requires below { AreBelow (net_of B.meaning graph.now) firings.now iterations counts.old }
    ensures { AreCounted (net_of B.meaning graph.now) firings.now iterations counts.new }
{
    pass(graph, order, firings, iterations, counts);
    'turns: while turn(graph, firings, iterations, counts) {}
}

/// How often each block has fired after so many iterations, if every block fires as often as it can.
pub fn counts<B: Block>(
    alloc: Global,
    graph: &Valid<B>,
    order: &[BlockId],
    firings: &[u32],
    iterations: u64,
) -> Result<Vec<u64>, AllocError>
    requires order { AreWithin (length graph.now.blocks) order.now }
    requires can { CanCut (net_of B.meaning graph.now) firings.now }
    requires few { iterations ≤ 65536 }
    ensures { IfOk result (λ counts. AreCounted (net_of B.meaning graph.now) firings.now iterations counts.items) }
{
    let mut counts: Vec<u64> = vec![in alloc; 0; graph.len()]?;
    rise(graph, order, firings, iterations, &mut counts);
    Ok(counts)
}
