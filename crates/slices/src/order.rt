//! The blocks of a graph in the order of the stream.
ghost use Rattle.std.specs.Prelude.{◌≡◌, ◌<◌, [], All, length, IfOk};
ghost use Rattle.stream_model.specs.Network.{used_outputs};
ghost use Rattle.flowgraph.specs.Flowgraph.{net_of};
ghost use Rattle.slices.specs.Order.{AreWithin};

use block_trait::Block;
use flowgraph::{BlockId, Valid};
use std::alloc::{AllocError, Global};

/// Counts the inputs of each block, and places the blocks that have none.
fn begin<B: Block>(
    graph: &Valid<B>,
    waits: &mut [usize],
    order: &mut Vec<BlockId>,
) -> Result<(), AllocError>
    requires waits { length waits.old ≡ length graph.now.blocks }
    requires order { order.old.items ≡ [] }
    ensures { IfOk result (λ _. AreWithin (length graph.now.blocks) order.new.items) }
{
    for block in 0..graph.len() {
        let id = BlockId(block as u32);
        waits[block] = graph.inputs(id).len();
        if waits[block] == 0 {
            order.push(id)?;
        }
    }
    Ok(())
}

/// Counts off an input of each reader of an output. A reader whose last input this was is placed.
fn count_off<B: Block>(
    graph: &Valid<B>,
    block: BlockId,
    port: usize,
    waits: &mut [usize],
    order: &mut Vec<BlockId>,
) -> Result<(), AllocError>
    requires there { block.0 < length graph.now.blocks }
    requires port { port < used_outputs (net_of B.meaning graph.now) block.0 }
    requires waits { length waits.old ≡ length graph.now.blocks }
    requires order { AreWithin (length graph.now.blocks) order.old.items }
    ensures { IfOk result (λ _. AreWithin (length graph.now.blocks) order.new.items) }
{
    graph.recall();
    for connection in graph.readers(block, port) {
        let to = connection.to.0 as usize;
        waits[to] = waits[to].saturating_sub(1);
        if waits[to] == 0 {
            order.push(connection.to)?;
        }
    }
    Ok(())
}

/// Counts off the readers at each output of a block.
fn follow<B: Block>(
    graph: &Valid<B>,
    block: BlockId,
    waits: &mut [usize],
    order: &mut Vec<BlockId>,
) -> Result<(), AllocError>
    requires there { block.0 < length graph.now.blocks }
    requires waits { length waits.old ≡ length graph.now.blocks }
    requires order { AreWithin (length graph.now.blocks) order.old.items }
    ensures { IfOk result (λ _. AreWithin (length graph.now.blocks) order.new.items) }
{
    for port in 0..graph.outputs(block) {
        count_off(graph, block, port, waits, order)?;
    }
    Ok(())
}

/// Places the blocks, each when the last of its writers has been followed.
fn place<B: Block>(
    graph: &Valid<B>,
    waits: &mut [usize],
    order: &mut Vec<BlockId>,
) -> Result<(), AllocError>
    requires waits { length waits.old ≡ length graph.now.blocks }
    requires order { order.old.items ≡ [] }
    ensures { IfOk result (λ _. AreWithin (length graph.now.blocks) order.new.items) }
{
    begin(graph, waits, order)?;
    for at in 0..graph.len() {
        if order.len() <= at {
            break;
        }
        follow(graph, order[at], waits, order)?;
    }
    Ok(())
}

/// The blocks, each after its writers. It takes a step for each connection. The contract does not state the order, so
/// who relies on it tests the blocks.
pub fn in_order<B: Block>(alloc: Global, graph: &Valid<B>) -> Result<Vec<BlockId>, AllocError>
    ensures { IfOk result (λ order. AreWithin (length graph.now.blocks) order.items) }
{
    let mut waits: Vec<usize> = vec![in alloc; 0; graph.len()]?;
    let mut order = Vec::new(alloc);
    place(graph, &mut waits, &mut order)?;
    Ok(order)
}
