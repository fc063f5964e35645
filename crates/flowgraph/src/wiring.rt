//! How the blocks of a graph are wired.
ghost use Rattle.std.specs.Prelude.{◌≡◌, ◌<◌, ◌≤◌, ◌+◌, ◌*◌, ◌==◌, ℕ, [], min, length, map, filter, flat_map, slice_index, slice_index_or, All, IfOk};
ghost use Rattle.stream_model.specs.Lists.{below};
ghost use Rattle.stream_model.specs.Network.{writers_of};
ghost use Rattle.flowgraph.specs.Ports.{AreWithin, net_from};
ghost use Rattle.flowgraph.specs.StepOrder.{IsOrderOf};
ghost use Rattle.flowgraph.specs.Tables.{AreByPort, AreTables};
ghost use Rattle.flowgraph.specs.Wiring.{writers_in, IsItsReader};

use crate::by_port::by_port;
use crate::counts::{entering, outputs};
use crate::fault::Side;
use crate::parts::{BlockId, Connection, Input};
use crate::ports::MOST_PORTS;
use crate::rows::Rows;
use crate::step_order::step_order;
use std::alloc::{AllocError, Global};

/// Tables of how blocks are wired.
#[derive(Drop)]
pub struct Wiring {
    // For each block its inputs.
    pub inputs: Rows<Input>,
    // For each block the number of its used outputs.
    pub outputs: Vec<usize>,
    // For each block 16 rows, one for each port that an output may have: its readers.
    pub readers: Rows<Connection>,
    // The blocks in an order for steps.
    pub order: Vec<BlockId>,
}

/// The tables of so many blocks.
pub fn tables(
    alloc: Global,
    blocks: usize,
    connections: &[Connection],
) -> Result<Wiring, AllocError>
    requires few { blocks ≤ 256 }
    requires within { AreWithin blocks connections.now }
    ensures tables { IfOk result (λ w. AreTables blocks connections.now w.inputs w.outputs.items w.readers) }
    ensures order { IfOk result (λ w. IsOrderOf blocks w.order.items) }
{
    let ports = by_port(alloc, blocks, connections)?;
    let entering = entering(alloc, blocks, connections)?;
    let inputs = all_inputs(alloc, connections, &ports.inputs, &entering)?;
    let outputs = outputs(alloc, blocks, connections)?;
    let readers = joined(alloc, &ports.readers)?;
    let order = step_order(alloc, blocks, connections)?;
    Ok(Wiring {
        inputs,
        outputs,
        readers,
        order,
    })
}

// The inputs of each block, from those of each port.
fn all_inputs(
    alloc: Global,
    connections: &[Connection],
    ports: &[Vec<Input>],
    entering: &[usize],
) -> Result<Rows<Input>, AllocError>
    requires few { length entering.now ≤ 256 }
    requires within { AreWithin (length entering.now) connections.now }
    requires ports { AreByPort (length entering.now) Side.In connections.now
        (map (map (λ i. i.connection)) (map (λ row. row.items) ports.now)) }
    requires known { All (All (IsItsReader (net_from connections.now))) (map (λ row. row.items) ports.now) }
    requires entering { (b : ℕ) → b < length entering.now → slice_index entering.now b
        ≡ length (filter (λ c. c.to.0 == b) connections.now) }
    ensures writers { IfOk result (λ rows. map writers_in rows ≡ map (writers_of (net_from connections.now))
        (below (length entering.now))) }
    ensures readers { IfOk result (λ rows. All (All (IsItsReader (net_from connections.now))) rows) }
{
    let mut rows = Rows::new(alloc);
    for block in 0..entering.len() {
        let row = inputs(alloc, ports, block, entering[block].min(MOST_PORTS))?;
        rows.push(&row)?;
    }
    Ok(rows)
}

// The inputs at the first ports of a block.
fn inputs(
    alloc: Global,
    ports: &[Vec<Input>],
    block: usize,
    count: usize,
) -> Result<Vec<Input>, AllocError>
    requires few { (block < 256) × (count ≤ 16) }
    requires within { 16 * block + 16 ≤ length ports.now }
    ensures { IfOk result (λ row. row.items ≡ flat_map (λ p. slice_index_or (map (λ row. row.items) ports.now)
        (16 * block + p) []) (below count)) }
{
    let mut row = Vec::new(alloc);
    for port in 0..count {
        row.extend_from_slice(&ports[MOST_PORTS * block + port])?;
    }
    Ok(row)
}

// The lists as rows.
fn joined(alloc: Global, lists: &[Vec<Connection>]) -> Result<Rows<Connection>, AllocError>
    ensures { IfOk result (λ rows. rows ≡ map (λ list. list.items) lists.now) }
{
    let mut rows = Rows::new(alloc);
    for list in lists {
        rows.push(list)?;
    }
    Ok(rows)
}
