//! The ports that the connections of a graph use.
ghost use Rattle.std.specs.Prelude.{◌≡◌, ◌<◌, ◌≤◌, ◌+◌, ◌-◌, ◌*◌, ℕ, true, false, not, length, map, slice_index_or, replicate, IfOk};
ghost use Rattle.std.specs.List.{find};
ghost use Rattle.stream_model.specs.Lists.{below};
ghost use Rattle.graph_model.specs.Graphs.{is_used};
ghost use Rattle.flowgraph.specs.Ports.{AreWithin, block_at, port_at, ports_at, net_from, model_side};

use crate::fault::Side;
use crate::parts::Connection;
use std::alloc::{AllocError, Global};

/// The most ports that a side of a block may have.
pub const MOST_PORTS: usize = 16;

/// The ports of a side of a block.
#[derive(Clone, Copy)]
pub struct Ports {
    /// How many are used: one more than the greatest.
    pub used: usize,
    /// The lowest that is left out below the greatest.
    pub gap: Option<usize>,
}

/// The ports that are used on a side of each block.
pub fn used_ports(
    alloc: Global,
    blocks: usize,
    connections: &[Connection],
    side: Side,
) -> Result<Vec<Ports>, AllocError>
    requires few { blocks ≤ 256 }
    requires within { AreWithin blocks connections.now }
    ensures { IfOk result (λ all. all.items ≡ map (ports_at connections.now side) (below blocks)) }
{
    let marks = marked(alloc, blocks, connections, side)?;
    let mut all = Vec::with_capacity(alloc, blocks)?;
    for block in 0..blocks {
        let used = count_of(&marks, block);
        let gap = gap_below(&marks, block, used);
        all.push(Ports { used, gap })?;
    }
    Ok(all)
}

// A mark for each port that a side of a block may have: whether a connection uses it.
fn marked(
    alloc: Global,
    blocks: usize,
    connections: &[Connection],
    side: Side,
) -> Result<Vec<bool>, AllocError>
    requires few { blocks ≤ 256 }
    requires within { AreWithin blocks connections.now }
    ensures len { IfOk result (λ marks. length marks.items ≡ 16 * blocks) }
    ensures marks { IfOk result (λ marks. (b p : ℕ) → b < blocks → p < 16 →
        slice_index_or marks.items (16 * b + p) false ≡ is_used (net_from connections.now) b (model_side side) p) }
{
    let mut marks = cleared(alloc, MOST_PORTS * blocks)?;
    for connection in connections {
        let (block, port) = end_of(connection, side);
        marks[MOST_PORTS * block + port] = true;
    }
    Ok(marks)
}

/// So many marks that are not set.
pub(crate) fn cleared(alloc: Global, count: usize) -> Result<Vec<bool>, AllocError>
    ensures { IfOk result (λ marks. marks.items ≡ replicate count false) }
{
    vec![in alloc; false; count]
}

// An end of a connection: its block and port.
pub(crate) fn end_of(connection: &Connection, side: Side) -> (usize, usize)
    ensures block { result.0 ≡ block_at side connection.now }
    ensures port { result.1 ≡ port_at side connection.now }
{
    match side {
        Side::In => (connection.to.0 as usize, connection.in_port),
        Side::Out => (connection.from.0 as usize, connection.out_port),
    }
}

// One more than the greatest marked port of a block.
fn count_of(marks: &[bool], block: usize) -> usize
    requires few { block < 256 }
    requires within { 16 * block + 16 ≤ length marks.now }
    ensures few { result ≤ 16 }
    ensures last { 0 < result → slice_index_or marks.now (16 * block + (result - 1)) false ≡ true }
    ensures above { (p : ℕ) → result ≤ p → p < 16 → slice_index_or marks.now (16 * block + p) false ≡ false }
{
    let mut count = 0;
    for port in 0..MOST_PORTS {
        if marks[MOST_PORTS * block + port] {
            count = port + 1;
        }
    }
    count
}

// The lowest unmarked port of a block below a number.
fn gap_below(marks: &[bool], block: usize, ports: usize) -> Option<usize>
    requires few { block < 256 }
    requires ports { ports ≤ 16 }
    requires within { 16 * block + 16 ≤ length marks.now }
    ensures { result ≡ find (λ p. not (slice_index_or marks.now (16 * block + p) false)) (below ports) }
{
    for port in 0..ports {
        if !marks[MOST_PORTS * block + port] {
            return Some(port);
        }
    }
    None
}
