//! The test for loops.
ghost use Rattle.std.specs.Prelude.{◌≡◌, ◌<◌, ◌≤◌, ◌||◌, ◌==◌, ℕ, true, false, length, slice_index, slice_index_or, All, IfOk};
ghost use Rattle.std.specs.List.{find};
ghost use Rattle.std.specs.Option.{option_map};
ghost use Rattle.stream_model.specs.Lists.{below};
ghost use Rattle.graph_model.specs.Graphs.{reaches_by, Reaches};
ghost use Rattle.graph_model.specs.Graphs as model;
ghost use Rattle.flowgraph.specs.Fault.{told};
ghost use Rattle.flowgraph.specs.Ports.{AreWithin, net_from};

use crate::fault::{GraphFault, Limit};
use crate::parts::{BlockId, Connection};
use crate::ports::cleared;
use crate::ranks::ranks;
use std::alloc::{AllocError, Global};

/// The lowest block that reaches itself. Ranks rule out most blocks at once.
pub fn loop_fault(
    alloc: Global,
    blocks: usize,
    connections: &[Connection],
) -> Result<Option<GraphFault>, AllocError>
    requires few { blocks ≤ 256 }
    requires within { AreWithin blocks connections.now }
    ensures { IfOk result (λ fault. fault
        ≡ told Limit.Blocks (option_map model.Loop (find (λ b. reaches_by blocks (net_from connections.now) b b)
        (below blocks)))) }
{
    let ranks = ranks(alloc, blocks, connections)?;
    let suspects = suspects(alloc, connections, &ranks)?;
    for block in 0..blocks {
        let looped = suspects[block] && reaches_itself(alloc, blocks, connections, block)?;
        if looped {
            return Ok(Some(GraphFault::Loop {
                block: BlockId(block as u32),
            }));
        }
    }
    Ok(None)
}

// Marks the blocks that may reach themselves. If ranks fall along no connection, these are the blocks with a connection
// to one of the same rank.
fn suspects(
    alloc: Global,
    connections: &[Connection],
    ranks: &[usize],
) -> Result<Vec<bool>, AllocError>
    requires { AreWithin (length ranks.now) connections.now }
    ensures len { IfOk result (λ marks. length marks.items ≡ length ranks.now) }
    ensures others { IfOk result (λ marks. (n b : ℕ) → b < length ranks.now → slice_index_or marks.items b false ≡ false
        → reaches_by n (net_from connections.now) b b ≡ false) }
{
    let fall = fall(connections, ranks);
    let mut marks: Vec<bool> = vec![in alloc; fall; ranks.len()]?;
    for connection in connections {
        let from = connection.from.0 as usize;
        if ranks[connection.to.0 as usize] <= ranks[from] {
            marks[from] = true;
        }
    }
    Ok(marks)
}

// Whether ranks fall along a connection.
fn fall(connections: &[Connection], ranks: &[usize]) -> bool
    requires { AreWithin (length ranks.now) connections.now }
    ensures { result ≡ false → All (λ c. slice_index ranks.now c.from.0 ≤ slice_index ranks.now c.to.0)
        connections.now }
{
    for connection in connections {
        if ranks[connection.to.0 as usize] < ranks[connection.from.0 as usize] {
            return true;
        }
    }
    false
}

// Whether a block reaches itself.
fn reaches_itself(
    alloc: Global,
    blocks: usize,
    connections: &[Connection],
    start: usize,
) -> Result<bool, AllocError>
    requires start { start < blocks }
    requires within { AreWithin blocks connections.now }
    ensures { IfOk result (λ reaches. reaches ≡ reaches_by blocks (net_from connections.now) start start) }
{
    let mut reached = cleared(alloc, blocks)?;
    'turns: for _ in 0..blocks {
        spread(connections, start, &mut reached);
        if reached[start] {
            return Ok(true);
        }
    }
    Ok(false)
}

// Marks the blocks that a connection reaches from the start or from a marked block, in one turn over the connections.
fn spread(connections: &[Connection], start: usize, reached: &mut [bool])
    requires { AreWithin (length reached.old) connections.now }
    ensures spread { All (λ c. (c.from.0 == start || slice_index_or reached.old c.from.0 false) ≡ true
        → slice_index_or reached.new c.to.0 false ≡ true) connections.now }
    ensures kept { (b : ℕ) → slice_index_or reached.old b false ≡ true → slice_index_or reached.new b false ≡ true }
    ensures sound { ((b : ℕ) → slice_index_or reached.old b false ≡ true → Reaches (net_from connections.now) start b)
        → (b : ℕ) → slice_index_or reached.new b false ≡ true → Reaches (net_from connections.now) start b }
{
    for connection in connections {
        let from = connection.from.0 as usize;
        if from == start || reached[from] {
            reached[connection.to.0 as usize] = true;
        }
    }
}
