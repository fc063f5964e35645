//! Counts of the connections at each block, each made in one pass.
ghost use Rattle.std.specs.Prelude.{◌≡◌, ◌<◌, ◌==◌, ℕ, length, map, filter, slice_index, IfOk};
ghost use Rattle.stream_model.specs.Lists.{below};
ghost use Rattle.stream_model.specs.Network.{used_outputs};
ghost use Rattle.flowgraph.specs.Ports.{AreWithin, net_from};

use crate::parts::Connection;
use std::alloc::{AllocError, Global};

/// How many connections enter each block.
pub fn entering(
    alloc: Global,
    blocks: usize,
    connections: &[Connection],
) -> Result<Vec<usize>, AllocError>
    requires { AreWithin blocks connections.now }
    ensures len { IfOk result (λ counts. length counts.items ≡ blocks) }
    ensures each { IfOk result (λ counts. (b : ℕ) → b < blocks → slice_index counts.items b
        ≡ length (filter (λ c. c.to.0 == b) connections.now)) }
{
    let mut counts: Vec<usize> = vec![in alloc; 0; blocks]?;
    for connection in connections {
        counts[connection.to.0 as usize] += 1;
    }
    Ok(counts)
}

/// How many outputs of each block are used: one more than the greatest.
pub fn outputs(
    alloc: Global,
    blocks: usize,
    connections: &[Connection],
) -> Result<Vec<usize>, AllocError>
    requires { AreWithin blocks connections.now }
    ensures { IfOk result (λ counts. counts.items ≡ map (used_outputs (net_from connections.now)) (below blocks)) }
{
    let mut counts: Vec<usize> = vec![in alloc; 0; blocks]?;
    for connection in connections {
        let from = connection.from.0 as usize;
        counts[from] = counts[from].max(connection.out_port + 1);
    }
    Ok(counts)
}
