//! How large the buffers of a graph are.

ghost use Rattle.std.specs.Prelude.{◌≡◌, ◌<◌, length, map, All, IfOk};
ghost use Rattle.stream_model.specs.Lists.{below};
ghost use Rattle.stream_model.specs.Network.{used_outputs};
ghost use Rattle.graph_model.specs.Rates.{balance_of, capacity_of, capacities_of};
ghost use Rattle.flowgraph.specs.Flowgraph.{net_of};
ghost use Rattle.rates.specs.Answer.{answer_of, needed_at, AreRates, AreAsked, CanHold, sizes_of};
ghost use Rattle.rates.specs.Tables.{HasRates};

use crate::answers::Rates;
use crate::tables::{Link, gives, links};
use block_trait::Block;
use flowgraph::{BlockId, MOST_PORTS, Valid};
use std::alloc::{AllocError, Global};

/// The capacities of buffers, by block and used output, in items.
#[derive(Debug)]
pub struct BufferCapacities {
    rows: Vec<Vec<u32>>,
}

// Written by hand: crates above need not prove the drop of each part again.
impl Drop for BufferCapacities {
    fn drop(self) {
        let BufferCapacities { rows } = self;
        drop(rows);
    }
}

impl BufferCapacities {
    ghost use Rattle.rates.specs.Answer.{sizes_of};

    /// The capacities of the used outputs of each block.
    pub fn rows(&self) -> &[Vec<u32>]
        ensures { map (λ row. row.items) result.now ≡ sizes_of self.now }
    {
        &self.rows
    }
}

/// What a connection needs; 0 without a balance.
fn needed(rates: &Rates, number: usize) -> u64
    ensures { result ≡ needed_at rates.now number }
{
    match rates {
        Rates::Balanced(r) => r.needed.get(number).copied().unwrap_or(0),
        Rates::Uneven | Rates::TooLarge => 0,
    }
}

/// What each output's buffer must hold, 16 numbers for each block: the most that a firing of a reader takes or that its
/// connection needs.
fn asked<B: Block>(
    alloc: Global,
    graph: &Valid<B>,
    links: &[Link],
    rates: &Rates,
) -> Result<Vec<u64>, AllocError>
    requires rates { CanHold (net_of B.meaning graph.now) rates.now links.now }
    requires ports { All (λ c. c.out_port < 16) graph.now.connections }
    ensures { IfOk result (λ asked. AreAsked (net_of B.meaning graph.now) (answer_of rates.now) asked.items) }
{
    let connections = graph.connections();
    let mut asked: Vec<u64> = vec![in alloc; 0; MOST_PORTS * graph.len()]?;
    for (number, connection) in connections.iter().enumerate() {
        let output = MOST_PORTS * connection.from.0 as usize + connection.out_port;
        let most = links[number].takes.max(needed(rates, number));
        asked[output] = asked[output].max(most);
    }
    Ok(asked)
}

/// The capacities of the used outputs of a block. Each is the greatest of the configured capacity, of what a firing of
/// the block gives, and of what is asked of the output.
fn row<B: Block>(
    alloc: Global,
    graph: &Valid<B>,
    asked: &[u64],
    block: BlockId,
) -> Result<Vec<u32>, AllocError>
    requires there { block.0 < length graph.now.blocks }
    requires rates { HasRates (net_of B.meaning graph.now) }
    requires asked { AreAsked (net_of B.meaning graph.now) (balance_of (net_of B.meaning graph.now)) asked.now }
    ensures { IfOk result (λ row. row.items ≡ map (capacity_of (net_of B.meaning graph.now)
        (balance_of (net_of B.meaning graph.now)) block.0) (below (used_outputs (net_of B.meaning graph.now)
        block.0))) }
{
    let own = u64::from(graph.options(block).capacity).max(gives(graph, block));
    let outputs = graph.outputs(block);
    let mut row = Vec::with_capacity(alloc, outputs)?;
    for port in 0..outputs {
        let capacity = own.max(asked[MOST_PORTS * block.0 as usize + port]);
        row.push(capacity as u32)?;
    }
    Ok(row)
}

/// The capacities of the buffers of a graph. The rates must be the graph's own. It fails only if the allocator refuses.
pub fn capacities<B: Block>(
    alloc: Global,
    graph: &Valid<B>,
    rates: &Rates,
) -> Result<BufferCapacities, AllocError>
    requires { AreRates (net_of B.meaning graph.now) rates.now }
    ensures { IfOk result (λ sizes. sizes_of sizes ≡ capacities_of (net_of B.meaning graph.now) (answer_of rates.now)) }
{
    graph.recall();
    let links = links(alloc, graph)?;
    let asked = asked(alloc, graph, &links, rates)?;
    let blocks = graph.len();
    let mut rows = Vec::with_capacity(alloc, blocks)?;
    for block in 0..blocks {
        rows.push(row(alloc, graph, &asked, BlockId(block as u32))?)?;
    }
    Ok(BufferCapacities { rows })
}
