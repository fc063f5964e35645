//! What the firings of blocks take and give, and how often blocks fire.

ghost use Rattle.std.specs.Prelude.{◌≡◌, ◌<◌, length, map, IfOk};
ghost use Rattle.stream_model.specs.Firings.{gives, takes};
ghost use Rattle.stream_model.specs.Lists.{below};
ghost use Rattle.stream_model.specs.Network.{node_at, writers_of};
ghost use Rattle.flowgraph.specs.Flowgraph.{net_of};
ghost use Rattle.kinds.specs.Kind.{meaning_of};
ghost use Rattle.rates.specs.Tables.{HasRates};
ghost use Rattle.magbelu_c.specs.BlockRates.{TellsFirings, TellsRates, rates_told, takes_of, unrated};

use crate::reply::{Reply, done, no_memory, refusal};
use crate::shows::show;
use block_trait::Block;
use flowgraph::{BlockId, Valid};
use kinds::Kind;
use plant::PlantFault;
use rates::{Rates, balance};
use std::alloc::{AllocError, Global};
use stream_model::Shift;

/// What a firing of a block takes and gives.
#[repr(C)]
#[derive(Clone, Copy, Debug, PartialEq, Eq)]
pub struct BlockRates {
    /// 0; 1 for a refusal; 4 if memory ran out.
    pub status: u32,
    /// The number of the refusal, or 0.
    pub number: u32,
    /// 0 if all firings are alike; 1 if the first ones give nothing, 2 if the first ones take nothing.
    pub shift: u32,
    /// How many first firings differ like that.
    pub shifted: u64,
    /// How many items a firing gives on each output.
    pub gives: u64,
    /// How many inputs are connected.
    pub input_count: usize,
}

/// Tells what a firing of the block of a number gives, and what it takes of each connected input, in a table if they
/// fit. `NoSuchBlock` if there is no block of this number.
pub(crate) fn show_rates(
    alloc: Global,
    graph: &Valid<Kind>,
    number: u32,
    table: &mut [u64],
) -> BlockRates
    ensures { TellsRates graph.now number table.old table.new result }
{
    if graph.len() <= number as usize {
        return unrated(refusal(PlantFault::NoSuchBlock));
    }
    graph.recall();
    let block = BlockId(number);
    let Ok(rows) = takes_of(alloc, graph, block) else {
        return unrated(no_memory());
    };
    show(&rows, table);
    rates_told(
        graph.block(block).shift(),
        gives(graph, block),
        graph.inputs(block).len(),
    )
}

// What a firing of a block takes of each connected input.
fn takes_of(alloc: Global, graph: &Valid<Kind>, block: BlockId) -> Result<Vec<u64>, AllocError>
    requires there { block.0 < length graph.now.blocks }
    requires rates { HasRates (net_of meaning_of graph.now) }
    ensures { IfOk result (λ rows. rows.items ≡ takes_of graph.now block.0) }
{
    let inputs = graph.inputs(block).len();
    let mut rows = Vec::with_capacity(alloc, inputs)?;
    for port in 0..inputs {
        rows.push(takes(graph, block, port))?;
    }
    Ok(rows)
}

fn takes(graph: &Valid<Kind>, block: BlockId, port: usize) -> u64
    requires there { block.0 < length graph.now.blocks }
    requires rates { HasRates (net_of meaning_of graph.now) }
    ensures { result ≡ takes (node_at (net_of meaning_of graph.now) block.0) port }
{
    let multiple = u64::from(graph.options(block).multiple);
    match graph.block(block).rate(port) {
        Some((taken, _)) => multiple * taken,
        None => multiple,
    }
}

fn gives(graph: &Valid<Kind>, block: BlockId) -> u64
    requires there { block.0 < length graph.now.blocks }
    requires rates { HasRates (net_of meaning_of graph.now) }
    ensures { result ≡ gives (node_at (net_of meaning_of graph.now) block.0) }
{
    let multiple = u64::from(graph.options(block).multiple);
    match graph.block(block).rate(0) {
        Some((_, given)) => multiple * given,
        None => multiple,
    }
}

fn rates_told(shift: Shift, gives: u64, input_count: usize) -> BlockRates
    ensures { result ≡ rates_told shift gives input_count }
{
    let (shift, shifted) = match shift {
        Shift::No => (0, 0),
        Shift::Skip(count) => (1, count),
        Shift::Delay(count) => (2, count),
    };
    BlockRates {
        status: 0,
        number: 0,
        shift,
        shifted,
        gives,
        input_count,
    }
}

/// Tells nothing of a block, only this reply.
pub(crate) fn unrated(reply: Reply) -> BlockRates
    ensures { result ≡ unrated reply }
{
    BlockRates {
        status: reply.status,
        number: reply.number,
        shift: 0,
        shifted: 0,
        gives: 0,
        input_count: 0,
    }
}

/// Tells how often each block fires in an iteration, in a table if it fits, and how many blocks there are; or why that
/// is not known.
pub(crate) fn show_firings(alloc: Global, graph: &Valid<Kind>, firings: &mut [u32]) -> Reply
    ensures { TellsFirings graph.now firings.old firings.new result }
{
    match balance(alloc, graph) {
        Ok(Rates::Balanced(balanced)) => {
            show(balanced.firings(), firings);
            done(0, balanced.firings().len() as u64)
        }
        Ok(Rates::Uneven) => done(1, 0),
        Ok(Rates::TooLarge) => done(2, 0),
        Err(_) => no_memory(),
    }
}
