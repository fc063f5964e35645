//! The tests of the ports that blocks use.
ghost use Rattle.std.specs.Prelude.{◌≡◌, ◌<◌, ◌≤◌, ◌&&◌, ◌||◌, ◌==◌, [], not, nat_lt, length, IfOk};
ghost use Rattle.graph_model.specs.Graphs.{is_one, first_fault};
ghost use Rattle.flowgraph.specs.Fault.{told};
ghost use Rattle.flowgraph.specs.Flowgraph.{net_of, node_of, graph_of};
ghost use Rattle.flowgraph.specs.Ports.{AreWithin};
ghost use Rattle.flowgraph.specs.Tests.{port_faults, gap_in};

use crate::fault::{GraphFault, Limit, Side};
use crate::parts::{BlockId, Connection, Entry};
use crate::ports::{Ports, used_ports};
use block_trait::Block;
use std::alloc::{AllocError, Global};
use stream_model::Policy;

/// The first refusal of the ports that blocks use: the lowest gap, then the lowest block with too few, then the lowest
/// with tags from one to one and unequal numbers of inputs and outputs.
pub fn port_fault<B: Block>(
    alloc: Global,
    blocks: &[Entry<B>],
    connections: &[Connection],
) -> Result<Option<GraphFault>, AllocError>
    requires few { length blocks.now ≤ 256 }
    requires within { AreWithin (length blocks.now) connections.now }
    ensures { IfOk result (λ fault. fault ≡ told Limit.Blocks (first_fault
        (port_faults (net_of B.meaning (graph_of [] blocks.now connections.now))))) }
{
    let inputs = used_ports(alloc, blocks.len(), connections, Side::In)?;
    let outputs = used_ports(alloc, blocks.len(), connections, Side::Out)?;
    'gaps: for block in 0..blocks.len() {
        if let Some(fault) = gap_of(block, &inputs[block], &outputs[block]) {
            return Ok(Some(fault));
        }
    }
    'few: for block in 0..blocks.len() {
        if has_few(&blocks[block], &inputs[block], &outputs[block]) {
            return Ok(Some(GraphFault::TooFewPorts {
                block: BlockId(block as u32),
            }));
        }
    }
    'unequal: for block in 0..blocks.len() {
        if is_unequal(&blocks[block], &inputs[block], &outputs[block]) {
            return Ok(Some(GraphFault::OneToOne {
                block: BlockId(block as u32),
            }));
        }
    }
    Ok(None)
}

// The lowest gap of a block, inputs first.
fn gap_of(block: usize, inputs: &Ports, outputs: &Ports) -> Option<GraphFault>
    requires { block < 256 }
    ensures { result ≡ told Limit.Blocks (gap_in block inputs.now outputs.now) }
{
    if let Some(port) = inputs.gap {
        return Some(GraphFault::PortGap {
            block: BlockId(block as u32),
            side: Side::In,
            port,
        });
    }
    if let Some(port) = outputs.gap {
        return Some(GraphFault::PortGap {
            block: BlockId(block as u32),
            side: Side::Out,
            port,
        });
    }
    None
}

// Whether fewer ports of a side are used than the block asks for.
fn has_few<B: Block>(entry: &Entry<B>, inputs: &Ports, outputs: &Ports) -> bool
    ensures { result ≡ (nat_lt inputs.now.used (node_of B.meaning entry.now).meaning.inputs.least
        || nat_lt outputs.now.used (node_of B.meaning entry.now).meaning.outputs.least) }
{
    inputs.used < entry.block.inputs().least as usize
        || outputs.used < entry.block.outputs().least as usize
}

// Whether tags are to go from one to one, and there are not as many inputs as outputs.
fn is_unequal<B: Block>(entry: &Entry<B>, inputs: &Ports, outputs: &Ports) -> bool
    ensures { result ≡ (is_one (node_of B.meaning entry.now).policy && not (inputs.now.used == outputs.now.used)) }
{
    match entry.options.policy {
        Policy::One => inputs.used != outputs.used,
        Policy::None | Policy::All => false,
    }
}
