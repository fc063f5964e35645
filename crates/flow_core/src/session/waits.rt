//! The command that asks what a block waits for.

ghost use Rattle.std.specs.Prelude.{◌≡◌, ◌<◌, length, IfOk, Ok};
ghost use Rattle.machine_laws.specs.Waits.{wait_of, waited_for};
ghost use Rattle.flowgraph.specs.Flowgraph.{net_of};
ghost use Rattle.plant.specs.Waits.{wait_in};
ghost use Rattle.script_text.specs.Replies.{line_text};
ghost use Rattle.flow_core.specs.Session.{wait_told, wait_text};

use block_trait::Block;
use plant::{BlockId, BlockNeed, Plant};
use script_text::Reply;
use std::alloc::{AllocError, Global};

/// Tells what a block waits for.
pub(crate) fn why<B: Block>(
    alloc: Global,
    plant: &Plant<B>,
    block: BlockId,
) -> Result<Vec<u8>, AllocError>
    requires { block.0 < length plant.now.graph.blocks }
    ensures { IfOk result (λ line. line.items ≡ line_text (wait_text plant.now.graph.names
        (wait_of (net_of B.meaning plant.now.graph) plant.now.capacities plant.now.state block.0))) }
{
    let graph = plant.graph();
    match need(plant, block) {
        BlockNeed::Done => Reply::Done.to_line(alloc),
        BlockNeed::Busy => Reply::Busy.to_line(alloc),
        BlockNeed::Ready => Reply::Ready.to_line(alloc),
        BlockNeed::Feed => Reply::WaitsFeed.to_line(alloc),
        BlockNeed::Items { port, writer } => {
            let writer = graph.name(writer);
            Reply::WaitsItems { port, writer }.to_line(alloc)
        }
        BlockNeed::Room { port, reader } => {
            let reader = graph.name(reader);
            Reply::WaitsRoom { port, reader }.to_line(alloc)
        }
    }
}

/// What a block of the graph waits for. If it waits for a block, that is one of the graph.
pub(crate) fn need<B: Block>(plant: &Plant<B>, block: BlockId) -> BlockNeed
    requires { block.0 < length plant.now.graph.blocks }
    ensures value { wait_told (wait_in (Ok result)) ≡ wait_of (net_of B.meaning plant.now.graph) plant.now.capacities
        plant.now.state block.0 }
    ensures inside { waited_for block.0 (wait_told (wait_in (Ok result))) < length plant.now.graph.blocks }
{
    plant.recall();
    match plant.need(block) {
        Ok(need) => need,
        Err(_) => unreachable!(),
    }
}
