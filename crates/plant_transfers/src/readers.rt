//! The readers at the inputs of a block: they take what its firings take, and leave when it ends.
ghost use Rattle.std.specs.Prelude.{◌≡◌};
ghost use Rattle.stream_model.specs.Network.{writers_of};
ghost use Rattle.flowgraph.specs.Flowgraph.{net_of};
ghost use Rattle.plant_laws.specs.Changes.{taken_buffers, released_buffers};
ghost use Rattle.plant_transfers.specs.Rows.{rows_of, outputs_of, HasNoLessRoom};
ghost use Rattle.plant_transfers.specs.Steps.{CanTakeAll, CanLeaveAll};

use crate::firing_range::FiringRange;
use crate::inputs::taken;
use crate::rows::{advance, release};
use block_trait::Block;
use buffers::Buffer;
use flowgraph::{BlockId, Valid};

/// The readers of the inputs take what the firings take.
pub(crate) fn take<B: Block>(buffers: &mut [Vec<Buffer>], graph: &Valid<B>, firings: FiringRange)
    requires { CanTakeAll (net_of B.meaning graph.now) (outputs_of (λ row. row.items) buffers.old) firings.block.0
        firings.first firings.next }
    ensures outputs { let net = net_of B.meaning graph.now in
        outputs_of (λ row. row.items) buffers.new
        ≡ taken_buffers net firings.block.0 firings.first firings.next (writers_of net firings.block.0)
        (outputs_of (λ row. row.items) buffers.old) }
    ensures room { HasNoLessRoom (rows_of (λ row. row.items) buffers.old) (rows_of (λ row. row.items) buffers.new) }
{
    graph.recall();
    for (port, input) in graph.inputs(firings.block).iter().enumerate() {
        advance(buffers, input, taken(graph, firings, port));
    }
}

/// The buffers at the inputs wait for the block no longer.
pub(crate) fn leave<B: Block>(buffers: &mut [Vec<Buffer>], graph: &Valid<B>, block: BlockId)
    requires { CanLeaveAll (net_of B.meaning graph.now) (outputs_of (λ row. row.items) buffers.old) block.0 }
    ensures outputs { let net = net_of B.meaning graph.now in
        outputs_of (λ row. row.items) buffers.new ≡ released_buffers net (writers_of net block.0)
        (outputs_of (λ row. row.items) buffers.old) }
    ensures room { HasNoLessRoom (rows_of (λ row. row.items) buffers.old) (rows_of (λ row. row.items) buffers.new) }
{
    graph.recall();
    for input in graph.inputs(block) {
        release(buffers, input);
    }
}
