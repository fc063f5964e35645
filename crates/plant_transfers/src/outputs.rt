//! What firings give to the outputs of their block.
ghost use Rattle.std.specs.Prelude.{◌≡◌, ℕ, ◌<◌, length, map};
ghost use Rattle.std.specs.Vec.{vec_capacity};
ghost use Rattle.items.specs.Items.{numbers_of};
ghost use Rattle.flowgraph.specs.Flowgraph.{net_of};
ghost use Rattle.plant_laws.specs.Changes.{tags_brought};
ghost use Rattle.plant_storage.specs.Delivery.{delivered_to, delivered_buffers};
ghost use Rattle.plant_transfers.specs.Rows.{rows_of, outputs_of, state_in, with_buffer, OthersStay};
ghost use Rattle.plant_transfers.specs.Steps.{stored_with, CanRead, CanGiveTo, CanGiveAll};

use crate::brought::bring;
use crate::firing_range::FiringRange;
use crate::rows::push;
use block_trait::Block;
use buffers::Buffer;
use flowgraph::Valid;
use items::{Items, Tag};
use plant_storage::Intake;

/// Gives each output that is still read its items, and the tags that the firings bring. `list` is a place for these. It
/// takes no memory.
pub(crate) fn give_all<B: Block>(
    buffers: &mut [Vec<Buffer>],
    list: &mut Vec<Tag>,
    handed: &[Intake],
    graph: &Valid<B>,
    firings: FiringRange,
    outputs: &[Items],
)
    requires { CanGiveAll (net_of B.meaning graph.now) handed.now (rows_of (λ row. row.items) buffers.old)
        (vec_capacity list.old) firings.block.0 firings.first firings.next outputs.now }
    ensures outputs { outputs_of (λ row. row.items) buffers.new
        ≡ delivered_buffers (net_of B.meaning graph.now) (stored_with handed.now
        (rows_of (λ row. row.items) buffers.old)) firings.block.0 firings.first firings.next
        (map numbers_of outputs.now) }
    ensures others { (a q : ℕ) → (a ≡ firings.block.0 → ⊥) → state_in (rows_of (λ row. row.items) buffers.new) a q
        ≡ state_in (rows_of (λ row. row.items) buffers.old) a q }
    ensures capacity { vec_capacity list.new ≡ vec_capacity list.old }
{
    graph.recall();
    for (port, items) in outputs.iter().enumerate() {
        give(buffers, list, handed, graph, firings, port, items);
    }
}

// Gives an output its items and tags, where it is still read.
fn give<B: Block>(
    buffers: &mut [Vec<Buffer>],
    list: &mut Vec<Tag>,
    handed: &[Intake],
    graph: &Valid<B>,
    firings: FiringRange,
    port: usize,
    items: &Items,
)
    requires reads { CanRead (net_of B.meaning graph.now) (stored_with handed.now
        (rows_of (λ row. row.items) buffers.old)) firings.block.0 firings.first firings.next }
    requires tapes { firings.block.0 < length handed.now }
    requires gives { CanGiveTo (net_of B.meaning graph.now) handed.now (rows_of (λ row. row.items) buffers.old)
        (vec_capacity list.old) firings.block.0 port firings.first firings.next items.now }
    ensures outputs { let brought = tags_brought (net_of B.meaning graph.now)
        (stored_with handed.now (rows_of (λ row. row.items) buffers.old)) firings.block.0 port firings.first
        firings.next in
        outputs_of (λ row. row.items) buffers.new
        ≡ with_buffer (outputs_of (λ row. row.items) buffers.old) firings.block.0 port
        (λ buffer. delivered_to buffer (numbers_of items.now) brought) }
    ensures others { OthersStay firings.block.0 port (rows_of (λ row. row.items) buffers.old)
        (rows_of (λ row. row.items) buffers.new) }
    ensures capacity { vec_capacity list.new ≡ vec_capacity list.old }
{
    let row = &buffers[firings.block.0 as usize];
    if row[port].is_read() {
        bring(list, handed, buffers, graph, firings, port);
        push(buffers, firings.block, port, items, list);
    }
}
