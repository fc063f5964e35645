//! The claim in flight of a block.

ghost use Rattle.std.specs.Prelude.{◌≡◌, ◌<◌, ◌↔◌, length, map, IsTrue};
ghost use Rattle.stream_model.specs.Network.{progress_at};
ghost use Rattle.stream_model.specs.Machine as machine;
ghost use Rattle.machine_laws.specs.Stays.{in_flight};
ghost use Rattle.items.specs.Items.{numbers_of};
ghost use Rattle.settings.specs.Values.{held_of};
ghost use Rattle.flowgraph.specs.Flowgraph.{net_of};
ghost use Rattle.std.specs.Arc.{arc_value};
ghost use Rattle.claimed_work.specs.Jobs.{AreTaken, job_in};
ghost use Rattle.plant_storage.specs.Stores.{state_of};
ghost use Rattle.plant.specs.Flight.{IsStored, IsClaim};
ghost use Rattle.plant.specs.Own.{is_own};

use crate::seen::{are_held, are_seen, is_cut};
use block_trait::Block;
use claimed_work::Claimed;
use firing_rules::{Firings, Progress};
use flowgraph::{BlockId, Valid};
use items::Items;
use plant_storage::Stores;
use settings::Held;
use stream_model::Role;

/// Whether the job is its block's claim in flight: the same firings of an equal block, with the same windows, settings
/// and state word. It copies nothing.
pub(crate) fn is_in_flight<B: Block>(
    stores: &Stores,
    firings: &Firings,
    graph: &Valid<B>,
    job: &Claimed<B>,
) -> bool
    requires stored { IsStored (net_of B.meaning graph.now) stores.now firings.now }
    requires types { AreTaken (net_of B.meaning (arc_value job.now.graph)) job.now.block.0 job.now.lent.windows.items }
    ensures { result ≡ machine.is_in_flight (net_of B.meaning graph.now) (state_of stores.now.handed.items firings.now)
        (is_own B.eq graph.now (arc_value job.now.graph) job.now.block.0)
        (job_in job.now) }
{
    is_same_block(graph, &job.graph, job.block) && is_claim(stores, firings, graph, job)
}

// Whether both graphs have the block, and it is the same in both.
fn is_same_block<B: Block>(graph: &Valid<B>, other: &Valid<B>, block: BlockId) -> bool
    ensures { result ≡ is_own B.eq graph.now other.now block.0 }
{
    let at = block.0 as usize;
    at < graph.len() && at < other.len() && graph.block(block) == other.block(block)
}

// Whether the job is the claim in flight of its block, which is one of the graph.
fn is_claim<B: Block>(
    stores: &Stores,
    firings: &Firings,
    graph: &Valid<B>,
    job: &Claimed<B>,
) -> bool
    requires block { job.now.block.0 < length graph.now.blocks }
    requires stored { IsStored (net_of B.meaning graph.now) stores.now firings.now }
    requires types { AreTaken (net_of B.meaning graph.now) job.now.block.0 job.now.lent.windows.items }
    ensures { IsTrue result ↔ IsClaim (net_of B.meaning graph.now) stores.now firings.now
        (job_in job.now) }
{
    graph.recall();
    let outputs = graph.outputs(job.block);
    let word = stores.words[job.block.0 as usize];
    are_its_numbers(job, firings.progress(job.block), outputs, word)
        && is_given(
            stores,
            firings,
            graph,
            job.block,
            &job.lent.windows,
            &job.lent.held,
        )
}

// Whether the block has a claim in flight, and the job has its first firing, its count, its number of used outputs and
// its state word.
fn are_its_numbers<B: Block>(job: &Claimed<B>, own: Progress, outputs: usize, word: u64) -> bool
    ensures { IsTrue result ↔ ((0 < own.claimed) × (job.now.first ≡ own.firings) × (job.now.count ≡ own.claimed)
        × (length job.now.lent.outputs.items ≡ outputs) × (job.now.word ≡ word)) }
{
    0 < own.claimed
        && job.first == own.firings
        && job.count == own.claimed
        && job.lent.outputs.len() == outputs
        && job.word == word
}

// Whether windows and settings are those of the claim in flight of a block.
fn is_given<B: Block>(
    stores: &Stores,
    firings: &Firings,
    graph: &Valid<B>,
    block: BlockId,
    windows: &[Items],
    held: &[Held],
) -> bool
    requires block { block.0 < length graph.now.blocks }
    requires claimed { 0 < (progress_at firings.now block.0).claimed }
    requires stored { IsStored (net_of B.meaning graph.now) stores.now firings.now }
    requires types { AreTaken (net_of B.meaning graph.now) block.0 windows.now }
    ensures { let job = in_flight (net_of B.meaning graph.now) (state_of stores.now.handed.items firings.now) block.0 in
        IsTrue result ↔ ((map held_of held.now ≡ job.held) × (map numbers_of windows.now ≡ job.windows)) }
{
    graph.recall();
    let at = firings.progress(block);
    let (first, next) = (at.firings, at.firings + u64::from(at.claimed));
    let handed = &stores.handed[block.0 as usize];
    are_held(graph, block, &handed.timeline, first, next, held)
        && match graph.role(block) {
            Role::Source => is_cut(handed.tape.recording(), first, next, windows),
            Role::Work | Role::Keep | Role::Discard => {
                let inputs = graph.inputs(block);
                are_seen(&stores.buffers, graph, block, inputs, first, next, windows)
            }
        }
}
