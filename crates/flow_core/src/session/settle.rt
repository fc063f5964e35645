//! The command that steps all blocks.

ghost use Rattle.std.specs.Prelude.{◌≡◌, IfOk};
ghost use Rattle.stream_model.specs.Machine.{is_idle};
ghost use Rattle.flowgraph.specs.Flowgraph.{net_of};
ghost use Rattle.flow_core.specs.Session.{KeepsJobs, Settles, graph_of, in_state, kept_in, standing_of};

use crate::session::calls::refused;
use crate::turn::TURN;
use block_trait::Block;
use plant::{Job, Plant, PlantFault, Settled};
use script_text::Reply;
use std::alloc::{AllocError, Global};

/// Steps all blocks until none can act. While a job is out it does nothing.
pub(crate) fn settle_all<B: Block>(
    alloc: Global,
    plant: &mut Plant<B>,
    jobs: &[Option<Job<B>>],
) -> Result<Vec<u8>, AllocError>
    requires { KeepsJobs (net_of B.meaning plant.old.graph) plant.old.graph plant.old.state jobs.now }
    ensures same { plant.new ≡ in_state plant.old plant.new.state }
    ensures jobs { KeepsJobs (net_of B.meaning plant.new.graph) plant.new.graph plant.new.state jobs.now }
    ensures settles { let old = standing_of plant.old (kept_in jobs.now) in
        IfOk result (λ line. Settles (is_idle plant.old.state) (graph_of B.meaning plant.old) old
        (standing_of plant.new (kept_in jobs.now)) line.items) }
{
    plant.recall();
    if !plant.idle() {
        return Reply::Busy.to_line(alloc);
    }
    match plant.settle(alloc, TURN) {
        Ok(Settled::Done) => Reply::Settled(true).to_line(alloc),
        Ok(Settled::Quiet) => Reply::Settled(false).to_line(alloc),
        Err(_) => refused(alloc, PlantFault::Memory),
    }
}
