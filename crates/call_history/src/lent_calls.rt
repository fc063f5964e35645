//! The calls of turns on the plant under the lock, which they are lent.

ghost use Rattle.std.specs.Prelude.{◌≡◌, ◌≤◌, IfOk};
ghost use Rattle.stream_model.specs.Machine as machine;
ghost use Rattle.stream_model.specs.Machine.{next, commit_of, step_of};
ghost use Rattle.flowgraph.specs.Flowgraph.{net_of};
ghost use Rattle.plant.specs.Own.{is_own};
ghost use Rattle.plant.specs.Answers.{Answered, IsOf, IsTaken, claim_reply, reply_of, step_reply};

use claimed_work::Worked;
use flowgraph::{Block, BlockId};
use plant::{Claim, Did, Plant, PlantFault, Step};
use std::alloc::Global;

/// Claims for a worker, as the plant does.
pub fn claim_in<B: Block>(
    plant: &mut Plant<B>,
    alloc: Global,
    block: BlockId,
    max: u32,
) -> Result<Claim<B>, PlantFault>
    requires { 1 ≤ max }
    ensures answered { Answered (next (net_of B.meaning plant.old.graph) plant.old.capacities plant.old.state
        (machine.Claim block.0 max)) plant.old plant.new (reply_of claim_reply result) }
    ensures of_graph { IfOk result (IsOf plant.old.graph) }
{
    plant.claim(alloc, block, max)
}

/// Steps a block, as the plant does.
pub fn step_in<B: Block>(
    plant: &mut Plant<B>,
    alloc: Global,
    block: BlockId,
    max: u32,
) -> Result<Step, PlantFault>
    requires { 1 ≤ max }
    ensures { Answered (step_of (net_of B.meaning plant.old.graph) plant.old.capacities plant.old.state block.0 max)
        plant.old plant.new (reply_of step_reply result) }
{
    plant.step(alloc, block, max)
}

/// Commits what a worker has done, as the plant does.
pub fn commit_in<B: Block>(plant: &mut Plant<B>, worked: Worked<B>) -> Result<Did, Worked<B>>
    ensures { IsTaken (λ d. machine.Did d.0) (commit_of (net_of B.meaning plant.old.graph) plant.old.state
        (is_own B.eq plant.old.graph worked.graph worked.job.block) worked.job) plant.old plant.new worked result }
{
    plant.commit(worked)
}
