//! Commands that make claims and give them back.

ghost use Rattle.std.specs.Prelude.{◌≡◌, ◌≤◌, ◌<◌, length, IfOk};
ghost use Rattle.flowgraph.specs.Flowgraph.{net_of};
ghost use Rattle.flow_core.specs.Session.{KeepsJobs, Gives, standing_of, kept_in, in_state, claim_answer, commit_answer, abandon_answer};

use crate::session::calls::{refused, waiting};
use block_trait::Block;
use plant::{BlockId, Claim, Did, Job, Plant};
use script_text::Reply;
use std::alloc::{AllocError, Global};

// The number that refuses a claim that is not kept.
const FOREIGN: u32 = 30;

/// Claims firings of a block, and keeps the job.
pub(crate) fn claim<B: Block>(
    alloc: Global,
    plant: &mut Plant<B>,
    jobs: &mut [Option<Job<B>>],
    block: BlockId,
    max: u32,
) -> Result<Vec<u8>, AllocError>
    requires some { 1 ≤ max }
    requires inside { block.0 < length jobs.old }
    requires jobs { KeepsJobs (net_of B.meaning plant.old.graph) plant.old.graph plant.old.state jobs.old }
    ensures kept { plant.new ≡ in_state plant.old plant.new.state }
    ensures jobs { KeepsJobs (net_of B.meaning plant.new.graph) plant.new.graph plant.new.state jobs.new }
    ensures gives { let old = standing_of plant.old (kept_in jobs.old) in
        IfOk result (λ line. Gives (claim_answer (net_of B.meaning plant.old.graph) plant.old.capacities old block.0
        max) old (standing_of plant.new (kept_in jobs.new)) line.items) }
{
    plant.recall();
    match plant.claim(alloc, block, max) {
        Ok(Claim::Claimed(job)) => {
            let (first, count) = (job.first(), job.count());
            jobs[block.0 as usize] = Some(job);
            Reply::Claimed { first, count }.to_line(alloc)
        }
        Ok(Claim::Done) => Reply::Done.to_line(alloc),
        Ok(Claim::Busy) => Reply::Busy.to_line(alloc),
        Ok(Claim::Waiting(need)) => waiting(need).to_line(alloc),
        Err(fault) => refused(alloc, fault),
    }
}

/// Does the work of a block's kept job, and commits it.
pub(crate) fn commit<B: Block>(
    alloc: Global,
    plant: &mut Plant<B>,
    jobs: &mut [Option<Job<B>>],
    block: BlockId,
) -> Result<Vec<u8>, AllocError>
    requires inside { block.0 < length jobs.old }
    requires jobs { KeepsJobs (net_of B.meaning plant.old.graph) plant.old.graph plant.old.state jobs.old }
    ensures kept { plant.new ≡ in_state plant.old plant.new.state }
    ensures jobs { KeepsJobs (net_of B.meaning plant.new.graph) plant.new.graph plant.new.state jobs.new }
    ensures gives { let old = standing_of plant.old (kept_in jobs.old) in
        IfOk result (λ line. Gives (commit_answer (net_of B.meaning plant.old.graph) old block.0) old
        (standing_of plant.new (kept_in jobs.new)) line.items) }
{
    plant.recall();
    let Some(job) = jobs[block.0 as usize].take() else {
        return Reply::Refused(FOREIGN).to_line(alloc);
    };
    match plant.commit(job.work()) {
        Ok(Did(count)) => Reply::Did(count).to_line(alloc),
        Err(_) => unreachable!(),
    }
}

/// Gives up the claim of a block's kept job.
pub(crate) fn abandon<B: Block>(
    alloc: Global,
    plant: &mut Plant<B>,
    jobs: &mut [Option<Job<B>>],
    block: BlockId,
) -> Result<Vec<u8>, AllocError>
    requires inside { block.0 < length jobs.old }
    requires jobs { KeepsJobs (net_of B.meaning plant.old.graph) plant.old.graph plant.old.state jobs.old }
    ensures kept { plant.new ≡ in_state plant.old plant.new.state }
    ensures jobs { KeepsJobs (net_of B.meaning plant.new.graph) plant.new.graph plant.new.state jobs.new }
    ensures gives { let old = standing_of plant.old (kept_in jobs.old) in
        IfOk result (λ line. Gives (abandon_answer (net_of B.meaning plant.old.graph) old block.0) old
        (standing_of plant.new (kept_in jobs.new)) line.items) }
{
    plant.recall();
    let Some(job) = jobs[block.0 as usize].take() else {
        return Reply::Refused(FOREIGN).to_line(alloc);
    };
    match plant.abandon(job) {
        Ok(()) => Reply::Abandoned.to_line(alloc),
        Err(_) => unreachable!(),
    }
}
