//! The worker of a block.

ghost use Rattle.std.specs.Prelude.{◌≡◌, ◌≤◌, None};
ghost use Rattle.threads.specs.Worker.{BringsJob};

use crate::locked::Next;
use crate::shared::Shared;
use claimed_work::{Job, Worked};
use flowgraph::{Block, BlockId};
use scheduling::Gate;
use scheduling::woken::Woken;
use std::alloc::Global;
use std::sync::Wait;

/// A worker between two turns.
#[derive(Drop)]
pub struct Worker<B: Block> {
    /// The block that it claims for.
    pub block: BlockId,
    /// How many firings it claims at most.
    pub most: u32,
    /// What it has done since its last turn.
    pub brought: Option<Worked<B>>,
    ghost some: { 1 ≤ most },
}

impl<B: Block> Worker<B> {
    /// A worker that has done nothing yet.
    fn new(block: BlockId, most: u32) -> Worker<B>
        requires { 1 ≤ most }
        ensures block { result.block ≡ block }
        ensures most { result.most ≡ most }
        ensures brought { result.brought ≡ None }
    {
        Worker {
            block,
            most,
            brought: None,
        }
    }

    /// Passes the gate and does a job of its block, with no lock held. The gate is told of it.
    fn works<G: Gate>(&mut self, gate: &G, job: Job<B>)
        requires { job.job.block ≡ self.old.block.0 }
        ensures brings { BringsJob job self.new.brought }
        ensures block { self.new.block ≡ self.old.block }
        ensures most { self.new.most ≡ self.old.most }
    {
        let firings = job.count();
        gate.pass(self.block, job.first());
        gate.begins(self.block);
        self.brought = Some(job.work());
        gate.worked(self.block, firings);
    }
}

/// Turn after turn of a block's worker, until it leaves.
pub fn work<B: Block, G: Gate + Drop, R: Wait>(
    rt: &R,
    alloc: Global,
    shared: &Shared<B, G>,
    block: BlockId,
) {
    let mut worker = Worker::new(block, shared.share(rt, block));
    for _ in rt.forever() {
        let mut woken = Woken::new();
        let next = shared.turn(rt, alloc, &mut worker, &mut woken);
        shared.wake(&woken);
        match next {
            Next::Work(job) => worker.works(&shared.gate, job),
            Next::Sleep(need) => {
                shared.gate.waits(block, need);
                shared.sleep(rt, block);
            }
            Next::Leave => return,
        }
    }
}
