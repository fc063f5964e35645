//! Jobs.
ghost use Rattle.std.specs.Prelude.{◌≡◌, ◌*◌, ◌<◌, [], length, map, All, slice_index_or, IfOk};
ghost use Rattle.std.specs.Arc.{arc_value};
ghost use Rattle.stream_model.specs.Network.{node_at, used_outputs};
ghost use Rattle.items.specs.Items.{numbers_of};
ghost use Rattle.settings.specs.Values.{held_of};
ghost use Rattle.block_trait.specs.Work.{IsReady};
ghost use Rattle.flowgraph.specs.Flowgraph.{net_of};
ghost use Rattle.claimed_work.specs.Jobs.{CanDo, AreTaken, job_in};

use crate::claimed::Claimed;
use crate::copies::{copied_settings, copied_windows, like_outputs};
use crate::lent::Lent;
use crate::worked::Worked;
use block_trait::Block;
use flowgraph::BlockId;
use items::Items;
use std::alloc::{AllocError, Global};
use std::fmt;
use std::marker::Model;
use std::sync::Arc;

/// Firings of a block that were claimed and are to be done. A contract sees the graph, and the job as the model has it.
#[derive(Drop)]
pub struct Job<B: Block> {
    claimed: Claimed<B>,
}

impl<B: Block> fmt::Debug for Job<B> {
    fn fmt<W: fmt::Write>(&self, f: &mut fmt::Formatter<W>) -> fmt::Result {
        f.debug_struct("Job").finish_non_exhaustive()
    }
}

impl<B: Block> Model for Job<B> {
    ghost use Rattle.std.specs.Prelude.{length, ◌<◌, ◌≡◌};
    ghost use Rattle.stream_model.specs.Network.{used_outputs};
    ghost use Rattle.claimed_work.specs.Jobs.{JobState, CanDo, job_in};
    ghost use Rattle.std.specs.Arc.{arc_value};
    ghost use Rattle.flowgraph.specs.Flowgraph.{net_of};

    ghost Value = { JobState B };

    ghost view = { λ j. record { graph = arc_value j.claimed.graph; job = job_in j.claimed } };

    ghost invariant = { λ j. let own = j.claimed in let net = net_of B.meaning (arc_value own.graph) in
        (own.block.0 < length (arc_value own.graph).blocks) × (length own.lent.outputs.items
        ≡ used_outputs net own.block.0)
        × CanDo net (job_in own) own.lent.windows.items own.lent.held.items own.lent.outputs.items };
}

impl<B: Block> Job<B> {
    /// The job of these firings, which their block has to be able to do.
    pub fn new(claimed: Claimed<B>) -> Job<B>
        requires block { claimed.block.0 < length (arc_value claimed.graph).blocks }
        requires outputs { length claimed.lent.outputs.items ≡ used_outputs (net_of B.meaning (arc_value claimed.graph))
            claimed.block.0 }
        requires can { CanDo (net_of B.meaning (arc_value claimed.graph)) (job_in claimed) claimed.lent.windows.items
            claimed.lent.held.items claimed.lent.outputs.items }
        ensures graph { result.graph ≡ arc_value claimed.graph }
        ensures job { result.job ≡ job_in claimed }
    {
        Job { claimed }
    }

    /// What was claimed.
    pub fn claimed(&self) -> &Claimed<B>
        ensures graph { arc_value result.now.graph ≡ self.now.graph }
        ensures job { job_in result.now ≡ self.now.job }
        ensures types { AreTaken (net_of B.meaning self.now.graph) self.now.job.block result.now.lent.windows.items }
    {
        &self.claimed
    }

    /// The block.
    pub fn block(&self) -> BlockId
        ensures value { result.0 ≡ self.now.job.block }
        ensures inside { result.0 < length self.now.graph.blocks }
    {
        self.claimed.block
    }

    /// The number of the first firing.
    pub fn first(&self) -> u64
        ensures { result ≡ self.now.job.first }
    {
        self.claimed.first
    }

    /// How many firings it is.
    pub fn count(&self) -> u32
        ensures { result ≡ self.now.job.count }
    {
        self.claimed.count
    }

    /// The items of an input that the firings take, behind the past that they read.
    pub fn window(&self, port: usize) -> &Items
        requires { port < length self.now.job.windows }
        ensures { numbers_of result.now ≡ slice_index_or self.now.job.windows port [] }
    {
        &self.claimed.lent.windows[port]
    }

    /// What it was lent, with the places for its outputs as they were.
    pub fn into_lent(self) -> Lent
        ensures windows { map numbers_of result.windows.items ≡ self.job.windows }
        ensures held { map held_of result.held.items ≡ self.job.held }
        ensures outputs { length result.outputs.items ≡ self.job.outputs }
        ensures taken { AreTaken (net_of B.meaning self.graph) self.job.block result.windows.items }
        ensures ready { let n = node_at (net_of B.meaning self.graph) self.job.block in
            All (IsReady n.meaning (n.multiple * self.job.first) (n.multiple * self.job.count)) result.outputs.items }
    {
        self.claimed.lent
    }

    /// The same job in memory of its own. It fails only where the allocator refuses.
    pub fn copy(&self, alloc: Global) -> Result<Job<B>, AllocError>
        ensures { IfOk result (λ copy. copy ≡ self.now) }
    {
        let own = &self.claimed;
        Ok(Job {
            claimed: Claimed {
                graph: Arc::try_clone(&own.graph)?,
                block: own.block,
                first: own.first,
                count: own.count,
                word: own.word,
                lent: Lent {
                    windows: copied_windows(alloc, &own.lent.windows)?,
                    held: copied_settings(alloc, &own.lent.held)?,
                    outputs: like_outputs(alloc, &own.lent.outputs)?,
                },
            },
        })
    }

    /// Does the work. It takes no memory.
    pub fn work(self) -> Worked<B>
        ensures graph { result.graph ≡ self.graph }
        ensures job { result.job ≡ self.job }
    {
        let Claimed {
            graph,
            block,
            first,
            count,
            word,
            lent,
        } = self.claimed;
        let Lent {
            windows,
            held,
            mut outputs,
        } = lent;
        graph.recall();
        let multiple = u64::from(graph.options(block).multiple);
        let next = graph.block(block).work(
            word,
            multiple * first,
            multiple * u64::from(count),
            &windows,
            &held,
            &mut outputs,
        );
        let claimed = Claimed {
            graph,
            block,
            first,
            count,
            word,
            lent: Lent {
                windows,
                held,
                outputs,
            },
        };
        Worked { claimed, next }
    }
}
