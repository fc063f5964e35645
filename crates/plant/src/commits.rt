//! Jobs that are given back: done, or given up.

ghost use Rattle.std.specs.Prelude.{◌≡◌, OnOk};
ghost use Rattle.stream_model.specs.Machine as machine;
ghost use Rattle.stream_model.specs.Machine.{commit_of, abandon_of};
ghost use Rattle.flowgraph.specs.Flowgraph.{net_of};
ghost use Rattle.plant.specs.Own.{is_own};
ghost use Rattle.plant.specs.Plant.{IsRight, IsFlight, IsDoneBy, plant_of, with_claim_done, spans_in};
ghost use Rattle.plant.specs.Memory.{HoldsJob, HoldsWork};
ghost use Rattle.plant.specs.Answers.{IsTaken};

use crate::answers::Did;
use crate::flight::is_in_flight;
use crate::parts::Parts;
use claimed_work::{Job, Worked};
use flowgraph::{Block, BlockId};
use plant_transfers::deliver;

impl<B: Block> Parts<B> {
    /// Commits the work of the claim in flight of a block. Any other work comes back.
    pub fn commit(&mut self, worked: Worked<B>) -> Result<Did, Worked<B>>
        requires { IsRight B.meaning self.old }
        ensures right { IsRight B.meaning self.new }
        ensures spans { spans_in self.new ≡ spans_in self.old }
        ensures taken { let old = plant_of self.old in
            IsTaken (λ d. machine.Did d.0) (commit_of (net_of B.meaning old.graph) old.state
            (is_own B.eq old.graph worked.graph worked.job.block) worked.job) old (plant_of self.new) worked result }
        ensures kept { OnOk result (HoldsWork self.new worked.job.block worked.job.windows worked.outputs) }
    {
        self.graph.recall();
        let claimed = worked.claimed();
        if !is_in_flight(&self.stores, &self.firings, &self.graph, claimed) {
            return Err(worked);
        }
        claimed.graph.recall();
        worked.recall();
        let (block, first, count) = (claimed.block, claimed.first, claimed.count);
        let word = worked.next_word();
        self.lent[block.0 as usize] = worked.into_lent();
        self.store(block, first, count, word);
        Ok(Did(count))
    }

    /// Gives up the claim in flight of a block. Any other job comes back.
    pub fn abandon(&mut self, job: Job<B>) -> Result<(), Job<B>>
        requires { IsRight B.meaning self.old }
        ensures right { IsRight B.meaning self.new }
        ensures spans { spans_in self.new ≡ spans_in self.old }
        ensures taken { let old = plant_of self.old in
            IsTaken (λ u. machine.Abandoned) (abandon_of (net_of B.meaning old.graph) old.state
            (is_own B.eq old.graph job.graph job.job.block) job.job) old (plant_of self.new) job result }
        ensures kept { OnOk result (HoldsJob (net_of B.meaning job.graph) self.new job.job) }
    {
        self.graph.recall();
        if !is_in_flight(&self.stores, &self.firings, &self.graph, job.claimed()) {
            return Err(job);
        }
        let block = job.block();
        self.firings.abandon(block);
        self.lent[block.0 as usize] = job.into_lent();
        Ok(())
    }

    /// Commits a block's claim in flight. The result of its work lies in the places that the block was lent.
    pub fn store(&mut self, block: BlockId, first: u64, count: u32, word: u64)
        requires right { IsRight B.meaning self.old }
        requires flight { let old = plant_of self.old in IsFlight (net_of B.meaning old.graph) old.state block.0 first
            count }
        requires work { IsDoneBy B.meaning self.old block.0 word }
        ensures right { IsRight B.meaning self.new }
        ensures spans { spans_in self.new ≡ spans_in self.old }
        ensures state { let old = plant_of self.old in plant_of self.new
            ≡ record old { state = with_claim_done old.state block.0 } }
        ensures lent { self.new.lent.items ≡ self.old.lent.items }
    {
        self.graph.recall();
        let lent = &self.lent[block.0 as usize];
        deliver(
            &mut self.stores,
            &self.graph,
            block,
            first,
            count,
            &lent.windows,
            &lent.outputs,
            word,
        );
        self.firings.commit(block);
    }
}
