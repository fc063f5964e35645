//! Claims, and steps: a claim with its work and its commit in one.

ghost use Rattle.std.specs.Prelude.{◌≡◌, ◌<◌, ◌≤◌, ℕ, true, false, length, IsOk, IfOk, OnOk, OnErr};
ghost use Rattle.std.specs.Arc.{arc_value};
ghost use Rattle.stream_model.specs.Network.{node_at};
ghost use Rattle.stream_model.specs.Claims as claims;
ghost use Rattle.stream_model.specs.Machine as machine;
ghost use Rattle.stream_model.specs.Machine.{counts_of, claim_of, next, step_of};
ghost use Rattle.machine_laws.specs.Stays.{in_flight};
ghost use Rattle.flowgraph.specs.Flowgraph.{net_of};
ghost use Rattle.firing_rules.specs.Decision.{answer_of};
ghost use Rattle.plant.specs.Plant.{IsRight, IsRightBut, IsFlight, IsLentTo, IsDoneBy, plant_of, with_claim_done, without_claim, spans_in};
ghost use Rattle.plant.specs.Memory.{LosesNone, NeedsNone};
ghost use Rattle.plant.specs.Answers.{Answered, IsOf, is_claimed, claim_reply, reply_of, step_reply};

use crate::answers::{Claim, Step};
use crate::parts::Parts;
use crate::source_tapes::SourceTapes;
use claimed_work::{Claimed, Job, Lent};
use firing_rules::Decision;
use flowgraph::{Block, BlockId};
use plant_faults::PlantFault;
use plant_transfers::{lend, make_room, release};
use std::alloc::{AllocError, Global};
use std::mem::replace;
use std::sync::Arc;

impl<B: Block> Parts<B> {
    /// Claims at most `max` firings of a block, and makes room for their commit.
    pub fn claim(&mut self, alloc: Global, block: BlockId, max: u32) -> Result<Claim<B>, PlantFault>
        requires right { IsRight B.meaning self.old }
        requires some { 1 ≤ max }
        ensures right { IsRight B.meaning self.new }
        ensures spans { spans_in self.new ≡ spans_in self.old }
        ensures answered { let old = plant_of self.old in Answered (next (net_of B.meaning old.graph) old.capacities
            old.state (machine.Claim block.0 max)) old (plant_of self.new) (reply_of claim_reply result) }
        ensures of_graph { IfOk result (IsOf (plant_of self.old).graph) }
    {
        self.graph.recall();
        if self.graph.len() <= block.0 as usize {
            return Err(PlantFault::NoSuchBlock);
        }
        match self.decide(block, max) {
            Decision::Claimed { first, count } => {
                let job = self.job(alloc, block, first, count)?;
                Ok(Claim::Claimed(job))
            }
            Decision::Done | Decision::Ended => Ok(Claim::Done),
            Decision::Busy => Ok(Claim::Busy),
            Decision::Waiting(need) => Ok(Claim::Waiting(need)),
        }
    }

    /// Claims at most `max` firings of a block, does their work and commits it.
    pub fn step(&mut self, alloc: Global, block: BlockId, max: u32) -> Result<Step, PlantFault>
        requires right { IsRight B.meaning self.old }
        requires some { 1 ≤ max }
        ensures right { IsRight B.meaning self.new }
        ensures spans { spans_in self.new ≡ spans_in self.old }
        ensures answered { let old = plant_of self.old in Answered (step_of (net_of B.meaning old.graph) old.capacities
            old.state block.0 max) old (plant_of self.new) (reply_of step_reply result) }
        ensures succeeds { let old = plant_of self.old in
            let net = net_of B.meaning old.graph in
            let counts = counts_of net old.capacities old.state block.0 in
            (count : ℕ) → claims.decide (node_at net block.0) counts max ≡ claims.Fires count
            → NeedsNone B.meaning self.old block.0 counts.firings count → block.0 < length old.graph.blocks
            → IsOk result }
        ensures keeps { LosesNone B.meaning self.old self.new }
    {
        self.graph.recall();
        if self.graph.len() <= block.0 as usize {
            return Err(PlantFault::NoSuchBlock);
        }
        match self.decide(block, max) {
            Decision::Claimed { first, count } => {
                self.fire(alloc, block, first, count)?;
                Ok(Step::Did(count))
            }
            Decision::Done | Decision::Ended => Ok(Step::Done),
            Decision::Busy => Ok(Step::Busy),
            Decision::Waiting(need) => Ok(Step::Waiting(need)),
        }
    }

    // Decides a claim, and makes it, without what its job needs. If the block ends, no buffer waits for it any longer.
    fn decide(&mut self, block: BlockId, max: u32) -> Decision
        requires right { IsRight B.meaning self.old }
        requires block { block.0 < length (arc_value self.old.graph).blocks }
        ensures decision { let old = plant_of self.old in
            let net = net_of B.meaning old.graph in
            let counts = counts_of net old.capacities old.state block.0 in
            result ≡ answer_of counts.firings (claims.decide (node_at net block.0) counts max) }
        ensures state { let old = plant_of self.old in plant_of self.new
            ≡ record old { state = (claim_of (net_of B.meaning old.graph) old.capacities old.state block.0 max).1 } }
        ensures right { IsRightBut B.meaning self.new block.0 }
        ensures spans { spans_in self.new ≡ spans_in self.old }
        ensures rest { is_claimed result ≡ false → IsRight B.meaning self.new }
        ensures lent { self.new.lent.items ≡ self.old.lent.items }
        ensures stores { is_claimed result ≡ true → self.new.stores ≡ self.old.stores }
    {
        self.graph.recall();
        let decision = self.firings.claim(
            &self.graph,
            self.capacities.rows(),
            &SourceTapes::of(&self.stores),
            block,
            max,
        );
        if let Decision::Ended = decision {
            release(&mut self.stores, &self.graph, block);
        }
        decision
    }

    // The job of the claim in flight of a block. If it is out of memory the claim is given up.
    fn job(
        &mut self,
        alloc: Global,
        block: BlockId,
        first: u64,
        count: u32,
    ) -> Result<Job<B>, AllocError>
        requires right { IsRightBut B.meaning self.old block.0 }
        requires flight { let old = plant_of self.old in IsFlight (net_of B.meaning old.graph) old.state block.0 first
            count }
        ensures right { IsRight B.meaning self.new }
        ensures spans { spans_in self.new ≡ spans_in self.old }
        ensures graph { IfOk result (λ job. job.graph ≡ (plant_of self.old).graph) }
        ensures job { let old = plant_of self.old in IfOk result (λ job. job.job
            ≡ in_flight (net_of B.meaning old.graph) old.state block.0) }
        ensures same { OnOk result (plant_of self.new ≡ plant_of self.old) }
        ensures given_up { let old = plant_of self.old in OnErr result
            (plant_of self.new ≡ record old { state = without_claim old.state block.0 }) }
    {
        self.graph.recall();
        match self.made_job(alloc, block, first, count) {
            Ok(job) => Ok(job),
            Err(refusal) => {
                self.firings.abandon(block);
                Err(refusal)
            }
        }
    }

    fn made_job(
        &mut self,
        alloc: Global,
        block: BlockId,
        first: u64,
        count: u32,
    ) -> Result<Job<B>, AllocError>
        requires right { IsRightBut B.meaning self.old block.0 }
        requires flight { let old = plant_of self.old in IsFlight (net_of B.meaning old.graph) old.state block.0 first
            count }
        ensures same { plant_of self.new ≡ plant_of self.old }
        ensures right { IsRightBut B.meaning self.new block.0 }
        ensures spans { spans_in self.new ≡ spans_in self.old }
        ensures room { OnOk result (IsRight B.meaning self.new) }
        ensures graph { IfOk result (λ job. job.graph ≡ (plant_of self.old).graph) }
        ensures job { let old = plant_of self.old in IfOk result (λ job. job.job
            ≡ in_flight (net_of B.meaning old.graph) old.state block.0) }
    {
        self.graph.recall();
        let graph = Arc::try_clone(&self.graph)?;
        self.lend(alloc, block, first, count)?;
        let lent = replace(&mut self.lent[block.0 as usize], Lent::new(alloc));
        let word = self.stores.words[block.0 as usize];
        Ok(Job::new(Claimed {
            graph,
            block,
            first,
            count,
            word,
            lent,
        }))
    }

    // Does the firings of the claim in flight of a block and commits them. If it is out of memory the claim is given
    // up.
    fn fire(
        &mut self,
        alloc: Global,
        block: BlockId,
        first: u64,
        count: u32,
    ) -> Result<(), AllocError>
        requires right { IsRightBut B.meaning self.old block.0 }
        requires flight { let old = plant_of self.old in IsFlight (net_of B.meaning old.graph) old.state block.0 first
            count }
        ensures right { IsRight B.meaning self.new }
        ensures spans { spans_in self.new ≡ spans_in self.old }
        ensures fired { let old = plant_of self.old in OnOk result (plant_of self.new
            ≡ record old { state = with_claim_done old.state block.0 }) }
        ensures succeeds { NeedsNone B.meaning self.old block.0 first count → IsOk result }
        ensures keeps { LosesNone B.meaning self.old self.new }
        ensures given_up { let old = plant_of self.old in OnErr result
            (plant_of self.new ≡ record old { state = without_claim old.state block.0 }) }
    {
        self.graph.recall();
        match self.lend(alloc, block, first, count) {
            Ok(()) => {
                let word = self.work(block, first, count);
                self.store(block, first, count, word);
                Ok(())
            }
            Err(refusal) => {
                self.firings.abandon(block);
                Err(refusal)
            }
        }
    }

    // Does the work of a block's claim in flight on what the block was lent, and returns the state word after it.
    fn work(&mut self, block: BlockId, first: u64, count: u32) -> u64
        requires right { IsRight B.meaning self.old }
        requires flight { let old = plant_of self.old in IsFlight (net_of B.meaning old.graph) old.state block.0 first
            count }
        requires lent { IsLentTo B.meaning self.old block.0 first count }
        ensures right { IsRight B.meaning self.new }
        ensures spans { spans_in self.new ≡ spans_in self.old }
        ensures same { plant_of self.new ≡ plant_of self.old }
        ensures work { IsDoneBy B.meaning self.new block.0 result }
        ensures keeps { LosesNone B.meaning self.old self.new }
    {
        self.graph.recall();
        let multiple = u64::from(self.graph.options(block).multiple);
        let lent = &mut self.lent[block.0 as usize];
        self.graph.block(block).work(
            self.stores.words[block.0 as usize],
            multiple * first,
            multiple * u64::from(count),
            &lent.windows,
            &lent.held,
            &mut lent.outputs,
        )
    }

    // Lends a block what the job of its claim in flight needs, in the memory of its last job, and makes room for the
    // commit.
    fn lend(
        &mut self,
        alloc: Global,
        block: BlockId,
        first: u64,
        count: u32,
    ) -> Result<(), AllocError>
        requires right { IsRightBut B.meaning self.old block.0 }
        requires flight { let old = plant_of self.old in IsFlight (net_of B.meaning old.graph) old.state block.0 first
            count }
        ensures same { plant_of self.new ≡ plant_of self.old }
        ensures right { IsRightBut B.meaning self.new block.0 }
        ensures spans { spans_in self.new ≡ spans_in self.old }
        ensures room { OnOk result (IsRight B.meaning self.new) }
        ensures lent { OnOk result (IsLentTo B.meaning self.new block.0 first count) }
        ensures succeeds { NeedsNone B.meaning self.old block.0 first count → IsOk result }
        ensures keeps { LosesNone B.meaning self.old self.new }
    {
        self.graph.recall();
        make_room(&mut self.stores, &self.graph, block, first, count)?;
        lend(
            alloc,
            &self.stores,
            &self.graph,
            block,
            first,
            count,
            &mut self.lent[block.0 as usize],
        )
    }
}
