//! How far each block of a graph is, and the calls that move it.

ghost use Rattle.std.specs.Prelude.{◌≡◌, ◌+◌, ◌^◌, ◌<◌, List, length, replicate, slice_set, IfOk};
ghost use Rattle.stream_model.specs.Network.{Handed, no_progress, node_at, progress_at};
ghost use Rattle.stream_model.specs.Claims as claims;
ghost use Rattle.stream_model.specs.Machine.{counts_of, claim_of, is_quiet, is_idle, is_all_done};
ghost use Rattle.machine_laws.specs.Waits.{wait_of};
ghost use Rattle.flowgraph.specs.Flowgraph.{net_of};
ghost use Rattle.firing_rules.specs.State.{rows_of, state_of, progress_of, HasTapes, IsRunning, StaysRunning};
ghost use Rattle.firing_rules.specs.Decision.{answer_of, claimed_by};
ghost use Rattle.firing_rules.specs.Firings.{committed, abandoned};
ghost use Rattle.firing_rules.specs.Waits.{wait_seen};

use crate::decision::Decision;
use crate::progress::{Progress, Tapes};
use crate::situation::Situation;
use crate::waits::BlockNeed;
use block_trait::Block;
use flowgraph::{BlockId, Valid};
use std::alloc::{AllocError, Global};
use std::marker::Model;

/// How far each block of a graph is: its committed and claimed firings, and whether it is done. Contracts see the list
/// of these.
#[derive(Debug, Drop)]
pub struct Firings {
    progress: Vec<Progress>,
    // How many blocks have a claim in flight, and how many are done.
    busy: usize,
    done: usize,
}

impl Model for Firings {
    ghost use Rattle.std.specs.Prelude.{List, map};
    ghost use Rattle.stream_model.specs.Network.{Progress};

    ghost Value = { List Progress };

    ghost use Rattle.firing_rules.specs.State.{progress_of};
    ghost use Rattle.firing_rules.specs.Firings.{IsCounted};

    ghost view = { λ f. map progress_of f.progress.items };

    ghost invariant = { λ f. IsCounted f.progress.items f.busy f.done };
}

impl Firings {
    /// The state of so many blocks, none of which has fired.
    pub fn new(alloc: Global, blocks: usize) -> Result<Firings, AllocError>
        ensures { IfOk result (λ firings. firings ≡ replicate blocks no_progress) }
    {
        let fresh = Progress {
            firings: 0,
            claimed: 0,
            done: false,
        };
        Ok(Firings {
            progress: Vec::from_elem(alloc, fresh, blocks)?,
            busy: 0,
            done: 0,
        })
    }

    /// How far a block is.
    pub fn progress(&self, block: BlockId) -> Progress
        requires { block.0 < length self.now }
        ensures value { progress_of result ≡ progress_at self.now block.0 }
        ensures small { result.firings + result.claimed < 2 ^ 62 }
    {
        self.progress[block.0 as usize]
    }

    /// Whether no claim is in flight.
    pub fn idle(&self) -> bool
        ensures { (hs : List Handed) → result ≡ is_idle (state_of hs self.now) }
    {
        self.busy == 0
    }

    /// Whether each block is done.
    pub fn all_done(&self) -> bool
        ensures { (hs : List Handed) → result ≡ is_all_done (state_of hs self.now) }
    {
        self.done == self.progress.len()
    }

    /// Decides a claim of at most `max` firings of a block, and makes it: from now on the claim is in flight, or the
    /// block is done. The cases come in the order of `Decision`. It looks only at counts, those of the block's own
    /// ports and readers.
    pub fn claim<B: Block, T: Tapes>(
        &mut self,
        graph: &Valid<B>,
        capacities: &[Vec<u32>],
        tapes: &T,
        block: BlockId,
        max: u32,
    ) -> Decision
        requires running { IsRunning (net_of B.meaning graph.now) (rows_of (λ row. row.items) capacities.now)
            (T.tapes tapes.now) self.old }
        requires block { block.0 < length graph.now.blocks }
        ensures decision { (hs : List Handed) → HasTapes (T.tapes tapes.now) hs →
            let net = net_of B.meaning graph.now in
            let counts = counts_of net (rows_of (λ row. row.items) capacities.now) (state_of hs self.old) block.0 in
            result ≡ answer_of counts.firings (claims.decide (node_at net block.0) counts max) }
        ensures progress { (hs : List Handed) → HasTapes (T.tapes tapes.now) hs →
            (claim_of (net_of B.meaning graph.now) (rows_of (λ row. row.items) capacities.now) (state_of hs self.old)
            block.0 max).1 ≡ state_of hs self.new }
        ensures running { IsRunning (net_of B.meaning graph.now) (rows_of (λ row. row.items) capacities.now)
            (T.tapes tapes.now) self.new }
    {
        graph.recall();
        let decision = Situation::of(graph, capacities, tapes, self, block).decide(max);
        let own = self.progress(block);
        self.put(block, claimed(own, decision));
        decision
    }

    /// Commits a block's claim in flight, and returns the number of its firings.
    pub fn commit(&mut self, block: BlockId) -> u32
        requires block { block.0 < length self.old }
        requires claimed { 0 < (progress_at self.old block.0).claimed }
        ensures count { result ≡ (progress_at self.old block.0).claimed }
        ensures progress { self.new ≡ committed self.old block.0 }
        ensures running { StaysRunning self.old self.new }
    {
        let own = self.progress(block);
        let firings = own.firings + u64::from(own.claimed);
        self.put(
            block,
            Progress {
                firings,
                claimed: 0,
                ..own
            },
        );
        own.claimed
    }

    /// Gives up a block's claim in flight.
    pub fn abandon(&mut self, block: BlockId)
        requires block { block.0 < length self.old }
        requires claimed { 0 < (progress_at self.old block.0).claimed }
        ensures progress { self.new ≡ abandoned self.old block.0 }
        ensures running { StaysRunning self.old self.new }
    {
        let own = self.progress(block);
        self.put(block, Progress { claimed: 0, ..own });
    }

    /// Whether no claim is in flight and each block is done or would wait. It looks at each block.
    pub fn quiet<B: Block, T: Tapes>(
        &self,
        graph: &Valid<B>,
        capacities: &[Vec<u32>],
        tapes: &T,
    ) -> bool
        requires { IsRunning (net_of B.meaning graph.now) (rows_of (λ row. row.items) capacities.now)
            (T.tapes tapes.now) self.now }
        ensures { (hs : List Handed) → HasTapes (T.tapes tapes.now) hs →
            result ≡ is_quiet (net_of B.meaning graph.now) (rows_of (λ row. row.items) capacities.now)
            (state_of hs self.now) }
    {
        if !self.idle() {
            return false;
        }
        for block in 0..graph.len() {
            if !Situation::of(graph, capacities, tapes, self, BlockId(block as u32)).rests() {
                return false;
            }
        }
        true
    }

    /// What a claim of a block would come to, or what the block waits for. It changes nothing.
    pub fn need<B: Block, T: Tapes>(
        &self,
        graph: &Valid<B>,
        capacities: &[Vec<u32>],
        tapes: &T,
        block: BlockId,
    ) -> BlockNeed
        requires running { IsRunning (net_of B.meaning graph.now) (rows_of (λ row. row.items) capacities.now)
            (T.tapes tapes.now) self.now }
        requires block { block.0 < length graph.now.blocks }
        ensures { (hs : List Handed) → HasTapes (T.tapes tapes.now) hs →
            wait_seen result ≡ wait_of (net_of B.meaning graph.now) (rows_of (λ row. row.items) capacities.now)
            (state_of hs self.now) block.0 }
    {
        Situation::of(graph, capacities, tapes, self, block).need()
    }

    // Replaces the progress of a block.
    fn put(&mut self, block: BlockId, next: Progress)
        requires block { block.0 < length self.old }
        requires small { next.firings + next.claimed < 2 ^ 62 }
        ensures { self.new ≡ slice_set self.old block.0 (progress_of next) }
    {
        let at = block.0 as usize;
        let own = self.progress[at];
        self.busy = self.busy + usize::from(0 < next.claimed) - usize::from(0 < own.claimed);
        self.done = self.done + usize::from(next.done) - usize::from(own.done);
        self.progress[at] = next;
    }
}

// The progress of a block once a claim is decided.
fn claimed(own: Progress, decision: Decision) -> Progress
    ensures { progress_of result ≡ claimed_by (progress_of own) decision }
{
    match decision {
        Decision::Claimed { count, .. } => Progress {
            claimed: count,
            ..own
        },
        Decision::Ended => Progress { done: true, ..own },
        Decision::Done | Decision::Busy | Decision::Waiting(_) => own,
    }
}
